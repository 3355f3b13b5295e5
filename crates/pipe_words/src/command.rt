use mir_syntax::{List, Name, Number, OutOfMemory, Stage};

/// What the program is asked for.
#[derive(Debug, Drop)]
pub enum Command {
    /// How many functions a crate has.
    Check,
    /// A crate's optimised text.
    Seq,
    /// A run: the function's path, its arguments, the answers of outside functions modulo 2^128, and the number of steps.
    Run(Name, List<Number>, List<u128>, u64),
    /// A function's text at a stage of the passes: the stage, whose step is there, and the function's path.
    Dump(Stage, Name),
    /// The text of a crate that is made from a number: the number, at most 2,147,483,647, and how many functions the crate has, 1 to 10,000.
    Gen(u32, u32),
}

/// Why words are no command.
#[derive(Clone, Copy, Debug, Drop, PartialEq, Eq)]
pub enum WordsFault {
    /// The place of the first word that doesn't fit, counted from 1; the place after the last where one is missing.
    Bad(u32),
    OutOfMemory,
}

impl From<OutOfMemory> for WordsFault {
    ghost use Rattle.std.specs.Prelude.{◌≡◌};
    ghost use Rattle.pipe_words.specs.declared.command.WordsFault.TheVariants as fault;

    ghost from_gives = { λ _ e. e ≡ fault.OutOfMemory };

    fn from(_error: OutOfMemory) -> WordsFault {
        WordsFault::OutOfMemory
    }
}
