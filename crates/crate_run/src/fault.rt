use mir_entry::EntryFault;
use mir_syntax::OutOfMemory;

/// Why there is no run.
#[derive(Clone, Copy, Debug, Drop, PartialEq, Eq)]
pub enum RunFault {
    /// No function has the path.
    NoFunction,
    /// The function can't be called from outside, or the numbers are the flat form of no arguments of its types.
    NoEntry,
    OutOfMemory,
}

impl From<OutOfMemory> for RunFault {
    ghost use Rattle.std.specs.Prelude.{◌≡◌};
    ghost use Rattle.crate_run.specs.declared.fault.RunFault.TheVariants as fault;

    ghost from_gives = { λ _ e. e ≡ fault.OutOfMemory };

    fn from(_error: OutOfMemory) -> RunFault {
        RunFault::OutOfMemory
    }
}
