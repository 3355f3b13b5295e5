ghost use Rattle.std.specs.Prelude.{◌≡◌, ℕ, ◌∷◌, ◌↔◌, List, [], IsTrue, IfOk, map, string_bytes};
ghost use Rattle.std.specs.Str.{bytes_eq};
ghost use Rattle.pipe_words.specs.Commands.{Says, SaysRun, SaysDump, SaysGen, IsGiven, IsMisfit, Misses, Stops, exactly, path, numbers, between, stage, given_row, run_row, dump_row, gen_row};
ghost use Rattle.pipe_words.specs.Numbers.{IsNumbers, IsBetween};
ghost use Rattle.pipe_words.specs.Paths.{IsPath};
ghost use Rattle.pipe_words.specs.Stages.{IsStage};
ghost use Rattle.pipe_words.specs.declared.command.WordsFault.TheVariants as fault;

use crate::numbers::{read_between, read_numbers, wrap_all};
use crate::paths::is_path;
use crate::stages::read_stage;
use crate::{Command, WordsFault};
use mir_syntax::{List, Name, Number, Stage};
use std::alloc::Global;

const MOST_STEPS: u32 = 1_000_000;

const MOST_START: u32 = 2_147_483_647;

const MOST_FUNCTIONS: u32 = 10_000;

fn is_word(word: &String, text: &[u8]) -> bool
    ensures test { result ≡ bytes_eq (string_bytes word.now) text.now }
    ensures same { IsTrue result ↔ (string_bytes word.now ≡ text.now) }
{
    word.as_bytes() == text
}

// The words behind one that is a text.
fn take_exactly<'a>(
    words: &'a [String],
    place: u32,
    text: &[u8],
) -> Result<&'a [String], WordsFault>
    ensures fits { IfOk result (λ rest. map string_bytes words.now ≡ text.now ∷ map string_bytes rest.now) }
    ensures stops { (k : ℕ) → result ≡ Err (fault.Bad k) → Stops (exactly text.now) (map string_bytes words.now) × (k ≡ place) }
{
    match words {
        [word, rest @ ..] => {
            if is_word(word, text) {
                Ok(rest)
            } else {
                Err(WordsFault::Bad(place))
            }
        }
        [] => Err(WordsFault::Bad(place)),
    }
}

// The path that comes first, and the words behind it.
fn take_path(alloc: Global, words: &[String], place: u32) -> Result<(Name, &[String]), WordsFault>
    ensures fits { IfOk result (λ found. (map string_bytes words.now ≡ found.0 ∷ map string_bytes found.1.now) × IsPath found.0) }
    ensures stops { (k : ℕ) → result ≡ Err (fault.Bad k) → Stops path (map string_bytes words.now) × (k ≡ place) }
{
    match words {
        [word, rest @ ..] => {
            if is_path(word.as_bytes()) {
                let mut path = List::new(alloc);
                path.extend(word.as_bytes())?;
                Ok((path, rest))
            } else {
                Err(WordsFault::Bad(place))
            }
        }
        [] => Err(WordsFault::Bad(place)),
    }
}

// The numbers that come first, and the words behind them.
fn take_numbers(
    alloc: Global,
    words: &[String],
    place: u32,
) -> Result<(List<Number>, &[String]), WordsFault>
    ensures fits { IfOk result (λ found. (word : List ℕ) × (map string_bytes words.now ≡ word ∷ map string_bytes found.1.now) × IsNumbers word found.0) }
    ensures stops { (k : ℕ) → result ≡ Err (fault.Bad k) → Stops numbers (map string_bytes words.now) × (k ≡ place) }
{
    match words {
        [word, rest @ ..] => match read_numbers(alloc, word.as_str())? {
            Some(found) => Ok((found, rest)),
            None => Err(WordsFault::Bad(place)),
        },
        [] => Err(WordsFault::Bad(place)),
    }
}

// The number between two, or one of the two, that comes first, and the words behind it.
fn take_between(
    words: &[String],
    place: u32,
    least: u32,
    most: u32,
) -> Result<(u32, &[String]), WordsFault>
    ensures fits { IfOk result (λ found. (word : List ℕ) × (map string_bytes words.now ≡ word ∷ map string_bytes found.1.now) × IsBetween least most word found.0) }
    ensures stops { (k : ℕ) → result ≡ Err (fault.Bad k) → Stops (between least most) (map string_bytes words.now) × (k ≡ place) }
{
    match words {
        [word, rest @ ..] => match read_between(word.as_bytes(), least, most) {
            Some(found) => Ok((found, rest)),
            None => Err(WordsFault::Bad(place)),
        },
        [] => Err(WordsFault::Bad(place)),
    }
}

// The stage that comes first, and the words behind it.
fn take_stage(words: &[String], place: u32) -> Result<(Stage, &[String]), WordsFault>
    ensures fits { IfOk result (λ found. (word : List ℕ) × (map string_bytes words.now ≡ word ∷ map string_bytes found.1.now) × IsStage word found.0) }
    ensures stops { (k : ℕ) → result ≡ Err (fault.Bad k) → Stops stage (map string_bytes words.now) × (k ≡ place) }
{
    match words {
        [word, rest @ ..] => match read_stage(word.as_bytes()) {
            Some(found) => Ok((found, rest)),
            None => Err(WordsFault::Bad(place)),
        },
        [] => Err(WordsFault::Bad(place)),
    }
}

// No word comes from a place on.
fn take_end(words: &[String], place: u32) -> Result<(), WordsFault>
    ensures fits { IfOk result (λ _. words.now ≡ []) }
    ensures stops { (k : ℕ) → result ≡ Err (fault.Bad k) → Misses place [] (map string_bytes words.now) k }
{
    if words.is_empty() {
        Ok(())
    } else {
        Err(WordsFault::Bad(place))
    }
}

// The answers and the number of steps that the words behind the arguments give; they begin at place 4.
fn parse_given(alloc: Global, words: &[String]) -> Result<(List<u128>, u64), WordsFault>
    ensures given { IfOk result (λ found. IsGiven (map string_bytes words.now) found.0 found.1) }
    ensures misfit { (k : ℕ) → result ≡ Err (fault.Bad k) → Misses 4 given_row (map string_bytes words.now) k }
{
    let rest = take_exactly(words, 4, b"--answers")?;
    let (numbers, rest) = take_numbers(alloc, rest, 5)?;
    let rest = take_exactly(rest, 6, b"--steps")?;
    let (steps, rest) = take_between(rest, 7, 0, MOST_STEPS)?;
    take_end(rest, 8)?;
    let answers = wrap_all(alloc, numbers.as_slice())?;
    Ok((answers, u64::from(steps)))
}

// The command whose first word is `run`, by the words behind it.
fn parse_run(alloc: Global, words: &[String]) -> Result<Command, WordsFault>
    ensures run { IfOk result (λ command. SaysRun (map string_bytes words.now) command) }
    ensures misfit { (k : ℕ) → result ≡ Err (fault.Bad k) → Misses 2 run_row (map string_bytes words.now) k }
{
    let (path, rest) = take_path(alloc, words, 2)?;
    let (args, rest) = take_numbers(alloc, rest, 3)?;
    let (answers, steps) = parse_given(alloc, rest)?;
    Ok(Command::Run(path, args, answers, steps))
}

// The command whose first word is `dump`, by the words behind it.
fn parse_dump(alloc: Global, words: &[String]) -> Result<Command, WordsFault>
    ensures dump { IfOk result (λ command. SaysDump (map string_bytes words.now) command) }
    ensures misfit { (k : ℕ) → result ≡ Err (fault.Bad k) → Misses 2 dump_row (map string_bytes words.now) k }
{
    let (stage, rest) = take_stage(words, 2)?;
    let (path, rest) = take_path(alloc, rest, 3)?;
    take_end(rest, 4)?;
    Ok(Command::Dump(stage, path))
}

// The command whose first word is `gen`, by the words behind it.
fn parse_gen(words: &[String]) -> Result<Command, WordsFault>
    ensures made { IfOk result (λ command. SaysGen (map string_bytes words.now) command) }
    ensures misfit { (k : ℕ) → result ≡ Err (fault.Bad k) → Misses 2 gen_row (map string_bytes words.now) k }
{
    let (start, rest) = take_between(words, 2, 0, MOST_START)?;
    let (functions, rest) = take_between(rest, 3, 1, MOST_FUNCTIONS)?;
    take_end(rest, 4)?;
    Ok(Command::Gen(start, functions))
}

// The command of a first word and the words behind it.
#[tactic(auto, using(crate::proofs::Rows::check_misses, crate::proofs::Rows::seq_misses, crate::proofs::Rows::dump_misses, crate::proofs::Rows::gen_misses, crate::proofs::Rows::run_misses, crate::proofs::Rows::none_misses, crate::proofs::Rows::says_dump, crate::proofs::Rows::says_gen, crate::proofs::Rows::says_run))]
fn parse_from(alloc: Global, first: &String, rest: &[String]) -> Result<Command, WordsFault>
    ensures says { IfOk result (λ command. Says (string_bytes first.now ∷ map string_bytes rest.now) command) }
    ensures misfit { (place : ℕ) → result ≡ Err (fault.Bad place) → IsMisfit (string_bytes first.now ∷ map string_bytes rest.now) place }
{
    if is_word(first, b"check") {
        take_end(rest, 2)?;
        Ok(Command::Check)
    } else if is_word(first, b"seq") {
        take_end(rest, 2)?;
        Ok(Command::Seq)
    } else if is_word(first, b"dump") {
        let command = parse_dump(alloc, rest)?;
        Ok(command)
    } else if is_word(first, b"gen") {
        let command = parse_gen(rest)?;
        Ok(command)
    } else if is_word(first, b"run") {
        let command = parse_run(alloc, rest)?;
        Ok(command)
    } else {
        Err(WordsFault::Bad(1))
    }
}

/// The command that the words after the program's name ask for.
///
/// # Errors
///
/// The place of the first word that doesn't fit the words of a command, or the place after the last where one is missing.
pub fn parse(alloc: Global, words: &[String]) -> Result<Command, WordsFault>
    ensures says { IfOk result (λ command. Says (map string_bytes words.now) command) }
    ensures misfit { (place : ℕ) → result ≡ Err (fault.Bad place) → IsMisfit (map string_bytes words.now) place }
{
    match words {
        [first, rest @ ..] => {
            let command = parse_from(alloc, first, rest)?;
            Ok(command)
        }
        [] => Err(WordsFault::Bad(1)),
    }
}
