ghost use Rattle.std.specs.Prelude.{◌≡◌, ◌≤◌, List, ℕ, Some, IfOk, IfErr, OnOk, IsErrOf, IsTrue, length};
ghost use Rattle.std.specs.Io.KnownBytes.{IsAtEnd};
ghost use Rattle.pipe_io.specs.Causes.{Rose};
ghost use Rattle.mir_syntax.specs.Crate.{crate_of};
ghost use Rattle.mir_syntax.specs.Ids.{IdsInTable};
ghost use Rattle.mir_rules.specs.Accepted.{most_bytes};
ghost use Rattle.mir_rules.specs.Formed.{is_formed};
ghost use Rattle.mir_rules.specs.Faults.{lines_fit};
ghost use Rattle.mirpipe_cli.specs.Refused.{IsRead, IsAccepted, IsFaulty, OfInput, IsNoDrop};

use crate::fault::{InputFault, Refusal};
use mir_reader::{Read, ReadRefused, read_program};
use mir_syntax::{Lines, List};
use mir_validate::{Fault, Valid, validate};
use pipe_io::{ReadFault, Source, read_all};
use read_formed::readings_are_formed;
use std::alloc::Global;

const MOST_BYTES: usize = 67_108_864;

/// The valid program of an accepted input, and the lines of its parts.
#[derive(Drop)]
pub struct Accepted {
    pub valid: Valid,
    pub lines: Lines,
}

// The bytes of an input that is not too long.
fn read_input<S: Source>(alloc: Global, source: &mut S) -> Result<List<u8>, Refusal>
    ensures whole { (input : List ℕ) → S.left source.old ≡ Some input → IfOk result (λ bytes. input ≡ bytes) }
    ensures short { IfOk result (λ bytes. length bytes ≤ most_bytes) }
    ensures refused { (input : List ℕ) → S.left source.old ≡ Some input → IfErr result (OfInput (λ fault. IsFaulty input fault × IsNoDrop fault)) }
    ensures at_end { OnOk result (IsAtEnd (S.left source.new)) }
    ensures later { S.faults source.old ≤ S.faults source.new }
    ensures fault { IsErrOf result Refusal.ReadFault → Rose (S.faults source.old) (S.faults source.new) }
    ensures kept { OnOk result (S.faults source.new ≡ S.faults source.old) }
    ensures kept_refused { IfErr result (OfInput (λ _. S.faults source.new ≡ S.faults source.old)) }
{
    match read_all(alloc, source, MOST_BYTES) {
        Ok(input) => {
            if input.over {
                Err(Refusal::Input(InputFault::Long))
            } else {
                Ok(input.bytes)
            }
        }
        Err(ReadFault::Failed) => Err(Refusal::ReadFault),
        Err(ReadFault::OutOfMemory) => Err(Refusal::OutOfMemory),
    }
}

// A program that was read, judged by all rules and limits.
fn judged(alloc: Global, read: Read) -> Result<Accepted, Refusal>
    requires ids { IdsInTable read.program }
    requires formed { IsTrue (is_formed (crate_of read.program)) }
    requires fit { IsTrue (lines_fit read.lines (crate_of read.program)) }
    ensures accepted { (input : List ℕ) → IsRead input (crate_of read.program) read.lines → IfOk result (λ accepted. IsAccepted input (crate_of accepted.valid) accepted.lines) }
    ensures refused { (input : List ℕ) → IsRead input (crate_of read.program) read.lines → IfErr result (OfInput (λ fault. IsFaulty input fault × IsNoDrop fault)) }
    ensures no_source { IsErrOf result Refusal.ReadFault → ⊥ }
{
    let lines = read.lines;
    match validate(alloc, read.program, &lines) {
        Ok(valid) => Ok(Accepted { valid, lines }),
        Err(refused) => match refused.fault {
            Fault::Rule { code, line } => Err(Refusal::Input(InputFault::Rule { code, line })),
            Fault::Limit { code, line } => Err(Refusal::Input(InputFault::Limit { code, line })),
            Fault::OutOfMemory => Err(Refusal::OutOfMemory),
        },
    }
}

// The accepted crate of a text.
fn accept(alloc: Global, bytes: &[u8]) -> Result<Accepted, Refusal>
    requires { length bytes.now ≤ most_bytes }
    ensures accepted { IfOk result (λ accepted. IsAccepted bytes.now (crate_of accepted.valid) accepted.lines) }
    ensures refused { IfErr result (OfInput (λ fault. IsFaulty bytes.now fault × IsNoDrop fault)) }
    ensures no_source { IsErrOf result Refusal.ReadFault → ⊥ }
{
    match read_program(alloc, bytes) {
        Ok(read) => {
            readings_are_formed();
            judged(alloc, read)
        }
        Err(refused) => match refused {
            ReadRefused::Fault { code, line } => {
                Err(Refusal::Input(InputFault::Text { code, line }))
            }
            ReadRefused::OutOfMemory => Err(Refusal::OutOfMemory),
        },
    }
}

/// The accepted crate that a source tells, or why there is none.
///
/// # Errors
///
/// `Input` with the fault of the input; `ReadFault`, only where the source's count of faults rose; `OutOfMemory`.
pub fn load<S: Source>(alloc: Global, source: &mut S) -> Result<Accepted, Refusal>
    ensures accepted { (input : List ℕ) → S.left source.old ≡ Some input → IfOk result (λ accepted. IsAccepted input (crate_of accepted.valid) accepted.lines) }
    ensures refused { (input : List ℕ) → S.left source.old ≡ Some input → IfErr result (OfInput (λ fault. IsFaulty input fault × IsNoDrop fault)) }
    ensures at_end { OnOk result (IsAtEnd (S.left source.new)) }
    ensures later { S.faults source.old ≤ S.faults source.new }
    ensures fault { IsErrOf result Refusal.ReadFault → Rose (S.faults source.old) (S.faults source.new) }
    ensures kept { OnOk result (S.faults source.new ≡ S.faults source.old) }
    ensures kept_refused { IfErr result (OfInput (λ _. S.faults source.new ≡ S.faults source.old)) }
{
    let bytes = read_input(alloc, source)?;
    accept(alloc, bytes.as_slice())
}
