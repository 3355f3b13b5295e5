ghost use Rattle.std.specs.Prelude.{◌≡◌, ◌++◌, IfOk, OnOk};
ghost use Rattle.mir_semantics.specs.Entry as sem;
ghost use Rattle.mir_meaning.specs.Programs.{shapes_in, type_in};
ghost use Rattle.mir_meaning.specs.Views.{value_of};
ghost use Rattle.mir_machine.specs.Seen.{code_in};
ghost use Rattle.mir_machine.specs.Runs.{seen_in};
ghost use Rattle.run_text.specs.RunText as spec;
ghost use Rattle.run_text.specs.RunText.{flat_text};
ghost use Rattle.run_text.specs.Outcomes.{outcome_line};
ghost use Rattle.mir_machine.specs.declared.outcome.Outcome.TheVariants.{Returned};

use crate::calls::put_calls;
use crate::integers::{put, put_behind};
use mir_entry::flat;
use mir_machine::{Outcome, RunResult};
use mir_meaning::datum::Datum;
use mir_syntax::{List, OutOfMemory, Program, TyId};
use std::alloc::Global;

/// Puts the flat form of a value behind a word; nothing where it has none.
fn put_flat(
    alloc: Global,
    out: &mut List<u8>,
    program: &Program,
    ty: TyId,
    value: &Datum,
) -> Result<(), OutOfMemory>
    ensures { OnOk result (out.new ≡ out.old ++ flat_text (sem.flat (shapes_in program.now) (type_in program.now ty) (value_of value.now))) }
{
    match flat(alloc, program, ty, value)? {
        Some(numbers) => put_behind(out, numbers.as_slice()),
        None => Ok(()),
    }
}

/// Puts the line of a returned value at the end.
fn put_returned(
    alloc: Global,
    out: &mut List<u8>,
    program: &Program,
    ty: TyId,
    value: &Datum,
) -> Result<(), OutOfMemory>
    ensures { OnOk result (out.new ≡ out.old ++ outcome_line program.now (type_in program.now ty) (Returned value.now)) }
{
    put(out, b"returned")?;
    put_flat(alloc, out, program, ty, value)?;
    put(out, b"\n")?;
    Ok(())
}

/// Puts the line of how a run stands at the end.
fn put_outcome(
    alloc: Global,
    out: &mut List<u8>,
    program: &Program,
    ty: TyId,
    outcome: &Outcome,
) -> Result<(), OutOfMemory>
    ensures { OnOk result (out.new ≡ out.old ++ outcome_line program.now (type_in program.now ty) outcome.now) }
{
    match outcome {
        Outcome::Going => put(out, b"going\n"),
        Outcome::Returned(value) => put_returned(alloc, out, program, ty, value),
        Outcome::Aborted(text, numbers) => {
            put(out, b"aborted \"")?;
            put(out, text.as_slice())?;
            put(out, b"\"")?;
            put_behind(out, numbers.as_slice())?;
            put(out, b"\n")
        }
        Outcome::NoAnswer => put(out, b"no answer\n"),
        Outcome::Undefined => put(out, b"undefined\n"),
    }
}

/// The text that is shown of a run of a function whose result has a type.
///
/// # Errors
///
/// `OutOfMemory`.
pub fn run_text(
    alloc: Global,
    program: &Program,
    ty: TyId,
    seen: &RunResult,
) -> Result<List<u8>, OutOfMemory>
    ensures { IfOk result (λ text. text ≡ spec.run_text (code_in program.now) (type_in program.now ty) (seen_in seen.now)) }
{
    let mut text = List::new(alloc);
    put_calls(alloc, &mut text, program, seen.trace.as_slice())?;
    put_outcome(alloc, &mut text, program, ty, &seen.outcome)?;
    Ok(text)
}
