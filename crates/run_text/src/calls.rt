ghost use Rattle.std.specs.Prelude.{◌≡◌, ◌++◌, map, IfOk, OnOk};
ghost use Rattle.mir_meaning.specs.Programs.{type_in};
ghost use Rattle.mir_machine.specs.Ends.{integer_in, trace_in};
ghost use Rattle.mir_machine.specs.Seen.{code_in, called_as};
ghost use Rattle.run_text.specs.RunText as spec;
ghost use Rattle.run_text.specs.RunText.{integer_at};

use crate::integers::{put, put_integer, put_integers};
use mir_machine::{Called, integer};
use mir_meaning::operand::scalar_of;
use mir_syntax::{List, Number, OutOfMemory, Program, TyId};
use std::alloc::Global;

/// The integer that bits of a type stand for.
fn integer_of(program: &Program, ty: TyId, bits: u128) -> Number
    ensures { integer_in result ≡ integer_at (type_in program.now ty) bits }
{
    match scalar_of(program, ty) {
        Some(scalar) => integer(scalar, bits),
        None => Number {
            negative: false,
            size: bits,
        },
    }
}

/// The integers of a call's arguments.
fn arguments(
    alloc: Global,
    program: &Program,
    types: &[TyId],
    bits: &[u128],
) -> Result<List<Number>, OutOfMemory>
    ensures { IfOk result (λ numbers. map integer_in numbers ≡ spec.arguments (map (type_in program.now) types.now) bits.now) }
{
    let mut numbers = List::with_capacity(alloc, bits.len())?;
    for (ty, bits) in types.iter().zip(bits) {
        numbers.push(integer_of(program, *ty, *bits))?;
    }
    Ok(numbers)
}

/// Puts a call's answer at the end; `()` is none.
fn put_answer(
    out: &mut List<u8>,
    program: &Program,
    ty: TyId,
    answer: Option<u128>,
) -> Result<(), OutOfMemory>
    ensures { OnOk result (out.new ≡ out.old ++ spec.answer_text (type_in program.now ty) answer) }
{
    match answer {
        Some(bits) => put_integer(out, integer_of(program, ty, bits)),
        None => put(out, b"()"),
    }
}

/// Puts the line of a call at the end.
fn put_call(
    alloc: Global,
    out: &mut List<u8>,
    program: &Program,
    call: &Called,
) -> Result<(), OutOfMemory>
    ensures { OnOk result (out.new ≡ out.old ++ spec.call_text (code_in program.now) (called_as call.now)) }
{
    let Some(outside) = program.outsides.get(call.out.0 as usize) else {
        return Ok(());
    };
    put(out, b"call ")?;
    put(out, outside.path.as_slice())?;
    put(out, b"(")?;
    let numbers = arguments(
        alloc,
        program,
        outside.args.as_slice(),
        call.args.as_slice(),
    )?;
    put_integers(out, numbers.as_slice())?;
    put(out, b") = ")?;
    put_answer(out, program, outside.result, call.answer)?;
    put(out, b"\n")?;
    Ok(())
}

/// Puts the lines of calls at the end, of which the oldest comes first.
///
/// # Errors
///
/// `OutOfMemory`.
pub fn put_calls(
    alloc: Global,
    out: &mut List<u8>,
    program: &Program,
    calls: &[Called],
) -> Result<(), OutOfMemory>
    ensures { OnOk result (out.new ≡ out.old ++ spec.calls_text (code_in program.now) (trace_in calls.now)) }
{
    for call in calls {
        put_call(alloc, out, program, call)?;
    }
    Ok(())
}
