ghost use Rattle.std.specs.Prelude.{◌≡◌, ◌+◌, ◌++◌, map, take, drop, IfOk, OnOk};
ghost use Rattle.mir_syntax.specs.Drops.{KnowsDrops};
ghost use Rattle.mir_semantics.specs.Step as sem;
ghost use Rattle.mir_semantics.specs.Step.{blanks, first_of};
ghost use Rattle.mir_meaning.specs.Programs.{shapes_in, type_in};
ghost use Rattle.mir_meaning.specs.Views.{value_of};

use mir_meaning::blank::blank;
use mir_meaning::datum::Datum;
use mir_syntax::{List, OutOfMemory, Program, TyId};
use std::alloc::Global;

/// Puts the blanks of types at the end.
fn push_blanks(
    alloc: Global,
    program: &Program,
    slots: &mut List<Datum>,
    types: &[TyId],
) -> Result<(), OutOfMemory>
    requires { KnowsDrops program.now }
    ensures { OnOk result (map value_of slots.new ≡ map value_of slots.old ++ blanks (shapes_in program.now) (map (type_in program.now) types.now)) }
{
    for ty in types {
        slots.push(blank(alloc, program, *ty)?)?;
    }
    Ok(())
}

/// The locals behind the result and so many arguments.
fn others(locals: &[TyId], args: usize) -> &[TyId]
    ensures { result.now ≡ drop (args + 1) locals.now }
{
    if args < locals.len() {
        &locals[args + 1..]
    } else {
        &[]
    }
}

fn first(locals: &[TyId]) -> &[TyId]
    ensures { result.now ≡ take 1 locals.now }
{
    if locals.is_empty() { &[] } else { &locals[..1] }
}

/// The locals of a new frame: the arguments, and all others blank.
///
/// # Errors
///
/// `OutOfMemory`.
pub fn new_slots(
    alloc: Global,
    program: &Program,
    locals: &[TyId],
    args: List<Datum>,
) -> Result<List<Datum>, OutOfMemory>
    requires { KnowsDrops program.now }
    ensures { IfOk result (λ slots. map value_of slots ≡ sem.new_slots (shapes_in program.now) (map (type_in program.now) locals.now) (map value_of args)) }
{
    let mut slots = List::with_capacity(alloc, locals.len())?;
    push_blanks(alloc, program, &mut slots, first(locals))?;
    let count = args.len();
    slots.append(args)?;
    push_blanks(alloc, program, &mut slots, others(locals, count))?;
    Ok(slots)
}
