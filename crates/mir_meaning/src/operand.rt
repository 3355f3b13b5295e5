ghost use Rattle.std.specs.Prelude.{◌≡◌, IsTrue, map};
ghost use Rattle.std.specs.List.{list_all};
ghost use Rattle.mir_syntax.specs.declared.body.Operand.{Operand};
ghost use Rattle.mir_syntax.specs.Drops.{KnowsDrops};
ghost use Rattle.mir_syntax.specs.Parts.{path_formed, operand_whole};
ghost use Rattle.mir_semantics.specs.Step as sem;
ghost use Rattle.mir_semantics.specs.Step.{number_in, scalar_in};
ghost use Rattle.mir_meaning.specs.Programs.{type_in};
ghost use Rattle.mir_meaning.specs.Views.{value_of, memory_of};
ghost use Rattle.mir_meaning.specs.Sight.{here_of};
ghost use Rattle.mir_meaning.specs.Gives.{Gives};

use crate::blank::blank;
use crate::datum::Datum;
use crate::here::Here;
use crate::memory::Memory;
use crate::stop::Stop;
use mir_syntax::{Const, List, Operand, Place, Program, ScalarTy, Ty, TyId};
use std::alloc::Global;

#[tactic(auto, unfolding(mir_semantics::specs::Step::const_value, mir_num::specs::Numbers::flag))]
fn const_value(alloc: Global, value: Const) -> Datum
    ensures { value_of result ≡ sem.const_value value }
{
    match value {
        Const::Int(_, bits) => Datum::Num(bits),
        Const::Bool(true) => Datum::Num(1),
        Const::Bool(false) => Datum::Num(0),
        Const::Unit => Datum::Parts(List::new(alloc)),
    }
}

fn read_copy(alloc: Global, here: Here<'_>, memory: &Memory, place: &Place) -> Result<Datum, Stop>
    requires { IsTrue (path_formed place.now.proj) }
    ensures { Gives result (sem.read (here_of here.entry) (memory_of memory.now) (Operand.Copy place.now)) (λ value. (value_of value, memory_of memory.now)) }
{
    let Some((_, part)) = here.find(memory, place) else {
        return Err(Stop::Undefined);
    };
    if !part.is_whole() {
        return Err(Stop::Undefined);
    }
    Ok(part.copied(alloc)?)
}

fn read_move(
    alloc: Global,
    here: Here<'_>,
    memory: &mut Memory,
    place: &Place,
) -> Result<Datum, Stop>
    requires formed { IsTrue (path_formed place.now.proj) }
    requires knows { KnowsDrops here.program.now }
    ensures { Gives result (sem.read (here_of here.entry) (memory_of memory.old) (Operand.Move place.now)) (λ value. (value_of value, memory_of memory.new)) }
{
    let Some((spot, part)) = here.find(memory, place) else {
        return Err(Stop::Undefined);
    };
    if !part.is_whole() {
        return Err(Stop::Undefined);
    }
    let Some(ty) = here.type_of(place) else {
        return Err(Stop::Undefined);
    };
    let value = part.copied(alloc)?;
    let target = spot.target(alloc)?;
    let blank = blank(alloc, here.program, ty)?;
    memory.put_at(&target, blank);
    Ok(value)
}

/// What an operand gives; a move leaves the blank of the type.
///
/// # Errors
///
/// `Undefined` where the meaning is undefined; `OutOfMemory`.
pub fn read(
    alloc: Global,
    here: Here<'_>,
    memory: &mut Memory,
    operand: &Operand,
) -> Result<Datum, Stop>
    requires formed { IsTrue (operand_whole operand.now) }
    requires knows { KnowsDrops here.program.now }
    ensures { Gives result (sem.read (here_of here.entry) (memory_of memory.old) operand.now) (λ value. (value_of value, memory_of memory.new)) }
{
    match operand {
        Operand::Copy(place) => read_copy(alloc, here, memory, place),
        Operand::Move(place) => read_move(alloc, here, memory, place),
        Operand::Const(value) => Ok(const_value(alloc, *value)),
    }
}

/// From left to right, each move taking effect at once.
///
/// # Errors
///
/// `Undefined` where the meaning is undefined; `OutOfMemory`.
pub fn read_all(
    alloc: Global,
    here: Here<'_>,
    memory: &mut Memory,
    operands: &[Operand],
) -> Result<List<Datum>, Stop>
    requires formed { IsTrue (list_all operand_whole operands.now) }
    requires knows { KnowsDrops here.program.now }
    ensures { Gives result (sem.read_all (here_of here.entry) (memory_of memory.old) operands.now) (λ values. (map value_of values, memory_of memory.new)) }
{
    let mut values = List::with_capacity(alloc, operands.len())?;
    for operand in operands {
        values.push(read(alloc, here, memory, operand)?)?;
    }
    Ok(values)
}

/// The pattern of a scalar; `None` for any other value and for a hole.
#[tactic(auto, using(crate::proofs::Operands::parts_number))]
pub fn number_of(datum: &Datum) -> Option<u128>
    ensures { result ≡ number_in (value_of datum.now) }
{
    match datum {
        Datum::Num(bits) => Some(*bits),
        Datum::Parts(_) => None,
        Datum::Variant(_, _) => None,
        Datum::Ref(_) => None,
        Datum::Hole => None,
    }
}

/// Reads an operand as the pattern of a scalar.
///
/// # Errors
///
/// `Undefined` where the operand can't be read or is no scalar; `OutOfMemory`.
pub fn read_number(
    alloc: Global,
    here: Here<'_>,
    memory: &mut Memory,
    operand: &Operand,
) -> Result<u128, Stop>
    requires formed { IsTrue (operand_whole operand.now) }
    requires knows { KnowsDrops here.program.now }
    ensures { Gives result (sem.read_number (here_of here.entry) (memory_of memory.old) operand.now) (λ bits. (bits, memory_of memory.new)) }
{
    let value = read(alloc, here, memory, operand)?;
    let Some(bits) = number_of(&value) else {
        return Err(Stop::Undefined);
    };
    Ok(bits)
}

/// The scalar type of an id. An id that is not in the table stands for `bool`.
pub fn scalar_of(program: &Program, id: TyId) -> Option<ScalarTy>
    ensures { result ≡ scalar_in (type_in program.now id) }
{
    let Some(ty) = program.ty_at(id) else {
        return Some(ScalarTy::Bool);
    };
    match ty {
        Ty::Scalar(ty) => Some(*ty),
        _ => None,
    }
}

fn place_scalar(here: Here<'_>, place: &Place) -> Option<ScalarTy>
    requires { IsTrue (path_formed place.now.proj) }
    ensures copied { result ≡ sem.scalar_ty_of (here_of here.entry) (Operand.Copy place.now) }
    ensures moved { result ≡ sem.scalar_ty_of (here_of here.entry) (Operand.Move place.now) }
{
    let Some(id) = here.type_of(place) else {
        return None;
    };
    scalar_of(here.program, id)
}

fn const_scalar(value: Const) -> Option<ScalarTy>
    ensures { result ≡ scalar_in (sem.const_ty value) }
{
    match value {
        Const::Int(ty, _) => Some(ScalarTy::Int(ty)),
        Const::Bool(_) => Some(ScalarTy::Bool),
        Const::Unit => None,
    }
}

/// The scalar type of an operand.
pub fn scalar_ty(here: Here<'_>, operand: &Operand) -> Option<ScalarTy>
    requires { IsTrue (operand_whole operand.now) }
    ensures { result ≡ sem.scalar_ty_of (here_of here.entry) operand.now }
{
    match operand {
        Operand::Copy(place) => place_scalar(here, place),
        Operand::Move(place) => place_scalar(here, place),
        Operand::Const(value) => const_scalar(*value),
    }
}
