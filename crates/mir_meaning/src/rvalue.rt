ghost use Rattle.std.specs.Prelude.{◌≡◌, ℕ, Some, IsTrue, IfOk};
ghost use Rattle.std.specs.List.{list_all};
ghost use Rattle.mir_syntax.specs.Tree.{trees_of};
ghost use Rattle.mir_syntax.specs.Crate as typed;
ghost use Rattle.mir_syntax.specs.Crate.{rvalue_of};
ghost use Rattle.mir_syntax.specs.Drops.{KnowsDrops};
ghost use Rattle.mir_syntax.specs.Parts.{path_formed, operand_whole, rvalue_whole};
ghost use Rattle.mir_semantics.specs.Step as sem;
ghost use Rattle.mir_meaning.specs.Programs.{shapes_in, type_in};
ghost use Rattle.mir_meaning.specs.Views.{value_of, fields_of, memory_of};
ghost use Rattle.mir_meaning.specs.Sight.{here_of};
ghost use Rattle.mir_meaning.specs.Gives.{Gives};

use crate::datum::Datum;
use crate::here::Here;
use crate::memory::Memory;
use crate::operand::{read, read_all, read_number, scalar_of, scalar_ty};
use crate::stop::Stop;
use mir_num::{binop, cast_scalar, flag, over_scalar, unary};
use mir_syntax::{BinOp, List, Operand, OutOfMemory, OverOp, Place, Program, Rvalue, TyId, UnOp};
use std::alloc::Global;

fn read_two(
    alloc: Global,
    here: Here<'_>,
    memory: &mut Memory,
    left: &Operand,
    right: &Operand,
) -> Result<(u128, u128), Stop>
    requires left { IsTrue (operand_whole left.now) }
    requires right { IsTrue (operand_whole right.now) }
    requires knows { KnowsDrops here.program.now }
    ensures { Gives result (sem.read_two (here_of here.entry) (memory_of memory.old) left.now right.now) (λ pair. (pair, memory_of memory.new)) }
{
    let a = read_number(alloc, here, memory, left)?;
    let b = read_number(alloc, here, memory, right)?;
    Ok((a, b))
}

fn binary(
    alloc: Global,
    here: Here<'_>,
    memory: &mut Memory,
    op: BinOp,
    left: &Operand,
    right: &Operand,
) -> Result<Datum, Stop>
    requires left { IsTrue (operand_whole left.now) }
    requires right { IsTrue (operand_whole right.now) }
    requires knows { KnowsDrops here.program.now }
    ensures { Gives result (sem.eval (here_of here.entry) (memory_of memory.old) (typed.binary op left.now right.now)) (λ value. (value_of value, memory_of memory.new)) }
{
    let Some(ty) = scalar_ty(here, left) else {
        return Err(Stop::Undefined);
    };
    let (a, b) = read_two(alloc, here, memory, left, right)?;
    let Some(bits) = binop(op, ty, a, b) else {
        return Err(Stop::Undefined);
    };
    Ok(Datum::Num(bits))
}

fn pair(alloc: Global, bits: u128, holds: bool) -> Result<Datum, OutOfMemory>
    ensures { IfOk result (λ value. value_of value ≡ sem.pair_of (bits, holds)) }
{
    let mut parts = List::with_capacity(alloc, 2)?;
    parts.push(Datum::Num(bits))?;
    parts.push(Datum::Num(flag(holds)))?;
    Ok(Datum::Parts(parts))
}

fn overflow(
    alloc: Global,
    here: Here<'_>,
    memory: &mut Memory,
    op: OverOp,
    left: &Operand,
    right: &Operand,
) -> Result<Datum, Stop>
    requires left { IsTrue (operand_whole left.now) }
    requires right { IsTrue (operand_whole right.now) }
    requires knows { KnowsDrops here.program.now }
    ensures { Gives result (sem.eval (here_of here.entry) (memory_of memory.old) (typed.overflow op left.now right.now)) (λ value. (value_of value, memory_of memory.new)) }
{
    let Some(ty) = scalar_ty(here, left) else {
        return Err(Stop::Undefined);
    };
    let (a, b) = read_two(alloc, here, memory, left, right)?;
    let (bits, holds) = over_scalar(op, ty, a, b);
    let value = pair(alloc, bits, holds)?;
    Ok(value)
}

fn unary_of(
    alloc: Global,
    here: Here<'_>,
    memory: &mut Memory,
    op: UnOp,
    operand: &Operand,
) -> Result<Datum, Stop>
    requires formed { IsTrue (operand_whole operand.now) }
    requires knows { KnowsDrops here.program.now }
    ensures { Gives result (sem.eval (here_of here.entry) (memory_of memory.old) (typed.unary op operand.now)) (λ value. (value_of value, memory_of memory.new)) }
{
    let Some(ty) = scalar_ty(here, operand) else {
        return Err(Stop::Undefined);
    };
    let bits = read_number(alloc, here, memory, operand)?;
    Ok(Datum::Num(unary(op, ty, bits)))
}

fn cast_of(
    alloc: Global,
    here: Here<'_>,
    memory: &mut Memory,
    operand: &Operand,
    to: TyId,
) -> Result<Datum, Stop>
    requires formed { IsTrue (operand_whole operand.now) }
    requires knows { KnowsDrops here.program.now }
    ensures { Gives result (sem.eval (here_of here.entry) (memory_of memory.old) (typed.cast operand.now (type_in here.entry.program.now to))) (λ value. (value_of value, memory_of memory.new)) }
{
    let Some(from) = scalar_ty(here, operand) else {
        return Err(Stop::Undefined);
    };
    let Some(into) = scalar_of(here.program, to) else {
        return Err(Stop::Undefined);
    };
    let bits = read_number(alloc, here, memory, operand)?;
    Ok(Datum::Num(cast_scalar(from, into, bits)))
}

fn reference(alloc: Global, here: Here<'_>, memory: &Memory, place: &Place) -> Result<Datum, Stop>
    requires { IsTrue (path_formed place.now.proj) }
    ensures shared { Gives result (sem.eval (here_of here.entry) (memory_of memory.now) (typed.ref place.now)) (λ value. (value_of value, memory_of memory.now)) }
    ensures mutable { Gives result (sem.eval (here_of here.entry) (memory_of memory.now) (typed.ref_mut place.now)) (λ value. (value_of value, memory_of memory.now)) }
{
    let Some(spot) = here.resolve(memory, place) else {
        return Err(Stop::Undefined);
    };
    let pointer = spot.pointer(alloc)?;
    Ok(Datum::Ref(pointer))
}

fn discriminant(here: Here<'_>, memory: &Memory, place: &Place) -> Result<Datum, Stop>
    requires { IsTrue (path_formed place.now.proj) }
    ensures { Gives result (sem.eval (here_of here.entry) (memory_of memory.now) (typed.discriminant place.now)) (λ value. (value_of value, memory_of memory.now)) }
{
    let Some((_, part)) = here.find(memory, place) else {
        return Err(Stop::Undefined);
    };
    let Some(variant) = part.variant() else {
        return Err(Stop::Undefined);
    };
    Ok(Datum::Num(variant as u128))
}

fn tuple(
    alloc: Global,
    here: Here<'_>,
    memory: &mut Memory,
    operands: &[Operand],
) -> Result<Datum, Stop>
    requires formed { IsTrue (list_all operand_whole operands.now) }
    requires knows { KnowsDrops here.program.now }
    ensures { Gives result (sem.eval (here_of here.entry) (memory_of memory.old) (typed.tuple operands.now)) (λ value. (value_of value, memory_of memory.new)) }
{
    let values = read_all(alloc, here, memory, operands)?;
    Ok(Datum::Parts(values))
}

/// A value of a definition: of an enum the variant, of a struct the fields.
fn built(program: &Program, def: u32, variant: u32, fields: List<Datum>) -> Datum
    ensures { value_of result ≡ sem.built (shapes_in program.now) def variant (fields_of fields) }
{
    let Some(def) = program.defs.get(def as usize) else {
        return Datum::Hole;
    };
    if def.is_enum {
        Datum::Variant(variant, fields)
    } else {
        Datum::Parts(fields)
    }
}

fn build(
    alloc: Global,
    here: Here<'_>,
    memory: &mut Memory,
    def: u32,
    variant: u32,
    operands: &[Operand],
) -> Result<Datum, Stop>
    requires formed { IsTrue (list_all operand_whole operands.now) }
    requires knows { KnowsDrops here.program.now }
    ensures { Gives result (sem.eval (here_of here.entry) (memory_of memory.old) (typed.build def variant operands.now)) (λ value. (value_of value, memory_of memory.new)) }
{
    let values = read_all(alloc, here, memory, operands)?;
    Ok(built(here.program, def, variant, values))
}

/// The value of an rvalue.
///
/// # Errors
///
/// `Undefined` where the meaning is undefined; `OutOfMemory`.
pub fn eval(
    alloc: Global,
    here: Here<'_>,
    memory: &mut Memory,
    rvalue: &Rvalue,
) -> Result<Datum, Stop>
    requires formed { IsTrue (rvalue_whole rvalue.now) }
    requires knows { KnowsDrops here.program.now }
    ensures { Gives result (sem.eval (here_of here.entry) (memory_of memory.old) (rvalue_of (trees_of here.entry.program.now.types) rvalue.now)) (λ value. (value_of value, memory_of memory.new)) }
{
    match rvalue {
        Rvalue::Use(operand) => read(alloc, here, memory, operand),
        Rvalue::Binary(op, left, right) => binary(alloc, here, memory, *op, left, right),
        Rvalue::Overflow(op, left, right) => overflow(alloc, here, memory, *op, left, right),
        Rvalue::Unary(op, operand) => unary_of(alloc, here, memory, *op, operand),
        Rvalue::Cast(operand, ty) => cast_of(alloc, here, memory, operand, *ty),
        Rvalue::Ref(place) => reference(alloc, here, memory, place),
        Rvalue::RefMut(place) => reference(alloc, here, memory, place),
        Rvalue::Discriminant(place) => discriminant(here, memory, place),
        Rvalue::Tuple(operands) => tuple(alloc, here, memory, operands.as_slice()),
        Rvalue::Build(def, variant, operands) => {
            build(alloc, here, memory, *def, *variant, operands.as_slice())
        }
    }
}
