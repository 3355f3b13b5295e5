//! Constants put in the places of what computes them.
ghost use Rattle.std.specs.Prelude.{◌≡◌, ◌∷◌, [], IfOk};
ghost use Rattle.mir_syntax.specs.declared.body.Operand.TheVariants as operand;
ghost use Rattle.const_rewrite.specs.Folded as folded;
ghost use Rattle.const_rewrite.specs.Points as points;
ghost use Rattle.const_rewrite.specs.Points.{nth};

use crate::point::Value;
use mir_syntax::{Const, List, Operand, OutOfMemory, Rvalue, Stmt};
use std::alloc::Global;
use std::mem;

pub(crate) fn or_constant(constant: Option<Const>, operand: Operand) -> Operand
    ensures { result ≡ folded.or_constant constant operand }
{
    match constant {
        Some(constant) => Operand::Const(constant),
        None => operand,
    }
}

fn put_in_place(operand: &mut Operand, constant: Option<Const>)
    ensures { operand.new ≡ folded.or_constant constant operand.old }
{
    let old = mem::replace(operand, Operand::Const(Const::Unit));
    *operand = or_constant(constant, old);
}

fn nth(constants: &[Option<Const>], index: usize) -> Option<Const>
    ensures { result ≡ nth constants.now index }
{
    match constants.get(index) {
        Some(constant) => *constant,
        None => None,
    }
}

fn put_each(constants: &[Option<Const>], operands: List<Operand>) -> List<Operand>
    ensures { result ≡ points.put_each constants.now operands }
{
    let mut operands = operands.into_vec();
    for (at, operand) in operands.iter_mut().enumerate() {
        put_in_place(operand, nth(constants, at));
    }
    List::from_vec(operands)
}

fn put_constants(constants: &[Option<Const>], rvalue: Rvalue) -> Rvalue
    ensures { result ≡ points.put_constants constants.now rvalue }
{
    match rvalue {
        Rvalue::Use(a) => Rvalue::Use(or_constant(nth(constants, 0), a)),
        Rvalue::Binary(op, a, b) => {
            let left = or_constant(nth(constants, 0), a);
            Rvalue::Binary(op, left, or_constant(nth(constants, 1), b))
        }
        Rvalue::Overflow(op, a, b) => {
            let left = or_constant(nth(constants, 0), a);
            Rvalue::Overflow(op, left, or_constant(nth(constants, 1), b))
        }
        Rvalue::Unary(op, a) => Rvalue::Unary(op, or_constant(nth(constants, 0), a)),
        Rvalue::Cast(a, ty) => Rvalue::Cast(or_constant(nth(constants, 0), a), ty),
        Rvalue::Ref(place) => Rvalue::Ref(place),
        Rvalue::RefMut(place) => Rvalue::RefMut(place),
        Rvalue::Discriminant(place) => Rvalue::Discriminant(place),
        Rvalue::Tuple(parts) => Rvalue::Tuple(put_each(constants, parts)),
        Rvalue::Build(def, variant, parts) => {
            Rvalue::Build(def, variant, put_each(constants, parts))
        }
    }
}

fn two(alloc: Global, first: Const, second: Const) -> Result<List<Operand>, OutOfMemory>
    ensures { IfOk result (λ parts. parts ≡ operand.Const first ∷ operand.Const second ∷ []) }
{
    let mut parts = List::with_capacity(alloc, 2)?;
    parts.push(Operand::Const(first))?;
    parts.push(Operand::Const(second))?;
    Ok(parts)
}

fn put_value(
    alloc: Global,
    value: Value,
    constants: &[Option<Const>],
    rvalue: Rvalue,
) -> Result<Rvalue, OutOfMemory>
    ensures { IfOk result (λ left. left ≡ points.put_value value constants.now rvalue) }
{
    match value {
        Value::Operands => Ok(put_constants(constants, rvalue)),
        Value::Number(number) => Ok(Rvalue::Use(Operand::Const(number))),
        Value::Pair(bits, over) => Ok(Rvalue::Tuple(two(alloc, bits, over)?)),
    }
}

/// The statement with the value in the place of its rvalue, or with the constants in the places of the rvalue's operands.
pub(crate) fn put_stmt(
    alloc: Global,
    value: Value,
    constants: &[Option<Const>],
    stmt: Stmt,
) -> Result<Stmt, OutOfMemory>
    ensures { IfOk result (λ left. left ≡ points.put_stmt value constants.now stmt) }
{
    match stmt {
        Stmt::Assign(place, rvalue) => {
            let rvalue = put_value(alloc, value, constants, rvalue)?;
            Ok(Stmt::Assign(place, rvalue))
        }
        Stmt::StorageLive(local) => Ok(Stmt::StorageLive(local)),
        Stmt::StorageDead(local) => Ok(Stmt::StorageDead(local)),
        Stmt::SetDiscriminant(place, variant) => Ok(Stmt::SetDiscriminant(place, variant)),
    }
}
