//! What is known at a point of a body, as constants.
ghost use Rattle.std.specs.Prelude.{◌≡◌, Option, Some, [], ◌∷◌};
ghost use Rattle.mir_syntax.specs.declared.types.ScalarTy.TheVariants as scalar_ty;
ghost use Rattle.mir_syntax.specs.declared.body.Proj.TheVariants.{Field};
ghost use Rattle.mir_syntax.specs.Crate.{rvalue_of};
ghost use Rattle.mir_semantics.specs.Step.{scalar_in, scalar_ty_of};
ghost use Rattle.mir_rules.specs.Typing.{kind_of, made_by};
ghost use Rattle.const_rewrite.specs.Folded.{binary_result};
ghost use Rattle.const_rewrite.specs.Points.{here, trees_in, constant_at, part_at, number_value, pair_value, value_at};

use crate::constant::literal_of;
use const_flow::{Facts, scalar_of, scalar_ty};
use mir_syntax::{BinOp, Body, Const, Operand, Program, Rvalue, ScalarTy};

/// A body as it is read: the program, and the body, which its blocks may have left.
#[derive(Clone, Copy)]
pub(crate) struct Text<'a> {
    pub program: &'a Program,
    pub body: &'a Body,
}

/// What takes the place of an rvalue: a constant, two of them, or the rvalue of what its operands become.
#[derive(Clone, Copy, Drop)]
pub(crate) enum Value {
    Number(Const),
    Pair(Const, Const),
    Operands,
}

/// The type of what an operator makes of two numbers, the first one's type being given.
fn made(op: BinOp, ty: ScalarTy) -> ScalarTy
    ensures { Some result ≡ scalar_in (made_by (kind_of op) ty) }
{
    match op {
        BinOp::Eq | BinOp::Ne | BinOp::Lt | BinOp::Le | BinOp::Gt | BinOp::Ge => ScalarTy::Bool,
        _ => ty,
    }
}

fn number_or_operands(number: Option<Const>) -> Value
    ensures { result ≡ number_value number }
{
    match number {
        Some(number) => Value::Number(number),
        None => Value::Operands,
    }
}

fn pair_or_operands(bits: Option<Const>, over: Option<Const>) -> Value
    ensures { result ≡ pair_value bits over }
{
    match (bits, over) {
        (Some(bits), Some(over)) => Value::Pair(bits, over),
        _ => Value::Operands,
    }
}

impl Text<'_> {
    fn binary_result(self, op: BinOp, left: &Operand) -> Option<ScalarTy>
        ensures { result ≡ binary_result (here self.entry) op left.now }
    {
        match scalar_ty(self.program, self.body, left) {
            Some(ty) => Some(made(op, ty)),
            None => None,
        }
    }

    /// The constant that an operand is known to be.
    pub fn constant(self, facts: &Facts<'_>, operand: &Operand) -> Option<Const>
        ensures { result ≡ constant_at (here self.entry) facts.now operand.now }
    {
        let ty = scalar_ty(self.program, self.body, operand);
        literal_of(ty, facts.operand(operand))
    }

    /// The number that a rvalue is known to make, by its type.
    fn number(self, facts: &Facts<'_>, ty: Option<ScalarTy>, rvalue: &Rvalue) -> Value
        ensures { result ≡ number_value (part_at ty (here self.entry) facts.now (rvalue_of (trees_in self.entry) rvalue.now) []) }
    {
        let known = facts.scalar(self.program, self.body, rvalue);
        number_or_operands(literal_of(ty, known))
    }

    /// The wrapped result and the flag that a rvalue is known to make, by the type of the result.
    fn pair(self, facts: &Facts<'_>, ty: Option<ScalarTy>, rvalue: &Rvalue) -> Value
        ensures { result ≡ pair_value (part_at ty (here self.entry) facts.now (rvalue_of (trees_in self.entry) rvalue.now) (Field 0 ∷ [])) (part_at (Some scalar_ty.Bool) (here self.entry) facts.now (rvalue_of (trees_in self.entry) rvalue.now) (Field 1 ∷ [])) }
    {
        let (bits, over) = facts.pair(self.program, self.body, rvalue);
        pair_or_operands(literal_of(ty, bits), literal_of(Some(ScalarTy::Bool), over))
    }

    /// What takes the place of an rvalue.
    pub fn value(self, facts: &Facts<'_>, rvalue: &Rvalue) -> Value
        ensures { result ≡ value_at (here self.entry) facts.now (rvalue_of (trees_in self.entry) rvalue.now) }
    {
        match rvalue {
            Rvalue::Binary(op, left, _) => {
                let ty = self.binary_result(*op, left);
                self.number(facts, ty, rvalue)
            }
            Rvalue::Overflow(_, left, _) => {
                let ty = scalar_ty(self.program, self.body, left);
                self.pair(facts, ty, rvalue)
            }
            Rvalue::Unary(_, operand) => {
                let ty = scalar_ty(self.program, self.body, operand);
                self.number(facts, ty, rvalue)
            }
            Rvalue::Cast(_, to) => self.number(facts, scalar_of(self.program, *to), rvalue),
            Rvalue::Use(_)
            | Rvalue::Ref(_)
            | Rvalue::RefMut(_)
            | Rvalue::Discriminant(_)
            | Rvalue::Tuple(_)
            | Rvalue::Build(_, _, _) => Value::Operands,
        }
    }
}
