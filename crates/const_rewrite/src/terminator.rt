//! Terminators by what is known before them.
ghost use Rattle.std.specs.Prelude.{◌≡◌, map};
ghost use Rattle.mir_syntax.specs.declared.body.Term.TheVariants.{Switch, Assert};
ghost use Rattle.mir_semantics.specs.Step.{Here};
ghost use Rattle.const_rewrite.specs.Folded as definition;
ghost use Rattle.const_rewrite.specs.Points.{here, where_reached, number_told, number_at, is_flag};

use crate::point::Text;
use crate::put::or_constant;
use const_flow::{Facts, Known, taken_arm};
use mir_num::flag;
use mir_syntax::{Arm, Const, List, Name, Operand, Term};
use std::mem;

fn number_told(known: Known) -> Option<u128>
    ensures { result ≡ number_told known }
{
    match known {
        Known::Num(number) => Some(number),
        Known::Unreached | Known::Nothing | Known::Many => None,
    }
}

/// Whether a condition is known to be as expected.
fn holds(facts: &Facts<'_>, condition: &Operand, expected: bool) -> bool
    ensures { result ≡ is_flag expected (number_at facts.now condition.now) }
{
    match number_told(facts.operand(condition)) {
        Some(number) => number == flag(expected),
        None => false,
    }
}

fn folded_operand(text: Text<'_>, facts: &Facts<'_>, operand: Operand) -> Operand
    ensures { result ≡ where_reached (definition.folded_operand (here text.entry)) facts.now operand }
{
    or_constant(text.constant(facts, &operand), operand)
}

/// The same where the operand stands.
fn fold_in_place(text: Text<'_>, facts: &Facts<'_>, operand: &mut Operand)
    ensures { operand.new ≡ where_reached (definition.folded_operand (here text.entry)) facts.now operand.old }
{
    let old = mem::replace(operand, Operand::Const(Const::Unit));
    *operand = folded_operand(text, facts, old);
}

fn folded_operands(text: Text<'_>, facts: &Facts<'_>, operands: List<Operand>) -> List<Operand>
    ensures { result ≡ map (where_reached (definition.folded_operand (here text.entry)) facts.now) operands }
{
    let mut operands = operands.into_vec();
    for operand in operands.iter_mut() {
        fold_in_place(text, facts, operand);
    }
    List::from_vec(operands)
}

/// A switch on a known number is a goto.
fn folded_switch(facts: &Facts<'_>, operand: Operand, arms: List<Arm>, other: u32) -> Term
    ensures { (h : Here) → result ≡ where_reached (definition.folded_term h) facts.now (Switch operand arms other) }
{
    match number_told(facts.operand(&operand)) {
        Some(number) => Term::Goto(taken_arm(number, arms.as_slice(), other)),
        None => Term::Switch(operand, arms, other),
    }
}

/// An assert that is known to hold is a goto.
fn folded_assert(
    text: Text<'_>,
    facts: &Facts<'_>,
    condition: Operand,
    expected: bool,
    message: Name,
    values: List<Operand>,
    next: u32,
) -> Term
    ensures { result ≡ where_reached (definition.folded_term (here text.entry)) facts.now (Assert condition expected message values next) }
{
    if holds(facts, &condition, expected) {
        return Term::Goto(next);
    }
    let condition = folded_operand(text, facts, condition);
    let values = folded_operands(text, facts, values);
    Term::Assert(condition, expected, message, values, next)
}

/// What becomes of a terminator: a branch that is known is a goto, and operands that are known are constants.
pub(crate) fn folded_term(text: Text<'_>, facts: &Facts<'_>, term: Term) -> Term
    ensures { result ≡ where_reached (definition.folded_term (here text.entry)) facts.now term }
{
    match term {
        Term::Switch(operand, arms, other) => folded_switch(facts, operand, arms, other),
        Term::Assert(condition, expected, message, values, next) => {
            folded_assert(text, facts, condition, expected, message, values, next)
        }
        Term::Call(place, callee, args, next) => {
            Term::Call(place, callee, folded_operands(text, facts, args), next)
        }
        Term::Goto(next) => Term::Goto(next),
        Term::Return => Term::Return,
        Term::Unreachable => Term::Unreachable,
        Term::Drop(place, next) => Term::Drop(place, next),
    }
}
