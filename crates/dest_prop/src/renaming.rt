//! Places at their locals' homes, and copies in the place of moves out of shared ones.
ghost use Rattle.std.specs.Prelude.{◌≡◌, ◌<◌, map, length};
ghost use Rattle.bit_rows.specs.Rows.{row_at};
ghost use Rattle.dest_prop.specs.Merged as definition;
ghost use Rattle.dest_prop.specs.Code.{home_in, shared_in, bare_rvalue_home, bare_stmt_home};

use bit_rows::BitRows;
use mir_syntax::{Const, List, Operand, Place, Rvalue, Stmt, Term};
use std::mem;

/// The home of a local; a number past the list is its own.
pub(crate) fn home_of(homes: &[u32], local: u32) -> u32
    ensures { result ≡ home_in homes.now local }
{
    match homes.get(local as usize) {
        Some(home) => *home,
        None => local,
    }
}

fn place_at_home(place: Place, homes: &[u32]) -> Place
    ensures { result ≡ definition.place_home (home_in homes.now) place }
{
    Place {
        local: home_of(homes, place.local),
        proj: place.proj,
    }
}

fn operand_at_home(operand: Operand, homes: &[u32], shared: &BitRows) -> Operand
    requires { 0 < length shared.now }
    ensures { result ≡ definition.operand_home (shared_in (row_at shared.now 0)) (home_in homes.now) operand }
{
    match operand {
        Operand::Copy(place) => Operand::Copy(place_at_home(place, homes)),
        Operand::Move(place) if shared.has(0, place.local) => {
            Operand::Copy(place_at_home(place, homes))
        }
        Operand::Move(place) => Operand::Move(place_at_home(place, homes)),
        Operand::Const(value) => Operand::Const(value),
    }
}

/// The same where the operand stands.
fn put_at_home(operand: &mut Operand, homes: &[u32], shared: &BitRows)
    requires { 0 < length shared.now }
    ensures { operand.new ≡ definition.operand_home (shared_in (row_at shared.now 0)) (home_in homes.now) operand.old }
{
    let old = mem::replace(operand, Operand::Const(Const::Unit));
    *operand = operand_at_home(old, homes, shared);
}

fn operands_at_home(operands: List<Operand>, homes: &[u32], shared: &BitRows) -> List<Operand>
    requires { 0 < length shared.now }
    ensures { result ≡ map (definition.operand_home (shared_in (row_at shared.now 0)) (home_in homes.now)) operands }
{
    let mut operands = operands.into_vec();
    for operand in operands.iter_mut() {
        put_at_home(operand, homes, shared);
    }
    List::from_vec(operands)
}

fn rvalue_at_home(rvalue: Rvalue, homes: &[u32], shared: &BitRows) -> Rvalue
    requires { 0 < length shared.now }
    ensures { result ≡ bare_rvalue_home (shared_in (row_at shared.now 0)) (home_in homes.now) rvalue }
{
    match rvalue {
        Rvalue::Use(a) => Rvalue::Use(operand_at_home(a, homes, shared)),
        Rvalue::Binary(op, a, b) => {
            let left = operand_at_home(a, homes, shared);
            Rvalue::Binary(op, left, operand_at_home(b, homes, shared))
        }
        Rvalue::Overflow(op, a, b) => {
            let left = operand_at_home(a, homes, shared);
            Rvalue::Overflow(op, left, operand_at_home(b, homes, shared))
        }
        Rvalue::Unary(op, a) => Rvalue::Unary(op, operand_at_home(a, homes, shared)),
        Rvalue::Cast(a, ty) => Rvalue::Cast(operand_at_home(a, homes, shared), ty),
        Rvalue::Ref(place) => Rvalue::Ref(place_at_home(place, homes)),
        Rvalue::RefMut(place) => Rvalue::RefMut(place_at_home(place, homes)),
        Rvalue::Discriminant(place) => Rvalue::Discriminant(place_at_home(place, homes)),
        Rvalue::Tuple(parts) => Rvalue::Tuple(operands_at_home(parts, homes, shared)),
        Rvalue::Build(def, variant, parts) => {
            Rvalue::Build(def, variant, operands_at_home(parts, homes, shared))
        }
    }
}

/// The statement with its locals at their homes.
pub(crate) fn stmt_at_home(stmt: Stmt, homes: &[u32], shared: &BitRows) -> Stmt
    requires { 0 < length shared.now }
    ensures { result ≡ bare_stmt_home (shared_in (row_at shared.now 0)) (home_in homes.now) stmt }
{
    match stmt {
        Stmt::Assign(place, rvalue) => {
            Stmt::Assign(
                place_at_home(place, homes),
                rvalue_at_home(rvalue, homes, shared),
            )
        }
        Stmt::StorageLive(local) => Stmt::StorageLive(home_of(homes, local)),
        Stmt::StorageDead(local) => Stmt::StorageDead(home_of(homes, local)),
        Stmt::SetDiscriminant(place, variant) => {
            Stmt::SetDiscriminant(place_at_home(place, homes), variant)
        }
    }
}

/// The terminator with its locals at their homes.
pub(crate) fn term_at_home(term: Term, homes: &[u32], shared: &BitRows) -> Term
    requires { 0 < length shared.now }
    ensures { result ≡ definition.term_home (shared_in (row_at shared.now 0)) (home_in homes.now) term }
{
    match term {
        Term::Goto(next) => Term::Goto(next),
        Term::Switch(operand, arms, other) => {
            Term::Switch(operand_at_home(operand, homes, shared), arms, other)
        }
        Term::Return => Term::Return,
        Term::Unreachable => Term::Unreachable,
        Term::Drop(place, next) => Term::Drop(place_at_home(place, homes), next),
        Term::Call(place, callee, args, next) => {
            let args = operands_at_home(args, homes, shared);
            Term::Call(place_at_home(place, homes), callee, args, next)
        }
        Term::Assert(operand, expected, text, values, next) => {
            let values = operands_at_home(values, homes, shared);
            Term::Assert(
                operand_at_home(operand, homes, shared),
                expected,
                text,
                values,
                next,
            )
        }
    }
}
