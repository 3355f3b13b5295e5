ghost use Rattle.std.specs.Prelude.{◌≡◌, map};
ghost use Rattle.trim_locals.specs.Trimmed.{number_in, renamed_place as place_renamed, renamed_operand as operand_renamed, renamed_term as term_renamed};
ghost use Rattle.trim_locals.specs.Code.{bare_renamed_rvalue, bare_renamed_stmt};

use mir_syntax::{Const, List, Operand, Place, Rvalue, Stmt, Term};
use std::mem;

/// The new number of a local; 0 past the list.
fn number_of(numbers: &[u32], local: u32) -> u32
    ensures { result ≡ number_in numbers.now local }
{
    match numbers.get(local as usize) {
        Some(number) => *number,
        None => 0,
    }
}

fn renamed_place(place: Place, numbers: &[u32]) -> Place
    ensures { result ≡ place_renamed (number_in numbers.now) place }
{
    Place {
        local: number_of(numbers, place.local),
        proj: place.proj,
    }
}

fn renamed_operand(operand: Operand, numbers: &[u32]) -> Operand
    ensures { result ≡ operand_renamed (number_in numbers.now) operand }
{
    match operand {
        Operand::Copy(place) => Operand::Copy(renamed_place(place, numbers)),
        Operand::Move(place) => Operand::Move(renamed_place(place, numbers)),
        Operand::Const(value) => Operand::Const(value),
    }
}

/// The same where the operand stands.
fn rename_in_place(operand: &mut Operand, numbers: &[u32])
    ensures { operand.new ≡ operand_renamed (number_in numbers.now) operand.old }
{
    let old = mem::replace(operand, Operand::Const(Const::Unit));
    *operand = renamed_operand(old, numbers);
}

fn renamed_operands(operands: List<Operand>, numbers: &[u32]) -> List<Operand>
    ensures { result ≡ map (operand_renamed (number_in numbers.now)) operands }
{
    let mut operands = operands.into_vec();
    for operand in operands.iter_mut() {
        rename_in_place(operand, numbers);
    }
    List::from_vec(operands)
}

fn renamed_rvalue(rvalue: Rvalue, numbers: &[u32]) -> Rvalue
    ensures { result ≡ bare_renamed_rvalue (number_in numbers.now) rvalue }
{
    match rvalue {
        Rvalue::Use(a) => Rvalue::Use(renamed_operand(a, numbers)),
        Rvalue::Binary(op, a, b) => {
            Rvalue::Binary(op, renamed_operand(a, numbers), renamed_operand(b, numbers))
        }
        Rvalue::Overflow(op, a, b) => {
            Rvalue::Overflow(op, renamed_operand(a, numbers), renamed_operand(b, numbers))
        }
        Rvalue::Unary(op, a) => Rvalue::Unary(op, renamed_operand(a, numbers)),
        Rvalue::Cast(a, ty) => Rvalue::Cast(renamed_operand(a, numbers), ty),
        Rvalue::Ref(place) => Rvalue::Ref(renamed_place(place, numbers)),
        Rvalue::RefMut(place) => Rvalue::RefMut(renamed_place(place, numbers)),
        Rvalue::Discriminant(place) => Rvalue::Discriminant(renamed_place(place, numbers)),
        Rvalue::Tuple(parts) => Rvalue::Tuple(renamed_operands(parts, numbers)),
        Rvalue::Build(def, variant, parts) => {
            Rvalue::Build(def, variant, renamed_operands(parts, numbers))
        }
    }
}

/// The statement with the new numbers of its locals.
pub(crate) fn renamed_stmt(stmt: Stmt, numbers: &[u32]) -> Stmt
    ensures { result ≡ bare_renamed_stmt (number_in numbers.now) stmt }
{
    match stmt {
        Stmt::Assign(place, rvalue) => {
            Stmt::Assign(
                renamed_place(place, numbers),
                renamed_rvalue(rvalue, numbers),
            )
        }
        Stmt::StorageLive(local) => Stmt::StorageLive(number_of(numbers, local)),
        Stmt::StorageDead(local) => Stmt::StorageDead(number_of(numbers, local)),
        Stmt::SetDiscriminant(place, variant) => {
            Stmt::SetDiscriminant(renamed_place(place, numbers), variant)
        }
    }
}

/// The terminator with the new numbers of its locals.
pub(crate) fn renamed_term(term: Term, numbers: &[u32]) -> Term
    ensures { result ≡ term_renamed (number_in numbers.now) term }
{
    match term {
        Term::Goto(next) => Term::Goto(next),
        Term::Switch(operand, arms, other) => {
            Term::Switch(renamed_operand(operand, numbers), arms, other)
        }
        Term::Return => Term::Return,
        Term::Unreachable => Term::Unreachable,
        Term::Drop(place, next) => Term::Drop(renamed_place(place, numbers), next),
        Term::Call(place, callee, args, next) => {
            let args = renamed_operands(args, numbers);
            Term::Call(renamed_place(place, numbers), callee, args, next)
        }
        Term::Assert(operand, expected, text, values, next) => {
            let values = renamed_operands(values, numbers);
            Term::Assert(
                renamed_operand(operand, numbers),
                expected,
                text,
                values,
                next,
            )
        }
    }
}
