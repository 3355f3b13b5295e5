//! What statements and terminators do to a unit.
ghost use Rattle.std.specs.Prelude.{◌≡◌, List};
ghost use Rattle.mir_syntax.specs.Tree.{Tree};
ghost use Rattle.mir_syntax.specs.Crate.{rvalue_of, stmt_of};
ghost use Rattle.mir_syntax.specs.Parts.{rvalue_operands};
ghost use Rattle.move_paths.specs.Effects.{in_local, same_field, goes_on, is_under, moved_by_operand, moved_by, ended_if, begun_or_ended, effect, moved, begun};

use mir_syntax::{Operand, Place, Proj, Rvalue, Stmt, Term};

fn is_same_field(a: Proj, b: Proj) -> bool
    ensures { result ≡ same_field a b }
{
    match (a, b) {
        (Proj::Field(i), Proj::Field(j)) => i == j,
        _ => false,
    }
}

/// Whether a path of fields goes on from another.
fn goes_on(path: &[Proj], unit: &[Proj]) -> bool
    ensures { result ≡ goes_on path.now unit.now }
{
    let mut left = path;
    let mut rest = unit;
    while let [first, others @ ..] = left {
        let [own, own_others @ ..] = rest else {
            return false;
        };
        if !is_same_field(*first, *own) {
            return false;
        }
        left = others;
        rest = own_others;
    }
    true
}

/// Whether a unit stands at or under the place in a local at the end of a path.
pub(crate) fn is_under_path(local: u32, path: &[Proj], unit: &Place) -> bool
    ensures { result ≡ is_under (in_local local path.now) unit.now }
{
    local == unit.local && goes_on(path, unit.proj.as_slice())
}

/// Whether a unit stands at a place or under it. No unit does where the place has a dereference or a downcast.
pub fn is_under(place: &Place, unit: &Place) -> bool
    ensures { result ≡ is_under place.now unit.now }
{
    is_under_path(place.local, place.proj.as_slice(), unit)
}

fn is_moved(operand: &Operand, unit: &Place) -> bool
    ensures { result ≡ moved_by_operand operand.now unit.now }
{
    match operand {
        Operand::Move(place) => is_under(place, unit),
        Operand::Copy(_) | Operand::Const(_) => false,
    }
}

/// Whether one of the operands moves the unit.
fn any_moved(operands: &[Operand], unit: &Place) -> bool
    ensures { result ≡ moved_by operands.now unit.now }
{
    let mut rest = operands;
    while let [operand, others @ ..] = rest {
        if is_moved(operand, unit) {
            return true;
        }
        rest = others;
    }
    false
}

/// Whether an rvalue moves the unit.
fn is_moved_by_rvalue(rvalue: &Rvalue, unit: &Place) -> bool
    ensures { (trees : List Tree) → result ≡ moved_by (rvalue_operands (rvalue_of trees rvalue.now)) unit.now }
{
    match rvalue {
        Rvalue::Use(a) | Rvalue::Unary(_, a) | Rvalue::Cast(a, _) => is_moved(a, unit),
        Rvalue::Binary(_, a, b) | Rvalue::Overflow(_, a, b) => is_moved(a, unit)
            || is_moved(b, unit),
        Rvalue::Ref(_) | Rvalue::RefMut(_) | Rvalue::Discriminant(_) => false,
        Rvalue::Tuple(parts) | Rvalue::Build(_, _, parts) => any_moved(parts.as_slice(), unit),
    }
}

fn ended_if(ends: bool) -> Option<bool>
    ensures { result ≡ ended_if ends }
{
    if ends { Some(false) } else { None }
}

/// Whether the unit is initialised after the statement. `None` exactly where the statement doesn't change the unit.
pub fn effect(unit: &Place, stmt: &Stmt) -> Option<bool>
    ensures { (trees : List Tree) → result ≡ effect unit.now (stmt_of trees stmt.now) }
{
    match stmt {
        Stmt::Assign(place, rvalue) => {
            if is_under(place, unit) {
                return Some(true);
            }
            ended_if(is_moved_by_rvalue(rvalue, unit))
        }
        Stmt::StorageLive(local) => ended_if(*local == unit.local),
        Stmt::StorageDead(local) => ended_if(*local == unit.local),
        Stmt::SetDiscriminant(_, _) => None,
    }
}

/// Whether the terminator ends the unit: it moves it or drops it.
pub fn moved(unit: &Place, term: &Term) -> bool
    ensures { result ≡ moved unit.now term.now }
{
    match term {
        Term::Drop(place, _) => is_under(place, unit),
        Term::Switch(operand, _, _) => is_moved(operand, unit),
        Term::Call(_, _, args, _) => any_moved(args.as_slice(), unit),
        Term::Assert(operand, _, _, values, _) => {
            is_moved(operand, unit) || any_moved(values.as_slice(), unit)
        }
        Term::Goto(_) | Term::Return | Term::Unreachable => false,
    }
}

/// Whether a call's result initialises the unit, on the edge of its return.
pub fn begun(unit: &Place, term: &Term) -> bool
    ensures { result ≡ begun unit.now term.now }
{
    match term {
        Term::Call(place, _, _, _) => is_under(place, unit),
        _ => false,
    }
}
