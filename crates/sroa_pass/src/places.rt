//! Places at the locals of fields.
ghost use Rattle.std.specs.Prelude.{◌≡◌, map};
ghost use Rattle.sroa_pass.specs.Code as code;

use crate::parts::Parts;
use mir_syntax::{Const, List, Operand, Place, Proj, Rvalue, Term};
use std::mem;

/// The new locals of a local, if it is split.
pub(crate) fn parts_at(table: &[Option<Parts>], local: u32) -> Option<Parts>
    ensures { result ≡ code.parts_at table.now local }
{
    match table.get(local as usize) {
        Some(parts) => *parts,
        None => None,
    }
}

/// The new locals of a place that is the whole of a split local.
pub(crate) fn whole_parts(table: &[Option<Parts>], place: &Place) -> Option<Parts>
    ensures { result ≡ code.whole_parts table.now place.now }
{
    if place.proj.is_empty() {
        parts_at(table, place.local)
    } else {
        None
    }
}

/// The local of the field in which a place begins.
fn part_of(table: &[Option<Parts>], place: &Place) -> Option<u32>
    ensures { result ≡ code.part_of (code.parts_at table.now place.now.local) place.now.proj }
{
    let parts = parts_at(table, place.local)?;
    match place.proj.as_slice() {
        [Proj::Field(index), ..] if *index < parts.count => Some(parts.first + *index),
        _ => None,
    }
}

/// The projections behind the first one.
fn behind(proj: List<Proj>) -> List<Proj>
    ensures { result ≡ code.behind proj }
{
    let mut proj = proj.into_vec();
    if !proj.is_empty() {
        proj.remove(0);
    }
    List::from_vec(proj)
}

/// The place, at the local of its first field where that is one of its own.
pub(crate) fn put_place(table: &[Option<Parts>], place: Place) -> Place
    ensures { result ≡ code.put_place table.now place }
{
    match part_of(table, &place) {
        Some(local) => Place {
            local,
            proj: behind(place.proj),
        },
        None => place,
    }
}

pub(crate) fn put_operand(table: &[Option<Parts>], operand: Operand) -> Operand
    ensures { result ≡ code.put_operand table.now operand }
{
    match operand {
        Operand::Copy(place) => Operand::Copy(put_place(table, place)),
        Operand::Move(place) => Operand::Move(put_place(table, place)),
        Operand::Const(value) => Operand::Const(value),
    }
}

/// The same where the operand stands.
fn put_in_place(table: &[Option<Parts>], operand: &mut Operand)
    ensures { operand.new ≡ code.put_operand table.now operand.old }
{
    let old = mem::replace(operand, Operand::Const(Const::Unit));
    *operand = put_operand(table, old);
}

fn put_operands(table: &[Option<Parts>], operands: List<Operand>) -> List<Operand>
    ensures { result ≡ map (code.put_operand table.now) operands }
{
    let mut operands = operands.into_vec();
    for operand in operands.iter_mut() {
        put_in_place(table, operand);
    }
    List::from_vec(operands)
}

/// The rvalue with its places at the new locals.
pub(crate) fn put_rvalue(table: &[Option<Parts>], rvalue: Rvalue) -> Rvalue
    ensures { result ≡ code.put_rvalue table.now rvalue }
{
    match rvalue {
        Rvalue::Use(a) => Rvalue::Use(put_operand(table, a)),
        Rvalue::Binary(op, a, b) => {
            Rvalue::Binary(op, put_operand(table, a), put_operand(table, b))
        }
        Rvalue::Overflow(op, a, b) => {
            Rvalue::Overflow(op, put_operand(table, a), put_operand(table, b))
        }
        Rvalue::Unary(op, a) => Rvalue::Unary(op, put_operand(table, a)),
        Rvalue::Cast(a, ty) => Rvalue::Cast(put_operand(table, a), ty),
        Rvalue::Ref(place) => Rvalue::Ref(put_place(table, place)),
        Rvalue::RefMut(place) => Rvalue::RefMut(put_place(table, place)),
        Rvalue::Discriminant(place) => Rvalue::Discriminant(put_place(table, place)),
        Rvalue::Tuple(parts) => Rvalue::Tuple(put_operands(table, parts)),
        Rvalue::Build(def, variant, parts) => {
            Rvalue::Build(def, variant, put_operands(table, parts))
        }
    }
}

/// The terminator with its places at the new locals.
pub(crate) fn put_term(table: &[Option<Parts>], term: Term) -> Term
    ensures { result ≡ code.put_term table.now term }
{
    match term {
        Term::Goto(next) => Term::Goto(next),
        Term::Switch(operand, arms, other) => Term::Switch(
            put_operand(table, operand),
            arms,
            other,
        ),
        Term::Return => Term::Return,
        Term::Unreachable => Term::Unreachable,
        Term::Drop(place, next) => Term::Drop(put_place(table, place), next),
        Term::Call(place, callee, args, next) => {
            let args = put_operands(table, args);
            Term::Call(put_place(table, place), callee, args, next)
        }
        Term::Assert(operand, expected, text, values, next) => {
            let values = put_operands(table, values);
            Term::Assert(put_operand(table, operand), expected, text, values, next)
        }
    }
}
