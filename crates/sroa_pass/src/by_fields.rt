//! Statements that go by fields.
ghost use Rattle.std.specs.Prelude.{◌≡◌, ◌<◌, ◌^◌, ◌++◌, ◌+◌, IfOk, OnOk, IfSome};
ghost use Rattle.sroa_pass.specs.Code as code;

use crate::parts::Parts;
use crate::places::{parts_at, put_operand, put_place, whole_parts};
use mir_syntax::{List, Operand, OutOfMemory, Place, Proj, Rvalue, Stmt};
use std::alloc::Global;

/// Where the fields of a value are: in locals of their own, or in a place.
#[derive(Debug, Drop)]
pub(crate) enum Whole {
    Parts(Parts),
    Place(Place),
}

fn whole_at(table: &[Option<Parts>], place: Place) -> Whole
    ensures { result ≡ code.whole_at table.now place }
{
    match whole_parts(table, &place) {
        Some(parts) => Whole::Parts(parts),
        None => Whole::Place(put_place(table, place)),
    }
}

/// The place of a field.
fn field_in(alloc: Global, whole: &Whole, index: u32) -> Result<Place, OutOfMemory>
    requires { index < 2 ^ 31 }
    ensures { IfOk result (λ place. place ≡ code.field_in whole.now index) }
{
    match whole {
        Whole::Parts(parts) => Ok(Place {
            local: parts.first + index,
            proj: List::new(alloc),
        }),
        Whole::Place(place) => {
            let steps = place.proj.as_slice();
            let mut proj = List::with_capacity(alloc, steps.len() + 1)?;
            proj.extend(steps)?;
            proj.push(Proj::Field(index))?;
            Ok(Place {
                local: place.local,
                proj,
            })
        }
    }
}

fn copy_field(alloc: Global, to: &Whole, from: &Whole, index: u32) -> Result<Stmt, OutOfMemory>
    requires { index < 2 ^ 31 }
    ensures { IfOk result (λ stmt. stmt ≡ code.copy_field to.now from.now index) }
{
    let to = field_in(alloc, to, index)?;
    let from = field_in(alloc, from, index)?;
    Ok(Stmt::Assign(to, Rvalue::Use(Operand::Copy(from))))
}

/// Copies so many fields in their order.
fn copy_fields(
    alloc: Global,
    to: &Whole,
    from: &Whole,
    count: u32,
    stmts: &mut List<Stmt>,
) -> Result<(), OutOfMemory>
    requires { count < 2 ^ 31 }
    ensures { OnOk result (stmts.new ≡ stmts.old ++ code.copied_fields to.now from.now count) }
{
    for index in 0..count {
        stmts.push(copy_field(alloc, to, from, index)?)?;
    }
    Ok(())
}

/// Puts values into new locals in their order.
pub(crate) fn put_fields(
    alloc: Global,
    table: &[Option<Parts>],
    parts: Parts,
    operands: List<Operand>,
    stmts: &mut List<Stmt>,
) -> Result<(), OutOfMemory>
    ensures { OnOk result (stmts.new ≡ stmts.old ++ code.put_fields table.now parts.first (parts.first + parts.count) operands) }
{
    let mut local = parts.first;
    let end = parts.first + parts.count;
    for operand in operands.into_vec() {
        if local < end {
            let place = Place {
                local,
                proj: List::new(alloc),
            };
            stmts.push(Stmt::Assign(place, Rvalue::Use(put_operand(table, operand))))?;
            local += 1;
        }
    }
    Ok(())
}

/// How many fields go from one place to another, where one of them is the whole of a split local.
pub(crate) fn fields_between(table: &[Option<Parts>], to: &Place, from: &Place) -> Option<u32>
    ensures count { result ≡ code.fields_between table.now to.now from.now }
    ensures few { IfSome result (λ count. count < 2 ^ 31) }
{
    match whole_parts(table, to) {
        Some(parts) => Some(parts.count),
        None => Some(whole_parts(table, from)?.count),
    }
}

/// Copies so many fields of a place to those of another.
pub(crate) fn copy_whole(
    alloc: Global,
    table: &[Option<Parts>],
    to: Place,
    from: Place,
    count: u32,
    stmts: &mut List<Stmt>,
) -> Result<(), OutOfMemory>
    requires { count < 2 ^ 31 }
    ensures { OnOk result (stmts.new ≡ stmts.old ++ code.copied_fields (code.whole_at table.now to) (code.whole_at table.now from) count) }
{
    let to = whole_at(table, to);
    let from = whole_at(table, from);
    copy_fields(alloc, &to, &from, count, stmts)
}

fn storage(live: bool, local: u32) -> Stmt
    ensures { result ≡ code.storage live local }
{
    if live {
        Stmt::StorageLive(local)
    } else {
        Stmt::StorageDead(local)
    }
}

/// The storage statement of a local, or of each of its new locals.
pub(crate) fn put_storage(
    table: &[Option<Parts>],
    live: bool,
    local: u32,
    stmts: &mut List<Stmt>,
) -> Result<(), OutOfMemory>
    ensures { OnOk result (stmts.new ≡ stmts.old ++ code.storage_stmts live local (code.parts_at table.now local)) }
{
    let Some(parts) = parts_at(table, local) else {
        return stmts.push(storage(live, local));
    };
    for index in 0..parts.count {
        stmts.push(storage(live, parts.first + index))?;
    }
    Ok(())
}
