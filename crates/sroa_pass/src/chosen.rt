//! Which locals are split, and their new locals.
ghost use Rattle.std.specs.Prelude.{◌≡◌, ◌<◌, ◌^◌, ◌++◌, map, length, get_or, IsTrue, IfOk, OnOk};
ghost use Rattle.bit_rows.specs.Rows.{row_at};
ghost use Rattle.mir_syntax.specs.Drops.{KnowsDrops};
ghost use Rattle.mir_syntax.specs.Ids.{IdsInTable};
ghost use Rattle.mir_syntax.specs.Table.{all_below};
ghost use Rattle.mir_syntax.specs.Tree.{trees_of, at_id};
ghost use Rattle.mir_syntax.specs.Crate.{crate_of};
ghost use Rattle.mir_syntax.specs.Shapes.{shapes_of, field_id};
ghost use Rattle.sroa_pass.specs.Code as code;

use crate::parts::Parts;
use bit_rows::BitRows;
use mir_syntax::{Field, List, OutOfMemory, Program, Ty, TyId};
use std::alloc::Global;

const MOST_FIELDS: usize = 16;

const MOST_LOCALS: usize = 10_000;

/// How many fields a tuple or a struct has; another type has none.
fn own_count(program: &Program, ty: TyId) -> usize
    requires in_table { ty.0 < length program.now.types }
    ensures { result ≡ length (code.own_fields (shapes_of (crate_of program.now)) (at_id (trees_of program.now.types) ty)) }
{
    match program.ty(ty) {
        Ty::Tuple(ids) => ids.len(),
        Ty::Named(def) => match program.struct_fields(*def) {
            Some(fields) => fields.len(),
            None => 0,
        },
        Ty::Scalar(_) => 0,
        Ty::Ref(_) => 0,
        Ty::RefMut(_) => 0,
    }
}

/// How many fields a type has; none where it has a destructor.
fn field_count(program: &Program, ty: TyId) -> usize
    requires knows { KnowsDrops program.now }
    requires in_table { ty.0 < length program.now.types }
    ensures { result ≡ code.count_in program.now ty }
{
    match program.destructor(ty) {
        Some(_) => 0,
        None => own_count(program, ty),
    }
}

fn push_types(fields: &[Field], locals: &mut List<TyId>) -> Result<(), OutOfMemory>
    ensures { OnOk result (locals.new ≡ locals.old ++ map field_id fields.now) }
{
    for field in fields {
        locals.push(field.ty)?;
    }
    Ok(())
}

/// Puts the types of the fields of a tuple or a struct at the end.
fn push_fields(program: &Program, ty: TyId, locals: &mut List<TyId>) -> Result<(), OutOfMemory>
    requires in_table { ty.0 < length program.now.types }
    ensures { OnOk result (code.Adds program.now ty locals.old locals.new) }
{
    match program.ty(ty) {
        Ty::Tuple(ids) => locals.extend(ids.as_slice()),
        Ty::Named(def) => match program.struct_fields(*def) {
            Some(fields) => push_types(fields, locals),
            None => Ok(()),
        },
        Ty::Scalar(_) => Ok(()),
        Ty::Ref(_) => Ok(()),
        Ty::RefMut(_) => Ok(()),
    }
}

/// Whether a local that has so many fields is split, so many locals standing.
fn is_chosen(args: u32, held: &BitRows, local: u32, count: usize, standing: usize) -> bool
    requires row { 0 < length held.now }
    requires few { standing < 2 ^ 30 }
    ensures { result ≡ code.is_chosen args (row_at held.now 0) local count standing }
{
    args < local
        && !held.has(0, local)
        && 0 < count
        && count <= MOST_FIELDS
        && standing + count <= MOST_LOCALS
}

/// Splits a local, if it is to be split: the types of its fields come to the end of the locals.
fn split_local(
    program: &Program,
    args: u32,
    held: &BitRows,
    local: u32,
    locals: &mut List<TyId>,
) -> Result<Option<Parts>, OutOfMemory>
    requires knows { KnowsDrops program.now }
    requires row { 0 < length held.now }
    requires there { local < length locals.old }
    requires in_table { (get_or locals.old local (record { 0 = 0 })).0 < length program.now.types }
    requires few { length locals.old < 2 ^ 30 }
    ensures { IfOk result (λ parts. code.Tried program.now args (row_at held.now 0) local (get_or locals.old local (record { 0 = 0 })) locals.old locals.new parts) }
{
    let ty = locals.as_slice()[local as usize];
    let count = field_count(program, ty);
    let first = locals.len();
    if !is_chosen(args, held, local, count, first) {
        return Ok(None);
    }
    push_fields(program, ty, locals)?;
    Ok(Some(Parts {
        first: first as u32,
        count: count as u32,
    }))
}

/// The new locals of each local that is split. Their types come to the end of the locals.
pub(crate) fn split_locals(
    alloc: Global,
    program: &Program,
    args: u32,
    held: &BitRows,
    locals: &mut List<TyId>,
) -> Result<List<Option<Parts>>, OutOfMemory>
    requires knows { KnowsDrops program.now }
    requires ids { IdsInTable program.now }
    requires row { 0 < length held.now }
    requires in_table { IsTrue (all_below (length program.now.types) locals.old) }
    requires few { length locals.old < 2 ^ 30 }
    ensures { IfOk result (λ table. code.SplitLocals program.now args (row_at held.now 0) locals.old locals.new table) }
{
    let mut table = List::with_capacity(alloc, locals.len())?;
    for local in 0..locals.len() as u32 {
        table.push(split_local(program, args, held, local, locals)?)?;
    }
    Ok(table)
}
