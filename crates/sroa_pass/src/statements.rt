//! Statements and blocks at the locals of fields.
ghost use Rattle.std.specs.Prelude.{◌≡◌, ◌++◌, ◌∷◌, [], map, IfOk, OnOk};
ghost use Rattle.std.specs.List.{flat_map};
ghost use Rattle.sroa_pass.specs.Code as code;

use crate::by_fields::{copy_whole, fields_between, put_fields, put_storage};
use crate::parts::Parts;
use crate::places::{put_place, put_rvalue, put_term, whole_parts};
use mir_syntax::{Block, List, Operand, OutOfMemory, Place, Rvalue, Stmt, Term};
use std::alloc::Global;
use std::mem;

/// Puts an assignment that stays one.
fn put_assign(
    table: &[Option<Parts>],
    place: Place,
    rvalue: Rvalue,
    stmts: &mut List<Stmt>,
) -> Result<(), OutOfMemory>
    ensures { OnOk result (stmts.new ≡ stmts.old ++ code.one_assign table.now place rvalue) }
{
    let rvalue = put_rvalue(table, rvalue);
    stmts.push(Stmt::Assign(put_place(table, place), rvalue))
}

/// Puts the assignment of an operand.
fn put_use(
    alloc: Global,
    table: &[Option<Parts>],
    place: Place,
    operand: Operand,
    stmts: &mut List<Stmt>,
) -> Result<(), OutOfMemory>
    ensures { OnOk result (stmts.new ≡ stmts.old ++ code.use_stmts table.now place operand) }
{
    match operand {
        Operand::Copy(from) => match fields_between(table, &place, &from) {
            Some(count) => copy_whole(alloc, table, place, from, count, stmts),
            None => put_assign(table, place, Rvalue::Use(Operand::Copy(from)), stmts),
        },
        Operand::Move(from) => match fields_between(table, &place, &from) {
            Some(count) => copy_whole(alloc, table, place, from, count, stmts),
            None => put_assign(table, place, Rvalue::Use(Operand::Move(from)), stmts),
        },
        Operand::Const(value) => {
            put_assign(table, place, Rvalue::Use(Operand::Const(value)), stmts)
        }
    }
}

fn put_any_assign(
    alloc: Global,
    table: &[Option<Parts>],
    place: Place,
    rvalue: Rvalue,
    stmts: &mut List<Stmt>,
) -> Result<(), OutOfMemory>
    ensures { OnOk result (stmts.new ≡ stmts.old ++ code.assign_stmts table.now place rvalue) }
{
    match rvalue {
        Rvalue::Use(operand) => put_use(alloc, table, place, operand, stmts),
        Rvalue::Tuple(operands) => match whole_parts(table, &place) {
            Some(parts) => put_fields(alloc, table, parts, operands, stmts),
            None => put_assign(table, place, Rvalue::Tuple(operands), stmts),
        },
        Rvalue::Build(def, variant, operands) => match whole_parts(table, &place) {
            Some(parts) => put_fields(alloc, table, parts, operands, stmts),
            None => put_assign(table, place, Rvalue::Build(def, variant, operands), stmts),
        },
        rvalue => put_assign(table, place, rvalue, stmts),
    }
}

/// Puts what becomes of a statement at the end of others.
fn put_stmt(
    alloc: Global,
    table: &[Option<Parts>],
    stmt: Stmt,
    stmts: &mut List<Stmt>,
) -> Result<(), OutOfMemory>
    ensures { OnOk result (stmts.new ≡ stmts.old ++ code.put_stmt table.now stmt) }
{
    match stmt {
        Stmt::Assign(place, rvalue) => put_any_assign(alloc, table, place, rvalue, stmts),
        Stmt::StorageLive(local) => put_storage(table, true, local, stmts),
        Stmt::StorageDead(local) => put_storage(table, false, local, stmts),
        Stmt::SetDiscriminant(place, variant) => {
            stmts.push(Stmt::SetDiscriminant(put_place(table, place), variant))
        }
    }
}

fn put_stmts(
    alloc: Global,
    table: &[Option<Parts>],
    stmts: List<Stmt>,
) -> Result<List<Stmt>, OutOfMemory>
    ensures { IfOk result (λ left. left ≡ flat_map (code.put_stmt table.now) stmts) }
{
    let mut left = List::with_capacity(alloc, stmts.len())?;
    for stmt in stmts.into_vec() {
        put_stmt(alloc, table, stmt, &mut left)?;
    }
    Ok(left)
}

fn put_block(alloc: Global, table: &[Option<Parts>], block: &mut Block) -> Result<(), OutOfMemory>
    ensures { OnOk result (block.new ≡ code.put_block table.now block.old) }
{
    let stmts = mem::replace(&mut block.stmts, List::new(alloc));
    let term = mem::replace(&mut block.term, Term::Unreachable);
    block.stmts = put_stmts(alloc, table, stmts)?;
    block.term = put_term(table, term);
    Ok(())
}

/// The blocks with their places at the locals of fields.
pub(crate) fn put_blocks(
    alloc: Global,
    table: &[Option<Parts>],
    blocks: List<Block>,
) -> Result<List<Block>, OutOfMemory>
    ensures { IfOk result (λ left. left ≡ map (code.put_block table.now) blocks) }
{
    let mut blocks = blocks.into_vec();
    for block in blocks.iter_mut() {
        put_block(alloc, table, block)?;
    }
    Ok(List::from_vec(blocks))
}
