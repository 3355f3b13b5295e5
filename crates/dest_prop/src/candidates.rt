//! The copies of whole locals into whole locals, and those of them whose locals may share one.
ghost use Rattle.std.specs.Prelude.{◌≡◌, ◌<◌, ◌^◌, ◌++◌, map, length, slice_get, IfOk, OnOk};
ghost use Rattle.std.specs.List.{flat_map};
ghost use Rattle.bit_rows.specs.Rows.{row_at};
ghost use Rattle.mir_syntax.specs.Drops.{KnowsDrops};
ghost use Rattle.mir_syntax.specs.Ids.{IdsInTable, BodyInTable};
ghost use Rattle.mir_syntax.specs.Tree.{trees_of};
ghost use Rattle.mir_syntax.specs.Crate.{crate_of, body_of};
ghost use Rattle.mir_syntax.specs.Shapes.{shapes_of};
ghost use Rattle.dest_prop.specs.Merged as definition;
ghost use Rattle.dest_prop.specs.Code.{whole_local, operand_whole, bare_use, bare_copy, one_id, bare_fits, fitting, block_copies, pair_of};

use bit_rows::BitRows;
use escape_info::address_taken;
use mir_syntax::{Block, Body, List, Operand, OutOfMemory, Place, Program, Rvalue, Stmt, TyId};
use std::alloc::Global;

/// A copy or move of the whole of a local into the whole of one.
#[derive(Clone, Copy, Debug, Drop)]
pub(crate) struct LocalCopy {
    pub into: u32,
    pub from: u32,
}

/// The local of which a place is the whole.
fn whole(place: &Place) -> Option<u32>
    ensures { result ≡ whole_local place.now }
{
    if place.proj.is_empty() {
        Some(place.local)
    } else {
        None
    }
}

/// The local of which an operand reads the whole.
fn read_whole(operand: &Operand) -> Option<u32>
    ensures { result ≡ operand_whole operand.now }
{
    match operand {
        Operand::Copy(place) => whole(place),
        Operand::Move(place) => whole(place),
        Operand::Const(_) => None,
    }
}

/// The copy that an assignment of an operand makes.
fn copy_of(place: &Place, operand: &Operand) -> Option<LocalCopy>
    ensures { result ≡ bare_use place.now operand.now }
{
    match (whole(place), read_whole(operand)) {
        (Some(into), Some(from)) => Some(LocalCopy { into, from }),
        _ => None,
    }
}

/// The copy that a statement makes.
pub(crate) fn copied(stmt: &Stmt) -> Option<LocalCopy>
    ensures { result ≡ bare_copy stmt.now }
{
    match stmt {
        Stmt::Assign(place, Rvalue::Use(operand)) => copy_of(place, operand),
        _ => None,
    }
}

/// Whether two locals have one type.
fn have_one_type(locals: &[TyId], a: u32, b: u32) -> bool
    ensures { result ≡ one_id (slice_get locals.now a) (slice_get locals.now b) }
{
    match (locals.get(a as usize), locals.get(b as usize)) {
        (Some(a), Some(b)) => *a == *b,
        _ => false,
    }
}

/// Whether both locals of a copy are of one type and neither is borrowed.
fn fits(locals: &[TyId], lent: &BitRows, copy: LocalCopy) -> bool
    requires { 0 < length lent.now }
    ensures { result ≡ bare_fits locals.now (row_at lent.now 0) copy }
{
    have_one_type(locals, copy.into, copy.from)
        && !lent.has(0, copy.into)
        && !lent.has(0, copy.from)
}

/// Adds the copies of statements whose locals fit.
fn add_candidates(
    found: &mut List<LocalCopy>,
    locals: &[TyId],
    lent: &BitRows,
    stmts: &[Stmt],
) -> Result<(), OutOfMemory>
    requires { 0 < length lent.now }
    ensures { OnOk result (found.new ≡ found.old ++ flat_map (fitting locals.now (row_at lent.now 0)) stmts.now) }
{
    for stmt in stmts {
        match copied(stmt) {
            Some(copy) if fits(locals, lent, copy) => found.push(copy)?,
            _ => {}
        }
    }
    Ok(())
}

/// The copies of blocks whose locals fit, in order.
fn in_blocks(
    alloc: Global,
    locals: &[TyId],
    lent: &BitRows,
    blocks: &[Block],
) -> Result<List<LocalCopy>, OutOfMemory>
    requires { 0 < length lent.now }
    ensures { IfOk result (λ found. found ≡ flat_map (block_copies locals.now (row_at lent.now 0)) blocks.now) }
{
    let mut found = List::new(alloc);
    for block in blocks {
        add_candidates(&mut found, locals, lent, block.stmts.as_slice())?;
    }
    Ok(found)
}

/// The candidates of a body, in the order of their statements.
pub(crate) fn candidates(
    alloc: Global,
    program: &Program,
    body: &Body,
) -> Result<List<LocalCopy>, OutOfMemory>
    requires knows { KnowsDrops program.now }
    requires ids { IdsInTable program.now }
    requires body_ids { BodyInTable program.now.types body.now }
    requires few { length body.now.locals < 2 ^ 30 }
    ensures { IfOk result (λ found. map pair_of found ≡ definition.candidates (shapes_of (crate_of program.now)) (body_of (trees_of program.now.types) body.now)) }
{
    let lent = address_taken(alloc, program, body)?;
    in_blocks(alloc, body.locals.as_slice(), &lent, body.blocks.as_slice())
}
