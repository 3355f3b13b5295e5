//! Which locals of a body are borrowed, so that they can be read and written through references.
//!
//! `address_taken` answers one row over the locals: a bit is set exactly where the local is `borrowed` (`specs/Borrowed.antt`): a statement
//! makes a reference to a part of it that isn't behind another reference, or a terminator drops a part of it whose type needs drop.
#![tactic(auto)]

ghost use Rattle.std.specs.Prelude.{◌≡◌, ◌<◌, ◌^◌, [], ◌∷◌, ◌++◌, set, length, map, IfOk, if◌then◌else◌};
ghost use Rattle.std.specs.List.{flat_map, range_with_len, list_any};
ghost use Rattle.bit_rows.specs.Rows.{row_at, marked};
ghost use Rattle.mir_syntax.specs.Tree.{trees_of};
ghost use Rattle.mir_syntax.specs.Crate.{crate_of, body_of, stmt_of, rvalue_of, block_of};
ghost use Rattle.mir_syntax.specs.Shapes.{shapes_of};
ghost use Rattle.mir_syntax.specs.Drops.{KnowsDrops};
ghost use Rattle.mir_syntax.specs.Ids.{IdsInTable, BodyInTable};
ghost use Rattle.escape_info.specs.Borrowed.{if_direct, lent_by, lent, bare_lent, dropped, lent_in, place_needs_drop as needs_drop_at, borrowed};

use bit_rows::BitRows;
use mir_syntax::{Body, OutOfMemory, Place, Program, Rvalue, Stmt, Term};
use std::alloc::Global;

/// Marks the local of a place that isn't behind a reference.
fn mark_direct(rows: &mut BitRows, place: &Place)
    requires { 0 < length rows.old }
    ensures { rows.new ≡ set rows.old 0 (marked (row_at rows.old 0) (if_direct place.now)) }
{
    if !place.has_deref() {
        rows.write(0, place.local, true);
    }
}

/// Marks what a statement lends.
fn mark_stmt(rows: &mut BitRows, stmt: &Stmt)
    requires { 0 < length rows.old }
    ensures { rows.new ≡ set rows.old 0 (marked (row_at rows.old 0) (bare_lent stmt.now)) }
{
    match stmt {
        Stmt::Assign(_, Rvalue::Ref(place)) => mark_direct(rows, place),
        Stmt::Assign(_, Rvalue::RefMut(place)) => mark_direct(rows, place),
        _ => {}
    }
}

/// Marks what statements lend.
fn mark_lent(rows: &mut BitRows, stmts: &[Stmt])
    requires { 0 < length rows.old }
    ensures { rows.new ≡ set rows.old 0 (marked (row_at rows.old 0) (flat_map bare_lent stmts.now)) }
{
    for stmt in stmts {
        mark_stmt(rows, stmt);
    }
}

/// Marks the local of a part that a terminator drops, if its type needs drop.
fn mark_dropped(program: &Program, body: &Body, rows: &mut BitRows, term: &Term)
    requires knows { KnowsDrops program.now }
    requires ids { IdsInTable program.now }
    requires body_ids { BodyInTable program.now.types body.now }
    requires row { 0 < length rows.old }
    ensures { rows.new ≡ set rows.old 0 (marked (row_at rows.old 0) (dropped (shapes_of (crate_of program.now)) (body_of (trees_of program.now.types) body.now).locals term.now)) }
{
    let Term::Drop(place, _) = term else {
        return;
    };
    if place_needs_drop(program, body, place) {
        rows.write(0, place.local, true);
    }
}

fn place_needs_drop(program: &Program, body: &Body, place: &Place) -> bool
    requires knows { KnowsDrops program.now }
    requires ids { IdsInTable program.now }
    requires body_ids { BodyInTable program.now.types body.now }
    ensures { result ≡ needs_drop_at (shapes_of (crate_of program.now)) (body_of (trees_of program.now.types) body.now).locals place.now }
{
    match program.place_ty(body, place) {
        Some(ty) => program.needs_drop(ty),
        None => false,
    }
}

/// One row, in which the borrowed locals are marked.
///
/// # Errors
///
/// `OutOfMemory`.
pub fn address_taken(alloc: Global, program: &Program, body: &Body) -> Result<BitRows, OutOfMemory>
    requires knows { KnowsDrops program.now }
    requires ids { IdsInTable program.now }
    requires body_ids { BodyInTable program.now.types body.now }
    requires few { length body.now.locals < 2 ^ 30 }
    ensures { IfOk result (λ row. row ≡ map (borrowed (shapes_of (crate_of program.now)) (body_of (trees_of program.now.types) body.now)) (range_with_len 0 (length body.now.locals)) ∷ []) }
{
    let mut row = BitRows::new(alloc, 1, body.locals.len() as u32)?;
    for block in body.blocks.as_slice() {
        mark_lent(&mut row, block.stmts.as_slice());
        mark_dropped(program, body, &mut row, &block.term);
    }
    Ok(row)
}
