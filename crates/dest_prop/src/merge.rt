//! The body in which the locals of a group share one.
ghost use Rattle.std.specs.Prelude.{◌≡◌, ℕ, ◌<◌, ◌^◌, ◌++◌, ◌∷◌, [], map, set, length, replicate, false, if◌then◌else◌, IfOk, OnOk};
ghost use Rattle.std.specs.List.{flat_map, range_with_len};
ghost use Rattle.mir_syntax.specs.Drops.{KnowsDrops};
ghost use Rattle.mir_syntax.specs.Ids.{IdsInTable, BodyInTable};
ghost use Rattle.mir_syntax.specs.Tree.{trees_of};
ghost use Rattle.mir_syntax.specs.Crate.{crate_of, body_of};
ghost use Rattle.mir_syntax.specs.Shapes.{shapes_of};
ghost use Rattle.mir_cfg.specs.Paths.{terms_of, Closed};
ghost use Rattle.bit_rows.specs.Rows.{row_at, marked};
ghost use Rattle.dest_prop.specs.Merged as definition;
ghost use Rattle.dest_prop.specs.Code.{home_in, shared_in, goes_home, shared_marks, marked_shared, bare_copy, bare_stays, bare_stmt_home, bare_stmts_home, bare_block_home};

use crate::candidates::{candidates, copied};
use crate::conflicts::conflicts;
use crate::groups::homes;
use crate::renaming::{home_of, stmt_at_home, term_at_home};
use bit_rows::BitRows;
use mir_syntax::{Block, Body, List, OutOfMemory, Program, Stmt, Term};
use std::alloc::Global;
use std::mem;

/// Marks a local that isn't its own home, and its home.
fn mark_shared(row: &mut BitRows, local: u32, home: u32)
    requires { 0 < length row.old }
    ensures { row.new ≡ set row.old 0 (marked (row_at row.old 0) (shared_marks local home)) }
{
    if home != local {
        row.write(0, local, true);
        row.write(0, home, true);
    }
}

/// One row, in which the locals are marked that share their home with another.
fn shared_row(alloc: Global, homes: &[u32]) -> Result<BitRows, OutOfMemory>
    requires { length homes.now < 2 ^ 30 }
    ensures { IfOk result (λ row. row ≡ marked (replicate (length homes.now) false) (flat_map (marked_shared homes.now) (range_with_len 0 (length homes.now))) ∷ []) }
{
    let mut row = BitRows::new(alloc, 1, homes.len() as u32)?;
    for (local, home) in homes.iter().enumerate() {
        mark_shared(&mut row, local as u32, *home);
    }
    Ok(row)
}

/// Whether a statement copies a shared local to its own home.
fn goes_home(stmt: &Stmt, homes: &[u32], shared: &BitRows) -> bool
    requires { 0 < length shared.now }
    ensures { result ≡ goes_home (shared_in (row_at shared.now 0)) (home_in homes.now) (bare_copy stmt.now) }
{
    match copied(stmt) {
        Some(copy) => {
            shared.has(0, copy.into) && home_of(homes, copy.into) == home_of(homes, copy.from)
        }
        None => false,
    }
}

/// Whether a statement stays.
fn stays(stmt: &Stmt, homes: &[u32], shared: &BitRows) -> bool
    requires { 0 < length shared.now }
    ensures { result ≡ bare_stays (shared_in (row_at shared.now 0)) (home_in homes.now) stmt.now }
{
    match stmt {
        Stmt::Assign(_, _) => !goes_home(stmt, homes, shared),
        Stmt::StorageLive(local) => !shared.has(0, *local),
        Stmt::StorageDead(local) => !shared.has(0, *local),
        Stmt::SetDiscriminant(_, _) => true,
    }
}

/// Puts a statement at the end, with its locals at their homes, if it stays.
fn keep(
    kept: &mut Vec<Stmt>,
    stmt: Stmt,
    homes: &[u32],
    shared: &BitRows,
) -> Result<(), OutOfMemory>
    requires { 0 < length shared.now }
    ensures { OnOk result (kept.new.items ≡ (if bare_stays (shared_in (row_at shared.now 0)) (home_in homes.now) stmt then kept.old.items ++ bare_stmt_home (shared_in (row_at shared.now 0)) (home_in homes.now) stmt ∷ [] else kept.old.items)) }
{
    if !stays(&stmt, homes, shared) {
        return Ok(());
    }
    kept.push(stmt_at_home(stmt, homes, shared))?;
    Ok(())
}

fn stmts_at_home(
    alloc: Global,
    stmts: List<Stmt>,
    homes: &[u32],
    shared: &BitRows,
) -> Result<List<Stmt>, OutOfMemory>
    requires { 0 < length shared.now }
    ensures { IfOk result (λ kept. kept ≡ bare_stmts_home (shared_in (row_at shared.now 0)) (home_in homes.now) stmts) }
{
    let mut left = stmts;
    let mut kept = Vec::new(alloc);
    while let Some(stmt) = left.pop() {
        keep(&mut kept, stmt, homes, shared)?;
    }
    kept.reverse();
    Ok(List::from_vec(kept))
}

fn put_block_at_home(
    alloc: Global,
    block: &mut Block,
    homes: &[u32],
    shared: &BitRows,
) -> Result<(), OutOfMemory>
    requires { 0 < length shared.now }
    ensures { OnOk result (block.new ≡ bare_block_home (shared_in (row_at shared.now 0)) (home_in homes.now) block.old) }
{
    let stmts = mem::replace(&mut block.stmts, List::new(alloc));
    let term = mem::replace(&mut block.term, Term::Unreachable);
    block.stmts = stmts_at_home(alloc, stmts, homes, shared)?;
    block.term = term_at_home(term, homes, shared);
    Ok(())
}

/// The blocks with their locals at their homes.
fn blocks_at_home(
    alloc: Global,
    blocks: List<Block>,
    homes: &[u32],
    shared: &BitRows,
) -> Result<List<Block>, OutOfMemory>
    requires { 0 < length shared.now }
    ensures { IfOk result (λ list. list ≡ map (bare_block_home (shared_in (row_at shared.now 0)) (home_in homes.now)) blocks) }
{
    let mut blocks = blocks.into_vec();
    for block in blocks.iter_mut() {
        put_block_at_home(alloc, block, homes, shared)?;
    }
    Ok(List::from_vec(blocks))
}

/// The body in which locals that are copied into one another, and are never written while another of them is live, share one local.
///
/// # Errors
///
/// `OutOfMemory`; the body is spent then.
pub fn merged(alloc: Global, program: &Program, body: Body) -> Result<Body, OutOfMemory>
    requires knows { KnowsDrops program.now }
    requires ids { IdsInTable program.now }
    requires body_ids { BodyInTable program.now.types body }
    requires closed { Closed (terms_of body) }
    requires some_block { 0 < length body.blocks }
    requires few_blocks { length body.blocks < 2 ^ 30 }
    requires few_locals { length body.locals < 2 ^ 30 }
    ensures merged { IfOk result (λ left. body_of (trees_of program.now.types) left ≡ definition.merged (shapes_of (crate_of program.now)) (body_of (trees_of program.now.types) body)) }
    ensures in_table { IfOk result (λ left. BodyInTable program.now.types left) }
{
    let candidates = candidates(alloc, program, &body)?;
    let hurts = conflicts(alloc, program, &body)?;
    let locals = body.locals.len() as u32;
    let homes = homes(alloc, body.args, hurts, locals, candidates.as_slice())?;
    let shared = shared_row(alloc, homes.as_slice())?;
    let blocks = blocks_at_home(alloc, body.blocks, homes.as_slice(), &shared)?;
    Ok(Body {
        args: body.args,
        locals: body.locals,
        blocks,
    })
}
