ghost use Rattle.std.specs.Prelude.{◌≡◌, ◌<◌, ◌++◌, ◌∷◌, [], map, length, if◌then◌else◌, IfOk, OnOk};
ghost use Rattle.bit_rows.specs.Rows.{row_at};
ghost use Rattle.trim_locals.specs.Trimmed.{number_in};
ghost use Rattle.trim_locals.specs.Code.{bare_stays, bare_renamed_stmt, bare_trimmed_stmts, bare_trimmed_block};

use crate::renaming::{renamed_stmt, renamed_term};
use bit_rows::BitRows;
use mir_syntax::{Block, List, OutOfMemory, Stmt, Term};
use std::alloc::Global;
use std::mem;

/// Whether a statement stays: a storage statement does where its local is used.
fn stays(stmt: &Stmt, used: &BitRows) -> bool
    requires { 0 < length used.now }
    ensures { result ≡ bare_stays (row_at used.now 0) stmt.now }
{
    match stmt {
        Stmt::StorageLive(local) => used.has(0, *local),
        Stmt::StorageDead(local) => used.has(0, *local),
        Stmt::Assign(_, _) => true,
        Stmt::SetDiscriminant(_, _) => true,
    }
}

/// Puts a statement at the end, with the new numbers of its locals, if it stays.
fn keep(
    kept: &mut Vec<Stmt>,
    stmt: Stmt,
    used: &BitRows,
    numbers: &[u32],
) -> Result<(), OutOfMemory>
    requires { 0 < length used.now }
    ensures { OnOk result (kept.new.items ≡ (if bare_stays (row_at used.now 0) stmt then kept.old.items ++ bare_renamed_stmt (number_in numbers.now) stmt ∷ [] else kept.old.items)) }
{
    if !stays(&stmt, used) {
        return Ok(());
    }
    kept.push(renamed_stmt(stmt, numbers))?;
    Ok(())
}

fn trimmed_stmts(
    alloc: Global,
    stmts: List<Stmt>,
    used: &BitRows,
    numbers: &[u32],
) -> Result<List<Stmt>, OutOfMemory>
    requires { 0 < length used.now }
    ensures { IfOk result (λ kept. kept ≡ bare_trimmed_stmts (row_at used.now 0) numbers.now stmts) }
{
    let mut left = stmts;
    let mut kept = Vec::new(alloc);
    while let Some(stmt) = left.pop() {
        keep(&mut kept, stmt, used, numbers)?;
    }
    kept.reverse();
    Ok(List::from_vec(kept))
}

fn trim_block(
    alloc: Global,
    block: &mut Block,
    used: &BitRows,
    numbers: &[u32],
) -> Result<(), OutOfMemory>
    requires { 0 < length used.now }
    ensures { OnOk result (block.new ≡ bare_trimmed_block (row_at used.now 0) numbers.now block.old) }
{
    let stmts = mem::replace(&mut block.stmts, List::new(alloc));
    let term = mem::replace(&mut block.term, Term::Unreachable);
    block.stmts = trimmed_stmts(alloc, stmts, used, numbers)?;
    block.term = renamed_term(term, numbers);
    Ok(())
}

/// The blocks without the storage statements of locals that go, with the new numbers of the others.
pub(crate) fn trimmed_blocks(
    alloc: Global,
    blocks: List<Block>,
    used: &BitRows,
    numbers: &[u32],
) -> Result<List<Block>, OutOfMemory>
    requires { 0 < length used.now }
    ensures { IfOk result (λ list. list ≡ map (bare_trimmed_block (row_at used.now 0) numbers.now) blocks) }
{
    let mut blocks = blocks.into_vec();
    for block in blocks.iter_mut() {
        trim_block(alloc, block, used, numbers)?;
    }
    Ok(List::from_vec(blocks))
}
