ghost use Rattle.std.specs.Prelude.{◌≡◌, ℕ, List, ◌<◌, ◌++◌, ◌∷◌, [], map, set, length, if◌then◌else◌, IfOk, OnOk};
ghost use Rattle.std.specs.List.{All};
ghost use Rattle.bit_rows.specs.Rows.{row_at};
ghost use Rattle.mir_syntax.specs.Tree.{Tree};
ghost use Rattle.mir_syntax.specs.Crate.{stmt_of};
ghost use Rattle.liveness.specs.Rows.{before_all};
ghost use Rattle.dead_store.specs.Rounds.{set_locals, SetsBelow, is_idle as idle_place, goes as goes_by, staying};

use bit_rows::BitRows;
use liveness::back;
use mir_syntax::{List, OutOfMemory, Place, Stmt};
use std::alloc::Global;

/// Whether nobody reads what is written to a place, given the locals that are live after.
fn is_idle(place: &Place, lent: &BitRows, live: &BitRows, row: u32) -> bool
    requires lent_row { 0 < length lent.now }
    requires live_row { row < length live.now }
    requires lent_bit { place.now.local < length (row_at lent.now 0) }
    requires live_bit { place.now.local < length (row_at live.now row) }
    ensures { result ≡ idle_place (row_at lent.now 0) (row_at live.now row) place.now }
{
    !place.has_deref() && !lent.get(0, place.local) && !live.get(row, place.local)
}

/// Whether a statement goes, given the locals that are live after it.
fn goes(stmt: &Stmt, lent: &BitRows, live: &BitRows, row: u32) -> bool
    requires lent_row { 0 < length lent.now }
    requires live_row { row < length live.now }
    requires lent_bit { All (λ x. x < length (row_at lent.now 0)) (set_locals stmt.now) }
    requires live_bit { All (λ x. x < length (row_at live.now row)) (set_locals stmt.now) }
    ensures { result ≡ goes_by (row_at lent.now 0) (row_at live.now row) stmt.now }
{
    match stmt {
        Stmt::Assign(place, _) => is_idle(place, lent, live, row),
        Stmt::SetDiscriminant(place, _) => is_idle(place, lent, live, row),
        Stmt::StorageLive(_) => false,
        Stmt::StorageDead(_) => false,
    }
}

/// Puts a statement at the end, unless it goes.
fn keep(kept: &mut Vec<Stmt>, stmt: Stmt, gone: bool) -> Result<(), OutOfMemory>
    ensures { OnOk result (kept.new.items ≡ (if gone then kept.old.items else kept.old.items ++ stmt ∷ [])) }
{
    if gone {
        return Ok(());
    }
    kept.push(stmt)?;
    Ok(())
}

/// The statements of a block that stay. The row of `live` has the locals that are live after all of them, and then those before.
pub(crate) fn staying_stmts(
    alloc: Global,
    stmts: List<Stmt>,
    lent: &BitRows,
    live: &mut BitRows,
    row: u32,
) -> Result<List<Stmt>, OutOfMemory>
    requires lent_row { 0 < length lent.now }
    requires live_row { row < length live.old }
    requires lent_bits { SetsBelow (length (row_at lent.now 0)) stmts }
    requires live_bits { SetsBelow (length (row_at live.old row)) stmts }
    ensures stmts { IfOk result (λ kept. (trees : List Tree) → kept ≡ staying trees (row_at lent.now 0) (row_at live.old row) stmts) }
    ensures live { OnOk result ((trees : List Tree) → live.new ≡ set live.old row (before_all (map (stmt_of trees) stmts) (row_at live.old row))) }
{
    let mut left = stmts;
    let mut kept = Vec::new(alloc);
    while let Some(stmt) = left.pop() {
        let gone = goes(&stmt, lent, live, row);
        back(&stmt, live, row);
        keep(&mut kept, stmt, gone)?;
    }
    kept.reverse();
    Ok(List::from_vec(kept))
}
