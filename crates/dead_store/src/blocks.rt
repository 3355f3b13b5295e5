ghost use Rattle.std.specs.Prelude.{◌≡◌, ℕ, List, ◌<◌, ◌^◌, map, set, length, get_or, IfOk, OnOk};
ghost use Rattle.std.specs.List.{All};
ghost use Rattle.bit_rows.specs.Rows.{row_at, HasSize};
ghost use Rattle.mir_syntax.specs.Tree.{Tree};
ghost use Rattle.mir_syntax.specs.Crate.{stmt_of};
ghost use Rattle.mir_syntax.specs.declared.body.Block.{Block};
ghost use Rattle.liveness.specs.Rows.{before_all};
ghost use Rattle.dead_store.specs.Rounds.{SetsBelow, BlockSetsBelow, block_after};

use crate::stmts::staying_stmts;
use bit_rows::BitRows;
use mir_syntax::{Block, List, OutOfMemory};
use std::alloc::Global;
use std::mem;

/// Takes the statements out of a block that nobody needs.
fn prune_block(
    alloc: Global,
    block: &mut Block,
    lent: &BitRows,
    live: &mut BitRows,
    row: u32,
) -> Result<(), OutOfMemory>
    requires lent_row { 0 < length lent.now }
    requires live_row { row < length live.old }
    requires lent_bits { SetsBelow (length (row_at lent.now 0)) block.old.stmts }
    requires live_bits { SetsBelow (length (row_at live.old row)) block.old.stmts }
    ensures block { OnOk result ((trees : List Tree) → block.new ≡ block_after trees (row_at lent.now 0) (row_at live.old row) block.old) }
    ensures live { OnOk result ((trees : List Tree) → live.new ≡ set live.old row (before_all (map (stmt_of trees) block.old.stmts) (row_at live.old row))) }
{
    let stmts = mem::replace(&mut block.stmts, List::new(alloc));
    block.stmts = staying_stmts(alloc, stmts, lent, live, row)?;
    Ok(())
}

/// The blocks without the statements that nobody needs. The rows of `live` have the locals that are live before the blocks' terminators.
pub(crate) fn pruned_blocks(
    alloc: Global,
    blocks: List<Block>,
    lent: &BitRows,
    live: BitRows,
    locals: usize,
) -> Result<List<Block>, OutOfMemory>
    requires lent_size { HasSize lent.now 1 locals }
    requires live_size { HasSize live (length blocks) locals }
    requires few { length blocks < 2 ^ 30 }
    requires sets { All (BlockSetsBelow locals) blocks }
    ensures count { IfOk result (λ list. length list ≡ length blocks) }
    ensures blocks { IfOk result (λ list. (trees : List Tree) (i : ℕ) (d : Block) → i < length blocks → get_or list i d ≡ block_after trees (row_at lent.now 0) (row_at live i) (get_or blocks i d)) }
{
    let mut live = live;
    let mut blocks = blocks.into_vec();
    for (at, block) in blocks.iter_mut().enumerate() {
        prune_block(alloc, block, lent, &mut live, at as u32)?;
    }
    Ok(List::from_vec(blocks))
}
