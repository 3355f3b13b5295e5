ghost use Rattle.std.specs.Prelude.{◌≡◌, ℕ, ◌<◌, ◌^◌, ◌↔◌, [], ◌∷◌, set, length, replicate, true, false, IsTrue, IfOk, OnOk};
ghost use Rattle.std.specs.List.{All};
ghost use Rattle.bit_rows.specs.Rows.{row_at, flag, HasSize};
ghost use Rattle.mir_cfg.specs.Paths.{terms_of, Closed, Reached};
ghost use Rattle.mir_cfg.specs.Search.{Finds};

use crate::edges::succs;
use bit_rows::BitRows;
use mir_syntax::{Body, OutOfMemory};
use std::alloc::Global;

/// Marks blocks in the one row of `found`, and opens those that weren't marked.
fn find_all(found: &mut BitRows, opened: &mut Vec<u32>, blocks: &[u32]) -> Result<(), OutOfMemory>
    requires one { HasSize found.old 1 (length (row_at found.old 0)) }
    requires within { All (λ b. b < length (row_at found.old 0)) blocks.now }
    ensures one { OnOk result (HasSize found.new 1 (length (row_at found.old 0))) }
    ensures finds { OnOk result (Finds (row_at found.old 0) (row_at found.new 0) opened.old.items opened.new.items blocks.now) }
{
    for block in blocks {
        if found.get(0, *block) {
            continue;
        }
        found.set(0, *block, true);
        opened.push(*block)?;
    }
    Ok(())
}

/// One row, in which the blocks are marked to which a path leads from bb0.
///
/// # Errors
///
/// `OutOfMemory`.
pub fn reachable(alloc: Global, body: &Body) -> Result<BitRows, OutOfMemory>
    requires some_block { 0 < length body.now.blocks }
    requires closed { Closed (terms_of body.now) }
    requires few { length body.now.blocks < 2 ^ 30 }
    ensures size { IfOk result (λ row. HasSize row 1 (length body.now.blocks)) }
    ensures reached { IfOk result (λ row. (b : ℕ) → IsTrue (flag row 0 b) ↔ Reached (terms_of body.now) b) }
{
    let blocks = body.blocks.as_slice();
    let mut found = BitRows::new(alloc, 1, blocks.len() as u32)?;
    found.set(0, 0, true);
    let mut opened = Vec::new(alloc);
    opened.push(0u32)?;
    while let Some(block) = opened.pop() {
        let to = succs(alloc, &blocks[block as usize])?;
        find_all(&mut found, &mut opened, to.as_slice())?;
    }
    Ok(found)
}
