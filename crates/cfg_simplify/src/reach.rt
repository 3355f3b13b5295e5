ghost use Rattle.std.specs.Prelude.{◌≡◌, ◌<◌, ◌^◌, map, length, IfOk};
ghost use Rattle.mir_cfg.specs.Paths.{terms_of, Closed, is_reached};
ghost use Rattle.cfg_simplify.specs.Simple.{numbers};

use mir_cfg::reachable;
use mir_syntax::{Body, OutOfMemory};
use std::alloc::Global;

/// Of each block whether a path leads to it from bb0.
pub(crate) fn reached_blocks(alloc: Global, body: &Body) -> Result<Vec<bool>, OutOfMemory>
    requires some_block { 0 < length body.now.blocks }
    requires closed { Closed (terms_of body.now) }
    requires few { length body.now.blocks < 2 ^ 30 }
    ensures { IfOk result (λ marks. marks.items ≡ map (is_reached (terms_of body.now)) (numbers (length body.now.blocks))) }
{
    let row = reachable(alloc, body)?;
    let mut marks = Vec::new(alloc);
    for block in 0..body.blocks.len() as u32 {
        marks.push(row.get(0, block))?;
    }
    Ok(marks)
}
