ghost use Rattle.std.specs.Prelude.{◌≡◌, ℕ, ◌<◌, length, IfOk};
ghost use Rattle.mir_syntax.specs.Tree.{trees_of};
ghost use Rattle.mir_syntax.specs.Crate.{crate_of, body_of};
ghost use Rattle.mir_syntax.specs.Shapes.{shapes_of};
ghost use Rattle.mir_syntax.specs.Drops.{KnowsDrops};
ghost use Rattle.mir_syntax.specs.Ids.{IdsInTable};
ghost use Rattle.dead_store.specs.Pruned.{IsPrunedOnce, IsPruned, pruned as pruned_body};
ghost use Rattle.dead_store.specs.Rounds.{IsReady};

use crate::blocks::pruned_blocks;
use escape_info::address_taken;
use liveness::live;
use mir_syntax::{Body, OutOfMemory, Program};
use std::alloc::Global;

/// One round.
fn pruned_once(alloc: Global, program: &Program, body: Body) -> Result<Body, OutOfMemory>
    requires knows { KnowsDrops program.now }
    requires ids { IdsInTable program.now }
    requires ready { IsReady program.now.types body }
    ensures pruned { IfOk result (λ left. IsPrunedOnce (shapes_of (crate_of program.now)) (body_of (trees_of program.now.types) body) (body_of (trees_of program.now.types) left)) }
    ensures ready { IfOk result (λ left. IsReady program.now.types left) }
{
    let lent = address_taken(alloc, program, &body)?;
    let rows = live(alloc, program, &body)?;
    let Body {
        args,
        locals,
        blocks,
    } = body;
    let blocks = pruned_blocks(alloc, blocks, &lent, rows.ends, locals.len())?;
    Ok(Body {
        args,
        locals,
        blocks,
    })
}

/// The body without the assignments whose value nobody reads, after three rounds.
///
/// # Errors
///
/// `OutOfMemory`; the body is spent then.
pub fn pruned(alloc: Global, program: &Program, body: Body) -> Result<Body, OutOfMemory>
    requires knows { KnowsDrops program.now }
    requires ids { IdsInTable program.now }
    requires ready { IsReady program.now.types body }
    ensures answer { IfOk result (λ left. body_of (trees_of program.now.types) left ≡ pruned_body (shapes_of (crate_of program.now)) (body_of (trees_of program.now.types) body)) }
    ensures pruned { IfOk result (λ left. IsPruned (shapes_of (crate_of program.now)) (body_of (trees_of program.now.types) body) (body_of (trees_of program.now.types) left)) }
    ensures ready { IfOk result (λ left. IsReady program.now.types left) }
{
    let once = pruned_once(alloc, program, body)?;
    let twice = pruned_once(alloc, program, once)?;
    pruned_once(alloc, program, twice)
}
