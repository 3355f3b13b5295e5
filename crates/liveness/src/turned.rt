//! The edges of a body, turned round.
ghost use Rattle.std.specs.Prelude.{◌≡◌, ℕ, List, ◌<◌, ◌^◌, ◌++◌, map, length, IfOk, OnOk};
ghost use Rattle.mir_syntax.specs.Tree.{Tree};
ghost use Rattle.mir_syntax.specs.Crate.{block_of};
ghost use Rattle.liveness.specs.Rows.{edge_back, IsTurned};

use flow_engine::Edge;
use mir_cfg::succs;
use mir_syntax::{Block, List, OutOfMemory};
use std::alloc::Global;

/// Adds the edges from the targets of a block to the block.
fn add_edges(edges: &mut List<Edge>, block: u32, targets: &[u32]) -> Result<(), OutOfMemory>
    ensures { OnOk result (edges.new ≡ edges.old ++ map (edge_back block) targets.now) }
{
    for target in targets {
        edges.push(Edge {
            from: *target,
            to: block,
        })?;
    }
    Ok(())
}

/// For each edge from a block to its target the edge back.
pub(crate) fn turned_edges(alloc: Global, blocks: &[Block]) -> Result<List<Edge>, OutOfMemory>
    requires { length blocks.now < 2 ^ 30 }
    ensures { IfOk result (λ edges. (trees : List Tree) → IsTurned (map (block_of trees) blocks.now) (length blocks.now) edges) }
{
    let mut edges = List::new(alloc);
    for (at, block) in blocks.iter().enumerate() {
        let targets = succs(alloc, block)?;
        add_edges(&mut edges, at as u32, targets.as_slice())?;
    }
    Ok(edges)
}
