//! The edges that leave the blocks to which a path leads.
ghost use Rattle.std.specs.Prelude.{◌≡◌, ◌<◌, ◌^◌, ◌++◌, List, map, length, IsTrue, IfOk, OnOk};
ghost use Rattle.mir_syntax.specs.Tree.{Tree};
ghost use Rattle.mir_syntax.specs.Crate.{block_of, body_of};
ghost use Rattle.mir_cfg.specs.Paths.{terms_of, Closed, Reached};
ghost use Rattle.mir_syntax.specs.Parts.{targets};
ghost use Rattle.bit_rows.specs.Rows.{flag};
ghost use Rattle.move_paths.specs.Rows.{edge_on, IsOnward};

use bit_rows::BitRows;
use flow_engine::Edge;
use mir_cfg::{reachable, succs};
use mir_syntax::{Block, Body, List, OutOfMemory};
use std::alloc::Global;

/// Adds the edges from a block to its targets.
fn add_edges(edges: &mut List<Edge>, block: u32, targets: &[u32]) -> Result<(), OutOfMemory>
    ensures { OnOk result (edges.new ≡ edges.old ++ map (edge_on block) targets.now) }
{
    for target in targets {
        edges.push(Edge {
            from: block,
            to: *target,
        })?;
    }
    Ok(())
}

/// Adds the edges that leave a block.
fn add_block(
    alloc: Global,
    edges: &mut List<Edge>,
    at: u32,
    block: &Block,
) -> Result<(), OutOfMemory>
    ensures { OnOk result (edges.new ≡ edges.old ++ map (edge_on at) (targets block.now.term)) }
{
    let targets = succs(alloc, block)?;
    add_edges(edges, at, targets.as_slice())
}

/// The edges that leave the blocks that are marked in the one row of `reached`.
fn edges_of(alloc: Global, blocks: &[Block], reached: &BitRows) -> Result<List<Edge>, OutOfMemory>
    requires few { length blocks.now < 2 ^ 30 }
    requires one_row { 0 < length reached.now }
    ensures { IfOk result (λ edges. (trees : List Tree) → IsOnward (λ a. IsTrue (flag reached.now 0 a)) (map (block_of trees) blocks.now) (length blocks.now) edges) }
{
    let mut edges = List::new(alloc);
    for (at, block) in blocks.iter().enumerate() {
        if reached.has(0, at as u32) {
            add_block(alloc, &mut edges, at as u32, block)?;
        }
    }
    Ok(edges)
}

/// The edges that leave the blocks of a body to which a path from bb0 leads.
pub(crate) fn onward_edges(alloc: Global, body: &Body) -> Result<List<Edge>, OutOfMemory>
    requires some_block { 0 < length body.now.blocks }
    requires closed { Closed (terms_of body.now) }
    requires few { length body.now.blocks < 2 ^ 30 }
    ensures { IfOk result (λ edges. (trees : List Tree) → IsOnward (Reached (terms_of body.now)) (body_of trees body.now).blocks (length body.now.blocks) edges) }
{
    let reached = reachable(alloc, body)?;
    edges_of(alloc, body.blocks.as_slice(), &reached)
}
