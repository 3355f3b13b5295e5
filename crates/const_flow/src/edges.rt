//! The edges along which facts flow: from a block's start to its ends, and from there to the starts of its targets.
ghost use Rattle.std.specs.Prelude.{◌≡◌, ◌<◌, ◌≤◌, ◌^◌, ◌++◌, map, length, IfOk, OnOk};
ghost use Rattle.std.specs.List.{All};
ghost use Rattle.mir_cfg.specs.Paths.{block_term, Closed};
ghost use Rattle.const_flow.specs.Nodes.{start_node, end_node, overs_to, edges_of, HasEdges};

use flow_engine::Edge;
use mir_cfg::succs;
use mir_syntax::{Block, List, OutOfMemory};
use std::alloc::Global;

/// The node of a block's start.
fn start_node(block: u32) -> u32
    requires { block < 2 ^ 30 }
    ensures { result ≡ start_node block }
{
    3 * block + 1
}

/// The node of a block's end, on the way to a target.
fn end_node(block: u32, target: u32) -> u32
    requires { block < 2 ^ 30 }
    ensures { result ≡ end_node block target }
{
    if block < target {
        3 * block + 2
    } else {
        3 * block
    }
}

/// Adds the edge over a block to one of its ends, if a target is reached from there.
fn add_over(
    edges: &mut List<Edge>,
    block: u32,
    end: u32,
    targets: &[u32],
) -> Result<(), OutOfMemory>
    requires { block < 2 ^ 30 }
    ensures { OnOk result (edges.new ≡ edges.old ++ overs_to block end targets.now) }
{
    for target in targets {
        if end_node(block, *target) == end {
            return edges.push(Edge {
                from: start_node(block),
                to: end,
            });
        }
    }
    Ok(())
}

/// Adds the edges of a block with these targets.
fn add_edges(edges: &mut List<Edge>, block: u32, targets: &[u32]) -> Result<(), OutOfMemory>
    requires block { block < 2 ^ 30 }
    requires targets { All (λ target. target < 2 ^ 30) targets.now }
    ensures { OnOk result (edges.new ≡ edges.old ++ edges_of block targets.now) }
{
    add_over(edges, block, 3 * block, targets)?;
    add_over(edges, block, 3 * block + 2, targets)?;
    for target in targets {
        edges.push(Edge {
            from: end_node(block, *target),
            to: start_node(*target),
        })?;
    }
    Ok(())
}

/// The edges of blocks.
pub(crate) fn edges(alloc: Global, blocks: &[Block]) -> Result<List<Edge>, OutOfMemory>
    requires few { length blocks.now < 2 ^ 30 }
    requires closed { Closed (map block_term blocks.now) }
    ensures { IfOk result (λ edges. HasEdges (map block_term blocks.now) (length blocks.now) edges) }
{
    let mut edges = List::new(alloc);
    for (at, block) in blocks.iter().enumerate() {
        let targets = succs(alloc, block)?;
        add_edges(&mut edges, at as u32, targets.as_slice())?;
    }
    Ok(edges)
}
