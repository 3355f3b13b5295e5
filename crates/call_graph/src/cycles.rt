//! Bodies that may be inlined more freely.
ghost use Rattle.std.specs.Prelude.{◌≡◌, ◌<◌, ◌^◌, map, length, IfOk};
ghost use Rattle.std.specs.List.{All, list_all, list_any, range_with_len};
ghost use Rattle.mir_cfg.specs.Paths.{block_term, terms_of, Closed};
ghost use Rattle.call_graph.specs.Graph.{StaysInside};
ghost use Rattle.call_graph.specs.Qualif as of;
ghost use Rattle.call_graph.specs.Search.{is_with, turns};

use crate::components::Components;
use mir_cfg::preds;
use mir_syntax::{Block, Body, List, OutOfMemory, Term};
use std::alloc::Global;

fn is_plain(term: &Term) -> bool
    ensures { result ≡ of.is_plain term.now }
{
    match term {
        Term::Call(_, _, _, _) => false,
        Term::Drop(_, _) => false,
        Term::Assert(_, _, _, _, _) => false,
        Term::Goto(_) => true,
        Term::Switch(_, _, _) => true,
        Term::Return => true,
        Term::Unreachable => true,
    }
}

fn all_plain(blocks: &[Block]) -> bool
    ensures { result ≡ list_all of.is_plain (map block_term blocks.now) }
{
    for block in blocks {
        if !is_plain(&block.term) {
            return false;
        }
    }
    true
}

/// Whether one of the blocks that go to a block is in its component.
fn turns_at(components: &Components, block: u32, sources: &[u32]) -> bool
    requires block { block < length components.now }
    requires sources { All (λ a. a < length components.now) sources.now }
    ensures { result ≡ list_any (is_with components.now block) sources.now }
{
    for source in sources {
        if components.same(source, &block) {
            return true;
        }
    }
    false
}

/// Whether an edge joins two blocks of one component, where the blocks that go to each block are listed.
fn some_turns(components: &Components, sources: &[List<u32>]) -> bool
    requires blocks { length components.now ≡ length sources.now }
    requires few { length sources.now < 2 ^ 32 }
    requires inside { StaysInside (λ n. n) sources.now }
    ensures { result ≡ list_any (turns components.now sources.now) (range_with_len 0 (length sources.now)) }
{
    for block in 0..sources.len() as u32 {
        if turns_at(components, block, sources[block as usize].as_slice()) {
            return true;
        }
    }
    false
}

/// Whether blocks go round: some path comes by a block twice. Then an edge joins two blocks of one component.
fn has_cycle(alloc: Global, body: &Body) -> Result<bool, OutOfMemory>
    requires closed { Closed (terms_of body.now) }
    requires few { length body.now.blocks < 2 ^ 30 }
    ensures { IfOk result (λ found. found ≡ of.has_cycle (terms_of body.now)) }
{
    let sources = preds(alloc, body)?;
    let components = Components::new(alloc, sources.as_slice())?;
    Ok(some_turns(&components, sources.as_slice()))
}

/// Whether a body has no call, no drop, no assert and no cycle of blocks; also blocks count that no path reaches.
///
/// # Errors
///
/// `OutOfMemory`.
pub fn qualif(alloc: Global, body: &Body) -> Result<bool, OutOfMemory>
    requires closed { Closed (terms_of body.now) }
    requires few { length body.now.blocks < 2 ^ 30 }
    ensures { IfOk result (λ yes. yes ≡ of.qualifies body.now) }
{
    if !all_plain(body.blocks.as_slice()) {
        return Ok(false);
    }
    Ok(!has_cycle(alloc, body)?)
}
