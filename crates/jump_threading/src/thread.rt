//! The body in which edges go through copies.
ghost use Rattle.std.specs.Prelude.{◌≡◌, ◌<◌, ◌^◌, ◌+◌, ◌++◌, map, length, IfOk};
ghost use Rattle.std.specs.List.{All};
ghost use Rattle.mir_syntax.specs.Drops.{KnowsDrops};
ghost use Rattle.mir_syntax.specs.Ids.{IdsInTable, BodyInTable};
ghost use Rattle.mir_syntax.specs.Tree.{trees_of};
ghost use Rattle.mir_syntax.specs.Crate.{crate_of, body_of};
ghost use Rattle.mir_syntax.specs.Shapes.{shapes_of};
ghost use Rattle.mir_cfg.specs.Paths.{terms_of, Closed};
ghost use Rattle.jump_threading.specs.Code.{bare_copy, bare_link, bare_redirected};
ghost use Rattle.jump_threading.specs.Threaded as definition;

use crate::edges::edges;
use const_flow::consts;
use mir_syntax::{Block, Body, Copied, List, OutOfMemory, Program, Term};
use std::alloc::Global;

/// An edge that is threaded: the block that it leaves, the one that is copied for it, and where the copy goes on.
#[derive(Clone, Copy, Debug, Drop)]
pub(crate) struct Edge {
    pub from: u32,
    pub through: u32,
    pub to: u32,
}

/// The copy for an edge, which goes on at once.
fn copy(alloc: Global, blocks: &[Block], edge: Edge) -> Result<Block, OutOfMemory>
    requires { edge.through < length blocks.now }
    ensures { IfOk result (λ copy. copy ≡ bare_copy blocks.now edge) }
{
    Ok(Block {
        stmts: blocks[edge.through as usize].stmts.copied(alloc)?,
        term: Term::Goto(edge.to),
    })
}

/// The copies for edges.
fn copies(alloc: Global, blocks: &[Block], edges: &[Edge]) -> Result<List<Block>, OutOfMemory>
    requires { All (λ edge. edge.through < length blocks.now) edges.now }
    ensures { IfOk result (λ copies. copies ≡ map (bare_copy blocks.now) edges.now) }
{
    let mut copies = List::with_capacity(alloc, edges.len())?;
    for edge in edges {
        copies.push(copy(alloc, blocks, *edge)?)?;
    }
    Ok(copies)
}

/// A block goes to another.
fn link(blocks: &mut [Block], from: u32, to: u32)
    requires { from < length blocks.old }
    ensures { blocks.new ≡ bare_link blocks.old from to }
{
    blocks[from as usize].term = Term::Goto(to);
}

/// The blocks that edges leave go to their copies, which stand from a number on.
#[tactic(auto, using(crate::proofs::equal::Redirects::bare_long))]
fn redirect(blocks: &mut [Block], edges: &[Edge], first: u32)
    requires within { All (λ edge. edge.from < length blocks.old) edges.now }
    requires few { first + length edges.now < 2 ^ 32 }
    ensures { blocks.new ≡ bare_redirected blocks.old first edges.now }
{
    for (at, edge) in edges.iter().enumerate() {
        link(blocks, edge.from, first + at as u32);
    }
}

/// The body in which edges go through copies. `Err` is for want of memory alone, and the body is spent then.
#[tactic(auto, using(crate::proofs::equal::Redirects::bare_long))]
pub(crate) fn with_copies(alloc: Global, body: Body, edges: &[Edge]) -> Result<Body, OutOfMemory>
    requires leave { All (λ edge. edge.from < length body.blocks) edges.now }
    requires through { All (λ edge. edge.through < length body.blocks) edges.now }
    requires few { length body.blocks + length edges.now < 2 ^ 32 }
    ensures args { IfOk result (λ left. left.args ≡ body.args) }
    ensures locals { IfOk result (λ left. left.locals ≡ body.locals) }
    ensures blocks { IfOk result (λ left. left.blocks ≡ bare_redirected body.blocks (length body.blocks) edges.now ++ map (bare_copy body.blocks) edges.now) }
{
    let copies = copies(alloc, body.blocks.as_slice(), edges)?;
    let mut body = body;
    let first = body.blocks.len() as u32;
    redirect(body.blocks.as_mut_slice(), edges, first);
    body.blocks.append(copies)?;
    Ok(body)
}

/// The body in which a jump to a block whose switch is known goes to a copy of that block, and the copy on to the switch's target.
///
/// # Errors
///
/// `OutOfMemory`; the body is spent then.
pub fn threaded(alloc: Global, program: &Program, body: Body) -> Result<Body, OutOfMemory>
    requires knows { KnowsDrops program.now }
    requires ids { IdsInTable program.now }
    requires body_ids { BodyInTable program.now.types body }
    requires closed { Closed (terms_of body) }
    requires some_block { 0 < length body.blocks }
    requires few_blocks { length body.blocks < 2 ^ 30 }
    requires few_locals { length body.locals < 2 ^ 30 }
    ensures threaded { IfOk result (λ left. body_of (trees_of program.now.types) left ≡ definition.threaded (shapes_of (crate_of program.now)) (body_of (trees_of program.now.types) body)) }
    ensures in_table { IfOk result (λ left. BodyInTable program.now.types left) }
{
    let rows = consts(alloc, program, &body)?;
    let edges = edges(alloc, program, &body, &rows)?;
    with_copies(alloc, body, edges.as_slice())
}
