ghost use Rattle.std.specs.Prelude.{◌≡◌, ℕ, ◌+◌, ◌*◌, ◌<◌, ◌≤◌, [], ◌∷◌, map, length, sum_by, slice_get, Some, Contains, IfOk, OnOk};
ghost use Rattle.std.specs.List.{All};
ghost use Rattle.flow_engine.specs.Flow.{problem, starts_to, Least};
ghost use Rattle.flow_engine.specs.declared.edges.Edge.{Edge};
ghost use Rattle.flow_engine.specs.Solving.{IsGoing, IsLeaving, waiting};

use crate::edges::Edge;
use crate::problem::Analysis;
use crate::worklist::Worklist;
use mir_syntax::{List, OutOfMemory};
use std::alloc::Global;

/// The starts of the blocks, in order.
fn starts<A: Analysis>(
    alloc: Global,
    analysis: &A,
    blocks: u32,
) -> Result<Vec<A::Fact>, OutOfMemory>
    ensures { IfOk result (λ facts. facts.items ≡ starts_to (A.begun analysis.now) 0 blocks) }
{
    let mut facts = Vec::new(alloc);
    for block in 0..blocks {
        facts.push(analysis.start(alloc, block)?)?;
    }
    Ok(facts)
}

fn empty_lists(alloc: Global, blocks: u32) -> Result<Vec<List<usize>>, OutOfMemory>
    ensures { IfOk result (λ lists. IsLeaving [] blocks lists.items) }
{
    let mut lists = Vec::new(alloc);
    for _ in 0..blocks {
        lists.push(List::new(alloc))?;
    }
    Ok(lists)
}

/// Of each block the numbers of the edges that leave it.
fn leaving(alloc: Global, blocks: u32, edges: &[Edge]) -> Result<Vec<List<usize>>, OutOfMemory>
    requires { All (λ e. (e.from < blocks) × (e.to < blocks)) edges.now }
    ensures { IfOk result (λ lists. IsLeaving edges.now blocks lists.items) }
{
    let mut lists = empty_lists(alloc, blocks)?;
    for (i, edge) in edges.iter().enumerate() {
        let list = &mut lists[edge.from as usize];
        list.push(i)?;
    }
    Ok(lists)
}

/// Sends a block's fact along the edges that leave it. Where the fact at an edge's end changes, that block waits.
fn send_all<A: Analysis>(
    alloc: Global,
    analysis: &A,
    edges: &[Edge],
    block: usize,
    leaving: &[usize],
    facts: &mut Vec<A::Fact>,
    work: &mut Worklist,
) -> Result<(), OutOfMemory>
    requires inside { All (λ e. (e.from < length facts.old.items) × (e.to < length facts.old.items)) edges.now }
    requires within { block < length facts.old.items }
    requires leaves { (i : ℕ) → Contains leaving.now i → (e : Edge) × (slice_get edges.now i ≡ Some e) × (e.from ≡ block) }
    requires going { IsGoing (A.is_fact analysis.now) (A.below analysis.now) (problem (A.joined analysis.now) (A.begun analysis.now) (A.sent analysis.now) (length facts.old.items) edges.now) facts.old.items work.old.waits.items block [] }
    ensures same { length facts.new.items ≡ length facts.old.items }
    ensures going { OnOk result (IsGoing (A.is_fact analysis.now) (A.below analysis.now) (problem (A.joined analysis.now) (A.begun analysis.now) (A.sent analysis.now) (length facts.old.items) edges.now) facts.new.items work.new.waits.items block leaving.now) }
    ensures climbs { OnOk result (waiting work.new.waits.items + 2 * sum_by (A.rank analysis.now) facts.old.items ≤ waiting work.old.waits.items + 2 * sum_by (A.rank analysis.now) facts.new.items) }
{
    for edge in leaving {
        let to = edges[*edge].to;
        let flown = analysis.flow(alloc, *edge, &facts[block])?;
        let changed = analysis.join(alloc, &mut facts[to as usize], &flown)?;
        work.add_if(changed, to);
    }
    Ok(())
}

/// The least solution of the problem: the least list in which each block's fact is at least its `start` and, for each edge into it, at
/// least `flow` of that edge and of the fact where the edge begins.
///
/// # Errors
///
/// `OutOfMemory`.
pub fn solve<A: Analysis>(
    alloc: Global,
    analysis: &A,
    blocks: u32,
    edges: &[Edge],
) -> Result<List<A::Fact>, OutOfMemory>
    requires { All (λ e. (e.from < blocks) × (e.to < blocks)) edges.now }
    ensures { IfOk result (λ facts. Least (A.is_fact analysis.now) (A.below analysis.now) (problem (A.joined analysis.now) (A.begun analysis.now) (A.sent analysis.now) blocks edges.now) facts) }
{
    let leaving = leaving(alloc, blocks, edges)?;
    let mut facts = starts(alloc, analysis, blocks)?;
    let mut work = Worklist::all(alloc, blocks)?;
    while let Some(block) = work.next() {
        let edges_out = leaving[block].as_slice();
        send_all(
            alloc, analysis, edges, block, edges_out, &mut facts, &mut work,
        )?;
    }
    Ok(List::from_vec(facts))
}
