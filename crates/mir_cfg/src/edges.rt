ghost use Rattle.std.specs.Prelude.{◌≡◌, ℕ, ◌<◌, ◌^◌, ◌==◌, [], ◌∷◌, ◌++◌, map, length, get_or, replicate, IfOk, OnOk};
ghost use Rattle.std.specs.List.{All, filter, range_with_len};
ghost use Rattle.mir_syntax.specs.Parts.{targets, arm_block};
ghost use Rattle.mir_cfg.specs.Paths.{terms_of, Closed, sources};

use mir_syntax::{Arm, Block, Body, List, OutOfMemory, Term};
use smallvec::SmallVec;
use std::alloc::Global;

/// The blocks that a block goes to, in its terminator's order and one for each edge.
///
/// # Errors
///
/// `OutOfMemory`.
pub fn succs(alloc: Global, block: &Block) -> Result<SmallVec<u32, 4, Global>, OutOfMemory>
    ensures { IfOk result (λ list. list.items ≡ targets block.now.term) }
{
    match &block.term {
        Term::Switch(_, arms, other) => switch_targets(alloc, arms.as_slice(), *other),
        Term::Goto(next) => one_target(alloc, *next),
        Term::Drop(_, next) => one_target(alloc, *next),
        Term::Call(_, _, _, next) => one_target(alloc, *next),
        Term::Assert(_, _, _, _, next) => one_target(alloc, *next),
        Term::Return | Term::Unreachable => Ok(SmallVec::new(alloc)),
    }
}

fn one_target(alloc: Global, next: u32) -> Result<SmallVec<u32, 4, Global>, OutOfMemory>
    ensures { IfOk result (λ list. list.items ≡ next ∷ []) }
{
    let mut list = SmallVec::new(alloc);
    list.push(next)?;
    Ok(list)
}

fn switch_targets(
    alloc: Global,
    arms: &[Arm],
    other: u32,
) -> Result<SmallVec<u32, 4, Global>, OutOfMemory>
    ensures { IfOk result (λ list. list.items ≡ map arm_block arms.now ++ other ∷ []) }
{
    let mut list = SmallVec::new(alloc);
    for arm in arms {
        list.push(arm.block)?;
    }
    list.push(other)?;
    Ok(list)
}

fn empty_lists(alloc: Global, count: usize) -> Result<Vec<List<u32>>, OutOfMemory>
    ensures { IfOk result (λ lists. lists.items ≡ replicate count []) }
{
    let mut lists = Vec::new(alloc);
    for _ in 0..count {
        lists.push(List::new(alloc))?;
    }
    Ok(lists)
}

/// Adds a block to the lists of those that it goes to, once for each edge.
fn add_edges(lists: &mut Vec<List<u32>>, from: u32, to: &[u32]) -> Result<(), OutOfMemory>
    requires { All (λ b. b < length lists.old.items) to.now }
    ensures len { length lists.new.items ≡ length lists.old.items }
    ensures added { OnOk result ((b : ℕ) → b < length lists.old.items → get_or lists.new.items b [] ≡ get_or lists.old.items b [] ++ map (λ _. from) (filter (λ c. c == b) to.now)) }
{
    for block in to {
        let list = &mut lists[*block as usize];
        list.push(from)?;
    }
    Ok(())
}

/// For each block the blocks that go to it, in their order and one for each edge.
///
/// # Errors
///
/// `OutOfMemory`.
pub fn preds(alloc: Global, body: &Body) -> Result<List<List<u32>>, OutOfMemory>
    requires closed { Closed (terms_of body.now) }
    requires few { length body.now.blocks < 2 ^ 30 }
    ensures { IfOk result (λ lists. lists ≡ map (sources (terms_of body.now)) (range_with_len 0 (length body.now.blocks))) }
{
    let blocks = body.blocks.as_slice();
    let mut lists = empty_lists(alloc, blocks.len())?;
    for block in 0..blocks.len() {
        let to = succs(alloc, &blocks[block])?;
        add_edges(&mut lists, block as u32, to.as_slice())?;
    }
    Ok(List::from_vec(lists))
}
