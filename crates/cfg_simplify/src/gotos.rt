ghost use Rattle.std.specs.Prelude.{◌≡◌, ℕ, ◌<◌, ◌^◌, map, length, IfOk};
ghost use Rattle.std.specs.List.{All};
ghost use Rattle.mir_cfg.specs.Paths.{Closed, block_term};
ghost use Rattle.cfg_simplify.specs.Simple.{numbers, onward, walk, goto_link, landing, settle as settled_at};
ghost use Rattle.cfg_simplify.specs.Code.{at, bare_goto, bare_hopped};

use crate::edges::retarget_in_place;
use mir_syntax::{Block, List, OutOfMemory, Term};
use std::alloc::Global;

fn bare_goto_target(block: &Block) -> Option<u32>
    ensures { result ≡ bare_goto block.now }
{
    match block.term {
        Term::Goto(target) if block.stmts.len() == 0 => Some(target),
        _ => None,
    }
}

/// The target of a block that is an empty goto.
fn empty_goto(blocks: &[Block], at: u32) -> Option<u32>
    requires { at < length blocks.now }
    ensures { result ≡ goto_link (map bare_goto blocks.now) at }
{
    if at == 0 {
        return None;
    }
    bare_goto_target(&blocks[at as usize])
}

/// For each block the target of an empty goto, or the block itself.
fn steps(alloc: Global, blocks: &[Block]) -> Result<List<u32>, OutOfMemory>
    requires { length blocks.now < 2 ^ 30 }
    ensures { IfOk result (λ steps. steps ≡ map (onward (goto_link (map bare_goto blocks.now))) (numbers (length blocks.now))) }
{
    let mut steps = List::new(alloc);
    for at in 0..blocks.len() as u32 {
        steps.push(empty_goto(blocks, at).unwrap_or(at))?;
    }
    Ok(steps)
}

/// The numbers of one list looked up in another.
fn looked_up(alloc: Global, places: &[u32], list: &[u32]) -> Result<List<u32>, OutOfMemory>
    requires { All (λ b. b < length list.now) places.now }
    ensures { IfOk result (λ found. found ≡ map (at list.now) places.now) }
{
    let mut found = List::new(alloc);
    for place in places {
        found.push(list[*place as usize])?;
    }
    Ok(found)
}

/// Where so many steps lead from each block. Each round doubles the steps.
fn walked(alloc: Global, steps: &[u32], count: usize) -> Result<List<u32>, OutOfMemory>
    requires inside { All (λ b. b < length steps.now) steps.now }
    requires few { length steps.now < 2 ^ 30 }
    ensures { IfOk result (λ list. list ≡ map (walk (at steps.now) count) (numbers (length steps.now))) }
{
    if count == 0 {
        return all_numbers(alloc, steps.len() as u32);
    }
    let half = walked(alloc, steps, count / 2)?;
    let twice = looked_up(alloc, half.as_slice(), half.as_slice())?;
    if count % 2 == 0 {
        return Ok(twice);
    }
    looked_up(alloc, twice.as_slice(), steps)
}

fn all_numbers(alloc: Global, count: u32) -> Result<List<u32>, OutOfMemory>
    ensures { IfOk result (λ list. list ≡ numbers count) }
{
    let mut list = List::new(alloc);
    for number in 0..count {
        list.push(number)?;
    }
    Ok(list)
}

/// Where an edge to each block leads once empty gotos are skipped.
fn landings(alloc: Global, blocks: &[Block]) -> Result<List<u32>, OutOfMemory>
    requires closed { Closed (map block_term blocks.now) }
    requires few { length blocks.now < 2 ^ 30 }
    ensures { IfOk result (λ list. list ≡ map (landing (map bare_goto blocks.now)) (numbers (length blocks.now))) }
{
    let steps = steps(alloc, blocks)?;
    let ends = walked(alloc, steps.as_slice(), blocks.len())?;
    settled(alloc, blocks, ends.as_slice())
}

/// Where an edge to a block leads whose chain has come to an end, or goes on in a cycle.
fn settle(blocks: &[Block], block: u32, end: u32) -> u32
    requires { end < length blocks.now }
    ensures { result ≡ settled_at (map bare_goto blocks.now) block end }
{
    match empty_goto(blocks, end) {
        Some(_) => block,
        None => end,
    }
}

fn settled(alloc: Global, blocks: &[Block], ends: &[u32]) -> Result<List<u32>, OutOfMemory>
    requires inside { All (λ b. b < length blocks.now) ends.now }
    requires few { length ends.now < 2 ^ 30 }
    ensures { IfOk result (λ list. list ≡ map (λ b. settled_at (map bare_goto blocks.now) b (at ends.now b)) (numbers (length ends.now))) }
{
    let mut list = List::new(alloc);
    for block in 0..ends.len() {
        list.push(settle(blocks, block as u32, ends[block]))?;
    }
    Ok(list)
}

/// The blocks with each edge led past the empty gotos.
pub(crate) fn hopped(alloc: Global, blocks: List<Block>) -> Result<List<Block>, OutOfMemory>
    requires closed { Closed (map block_term blocks) }
    requires few { length blocks < 2 ^ 30 }
    ensures { IfOk result (λ list. list ≡ bare_hopped blocks) }
{
    let landings = landings(alloc, blocks.as_slice())?;
    let mut blocks = blocks.into_vec();
    for block in blocks.iter_mut() {
        retarget_in_place(&mut block.term, landings.as_slice());
    }
    Ok(List::from_vec(blocks))
}
