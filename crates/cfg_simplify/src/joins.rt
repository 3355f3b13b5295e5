ghost use Rattle.std.specs.Prelude.{◌≡◌, ℕ, ◌<◌, ◌≤◌, ◌^◌, min, cond, replicate, map, length, IfOk, OnOk};
ghost use Rattle.std.specs.List.{All};
ghost use Rattle.mir_syntax.specs.Parts.{targets};
ghost use Rattle.mir_cfg.specs.Paths.{Closed, is_reached, block_term};
ghost use Rattle.cfg_simplify.specs.Edges.{goto_block};
ghost use Rattle.cfg_simplify.specs.Simple.{numbers, incoming, joined, only_if};
ghost use Rattle.cfg_simplify.specs.Code.{at, one_more, counted, joins_by};

use mir_cfg::succs;
use mir_syntax::{Block, List, OutOfMemory, Term};
use std::alloc::Global;

/// Counts an edge to a block: none, one, or 2 for more.
fn count_edge(counts: &mut [u8], block: u32)
    requires within { block < length counts.old }
    requires capped { All (λ n. n ≤ 2) counts.old }
    ensures { counts.new ≡ one_more counts.old block }
{
    let count = &mut counts[block as usize];
    if *count < 2 {
        *count += 1;
    }
}

fn count_all(counts: &mut [u8], ends: &[u32])
    requires within { All (λ b. b < length counts.old) ends.now }
    requires capped { All (λ n. n ≤ 2) counts.old }
    ensures { counts.new ≡ counted counts.old ends.now }
{
    for block in ends {
        count_edge(counts, *block);
    }
}

/// Counts the edges of a block.
fn count_edges(alloc: Global, counts: &mut [u8], block: &Block) -> Result<(), OutOfMemory>
    requires within { All (λ b. b < length counts.old) (targets block.now.term) }
    requires capped { All (λ n. n ≤ 2) counts.old }
    ensures { OnOk result (counts.new ≡ counted counts.old (targets block.now.term)) }
{
    let ends = succs(alloc, block)?;
    count_all(counts, ends.as_slice());
    Ok(())
}

fn zeros(alloc: Global, count: usize) -> Result<Vec<u8>, OutOfMemory>
    ensures { IfOk result (λ counts. counts.items ≡ replicate count 0) }
{
    let mut counts = Vec::new(alloc);
    for _ in 0..count {
        counts.push(0)?;
    }
    Ok(counts)
}

/// For each block how many edges of reached blocks lead to it, or 2 for more.
fn incoming_counts(
    alloc: Global,
    blocks: &[Block],
    reached: &[bool],
) -> Result<Vec<u8>, OutOfMemory>
    requires closed { Closed (map block_term blocks.now) }
    requires marks { reached.now ≡ map (is_reached (map block_term blocks.now)) (numbers (length blocks.now)) }
    ensures len { IfOk result (λ counts. length counts.items ≡ length blocks.now) }
    ensures each { IfOk result (λ counts. (b : ℕ) → b < length blocks.now → at counts.items b ≡ min 2 (incoming (map block_term blocks.now) b)) }
{
    let mut counts = zeros(alloc, blocks.len())?;
    for block in 0..blocks.len() {
        if reached[block] {
            count_edges(alloc, counts.as_mut_slice(), &blocks[block])?;
        }
    }
    Ok(counts)
}

/// The block that is joined to a reached block whose goto leads there.
fn joined_block(is_reached: bool, block: u32, term: &Term, counts: &[u8]) -> Option<u32>
    requires { All (λ b. b < length counts.now) (targets term.now) }
    ensures { result ≡ cond is_reached (only_if (joins_by counts.now block) (goto_block term.now)) None }
{
    let Term::Goto(target) = *term else {
        return None;
    };
    if is_reached && target != 0 && target != block && counts[target as usize] == 1 {
        Some(target)
    } else {
        None
    }
}

/// For each block the one that is joined to it.
pub(crate) fn joined_blocks(
    alloc: Global,
    blocks: &[Block],
    reached: &[bool],
) -> Result<List<Option<u32>>, OutOfMemory>
    requires closed { Closed (map block_term blocks.now) }
    requires few { length blocks.now < 2 ^ 30 }
    requires marks { reached.now ≡ map (is_reached (map block_term blocks.now)) (numbers (length blocks.now)) }
    ensures { IfOk result (λ list. list ≡ map (joined (map block_term blocks.now)) (numbers (length blocks.now))) }
{
    let counts = incoming_counts(alloc, blocks, reached)?;
    let mut joins = List::new(alloc);
    for block in 0..blocks.len() {
        let term = &blocks[block].term;
        joins.push(joined_block(reached[block], block as u32, term, counts.as_slice()))?;
    }
    Ok(joins)
}
