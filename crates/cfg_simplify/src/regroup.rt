ghost use Rattle.std.specs.Prelude.{◌≡◌, ℕ, ◌<◌, ◌^◌, ◌==◌, ◌&&◌, not, map, length, get_or, set, Some, IfOk, OnOk, false};
ghost use Rattle.std.specs.List.{list_any, flat_map};
ghost use Rattle.mir_cfg.specs.Paths.{Closed, block_term, is_reached};
ghost use Rattle.cfg_simplify.specs.Simple.{numbers as all_numbers, onward, walk, line, is_at, new_number, stays, joined};
ghost use Rattle.cfg_simplify.specs.Code.{link_at, flag_at, hollow, stmts_in, unmarked, IsFresh, bare_regrouped};

use crate::edges::retargeted;
use crate::joins::joined_blocks;
use mir_syntax::{Block, List, OutOfMemory, Stmt, Term};
use std::alloc::Global;
use std::mem;

/// Clears the marks of blocks that are joined to another.
fn unmark_joined(marks: &mut [bool], joins: &[Option<u32>])
    requires { (a b : ℕ) → link_at joins.now a ≡ Some b → b < length marks.old }
    ensures { (b : ℕ) → flag_at marks.new b ≡ (flag_at marks.old b && not (list_any (is_at b) joins.now)) }
{
    for join in joins {
        unmark(marks, *join);
    }
}

fn unmark(marks: &mut [bool], join: Option<u32>)
    requires { (b : ℕ) → join ≡ Some b → b < length marks.old }
    ensures { marks.new ≡ unmarked marks.old join }
{
    if let Some(block) = join {
        marks[block as usize] = false;
    }
}

/// The new number of each block: how many marked blocks stand before it.
fn new_numbers(alloc: Global, marks: &[bool]) -> Result<List<u32>, OutOfMemory>
    requires { length marks.now < 2 ^ 30 }
    ensures { IfOk result (λ list. list ≡ map (new_number (flag_at marks.now)) (all_numbers (length marks.now))) }
{
    let mut numbers = List::new(alloc);
    let mut next = 0;
    for mark in marks {
        numbers.push(next)?;
        if *mark {
            next += 1;
        }
    }
    Ok(numbers)
}

fn take_block(alloc: Global, blocks: &mut [Block], at: u32) -> Block
    requires { at < length blocks.old }
    ensures block { result ≡ get_or blocks.old at hollow }
    ensures others { blocks.new ≡ set blocks.old at hollow }
{
    let hollow = Block {
        stmts: List::new(alloc),
        term: Term::Unreachable,
    };
    mem::replace(&mut blocks[at as usize], hollow)
}

/// Takes a block and those that are joined to it, as one block.
fn take_line(
    alloc: Global,
    blocks: &mut [Block],
    joins: &[Option<u32>],
    first: u32,
) -> Result<Block, OutOfMemory>
    requires within { first < length blocks.old }
    requires links { (a b : ℕ) → link_at joins.now a ≡ Some b → b < length blocks.old }
    requires joins { length joins.now ≡ length blocks.old }
    requires fresh { IsFresh (link_at joins.now) (length blocks.old) first }
    ensures stmts { IfOk result (λ block. block.stmts ≡ flat_map (stmts_in blocks.old) (line (link_at joins.now) (length blocks.old) first)) }
    ensures term { IfOk result (λ block. block.term ≡ block_term (get_or blocks.old (walk (onward (link_at joins.now)) (length blocks.old) first) hollow)) }
    // The blocks that aren't on the line stay.
    ensures others { OnOk result ((b : ℕ) → list_any (λ a. b == a) (line (link_at joins.now) (length blocks.old) first) ≡ false → get_or blocks.new b hollow ≡ get_or blocks.old b hollow) }
{
    let mut line = take_block(alloc, blocks, first);
    let mut last = first;
    for _ in 0..blocks.len() {
        let Some(next) = joins[last as usize] else {
            return Ok(line);
        };
        let Block { stmts, term } = take_block(alloc, blocks, next);
        line.stmts.append(stmts)?;
        line.term = term;
        last = next;
    }
    Ok(line)
}

/// Which blocks stay: those that are reached and aren't joined to another.
fn stay_marks(reached: Vec<bool>, joins: &[Option<u32>]) -> Vec<bool>
    requires { (a b : ℕ) → link_at joins.now a ≡ Some b → b < length reached.items }
    ensures len { length result.items ≡ length reached.items }
    ensures marks { (b : ℕ) → flag_at result.items b ≡ (flag_at reached.items b && not (list_any (is_at b) joins.now)) }
{
    let mut marks = reached;
    unmark_joined(marks.as_mut_slice(), joins);
    marks
}

/// The marked blocks, each with those that are joined to it, renumbered.
fn kept_blocks(
    alloc: Global,
    blocks: List<Block>,
    marks: &[bool],
    joins: &[Option<u32>],
) -> Result<List<Block>, OutOfMemory>
    requires closed { Closed (map block_term blocks) }
    requires few { length blocks < 2 ^ 30 }
    requires marks { marks.now ≡ map (stays (map block_term blocks)) (all_numbers (length blocks)) }
    requires joins { joins.now ≡ map (joined (map block_term blocks)) (all_numbers (length blocks)) }
    ensures { IfOk result (λ list. list ≡ bare_regrouped blocks) }
{
    let numbers = new_numbers(alloc, marks)?;
    let mut blocks = blocks.into_vec();
    let mut kept = List::new(alloc);
    for at in 0..marks.len() {
        if marks[at] {
            let Block { stmts, term } = take_line(alloc, blocks.as_mut_slice(), joins, at as u32)?;
            let term = retargeted(term, numbers.as_slice());
            kept.push(Block { stmts, term })?;
        }
    }
    Ok(kept)
}

/// The reached blocks, each with those that are joined to it, renumbered.
pub(crate) fn regrouped(
    alloc: Global,
    blocks: List<Block>,
    reached: Vec<bool>,
) -> Result<List<Block>, OutOfMemory>
    requires closed { Closed (map block_term blocks) }
    requires few { length blocks < 2 ^ 30 }
    requires marks { reached.items ≡ map (is_reached (map block_term blocks)) (all_numbers (length blocks)) }
    ensures { IfOk result (λ list. list ≡ bare_regrouped blocks) }
{
    let joins = joined_blocks(alloc, blocks.as_slice(), reached.as_slice())?;
    let marks = stay_marks(reached, joins.as_slice());
    kept_blocks(alloc, blocks, marks.as_slice(), joins.as_slice())
}
