//! The rows of one worker: its claimed queries, and what it saw.
ghost use Rattle.std.specs.Prelude.{◌≡◌, ◌<◌, ◌∷◌, ◌++◌, [], ℕ, List, MatchOption, vec_len, vec_capacity, slice_set, slice_index_or, slice_get, length, replicate, true, false, Option, Some, IfOk, OnOk};
ghost use Rattle.sched_core.specs.Shown.{stack_of, has_given_room, Ready, IsBlank, IsEmptyRow};
ghost use Rattle.sched_core.specs.Plan.{Plan};
ghost use Rattle.sched_core.specs.State.{below_top, give, is};

use crate::state::Standing;
use mir_syntax::OutOfMemory;
use std::alloc::Global;

// The top goes.
pub(crate) fn pop_top(row: &mut Vec<Standing>)
    ensures stack { stack_of row.new.items ≡ below_top (stack_of row.old.items) }
    ensures room { (vec_len row.old ≡ 0 → vec_len row.old < vec_capacity row.old) → vec_len row.new < vec_capacity row.new }
{
    let _ = row.pop();
}

// The top is given s.
pub(crate) fn give_top(row: &mut Vec<Standing>, s: u32)
    requires { has_given_room row.old.items }
    ensures stack { stack_of row.new.items ≡ give s (stack_of row.old.items) }
    ensures room { (vec_len row.new ≡ vec_len row.old) × (vec_capacity row.new ≡ vec_capacity row.old) }
{
    if let Some(mut top) = row.pop() {
        top.given.push_reserved(s);
        row.push_reserved(top);
    }
}

// There is room for one more entry, and for one more need that the top is given.
pub(crate) fn make_room(row: &mut Vec<Standing>) -> Result<(), OutOfMemory>
    ensures stack { stack_of row.new.items ≡ stack_of row.old.items }
    ensures room { OnOk result ((vec_len row.new < vec_capacity row.new) × has_given_room row.new.items) }
    ensures kept { (p : Plan) (told : Option (Option ℕ)) → Ready p told (Some row.old) → Ready p told (Some row.new) }
{
    match row.reserve(1) {
        Ok(()) => make_top_room(row),
        Err(_) => Err(OutOfMemory),
    }
}

// There is room for one more need that the top is given.
fn make_top_room(row: &mut Vec<Standing>) -> Result<(), OutOfMemory>
    requires { vec_len row.old < vec_capacity row.old }
    ensures stack { stack_of row.new.items ≡ stack_of row.old.items }
    ensures room { OnOk result ((vec_len row.new < vec_capacity row.new) × has_given_room row.new.items) }
    ensures kept { (p : Plan) (told : Option (Option ℕ)) → Ready p told (Some row.old) → Ready p told (Some row.new) }
{
    let Some(mut top) = row.pop() else {
        return Ok(());
    };
    let reserved = top.given.reserve(1);
    row.push_reserved(top);
    match reserved {
        Ok(()) => Ok(()),
        Err(_) => Err(OutOfMemory),
    }
}

// So many times the value.
pub(crate) fn filled<T: Copy + Drop>(
    alloc: Global,
    value: T,
    count: usize,
) -> Result<Vec<T>, OutOfMemory>
    ensures { IfOk result (λ row. row.items ≡ replicate count value) }
{
    let mut row = Vec::new(alloc);
    match row.resize(count, value) {
        Ok(()) => Ok(row),
        Err(_) => Err(OutOfMemory),
    }
}

// So many rows in which nothing is marked.
pub(crate) fn blank_rows(
    alloc: Global,
    count: usize,
    len: usize,
) -> Result<Vec<Vec<bool>>, OutOfMemory>
    ensures { IfOk result (λ rows. (length rows.items ≡ count) × ((w : ℕ) → IsBlank len (slice_get rows.items w))) }
{
    let mut rows = Vec::new(alloc);
    for _ in 0..count {
        let row = filled(alloc, false, len)?;
        if rows.push(row).is_err() {
            return Err(OutOfMemory);
        }
    }
    Ok(rows)
}

// So many rows with no entry and room for one.
pub(crate) fn empty_rows(alloc: Global, count: usize) -> Result<Vec<Vec<Standing>>, OutOfMemory>
    ensures { IfOk result (λ rows. (length rows.items ≡ count) × ((w : ℕ) → IsEmptyRow (slice_get rows.items w))) }
{
    let mut rows = Vec::new(alloc);
    for _ in 0..count {
        let Ok(row) = Vec::with_capacity(alloc, 1) else {
            return Err(OutOfMemory);
        };
        if rows.push(row).is_err() {
            return Err(OutOfMemory);
        }
    }
    Ok(rows)
}

// The query of the top.
pub(crate) fn top_of(row: &Vec<Standing>) -> Option<u32>
    ensures { MatchOption result (stack_of row.now.items ≡ []) (λ q. (given : List ℕ) × ((es : List (ℕ × List ℕ)) × (stack_of row.now.items ≡ (q, given) ∷ es))) }
{
    match row.last() {
        Some(top) => Some(top.query),
        None => None,
    }
}

pub(crate) fn is_some_of(o: Option<u32>, n: u32) -> bool
    ensures { result ≡ is o n }
{
    match o {
        Some(m) => m == n,
        None => false,
    }
}

pub(crate) fn mark(row: &mut Vec<bool>, q: u32)
    requires { q < vec_len row.old }
    ensures row { row.new.items ≡ slice_set row.old.items q true }
    ensures len { vec_len row.new ≡ vec_len row.old }
{
    row[q as usize] = true;
}

pub(crate) fn marked(row: &Vec<bool>, q: u32) -> bool
    requires { q < vec_len row.now }
    ensures { result ≡ slice_index_or row.now.items q false }
{
    row[q as usize]
}
