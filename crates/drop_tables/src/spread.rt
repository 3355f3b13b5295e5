ghost use Rattle.std.specs.Prelude.{◌≡◌, ℕ, List as ListOf, ◌<◌, ◌^◌, true, [], IfOk, OnOk, length};
ghost use Rattle.std.specs.List.{All, Contains};
ghost use Rattle.mir_syntax.specs.Shapes.{Shape};
ghost use Rattle.drop_tables.specs.Holders.{AreHolders, AreInside, Finds, Round};
ghost use Rattle.drop_tables.specs.Marks.{is_marked, spread};

use mir_syntax::{List, OutOfMemory};
use std::alloc::Global;
use std::mem::swap;

/// Marks definitions, and puts those that weren't marked at the end of `found`.
fn mark_all(marks: &mut Vec<bool>, found: &mut Vec<u32>, held: &[u32]) -> Result<(), OutOfMemory>
    requires { All (λ d. d < length marks.old.items) held.now }
    ensures { OnOk result (Finds marks.old.items marks.new.items found.old.items found.new.items held.now) }
{
    for def in held {
        let at = *def as usize;
        if marks[at] {
            continue;
        }
        marks[at] = true;
        found.push(*def)?;
    }
    Ok(())
}

/// Marks the definitions that hold one of `front`, and puts those that weren't marked into `found`.
fn mark_round(
    holders: &[List<u32>],
    marks: &mut Vec<bool>,
    front: &[u32],
    found: &mut Vec<u32>,
) -> Result<(), OutOfMemory>
    requires inside { AreInside holders.now }
    requires long { length marks.old.items ≡ length holders.now }
    requires front { All (λ e. e < length holders.now) front.now }
    requires none { found.old.items ≡ [] }
    ensures { OnOk result (Round holders.now marks.old.items marks.new.items front.now found.new.items) }
{
    for def in front {
        mark_all(marks, found, holders[*def as usize].as_slice())?;
    }
    Ok(())
}

/// The definitions that are marked.
fn marked(alloc: Global, marks: &[bool]) -> Result<Vec<u32>, OutOfMemory>
    requires { length marks.now < 2 ^ 32 }
    ensures found { IfOk result (λ found. (d : ℕ) → is_marked marks.now d ≡ true → Contains found.items d) }
    ensures marked { IfOk result (λ found. (d : ℕ) → Contains found.items d → is_marked marks.now d ≡ true) }
{
    let mut found = Vec::new(alloc);
    for def in 0..marks.len() {
        if marks[def] {
            found.push(def as u32)?;
        }
    }
    Ok(found)
}

/// The marks after so many rounds, in each of which the definitions that hold a marked one by value are marked. A round looks only at those
/// that were marked in the round before, so each definition is looked at once.
///
/// # Errors
///
/// `OutOfMemory`.
pub fn spread(
    alloc: Global,
    holders: &[List<u32>],
    own: List<bool>,
    rounds: usize,
) -> Result<List<bool>, OutOfMemory>
    requires inside { AreInside holders.now }
    requires own { length own ≡ length holders.now }
    requires small { length own < 2 ^ 32 }
    ensures { IfOk result (λ marks. (D : ListOf Shape) → AreHolders D holders.now → (d : ℕ) → is_marked marks d ≡ spread D (is_marked own) (is_marked own) rounds d) }
{
    let mut marks = own.into_vec();
    let mut front = marked(alloc, marks.as_slice())?;
    let mut found = Vec::new(alloc);
    for round in 0..rounds {
        if front.is_empty() {
            return Ok(List::from_vec(marks));
        }
        mark_round(holders, &mut marks, front.as_slice(), &mut found)?;
        swap(&mut front, &mut found);
        found.clear();
    }
    Ok(List::from_vec(marks))
}
