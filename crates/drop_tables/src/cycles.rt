ghost use Rattle.std.specs.Prelude.{◌≡◌, ℕ, List as ListOf, ◌<◌, ◌^◌, ◌==◌, nat_le, if◌then◌else◌, true, false, set, IfOk, MatchOption, length, replicate};
ghost use Rattle.mir_syntax.specs.Crate.{crate_of};
ghost use Rattle.mir_syntax.specs.Ids.{IdsInTable};
ghost use Rattle.mir_syntax.specs.Shapes.{Shape, shapes_of};
ghost use Rattle.mir_rules.specs.DefinitionRules.{breaks_v01};
ghost use Rattle.drop_tables.specs.Holders.{AreHolders, IsAsked, Looked, Ordered, number_of};
ghost use Rattle.drop_tables.specs.Marks.{is_marked};

use crate::components::components;
use crate::destructors::marks_of;
use crate::holders::holders_of;
use crate::marks::{defs_holding, is_marked};
use crate::spread::spread;
use mir_syntax::{List, OutOfMemory, Program};
use std::alloc::Global;

/// What is kept of the definitions of a program to ask which of them hold themselves by value.
#[derive(Debug, Drop)]
pub struct Circles {
    /// Of each definition those that hold it by value.
    pub holders: List<List<u32>>,
    /// The definitions that may hold themselves.
    pub suspects: List<bool>,
}

fn number_at(numbers: &[u32], def: u32) -> u32
    ensures { result ≡ number_of numbers.now def }
{
    match numbers.get(def as usize) {
        Some(number) => *number,
        None => 0,
    }
}

fn mark_if(marks: &mut Vec<bool>, def: u32, level: bool)
    ensures { marks.new.items ≡ (if level then set marks.old.items def true else marks.old.items) }
{
    if level && (def as usize) < marks.len() {
        marks[def as usize] = true;
    }
}

/// Whether the number of a definition isn't greater than that of one that it holds; it is marked where they are the same.
fn look_at(numbers: &[u32], held: u32, def: u32, marks: &mut Vec<bool>) -> bool
    ensures marks { marks.new.items ≡ (if number_of numbers.now def == number_of numbers.now held then set marks.old.items def true else marks.old.items) }
    ensures rising { result ≡ nat_le (number_of numbers.now def) (number_of numbers.now held) }
{
    let own = number_at(numbers, def);
    let number = number_at(numbers, held);
    mark_if(marks, def, own == number);
    own <= number
}

/// Looks over the numbers of the definitions that hold one. `false` where one of theirs is greater; those with the same number are marked.
fn look_over(numbers: &[u32], held: u32, holders: &[u32], marks: &mut Vec<bool>) -> bool
    ensures { result ≡ true → Looked numbers.now held holders.now marks.old.items marks.new.items }
{
    for def in holders {
        if !look_at(numbers, held, *def, marks) {
            return false;
        }
    }
    true
}

/// The definitions that hold one of their own number. `None` where a number falls from a definition to one that it holds.
fn on_level(
    alloc: Global,
    holders: &[List<u32>],
    numbers: &[u32],
) -> Result<Option<List<bool>>, OutOfMemory>
    requires small { length holders.now < 2 ^ 32 }
    ensures { IfOk result (λ found. MatchOption found (Unit {0}) (λ marks. Ordered holders.now numbers.now marks (length holders.now))) }
{
    let mut marks = vec![in alloc; false; holders.len()]?;
    for def in 0..holders.len() {
        let held = holders[def].as_slice();
        if !look_over(numbers, def as u32, held, &mut marks) {
            return Ok(None);
        }
    }
    Ok(Some(List::from_vec(marks)))
}

/// The definitions that may hold themselves: those that hold one of their own component. (Were the components wrong, all of them.)
fn suspects(alloc: Global, holders: &[List<u32>]) -> Result<List<bool>, OutOfMemory>
    requires small { length holders.now < 2 ^ 32 }
    ensures { IfOk result (λ marks. (D : ListOf Shape) → AreHolders D holders.now → (d : ℕ) → is_marked marks d ≡ false → breaks_v01 D d ≡ false) }
{
    let numbers = components(alloc, holders)?;
    match on_level(alloc, holders, numbers.as_slice())? {
        Some(marks) => Ok(marks),
        None => {
            let all = marks_of(alloc, holders.len(), true)?;
            Ok(all)
        }
    }
}

fn only(alloc: Global, count: usize, at: usize) -> Result<List<bool>, OutOfMemory>
    requires { at < count }
    ensures { IfOk result (λ marks. marks ≡ set (replicate count false) at true) }
{
    let mut marks = vec![in alloc; false; count]?;
    marks[at] = true;
    Ok(List::from_vec(marks))
}

impl Circles {
    /// What is to be asked, in time linear in the types that fields have.
    ///
    /// # Errors
    ///
    /// `OutOfMemory`.
    pub fn new(alloc: Global, program: &Program) -> Result<Circles, OutOfMemory>
        requires ids { IdsInTable program.now }
        ensures { IfOk result (λ circles. IsAsked (shapes_of (crate_of program.now)) circles.holders circles.suspects) }
    {
        let holders = holders_of(alloc, program)?;
        let suspects = suspects(alloc, holders.as_slice())?;
        Ok(Circles { holders, suspects })
    }

    fn comes_back(&self, alloc: Global, program: &Program, def: usize) -> Result<bool, OutOfMemory>
        requires ids { IdsInTable program.now }
        requires there { def < length program.now.defs }
        requires small { length program.now.defs < 2 ^ 32 }
        requires asked { IsAsked (shapes_of (crate_of program.now)) self.now.holders self.now.suspects }
        ensures { IfOk result (λ holds. holds ≡ breaks_v01 (shapes_of (crate_of program.now)) def) }
    {
        let count = program.defs.len();
        let own = only(alloc, count, def)?;
        let reached = spread(alloc, self.holders.as_slice(), own, count - 1)?;
        let none = marks_of(alloc, count, false)?;
        let held = defs_holding(alloc, program, none.as_slice(), reached.as_slice())?;
        Ok(is_marked(held.as_slice(), def as u32))
    }

    /// Whether a definition holds itself by value. It takes no time where it isn't in a circle, and else that of a walk over all definitions.
    ///
    /// # Errors
    ///
    /// `OutOfMemory`.
    pub fn holds_itself(
        &self,
        alloc: Global,
        program: &Program,
        def: usize,
    ) -> Result<bool, OutOfMemory>
        requires ids { IdsInTable program.now }
        requires there { def < length program.now.defs }
        requires small { length program.now.defs < 2 ^ 32 }
        requires asked { IsAsked (shapes_of (crate_of program.now)) self.now.holders self.now.suspects }
        ensures { IfOk result (λ holds. holds ≡ breaks_v01 (shapes_of (crate_of program.now)) def) }
    {
        if is_marked(self.suspects.as_slice(), def as u32) {
            self.comes_back(alloc, program, def)
        } else {
            Ok(false)
        }
    }
}
