ghost use Rattle.std.specs.Prelude.{◌≡◌, ℕ, IsTrue, IfOk, Ok};
ghost use Rattle.mir_syntax.specs.Drops.{KnowsDrops};
ghost use Rattle.mir_syntax.specs.Crate.{crate_of};
ghost use Rattle.mir_rules.specs.Formed.{is_formed};
ghost use Rattle.mir_semantics.specs.Step as sem;
ghost use Rattle.mir_semantics.specs.Step.{Code};
ghost use Rattle.mir_semantics.specs.Run as runs;
ghost use Rattle.mir_machine.specs.Seen.{code_in};
ghost use Rattle.mir_machine.specs.Runs.{entry_in, seen_in, seen_of, so_far, going};

use crate::machine::Called;
use crate::outcome::Outcome;
use crate::state::{EntryCall, State};
use crate::steps::step;
use mir_syntax::{List, OutOfMemory, Program};
use std::alloc::Global;

/// What is seen of a run: its calls of outside functions, the oldest first, and how it stands.
#[derive(Drop)]
pub struct RunResult {
    pub trace: List<Called>,
    pub outcome: Outcome,
}

/// What is seen of a run that isn't spent.
fn seen(state: State) -> Result<RunResult, OutOfMemory>
    ensures outcome { IfOk result (λ seen. state.outcome ≡ Ok seen.outcome) }
    ensures trace { IfOk result (λ seen. seen.trace ≡ state.machine.trace) }
{
    let outcome = state.outcome?;
    let machine = state.machine;
    Ok(RunResult {
        trace: machine.trace,
        outcome,
    })
}

/// A run of so many steps, or of fewer where it stops.
///
/// # Errors
///
/// `OutOfMemory`.
pub fn run(
    alloc: Global,
    program: &Program,
    entry: &EntryCall,
    answers: &[u128],
    n: u64,
) -> Result<RunResult, OutOfMemory>
    requires formed { IsTrue (is_formed (crate_of program.now)) }
    requires knows { KnowsDrops program.now }
    ensures { IfOk result (λ seen. seen_in seen ≡ runs.run (code_in program.now) (entry_in entry.now) answers.now n) }
{
    let mut state = State::new(alloc, program, entry, answers)?;
    while state.goes_below(n) {
        step(alloc, program, &mut state)?;
    }
    seen(state)
}

/// As many single steps as a run takes come to what the run shows.
pub fn steps_come_to_runs()
    ensures { (C : Code) (n : ℕ) (s : sem.State) → runs.steps C n s ≡ seen_of (so_far C n (going s)) }
{}
