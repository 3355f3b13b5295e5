ghost use Rattle.std.specs.Prelude.{◌≡◌, ◌&&◌, nat_lt, ◌+◌, ◌-◌, ◌<◌, ◌^◌, ◌≤◌, map, slice_get, IsTrue, IfOk, OnOk, Ok, true, false};
ghost use Rattle.mir_syntax.specs.Drops.{KnowsDrops};
ghost use Rattle.mir_syntax.specs.declared.program.Program.{Program};
ghost use Rattle.mir_machine.specs.declared.machine.Machine.{Machine};
ghost use Rattle.mir_syntax.specs.Crate.{crate_of};
ghost use Rattle.mir_rules.specs.Formed.{is_formed};
ghost use Rattle.mir_semantics.specs.Run as runs;
ghost use Rattle.mir_meaning.specs.Views.{value_of};
ghost use Rattle.mir_machine.specs.Seen.{code_in, state_in};
ghost use Rattle.mir_machine.specs.Ordered.{Framed};
ghost use Rattle.mir_machine.specs.Sound.{goes};
ghost use Rattle.mir_machine.specs.Runs.{Progress, going, entry_in, onward, standing, standing_in, answer_of, IsSound};

use crate::control::Control;
use crate::machine::Machine;
use crate::outcome::Outcome;
use crate::slots::new_slots;
use crate::state::{EntryCall, State, Stepped};
use mir_meaning::datum::{Datum, all_copied};
use mir_meaning::memory::Memory;
use mir_syntax::{List, OutOfMemory, Program};
use std::alloc::Global;

/// The locals of the function that is called; none where it isn't there.
fn first_slots(
    alloc: Global,
    program: &Program,
    entry: &EntryCall,
) -> Result<List<Datum>, OutOfMemory>
    requires { KnowsDrops program.now }
    ensures { IfOk result (λ slots. map value_of slots ≡ runs.slots_at (code_in program.now) (map value_of entry.now.args) (slice_get (code_in program.now).bodies entry.now.f.0)) }
{
    let Some(function) = program.functions.get(entry.f.0 as usize) else {
        return Ok(List::new(alloc));
    };
    let args = all_copied(alloc, entry.args.as_slice())?;
    new_slots(alloc, program, function.body.locals.as_slice(), args)
}

fn start(
    alloc: Global,
    program: &Program,
    entry: &EntryCall,
    answers: &[u128],
) -> Result<Machine, OutOfMemory>
    requires { KnowsDrops program.now }
    ensures starts { IfOk result (λ machine. state_in program.now machine ≡ runs.start (code_in program.now) (entry_in entry.now) answers.now) }
    ensures framed { IfOk result (λ machine. Framed machine) }
    ensures first { IfOk result (λ machine. machine.last ≡ 0) }
{
    let slots = first_slots(alloc, program, entry)?;
    let mut memory = Memory::new(alloc);
    memory.open(0, slots)?;
    let mut kept = List::with_capacity(alloc, answers.len())?;
    kept.extend(answers)?;
    Ok(Machine {
        memory,
        top: Control {
            function: entry.f,
            frame: 0,
            block: 0,
            at: 0,
            dropping: None,
            dest: None,
        },
        callers: List::new(alloc),
        last: 0,
        answers: kept,
        asked: 0,
        trace: List::new(alloc),
    })
}

fn goes_on(outcome: &Outcome) -> bool
    ensures { result ≡ goes (Ok outcome.now) }
{
    match outcome {
        Outcome::Going => true,
        Outcome::Returned(_) => false,
        Outcome::Aborted(_, _) => false,
        Outcome::NoAnswer => false,
        Outcome::Undefined => false,
    }
}

fn stepped_as(outcome: &Outcome) -> Stepped
    ensures { (program : Program) (machine : Machine) → Ok result ≡ answer_of (standing program machine (Ok outcome.now)) }
{
    match outcome {
        Outcome::Going => Stepped::On,
        Outcome::Returned(_) => Stepped::Ended,
        Outcome::Aborted(_, _) => Stepped::Ended,
        Outcome::NoAnswer => Stepped::Ended,
        Outcome::Undefined => Stepped::Undefined,
    }
}

impl State {
    /// The start of a run.
    ///
    /// # Errors
    ///
    /// `OutOfMemory`.
    pub fn new(
        alloc: Global,
        program: &Program,
        entry: &EntryCall,
        answers: &[u128],
    ) -> Result<State, OutOfMemory>
        requires { KnowsDrops program.now }
        ensures starts { IfOk result (λ state. standing_in program.now state ≡ Ok (going (runs.start (code_in program.now) (entry_in entry.now) answers.now))) }
        ensures none { IfOk result (λ state. state.taken ≡ 0) }
        ensures sound { IfOk result (λ state. IsSound state) }
    {
        Ok(State {
            machine: start(alloc, program, entry, answers)?,
            taken: 0,
            outcome: Ok(Outcome::Going),
        })
    }

    /// The steps taken so far.
    pub fn steps(&self) -> u64
        ensures { result ≡ self.now.taken }
    {
        self.taken
    }

    /// Whether it has neither stopped nor is spent.
    pub fn is_going(&self) -> bool
        ensures { result ≡ goes self.now.outcome }
    {
        match &self.outcome {
            Ok(outcome) => goes_on(outcome),
            Err(_) => false,
        }
    }

    /// Whether it goes on and has taken fewer steps than that.
    pub(crate) fn goes_below(&self, limit: u64) -> bool
        ensures { result ≡ (goes self.now.outcome && nat_lt self.now.taken limit) }
    {
        self.is_going() && self.taken < limit
    }

    fn stepped(&self) -> Result<Stepped, OutOfMemory>
        ensures { (program : Program) → result ≡ answer_of (standing_in program self.now) }
    {
        match &self.outcome {
            Ok(outcome) => Ok(stepped_as(outcome)),
            Err(_) => Err(OutOfMemory),
        }
    }
}

/// One step; a run that has stopped or is spent stays as it is.
///
/// # Errors
///
/// `OutOfMemory`; the run is spent then, and stays so.
pub fn step(alloc: Global, program: &Program, state: &mut State) -> Result<Stepped, OutOfMemory>
    requires formed { IsTrue (is_formed (crate_of program.now)) }
    requires knows { KnowsDrops program.now }
    requires room { state.old.taken < 2 ^ 64 - 1 }
    requires sound { IsSound state.old }
    ensures goes { (before : Progress) → standing_in program.now state.old ≡ Ok before → IfOk (standing_in program.now state.new) (λ after. after ≡ onward (code_in program.now) before) }
    ensures answers { result ≡ answer_of (standing_in program.now state.new) }
    // What has stopped or is spent stays as it is, with no step taken.
    ensures rests { goes state.old.outcome ≡ false → state.new ≡ state.old }
    ensures sound { IsSound state.new }
    ensures counts { goes state.old.outcome ≡ true → OnOk result (state.new.taken ≡ state.old.taken + 1) }
{
    if !state.is_going() {
        return state.stepped();
    }
    let Ok(outcome) = state.machine.advance(alloc, program) else {
        state.outcome = Err(OutOfMemory);
        return state.stepped();
    };
    state.outcome = Ok(outcome);
    state.taken += 1;
    state.stepped()
}
