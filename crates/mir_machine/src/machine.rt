ghost use Rattle.std.specs.Prelude.{◌≡◌, ◌+◌, ◌-◌, ◌^◌, ◌<◌, map, option_map, Err};
ghost use Rattle.mir_syntax.specs.Drops.{KnowsDrops};
ghost use Rattle.mir_semantics.specs.Step as sem;
ghost use Rattle.mir_semantics.specs.Step.{on};
ghost use Rattle.mir_meaning.specs.Views.{value_of, memory_of};
ghost use Rattle.mir_meaning.specs.Gives.{Gives};
ghost use Rattle.mir_machine.specs.Seen.{code_in, control_in, dest_in, state_in};

use crate::control::{Control, Dest};
use crate::slots::new_slots;
use mir_meaning::datum::Datum;
use mir_meaning::memory::Memory;
use mir_meaning::stop::Stop;
use mir_syntax::{FnId, List, OutId, Program};
use std::alloc::Global;
use std::mem;

/// A call of an outside function: the bits of its arguments, and its answer, which `()` isn't.
#[derive(Drop)]
pub struct Called {
    pub out: OutId,
    pub args: List<u128>,
    pub answer: Option<u128>,
}

/// A run at one moment.
#[derive(Drop)]
pub struct Machine {
    pub memory: Memory,
    pub top: Control,
    /// The newest caller last.
    pub callers: List<Control>,
    /// The greatest number that a frame was given.
    pub last: u64,
    pub answers: List<u128>,
    /// How many of the answers were taken.
    pub asked: usize,
    /// The newest call last.
    pub trace: List<Called>,
}

impl Machine {
    /// A new frame of a function, on top of the one that stood there.
    ///
    /// # Errors
    ///
    /// `Undefined` where the meaning is undefined; `OutOfMemory`.
    pub fn enter(
        &mut self,
        alloc: Global,
        program: &Program,
        function: FnId,
        args: List<Datum>,
        dest: Option<Dest>,
    ) -> Result<(), Stop>
        requires knows { KnowsDrops program.now }
        requires room { self.old.last < 2 ^ 64 - 1 }
        ensures goes { Gives result
            (sem.enter (code_in program.now) (state_in program.now self.old) (memory_of self.old.memory) (control_in program.now self.old.top) function.0 (map value_of args) (option_map (dest_in program.now) dest))
            (λ _. on (state_in program.now self.new)) }
        ensures trace { self.new.trace ≡ self.old.trace }
    {
        let Some(callee) = program.functions.get(function.0 as usize) else {
            return Err(Stop::Undefined);
        };
        let slots = new_slots(alloc, program, callee.body.locals.as_slice(), args)?;
        let frame = self.last + 1;
        self.memory.open(frame, slots)?;
        let control = Control {
            function,
            frame,
            block: 0,
            at: 0,
            dropping: None,
            dest,
        };
        let caller = mem::replace(&mut self.top, control);
        self.callers.push(caller)?;
        self.last = frame;
        Ok(())
    }
}
