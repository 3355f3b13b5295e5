ghost use Rattle.std.specs.Prelude.{◌≡◌, ◌<◌, ◌-◌, ◌^◌, map, slice_get, IsTrue, IfOk};
ghost use Rattle.std.specs.List.{list_all};
ghost use Rattle.mir_syntax.specs.Drops.{KnowsDrops};
ghost use Rattle.mir_syntax.specs.Tree.{trees_of, scalar};
ghost use Rattle.mir_syntax.specs.declared.program.Program.{Program};
ghost use Rattle.mir_syntax.specs.declared.body.Term.TheVariants as term;
ghost use Rattle.mir_syntax.specs.Crate.{crate_of, stmt_of};
ghost use Rattle.mir_syntax.specs.Parts.{path_formed, operand_whole, term_whole, block_whole};
ghost use Rattle.mir_rules.specs.Formed.{is_formed};
ghost use Rattle.mir_semantics.specs.Memory.{close_frame};
ghost use Rattle.mir_semantics.specs.Step as sem;
ghost use Rattle.mir_semantics.specs.Step.{on, read_at, local_addr};
ghost use Rattle.mir_meaning.specs.Programs.{shapes_in, type_in};
ghost use Rattle.mir_meaning.specs.Views.{value_of, memory_of};
ghost use Rattle.mir_meaning.specs.Sight.{here_of};
ghost use Rattle.mir_meaning.specs.Gives.{Gives};
ghost use Rattle.mir_machine.specs.Seen.{code_in, dest_in, control_in, state_in, called_as};
ghost use Rattle.mir_machine.specs.Ends.{next_in, Stays, trace_in, frame_ended, returned_to, asked, outside_called, told};
ghost use Rattle.mir_machine.specs.Ordered.{Framed};
ghost use Rattle.mir_machine.specs.Runs.{progress_in, come_to};

use crate::arms::take_arm;
use crate::control::Dest;
use crate::dest::{dest_of, store};
use crate::integers::{flag, integers};
use crate::machine::{Called, Machine};
use crate::numbers::numbers_in;
use crate::outcome::Outcome;
use mir_meaning::datum::Datum;
use mir_meaning::exec::exec;
use mir_meaning::here::Here;
use mir_meaning::operand::{read_all, read_number, scalar_of};
use mir_meaning::stop::Stop;
use mir_num::wrap;
use mir_syntax::{
    Arm, Block, Callee, Copied, List, Name, Operand, OutId, OutOfMemory, Place, Program, ScalarTy,
    Term,
};
use std::alloc::Global;
use std::mem;

impl Machine {
    /// Goes on in the block of the first arm with the operand's value, else in the other one.
    fn switch(
        &mut self,
        alloc: Global,
        here: Here<'_>,
        operand: &Operand,
        arms: &[Arm],
        otherwise: u32,
    ) -> Result<(), Stop>
        requires formed { IsTrue (operand_whole operand.now) }
        requires knows { KnowsDrops here.program.now }
        ensures goes { Gives result (sem.finish (code_in here.entry.program.now) (here_of here.entry) (state_in here.entry.program.now self.old) (term.Switch operand.now arms.now otherwise))
            (λ _. on (state_in here.entry.program.now self.new)) }
        ensures trace { self.new.trace ≡ self.old.trace }
    {
        let bits = read_number(alloc, here, &mut self.memory, operand)?;
        self.go_to(take_arm(bits, arms, otherwise));
        Ok(())
    }

    /// The value that the frame on top returns.
    fn result(&self, alloc: Global) -> Result<Datum, Stop>
        ensures { Gives result (read_at (memory_of self.now.memory) (local_addr self.now.top.frame 0)) value_of }
    {
        let Some(part) = self.memory.at(self.top.frame, 0, &[]) else {
            return Err(Stop::Undefined);
        };
        if !part.is_whole() {
            return Err(Stop::Undefined);
        }
        Ok(part.copied(alloc)?)
    }

    /// The locals of the frame on top are given back.
    fn close(&mut self)
        requires { Framed self.old }
        ensures memory { memory_of self.new.memory ≡ close_frame (memory_of self.old.memory) self.old.top.frame }
        ensures others { self.new ≡ record self.old { memory = self.new.memory } }
    {
        let _locals = self.memory.stores.pop();
    }

    /// The caller gets the value and goes on, or the run ends.
    fn give_back(&mut self, alloc: Global, program: &Program, value: Datum) -> Result<Outcome, Stop>
        requires knows { KnowsDrops program.now }
        ensures goes { Gives result (returned_to (shapes_in program.now) (state_in program.now self.old) (value_of value))
            (λ outcome. next_in program.now self.new outcome) }
        ensures trace { Stays result (self.new.trace ≡ self.old.trace) }
    {
        let Some(caller) = self.callers.pop() else {
            return Ok(Outcome::Returned(value));
        };
        let dest = mem::replace(&mut self.top.dest, None);
        self.top = caller;
        let Some(dest) = dest else {
            self.destroyed(alloc, program)?;
            return Ok(Outcome::Going);
        };
        store(program, &mut self.memory, &dest, value)?;
        Ok(Outcome::Going)
    }

    /// The frame on top ends.
    fn finish_frame(&mut self, alloc: Global, program: &Program) -> Result<Outcome, Stop>
        requires knows { KnowsDrops program.now }
        requires framed { Framed self.old }
        ensures goes { Gives result (frame_ended (shapes_in program.now) (state_in program.now self.old))
            (λ outcome. next_in program.now self.new outcome) }
        ensures trace { Stays result (self.new.trace ≡ self.old.trace) }
    {
        let value = self.result(alloc)?;
        self.close();
        self.give_back(alloc, program, value)
    }

    /// Goes on where a condition is as expected, else the run is aborted with the message.
    fn assert(
        &mut self,
        alloc: Global,
        here: Here<'_>,
        operand: &Operand,
        expected: bool,
        text: &Name,
        values: &[Operand],
        block: u32,
    ) -> Result<Outcome, Stop>
        requires condition { IsTrue (operand_whole operand.now) }
        requires shown { IsTrue (list_all operand_whole values.now) }
        requires knows { KnowsDrops here.program.now }
        ensures goes { Gives result (sem.finish (code_in here.entry.program.now) (here_of here.entry) (state_in here.entry.program.now self.old) (term.Assert operand.now expected text.now values.now block))
            (λ outcome. next_in here.entry.program.now self.new outcome) }
        ensures trace { Stays result (self.new.trace ≡ self.old.trace) }
    {
        let bits = read_number(alloc, here, &mut self.memory, operand)?;
        let wanted = flag(expected);
        if bits == wanted {
            self.go_to(block);
            return Ok(Outcome::Going);
        }
        let numbers = integers(alloc, here, &mut self.memory, values)?;
        Ok(Outcome::Aborted(text.copied(alloc)?, numbers))
    }

    /// A call of an outside function stands on the trace, also where its result can't be written.
    fn told(
        &mut self,
        program: &Program,
        called: Called,
        dest: &Dest,
        value: Datum,
    ) -> Result<Outcome, Stop>
        requires knows { KnowsDrops program.now }
        ensures goes { Gives result (told (shapes_in program.now) (state_in program.now self.old) (called_as called) (dest_in program.now dest.now) (value_of value))
            (λ outcome. next_in program.now self.new outcome) }
        ensures trace { Stays result (self.new.trace ≡ self.old.trace) }
    {
        self.trace.push(called)?;
        match store(program, &mut self.memory, dest, value) {
            Ok(()) => Ok(Outcome::Going),
            Err(Stop::Undefined) => Ok(Outcome::Undefined),
            Err(Stop::OutOfMemory) => Err(Stop::OutOfMemory),
        }
    }

    /// An outside function answers with the next number, wrapped to its result type.
    fn answer(
        &mut self,
        program: &Program,
        out: OutId,
        args: List<u128>,
        dest: &Dest,
        ty: ScalarTy,
    ) -> Result<Outcome, Stop>
        requires knows { KnowsDrops program.now }
        ensures goes { Gives result (asked (shapes_in program.now) (state_in program.now self.old) (dest_in program.now dest.now) out.0 args (scalar ty))
            (λ outcome. next_in program.now self.new outcome) }
        ensures trace { Stays result (self.new.trace ≡ self.old.trace) }
    {
        let answers = self.answers.as_slice();
        if answers.len() <= self.asked {
            return Ok(Outcome::NoAnswer);
        }
        let answer = answers[self.asked];
        let bits = wrap(ty, answer);
        self.asked += 1;
        let called = Called {
            out,
            args,
            answer: Some(bits),
        };
        self.told(program, called, dest, Datum::Num(bits))
    }

    /// A call of an outside function.
    fn ask(
        &mut self,
        alloc: Global,
        program: &Program,
        out: OutId,
        args: &[Datum],
        dest: &Dest,
    ) -> Result<Outcome, Stop>
        requires knows { KnowsDrops program.now }
        ensures goes { Gives result (outside_called (code_in program.now) (state_in program.now self.old) (dest_in program.now dest.now) out.0 (map value_of args.now))
            (λ outcome. next_in program.now self.new outcome) }
        ensures trace { Stays result (self.new.trace ≡ self.old.trace) }
    {
        let Some(outside) = program.outsides.get(out.0 as usize) else {
            return Err(Stop::Undefined);
        };
        let args = numbers_in(alloc, args)?;
        match scalar_of(program, outside.result) {
            Some(ty) => self.answer(program, out, args, dest, ty),
            None => {
                let called = Called {
                    out,
                    args,
                    answer: None,
                };
                self.told(program, called, dest, Datum::Parts(List::new(alloc)))
            }
        }
    }

    /// A call: the place of the result comes first, then the arguments.
    fn call(
        &mut self,
        alloc: Global,
        here: Here<'_>,
        place: &Place,
        callee: Callee,
        args: &[Operand],
        block: u32,
    ) -> Result<Outcome, Stop>
        requires place { IsTrue (path_formed place.now.proj) }
        requires args { IsTrue (list_all operand_whole args.now) }
        requires knows { KnowsDrops here.program.now }
        requires room { self.old.last < 2 ^ 64 - 1 }
        ensures goes { Gives result (sem.finish (code_in here.entry.program.now) (here_of here.entry) (state_in here.entry.program.now self.old) (term.Call place.now callee args.now block))
            (λ outcome. next_in here.entry.program.now self.new outcome) }
        ensures trace { Stays result (self.new.trace ≡ self.old.trace) }
    {
        let dest = dest_of(alloc, here, &self.memory, place)?;
        let values = read_all(alloc, here, &mut self.memory, args)?;
        self.go_to(block);
        match callee {
            Callee::Local(function) => {
                self.enter(alloc, here.program, function, values, Some(dest))?;
                Ok(Outcome::Going)
            }
            Callee::Outside(out) => self.ask(alloc, here.program, out, values.as_slice(), &dest),
        }
    }

    /// A terminator, or one item of a drop.
    fn terminate(&mut self, alloc: Global, here: Here<'_>, term: &Term) -> Result<Outcome, Stop>
        requires whole { IsTrue (term_whole term.now) }
        requires knows { KnowsDrops here.program.now }
        requires room { self.old.last < 2 ^ 64 - 1 }
        requires framed { Framed self.old }
        requires frame { here.frame ≡ self.old.top.frame }
        ensures goes { Gives result (sem.finish (code_in here.entry.program.now) (here_of here.entry) (state_in here.entry.program.now self.old) term.now)
            (λ outcome. next_in here.entry.program.now self.new outcome) }
        ensures trace { Stays result (self.new.trace ≡ self.old.trace) }
    {
        match term {
            Term::Goto(block) => {
                self.go_to(*block);
                Ok(Outcome::Going)
            }
            Term::Switch(operand, arms, otherwise) => {
                self.switch(alloc, here, operand, arms.as_slice(), *otherwise)?;
                Ok(Outcome::Going)
            }
            Term::Drop(place, block) => {
                self.drop_step(alloc, here, place, *block)?;
                Ok(Outcome::Going)
            }
            Term::Return => self.finish_frame(alloc, here.program),
            Term::Unreachable => Err(Stop::Undefined),
            Term::Call(place, callee, args, block) => {
                self.call(alloc, here, place, *callee, args.as_slice(), *block)
            }
            Term::Assert(operand, expected, text, values, block) => {
                self.assert(
                    alloc,
                    here,
                    operand,
                    *expected,
                    text,
                    values.as_slice(),
                    *block,
                )
            }
        }
    }

    /// The statement at which the frame on top stands, or the terminator of its block.
    fn perform(&mut self, alloc: Global, here: Here<'_>, block: &Block) -> Result<Outcome, Stop>
        requires whole { IsTrue (block_whole block.now) }
        requires knows { KnowsDrops here.program.now }
        requires room { self.old.last < 2 ^ 64 - 1 }
        requires framed { Framed self.old }
        requires frame { here.frame ≡ self.old.top.frame }
        ensures goes { Gives result (sem.perform (code_in here.entry.program.now) (here_of here.entry) (state_in here.entry.program.now self.old) block.now.term (slice_get (map (stmt_of (trees_of here.entry.program.now.types)) block.now.stmts) self.old.top.at))
            (λ outcome. next_in here.entry.program.now self.new outcome) }
        ensures trace { Stays result (self.new.trace ≡ self.old.trace) }
    {
        let stmts = block.stmts.as_slice();
        if stmts.len() <= self.top.at {
            return self.terminate(alloc, here, &block.term);
        }
        let stmt = &stmts[self.top.at];
        exec(alloc, here, &mut self.memory, stmt)?;
        self.top.at += 1;
        Ok(Outcome::Going)
    }

    /// What the frame on top does next.
    fn act(&mut self, alloc: Global, program: &Program) -> Result<Outcome, Stop>
        requires formed { IsTrue (is_formed (crate_of program.now)) }
        requires knows { KnowsDrops program.now }
        requires room { self.old.last < 2 ^ 64 - 1 }
        requires framed { Framed self.old }
        ensures goes { Gives result (sem.step (code_in program.now) (state_in program.now self.old))
            (λ outcome. next_in program.now self.new outcome) }
        ensures trace { Stays result (self.new.trace ≡ self.old.trace) }
    {
        let Some(function) = program.functions.get(self.top.function.0 as usize) else {
            return Err(Stop::Undefined);
        };
        let body = &function.body;
        let Some(block) = body.blocks.get(self.top.block as usize) else {
            return Err(Stop::Undefined);
        };
        let here = Here {
            program,
            body,
            frame: self.top.frame,
        };
        self.perform(alloc, here, block)
    }

    /// One step.
    ///
    /// # Errors
    ///
    /// `OutOfMemory`; the machine is spent then.
    pub fn advance(&mut self, alloc: Global, program: &Program) -> Result<Outcome, OutOfMemory>
        requires formed { IsTrue (is_formed (crate_of program.now)) }
        requires knows { KnowsDrops program.now }
        requires room { self.old.last < 2 ^ 64 - 1 }
        requires framed { Framed self.old }
        ensures { IfOk result (λ outcome. progress_in program.now self.new outcome ≡ come_to (trace_in self.old.trace) (sem.step (code_in program.now) (state_in program.now self.old))) }
    {
        match self.act(alloc, program) {
            Ok(outcome) => Ok(outcome),
            Err(Stop::Undefined) => Ok(Outcome::Undefined),
            Err(Stop::OutOfMemory) => Err(OutOfMemory),
        }
    }
}
