ghost use Rattle.std.specs.Prelude.{◌≡◌, ◌<◌, ◌-◌, ◌^◌, IsTrue, option_map};
ghost use Rattle.mir_syntax.specs.declared.program.Program.{Program};
ghost use Rattle.mir_syntax.specs.Drops.{KnowsDrops};
ghost use Rattle.mir_syntax.specs.Parts.{path_formed};
ghost use Rattle.mir_semantics.specs.Step as sem;
ghost use Rattle.mir_semantics.specs.Step.{on, variant_in};
ghost use Rattle.mir_semantics.specs.Values.{Value};
ghost use Rattle.mir_syntax.specs.Shapes.{destructor_of};
ghost use Rattle.mir_meaning.specs.Programs.{shapes_in, type_in};
ghost use Rattle.mir_meaning.specs.Views.{addr_of, memory_of};
ghost use Rattle.mir_meaning.specs.Sight.{here_of};
ghost use Rattle.mir_meaning.specs.Gives.{Gives};
ghost use Rattle.mir_machine.specs.Seen.{code_in, visit_in, control_in, dropping_in, items_in, state_in, begun, dropped};

use crate::control::{Dropping, Visit};
use crate::machine::Machine;
use crate::visits::push_visits;
use mir_meaning::blank::blank;
use mir_meaning::datum::{Datum, copied_pointer};
use mir_meaning::here::Here;
use mir_meaning::memory::Memory;
use mir_meaning::stop::Stop;
use mir_meaning::types::{destructor, needs_drop};
use mir_syntax::{List, Place, Program, Ty};
use std::alloc::Global;
use std::mem;

/// A drop begins with the visit of its place.
///
/// # Errors
///
/// `Undefined` where the meaning is undefined; `OutOfMemory`.
pub fn begin(
    alloc: Global,
    here: Here<'_>,
    memory: &Memory,
    place: &Place,
    target: u32,
) -> Result<Dropping, Stop>
    requires { IsTrue (path_formed place.now.proj) }
    ensures { Gives result (begun (here_of here.entry) (memory_of memory.now) place.now target) (λ dropping. dropping_in here.entry.program.now dropping) }
{
    let Some(spot) = here.resolve(memory, place) else {
        return Err(Stop::Undefined);
    };
    let Some(ty) = here.type_of(place) else {
        return Err(Stop::Undefined);
    };
    let at = spot.pointer(alloc)?;
    let first = spot.pointer(alloc)?;
    let mut items = List::new(alloc);
    items.push(Visit { at: first, ty })?;
    Ok(Dropping {
        place: Visit { at, ty },
        target,
        items,
    })
}

/// What a destructor left at its place, as far as its fields need it: which variant of an enum is active.
fn active_left(program: &Program, memory: &Memory, visit: &Visit) -> Result<Option<u32>, Stop>
    ensures { Gives result (option_map variant_in (sem.left_at (shapes_in program.now) (memory_of memory.now) (addr_of visit.now.at) (type_in program.now visit.now.ty))) (λ active. active) }
{
    let Some(ty) = program.ty_at(visit.ty) else {
        return Ok(None);
    };
    let Ty::Named(def) = ty else {
        return Ok(None);
    };
    let Some(def) = program.defs.get(*def as usize) else {
        return Ok(None);
    };
    if !def.is_enum {
        return Ok(None);
    }
    let Some(part) = memory.behind(&visit.at) else {
        return Err(Stop::Undefined);
    };
    Ok(part.variant())
}

impl Machine {
    /// The frame on top goes on at a block.
    pub fn go_to(&mut self, block: u32)
        ensures top { (program : Program) → control_in program self.new.top ≡ sem.to_block block (control_in program self.old.top) }
        ensures others { self.new ≡ record self.old { top = self.new.top } }
    {
        self.top.block = block;
        self.top.at = 0;
        self.top.dropping = None;
    }

    /// Goes on with the items that are left; where none is, the place becomes blank and the drop is done.
    ///
    /// # Errors
    ///
    /// `Undefined` where the meaning is undefined; `OutOfMemory`.
    pub fn work_on(
        &mut self,
        alloc: Global,
        program: &Program,
        dropping: Dropping,
    ) -> Result<(), Stop>
        requires { KnowsDrops program.now }
        ensures goes { Gives result
            (sem.work_on (shapes_in program.now) (state_in program.now self.old) (control_in program.now self.old.top) (dropping_in program.now dropping) (items_in program.now dropping.items))
            (λ _. on (state_in program.now self.new)) }
        ensures trace { self.new.trace ≡ self.old.trace }
    {
        if !dropping.items.is_empty() {
            self.top.dropping = Some(dropping);
            return Ok(());
        }
        let at = &dropping.place.at;
        if self.memory.behind(at).is_none() {
            return Err(Stop::Undefined);
        }
        let blank = blank(alloc, program, dropping.place.ty)?;
        self.memory
            .write(at.frame, at.local, at.path.as_slice(), blank);
        self.go_to(dropping.target);
        Ok(())
    }

    /// The visit of a place that isn't a hole: its destructor is called with `&mut` of it, else its fields come next.
    fn visit(
        &mut self,
        alloc: Global,
        program: &Program,
        dropping: Dropping,
        visit: Visit,
        active: Option<u32>,
    ) -> Result<(), Stop>
        requires knows { KnowsDrops program.now }
        requires room { self.old.last < 2 ^ 64 - 1 }
        ensures goes { (v : Value) → variant_in v ≡ active → Gives result
            (sem.visit (code_in program.now) (state_in program.now self.old) (dropping_in program.now dropping) (visit_in program.now visit) (items_in program.now dropping.items) v (destructor_of (shapes_in program.now) (type_in program.now visit.ty)))
            (λ _. on (state_in program.now self.new)) }
        ensures trace { self.new.trace ≡ self.old.trace }
    {
        let mut dropping = dropping;
        let Some(destructor) = destructor(program, visit.ty) else {
            push_visits(alloc, program, &mut dropping.items, &visit, active)?;
            return self.work_on(alloc, program, dropping);
        };
        let pointer = copied_pointer(alloc, &visit.at)?;
        let mut args = List::new(alloc);
        args.push(Datum::Ref(pointer))?;
        dropping.items.push(visit)?;
        self.top.dropping = Some(dropping);
        self.enter(alloc, program, destructor, args, None)
    }

    /// One item: a type that needs no drop isn't looked at, and a hole has nothing to drop.
    fn work_off(&mut self, alloc: Global, program: &Program, dropping: Dropping) -> Result<(), Stop>
        requires knows { KnowsDrops program.now }
        requires room { self.old.last < 2 ^ 64 - 1 }
        ensures goes { Gives result
            (sem.work_off (code_in program.now) (state_in program.now self.old) (dropping_in program.now dropping) (items_in program.now dropping.items))
            (λ _. on (state_in program.now self.new)) }
        ensures trace { self.new.trace ≡ self.old.trace }
    {
        let mut dropping = dropping;
        let Some(item) = dropping.items.pop() else {
            return Err(Stop::Undefined);
        };
        if !needs_drop(program, item.ty) {
            return self.work_on(alloc, program, dropping);
        }
        let Some(part) = self.memory.behind(&item.at) else {
            return Err(Stop::Undefined);
        };
        if part.is_hole() {
            return self.work_on(alloc, program, dropping);
        }
        let active = part.variant();
        self.visit(alloc, program, dropping, item, active)
    }

    /// A step of the drop of a place.
    ///
    /// # Errors
    ///
    /// `Undefined` where the meaning is undefined; `OutOfMemory`.
    pub fn drop_step(
        &mut self,
        alloc: Global,
        here: Here<'_>,
        place: &Place,
        target: u32,
    ) -> Result<(), Stop>
        requires formed { IsTrue (path_formed place.now.proj) }
        requires knows { KnowsDrops here.program.now }
        requires room { self.old.last < 2 ^ 64 - 1 }
        ensures goes { Gives result
            (dropped (code_in here.entry.program.now) (here_of here.entry) (state_in here.entry.program.now self.old) place.now target)
            (λ _. on (state_in here.entry.program.now self.new)) }
        ensures trace { self.new.trace ≡ self.old.trace }
    {
        let begun = mem::replace(&mut self.top.dropping, None);
        match begun {
            Some(dropping) => self.work_off(alloc, here.program, dropping),
            None => {
                let first = begin(alloc, here, &self.memory, place, target)?;
                self.work_off(alloc, here.program, first)
            }
        }
    }

    /// A destructor has returned: the fields of its place come next, as they are now.
    ///
    /// # Errors
    ///
    /// `Undefined` where the meaning is undefined; `OutOfMemory`.
    pub fn destroyed(&mut self, alloc: Global, program: &Program) -> Result<(), Stop>
        requires { KnowsDrops program.now }
        ensures goes { Gives result
            (sem.destroyed (shapes_in program.now) (state_in program.now self.old) (control_in program.now self.old.top))
            (λ _. on (state_in program.now self.new)) }
        ensures trace { self.new.trace ≡ self.old.trace }
    {
        let begun = mem::replace(&mut self.top.dropping, None);
        let Some(mut dropping) = begun else {
            return Err(Stop::Undefined);
        };
        let Some(item) = dropping.items.pop() else {
            return Err(Stop::Undefined);
        };
        let active = active_left(program, &self.memory, &item)?;
        push_visits(alloc, program, &mut dropping.items, &item, active)?;
        self.work_on(alloc, program, dropping)
    }
}
