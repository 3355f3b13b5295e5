ghost use Rattle.std.specs.Prelude.{IsTrue};
ghost use Rattle.mir_syntax.specs.Drops.{KnowsDrops};
ghost use Rattle.mir_syntax.specs.Parts.{path_formed};
ghost use Rattle.mir_semantics.specs.Step as sem;
ghost use Rattle.mir_meaning.specs.Programs.{shapes_in};
ghost use Rattle.mir_meaning.specs.Views.{value_of, memory_of};
ghost use Rattle.mir_meaning.specs.Sight.{here_of};
ghost use Rattle.mir_meaning.specs.Gives.{Gives};
ghost use Rattle.mir_machine.specs.Seen.{dest_in};

use crate::control::Dest;
use mir_meaning::datum::Datum;
use mir_meaning::exec::{allows, guard};
use mir_meaning::here::Here;
use mir_meaning::memory::Memory;
use mir_meaning::stop::Stop;
use mir_syntax::{Place, Program};
use std::alloc::Global;

/// Where a call's result goes.
///
/// # Errors
///
/// `Undefined` where the meaning is undefined; `OutOfMemory`.
pub fn dest_of(alloc: Global, here: Here<'_>, memory: &Memory, place: &Place) -> Result<Dest, Stop>
    requires formed { IsTrue (path_formed place.now.proj) }
    requires knows { KnowsDrops here.program.now }
    ensures { Gives result (sem.dest_of (here_of here.entry) (memory_of memory.now) place.now) (λ dest. dest_in here.entry.program.now dest) }
{
    let Some(spot) = here.resolve(memory, place) else {
        return Err(Stop::Undefined);
    };
    let Some(ty) = here.type_of(place) else {
        return Err(Stop::Undefined);
    };
    let at = spot.pointer(alloc)?;
    let guard = guard(here.program, place, ty);
    Ok(Dest { at, guard })
}

/// Writes a call's result, where its destination is still there.
///
/// # Errors
///
/// `Undefined` where the meaning is undefined.
pub fn store(program: &Program, memory: &mut Memory, dest: &Dest, value: Datum) -> Result<(), Stop>
    requires { KnowsDrops program.now }
    ensures { Gives result (sem.store (shapes_in program.now) (memory_of memory.old) (dest_in program.now dest.now) (value_of value)) (λ _. memory_of memory.new) }
{
    let Some(old) = memory.behind(&dest.at) else {
        return Err(Stop::Undefined);
    };
    if !allows(program, dest.guard, old) {
        return Err(Stop::Undefined);
    }
    memory.write(dest.at.frame, dest.at.local, dest.at.path.as_slice(), value);
    Ok(())
}
