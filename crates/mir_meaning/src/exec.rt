ghost use Rattle.std.specs.Prelude.{◌≡◌, IsTrue, option_map};
ghost use Rattle.mir_syntax.specs.Tree.{trees_of};
ghost use Rattle.mir_syntax.specs.Crate as typed;
ghost use Rattle.mir_syntax.specs.Crate.{rvalue_of, stmt_of};
ghost use Rattle.mir_syntax.specs.Drops.{KnowsDrops};
ghost use Rattle.mir_syntax.specs.Parts.{path_formed, rvalue_whole, stmt_whole};
ghost use Rattle.mir_semantics.specs.Step as sem;
ghost use Rattle.mir_meaning.specs.Programs.{shapes_in, type_in};
ghost use Rattle.mir_meaning.specs.Views.{value_of, part_of, memory_of};
ghost use Rattle.mir_meaning.specs.Sight.{here_of, assigned};
ghost use Rattle.mir_meaning.specs.Gives.{Gives};

use crate::blank::{blank, variant_blank};
use crate::datum::Datum;
use crate::full::full;
use crate::here::Here;
use crate::memory::Memory;
use crate::part::Part;
use crate::rvalue::eval;
use crate::stop::Stop;
use crate::types::needs_drop;
use mir_syntax::{Place, Program, Rvalue, Stmt, TyId};
use std::alloc::Global;

/// A place behind a reference, of a type that needs drop, may be written only where nothing was moved out of it.
#[tactic(auto, using(crate::proofs::Execs::guard_if))]
pub fn guard(program: &Program, place: &Place, ty: TyId) -> Option<TyId>
    requires { KnowsDrops program.now }
    ensures { option_map (type_in program.now) result ≡ sem.guard_of (shapes_in program.now) place.now.proj (type_in program.now ty) }
{
    let behind = place.has_deref();
    let drops = needs_drop(program, ty);
    if behind && drops { Some(ty) } else { None }
}

/// Whether the old value may be written over.
pub fn allows(program: &Program, guard: Option<TyId>, old: Part<'_>) -> bool
    requires { KnowsDrops program.now }
    ensures { result ≡ sem.allows (shapes_in program.now) (option_map (type_in program.now) guard) (part_of old.entry) }
{
    match guard {
        Some(ty) => full(program, ty, old),
        None => true,
    }
}

fn assign(
    alloc: Global,
    here: Here<'_>,
    memory: &mut Memory,
    place: &Place,
    value: Datum,
) -> Result<(), Stop>
    requires formed { IsTrue (path_formed place.now.proj) }
    requires knows { KnowsDrops here.program.now }
    ensures { Gives result (assigned (here_of here.entry) (memory_of memory.old) place.now (value_of value)) (λ _. memory_of memory.new) }
{
    let Some((spot, old)) = here.find(memory, place) else {
        return Err(Stop::Undefined);
    };
    let Some(ty) = here.type_of(place) else {
        return Err(Stop::Undefined);
    };
    let guard = guard(here.program, place, ty);
    if !allows(here.program, guard, old) {
        return Err(Stop::Undefined);
    }
    let target = spot.target(alloc)?;
    memory.put_at(&target, value);
    Ok(())
}

fn run_assign(
    alloc: Global,
    here: Here<'_>,
    memory: &mut Memory,
    place: &Place,
    rvalue: &Rvalue,
) -> Result<(), Stop>
    requires formed { IsTrue (path_formed place.now.proj) }
    requires whole { IsTrue (rvalue_whole rvalue.now) }
    requires knows { KnowsDrops here.program.now }
    ensures { Gives result (sem.exec (here_of here.entry) (memory_of memory.old) (typed.assign place.now (rvalue_of (trees_of here.entry.program.now.types) rvalue.now))) (λ _. memory_of memory.new) }
{
    let value = eval(alloc, here, memory, rvalue)?;
    assign(alloc, here, memory, place, value)
}

fn set_blank(alloc: Global, here: Here<'_>, memory: &mut Memory, local: u32) -> Result<(), Stop>
    requires { KnowsDrops here.program.now }
    ensures { Gives result (sem.set_blank (here_of here.entry) (memory_of memory.old) local) (λ _. memory_of memory.new) }
{
    let Some(ty) = here.body.locals.get(local as usize) else {
        return Err(Stop::Undefined);
    };
    let blank = blank(alloc, here.program, *ty)?;
    memory.write(here.frame, local, &[], blank);
    Ok(())
}

#[tactic(auto, using(crate::proofs::Execs::other_variant, crate::proofs::Execs::some_variant))]
fn is_variant(part: Part<'_>, variant: u32) -> bool
    ensures { result ≡ sem.is_variant variant (part_of part.entry) }
{
    let Some(active) = part.variant() else {
        return false;
    };
    active == variant
}

fn set_variant(
    alloc: Global,
    here: Here<'_>,
    memory: &mut Memory,
    place: &Place,
    variant: u32,
) -> Result<(), Stop>
    requires formed { IsTrue (path_formed place.now.proj) }
    requires knows { KnowsDrops here.program.now }
    ensures { Gives result (sem.exec (here_of here.entry) (memory_of memory.old) (typed.set_discriminant place.now variant)) (λ _. memory_of memory.new) }
{
    let Some((spot, old)) = here.find(memory, place) else {
        return Err(Stop::Undefined);
    };
    let Some(ty) = here.type_of(place) else {
        return Err(Stop::Undefined);
    };
    let Some(fields) = here.program.variant_fields(ty, variant) else {
        return Err(Stop::Undefined);
    };
    if is_variant(old, variant) {
        return Ok(());
    }
    let target = spot.target(alloc)?;
    let blanks = variant_blank(alloc, here.program, fields)?;
    memory.put_at(&target, Datum::Variant(variant, blanks));
    Ok(())
}

/// One statement. An assignment evaluates first and resolves its place then.
///
/// # Errors
///
/// `Undefined` where the meaning is undefined; `OutOfMemory`.
pub fn exec(alloc: Global, here: Here<'_>, memory: &mut Memory, stmt: &Stmt) -> Result<(), Stop>
    requires formed { IsTrue (stmt_whole stmt.now) }
    requires knows { KnowsDrops here.program.now }
    ensures { Gives result (sem.exec (here_of here.entry) (memory_of memory.old) (stmt_of (trees_of here.entry.program.now.types) stmt.now)) (λ _. memory_of memory.new) }
{
    match stmt {
        Stmt::Assign(place, rvalue) => run_assign(alloc, here, memory, place, rvalue),
        Stmt::StorageLive(local) => set_blank(alloc, here, memory, *local),
        Stmt::StorageDead(local) => set_blank(alloc, here, memory, *local),
        Stmt::SetDiscriminant(place, variant) => set_variant(alloc, here, memory, place, *variant),
    }
}
