ghost use Rattle.std.specs.Prelude.{◌≡◌, ℕ, ◌<◌, ◌^◌, IfOk, map, length, slice_get, option_map};
ghost use Rattle.mir_syntax.specs.Tree.{named, trees_of};
ghost use Rattle.mir_syntax.specs.Ids.{IdsInTable};
ghost use Rattle.mir_syntax.specs.Crate.{crate_of};
ghost use Rattle.mir_syntax.specs.Shapes.{shapes_of, needs_drop};
ghost use Rattle.mir_syntax.specs.Drops.{fn_number, own_destructor};
ghost use Rattle.drop_tables.specs.Marks.{is_marked, own_of};

use crate::destructors::{destructors, have_destructor};
use crate::holders::holders_of;
use crate::marks::types_holding;
use crate::spread::spread;
use mir_syntax::{DropFacts, FnId, List, OutOfMemory, Program};
use std::alloc::Global;

/// What is known of the drops of the definitions, one by one.
#[derive(Debug, Drop)]
pub struct DefDrops {
    /// The function that is the destructor.
    pub destructors: List<Option<FnId>>,
    /// Whether there is one.
    pub has_destructor: List<bool>,
    /// Whether the definition needs drop.
    pub needs_drop: List<bool>,
}

/// The destructor of each definition, and which definitions need drop.
///
/// # Errors
///
/// `OutOfMemory`.
pub fn def_drops(alloc: Global, program: &Program) -> Result<DefDrops, OutOfMemory>
    requires ids { IdsInTable program.now }
    requires few { length program.now.functions < 2 ^ 32 }
    ensures destructors { IfOk result (λ drops. map (option_map fn_number) drops.destructors ≡ map own_destructor (shapes_of (crate_of program.now))) }
    ensures has { IfOk result (λ drops. (d : ℕ) → is_marked drops.has_destructor d ≡ own_of (slice_get (shapes_of (crate_of program.now)) d)) }
    ensures needs { IfOk result (λ drops. (d : ℕ) → is_marked drops.needs_drop d ≡ needs_drop (shapes_of (crate_of program.now)) (named d)) }
{
    let destructors = destructors(alloc, program)?;
    let has_destructor = have_destructor(alloc, destructors.as_slice())?;
    let own = have_destructor(alloc, destructors.as_slice())?;
    let holders = holders_of(alloc, program)?;
    let rounds = program.defs.len().saturating_sub(1);
    let needs_drop = spread(alloc, holders.as_slice(), own, rounds)?;
    Ok(DefDrops {
        destructors,
        has_destructor,
        needs_drop,
    })
}

/// Which types need drop, and which function is the destructor of each definition: what the program is to keep (`Program::keep_drops`).
///
/// # Errors
///
/// `OutOfMemory`.
pub fn drop_facts(alloc: Global, program: &Program) -> Result<DropFacts, OutOfMemory>
    requires ids { IdsInTable program.now }
    requires few { length program.now.functions < 2 ^ 32 }
    ensures needs { IfOk result (λ facts. facts.needs_drop ≡ map (needs_drop (shapes_of (crate_of program.now))) (trees_of program.now.types)) }
    ensures destructors { IfOk result (λ facts. map (option_map fn_number) facts.destructors ≡ map own_destructor (shapes_of (crate_of program.now))) }
{
    let drops = def_drops(alloc, program)?;
    let needs_drop = types_holding(alloc, program, drops.needs_drop.as_slice())?;
    Ok(DropFacts {
        needs_drop,
        destructors: drops.destructors,
    })
}
