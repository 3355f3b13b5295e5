ghost use Rattle.std.specs.Prelude.{◌≡◌, ℕ, suc, ◌<◌, ◌≤◌, ◌^◌, ◌||◌, nat_lt, IfOk, length, slice_get};
ghost use Rattle.mir_syntax.specs.Tree.{named, at_id, trees_of};
ghost use Rattle.mir_syntax.specs.Ids.{IdsInTable};
ghost use Rattle.mir_syntax.specs.Crate.{crate_of};
ghost use Rattle.mir_syntax.specs.Shapes.{shapes_of, needs_drop};
ghost use Rattle.mir_syntax.specs.Drops.{KnowsDrops};
ghost use Rattle.mir_rules.specs.Weights.{drop_weight};
ghost use Rattle.mir_rules.specs.Limits.{is_large_type};
ghost use Rattle.drop_tables.specs.Marks.{is_marked, own_of};
ghost use Rattle.type_sizes.specs.UpTo.{Tells};
ghost use Rattle.type_sizes.specs.Sized.{IsMeasured, IsSized};

use crate::measure::{Measure, add};
use crate::sizing::Sizing;
use crate::tables::told;
use drop_tables::{DefDrops, def_drops};
use mir_syntax::{List, OutOfMemory, Program, TyId};
use std::alloc::Global;

/// What is measured in each definition and in each type of the table.
#[derive(Debug, Drop)]
pub struct Measured {
    pub defs: List<u32>,
    pub types: List<u32>,
}

/// The sizes of the types of a program, each counted up to its bound.
#[derive(Debug, Drop)]
pub struct Sizes {
    pub nodes: Measured,
    pub units: Measured,
    pub inside: Measured,
}

fn measure_types(
    alloc: Global,
    program: &Program,
    measure: Measure,
    drops: &DefDrops,
) -> Result<Measured, OutOfMemory>
    requires knows { KnowsDrops program.now }
    requires ids { IdsInTable program.now }
    requires few { length program.now.defs < 2 ^ 32 }
    requires has { (d : ℕ) → is_marked drops.now.has_destructor d ≡ own_of (slice_get (shapes_of (crate_of program.now)) d) }
    requires needs { (d : ℕ) → is_marked drops.now.needs_drop d ≡ needs_drop (shapes_of (crate_of program.now)) (named d) }
    ensures { IfOk result (λ x. IsMeasured program.now measure x) }
{
    let sizing = Sizing { program, measure };
    let defs = sizing.all_sizes(
        alloc,
        drops.has_destructor.as_slice(),
        drops.needs_drop.as_slice(),
    )?;
    let types = sizing.type_sizes(alloc, defs.as_slice())?;
    Ok(Measured { defs, types })
}

/// The sizes of the types of a program of which the drops are known.
///
/// # Errors
///
/// `OutOfMemory`.
pub fn size_types(alloc: Global, program: &Program) -> Result<Sizes, OutOfMemory>
    requires knows { KnowsDrops program.now }
    requires ids { IdsInTable program.now }
    requires few { length program.now.defs < 2 ^ 32 }
    requires few_functions { length program.now.functions < 2 ^ 32 }
    ensures { IfOk result (λ s. IsSized program.now s) }
{
    let drops = def_drops(alloc, program)?;
    Ok(Sizes {
        nodes: measure_types(alloc, program, Measure::Nodes, &drops)?,
        units: measure_types(alloc, program, Measure::Units, &drops)?,
        inside: measure_types(alloc, program, Measure::Inside, &drops)?,
    })
}

fn is_large(nodes: u32, units: u32) -> bool
    ensures { (n u : ℕ) → Tells 1025 nodes n → Tells 17 units u → result ≡ (nat_lt 1024 n || nat_lt 16 u) }
{
    1024 < nodes || 16 < units
}

/// Whether a type has too many nodes or units of drop.
pub fn is_large_type(program: &Program, sizes: &Sizes, id: TyId) -> bool
    requires sized { IsSized program.now sizes.now }
    requires in_table { id.0 < length program.now.types }
    ensures { result ≡ is_large_type (shapes_of (crate_of program.now)) (at_id (trees_of program.now.types) id) }
{
    let nodes = told(Measure::Nodes, sizes.nodes.types.as_slice(), id.0);
    let units = told(Measure::Units, sizes.units.types.as_slice(), id.0);
    is_large(nodes, units)
}

/// Whether a definition has too many nodes or units of drop.
pub fn is_large_def(program: &Program, sizes: &Sizes, def: u32) -> bool
    requires sized { IsSized program.now sizes.now }
    ensures { result ≡ is_large_type (shapes_of (crate_of program.now)) (named def) }
{
    let nodes = told(Measure::Nodes, sizes.nodes.defs.as_slice(), def);
    let units = told(Measure::Units, sizes.units.defs.as_slice(), def);
    is_large(nodes, units)
}

/// The drop weight of a type, up to 10,001.
pub fn drop_weight(program: &Program, sizes: &Sizes, id: TyId) -> u32
    requires sized { IsSized program.now sizes.now }
    requires knows { KnowsDrops program.now }
    requires in_table { id.0 < length program.now.types }
    ensures { Tells 10001 result (drop_weight (shapes_of (crate_of program.now)) (at_id (trees_of program.now.types) id)) }
{
    if program.needs_drop(id) {
        let inside = told(Measure::Inside, sizes.inside.types.as_slice(), id.0);
        one_more(inside)
    } else {
        0
    }
}

fn one_more(inside: u32) -> u32
    requires { inside ≤ 10001 }
    ensures { (n : ℕ) → Tells 10001 inside n → Tells 10001 result (suc n) }
{
    add(10001, inside, 1)
}
