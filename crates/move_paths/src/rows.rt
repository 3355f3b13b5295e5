ghost use Rattle.std.specs.Prelude.{◌≡◌, ℕ, ◌<◌, ◌^◌, ◌↔◌, List, [], ◌∷◌, not, true, map, replicate, length, slice_get, Some, IsTrue, IfOk};
ghost use Rattle.std.specs.List.{All};
ghost use Rattle.bit_rows.specs.Rows.{row_at, flag, HasSize};
ghost use Rattle.mir_syntax.specs.declared.body.Place.{Place};
ghost use Rattle.mir_syntax.specs.Tree.{Tree, trees_of};
ghost use Rattle.mir_syntax.specs.Crate.{crate_of, block_of, body_of};
ghost use Rattle.mir_syntax.specs.Shapes.{shapes_of};
ghost use Rattle.mir_syntax.specs.Drops.{KnowsDrops};
ghost use Rattle.mir_syntax.specs.Ids.{IdsInTable, BodyInTable};
ghost use Rattle.mir_cfg.specs.Paths.{terms_of, Closed, Reached};
ghost use Rattle.liveness.specs.Rows.{block_at, IsRows};
ghost use Rattle.move_paths.specs.Effects.{units_of_body};
ghost use Rattle.move_paths.specs.Inits.{is_argument, Comes, MaybeAt, SurelyAt};
ghost use Rattle.move_paths.specs.Rows.{has, passed_stmts, each_unit, end_row, first_row, IsOnward};

use crate::edges::onward_edges;
use crate::flow::StatusFlow;
use crate::passing::Passing;
use crate::units::{BodyUnits, units};
use bit_rows::BitRows;
use flow_engine::{Edge, solve};
use mir_syntax::{Block, Body, OutOfMemory, Place as BodyPlace, Program};
use std::alloc::Global;

/// The units of a body in their order, and of each block, by rows, those that may be initialised at its start and those that surely are.
#[derive(Drop)]
pub struct InitRows {
    pub units: BodyUnits,
    pub maybe: BitRows,
    pub sure: BitRows,
}

fn is_argument(args: u32, unit: &BodyPlace) -> bool
    ensures { result ≡ is_argument args unit.now }
{
    unit.local > 0 && unit.local <= args
}

fn has(status: bool, now: bool) -> bool
    ensures { result ≡ has status now }
{
    if status { now } else { !now }
}

/// One row, of the units that have a status where the body begins: those of arguments are initialised, and the others aren't.
fn first_row(
    alloc: Global,
    units: &BodyUnits,
    args: u32,
    status: bool,
) -> Result<BitRows, OutOfMemory>
    ensures { IfOk result (λ row. row ≡ first_row status args units.now.places ∷ []) }
{
    let mut row = BitRows::new(alloc, 1, units.len())?;
    for (at, unit) in units.places.as_slice().iter().enumerate() {
        row.write(0, at as u32, has(status, is_argument(args, unit)));
    }
    Ok(row)
}

/// The one row of each of these, in one table.
fn one_table(alloc: Global, rows: &[BitRows], bits: u32) -> Result<BitRows, OutOfMemory>
    requires few { length rows.now < 2 ^ 30 }
    requires sizes { All (λ row. HasSize row 1 bits) rows.now }
    ensures { IfOk result (λ table. table ≡ map (λ row. row_at row 0) rows.now) }
{
    let mut table = BitRows::new(alloc, rows.len() as u32, bits)?;
    for (at, row) in rows.iter().enumerate() {
        table.copy_other(at as u32, row, 0);
    }
    Ok(table)
}

/// Of each block the units that may have a status at its start, given those that have it at the blocks' ends whatever they were, and those that
/// have the other one there.
fn may_have(
    alloc: Global,
    body: &Body,
    units: &BodyUnits,
    edges: &[Edge],
    status: bool,
    gens: &BitRows,
    kills: &BitRows,
) -> Result<BitRows, OutOfMemory>
    requires closed { Closed (terms_of body.now) }
    requires few_blocks { length body.now.blocks < 2 ^ 30 }
    requires edges { (trees : List Tree) → IsOnward (Reached (terms_of body.now)) (body_of trees body.now).blocks (length body.now.blocks) edges.now }
    requires gens { (trees : List Tree) → IsRows (length body.now.blocks) (λ i. end_row status units.now.places (block_at (body_of trees body.now).blocks i)) gens.now }
    requires kills { (trees : List Tree) → IsRows (length body.now.blocks) (λ i. end_row (not status) units.now.places (block_at (body_of trees body.now).blocks i)) kills.now }
    ensures size { IfOk result (λ rows. HasSize rows (length body.now.blocks) (length units.now.places)) }
    ensures comes { IfOk result (λ rows. (trees : List Tree) (i k : ℕ) (u : Place) → i < length body.now.blocks → slice_get units.now.places k ≡ Some u → IsTrue (flag rows i k) ↔ Comes (body_of trees body.now) u i status) }
{
    let first = first_row(alloc, units, body.args, status)?;
    let blocks = body.blocks.len() as u32;
    let bits = units.len();
    let flow = StatusFlow {
        blocks,
        bits,
        edges,
        first: &first,
        gens,
        kills,
    };
    let facts = solve(alloc, &flow, blocks, edges)?;
    one_table(alloc, facts.as_slice(), bits)
}

fn full_row(alloc: Global, bits: u32) -> Result<BitRows, OutOfMemory>
    ensures { IfOk result (λ row. row ≡ replicate bits true ∷ []) }
{
    let mut row = BitRows::new(alloc, 1, bits)?;
    for bit in 0..bits {
        row.set(0, bit, true);
    }
    Ok(row)
}

/// Rows in which each bit is the other one.
fn turned_over(alloc: Global, rows: &BitRows, count: u32, bits: u32) -> Result<BitRows, OutOfMemory>
    requires { HasSize rows.now count bits }
    ensures size { IfOk result (λ made. HasSize made count bits) }
    ensures flags { IfOk result (λ made. (i k : ℕ) → i < count → k < bits → flag made i k ≡ not (flag rows.now i k)) }
{
    let full = full_row(alloc, bits)?;
    let mut made = BitRows::new(alloc, count, bits)?;
    for row in 0..count {
        made.copy_other(row, &full, 0);
        made.minus_other(row, rows, row);
    }
    Ok(made)
}

/// Carries rows of units that are initialised at the blocks' starts over the statements: then each tells of the units before its block's
/// terminator.
pub fn to_ends(units: &BodyUnits, blocks: &[Block], rows: &mut BitRows)
    requires few { length blocks.now < 2 ^ 30 }
    requires size { HasSize rows.old (length blocks.now) (length units.now.places) }
    ensures size { HasSize rows.new (length blocks.now) (length units.now.places) }
    ensures rows { (trees : List Tree) (i : ℕ) → i < length blocks.now → row_at rows.new i ≡ each_unit (passed_stmts true (block_at (map (block_of trees) blocks.now) i).stmts) units.now.places (row_at rows.old i) }
{
    let passing = Passing {
        units,
        status: true,
    };
    for (at, block) in blocks.iter().enumerate() {
        passing.pass_stmts(block.stmts.as_slice(), rows, at as u32);
    }
}

/// Which units are initialised at the blocks' starts of a body whose edges lead to its blocks. In a block to which no path leads none may be,
/// and each surely is.
///
/// # Errors
///
/// `OutOfMemory`.
pub fn inits(alloc: Global, program: &Program, body: &Body) -> Result<InitRows, OutOfMemory>
    requires knows { KnowsDrops program.now }
    requires ids { IdsInTable program.now }
    requires body_ids { BodyInTable program.now.types body.now }
    requires closed { Closed (terms_of body.now) }
    requires some_block { 0 < length body.now.blocks }
    requires few_blocks { length body.now.blocks < 2 ^ 30 }
    requires few_locals { length body.now.locals < 2 ^ 30 }
    ensures units { IfOk result (λ rows. rows.units.places ≡ units_of_body (shapes_of (crate_of program.now)) (body_of (trees_of program.now.types) body.now)) }
    ensures maybe_size { IfOk result (λ rows. HasSize rows.maybe (length body.now.blocks) (length rows.units.places)) }
    ensures maybe { IfOk result (λ rows. (i k : ℕ) (u : Place) → i < length body.now.blocks → slice_get rows.units.places k ≡ Some u → IsTrue (flag rows.maybe i k) ↔ MaybeAt (body_of (trees_of program.now.types) body.now) u i) }
    ensures sure_size { IfOk result (λ rows. HasSize rows.sure (length body.now.blocks) (length rows.units.places)) }
    ensures sure { IfOk result (λ rows. (i k : ℕ) (u : Place) → i < length body.now.blocks → slice_get rows.units.places k ≡ Some u → IsTrue (flag rows.sure i k) ↔ SurelyAt (body_of (trees_of program.now.types) body.now) u i) }
{
    let units = units(alloc, program, body)?;
    let edges = onward_edges(alloc, body)?;
    let begins = Passing {
        units: &units,
        status: true,
    };
    let ends = Passing {
        units: &units,
        status: false,
    };
    let begun = begins.ends(alloc, body)?;
    let ended = ends.ends(alloc, body)?;
    let edges = edges.as_slice();
    let maybe = may_have(alloc, body, &units, edges, true, &begun, &ended)?;
    let unsure = may_have(alloc, body, &units, edges, false, &ended, &begun)?;
    let sure = turned_over(alloc, &unsure, body.blocks.len() as u32, units.len())?;
    Ok(InitRows { units, maybe, sure })
}
