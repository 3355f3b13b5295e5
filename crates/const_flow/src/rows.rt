ghost use Rattle.std.specs.Prelude.{◌≡◌, ◌<◌, ◌*◌, ◌^◌, None, Some, map, length, get_or, option_map, MatchOption, IfOk};
ghost use Rattle.std.specs.List.{All};
ghost use Rattle.mir_syntax.specs.Drops.{KnowsDrops};
ghost use Rattle.mir_syntax.specs.Ids.{IdsInTable, BodyInTable};
ghost use Rattle.mir_syntax.specs.Tree.{trees_of};
ghost use Rattle.mir_syntax.specs.Crate.{crate_of, body_of};
ghost use Rattle.mir_syntax.specs.Shapes.{shapes_of};
ghost use Rattle.mir_cfg.specs.Paths.{terms_of, Closed};
ghost use Rattle.const_flow.specs.declared.cell.Cell.TheVariants.{Many};
ghost use Rattle.const_flow.specs.ConstAt.{tracked, const_at};
ghost use Rattle.const_flow.specs.Cells.{facts_of, reached_of, told};
ghost use Rattle.const_flow.specs.Compact.{reached_in, IsCompact};
ghost use Rattle.const_flow.specs.Nodes.{at_starts, cells_of, IsRow};

use crate::cell::{Cell, Known};
use crate::edges::edges;
use crate::effects::Walk;
use crate::facts::Facts;
use crate::flow::{ConstFlow, copied};
use crate::sight::Sight;
use escape_info::address_taken;
use flow_engine::solve;
use mir_syntax::{Body, List, OutOfMemory, Program};
use place_map::{PathMap, paths};
use std::alloc::Global;
use std::marker::Model;

/// What is known of the tracked places at the start of each block: a row of cells for each block that is reached, one row after another.
#[derive(Drop)]
pub struct ConstRows {
    paths: PathMap,
    /// Of each block where its row begins. `None` where the block is unreached.
    rows: List<Option<usize>>,
    cells: List<Cell>,
}

// Contracts see of each block the facts at its start, or none where it is unreached.
impl Model for ConstRows {
    ghost use Rattle.std.specs.Prelude as prelude;
    ghost use Rattle.const_flow.specs.ConstAt.{Reached};
    ghost use Rattle.const_flow.specs.Compact.{reached_in, IsCompact};

    ghost Value = { prelude.List Reached };

    ghost view = { λ made. prelude.map (reached_in made.paths made.cells) made.rows };

    ghost invariant = { λ made. IsCompact made.paths made.cells made.rows };
}

/// The rows at the starts of so many blocks, one after another, of the facts at their nodes.
fn gathered(
    alloc: Global,
    paths: PathMap,
    blocks: usize,
    facts: &[Option<List<Cell>>],
) -> Result<ConstRows, OutOfMemory>
    requires nodes { length facts.now ≡ 3 * blocks }
    requires rows { All (IsRow paths) facts.now }
    ensures { IfOk result (λ rows. rows ≡ map (reached_of paths) (at_starts facts.now)) }
{
    let mut rows = List::with_capacity(alloc, blocks)?;
    let mut cells = List::new(alloc);
    for block in 0..blocks {
        let Some(row) = &facts[3 * block + 1] else {
            rows.push(None)?;
            continue;
        };
        rows.push(Some(cells.len()))?;
        cells.extend(row.as_slice())?;
    }
    Ok(ConstRows { paths, rows, cells })
}

/// What is known of the tracked places at the nodes of each block.
fn solved(
    alloc: Global,
    program: &Program,
    body: &Body,
    paths: &PathMap,
) -> Result<List<Option<List<Cell>>>, OutOfMemory>
    requires closed { Closed (terms_of body.now) }
    requires few_blocks { length body.now.blocks < 2 ^ 30 }
    requires places { paths.now ≡ tracked (shapes_of (crate_of program.now)) (body_of (trees_of program.now.types) body.now) }
    ensures nodes { IfOk result (λ facts. length facts ≡ 3 * length body.now.blocks) }
    ensures rows { IfOk result (λ facts. All (IsRow paths.now) facts) }
    ensures starts { IfOk result (λ facts. map (reached_of paths.now) (at_starts facts) ≡ const_at (shapes_of (crate_of program.now)) (body_of (trees_of program.now.types) body.now)) }
{
    let edges = edges(alloc, body.blocks.as_slice())?;
    let blocks = body.blocks.len() as u32;
    let flow = ConstFlow {
        sight: Sight {
            program,
            body,
            paths,
        },
        edges,
    };
    solve(alloc, &flow, 3 * blocks, flow.edges.as_slice())
}

/// What is known at the start of each block, as the least solution of the flow of constants.
///
/// # Errors
///
/// `OutOfMemory`.
pub fn consts(alloc: Global, program: &Program, body: &Body) -> Result<ConstRows, OutOfMemory>
    requires knows { KnowsDrops program.now }
    requires ids { IdsInTable program.now }
    requires body_ids { BodyInTable program.now.types body.now }
    requires closed { Closed (terms_of body.now) }
    requires some_block { 0 < length body.now.blocks }
    requires few_blocks { length body.now.blocks < 2 ^ 30 }
    requires few_locals { length body.now.locals < 2 ^ 30 }
    ensures { IfOk result (λ rows. rows ≡ const_at (shapes_of (crate_of program.now)) (body_of (trees_of program.now.types) body.now)) }
{
    let taken = address_taken(alloc, program, body)?;
    let paths = paths(alloc, program, body, &taken)?;
    let facts = solved(alloc, program, body, &paths)?;
    gathered(alloc, paths, body.blocks.len(), facts.as_slice())
}

/// The cells at a block's start. `None` where the block is unreached, and where there is no such block.
fn row<'a>(
    paths: &PathMap,
    rows: &[Option<usize>],
    cells: &'a [Cell],
    block: u32,
) -> Option<&'a [Cell]>
    requires { IsCompact paths.now cells.now rows.now }
    ensures length { MatchOption result (Unit {0}) (λ row. length row.now ≡ length paths.now) }
    ensures facts { MatchOption result (get_or (map (reached_in paths.now cells.now) rows.now) block None ≡ None) (λ row. get_or (map (reached_in paths.now cells.now) rows.now) block None ≡ Some (facts_of paths.now row.now)) }
{
    let Some(Some(from)) = rows.get(block as usize) else {
        return None;
    };
    Some(&cells[*from..*from + paths.len() as usize])
}

impl ConstRows {
    /// What is known at the start of a block of the tracked place with a number: anything may be where there is no such place. A block that isn't
    /// there is unreached.
    pub fn at(&self, block: u32, path: u32) -> Known
        ensures { result ≡ told (option_map (λ fs. get_or (cells_of fs) path Many) (get_or self.now block None)) }
    {
        let rows = self.rows.as_slice();
        let Some(cells) = row(&self.paths, rows, self.cells.as_slice(), block) else {
            return Known::Unreached;
        };
        match cells.get(path as usize) {
            Some(cell) => Known::of(*cell),
            None => Known::Many,
        }
    }

    /// What is known at the start of a block, to be carried over its statements.
    ///
    /// # Errors
    ///
    /// `OutOfMemory`.
    pub fn facts(&self, alloc: Global, block: u32) -> Result<Facts<'_>, OutOfMemory>
        ensures { IfOk result (λ facts. facts ≡ get_or self.now block None) }
    {
        let rows = self.rows.as_slice();
        let walk = match row(&self.paths, rows, self.cells.as_slice(), block) {
            Some(cells) => Some(Walk {
                cells: copied(alloc, cells)?,
                fresh: List::new(alloc),
            }),
            None => None,
        };
        Ok(Facts {
            alloc,
            paths: &self.paths,
            walk,
        })
    }
}
