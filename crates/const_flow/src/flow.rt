ghost use Rattle.std.specs.Prelude.{◌≡◌, ◌≢◌, ℕ, ◌↔◌, ◌+◌, ◌<◌, ◌^◌, map, length, slice_get, Some, true, false, Contains, IsTrue, IfOk};
ghost use Rattle.mir_syntax.specs.Crate.{block_of};
ghost use Rattle.mir_syntax.specs.Parts.{targets};
ghost use Rattle.mir_cfg.specs.Paths.{terms_of};
ghost use Rattle.flow_engine.specs.declared.edges.Edge.{Edge as EdgeData};
ghost use Rattle.const_flow.specs.Facts.{after_all};
ghost use Rattle.const_flow.specs.Nodes.{is_edge, body_in, sent_out, begun, cells_of, row_of, IsRow, join_cells};
ghost use Rattle.const_flow.specs.Sights.{text_in, trees_in, facts_in};

use crate::cell::Cell;
use crate::effects::{Walk, leads};
use crate::sight::Sight;
use flow_engine::{Analysis, Edge};
use mir_syntax::{Block, List, OutOfMemory, Term};
use std::alloc::Global;

/// Constants that are known, as a flow problem. Each block has three nodes side by side: its end on the way to targets up to it, its start, and its
/// end on the way to targets behind it. A fact is a cell for each tracked place, and none where the node is unreached.
#[derive(Drop)]
pub(crate) struct ConstFlow<'a> {
    pub sight: Sight<'a>,
    pub edges: List<Edge>,
    pub ghost all_edges: { (i : ℕ) (e : EdgeData) → slice_get edges i ≡ Some e → IsTrue (is_edge (length sight.body.now.blocks) (terms_of sight.body.now) e) },
}

pub(crate) fn copied(alloc: Global, cells: &[Cell]) -> Result<List<Cell>, OutOfMemory>
    ensures { IfOk result (λ copy. copy ≡ cells.now) }
{
    let mut copy = List::with_capacity(alloc, cells.len())?;
    copy.extend(cells)?;
    Ok(copy)
}

/// What is known at a block's end, of what is known at its start.
fn gone_over(
    alloc: Global,
    sight: Sight<'_>,
    cells: &[Cell],
    block: &Block,
) -> Result<List<Cell>, OutOfMemory>
    requires { length cells.now ≡ length sight.paths.now }
    ensures { IfOk result (λ end. end ≡ cells_of (after_all (text_in sight.entry) (block_of (trees_in sight.entry) block.now).stmts (facts_in sight.entry cells.now))) }
{
    let mut walk = Walk {
        cells: copied(alloc, cells)?,
        fresh: List::new(alloc),
    };
    walk.pass_all(alloc, sight, block.stmts.as_slice())?;
    Ok(walk.cells)
}

/// What a terminator sends to one of its targets, of what is known before it.
fn sent_out(
    alloc: Global,
    sight: Sight<'_>,
    cells: &[Cell],
    term: &Term,
    to: u32,
) -> Result<Option<List<Cell>>, OutOfMemory>
    requires cells { length cells.now ≡ length sight.paths.now }
    requires target { Contains (targets term.now) to }
    ensures { IfOk result (λ sent. sent ≡ row_of (sent_out term.now to (Some (facts_in sight.entry cells.now)))) }
{
    if !leads(sight, cells, term, to) {
        return Ok(None);
    }
    let mut walk = Walk {
        cells: copied(alloc, cells)?,
        fresh: List::new(alloc),
    };
    walk.leave(sight, term);
    Ok(Some(walk.cells))
}

/// What is known of the tracked places where the body begins.
fn first_cells(alloc: Global, sight: Sight<'_>) -> Result<List<Cell>, OutOfMemory>
    ensures { IfOk result (λ cells. Some cells ≡ row_of (begun (body_in sight.entry) sight.entry.paths.now 1)) }
{
    let places = sight.paths.places();
    let mut cells = List::new(alloc);
    for place in places {
        let is_argument = place.local != 0 && place.local <= sight.body.args;
        cells.push(if is_argument {
            Cell::Many
        } else {
            Cell::Nothing
        })?;
    }
    Ok(cells)
}

fn is_same(a: Cell, b: Cell) -> bool
    ensures same { result ≡ true → a ≡ b }
    ensures other { result ≡ false → a ≢ b }
{
    a == b
}

/// Joins cells to others, and tells whether one of them changed.
fn join_cells(into: &mut [Cell], from: &[Cell]) -> bool
    requires { length from.now ≡ length into.old }
    ensures joined { into.new ≡ join_cells into.old from.now }
    ensures changed { IsTrue result ↔ (into.new ≢ into.old) }
{
    let mut changed = false;
    for (at, cell) in from.iter().enumerate() {
        let joined = into[at].join(*cell);
        changed |= !is_same(joined, into[at]);
        into[at] = joined;
    }
    changed
}

impl Analysis for ConstFlow<'_> {
    ghost use Rattle.const_flow.specs.Order.{BelowReached, rank, height};
    ghost use Rattle.const_flow.specs.ConstAt.{join_reached};
    ghost use Rattle.const_flow.specs.Cells.{reached_of};
    ghost use Rattle.const_flow.specs.Nodes as nodes;
    ghost use Rattle.const_flow.specs.Carried.{BelowAs, started_as, joined_as, sent_as, rank_as};
    ghost use Rattle.const_flow.specs.Lattice.{const_lawful};

    type Fact = Option<List<Cell>>;

    ghost is_fact = { λ a. IsRow a.sight.paths.now };

    ghost below = { λ a. BelowAs (IsRow a.sight.paths.now) BelowReached (reached_of a.sight.paths.now) };

    ghost begun = { λ a. started_as row_of (nodes.begun (body_in a.sight) a.sight.paths.now) };

    ghost joined = { λ a. joined_as (reached_of a.sight.paths.now) row_of join_reached };

    ghost sent = { λ a. sent_as (reached_of a.sight.paths.now) row_of (nodes.flown (text_in a.sight) (body_in a.sight).blocks a.edges) };

    ghost rank = { λ a. rank_as (reached_of a.sight.paths.now) rank };

    ghost most = { λ a. height a.sight.paths.now };

    fn start(&self, alloc: Global, node: u32) -> Result<Option<List<Cell>>, OutOfMemory> {
        if node == 1 {
            return Ok(Some(first_cells(alloc, self.sight)?));
        }
        Ok(None)
    }

    fn join(
        &self,
        alloc: Global,
        into: &mut Option<List<Cell>>,
        from: &Option<List<Cell>>,
    ) -> Result<bool, OutOfMemory> {
        let Some(from) = from else {
            return Ok(false);
        };
        let Some(into) = into else {
            *into = Some(copied(alloc, from.as_slice())?);
            return Ok(true);
        };
        Ok(join_cells(into.as_mut_slice(), from.as_slice()))
    }

    fn flow(
        &self,
        alloc: Global,
        edge: usize,
        fact: &Option<List<Cell>>,
    ) -> Result<Option<List<Cell>>, OutOfMemory> {
        let (Some(edge), Some(cells)) = (self.edges.get(edge), fact) else {
            return Ok(None);
        };
        let blocks = self.sight.body.blocks.as_slice();
        let block = &blocks[(edge.from / 3) as usize];
        if edge.from % 3 == 1 {
            let end = gone_over(alloc, self.sight, cells.as_slice(), block)?;
            return Ok(Some(end));
        }
        sent_out(
            alloc,
            self.sight,
            cells.as_slice(),
            &block.term,
            edge.to / 3,
        )
    }

    fn height(&self) -> u64 {
        2 * u64::from(self.sight.paths.len()) + 1
    }

    ghost lawful = { λ a. const_lawful (text_in a.sight) (body_in a.sight) a.sight.paths.now a.edges };
}
