//! The units of a body, and where those of each local stand among them.
ghost use Rattle.std.specs.Prelude.{◌≡◌, ◌<◌, ◌^◌, set, length, IfOk};
ghost use Rattle.bit_rows.specs.Rows.{row_at};
ghost use Rattle.mir_syntax.specs.Tree.{trees_of};
ghost use Rattle.mir_syntax.specs.Ids.{IdsInTable, BodyInTable};
ghost use Rattle.mir_syntax.specs.Drops.{KnowsDrops};
ghost use Rattle.mir_syntax.specs.Crate.{crate_of, body_of};
ghost use Rattle.mir_syntax.specs.Shapes.{shapes_of};
ghost use Rattle.move_paths.specs.Effects.{in_local, units_of_body};
ghost use Rattle.move_paths.specs.Rows.{written, each_unit, IsSpanned};

use crate::effects::is_under_path;
use crate::search::{Search, find_units};
use bit_rows::BitRows;
use mir_syntax::{Body, List, OutOfMemory, Place, Program, Proj};
use std::alloc::Global;

/// The numbers from `from` up to but not `to`.
#[derive(Clone, Copy, Drop)]
pub struct Span {
    pub from: usize,
    pub to: usize,
}

/// The units of a body, in their order, and of each local the numbers of its own.
#[derive(Drop)]
pub struct BodyUnits {
    pub places: List<Place>,
    pub spans: List<Span>,
    pub ghost spanned: { IsSpanned places spans },
    pub ghost few: { length places < 2 ^ 32 },
}

impl BodyUnits {
    /// How many units there are.
    pub fn len(&self) -> u32
        ensures { result ≡ length self.now.places }
    {
        self.places.len() as u32
    }

    /// Writes the bits of the units at or under a place: that of a local at a path. The row has one for each unit.
    pub(crate) fn write_under(
        &self,
        local: u32,
        path: &[Proj],
        on: bool,
        rows: &mut BitRows,
        row: u32,
    )
        requires within { row < length rows.old }
        requires bits { length (row_at rows.old row) ≡ length self.now.places }
        ensures { rows.new ≡ set rows.old row (each_unit (written (in_local local path.now) on) self.now.places (row_at rows.old row)) }
    {
        let Some(span) = self.spans.get(local as usize) else {
            return;
        };
        let places = self.places.as_slice();
        for at in span.from..span.to {
            let unit = &places[at];
            if is_under_path(local, path, unit) {
                rows.write(row, at as u32, on);
            }
        }
    }
}

/// The units of a body.
pub(crate) fn units(alloc: Global, program: &Program, body: &Body) -> Result<BodyUnits, OutOfMemory>
    requires knows { KnowsDrops program.now }
    requires ids { IdsInTable program.now }
    requires body_ids { BodyInTable program.now.types body.now }
    requires few_locals { length body.now.locals < 2 ^ 30 }
    ensures { IfOk result (λ units. units.places ≡ units_of_body (shapes_of (crate_of program.now)) (body_of (trees_of program.now.types) body.now)) }
{
    let mut search = Search {
        local: 0,
        path: List::new(alloc),
        places: List::new(alloc),
    };
    let mut spans = List::new(alloc);
    for (local, id) in body.locals.as_slice().iter().enumerate() {
        let from = search.places.len();
        search.local = local as u32;
        find_units(&mut search, alloc, program, program.defs.len(), *id)?;
        let to = search.places.len();
        spans.push(Span { from, to })?;
    }
    if u32::try_from(search.places.len()).is_err() {
        return Err(OutOfMemory);
    }
    Ok(BodyUnits {
        places: search.places,
        spans,
    })
}
