ghost use Rattle.std.specs.Prelude.{◌≡◌, ◌<◌};
ghost use Rattle.move_paths.specs.Facts.{IsSized};

use bit_rows::BitRows;
use flow_engine::{Analysis, Edge};
use mir_syntax::OutOfMemory;
use std::alloc::Global;

/// Which units may have a status, as a flow problem. A fact is one row, of the units that may have it at a block's start: along an edge those
/// go that have another status at the end of the block where it begins, and those come that have this one.
#[derive(Drop)]
pub(crate) struct StatusFlow<'a> {
    pub blocks: u32,
    pub bits: u32,
    pub edges: &'a [Edge],
    pub first: &'a BitRows,
    pub gens: &'a BitRows,
    pub kills: &'a BitRows,
    pub ghost sized: { IsSized blocks bits edges.now first.now gens.now kills.now },
}

impl Analysis for StatusFlow<'_> {
    ghost use Rattle.bit_rows.specs.Rows.{HasSize};
    ghost use Rattle.liveness.specs.Facts.{IsBelow, count_ones, joined as joined_rows};
    ghost use Rattle.move_paths.specs.Facts.{begun as begun_row, sent as sent_row};
    ghost use Rattle.move_paths.specs.Lattice.{status_lawful};

    type Fact = BitRows;

    ghost is_fact = { λ a x. HasSize x 1 a.bits };

    ghost below = { λ a x y. IsBelow a.bits x y };

    ghost begun = { λ a b. begun_row a.bits a.first.now b };

    ghost joined = { λ a x y. joined_rows x y };

    ghost sent = { λ a i x. sent_row a.bits a.edges.now a.gens.now a.kills.now i x };

    ghost rank = { λ a x. count_ones x };

    ghost most = { λ a. a.bits };

    fn start(&self, alloc: Global, block: u32) -> Result<BitRows, OutOfMemory> {
        let mut row = BitRows::new(alloc, 1, self.bits)?;
        if block == 0 {
            row.copy_other(0, self.first, 0);
            return Ok(row);
        }
        Ok(row)
    }

    fn join(
        &self,
        _alloc: Global,
        into: &mut BitRows,
        from: &BitRows,
    ) -> Result<bool, OutOfMemory> {
        Ok(into.or_other(0, from, 0))
    }

    fn flow(&self, alloc: Global, edge: usize, fact: &BitRows) -> Result<BitRows, OutOfMemory> {
        let mut row = BitRows::new(alloc, 1, self.bits)?;
        let Some(edge) = self.edges.get(edge) else {
            return Ok(row);
        };
        row.copy_other(0, fact, 0);
        row.minus_other(0, self.kills, edge.from);
        row.or_other(0, self.gens, edge.from);
        Ok(row)
    }

    fn height(&self) -> u64 {
        u64::from(self.bits)
    }

    ghost lawful = { λ a. status_lawful a.blocks a.bits a.edges.now a.first.now a.gens.now a.kills.now a.sized };
}
