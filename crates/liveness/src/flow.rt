ghost use Rattle.std.specs.Prelude.{◌≡◌, ◌<◌};
ghost use Rattle.liveness.specs.Facts.{IsSized};

use bit_rows::BitRows;
use flow_engine::{Analysis, Edge};
use mir_syntax::{List, OutOfMemory};
use std::alloc::Global;

/// Live locals as a flow problem: facts go from a block to those that go to it. A fact is one row, of the locals that are live before the
/// block's first statement.
#[derive(Drop)]
pub(crate) struct LiveFlow {
    pub blocks: u32,
    pub bits: u32,
    pub edges: List<Edge>,
    pub gens: BitRows,
    pub kills: BitRows,
    pub ghost sized: { IsSized blocks bits edges gens kills },
}

impl Analysis for LiveFlow {
    ghost use Rattle.std.specs.Prelude.{ℕ};
    ghost use Rattle.bit_rows.specs.Rows.{HasSize};
    ghost use Rattle.liveness.specs.Facts.{IsBelow, count_ones, begun as begun_row, joined as joined_rows, sent as sent_row};
    ghost use Rattle.liveness.specs.Lattice.{live_lawful};

    type Fact = BitRows;

    ghost is_fact = { λ a x. HasSize x 1 a.bits };

    ghost below = { λ a x y. IsBelow a.bits x y };

    ghost begun = { λ a b. begun_row a.blocks a.bits a.gens b };

    ghost joined = { λ a x y. joined_rows x y };

    ghost sent = { λ a i x. sent_row a.bits a.edges a.gens a.kills i x };

    ghost rank = { λ a x. count_ones x };

    ghost most = { λ a. a.bits };

    fn start(&self, alloc: Global, block: u32) -> Result<BitRows, OutOfMemory> {
        let mut row = BitRows::new(alloc, 1, self.bits)?;
        if block < self.blocks {
            row.copy_other(0, &self.gens, block);
            return Ok(row);
        }
        Ok(row)
    }

    fn join(
        &self,
        _alloc: Global,
        into: &mut BitRows,
        from: &BitRows,
    ) -> Result<bool, OutOfMemory> {
        Ok(into.or_other(0, from, 0))
    }

    fn flow(&self, alloc: Global, edge: usize, fact: &BitRows) -> Result<BitRows, OutOfMemory> {
        let mut row = BitRows::new(alloc, 1, self.bits)?;
        let Some(edge) = self.edges.get(edge) else {
            return Ok(row);
        };
        row.copy_other(0, fact, 0);
        row.minus_other(0, &self.kills, edge.to);
        row.or_other(0, &self.gens, edge.to);
        Ok(row)
    }

    fn height(&self) -> u64 {
        u64::from(self.bits)
    }

    ghost lawful = { λ a. live_lawful a.blocks a.bits a.edges a.gens a.kills a.sized };
}
