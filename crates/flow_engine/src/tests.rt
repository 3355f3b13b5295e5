ghost use Rattle.flow_engine.specs.Greatest.{greatest_lawful, starts_at};
ghost use Rattle.std.specs.Prelude.{ℕ, ◌≡◌, ◌≤◌, max};

use crate::{Analysis, Edge, solve};
use mir_syntax::OutOfMemory;
use std::alloc::Global;
use std::test::Fail;

/// Each block has the greatest number that comes to it; block 0 starts with 3 and edges keep what they carry.
struct Greatest;

impl Analysis for Greatest {
    type Fact = u8;

    ghost is_fact = { λ _ x. x ≤ 3 };

    ghost below = { λ _ x y. x ≤ y };

    ghost begun = { λ _ b. starts_at b };

    ghost joined = { λ _ x y. max x y };

    ghost sent = { λ _ i x. x };

    ghost rank = { λ _ x. x };

    ghost most = { λ _. 3 };

    fn start(&self, _alloc: Global, block: u32) -> Result<u8, OutOfMemory> {
        Ok(if block == 0 { 3 } else { 0 })
    }

    fn join(&self, _alloc: Global, into: &mut u8, from: &u8) -> Result<bool, OutOfMemory> {
        if *into < *from {
            *into = *from;
            return Ok(true);
        }
        Ok(false)
    }

    fn flow(&self, _alloc: Global, _edge: usize, fact: &u8) -> Result<u8, OutOfMemory> {
        Ok(*fact)
    }

    fn height(&self) -> u64 {
        3
    }

    ghost lawful = { λ _. greatest_lawful };
}

#[test]
fn facts_reach_the_end_of_a_chain(rt: HostRuntime) -> Result<(), Fail> {
    let edges = [
        Edge { from: 1, to: 2 },
        Edge { from: 0, to: 1 },
        Edge { from: 2, to: 1 },
    ];
    let facts = solve(rt.alloc(), &Greatest, 4, edges.as_slice())?;
    assert_eq!(rt; facts.as_slice(), [3, 3, 3, 0].as_slice());
    Ok(())
}
