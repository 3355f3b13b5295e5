//! Small jobs, over which the table is tried. Queries 2 and 3 are the roots; both read query 1, which reads query 0, and query 3 steals
//! query 0 (`specs/Small.antt`). A query's answer is made of what it reads and steals, and of its number. The main contracts are those of
//! `Jobs`; that the plan is lawful is a fact that each `Small` carries.
#![tactic(auto)]

#[cfg(test)]
mod tests;

ghost use Rattle.std.specs.Prelude.{◌≡◌, ◌≢◌, ◌<◌, ℕ, true, Some, None, IfOk, MatchOption};
ghost use Rattle.sched_core.specs.Plan.{IsLawful, has};
ghost use Rattle.small_jobs.specs.Small.{small_plan, small_needs, small_steals, small_out, given_of, added};

use mir_syntax::OutOfMemory;
use sched_core::Jobs;

/// Four queries, each of which answers what it reads, what it steals and 5 more than its number, added up.
#[derive(Drop)]
pub struct Small {
    /// The query that runs out of memory, if any.
    pub fails: Option<u32>,
    // What query 3 reads.
    thief_reads: u32,
    ghost lawful: { ∥ IsLawful (small_plan thief_reads) ∥₁ },
}

/// The work of a query: whether it was given what it reads, and the answer of that.
#[derive(Drop)]
pub struct Reading {
    given: bool,
    read: u32,
}

impl Small {
    /// The jobs, of which this query, if any, runs out of memory.
    #[tactic(auto, using(crate::proofs::Laws::small_carry, crate::proofs::Laws::small_lawful))]
    pub fn new(fails: Option<u32>) -> Small
        ensures fails { result.fails ≡ fails }
        ensures lawful { IsLawful (small_plan result.thief_reads) }
    {
        Small {
            fails,
            thief_reads: 1,
        }
    }
}

impl Jobs for Small {
    type Answer = u32;

    type Work = Reading;

    ghost plan = { λ s. small_plan s.thief_reads };

    ghost out = { λ s q. small_out q };

    ghost is_work = { λ s q w. w.read ≡ added (given_of s.thief_reads q w.given) };

    ghost given = { λ s q w. given_of s.thief_reads q w.given };

    fn queries(&self) -> u32 {
        4
    }

    fn roots(&self) -> u32 {
        2
    }

    fn root(&self, i: u32) -> u32 {
        i + 2
    }

    fn steals(&self, q: u32) -> Option<u32> {
        if q == 3 { Some(0) } else { None }
    }

    fn begin(&self, _q: u32) -> Result<Reading, OutOfMemory> {
        Ok(Reading {
            given: false,
            read: 0,
        })
    }

    fn next(&self, q: u32, work: &Reading) -> Option<u32> {
        match (q, work.given) {
            (1, false) => Some(0),
            (2, false) => Some(1),
            (3, false) => Some(self.thief_reads),
            (3, true) => Some(0),
            _ => None,
        }
    }

    fn give(
        &self,
        _q: u32,
        work: &mut Reading,
        _need: u32,
        answer: &u32,
    ) -> Result<(), OutOfMemory> {
        work.given = true;
        work.read = *answer;
        Ok(())
    }

    fn finish(&self, q: u32, work: Reading, taken: Option<u32>) -> Result<u32, OutOfMemory>
        requires work { (q < 4) × (work.read ≡ added (given_of self.now.thief_reads q work.given)) }
        requires needs { (n : ℕ) → has n (small_needs self.now.thief_reads q) ≡ true → small_steals q ≢ Some n → has n (given_of self.now.thief_reads q work.given) ≡ true }
        requires taken { MatchOption (small_steals q) (taken ≡ None) (λ s. taken ≡ Some (small_out s)) }
        ensures { IfOk result (λ answer. answer ≡ small_out q) }
    {
        if self.fails == Some(q) {
            return Err(OutOfMemory);
        }
        Ok(work.read + taken.unwrap_or(0) + q + 5)
    }
}
