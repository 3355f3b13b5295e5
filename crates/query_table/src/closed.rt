//! The end of a table: the roots' answers.
ghost use Rattle.std.specs.Prelude.{◌≡◌, ℕ, ◌<◌, [], true, None, IfOk};

use crate::table::{QueryTable, Seat};
use mir_syntax::{List, OutOfMemory};
use sched_core::Jobs;
use std::alloc::Global;
use std::marker::Model;
use std::sync::Wait;

/// The jobs of a table that was closed once each root was done, with the roots' answers. Only `QueryTable::answers` makes one.
#[derive(Drop)]
pub struct Closed<J: Jobs> {
    jobs: J,
    answers: List<J::Answer>,
}

// Contracts see it as the jobs: the answers are the defined ones.
impl<J: Jobs> Model for Closed<J> {
    ghost use Rattle.std.specs.Prelude.{◌≡◌};
    ghost use Rattle.sched_core.specs.Held.{roots_answers};

    ghost Value = { J };

    ghost view = { λ c. c.jobs };

    ghost invariant = { λ c. c.answers ≡ roots_answers (J.out c.jobs) (J.plan c.jobs) 0 (J.plan c.jobs).roots };
}

impl<J: Jobs> Closed<J> {
    ghost use Rattle.sched_core.specs.Held.{roots_answers};

    /// The jobs, and the roots' answers in their order.
    pub fn into_parts(self) -> (J, List<J::Answer>)
        ensures jobs { result.0 ≡ self }
        ensures answers { result.1 ≡ roots_answers (J.out self) (J.plan self) 0 (J.plan self).roots }
    {
        let Closed { jobs, answers } = self;
        (jobs, answers)
    }
}

impl<J: Jobs + Drop> QueryTable<J> {
    ghost use Rattle.query_table.specs.Answers.{IsSeatOf};
    ghost use Rattle.sched_core.specs.Plan.{has};

    /// Closes the table and gives the jobs back with the roots' answers. The seat has seen every root done, and holds neither a claim nor a
    /// borrow.
    ///
    /// # Errors
    ///
    /// `OutOfMemory`.
    pub fn answers<R: Wait>(
        self,
        rt: &R,
        alloc: Global,
        seat: Seat,
    ) -> Result<Closed<J>, OutOfMemory>
        requires seat { IsSeatOf self.0 seat }
        requires seen { (i : ℕ) → i < (J.plan self.1).roots → has ((J.plan self.1).root i) seat.token.me.0.seen ≡ true }
        requires empty { seat.token.me.0.stack ≡ [] }
        requires free { seat.token.me.0.borrow ≡ None }
        ensures { IfOk result (λ closed. closed ≡ self.1) }
    {
        let _ = seat;
        let (slots, jobs) = self.into_slots();
        let mut answers = List::new(alloc);
        for i in 0..jobs.roots() {
            answers.push(slots.take(rt, jobs.root(i)))?;
        }
        Ok(Closed { jobs, answers })
    }
}
