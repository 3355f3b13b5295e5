//! The schedule of queries over workers, as pure steps: who may claim, look at, borrow, steal or publish what, and when.
//!
//! A set of jobs (`Jobs`) is seen as a plan (`specs/Plan.antt`): queries, roots, needs in their order, and which slot a query steals.
//! The state of the core and what each event does to it stand in `specs/State.antt`, the first reason against an event in
//! `specs/Table.antt`, what holds of the core between any two events (`Good`) in `specs/Good.antt`, and the turn of a worker in
//! `specs/Turn.antt`. The main contracts are the laws of `laws` (each legal event keeps `Good`, no stolen slot is read, waits are never
//! circular, turns are legal and some turn goes on), `Core::step` (an event happens exactly where it is legal), and `weave` (for
//! every schedule it returns, with the roots' defined answers and the events of the schedule's turns).
#![tactic(auto)]

ghost use Rattle.sched_core.specs.Plan.{Plan, next_need, has};
ghost use Rattle.std.specs.Prelude.{◌≡◌, ◌≢◌, ◌<◌, ℕ, true, List, [], ◌∷◌, ◌++◌, Some, None, IfOk, OnOk, MatchOption};

use mir_syntax::OutOfMemory;

mod effects;
mod laws;
mod loom;
mod reasons;
mod rows;
mod state;
#[cfg(test)]
mod tests;
mod turn;

pub use laws::{
    events_keep_good, new_core_is_good, no_reason_is_legal, no_stolen_slot_is_read, ripeness_shows,
    some_turn_goes_on, turns_are_legal, waits_are_never_circular, what_goes_on_leaves_less,
};
pub use loom::{Woven, weave};
pub use state::Core;

/// What can be asked, what each query needs and steals, and how it is answered. Queries are the numbers below `queries`.
///
/// `Core::new`, `weave` and the table of words ask of the jobs that they are handed that their plan is lawful (`IsLawful` of
/// `specs/Plan.antt`). It is asked of these jobs alone, not of every value of the type: jobs may carry it as a fact of their own. Its laws
/// range over all numbers, also those that are no query and no root: a plan needs and steals nothing past its queries.
pub trait Jobs: Sync {
    /// What a query is answered with.
    type Answer: Drop + Send + Sync;
    /// A query that is being answered, with what it was given.
    type Work: Drop + Send;

    // What is asked, in numbers.
    ghost plan: { Self → Plan };

    // The defined answer of each query.
    ghost out: { Self → ℕ → Self.Answer };

    // The work is one that was begun for this query.
    ghost is_work: { Self → ℕ → Self.Work → Type 0 };

    // The needs that a work of this query was given, in order.
    ghost given: { Self → ℕ → Self.Work → List ℕ };

    /// How many queries there are.
    fn queries(&self) -> u32
        ensures { result ≡ (plan self.now).queries };

    /// How many roots there are: the queries whose answers are wanted.
    fn roots(&self) -> u32
        ensures { result ≡ (plan self.now).roots };

    /// The query of root `i`.
    fn root(&self, i: u32) -> u32
        requires { i < (plan self.now).roots }
        ensures { result ≡ (plan self.now).root i };

    /// The slot that the query steals: its last need, which is looked at and not given. `None` where it steals none.
    fn steals(&self, q: u32) -> Option<u32>
        requires { q < (plan self.now).queries }
        ensures { result ≡ (plan self.now).steals q };

    /// Begins to answer the query.
    fn begin(&self, q: u32) -> Result<Self::Work, OutOfMemory>
        requires { q < (plan self.now).queries }
        ensures { IfOk result (λ work. is_work self.now q work × (given self.now q work ≡ [])) };

    /// The next need that the work wasn't given. `None` where it was given all.
    fn next(&self, q: u32, work: &Self::Work) -> Option<u32>
        requires { (q < (plan self.now).queries) × is_work self.now q work.now }
        ensures { result ≡ next_need ((plan self.now).needs q) (given self.now q work.now) };

    /// Gives the work the answer of its next need. After an error the work can only be dropped.
    fn give(
        &self,
        q: u32,
        work: &mut Self::Work,
        need: u32,
        answer: &Self::Answer,
    ) -> Result<(), OutOfMemory>
        requires work { (q < (plan self.now).queries) × is_work self.now q work.old }
        requires need { (next_need ((plan self.now).needs q) (given self.now q work.old) ≡ Some need) × ((plan self.now).steals q ≢ Some need) }
        requires answer { answer.now ≡ out self.now need }
        ensures { OnOk result (is_work self.now q work.new × (given self.now q work.new ≡ given self.now q work.old ++ need ∷ [])) };

    /// Answers the query, once every need was given but the slot that it steals, whose answer it takes.
    fn finish(
        &self,
        q: u32,
        work: Self::Work,
        taken: Option<Self::Answer>,
    ) -> Result<Self::Answer, OutOfMemory>
        requires work { (q < (plan self.now).queries) × is_work self.now q work }
        requires needs { (n : ℕ) → has n ((plan self.now).needs q) ≡ true → (plan self.now).steals q ≢ Some n → has n (given self.now q work) ≡ true }
        requires taken { MatchOption ((plan self.now).steals q) (taken ≡ None) (λ s. taken ≡ Some (out self.now s)) }
        ensures { IfOk result (λ answer. answer ≡ out self.now q) };
}

/// What has become of a query.
#[derive(Clone, Copy, Debug, PartialEq, Eq)]
pub enum Status {
    /// No worker works at it, and it has no answer.
    Unclaimed,
    /// This worker answers it.
    Claimed(u32),
    /// It has an answer, with so many borrowers.
    Done(u32),
    /// It was given up, and has no answer.
    Failed,
    /// Its answer was taken away.
    Stolen,
}

/// One step of a worker, which is the first number. The second is a query.
#[derive(Clone, Copy, Debug, PartialEq, Eq)]
pub enum Event {
    /// The worker begins to answer its next need.
    Claim(u32, u32),
    /// The worker sees whether the query is done or failed, and else waits for it.
    Look(u32, u32),
    /// The worker begins to read the answer of its next need.
    Borrow(u32, u32),
    /// The worker ends its borrow: its top was given that need.
    Release(u32, u32),
    /// The worker takes the answer that its top steals.
    Steal(u32, u32),
    /// The worker's top is answered.
    Publish(u32),
    /// The worker gives its top up.
    Fail(u32),
    /// The worker is given the next root.
    Draw(u32),
}

/// Why an event isn't legal.
#[derive(Clone, Copy, Debug, PartialEq, Eq)]
pub enum Why {
    /// The query, or the slot that a publishing top steals, has this status.
    Status(Status),
    /// This query isn't the worker's next need, or this number is no query's or no worker's.
    NotTop(u32),
    /// This need of the top isn't seen or isn't given.
    Unseen(u32),
    /// The worker borrows this slot, or of a release, it doesn't.
    Holds(u32),
    /// The worker still works at this query.
    Busy(u32),
    /// So many roots were drawn, and none is left.
    NoRoot(u32),
}

/// An event that didn't happen, and the first reason.
#[derive(Clone, Copy, Debug, PartialEq, Eq)]
pub struct Illegal {
    /// The event.
    pub event: Event,
    /// The first reason against it.
    pub why: Why,
}
