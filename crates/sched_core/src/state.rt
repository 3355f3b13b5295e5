//! The core's fields: a row for each worker, a status for each query.
ghost use Rattle.std.specs.Prelude.{◌≡◌, ◌≢◌, ℕ, ◌+◌, ◌<◌, ◌≤◌, List, [], ◌∷◌, length, slice_get, slice_index_or, Some, None, MatchOption, true, false, OnOk, OnErr, IfOk, IfErr};
ghost use Rattle.sched_core.specs.Table.{is_root};

use crate::rows::{blank_rows, empty_rows, filled, make_room, top_of};
use crate::{Event, Illegal, Jobs, Status};
use mir_syntax::OutOfMemory;
use std::alloc::Global;

/// A claimed query, with what it was given.
#[derive(Drop)]
pub(crate) struct Standing {
    pub query: u32,
    pub given: Vec<u32>,
}

/// Which query has which status, and for each worker the claimed queries, what it borrows, saw, waits for and drew.
#[derive(Drop)]
pub struct Core {
    pub(crate) alloc: Global,
    pub(crate) status: Vec<Status>,
    // The top is last.
    pub(crate) stacks: Vec<Vec<Standing>>,
    pub(crate) borrow: Vec<Option<u32>>,
    pub(crate) seen: Vec<Vec<bool>>,
    pub(crate) gone: Vec<Vec<bool>>,
    pub(crate) wait: Vec<Option<u32>>,
    pub(crate) root: Vec<Option<u32>>,
    // The next need of the top, where it was told since the top or its given list last changed.
    pub(crate) told: Vec<Option<Option<u32>>>,
    pub(crate) drawn: u32,
}

pub(crate) fn is_a_root<J: Jobs>(jobs: &J, q: u32) -> bool
    ensures { result ≡ is_root (J.plan jobs.now).root (J.plan jobs.now).roots q }
{
    for i in 0..jobs.roots() {
        if jobs.root(i) == q {
            return true;
        }
    }
    false
}

impl Core {
    ghost use Rattle.sched_core.specs.Plan.{Plan, IsLawful};
    ghost use Rattle.sched_core.specs.State.{next, after, Legal, start};
    ghost use Rattle.sched_core.specs.Good.{Good};
    ghost use Rattle.sched_core.specs.Table.{why};
    ghost use Rattle.sched_core.specs.Shown.{state_of, stack_of, row_at, IsSized, IsTold, GoodFor, Happens, worker_of, moves_top};

    /// Does the event, or tells the first reason why it isn't legal, and then the core is as before. Takes no memory.
    ///
    /// The worker of the event was told its next need (`tell`) since its top or what the top was given last changed.
    ///
    /// # Errors
    ///
    /// `Illegal` with the event and the first reason against it (`why`).
    pub fn step<J: Jobs>(&mut self, jobs: &J, event: Event) -> Result<(), Illegal>
        requires core { GoodFor (J.plan jobs.now) self.old }
        requires told { IsTold (J.plan jobs.now) self.old (worker_of event) }
        ensures core { GoodFor (J.plan jobs.now) self.new }
        ensures ok { OnOk result (Legal (J.plan jobs.now) (state_of self.old) event × (state_of self.new ≡ after (J.plan jobs.now) (state_of self.old) event)) }
        ensures illegal { IfErr result (λ no. (why (J.plan jobs.now) (state_of self.old) event ≡ Some no.why) × (no.event ≡ event) × (self.new ≡ self.old)) }
        ensures told { (v : ℕ) → (v ≡ worker_of event → moves_top event ≡ false) → IsTold (J.plan jobs.now) self.old v → IsTold (J.plan jobs.now) self.new v }
    {
        if let Some(why) = self.why(jobs, event) {
            return Err(Illegal { event, why });
        }
        self.act(jobs, event);
        Ok(())
    }

    /// A core with nothing claimed, seen or drawn, for lawful jobs and 1 to 64 workers.
    ///
    /// # Errors
    ///
    /// `OutOfMemory`.
    pub fn new<J: Jobs>(alloc: Global, jobs: &J, workers: u32) -> Result<Core, OutOfMemory>
        requires jobs { IsLawful (J.plan jobs.now) }
        requires workers { (1 ≤ workers) × (workers ≤ 64) }
        ensures { IfOk result (λ core. GoodFor (J.plan jobs.now) core × (state_of core ≡ start workers)) }
    {
        let queries = jobs.queries() as usize;
        let rows = workers as usize;
        Ok(Core {
            alloc,
            status: filled(alloc, Status::Unclaimed, queries)?,
            stacks: empty_rows(alloc, rows)?,
            borrow: filled(alloc, None, rows)?,
            seen: blank_rows(alloc, rows, queries)?,
            gone: blank_rows(alloc, rows, queries)?,
            wait: filled(alloc, None, rows)?,
            root: filled(alloc, None, rows)?,
            told: filled(alloc, None, rows)?,
            drawn: 0,
        })
    }

    /// Tells the core the next need of a worker's top, which depends on answers that a core doesn't hold, and makes room for one more given need.
    ///
    /// After an error the core is as before.
    ///
    /// # Errors
    ///
    /// `OutOfMemory`.
    pub fn tell(&mut self, worker: u32, need: Option<u32>) -> Result<(), OutOfMemory>
        requires { (worker < length self.old.stacks.items) × (worker < length self.old.told.items) }
        ensures state { state_of self.new ≡ state_of self.old }
        ensures core { OnOk result ((p : Plan) → need ≡ next p (state_of self.old) worker → GoodFor p self.old → GoodFor p self.new) }
        ensures told { OnOk result ((p : Plan) → need ≡ next p (state_of self.old) worker → IsTold p self.new worker) }
        ensures others { (p : Plan) (v : ℕ) → v ≢ worker → IsTold p self.old v → IsTold p self.new v }
        ensures err { OnErr result ((p : Plan) → (GoodFor p self.old → GoodFor p self.new) × (IsTold p self.old worker → IsTold p self.new worker)) }
    {
        match make_room(&mut self.stacks[worker as usize]) {
            Ok(()) => {
                self.told[worker as usize] = Some(need);
                Ok(())
            }
            Err(no) => Err(no),
        }
    }

    // The query of the worker's top.
    pub(crate) fn top(&self, w: u32) -> Option<u32>
        requires { w < length self.now.stacks.items }
        ensures { MatchOption result ((state_of self.now).stack w ≡ []) (λ q. (given : List ℕ) × (es : List (ℕ × List ℕ)) × ((state_of self.now).stack w ≡ (q, given) ∷ es)) }
    {
        top_of(&self.stacks[w as usize])
    }

    // A legal event happens.
    pub(crate) fn act<J: Jobs>(&mut self, jobs: &J, event: Event)
        requires core { GoodFor (J.plan jobs.now) self.old }
        requires told { IsTold (J.plan jobs.now) self.old (worker_of event) }
        requires legal { Legal (J.plan jobs.now) (state_of self.old) event }
        ensures { Happens (J.plan jobs.now) self.old self.new event }
    {
        match event {
            Event::Claim(w, q) => self.put_claim(w, q),
            Event::Look(w, q) => self.put_look(w, q),
            Event::Borrow(w, s) => {
                let count = self.borrowers(s) + 1;
                self.put_borrow(w, s, count)
            }
            Event::Release(w, s) => {
                let count = self.borrowers(s) - 1;
                self.put_release(w, s, count)
            }
            Event::Steal(w, s) => self.put_steal(w, s),
            Event::Publish(w) => match self.top(w) {
                Some(q) => self.put_publish(w, q),
                None => unreachable!(),
            },
            Event::Fail(w) => match self.top(w) {
                Some(q) => self.put_fail(w, q),
                None => unreachable!(),
            },
            Event::Draw(w) => {
                if self.drawn >= jobs.roots() {
                    unreachable!();
                }
                self.put_draw(w, jobs.root(self.drawn))
            }
        }
    }

    // The worker's next need, as it was told, or its drawn root.
    pub(crate) fn next<J: Jobs>(&self, jobs: &J, w: u32) -> Option<u32>
        requires sized { IsSized (J.plan jobs.now) self.now }
        requires worker { w < length self.now.borrow.items }
        requires told { IsTold (J.plan jobs.now) self.now w }
        ensures { result ≡ next (J.plan jobs.now) (state_of self.now) w }
    {
        let _ = jobs;
        if self.stacks[w as usize].is_empty() {
            self.root[w as usize]
        } else {
            match self.told[w as usize] {
                Some(need) => need,
                None => None,
            }
        }
    }
}
