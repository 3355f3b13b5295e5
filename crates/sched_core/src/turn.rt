//! The turn of a worker: which event it does, read off the fields.
ghost use Rattle.std.specs.Prelude.{◌≡◌, ℕ, ◌<◌, length, slice_get, Some, None, IfSome};

use crate::rows::{is_some_of, marked};
use crate::state::Core;
use crate::{Event, Jobs, Status};

impl Core {
    ghost use Rattle.sched_core.specs.Plan.{Plan};
    ghost use Rattle.sched_core.specs.State.{is};
    ghost use Rattle.sched_core.specs.Shown.{state_of, row_at, IsSized, IsTold, GoodFor};
    ghost use Rattle.sched_core.specs.Turn.{turn, turn_empty, turn_need, claim_or_look, ended};

    // The event of the worker's turn. `None` where it passes.
    pub(crate) fn turn<J: Jobs>(&self, jobs: &J, w: u32) -> Option<Event>
        requires core { GoodFor (J.plan jobs.now) self.now }
        requires worker { w < length self.now.borrow.items }
        requires told { IsTold (J.plan jobs.now) self.now w }
        ensures { result ≡ turn (J.plan jobs.now) (state_of self.now) w }
    {
        if let Some(s) = self.borrow[w as usize] {
            return Some(Event::Release(w, s));
        }
        let Some(q) = self.top(w) else {
            return self.turn_empty(jobs, w);
        };
        let steals = jobs.steals(q);
        match self.next(jobs, w) {
            Some(need) => Some(self.turn_need(w, need, steals)),
            None => Some(self.ended(w, steals)),
        }
    }

    // The turn of a worker with an empty stack.
    fn turn_empty<J: Jobs>(&self, jobs: &J, w: u32) -> Option<Event>
        requires sized { IsSized (J.plan jobs.now) self.now }
        requires worker { w < length self.now.borrow.items }
        requires root { IfSome ((state_of self.now).root w) (λ r. r < (J.plan jobs.now).queries) }
        ensures { result ≡ turn_empty (J.plan jobs.now) (state_of self.now) w ((state_of self.now).root w) }
    {
        if let Some(r) = self.root[w as usize] {
            if !marked(&self.seen[w as usize], r) {
                return Some(self.begin_or_look(w, r));
            }
        }
        if self.drawn < jobs.roots() {
            Some(Event::Draw(w))
        } else {
            None
        }
    }

    // A claim of what is unclaimed, else a look.
    fn begin_or_look(&self, w: u32, q: u32) -> Event
        requires { q < length self.now.status.items }
        ensures { result ≡ claim_or_look (state_of self.now) w q }
    {
        match self.status[q as usize] {
            Status::Unclaimed => Event::Claim(w, q),
            _ => Event::Look(w, q),
        }
    }

    // The turn of a top whose next need is q.
    fn turn_need(&self, w: u32, q: u32, steals: Option<u32>) -> Event
        requires worker { w < length self.now.seen.items }
        requires query { (q < length self.now.status.items) × (q < length (row_at (slice_get self.now.seen.items w))) }
        requires steals { IfSome steals (λ s. s < length self.now.status.items) }
        ensures { result ≡ turn_need (state_of self.now) w q steals (ended (state_of self.now) w steals) }
    {
        if let Status::Unclaimed = self.status[q as usize] {
            return Event::Claim(w, q);
        }
        if !marked(&self.seen[w as usize], q) {
            return Event::Look(w, q);
        }
        if is_some_of(steals, q) {
            self.ended(w, steals)
        } else {
            Event::Borrow(w, q)
        }
    }

    // The end of a top: it steals first, where it steals a slot that isn't stolen yet.
    fn ended(&self, w: u32, steals: Option<u32>) -> Event
        requires { IfSome steals (λ s. s < length self.now.status.items) }
        ensures { result ≡ ended (state_of self.now) w steals }
    {
        match steals {
            None => Event::Publish(w),
            Some(s) => match self.status[s as usize] {
                Status::Stolen => Event::Publish(w),
                _ => Event::Steal(w, s),
            },
        }
    }
}
