//! Whether an event is legal: the first reason against it, read off the fields.
ghost use Rattle.std.specs.Prelude.{◌≡◌, ℕ, ◌<◌, length, slice_get, IfSome, Some, None};

use crate::rows::{is_some_of, marked};
use crate::state::{Core, is_a_root};
use crate::{Event, Jobs, Status, Why};

impl Core {
    ghost use Rattle.sched_core.specs.Plan.{Plan};
    ghost use Rattle.sched_core.specs.State.{is, done};
    ghost use Rattle.sched_core.specs.Shown.{state_of, IsSized, IsTold, GoodFor, row_at, worker_of};
    ghost use Rattle.sched_core.specs.Table.{why, within, why_claim, why_look, why_borrow, why_steal, or_else, is_free, why_publish, why_fail, why_draw, holds_none, taken, unless};
    ghost use Rattle.sched_core.specs.Turn.{ripe};

    // Whether all needs of the top are seen, by its next need.
    pub(crate) fn is_ripe(&self, w: u32, need: Option<u32>, steals: Option<u32>) -> bool
        requires worker { w < length self.now.seen.items }
        requires need { IfSome need (λ n. n < length (row_at (slice_get self.now.seen.items w))) }
        ensures { result ≡ ripe need steals ((state_of self.now).seen w) }
    {
        match need {
            None => true,
            Some(n) => is_some_of(steals, n) && marked(&self.seen[w as usize], n),
        }
    }

    // What the worker borrows is a reason.
    pub(crate) fn held(&self, w: u32) -> Option<Why>
        requires { w < length self.now.borrow.items }
        ensures { result ≡ holds_none ((state_of self.now).borrow w) }
    {
        match self.borrow[w as usize] {
            Some(s) => Some(Why::Holds(s)),
            None => None,
        }
    }

    // A slot that is to be stolen and isn't is a reason.
    pub(crate) fn untaken(&self, steals: Option<u32>) -> Option<Why>
        requires { IfSome steals (λ s. s < length self.now.status.items) }
        ensures { result ≡ taken (state_of self.now) steals }
    {
        match steals {
            None => None,
            Some(s) => match self.status[s as usize] {
                Status::Stolen => None,
                other => Some(Why::Status(other)),
            },
        }
    }

    // The first reason why a publish isn't legal.
    pub(crate) fn why_publish<J: Jobs>(&self, jobs: &J, w: u32) -> Option<Why>
        requires core { GoodFor (J.plan jobs.now) self.now }
        requires worker { w < length self.now.borrow.items }
        requires told { IsTold (J.plan jobs.now) self.now w }
        ensures { result ≡ why_publish (J.plan jobs.now) (state_of self.now) w ((state_of self.now).stack w) }
    {
        let Some(q) = self.top(w) else {
            return Some(Why::NotTop(w));
        };
        let need = self.next(jobs, w);
        let steals = jobs.steals(q);
        if !self.is_ripe(w, need, steals) {
            return Some(Why::Unseen(need.unwrap_or(0)));
        }
        match self.held(w) {
            Some(why) => Some(why),
            None => self.untaken(steals),
        }
    }

    // The first reason why a claim isn't legal.
    pub(crate) fn why_claim<J: Jobs>(&self, jobs: &J, w: u32, q: u32) -> Option<Why>
        requires sized { IsSized (J.plan jobs.now) self.now }
        requires worker { w < length self.now.borrow.items }
        requires query { q < (J.plan jobs.now).queries }
        requires told { IsTold (J.plan jobs.now) self.now w }
        ensures { result ≡ why_claim (J.plan jobs.now) (state_of self.now) w q }
    {
        if !is_some_of(self.next(jobs, w), q) {
            return Some(Why::NotTop(q));
        }
        match self.status[q as usize] {
            Status::Unclaimed => None,
            other => Some(Why::Status(other)),
        }
    }

    // The first reason why a release isn't legal.
    pub(crate) fn why_release(&self, w: u32, s: u32) -> Option<Why>
        requires { w < length self.now.borrow.items }
        ensures { result ≡ unless (is ((state_of self.now).borrow w) s) (Why.Holds s) }
    {
        if is_some_of(self.borrow[w as usize], s) {
            None
        } else {
            Some(Why::Holds(s))
        }
    }

    // The first reason why a failure isn't legal.
    pub(crate) fn why_fail(&self, w: u32) -> Option<Why>
        requires { (w < length self.now.borrow.items) × (w < length self.now.stacks.items) }
        ensures { result ≡ why_fail (state_of self.now) w ((state_of self.now).stack w) }
    {
        match self.top(w) {
            None => Some(Why::NotTop(w)),
            Some(_) => self.held(w),
        }
    }

    // The first reason why a draw isn't legal.
    pub(crate) fn why_draw<J: Jobs>(&self, jobs: &J, w: u32) -> Option<Why>
        requires sized { IsSized (J.plan jobs.now) self.now }
        requires worker { w < length self.now.borrow.items }
        requires rooted { IfSome ((state_of self.now).root w) (λ r. r < (J.plan jobs.now).queries) }
        ensures { result ≡ why_draw (J.plan jobs.now) (state_of self.now) w ((state_of self.now).stack w) ((state_of self.now).root w) }
    {
        if let Some(q) = self.top(w) {
            return Some(Why::Busy(q));
        }
        if let Some(r) = self.root[w as usize] {
            if !(marked(&self.seen[w as usize], r) || marked(&self.gone[w as usize], r)) {
                return Some(Why::Busy(r));
            }
        }
        if self.drawn < jobs.roots() {
            None
        } else {
            Some(Why::NoRoot(self.drawn))
        }
    }

    // The first reason why a look isn't legal.
    pub(crate) fn why_look<J: Jobs>(&self, jobs: &J, w: u32, q: u32) -> Option<Why>
        requires sized { IsSized (J.plan jobs.now) self.now }
        requires worker { w < length self.now.borrow.items }
        requires query { q < (J.plan jobs.now).queries }
        requires told { IsTold (J.plan jobs.now) self.now w }
        ensures { result ≡ why_look (J.plan jobs.now) (state_of self.now) w q }
    {
        let is_next = is_some_of(self.next(jobs, w), q);
        let bare = self.top(w).is_none();
        if !(is_next || bare && is_a_root(jobs, q)) {
            return Some(Why::NotTop(q));
        }
        match self.status[q as usize] {
            Status::Claimed(v) if v == w => Some(Why::Status(Status::Claimed(v))),
            _ => None,
        }
    }

    // The later reasons of a borrow, which name no top.
    pub(crate) fn why_lent(&self, w: u32, s: u32) -> Option<Why>
        requires worker { (w < length self.now.borrow.items) × (w < length self.now.seen.items) }
        requires query { (s < length (row_at (slice_get self.now.seen.items w))) × (s < length self.now.status.items) }
        ensures { result ≡ or_else (unless ((state_of self.now).seen w s) (Why.Unseen s)) (or_else (holds_none ((state_of self.now).borrow w)) (unless (done ((state_of self.now).status s)) (Why.Status ((state_of self.now).status s)))) }
    {
        if !marked(&self.seen[w as usize], s) {
            return Some(Why::Unseen(s));
        }
        if let Some(why) = self.held(w) {
            return Some(why);
        }
        match self.status[s as usize] {
            Status::Done(_) => None,
            other => Some(Why::Status(other)),
        }
    }

    // A slot that isn't done without borrowers is a reason against a steal.
    pub(crate) fn why_free(&self, s: u32) -> Option<Why>
        requires { s < length self.now.status.items }
        ensures { result ≡ unless (is_free ((state_of self.now).status s)) (Why.Status ((state_of self.now).status s)) }
    {
        match self.status[s as usize] {
            Status::Done(0) => None,
            other => Some(Why::Status(other)),
        }
    }

    // The first reason why a borrow isn't legal.
    pub(crate) fn why_borrow<J: Jobs>(&self, jobs: &J, w: u32, s: u32) -> Option<Why>
        requires core { GoodFor (J.plan jobs.now) self.now }
        requires worker { w < length self.now.borrow.items }
        requires query { s < (J.plan jobs.now).queries }
        requires told { IsTold (J.plan jobs.now) self.now w }
        ensures { result ≡ why_borrow (J.plan jobs.now) (state_of self.now) w s ((state_of self.now).stack w) }
    {
        let Some(q) = self.top(w) else {
            return Some(Why::NotTop(s));
        };
        let is_next = is_some_of(self.next(jobs, w), s);
        let is_stolen = is_some_of(jobs.steals(q), s);
        if is_next && !is_stolen {
            self.why_lent(w, s)
        } else {
            Some(Why::NotTop(s))
        }
    }

    // The first reason why a steal isn't legal.
    pub(crate) fn why_steal<J: Jobs>(&self, jobs: &J, w: u32, s: u32) -> Option<Why>
        requires core { GoodFor (J.plan jobs.now) self.now }
        requires worker { w < length self.now.borrow.items }
        requires query { s < (J.plan jobs.now).queries }
        requires told { IsTold (J.plan jobs.now) self.now w }
        ensures { result ≡ why_steal (J.plan jobs.now) (state_of self.now) w s ((state_of self.now).stack w) }
    {
        let Some(q) = self.top(w) else {
            return Some(Why::NotTop(s));
        };
        let need = self.next(jobs, w);
        let steals = jobs.steals(q);
        if !is_some_of(steals, s) {
            return Some(Why::NotTop(s));
        }
        if self.is_ripe(w, need, steals) {
            self.why_free(s)
        } else {
            Some(Why::Unseen(need.unwrap_or(0)))
        }
    }

    // A number that is no worker's is a reason.
    pub(crate) fn no_worker(&self, w: u32) -> Option<Why>
        ensures { result ≡ within w (length self.now.borrow.items) }
    {
        if (w as usize) < self.borrow.len() {
            None
        } else {
            Some(Why::NotTop(w))
        }
    }

    // A number out of range is a reason, the worker's first.
    pub(crate) fn outside(&self, w: u32, q: u32) -> Option<Why>
        ensures { result ≡ or_else (within w (length self.now.borrow.items)) (within q (length self.now.status.items)) }
    {
        if let Some(why) = self.no_worker(w) {
            return Some(why);
        }
        if (q as usize) < self.status.len() {
            None
        } else {
            Some(Why::NotTop(q))
        }
    }

    // The first reason why an event isn't legal.
    pub(crate) fn why<J: Jobs>(&self, jobs: &J, event: Event) -> Option<Why>
        requires core { GoodFor (J.plan jobs.now) self.now }
        requires told { worker_of event < length self.now.borrow.items → IsTold (J.plan jobs.now) self.now (worker_of event) }
        ensures { result ≡ why (J.plan jobs.now) (state_of self.now) event }
    {
        match event {
            Event::Claim(w, q) => {
                if let Some(why) = self.outside(w, q) {
                    return Some(why);
                }
                self.why_claim(jobs, w, q)
            }
            Event::Look(w, q) => {
                if let Some(why) = self.outside(w, q) {
                    return Some(why);
                }
                self.why_look(jobs, w, q)
            }
            Event::Borrow(w, s) => {
                if let Some(why) = self.outside(w, s) {
                    return Some(why);
                }
                self.why_borrow(jobs, w, s)
            }
            Event::Release(w, s) => {
                if let Some(why) = self.outside(w, s) {
                    return Some(why);
                }
                self.why_release(w, s)
            }
            Event::Steal(w, s) => {
                if let Some(why) = self.outside(w, s) {
                    return Some(why);
                }
                self.why_steal(jobs, w, s)
            }
            Event::Publish(w) => {
                if let Some(why) = self.no_worker(w) {
                    return Some(why);
                }
                self.why_publish(jobs, w)
            }
            Event::Fail(w) => {
                if let Some(why) = self.no_worker(w) {
                    return Some(why);
                }
                self.why_fail(w)
            }
            Event::Draw(w) => {
                if let Some(why) = self.no_worker(w) {
                    return Some(why);
                }
                self.why_draw(jobs, w)
            }
        }
    }

    pub(crate) fn is_done(&self, q: u32) -> bool
        requires { q < length self.now.status.items }
        ensures { result ≡ done ((state_of self.now).status q) }
    {
        matches!(self.status[q as usize], Status::Done(_))
    }
}
