//! Forcing a root: claims are kept in a list, and each turn looks at the next need of the latest one.
ghost use Rattle.std.specs.Prelude.{◌≡◌, ◌≢◌, ℕ, ◌<◌, List, [], ◌∷◌, true, false, Some, None, OnOk, OnErr, MatchOption, vec_len};
ghost use Rattle.sched_core.specs.Plan.{IsLawful, has};
ghost use Rattle.sched_core.specs.State.{next_of_top};

use crate::gate::Gate;
use crate::table::{Claimed, Looked, QueryTable, Seat};
use crate::token::Claim;
use mir_syntax::OutOfMemory;
use sched_core::Jobs;
use std::alloc::Global;
use std::sync::Wait;
use std::thread;

/// A claim and the work of its query.
struct Held<J: Jobs> {
    claim: Claim,
    work: J::Work,
}

/// What a turn on the way to a root comes to.
enum Progress {
    On,
    /// The root is done.
    Done,
    /// Some query that is needed failed, or memory ran out.
    Failed,
}

impl<J: Jobs> QueryTable<J> {
    ghost use Rattle.query_table.specs.Chain.{Matches, HeldAs, ClaimedAs, IsForcing, IsGivingUp, IsIdle, IsTurn};

    /// The next need of the latest claim, or the root where nothing is claimed.
    fn next_need(&self, seat: &Seat, chain: &[Held<J>], q: u32) -> Option<u32>
        requires { Matches (λ h e. HeldAs (J.plan self.now.1) (J.is_work self.now.1) (J.given self.now.1) self.now.0 h.claim h.work e) seat.now.token.me.0.stack chain.now }
        ensures need { result ≡ next_of_top (J.plan self.now.1) seat.now.token.me.0.stack (Some q) }
        ensures lawful { IsLawful (J.plan self.now.1) }
    {
        let _ = seat;
        match chain.last() {
            Some(held) => self.jobs.next(held.claim.query(), &held.work),
            None => Some(q),
        }
    }

    /// Gives all claims up, from the latest to the first.
    fn fail_all(&self, seat: &mut Seat, chain: &mut Vec<Held<J>>, q: u32)
        requires seat { IsGivingUp self.now.0 q seat.old }
        requires chain { Matches (λ h e. ClaimedAs self.now.0 (J.plan self.now.1).queries h.claim e) seat.old.token.me.0.stack chain.old.items }
        ensures seat { IsIdle self.now.0 seat.new }
        ensures failed { has q seat.new.token.me.0.gone ≡ true }
        ensures drawn { seat.new.token.me.0.drawn ≡ seat.old.token.me.0.drawn }
        ensures chain { chain.new.items ≡ [] }
    {
        let _ = q;
        while let Some(held) = chain.pop() {
            let Held { claim, work: _ } = held;
            self.fail(seat, claim);
        }
    }

    /// Claims the next need, which was found unclaimed, and begins its work.
    fn try_claim<R: Wait, G: Gate>(
        &self,
        rt: &R,
        seat: &mut Seat,
        gate: &G,
        chain: &mut Vec<Held<J>>,
        q: u32,
        need: u32,
    ) -> Progress
        requires seat { IsForcing (J.plan self.now.1) self.now.0 q seat.old }
        requires chain { Matches (λ h e. HeldAs (J.plan self.now.1) (J.is_work self.now.1) (J.given self.now.1) self.now.0 h.claim h.work e) seat.old.token.me.0.stack chain.old.items }
        requires query { need < (J.plan self.now.1).queries }
        requires next { next_of_top (J.plan self.now.1) seat.old.token.me.0.stack (Some q) ≡ Some need }
        ensures turn { IsTurn (J.plan self.now.1) (J.is_work self.now.1) (J.given self.now.1) (λ h. h.claim) (λ h. h.work) self.now.0 q seat.new chain.new.items result }
        ensures drawn { seat.new.token.me.0.drawn ≡ seat.old.token.me.0.drawn }
    {
        let claim = match self.claim(seat, need) {
            Claimed::Won(claim) => claim,
            Claimed::Lost(_) => return Progress::On,
        };
        gate.claimed(rt, seat.worker(), need);
        let Ok(work) = self.jobs.begin(need) else {
            self.fail(seat, claim);
            return Progress::Failed;
        };
        if chain.reserve(1).is_err() {
            self.fail(seat, claim);
            return Progress::Failed;
        }
        chain.push_reserved(Held { claim, work });
        Progress::On
    }
}

impl<J: Jobs> QueryTable<J> {
    ghost use Rattle.std.specs.Prelude.{◌++◌, ◌⊎◌, vec_capacity};
    ghost use Rattle.query_table.specs.Steps.{AllSeenAs};
    ghost use Rattle.query_table.specs.Answers.{IsSeatOf, IsClaimOf};
    ghost use Rattle.query_table.specs.Chain.{Matches, HeldAs, IsForcing, IsTurn, HasTaken};

    /// Gives the work of the latest claim, which was taken from the list, the answer of its next need, and puts it back.
    fn read<R: Wait>(
        &self,
        rt: &R,
        seat: &mut Seat,
        chain: &mut Vec<Held<J>>,
        held: Held<J>,
        q: u32,
        need: u32,
    ) -> Progress
        requires seat { IsForcing (J.plan self.now.1) self.now.0 q seat.old }
        requires chain { Matches (λ h e. HeldAs (J.plan self.now.1) (J.is_work self.now.1) (J.given self.now.1) self.now.0 h.claim h.work e) seat.old.token.me.0.stack (chain.old.items ++ held ∷ []) }
        requires room { vec_len chain.old < vec_capacity chain.old }
        requires next { next_of_top (J.plan self.now.1) seat.old.token.me.0.stack (Some q) ≡ Some need }
        requires kept { (J.plan self.now.1).steals held.claim.query ≢ Some need }
        requires seen { has need seat.old.token.me.0.seen ≡ true }
        ensures turn { IsTurn (J.plan self.now.1) (J.is_work self.now.1) (J.given self.now.1) (λ h. h.claim) (λ h. h.work) self.now.0 q seat.new chain.new.items result }
        ensures drawn { seat.new.token.me.0.drawn ≡ seat.old.token.me.0.drawn }
    {
        let Held { claim, mut work } = held;
        let borrow = self.borrow(seat, &claim, need);
        let shown = self.show(rt, &borrow);
        let given = self.jobs.give(claim.query, &mut work, need, shown.get());
        shown.leave();
        self.release(seat, borrow);
        chain.push_reserved(Held { claim, work });
        match given {
            Ok(()) => Progress::On,
            Err(_) => Progress::Failed,
        }
    }

    /// Steals the slot that the claim's query steals, if any, and takes its answer out.
    fn take_stolen<R: Wait>(&self, rt: &R, seat: &mut Seat, claim: &Claim) -> Option<J::Answer>
        requires seat { IsSeatOf self.now.0 seat.old }
        requires claim { IsClaimOf self.now.0 (J.plan self.now.1).queries claim.now }
        requires top { (given : List ℕ) × ((rest : List (ℕ × List ℕ)) × ((seat.old.token.me.0.stack ≡ (claim.now.query, given) ∷ rest) × AllSeenAs (J.plan self.now.1) seat.old.token.me.0 claim.now.query given)) }
        requires thieves { seat.old.token.me.0.thieves ≡ [] }
        ensures seat { IsSeatOf self.now.0 seat.new }
        ensures view { HasTaken (J.plan self.now.1) seat.old.token.me.0 seat.new.token.me.0 claim.now.query }
        ensures taken { MatchOption ((J.plan self.now.1).steals claim.now.query) (result ≡ None) (λ s. result ≡ Some (J.out self.now.1 s)) }
    {
        let Some(slot) = self.jobs.steals(claim.query()) else {
            return None;
        };
        let stolen = self.steal(seat, claim, slot);
        Some(self.take(rt, stolen))
    }

    /// Answers the latest claim, which was taken from the list and needs no more answers but the one that it steals.
    fn answer<R: Wait, G: Gate>(
        &self,
        rt: &R,
        seat: &mut Seat,
        gate: &G,
        chain: &mut Vec<Held<J>>,
        held: Held<J>,
        q: u32,
    ) -> Progress
        requires seat { IsForcing (J.plan self.now.1) self.now.0 q seat.old }
        requires chain { Matches (λ h e. HeldAs (J.plan self.now.1) (J.is_work self.now.1) (J.given self.now.1) self.now.0 h.claim h.work e) seat.old.token.me.0.stack (chain.old.items ++ held ∷ []) }
        requires seen { AllSeenAs (J.plan self.now.1) seat.old.token.me.0 held.claim.query (J.given self.now.1 held.claim.query held.work) }
        ensures turn { IsTurn (J.plan self.now.1) (J.is_work self.now.1) (J.given self.now.1) (λ h. h.claim) (λ h. h.work) self.now.0 q seat.new chain.new.items result }
        ensures drawn { seat.new.token.me.0.drawn ≡ seat.old.token.me.0.drawn }
    {
        let Held { mut claim, work } = held;
        let query = claim.query;
        let taken = self.take_stolen(rt, seat, &claim);
        let Ok(answer) = self.jobs.finish(query, work, taken) else {
            self.fail(seat, claim);
            return Progress::Failed;
        };
        self.put(rt, &mut claim, answer);
        self.publish(seat, claim);
        gate.published(rt, seat.worker(), query);
        if chain.is_empty() {
            Progress::Done
        } else {
            Progress::On
        }
    }

    /// The need, unless the query steals it.
    fn to_read(&self, query: u32, need: Option<u32>) -> Option<u32>
        requires { query < (J.plan self.now.1).queries }
        ensures read { MatchOption result ((need ≡ None) ⊎ ((J.plan self.now.1).steals query ≡ need)) (λ n. (need ≡ Some n) × ((J.plan self.now.1).steals query ≢ Some n)) }
        ensures lawful { IsLawful (J.plan self.now.1) }
    {
        let steals = self.jobs.steals(query);
        let Some(need) = need else {
            return None;
        };
        match steals {
            Some(slot) => { if slot == need { None } else { Some(need) } }
            None => Some(need),
        }
    }

    /// Reads the next need, which was seen done, or answers the latest claim where there is none to read.
    fn go_on<R: Wait, G: Gate>(
        &self,
        rt: &R,
        seat: &mut Seat,
        gate: &G,
        chain: &mut Vec<Held<J>>,
        q: u32,
        need: Option<u32>,
    ) -> Progress
        requires seat { IsForcing (J.plan self.now.1) self.now.0 q seat.old }
        requires chain { Matches (λ h e. HeldAs (J.plan self.now.1) (J.is_work self.now.1) (J.given self.now.1) self.now.0 h.claim h.work e) seat.old.token.me.0.stack chain.old.items }
        requires next { next_of_top (J.plan self.now.1) seat.old.token.me.0.stack (Some q) ≡ need }
        requires seen { (n : ℕ) → need ≡ Some n → has n seat.old.token.me.0.seen ≡ true }
        ensures turn { IsTurn (J.plan self.now.1) (J.is_work self.now.1) (J.given self.now.1) (λ h. h.claim) (λ h. h.work) self.now.0 q seat.new chain.new.items result }
        ensures drawn { seat.new.token.me.0.drawn ≡ seat.old.token.me.0.drawn }
    {
        let Some(held) = chain.pop() else {
            return Progress::Done;
        };
        match self.to_read(held.claim.query, need) {
            Some(need) => self.read(rt, seat, chain, held, q, need),
            None => self.answer(rt, seat, gate, chain, held, q),
        }
    }

    /// One turn on the way to the root.
    fn advance<R: Wait, G: Gate>(
        &self,
        rt: &R,
        seat: &mut Seat,
        gate: &G,
        chain: &mut Vec<Held<J>>,
        q: u32,
    ) -> Progress
        requires seat { IsForcing (J.plan self.now.1) self.now.0 q seat.old }
        requires chain { Matches (λ h e. HeldAs (J.plan self.now.1) (J.is_work self.now.1) (J.given self.now.1) self.now.0 h.claim h.work e) seat.old.token.me.0.stack chain.old.items }
        ensures turn { IsTurn (J.plan self.now.1) (J.is_work self.now.1) (J.given self.now.1) (λ h. h.claim) (λ h. h.work) self.now.0 q seat.new chain.new.items result }
        ensures drawn { seat.new.token.me.0.drawn ≡ seat.old.token.me.0.drawn }
    {
        let Some(need) = self.next_need(seat, chain, q) else {
            return self.go_on(rt, seat, gate, chain, q, None);
        };
        match self.look(seat, need) {
            Looked::NotYet(0) => self.try_claim(rt, seat, gate, chain, q, need),
            Looked::NotYet(_) => {
                thread::yield_now();
                Progress::On
            }
            Looked::Failed => Progress::Failed,
            Looked::Done => self.go_on(rt, seat, gate, chain, q, Some(need)),
        }
    }
}

impl<J: Jobs> QueryTable<J> {
    ghost use Rattle.query_table.specs.Rule.{last_root};
    ghost use Rattle.query_table.specs.Chain.{IsIdle};

    /// Has the seat's root answered: claims it and what it needs, or waits for who has. The root is the seat's last drawn one, and the seat has
    /// nothing claimed or borrowed. Afterwards it has nothing claimed or borrowed again, and has seen the root done. Where a query that the root
    /// needs failed, or memory ran out, each of the seat's claims was failed, and the root was seen failed.
    ///
    /// # Errors
    ///
    /// `OutOfMemory`, where it comes here or to whoever failed a query that the root needs.
    pub fn force<R: Wait, G: Gate>(
        &self,
        rt: &R,
        alloc: Global,
        seat: &mut Seat,
        gate: &G,
        q: u32,
    ) -> Result<(), OutOfMemory>
        requires seat { IsIdle self.now.0 seat.old }
        requires root { last_root (J.plan self.now.1) seat.old.token.me.0.drawn ≡ Some q }
        ensures seat { IsIdle self.now.0 seat.new }
        ensures done { OnOk result (has q seat.new.token.me.0.seen ≡ true) }
        ensures failed { OnErr result (has q seat.new.token.me.0.gone ≡ true) }
        ensures drawn { seat.new.token.me.0.drawn ≡ seat.old.token.me.0.drawn }
    {
        let mut chain: Vec<Held<J>> = Vec::new(alloc);
        for _ in rt.forever() {
            match self.advance(rt, seat, gate, &mut chain, q) {
                Progress::On => {}
                Progress::Done => {
                    chain.destroy_empty();
                    return Ok(());
                }
                Progress::Failed => {
                    self.fail_all(seat, &mut chain, q);
                    chain.destroy_empty();
                    return Err(OutOfMemory);
                }
            }
        }
        unreachable!();
    }
}
