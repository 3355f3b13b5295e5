//! The answers behind the words: a slot for each query, of which only the defined answer is shown or taken.
ghost use Rattle.std.specs.Prelude.{◌≡◌, ◌<◌, ℕ, IfOk, Some, slice_get, vec_len};

use counted_slot::Fits;
use mir_syntax::OutOfMemory;
use sched_core::Jobs;
use std::alloc::Global;
use std::marker::Model;
use std::snapshot::Snapshot;
use std::sync::Wait;
use steal_slot::{Shown, StealSlot};

/// Which slot it is, and, for contracts, of which jobs.
#[derive(Drop)]
pub struct Tag<J> {
    pub query: u32,
    pub jobs: Snapshot<J>,
}

/// An answer in its slot. It fits the slot of a query whose defined answer it is.
#[derive(Drop)]
pub struct Kept<J: Jobs> {
    pub answer: J::Answer,
}

impl<J: Jobs> Fits for Kept<J> {
    type Tag = Tag<J>;

    ghost fits = { λ tag kept. kept.answer ≡ J.out tag.jobs.value tag.query };
}

/// A slot for each query of the jobs, as which contracts see it.
#[derive(Drop)]
pub struct Slots<J: Jobs> {
    of: Snapshot<J>,
    slots: Vec<StealSlot<Kept<J>>>,
}

impl<J: Jobs> Model for Slots<J> {
    ghost use Rattle.std.specs.Prelude.{◌≡◌, ◌≤◌, ℕ, Some, slice_get, vec_len};

    ghost Value = { J };

    ghost view = { λ s. s.of.value };

    ghost invariant = { λ s. ((J.plan s.of.value).queries ≡ vec_len s.slots) × ((q : ℕ) (slot : _) → slice_get s.slots.items q ≡ Some slot → (slot.query ≡ q) × (slot.jobs.value ≡ s.of.value)) };
}

impl<J: Jobs> Slots<J> {
    /// An empty slot for each query.
    ///
    /// # Errors
    ///
    /// `OutOfMemory`.
    pub fn new(alloc: Global, jobs: &J) -> Result<Slots<J>, OutOfMemory>
        ensures { IfOk result (λ s. s ≡ jobs.now) }
    {
        let count = jobs.queries();
        let mut slots: Vec<StealSlot<Kept<J>>> = Vec::with_capacity(alloc, count as usize)?;
        for q in 0..count {
            let tag = Tag {
                query: q,
                jobs: Snapshot::of(jobs),
            };
            slots.push_reserved(StealSlot::new(&tag));
        }
        Ok(Slots {
            of: Snapshot::of(jobs),
            slots,
        })
    }

    /// Puts the answer of the query.
    pub fn put<R: Wait>(&self, rt: &R, q: u32, answer: J::Answer)
        requires query { q < (J.plan self.now).queries }
        requires answer { answer ≡ J.out self.now q }
    {
        self.slots[q as usize].fill(rt, Kept { answer });
    }

    /// Takes the answer of the query out.
    pub fn take<R: Wait>(&self, rt: &R, q: u32) -> J::Answer
        requires { q < (J.plan self.now).queries }
        ensures { result ≡ J.out self.now q }
    {
        let Kept { answer } = self.slots[q as usize].take(rt);
        answer
    }

    /// The right to read the answer of the query.
    pub fn show<R: Wait>(&self, rt: &R, q: u32) -> AnswerShown<'_, J>
        requires { q < (J.plan self.now).queries }
        ensures { (result.shown.query ≡ q) × (result.shown.jobs.value ≡ self.now) }
    {
        AnswerShown {
            shown: self.slots[q as usize].show(rt),
        }
    }
}

/// A right to read the answer of one slot. It has to be given back by `leave`.
pub struct AnswerShown<'a, J: Jobs> {
    shown: Shown<'a, Kept<J>>,
}

impl<'a, J: Jobs> AnswerShown<'a, J> {
    /// The defined answer of the slot's query.
    pub fn get(&self) -> &J::Answer
        ensures { result.now ≡ J.out self.now.shown.jobs.value self.now.shown.query }
    {
        &self.shown.get().answer
    }

    /// Gives the right back.
    pub fn leave(self) {
        let AnswerShown { shown } = self;
        shown.leave();
    }
}
