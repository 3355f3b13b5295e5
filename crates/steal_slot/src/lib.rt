//! A value in place that is put, shown to many and taken, as the result of a query is in rustc (`Steal`).
//!
//! A `StealSlot` has a tag, fixed when it is made, that says which values fit it. Its contract: `fill` takes a value that fits, and what
//! `show` lends and `take` gives fits the tag (`Fits` of `counted_slot`). Contracts see a slot, and a right to read it, as its tag. A slot is
//! over one counted word of `counted_slot`, so no value is read while it is written or taken. Waiting calls are under `Wait`: a `fill` of a
//! slot that stays full, and a `show` or a `take` of one that stays empty, never return. A slot is empty again once its value was taken, and
//! may then be filled again: no clause says that a slot is filled once. Where that is to hold, as in `query_table`, whoever fills says it.
#![tactic(auto)]

ghost use Rattle.std.specs.Prelude.{◌≡◌, ◌+◌};

use counted_slot::{Claim, Counted, FREE, Fits, MOST_READERS, ONE_READER, PRESENT, TAKEN};
use std::marker::Model;
use std::sync::Wait;
use std::thread;

/// A place for one value that fits its tag.
#[derive(Drop)]
pub struct StealSlot<T: Fits> {
    slot: Counted<Option<T>>,
}

/// A right to read the value of a slot. It has to be given back by `leave`.
pub struct Shown<'a, T: Fits> {
    hand: Claim<'a, Option<T>>,
}

// Contracts see a right to read as the tag of its slot.
impl<'a, T: Fits> Model for Shown<'a, T> {
    ghost use Rattle.std.specs.Prelude.{◌≡◌, IsSomeAnd, IsTrue, is_some};

    ghost Value = { T.Tag };

    ghost coded = { T.Tag.code };

    ghost view = { λ s. s.hand.tag };

    ghost invariant = { λ s. (s.hand.right ≡ 1) × IsSomeAnd s.hand.value (λ slot. IsTrue (is_some slot)) };
}

// Contracts see a slot as its tag.
impl<T: Fits> Model for StealSlot<T> {
    ghost Value = { T.Tag };

    ghost coded = { T.Tag.code };

    ghost view = { λ s. s.slot };
}

impl<T: Fits> StealSlot<T> {
    /// An empty slot of this tag.
    pub fn new(tag: &T::Tag) -> StealSlot<T>
        ensures { result ≡ tag.now }
    {
        StealSlot {
            slot: Counted::new(None, tag),
        }
    }

    /// Puts the value, once the slot is empty: where a value is there, it waits until that was taken. A slot may be filled again after a `take`.
    pub fn fill<R: Wait>(&self, rt: &R, value: T)
        requires { T.fits self.now value }
    {
        for _ in rt.forever() {
            let (found, hand) = self.slot.turn(FREE, TAKEN);
            if found == FREE {
                if let Some(_old) = hand.put(Some(value), PRESENT) {
                    for _ in rt.forever() {
                        thread::yield_now();
                    }
                    unreachable!();
                }
                return;
            }
            hand.done();
            thread::yield_now();
        }
        unreachable!();
    }

    /// Waits for a value, and gives the right to read it, beside others who read it.
    pub fn show<R: Wait>(&self, rt: &R) -> Shown<'_, T>
        ensures { result ≡ self.now }
    {
        for _ in rt.forever() {
            let seen = self.slot.load();
            if seen % 4 == PRESENT && seen % 0x1_0000_0000 / 4 < MOST_READERS {
                let (found, hand) = self.slot.turn(seen, seen + ONE_READER);
                if found == seen {
                    if hand.get().is_some() {
                        return Shown { hand };
                    }
                    hand.leave();
                } else {
                    hand.done();
                }
            }
            thread::yield_now();
        }
        unreachable!();
    }

    /// Waits for a value that nobody reads, and takes it out. The slot is empty again, and may be filled again.
    pub fn take<R: Wait>(&self, rt: &R) -> T
        ensures { T.fits self.now result }
    {
        for _ in rt.forever() {
            let (found, hand) = self.slot.turn(PRESENT, TAKEN);
            if found == PRESENT {
                if let Some(value) = hand.put(None, FREE) {
                    return value;
                }
            } else {
                hand.done();
            }
            thread::yield_now();
        }
        unreachable!();
    }
}

impl<'a, T: Fits> Shown<'a, T> {
    /// The value, which fits the tag of its slot.
    pub fn get(&self) -> &T
        ensures { T.fits self.now result.now }
    {
        match self.hand.get() {
            Some(value) => value,
            None => unreachable!(),
        }
    }

    /// Gives the right back.
    pub fn leave(self) {
        let Shown { hand } = self;
        hand.leave();
    }
}

#[cfg(test)]
mod tests {
    use super::*;

    // A number that fits the number before it.
    #[derive(Drop)]
    struct Next(u64);

    impl Fits for Next {
        type Tag = u64;

        ghost fits = { λ tag next. next.0 ≡ tag + 1 };
    }

    #[test]
    fn shows_and_gives_what_was_filled(rt: HostRuntime) {
        let slot: StealSlot<Next> = StealSlot::new(&6);
        slot.fill(&rt, Next(7));
        let first = slot.show(&rt);
        let second = slot.show(&rt);
        assert_eq!(rt; first.get().0, 7);
        assert_eq!(rt; second.get().0, 7);
        first.leave();
        second.leave();
        let Next(taken) = slot.take(&rt);
        assert_eq!(rt; taken, 7);
    }
}
