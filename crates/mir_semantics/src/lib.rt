//! The meaning of a crate: values, memory, one step, runs, entries, and when one crate refines another. It has no code.
//!
//! - `specs/Values.antt`: values, addresses, the blank of a type, reading and writing a part of a value.
//! - `specs/Memory.antt`: the locals of the frames that live, and how a place is resolved.
//! - `specs/Step.antt`: one step: a statement, a terminator, or one item of a drop.
//! - `specs/Run.antt`: runs of so many steps, with their trace; `specs/Entry.antt`: entries and the flat form of values.
//! - `specs/Refines.antt`: what a crate must keep of another to refine it.
//!
//! `proofs/` has runs of small crates that are computed. `docs/meaning.md` states the meaning in prose.
#![tactic(auto)]
