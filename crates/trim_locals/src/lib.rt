//! The pass `trimmed`: locals that stand in storage statements alone, or nowhere, go with these statements, and the rest is renumbered.
//!
//! The contract of `trimmed` is that the result is the one that `specs/Trimmed.antt` defines, over a body whose ids are replaced by the types
//! that they stand for, and that ids in the program's table stay there. `marks` finds the used locals, `renaming` gives places their
//! locals' new numbers, `blocks` drops what goes. Statements are moved and never copied.
//!
//! The laws of the pass are contracts of functions that run nothing (`laws`): `trimmed_refines` says that the meaning stays, and
//! `trimmed_stays_valid` that the rules do, that no `drop` comes in and that no other function is called. `proofs/equal` shows that the code is
//! the definition, `proofs/refines` that runs of the trimmed body follow those of the body, and `proofs/valid` that the rules stay.
#![tactic(auto)]

mod blocks;
mod laws;
mod marks;
mod renaming;
mod trim;

pub use laws::{trimmed_refines, trimmed_stays_valid};
pub use trim::trimmed;
