//! The pass `split`: a local of a tuple or struct type becomes one local for each of its fields.
//!
//! `specs/Split.antt` says which locals are split, and what body comes of it (`split`): a local that nobody borrows and that is used by its
//! fields, filled as a whole from elsewhere, or handed on as a whole. An assignment to or of the whole of it becomes one for each field.
//!
//! The laws (`laws`): a crate with a split body refines the crate, where the body holds no `drop` (other bodies may); and the split body
//! breaks no rule. While a local is filled field by field, nothing is said of its new locals; at the end they hold what it holds
//! (`proofs/refines/Whole.antt`).
#![tactic(auto)]

mod by_fields;
mod chosen;
mod held;
mod laws;
mod parts;
mod places;
mod split_body;
mod statements;

pub use laws::{split_refines, split_stays_valid};
pub use split_body::split;
