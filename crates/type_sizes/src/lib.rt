//! The sizes of the types of a program, counted up to the bounds of the limits: nodes, units of drop, and drop weights.
//!
//! `size_types` measures every definition and every type of the table; `is_large_type`, `is_large_def` and `drop_weight` answer from that by
//! the definitions of `mir_rules` (`specs/Weights.antt`, `specs/Limits.antt`). A type may have more nodes than any number of the machine,
//! so each count stops at a bound above the limit (`specs/UpTo.antt`). Definitions are measured in rounds, to one depth more in each, and a
//! round that changes nothing is the last (`specs/Measures.antt`).
#![tactic(auto)]

mod measure;
mod sizing;
mod tables;
mod weights;

pub use weights::{Measured, Sizes, drop_weight, is_large_def, is_large_type, size_types};
