//! The pass `threaded`: a jump to a block whose switch is known goes to a copy of that block, which goes on to the switch's target.
//!
//! What is known at each point is what `const_flow` finds (`const_at`). Out of each block that is reached and ends in a `goto`, the next block
//! is walked from what is known there; where that isn't bb0, is short and ends in a switch on a known number, a copy of it is appended. No more
//! is copied than a body has room for. `specs/Threaded.antt` has the definition (`threaded`): which edges are threaded (`threads`), and what
//! becomes of the blocks. The contract of `threaded` is that its result is that body, over bodies whose ids are replaced by the types that they
//! stand for. `specs/Code.antt` has what the code makes before: edges of numbers, which stand for threads (`StandFor`), and the blocks by them.
//!
//! The laws (`laws`): a crate with a threaded body refines the crate, where the body holds no `drop` (other bodies may); and the threaded body
//! breaks no rule and stays within the limits.
#![tactic(auto)]

mod edges;
mod laws;
mod thread;

pub use laws::{threaded_refines, threaded_stays_valid};
pub use thread::threaded;
