//! The candidates of a function: whose bodies may be inlined into it, one after another.
//!
//! `Walk` goes over them in three layers, in the order in which queries need them (`cands` of `query_plan`): whom the function calls, and then
//! whom those bodies call that it takes. `specs/Walk.antt` says who is still to come, as a function of whom each brings, so whoever asks for the
//! bodies needs to know no more of them than that.
#![tactic(auto)]

mod asking;
mod walk;

pub use asking::{Asking, Part, all_are_lent, needs_are_asked};
pub use walk::Walk;
