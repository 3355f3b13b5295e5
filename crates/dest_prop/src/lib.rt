//! The pass `merged`: locals that are copied into one another, and are never written while another of them is live, share one local.
//!
//! `specs/Merged.antt` has the definition (`merged`). Each copy of a whole local into a whole local of its type is a candidate, where neither
//! is borrowed. Candidate by candidate the groups of both join, where no member of the one conflicts with one of the other (one is written
//! while the other is live after it, or is an argument while the other is live at the start) and at most one of both groups is `_0` or an
//! argument. Each local goes to its group's home, the least member; what is moved out of a shared home is copied, and storage statements of
//! members and copies of a member to its own home go.
//!
//! The contract of `merged` is that its result is that body, over bodies whose ids are replaced by the types that they stand for. `candidates`
//! lists the copies whose locals fit, `conflicts` marks what is live where a local is written, `groups` joins by rows of these marks and of
//! members, and `merge` and `renaming` write the body. Statements are moved and never copied. `specs/Code.antt` has the words of these contracts.
//!
//! The laws (`laws`): a crate with a merged body refines the crate, where the body holds no `drop` (other bodies may); and the merged body
//! breaks no rule. The proof goes over pairs of members (`proofs/Homes.antt`), not over the order in which groups were joined.
#![tactic(auto)]

mod candidates;
mod conflicts;
mod groups;
mod laws;
mod merge;
mod renaming;

pub use laws::{merged_refines, merged_stays_valid};
pub use merge::merged;
