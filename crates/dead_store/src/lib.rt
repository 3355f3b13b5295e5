//! The pass `pruned`: assignments whose value nobody reads go.
//!
//! Three rounds take away the assignments, and the settings of discriminants, of places that aren't behind a reference and whose local is
//! neither borrowed nor live after. `specs/Pruned.antt` has the definition twice: in the words of paths (`IsPruned`), and as a function
//! (`pruned`). The contract of `pruned` is that its result is that body, over bodies whose ids are replaced by the types that they stand for.
//! `specs/Rounds.antt` has what a round needs of a body (`IsReady`), and what it does to blocks. Statements are moved and never copied.
//!
//! The laws (`laws`): both definitions are one; a crate with a pruned body refines the crate, where the body holds no `drop` (other bodies
//! may); and the pruned body breaks no rule.
#![tactic(auto)]

mod blocks;
mod laws;
mod rounds;
mod stmts;

pub use laws::{one_body_is_pruned, pruned_refines, pruned_stays_valid};
pub use rounds::pruned;
