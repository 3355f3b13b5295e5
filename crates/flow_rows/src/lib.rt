//! Worked rows: what is live, borrowed, pruned and trimmed in bodies that are built here, and such a body in one table.
//!
//! `is_ready` tells whether a body is one that the passes take (`specs/Ready.antt`). The other calls make such bodies and their program, and tell
//! what the passes answer in numbers of locals and blocks. The tests have the rows.
#![tactic(auto)]

mod answers;
mod made;
mod ready;
#[cfg(test)]
mod tests;

pub use answers::{
    borrowed_locals, flat_if_ready, live_starts, pruned_if_ready, sources, stmt_counts,
    trimmed_if_ready, written,
};
pub use made::{End, Line, Made, block, body, chain, program};
pub use ready::is_ready;
