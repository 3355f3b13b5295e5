//! The control-flow graph of a body: where blocks go, where they are come to from, and which are reached.
//!
//! `succs` gives the targets of a block's terminator (`targets`, one for each edge), `preds` for each block the blocks that go to
//! it (`sources` of `specs/Paths.antt`), `reachable` the blocks to which a path of edges leads from bb0 (`Reached`).
#![tactic(auto)]

mod edges;
mod search;

pub use edges::{preds, succs};
pub use search::reachable;
