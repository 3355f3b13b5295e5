//! Least solutions of flow problems, by a worklist of blocks.
//!
//! An `Analysis` says where each block starts, what an edge makes of a fact, and how two facts are joined. `solve` gives the least list of
//! facts in which each block's fact is at least its start and at least what each edge into it brings (`Least` of `specs/Flow.antt`). Its
//! contract asks of an analysis no more than its trait's law: its facts are a lattice of some height, and its flows rise. A block's edges
//! are gone over only after its fact has changed, in sweeps that go up and down the blocks by their numbers: so what flows from block to block
//! in the direction of a sweep comes all the way in one. `specs/Solving.antt` says what holds in between.
#![tactic(auto)]

mod edges;
mod problem;
mod solver;
#[cfg(test)]
mod tests;
mod worklist;

pub use edges::Edge;
pub use problem::Analysis;
pub use solver::solve;
