//! What is known of scalars at each point of a body (constant propagation).
//!
//! Of each tracked place of a body (`place_map`) is known, at a point, that it is a hole, or a hole or one number, or that it may be anything
//! (`Cell`). What statements and terminators make of that stands in `specs/Facts.antt`, and what is known at the start of each block
//! (`const_at`) in `specs/ConstAt.antt`, as the least solution of the flow problem `const_flow`.
//!
//! `Facts` carries what is known from statement to statement: `pass` makes of it what `after_stmt` says, and `operand`, `scalar` and `pair` tell
//! what `known` and `value_known` say, or that the block is unreached (`told` of `specs/Cells.antt`).
//!
//! `consts` solves that problem over nodes for each block's start and its two ends (`specs/Nodes.antt`), and its rows are exactly `const_at`. `ConstRows::at` tells what
//! is known of one tracked place at a block's start, and `ConstRows::facts` gives the `Facts` that stand there. `taken_arm`, `scalar_of` and `scalar_ty`
//! are for passes that read what is known.
#![tactic(auto)]

mod cell;
mod edges;
mod effects;
mod facts;
mod flow;
mod places;
mod rows;
mod scalar;
mod sight;

pub use cell::{Cell, Known};
pub use effects::taken_arm;
pub use facts::Facts;
pub use rows::{ConstRows, consts};
pub use scalar::{scalar_of, scalar_ty};
