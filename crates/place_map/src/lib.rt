//! Which places of a body are tracked, by their numbers.
//!
//! Tracked are scalars that lie in locals by fields alone, where the local isn't taken: in order of the locals and depth first within each, the
//! first so many of them (`tracked` of `specs/Tracked.antt`). `paths` makes their list. `find` gives a place's number in it, and `under` the
//! numbers of the tracked places at or under a place, which lie side by side.
#![tactic(auto)]

mod path_map;
mod scalars;
mod side;

pub use path_map::{PathMap, Span};
pub use scalars::paths;
