//! Which units of drop of a body are initialised at its blocks' starts.
//!
//! A unit is a part of a local that a `drop` may have to destroy by itself: it has a destructor or is an enum that needs drop (`units_of_body` of
//! `specs/Effects.antt`). `effect`, `moved` and `begun` say what a statement and a terminator do to a unit. `inits` gives of each block the
//! units that some path from bb0 leaves initialised, and those that each path does (`MaybeAt` and `SurelyAt` of `specs/Inits.antt`). It solves
//! two flow problems, one for each status: what a unit surely is, it can't be otherwise. `to_ends` carries such rows over the blocks'
//! statements.
#![tactic(auto)]

mod edges;
mod effects;
mod flow;
mod passing;
mod rows;
mod search;
mod units;

pub use effects::{begun, effect, is_under, moved};
pub use rows::{InitRows, inits, to_ends};
pub use units::{BodyUnits, Span};
