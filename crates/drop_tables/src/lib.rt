//! What validation finds out about the definitions of a program: their destructors, which types need drop, and which definitions hold
//! themselves by value.
//!
//! `drop_facts` gives what a program is to keep (`Program::keep_drops`): of each type of the table whether it needs drop, and of each
//! definition its destructor, by `mir_syntax/specs/Shapes.antt`. `Circles::holds_itself` tells of a definition whether it holds itself
//! (`breaks_v01`), and `header` has the rules on outside functions and on headers of destructors; these are those of
//! `mir_rules/specs/DefinitionRules.antt`.
//!
//! Definitions may hold one another in circles, so marks on them spread in rounds (`specs/Marks.antt`): a round marks each definition that
//! holds a marked one. It looks only at those that were marked in the round before, by the list of those that hold them (`holders`), so all
//! rounds together are linear. A definition holds itself only where it holds one of its own component (`cycles`), so only of such a one is
//! asked whether marks come back to it; a program that has one is refused.
#![tactic(auto)]

mod components;
mod cycles;
mod destructors;
mod facts;
pub mod header;
mod holders;
mod marks;
mod spread;

pub use cycles::Circles;
pub use destructors::drop_of;
pub use facts::{DefDrops, def_drops, drop_facts};
pub use marks::is_marked;
