//! Entries: functions that may be called from outside, and the flat form of values.
//!
//! The definitions are those of `mir_semantics` (`specs/Entry.antt`). `entry` makes of numbers the call of a function, where they are the
//! flat form of arguments of its types and its signature holds no reference (`IsEntry`, `AreFlat`); else it says which argument they give
//! no value of (`specs/Misfits.antt`). `flat` gives the flat form of a value; `function_at` finds the first function with a path.
#![tactic(auto)]

mod entries;
mod flats;
mod reads;
mod refers;
mod scalars;
mod splits;

pub use entries::{EntryFault, entry, function_at};
pub use flats::flat;
pub use refers::holds_reference;
