//! What the names of a file mean: from the tree of a file (`mir_tree`) to the program that it names, or the first fault of its names.
//!
//! Here are the parts that read types, definitions and headers:
//!
//! - `PathIndex`: texts in order, seen as their list; one that stands twice is found at its first place (`place_in` of `mir_text`).
//! - `read_type`: a type from its postfix parts into the table of a program (`type_named`), and whether each path in it is known (`is_known`).
//! - `read_struct`, `read_enum`, `read_outside`: what they define (`def_named`; `outside_named`, `specs/Definitions.antt`), with the faults S10
//!   and S12 of the item noted on its line (`other_codes`).
//! - `Noted`: the first of the faults that were noted, by the least line and then the least code (`specs/Faults.antt`). `faults_in_any_order`
//!   says that this is `first_fault` of them all, and that it doesn't matter in which order lists of faults are noted.
//!
//! A part that is read makes the program's table grow and leaves the rest of it alone (`Grown`, `specs/Types.antt`).
#![tactic(auto)]

mod definitions;
mod draft;
mod faults;
mod fields;
mod headers;
mod index;
mod laws;
mod once;
mod paths;
mod types;

pub use definitions::{copy_path, read_enum, read_struct};
pub use draft::Draft;
pub use faults::{NameFault, Noted};
pub use fields::{both, copy_name, read_noted};
pub use headers::read_outside;
pub use index::{Added, PathIndex};
pub use laws::faults_in_any_order;
pub use once::is_new;
pub use paths::{put_name, put_path, string_of};
pub use types::{ReadTy, Scratch, read_type};
