//! What a file of items names: from its tree (`mir_tree`) to the program, on top of the parts that `mir_resolve` and `mir_bodies` read.
//!
//! `resolve_file` gives the program that a file names and the lines of its parts, for each derivation that its tree is one of, or the first
//! fault of its names. The items are gone over kind by kind:
//!
//! - `read_front`: all of a file but its functions. It gives the paths of all items, and a program with the definitions and outside functions
//!   that the file names (`names_of`, `outsides_in` of `mir_text`), with their lines; their faults S10 and S12 are noted. It is made of
//!   `read_paths`, `note_clashes` (S10 for each item whose path was taken before, `path_faults`, in expected linear time), `read_defs` and
//!   `read_outsides`.
//! - `read_head`: the locals that a function declares (`declared`), their types (`locals_from`) and lines (`fn_lines`), with the faults of a
//!   function but for those of its blocks (`head_faults`, `specs/Declarations.antt`).
//! - `read_functions`: the functions of a file over a program with its definitions (`functions_in`), their lines, the first field that is written
//!   with another type than the definition's (`wrong_field_in`), and their faults (`fn_faults`). It takes the items one by one and lets each go
//!   once it is read, so that the tree and the program don't stand whole in memory at one time.
//! - `scopes_name_nothing`: the law that `debug` lines and scopes change nothing of what a file names, so that each derivation that a tree
//!   is one of names the same.
//!
//! Faults are noted in the order in which they are met; which one is kept doesn't depend on it. `proofs/AllFaults.antt` has the law that
//! those of paths, definitions, outside functions and functions together are the faults of the file (`first_noted`).
#![tactic(auto)]

mod blocks;
mod clashes;
mod declarations;
mod defs;
mod front;
mod functions;
mod head;
mod heads;
mod laws;
mod local_lines;
mod local_types;
mod outsides;
mod paths;
mod resolve;

pub use clashes::note_clashes;
pub use defs::{ReadDefs, read_defs};
pub use front::{Front, read_front};
pub use functions::{ReadFunctions, read_functions};
pub use heads::{Head, read_head};
pub use laws::scopes_name_nothing;
pub use outsides::{ReadOutsides, read_outsides};
pub use paths::{FilePaths, read_paths};
pub use resolve::{Resolved, Unresolved, resolve_file};
