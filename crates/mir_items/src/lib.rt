//! Parses the symbols of a crate's text into the tree of its file (`mir_tree`), by the grammar of `mir_text`, on top of `mir_parse`.
//!
//! `parse_file` answers the tree of the good file whose symbols these are, with the lines of its parts (`IsFile` and `IsOnlyFile`,
//! `specs/Files.antt`), or the first fault (`ParseRefused` of `mir_parse`), and a fault only where they are those of no good file (`NoFile`).
//! `parse_item` answers the tree of one good item whose symbols these are all, or that they are those of none (`IsItem`). Trees of items that
//! follow one another are the tree of a file (`proofs/FilesGrow.antt`). `fault_line` answers the line that such a fault is refused with. The
//! other calls parse one rule at the front of symbols and answer its tree and what stands past it. The other files of `specs/` follow the code
//! step by step, and say which fault comes and in which part of the file. `proofs/` joins them to the grammar both ways: what is read is a good
//! derivation of the rule that stands there, and each good derivation is read.
#![tactic(auto)]

mod arg;
mod attr;
mod block;
mod decl;
mod fault;
mod field;
mod file;
mod function;
mod item;
mod line;
mod variant;

pub use fault::fault_line;
pub use field::{parse_fields, parse_struct_end};
pub use file::{parse_file, parse_item};
pub use variant::parse_variants;
