//! Reads the text of a crate: its bytes, its symbols and its names, on top of `mir_symbols`, `mir_items` and `mir_file`.
//!
//! `read_program` answers the program that a text names, with the lines of its parts (`ReadsWith` of `mir_text`), and refuses a text only
//! where it names no crate (`Reads`). `IsRefusedWith` (`specs/Refusals.antt`) says with which code and line: by the first fault of its bytes
//! and symbols (S01 to S09), or else by that of its names (S10 to S15).
//!
//! `read_tree` reads the text item by item: the symbols of an item are given up when its tree is made, so no more of them are held than the
//! largest item has. Where that goes wrong the text is read anew by all its symbols, which tell its first fault; `parse` is this half.
#![tactic(auto)]

mod program;
mod refused;
mod syntax;
mod text;

pub use program::{Read, read_program};
pub use refused::ReadRefused;
pub use syntax::parse;
pub use text::{TextTree, read_tree};
