//! Makes the symbols of a crate's text, which the parser reads.
//!
//! `read_symbols` goes over the bytes once and answers the symbols with their lines, and the byte strings of names and strings by their
//! numbers, up to the end of the text or to the first byte where no piece of a text stands. `IsSymbolsOf` (`specs/Found.antt`) says this by
//! the pieces into which `mir_text` cuts a text; there is one such answer. Names and strings are numbered through `Names`, in expected
//! constant time.
//!
//! `Symbols::scan_item` goes over a text item by item: it stops where an item may end, and what is found can be given up before it goes on
//! (`Symbols::clear`). Where it stops is its own choice, but a scan that goes on from there ends with the symbols of the text (`EndsWith`,
//! `specs/Scan.antt`).
#![tactic(auto)]

mod item;
mod kind;
mod name;
mod scan;
#[cfg(test)]
mod tests;

pub use scan::{Symbols, no_symbols, read_symbols};
