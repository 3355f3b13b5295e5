//! Names by their numbers.
//!
//! `Names` is seen by contracts as the list of its names in order, none of which stands twice; a name's number is its place there
//! (`place_in` of `mir_text`). `add` gives the next number to a name, or says which number it has (`SaysTwice`, `specs/Names.antt`);
//! `find` and `get` go from a name to its number and back. A call hashes the name once, and `add` of a new name twice.
#![tactic(auto)]

mod names;
#[cfg(test)]
mod tests;

pub use names::{NameFault, Names};
