//! What the words after the program's name ask for.
//!
//! `parse` reads them as a command (`Says`, `specs/Commands.antt`), or answers the place of the first word that doesn't fit (`IsMisfit`): the
//! words stand in rows, one for each command, and say at each place which words fit there. Numbers and lists of numbers are read from their
//! one spelling (`specs/Numbers.antt`), a path is names of the language of bodies with `::` between two (`specs/Paths.antt`), and a stage has one
//! word where its step is there (`specs/Stages.antt`).
#![tactic(auto)]

mod command;
mod numbers;
mod paths;
mod stages;
mod words;

pub use command::{Command, WordsFault};
pub use words::parse;
