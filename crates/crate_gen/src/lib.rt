//! Crates that are made from a number, for trials and measurements, and schedules that are drawn.
//!
//! `generate` makes a crate of so many functions of one shape, which call one another, and tells the lines of its canonical text (`made_crate` and
//! `made_lines` of `specs/Made.antt`). `schedule` draws the numbers of workers (`draws` of `specs/Draws.antt`). The same numbers give the same
//! crate and the same schedule.
#![tactic(auto)]

mod body;
mod choice;
mod generated;
mod laws;
mod lines;
mod random;

pub use generated::{Generated, generate};
pub use laws::{made_crates_are_read_back, made_crates_are_valid, made_lines_fit};
pub use random::schedule;

#[cfg(test)]
mod tests;
