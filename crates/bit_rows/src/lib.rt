//! Rows of bits, many of one length.
//!
//! A `BitRows` keeps its rows in words of 64 bits, one row after another, and contracts see it as a list of rows, each a list of bools
//! (`specs/Rows.antt`). The main contracts are those of `get` and `set`, of `or_row`, `copy_row` and `minus_row`, which combine two rows bit
//! by bit and tell whether the first changed, and of `meets`. No call but `new` takes memory. Words are worked eight at a time, and what is
//! left of a row one by one. `specs/Words.antt` says how bits lie in words; no contract that callers see speaks of it.
#![tactic(auto)]

mod kernel;
mod lanes;
mod rows;
#[cfg(test)]
mod tests;

pub use rows::BitRows;
