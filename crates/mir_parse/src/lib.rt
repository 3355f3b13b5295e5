//! Parses the symbols of a crate's text into trees (`mir_tree`), by the grammar of `mir_text`.
//!
//! Each call parses one rule at the front of symbols and answers its tree and what stands past it, or the first fault: its code (`S04` to
//! `S09`) and how many symbols stand from it on. What is answered is a good derivation of the rule that stands there (`IsParsed`), and a
//! fault is answered only where none stands (`NoneStands`, `specs/Promises.antt`); memory is taken for the tree alone. The other files of
//! `specs/` follow the code step by step, and say which fault comes; `proofs/` joins them to the grammar.
#![tactic(auto)]

mod block;
mod fault;
mod line;
mod list;
mod operand;
mod path;
mod place;
mod rvalue;
mod sign;
mod term;
mod ty;

pub use block::parse_block;
pub use fault::{ParseRefused, SyntaxFault, fault_at, refuse, refuse_with};
pub use line::{LineText, in_part, parse_line};
pub use list::{Bracket, ReadItem, read_items};
pub use operand::{parse_operand, parse_value};
pub use path::parse_path;
pub use place::parse_place;
pub use rvalue::parse_rvalue;
pub use sign::{
    read_arrow, read_block_number, read_close, read_close_brace, read_close_bracket, read_colon,
    read_comma, read_equals, read_local, read_name, read_open_brace, read_open_bracket,
    read_open_paren, read_semicolon, read_small_number, read_string, read_this_name,
};
pub use ty::{parse_type, parse_types};
