//! Prints the canonical text of a program to a sink.
//!
//! `print_program` writes exactly `text (crate_of program)`, the canonical text of `mir_text`, for every program; `print_function` writes that
//! of one function with a body that may be another than its own. They fail only where the sink's count of faults rose; then a front of the
//! text is written. They take no memory: pieces are gathered in a buffer of fixed size (`Output`), so that the sink is called for many at
//! once. `text_len` is the length of that text. Each function here prints one word of it. `specs/Prints.antt` says what printing does to a
//! sink.
#![tactic(auto)]

mod block;
mod build;
mod constant;
mod fields;
mod function;
mod items;
mod length;
mod output;
mod place;
mod program;
mod rvalue;
mod stmt;
mod term;
mod types;

pub use program::{print_function, print_program, text_len};
