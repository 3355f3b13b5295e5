//! The operators on scalars.
//!
//! A scalar is a bit pattern in a `u128`, of which the low bits of its type's width count; it stands for an integer
//! (`integer_of` of `specs/Numbers.antt`), and the contract of each operator is its definition there on integers:
//! `binop`, `over`, `unary`, `cast` and `wrap`. `specs/Widths.antt` has the widths. No call takes memory or fails.
#![tactic(auto)]

mod arith;
mod operators;
#[cfg(test)]
mod tests;
mod values;
mod widths;

pub use operators::{binop, cast, cast_scalar, flag, over, over_scalar, unary};
pub use values::wrap;
pub use widths::{signed, width};
