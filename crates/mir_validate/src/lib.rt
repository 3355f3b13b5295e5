//! The rules that a crate of MIR bodies keeps, tested: which rule a statement, a terminator, a body or a header breaks; and the whole test.
//!
//! `validate` tests a program: by its contract a program that it gives back is valid (`Valid` of `mir_rules/specs/Valid.antt`), within the limits
//! (`Within`), names the crate that came in, knows its drops, and has in its table `bool`, `isize`, `()`, and `&mut` of each type that it had; a
//! refusal is the rule on the first line, and there the one of least code (`first_rule` of `mir_rules/specs/Faults.antt`), or where no rule is
//! broken the limit of least number, and of that the first line (`first_limit`), or want of memory. The limits are those of `mir_limits`.
//!
//! The rules stand in `mir_rules` (`specs/BodyRules.antt`, `specs/DefinitionRules.antt`, `specs/Broken.antt`). `Inside` is a body in its
//! program, of which the drops are known: `statement_code` and `terminator_code` give the first code in the list of rules that the statement
//! or terminator breaks (`statement_broken`, `terminator_broken`), and `None` exactly where it breaks none; `body_fault` gives of all that a
//! formed body breaks (`body_found`) what is answered by lines. `judge` completes the table of types, keeps in the program what `drop_tables`
//! finds out about its drops, and gives what is answered of all that the program breaks (`broken`).
//!
//! Types are compared by their ids, and a type that the table doesn't have (`Seen`) by its parts. Besides `mir_limits`, `judge` alone takes memory.
#![tactic(auto)]

mod complete;
mod fault;
mod inside;
mod judge;
mod moves;
mod parts;
mod rules;
mod rvalue;
mod seen;
mod statement;
mod terminator;
mod typing;
mod verdict;
mod walk;

pub use verdict::{Fault, Refused, Valid, validate};
