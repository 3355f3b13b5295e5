//! The limits on the size of a crate, tested: how many functions, how large types, bodies and all statements together may be.
//!
//! The limits stand in `mir_rules` (`specs/Limits.antt`). The main contract is that of `limit_fault`: of all that passes a limit (`passed`) it
//! gives what is answered, the limit of least number, and of that the first line (`first_limit` of `mir_rules/specs/Faults.antt`); `None`
//! exactly where the program is within the limits. The types are measured once, by `type_sizes`, and everything is walked once.
//!
//! `proofs/Gathered.antt`, `Fitting.antt` and `Places.antt` hold what a walk over a program with its lines needs; `mir_validate` uses them too.
#![tactic(auto)]

mod bodies;
mod limits;
mod passed;
mod search;
mod statements;
mod types;

pub use limits::limit_fault;
pub use passed::Passed;
