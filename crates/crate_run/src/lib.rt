//! The work of the command `run` on a crate: a function is called from outside, and what its run shows is written as text.
//!
//! `run_function` finds the function by its path, makes its call from the flat form of its arguments, runs it for so many steps and gives
//! the text (`IsRunText`, `specs/Ran.antt`); it says where no function has the path (`HasNoFunction`) and where the numbers make no call of
//! it (`IsNoEntry`).
#![tactic(auto)]

mod fault;
mod ran;

pub use fault::RunFault;
pub use ran::run_function;
