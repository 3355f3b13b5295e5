//! The machine that runs crates: control, calls, drops, one step, runs.
//!
//! Its contracts are equations with the definitions of `mir_semantics`, through the views of `specs/Seen.antt` (a machine as a state),
//! `specs/Ends.antt` (how a step ends) and `specs/Runs.antt` (what a run has come to):
//!
//! - `run`: what is seen of a run of so many steps (`specs/Run.antt` there), read off its result (`seen_in`).
//! - `State::new` and `step`: a run step by step (`standing_in`, `onward`); `steps_come_to_runs` says that both come to the same.
//! - `terms`: each terminator and each statement is what `finish` and `perform` say; `drops`: a step of a drop, and a destructor's return.
//! - `specs/Ordered.antt`: frames stand in the order of their numbers, so that the frame on top is the one that is given back.
//!
//! No step copies a frame or the program, and none runs on this machine's own stack.
#![tactic(auto)]

mod arms;
mod control;
mod dest;
mod drops;
mod integers;
mod machine;
mod numbers;
mod outcome;
mod runs;
mod slots;
mod state;
mod steps;
mod terms;
mod visits;

pub use integers::integer;
pub use machine::Called;
pub use outcome::Outcome;
pub use runs::{RunResult, run, steps_come_to_runs};
pub use state::{EntryCall, State, Stepped};
pub use steps::step;
