use crate::machine::Machine;
use crate::outcome::Outcome;
use mir_meaning::datum::Datum;
use mir_syntax::{FnId, List, OutOfMemory};

/// A function that is called from outside, with its arguments.
#[derive(Drop)]
pub struct EntryCall {
    pub f: FnId,
    pub args: List<Datum>,
}

/// What a step did: the run goes on, has ended, or has no meaning from here on.
#[derive(Clone, Copy, Debug, PartialEq, Eq)]
pub enum Stepped {
    On,
    Ended,
    Undefined,
}

/// A run after some steps. Where a step has found no memory it is spent.
#[derive(Drop)]
pub struct State {
    pub(crate) machine: Machine,
    pub(crate) taken: u64,
    pub(crate) outcome: Result<Outcome, OutOfMemory>,
}
