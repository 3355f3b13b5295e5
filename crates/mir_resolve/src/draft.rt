use crate::faults::Noted;
use crate::types::Scratch;
use mir_syntax::Program;

/// A program that is being put together, and the first fault that was met.
#[derive(Drop)]
pub struct Draft {
    pub program: Program,
    pub notes: Noted,
    pub scratch: Scratch,
}
