//! What the rules give to runs: the code of a valid crate is fit to keep its states typed, an entry's start is typed, and what a run returns
//! holds no reference.
//!
//! - `proofs/Blanks.antt`: the blank of a type has the type.
//! - `proofs/Codes.antt`: `valid_code`, that the code of a valid crate is what `mir_renaming`'s typing of states asks for.
//! - `proofs/Starts.antt`: `start_typed`, and that an entry's arguments hold neither a hole nor a reference.
//! - `proofs/Shown.antt`: `step_known` and `step_flat`, the invariant of a run from an entry by which what it returns holds no reference.
//!
//! No function runs; proofs of the laws of passes cite these.
#![tactic(auto)]
