//! The program as a call: words and bytes in, bytes, a line of notes and a status out.
//!
//! `run_quiet` does what the words ask for (`Says` of `pipe_words`). What it answers is `Answers` (`specs/Answer.antt`): a relation of words and
//! input to a status, the bytes that are written and the notes; which inputs are accepted and for what the others are refused is said in
//! `specs/Refused.antt`. Its contract says that this is told where no object fails and memory suffices, which statuses a failure may give,
//! and that what is written is then a front of the answer or nothing. What the command `seq` writes is the text of what the passes
//! (`optimised` of `pass_order`) make of the accepted crate, and that refines it (`Refines` of `mir_semantics`); what `run` writes is the text of a run of
//! the accepted crate (`IsRunText` of `crate_run`), what `dump` writes that of one function at a stage of the passes (`IsDumped`, `specs/Dumped.antt`), and
//! what `gen` writes, which reads nothing, the text of the crate that is made from a number (`made_crate` of `crate_gen`).
#![tactic(auto)]

mod command;
mod drops;
mod dump;
mod fault;
mod load;
mod notes;
mod run;

pub use run::run_quiet;

#[cfg(test)]
mod tests;
