//! The text that is shown of a run.
//!
//! `run_text` gives it as bytes, so that all memory is taken before the first of them is written: a line for each call of an outside
//! function, the oldest first, and a line for how the run stands (`run_text`, `specs/RunText.antt`, of what `mir_semantics` sees of the
//! run). Integers are written with a comma and a space between two, values by their flat form.
#![tactic(auto)]

mod calls;
mod integers;
mod text;

pub use text::run_text;
