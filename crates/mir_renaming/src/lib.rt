//! Values, places, memories and statements under a renaming of locals.
//!
//! A pass that renames, joins or leaves out locals relates the memory of the target to that of the source by a renaming (`specs/Renaming.antt`). The
//! lemmas that carry the relation along reads, writes and statements are in `proofs/`, and with them that every step of a valid crate keeps
//! its states typed (`step_typed` of `proofs/Typed.antt`); proofs of other crates cite them there. No function runs.
#![tactic(auto)]
