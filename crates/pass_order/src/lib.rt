//! The order of the passes: what the bodies of a crate go through.
//!
//! The passes are a list (`passes` of `specs/Passes.antt`): `simple`, `split`, `folded`, `simple`, `threaded`, `simple`, `merged`, `pruned`, `simple`,
//! `trimmed`.
//! `after_passes` takes a body through them, and `optimised` each body of a program. Their contracts say that the result is the function of these
//! names in `specs/Passes.antt`, that ids in the program's table stay there, and that the definitions, the outside functions and the headers stay.
//! Bodies are moved and never copied.
//!
//! `dumped` gives a function with its body at a stage (`at_stage` of `specs/Stages.antt`): after the passes up to the step that the stage is named for.
//! `passes_behind` tells whether the step is there.
//!
//! The laws are contracts of functions that run nothing (`laws`): the crate after the passes is valid, calls nothing else, and refines the crate
//! where no body holds a `drop`; and so is the crate with one body at a stage. A pass that keeps meaning, rules and headers (`PassKeeps` of
//! `proofs/Keeps.antt`) goes into the order by one more entry in `passes` and in the code's list, and one line in `proofs/Order.antt`; a stage by
//! the number of passes behind it.
//!
//! # Each body with others inlined
//!
//! A crate whose bodies are inlined into one another is told by the queries of `query_plan`: `specs/OptCrate.antt` has the steps of a crate (`pipeline`) and
//! the crate with each body optimised (`opt_crate`). The laws (`opt_laws`) are that the queries of a crate can be answered, and that `opt_crate` is
//! valid and refines the crate. What an elaborated body calls is shown here
//! (`proofs/elab`). `proofs/compose` replaces the bodies of a crate one by one: all are cleaned, then all elaborated, and then optimised in rounds of
//! rising weight.
#![tactic(auto)]

mod all_bodies;
mod headers;
mod laws;
mod one_body;
mod opt_laws;
mod passes;
mod stages;

pub use all_bodies::optimised;
pub use laws::{one_result, optimised_refines, staged_refines};
pub use one_body::after_passes;
pub use opt_laws::{
    bodies_are_tupled, crate_is_a_source, elaboration_adds_no_callee, ids_come_back,
    lent_bodies_are_taken, opt_crate_refines,
};
pub use stages::{dumped, passes_behind};
