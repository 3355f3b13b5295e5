//! Who calls whom, what that costs, and who asks for whose body.
//!
//! - `callees` lists the functions that a body calls and the destructors that its drops may run, each once (`specs/Callees.antt`). `cost` is
//!   what a body costs (`specs/Cost.antt`), `cost_flat` the same for one in a single table, and `qualif` tells whether it has no call, no drop, no
//!   assert and no cycle of blocks (`specs/Qualif.antt`).
//! - `Reach` finds what chains of calls lead to from a function, one list of callees at a time and the least known function next; `below` is
//!   the order of paths, and `asks` tells whether a function asks for another (`specs/Graph.antt`).
//! - `Components` are the functions that reach one another, found in one search over all calls; `asks_by_components` tells by them what `asks` tells.
//! - Three laws: `paths_are_in_order`, `asking_falls` (whom a function asks for has the lesser weight, so needs have no cycle) and
//!   `components_tell` (of a function that is reached, the components of the call graph tell whether it is asked for, so nobody has to
//!   search anew for each function).
#![tactic(auto)]

mod asking;
mod called;
mod components;
mod costs;
mod cycles;
mod found;
mod parts;
mod paths;
mod reach;

pub use asking::{asking_falls, asks, asks_by_components, components_tell, paths_are_in_order};
pub use called::{callees, calls_stay_inside};
pub use components::Components;
pub use costs::{cost, cost_flat};
pub use cycles::qualif;
pub use paths::below;
pub use reach::Reach;
