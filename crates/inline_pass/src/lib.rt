//! The pass `spliced`: calls of a body are replaced by the bodies of the functions that they call.
//!
//! `specs/Spliced.antt` says what comes of a body: one call is replaced (`with_call`), all of them in rounds over the blocks (`spliced`), of a
//! function that is inlined the parameter `taken` giving the body. A destination behind a reference is resolved before the callee runs, and
//! a call stays where the body without it would pass a limit. Which bodies are taken of those that are lent (`CalleeBodies`) is `specs/Takes.antt`:
//! by the function's attribute, by what the body costs, and by whether it is plain enough to be inlined more freely (`takes`).
//!
//! The contract of `spliced` is that the result is the defined one. A callee is a `FlatBody`: `copies` renumbers slices of its one table, `call` puts them in the place of one call,
//! `size` tells beforehand whether there is room, and `splice` goes over the blocks (`proofs/equal`).
//!
//! The laws (`laws`): where each body that is taken stands at its function in the crate (`Lent` of `specs/Lent.antt`), the body in which calls are
//! replaced is valid, and a crate without `drop` is refined by the crate with it. One call is followed by a simulation in which the callee's frame
//! stands in the caller's (`proofs/refines/Stacks.antt` has the relation); the calls are taken one after the other (`proofs/Rounds.antt`). `asked_are_lent`
//! gives `Lent` of bodies that the function asks for.
#![tactic(auto)]

mod call;
mod callees;
mod copies;
mod laws;
mod size;
mod splice;

pub use callees::{CalleeBodies, takes};
pub use laws::{asked_are_lent, spliced_refines, spliced_stays_valid};
pub use splice::spliced;
