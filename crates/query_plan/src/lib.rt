//! The queries of a crate: what each answers, what it needs in which order, and what it steals.
//!
//! Bodies are inlined into one another, so the steps of one body want the results of others. `specs/Queries.antt` says what each query (`Kind`)
//! answers, `opt` above all, given the steps of bodies as functions (`Pipeline`). `specs/Needs.antt` says what each needs in which order and
//! what it steals, and makes the plan of it that `sched_core` asks for (`plan`). `query_number` gives the number of a query, `query_of` tells what a
//! number asks, and `stolen_by` what it steals.
//!
//! The laws (`laws`): where no step makes a call that wasn't there (`IsSource` of `specs/Source.antt`), the plan is lawful; who is a candidate is
//! reached, so paths and one reach tell whether it is asked for; an optimised body is made of those that its function asks for; and functions can be
//! optimised one by one, in an order of components and paths (`specs/Order.antt`). `proofs` has them over bodies of any type, and rows of needs that
//! compute (`proofs/Rows`).
#![tactic(auto)]

mod coding;
mod kind;
mod laws;

pub use coding::{query_number, query_of, stolen_by};
pub use kind::Kind;
pub use laws::{
    bodies_in_order, candidates_are_reached, optimised_bodies_are_made_of_others, plan_is_lawful,
};
