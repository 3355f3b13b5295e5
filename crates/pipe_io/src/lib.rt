//! Where bytes come from and go to: the traits `Source` and `Sink`, objects in memory, adapters over std's streams, and calls that
//! read or write the whole.
//!
//! A source may tell which bytes are still to come, and a sink which were written; both count their faults. The main contracts are those
//! of the two traits (what a call takes, and that it fails only where the count rose: `specs/Causes.antt`), of `read_all` and of
//! `write_all`. The objects in memory say exactly what each call does, and the faulty ones which calls fail (`specs/Objects.antt`).
//! `ReadSource` and `WriteSink` tell no content: what a real stream holds is trusted.
#![tactic(auto)]

mod memory;
mod streams;
mod traits;
mod whole;

pub use memory::{FaultySink, FaultySource, PlainSink, PlainSource};
pub use streams::{ReadSource, WriteSink};
pub use traits::{Failed, Sink, Source};
pub use whole::{Input, ReadFault, read_all, write_all};

#[cfg(test)]
mod tests;
