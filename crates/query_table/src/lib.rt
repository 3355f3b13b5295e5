//! The table of atomic words over which workers answer queries: each call of a worker's seat is one step on one word.
//!
//! Word 0 counts the drawn roots; the word after it of each query is 0 while it is unclaimed, 1 claimed, 2 + b done with b borrowers, 2^40
//! failed and 2^41 stolen. What the words and the seats' views show is a good core of `sched_core` at every moment (`specs/Rule.antt`), and
//! each call is one step of it (`specs/Steps.antt`): so a borrowed slot is never stolen and a stolen one never read. The answers lie in a
//! `StealSlot` for each query, and what is shown or taken is the query's defined answer. The main contracts are those of `QueryTable`: `claim`,
//! `look`, `borrow`, `release`, `steal`, `publish`, `fail` and `draw`, which take no `Wait` and no memory, and `show`, `take`, `put`, under `Wait`.
//! `force` (`specs/Chain.antt`) has a drawn root answered by these, and `answers` closes a table whose roots are done.
#![tactic(auto)]

mod closed;
mod force;
mod gate;
mod slots;
mod table;
mod token;
mod view;

pub use closed::Closed;
pub use gate::{Gate, OpenGate};
pub use slots::{AnswerShown, Kept, Slots, Tag};
pub use table::{About, Claimed, Looked, Opened, QueryTable, Seat};
pub use token::{Borrow, Claim, Stolen};
pub use view::{Kind, Made, View};
