ghost use Rattle.std.specs.Prelude.{◌≡◌};

use crate::table::Seat;
use std::snapshot::Snapshot;

/// The right to answer a query, gained by a claim that was won. It is spent by `publish` or `fail`.
pub struct Claim {
    pub(crate) query: u32,
    /// Whether the answer was put into its slot.
    pub(crate) filled: bool,
    pub(crate) by: Snapshot<Seat>,
}

/// The right to read the answer of a slot. It is spent by `release`.
pub struct Borrow {
    pub(crate) slot: u32,
    pub(crate) by: Snapshot<Seat>,
}

/// The right to take the answer out of a slot. It is spent by `take`.
pub struct Stolen {
    pub(crate) slot: u32,
    pub(crate) by: Snapshot<Seat>,
}

impl Claim {
    /// The query that is to be answered.
    pub fn query(&self) -> u32
        ensures { result ≡ self.now.query }
    {
        self.query
    }
}
