ghost use Rattle.std.specs.Prelude.{◌≡◌, Some};
ghost use Rattle.const_flow.specs.Facts.{join, outcome};
ghost use Rattle.const_flow.specs.Cells.{told};

/// What is known of a tracked scalar where a block is reached: it is a hole, or it is a hole or this number, or it may be anything.
#[derive(Clone, Copy, Debug, Drop, PartialEq, Eq)]
pub enum Cell {
    Nothing,
    Num(u128),
    Many,
}

impl Cell {
    /// The least that says both.
    pub fn join(self, other: Cell) -> Cell
        ensures { result ≡ join self other }
    {
        match (self, other) {
            (Cell::Nothing, _) => other,
            (_, Cell::Nothing) => self,
            (Cell::Num(a), Cell::Num(b)) if a == b => self,
            _ => Cell::Many,
        }
    }

    /// Of a number, or of none: then the run is undefined.
    pub fn outcome(number: Option<u128>) -> Cell
        ensures { result ≡ outcome number }
    {
        match number {
            Some(bits) => Cell::Num(bits),
            None => Cell::Nothing,
        }
    }
}

/// What is known of a scalar at a point: the block is unreached, or it is a hole, or a hole or this number, or it may be anything.
#[derive(Clone, Copy, Debug, Drop, PartialEq, Eq)]
pub enum Known {
    Unreached,
    Nothing,
    Num(u128),
    Many,
}

impl Known {
    /// In a block that is reached.
    pub(crate) fn of(cell: Cell) -> Known
        ensures { result ≡ told (Some cell) }
    {
        match cell {
            Cell::Nothing => Known::Nothing,
            Cell::Num(bits) => Known::Num(bits),
            Cell::Many => Known::Many,
        }
    }
}
