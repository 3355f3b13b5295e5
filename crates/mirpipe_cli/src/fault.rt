/// Why an input is refused, with the number of the code and the line.
#[derive(Clone, Copy, Debug, Drop, PartialEq, Eq)]
pub enum InputFault {
    /// It has more than 67,108,864 bytes.
    Long,
    /// It names no crate.
    Text { code: u8, line: u32 },
    /// A rule is broken.
    Rule { code: u8, line: u32 },
    /// A limit is passed.
    Limit { code: u8, line: u32 },
    /// A body has a `drop`, which the passes are not made for yet.
    Drops { line: u32 },
    /// No function has the path.
    NoFunction,
    /// The function that is to be run can't be called from outside, or not with these arguments.
    NoEntry,
}

/// Why there is nothing to write.
#[derive(Clone, Copy, Debug, Drop, PartialEq, Eq)]
pub enum Refusal {
    ReadFault,
    OutOfMemory,
    Input(InputFault),
}
