use mir_syntax::{IntTy, List};

/// What a token is. The bytes of a name or a string are those of its place in the text.
#[derive(Clone, Copy, Debug, Drop, PartialEq, Eq)]
pub enum Kind {
    /// `_` and a number, at most 4294967295.
    Local(u32),
    /// `bb` and a number, at most 4294967295.
    Block(u32),
    /// A number below 2^128, and the integer type that is its suffix.
    Number(u128, Option<IntTy>),
    /// A string, with its quotes.
    Text,
    /// The reserved word at a place, counted from 0, of the used and then the left-out words.
    Word(u8),
    /// A name that is no reserved word and no block.
    Name,
    /// The sign at a place, counted from 0, of the list of signs.
    Sign(u8),
    /// A local or a block whose number is above 4294967295.
    Large,
}

/// A token: its kind, the place of its first byte, its length in bytes, and its line.
///
/// A line is 1 plus the line feeds before the token.
#[derive(Clone, Copy, Debug, Drop, PartialEq, Eq)]
pub struct Token {
    pub kind: Kind,
    pub at: u32,
    pub len: u32,
    pub line: u32,
}

/// Why a text isn't cut to its end: a byte begins no token (1), a number is 2^128 or more (2), or
/// a string isn't closed in its line (3). The line is that of the byte, the number or the string.
#[derive(Clone, Copy, Debug, Drop, PartialEq, Eq)]
pub struct LexFault {
    pub code: u8,
    pub line: u32,
}

/// The tokens of a text up to its end, or up to the first fault.
#[derive(Debug, Drop)]
pub struct Lexed {
    pub tokens: List<Token>,
    pub fault: Option<LexFault>,
}
