use mir_syntax::{BinOp, IntTy, OverOp, UnOp};

/// A token, by what the grammar asks of it.
///
/// `Name` and `Text` hold the number of their bytes in the list of byte strings seen so far, in the order in which they first stand in the
/// text. That list begins with the names that the grammar looks for (`specs/Symbols.antt`, `grammar_names`).
#[derive(Clone, Copy, Debug, Drop, PartialEq, Eq)]
pub enum Symbol {
    /// `_` and digits.
    Local(u32),
    /// A local whose number is above 4294967295.
    LargeLocal,
    /// `bb` and digits.
    Block(u32),
    /// A block whose number is above 4294967295.
    LargeBlock,
    /// A number without a suffix.
    Number(u128),
    /// A number with the name of an integer type behind it.
    Typed(IntTy, u128),
    /// A string.
    Text(u32),
    Name(u32),
    /// A reserved word that this text leaves out.
    LeftOut,

    /// The name of an integer type.
    Int(IntTy),
    Bool,
    True,
    False,
    Fn,
    Struct,
    Enum,
    Extern,
    Drop,
    Let,
    Mut,
    Debug,
    Scope,
    Copy,
    Move,
    Const,
    As,
    Goto,
    SwitchInt,
    Return,
    Unreachable,
    Assert,
    Otherwise,
    Unwind,
    Continue,
    Nop,
    StorageLive,
    StorageDead,
    Discriminant,
    /// A binary operator, the unchecked ones among them.
    Binary(BinOp),
    /// An operator that also tells whether its result overflowed.
    Over(OverOp),
    Unary(UnOp),

    /// `(`
    Open,
    /// `)`
    Close,
    /// `{`
    OpenBrace,
    /// `}`
    CloseBrace,
    /// `[`
    OpenBracket,
    /// `]`
    CloseBracket,
    /// `,`
    Comma,
    /// `;`
    Semicolon,
    /// `:`
    Colon,
    /// `::`
    Colons,
    /// `.`
    Dot,
    /// `&`
    Ampersand,
    /// `*`
    Star,
    /// `!`
    Exclamation,
    /// `=`
    Equals,
    /// `#`
    Hash,
    /// `-`
    Minus,
    /// `->`
    Arrow,
    /// `=>`, in `debug` lines alone
    FatArrow,
    /// `<`, in `debug` lines alone
    Less,
    /// `>`, in `debug` lines alone
    Greater,
    /// `|`, in `debug` lines alone
    Bar,
    /// `?`, in `debug` lines alone
    Question,
}
