use mir_syntax::{IntTy, List};

/// `name :: name ..`
#[derive(Debug, Drop)]
pub struct PathText {
    pub first: u32,
    /// The names behind the first one.
    pub rest: List<u32>,
}

/// What one step of a type makes of the types before it.
#[derive(Debug, Drop)]
pub enum TypePart {
    Int(IntTy),
    Bool,
    Path(PathText),
    Unit,
    /// `&` of the last type, or `&mut`.
    Ref(bool),
    /// The tuple of so many last types, at least one, and whether a comma stands after the last of them. A tuple of one always has one.
    Tuple(u32, bool),
}

/// A type in postfix order, so that it needs one list and no boxes: `&(u8, bool)` is `u8`, `bool`, the tuple of two, and the reference.
#[derive(Debug, Drop)]
pub struct TypeText {
    pub parts: List<TypePart>,
}
