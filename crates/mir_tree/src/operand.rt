use crate::TypeText;
use mir_syntax::{IntTy, List};

/// A step of a place behind its local.
#[derive(Debug, Drop)]
pub enum ProjText {
    /// `(* ..)`
    Deref,
    /// `(.. . number : type)`
    Field(u32, TypeText),
    /// `((.. as name) . number : type)`
    VariantField(u32, u32, TypeText),
}

/// A place: a local, and the steps behind it.
#[derive(Debug, Drop)]
pub struct PlaceText {
    pub local: u32,
    /// From the local outwards.
    pub projs: List<ProjText>,
}

/// What stands behind `const`.
#[derive(Clone, Copy, Debug, Drop)]
pub enum ValueText {
    /// Whether a minus stands before it, its type, and its size.
    Number(bool, IntTy, u128),
    Bool(bool),
    Unit,
    /// `T::MIN`
    Least(IntTy),
    /// `T::MAX`
    Most(IntTy),
}

/// An operand.
#[derive(Debug, Drop)]
pub enum OperandText {
    Copy(PlaceText),
    Move(PlaceText),
    /// A place with neither word, which is copied.
    Bare(PlaceText),
    Const(ValueText),
}
