use crate::{Items, OperandText, PathText, PlaceText, TypeText};
use mir_syntax::{BinOp, OverOp, UnOp};

/// `name : operand`
#[derive(Debug, Drop)]
pub struct NamedText {
    pub name: u32,
    pub operand: OperandText,
}

/// What stands behind the path of a struct or a variant.
#[derive(Debug, Drop)]
pub enum BuildText {
    Plain,
    Tupled(Items<OperandText>),
    Labelled(Items<NamedText>),
}

/// What stands on the right of an assignment.
#[derive(Debug, Drop)]
pub enum RvalueText {
    Use(OperandText),
    Cast(OperandText, TypeText),
    Binary(BinOp, OperandText, OperandText),
    Overflow(OverOp, OperandText, OperandText),
    Unary(UnOp, OperandText),
    /// `&` of a place, or `&mut`.
    Ref(bool, PlaceText),
    Discriminant(PlaceText),
    /// `()`
    Nothing,
    /// The first operand and those behind its comma.
    Tuple(OperandText, Items<OperandText>),
    Build(PathText, BuildText),
}
