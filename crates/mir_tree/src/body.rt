use crate::{Items, Lined, OperandText, PathText, PlaceText, RvalueText};
use mir_syntax::List;

/// A statement, without its semicolon.
#[derive(Debug, Drop)]
pub enum StmtText {
    Assign(PlaceText, RvalueText),
    Nop,
    StorageLive(u32),
    StorageDead(u32),
    /// `discriminant(place) = number`
    SetDiscriminant(PlaceText, u32),
}

/// What is said of unwinding. Either is read, and nothing comes of it.
#[derive(Clone, Copy, Debug, Drop)]
pub enum UnwindText {
    Continue,
    Unreachable,
}

/// `number : bb`
#[derive(Clone, Copy, Debug, Drop)]
pub struct ArmText {
    pub value: u128,
    pub block: u32,
}

/// A terminator, without its semicolon.
#[derive(Debug, Drop)]
pub enum TermText {
    Goto(u32),
    Return,
    Unreachable,
    Switch(OperandText, List<ArmText>, u32),
    Call(PlaceText, PathText, Items<OperandText>, u32, UnwindText),
    Drop(PlaceText, u32, UnwindText),
    /// Whether the condition is to be true, the condition, the message's number, the message's operands, and where it goes on.
    Assert(bool, OperandText, u32, List<OperandText>, u32, UnwindText),
}

/// `bb : { .. }`: its label, its statements and its terminator, each with its line.
#[derive(Debug, Drop)]
pub struct BlockText {
    pub label: u32,
    pub stmts: List<Lined<StmtText>>,
    pub term: Lined<TermText>,
}
