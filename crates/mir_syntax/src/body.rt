use crate::types::{FnId, IntTy, OutId, TyId};
use crate::{List, Name};

/// The attribute `inline` of a function (Rust Reference, code generation attributes): none, `inline`, `inline(always)`, `inline(never)`.
#[derive(Clone, Copy, Debug, Drop, PartialEq, Eq)]
pub enum Inline {
    Plain,
    Hint,
    Always,
    Never,
}

/// A function with its body. One with `is_drop` is the destructor of the type whose `&mut` is its one argument.
#[derive(Debug, Drop)]
pub struct Function {
    pub path: Name,
    pub inline: Inline,
    pub is_drop: bool,
    pub body: Body,
}

/// A step from a place to a part of it (rustc-dev-guide, MIR: projections): a field by its number, a variant of an enum, after which
/// a field of that variant comes, or what a reference points to.
#[derive(Clone, Copy, Debug, Drop, PartialEq, Eq)]
pub enum Proj {
    Field(u32),
    Downcast(u32),
    Deref,
}

/// A place in memory: a local by its number, and the way from it (rustc-dev-guide, MIR: places).
#[derive(Debug, Drop)]
pub struct Place {
    pub local: u32,
    pub proj: List<Proj>,
}

/// A constant. An integer is its bits: the value modulo 2 to the width of its type.
#[derive(Clone, Copy, Debug, Drop, PartialEq, Eq)]
pub enum Const {
    Int(IntTy, u128),
    Bool(bool),
    Unit,
}

/// What an rvalue or a terminator reads: a place that stays as it is, a place that is moved out of, or a constant.
#[derive(Debug, Drop)]
pub enum Operand {
    Copy(Place),
    Move(Place),
    Const(Const),
}

/// The operators of two numbers. They wrap, as rustc's `BinOp`; those with `Unchecked` are undefined where the result doesn't fit.
#[derive(Clone, Copy, Debug, Drop, PartialEq, Eq)]
pub enum BinOp {
    Add,
    Sub,
    Mul,
    Div,
    Rem,
    BitXor,
    BitAnd,
    BitOr,
    Shl,
    Shr,
    Eq,
    Ne,
    Lt,
    Le,
    Gt,
    Ge,
    AddUnchecked,
    SubUnchecked,
    MulUnchecked,
}

/// The operators `AddWithOverflow` and its kin: they give the wrapped result and whether it was wrapped.
#[derive(Clone, Copy, Debug, Drop, PartialEq, Eq)]
pub enum OverOp {
    Add,
    Sub,
    Mul,
}

/// The operators of one number: `!` and `-`, which wraps.
#[derive(Clone, Copy, Debug, Drop, PartialEq, Eq)]
pub enum UnOp {
    Not,
    Neg,
}

/// What an assignment computes (rustc-dev-guide, MIR: rvalues). `Build` makes a struct, or an enum's variant, of its parts: the number of the
/// definition, that of the variant, the parts in the fields' order. `Cast` is a cast between scalars to an integer type.
#[derive(Debug, Drop)]
pub enum Rvalue {
    Use(Operand),
    Binary(BinOp, Operand, Operand),
    Overflow(OverOp, Operand, Operand),
    Unary(UnOp, Operand),
    Cast(Operand, TyId),
    Ref(Place),
    RefMut(Place),
    Discriminant(Place),
    Tuple(List<Operand>),
    Build(u32, u32, List<Operand>),
}

/// A statement of a basic block (rustc-dev-guide, MIR: statements). The storage statements name a local; `SetDiscriminant` makes a variant the
/// active one.
#[derive(Debug, Drop)]
pub enum Stmt {
    Assign(Place, Rvalue),
    StorageLive(u32),
    StorageDead(u32),
    SetDiscriminant(Place, u32),
}

/// What a call calls: a function of the program, or one outside of it.
#[derive(Clone, Copy, Debug, Drop, PartialEq, Eq)]
pub enum Callee {
    Local(FnId),
    Outside(OutId),
}

/// An arm of a `switchInt`: the bits of a value, and the block to go to.
#[derive(Clone, Copy, Debug, Drop, PartialEq, Eq)]
pub struct Arm {
    pub value: u128,
    pub block: u32,
}

/// The terminator of a basic block (rustc-dev-guide, MIR: terminators), with the numbers of the blocks it goes to: `Switch` has its arms and the
/// block otherwise; `Call` the place of the result and the block to return to; `Assert` the wanted value, the text of its message with the
/// values shown in it, and the block where it holds. No terminator unwinds.
#[derive(Debug, Drop)]
pub enum Term {
    Goto(u32),
    Switch(Operand, List<Arm>, u32),
    Return,
    Unreachable,
    Drop(Place, u32),
    Call(Place, Callee, List<Operand>, u32),
    Assert(Operand, bool, Name, List<Operand>, u32),
}

/// A basic block: statements that run in order, and a terminator.
#[derive(Debug, Drop)]
pub struct Block {
    pub stmts: List<Stmt>,
    pub term: Term,
}

/// The body of a function. Local 0 is the result, the next `args` locals are the arguments; block 0 is the first to run.
#[derive(Debug, Drop)]
pub struct Body {
    pub args: u32,
    pub locals: List<TyId>,
    pub blocks: List<Block>,
}
