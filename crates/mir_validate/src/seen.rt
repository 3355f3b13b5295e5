use mir_syntax::{ScalarTy, TyId};

/// A type that is seen in a body, whether the table has it or not: the type of an operand or of what an rvalue makes.
/// `WithFlag` is the tuple of a scalar and a `bool`.
#[derive(Clone, Copy, Debug, Drop)]
pub enum Seen {
    InTable(TyId),
    Scalar(ScalarTy),
    Unit,
    WithFlag(ScalarTy),
    Ref(TyId),
    RefMut(TyId),
    Named(u32),
}
