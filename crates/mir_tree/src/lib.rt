//! A file as it is written: what the parser makes of a text's symbols, and what the resolver finds names in.
//!
//! Each type here is one rule of the grammar, with names and strings by their numbers; commas after the last item of a list are kept, so a
//! tree tells its derivation. `specs/Rules.antt` says which derivation that is (`lined_item`): all of it but the `debug` lines and scopes of a
//! function, of which only the `let` lines are kept.
#![tactic(auto)]

mod body;
mod item;
mod operand;
mod rvalue;
mod ty;

pub use body::{ArmText, BlockText, StmtText, TermText, UnwindText};
pub use item::{ArgText, FieldText, FieldsText, FileText, FnText, ItemText, VariantText};
use mir_syntax::List;
pub use operand::{OperandText, PlaceText, ProjText, ValueText};
pub use rvalue::{BuildText, NamedText, RvalueText};
pub use ty::{PathText, TypePart, TypeText};

/// Items with commas between them.
#[derive(Debug, Drop)]
pub struct Items<T> {
    pub items: List<T>,
    /// Whether a comma stands after the last one.
    pub trailing: bool,
}

/// A part of a file, and the line of its first symbol.
#[derive(Debug, Drop)]
pub struct Lined<T> {
    pub line: u32,
    pub part: T,
}
