use crate::{BlockText, Items, Lined, PathText, TypeText};
use mir_syntax::{Inline, List};

/// `name : type`
#[derive(Debug, Drop)]
pub struct FieldText {
    pub name: u32,
    pub ty: TypeText,
}

/// The fields of a struct or of a variant.
#[derive(Debug, Drop)]
pub enum FieldsText {
    Plain,
    Tupled(Items<TypeText>),
    Labelled(Items<FieldText>),
}

/// A variant of an enum: its name, by its number, and its fields.
#[derive(Debug, Drop)]
pub struct VariantText {
    pub name: u32,
    pub fields: FieldsText,
}

/// `_local : type`, of an argument or a `let` line.
#[derive(Debug, Drop)]
pub struct ArgText {
    pub local: u32,
    pub ty: TypeText,
}

/// A function with a body.
#[derive(Debug, Drop)]
pub struct FnText {
    pub inline: Inline,
    pub is_drop: bool,
    pub path: PathText,
    pub args: Items<Lined<ArgText>>,
    pub result: TypeText,
    /// The `let` lines, those in scopes too, in their order.
    pub lets: List<Lined<ArgText>>,
    pub blocks: List<BlockText>,
}

/// An item of a file.
#[derive(Debug, Drop)]
pub enum ItemText {
    Struct(PathText, FieldsText),
    Enum(PathText, Items<VariantText>),
    /// An outside function: its path, its arguments' types and its result.
    Extern(PathText, Items<TypeText>, TypeText),
    Function(FnText),
}

/// A whole file: its items, each with its line.
#[derive(Debug, Drop)]
pub struct FileText {
    pub items: List<Lined<ItemText>>,
}
