ghost use Rattle.std.specs.Prelude.{◌≡◌, get_or};
ghost use Rattle.mir_text.specs.Symbols.{word_symbol};
ghost use Rattle.mir_symbols.specs.Scan as spec;

use mir_lex::Kind;
use mir_syntax::{BinOp, IntTy, OverOp, UnOp};
use mir_text::Symbol;

/// The symbols of the used reserved words, in the order of the words.
const WORDS: [Symbol; 64] = [
    Symbol::Int(IntTy::I8),
    Symbol::Int(IntTy::I16),
    Symbol::Int(IntTy::I32),
    Symbol::Int(IntTy::I64),
    Symbol::Int(IntTy::I128),
    Symbol::Int(IntTy::Isize),
    Symbol::Int(IntTy::U8),
    Symbol::Int(IntTy::U16),
    Symbol::Int(IntTy::U32),
    Symbol::Int(IntTy::U64),
    Symbol::Int(IntTy::U128),
    Symbol::Int(IntTy::Usize),
    Symbol::Bool,
    Symbol::True,
    Symbol::False,
    Symbol::Fn,
    Symbol::Struct,
    Symbol::Enum,
    Symbol::Extern,
    Symbol::Drop,
    Symbol::Let,
    Symbol::Mut,
    Symbol::Debug,
    Symbol::Scope,
    Symbol::Copy,
    Symbol::Move,
    Symbol::Const,
    Symbol::As,
    Symbol::Goto,
    Symbol::SwitchInt,
    Symbol::Return,
    Symbol::Unreachable,
    Symbol::Assert,
    Symbol::Otherwise,
    Symbol::Unwind,
    Symbol::Continue,
    Symbol::Nop,
    Symbol::StorageLive,
    Symbol::StorageDead,
    Symbol::Discriminant,
    Symbol::Binary(BinOp::Add),
    Symbol::Binary(BinOp::Sub),
    Symbol::Binary(BinOp::Mul),
    Symbol::Binary(BinOp::Div),
    Symbol::Binary(BinOp::Rem),
    Symbol::Binary(BinOp::BitXor),
    Symbol::Binary(BinOp::BitAnd),
    Symbol::Binary(BinOp::BitOr),
    Symbol::Binary(BinOp::Shl),
    Symbol::Binary(BinOp::Shr),
    Symbol::Binary(BinOp::Eq),
    Symbol::Binary(BinOp::Ne),
    Symbol::Binary(BinOp::Lt),
    Symbol::Binary(BinOp::Le),
    Symbol::Binary(BinOp::Gt),
    Symbol::Binary(BinOp::Ge),
    Symbol::Over(OverOp::Add),
    Symbol::Over(OverOp::Sub),
    Symbol::Over(OverOp::Mul),
    Symbol::Unary(UnOp::Not),
    Symbol::Unary(UnOp::Neg),
    Symbol::Binary(BinOp::AddUnchecked),
    Symbol::Binary(BinOp::SubUnchecked),
    Symbol::Binary(BinOp::MulUnchecked),
];

/// The symbols of the signs, in their order, but for the last one.
const SIGNS: [Symbol; 22] = [
    Symbol::Open,
    Symbol::Close,
    Symbol::OpenBrace,
    Symbol::CloseBrace,
    Symbol::OpenBracket,
    Symbol::CloseBracket,
    Symbol::Comma,
    Symbol::Semicolon,
    Symbol::Colon,
    Symbol::Colons,
    Symbol::Dot,
    Symbol::Ampersand,
    Symbol::Star,
    Symbol::Exclamation,
    Symbol::Equals,
    Symbol::Hash,
    Symbol::Minus,
    Symbol::Arrow,
    Symbol::FatArrow,
    Symbol::Less,
    Symbol::Greater,
    Symbol::Bar,
];

/// The symbol at a place of a table, or another behind its end.
fn symbol_at(table: &[Symbol], place: u8, other: Symbol) -> Symbol
    ensures { result ≡ get_or table.now place other }
{
    let place = place as usize;
    if place < table.len() {
        table[place]
    } else {
        other
    }
}

fn word_symbol(place: u8) -> Symbol
    ensures { result ≡ word_symbol place }
{
    symbol_at(&WORDS, place, Symbol::LeftOut)
}

#[tactic(auto, unfolding(crate::specs::Scan::sign_symbol))]
fn sign_symbol(place: u8) -> Symbol
    ensures { result ≡ spec.sign_symbol place }
{
    symbol_at(&SIGNS, place, Symbol::Question)
}

/// The symbol of a local or a block whose number is too large, by its bytes.
#[tactic(auto, unfolding(crate::specs::Scan::large_symbol))]
fn large_symbol(text: &[u8]) -> Symbol
    ensures { result ≡ spec.large_symbol text.now }
{
    match text {
        [b'_', ..] => Symbol::LargeLocal,
        _ => Symbol::LargeBlock,
    }
}

/// The symbol of a token that is no name and no string.
#[inline(always)]
#[tactic(auto, unfolding(crate::specs::Scan::plain_symbol))]
pub fn plain_symbol(kind: Kind, text: &[u8]) -> Symbol
    ensures { result ≡ spec.plain_symbol kind text.now }
{
    match kind {
        Kind::Local(number) => Symbol::Local(number),
        Kind::Block(number) => Symbol::Block(number),
        Kind::Number(number, None) => Symbol::Number(number),
        Kind::Number(number, Some(ty)) => Symbol::Typed(ty, number),
        Kind::Word(place) => word_symbol(place),
        Kind::Sign(place) => sign_symbol(place),
        _ => large_symbol(text),
    }
}
