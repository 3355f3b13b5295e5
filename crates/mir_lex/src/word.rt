ghost use Rattle.std.specs.Prelude.{◌≡◌, ◌+◌, ◌<◌, ◌≤◌, length, map, true};
ghost use Rattle.std.specs.Prelude.{IfSome};
ghost use Rattle.std.specs.List.{prefix_len};
ghost use Rattle.mir_text.specs.Symbols.{block_digits};
ghost use Rattle.mir_lex.specs.Tokens.{SeenOption};
ghost use Rattle.mir_text.specs.Words.{place_from, word_place};
ghost use Rattle.mir_lex.specs.Tokens as spec;
ghost use Rattle.mir_text.specs.Bytes as text;

use crate::Kind;
use crate::number::{are_digits, value};

const WORDS: [&[u8]; 95] = [
    b"i8",
    b"i16",
    b"i32",
    b"i64",
    b"i128",
    b"isize",
    b"u8",
    b"u16",
    b"u32",
    b"u64",
    b"u128",
    b"usize",
    b"bool",
    b"true",
    b"false",
    b"fn",
    b"struct",
    b"enum",
    b"extern",
    b"drop",
    b"let",
    b"mut",
    b"debug",
    b"scope",
    b"copy",
    b"move",
    b"const",
    b"as",
    b"goto",
    b"switchInt",
    b"return",
    b"unreachable",
    b"assert",
    b"otherwise",
    b"unwind",
    b"continue",
    b"nop",
    b"StorageLive",
    b"StorageDead",
    b"discriminant",
    b"Add",
    b"Sub",
    b"Mul",
    b"Div",
    b"Rem",
    b"BitXor",
    b"BitAnd",
    b"BitOr",
    b"Shl",
    b"Shr",
    b"Eq",
    b"Ne",
    b"Lt",
    b"Le",
    b"Gt",
    b"Ge",
    b"AddWithOverflow",
    b"SubWithOverflow",
    b"MulWithOverflow",
    b"Not",
    b"Neg",
    b"AddUnchecked",
    b"SubUnchecked",
    b"MulUnchecked",
    b"f16",
    b"f32",
    b"f64",
    b"f128",
    b"char",
    b"str",
    b"dyn",
    b"impl",
    b"static",
    b"union",
    b"promoted",
    b"FakeRead",
    b"PlaceMention",
    b"AscribeUserType",
    b"Retag",
    b"Coverage",
    b"ConstEvalCounter",
    b"Deinit",
    b"falseEdge",
    b"falseUnwind",
    b"resume",
    b"terminate",
    b"yield",
    b"cleanup",
    b"deref_copy",
    b"Len",
    b"Offset",
    b"Cmp",
    b"PtrMetadata",
    b"ShlUnchecked",
    b"ShrUnchecked",
];

/// The place of a text in a table, counted on from a number.
fn place(mut table: &[&[u8]], from: u8, text: &[u8]) -> Option<u8>
    requires { from + length table.now < 256 }
    ensures { result ≡ place_from from (map (λ w. w.now) table.entry.now) text.now }
{
    let mut k = from;
    while let [word, rest @ ..] = table {
        // Most words differ in their length or first byte.
        if word.len() == text.len() && word.first() == text.first() && *word == text {
            return Some(k);
        }
        k += 1;
        table = rest;
    }
    None
}

/// The place of a reserved word.
#[tactic(auto, unfolding(mir_text::specs::Words::word_place))]
fn word_place(text: &[u8]) -> Option<u8>
    ensures { result ≡ word_place text.now }
{
    place(&WORDS, 0, text)
}

/// Whether a name may go on with the byte: a letter, a digit or `_`.
pub fn is_name_byte(byte: u8) -> bool
    ensures { result ≡ text.is_name_byte byte }
{
    byte.is_ascii_alphabetic() || byte.is_ascii_digit() || byte == b'_'
}

/// The digits of a block's name.
#[tactic(auto, unfolding(mir_text::specs::Symbols::block_digits))]
fn block_digits(text: &[u8]) -> Option<&[u8]>
    ensures digits { SeenOption (λ f. f.now) result (block_digits text.now) }
    ensures all { IfSome result (λ f. spec.AreDigits f.now) }
{
    match text {
        [a, b, rest @ ..] => {
            if *a == b'b' && *b == b'b' && are_digits(rest) {
                Some(rest)
            } else {
                None
            }
        }
        _ => None,
    }
}

#[tactic(auto, unfolding(crate::specs::Tokens::block_of))]
fn numbered_block(digits: &[u8]) -> Kind
    requires { spec.AreDigits digits.now }
    ensures { result ≡ spec.block_of digits.now }
{
    match value(digits) {
        Some(number) if number < 4_294_967_296 => Kind::Block(number as u32),
        _ => Kind::Large,
    }
}

/// What letters, digits and `_` are together.
#[inline(always)]
#[tactic(auto, unfolding(crate::specs::Tokens::kind_of))]
fn kind_of(text: &[u8]) -> Kind
    ensures { result ≡ spec.kind_of text.now }
{
    match block_digits(text) {
        Some(digits) => numbered_block(digits),
        None => match word_place(text) {
            Some(place) => Kind::Word(place),
            None => Kind::Name,
        },
    }
}

#[tactic(auto, using(crate::proofs::Digits::some_byte))]
fn name_len(bytes: &[u8]) -> usize
    ensures count { result ≡ prefix_len text.is_name_byte bytes.now }
    ensures within { result ≤ length bytes.now }
    ensures some { text.begins text.is_name_byte bytes.now ≡ true → 0 < result }
{
    bytes.iter().take_while(|b| is_name_byte(**b)).count()
}

/// The letters, digits and `_` at the front.
#[inline(always)]
#[tactic(auto, unfolding(crate::specs::Tokens::word_at))]
pub fn read_word(bytes: &[u8]) -> (Kind, &[u8])
    requires { text.begins text.is_name_byte bytes.now ≡ true }
    ensures kind { result.0 ≡ (spec.word_at bytes.now).0 }
    ensures rest { result.1.now ≡ (spec.word_at bytes.now).1 }
    ensures shorter { length result.1.now < length bytes.now }
{
    let (text, rest) = bytes.split_at(name_len(bytes));
    (kind_of(text), rest)
}
