ghost use Rattle.std.specs.Prelude.{◌≡◌, ◌<◌, ◌≤◌, ◌∷◌, length, true, IfOk, IfErr};
ghost use Rattle.std.specs.List.{prefix_len};
ghost use Rattle.mir_lex.specs.Tokens.{Seen};
ghost use Rattle.mir_lex.specs.Tokens as spec;
ghost use Rattle.mir_text.specs.Bytes as text;
ghost use Rattle.mir_lex.specs.Pieces.{IsFound, FaultAt};

use crate::Kind;
use crate::number::{begins_digit, digits, read_number, value};
use crate::sign::read_sign;
use crate::string::past_text;
use crate::word::{is_name_byte, read_word};

/// What stands at the front of a text.
#[derive(Clone, Copy, Debug, Drop, PartialEq, Eq)]
pub enum Found {
    /// A space, a tab or a carriage return.
    Blank,
    /// A line feed.
    Line,
    /// A comment, up to the end of its line.
    Comment,
    Token(Kind),
}

#[tactic(auto, unfolding(crate::specs::Tokens::local_of))]
fn numbered_local(digits: &[u8]) -> Kind
    requires { spec.AreDigits digits.now }
    ensures { result ≡ spec.local_of digits.now }
{
    match value(digits) {
        Some(number) if number < 4_294_967_296 => Kind::Local(number as u32),
        _ => Kind::Large,
    }
}

fn begins_name(bytes: &[u8]) -> bool
    ensures { result ≡ text.begins text.is_name_byte bytes.now }
{
    match bytes {
        [first, ..] => is_name_byte(*first),
        [] => false,
    }
}

/// What begins with `_`: a local or a name.
#[inline(always)]
#[tactic(auto, unfolding(crate::specs::Tokens::underscore_at))]
fn read_underscore<'a>(bytes: &'a [u8], past: &'a [u8]) -> Result<(Kind, &'a [u8]), u8>
    requires { bytes.now ≡ 95 ∷ past.now }
    ensures read { Seen (λ f. (f.0, f.1.now)) result (spec.underscore_at past.now) }
    ensures shorter { IfOk result (λ f. length f.1.now < length bytes.now) }
{
    if begins_digit(past) {
        let (front, rest) = digits(past);
        Ok((numbered_local(front), rest))
    } else if begins_name(past) {
        Ok(read_word(bytes))
    } else {
        Err(1)
    }
}

/// The token that begins with a byte.
#[inline(always)]
#[tactic(auto, unfolding(crate::specs::Tokens::token_at))]
fn read_token<'a>(bytes: &'a [u8], first: u8, past: &'a [u8]) -> Result<(Kind, &'a [u8]), u8>
    requires { bytes.now ≡ first ∷ past.now }
    ensures read { Seen (λ f. (f.0, f.1.now)) result (spec.token_at first past.now) }
    ensures shorter { IfOk result (λ f. length f.1.now < length bytes.now) }
{
    if first.is_ascii_digit() {
        read_number(bytes)
    } else if first.is_ascii_alphabetic() {
        Ok(read_word(bytes))
    } else if first == b'_' {
        read_underscore(bytes, past)
    } else if first == b'"' {
        match past_text(past) {
            Some(rest) => Ok((Kind::Text, rest)),
            None => Err(3),
        }
    } else {
        read_sign(first, past)
    }
}

fn line_len(bytes: &[u8]) -> usize
    ensures count { result ≡ prefix_len text.is_in_line bytes.now }
    ensures within { result ≤ length bytes.now }
{
    bytes.iter().take_while(|b| **b != b'\n').count()
}

/// A comment.
#[tactic(auto, unfolding(crate::specs::Tokens::slash_at))]
fn read_slash(past: &[u8]) -> Result<(Found, &[u8]), u8>
    ensures read { Seen (λ f. (f.0, f.1.now)) result (spec.slash_at past.now) }
    ensures within { IfOk result (λ f. length f.1.now ≤ length past.now) }
{
    match past {
        [b'/', ..] => {
            let (_, rest) = past.split_at(line_len(past));
            Ok((Found::Comment, rest))
        }
        _ => Err(1),
    }
}

/// What stands at the front of a text that begins with a byte, and what follows it.
///
/// # Errors
///
/// The code of the fault, where no piece stands there: 1, 2 or 3, as in `LexFault`.
#[inline(always)]
#[tactic(auto, unfolding(crate::specs::Tokens::found_at))]
pub fn read_found<'a>(bytes: &'a [u8], first: u8, past: &'a [u8]) -> Result<(Found, &'a [u8]), u8>
    requires { bytes.now ≡ first ∷ past.now }
    ensures read { Seen (λ f. (f.0, f.1.now)) result (spec.found_at first past.now) }
    ensures shorter { IfOk result (λ f. length f.1.now < length bytes.now) }
{
    match first {
        b' ' | b'\t' | b'\r' => Ok((Found::Blank, past)),
        b'\n' => Ok((Found::Line, past)),
        b'/' => read_slash(past),
        _ => {
            let (kind, rest) = read_token(bytes, first, past)?;
            Ok((Found::Token(kind), rest))
        }
    }
}

#[inline(always)]
fn first_found(bytes: &[u8]) -> Result<(Found, &[u8]), u8>
    requires { 0 < length bytes.now }
    ensures read { Seen (λ f. (f.0, f.1.now)) result (spec.found_from bytes.now) }
    ensures shorter { IfOk result (λ f. length f.1.now < length bytes.now) }
{
    match bytes {
        [first, past @ ..] => read_found(bytes, *first, past),
        [] => Err(1),
    }
}

/// The longest piece at the front of a text that has not ended, and what follows it.
///
/// # Errors
///
/// The code of the fault, where no piece stands there: 1, 2 or 3, as in `LexFault`.
#[inline(always)]
#[tactic(auto, using(crate::proofs::PiecesSound::front_sound, crate::proofs::PiecesSound::front_fault))]
pub fn first_piece(bytes: &[u8]) -> Result<(Found, &[u8]), u8>
    requires { 0 < length bytes.now }
    ensures read { Seen (λ f. (f.0, f.1.now)) result (spec.found_from bytes.now) }
    ensures piece { IfOk result (λ f. IsFound bytes.now f.0 f.1.now) }
    ensures fault { IfErr result (λ code. FaultAt bytes.now code) }
    ensures shorter { IfOk result (λ f. length f.1.now < length bytes.now) }
{
    first_found(bytes)
}
