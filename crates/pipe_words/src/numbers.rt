ghost use Rattle.std.specs.Prelude.{◌≡◌, ◌<◌, ◌≤◌, ◌^◌, ◌↔◌, ℕ, List, IsTrue, true, IfOk, Some, MatchOption, decimal, map};
ghost use Rattle.mir_syntax.specs.declared.number.Number as declared;
ghost use Rattle.pipe_words.specs.Numbers.{InRange, number_text, IsNumbers, IsBetween, wrapped};
ghost use Rattle.pipe_words.specs.Tokens.{number_found};

use itoa::Buffer;
use mir_lex::{Found, Kind, first_piece};
use mir_syntax::{List, Number, OutOfMemory};
use std::alloc::Global;

// Whether a text is how a number is written.
fn is_decimal(number: u128, text: &[u8]) -> bool
    ensures { IsTrue result ↔ (text.now ≡ decimal number) }
{
    Buffer::new().format(number).as_bytes() == text
}

// The number that a token without a suffix writes.
fn number_of(found: Found) -> Option<u128>
    ensures { result ≡ number_found found }
{
    match found {
        Found::Token(Kind::Number(number, None)) => Some(number),
        _ => None,
    }
}

// The number that a text is, as one token without a suffix.
#[tactic(auto, using(crate::proofs::Tokens::digits_found))]
fn token_number(text: &[u8]) -> Option<u128>
    ensures { (n : ℕ) → n < 2 ^ 128 → text.now ≡ decimal n → result ≡ Some n }
{
    if text.is_empty() {
        return None;
    }
    match first_piece(text) {
        Ok((found, rest)) => {
            if rest.is_empty() {
                number_of(found)
            } else {
                None
            }
        }
        Err(_) => None,
    }
}

// The number that digits write, with no superfluous zero.
fn read_size(text: &[u8]) -> Option<u128>
    ensures { MatchOption result ((n : ℕ) → n < 2 ^ 128 → text.now ≡ decimal n → ⊥) (λ n. (n < 2 ^ 128) × (text.now ≡ decimal n)) }
{
    match token_number(text) {
        Some(number) => {
            if is_decimal(number, text) {
                Some(number)
            } else {
                None
            }
        }
        None => None,
    }
}

const LEAST_SIZE: u128 = 1 << 127;

// The number that digits behind a minus write.
fn read_negative(digits: &[u8]) -> Option<u128>
    ensures { MatchOption result ((n : ℕ) → InRange true n → digits.now ≡ decimal n → ⊥) (λ n. InRange true n × (digits.now ≡ decimal n)) }
{
    match read_size(digits) {
        Some(size) => {
            if 0 < size && size <= LEAST_SIZE {
                Some(size)
            } else {
                None
            }
        }
        None => None,
    }
}

// The number that a text writes.
#[tactic(auto, using(crate::proofs::Tokens::no_minus))]
fn read_number(text: &[u8]) -> Option<Number>
    ensures { MatchOption result ((n : declared.Number) → InRange n.negative n.size → text.now ≡ number_text n → ⊥) (λ n. InRange n.negative n.size × (text.now ≡ number_text n)) }
{
    match text {
        [b'-', digits @ ..] => match read_negative(digits) {
            Some(size) => Some(Number {
                negative: true,
                size,
            }),
            None => None,
        },
        _ => match read_size(text) {
            Some(size) => Some(Number {
                negative: false,
                size,
            }),
            None => None,
        },
    }
}

/// The numbers that a word lists.
///
/// # Errors
///
/// `OutOfMemory`.
pub fn read_numbers(alloc: Global, word: &str) -> Result<Option<List<Number>>, OutOfMemory>
    ensures { IfOk result (λ found. MatchOption found ((ns : List declared.Number) → IsNumbers word.now ns → ⊥) (λ ns. IsNumbers word.now ns)) }
{
    let mut numbers = List::new(alloc);
    if word == "-" {
        return Ok(Some(numbers));
    }
    for part in word.split(',') {
        match read_number(part.as_bytes()) {
            Some(number) => numbers.push(number)?,
            None => return Ok(None),
        }
    }
    Ok(Some(numbers))
}

// A number modulo 2^128.
fn wrap(number: Number) -> u128
    ensures { result ≡ wrapped number }
{
    if number.negative {
        0u128.wrapping_sub(number.size)
    } else {
        number.size
    }
}

/// Numbers modulo 2^128.
///
/// # Errors
///
/// `OutOfMemory`.
pub fn wrap_all(alloc: Global, numbers: &[Number]) -> Result<List<u128>, OutOfMemory>
    ensures { IfOk result (λ bits. bits ≡ map wrapped numbers.now) }
{
    let mut bits = List::with_capacity(alloc, numbers.len())?;
    for number in numbers {
        bits.push(wrap(*number))?;
    }
    Ok(bits)
}

/// The number between two, or one of the two, that a word writes.
pub fn read_between(word: &[u8], least: u32, most: u32) -> Option<u32>
    ensures { MatchOption result ((n : ℕ) → IsBetween least most word.now n → ⊥) (λ n. IsBetween least most word.now n) }
{
    match read_size(word) {
        Some(number) => {
            if u128::from(least) <= number && number <= u128::from(most) {
                Some(number as u32)
            } else {
                None
            }
        }
        None => None,
    }
}
