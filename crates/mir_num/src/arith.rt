ghost use Rattle.std.specs.Prelude.{◌≡◌, ◌≢◌, ℕ, ◌<◌, ◌^◌, ℤ, pos, FitsSigned, SomeIff, MatchOption};
ghost use Rattle.std.specs.Int.{w128};
ghost use Rattle.mir_num.specs.Numbers.{integer_of, bits_of, exactly, exact};
ghost use Rattle.mir_num.specs.Numbers as num;

use crate::values::{fitted, mask, pattern, signed_value, wrap};
use crate::widths::signed;
use mir_syntax::{OverOp, ScalarTy};

// The exact result, where an i128 holds it.
fn exact_signed(op: OverOp, x: i128, y: i128) -> Option<i128>
    ensures { SomeIff result (FitsSigned w128 (exact op x y)) (exact op x y) }
{
    match op {
        OverOp::Add => x.checked_add(y),
        OverOp::Sub => x.checked_sub(y),
        OverOp::Mul => x.checked_mul(y),
    }
}

// The exact result, where a u128 holds it.
fn exact_unsigned(op: OverOp, x: u128, y: u128) -> Option<u128>
    ensures { MatchOption result ((n : ℕ) → n < 2 ^ 128 → exact op (pos x) (pos y) ≢ pos n) (λ n. exact op (pos x) (pos y) ≡ pos n) }
{
    match op {
        OverOp::Add => x.checked_add(y),
        OverOp::Sub => x.checked_sub(y),
        OverOp::Mul => x.checked_mul(y),
    }
}

/// The exact result, where it fits the type.
pub fn checked(op: OverOp, ty: ScalarTy, a: u128, b: u128) -> Option<u128>
    ensures { result ≡ exactly ty (exact op (integer_of ty a) (integer_of ty b)) }
{
    if signed(ty) {
        let exact = exact_signed(op, signed_value(ty, a), signed_value(ty, b))?;
        fitted(ty, exact)
    } else {
        let exact = exact_unsigned(op, wrap(ty, a), wrap(ty, b))?;
        if exact <= mask(ty) { Some(exact) } else { None }
    }
}

/// The wrapped result.
pub fn wrapping(op: OverOp, ty: ScalarTy, a: u128, b: u128) -> u128
    ensures { result ≡ bits_of ty (exact op (integer_of ty a) (integer_of ty b)) }
{
    match op {
        OverOp::Add => wrap(ty, a.wrapping_add(b)),
        OverOp::Sub => wrap(ty, a.wrapping_sub(b)),
        OverOp::Mul => wrap(ty, a.wrapping_mul(b)),
    }
}

/// The quotient, truncated toward zero. None by zero, and of the least value by -1.
pub fn quotient(ty: ScalarTy, a: u128, b: u128) -> Option<u128>
    ensures { result ≡ num.quotient ty (integer_of ty a) (integer_of ty b) }
{
    if signed(ty) {
        let quotient = signed_value(ty, a).checked_div(signed_value(ty, b))?;
        fitted(ty, quotient)
    } else {
        wrap(ty, a).checked_div(wrap(ty, b))
    }
}

/// What the quotient leaves, with the sign of the left operand. None where the quotient is None.
pub fn remainder(ty: ScalarTy, a: u128, b: u128) -> Option<u128>
    ensures { result ≡ num.remainder ty (integer_of ty a) (integer_of ty b) }
{
    let _quotient = quotient(ty, a, b)?;
    if signed(ty) {
        let rest = signed_value(ty, a).checked_rem(signed_value(ty, b))?;
        Some(pattern(ty, rest))
    } else {
        wrap(ty, a).checked_rem(wrap(ty, b))
    }
}
