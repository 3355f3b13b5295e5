ghost use Rattle.std.specs.Prelude.{◌≡◌, ◌<◌, ◌%◌};
ghost use Rattle.std.specs.Int.{int_shr};
ghost use Rattle.mir_syntax.specs.declared.types.ScalarTy.TheVariants.{Int};
ghost use Rattle.mir_num.specs.Widths.{width_of};
ghost use Rattle.mir_num.specs.Numbers.{integer_of, bits_of};
ghost use Rattle.mir_num.specs.Numbers as num;

use crate::arith::{checked, quotient, remainder, wrapping};
use crate::values::{less, pattern, signed_value, wrap};
use crate::widths::{signed, width};
use mir_syntax::{BinOp, IntTy, OverOp, ScalarTy, UnOp};

/// The pattern of a truth value.
pub fn flag(holds: bool) -> u128
    ensures { result ≡ num.flag holds }
{
    if holds { 1 } else { 0 }
}

// A shift's amount is taken modulo the width.
fn amount(ty: ScalarTy, b: u128) -> u32
    ensures { result ≡ b % width_of ty }
{
    (b % width(ty) as u128) as u32
}

fn shifted_right(ty: ScalarTy, a: u128, bits: u32) -> u128
    requires { bits < width_of ty }
    ensures { result ≡ bits_of ty (int_shr (integer_of ty a) bits) }
{
    if signed(ty) {
        pattern(ty, signed_value(ty, a) >> bits)
    } else {
        wrap(ty, a) >> bits
    }
}

/// The result of an operator on two patterns of a type; for a shift the type is the left operand's. None where the run is
/// undefined: `Div` and `Rem` by zero and of the least value by -1, and an unchecked operator whose exact result does not fit.
pub fn binop(op: BinOp, ty: ScalarTy, a: u128, b: u128) -> Option<u128>
    ensures { result ≡ num.binop op ty a b }
{
    match op {
        BinOp::Add => Some(wrapping(OverOp::Add, ty, a, b)),
        BinOp::Sub => Some(wrapping(OverOp::Sub, ty, a, b)),
        BinOp::Mul => Some(wrapping(OverOp::Mul, ty, a, b)),
        BinOp::Div => quotient(ty, a, b),
        BinOp::Rem => remainder(ty, a, b),
        BinOp::BitXor => Some(wrap(ty, a ^ b)),
        BinOp::BitAnd => Some(wrap(ty, a & b)),
        BinOp::BitOr => Some(wrap(ty, a | b)),
        BinOp::Shl => Some(wrap(ty, a << amount(ty, b))),
        BinOp::Shr => Some(shifted_right(ty, a, amount(ty, b))),
        BinOp::Eq => Some(flag(wrap(ty, a) == wrap(ty, b))),
        BinOp::Ne => Some(flag(wrap(ty, a) != wrap(ty, b))),
        BinOp::Lt => Some(flag(less(ty, a, b))),
        BinOp::Le => Some(flag(!less(ty, b, a))),
        BinOp::Gt => Some(flag(less(ty, b, a))),
        BinOp::Ge => Some(flag(!less(ty, a, b))),
        BinOp::AddUnchecked => checked(OverOp::Add, ty, a, b),
        BinOp::SubUnchecked => checked(OverOp::Sub, ty, a, b),
        BinOp::MulUnchecked => checked(OverOp::Mul, ty, a, b),
    }
}

/// The wrapped result of an operator that tells overflow, and whether the exact result does not fit.
pub fn over(op: OverOp, ty: IntTy, a: u128, b: u128) -> (u128, bool)
    ensures { result ≡ num.over op (Int ty) a b }
{
    over_scalar(op, ScalarTy::Int(ty), a, b)
}

/// The same at any scalar type: at `bool` too, at which no valid program asks it.
pub fn over_scalar(op: OverOp, ty: ScalarTy, a: u128, b: u128) -> (u128, bool)
    ensures { result ≡ num.over op ty a b }
{
    (wrapping(op, ty, a, b), checked(op, ty, a, b).is_none())
}

/// Every bit turned, or the wrapped negation.
pub fn unary(op: UnOp, ty: ScalarTy, a: u128) -> u128
    ensures { result ≡ num.unary op ty a }
{
    match op {
        UnOp::Not => wrap(ty, !a),
        UnOp::Neg => wrap(ty, 0u128.wrapping_sub(a)),
    }
}

/// The pattern of the same integer in another type, wrapped: it truncates, or extends by the sign of the type that it is cast from.
pub fn cast(from: ScalarTy, to: IntTy, a: u128) -> u128
    ensures { result ≡ num.cast from (Int to) a }
{
    cast_scalar(from, ScalarTy::Int(to), a)
}

/// The same to any scalar type: to `bool` too, to which no valid program casts.
pub fn cast_scalar(from: ScalarTy, to: ScalarTy, a: u128) -> u128
    ensures { result ≡ num.cast from to a }
{
    if signed(from) {
        pattern(to, signed_value(from, a))
    } else {
        wrap(to, wrap(from, a))
    }
}
