ghost use Rattle.std.specs.Prelude.{◌≡◌, ◌+◌, ℤ, pos, int_lt, int_le, IsTrue, IsFalse};
ghost use Rattle.mir_num.specs.Widths.{is_signed, patterns};
ghost use Rattle.mir_num.specs.Numbers as num;
ghost use Rattle.mir_num.specs.Numbers.{integer_of, bits_of, exactly};

use crate::widths::{signed, width};
use mir_syntax::ScalarTy;

/// The greatest pattern of a type: ones at all its bits.
pub fn mask(ty: ScalarTy) -> u128
    ensures { result + 1 ≡ patterns ty }
{
    u128::MAX >> (128 - width(ty))
}

/// The low bits of a number, as many as the type has.
pub fn wrap(ty: ScalarTy, a: u128) -> u128
    ensures { result ≡ num.wrap ty a }
{
    a & mask(ty)
}

/// The integer that a pattern of a type with a sign stands for.
pub fn signed_value(ty: ScalarTy, a: u128) -> i128
    requires { IsTrue (is_signed ty) }
    ensures { result ≡ integer_of ty a }
{
    let mask = mask(ty);
    let low = a & mask;
    if low <= mask >> 1 {
        low as i128
    } else {
        -1 - (mask - low) as i128
    }
}

/// The pattern that stands for an integer, the integer wrapped.
pub fn pattern(ty: ScalarTy, value: i128) -> u128
    ensures { result ≡ bits_of ty value }
{
    wrap(ty, value.cast_unsigned())
}

/// The pattern of an integer of a type with a sign, where it fits.
pub fn fitted(ty: ScalarTy, value: i128) -> Option<u128>
    requires { IsTrue (is_signed ty) }
    ensures { result ≡ exactly ty value }
{
    let greatest = (mask(ty) >> 1) as i128;
    if -1 - greatest <= value && value <= greatest {
        Some(pattern(ty, value))
    } else {
        None
    }
}

/// Whether one pattern's integer is below another's.
pub fn less(ty: ScalarTy, a: u128, b: u128) -> bool
    ensures { result ≡ int_lt (integer_of ty a) (integer_of ty b) }
{
    if signed(ty) {
        signed_value(ty, a) < signed_value(ty, b)
    } else {
        wrap(ty, a) < wrap(ty, b)
    }
}
