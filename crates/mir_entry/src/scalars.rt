ghost use Rattle.std.specs.Prelude.{◌≡◌, ◌<◌, ◌+◌, pos, neg_ℤ};
ghost use Rattle.mir_num.specs.Widths.{patterns, negatives};
ghost use Rattle.mir_num.specs.Numbers.{exactly};
ghost use Rattle.mir_machine.specs.Ends.{integer_in};

use mir_num::{signed, width};
use mir_syntax::{Number, ScalarTy};

/// The greatest pattern of a type: ones at all its bits.
fn ones(ty: ScalarTy) -> u128
    ensures { result + 1 ≡ patterns ty }
{
    u128::MAX >> (128 - width(ty))
}

/// The greatest integer of a type.
fn greatest(ty: ScalarTy) -> u128
    ensures { result + 1 + negatives ty ≡ patterns ty }
{
    if signed(ty) { ones(ty) >> 1 } else { ones(ty) }
}

/// How far the integers of a type go below zero.
fn lowest(ty: ScalarTy) -> u128
    ensures { result ≡ negatives ty }
{
    if signed(ty) { greatest(ty) + 1 } else { 0 }
}

/// The bits of a number that isn't negative, where it is one of the type's.
fn bits_up(ty: ScalarTy, size: u128) -> Option<u128>
    ensures { result ≡ exactly ty (pos size) }
{
    if size <= greatest(ty) {
        Some(size)
    } else {
        None
    }
}

/// The bits of a negative number, where it is one of the type's.
fn bits_down(ty: ScalarTy, size: u128) -> Option<u128>
    requires { 0 < size }
    ensures { result ≡ exactly ty (neg_ℤ (pos size)) }
{
    let lowest = lowest(ty);
    if size <= lowest {
        Some(greatest(ty) + 1 + (lowest - size))
    } else {
        None
    }
}

/// The bits of a number, where it is one of the type's.
pub fn scalar_bits(ty: ScalarTy, number: Number) -> Option<u128>
    ensures { result ≡ exactly ty (integer_in number) }
{
    if number.negative && number.size > 0 {
        bits_down(ty, number.size)
    } else {
        bits_up(ty, number.size)
    }
}
