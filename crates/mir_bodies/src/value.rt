ghost use Rattle.std.specs.Prelude.{◌≡◌, ◌+◌, ◌-◌, ◌<◌};
ghost use Rattle.mir_text.specs.Numbers as numbers;
ghost use Rattle.mir_text.specs.NamedBodies.{value_named};
ghost use Rattle.mir_tree.specs.Bodies.{value_rule};

use mir_syntax::{Const, IntTy};
use mir_tree::ValueText;

/// The greatest bits of a type.
fn greatest_bits(ty: IntTy) -> u128
    ensures { result + 1 ≡ numbers.count ty }
{
    match ty {
        IntTy::I8 | IntTy::U8 => 0xff,
        IntTy::I16 | IntTy::U16 => 0xffff,
        IntTy::I32 | IntTy::U32 => 0xffff_ffff,
        IntTy::I64 | IntTy::U64 | IntTy::Isize | IntTy::Usize => 0xffff_ffff_ffff_ffff,
        IntTy::I128 | IntTy::U128 => u128::MAX,
    }
}

/// The bits of the least number of a type.
fn least(ty: IntTy) -> u128
    ensures { result ≡ numbers.least ty }
{
    match ty {
        IntTy::I8 => 1 << 7,
        IntTy::I16 => 1 << 15,
        IntTy::I32 => 1 << 31,
        IntTy::I64 | IntTy::Isize => 1 << 63,
        IntTy::I128 => 1 << 127,
        IntTy::U8 | IntTy::U16 | IntTy::U32 | IntTy::U64 | IntTy::U128 | IntTy::Usize => 0,
    }
}

/// The bits of the greatest number of a type.
fn greatest(ty: IntTy) -> u128
    ensures { result ≡ numbers.greatest ty }
{
    match ty {
        IntTy::I8 => 127,
        IntTy::I16 => 32_767,
        IntTy::I32 => 2_147_483_647,
        IntTy::I64 | IntTy::Isize => 9_223_372_036_854_775_807,
        IntTy::I128 => 170_141_183_460_469_231_731_687_303_715_884_105_727,
        IntTy::U8 => 255,
        IntTy::U16 => 65_535,
        IntTy::U32 => 4_294_967_295,
        IntTy::U64 | IntTy::Usize => 18_446_744_073_709_551_615,
        IntTy::U128 => 340_282_366_920_938_463_463_374_607_431_768_211_455,
    }
}

/// The bits of minus a number.
fn bits_below(size: u128, ty: IntTy) -> u128
    requires { 0 < size }
    ensures { result ≡ numbers.count ty - size }
{
    let greatest = greatest_bits(ty);
    if size <= greatest {
        greatest - size + 1
    } else {
        0
    }
}

/// The bits of a number, with a minus or not.
fn bits_of(negative: bool, size: u128, ty: IntTy) -> u128
    ensures { result ≡ numbers.bits_of negative size ty }
{
    if !negative {
        size
    } else if size == 0 {
        0
    } else {
        bits_below(size, ty)
    }
}

/// A constant.
pub fn value_of(text: &ValueText) -> Const
    ensures { result ≡ value_named (value_rule text.now) }
{
    match text {
        ValueText::Number(negative, ty, size) => Const::Int(*ty, bits_of(*negative, *size, *ty)),
        ValueText::Bool(is) => Const::Bool(*is),
        ValueText::Unit => Const::Unit,
        ValueText::Least(ty) => Const::Int(*ty, least(*ty)),
        ValueText::Most(ty) => Const::Int(*ty, greatest(*ty)),
    }
}
