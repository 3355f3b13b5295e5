ghost use Rattle.std.specs.Prelude.{◌≡◌};
ghost use Rattle.mir_num.specs.Widths.{int_width, int_signed, width_of, is_signed};

use mir_syntax::{IntTy, ScalarTy};

fn int_bits(ty: IntTy) -> u32
    ensures { result ≡ int_width ty }
{
    match ty {
        IntTy::I8 | IntTy::U8 => 8,
        IntTy::I16 | IntTy::U16 => 16,
        IntTy::I32 | IntTy::U32 => 32,
        IntTy::I64 | IntTy::U64 | IntTy::Isize | IntTy::Usize => 64,
        IntTy::I128 | IntTy::U128 => 128,
    }
}

fn has_sign(ty: IntTy) -> bool
    ensures { result ≡ int_signed ty }
{
    match ty {
        IntTy::I8 | IntTy::I16 | IntTy::I32 | IntTy::I64 | IntTy::I128 | IntTy::Isize => true,
        _ => false,
    }
}

/// How many bits a scalar has: 1 for `bool`, 64 for `usize` and `isize`.
pub fn width(ty: ScalarTy) -> u32
    ensures { result ≡ width_of ty }
{
    match ty {
        ScalarTy::Bool => 1,
        ScalarTy::Int(int) => int_bits(int),
    }
}

/// Whether a scalar has a sign; a `bool` has none.
pub fn signed(ty: ScalarTy) -> bool
    ensures { result ≡ is_signed ty }
{
    match ty {
        ScalarTy::Bool => false,
        ScalarTy::Int(int) => has_sign(int),
    }
}
