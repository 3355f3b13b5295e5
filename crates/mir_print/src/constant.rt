ghost use Rattle.std.specs.Prelude.{◌≡◌, ◌++◌, ◌+◌, ◌-◌, ◌<◌, true, codes, decimal};
ghost use Rattle.mir_text.specs.Numbers.{is_signed, half, count, is_negative, size_of};
ghost use Rattle.mir_text.specs.TypeText.{piece, int_name, minus_text, const_text};
ghost use Rattle.mir_print.specs.Prints.{Goes, at};

use crate::output::Output;
use crate::types::put_int_name;
use mir_syntax::{Const, IntTy};
use pipe_io::Sink;

// The greatest bits of a type.
fn greatest_bits(ty: IntTy) -> u128
    ensures { result + 1 ≡ count ty }
{
    match ty {
        IntTy::I8 | IntTy::U8 => 0xff,
        IntTy::I16 | IntTy::U16 => 0xffff,
        IntTy::I32 | IntTy::U32 => 0xffff_ffff,
        IntTy::I64 | IntTy::U64 | IntTy::Isize | IntTy::Usize => 0xffff_ffff_ffff_ffff,
        IntTy::I128 | IntTy::U128 => u128::MAX,
    }
}

fn is_signed(ty: IntTy) -> bool
    ensures { result ≡ is_signed ty }
{
    match ty {
        IntTy::I8 | IntTy::I16 | IntTy::I32 | IntTy::I64 | IntTy::I128 | IntTy::Isize => true,
        IntTy::U8 | IntTy::U16 | IntTy::U32 | IntTy::U64 | IntTy::U128 | IntTy::Usize => false,
    }
}

// The least bits of a negative number.
fn half(ty: IntTy) -> u128
    ensures value { result ≡ half ty }
    ensures positive { 0 < result }
{
    match ty {
        IntTy::I8 | IntTy::U8 => 1 << 7,
        IntTy::I16 | IntTy::U16 => 1 << 15,
        IntTy::I32 | IntTy::U32 => 1 << 31,
        IntTy::I64 | IntTy::U64 | IntTy::Isize | IntTy::Usize => 1 << 63,
        IntTy::I128 | IntTy::U128 => 1 << 127,
    }
}

// Whether bits stand for a negative number.
#[tactic(auto, unfolding(mir_text::specs::Numbers::is_negative))]
fn is_negative(ty: IntTy, bits: u128) -> bool
    ensures value { result ≡ is_negative ty bits }
    ensures positive { result ≡ true → 0 < bits }
{
    is_signed(ty) && bits >= half(ty)
}

// How far a negative number is below zero.
fn size_below(ty: IntTy, bits: u128) -> u128
    requires { 0 < bits }
    ensures { result ≡ count ty - bits }
{
    let greatest = greatest_bits(ty);
    if bits <= greatest {
        greatest - bits + 1
    } else {
        0
    }
}

// The sign and the digits of a number.
#[tactic(auto, using(crate::proofs::Printing::goes_then), unfolding(mir_text::specs::TypeText::minus_text, mir_text::specs::Numbers::size_of))]
fn put_bits<K: Sink>(output: &mut Output, sink: &mut K, ty: IntTy, bits: u128)
    ensures { Goes (at (K.written sink.old) (K.faults sink.old) output.old)
        (at (K.written sink.new) (K.faults sink.new) output.new)
        (minus_text (is_negative ty bits) ++ piece (decimal (size_of ty bits))) }
{
    if is_negative(ty, bits) {
        output.put(sink, b"-");
        output.put_number(sink, size_below(ty, bits));
    } else {
        output.put_number(sink, bits);
    }
}

// A number with its type.
#[tactic(auto, using(crate::proofs::Printing::goes_then))]
fn put_typed<K: Sink>(output: &mut Output, sink: &mut K, ty: IntTy, bits: u128)
    ensures { Goes (at (K.written sink.old) (K.faults sink.old) output.old)
        (at (K.written sink.new) (K.faults sink.new) output.new)
        (piece (codes "const ") ++ ((minus_text (is_negative ty bits) ++ piece (decimal (size_of ty bits))) ++ (piece (codes "_") ++ piece (int_name ty)))) }
{
    output.put(sink, b"const ");
    put_bits(output, sink, ty, bits);
    output.put(sink, b"_");
    put_int_name(output, sink, ty);
}

/// Prints a constant.
#[tactic(auto, unfolding(mir_text::specs::TypeText::const_text))]
pub fn put_const<K: Sink>(output: &mut Output, sink: &mut K, value: Const)
    ensures { Goes (at (K.written sink.old) (K.faults sink.old) output.old)
        (at (K.written sink.new) (K.faults sink.new) output.new) (const_text value) }
{
    match value {
        Const::Int(ty, bits) => put_typed(output, sink, ty, bits),
        Const::Bool(true) => output.put(sink, b"const true"),
        Const::Bool(false) => output.put(sink, b"const false"),
        Const::Unit => output.put(sink, b"const ()"),
    }
}
