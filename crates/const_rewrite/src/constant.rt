//! Constants of numbers that are known.
ghost use Rattle.std.specs.Prelude.{◌≡◌, ◌^◌, nat_lt};
ghost use Rattle.mir_num.specs.Widths.{width_of};
ghost use Rattle.const_rewrite.specs.Folded as folded;
ghost use Rattle.const_rewrite.specs.Points.{literal_told};

use const_flow::Known;
use mir_num::wrap;
use mir_syntax::{Const, ScalarTy};

fn fits(ty: ScalarTy, bits: u128) -> bool
    ensures { result ≡ nat_lt bits (2 ^ width_of ty) }
{
    wrap(ty, bits) == bits
}

/// The constant of a number, if it fits its type. That of a `bool` is 0 or 1.
fn literal(ty: ScalarTy, bits: u128) -> Option<Const>
    ensures { result ≡ folded.literal ty bits }
{
    match ty {
        ScalarTy::Int(int) if fits(ty, bits) => Some(Const::Int(int, bits)),
        ScalarTy::Bool if bits == 0 => Some(Const::Bool(false)),
        ScalarTy::Bool if bits == 1 => Some(Const::Bool(true)),
        ScalarTy::Int(_) => None,
        ScalarTy::Bool => None,
    }
}

/// The constant of what is known of a scalar of a type.
pub(crate) fn literal_of(ty: Option<ScalarTy>, known: Known) -> Option<Const>
    ensures { result ≡ literal_told ty known }
{
    match (ty, known) {
        (Some(ty), Known::Num(bits)) => literal(ty, bits),
        _ => None,
    }
}
