ghost use Rattle.std.specs.Prelude.{◌≡◌, [], ◌∷◌, false, None, MatchOption};
ghost use Rattle.mir_semantics.specs.Values as sem;
ghost use Rattle.mir_semantics.specs.Step.{variant_in};
ghost use Rattle.mir_meaning.specs.Views.{value_of, fields_of};
ghost use Rattle.mir_entry.specs.Pushed.{is_listed};

use mir_meaning::datum::Datum;
use mir_syntax::{Function, Number};

/// The number that comes first, and those behind it.
pub fn split_numbers(numbers: &[Number]) -> Option<(Number, &[Number])>
    ensures { MatchOption result (numbers.now ≡ []) (λ on. numbers.now ≡ on.0 ∷ on.1.now) }
{
    match numbers {
        [first, rest @ ..] => Some((*first, rest)),
        [] => None,
    }
}

/// The function that comes first, and those behind it.
pub fn split_functions(functions: &[Function]) -> Option<(&Function, &[Function])>
    ensures { MatchOption result (functions.now ≡ []) (λ on. functions.now ≡ on.0.now ∷ on.1.now) }
{
    match functions {
        [first, rest @ ..] => Some((first, rest)),
        [] => None,
    }
}

/// The values of a tuple or a struct.
pub fn parts(value: &Datum) -> Option<&[Datum]>
    ensures { MatchOption result (is_listed (value_of value.now) ≡ false) (λ values. value_of value.now ≡ fields_of values.now) }
{
    match value {
        Datum::Num(_) => None,
        Datum::Parts(values) => Some(values.as_slice()),
        Datum::Variant(_, _) => None,
        Datum::Ref(_) => None,
        Datum::Hole => None,
    }
}

/// The variant of an enum: its place, and its values.
#[tactic(auto, using(mir_meaning::proofs::Values::parts_variant))]
pub fn variant(value: &Datum) -> Option<(u32, &[Datum])>
    ensures { MatchOption result (None ≡ variant_in (value_of value.now)) (λ on. value_of value.now ≡ sem.variant on.0 (fields_of on.1.now)) }
{
    match value {
        Datum::Num(_) => None,
        Datum::Parts(_) => None,
        Datum::Variant(place, values) => Some((*place, values.as_slice())),
        Datum::Ref(_) => None,
        Datum::Hole => None,
    }
}
