ghost use Rattle.std.specs.Prelude.{◌≡◌, ◌-◌, ◌<◌, ◌≤◌, length, IfOk};
ghost use Rattle.mir_parse.specs.Parser.{Gives, GivesValue};
ghost use Rattle.mir_parse.specs.Types.{type_text_at};
ghost use Rattle.mir_parse.specs.Places as spec;
ghost use Rattle.mir_parse.specs.Promises.{IsParsed, NoneStands, Any};
ghost use Rattle.mir_text.specs.GrammarPlaces.{place_put};
ghost use Rattle.mir_text.specs.Nesting.{PlaceGood};
ghost use Rattle.mir_tree.specs.Bodies.{place_rule};

use crate::fault::{fault_at, no_reading, refuse, refuse_with};
use crate::sign::{read_close, read_colon, read_dot, read_name, read_small_number};
use crate::ty::read_type;
use crate::{ParseRefused, SyntaxFault};
use mir_syntax::List;
use mir_text::Symbol;
use mir_tree::{PlaceText, ProjText, TypeText};
use std::alloc::Global;

/// What has a field: a place or a variant of one.
#[derive(Debug, Drop)]
pub(crate) enum BaseText {
    Place(PlaceText),
    Variant(PlaceText, u32),
}

/// No place may be opened: one that begins is too deep.
#[tactic(auto, unfolding(crate::specs::Places::no_place))]
fn no_place(symbols: &[Symbol]) -> SyntaxFault
    ensures { result ≡ spec.no_place symbols.now }
{
    match symbols {
        [Symbol::Local(_), ..] => fault_at(6, symbols),
        [Symbol::LargeLocal, ..] => fault_at(6, symbols),
        [Symbol::Open, ..] => fault_at(6, symbols),
        _ => no_reading(symbols),
    }
}

fn local_place(alloc: Global, local: u32) -> PlaceText
    ensures { result ≡ spec.local_place local }
{
    PlaceText {
        local,
        projs: List::new(alloc),
    }
}

/// The place with one more projection.
pub(crate) fn with_proj(place: PlaceText, proj: ProjText) -> Result<PlaceText, ParseRefused>
    ensures { GivesValue result (spec.with_proj place proj) }
{
    let mut projs = place.projs;
    projs.push(proj)?;
    Ok(PlaceText {
        local: place.local,
        projs,
    })
}

/// `. number : type )`
#[tactic(auto, unfolding(crate::specs::Places::field_end))]
fn read_field_end<'a>(
    alloc: Global,
    symbols: &'a [Symbol],
    depth: u32,
) -> Result<((u32, TypeText), &'a [Symbol]), ParseRefused>
    ensures read { Gives (λ f. (f.0, f.1.now)) result (spec.field_end (type_text_at depth) symbols.now) }
    ensures shorter { IfOk result (λ f. length f.1.now < length symbols.now) }
{
    let rest = read_dot(symbols)?;
    let (field, rest) = read_small_number(rest)?;
    let rest = read_colon(rest)?;
    let (ty, rest) = read_type(alloc, rest, depth)?;
    let rest = read_close(rest)?;
    Ok(((field, ty), rest))
}

#[tactic(auto, unfolding(crate::specs::Places::field_of))]
fn field_of(base: BaseText, field: u32, ty: TypeText) -> Result<PlaceText, ParseRefused>
    ensures { GivesValue result (spec.field_of base field ty) }
{
    match base {
        BaseText::Place(place) => {
            let place = with_proj(place, ProjText::Field(field, ty))?;
            Ok(place)
        }
        BaseText::Variant(place, name) => {
            let place = with_proj(place, ProjText::VariantField(name, field, ty))?;
            Ok(place)
        }
    }
}

/// `. number : type )` behind a place or a variant of one.
#[tactic(auto, unfolding(crate::specs::Places::field_after))]
pub(crate) fn read_field_after<'a>(
    alloc: Global,
    base: BaseText,
    symbols: &'a [Symbol],
    depth: u32,
) -> Result<(PlaceText, &'a [Symbol]), ParseRefused>
    ensures read { Gives (λ f. (f.0, f.1.now)) result (spec.field_after (type_text_at depth) base symbols.now) }
    ensures shorter { IfOk result (λ f. length f.1.now < length symbols.now) }
{
    let ((field, ty), rest) = read_field_end(alloc, symbols, depth)?;
    Ok((field_of(base, field, ty)?, rest))
}

/// `name )`
#[tactic(auto, unfolding(crate::specs::Places::variant_end))]
fn read_variant_end(symbols: &[Symbol]) -> Result<(u32, &[Symbol]), ParseRefused>
    ensures read { Gives (λ f. (f.0, f.1.now)) result (spec.variant_end symbols.now) }
    ensures shorter { IfOk result (λ f. length f.1.now < length symbols.now) }
{
    let (name, rest) = read_name(symbols)?;
    let rest = read_close(rest)?;
    Ok((name, rest))
}

/// What stands behind a base in two parentheses: `as name )` where it is a place, or a field.
#[tactic(auto, unfolding(crate::specs::Places::after_base))]
fn read_after_base<'a>(
    alloc: Global,
    base: BaseText,
    symbols: &'a [Symbol],
    depth: u32,
) -> Result<(BaseText, &'a [Symbol]), ParseRefused>
    ensures read { Gives (λ f. (f.0, f.1.now)) result (spec.after_base (type_text_at depth) base symbols.now) }
    ensures shorter { IfOk result (λ f. length f.1.now < length symbols.now) }
{
    match symbols {
        [Symbol::As, rest @ ..] => match base {
            BaseText::Place(place) => {
                let (name, rest) = read_variant_end(rest)?;
                Ok((BaseText::Variant(place, name), rest))
            }
            BaseText::Variant(_, _) => refuse(symbols),
        },
        _ => {
            let (place, rest) = read_field_after(alloc, base, symbols, depth)?;
            Ok((BaseText::Place(place), rest))
        }
    }
}

/// A place that nests no deeper than `depth`, and what stands past it.
#[cycle(places)]
#[tactic(auto, unfolding(crate::specs::Places::place_at))]
pub(crate) fn read_place<'a>(
    alloc: Global,
    symbols: &'a [Symbol],
    depth: u32,
) -> Result<(PlaceText, &'a [Symbol]), ParseRefused>
    ensures read { Gives (λ f. (f.0, f.1.now)) result (spec.place_at depth symbols.now) }
    ensures shorter { IfOk result (λ f. length f.1.now < length symbols.now) }
{
    if depth == 0 {
        return Err(ParseRefused::Fault(no_place(symbols)));
    }
    read_outer_place(alloc, symbols, depth - 1)
}

#[cycle(places)]
#[tactic(auto, unfolding(crate::specs::Places::place_with))]
fn read_outer_place<'a>(
    alloc: Global,
    symbols: &'a [Symbol],
    depth: u32,
) -> Result<(PlaceText, &'a [Symbol]), ParseRefused>
    ensures read { Gives (λ f. (f.0, f.1.now)) result (spec.place_with (spec.base_at depth) (spec.place_at depth) (type_text_at depth) symbols.now) }
    ensures shorter { IfOk result (λ f. length f.1.now < length symbols.now) }
{
    match symbols {
        [Symbol::Local(local), rest @ ..] => Ok((local_place(alloc, *local), rest)),
        [Symbol::Open, rest @ ..] => {
            let (place, rest) = read_inside(alloc, rest, depth)?;
            Ok((place, rest))
        }
        [Symbol::LargeLocal, ..] => refuse_with(9, symbols),
        _ => refuse(symbols),
    }
}

/// A place past its first parenthesis.
#[cycle(places)]
#[tactic(auto, unfolding(crate::specs::Places::inside_with))]
fn read_inside<'a>(
    alloc: Global,
    symbols: &'a [Symbol],
    depth: u32,
) -> Result<(PlaceText, &'a [Symbol]), ParseRefused>
    ensures read { Gives (λ f. (f.0, f.1.now)) result (spec.inside_with (spec.base_at depth) (spec.place_at depth) (type_text_at depth) symbols.now) }
    ensures shorter { IfOk result (λ f. length f.1.now < length symbols.now) }
{
    match symbols {
        [Symbol::Star, rest @ ..] => {
            let (inner, rest) = read_place(alloc, rest, depth)?;
            let rest = read_close(rest)?;
            Ok((with_proj(inner, ProjText::Deref)?, rest))
        }
        _ => {
            let (base, rest) = read_base(alloc, symbols, depth)?;
            let (place, rest) = read_field_after(alloc, base, rest, depth)?;
            Ok((place, rest))
        }
    }
}

/// A place, or a variant of one, that nests no deeper than `depth`.
#[cycle(places)]
#[tactic(auto, unfolding(crate::specs::Places::base_at))]
pub(crate) fn read_base<'a>(
    alloc: Global,
    symbols: &'a [Symbol],
    depth: u32,
) -> Result<(BaseText, &'a [Symbol]), ParseRefused>
    ensures read { Gives (λ f. (f.0, f.1.now)) result (spec.base_at depth symbols.now) }
    ensures shorter { IfOk result (λ f. length f.1.now < length symbols.now) }
{
    if depth == 0 {
        return Err(ParseRefused::Fault(no_place(symbols)));
    }
    read_outer_base(alloc, symbols, depth - 1)
}

#[cycle(places)]
#[tactic(auto, unfolding(crate::specs::Places::base_with))]
fn read_outer_base<'a>(
    alloc: Global,
    symbols: &'a [Symbol],
    depth: u32,
) -> Result<(BaseText, &'a [Symbol]), ParseRefused>
    ensures read { Gives (λ f. (f.0, f.1.now)) result (spec.base_with (spec.base_at depth) (spec.place_at depth) (type_text_at depth) symbols.now) }
    ensures shorter { IfOk result (λ f. length f.1.now < length symbols.now) }
{
    match symbols {
        [Symbol::Local(local), rest @ ..] => {
            Ok((BaseText::Place(local_place(alloc, *local)), rest))
        }
        [Symbol::Open, rest @ ..] => {
            let (base, rest) = read_base_inside(alloc, rest, depth)?;
            Ok((base, rest))
        }
        [Symbol::LargeLocal, ..] => refuse_with(9, symbols),
        _ => refuse(symbols),
    }
}

/// A place, or a variant of one, past its first parenthesis.
#[cycle(places)]
#[tactic(auto, unfolding(crate::specs::Places::base_inside))]
fn read_base_inside<'a>(
    alloc: Global,
    symbols: &'a [Symbol],
    depth: u32,
) -> Result<(BaseText, &'a [Symbol]), ParseRefused>
    ensures read { Gives (λ f. (f.0, f.1.now)) result (spec.base_inside (spec.base_at depth) (spec.place_at depth) (type_text_at depth) symbols.now) }
    ensures shorter { IfOk result (λ f. length f.1.now < length symbols.now) }
{
    match symbols {
        [Symbol::Star, rest @ ..] => {
            let (inner, rest) = read_place(alloc, rest, depth)?;
            let rest = read_close(rest)?;
            Ok((BaseText::Place(with_proj(inner, ProjText::Deref)?), rest))
        }
        _ => {
            let (base, rest) = read_base(alloc, symbols, depth)?;
            let (base, rest) = read_after_base(alloc, base, rest, depth)?;
            Ok((base, rest))
        }
    }
}

/// Parses a place that nests at most `depth` deep, itself counted, and answers what stands past it.
///
/// # Errors
///
/// `Fault` with the first fault, where no such part stands at the front; `OutOfMemory`.
pub fn parse_place<'a>(
    alloc: Global,
    symbols: &'a [Symbol],
    depth: u32,
) -> Result<(PlaceText, &'a [Symbol]), ParseRefused>
    ensures derives { IfOk result (λ f. IsParsed place_put place_rule (PlaceGood depth) symbols.now f.0 f.1.now) }
    ensures refuses { NoneStands place_put (PlaceGood depth) Any symbols.now result }
    ensures read { Gives (λ f. (f.0, f.1.now)) result (spec.place_at depth symbols.now) }
    ensures shorter { IfOk result (λ f. length f.1.now < length symbols.now) }
{
    read_place(alloc, symbols, depth)
}
