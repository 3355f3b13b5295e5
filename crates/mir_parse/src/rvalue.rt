ghost use Rattle.std.specs.Prelude.{◌≡◌, ◌<◌, ◌≤◌, length, IfOk};
ghost use Rattle.mir_parse.specs.Parser.{Gives};
ghost use Rattle.mir_parse.specs.Rvalues as spec;
ghost use Rattle.mir_parse.specs.Promises.{IsParsed, NoneStands, Semicolon};
ghost use Rattle.mir_text.specs.GrammarStatements.{rvalue_put};
ghost use Rattle.mir_text.specs.Nesting.{RvalueGood};
ghost use Rattle.mir_tree.specs.Bodies.{rvalue_rule};

use crate::ParseRefused;
use crate::fault::refuse;
use crate::operand::{read_nameds, read_operand, read_operands};
use crate::path::read_path;
use crate::place::{BaseText, read_base, read_field_after, read_place, with_proj};
use crate::sign::{read_close, read_comma, read_open_paren, read_this_name};
use crate::ty::{read_mut, read_type};
use mir_text::Symbol;
use mir_tree::{BuildText, OperandText, PlaceText, ProjText, RvalueText, TypeText};
use std::alloc::Global;

/// What is built of a path.
#[tactic(auto, unfolding(crate::specs::Rvalues::parts))]
pub(crate) fn read_build_parts<'a>(
    alloc: Global,
    symbols: &'a [Symbol],
) -> Result<(BuildText, &'a [Symbol]), ParseRefused>
    ensures read { Gives (λ f. (f.0, f.1.now)) result (spec.parts symbols.now) }
    ensures within { IfOk result (λ f. length f.1.now ≤ length symbols.now) }
{
    match symbols {
        [Symbol::Open, rest @ ..] => {
            let (items, rest) = read_operands(alloc, rest)?;
            Ok((BuildText::Tupled(items), rest))
        }
        [Symbol::OpenBrace, rest @ ..] => {
            let (items, rest) = read_nameds(alloc, rest)?;
            Ok((BuildText::Labelled(items), rest))
        }
        _ => Ok((BuildText::Plain, symbols)),
    }
}

/// A build.
#[tactic(auto, unfolding(crate::specs::Rvalues::build))]
fn read_build<'a>(
    alloc: Global,
    symbols: &'a [Symbol],
) -> Result<(RvalueText, &'a [Symbol]), ParseRefused>
    ensures read { Gives (λ f. (f.0, f.1.now)) result (spec.build symbols.now) }
    ensures shorter { IfOk result (λ f. length f.1.now < length symbols.now) }
{
    let (path, rest) = read_path(alloc, symbols)?;
    let (parts, rest) = read_build_parts(alloc, rest)?;
    Ok((RvalueText::Build(path, parts), rest))
}

/// `( operand )`
#[tactic(auto, unfolding(crate::specs::Rvalues::single))]
pub(crate) fn read_single<'a>(
    alloc: Global,
    symbols: &'a [Symbol],
) -> Result<(OperandText, &'a [Symbol]), ParseRefused>
    ensures read { Gives (λ f. (f.0, f.1.now)) result (spec.single symbols.now) }
    ensures shorter { IfOk result (λ f. length f.1.now < length symbols.now) }
{
    let rest = read_open_paren(symbols)?;
    let (operand, rest) = read_operand(alloc, rest)?;
    let rest = read_close(rest)?;
    Ok((operand, rest))
}

/// `( operand , operand )`
#[tactic(auto, unfolding(crate::specs::Rvalues::pair))]
fn read_pair<'a>(
    alloc: Global,
    symbols: &'a [Symbol],
) -> Result<((OperandText, OperandText), &'a [Symbol]), ParseRefused>
    ensures read { Gives (λ f. (f.0, f.1.now)) result (spec.pair symbols.now) }
    ensures shorter { IfOk result (λ f. length f.1.now < length symbols.now) }
{
    let rest = read_open_paren(symbols)?;
    let (first, rest) = read_operand(alloc, rest)?;
    let rest = read_comma(rest)?;
    let (second, rest) = read_operand(alloc, rest)?;
    let rest = read_close(rest)?;
    Ok(((first, second), rest))
}

/// `( place )`
#[tactic(auto, unfolding(crate::specs::Rvalues::place_single))]
pub(crate) fn read_place_single<'a>(
    alloc: Global,
    symbols: &'a [Symbol],
) -> Result<(PlaceText, &'a [Symbol]), ParseRefused>
    ensures read { Gives (λ f. (f.0, f.1.now)) result (spec.place_single symbols.now) }
    ensures shorter { IfOk result (λ f. length f.1.now < length symbols.now) }
{
    let rest = read_open_paren(symbols)?;
    let (place, rest) = read_place(alloc, rest, 65)?;
    let rest = read_close(rest)?;
    Ok((place, rest))
}

/// `type ( IntToInt )`
#[tactic(auto, unfolding(crate::specs::Rvalues::cast_end))]
fn read_cast_end<'a>(
    alloc: Global,
    symbols: &'a [Symbol],
) -> Result<(TypeText, &'a [Symbol]), ParseRefused>
    ensures read { Gives (λ f. (f.0, f.1.now)) result (spec.cast_end symbols.now) }
    ensures shorter { IfOk result (λ f. length f.1.now < length symbols.now) }
{
    let (ty, rest) = read_type(alloc, symbols, 65)?;
    let rest = read_open_paren(rest)?;
    let rest = read_this_name(7, rest)?;
    let rest = read_close(rest)?;
    Ok((ty, rest))
}

/// An operand, and a cast of it where `as` comes next.
#[tactic(auto, unfolding(crate::specs::Rvalues::cast_or_use))]
fn read_cast_or_use<'a>(
    alloc: Global,
    operand: OperandText,
    symbols: &'a [Symbol],
) -> Result<(RvalueText, &'a [Symbol]), ParseRefused>
    ensures read { Gives (λ f. (f.0, f.1.now)) result (spec.cast_or_use operand symbols.now) }
    ensures within { IfOk result (λ f. length f.1.now ≤ length symbols.now) }
{
    match symbols {
        [Symbol::As, rest @ ..] => {
            let (ty, rest) = read_cast_end(alloc, rest)?;
            Ok((RvalueText::Cast(operand, ty), rest))
        }
        _ => Ok((RvalueText::Use(operand), symbols)),
    }
}

/// An operand or a cast.
#[tactic(auto, unfolding(crate::specs::Rvalues::use_at))]
fn read_use<'a>(
    alloc: Global,
    symbols: &'a [Symbol],
) -> Result<(RvalueText, &'a [Symbol]), ParseRefused>
    ensures read { Gives (λ f. (f.0, f.1.now)) result (spec.use_at symbols.now) }
    ensures shorter { IfOk result (λ f. length f.1.now < length symbols.now) }
{
    let (operand, rest) = read_operand(alloc, symbols)?;
    let (value, rest) = read_cast_or_use(alloc, operand, rest)?;
    Ok((value, rest))
}

/// The operands of a tuple behind the first one and its comma.
#[tactic(auto, unfolding(crate::specs::Rvalues::tuple_more))]
fn read_tuple_more<'a>(
    alloc: Global,
    first: OperandText,
    symbols: &'a [Symbol],
) -> Result<(RvalueText, &'a [Symbol]), ParseRefused>
    ensures read { Gives (λ f. (f.0, f.1.now)) result (spec.tuple_more first symbols.now) }
    ensures shorter { IfOk result (λ f. length f.1.now < length symbols.now) }
{
    let (others, rest) = read_operands(alloc, symbols)?;
    Ok((RvalueText::Tuple(first, others), rest))
}

/// A tuple past its parenthesis.
#[tactic(auto, unfolding(crate::specs::Rvalues::tuple))]
fn read_tuple<'a>(
    alloc: Global,
    symbols: &'a [Symbol],
) -> Result<(RvalueText, &'a [Symbol]), ParseRefused>
    ensures read { Gives (λ f. (f.0, f.1.now)) result (spec.tuple symbols.now) }
    ensures shorter { IfOk result (λ f. length f.1.now < length symbols.now) }
{
    let (first, rest) = read_operand(alloc, symbols)?;
    let rest = read_comma(rest)?;
    let (value, rest) = read_tuple_more(alloc, first, rest)?;
    Ok((value, rest))
}

/// What stands behind the first place in a parenthesis.
#[tactic(auto, unfolding(crate::specs::Rvalues::after_first))]
fn read_after_first<'a>(
    alloc: Global,
    base: BaseText,
    symbols: &'a [Symbol],
) -> Result<(RvalueText, &'a [Symbol]), ParseRefused>
    ensures read { Gives (λ f. (f.0, f.1.now)) result (spec.after_first base symbols.now) }
    ensures shorter { IfOk result (λ f. length f.1.now < length symbols.now) }
{
    match symbols {
        [Symbol::Comma, rest @ ..] => match base {
            BaseText::Place(place) => {
                let (value, rest) = read_tuple_more(alloc, OperandText::Bare(place), rest)?;
                Ok((value, rest))
            }
            BaseText::Variant(_, _) => refuse(symbols),
        },
        _ => {
            let (place, rest) = read_field_after(alloc, base, symbols, 64)?;
            let (value, rest) = read_cast_or_use(alloc, OperandText::Bare(place), rest)?;
            Ok((value, rest))
        }
    }
}

/// An rvalue past the parenthesis that it begins with.
#[tactic(auto, unfolding(crate::specs::Rvalues::opened))]
fn read_opened<'a>(
    alloc: Global,
    symbols: &'a [Symbol],
) -> Result<(RvalueText, &'a [Symbol]), ParseRefused>
    ensures read { Gives (λ f. (f.0, f.1.now)) result (spec.opened symbols.now) }
    ensures shorter { IfOk result (λ f. length f.1.now < length symbols.now) }
{
    match symbols {
        [Symbol::Close, rest @ ..] => Ok((RvalueText::Nothing, rest)),
        [Symbol::Copy, ..] => {
            let (value, rest) = read_tuple(alloc, symbols)?;
            Ok((value, rest))
        }
        [Symbol::Move, ..] => {
            let (value, rest) = read_tuple(alloc, symbols)?;
            Ok((value, rest))
        }
        [Symbol::Const, ..] => {
            let (value, rest) = read_tuple(alloc, symbols)?;
            Ok((value, rest))
        }
        [Symbol::Star, rest @ ..] => {
            let (place, rest) = read_place(alloc, rest, 64)?;
            let rest = read_close(rest)?;
            let place = with_proj(place, ProjText::Deref)?;
            let (value, rest) = read_cast_or_use(alloc, OperandText::Bare(place), rest)?;
            Ok((value, rest))
        }
        _ => {
            let (base, rest) = read_base(alloc, symbols, 64)?;
            let (value, rest) = read_after_first(alloc, base, rest)?;
            Ok((value, rest))
        }
    }
}

/// An rvalue, as far as it goes.
#[tactic(auto, unfolding(crate::specs::Rvalues::rvalue))]
pub(crate) fn read_rvalue<'a>(
    alloc: Global,
    symbols: &'a [Symbol],
) -> Result<(RvalueText, &'a [Symbol]), ParseRefused>
    ensures read { Gives (λ f. (f.0, f.1.now)) result (spec.rvalue symbols.now) }
    ensures shorter { IfOk result (λ f. length f.1.now < length symbols.now) }
{
    match symbols {
        [Symbol::Binary(op), rest @ ..] => {
            let (pair, rest) = read_pair(alloc, rest)?;
            Ok((RvalueText::Binary(*op, pair.0, pair.1), rest))
        }
        [Symbol::Over(op), rest @ ..] => {
            let (pair, rest) = read_pair(alloc, rest)?;
            Ok((RvalueText::Overflow(*op, pair.0, pair.1), rest))
        }
        [Symbol::Unary(op), rest @ ..] => {
            let (operand, rest) = read_single(alloc, rest)?;
            Ok((RvalueText::Unary(*op, operand), rest))
        }
        [Symbol::Ampersand, rest @ ..] => {
            let (mutable, rest) = read_mut(rest);
            let (place, rest) = read_place(alloc, rest, 65)?;
            Ok((RvalueText::Ref(mutable, place), rest))
        }
        [Symbol::Discriminant, rest @ ..] => {
            let (place, rest) = read_place_single(alloc, rest)?;
            Ok((RvalueText::Discriminant(place), rest))
        }
        [Symbol::Open, rest @ ..] => {
            let (value, rest) = read_opened(alloc, rest)?;
            Ok((value, rest))
        }
        [Symbol::Name(_), ..] => {
            let (value, rest) = read_build(alloc, symbols)?;
            Ok((value, rest))
        }
        _ => {
            let (value, rest) = read_use(alloc, symbols)?;
            Ok((value, rest))
        }
    }
}

/// Parses an rvalue as far as it goes, and answers what stands past it. An rvalue before a semicolon goes up to that.
///
/// # Errors
///
/// `Fault` with the first fault, where no such part stands at the front; `OutOfMemory`.
pub fn parse_rvalue<'a>(
    alloc: Global,
    symbols: &'a [Symbol],
) -> Result<(RvalueText, &'a [Symbol]), ParseRefused>
    ensures derives { IfOk result (λ f. IsParsed rvalue_put rvalue_rule RvalueGood symbols.now f.0 f.1.now) }
    ensures refuses { NoneStands rvalue_put RvalueGood Semicolon symbols.now result }
    ensures read { Gives (λ f. (f.0, f.1.now)) result (spec.rvalue symbols.now) }
    ensures shorter { IfOk result (λ f. length f.1.now < length symbols.now) }
{
    read_rvalue(alloc, symbols)
}
