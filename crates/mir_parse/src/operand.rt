ghost use Rattle.std.specs.Prelude.{◌≡◌, ◌<◌, ◌≤◌, length, IfOk};
ghost use Rattle.mir_text.specs.Numbers as numbers;
ghost use Rattle.mir_parse.specs.Parser.{Gives};
ghost use Rattle.mir_parse.specs.Operands as spec;
ghost use Rattle.mir_parse.specs.Promises.{IsParsed, NoneStands, Any};
ghost use Rattle.mir_text.specs.GrammarPlaces.{value_put, operand_put};
ghost use Rattle.mir_text.specs.Nesting.{ValueFits, OperandGood};
ghost use Rattle.mir_tree.specs.Bodies.{value_rule, operand_rule};

use crate::ParseRefused;
use crate::fault::{refuse, refuse_with};
use crate::list::{Bracket, ReadItem, read_items};
use crate::place::read_place;
use crate::sign::{read_close, read_colon, read_colons, read_name};
use mir_syntax::IntTy;
use mir_text::Symbol;
use mir_tree::{Items, NamedText, OperandText, ValueText};
use std::alloc::Global;

/// The greatest size that a number of a type may have, with a sign or without one.
fn limit(negative: bool, ty: IntTy) -> u128
    ensures { result ≡ numbers.limit negative ty }
{
    match (negative, ty) {
        (false, IntTy::I8) => 127,
        (false, IntTy::I16) => 32_767,
        (false, IntTy::I32) => 2_147_483_647,
        (false, IntTy::I64 | IntTy::Isize) => 9_223_372_036_854_775_807,
        (false, IntTy::I128) => 170_141_183_460_469_231_731_687_303_715_884_105_727,
        (false, IntTy::U8) => 255,
        (false, IntTy::U16) => 65_535,
        (false, IntTy::U32) => 4_294_967_295,
        (false, IntTy::U64 | IntTy::Usize) => 18_446_744_073_709_551_615,
        (false, IntTy::U128) => 340_282_366_920_938_463_463_374_607_431_768_211_455,
        (true, IntTy::I8) => 128,
        (true, IntTy::I16) => 32_768,
        (true, IntTy::I32) => 2_147_483_648,
        (true, IntTy::I64 | IntTy::Isize) => 9_223_372_036_854_775_808,
        (true, IntTy::I128) => 170_141_183_460_469_231_731_687_303_715_884_105_728,
        (true, _) => 0,
    }
}

/// Whether a number, with a minus or not, is one of a type.
fn fits(negative: bool, number: u128, ty: IntTy) -> bool
    ensures { result ≡ numbers.fits negative number ty }
{
    let most = limit(negative, ty);
    number <= most
}

/// A number with its type, behind a minus or not.
#[tactic(auto, unfolding(crate::specs::Operands::number))]
fn read_number(negative: bool, symbols: &[Symbol]) -> Result<(ValueText, &[Symbol]), ParseRefused>
    ensures read { Gives (λ f. (f.0, f.1.now)) result (spec.number negative symbols.now) }
    ensures shorter { IfOk result (λ f. length f.1.now < length symbols.now) }
{
    match symbols {
        [Symbol::Typed(ty, number), rest @ ..] => {
            if fits(negative, *number, *ty) {
                Ok((ValueText::Number(negative, *ty, *number), rest))
            } else {
                refuse_with(8, symbols)
            }
        }
        [Symbol::Number(_), ..] => refuse_with(8, symbols),
        _ => refuse(symbols),
    }
}

/// `MIN` or `MAX`
#[tactic(auto, unfolding(crate::specs::Operands::bound))]
fn read_bound(ty: IntTy, symbols: &[Symbol]) -> Result<(ValueText, &[Symbol]), ParseRefused>
    ensures read { Gives (λ f. (f.0, f.1.now)) result (spec.bound ty symbols.now) }
    ensures shorter { IfOk result (λ f. length f.1.now < length symbols.now) }
{
    match symbols {
        [Symbol::Name(name), rest @ ..] => {
            if *name == 5 {
                Ok((ValueText::Least(ty), rest))
            } else if *name == 6 {
                Ok((ValueText::Most(ty), rest))
            } else {
                refuse(symbols)
            }
        }
        _ => refuse(symbols),
    }
}

#[tactic(auto, unfolding(crate::specs::Operands::bound_end))]
fn read_bound_end(ty: IntTy, symbols: &[Symbol]) -> Result<(ValueText, &[Symbol]), ParseRefused>
    ensures read { Gives (λ f. (f.0, f.1.now)) result (spec.bound_end ty symbols.now) }
    ensures shorter { IfOk result (λ f. length f.1.now < length symbols.now) }
{
    let rest = read_colons(symbols)?;
    let (value, rest) = read_bound(ty, rest)?;
    Ok((value, rest))
}

/// A constant behind its word.
#[tactic(auto, unfolding(crate::specs::Operands::value))]
fn read_value(symbols: &[Symbol]) -> Result<(ValueText, &[Symbol]), ParseRefused>
    ensures read { Gives (λ f. (f.0, f.1.now)) result (spec.value symbols.now) }
    ensures shorter { IfOk result (λ f. length f.1.now < length symbols.now) }
{
    match symbols {
        [Symbol::Minus, rest @ ..] => {
            let (value, rest) = read_number(true, rest)?;
            Ok((value, rest))
        }
        [Symbol::True, rest @ ..] => Ok((ValueText::Bool(true), rest)),
        [Symbol::False, rest @ ..] => Ok((ValueText::Bool(false), rest)),
        [Symbol::Open, rest @ ..] => {
            let rest = read_close(rest)?;
            Ok((ValueText::Unit, rest))
        }
        [Symbol::Int(ty), rest @ ..] => {
            let (value, rest) = read_bound_end(*ty, rest)?;
            Ok((value, rest))
        }
        _ => {
            let (value, rest) = read_number(false, symbols)?;
            Ok((value, rest))
        }
    }
}

/// An operand.
#[tactic(auto, unfolding(crate::specs::Operands::operand))]
pub(crate) fn read_operand<'a>(
    alloc: Global,
    symbols: &'a [Symbol],
) -> Result<(OperandText, &'a [Symbol]), ParseRefused>
    ensures read { Gives (λ f. (f.0, f.1.now)) result (spec.operand symbols.now) }
    ensures shorter { IfOk result (λ f. length f.1.now < length symbols.now) }
{
    match symbols {
        [Symbol::Copy, rest @ ..] => {
            let (place, rest) = read_place(alloc, rest, 65)?;
            Ok((OperandText::Copy(place), rest))
        }
        [Symbol::Move, rest @ ..] => {
            let (place, rest) = read_place(alloc, rest, 65)?;
            Ok((OperandText::Move(place), rest))
        }
        [Symbol::Const, rest @ ..] => {
            let (value, rest) = read_value(rest)?;
            Ok((OperandText::Const(value), rest))
        }
        _ => {
            let (place, rest) = read_place(alloc, symbols, 65)?;
            Ok((OperandText::Bare(place), rest))
        }
    }
}

/// `name : operand`
#[tactic(auto, unfolding(crate::specs::Operands::named))]
fn read_named<'a>(
    alloc: Global,
    symbols: &'a [Symbol],
) -> Result<(NamedText, &'a [Symbol]), ParseRefused>
    ensures read { Gives (λ f. (f.0, f.1.now)) result (spec.named symbols.now) }
    ensures shorter { IfOk result (λ f. length f.1.now < length symbols.now) }
{
    let (name, rest) = read_name(symbols)?;
    let rest = read_colon(rest)?;
    let (operand, rest) = read_operand(alloc, rest)?;
    Ok((NamedText { name, operand }, rest))
}

/// Reads the operands of a list.
#[derive(Drop)]
struct OperandReader;

impl ReadItem for OperandReader {
    type Item = OperandText;

    ghost item = { λ _. spec.operand };

    fn read<'a>(
        &self,
        alloc: Global,
        symbols: &'a [Symbol],
    ) -> Result<(OperandText, &'a [Symbol]), ParseRefused> {
        read_operand(alloc, symbols)
    }
}

/// `operand,*` and the parenthesis that closes it.
pub(crate) fn read_operands<'a>(
    alloc: Global,
    symbols: &'a [Symbol],
) -> Result<(Items<OperandText>, &'a [Symbol]), ParseRefused>
    ensures read { Gives (λ f. (f.0, f.1.now)) result (spec.operands_at symbols.now) }
    ensures shorter { IfOk result (λ f. length f.1.now < length symbols.now) }
{
    read_items(alloc, &OperandReader, Bracket::Paren, symbols)
}

/// Reads the named operands of a list.
#[derive(Drop)]
struct NamedReader;

impl ReadItem for NamedReader {
    type Item = NamedText;

    ghost item = { λ _. spec.named };

    fn read<'a>(
        &self,
        alloc: Global,
        symbols: &'a [Symbol],
    ) -> Result<(NamedText, &'a [Symbol]), ParseRefused> {
        read_named(alloc, symbols)
    }
}

/// `named,*` and the brace that closes it.
pub(crate) fn read_nameds<'a>(
    alloc: Global,
    symbols: &'a [Symbol],
) -> Result<(Items<NamedText>, &'a [Symbol]), ParseRefused>
    ensures read { Gives (λ f. (f.0, f.1.now)) result (spec.nameds_at symbols.now) }
    ensures shorter { IfOk result (λ f. length f.1.now < length symbols.now) }
{
    read_items(alloc, &NamedReader, Bracket::Brace, symbols)
}

/// Parses a constant behind the word `const`, and answers what stands past it.
///
/// # Errors
///
/// `Fault` with the first fault, where no constant stands at the front.
pub fn parse_value(symbols: &[Symbol]) -> Result<(ValueText, &[Symbol]), ParseRefused>
    ensures derives { IfOk result (λ f. IsParsed value_put value_rule ValueFits symbols.now f.0 f.1.now) }
    ensures refuses { NoneStands value_put ValueFits Any symbols.now result }
    ensures read { Gives (λ f. (f.0, f.1.now)) result (spec.value symbols.now) }
    ensures shorter { IfOk result (λ f. length f.1.now < length symbols.now) }
{
    read_value(symbols)
}

/// Parses an operand, and answers what stands past it.
///
/// # Errors
///
/// `Fault` with the first fault, where no such part stands at the front; `OutOfMemory`.
pub fn parse_operand<'a>(
    alloc: Global,
    symbols: &'a [Symbol],
) -> Result<(OperandText, &'a [Symbol]), ParseRefused>
    ensures derives { IfOk result (λ f. IsParsed operand_put operand_rule OperandGood symbols.now f.0 f.1.now) }
    ensures refuses { NoneStands operand_put OperandGood Any symbols.now result }
    ensures read { Gives (λ f. (f.0, f.1.now)) result (spec.operand symbols.now) }
    ensures shorter { IfOk result (λ f. length f.1.now < length symbols.now) }
{
    read_operand(alloc, symbols)
}
