ghost use Rattle.std.specs.Prelude.{◌≡◌, ◌+◌, ◌-◌, ◌<◌, ◌≤◌, length, Err, IfOk};
ghost use Rattle.mir_parse.specs.Parser.{Gives, GivesValue};
ghost use Rattle.mir_parse.specs.Types as spec;
ghost use Rattle.mir_parse.specs.Promises.{IsParsed, NoneStands, NoColons, Any};
ghost use Rattle.mir_text.specs.GrammarTypes.{TypeRule, TypesRule, type_put, types_put};
ghost use Rattle.mir_text.specs.Nesting.{type_depth, types_depth};
ghost use Rattle.mir_tree.specs.Types.{type_rule, types_rule};

use crate::fault::{fault_at, no_reading, refuse};
use crate::list::{Bracket, ReadItem, Turn, after_item, read_items};
use crate::path::read_path;
use crate::sign::read_comma;
use crate::{ParseRefused, SyntaxFault};
use mir_syntax::List;
use mir_text::Symbol;
use mir_tree::{Items, TypePart, TypeText};
use std::alloc::Global;

/// Whether `mut` comes first, and what stands past it.
#[tactic(auto, unfolding(crate::specs::Types::mut_at))]
pub(crate) fn read_mut(symbols: &[Symbol]) -> (bool, &[Symbol])
    ensures read { result.0 ≡ (spec.mut_at symbols.now).0 }
    ensures rest { result.1.now ≡ (spec.mut_at symbols.now).1 }
    ensures shorter { length result.1.now ≤ length symbols.now }
{
    match symbols {
        [Symbol::Mut, rest @ ..] => (true, rest),
        _ => (false, symbols),
    }
}

/// No type may be opened: one that begins is too deep.
#[tactic(auto, unfolding(crate::specs::Types::no_type))]
fn no_type(symbols: &[Symbol]) -> SyntaxFault
    ensures { result ≡ spec.no_type symbols.now }
{
    match symbols {
        [Symbol::Int(_), ..] => fault_at(6, symbols),
        [Symbol::Bool, ..] => fault_at(6, symbols),
        [Symbol::Name(_), ..] => fault_at(6, symbols),
        [Symbol::Ampersand, ..] => fault_at(6, symbols),
        [Symbol::Open, ..] => fault_at(6, symbols),
        _ => no_reading(symbols),
    }
}

/// One more type of a tuple. So many that they can't be counted have no room in memory.
fn one_more(count: u32) -> Result<u32, ParseRefused>
    ensures { GivesValue result (count + 1) }
{
    if count == u32::MAX {
        return Err(ParseRefused::OutOfMemory);
    }
    Ok(count + 1)
}

/// Puts the parts of a type that nests no deeper than `depth` behind others, and answers what stands past it.
#[cycle(types)]
#[tactic(auto, unfolding(crate::specs::Types::type_at))]
fn read_parts<'a>(
    alloc: Global,
    parts: &mut List<TypePart>,
    symbols: &'a [Symbol],
    depth: u32,
) -> Result<&'a [Symbol], ParseRefused>
    ensures read { Gives (λ f. (parts.new, f.now)) result (spec.type_at depth parts.old symbols.now) }
    ensures shorter { IfOk result (λ f. length f.now < length symbols.now) }
{
    if depth == 0 {
        return Err(ParseRefused::Fault(no_type(symbols)));
    }
    read_outer(alloc, parts, symbols, depth - 1)
}

/// A type whose parts nest no deeper than `depth`.
#[cycle(types)]
#[tactic(auto, unfolding(crate::specs::Types::type_with))]
fn read_outer<'a>(
    alloc: Global,
    parts: &mut List<TypePart>,
    symbols: &'a [Symbol],
    depth: u32,
) -> Result<&'a [Symbol], ParseRefused>
    ensures read { Gives (λ f. (parts.new, f.now)) result (spec.type_with (spec.type_at depth) parts.old symbols.now) }
    ensures shorter { IfOk result (λ f. length f.now < length symbols.now) }
{
    match symbols {
        [Symbol::Int(int), rest @ ..] => {
            parts.push(TypePart::Int(*int))?;
            Ok(rest)
        }
        [Symbol::Bool, rest @ ..] => {
            parts.push(TypePart::Bool)?;
            Ok(rest)
        }
        [Symbol::Name(_), ..] => {
            let (path, rest) = read_path(alloc, symbols)?;
            parts.push(TypePart::Path(path))?;
            Ok(rest)
        }
        [Symbol::Ampersand, rest @ ..] => {
            let (mutable, rest) = read_mut(rest);
            let rest = read_parts(alloc, parts, rest, depth)?;
            parts.push(TypePart::Ref(mutable))?;
            Ok(rest)
        }
        [Symbol::Open, rest @ ..] => {
            let rest = read_parens(alloc, parts, rest, depth)?;
            Ok(rest)
        }
        _ => refuse(symbols),
    }
}

/// A tuple past its opening parenthesis.
#[cycle(types)]
#[tactic(auto, unfolding(crate::specs::Types::parens_with))]
fn read_parens<'a>(
    alloc: Global,
    parts: &mut List<TypePart>,
    symbols: &'a [Symbol],
    depth: u32,
) -> Result<&'a [Symbol], ParseRefused>
    ensures read { Gives (λ f. (parts.new, f.now)) result (spec.parens_with (spec.type_at depth) parts.old symbols.now) }
    ensures shorter { IfOk result (λ f. length f.now < length symbols.now) }
{
    match symbols {
        [Symbol::Close, rest @ ..] => {
            parts.push(TypePart::Unit)?;
            Ok(rest)
        }
        _ => {
            let rest = read_parts(alloc, parts, symbols, depth)?;
            let rest = read_comma(rest)?;
            let rest = read_tuple(alloc, parts, rest, depth)?;
            Ok(rest)
        }
    }
}

/// The next type of a tuple that has `count` before, or the parenthesis that closes it.
#[cycle(types)]
#[tactic(auto, unfolding(crate::specs::Types::tuple_turn))]
fn read_tuple_turn<'a>(
    alloc: Global,
    parts: &mut List<TypePart>,
    count: u32,
    symbols: &'a [Symbol],
    depth: u32,
) -> Result<((Turn, u32), &'a [Symbol]), ParseRefused>
    ensures read { Gives (λ f. ((f.0, parts.new), f.1.now)) result (spec.tuple_turn (spec.type_at depth) parts.old count symbols.now) }
    ensures shorter { IfOk result (λ f. length f.1.now < length symbols.now) }
{
    match symbols {
        [Symbol::Close, rest @ ..] => Ok(((Turn::Ends(true), count), rest)),
        _ => {
            let rest = read_parts(alloc, parts, symbols, depth)?;
            let (turn, rest) = after_item(Bracket::Paren, rest)?;
            let count = one_more(count)?;
            Ok(((turn, count), rest))
        }
    }
}

/// The types of a tuple behind its first comma, and its own part.
#[cycle(types)]
#[tactic(auto, unfolding(crate::specs::Types::tuple_from))]
fn read_tuple<'a>(
    alloc: Global,
    parts: &mut List<TypePart>,
    symbols: &'a [Symbol],
    depth: u32,
) -> Result<&'a [Symbol], ParseRefused>
    ensures read { Gives (λ f. (parts.new, f.now)) result (spec.tuple_at (spec.type_at depth) parts.old 1 symbols.now) }
    ensures shorter { IfOk result (λ f. length f.now < length symbols.now) }
{
    let mut rest = symbols;
    let mut count = 1;
    'turns: loop {
        let ((turn, next), past) = read_tuple_turn(alloc, parts, count, rest, depth)?;
        match turn {
            Turn::Ends(trailing) => {
                parts.push(TypePart::Tuple(next, trailing))?;
                return Ok(past);
            }
            Turn::More => {
                rest = past;
                count = next;
            }
        }
    }
}

/// A type that nests no deeper than `depth`, and what stands past it.
#[tactic(auto, unfolding(crate::specs::Types::type_text_at))]
pub(crate) fn read_type<'a>(
    alloc: Global,
    symbols: &'a [Symbol],
    depth: u32,
) -> Result<(TypeText, &'a [Symbol]), ParseRefused>
    ensures read { Gives (λ f. (f.0, f.1.now)) result (spec.type_text_at depth symbols.now) }
    ensures shorter { IfOk result (λ f. length f.1.now < length symbols.now) }
{
    let mut parts = List::new(alloc);
    let rest = read_parts(alloc, &mut parts, symbols, depth)?;
    Ok((TypeText { parts }, rest))
}

/// Reads the types of a list, which nest no deeper than `depth`.
#[derive(Drop)]
struct TypeReader {
    depth: u32,
}

impl ReadItem for TypeReader {
    type Item = TypeText;

    ghost item = { λ reader. spec.type_text_at reader.depth };

    fn read<'a>(
        &self,
        alloc: Global,
        symbols: &'a [Symbol],
    ) -> Result<(TypeText, &'a [Symbol]), ParseRefused> {
        read_type(alloc, symbols, self.depth)
    }
}

/// `type,*` and the parenthesis that closes it; each type nests no deeper than `depth`.
fn read_types<'a>(
    alloc: Global,
    symbols: &'a [Symbol],
    depth: u32,
) -> Result<(Items<TypeText>, &'a [Symbol]), ParseRefused>
    ensures read { Gives (λ f. (f.0, f.1.now)) result (spec.types_at depth symbols.now) }
    ensures shorter { IfOk result (λ f. length f.1.now < length symbols.now) }
{
    read_items(alloc, &TypeReader { depth }, Bracket::Paren, symbols)
}

/// Parses a type that nests at most `depth` deep, itself counted, and answers what stands past it.
///
/// # Errors
///
/// `Fault` with the first fault, where no such part stands at the front; `OutOfMemory`.
pub fn parse_type<'a>(
    alloc: Global,
    symbols: &'a [Symbol],
    depth: u32,
) -> Result<(TypeText, &'a [Symbol]), ParseRefused>
    ensures derives { IfOk result (λ f. IsParsed type_put type_rule (λ t. type_depth t ≤ depth) symbols.now f.0 f.1.now) }
    ensures refuses { NoneStands type_put (λ (t : TypeRule). type_depth t ≤ depth) NoColons symbols.now result }
    ensures read { Gives (λ f. (f.0, f.1.now)) result (spec.type_text_at depth symbols.now) }
    ensures shorter { IfOk result (λ f. length f.1.now < length symbols.now) }
{
    read_type(alloc, symbols, depth)
}

/// Parses `type,*` and the parenthesis that closes it, and answers what stands past that. Each type nests at most `depth` deep.
///
/// # Errors
///
/// `Fault` with the first fault, where no such part stands at the front; `OutOfMemory`.
pub fn parse_types<'a>(
    alloc: Global,
    symbols: &'a [Symbol],
    depth: u32,
) -> Result<(Items<TypeText>, &'a [Symbol]), ParseRefused>
    ensures derives { IfOk result (λ f. IsParsed types_put types_rule (λ ts. types_depth ts ≤ depth) symbols.now f.0 f.1.now) }
    ensures refuses { NoneStands types_put (λ (ts : TypesRule). types_depth ts ≤ depth) Any symbols.now result }
    ensures read { Gives (λ f. (f.0, f.1.now)) result (spec.types_at depth symbols.now) }
    ensures shorter { IfOk result (λ f. length f.1.now < length symbols.now) }
{
    read_types(alloc, symbols, depth)
}
