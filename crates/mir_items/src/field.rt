ghost use Rattle.std.specs.Prelude.{◌≡◌, ◌<◌, ◌≤◌, length, IfOk};
ghost use Rattle.mir_parse.specs.Parser.{Gives};
ghost use Rattle.mir_parse.specs.Promises.{IsParsed, NoneStands, Any};
ghost use Rattle.mir_text.specs.declared.symbol.Symbol.TheVariants as symbol;
ghost use Rattle.mir_text.specs.Grammar.{items_put, AllItems};
ghost use Rattle.mir_text.specs.GrammarItems.{field_decl_put, struct_put};
ghost use Rattle.mir_text.specs.Nesting.{FieldGood, FieldsGood};
ghost use Rattle.mir_tree.specs.Lists.{items_rule};
ghost use Rattle.mir_tree.specs.Rules.{field_rule, fields_rule};
ghost use Rattle.mir_items.specs.Fields as spec;

use mir_parse::{
    Bracket, ParseRefused, ReadItem, parse_type, parse_types, read_colon, read_items, read_name,
    read_semicolon, refuse,
};
use mir_text::Symbol;
use mir_tree::{FieldText, FieldsText, Items};
use std::alloc::Global;

/// `name : type`
#[tactic(auto, unfolding(crate::specs::Fields::field))]
fn read_field<'a>(
    alloc: Global,
    symbols: &'a [Symbol],
) -> Result<(FieldText, &'a [Symbol]), ParseRefused>
    ensures read { Gives (λ f. (f.0, f.1.now)) result (spec.field symbols.now) }
    ensures shorter { IfOk result (λ f. length f.1.now < length symbols.now) }
{
    let (name, rest) = read_name(symbols)?;
    let rest = read_colon(rest)?;
    let (ty, rest) = parse_type(alloc, rest, 65)?;
    Ok((FieldText { name, ty }, rest))
}

/// Reads the fields of a list.
#[derive(Drop)]
struct FieldReader;

impl ReadItem for FieldReader {
    type Item = FieldText;

    ghost item = { λ _. spec.field };

    fn read<'a>(
        &self,
        alloc: Global,
        symbols: &'a [Symbol],
    ) -> Result<(FieldText, &'a [Symbol]), ParseRefused> {
        read_field(alloc, symbols)
    }
}

/// `field,*` and the brace that closes it.
pub(crate) fn read_fields<'a>(
    alloc: Global,
    symbols: &'a [Symbol],
) -> Result<(Items<FieldText>, &'a [Symbol]), ParseRefused>
    ensures read { Gives (λ f. (f.0, f.1.now)) result (spec.fields symbols.now) }
    ensures shorter { IfOk result (λ f. length f.1.now < length symbols.now) }
{
    read_items(alloc, &FieldReader, Bracket::Brace, symbols)
}

/// What stands behind a struct's path.
#[tactic(auto, unfolding(crate::specs::Fields::struct_end))]
pub(crate) fn read_struct_end<'a>(
    alloc: Global,
    symbols: &'a [Symbol],
) -> Result<(FieldsText, &'a [Symbol]), ParseRefused>
    ensures read { Gives (λ f. (f.0, f.1.now)) result (spec.struct_end symbols.now) }
    ensures shorter { IfOk result (λ f. length f.1.now < length symbols.now) }
{
    match symbols {
        [Symbol::Semicolon, rest @ ..] => Ok((FieldsText::Plain, rest)),
        [Symbol::Open, rest @ ..] => {
            let (types, rest) = parse_types(alloc, rest, 65)?;
            let rest = read_semicolon(rest)?;
            Ok((FieldsText::Tupled(types), rest))
        }
        [Symbol::OpenBrace, rest @ ..] => {
            let (fields, rest) = read_fields(alloc, rest)?;
            Ok((FieldsText::Labelled(fields), rest))
        }
        _ => refuse(symbols),
    }
}

/// Parses `field,*` and the brace that closes it, and answers what stands past that.
///
/// # Errors
///
/// `Fault` with the first fault, where no such part stands at the front; `OutOfMemory`.
pub fn parse_fields<'a>(
    alloc: Global,
    symbols: &'a [Symbol],
) -> Result<(Items<FieldText>, &'a [Symbol]), ParseRefused>
    ensures derives { IfOk result (λ f. IsParsed (items_put field_decl_put symbol.CloseBrace) (items_rule field_rule) (AllItems FieldGood) symbols.now f.0 f.1.now) }
    ensures refuses { NoneStands (items_put field_decl_put symbol.CloseBrace) (AllItems FieldGood) Any symbols.now result }
    ensures read { Gives (λ f. (f.0, f.1.now)) result (spec.fields symbols.now) }
    ensures shorter { IfOk result (λ f. length f.1.now < length symbols.now) }
{
    read_fields(alloc, symbols)
}

/// Parses what stands behind a struct's path (`;`, `( type,* ) ;` or `{ field,* }`), and answers what stands past that.
///
/// # Errors
///
/// `Fault` with the first fault, where no such part stands at the front; `OutOfMemory`.
pub fn parse_struct_end<'a>(
    alloc: Global,
    symbols: &'a [Symbol],
) -> Result<(FieldsText, &'a [Symbol]), ParseRefused>
    ensures derives { IfOk result (λ f. IsParsed struct_put fields_rule FieldsGood symbols.now f.0 f.1.now) }
    ensures refuses { NoneStands struct_put FieldsGood Any symbols.now result }
    ensures read { Gives (λ f. (f.0, f.1.now)) result (spec.struct_end symbols.now) }
    ensures shorter { IfOk result (λ f. length f.1.now < length symbols.now) }
{
    read_struct_end(alloc, symbols)
}
