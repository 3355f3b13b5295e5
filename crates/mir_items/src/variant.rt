ghost use Rattle.std.specs.Prelude.{◌≡◌, ◌<◌, ◌≤◌, length, IfOk};
ghost use Rattle.mir_parse.specs.Parser.{Gives};
ghost use Rattle.mir_parse.specs.Promises.{IsParsed, NoneStands, Any};
ghost use Rattle.mir_text.specs.declared.symbol.Symbol.TheVariants as symbol;
ghost use Rattle.mir_text.specs.Grammar.{items_put, AllItems};
ghost use Rattle.mir_text.specs.GrammarItems.{variant_decl_put};
ghost use Rattle.mir_text.specs.Nesting.{VariantGood};
ghost use Rattle.mir_tree.specs.Lists.{items_rule};
ghost use Rattle.mir_tree.specs.Rules.{variant_rule};
ghost use Rattle.mir_items.specs.Fields as spec;

use crate::field::read_fields;
use mir_parse::{Bracket, ParseRefused, ReadItem, parse_types, read_items, read_name};
use mir_text::Symbol;
use mir_tree::{FieldsText, Items, VariantText};
use std::alloc::Global;

/// The fields of a variant, behind its name.
#[tactic(auto, unfolding(crate::specs::Fields::variant_end))]
fn read_variant_end<'a>(
    alloc: Global,
    symbols: &'a [Symbol],
) -> Result<(FieldsText, &'a [Symbol]), ParseRefused>
    ensures read { Gives (λ f. (f.0, f.1.now)) result (spec.variant_end symbols.now) }
    ensures within { IfOk result (λ f. length f.1.now ≤ length symbols.now) }
{
    match symbols {
        [Symbol::Open, rest @ ..] => {
            let (types, rest) = parse_types(alloc, rest, 65)?;
            Ok((FieldsText::Tupled(types), rest))
        }
        [Symbol::OpenBrace, rest @ ..] => {
            let (fields, rest) = read_fields(alloc, rest)?;
            Ok((FieldsText::Labelled(fields), rest))
        }
        _ => Ok((FieldsText::Plain, symbols)),
    }
}

/// `name`, and its fields.
#[tactic(auto, unfolding(crate::specs::Fields::variant))]
fn read_variant<'a>(
    alloc: Global,
    symbols: &'a [Symbol],
) -> Result<(VariantText, &'a [Symbol]), ParseRefused>
    ensures read { Gives (λ f. (f.0, f.1.now)) result (spec.variant symbols.now) }
    ensures shorter { IfOk result (λ f. length f.1.now < length symbols.now) }
{
    let (name, rest) = read_name(symbols)?;
    let (fields, rest) = read_variant_end(alloc, rest)?;
    Ok((VariantText { name, fields }, rest))
}

/// Reads the variants of a list.
#[derive(Drop)]
struct VariantReader;

impl ReadItem for VariantReader {
    type Item = VariantText;

    ghost item = { λ _. spec.variant };

    fn read<'a>(
        &self,
        alloc: Global,
        symbols: &'a [Symbol],
    ) -> Result<(VariantText, &'a [Symbol]), ParseRefused> {
        read_variant(alloc, symbols)
    }
}

/// `variant,*` and the brace that closes it.
pub(crate) fn read_variants<'a>(
    alloc: Global,
    symbols: &'a [Symbol],
) -> Result<(Items<VariantText>, &'a [Symbol]), ParseRefused>
    ensures read { Gives (λ f. (f.0, f.1.now)) result (spec.variants symbols.now) }
    ensures shorter { IfOk result (λ f. length f.1.now < length symbols.now) }
{
    read_items(alloc, &VariantReader, Bracket::Brace, symbols)
}

/// Parses `variant,*` and the brace that closes it, and answers what stands past that.
///
/// # Errors
///
/// `Fault` with the first fault, where no such part stands at the front; `OutOfMemory`.
pub fn parse_variants<'a>(
    alloc: Global,
    symbols: &'a [Symbol],
) -> Result<(Items<VariantText>, &'a [Symbol]), ParseRefused>
    ensures derives { IfOk result (λ f. IsParsed (items_put variant_decl_put symbol.CloseBrace) (items_rule variant_rule) (AllItems VariantGood) symbols.now f.0 f.1.now) }
    ensures refuses { NoneStands (items_put variant_decl_put symbol.CloseBrace) (AllItems VariantGood) Any symbols.now result }
    ensures read { Gives (λ f. (f.0, f.1.now)) result (spec.variants symbols.now) }
    ensures shorter { IfOk result (λ f. length f.1.now < length symbols.now) }
{
    read_variants(alloc, symbols)
}
