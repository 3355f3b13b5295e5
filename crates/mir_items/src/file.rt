ghost use Rattle.std.specs.Prelude.{◌≡◌, ◌<◌, ◌≤◌, [], length, IfOk};
ghost use Rattle.mir_parse.specs.Parser.{Gives};
ghost use Rattle.mir_items.specs.Files as spec;
ghost use Rattle.mir_items.specs.Files.{InItem, IsFile, IsItemOrNone, IsOnlyFile, NoFile};

use crate::function::read_fn;
use crate::item::{read_enum, read_extern, read_struct};
use crate::line::{fault_within, line_at};
use mir_parse::ParseRefused;
use mir_syntax::{List, OutOfMemory};
use mir_text::Symbol;
use mir_tree::{FileText, ItemText, Lined};
use std::alloc::Global;

/// An item by its first word; what is none of the others is a function.
#[tactic(auto, unfolding(crate::specs::Files::item_part))]
fn read_item_part<'a>(
    alloc: Global,
    lines: &[u32],
    symbols: &'a [Symbol],
) -> Result<(ItemText, &'a [Symbol]), ParseRefused>
    ensures read { Gives (λ f. (f.0, f.1.now)) result (spec.item_part lines.now symbols.now) }
    ensures shorter { IfOk result (λ f. length f.1.now < length symbols.now) }
{
    match symbols {
        [Symbol::Struct, rest @ ..] => {
            let (item, rest) = read_struct(alloc, rest)?;
            Ok((item, rest))
        }
        [Symbol::Enum, rest @ ..] => {
            let (item, rest) = read_enum(alloc, rest)?;
            Ok((item, rest))
        }
        [Symbol::Extern, rest @ ..] => {
            let (item, rest) = read_extern(alloc, rest)?;
            Ok((item, rest))
        }
        _ => {
            let (function, rest) = read_fn(alloc, lines, symbols)?;
            Ok((ItemText::Function(function), rest))
        }
    }
}

/// Parses an item, and answers it with the line of its first symbol, and what stands past it.
#[tactic(auto, unfolding(crate::specs::Files::item))]
fn read_item<'a>(
    alloc: Global,
    lines: &[u32],
    symbols: &'a [Symbol],
) -> Result<(Lined<ItemText>, &'a [Symbol]), ParseRefused>
    ensures read { Gives (λ f. (f.0, f.1.now)) result (spec.item lines.now symbols.now) }
    ensures shorter { IfOk result (λ f. length f.1.now < length symbols.now) }
{
    match read_item_part(alloc, lines, symbols) {
        Ok((part, rest)) => {
            let line = line_at(lines, symbols);
            Ok((Lined { line, part }, rest))
        }
        Err(ParseRefused::Fault(fault)) => {
            Err(ParseRefused::Fault(fault_within(fault, symbols)))
        }
        Err(ParseRefused::OutOfMemory) => Err(ParseRefused::OutOfMemory),
    }
}

/// The items of a file, up to the end of the symbols.
#[tactic(auto, unfolding(crate::specs::Each::each_from))]
fn read_file(alloc: Global, lines: &[u32], symbols: &[Symbol]) -> Result<FileText, ParseRefused>
    ensures { Gives (λ file. (file.items, [])) result (spec.file lines.now symbols.now) }
{
    let mut items = List::new(alloc);
    let mut rest = symbols;
    'turns: while !rest.is_empty() {
        let (item, past) = read_item(alloc, lines, rest)?;
        items.push(item)?;
        rest = past;
    }
    Ok(FileText { items })
}

/// Parses an item whose symbols these are all; `None` where they are those of no good item. `lines` are their lines, in step with them.
///
/// # Errors
///
/// `OutOfMemory`.
pub fn parse_item(
    alloc: Global,
    symbols: &[Symbol],
    lines: &[u32],
) -> Result<Option<Lined<ItemText>>, OutOfMemory>
    requires { length lines.now ≡ length symbols.now }
    ensures { IfOk result (λ item. IsItemOrNone symbols.now lines.now item) }
{
    match read_item(alloc, lines, symbols) {
        Ok((item, [])) => Ok(Some(item)),
        Ok((_item, _)) => Ok(None),
        Err(ParseRefused::Fault(_)) => Ok(None),
        Err(ParseRefused::OutOfMemory) => Err(OutOfMemory),
    }
}

/// Parses a whole file. `lines` are the lines of the symbols, in step with them.
///
/// A fault tells which symbol it is at, and where the innermost item, argument, `let` line, statement or terminator began that is open there.
///
/// # Errors
///
/// `Fault` with the first fault (S04 to S09), where the symbols are those of no good file; `OutOfMemory`.
pub fn parse_file(
    alloc: Global,
    symbols: &[Symbol],
    lines: &[u32],
) -> Result<FileText, ParseRefused>
    requires { length lines.now ≡ length symbols.now }
    ensures derives { IfOk result (λ file. IsFile symbols.now lines.now file) }
    ensures once { IfOk result (λ file. IsOnlyFile symbols.now lines.now file) }
    ensures refuses { NoFile symbols.now result }
    ensures in_item { InItem result }
    ensures read { Gives (λ file. (file.items, [])) result (spec.file lines.now symbols.now) }
{
    read_file(alloc, lines, symbols)
}
