ghost use Rattle.std.specs.Prelude.{◌≡◌, ◌+◌, ◌<◌, ◌≤◌, ℕ, List, [], length, Err, IfOk, OnOk, MatchOption};
ghost use Rattle.mir_syntax.specs.Crate.{Crate};
ghost use Rattle.mir_text.specs.Reads.{Reads};
ghost use Rattle.mir_symbols.specs.Scan.{InStep};
ghost use Rattle.mir_reader.specs.Text as spec;
ghost use Rattle.mir_reader.specs.Refusals.{SymbolsRefused};
ghost use Rattle.mir_reader.specs.declared.refused.ReadRefused.TheVariants as refused;

use crate::{ReadRefused, parse};
use mir_items::parse_item;
use mir_names::Names;
use mir_symbols::{Symbols, no_symbols, read_symbols};
use mir_syntax::{List, OutOfMemory};
use mir_tree::{FileText, ItemText, Lined};
use std::alloc::Global;

/// The tree of a text, and the byte strings of its names and strings.
#[derive(Drop)]
pub struct TextTree {
    pub strings: Names,
    pub file: FileText,
}

/// Reads on over an item, whose symbols are then given up, and answers the bytes left. `None` where the symbols up to where an item may end
/// are those of no item, or end in a fault.
fn read_item<'a>(
    alloc: Global,
    found: &mut Symbols,
    items: &mut List<Lined<ItemText>>,
    bytes: &'a [u8],
) -> Result<Option<&'a [u8]>, OutOfMemory>
    requires some { 0 < length bytes.now }
    requires step { InStep found.old }
    requires strings { length found.old.strings + length bytes.now ≤ 67_108_872 }
    requires lines { found.old.end_line + length bytes.now ≤ 67_108_865 }
    ensures read { IfOk result (λ past. MatchOption past (Unit {0}) (λ rest. (text : List ℕ) → spec.IsReadTo text found.old items.old bytes.now → spec.IsReadTo text found.new items.new rest.now)) }
    ensures shorter { IfOk result (λ past. MatchOption past (Unit {0}) (λ rest. length rest.now < length bytes.now)) }
    ensures strings { IfOk result (λ past. MatchOption past (Unit {0}) (λ rest. length found.new.strings + length rest.now ≤ length found.old.strings + length bytes.now)) }
    ensures lines { IfOk result (λ past. MatchOption past (Unit {0}) (λ rest. found.new.end_line + length rest.now ≤ found.old.end_line + length bytes.now)) }
{
    let rest = found.scan_item(bytes)?;
    if found.fault.is_some() {
        return Ok(None);
    }
    if found.symbols.is_empty() {
        return Ok(Some(rest));
    }
    match parse_item(alloc, found.symbols.as_slice(), found.lines.as_slice())? {
        Some(item) => {
            items.push(item)?;
            found.clear();
            Ok(Some(rest))
        }
        None => Ok(None),
    }
}

/// Reads a text item by item, so that no more symbols are held than those of one item. `None` where the text has a fault.
fn read_items(alloc: Global, bytes: &[u8]) -> Result<Option<TextTree>, OutOfMemory>
    requires { length bytes.now ≤ 67_108_864 }
    ensures { IfOk result (λ found. MatchOption found (Unit {0}) (λ tree. spec.IsTreeOfText bytes.now tree)) }
{
    let mut found = no_symbols(alloc)?;
    let mut items = List::new(alloc);
    let mut rest = bytes;
    'items: while !rest.is_empty() {
        match read_item(alloc, &mut found, &mut items, rest)? {
            Some(past) => rest = past,
            None => return Ok(None),
        }
    }
    Ok(Some(TextTree {
        strings: found.strings,
        file: FileText { items },
    }))
}

/// Reads a text by all its symbols, which tell the first fault.
fn read_whole(alloc: Global, bytes: &[u8]) -> Result<TextTree, ReadRefused>
    requires { length bytes.now ≤ 67_108_864 }
    ensures read { IfOk result (λ tree. spec.IsTreeOfText bytes.now tree) }
    ensures refuses { (code line : ℕ) → result ≡ Err (refused.Fault code line) → (C : Crate) → Reads bytes.now C → ⊥ }
    ensures first { (code line : ℕ) → result ≡ Err (refused.Fault code line) → SymbolsRefused bytes.now code line }
{
    let found = read_symbols(alloc, bytes)?;
    let file = parse(alloc, &found)?;
    Ok(TextTree {
        strings: found.strings,
        file,
    })
}

/// The tree of a text.
///
/// # Errors
///
/// `Fault` with the first fault of the bytes and symbols (S01 to S09); `OutOfMemory`.
pub fn read_tree(alloc: Global, bytes: &[u8]) -> Result<TextTree, ReadRefused>
    requires { length bytes.now ≤ 67_108_864 }
    // Its symbols are those of a good file, whose tree this is, and the tree is that of each such file.
    ensures read { IfOk result (λ tree. spec.IsTreeOfText bytes.now tree) }
    // A text that is refused names no crate.
    ensures refuses { (code line : ℕ) → result ≡ Err (refused.Fault code line) → (C : Crate) → Reads bytes.now C → ⊥ }
    ensures first { (code line : ℕ) → result ≡ Err (refused.Fault code line) → SymbolsRefused bytes.now code line }
{
    match read_items(alloc, bytes)? {
        Some(tree) => Ok(tree),
        None => read_whole(alloc, bytes),
    }
}
