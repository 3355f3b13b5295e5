ghost use Rattle.std.specs.Prelude.{◌≡◌, ◌+◌, ◌-◌, ◌<◌, ◌≤◌, ◌^◌, [], None, length, IfOk, OnOk};
ghost use Rattle.mir_symbols.specs.Scan as spec;
ghost use Rattle.mir_symbols.specs.Found.{IsSymbolsOf};
ghost use Rattle.mir_symbols.specs.declared.scan.Symbols.{Symbols as SymbolsData};

use crate::kind::plain_symbol;
use crate::name::{first_names, number_of};
use mir_lex::{Found, Kind, LexFault};
use mir_names::Names;
use mir_syntax::{List, OutOfMemory};
use mir_text::Symbol;
use std::alloc::Global;

/// The symbols of a text, up to its end or to the first fault.
#[derive(Drop)]
pub struct Symbols {
    pub symbols: List<Symbol>,
    /// The line of each symbol.
    pub lines: List<u32>,
    /// The byte strings of names and strings: the number of one is its place here.
    pub strings: Names,
    /// Where the text can't be cut on, if it can't.
    pub fault: Option<LexFault>,
    /// The line where the text ends, or where the fault is.
    pub end_line: u32,
}

/// What stands between the quotes of a string.
fn inside(text: &[u8]) -> &[u8]
    ensures { result.now ≡ spec.inside text.now }
{
    if text.len() < 2 {
        return &[];
    }
    let past = &text[1..];
    &past[..text.len() - 2]
}

impl Symbols {
    fn push(&mut self, symbol: Symbol) -> Result<(), OutOfMemory>
        ensures { OnOk result (self.new ≡ spec.with_symbol self.old symbol) }
    {
        self.symbols.push(symbol)?;
        self.lines.push(self.end_line)?;
        Ok(())
    }

    #[inline(always)]
    fn add(&mut self, kind: Kind, text: &[u8]) -> Result<(), OutOfMemory>
        requires { length self.old.strings < 2 ^ 32 - 1 }
        ensures added { OnOk result (self.new ≡ spec.with_token self.old (spec.kind_token kind text.now)) }
        ensures few { OnOk result (length self.new.strings ≤ length self.old.strings + 1) }
    {
        match kind {
            Kind::Name => {
                let number = number_of(&mut self.strings, text)?;
                self.push(Symbol::Name(number))
            }
            Kind::Text => {
                let number = number_of(&mut self.strings, inside(text))?;
                self.push(Symbol::Text(number))
            }
            _ => self.push(plain_symbol(kind, text)),
        }
    }

    /// Takes a piece with its bytes.
    #[inline(always)]
    pub(crate) fn take(&mut self, found: Found, text: &[u8]) -> Result<(), OutOfMemory>
        requires strings { length self.old.strings < 2 ^ 32 - 1 }
        requires lines { self.old.end_line < 2 ^ 32 - 1 }
        ensures taken { OnOk result (self.new ≡ spec.taking self.old found text.now) }
        ensures strings { OnOk result (length self.new.strings ≤ length self.old.strings + 1) }
        ensures lines { OnOk result (self.new.end_line ≤ self.old.end_line + 1) }
    {
        match found {
            Found::Blank => Ok(()),
            Found::Comment => Ok(()),
            Found::Line => {
                self.end_line += 1;
                Ok(())
            }
            Found::Token(kind) => self.add(kind, text),
        }
    }
}

/// No symbols yet, before the first byte of a text.
///
/// # Errors
///
/// `OutOfMemory`, where the names that the grammar looks for get no memory.
pub fn no_symbols(alloc: Global) -> Result<Symbols, OutOfMemory>
    ensures { IfOk result (λ found. found ≡ spec.no_symbols) }
{
    Ok(Symbols {
        symbols: List::new(alloc),
        lines: List::new(alloc),
        strings: first_names(alloc)?,
        fault: None,
        end_line: 1,
    })
}

fn scan(alloc: Global, bytes: &[u8]) -> Result<Symbols, OutOfMemory>
    requires { length bytes.now ≤ 67_108_864 }
    ensures { IfOk result (λ found. found ≡ spec.scan bytes.now) }
{
    let mut found = no_symbols(alloc)?;
    let _rest = found.scan_on(bytes, false)?;
    Ok(found)
}

/// The symbols of a text with their lines, up to its end or to the first byte where no piece stands (S01 to S03).
///
/// # Errors
///
/// `OutOfMemory`, where the symbols or the names get no memory.
#[tactic(auto, using(crate::proofs::Scanned::scanned, crate::proofs::Scanned::scanned_once))]
pub fn read_symbols(alloc: Global, bytes: &[u8]) -> Result<Symbols, OutOfMemory>
    requires { length bytes.now ≤ 67_108_864 }
    // The text is cut into pieces that stand together, and these are their symbols.
    ensures symbols { IfOk result (λ found. IsSymbolsOf bytes.now found) }
    // It has no other symbols.
    ensures once { IfOk result (λ found. (other : SymbolsData) → IsSymbolsOf bytes.now other → other ≡ found) }
{
    scan(alloc, bytes)
}
