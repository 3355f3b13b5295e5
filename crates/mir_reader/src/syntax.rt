ghost use Rattle.std.specs.Prelude.{◌≡◌, ℕ, [], length, Some, None, Err, IfOk, OnOk};
ghost use Rattle.mir_text.specs.GrammarItems.{FileRule, file_put};
ghost use Rattle.mir_text.specs.Nesting.{FileGood};
ghost use Rattle.mir_items.specs.Files.{IsFile, IsOnlyFile};
ghost use Rattle.mir_reader.specs.Refusals as spec;
ghost use Rattle.mir_reader.specs.declared.refused.ReadRefused.TheVariants as refused;

use crate::ReadRefused;
use mir_items::{fault_line, parse_file};
use mir_parse::{ParseRefused, SyntaxFault};
use mir_symbols::Symbols;
use mir_tree::FileText;
use std::alloc::Global;

/// The refusal by a fault of the symbols. Where they end too early, since no piece stands at the next byte, it is that of the byte.
#[tactic(auto, unfolding(crate::specs::Refusals::by_symbols))]
fn refused_by(found: &Symbols, fault: SyntaxFault) -> ReadRefused
    ensures { result ≡ spec.refused_with (spec.by_symbols found.now fault) }
{
    match found.fault {
        Some(byte_fault) if fault.code == 5 => ReadRefused::from(byte_fault),
        _ => ReadRefused::Fault {
            code: fault.code,
            line: fault_line(fault, found.lines.as_slice(), found.end_line),
        },
    }
}

/// Parses the symbols of a whole text into the tree of its file.
///
/// # Errors
///
/// `Fault` with the first fault of the bytes and symbols (S01 to S09); `OutOfMemory`.
pub fn parse(alloc: Global, found: &Symbols) -> Result<FileText, ReadRefused>
    requires { length found.now.lines ≡ length found.now.symbols }
    // No byte is left at which no piece stands.
    ensures whole { OnOk result (found.now.fault ≡ None) }
    // The symbols are those of a good file, whose tree this is, and the tree is that of each such file.
    ensures derives { IfOk result (λ file. IsFile found.now.symbols found.now.lines file) }
    ensures once { IfOk result (λ file. IsOnlyFile found.now.symbols found.now.lines file) }
    // A whole text is refused only where its symbols are those of no good file.
    ensures refuses { (code line : ℕ) → result ≡ Err (refused.Fault code line) → found.now.fault ≡ None → (rule : FileRule) → FileGood rule → found.now.symbols ≡ file_put rule [] → ⊥ }
    ensures first { (code line : ℕ) → result ≡ Err (refused.Fault code line) → spec.first_of found.now ≡ Some (code, line) }
{
    match parse_file(alloc, found.symbols.as_slice(), found.lines.as_slice()) {
        Ok(file) => match found.fault {
            None => Ok(file),
            Some(byte_fault) => Err(ReadRefused::from(byte_fault)),
        },
        Err(ParseRefused::Fault(fault)) => Err(refused_by(found, fault)),
        Err(ParseRefused::OutOfMemory) => Err(ReadRefused::OutOfMemory),
    }
}
