ghost use Rattle.std.specs.Prelude.{◌≡◌, ◌+◌, ◌<◌, ◌≤◌, false, None, length, IfOk, OnOk};
ghost use Rattle.mir_symbols.specs.Scan as spec;
ghost use Rattle.mir_symbols.specs.declared.scan.Symbols.{Symbols as SymbolsData};

use crate::scan::Symbols;
use mir_lex::{Found, Kind, LexFault, first_piece};
use mir_syntax::OutOfMemory;

/// The places of the signs that tell where an item may end, in the list of signs.
const OPEN_BRACE: u8 = 2;

const CLOSE_BRACE: u8 = 3;

const SEMICOLON: u8 = 7;

/// How many braces are open behind a piece.
fn open_behind(open: u32, piece: Found) -> u32 {
    match piece {
        Found::Token(Kind::Sign(place)) if place == OPEN_BRACE => open.saturating_add(1),
        Found::Token(Kind::Sign(place)) if place == CLOSE_BRACE => open.saturating_sub(1),
        _ => open,
    }
}

/// Whether an item may end with a piece, behind which no brace is open.
fn may_end_item(piece: Found) -> bool {
    match piece {
        Found::Token(Kind::Sign(place)) => place == CLOSE_BRACE || place == SEMICOLON,
        _ => false,
    }
}

impl Symbols {
    /// Goes on over the bytes of a text to its end, to the first fault, or, if it is to stop there, to where an item may end, and answers the
    /// bytes left.
    pub(crate) fn scan_on<'a>(
        &mut self,
        bytes: &'a [u8],
        stops: bool,
    ) -> Result<&'a [u8], OutOfMemory>
        requires strings { length self.old.strings + length bytes.now ≤ 67_108_872 }
        requires lines { self.old.end_line + length bytes.now ≤ 67_108_865 }
        // With what is found now, a scan of the bytes left ends as one of all bytes would have.
        ensures goes_on { IfOk result (λ rest. (whole : SymbolsData) → spec.EndsWith self.old bytes.now whole → spec.EndsWith self.new rest.now whole) }
        // Where it doesn't stop at items, the scan ends here.
        ensures ends { IfOk result (λ rest. stops ≡ false → (whole : SymbolsData) → spec.EndsWith self.old bytes.now whole → whole ≡ self.new) }
        ensures in_step { OnOk result (spec.InStep self.old → spec.InStep self.new) }
        ensures shorter { IfOk result (λ rest. self.new.fault ≡ None → 0 < length bytes.now → length rest.now < length bytes.now) }
        ensures strings { IfOk result (λ rest. length self.new.strings + length rest.now ≤ length self.old.strings + length bytes.now) }
        ensures lines { IfOk result (λ rest. self.new.end_line + length rest.now ≤ self.old.end_line + length bytes.now) }
    {
        let mut rest = bytes;
        let mut open = 0;
        'turns: while !rest.is_empty() {
            match first_piece(rest) {
                Ok((piece, past)) => {
                    self.take(piece, &rest[..rest.len() - past.len()])?;
                    rest = past;
                    open = open_behind(open, piece);
                    if stops && open == 0 && may_end_item(piece) {
                        return Ok(rest);
                    }
                }
                Err(code) => {
                    self.fault = Some(LexFault {
                        code,
                        line: self.end_line,
                    });
                    return Ok(rest);
                }
            }
        }
        Ok(rest)
    }

    /// Goes on over the bytes of a text up to where an item may end, to the end of the text or to the first fault, and answers the bytes left.
    ///
    /// An item may end with a brace or a semicolon behind which no brace is open. Whether one does end there is for the parser to say.
    ///
    /// # Errors
    ///
    /// `OutOfMemory`, where the symbols or the names get no memory.
    pub fn scan_item<'a>(&mut self, bytes: &'a [u8]) -> Result<&'a [u8], OutOfMemory>
        requires strings { length self.old.strings + length bytes.now ≤ 67_108_872 }
        requires lines { self.old.end_line + length bytes.now ≤ 67_108_865 }
        // With what is found now, a scan of the bytes left ends as one of all bytes would have.
        ensures goes_on { IfOk result (λ rest. (whole : SymbolsData) → spec.EndsWith self.old bytes.now whole → spec.EndsWith self.new rest.now whole) }
        ensures in_step { OnOk result (spec.InStep self.old → spec.InStep self.new) }
        ensures shorter { IfOk result (λ rest. self.new.fault ≡ None → 0 < length bytes.now → length rest.now < length bytes.now) }
        ensures strings { IfOk result (λ rest. length self.new.strings + length rest.now ≤ length self.old.strings + length bytes.now) }
        ensures lines { IfOk result (λ rest. self.new.end_line + length rest.now ≤ self.old.end_line + length bytes.now) }
    {
        self.scan_on(bytes, true)
    }

    /// Gives up the symbols found so far, with their lines.
    pub fn clear(&mut self)
        ensures { self.new ≡ spec.cleared self.old }
    {
        self.symbols.truncate(0);
        self.lines.truncate(0);
    }
}
