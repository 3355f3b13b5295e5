ghost use Rattle.std.specs.Prelude.{◌≡◌, Option, None};
ghost use Rattle.mir_parse.specs.declared.fault.ParseRefused.TheVariants as refused;
ghost use Rattle.mir_parse.specs.Faults as spec;

use mir_syntax::OutOfMemory;
use mir_text::Symbol;

/// Why symbols are refused, by the code of the refusal (4 to 9, `S04` to `S09`).
///
/// Places are told by how many symbols are left from there on, those of the caller's slice beyond what is parsed among them.
#[derive(Clone, Copy, Debug, Drop, PartialEq, Eq)]
pub struct SyntaxFault {
    pub code: u8,
    /// How many symbols stand from the one at fault on; 0 at the end.
    pub left: usize,
    /// How many stood where the innermost part began that is open at the fault, if one is: a statement or a terminator.
    pub part: Option<usize>,
}

/// Why nothing is parsed.
#[derive(Clone, Copy, Debug, Drop, PartialEq, Eq)]
pub enum ParseRefused {
    OutOfMemory,
    Fault(SyntaxFault),
}

impl From<OutOfMemory> for ParseRefused {
    ghost from_gives = { λ _ e. e ≡ refused.OutOfMemory };

    fn from(_: OutOfMemory) -> Self {
        ParseRefused::OutOfMemory
    }
}

/// A fault at the first of the symbols, outside any part.
pub fn fault_at(code: u8, symbols: &[Symbol]) -> SyntaxFault
    ensures { result ≡ spec.fault_at code symbols.now }
{
    SyntaxFault {
        code,
        left: symbols.len(),
        part: None,
    }
}

/// Nothing goes on with the first symbol: it is a left-out word or another symbol, or the symbols end.
#[tactic(auto, unfolding(crate::specs::Faults::no_reading))]
pub fn no_reading(symbols: &[Symbol]) -> SyntaxFault
    ensures { result ≡ spec.no_reading symbols.now }
{
    match symbols {
        [] => fault_at(5, symbols),
        [Symbol::LeftOut, ..] => fault_at(7, symbols),
        _ => fault_at(4, symbols),
    }
}

/// The symbols are refused since nothing goes on with the first.
///
/// # Errors
///
/// Always: `Fault` at the first symbol.
pub fn refuse<X: Drop>(symbols: &[Symbol]) -> Result<X, ParseRefused>
    ensures { result ≡ Err (ParseRefused.Fault (spec.no_reading symbols.now)) }
{
    Err(ParseRefused::Fault(no_reading(symbols)))
}

/// The symbols are refused with a code at the first.
///
/// # Errors
///
/// Always: `Fault` with the code at the first symbol.
pub fn refuse_with<X: Drop>(code: u8, symbols: &[Symbol]) -> Result<X, ParseRefused>
    ensures { result ≡ Err (ParseRefused.Fault (spec.fault_at code symbols.now)) }
{
    Err(ParseRefused::Fault(fault_at(code, symbols)))
}
