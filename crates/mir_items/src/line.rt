ghost use Rattle.std.specs.Prelude.{◌≡◌, ◌<◌, ◌≤◌, length};
ghost use Rattle.mir_items.specs.Lines as spec;
ghost use Rattle.mir_items.specs.FaultLines.{line_with as line_with_left};

use mir_parse::SyntaxFault;
use mir_text::Symbol;

/// The line of the symbol from which on so many are left, or 0 where there is none. The lines are those of all symbols of a file.
pub fn line_with(lines: &[u32], left: usize) -> u32
    ensures { result ≡ line_with_left lines.now left }
{
    let place = lines.len().saturating_sub(left);
    if place < lines.len() { lines[place] } else { 0 }
}

/// The line of the first symbol. The lines are those of all symbols of a file, so both end together.
pub fn line_at(lines: &[u32], symbols: &[Symbol]) -> u32
    ensures { result ≡ spec.line_of lines.now symbols.now }
{
    line_with(lines, symbols.len())
}

/// The lines of the symbols.
pub fn lines_of<'a>(lines: &'a [u32], symbols: &[Symbol]) -> &'a [u32]
    ensures { result.now ≡ spec.lines_at lines.now symbols.now }
{
    let place = lines.len().saturating_sub(symbols.len());
    &lines[place..]
}

/// The fault, in a part that begins with the first symbol, if it is in none inside.
#[tactic(auto, unfolding(crate::specs::Lines::fault_within))]
pub fn fault_within(fault: SyntaxFault, symbols: &[Symbol]) -> SyntaxFault
    ensures { result ≡ spec.fault_within symbols.now fault }
{
    match fault.part {
        Some(_) => fault,
        None => SyntaxFault {
            code: fault.code,
            left: fault.left,
            part: Some(symbols.len()),
        },
    }
}
