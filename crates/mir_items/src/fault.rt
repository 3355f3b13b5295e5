ghost use Rattle.std.specs.Prelude.{◌≡◌};
ghost use Rattle.mir_items.specs.FaultLines as spec;

use crate::line::line_with;
use mir_parse::SyntaxFault;

/// The line of the part in which a fault is, or 0 where it is in none.
fn part_line(lines: &[u32], part: Option<usize>) -> u32
    ensures { result ≡ spec.part_line lines.now part }
{
    match part {
        Some(left) => line_with(lines, left),
        None => 0,
    }
}

/// The line that a fault in a file is refused with: that of the symbol itself, of the end of the text, or of the innermost part that is open.
///
/// `lines` are the lines of the file's symbols.
#[tactic(auto, unfolding(crate::specs::FaultLines::fault_line))]
pub fn fault_line(fault: SyntaxFault, lines: &[u32], end_line: u32) -> u32
    ensures { result ≡ spec.fault_line lines.now end_line fault }
{
    if fault.code == 4 {
        line_with(lines, fault.left)
    } else if fault.code == 5 {
        end_line
    } else {
        part_line(lines, fault.part)
    }
}
