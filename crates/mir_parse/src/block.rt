ghost use Rattle.std.specs.Prelude.{◌≡◌, ◌<◌, ◌≤◌, length, get_or, IfOk};
ghost use Rattle.mir_parse.specs.Parser.{Gives};
ghost use Rattle.mir_parse.specs.Lines as spec;
ghost use Rattle.mir_parse.specs.Promises.{IsParsed, NoneStands, Any};
ghost use Rattle.mir_text.specs.GrammarTerms.{block_put};
ghost use Rattle.mir_text.specs.Nesting.{BlockGood};
ghost use Rattle.mir_text.specs.PartLines.{block_lined};
ghost use Rattle.mir_tree.specs.Bodies.{lined_block};
ghost use Rattle.mir_tree.specs.Rules.{block_rule};

use crate::ParseRefused;
use crate::line::{LineText, read_ended_line};
use crate::sign::{read_block_number, read_close_brace, read_colon, read_open_brace};
use mir_syntax::List;
use mir_text::Symbol;
use mir_tree::{BlockText, Lined, StmtText, TermText};
use std::alloc::Global;

/// The line at a place, or 0 where no line stands there.
fn line_at(lines: &[u32], place: usize) -> u32
    ensures { result ≡ get_or lines.now place 0 }
{
    match lines.get(place) {
        Some(line) => *line,
        None => 0,
    }
}

/// The statements and the terminator of a block of `whole` symbols, of which these are left.
#[tactic(auto, unfolding(crate::specs::Lines::lines_from))]
fn read_lines<'a>(
    alloc: Global,
    symbols: &'a [Symbol],
    lines: &[u32],
    whole: usize,
) -> Result<((List<Lined<StmtText>>, Lined<TermText>), &'a [Symbol]), ParseRefused>
    requires { length symbols.now ≤ whole }
    ensures read { Gives (λ f. (f.0, f.1.now)) result (spec.lines_at lines.now whole symbols.now) }
    ensures shorter { IfOk result (λ f. length f.1.now < length symbols.now) }
{
    let mut stmts = List::new(alloc);
    let mut rest = symbols;
    'turns: loop {
        let line = line_at(lines, whole - rest.len());
        let (found, past) = read_ended_line(alloc, rest)?;
        match found {
            LineText::Stmt(part) => {
                stmts.push(Lined { line, part })?;
                rest = past;
            }
            LineText::Term(part) => return Ok(((stmts, Lined { line, part }), past)),
        }
    }
}

/// A block; `lines` are those of the symbols.
#[tactic(auto, unfolding(crate::specs::Lines::block_at))]
fn read_block<'a>(
    alloc: Global,
    symbols: &'a [Symbol],
    lines: &[u32],
) -> Result<(BlockText, &'a [Symbol]), ParseRefused>
    ensures read { Gives (λ f. (f.0, f.1.now)) result (spec.block_at lines.now symbols.now) }
    ensures shorter { IfOk result (λ f. length f.1.now < length symbols.now) }
{
    let (label, rest) = read_block_number(symbols)?;
    let rest = read_colon(rest)?;
    let rest = read_open_brace(rest)?;
    let ((stmts, term), rest) = read_lines(alloc, rest, lines, symbols.len())?;
    let rest = read_close_brace(rest)?;
    Ok((BlockText { label, stmts, term }, rest))
}

/// Parses a block, and answers what stands past it. `lines` are the lines of the symbols, in step with them; where it is shorter, the line
/// is 0. A fault inside a statement or a terminator tells where that began.
///
/// # Errors
///
/// `Fault` with the first fault, where no such part stands at the front; `OutOfMemory`.
pub fn parse_block<'a>(
    alloc: Global,
    symbols: &'a [Symbol],
    lines: &[u32],
) -> Result<(BlockText, &'a [Symbol]), ParseRefused>
    ensures derives { IfOk result (λ f. IsParsed block_put (λ b. block_rule (lined_block b)) BlockGood symbols.now f.0 f.1.now) }
    ensures on_lines { IfOk result (λ f. lined_block f.0 ≡ block_lined (block_rule (lined_block f.0)) lines.now) }
    ensures refuses { NoneStands block_put BlockGood Any symbols.now result }
    ensures read { Gives (λ f. (f.0, f.1.now)) result (spec.block_at lines.now symbols.now) }
    ensures shorter { IfOk result (λ f. length f.1.now < length symbols.now) }
{
    read_block(alloc, symbols, lines)
}
