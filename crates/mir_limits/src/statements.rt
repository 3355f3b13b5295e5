ghost use Rattle.std.specs.Prelude.{◌≡◌, ℕ, IsTrue, Some, map, slice_get, option_map};
ghost use Rattle.mir_syntax.specs.declared.lines.BlockLines.{BlockLines as BlockLinesData};
ghost use Rattle.mir_syntax.specs.declared.lines.FnLines.{FnLines as FnLinesData};
ghost use Rattle.mir_syntax.specs.declared.lines.Lines.{Lines as LinesData};
ghost use Rattle.mir_syntax.specs.Crate.{TypedBlock, TypedFunction, Crate};
ghost use Rattle.mir_text.specs.NameFaults.{first_fault};
ghost use Rattle.mir_rules.specs.Faults.{block_fits, function_fits, lines_fit, by_code};
ghost use Rattle.mir_rules.specs.Limits.{most_statements, block_spots, function_spots, statement_spots, statements_passed};
ghost use Rattle.mir_limits.specs.Answer.{at_code, Reaches};

use mir_syntax::{FnLines, Lines, List};

/// Where a count over statements ends: at the line of the one that is looked for, or behind them all with so many still to go.
#[derive(Clone, Copy, Debug, Drop)]
pub enum Reached {
    Line(u32),
    Beyond(usize),
}

fn in_block(lines: &List<u32>, left: usize) -> Reached
    ensures { (all : LinesData) (f block : ℕ) (g : FnLinesData) (k : BlockLinesData) (typed : TypedBlock) → slice_get all.functions f ≡ Some g → slice_get g.blocks block ≡ Some k → k.stmts ≡ lines.now
        → IsTrue (block_fits k typed) → Reaches all (block_spots f block typed) left result }
{
    match lines.get(left).copied() {
        Some(line) => Reached::Line(line),
        None => Reached::Beyond(left - lines.len()),
    }
}

fn in_function(lines: &FnLines, start: usize) -> Reached
    ensures { (all : LinesData) (f : ℕ) (typed : TypedFunction) → slice_get all.functions f ≡ Some lines.now → IsTrue (function_fits lines.now typed) → Reaches all (function_spots f typed) start result }
{
    let mut left = start;
    for at in 0..lines.blocks.len() {
        match in_block(&lines.blocks.as_slice()[at].stmts, left) {
            Reached::Line(line) => return Reached::Line(line),
            Reached::Beyond(more) => left = more,
        }
    }
    Reached::Beyond(left)
}

fn in_functions(lines: &Lines, start: usize) -> Reached
    ensures { (C : Crate) → IsTrue (lines_fit lines.now C) → Reaches lines.now (statement_spots C) start result }
{
    let mut left = start;
    for at in 0..lines.functions.len() {
        match in_function(&lines.functions.as_slice()[at], left) {
            Reached::Line(line) => return Reached::Line(line),
            Reached::Beyond(more) => left = more,
        }
    }
    Reached::Beyond(left)
}

/// The line of the first statement beyond the limit.
pub fn statements_line(lines: &Lines) -> Option<u32>
    ensures { (C : Crate) → IsTrue (lines_fit lines.now C) → option_map (at_code 6) result ≡ first_fault (map (by_code lines.now) (statements_passed most_statements C)) }
{
    match in_functions(lines, 2_000_000) {
        Reached::Line(line) => Some(line),
        Reached::Beyond(_) => None,
    }
}
