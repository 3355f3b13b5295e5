ghost use Rattle.std.specs.Prelude.{◌≡◌, ◌+◌, ◌*◌, ◌<◌, ◌≤◌, ◌^◌, IfOk};
ghost use Rattle.crate_gen.specs.Made.{function_lines, no_statements, functions_lines};

use mir_syntax::{BlockLines, FnLines, List, OutOfMemory};
use std::alloc::Global;

/// From the first line of a function to that of the next.
const LINES: u32 = 26;

fn no_statements(alloc: Global, term: u32) -> BlockLines
    ensures { result ≡ no_statements term }
{
    BlockLines {
        stmts: List::new(alloc),
        term,
    }
}

fn blocks_lines(alloc: Global, line: u32) -> Result<List<BlockLines>, OutOfMemory>
    requires { line + 26 < 2 ^ 32 }
    ensures { IfOk result (λ blocks. blocks ≡ (function_lines line).blocks) }
{
    let mut stmts = List::with_capacity(alloc, 3)?;
    stmts.extend([line + 7, line + 8, line + 9].as_slice())?;
    let mut blocks = List::with_capacity(alloc, 4)?;
    blocks.push(BlockLines {
        stmts,
        term: line + 10,
    })?;
    blocks.push(no_statements(alloc, line + 14))?;
    blocks.push(no_statements(alloc, line + 18))?;
    blocks.push(no_statements(alloc, line + 22))?;
    Ok(blocks)
}

fn locals_lines(alloc: Global, line: u32) -> Result<List<u32>, OutOfMemory>
    requires { line + 26 < 2 ^ 32 }
    ensures { IfOk result (λ locals. locals ≡ (function_lines line).locals) }
{
    let lines = [line + 1, line, line, line + 2, line + 3, line + 4];
    let mut locals = List::with_capacity(alloc, 6)?;
    locals.extend(lines.as_slice())?;
    Ok(locals)
}

/// The lines of a function whose text begins on this one.
fn function_lines(alloc: Global, line: u32) -> Result<FnLines, OutOfMemory>
    requires { line + 26 < 2 ^ 32 }
    ensures { IfOk result (λ lines. lines ≡ function_lines line) }
{
    Ok(FnLines {
        head: line,
        locals: locals_lines(alloc, line)?,
        blocks: blocks_lines(alloc, line)?,
    })
}

/// The lines of so many functions.
pub(crate) fn functions_lines(alloc: Global, functions: u32) -> Result<List<FnLines>, OutOfMemory>
    requires { functions ≤ 10000 }
    ensures { IfOk result (λ lines. lines ≡ functions_lines 1 functions) }
{
    let mut lines = List::with_capacity(alloc, functions as usize)?;
    for at in 0..functions {
        lines.push(function_lines(alloc, 1 + LINES * at)?)?;
    }
    Ok(lines)
}
