ghost use Rattle.std.specs.Prelude.{◌≡◌};
ghost use Rattle.mir_syntax.specs.Crate.{crate_of};
ghost use Rattle.mir_rules.specs.Broken.{terminator};
ghost use Rattle.mir_rules.specs.Faults.{line_at};
ghost use Rattle.mir_rules.specs.Drops.{is_drop};
ghost use Rattle.mirpipe_cli.specs.FirstDrop.{first_drop};
ghost use Rattle.mirpipe_cli.specs.Found.{drop_block};

use mir_syntax::{Block, Lines, Program, Term};

fn is_drop(term: &Term) -> bool
    ensures { result ≡ is_drop term.now }
{
    matches!(term, Term::Drop(..))
}

// The first block that ends in a `drop`.
fn drop_block(blocks: &[Block]) -> Option<usize>
    ensures { result ≡ drop_block blocks.now }
{
    let mut number = 0;
    for block in blocks {
        if is_drop(&block.term) {
            return Some(number);
        }
        number += 1;
    }
    None
}

fn terminator_line(lines: &Lines, function: usize, block: usize) -> u32
    ensures { result ≡ line_at lines.now (terminator function block) }
{
    match lines.functions.get(function) {
        Some(found) => match found.blocks.get(block) {
            Some(at) => at.term,
            None => 0,
        },
        None => 0,
    }
}

/// The line of the first `drop` terminator of a crate.
pub fn first_drop(program: &Program, lines: &Lines) -> Option<u32>
    ensures { result ≡ first_drop lines.now (crate_of program.now) }
{
    let mut number = 0;
    for function in program.functions.as_slice() {
        if let Some(block) = drop_block(function.body.blocks.as_slice()) {
            return Some(terminator_line(lines, number, block));
        }
        number += 1;
    }
    None
}
