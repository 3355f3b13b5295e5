ghost use Rattle.std.specs.Prelude.{◌≡◌, ◌<◌, ◌≤◌, length, IfOk};
ghost use Rattle.mir_parse.specs.Parser.{Gives};
ghost use Rattle.mir_items.specs.Functions as spec;

use crate::line::lines_of;
use mir_parse::{ParseRefused, parse_block, read_close_brace};
use mir_syntax::List;
use mir_text::Symbol;
use mir_tree::BlockText;
use std::alloc::Global;

/// Whether the label of a block comes next, one that is too large too.
#[tactic(auto, unfolding(crate::specs::Functions::begins_block))]
fn begins_block(symbols: &[Symbol]) -> bool
    ensures { result ≡ spec.begins_block symbols.now }
{
    match symbols {
        [Symbol::Block(_), ..] => true,
        [Symbol::LargeBlock, ..] => true,
        _ => false,
    }
}

/// A block, whose lines are the last of these.
fn read_block_here<'a>(
    alloc: Global,
    lines: &[u32],
    symbols: &'a [Symbol],
) -> Result<(BlockText, &'a [Symbol]), ParseRefused>
    ensures read { Gives (λ f. (f.0, f.1.now)) result (spec.block_here lines.now symbols.now) }
    ensures shorter { IfOk result (λ f. length f.1.now < length symbols.now) }
{
    parse_block(alloc, symbols, lines_of(lines, symbols))
}

/// Blocks, as far as they go.
#[tactic(auto, unfolding(crate::specs::Each::each_from))]
fn read_blocks<'a>(
    alloc: Global,
    lines: &[u32],
    symbols: &'a [Symbol],
) -> Result<(List<BlockText>, &'a [Symbol]), ParseRefused>
    ensures read { Gives (λ f. (f.0, f.1.now)) result (spec.blocks lines.now symbols.now) }
    ensures within { IfOk result (λ f. length f.1.now ≤ length symbols.now) }
{
    let mut blocks = List::new(alloc);
    let mut rest = symbols;
    'turns: while begins_block(rest) {
        let (block, past) = read_block_here(alloc, lines, rest)?;
        blocks.push(block)?;
        rest = past;
    }
    Ok((blocks, rest))
}

/// Parses the blocks of a function and the brace that closes it, and answers what stands past that.
///
/// # Errors
///
/// `Fault` with the first fault, where no such part stands at the front; `OutOfMemory`.
#[tactic(auto, unfolding(crate::specs::Functions::fn_blocks))]
pub fn read_fn_blocks<'a>(
    alloc: Global,
    lines: &[u32],
    symbols: &'a [Symbol],
) -> Result<(List<BlockText>, &'a [Symbol]), ParseRefused>
    ensures read { Gives (λ f. (f.0, f.1.now)) result (spec.fn_blocks lines.now symbols.now) }
    ensures shorter { IfOk result (λ f. length f.1.now < length symbols.now) }
{
    let (blocks, rest) = read_blocks(alloc, lines, symbols)?;
    let rest = read_close_brace(rest)?;
    Ok((blocks, rest))
}
