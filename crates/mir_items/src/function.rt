ghost use Rattle.std.specs.Prelude.{◌≡◌, ◌<◌, ◌≤◌, length, IfOk};
ghost use Rattle.mir_parse.specs.Parser.{Gives};
ghost use Rattle.mir_items.specs.Items as spec;
ghost use Rattle.mir_items.specs.Functions.{fn_item};

use crate::arg::read_args;
use crate::attr::{read_attr, read_drop};
use crate::block::read_fn_blocks;
use crate::decl::read_decls;
use crate::item::{read_fn_word, read_path_open, read_result};
use mir_parse::{ParseRefused, read_open_brace};
use mir_syntax::{Inline, List};
use mir_text::Symbol;
use mir_tree::{FnText, PathText, TypeText};
use std::alloc::Global;

/// `fn path (`
#[tactic(auto, unfolding(crate::specs::Items::fn_path))]
fn read_fn_path<'a>(
    alloc: Global,
    symbols: &'a [Symbol],
) -> Result<(PathText, &'a [Symbol]), ParseRefused>
    ensures read { Gives (λ f. (f.0, f.1.now)) result (spec.fn_path symbols.now) }
    ensures shorter { IfOk result (λ f. length f.1.now < length symbols.now) }
{
    let rest = read_fn_word(symbols)?;
    let (path, rest) = read_path_open(alloc, rest)?;
    Ok((path, rest))
}

/// `-> type {`
#[tactic(auto, unfolding(crate::specs::Items::result_open))]
fn read_result_open<'a>(
    alloc: Global,
    symbols: &'a [Symbol],
) -> Result<(TypeText, &'a [Symbol]), ParseRefused>
    ensures read { Gives (λ f. (f.0, f.1.now)) result (spec.result_open symbols.now) }
    ensures shorter { IfOk result (λ f. length f.1.now < length symbols.now) }
{
    let (ty, rest) = read_result(alloc, symbols)?;
    let rest = read_open_brace(rest)?;
    Ok((ty, rest))
}

/// A function behind its attribute and `drop`, up to its blocks.
#[tactic(auto, unfolding(crate::specs::Items::fn_head))]
fn read_fn_head<'a>(
    alloc: Global,
    lines: &[u32],
    inline: Inline,
    is_drop: bool,
    symbols: &'a [Symbol],
) -> Result<(FnText, &'a [Symbol]), ParseRefused>
    ensures read { Gives (λ f. (f.0, f.1.now)) result (spec.fn_head lines.now inline is_drop symbols.now) }
    ensures shorter { IfOk result (λ f. length f.1.now < length symbols.now) }
{
    let (path, rest) = read_fn_path(alloc, symbols)?;
    let (args, rest) = read_args(alloc, lines, rest)?;
    let (result, rest) = read_result_open(alloc, rest)?;
    let mut lets = List::new(alloc);
    let rest = read_decls(alloc, &mut lets, lines, rest, 65)?;
    Ok((
        FnText {
            inline,
            is_drop,
            path,
            args,
            result,
            lets,
            blocks: List::new(alloc),
        },
        rest,
    ))
}

/// Parses a function up to its blocks, and answers it without blocks, and what stands past that.
#[tactic(auto, unfolding(crate::specs::Items::fn_front))]
fn read_fn_front<'a>(
    alloc: Global,
    lines: &[u32],
    symbols: &'a [Symbol],
) -> Result<(FnText, &'a [Symbol]), ParseRefused>
    ensures read { Gives (λ f. (f.0, f.1.now)) result (spec.fn_front lines.now symbols.now) }
    ensures shorter { IfOk result (λ f. length f.1.now < length symbols.now) }
{
    let (inline, rest) = read_attr(symbols)?;
    let (is_drop, rest) = read_drop(rest);
    let (function, rest) = read_fn_head(alloc, lines, inline, is_drop, rest)?;
    Ok((function, rest))
}

/// Parses a function, and answers what stands past it.
///
/// # Errors
///
/// `Fault` with the first fault, where no such part stands at the front; `OutOfMemory`.
#[tactic(auto, unfolding(crate::specs::Functions::fn_item))]
pub fn read_fn<'a>(
    alloc: Global,
    lines: &[u32],
    symbols: &'a [Symbol],
) -> Result<(FnText, &'a [Symbol]), ParseRefused>
    ensures read { Gives (λ f. (f.0, f.1.now)) result (fn_item lines.now symbols.now) }
    ensures shorter { IfOk result (λ f. length f.1.now < length symbols.now) }
{
    let (front, rest) = read_fn_front(alloc, lines, symbols)?;
    let (blocks, rest) = read_fn_blocks(alloc, lines, rest)?;
    Ok((FnText { blocks, ..front }, rest))
}
