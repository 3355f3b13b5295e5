ghost use Rattle.std.specs.Prelude.{◌≡◌, ◌++◌, ℕ, List, map, length, replicate, slice_set, IfOk};
ghost use Rattle.mir_text.specs.GrammarItems.{ArgRule};
ghost use Rattle.mir_text.specs.PartLines.{Lined};
ghost use Rattle.mir_text.specs.ReadLines as read_lines;
ghost use Rattle.mir_tree.specs.Bodies.{lined};
ghost use Rattle.mir_tree.specs.Rules.{arg_rule};

use mir_syntax::{List, OutOfMemory};
use mir_tree::{ArgText, FnText};
use std::alloc::Global;

fn no_lines(alloc: Global, count: usize) -> Result<List<u32>, OutOfMemory>
    ensures { IfOk result (λ none. none ≡ replicate count 0) }
{
    let mut none = Vec::new(alloc);
    match none.resize(count, 0u32) {
        Ok(()) => Ok(List::from_vec(none)),
        Err(_) => Err(OutOfMemory),
    }
}

/// Sets the line of a local, if it is one of those that have lines.
fn set_line(lines: &mut List<u32>, local: u32, line: u32)
    ensures { lines.new ≡ slice_set lines.old local line }
{
    if (local as usize) < lines.len() {
        let items = lines.as_mut_slice();
        items[local as usize] = line;
    }
}

/// Sets the lines of declarations, the last one first, so that each local has in the end the line of its first one.
fn set_lines(lines: &mut List<u32>, texts: &[mir_tree::Lined<ArgText>])
    ensures { (done : List (Lined ArgRule)) (n : ℕ) → lines.old ≡ read_lines.local_lines done 0 n → lines.new ≡ read_lines.local_lines (map (lined arg_rule) texts.now ++ done) 0 n }
{
    let mut left = texts.len();
    'texts: while left > 0 {
        left -= 1;
        let text = &texts[left];
        set_line(lines, text.part.local, text.line);
    }
}

/// The line of the first declaration of each of so many locals, from `_0` on; 0 where there is none.
///
/// # Errors
///
/// `OutOfMemory`.
pub fn local_lines(alloc: Global, count: usize, function: &FnText) -> Result<List<u32>, OutOfMemory>
    ensures { IfOk result (λ found. found ≡ read_lines.local_lines (map (lined arg_rule) function.now.args.items ++ map (lined arg_rule) function.now.lets) 0 count) }
{
    let mut found = no_lines(alloc, count)?;
    set_lines(&mut found, function.lets.as_slice());
    set_lines(&mut found, function.args.items.as_slice());
    Ok(found)
}
