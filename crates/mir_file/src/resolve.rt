ghost use Rattle.std.specs.Prelude.{◌≡◌, [], List, map, Some, Err, IfOk};
ghost use Rattle.mir_syntax.specs.Crate.{crate_of};
ghost use Rattle.mir_syntax.specs.Ids.{IdsInTable};
ghost use Rattle.mir_text.specs.Names.{names_of};
ghost use Rattle.mir_text.specs.Naming.{crate_named};
ghost use Rattle.mir_text.specs.NameFaults.{name_faults, first_fault};
ghost use Rattle.mir_text.specs.PartLines.{LinedItem};
ghost use Rattle.mir_text.specs.ReadLines.{lines_named};
ghost use Rattle.mir_tree.specs.Rules.{lined_item, file_of, IsTreeOf};
ghost use Rattle.mir_resolve.specs.declared.faults.NameFault.{NameFault};
ghost use Rattle.mir_file.specs.Items.{rules_of};
ghost use Rattle.mir_file.specs.declared.resolve.Unresolved.TheVariants as unresolved;

use crate::front::{Front, read_front};
use crate::functions::read_functions;
use mir_names::Names;
use mir_resolve::NameFault;
use mir_syntax::{Lines, List, OutOfMemory, Program};
use mir_tree::{FileText, ItemText, Lined};
use std::alloc::Global;

/// The program that a file names, and the lines of its parts.
#[derive(Drop)]
pub struct Resolved {
    pub program: Program,
    pub lines: Lines,
}

/// Why a file names no program: the first fault of its names, or want of memory.
#[derive(Debug, Drop)]
pub enum Unresolved {
    Names(NameFault),
    OutOfMemory,
}

impl From<OutOfMemory> for Unresolved {
    ghost from_gives = { λ _ e. e ≡ unresolved.OutOfMemory };

    fn from(_: OutOfMemory) -> Self {
        Unresolved::OutOfMemory
    }
}

/// What the items of a tree name.
fn resolve_items(
    alloc: Global,
    strings: &Names,
    items: List<Lined<ItemText>>,
) -> Result<Resolved, Unresolved>
    ensures named { IfOk result (λ read. crate_of read.program ≡ crate_named strings.now (rules_of items)) }
    ensures lined { IfOk result (λ read. read.lines ≡ lines_named (names_of strings.now (rules_of items)) (map lined_item items)) }
    ensures faultless { IfOk result (λ read. name_faults (names_of strings.now (rules_of items)) (map lined_item items) ≡ []) }
    ensures refused { (fault : NameFault) → result ≡ Err (Unresolved.Names fault)
        → first_fault (name_faults (names_of strings.now (rules_of items)) (map lined_item items)) ≡ Some (fault.line, fault.code) }
    ensures in_table { IfOk result (λ read. IdsInTable read.program) }
{
    let front = read_front(alloc, strings, items.as_slice())?;
    let Front {
        paths,
        mut draft,
        def_lines,
        outside_lines,
    } = front;
    let found = read_functions(alloc, strings, &paths, &mut draft, items)?;
    if let Some(fault) = draft.notes.first() {
        return Err(Unresolved::Names(fault));
    }
    let mut program = draft.program;
    program.functions = found.functions;
    let lines = Lines {
        defs: def_lines,
        outsides: outside_lines,
        functions: found.lines,
        wrong_field: found.wrong_field,
    };
    Ok(Resolved { program, lines })
}

/// What the tree of a file names: the program and the lines of its parts, or the first fault of its names. Each derivation that the tree is one
/// of names the same. The tree is used up: each item is let go once its function is read.
///
/// # Errors
///
/// `Names` with the first fault of the names (S10 to S15); `OutOfMemory`.
pub fn resolve_file(alloc: Global, strings: &Names, file: FileText) -> Result<Resolved, Unresolved>
    ensures named { IfOk result (λ read. (items : List LinedItem) → IsTreeOf file items → crate_of read.program ≡ crate_named strings.now (file_of items)) }
    ensures lined { IfOk result (λ read. (items : List LinedItem) → IsTreeOf file items → read.lines ≡ lines_named (names_of strings.now (file_of items)) items) }
    ensures faultless { IfOk result (λ read. (items : List LinedItem) → IsTreeOf file items → name_faults (names_of strings.now (file_of items)) items ≡ []) }
    ensures refused { (fault : NameFault) → result ≡ Err (Unresolved.Names fault) → (items : List LinedItem) → IsTreeOf file items
        → first_fault (name_faults (names_of strings.now (file_of items)) items) ≡ Some (fault.line, fault.code) }
    ensures in_table { IfOk result (λ read. IdsInTable read.program) }
{
    match resolve_items(alloc, strings, file.items) {
        Ok(read) => Ok(read),
        Err(refused) => Err(refused),
    }
}
