ghost use Rattle.std.specs.Prelude.{◌≡◌, [], map, IfOk, None};
ghost use Rattle.mir_syntax.specs.Tree.{trees_of};
ghost use Rattle.mir_syntax.specs.Crate.{def_of, outside_of};
ghost use Rattle.mir_syntax.specs.Ids.{IdsInTable};
ghost use Rattle.mir_text.specs.Names.{names_of, def_paths, function_paths_in, outside_paths_in};
ghost use Rattle.mir_text.specs.Naming.{outsides_in};
ghost use Rattle.mir_text.specs.NameFaults.{each};
ghost use Rattle.mir_text.specs.ReadLines.{def_line_in, outside_line_in};
ghost use Rattle.mir_tree.specs.Rules.{lined_item};
ghost use Rattle.mir_file.specs.Items.{rules_of, noted_before_functions};

use crate::clashes::note_clashes;
use crate::defs::{ReadDefs, read_defs};
use crate::outsides::{ReadOutsides, read_outsides};
use crate::paths::{FilePaths, read_paths};
use mir_names::Names;
use mir_resolve::{Draft, Noted, Scratch};
use mir_syntax::{List, OutOfMemory, Program};
use mir_tree::{ItemText, Lined};
use std::alloc::Global;

/// What a file has beside its functions: the paths of all its items, and a program with its definitions and outside functions.
#[derive(Drop)]
pub struct Front {
    pub paths: FilePaths,
    pub draft: Draft,
    pub def_lines: List<u32>,
    pub outside_lines: List<u32>,
}

/// A draft of no program, in which nothing is noted.
fn new_draft(alloc: Global) -> Draft
    ensures defs { result.program.defs ≡ [] }
    ensures outsides { result.program.outsides ≡ [] }
    ensures functions { result.program.functions ≡ [] }
    ensures notes { result.notes ≡ None }
{
    Draft {
        program: Program::new(alloc),
        notes: Noted::new(),
        scratch: Scratch {
            path: List::new(alloc),
            types: List::new(alloc),
        },
    }
}

/// Reads all of a file but its functions. Faults of its paths, definitions and outside functions are noted.
///
/// # Errors
///
/// `OutOfMemory`.
pub fn read_front(
    alloc: Global,
    strings: &Names,
    items: &[Lined<ItemText>],
) -> Result<Front, OutOfMemory>
    ensures def_paths { IfOk result (λ front. front.paths.defs ≡ def_paths strings.now (rules_of items.now)) }
    ensures function_paths { IfOk result (λ front. front.paths.functions ≡ function_paths_in strings.now (rules_of items.now)) }
    ensures outside_paths { IfOk result (λ front. front.paths.outsides ≡ outside_paths_in strings.now (rules_of items.now)) }
    ensures defs { IfOk result (λ front. map (def_of (trees_of front.draft.program.types)) front.draft.program.defs ≡ (names_of strings.now (rules_of items.now)).defs) }
    ensures outsides { IfOk result (λ front. map (outside_of (trees_of front.draft.program.types)) front.draft.program.outsides ≡ outsides_in (names_of strings.now (rules_of items.now)) (rules_of items.now)) }
    ensures functions { IfOk result (λ front. front.draft.program.functions ≡ []) }
    ensures in_table { IfOk result (λ front. IdsInTable front.draft.program) }
    ensures notes { IfOk result (λ front. front.draft.notes ≡ noted_before_functions (names_of strings.now (rules_of items.now)) items.now) }
    ensures def_lines { IfOk result (λ front. front.def_lines ≡ each def_line_in (map lined_item items.now)) }
    ensures outside_lines { IfOk result (λ front. front.outside_lines ≡ each outside_line_in (map lined_item items.now)) }
{
    let paths = read_paths(alloc, strings, items)?;
    let mut draft = new_draft(alloc);
    note_clashes(alloc, strings, &mut draft.notes, items)?;
    let defs = read_defs(alloc, strings, &paths.defs, &mut draft, items)?;
    let ReadDefs {
        defs,
        lines: def_lines,
    } = defs;
    draft.program.defs = defs;
    let outsides = read_outsides(alloc, strings, &paths.defs, &mut draft, items)?;
    let ReadOutsides {
        outsides,
        lines: outside_lines,
    } = outsides;
    draft.program.outsides = outsides;
    Ok(Front {
        paths,
        draft,
        def_lines,
        outside_lines,
    })
}
