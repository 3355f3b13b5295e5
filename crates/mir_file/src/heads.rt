ghost use Rattle.std.specs.Prelude.{◌≡◌, [], map, length, get_or, IsTrue, IfOk, OnOk};
ghost use Rattle.std.specs.List.{list_all};
ghost use Rattle.mir_syntax.specs.Tree.{at_id, trees_of};
ghost use Rattle.mir_syntax.specs.Table.{all_below};
ghost use Rattle.mir_text.specs.Naming.{declared, locals_from};
ghost use Rattle.mir_text.specs.ReadLines.{fn_lines};
ghost use Rattle.mir_tree.specs.Rules.{fn_rule, lined_fn};
ghost use Rattle.mir_resolve.specs.Definitions.{before_defs};
ghost use Rattle.mir_bodies.specs.Locals.{declared_in};
ghost use Rattle.mir_file.specs.Items.{Noticed};
ghost use Rattle.mir_file.specs.Declarations.{declared_below, head_faults};

use crate::declarations::read_locals;
use crate::head::{are_in_order, none_missing, note_places, note_result};
use crate::local_lines::local_lines;
use crate::local_types::local_types;
use mir_bodies::Locals;
use mir_names::Names;
use mir_resolve::{Draft, PathIndex, read_noted};
use mir_syntax::{List, OutOfMemory, TyId};
use mir_tree::FnText;
use std::alloc::Global;

/// The locals that a function declares, and the types and the lines of those from `_0` on.
#[derive(Drop)]
pub struct Head {
    pub locals: Locals,
    pub types: List<TyId>,
    pub lines: List<u32>,
}

fn first_line(lines: &[u32]) -> u32
    ensures { result ≡ get_or lines.now 0 0 }
{
    match lines {
        [first, ..] => *first,
        [] => 0,
    }
}

/// Reads the head of a function. Its faults are noted: S12 of the types, S14 of the locals, S15 of the blocks' order.
///
/// # Errors
///
/// `OutOfMemory`.
pub fn read_head(
    alloc: Global,
    strings: &Names,
    paths: &PathIndex,
    draft: &mut Draft,
    line: u32,
    function: &FnText,
) -> Result<Head, OutOfMemory>
    ensures declared { IfOk result (λ head. declared_in (trees_of draft.new.program.types) head.locals ≡ declared (before_defs strings.now paths.now) (fn_rule function.now)) }
    ensures inside { IfOk result (λ head. IsTrue (list_all (declared_below (length draft.new.program.types)) head.locals)) }
    ensures types { IfOk result (λ head. map (at_id (trees_of draft.new.program.types)) head.types
        ≡ locals_from (declared (before_defs strings.now paths.now) (fn_rule function.now)) 0 (length (declared (before_defs strings.now paths.now) (fn_rule function.now)))) }
    ensures ids { IfOk result (λ head. IsTrue (all_below (length draft.new.program.types) head.types)) }
    ensures lines { IfOk result (λ head. head.lines ≡ (fn_lines (lined_fn line function.now)).locals) }
    ensures went { OnOk result (Noticed draft.old draft.new (head_faults (before_defs strings.now paths.now) (lined_fn line function.now))) }
{
    let answer = read_noted(alloc, strings, paths, draft, line, &function.result)?;
    let locals = read_locals(alloc, strings, paths, draft, function)?;
    draft.notes.note_unless(none_missing(&locals), line, 14);
    draft
        .notes
        .note_unless(are_in_order(function.blocks.as_slice()), line, 15);
    note_places(&mut draft.notes, function.args.items.as_slice());
    let lines = local_lines(alloc, locals.as_slice().len(), function)?;
    let first = first_line(lines.as_slice());
    note_result(
        &draft.program,
        &mut draft.notes,
        locals.get(0),
        answer,
        first,
    );
    let types = local_types(alloc, &mut draft.program, &locals)?;
    Ok(Head {
        locals,
        types,
        lines,
    })
}
