ghost use Rattle.std.specs.Prelude.{◌≡◌, ◌<◌, [], map, length, IsTrue, IfOk, OnOk};
ghost use Rattle.std.specs.List.{list_all};
ghost use Rattle.mir_syntax.specs.Tree.{at_id, trees_of};
ghost use Rattle.mir_syntax.specs.Crate.{outside_of};
ghost use Rattle.mir_syntax.specs.Ids.{outside_below};
ghost use Rattle.mir_text.specs.Names.{type_named};
ghost use Rattle.mir_text.specs.GrammarItems as m;
ghost use Rattle.mir_text.specs.NameFaults.{other_codes};
ghost use Rattle.mir_tree.specs.Types.{path_rule, type_rule, types_rule};
ghost use Rattle.mir_resolve.specs.Types.{Grown};
ghost use Rattle.mir_resolve.specs.Definitions.{before_defs, is_known_text, id_below, outside_named, Went};

use crate::definitions::copy_path;
use crate::draft::Draft;
use crate::fields::both;
use crate::index::PathIndex;
use crate::types::{Scratch, read_type};
use mir_names::Names;
use mir_syntax::{List, OutOfMemory, Outside, Program, TyId};
use mir_tree::{Items, PathText, TypeText};
use std::alloc::Global;

/// The types of a list, and whether each path in them is known.
///
/// # Errors
///
/// `OutOfMemory`.
#[tactic(auto, using(crate::proofs::Growing::grown_then, crate::proofs::Growing::grown_same))]
pub fn read_ids(
    alloc: Global,
    strings: &Names,
    paths: &PathIndex,
    program: &mut Program,
    scratch: &mut Scratch,
    types: &[TypeText],
) -> Result<(List<TyId>, bool), OutOfMemory>
    ensures ids { IfOk result (λ r. map (at_id (trees_of program.new.types)) r.0 ≡ map (λ u. type_named strings.now paths.now (type_rule u)) types.now) }
    ensures known { IfOk result (λ r. r.1 ≡ list_all (is_known_text strings.now paths.now) types.now) }
    ensures inside { IfOk result (λ r. IsTrue (list_all (id_below (length program.new.types)) r.0)) }
    ensures grown { OnOk result (Grown program.old program.new) }
{
    let mut ids = List::with_capacity(alloc, types.len())?;
    let mut known = true;
    let mut left = types;
    'types: while let [ty, rest @ ..] = left {
        let read = read_type(alloc, strings, paths, program, scratch, ty)?;
        ids.push(read.id)?;
        known = both(known, read.known);
        left = rest;
    }
    Ok((ids, known))
}

/// An outside function. S12 is noted where the path of a type isn't known.
///
/// # Errors
///
/// `OutOfMemory`.
pub fn read_outside(
    alloc: Global,
    strings: &Names,
    paths: &PathIndex,
    draft: &mut Draft,
    line: u32,
    path: &PathText,
    args: &Items<TypeText>,
    ty: &TypeText,
) -> Result<Outside, OutOfMemory>
    ensures outside { IfOk result (λ o. outside_of (trees_of draft.new.program.types) o ≡ outside_named strings.now paths.now (path_rule path.now) (types_rule args.now) (type_rule ty.now)) }
    ensures inside { IfOk result (λ o. IsTrue (outside_below (length draft.new.program.types) o)) }
    ensures went { OnOk result (Went draft.old draft.new line (other_codes (before_defs strings.now paths.now) (m.extern (path_rule path.now) (types_rule args.now) (type_rule ty.now)))) }
{
    let path = copy_path(alloc, &mut draft.scratch.path, strings, path)?;
    let answer = read_type(
        alloc,
        strings,
        paths,
        &mut draft.program,
        &mut draft.scratch,
        ty,
    )?;
    let (args, known) = read_ids(
        alloc,
        strings,
        paths,
        &mut draft.program,
        &mut draft.scratch,
        args.items.as_slice(),
    )?;
    draft.notes.note_unless(known, line, 12);
    draft.notes.note_unless(answer.known, line, 12);
    Ok(Outside {
        path,
        args,
        result: answer.id,
    })
}
