ghost use Rattle.std.specs.Prelude.{◌≡◌, ◌<◌, [], map, length, IsTrue, IfOk, OnOk, ◌&&◌};
ghost use Rattle.std.specs.List.{list_all};
ghost use Rattle.mir_syntax.specs.Tree.{at_id, trees_of};
ghost use Rattle.mir_syntax.specs.Crate.{field_of};
ghost use Rattle.mir_syntax.specs.Ids.{field_below};
ghost use Rattle.mir_text.specs.Names.{type_named, field_named, part_named};
ghost use Rattle.mir_text.specs.NameFaults.{each};
ghost use Rattle.mir_tree.specs.Types.{type_rule};
ghost use Rattle.mir_tree.specs.Rules.{field_rule};
ghost use Rattle.mir_resolve.specs.Types.{Grown};
ghost use Rattle.mir_resolve.specs.Definitions.{is_known_text, text_codes, field_codes, Went};

use crate::draft::Draft;
use crate::index::PathIndex;
use crate::paths::string_of;
use crate::types::{Scratch, read_type};
use mir_names::Names;
use mir_syntax::{Field, List, Name, OutOfMemory, Program, TyId};
use mir_tree::{FieldText, TypeText};
use std::alloc::Global;

/// A name of these bytes.
///
/// # Errors
///
/// `OutOfMemory`.
pub fn copy_name(alloc: Global, bytes: &[u8]) -> Result<Name, OutOfMemory>
    ensures { IfOk result (λ name. name ≡ bytes.now) }
{
    let mut name = List::with_capacity(alloc, bytes.len())?;
    name.extend(bytes)?;
    Ok(name)
}

/// Whether both are so; both were looked at before.
pub fn both(a: bool, b: bool) -> bool
    ensures { result ≡ (a && b) }
{
    a && b
}

/// The fields of a tuple struct or variant, which have no names, and whether each path in their types is known.
///
/// # Errors
///
/// `OutOfMemory`.
#[tactic(auto, using(crate::proofs::Growing::grown_then, crate::proofs::Growing::grown_same))]
pub fn tuple_fields(
    alloc: Global,
    strings: &Names,
    paths: &PathIndex,
    program: &mut Program,
    scratch: &mut Scratch,
    types: &[TypeText],
) -> Result<(List<Field>, bool), OutOfMemory>
    ensures fields { IfOk result (λ r. map (field_of (trees_of program.new.types)) r.0 ≡ map (λ u. part_named strings.now paths.now (type_rule u)) types.now) }
    ensures known { IfOk result (λ r. r.1 ≡ list_all (is_known_text strings.now paths.now) types.now) }
    ensures inside { IfOk result (λ r. IsTrue (list_all (field_below (length program.new.types)) r.0)) }
    ensures grown { OnOk result (Grown program.old program.new) }
{
    let mut fields = List::with_capacity(alloc, types.len())?;
    let mut known = true;
    let mut left = types;
    'types: while let [ty, rest @ ..] = left {
        let read = read_type(alloc, strings, paths, program, scratch, ty)?;
        fields.push(Field {
            name: List::new(alloc),
            ty: read.id,
        })?;
        known = both(known, read.known);
        left = rest;
    }
    Ok((fields, known))
}

/// Reads a type, and notes S12 where a path in it isn't known.
///
/// # Errors
///
/// `OutOfMemory`.
pub fn read_noted(
    alloc: Global,
    strings: &Names,
    paths: &PathIndex,
    draft: &mut Draft,
    line: u32,
    text: &TypeText,
) -> Result<TyId, OutOfMemory>
    ensures stands { IfOk result (λ id. at_id (trees_of draft.new.program.types) id ≡ type_named strings.now paths.now (type_rule text.now)) }
    ensures inside { IfOk result (λ id. id.0 < length draft.new.program.types) }
    ensures went { OnOk result (Went draft.old draft.new line (text_codes strings.now paths.now text.now)) }
{
    let read = read_type(
        alloc,
        strings,
        paths,
        &mut draft.program,
        &mut draft.scratch,
        text,
    )?;
    draft.notes.note_unless(read.known, line, 12);
    Ok(read.id)
}

/// The fields in braces, with S12 noted where the path of a type isn't known.
///
/// # Errors
///
/// `OutOfMemory`.
#[tactic(auto, using(crate::proofs::Growing::grown_then, crate::proofs::Growing::grown_same))]
pub fn labelled_fields(
    alloc: Global,
    strings: &Names,
    paths: &PathIndex,
    draft: &mut Draft,
    line: u32,
    texts: &[FieldText],
) -> Result<List<Field>, OutOfMemory>
    ensures fields { IfOk result (λ fields. map (field_of (trees_of draft.new.program.types)) fields ≡ map (λ f. field_named strings.now paths.now (field_rule f)) texts.now) }
    ensures inside { IfOk result (λ fields. IsTrue (list_all (field_below (length draft.new.program.types)) fields)) }
    ensures went { OnOk result (Went draft.old draft.new line (each (field_codes strings.now paths.now) texts.now)) }
{
    let mut fields = List::with_capacity(alloc, texts.len())?;
    let mut left = texts;
    'fields: while let [field, rest @ ..] = left {
        let ty = read_noted(alloc, strings, paths, draft, line, &field.ty)?;
        let name = copy_name(alloc, string_of(strings, field.name))?;
        fields.push(Field { name, ty })?;
        left = rest;
    }
    Ok(fields)
}
