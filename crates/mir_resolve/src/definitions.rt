ghost use Rattle.std.specs.Prelude.{◌≡◌, [], map, length, IsTrue, IfOk, OnOk};
ghost use Rattle.std.specs.List.{list_all};
ghost use Rattle.mir_syntax.specs.Tree.{trees_of};
ghost use Rattle.mir_syntax.specs.Crate.{field_of, variant_of, def_of};
ghost use Rattle.mir_syntax.specs.Ids.{field_below, variant_below, def_below};
ghost use Rattle.mir_text.specs.Names as n;
ghost use Rattle.mir_text.specs.GrammarItems as m;
ghost use Rattle.mir_text.specs.NameFaults.{fields_codes, other_codes, each};
ghost use Rattle.mir_tree.specs.Types.{path_rule, types_rule};
ghost use Rattle.mir_tree.specs.Lists.{items_rule};
ghost use Rattle.mir_tree.specs.Rules.{field_rule, fields_rule, variant_rule};
ghost use Rattle.mir_resolve.specs.Definitions.{before_defs, variant_codes, Went};

use crate::draft::Draft;
use crate::fields::{copy_name, labelled_fields, tuple_fields};
use crate::index::PathIndex;
use crate::once::{fields_once, variants_once};
use crate::paths::{put_path, string_of};
use mir_names::Names;
use mir_syntax::{Def, Field, Form, List, Name, OutOfMemory, Variant};
use mir_tree::{FieldText, FieldsText, Items, PathText, TypeText, VariantText};
use std::alloc::Global;

fn tupled(
    alloc: Global,
    strings: &Names,
    paths: &PathIndex,
    draft: &mut Draft,
    line: u32,
    types: &Items<TypeText>,
) -> Result<List<Field>, OutOfMemory>
    ensures fields { IfOk result (λ fields. map (field_of (trees_of draft.new.program.types)) fields ≡ n.fields_named strings.now paths.now (m.tupled (types_rule types.now))) }
    ensures inside { IfOk result (λ fields. IsTrue (list_all (field_below (length draft.new.program.types)) fields)) }
    ensures went { OnOk result (Went draft.old draft.new line (fields_codes (before_defs strings.now paths.now) (m.tupled (types_rule types.now)))) }
{
    let (fields, known) = tuple_fields(
        alloc,
        strings,
        paths,
        &mut draft.program,
        &mut draft.scratch,
        types.items.as_slice(),
    )?;
    draft.notes.note_unless(known, line, 12);
    Ok(fields)
}

fn labelled(
    alloc: Global,
    strings: &Names,
    paths: &PathIndex,
    draft: &mut Draft,
    line: u32,
    texts: &Items<FieldText>,
) -> Result<List<Field>, OutOfMemory>
    ensures fields { IfOk result (λ fields. map (field_of (trees_of draft.new.program.types)) fields ≡ n.fields_named strings.now paths.now (m.labelled (items_rule field_rule texts.now))) }
    ensures inside { IfOk result (λ fields. IsTrue (list_all (field_below (length draft.new.program.types)) fields)) }
    ensures went { OnOk result (Went draft.old draft.new line (fields_codes (before_defs strings.now paths.now) (m.labelled (items_rule field_rule texts.now)))) }
{
    let once = fields_once(alloc, strings, texts.items.as_slice())?;
    draft.notes.note_unless(once, line, 10);
    let fields = labelled_fields(alloc, strings, paths, draft, line, texts.items.as_slice())?;
    Ok(fields)
}

/// The fields of a struct or a variant. S10 is noted where a name stands twice, and S12 where the path of a type isn't known.
///
/// # Errors
///
/// `OutOfMemory`.
pub fn read_fields(
    alloc: Global,
    strings: &Names,
    paths: &PathIndex,
    draft: &mut Draft,
    line: u32,
    fields: &FieldsText,
) -> Result<List<Field>, OutOfMemory>
    ensures fields { IfOk result (λ r. map (field_of (trees_of draft.new.program.types)) r ≡ n.fields_named strings.now paths.now (fields_rule fields.now)) }
    ensures inside { IfOk result (λ r. IsTrue (list_all (field_below (length draft.new.program.types)) r)) }
    ensures went { OnOk result (Went draft.old draft.new line (fields_codes (before_defs strings.now paths.now) (fields_rule fields.now))) }
{
    match fields {
        FieldsText::Plain => Ok(List::new(alloc)),
        FieldsText::Tupled(types) => tupled(alloc, strings, paths, draft, line, types),
        FieldsText::Labelled(texts) => labelled(alloc, strings, paths, draft, line, texts),
    }
}

fn form(fields: &FieldsText) -> Form
    ensures { result ≡ n.form_of (fields_rule fields.now) }
{
    match fields {
        FieldsText::Plain => Form::Unit,
        FieldsText::Tupled(_) => Form::Tuple,
        FieldsText::Labelled(_) => Form::Named,
    }
}

/// A variant of an enum, or the one variant of a struct, whose name is empty.
///
/// # Errors
///
/// `OutOfMemory`.
pub fn read_variant(
    alloc: Global,
    strings: &Names,
    paths: &PathIndex,
    draft: &mut Draft,
    line: u32,
    name: Name,
    fields: &FieldsText,
) -> Result<Variant, OutOfMemory>
    ensures variant { IfOk result (λ v. variant_of (trees_of draft.new.program.types) v ≡ n.variant_of strings.now paths.now name (fields_rule fields.now)) }
    ensures inside { IfOk result (λ v. IsTrue (variant_below (length draft.new.program.types) v)) }
    ensures went { OnOk result (Went draft.old draft.new line (fields_codes (before_defs strings.now paths.now) (fields_rule fields.now))) }
{
    let form = form(fields);
    let fields = read_fields(alloc, strings, paths, draft, line, fields)?;
    Ok(Variant { name, form, fields })
}

fn read_variants(
    alloc: Global,
    strings: &Names,
    paths: &PathIndex,
    draft: &mut Draft,
    line: u32,
    texts: &[VariantText],
) -> Result<List<Variant>, OutOfMemory>
    ensures variants { IfOk result (λ variants. map (variant_of (trees_of draft.new.program.types)) variants ≡ map (λ v. n.variant_named strings.now paths.now (variant_rule v)) texts.now) }
    ensures inside { IfOk result (λ variants. IsTrue (list_all (variant_below (length draft.new.program.types)) variants)) }
    ensures went { OnOk result (Went draft.old draft.new line (each (variant_codes strings.now paths.now) texts.now)) }
{
    let mut variants = List::with_capacity(alloc, texts.len())?;
    let mut left = texts;
    'variants: while let [text, rest @ ..] = left {
        let name = copy_name(alloc, string_of(strings, text.name))?;
        let variant = read_variant(alloc, strings, paths, draft, line, name, &text.fields)?;
        variants.push(variant)?;
        left = rest;
    }
    Ok(variants)
}

/// The bytes of a path.
///
/// # Errors
///
/// `OutOfMemory`.
pub fn copy_path(
    alloc: Global,
    buffer: &mut List<u8>,
    strings: &Names,
    path: &PathText,
) -> Result<Name, OutOfMemory>
    ensures { IfOk result (λ name. name ≡ n.path_bytes strings.now (path_rule path.now)) }
{
    put_path(buffer, strings, path)?;
    let name = copy_name(alloc, buffer.as_slice())?;
    Ok(name)
}

/// A struct. Faults are noted as for its fields.
///
/// # Errors
///
/// `OutOfMemory`.
pub fn read_struct(
    alloc: Global,
    strings: &Names,
    paths: &PathIndex,
    draft: &mut Draft,
    line: u32,
    path: &PathText,
    fields: &FieldsText,
) -> Result<Def, OutOfMemory>
    ensures def { IfOk result (λ d. def_of (trees_of draft.new.program.types) d ≡ n.def_named strings.now paths.now (n.struct (path_rule path.now) (fields_rule fields.now))) }
    ensures inside { IfOk result (λ d. IsTrue (def_below (length draft.new.program.types) d)) }
    ensures went { OnOk result (Went draft.old draft.new line (other_codes (before_defs strings.now paths.now) (m.struct (path_rule path.now) (fields_rule fields.now)))) }
{
    let path = copy_path(alloc, &mut draft.scratch.path, strings, path)?;
    let variant = read_variant(alloc, strings, paths, draft, line, List::new(alloc), fields)?;
    let mut variants = List::with_capacity(alloc, 1)?;
    variants.push(variant)?;
    Ok(Def {
        path,
        is_enum: false,
        variants,
    })
}

/// An enum. S10 is noted where the name of a variant stands twice, and faults of each variant's fields.
///
/// # Errors
///
/// `OutOfMemory`.
pub fn read_enum(
    alloc: Global,
    strings: &Names,
    paths: &PathIndex,
    draft: &mut Draft,
    line: u32,
    path: &PathText,
    texts: &Items<VariantText>,
) -> Result<Def, OutOfMemory>
    ensures def { IfOk result (λ d. def_of (trees_of draft.new.program.types) d ≡ n.def_named strings.now paths.now (n.enum (path_rule path.now) (items_rule variant_rule texts.now))) }
    ensures inside { IfOk result (λ d. IsTrue (def_below (length draft.new.program.types) d)) }
    ensures went { OnOk result (Went draft.old draft.new line (other_codes (before_defs strings.now paths.now) (m.enum (path_rule path.now) (items_rule variant_rule texts.now)))) }
{
    let path = copy_path(alloc, &mut draft.scratch.path, strings, path)?;
    let once = variants_once(alloc, strings, texts.items.as_slice())?;
    draft.notes.note_unless(once, line, 10);
    let variants = read_variants(alloc, strings, paths, draft, line, texts.items.as_slice())?;
    Ok(Def {
        path,
        is_enum: true,
        variants,
    })
}
