ghost use Rattle.std.specs.Prelude.{◌≡◌, map, slice_get, IsTrue};
ghost use Rattle.mir_syntax.specs.Tree.{named, at_ids, trees_of};
ghost use Rattle.mir_syntax.specs.Table.{all_below};
ghost use Rattle.mir_syntax.specs.Shapes.{fields_tree};
ghost use Rattle.mir_syntax.specs.Drops.{KnowsDrops};
ghost use Rattle.mir_semantics.specs.Values as sem;
ghost use Rattle.mir_semantics.specs.Values.{full_by, full_def};
ghost use Rattle.mir_meaning.specs.Programs.{shapes_in, type_in};
ghost use Rattle.mir_meaning.specs.Views.{fields_of, part_of};

use crate::datum::Datum;
use crate::part::Part;
use crate::split::{split_data, split_fields, split_types};
use crate::types::{needs_drop, plain_fields, ty};
use mir_syntax::{Field, Program, Ty, TyId};

/// Whether no unit of drop of a part of the type is a hole, to a depth of definitions inside one another.
#[cycle(full)]
fn full_within(program: &Program, depth: usize, id: TyId, part: Part<'_>) -> bool
    requires { KnowsDrops program.now }
    ensures { result ≡ full_by (full_def (shapes_in program.now) depth) (type_in program.now id) (part_of part.entry) }
{
    let Some(ty) = ty(program, id) else {
        return true;
    };
    match ty {
        Ty::Tuple(ids) => tuple_full(program, depth, id.0, ids.as_slice(), part),
        Ty::Named(def) => def_full(program, depth, id, *def, part),
        _ => true,
    }
}

/// The same of a tuple of types whose ids lie below a bound.
#[cycle(full)]
fn tuple_full(program: &Program, depth: usize, bound: u32, ids: &[TyId], part: Part<'_>) -> bool
    requires knows { KnowsDrops program.now }
    requires below { IsTrue (all_below bound ids.now) }
    ensures { result ≡ full_by (full_def (shapes_in program.now) depth) (at_ids (trees_of program.now.types) ids.now) (part_of part.entry) }
{
    if ids.is_empty() {
        return true;
    }
    let Some(values) = part.items() else {
        return false;
    };
    types_full(program, depth, bound, ids, values)
}

#[cycle(full)]
fn types_full(program: &Program, depth: usize, bound: u32, ids: &[TyId], values: &[Datum]) -> bool
    requires knows { KnowsDrops program.now }
    requires below { IsTrue (all_below bound ids.now) }
    ensures { result ≡ full_by (full_def (shapes_in program.now) depth) (at_ids (trees_of program.now.types) ids.now) (fields_of values.now) }
{
    let mut ids = ids;
    let mut values = values;
    while let Some((id, rest)) = split_types(ids) {
        let Some((value, others)) = split_data(values) else {
            return false;
        };
        if !full_within(program, depth, id, Part::Whole(value)) {
            return false;
        }
        ids = rest;
        values = others;
    }
    true
}

#[cycle(full)]
fn def_full(program: &Program, depth: usize, id: TyId, def: u32, part: Part<'_>) -> bool
    requires knows { KnowsDrops program.now }
    requires named { type_in program.now id ≡ named def }
    ensures { result ≡ full_def (shapes_in program.now) depth def (part_of part.entry) }
{
    if depth == 0 {
        return true;
    }
    if !needs_drop(program, id) {
        return true;
    }
    let Some(fields) = plain_fields(program, id, def) else {
        return !part.is_hole();
    };
    struct_full(program, depth - 1, fields, part)
}

#[cycle(full)]
fn struct_full(program: &Program, depth: usize, fields: &[Field], part: Part<'_>) -> bool
    requires { KnowsDrops program.now }
    ensures { result ≡ full_by (full_def (shapes_in program.now) depth) (fields_tree (trees_of program.now.types) fields.now) (part_of part.entry) }
{
    if fields.is_empty() {
        return true;
    }
    let Some(values) = part.items() else {
        return false;
    };
    fields_full(program, depth, fields, values)
}

#[cycle(full)]
fn fields_full(program: &Program, depth: usize, fields: &[Field], values: &[Datum]) -> bool
    requires { KnowsDrops program.now }
    ensures { result ≡ full_by (full_def (shapes_in program.now) depth) (fields_tree (trees_of program.now.types) fields.now) (fields_of values.now) }
{
    let mut fields = fields;
    let mut values = values;
    while let Some((field, rest)) = split_fields(fields) {
        let Some((value, others)) = split_data(values) else {
            return false;
        };
        if !full_within(program, depth, field.ty, Part::Whole(value)) {
            return false;
        }
        fields = rest;
        values = others;
    }
    true
}

/// Whether no unit of drop of a part of the type is a hole.
pub fn full(program: &Program, id: TyId, part: Part<'_>) -> bool
    requires { KnowsDrops program.now }
    ensures { result ≡ sem.full (shapes_in program.now) (type_in program.now id) (part_of part.entry) }
{
    full_within(program, program.defs.len(), id, part)
}
