ghost use Rattle.std.specs.Prelude.{◌≡◌, ℕ, List, Option, Some, map, IsTrue, IfOk, option_map, ℤ};
ghost use Rattle.mir_syntax.specs.Tree.{scalar, named, at_ids, trees_of};
ghost use Rattle.mir_syntax.specs.Table.{all_below};
ghost use Rattle.mir_syntax.specs.Shapes.{fields_tree};
ghost use Rattle.mir_semantics.specs.Values.{Value};
ghost use Rattle.mir_semantics.specs.Entry as sem;
ghost use Rattle.mir_semantics.specs.Entry.{both, flat_by, flat_def};
ghost use Rattle.mir_meaning.specs.Programs.{shapes_in, type_in};
ghost use Rattle.mir_meaning.specs.Views.{value_of, fields_of};
ghost use Rattle.mir_machine.specs.Ends.{integer_in};
ghost use Rattle.mir_entry.specs.Pushed.{pushed};

use crate::splits::{parts, variant};
use mir_machine::integer;
use mir_meaning::datum::Datum;
use mir_meaning::operand::{number_of, scalar_of};
use mir_meaning::split::{split_data, split_fields, split_types};
use mir_meaning::types::ty;
use mir_syntax::{Field, List, Number, OutOfMemory, Program, ScalarTy, Ty, TyId};
use std::alloc::Global;

#[tactic(auto, using(crate::proofs::FlatParts::scalar_pushed, crate::proofs::FlatParts::scalar_none))]
fn push_scalar(ty: ScalarTy, value: &Datum, out: &mut List<Number>) -> Result<bool, OutOfMemory>
    ensures { (of_def : ℕ → Value → Option (List ℤ)) → IfOk result (λ whole. both (Some (map integer_in out.old)) (flat_by of_def (scalar ty) (value_of value.now)) ≡ pushed whole out.new) }
{
    match number_of(value) {
        Some(bits) => {
            out.push(integer(ty, bits))?;
            Ok(true)
        }
        None => Ok(false),
    }
}

/// Puts the flat form of a value of a type at the end, to a depth of definitions inside one another; false where it has none.
#[cycle(flat)]
fn push_value(
    program: &Program,
    depth: usize,
    id: TyId,
    value: &Datum,
    out: &mut List<Number>,
) -> Result<bool, OutOfMemory>
    ensures { IfOk result (λ whole. both (Some (map integer_in out.old)) (flat_by (flat_def (shapes_in program.now) depth) (type_in program.now id) (value_of value.now)) ≡ pushed whole out.new) }
{
    if let Some(scalar) = scalar_of(program, id) {
        return push_scalar(scalar, value, out);
    }
    let Some(ty) = ty(program, id) else {
        return Ok(false);
    };
    match ty {
        Ty::Tuple(ids) => push_tuple(program, depth, id.0, ids.as_slice(), value, out),
        Ty::Named(def) => push_def(program, depth, id, *def, value, out),
        Ty::Ref(_) => Ok(false),
        Ty::RefMut(_) => Ok(false),
        Ty::Scalar(_) => Ok(false),
    }
}

#[cycle(flat)]
fn push_tuple(
    program: &Program,
    depth: usize,
    bound: u32,
    ids: &[TyId],
    value: &Datum,
    out: &mut List<Number>,
) -> Result<bool, OutOfMemory>
    requires { IsTrue (all_below bound ids.now) }
    ensures { IfOk result (λ whole. both (Some (map integer_in out.old)) (flat_by (flat_def (shapes_in program.now) depth) (at_ids (trees_of program.now.types) ids.now) (value_of value.now)) ≡ pushed whole out.new) }
{
    let Some(values) = parts(value) else {
        return Ok(false);
    };
    push_types(program, depth, bound, ids, values, out)
}

#[cycle(flat)]
fn push_types(
    program: &Program,
    depth: usize,
    bound: u32,
    ids: &[TyId],
    values: &[Datum],
    out: &mut List<Number>,
) -> Result<bool, OutOfMemory>
    requires { IsTrue (all_below bound ids.now) }
    ensures { IfOk result (λ whole. both (Some (map integer_in out.old)) (flat_by (flat_def (shapes_in program.now) depth) (at_ids (trees_of program.now.types) ids.now) (fields_of values.now)) ≡ pushed whole out.new) }
{
    let mut ids = ids;
    let mut values = values;
    'types: while let Some((id, rest)) = split_types(ids) {
        let Some((value, others)) = split_data(values) else {
            return Ok(false);
        };
        if !push_value(program, depth, id, value, out)? {
            return Ok(false);
        }
        ids = rest;
        values = others;
    }
    Ok(values.is_empty())
}

#[cycle(flat)]
fn push_def(
    program: &Program,
    depth: usize,
    id: TyId,
    def: u32,
    value: &Datum,
    out: &mut List<Number>,
) -> Result<bool, OutOfMemory>
    requires { type_in program.now id ≡ named def }
    ensures { IfOk result (λ whole. both (Some (map integer_in out.old)) (flat_def (shapes_in program.now) depth def (value_of value.now)) ≡ pushed whole out.new) }
{
    if depth == 0 {
        return Ok(false);
    }
    if let Some(fields) = program.struct_fields(def) {
        return push_struct(program, depth - 1, fields, value, out);
    }
    let Some((place, values)) = variant(value) else {
        return Ok(false);
    };
    let Some(fields) = program.variant_fields(id, place) else {
        return Ok(false);
    };
    let number = Number {
        negative: false,
        size: place as u128,
    };
    out.push(number)?;
    push_fields(program, depth - 1, fields, values, out)
}

#[cycle(flat)]
fn push_struct(
    program: &Program,
    depth: usize,
    fields: &[Field],
    value: &Datum,
    out: &mut List<Number>,
) -> Result<bool, OutOfMemory>
    ensures { IfOk result (λ whole. both (Some (map integer_in out.old)) (flat_by (flat_def (shapes_in program.now) depth) (fields_tree (trees_of program.now.types) fields.now) (value_of value.now)) ≡ pushed whole out.new) }
{
    let Some(values) = parts(value) else {
        return Ok(false);
    };
    push_fields(program, depth, fields, values, out)
}

#[cycle(flat)]
fn push_fields(
    program: &Program,
    depth: usize,
    fields: &[Field],
    values: &[Datum],
    out: &mut List<Number>,
) -> Result<bool, OutOfMemory>
    ensures { IfOk result (λ whole. both (Some (map integer_in out.old)) (flat_by (flat_def (shapes_in program.now) depth) (fields_tree (trees_of program.now.types) fields.now) (fields_of values.now)) ≡ pushed whole out.new) }
{
    let mut fields = fields;
    let mut values = values;
    'fields: while let Some((field, rest)) = split_fields(fields) {
        let Some((value, others)) = split_data(values) else {
            return Ok(false);
        };
        if !push_value(program, depth, field.ty, value, out)? {
            return Ok(false);
        }
        fields = rest;
        values = others;
    }
    Ok(values.is_empty())
}

/// The flat form of a value of a type: a scalar's integer, a tuple's or struct's fields in order, an enum's variant number and then that
/// variant's fields. `None` where it is no value of the type.
///
/// # Errors
///
/// `OutOfMemory`.
pub fn flat(
    alloc: Global,
    program: &Program,
    id: TyId,
    value: &Datum,
) -> Result<Option<List<Number>>, OutOfMemory>
    ensures { IfOk result (λ numbers. option_map (map integer_in) numbers ≡ sem.flat (shapes_in program.now) (type_in program.now id) (value_of value.now)) }
{
    let mut out = List::new(alloc);
    if push_value(program, program.defs.len(), id, value, &mut out)? {
        Ok(Some(out))
    } else {
        Ok(None)
    }
}
