ghost use Rattle.std.specs.Prelude.{◌≡◌, ◌<◌, map, slice_get, IsTrue, IfOk};
ghost use Rattle.mir_syntax.specs.Tree.{named, at_ids, trees_of};
ghost use Rattle.mir_syntax.specs.Table.{all_below};
ghost use Rattle.mir_syntax.specs.Shapes.{fields_tree};
ghost use Rattle.mir_syntax.specs.Drops.{KnowsDrops};
ghost use Rattle.mir_semantics.specs.Values as sem;
ghost use Rattle.mir_semantics.specs.Values.{listed, blank_by, blank_def};
ghost use Rattle.mir_meaning.specs.Programs.{shapes_in, type_in};
ghost use Rattle.mir_meaning.specs.Views.{value_of, fields_of};

use crate::datum::Datum;
use crate::types::{plain_fields, ty};
use mir_syntax::{Field, List, OutOfMemory, Program, Ty, TyId};
use std::alloc::Global;

/// What a local of the type holds before it is assigned, to a depth of definitions inside one another.
#[cycle(blank)]
fn blank_within(
    alloc: Global,
    program: &Program,
    depth: usize,
    id: TyId,
) -> Result<Datum, OutOfMemory>
    requires { KnowsDrops program.now }
    ensures { IfOk result (λ datum. value_of datum ≡ blank_by (blank_def (shapes_in program.now) depth) (type_in program.now id)) }
{
    let Some(ty) = ty(program, id) else {
        return Ok(Datum::Hole);
    };
    match ty {
        Ty::Tuple(ids) => Ok(Datum::Parts(tuple_blank(
            alloc,
            program,
            depth,
            id.0,
            ids.as_slice(),
        )?)),
        Ty::Named(def) => def_blank(alloc, program, depth, id, *def),
        _ => Ok(Datum::Hole),
    }
}

/// The blanks of types whose ids lie below a bound.
#[cycle(blank)]
fn tuple_blank(
    alloc: Global,
    program: &Program,
    depth: usize,
    bound: u32,
    ids: &[TyId],
) -> Result<List<Datum>, OutOfMemory>
    requires knows { KnowsDrops program.now }
    requires below { IsTrue (all_below bound ids.now) }
    ensures { IfOk result (λ values. fields_of values ≡ blank_by (blank_def (shapes_in program.now) depth) (at_ids (trees_of program.now.types) ids.now)) }
{
    let mut parts = List::with_capacity(alloc, ids.len())?;
    for part in ids {
        parts.push(blank_within(alloc, program, depth, *part)?)?;
    }
    Ok(parts)
}

#[cycle(blank)]
fn def_blank(
    alloc: Global,
    program: &Program,
    depth: usize,
    id: TyId,
    def: u32,
) -> Result<Datum, OutOfMemory>
    requires knows { KnowsDrops program.now }
    requires named { type_in program.now id ≡ named def }
    ensures { IfOk result (λ datum. value_of datum ≡ blank_def (shapes_in program.now) depth def) }
{
    if depth == 0 {
        return Ok(Datum::Hole);
    }
    let Some(fields) = plain_fields(program, id, def) else {
        return Ok(Datum::Hole);
    };
    Ok(Datum::Parts(fields_blank(alloc, program, depth - 1, fields)?))
}

/// The blanks of fields.
#[cycle(blank)]
fn fields_blank(
    alloc: Global,
    program: &Program,
    depth: usize,
    fields: &[Field],
) -> Result<List<Datum>, OutOfMemory>
    requires { KnowsDrops program.now }
    ensures { IfOk result (λ values. fields_of values ≡ blank_by (blank_def (shapes_in program.now) depth) (fields_tree (trees_of program.now.types) fields.now)) }
{
    let mut parts = List::with_capacity(alloc, fields.len())?;
    for field in fields {
        parts.push(blank_within(alloc, program, depth, field.ty)?)?;
    }
    Ok(parts)
}

/// A hole for a scalar, a reference, an enum and a struct with a destructor of its own, else the fields' blanks.
///
/// # Errors
///
/// `OutOfMemory`.
pub fn blank(alloc: Global, program: &Program, id: TyId) -> Result<Datum, OutOfMemory>
    requires { KnowsDrops program.now }
    ensures { IfOk result (λ datum. value_of datum ≡ sem.blank (shapes_in program.now) (type_in program.now id)) }
{
    blank_within(alloc, program, program.defs.len(), id)
}

/// The blanks of the fields of a variant.
///
/// # Errors
///
/// `OutOfMemory`.
pub fn variant_blank(
    alloc: Global,
    program: &Program,
    fields: &[Field],
) -> Result<List<Datum>, OutOfMemory>
    requires { KnowsDrops program.now }
    ensures { IfOk result (λ values. fields_of values ≡ sem.blank (shapes_in program.now) (fields_tree (trees_of program.now.types) fields.now)) }
{
    fields_blank(alloc, program, program.defs.len(), fields)
}
