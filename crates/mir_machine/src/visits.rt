ghost use Rattle.std.specs.Prelude.{◌≡◌, ◌++◌, ◌∷◌, [], slice_get, IfOk, OnOk};
ghost use Rattle.mir_syntax.specs.declared.body.Proj.{Proj};
ghost use Rattle.mir_syntax.specs.declared.program.Program.{Program};
ghost use Rattle.mir_syntax.specs.Tree.{named, at_ids, trees_of};
ghost use Rattle.mir_syntax.specs.Shapes.{fields_tree};
ghost use Rattle.mir_semantics.specs.Values.{Value};
ghost use Rattle.mir_semantics.specs.Memory as sem;
ghost use Rattle.mir_semantics.specs.Step.{field_visits, shape_visits, visits_of, variant_in};
ghost use Rattle.mir_meaning.specs.Programs.{shapes_in, type_in};
ghost use Rattle.mir_meaning.specs.Views.{addr_of};
ghost use Rattle.mir_machine.specs.Seen.{items_in, inside, path_inside};

use crate::control::Visit;
use mir_meaning::pointer::Pointer;
use mir_syntax::{Copied, Field, List, OutOfMemory, Program, Proj, Ty, TyId};
use std::alloc::Global;

/// The path of a field, of a variant where one is named.
fn field_path(
    alloc: Global,
    path: &List<Proj>,
    variant: Option<u32>,
    field: u32,
) -> Result<List<Proj>, OutOfMemory>
    ensures { IfOk result (λ made. made ≡ path_inside path.now variant ++ Proj.Field field ∷ []) }
{
    let mut made = path.copied(alloc)?;
    if let Some(variant) = variant {
        made.push(Proj::Downcast(variant))?;
    }
    made.push(Proj::Field(field))?;
    Ok(made)
}

/// The address of a field, of a variant where one is named. A number that no `u32` holds is more than memory has room for.
fn part(
    alloc: Global,
    at: &Pointer,
    variant: Option<u32>,
    field: usize,
) -> Result<Pointer, OutOfMemory>
    ensures { IfOk result (λ part. addr_of part ≡ sem.further (inside (addr_of at.now) variant) (Proj.Field field)) }
{
    if field > u32::MAX as usize {
        return Err(OutOfMemory);
    }
    let path = field_path(alloc, &at.path, variant, field as u32)?;
    Ok(Pointer {
        frame: at.frame,
        local: at.local,
        path,
    })
}

/// Puts the visits of types in front, the first of them next.
fn push_types(
    alloc: Global,
    items: &mut List<Visit>,
    at: &Pointer,
    types: &[TyId],
) -> Result<(), OutOfMemory>
    ensures { OnOk result ((program : Program) → items_in program items.new ≡ field_visits (addr_of at.now) 0 (at_ids (trees_of program.types) types.now) ++ items_in program items.old) }
{
    let mut k = types.len();
    while 0 < k {
        k -= 1;
        let at = part(alloc, at, None, k)?;
        items.push(Visit { at, ty: types[k] })?;
    }
    Ok(())
}

/// Puts the visits of fields in front, the first of them next.
fn push_fields(
    alloc: Global,
    items: &mut List<Visit>,
    at: &Pointer,
    variant: Option<u32>,
    fields: &[Field],
) -> Result<(), OutOfMemory>
    ensures { OnOk result ((program : Program) → items_in program items.new ≡ field_visits (inside (addr_of at.now) variant) 0 (fields_tree (trees_of program.types) fields.now) ++ items_in program items.old) }
{
    let mut k = fields.len();
    while 0 < k {
        k -= 1;
        let at = part(alloc, at, variant, k)?;
        items.push(Visit {
            at,
            ty: fields[k].ty,
        })?;
    }
    Ok(())
}

/// The same for a definition; of an enum the fields of the variant that is active.
fn push_def(
    alloc: Global,
    program: &Program,
    items: &mut List<Visit>,
    visit: &Visit,
    def: u32,
    active: Option<u32>,
) -> Result<(), OutOfMemory>
    requires { type_in program.now visit.now.ty ≡ named def }
    ensures { OnOk result ((v : Value) → variant_in v ≡ active → items_in program.now items.new ≡ shape_visits (addr_of visit.now.at) (slice_get (shapes_in program.now) def) v ++ items_in program.now items.old) }
{
    if let Some(fields) = program.struct_fields(def) {
        return push_fields(alloc, items, &visit.at, None, fields);
    }
    let Some(variant) = active else {
        return Ok(());
    };
    let Some(fields) = program.variant_fields(visit.ty, variant) else {
        return Ok(());
    };
    push_fields(alloc, items, &visit.at, Some(variant), fields)
}

/// Puts the visits of the fields of a place in front; of an enum those of the variant that is active.
///
/// # Errors
///
/// `OutOfMemory`.
pub fn push_visits(
    alloc: Global,
    program: &Program,
    items: &mut List<Visit>,
    visit: &Visit,
    active: Option<u32>,
) -> Result<(), OutOfMemory>
    ensures { OnOk result ((v : Value) → variant_in v ≡ active → items_in program.now items.new ≡ visits_of (shapes_in program.now) (addr_of visit.now.at) (type_in program.now visit.now.ty) v ++ items_in program.now items.old) }
{
    let Some(ty) = program.ty_at(visit.ty) else {
        return Ok(());
    };
    match ty {
        Ty::Tuple(types) => push_types(alloc, items, &visit.at, types.as_slice()),
        Ty::Named(def) => push_def(alloc, program, items, visit, *def, active),
        _ => Ok(()),
    }
}
