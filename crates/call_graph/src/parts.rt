//! The parts of a type, gone over one after another.
ghost use Rattle.std.specs.Prelude.{◌≡◌, ◌++◌, map, OnOk};
ghost use Rattle.mir_syntax.specs.Shapes.{field_id};
ghost use Rattle.call_graph.specs.Walk.{part_at, reversed, types_in};

use mir_syntax::{Field, OutOfMemory, TyId, Variant};

/// A type whose destructors are still to be found, to a depth of definitions inside one another.
#[derive(Clone, Copy, Debug, Drop)]
pub(crate) struct Part {
    pub ty: TyId,
    pub depth: usize,
}

/// Opens types; the first of them is the next to be gone over.
pub(crate) fn open_types(
    stack: &mut Vec<Part>,
    types: &[TyId],
    depth: usize,
) -> Result<(), OutOfMemory>
    ensures { OnOk result (stack.new.items ≡ stack.old.items ++ reversed (map (part_at depth) types.now)) }
{
    for done in 0..types.len() {
        let ty = types[types.len() - 1 - done];
        stack.push(Part { ty, depth })?;
    }
    Ok(())
}

/// Opens the types of fields in the same way.
fn open_fields(stack: &mut Vec<Part>, fields: &[Field], depth: usize) -> Result<(), OutOfMemory>
    ensures { OnOk result (stack.new.items ≡ stack.old.items ++ reversed (map (part_at depth) (map field_id fields.now))) }
{
    for done in 0..fields.len() {
        let ty = fields[fields.len() - 1 - done].ty;
        stack.push(Part { ty, depth })?;
    }
    Ok(())
}

/// Opens the types of all fields of variants in the same way.
pub(crate) fn open_variants(
    stack: &mut Vec<Part>,
    variants: &[Variant],
    depth: usize,
) -> Result<(), OutOfMemory>
    ensures { OnOk result (stack.new.items ≡ stack.old.items ++ reversed (map (part_at depth) (types_in variants.now))) }
{
    for done in 0..variants.len() {
        let variant = &variants[variants.len() - 1 - done];
        open_fields(stack, variant.fields.as_slice(), depth)?;
    }
    Ok(())
}
