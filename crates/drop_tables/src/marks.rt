ghost use Rattle.std.specs.Prelude.{◌≡◌, ◌||◌, ℕ, ◌<◌, IfOk, map, length, take, slice_get};
ghost use Rattle.std.specs.List.{list_all, list_any};
ghost use Rattle.mir_syntax.specs.Tree.{at_id, trees_of};
ghost use Rattle.mir_syntax.specs.Table.{all_below};
ghost use Rattle.mir_syntax.specs.Ids.{IdsInTable};
ghost use Rattle.mir_syntax.specs.Crate.{crate_of};
ghost use Rattle.mir_syntax.specs.Shapes.{shapes_of, needs_by};
ghost use Rattle.mir_rules.specs.DefinitionRules.{holds_one};
ghost use Rattle.drop_tables.specs.Marks.{is_marked, id_marked, field_marked, variant_marked};

use mir_syntax::{Field, List, OutOfMemory, Program, Ty, TyId, Variant};
use std::alloc::Global;

/// Whether the number is marked; one that the list doesn't reach isn't.
pub fn is_marked(marks: &[bool], at: u32) -> bool
    ensures { result ≡ is_marked marks.now at }
{
    match marks.get(at as usize) {
        Some(mark) => *mark,
        None => false,
    }
}

fn any_id(ids: &[TyId], marks: &[bool]) -> bool
    ensures { result ≡ list_any (id_marked marks.now) ids.now }
{
    let mut rest = ids;
    'ids: while let [id, others @ ..] = rest {
        if is_marked(marks, id.0) {
            return true;
        }
        rest = others;
    }
    false
}

fn any_field(fields: &[Field], marks: &[bool]) -> bool
    ensures { result ≡ list_any (field_marked marks.now) fields.now }
{
    let mut rest = fields;
    'fields: while let [field, others @ ..] = rest {
        if is_marked(marks, field.ty.0) {
            return true;
        }
        rest = others;
    }
    false
}

fn any_variant(variants: &[Variant], marks: &[bool]) -> bool
    ensures { result ≡ list_any (variant_marked marks.now) variants.now }
{
    let mut rest = variants;
    'variants: while let [variant, others @ ..] = rest {
        if any_field(variant.fields.as_slice(), marks) {
            return true;
        }
        rest = others;
    }
    false
}

/// Whether a type holds a marked definition by value, by what is known of the types before it.
fn type_holds(program: &Program, id: TyId, known: &[bool], marks: &[bool]) -> bool
    requires in_table { id.0 < length program.now.types }
    requires known { known.now ≡ map (needs_by (is_marked marks.now)) (take id.0 (trees_of program.now.types)) }
    ensures { result ≡ needs_by (is_marked marks.now) (at_id (trees_of program.now.types) id) }
{
    match program.ty(id) {
        Ty::Tuple(parts) => any_id(parts.as_slice(), known),
        Ty::Named(def) => is_marked(marks, *def),
        _ => false,
    }
}

/// For each type of the table, whether it is a marked definition or holds one by value.
///
/// # Errors
///
/// `OutOfMemory`.
pub fn types_holding(
    alloc: Global,
    program: &Program,
    marks: &[bool],
) -> Result<List<bool>, OutOfMemory>
    ensures { IfOk result (λ held. held ≡ map (needs_by (is_marked marks.now)) (trees_of program.now.types)) }
{
    let mut held = List::with_capacity(alloc, program.types() as usize)?;
    for at in 0..program.types() {
        held.push(type_holds(program, TyId(at), held.as_slice(), marks))?;
    }
    Ok(held)
}

fn either(a: bool, b: bool) -> bool
    ensures { result ≡ (a || b) }
{
    a || b
}

/// For each definition, whether it has a mark of its own or holds a marked definition by value.
///
/// # Errors
///
/// `OutOfMemory`.
pub fn defs_holding(
    alloc: Global,
    program: &Program,
    own: &[bool],
    marks: &[bool],
) -> Result<List<bool>, OutOfMemory>
    requires ids { IdsInTable program.now }
    requires own { length own.now ≡ length program.now.defs }
    ensures length { IfOk result (λ held. length held ≡ length program.now.defs) }
    ensures marks { IfOk result (λ held. (d : ℕ) → is_marked held d ≡ (is_marked own.now d || holds_one (is_marked marks.now) (slice_get (shapes_of (crate_of program.now)) d))) }
{
    let known = types_holding(alloc, program, marks)?;
    let defs = program.defs.as_slice();
    let mut held = List::with_capacity(alloc, defs.len())?;
    for at in 0..defs.len() {
        let holds = any_variant(defs[at].variants.as_slice(), known.as_slice());
        held.push(either(own[at], holds))?;
    }
    Ok(held)
}
