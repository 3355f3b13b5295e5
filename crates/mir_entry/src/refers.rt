ghost use Rattle.std.specs.Prelude.{◌≡◌, map, IsTrue};
ghost use Rattle.mir_syntax.specs.Tree.{at_ids, trees_of};
ghost use Rattle.mir_syntax.specs.Table.{all_below};
ghost use Rattle.mir_syntax.specs.Shapes.{fields_tree, fields_tuple};
ghost use Rattle.mir_syntax.specs.Crate.{variant_of};
ghost use Rattle.mir_semantics.specs.Entry as sem;
ghost use Rattle.mir_semantics.specs.Entry.{refers_by, refers_def, any_refers};
ghost use Rattle.mir_meaning.specs.Programs.{shapes_in, type_in};

use mir_meaning::types::ty;
use mir_syntax::{Field, Program, Ty, TyId, Variant};

/// Whether a reference stands in the type, to a depth of definitions inside one another.
#[cycle(refers)]
fn refers_within(program: &Program, depth: usize, id: TyId) -> bool
    ensures { result ≡ refers_by (refers_def (shapes_in program.now) depth) (type_in program.now id) }
{
    let Some(ty) = ty(program, id) else {
        return false;
    };
    match ty {
        Ty::Ref(_) => true,
        Ty::RefMut(_) => true,
        Ty::Tuple(ids) => types_refer(program, depth, id.0, ids.as_slice()),
        Ty::Named(def) => def_refers(program, depth, *def),
        Ty::Scalar(_) => false,
    }
}

/// The same of a tuple of types whose ids lie below a bound.
#[cycle(refers)]
fn types_refer(program: &Program, depth: usize, bound: u32, ids: &[TyId]) -> bool
    requires { IsTrue (all_below bound ids.now) }
    ensures { result ≡ refers_by (refers_def (shapes_in program.now) depth) (at_ids (trees_of program.now.types) ids.now) }
{
    for id in ids {
        if refers_within(program, depth, *id) {
            return true;
        }
    }
    false
}

#[cycle(refers)]
fn def_refers(program: &Program, depth: usize, def: u32) -> bool
    ensures { result ≡ refers_def (shapes_in program.now) depth def }
{
    if depth == 0 {
        return false;
    }
    match program.defs.get(def as usize) {
        Some(def) => variants_refer(program, depth - 1, def.variants.as_slice()),
        None => false,
    }
}

#[cycle(refers)]
fn variants_refer(program: &Program, depth: usize, variants: &[Variant]) -> bool
    ensures { result ≡ any_refers (refers_def (shapes_in program.now) depth) (map fields_tuple (map (variant_of (trees_of program.now.types)) variants.now)) }
{
    for variant in variants {
        if fields_refer(program, depth, variant.fields.as_slice()) {
            return true;
        }
    }
    false
}

#[cycle(refers)]
fn fields_refer(program: &Program, depth: usize, fields: &[Field]) -> bool
    ensures { result ≡ refers_by (refers_def (shapes_in program.now) depth) (fields_tree (trees_of program.now.types) fields.now) }
{
    for field in fields {
        if refers_within(program, depth, field.ty) {
            return true;
        }
    }
    false
}

/// Whether a reference stands in the type, or in a type that it holds.
pub fn holds_reference(program: &Program, id: TyId) -> bool
    ensures { result ≡ sem.holds_reference (shapes_in program.now) (type_in program.now id) }
{
    refers_within(program, program.defs.len(), id)
}

/// Whether a reference stands in one of the types, or in a type that it holds.
pub fn types_refer_any(program: &Program, types: &[TyId]) -> bool
    ensures { result ≡ sem.holds_reference (shapes_in program.now) (at_ids (trees_of program.now.types) types.now) }
{
    for ty in types {
        if holds_reference(program, *ty) {
            return true;
        }
    }
    false
}
