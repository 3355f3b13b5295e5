ghost use Rattle.std.specs.Prelude.{◌≡◌, ◌||◌, ℕ, ◌<◌, ◌+◌, length, map, Option, IfOk, IfSome, OnOk, option_copied, option_map, slice_get};
ghost use Rattle.mir_syntax.specs.Tree.{named, at_id, trees_of};
ghost use Rattle.mir_syntax.specs.Crate.{crate_of, variant_of, def_of};
ghost use Rattle.mir_syntax.specs.Ids.{IdsInTable};
ghost use Rattle.mir_syntax.specs.Shapes.{shapes_of, field_id};
ghost use Rattle.mir_text.specs.Words.{place_in};
ghost use Rattle.mir_text.specs.Names.{ty_of};
ghost use Rattle.mir_text.specs.NamedBodies.{place_named};
ghost use Rattle.mir_text.specs.NameFaults.{Fault, type_codes, place_codes};
ghost use Rattle.mir_text.specs.ReadLines.{differs, is_wrong};
ghost use Rattle.mir_text.specs.GrammarPlaces.{PlaceRule};
ghost use Rattle.mir_text.specs.GrammarPlaces as g;
ghost use Rattle.mir_tree.specs.Types.{type_rule};
ghost use Rattle.mir_tree.specs.Bodies.{place_rule};
ghost use Rattle.mir_resolve.specs.Types.{Grown};
ghost use Rattle.mir_resolve.specs.Definitions.{Went};
ghost use Rattle.mir_resolve.specs.declared.draft.Draft.{Draft};
ghost use Rattle.mir_bodies.specs.Scope.{Sense, Tells};
ghost use Rattle.mir_bodies.specs.Places.{proj_rule, enum_variants_of, variants_of, variant_by_name, pointee_of, field_of_ty, variant_field_of, name_of, Reaches};

use crate::{Read, Scope};
use mir_resolve::{Draft, read_noted, string_of};
use mir_syntax::{Field, List, OutOfMemory, Place, Program, Proj, Ty, TyId, Variant};
use mir_tree::{PlaceText, ProjText, TypeText};
use std::alloc::Global;

/// So many variants an enum may have: far more than a text of this size can name.
const MOST_VARIANTS: usize = 1 << 30;

/// A place while it is read, from its local outwards.
#[derive(Drop)]
pub struct Walk {
    /// Its type by the definitions. None where a projection didn't fit.
    pub ty: Option<TyId>,
    pub proj: List<Proj>,
    /// Whether a field is written with another type than the definition's.
    pub wrong: bool,
}

/// Whether one of two facts holds.
pub fn either(a: bool, b: bool) -> bool
    ensures { result ≡ (a || b) }
{
    a || b
}

/// The number of the variant with a name.
///
/// # Errors
///
/// `OutOfMemory`.
pub fn variant_number(variants: &[Variant], name: &[u8]) -> Result<Option<u32>, OutOfMemory>
    ensures { IfOk result (λ number. number ≡ place_in (map name_of variants.now) name.now) }
{
    if variants.len() >= MOST_VARIANTS {
        return Err(OutOfMemory);
    }
    let mut number = 0;
    let mut left = variants;
    'variants: while let [variant, rest @ ..] = left {
        if variant.name.as_slice() == name {
            return Ok(Some(number));
        }
        number += 1;
        left = rest;
    }
    Ok(None)
}

/// The variants of the enum with a number.
pub fn variants_of_def(program: &Program, def: u32) -> Option<&[Variant]>
    ensures { option_map (map (variant_of (trees_of program.now.types))) (option_copied result)
        ≡ enum_variants_of (map (def_of (trees_of program.now.types)) program.now.defs) (named def) }
{
    let def = program.defs.get(def as usize)?;
    if def.is_enum {
        Some(def.variants.as_slice())
    } else {
        None
    }
}

/// The variants of an enum.
fn enum_variants(program: &Program, id: TyId) -> Option<&[Variant]>
    ensures { option_map (map (variant_of (trees_of program.now.types))) (option_copied result)
        ≡ enum_variants_of (map (def_of (trees_of program.now.types)) program.now.defs) (at_id (trees_of program.now.types) id) }
{
    let Ty::Named(def) = program.ty_at(id)? else {
        return None;
    };
    variants_of_def(program, *def)
}

fn variants_at(program: &Program, ty: Option<TyId>) -> Option<&[Variant]>
    ensures { option_map (map (variant_of (trees_of program.now.types))) (option_copied result)
        ≡ variants_of (map (def_of (trees_of program.now.types)) program.now.defs) (option_map (at_id (trees_of program.now.types)) ty) }
{
    enum_variants(program, ty?)
}

/// The number of the variant with a name that a type has.
fn variant_at(
    scope: &Scope,
    program: &Program,
    ty: Option<TyId>,
    name: u32,
) -> Result<Option<u32>, OutOfMemory>
    ghost sense: { Sense }
    requires { Tells scope.now program.now sense }
    ensures { IfOk result (λ number. number
        ≡ variant_by_name sense.names name (option_map (at_id (trees_of program.now.types)) ty)) }
{
    match variants_at(program, ty) {
        Some(variants) => {
            let number = variant_number(variants, string_of(scope.strings, name))?;
            Ok(number)
        }
        None => Ok(None),
    }
}

/// What a reference points to.
fn behind(program: &Program, ty: Option<TyId>) -> Option<TyId>
    ensures ty { option_map (at_id (trees_of program.now.types)) result
        ≡ pointee_of (option_map (at_id (trees_of program.now.types)) ty) }
    ensures in_table { IdsInTable program.now → IfSome result (λ id. id.0 < length program.now.types) }
{
    program.pointee(ty?)
}

/// The type of a field of a tuple or a struct.
fn field_of(program: &Program, ty: Option<TyId>, index: u32) -> Option<TyId>
    ensures ty { option_map (at_id (trees_of program.now.types)) result
        ≡ field_of_ty (shapes_of (crate_of program.now)) index (option_map (at_id (trees_of program.now.types)) ty) }
    ensures in_table { IdsInTable program.now → IfSome result (λ id. id.0 < length program.now.types) }
{
    program.field_ty(ty?, index)
}

fn field_at(fields: &[Field], index: u32) -> Option<TyId>
    ensures { result ≡ option_map field_id (slice_get fields.now index) }
{
    Some(fields.get(index as usize)?.ty)
}

/// The type of a field of an enum's variant.
fn variant_field(
    program: &Program,
    ty: Option<TyId>,
    variant: Option<u32>,
    index: u32,
) -> Option<TyId>
    ensures ty { option_map (at_id (trees_of program.now.types)) result
        ≡ variant_field_of (shapes_of (crate_of program.now)) index variant (option_map (at_id (trees_of program.now.types)) ty) }
    ensures in_table { IdsInTable program.now → IfSome result (λ id. id.0 < length program.now.types) }
{
    field_at(program.variant_fields(ty?, variant?)?, index)
}

/// Reads the type that is written with a field, with S12 noted where a path in it isn't known, and whether it is another one than the
/// definition's. Where a projection didn't fit there is none to differ from.
fn differs_from(
    alloc: Global,
    scope: &Scope,
    draft: &mut Draft,
    line: u32,
    ty: Option<TyId>,
    text: &TypeText,
) -> Result<bool, OutOfMemory>
    ghost sense: { Sense }
    requires tells { Tells scope.now draft.old.program sense }
    requires inside { IfSome ty (λ id. id.0 < length draft.old.program.types) }
    ensures differs { IfOk result (λ d. d ≡ differs (option_map (at_id (trees_of draft.old.program.types)) ty) (ty_of sense.names (type_rule text.now))) }
    ensures went { OnOk result (Went draft.old draft.new line (type_codes sense.names (type_rule text.now))) }
    ensures tells { OnOk result (Tells scope.now draft.new.program sense) }
{
    let written = read_noted(alloc, scope.strings, scope.paths, draft, line, text)?;
    match ty {
        Some(id) => Ok(id.0 != written.0),
        None => Ok(false),
    }
}

fn through_deref(program: &Program, walk: Walk) -> Result<Walk, OutOfMemory>
    ensures { IfOk result (λ on. (sense : Sense) (start : Option Fault) (line : ℕ) (q : PlaceRule) (draft : Draft) → draft.program ≡ program.now → IdsInTable program.now
        → Reaches sense start line q walk draft → Reaches sense start line (g.deref q) on draft) }
{
    let Walk {
        ty,
        mut proj,
        wrong,
    } = walk;
    proj.push(Proj::Deref)?;
    Ok(Walk {
        ty: behind(program, ty),
        proj,
        wrong,
    })
}

fn to_field(
    alloc: Global,
    scope: &Scope,
    draft: &mut Draft,
    line: u32,
    walk: Walk,
    index: u32,
    text: &TypeText,
) -> Result<Walk, OutOfMemory>
    ghost sense: { Sense }
    requires { Tells scope.now draft.old.program sense }
    ensures goes_on { IfOk result (λ on. (start : Option Fault) (q : PlaceRule) → Reaches sense start line q walk draft.old
        → Reaches sense start line (g.field q index (type_rule text.now)) on draft.new) }
    ensures grown { OnOk result (Grown draft.old.program draft.new.program) }
    ensures tells { OnOk result (Tells scope.now draft.new.program sense) }
{
    let Walk {
        ty,
        mut proj,
        wrong,
    } = walk;
    let ty = field_of(&draft.program, ty, index);
    let differs = differs_from(alloc, scope, draft, line, ty, text)?;
    proj.push(Proj::Field(index))?;
    Ok(Walk {
        ty,
        proj,
        wrong: either(wrong, differs),
    })
}

fn to_variant_field(
    alloc: Global,
    scope: &Scope,
    draft: &mut Draft,
    line: u32,
    walk: Walk,
    name: u32,
    index: u32,
    text: &TypeText,
) -> Result<Walk, OutOfMemory>
    ghost sense: { Sense }
    requires { Tells scope.now draft.old.program sense }
    ensures goes_on { IfOk result (λ on. (start : Option Fault) (q : PlaceRule) → Reaches sense start line q walk draft.old
        → Reaches sense start line (g.variant_field q name index (type_rule text.now)) on draft.new) }
    ensures grown { OnOk result (Grown draft.old.program draft.new.program) }
    ensures tells { OnOk result (Tells scope.now draft.new.program sense) }
{
    let Walk {
        ty,
        mut proj,
        wrong,
    } = walk;
    let variant = variant_at(scope, &draft.program, ty, name)?;
    draft.notes.note_unless(variant.is_some(), line, 13);
    let ty = variant_field(&draft.program, ty, variant, index);
    let differs = differs_from(alloc, scope, draft, line, ty, text)?;
    proj.push(Proj::Downcast(variant.unwrap_or(0)))?;
    proj.push(Proj::Field(index))?;
    Ok(Walk {
        ty,
        proj,
        wrong: either(wrong, differs),
    })
}

/// One projection further.
fn step(
    alloc: Global,
    scope: &Scope,
    draft: &mut Draft,
    line: u32,
    walk: Walk,
    proj: &ProjText,
) -> Result<Walk, OutOfMemory>
    ghost sense: { Sense }
    requires { Tells scope.now draft.old.program sense }
    ensures goes_on { IfOk result (λ on. (start : Option Fault) (q : PlaceRule) → Reaches sense start line q walk draft.old
        → Reaches sense start line (proj_rule q proj.now) on draft.new) }
    ensures grown { OnOk result (Grown draft.old.program draft.new.program) }
    ensures tells { OnOk result (Tells scope.now draft.new.program sense) }
{
    match proj {
        ProjText::Deref => {
            let on = through_deref(&draft.program, walk)?;
            Ok(on)
        }
        ProjText::Field(index, ty) => to_field(alloc, scope, draft, line, walk, *index, ty),
        ProjText::VariantField(name, index, ty) => {
            to_variant_field(alloc, scope, draft, line, walk, *name, *index, ty)
        }
    }
}

/// A place, and whether a field in it is written with another type than the definition's. S14 is noted where its local isn't declared, S13
/// where a downcast names no variant of the type before it, S12 where the path of a type isn't known.
///
/// # Errors
///
/// `OutOfMemory`.
pub fn read_place(
    alloc: Global,
    scope: &Scope,
    draft: &mut Draft,
    line: u32,
    text: &PlaceText,
) -> Result<Read<Place>, OutOfMemory>
    ghost sense: { Sense }
    requires { Tells scope.now draft.old.program sense }
    ensures place { IfOk result (λ read. read.part ≡ place_named sense.names sense.locals (place_rule text.now)) }
    ensures wrong { IfOk result (λ read. read.wrong ≡ is_wrong sense.names sense.locals (place_rule text.now)) }
    ensures went { OnOk result (Went draft.old draft.new line (place_codes sense.names sense.locals (place_rule text.now))) }
    ensures tells { OnOk result (Tells scope.now draft.new.program sense) }
{
    let ty = scope.locals.get(text.local);
    draft.notes.note_unless(ty.is_some(), line, 14);
    let proj = List::with_capacity(alloc, text.projs.len())?;
    let mut walk = Walk {
        ty,
        proj,
        wrong: false,
    };
    let mut left = text.projs.as_slice();
    'projs: while let [proj, rest @ ..] = left {
        walk = step(alloc, scope, draft, line, walk, proj)?;
        left = rest;
    }
    let Walk { proj, wrong, .. } = walk;
    let part = Place {
        local: text.local,
        proj,
    };
    Ok(Read { part, wrong })
}
