ghost use Rattle.std.specs.Prelude.{◌≡◌, [], MatchOption, slice_get, option_copied};
ghost use Rattle.std.specs.Option.{option_map};
ghost use Rattle.mir_syntax.specs.declared.body.Proj.TheVariants as proj_variant;
ghost use Rattle.mir_syntax.specs.declared.types.ScalarTy.TheVariants as scalar_ty;
ghost use Rattle.mir_syntax.specs.Tree.{scalar, named, at_id, node, trees_of};
ghost use Rattle.mir_syntax.specs.Shapes.{shapes_of, fields_of, fields_tree, field_id, variant_ty, proj_ty};
ghost use Rattle.mir_text.specs.PlaceText.{type_after, variant_name};
ghost use Rattle.mir_print.specs.Seen.{crate_in};
ghost use Rattle.mir_print.specs.Parts.{part_tree};

use mir_syntax::{Field, Program, Proj, Ty, TyId, Variant, field_at};

/// What stands at a place: a value of a type, or behind a downcast the fields of a variant. Where a projection doesn't fit stand no fields.
#[derive(Clone, Copy, Drop)]
pub enum Part<'a> {
    Ty(TyId),
    Fields(&'a [Field]),
}

/// The type of a field of a part.
pub fn part_field(program: &Program, part: Part, index: u32) -> Option<TyId>
    ensures { option_map (at_id (trees_of program.now.types)) result ≡ proj_ty (shapes_of (crate_in program.now)) (part_tree (trees_of program.now.types) part.entry) (proj_variant.Field index) }
{
    match part {
        Part::Ty(id) => program.field_ty(id, index),
        Part::Fields(fields) => field_at(fields, index),
    }
}

// A field of a part, as a part.
fn after_field<'a>(program: &'a Program, part: Part<'a>, index: u32) -> Part<'a>
    ensures { part_tree (trees_of program.now.types) result ≡ type_after (crate_in program.now) (part_tree (trees_of program.now.types) part.entry) (proj_variant.Field index) }
{
    match part_field(program, part, index) {
        Some(id) => Part::Ty(id),
        None => Part::Fields(&[]),
    }
}

// What a part points to.
fn after_deref<'a>(program: &'a Program, part: Part<'a>) -> Part<'a>
    ensures { part_tree (trees_of program.now.types) result ≡ type_after (crate_in program.now) (part_tree (trees_of program.now.types) part.entry) proj_variant.Deref }
{
    let Part::Ty(id) = part else {
        return Part::Fields(&[]);
    };
    match program.pointee(id) {
        Some(id) => Part::Ty(id),
        None => Part::Fields(&[]),
    }
}

// A variant of a part.
fn after_downcast<'a>(program: &'a Program, part: Part<'a>, variant: u32) -> Part<'a>
    ensures { part_tree (trees_of program.now.types) result ≡ type_after (crate_in program.now) (part_tree (trees_of program.now.types) part.entry) (proj_variant.Downcast variant) }
{
    let Part::Ty(id) = part else {
        return Part::Fields(&[]);
    };
    match program.variant_fields(id, variant) {
        Some(fields) => Part::Fields(fields),
        None => Part::Fields(&[]),
    }
}

/// What stands behind a projection of a part.
pub fn part_after<'a>(program: &'a Program, part: Part<'a>, proj: Proj) -> Part<'a>
    ensures { part_tree (trees_of program.now.types) result ≡ type_after (crate_in program.now) (part_tree (trees_of program.now.types) part.entry) proj }
{
    match proj {
        Proj::Field(index) => after_field(program, part, index),
        Proj::Downcast(variant) => after_downcast(program, part, variant),
        Proj::Deref => after_deref(program, part),
    }
}

// The variant of a struct or enum.
fn variant_at(program: &Program, id: TyId, variant: u32) -> Option<&Variant>
    ensures { MatchOption result
        (variant_name (crate_in program.now) (at_id (trees_of program.now.types) id) variant ≡ [])
        (λ v. variant_name (crate_in program.now) (at_id (trees_of program.now.types) id) variant ≡ v.now.name) }
{
    let Ty::Named(def) = program.ty_at(id)? else {
        return None;
    };
    program
        .defs
        .get(*def as usize)?
        .variants
        .get(variant as usize)
}

/// The name of a variant of a part.
pub fn part_variant_name<'a>(program: &'a Program, part: Part<'a>, variant: u32) -> &'a [u8]
    ensures { result.now ≡ variant_name (crate_in program.now) (part_tree (trees_of program.now.types) part.entry) variant }
{
    let Part::Ty(id) = part else {
        return &[];
    };
    match variant_at(program, id, variant) {
        Some(variant) => variant.name.as_slice(),
        None => &[],
    }
}
