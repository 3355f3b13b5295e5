ghost use Rattle.std.specs.Prelude.{◌≡◌, ℕ, IsTrue, List, ◌∷◌, ◌<◌, None, Some, false, MatchOption, IfSome, map, length, slice_get, option_copied, option_map};
ghost use Rattle.mir_syntax.specs.Tree.{scalar, named, at_id, trees_of, node};
ghost use Rattle.std.specs.List.{list_all};
ghost use Rattle.mir_syntax.specs.Table.{ids_below};
ghost use Rattle.mir_syntax.specs.Ids.{field_below, IdsInTable, BodyInTable};
ghost use Rattle.mir_syntax.specs.Crate.{crate_of, body_of};
ghost use Rattle.mir_syntax.specs.Shapes.{shapes_of, fields_of, variant_ty, proj_ty, whole_path_ty, whole_place_ty, path_through, goes_through_destructor, fields_tree, field_id};
ghost use Rattle.mir_syntax.specs.Drops.{KnowsDrops};
ghost use Rattle.mir_syntax.specs.declared.body.Proj.{Proj};
ghost use Rattle.mir_syntax.specs.declared.types.ScalarTy.TheVariants as scalar_ty;

use crate::types::{Field, Ty, TyId};
use crate::{Body, Place, Program, Proj};

/// The type of a field of a variant.
pub fn field_at(fields: &[Field], index: u32) -> Option<TyId>
    ensures { result ≡ option_map field_id (slice_get fields.now index) }
{
    Some(fields.get(index as usize)?.ty)
}

/// The field that comes first, and the projections behind it.
fn split_field<'a>(projs: &'a [Proj]) -> Option<(u32, &'a [Proj])>
    ensures { MatchOption result
        ((i : ℕ) (ps : List Proj) → projs.now ≡ Proj.Field i ∷ ps → ⊥)
        (λ split. projs.now ≡ Proj.Field split.0 ∷ split.1.now) }
{
    match projs {
        [Proj::Field(index), rest @ ..] => Some((*index, rest)),
        _ => None,
    }
}

impl Program {
    /// The type of an id. `None` exactly where the id is not in the table.
    pub fn ty_at(&self, id: TyId) -> Option<&Ty>
        ensures stands { MatchOption result
            (at_id (trees_of self.now.types) id ≡ scalar scalar_ty.Bool)
            (λ ty. at_id (trees_of self.now.types) id ≡ node (trees_of self.now.types) ty.now) }
        ensures made { IfSome result (λ ty. IsTrue (ids_below (length self.now.types) ty.now)) }
    {
        self.types.get(id.0 as usize)
    }

    /// The fields of a struct. `None` exactly where no such definition is, or it is an enum, which has none of its own.
    pub fn struct_fields(&self, def: u32) -> Option<&[Field]>
        ensures fields { option_map (fields_tree (trees_of self.now.types)) (option_copied result) ≡ fields_of (shapes_of (crate_of self.now)) (named def) }
        ensures in_table { IdsInTable self.now → IfSome result (λ fields. IsTrue (list_all (field_below (length self.now.types)) fields.now)) }
    {
        let def = self.defs.get(def as usize)?;
        if def.is_enum {
            return None;
        }
        match def.variants.get(0) {
            Some(variant) => Some(variant.fields.as_slice()),
            None => Some(&[]),
        }
    }

    /// The fields of a variant of an enum. `None` exactly where the type is no enum, or has no such variant.
    pub fn variant_fields(&self, id: TyId, variant: u32) -> Option<&[Field]>
        ensures fields { option_map (fields_tree (trees_of self.now.types)) (option_copied result) ≡ variant_ty (shapes_of (crate_of self.now)) (at_id (trees_of self.now.types) id) variant }
        ensures in_table { IdsInTable self.now → IfSome result (λ fields. IsTrue (list_all (field_below (length self.now.types)) fields.now)) }
    {
        let Ty::Named(def) = self.ty_at(id)? else {
            return None;
        };
        let def = self.defs.get(*def as usize)?;
        if !def.is_enum {
            return None;
        }
        let variant = def.variants.get(variant as usize)?;
        Some(variant.fields.as_slice())
    }

    /// The type of a field of a tuple or a struct. `None` exactly where the type has no such field.
    pub fn field_ty(&self, id: TyId, index: u32) -> Option<TyId>
        ensures ty { option_map (at_id (trees_of self.now.types)) result
            ≡ proj_ty (shapes_of (crate_of self.now)) (at_id (trees_of self.now.types) id) (Proj.Field index) }
        ensures in_table { IdsInTable self.now → IfSome result (λ id. id.0 < length self.now.types) }
    {
        match self.ty_at(id)? {
            Ty::Tuple(ids) => ids.get(index as usize).copied(),
            Ty::Named(def) => field_at(self.struct_fields(*def)?, index),
            _ => None,
        }
    }

    /// What a reference points to. `None` exactly where the type is no reference.
    pub fn pointee(&self, id: TyId) -> Option<TyId>
        ensures ty { option_map (at_id (trees_of self.now.types)) result
            ≡ proj_ty (shapes_of (crate_of self.now)) (at_id (trees_of self.now.types) id) Proj.Deref }
        ensures in_table { IdsInTable self.now → IfSome result (λ id. id.0 < length self.now.types) }
    {
        match self.ty_at(id)? {
            Ty::Ref(id) => Some(*id),
            Ty::RefMut(id) => Some(*id),
            _ => None,
        }
    }

    /// The type after the first projection, and after the field behind it where it is a downcast; and the projections that are left.
    /// `None` where the projection doesn't fit, or a downcast has no field behind it.
    pub fn project<'a>(&self, id: TyId, first: Proj, rest: &'a [Proj]) -> Option<(TyId, &'a [Proj])>
        ensures path { MatchOption result
            (whole_path_ty (shapes_of (crate_of self.now)) (at_id (trees_of self.now.types) id) (first ∷ rest.now) ≡ None)
            (λ on. whole_path_ty (shapes_of (crate_of self.now)) (at_id (trees_of self.now.types) id) (first ∷ rest.now)
            ≡ whole_path_ty (shapes_of (crate_of self.now)) (at_id (trees_of self.now.types) on.0) on.1.now) }
        ensures through { MatchOption result
            (path_through (shapes_of (crate_of self.now)) (proj_ty (shapes_of (crate_of self.now)) (at_id (trees_of self.now.types) id) first) rest.now ≡ false)
            (λ on. path_through (shapes_of (crate_of self.now)) (proj_ty (shapes_of (crate_of self.now)) (at_id (trees_of self.now.types) id) first) rest.now
            ≡ path_through (shapes_of (crate_of self.now)) (Some (at_id (trees_of self.now.types) on.0)) on.1.now) }
        ensures in_table { IdsInTable self.now → IfSome result (λ on. on.0.0 < length self.now.types) }
        ensures shorter { IfSome result (λ on. length on.1.now < length (first ∷ rest.now)) }
    {
        match first {
            Proj::Deref => Some((self.pointee(id)?, rest)),
            Proj::Field(index) => Some((self.field_ty(id, index)?, rest)),
            Proj::Downcast(variant) => {
                let (index, rest) = split_field(rest)?;
                Some((field_at(self.variant_fields(id, variant)?, index)?, rest))
            }
        }
    }

    /// The type of a place of a body: that of its local, followed along its projections (Rust Reference, place expressions;
    /// rustc's `Place::ty`). `None` exactly where a projection doesn't fit the type before it, where the place ends in a downcast,
    /// after which a variant's fields stand and no type, or where the body has no such local.
    pub fn place_ty(&self, body: &Body, place: &Place) -> Option<TyId>
        ensures ty { option_map (at_id (trees_of self.now.types)) result
            ≡ whole_place_ty (shapes_of (crate_of self.now)) (body_of (trees_of self.now.types) body.now).locals place.now }
        // The type lies in the table where the program's and the body's do.
        ensures in_table { IdsInTable self.now → BodyInTable self.now.types body.now → IfSome result (λ id. id.0 < length self.now.types) }
    {
        let mut id = *body.locals.get(place.local as usize)?;
        let mut projs = place.proj.as_slice();
        while let [first, rest @ ..] = projs {
            let (next, left) = self.project(id, *first, rest)?;
            id = next;
            projs = left;
        }
        Some(id)
    }

    /// Whether a place takes a part of a value whose type has a destructor.
    pub fn goes_through_destructor(&self, body: &Body, place: &Place) -> bool
        requires knows { KnowsDrops self.now }
        requires ids { IdsInTable self.now }
        requires body_ids { BodyInTable self.now.types body.now }
        ensures { result ≡ goes_through_destructor (shapes_of (crate_of self.now)) (body_of (trees_of self.now.types) body.now).locals place.now }
    {
        let Some(local) = body.locals.get(place.local as usize) else {
            return false;
        };
        let mut id = *local;
        let mut projs = place.proj.as_slice();
        while let [first, rest @ ..] = projs {
            if self.destructor(id).is_some() {
                return true;
            }
            let Some((next, left)) = self.project(id, *first, rest) else {
                return false;
            };
            id = next;
            projs = left;
        }
        false
    }
}
