ghost use Rattle.std.specs.Prelude.{◌≡◌, ◌<◌, IsTrue, [], ◌∷◌, IfSome, MatchOption, length, option_map};
ghost use Rattle.mir_syntax.specs.declared.types.TyId.{TyId as TyIdData};
ghost use Rattle.mir_syntax.specs.Tree.{at_id, trees_of};
ghost use Rattle.mir_syntax.specs.Tree as tree;
ghost use Rattle.mir_syntax.specs.Crate.{crate_of};
ghost use Rattle.mir_syntax.specs.Ids.{IdsInTable, BodyInTable};
ghost use Rattle.mir_syntax.specs.Shapes.{shapes_of, place_ty};
ghost use Rattle.mir_syntax.specs.Drops.{KnowsDrops};
ghost use Rattle.mir_rules.specs.Same.{same_scalar, same_tree, place_of_int};
ghost use Rattle.mir_syntax.specs.Parts.{path_formed};
ghost use Rattle.mir_rules.specs.Typing.{scalar_of};
ghost use Rattle.mir_validate.specs.Inside.{shapes, local_types, flagged, seen_tree, seen_below};

use crate::seen::Seen;
use mir_syntax::{Body, IntTy, Place, Program, ScalarTy, Ty, TyId};

/// A body inside its program, of which the drops are known.
#[derive(Clone, Copy, Drop)]
pub struct Inside<'a> {
    pub program: &'a Program,
    pub body: &'a Body,
    pub ghost drops: { KnowsDrops program.now },
    pub ghost ids: { IdsInTable program.now },
    pub ghost locals: { BodyInTable program.now.types body.now },
}

fn place_of_int(ty: IntTy) -> u8
    ensures { result ≡ place_of_int ty }
{
    match ty {
        IntTy::I8 => 0,
        IntTy::I16 => 1,
        IntTy::I32 => 2,
        IntTy::I64 => 3,
        IntTy::I128 => 4,
        IntTy::Isize => 5,
        IntTy::U8 => 6,
        IntTy::U16 => 7,
        IntTy::U32 => 8,
        IntTy::U64 => 9,
        IntTy::U128 => 10,
        IntTy::Usize => 11,
    }
}

/// Whether two scalar types are one.
pub fn same_scalar(a: ScalarTy, b: ScalarTy) -> bool
    ensures { result ≡ same_scalar a b }
{
    match (a, b) {
        (ScalarTy::Bool, ScalarTy::Bool) => true,
        (ScalarTy::Int(a), ScalarTy::Int(b)) => place_of_int(a) == place_of_int(b),
        _ => false,
    }
}

/// The two items of a list that has two.
fn pair(ids: &[TyId]) -> Option<(TyId, TyId)>
    ensures { MatchOption result ((a b : TyIdData) → ids.now ≡ a ∷ b ∷ [] → ⊥) (λ two. ids.now ≡ two.0 ∷ two.1 ∷ []) }
{
    match ids {
        [first, second] => Some((*first, *second)),
        _ => None,
    }
}

impl Inside<'_> {
    /// The type of a place. `None` exactly where a projection doesn't fit.
    pub fn place_ty(&self, place: &Place) -> Option<TyId>
        requires formed { IsTrue (path_formed place.now.proj) }
        ensures ty { option_map (at_id (trees_of self.now.program.now.types)) result
            ≡ place_ty (shapes self.now.program.now) (local_types self.now.program.now self.now.body.now) place.now }
        ensures in_table { IfSome result (λ id. id.0 < length self.now.program.now.types) }
    {
        self.program.place_ty(self.body, place)
    }

    fn scalar_in_table(&self, id: TyId) -> Option<ScalarTy>
        requires in_table { id.0 < length self.now.program.now.types }
        ensures { result ≡ scalar_of (at_id (trees_of self.now.program.now.types) id) }
    {
        match self.program.ty(id) {
            Ty::Scalar(scalar) => Some(*scalar),
            _ => None,
        }
    }

    /// The scalar that a type is.
    pub fn scalar(&self, seen: Seen) -> Option<ScalarTy>
        requires in_table { IsTrue (seen_below (length self.now.program.now.types) seen) }
        ensures { result ≡ scalar_of (seen_tree (trees_of self.now.program.now.types) seen) }
    {
        match seen {
            Seen::InTable(id) => self.scalar_in_table(id),
            Seen::Scalar(scalar) => Some(scalar),
            _ => None,
        }
    }

    fn is_scalar(&self, id: TyId, scalar: ScalarTy) -> bool
        requires in_table { id.0 < length self.now.program.now.types }
        ensures { result ≡ same_tree (tree.scalar scalar) (at_id (trees_of self.now.program.now.types) id) }
    {
        match self.program.ty(id) {
            Ty::Scalar(other) => same_scalar(scalar, *other),
            _ => false,
        }
    }

    fn is_unit(&self, id: TyId) -> bool
        requires in_table { id.0 < length self.now.program.now.types }
        ensures { result ≡ same_tree tree.empty (at_id (trees_of self.now.program.now.types) id) }
    {
        match self.program.ty(id) {
            Ty::Tuple(parts) => parts.is_empty(),
            _ => false,
        }
    }

    fn is_with_flag(&self, id: TyId, scalar: ScalarTy) -> bool
        requires in_table { id.0 < length self.now.program.now.types }
        ensures { result ≡ same_tree (flagged scalar) (at_id (trees_of self.now.program.now.types) id) }
    {
        let Ty::Tuple(parts) = self.program.ty(id) else {
            return false;
        };
        match pair(parts.as_slice()) {
            Some((value, flag)) => {
                self.is_scalar(value, scalar) && self.is_scalar(flag, ScalarTy::Bool)
            }
            None => false,
        }
    }

    fn is_ref(&self, id: TyId, to: TyId) -> bool
        requires in_table { id.0 < length self.now.program.now.types }
        requires to_in_table { to.0 < length self.now.program.now.types }
        ensures { result ≡ same_tree (tree.ref (at_id (trees_of self.now.program.now.types) to)) (at_id (trees_of self.now.program.now.types) id) }
    {
        match self.program.ty(id) {
            Ty::Ref(other) => to.0 == other.0,
            _ => false,
        }
    }

    fn is_ref_mut(&self, id: TyId, to: TyId) -> bool
        requires in_table { id.0 < length self.now.program.now.types }
        requires to_in_table { to.0 < length self.now.program.now.types }
        ensures { result ≡ same_tree (tree.ref_mut (at_id (trees_of self.now.program.now.types) to)) (at_id (trees_of self.now.program.now.types) id) }
    {
        match self.program.ty(id) {
            Ty::RefMut(other) => to.0 == other.0,
            _ => false,
        }
    }

    fn is_named(&self, id: TyId, def: u32) -> bool
        requires in_table { id.0 < length self.now.program.now.types }
        ensures { result ≡ same_tree (tree.named def) (at_id (trees_of self.now.program.now.types) id) }
    {
        match self.program.ty(id) {
            Ty::Named(other) => def == *other,
            _ => false,
        }
    }

    /// Whether what is seen is the type that the id stands for.
    pub fn is(&self, seen: Seen, id: TyId) -> bool
        requires in_table { id.0 < length self.now.program.now.types }
        requires seen_in_table { IsTrue (seen_below (length self.now.program.now.types) seen) }
        ensures { result ≡ same_tree (seen_tree (trees_of self.now.program.now.types) seen) (at_id (trees_of self.now.program.now.types) id) }
    {
        match seen {
            Seen::InTable(other) => other.0 == id.0,
            Seen::Scalar(scalar) => self.is_scalar(id, scalar),
            Seen::Unit => self.is_unit(id),
            Seen::WithFlag(scalar) => self.is_with_flag(id, scalar),
            Seen::Ref(to) => self.is_ref(id, to),
            Seen::RefMut(to) => self.is_ref_mut(id, to),
            Seen::Named(def) => self.is_named(id, def),
        }
    }
}
