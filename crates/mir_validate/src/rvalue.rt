ghost use Rattle.std.specs.Prelude.{◌≡◌, ◌<◌, IsTrue, IfSome, length, option_map, is_some};
ghost use Rattle.std.specs.List.{list_all};
ghost use Rattle.mir_syntax.specs.Tree.{at_id, trees_of};
ghost use Rattle.mir_syntax.specs.Ids.{rvalue_below};
ghost use Rattle.mir_syntax.specs.Crate.{rvalue_of};
ghost use Rattle.mir_syntax.specs.Parts.{path_formed, operand_whole, rvalue_whole};
ghost use Rattle.mir_rules.specs.Typing.{enum_of};
ghost use Rattle.mir_validate.specs.Inside.{shapes, local_types, seen_tree, seen_below};
ghost use Rattle.mir_validate.specs.Codes.{parts_untyped, binary_made, overflow_made, unary_made, cast_made, discriminant_made, ref_made, ref_mut_made, build_made, untupled_ty};

use crate::inside::Inside;
use crate::seen::Seen;
use mir_syntax::{BinOp, IntTy, Operand, Place, Rvalue, ScalarTy, Ty, TyId, UnOp};

impl Inside<'_> {
    /// Whether a projection in an rvalue doesn't fit its place.
    pub fn parts_untyped(&self, value: &Rvalue) -> bool
        requires formed { IsTrue (rvalue_whole value.now) }
        ensures { result ≡ parts_untyped (shapes self.now.program.now) (local_types self.now.program.now self.now.body.now) value.now }
    {
        match value {
            Rvalue::Use(a) | Rvalue::Unary(_, a) | Rvalue::Cast(a, _) => self.operand_untyped(a),
            Rvalue::Binary(_, a, b) | Rvalue::Overflow(_, a, b) => {
                self.operand_untyped(a) || self.operand_untyped(b)
            }
            Rvalue::Ref(place) | Rvalue::RefMut(place) | Rvalue::Discriminant(place) => {
                self.place_untyped(place)
            }
            Rvalue::Tuple(parts) | Rvalue::Build(_, _, parts) => {
                self.operands_untyped(parts.as_slice())
            }
        }
    }

    fn binary(&self, op: BinOp, a: &Operand, b: &Operand) -> Option<Seen>
        requires left { IsTrue (operand_whole a.now) }
        requires right { IsTrue (operand_whole b.now) }
        ensures ty { option_map (seen_tree (trees_of self.now.program.now.types)) result
            ≡ binary_made (shapes self.now.program.now) (local_types self.now.program.now self.now.body.now) op a.now b.now }
        ensures in_table { IfSome result (λ seen. IsTrue (seen_below (length self.now.program.now.types) seen)) }
    {
        let a = self.operand_ty(a)?;
        let b = self.operand_ty(b)?;
        self.binary_ty(op, a, b)
    }

    fn overflow(&self, a: &Operand, b: &Operand) -> Option<Seen>
        requires left { IsTrue (operand_whole a.now) }
        requires right { IsTrue (operand_whole b.now) }
        ensures ty { option_map (seen_tree (trees_of self.now.program.now.types)) result
            ≡ overflow_made (shapes self.now.program.now) (local_types self.now.program.now self.now.body.now) a.now b.now }
        ensures in_table { IfSome result (λ seen. IsTrue (seen_below (length self.now.program.now.types) seen)) }
    {
        let a = self.operand_ty(a)?;
        let b = self.operand_ty(b)?;
        self.overflow_ty(a, b)
    }

    fn unary(&self, op: UnOp, a: &Operand) -> Option<Seen>
        requires formed { IsTrue (operand_whole a.now) }
        ensures ty { option_map (seen_tree (trees_of self.now.program.now.types)) result
            ≡ unary_made (shapes self.now.program.now) (local_types self.now.program.now self.now.body.now) op a.now }
        ensures in_table { IfSome result (λ seen. IsTrue (seen_below (length self.now.program.now.types) seen)) }
    {
        let a = self.operand_ty(a)?;
        self.unary_ty(op, a)
    }

    fn cast(&self, a: &Operand, to: TyId) -> Option<Seen>
        requires formed { IsTrue (operand_whole a.now) }
        requires in_table { to.0 < length self.now.program.now.types }
        ensures ty { option_map (seen_tree (trees_of self.now.program.now.types)) result
            ≡ cast_made (shapes self.now.program.now) (local_types self.now.program.now self.now.body.now) a.now (at_id (trees_of self.now.program.now.types) to) }
        ensures in_table { IfSome result (λ seen. IsTrue (seen_below (length self.now.program.now.types) seen)) }
    {
        let a = self.operand_ty(a)?;
        self.cast_ty(a, to)
    }

    fn is_enum(&self, id: TyId) -> bool
        requires in_table { id.0 < length self.now.program.now.types }
        ensures { result ≡ is_some (enum_of (shapes self.now.program.now) (at_id (trees_of self.now.program.now.types) id)) }
    {
        let Ty::Named(number) = self.program.ty(id) else {
            return false;
        };
        match self.program.defs.get(*number as usize) {
            Some(def) => def.is_enum,
            None => false,
        }
    }

    fn discriminant(&self, place: &Place) -> Option<Seen>
        requires formed { IsTrue (path_formed place.now.proj) }
        ensures ty { option_map (seen_tree (trees_of self.now.program.now.types)) result
            ≡ discriminant_made (shapes self.now.program.now) (local_types self.now.program.now self.now.body.now) place.now }
        ensures in_table { IfSome result (λ seen. IsTrue (seen_below (length self.now.program.now.types) seen)) }
    {
        let id = self.place_ty(place)?;
        if self.is_enum(id) {
            Some(Seen::Scalar(ScalarTy::Int(IntTy::Isize)))
        } else {
            None
        }
    }

    fn reference(&self, place: &Place) -> Option<Seen>
        requires formed { IsTrue (path_formed place.now.proj) }
        ensures ty { option_map (seen_tree (trees_of self.now.program.now.types)) result
            ≡ ref_made (shapes self.now.program.now) (local_types self.now.program.now self.now.body.now) place.now }
        ensures in_table { IfSome result (λ seen. IsTrue (seen_below (length self.now.program.now.types) seen)) }
    {
        Some(Seen::Ref(self.place_ty(place)?))
    }

    fn mutable_reference(&self, place: &Place) -> Option<Seen>
        requires formed { IsTrue (path_formed place.now.proj) }
        ensures ty { option_map (seen_tree (trees_of self.now.program.now.types)) result
            ≡ ref_mut_made (shapes self.now.program.now) (local_types self.now.program.now self.now.body.now) place.now }
        ensures in_table { IfSome result (λ seen. IsTrue (seen_below (length self.now.program.now.types) seen)) }
    {
        Some(Seen::RefMut(self.place_ty(place)?))
    }

    fn build(&self, number: u32, variant: u32, parts: &[Operand]) -> Option<Seen>
        requires formed { IsTrue (list_all operand_whole parts.now) }
        ensures ty { option_map (seen_tree (trees_of self.now.program.now.types)) result
            ≡ build_made (shapes self.now.program.now) (local_types self.now.program.now self.now.body.now) number variant parts.now }
        ensures in_table { IfSome result (λ seen. IsTrue (seen_below (length self.now.program.now.types) seen)) }
    {
        let def = self.program.defs.get(number as usize)?;
        let variant = def.variants.get(variant as usize)?;
        if self.have_field_types(parts, variant.fields.as_slice()) {
            Some(Seen::Named(number))
        } else {
            None
        }
    }

    /// The type of what an rvalue makes, of each but a tuple. `None` exactly where a projection or an operand doesn't fit.
    #[tactic(auto, unfolding(mir_rules::specs::Typing::rvalue_ty))]
    pub fn untupled_ty(&self, value: &Rvalue) -> Option<Seen>
        requires formed { IsTrue (rvalue_whole value.now) }
        requires in_table { IsTrue (rvalue_below (length self.now.program.now.types) value.now) }
        ensures ty { option_map (seen_tree (trees_of self.now.program.now.types)) result
            ≡ untupled_ty (shapes self.now.program.now) (local_types self.now.program.now self.now.body.now) (rvalue_of (trees_of self.now.program.now.types) value.now) }
        ensures in_table { IfSome result (λ seen. IsTrue (seen_below (length self.now.program.now.types) seen)) }
    {
        match value {
            Rvalue::Use(a) => self.operand_ty(a),
            Rvalue::Binary(op, a, b) => self.binary(*op, a, b),
            Rvalue::Overflow(_, a, b) => self.overflow(a, b),
            Rvalue::Unary(op, a) => self.unary(*op, a),
            Rvalue::Cast(a, to) => self.cast(a, *to),
            Rvalue::Ref(place) => self.reference(place),
            Rvalue::RefMut(place) => self.mutable_reference(place),
            Rvalue::Discriminant(place) => self.discriminant(place),
            Rvalue::Tuple(_) => None,
            Rvalue::Build(def, variant, parts) => self.build(*def, *variant, parts.as_slice()),
        }
    }
}
