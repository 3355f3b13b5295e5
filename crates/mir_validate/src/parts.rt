ghost use Rattle.std.specs.Prelude.{◌≡◌, ◌<◌, IsTrue, length, map};
ghost use Rattle.std.specs.List.{list_all, list_any};
ghost use Rattle.mir_syntax.specs.Tree.{at_id, trees_of};
ghost use Rattle.mir_syntax.specs.Table.{all_below};
ghost use Rattle.mir_syntax.specs.Ids.{field_below};
ghost use Rattle.mir_syntax.specs.Parts.{path_formed, operand_whole};
ghost use Rattle.mir_rules.specs.Typing.{operand_ty};
ghost use Rattle.mir_validate.specs.Inside.{shapes, local_types};
ghost use Rattle.mir_validate.specs.Codes.{place_untyped, operand_untyped, has_type, have_types, field_tree};

use crate::inside::Inside;
use mir_syntax::{Field, Operand, Place, TyId};

impl Inside<'_> {
    /// Whether a projection of a place doesn't fit.
    pub fn place_untyped(&self, place: &Place) -> bool
        requires formed { IsTrue (path_formed place.now.proj) }
        ensures { result ≡ place_untyped (shapes self.now.program.now) (local_types self.now.program.now self.now.body.now) place.now }
    {
        self.place_ty(place).is_none()
    }

    /// Whether a projection in an operand doesn't fit its place.
    pub fn operand_untyped(&self, operand: &Operand) -> bool
        requires formed { IsTrue (operand_whole operand.now) }
        ensures { result ≡ operand_untyped (shapes self.now.program.now) (local_types self.now.program.now self.now.body.now) operand.now }
    {
        self.operand_ty(operand).is_none()
    }

    /// Whether a projection in an operand doesn't fit its place.
    pub fn operands_untyped(&self, operands: &[Operand]) -> bool
        requires formed { IsTrue (list_all operand_whole operands.now) }
        ensures { result ≡ list_any (operand_untyped (shapes self.now.program.now) (local_types self.now.program.now self.now.body.now)) operands.now }
    {
        let mut rest = operands;
        'operands: while let [operand, others @ ..] = rest {
            if self.operand_untyped(operand) {
                return true;
            }
            rest = others;
        }
        false
    }

    /// Whether an operand has the type of the id.
    pub fn has_type(&self, operand: &Operand, id: TyId) -> bool
        requires formed { IsTrue (operand_whole operand.now) }
        requires in_table { id.0 < length self.now.program.now.types }
        ensures { result ≡ has_type (operand_ty (shapes self.now.program.now) (local_types self.now.program.now self.now.body.now) operand.now) (at_id (trees_of self.now.program.now.types) id) }
    {
        match self.operand_ty(operand) {
            Some(seen) => self.is(seen, id),
            None => false,
        }
    }

    /// Whether operands have the types of the ids, one after another.
    pub fn have_types(&self, operands: &[Operand], ids: &[TyId]) -> bool
        requires formed { IsTrue (list_all operand_whole operands.now) }
        requires in_table { IsTrue (all_below (length self.now.program.now.types) ids.now) }
        ensures { result ≡ have_types (shapes self.now.program.now) (local_types self.now.program.now self.now.body.now) operands.now (map (at_id (trees_of self.now.program.now.types)) ids.now) }
    {
        let mut rest = operands;
        let mut left = ids;
        'operands: while let [operand, others @ ..] = rest {
            let [id, later @ ..] = left else {
                return false;
            };
            if !self.has_type(operand, *id) {
                return false;
            }
            rest = others;
            left = later;
        }
        left.is_empty()
    }

    /// Whether operands have the types of the fields, one after another.
    pub fn have_field_types(&self, operands: &[Operand], fields: &[Field]) -> bool
        requires formed { IsTrue (list_all operand_whole operands.now) }
        requires in_table { IsTrue (list_all (field_below (length self.now.program.now.types)) fields.now) }
        ensures { result ≡ have_types (shapes self.now.program.now) (local_types self.now.program.now self.now.body.now) operands.now (map (field_tree (trees_of self.now.program.now.types)) fields.now) }
    {
        let mut rest = operands;
        let mut left = fields;
        'operands: while let [operand, others @ ..] = rest {
            let [field, later @ ..] = left else {
                return false;
            };
            if !self.has_type(operand, field.ty) {
                return false;
            }
            rest = others;
            left = later;
        }
        left.is_empty()
    }
}
