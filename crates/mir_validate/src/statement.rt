ghost use Rattle.std.specs.Prelude.{◌≡◌, ◌<◌, IsTrue, false, length, option_map};
ghost use Rattle.std.specs.List.{list_all};
ghost use Rattle.mir_syntax.specs.Tree.{at_id, trees_of};
ghost use Rattle.mir_syntax.specs.Ids.{rvalue_below, stmt_below};
ghost use Rattle.mir_syntax.specs.Crate.{rvalue_of, stmt_of, assign, set_discriminant};
ghost use Rattle.mir_syntax.specs.Parts.{path_formed, operand_whole, rvalue_whole, stmt_whole};
ghost use Rattle.mir_rules.specs.Typing.{operands_ty, enum_of};
ghost use Rattle.mir_rules.specs.Broken.{statement_broken};
ghost use Rattle.mir_validate.specs.Inside.{shapes, local_types};
ghost use Rattle.mir_validate.specs.Codes.{parts_untyped, has_type, own_rule, value_broken, variant_count, first_code};

use crate::inside::Inside;
use mir_syntax::{Operand, Place, Rvalue, Stmt, Ty, TyId};

/// The rule that an rvalue breaks which has no type although its operands have.
fn own_rule(value: &Rvalue) -> u8
    ensures { result ≡ own_rule value.now }
{
    match value {
        Rvalue::Binary(_, _, _) | Rvalue::Overflow(_, _, _) => 9,
        Rvalue::Unary(_, _) => 10,
        Rvalue::Cast(_, _) => 11,
        Rvalue::Build(_, _, _) => 12,
        Rvalue::Discriminant(_) => 13,
        _ => 14,
    }
}

impl Inside<'_> {
    fn is_tuple_of(&self, parts: &[Operand], id: TyId) -> bool
        requires formed { IsTrue (list_all operand_whole parts.now) }
        requires in_table { id.0 < length self.now.program.now.types }
        ensures { result ≡ has_type (operands_ty (shapes self.now.program.now) (local_types self.now.program.now self.now.body.now) parts.now) (at_id (trees_of self.now.program.now.types) id) }
    {
        match self.program.ty(id) {
            Ty::Tuple(ids) => self.have_types(parts, ids.as_slice()),
            _ => false,
        }
    }

    /// The first rule that an rvalue breaks whose parts have types, as a value of a type.
    fn value_code(&self, value: &Rvalue, to: TyId) -> Option<u8>
        requires formed { IsTrue (rvalue_whole value.now) }
        requires below { IsTrue (rvalue_below (length self.now.program.now.types) value.now) }
        requires typed { parts_untyped (shapes self.now.program.now) (local_types self.now.program.now self.now.body.now) value.now ≡ false }
        requires in_table { to.0 < length self.now.program.now.types }
        ensures { result ≡ first_code (value_broken (shapes self.now.program.now) (local_types self.now.program.now self.now.body.now) (rvalue_of (trees_of self.now.program.now.types) value.now) (at_id (trees_of self.now.program.now.types) to)) }
    {
        if let Rvalue::Tuple(parts) = value {
            return if self.is_tuple_of(parts.as_slice(), to) {
                None
            } else {
                Some(14)
            };
        }
        match self.untupled_ty(value) {
            Some(seen) => { if self.is(seen, to) { None } else { Some(14) } }
            None => Some(own_rule(value)),
        }
    }

    fn assign_code(&self, place: &Place, value: &Rvalue) -> Option<u8>
        requires place_formed { IsTrue (path_formed place.now.proj) }
        requires formed { IsTrue (rvalue_whole value.now) }
        requires below { IsTrue (rvalue_below (length self.now.program.now.types) value.now) }
        ensures { result ≡ first_code (statement_broken (shapes self.now.program.now) self.now.body.now.args (local_types self.now.program.now self.now.body.now) (assign place.now (rvalue_of (trees_of self.now.program.now.types) value.now))) }
    {
        let Some(to) = self.place_ty(place) else {
            return Some(6);
        };
        if self.parts_untyped(value) {
            return Some(6);
        }
        match self.value_code(value, to) {
            Some(code) => Some(code),
            None => self.value_moves(value).code(),
        }
    }

    fn enum_variants(&self, id: TyId) -> Option<usize>
        requires in_table { id.0 < length self.now.program.now.types }
        ensures { result ≡ option_map variant_count (enum_of (shapes self.now.program.now) (at_id (trees_of self.now.program.now.types) id)) }
    {
        let Ty::Named(number) = self.program.ty(id) else {
            return None;
        };
        let def = self.program.defs.get(*number as usize)?;
        if def.is_enum {
            Some(def.variants.len())
        } else {
            None
        }
    }

    fn set_code(&self, place: &Place, variant: u32) -> Option<u8>
        requires formed { IsTrue (path_formed place.now.proj) }
        ensures { result ≡ first_code (statement_broken (shapes self.now.program.now) self.now.body.now.args (local_types self.now.program.now self.now.body.now) (set_discriminant place.now variant)) }
    {
        let Some(id) = self.place_ty(place) else {
            return Some(6);
        };
        let Some(variants) = self.enum_variants(id) else {
            return Some(24);
        };
        if self.program.needs_drop(id) {
            Some(24)
        } else if (variant as usize) < variants {
            None
        } else {
            Some(25)
        }
    }

    /// The first rule that a statement breaks.
    #[tactic(auto, unfolding(mir_rules::specs::Broken::statement_broken))]
    pub fn statement_code(&self, stmt: &Stmt) -> Option<u8>
        requires formed { IsTrue (stmt_whole stmt.now) }
        requires below { IsTrue (stmt_below (length self.now.program.now.types) stmt.now) }
        ensures { result ≡ first_code (statement_broken (shapes self.now.program.now) self.now.body.now.args (local_types self.now.program.now self.now.body.now) (stmt_of (trees_of self.now.program.now.types) stmt.now)) }
    {
        match stmt {
            Stmt::Assign(place, value) => self.assign_code(place, value),
            Stmt::SetDiscriminant(place, variant) => self.set_code(place, *variant),
            Stmt::StorageLive(local) | Stmt::StorageDead(local) => {
                if *local <= self.body.args {
                    Some(8)
                } else {
                    None
                }
            }
        }
    }
}
