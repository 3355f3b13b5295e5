ghost use Rattle.std.specs.Prelude.{◌≡◌, ◌&&◌, ◌||◌, not, false, IsTrue};
ghost use Rattle.std.specs.List.{list_all};
ghost use Rattle.mir_syntax.specs.Shapes.{place_ty};
ghost use Rattle.mir_syntax.specs.Parts.{is_direct, path_formed, operand_whole, rvalue_whole};
ghost use Rattle.mir_rules.specs.BodyRules.{some_needs_drop, moves_through_destructor, moves_needing_indirectly, breaks_v21, breaks_v22};
ghost use Rattle.mir_validate.specs.Inside.{shapes, local_types};
ghost use Rattle.mir_validate.specs.Codes.{rvalue_any, moves_code};

use crate::inside::Inside;
use mir_syntax::{Operand, Place, Rvalue};

/// What moves break: one goes through a field of a type with a destructor, or one of a type that needs drop has a dereference or a
/// downcast.
#[derive(Clone, Copy, Debug, Drop)]
pub struct Moves {
    pub through: bool,
    pub indirectly: bool,
}

impl Moves {
    /// Nothing is broken.
    pub fn none() -> Moves
        ensures through { result.through ≡ false }
        ensures indirectly { result.indirectly ≡ false }
    {
        Moves {
            through: false,
            indirectly: false,
        }
    }

    /// What either breaks.
    pub fn or(self, other: Moves) -> Moves
        ensures through { result.through ≡ (self.through || other.through) }
        ensures indirectly { result.indirectly ≡ (self.indirectly || other.indirectly) }
    {
        Moves {
            through: self.through || other.through,
            indirectly: self.indirectly || other.indirectly,
        }
    }

    /// The code of the rule that is broken.
    pub fn code(self) -> Option<u8>
        ensures { result ≡ moves_code self.through self.indirectly }
    {
        if self.through {
            Some(21)
        } else if self.indirectly {
            Some(22)
        } else {
            None
        }
    }
}

impl Inside<'_> {
    fn needs_drop_indirectly(&self, place: &Place) -> bool
        requires formed { IsTrue (path_formed place.now.proj) }
        ensures { result ≡ (not (is_direct place.now.proj) && some_needs_drop (shapes self.now.program.now) (place_ty (shapes self.now.program.now) (local_types self.now.program.now self.now.body.now) place.now)) }
    {
        if place.is_direct() {
            return false;
        }
        match self.place_ty(place) {
            Some(id) => self.program.needs_drop(id),
            None => false,
        }
    }

    /// What an operand breaks if it is a move.
    pub fn operand_moves(&self, operand: &Operand) -> Moves
        requires formed { IsTrue (operand_whole operand.now) }
        ensures through { result.through ≡ moves_through_destructor (shapes self.now.program.now) (local_types self.now.program.now self.now.body.now) operand.now }
        ensures indirectly { result.indirectly ≡ moves_needing_indirectly (shapes self.now.program.now) (local_types self.now.program.now self.now.body.now) operand.now }
    {
        match operand {
            Operand::Move(place) => Moves {
                through: self.program.goes_through_destructor(self.body, place),
                indirectly: self.needs_drop_indirectly(place),
            },
            Operand::Copy(_) => Moves::none(),
            Operand::Const(_) => Moves::none(),
        }
    }

    /// What the moves among operands break.
    pub fn moves(&self, operands: &[Operand]) -> Moves
        requires formed { IsTrue (list_all operand_whole operands.now) }
        ensures through { result.through ≡ breaks_v21 (shapes self.now.program.now) (local_types self.now.program.now self.now.body.now) operands.now }
        ensures indirectly { result.indirectly ≡ breaks_v22 (shapes self.now.program.now) (local_types self.now.program.now self.now.body.now) operands.now }
    {
        let mut found = Moves::none();
        let mut rest = operands;
        'operands: while let [operand, others @ ..] = rest {
            found = found.or(self.operand_moves(operand));
            rest = others;
        }
        found
    }

    /// What the moves in an rvalue break.
    pub fn value_moves(&self, value: &Rvalue) -> Moves
        requires formed { IsTrue (rvalue_whole value.now) }
        ensures through { result.through ≡ rvalue_any (moves_through_destructor (shapes self.now.program.now) (local_types self.now.program.now self.now.body.now)) value.now }
        ensures indirectly { result.indirectly ≡ rvalue_any (moves_needing_indirectly (shapes self.now.program.now) (local_types self.now.program.now self.now.body.now)) value.now }
    {
        match value {
            Rvalue::Use(a) | Rvalue::Unary(_, a) | Rvalue::Cast(a, _) => self.operand_moves(a),
            Rvalue::Binary(_, a, b) | Rvalue::Overflow(_, a, b) => {
                self.operand_moves(a).or(self.operand_moves(b))
            }
            Rvalue::Ref(_) | Rvalue::RefMut(_) | Rvalue::Discriminant(_) => Moves::none(),
            Rvalue::Tuple(parts) | Rvalue::Build(_, _, parts) => self.moves(parts.as_slice()),
        }
    }
}
