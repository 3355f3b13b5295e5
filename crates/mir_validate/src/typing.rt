ghost use Rattle.std.specs.Prelude.{◌≡◌, ℕ, ◌<◌, ◌&&◌, List, IsTrue, IfSome, length, map, option_map};
ghost use Rattle.std.specs.List.{list_all};
ghost use Rattle.mir_syntax.specs.Tree.{Tree, at_id, at_ids, trees_of};
ghost use Rattle.mir_syntax.specs.Tree as tree;
ghost use Rattle.mir_syntax.specs.Shapes.{place_ty};
ghost use Rattle.mir_syntax.specs.Parts.{path_formed, operand_whole};
ghost use Rattle.mir_rules.specs.Typing.{kind_of, takes, made_by, is_int, const_ty, operand_ty, binary_ty, overflow_ty, unary_ty, cast_ty, discriminant_ty};
ghost use Rattle.mir_validate.specs.Inside.{shapes, local_types, seen_tree, seen_below};

use crate::inside::{Inside, same_scalar};
use crate::seen::Seen;
use mir_num::signed;
use mir_syntax::{BinOp, Const, Operand, Place, ScalarTy, Ty, TyId, UnOp};

fn is_int(ty: ScalarTy) -> bool
    ensures { result ≡ is_int ty }
{
    match ty {
        ScalarTy::Bool => false,
        ScalarTy::Int(_) => true,
    }
}

/// Whether a binary operator takes operands of the two types (Rust Reference, operator expressions).
fn takes(op: BinOp, a: ScalarTy, b: ScalarTy) -> bool
    ensures { result ≡ takes (kind_of op) a b }
{
    match op {
        BinOp::Shl | BinOp::Shr => is_int(a) && is_int(b),
        BinOp::BitXor | BinOp::BitAnd | BinOp::BitOr => same_scalar(a, b),
        BinOp::Eq | BinOp::Ne | BinOp::Lt | BinOp::Le | BinOp::Gt | BinOp::Ge => same_scalar(a, b),
        _ => is_int(a) && same_scalar(a, b),
    }
}

/// The type of what a binary operator makes.
fn made_by(op: BinOp, a: ScalarTy) -> ScalarTy
    ensures { tree.scalar result ≡ made_by (kind_of op) a }
{
    match op {
        BinOp::Eq | BinOp::Ne | BinOp::Lt | BinOp::Le | BinOp::Gt | BinOp::Ge => ScalarTy::Bool,
        _ => a,
    }
}

/// The type of a constant.
fn const_ty(value: Const) -> Seen
    ensures ty { (trees : List Tree) → seen_tree trees result ≡ const_ty value }
    ensures in_table { (n : ℕ) → IsTrue (seen_below n result) }
{
    match value {
        Const::Int(ty, _) => Seen::Scalar(ScalarTy::Int(ty)),
        Const::Bool(_) => Seen::Scalar(ScalarTy::Bool),
        Const::Unit => Seen::Unit,
    }
}

impl Inside<'_> {
    fn seen_at(&self, place: &Place) -> Option<Seen>
        requires formed { IsTrue (path_formed place.now.proj) }
        ensures ty { option_map (seen_tree (trees_of self.now.program.now.types)) result
            ≡ place_ty (shapes self.now.program.now) (local_types self.now.program.now self.now.body.now) place.now }
        ensures in_table { IfSome result (λ seen. IsTrue (seen_below (length self.now.program.now.types) seen)) }
    {
        match self.place_ty(place) {
            Some(id) => Some(Seen::InTable(id)),
            None => None,
        }
    }

    /// The type of an operand. `None` exactly where a projection doesn't fit.
    #[tactic(auto, unfolding(mir_rules::specs::Typing::operand_ty))]
    pub fn operand_ty(&self, operand: &Operand) -> Option<Seen>
        requires formed { IsTrue (operand_whole operand.now) }
        ensures ty { option_map (seen_tree (trees_of self.now.program.now.types)) result
            ≡ operand_ty (shapes self.now.program.now) (local_types self.now.program.now self.now.body.now) operand.now }
        ensures in_table { IfSome result (λ seen. IsTrue (seen_below (length self.now.program.now.types) seen)) }
    {
        match operand {
            Operand::Copy(place) => self.seen_at(place),
            Operand::Move(place) => self.seen_at(place),
            Operand::Const(value) => Some(const_ty(*value)),
        }
    }

    /// What a binary operator makes of operands of two types. `None` exactly where it doesn't take them.
    pub fn binary_ty(&self, op: BinOp, a: Seen, b: Seen) -> Option<Seen>
        requires left { IsTrue (seen_below (length self.now.program.now.types) a) }
        requires right { IsTrue (seen_below (length self.now.program.now.types) b) }
        ensures ty { option_map (seen_tree (trees_of self.now.program.now.types)) result
            ≡ binary_ty op (seen_tree (trees_of self.now.program.now.types) a) (seen_tree (trees_of self.now.program.now.types) b) }
        ensures in_table { IfSome result (λ seen. IsTrue (seen_below (length self.now.program.now.types) seen)) }
    {
        match (self.scalar(a), self.scalar(b)) {
            (Some(a), Some(b)) if takes(op, a, b) => Some(Seen::Scalar(made_by(op, a))),
            _ => None,
        }
    }

    /// What an operator with a flag makes of operands of two types.
    pub fn overflow_ty(&self, a: Seen, b: Seen) -> Option<Seen>
        requires left { IsTrue (seen_below (length self.now.program.now.types) a) }
        requires right { IsTrue (seen_below (length self.now.program.now.types) b) }
        ensures ty { option_map (seen_tree (trees_of self.now.program.now.types)) result
            ≡ overflow_ty (seen_tree (trees_of self.now.program.now.types) a) (seen_tree (trees_of self.now.program.now.types) b) }
        ensures in_table { IfSome result (λ seen. IsTrue (seen_below (length self.now.program.now.types) seen)) }
    {
        match (self.scalar(a), self.scalar(b)) {
            (Some(a), Some(b)) if is_int(a) && same_scalar(a, b) => Some(Seen::WithFlag(a)),
            _ => None,
        }
    }

    /// What an operator of one operand makes of its type.
    pub fn unary_ty(&self, op: UnOp, a: Seen) -> Option<Seen>
        requires in_table { IsTrue (seen_below (length self.now.program.now.types) a) }
        ensures ty { option_map (seen_tree (trees_of self.now.program.now.types)) result
            ≡ unary_ty op (seen_tree (trees_of self.now.program.now.types) a) }
        ensures in_table { IfSome result (λ seen. IsTrue (seen_below (length self.now.program.now.types) seen)) }
    {
        match (op, self.scalar(a)) {
            (UnOp::Not, Some(scalar)) => Some(Seen::Scalar(scalar)),
            (UnOp::Neg, Some(scalar)) if signed(scalar) => Some(Seen::Scalar(scalar)),
            _ => None,
        }
    }

    /// What a cast to a type makes of an operand's type.
    pub fn cast_ty(&self, a: Seen, to: TyId) -> Option<Seen>
        requires in_table { IsTrue (seen_below (length self.now.program.now.types) a) }
        requires to_in_table { to.0 < length self.now.program.now.types }
        ensures ty { option_map (seen_tree (trees_of self.now.program.now.types)) result
            ≡ cast_ty (at_id (trees_of self.now.program.now.types) to) (seen_tree (trees_of self.now.program.now.types) a) }
        ensures in_table { IfSome result (λ seen. IsTrue (seen_below (length self.now.program.now.types) seen)) }
    {
        let _from = self.scalar(a)?;
        let scalar = self.scalar(Seen::InTable(to))?;
        if is_int(scalar) {
            Some(Seen::InTable(to))
        } else {
            None
        }
    }
}
