ghost use Rattle.std.specs.Prelude.{◌≡◌, ℕ, ◌≤◌, List, Some, slice_get};
ghost use Rattle.mir_syntax.specs.Crate.{TypedBody, TypedFunction, Crate};
ghost use Rattle.mir_syntax.specs.Shapes.{Shape};
ghost use Rattle.mir_semantics.specs.Refines.{Refines};
ghost use Rattle.mir_rules.specs.Calls.{AddsNoCall};
ghost use Rattle.mir_rules.specs.Drops.{NoDrops};
ghost use Rattle.mir_rules.specs.Limits.{blocks_count, locals_count};
ghost use Rattle.mir_rules.specs.Valid.{Valid, at_function, ValidAt};
ghost use Rattle.cfg_simplify.specs.Simple.{simple};

/// A valid crate in which the control flow of one body is cleaned refines the crate; so does a crate with a cleaned body in place of one
/// that is valid there. Any body may hold `drop`.
pub fn simple_refines()
    ensures of_a_crate { (C : Crate) → Valid C → (f : ℕ) (g : TypedFunction) → slice_get C.functions f ≡ Some g → Refines (at_function C f g (simple g.body)) C }
    ensures in_its_place { (C : Crate) (f : ℕ) (b : TypedBody) (valid : ValidAt C f b) → Refines (at_function C f valid.function (simple b)) (at_function C f valid.function b) }
{}

/// In the place of a valid body the cleaned body is valid, calls and drops nothing that the body doesn't, and has no more blocks and locals
/// as the limits count them.
pub fn simple_stays_valid()
    ensures valid { (C : Crate) (f : ℕ) (b : TypedBody) → ValidAt C f b → ValidAt C f (simple b) }
    ensures calls { (C : Crate) (f : ℕ) (b : TypedBody) → ValidAt C f b → AddsNoCall (simple b) b }
    ensures no_drops { (C : Crate) (f : ℕ) (b : TypedBody) → ValidAt C f b → NoDrops b → NoDrops (simple b) }
    ensures blocks { (D : List Shape) (C : Crate) (f : ℕ) (b : TypedBody) → ValidAt C f b → blocks_count D (simple b) ≤ blocks_count D b }
    ensures locals { (D : List Shape) (C : Crate) (f : ℕ) (b : TypedBody) → ValidAt C f b → locals_count D (simple b) ≤ locals_count D b }
{}
