//! The laws of the pass. The functions here run nothing; their contracts are the laws.
ghost use Rattle.std.specs.Prelude.{◌≡◌, ◌↔◌, ℕ, List, Some, slice_get};
ghost use Rattle.mir_syntax.specs.Crate.{TypedBody, TypedFunction, Crate};
ghost use Rattle.mir_syntax.specs.Shapes.{Shape, shapes_of};
ghost use Rattle.mir_semantics.specs.Refines.{Refines};
ghost use Rattle.mir_rules.specs.Calls.{AddsNoCall};
ghost use Rattle.mir_rules.specs.Drops.{NoDrops};
ghost use Rattle.mir_rules.specs.Valid.{Valid, at_function, ValidAt};
ghost use Rattle.dead_store.specs.Pruned.{IsPruned, pruned};

/// A body has one pruned body: that of the function `pruned`.
pub fn one_body_is_pruned()
    ensures { (D : List Shape) (b c : TypedBody) → IsPruned D b c ↔ c ≡ pruned D b }
{}

/// A valid crate in which one body that holds no `drop` is pruned refines the crate; so does a crate with a pruned body in place of one that
/// is valid there.
pub fn pruned_refines()
    ensures of_a_crate { (C : Crate) → Valid C → (f : ℕ) (g : TypedFunction) → slice_get C.functions f ≡ Some g → NoDrops g.body → (b : TypedBody) → IsPruned (shapes_of C) g.body b → Refines (at_function C f g b) C }
    ensures in_its_place { (C : Crate) (f : ℕ) (b : TypedBody) (valid : ValidAt C f b) → NoDrops b → (b2 : TypedBody) → IsPruned (shapes_of (at_function C f valid.function b)) b b2 → Refines (at_function C f valid.function b2) (at_function C f valid.function b) }
{}

/// In the place of a valid body the pruned body is valid. It holds no `drop` where the body holds none, and calls only what the body calls.
pub fn pruned_stays_valid()
    ensures valid { (C : Crate) (f : ℕ) (b : TypedBody) (valid : ValidAt C f b) → (b2 : TypedBody) → IsPruned (shapes_of (at_function C f valid.function b)) b b2 → ValidAt C f b2 }
    ensures no_drops { (D : List Shape) (b b2 : TypedBody) → IsPruned D b b2 → NoDrops b → NoDrops b2 }
    ensures calls { (D : List Shape) (b b2 : TypedBody) → IsPruned D b b2 → AddsNoCall b2 b }
{}
