//! The laws of the pass. The functions here run nothing; their contracts are the laws.
ghost use Rattle.std.specs.Prelude.{◌≡◌, ℕ, List, Some, slice_get};
ghost use Rattle.mir_syntax.specs.Crate.{TypedBody, TypedFunction, Crate};
ghost use Rattle.mir_syntax.specs.Shapes.{Shape, shapes_of};
ghost use Rattle.mir_semantics.specs.Refines.{Refines};
ghost use Rattle.mir_rules.specs.Calls.{AddsNoCall};
ghost use Rattle.mir_rules.specs.Drops.{NoDrops};
ghost use Rattle.mir_rules.specs.Valid.{Valid, at_function, ValidAt};
ghost use Rattle.dest_prop.specs.Merged.{merged};

/// A valid crate in which one body that holds no `drop` has its locals merged refines the crate; so does a crate with a merged body in place
/// of one that is valid there.
pub fn merged_refines()
    ensures of_a_crate { (C : Crate) → Valid C → (f : ℕ) (g : TypedFunction) → slice_get C.functions f ≡ Some g → NoDrops g.body → Refines (at_function C f g (merged (shapes_of C) g.body)) C }
    ensures in_its_place { (C : Crate) (f : ℕ) (b : TypedBody) (valid : ValidAt C f b) → NoDrops b → Refines (at_function C f valid.function (merged (shapes_of (at_function C f valid.function b)) b)) (at_function C f valid.function b) }
{}

/// In the place of a valid body the merged body is valid. It holds no `drop` where the body holds none, and calls only what the body calls.
pub fn merged_stays_valid()
    ensures valid { (C : Crate) (f : ℕ) (b : TypedBody) (valid : ValidAt C f b) → ValidAt C f (merged (shapes_of (at_function C f valid.function b)) b) }
    ensures no_drops { (D : List Shape) (b : TypedBody) → NoDrops b → NoDrops (merged D b) }
    ensures calls { (D : List Shape) (b : TypedBody) → AddsNoCall (merged D b) b }
{}
