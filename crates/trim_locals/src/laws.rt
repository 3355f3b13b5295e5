//! The laws of the pass. Each function runs nothing, and its contract is the law.
ghost use Rattle.std.specs.Prelude.{◌≡◌, ℕ, Some, slice_get};
ghost use Rattle.mir_syntax.specs.Crate.{TypedBody, TypedFunction, Crate};
ghost use Rattle.mir_semantics.specs.Refines.{Refines};
ghost use Rattle.mir_rules.specs.Calls.{AddsNoCall};
ghost use Rattle.mir_rules.specs.Drops.{NoDrops};
ghost use Rattle.mir_rules.specs.Valid.{Valid, at_function, ValidAt};
ghost use Rattle.trim_locals.specs.Trimmed.{trimmed as trimmed_body};

/// A valid crate in which one body is trimmed refines the crate; so does a crate with a trimmed body in place of one that is valid there. Any
/// body may hold `drop`.
pub fn trimmed_refines()
    ensures of_a_crate { (C : Crate) → Valid C → (f : ℕ) (g : TypedFunction) → slice_get C.functions f ≡ Some g → Refines (at_function C f g (trimmed_body g.body)) C }
    ensures in_its_place { (C : Crate) (f : ℕ) (b : TypedBody) (valid : ValidAt C f b) → Refines (at_function C f valid.function (trimmed_body b)) (at_function C f valid.function b) }
{}

/// In the place of a valid body the trimmed body is valid. It holds no `drop` where the body holds none, and calls only what the body calls.
pub fn trimmed_stays_valid()
    ensures valid { (C : Crate) (f : ℕ) (b : TypedBody) → ValidAt C f b → ValidAt C f (trimmed_body b) }
    ensures no_drops { (b : TypedBody) → NoDrops b → NoDrops (trimmed_body b) }
    ensures calls { (b : TypedBody) → AddsNoCall (trimmed_body b) b }
{}
