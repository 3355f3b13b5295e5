//! The laws of the passes in their order. The function here runs nothing; its contract is the law.
ghost use Rattle.std.specs.Prelude.{◌≡◌, ◌↔◌, ℕ, List, take, Some, slice_get};
ghost use Rattle.mir_syntax.specs.declared.stage.Stage.{Stage};
ghost use Rattle.mir_syntax.specs.declared.stage.Stage.TheVariants as at;
ghost use Rattle.mir_syntax.specs.Crate.{TypedBody, TypedFunction, Crate};
ghost use Rattle.mir_syntax.specs.Shapes.{Shape, shapes_of};
ghost use Rattle.mir_semantics.specs.Refines.{Refines};
ghost use Rattle.mir_rules.specs.Calls.{AddsNoCall};
ghost use Rattle.mir_rules.specs.Drops.{NoDrops};
ghost use Rattle.mir_rules.specs.Valid.{Valid, Within, at_function};
ghost use Rattle.cfg_simplify.specs.Simple.{simple};
ghost use Rattle.dead_store.specs.Pruned.{IsPruned};
ghost use Rattle.trim_locals.specs.Trimmed.{trimmed};
ghost use Rattle.pass_order.specs.Passes.{passes, after, after_passes, optimised};
ghost use Rattle.pass_order.specs.Stages.{at_stage};

/// A valid crate within the limits stays valid with each of its bodies after the passes, each of which calls only what it called; and where none
/// of its bodies holds a `drop`, it is refined.
pub fn optimised_refines()
    ensures refines { (C : Crate) → Valid C → Within C → ((f : ℕ) (g : TypedFunction) → slice_get C.functions f ≡ Some g → NoDrops g.body) → Refines (optimised C) C }
    ensures valid { (C : Crate) → Valid C → Within C → Valid (optimised C) }
    ensures calls { (C : Crate) → Valid C → Within C → (f : ℕ) (g : TypedFunction) → slice_get C.functions f ≡ Some g → AddsNoCall (after_passes (shapes_of C) g.body) g.body }
{}

/// A valid crate within the limits stays valid with the body of a function as it is at a stage, and where that body held no `drop`, it is refined.
/// At the first stage a body is as it was read, and at the last it went through all passes.
pub fn staged_refines()
    ensures refines { (C : Crate) → Valid C → Within C → (f : ℕ) (g : TypedFunction) → slice_get C.functions f ≡ Some g → NoDrops g.body → (stage : Stage) (b : TypedBody) → at_stage stage (shapes_of C) g.body ≡ Some b → Refines (at_function C f g b) C }
    ensures valid { (C : Crate) → Valid C → Within C → (f : ℕ) (g : TypedFunction) → slice_get C.functions f ≡ Some g → (stage : Stage) (b : TypedBody) → at_stage stage (shapes_of C) g.body ≡ Some b → Valid (at_function C f g b) }
    ensures first { (D : List Shape) (b : TypedBody) → at_stage at.Built D b ≡ Some b }
    ensures last { (D : List Shape) (b : TypedBody) → at_stage at.Optimised D b ≡ Some (after_passes D b) }
{}

/// A body has one result: after the passes before pruning it is pruned by the definition of paths, cleaned again and trimmed.
pub fn one_result()
    ensures { (D : List Shape) (b c : TypedBody) → ((left : TypedBody) × IsPruned D (after (take 7 passes) D b) left × (c ≡ trimmed (simple left))) ↔ c ≡ after_passes D b }
{}
