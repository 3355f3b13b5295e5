//! The laws of the pass. The functions here run nothing; their contracts are the laws.
ghost use Rattle.std.specs.Prelude.{◌≡◌, ◌⊎◌, ◌<◌, ℕ, Bool, true, Option, Some, slice_get};
ghost use Rattle.mir_syntax.specs.declared.body.Callee.{Callee};
ghost use Rattle.mir_syntax.specs.Crate.{TypedBody, TypedFunction, Crate};
ghost use Rattle.mir_semantics.specs.Refines.{Refines};
ghost use Rattle.mir_rules.specs.Calls.{Calls};
ghost use Rattle.mir_rules.specs.Drops.{NoDrops};
ghost use Rattle.mir_rules.specs.Valid.{Valid, at_function, ValidAt};
ghost use Rattle.inline_pass.specs.Spliced.{spliced};
ghost use Rattle.call_graph.specs.Graph.{Graph, IsGraph, asks};
ghost use Rattle.inline_pass.specs.Lent.{DropFree, Lent};
ghost use Rattle.inline_pass.specs.Takes.{taken_of};

/// A valid crate without `drop` in which calls of one body are replaced refines the crate, where each body that is taken stands at its function;
/// so does such a crate with that body in place of one that is valid there.
pub fn spliced_refines()
    ensures of_a_crate { (C : Crate) → Valid C → (f : ℕ) (g : TypedFunction) → slice_get C.functions f ≡ Some g → (taken : ℕ → Option TypedBody) → Lent C f taken → DropFree C → Refines (at_function C f g (spliced taken g.body)) C }
    ensures in_its_place { (C : Crate) (f : ℕ) (b : TypedBody) (valid : ValidAt C f b) (taken : ℕ → Option TypedBody) → Lent (at_function C f valid.function b) f taken → DropFree (at_function C f valid.function b) → Refines (at_function C f valid.function (spliced taken b)) (at_function C f valid.function b) }
{}

/// In the place of a valid body the body in which calls are replaced is valid, where each body that is taken stands at its function. It holds no
/// `drop` where the body and those that are taken hold none, and calls only what one of them calls.
pub fn spliced_stays_valid()
    ensures valid { (C : Crate) (f : ℕ) (b : TypedBody) (valid : ValidAt C f b) (taken : ℕ → Option TypedBody) → Lent (at_function C f valid.function b) f taken → ValidAt C f (spliced taken b) }
    ensures no_drops { (taken : ℕ → Option TypedBody) (b : TypedBody) → NoDrops b → ((g : ℕ) (h : TypedBody) → taken g ≡ Some h → NoDrops h) → NoDrops (spliced taken b) }
    ensures calls { (taken : ℕ → Option TypedBody) (b : TypedBody) (c : Callee) → Calls (spliced taken b) c → Calls b c ⊎ ((g : ℕ) × (h : TypedBody) × (taken g ≡ Some h) × Calls h c) }
{}

/// Where a function asks for each body that is lent to it, and each stands at its function, those that are taken are bodies of others that stand
/// there, as the laws above ask: no function asks for itself.
pub fn asked_are_lent()
    ensures { (C : Crate) (G : Graph) (f : ℕ) → IsGraph G → f < G.functions → (large : Bool) (lent : ℕ → Option TypedBody) (qualifies : ℕ → Bool)
        → ((g : ℕ) (h : TypedBody) → lent g ≡ Some h → asks G f g ≡ true)
        → ((g : ℕ) (h : TypedBody) → lent g ≡ Some h → (n : TypedFunction) × (slice_get C.functions g ≡ Some n) × (n.body ≡ h))
        → Lent C f (taken_of C large lent qualifies) }
{}
