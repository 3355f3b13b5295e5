//! The rules that a crate of MIR bodies keeps, as definitions and laws: what stands here has no code.
//!
//! - `specs/Typing.antt`: the types of operands and rvalues, and what operators, casts and builds make of types.
//! - `specs/Formed.antt`: formed crates, in which every number lies in its list.
//! - `specs/DefinitionRules.antt`, `specs/BodyRules.antt`: the rules V01 to V25, one definition each; V07 is about written types and stands
//!   in `specs/Faults.antt`.
//! - `specs/Broken.antt`: all that breaks a rule, each with its spot.
//! - `specs/Weights.antt`, `specs/Limits.antt`: the size and drop weight of types, and all that passes one of the limits L02 to L06.
//! - `specs/Faults.antt`: the one fault that is answered, by lines.
//! - `specs/Valid.antt`: valid crates, crates within the limits, bodies that are valid in a crate; `specs/Accepted.antt`: accepted texts.
//!
//! The functions below are laws: their bodies are empty and their contracts say what holds of the definitions. The lemmas behind them, and
//! what a valid crate gives at each place, stand in `proofs/`. `docs/rules.md` states the rules in prose.
#![tactic(auto)]

ghost use Rattle.std.specs.Prelude.{◌≡◌, ◌↔◌, ℕ, ◌<◌, IsTrue, List, [], length, Some, slice_get};
ghost use Rattle.mir_syntax.specs.declared.body.Place.{Place};
ghost use Rattle.mir_syntax.specs.Tree.{Tree};
ghost use Rattle.mir_syntax.specs.Crate.{TypedRvalue, assign, TypedBlock, TypedFunction, Crate};
ghost use Rattle.mir_syntax.specs.Shapes.{Shape, place_ty};
ghost use Rattle.mir_rules.specs.Same.{same_tree};
ghost use Rattle.mir_syntax.specs.Parts.{targets};
ghost use Rattle.mir_rules.specs.Typing.{rvalue_ty};
ghost use Rattle.mir_rules.specs.Broken.{statement_broken};
ghost use Rattle.mir_rules.specs.Valid.{Valid};

/// The test of two types is their equality.
pub fn same_type_is_equality()
    ensures { (t u : Tree) → IsTrue (same_tree t u) ↔ (t ≡ u) }
{}

/// In an assignment that breaks no rule the place and the rvalue have one type.
pub fn assignments_are_typed()
    ensures { (D : List Shape) (args : ℕ) (locals : List Tree) (p : Place) (r : TypedRvalue) → statement_broken D args locals (assign p r) ≡ [] → (t : Tree) × (place_ty D locals p ≡ Some t) × (rvalue_ty D locals r ≡ Some t) }
{}

/// In a valid crate each terminator goes to blocks of its body, and none to bb0.
pub fn terminators_stay_inside()
    ensures { (C : Crate) → Valid C → (f j i n : ℕ) (g : TypedFunction) (k : TypedBlock) → slice_get C.functions f ≡ Some g → slice_get g.body.blocks j ≡ Some k → slice_get (targets k.term) i ≡ Some n → (0 < n) × (n < length g.body.blocks) }
{}
