//! The laws of the pass. The functions here run nothing; their contracts are the laws.
ghost use Rattle.std.specs.Prelude.{◌≡◌, ◌↔◌, ℕ, ◌≤◌, ◌++◌, List, length, Some, slice_get};
ghost use Rattle.mir_syntax.specs.declared.body.Body.{Body};
ghost use Rattle.mir_syntax.specs.declared.program.Program.{Program};
ghost use Rattle.mir_syntax.specs.Tree.{Tree, trees_of};
ghost use Rattle.mir_syntax.specs.Crate.{TypedBody, TypedFunction, Crate, body_of, crate_of};
ghost use Rattle.mir_syntax.specs.Shapes.{Shape, shapes_of};
ghost use Rattle.mir_semantics.specs.Refines.{Refines};
ghost use Rattle.mir_rules.specs.Drops.{NoDrops};
ghost use Rattle.mir_rules.specs.Limits.{most_in_body, blocks_count, locals_count};
ghost use Rattle.mir_rules.specs.Valid.{Valid, Within, at_function, ValidAt, Elaborable};
ghost use Rattle.drop_elab.specs.Destructors.{AddsDestructors};
ghost use Rattle.drop_elab.specs.Elab.{IsElab};
ghost use Rattle.drop_elab.specs.Elaborated.{elaborated};
ghost use Rattle.drop_elab.specs.Tupled.{TypesTupled, FewVariants};

/// A body has at most one elaborated body.
pub fn elab_is_one()
    ensures { (D : List Shape) (b x y : TypedBody) → IsElab D b x → IsElab D b y → x ≡ y }
{}

/// The elaborated body is computed (`elaborated`): tests of paths make its rows.
pub fn elaboration_is_decided()
    ensures { (D : List Shape) (b e : TypedBody) → IsElab D b e ↔ e ≡ elaborated D b }
{}

/// The elaborated body holds no `drop`. It has the arguments and the locals of the body, and its new locals behind them.
pub fn elab_leaves_no_drop()
    ensures no_drops { (D : List Shape) (b e : TypedBody) → IsElab D b e → NoDrops e }
    ensures args { (D : List Shape) (b e : TypedBody) → IsElab D b e → e.args ≡ b.args }
    ensures locals { (D : List Shape) (b e : TypedBody) → IsElab D b e → (others : List Tree) × (e.locals ≡ b.locals ++ others) }
{}

/// A valid crate in which one body is elaborated refines the crate; so does a crate with an elaborated body in place of one that is valid there.
/// Any body may hold `drop`. What is asked of types, all have that a table of types stands behind (`types_are_tupled`), within the limits
/// (`enums_have_few_variants`).
pub fn elab_refines()
    ensures of_a_crate { (C : Crate) → Valid C → (f : ℕ) (g : TypedFunction) → slice_get C.functions f ≡ Some g → TypesTupled (shapes_of C) g.body → FewVariants (shapes_of C) → (e : TypedBody) → IsElab (shapes_of C) g.body e → Refines (at_function C f g e) C }
    ensures in_its_place { (C : Crate) (f : ℕ) (b : TypedBody) (valid : ValidAt C f b) → TypesTupled (shapes_of (at_function C f valid.function b)) b → FewVariants (shapes_of (at_function C f valid.function b)) → (e : TypedBody) → IsElab (shapes_of (at_function C f valid.function b)) b e → Refines (at_function C f valid.function e) (at_function C f valid.function b) }
{}

/// A valid crate in which one body is elaborated is valid. In the place of a valid body the elaborated body is valid where it has no more blocks
/// and locals than a body may have, as where the body's drops are few enough. It calls only what the body calls, and destructors of what the
/// body drops.
pub fn elab_stays_valid()
    ensures of_a_crate { (C : Crate) → Valid C → (f : ℕ) (g : TypedFunction) → slice_get C.functions f ≡ Some g → TypesTupled (shapes_of C) g.body → FewVariants (shapes_of C) → (e : TypedBody) → IsElab (shapes_of C) g.body e → Valid (at_function C f g e) }
    ensures in_its_place { (C : Crate) (f : ℕ) (b : TypedBody) (valid : ValidAt C f b) → TypesTupled (shapes_of (at_function C f valid.function b)) b → FewVariants (shapes_of (at_function C f valid.function b)) → (e : TypedBody) → IsElab (shapes_of (at_function C f valid.function b)) b e → length e.blocks ≤ most_in_body → length e.locals ≤ most_in_body → ValidAt C f e }
    ensures of_few_drops { (C : Crate) → Valid C → (f : ℕ) (g : TypedFunction) → slice_get C.functions f ≡ Some g → TypesTupled (shapes_of C) g.body → FewVariants (shapes_of C) → Elaborable C g.body → (e : TypedBody) → IsElab (shapes_of C) g.body e → ValidAt C f e }
    ensures calls { (C : Crate) (f : ℕ) (b : TypedBody) (valid : ValidAt C f b) → TypesTupled (shapes_of (at_function C f valid.function b)) b → (e : TypedBody) → IsElab (shapes_of (at_function C f valid.function b)) b e → AddsDestructors (shapes_of (at_function C f valid.function b)) e b }
{}

/// The elaborated body has no more blocks and locals than are counted of the body with the weights of its drops.
pub fn elab_is_counted()
    ensures blocks { (C : Crate) → Valid C → (f : ℕ) (g : TypedFunction) → slice_get C.functions f ≡ Some g → TypesTupled (shapes_of C) g.body → (e : TypedBody) → IsElab (shapes_of C) g.body e → length e.blocks ≤ blocks_count (shapes_of C) g.body }
    ensures locals { (C : Crate) → Valid C → (f : ℕ) (g : TypedFunction) → slice_get C.functions f ≡ Some g → TypesTupled (shapes_of C) g.body → (e : TypedBody) → IsElab (shapes_of C) g.body e → length e.locals ≤ locals_count (shapes_of C) g.body }
{}

/// In a crate with the definitions of a program, and in a body that is read through the program's table of types, what is left of a tuple is one.
pub fn types_are_tupled()
    ensures { (program : Program) (C : Crate) (b : Body) → C.defs ≡ (crate_of program).defs → TypesTupled (shapes_of C) (body_of (trees_of program.types) b) }
{}

/// In a crate with the definitions of one that is within the limits, enums have few variants.
pub fn enums_have_few_variants()
    ensures { (C D : Crate) → Valid C → Within C → D.defs ≡ C.defs → FewVariants (shapes_of D) }
{}
