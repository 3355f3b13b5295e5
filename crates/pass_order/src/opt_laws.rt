//! The laws of a crate with each body optimised. The functions here run nothing; their contracts are the laws. What they ask of a
//! crate's types, that of each program has (`bodies_are_tupled`).
ghost use Rattle.std.specs.Prelude.{◌≡◌, ◌<◌, ℕ, true, List, length};
ghost use Rattle.bit_rows.specs.Rows.{stands};
ghost use Rattle.mir_syntax.specs.declared.types.FnId.{FnId};
ghost use Rattle.mir_syntax.specs.declared.types.Ty.{Ty};
ghost use Rattle.mir_syntax.specs.declared.body.Body.{Body};
ghost use Rattle.mir_syntax.specs.declared.body.Callee.TheVariants.{Local};
ghost use Rattle.mir_syntax.specs.Tree.{trees_of};
ghost use Rattle.mir_syntax.specs.Table.{IsTable};
ghost use Rattle.mir_syntax.specs.Ids.{BodyInTable};
ghost use Rattle.mir_syntax.specs.declared.program.Program.{Program as AnyProgram};
ghost use Rattle.mir_syntax.specs.Crate.{TypedBody, Crate, crate_of, body_of};
ghost use Rattle.mir_syntax.specs.Shapes.{Shape};
ghost use Rattle.mir_semantics.specs.Refines.{Refines};
ghost use Rattle.mir_rules.specs.Calls.{Calls};
ghost use Rattle.mir_rules.specs.Valid.{Valid, Within};
ghost use Rattle.call_graph.specs.Callees.{callees};
ghost use Rattle.call_graph.specs.Graph.{IsGraph};
ghost use Rattle.drop_elab.specs.Elab.{IsElab};
ghost use Rattle.inline_pass.specs.Takes.{taken_of};
ghost use Rattle.query_plan.specs.Queries.{graph, is_large, qualifies, lent, taken, opt};
ghost use Rattle.query_plan.specs.Source.{IsSource};
ghost use Rattle.pass_order.specs.OptCrate.{pipeline, opt_crate};
ghost use Rattle.pass_order.specs.Tupled.{BodiesTupled};
ghost use Rattle.pass_order.specs.WithIds.{body_with_ids};

/// A valid crate within the limits is refined by the crate with each body optimised, which is valid.
pub fn opt_crate_refines()
    ensures refines { (C : Crate) → Valid C → Within C → BodiesTupled C → Refines (opt_crate C) C }
    ensures valid { (C : Crate) → Valid C → Within C → BodiesTupled C → Valid (opt_crate C) }
{}

/// The queries of a valid crate within the limits can be answered (`plan_is_lawful` of `query_plan`): calls lead to its functions, and no step makes a
/// call that wasn't there.
pub fn crate_is_a_source()
    ensures graph { (C : Crate) → Valid C → Within C → IsGraph (graph (pipeline C)) }
    ensures source { (C : Crate) → Valid C → Within C → BodiesTupled C → IsSource (pipeline C) }
{}

/// The bodies that are taken of those that are lent are the ones that inlining takes.
pub fn lent_bodies_are_taken()
    ensures { (C : Crate) → Valid C → Within C → (f g : ℕ) → taken (pipeline C) (opt (pipeline C)) f g ≡ taken_of C (is_large (pipeline C) f) (lent (pipeline C) (opt (pipeline C)) f) (qualifies (pipeline C)) g }
{}

/// An elaborated body calls only what the body calls or may run by a drop.
pub fn elaboration_adds_no_callee()
    ensures { (D : List Shape) (b e : TypedBody) → IsElab D b e → (g : FnId) → Calls e (Local g) → stands g.0 (callees D b) ≡ true }
{}

/// Ids put in the place of the types of a body are those that stood there, where these lie in the table: so of each body that is seen as a typed one
/// there is one with ids.
pub fn ids_come_back()
    ensures { (types : List Ty) → IsTable types → (b : Body) → BodyInTable types b → body_with_ids (trees_of types) (body_of (trees_of types) b) ≡ b }
{}

/// In the types of a program's bodies and definitions, what is left of a tuple behind its first part is a tuple.
pub fn bodies_are_tupled()
    ensures { (program : AnyProgram) → BodiesTupled (crate_of program) }
{}
