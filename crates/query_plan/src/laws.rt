//! The laws of a crate's queries. The functions here run nothing; their contracts are the laws. They speak of every pipeline whose bodies are
//! typed ones; `proofs` has them of bodies of any type.
ghost use Rattle.std.specs.Prelude.{◌≡◌, ◌<◌, ℕ, true, false, not, ◌||◌};
ghost use Rattle.bit_rows.specs.Rows.{stands};
ghost use Rattle.mir_syntax.specs.Crate.{TypedBody};
ghost use Rattle.sched_core.specs.Plan.{IsLawful};
ghost use Rattle.sched_core.specs.Good.{IsOnce};
ghost use Rattle.call_graph.specs.Graph.{IsGraph, IsComponents, reach, some_reaches, asks};
ghost use Rattle.query_plan.specs.declared.kind.Kind.{Kind as QueryKind};
ghost use Rattle.query_plan.specs.Queries.{Pipeline, graph, callees_of, cands, optimised, opt};
ghost use Rattle.query_plan.specs.Needs.{needs_of, plan};
ghost use Rattle.query_plan.specs.Order.{IsOrder, DoneBefore};
ghost use Rattle.query_plan.specs.Source.{IsSource};

/// A schedule can answer the queries: a rank falls from each query to all that it needs, a slot is stolen by one query at most and last, and
/// whoever else needs it is needed by the thief. Each need of a query comes once.
pub fn plan_is_lawful()
    ensures lawful { (P : Pipeline TypedBody) → IsSource P → IsLawful (plan P) }
    ensures once { (P : Pipeline TypedBody) → IsSource P → (k : QueryKind) (f : ℕ) → f < P.functions → IsOnce (needs_of P k f) }
{}

/// Nobody asks for himself. What may be inlined into a function, some callee of it reaches: so its own reach, and the order of paths, tell whether
/// it is asked for.
pub fn candidates_are_reached()
    ensures not_itself { (P : Pipeline TypedBody) → IsGraph (graph P) → (f : ℕ) → f < P.functions → asks (graph P) f f ≡ false }
    ensures below { (P : Pipeline TypedBody) → IsSource P → (f g : ℕ) → stands g (cands P (opt P) f) ≡ true → g < P.functions }
    ensures reached { (P : Pipeline TypedBody) → IsSource P → (f g : ℕ) → stands g (cands P (opt P) f) ≡ true → some_reaches (graph P) (callees_of P f) g ≡ true }
    ensures asked { (P : Pipeline TypedBody) → IsSource P → (f g : ℕ) → stands g (cands P (opt P) f) ≡ true → asks (graph P) f g ≡ (P.below f g || not (stands f (reach (graph P) g))) }
{}

/// An optimised body is made of the optimised bodies of those that its function asks for: the depth to which it is defined is deep enough.
pub fn optimised_bodies_are_made_of_others()
    ensures { (P : Pipeline TypedBody) → IsGraph (graph P) → (f : ℕ) → f < P.functions → opt P f ≡ optimised P (opt P) f }
{}

/// Functions can be optimised one by one, in an order of components and paths: whom a function asks for comes before it, so its candidates and its
/// optimised body are those that the bodies make which are done.
pub fn bodies_in_order()
    ensures asked { (P : Pipeline TypedBody) (component place : ℕ → ℕ) → IsGraph (graph P) → IsComponents (graph P) component → IsOrder (graph P) component place → (f g : ℕ) → f < P.functions → asks (graph P) f g ≡ true → place g < place f }
    ensures candidates { (P : Pipeline TypedBody) (component place : ℕ → ℕ) → IsGraph (graph P) → IsComponents (graph P) component → IsOrder (graph P) component place → (f : ℕ) (bodies : ℕ → TypedBody) → f < P.functions → DoneBefore P place (place f) bodies → cands P bodies f ≡ cands P (opt P) f }
    ensures next { (P : Pipeline TypedBody) (component place : ℕ → ℕ) → IsGraph (graph P) → IsComponents (graph P) component → IsOrder (graph P) component place → (f : ℕ) (bodies : ℕ → TypedBody) → f < P.functions → DoneBefore P place (place f) bodies → optimised P bodies f ≡ opt P f }
{}
