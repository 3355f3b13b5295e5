//! How an optimised body asks for its candidates.
ghost use Rattle.std.specs.Prelude.{◌≡◌, ◌<◌, ℕ, Bool, true, List as ListOf, [], ◌∷◌, ◌^◌, ◌&&◌, length, map, IfOk, OnOk, IfSome, if◌then◌else◌};
ghost use Rattle.bit_rows.specs.Rows.{stands};
ghost use Rattle.mir_syntax.specs.Drops.{fn_number};
ghost use Rattle.mir_syntax.specs.Crate.{TypedBody};
ghost use Rattle.call_graph.specs.Graph.{reach};
ghost use Rattle.query_plan.specs.declared.kind.Kind.TheVariants as kind;
ghost use Rattle.query_plan.specs.Queries.{Pipeline, graph, prom, callees_of, is_large, qualifies, may_take, cands, opt};
ghost use Rattle.query_plan.specs.Needs.{query, needs_of};
ghost use Rattle.query_plan.specs.Source.{IsSource};
ghost use Rattle.candidates.specs.declared.asking.Part.TheVariants as part;
ghost use Rattle.candidates.specs.declared.walk.Walk.{Walk as AnyWalk};
ghost use Rattle.candidates.specs.Walk.{AllBelow, IsFresh, Brings};
ghost use Rattle.candidates.specs.Comes.{all_of, comes_in, never_of};
ghost use Rattle.candidates.specs.Asking.{IsOf, PartBelow, StaysBelow, left_with, IsBetween, IsAsking, Asks, GoesOn, entered};

use crate::walk::Walk;
use call_graph::below;
use mir_syntax::{FnId, List, OutOfMemory, Program};
use std::alloc::Global;

/// What is asked next: of the function itself, or of the candidate at hand.
#[derive(Clone, Copy, Debug, Drop, PartialEq, Eq)]
pub enum Part {
    /// What the function costs.
    Cost,
    /// Whom the candidate reaches.
    Reach(FnId),
    /// Whether it qualifies.
    Qualif(FnId),
    /// Its optimised body. It qualifies or doesn't.
    Opt(FnId, bool),
    /// The function's own elaborated body: no candidate is left.
    Elab,
}

/// The candidates of a function, of which each is asked for or not. Its methods are told the answers, in the order in which `part` asks.
#[derive(Drop)]
pub struct Asking {
    part: Part,
    walk: Walk,
    /// The function itself is large.
    large: bool,
    /// The candidates whose optimised bodies it was given.
    lent: List<FnId>,
}

impl Asking {
    /// The cost comes first, and then whom the function calls.
    ///
    /// # Errors
    ///
    /// `OutOfMemory`.
    pub fn new(
        alloc: Global,
        program: &Program,
        callees: &List<FnId>,
    ) -> Result<Asking, OutOfMemory>
        requires few { length program.now.functions < 2 ^ 32 }
        requires callees { AllBelow (length program.now.functions) (map fn_number callees.now) }
        ensures stays { IfOk result (StaysBelow (length program.now.functions)) }
        ensures asks { IfOk result (λ a. (P : Pipeline TypedBody) → IsSource P → IsOf program.now P → (f : ℕ) → f < P.functions → map fn_number callees.now ≡ callees_of P f → Asks P f a (query P.functions kind.Cost f ∷ left_with P f (all_of P f))) }
    {
        let functions = program.functions.as_slice();
        let mut walk = Walk::new(alloc, functions.len() as u32)?;
        walk.bring(functions, callees)?;
        Ok(Asking {
            part: Part::Cost,
            walk,
            large: false,
            lent: List::new(alloc),
        })
    }

    /// What is asked next.
    pub fn part(&self) -> Part
        ensures { result ≡ self.now.part }
    {
        self.part
    }

    /// Whether the function itself is large, as far as its cost was told.
    pub fn is_large(&self) -> bool
        ensures { result ≡ self.now.large }
    {
        self.large
    }

    /// The candidates whose optimised bodies it was given, in their order.
    pub fn lent(&self) -> &[FnId]
        ensures { result.now ≡ self.now.lent }
    {
        self.lent.as_slice()
    }

    /// What is asked of the candidate that comes.
    fn part_of(program: &Program, f: FnId, taken: Option<FnId>) -> Part
        requires f { f.0 < length program.now.functions }
        requires taken { IfSome taken (λ g. g.0 < length program.now.functions) }
        ensures below { PartBelow (length program.now.functions) result }
        ensures entered { (P : Pipeline TypedBody) → IsOf program.now P → result ≡ entered P f.0 taken }
    {
        match taken {
            Some(g) => {
                if below(program, f, g) {
                    Part::Qualif(g)
                } else {
                    Part::Reach(g)
                }
            }
            None => Part::Elab,
        }
    }

    /// The next candidate is at hand, or none is left.
    fn enter(&mut self, program: &Program, f: FnId)
        requires f { f.0 < length program.now.functions }
        requires stays { StaysBelow (length program.now.functions) self.old }
        ensures stays { StaysBelow (length program.now.functions) self.new }
        ensures asks { (P : Pipeline TypedBody) → IsSource P → IsOf program.now P → IsBetween P f.0 self.old → Asks P f.0 self.new (left_with P f.0 (comes_in P f.0 self.old.walk)) }
    {
        let taken = self.walk.take();
        self.part = Asking::part_of(program, f, taken);
    }

    /// What the function costs was told.
    pub fn given_cost(&mut self, program: &Program, f: FnId, cost: u64)
        requires f { f.0 < length program.now.functions }
        requires stays { StaysBelow (length program.now.functions) self.old }
        ensures stays { StaysBelow (length program.now.functions) self.new }
        ensures goes_on { (P : Pipeline TypedBody) → IsSource P → IsOf program.now P → IsAsking P f.0 self.old → self.old.part ≡ part.Cost → cost ≡ P.cost (prom P f.0) → GoesOn P f.0 self.old self.new }
    {
        self.large = cost > 2000;
        self.enter(program, f);
    }

    /// Whether the candidate reaches the function was told.
    pub fn given_reach(&mut self, program: &Program, f: FnId, g: FnId, reached: bool)
        requires f { f.0 < length program.now.functions }
        requires g { g.0 < length program.now.functions }
        requires stays { StaysBelow (length program.now.functions) self.old }
        ensures stays { StaysBelow (length program.now.functions) self.new }
        ensures goes_on { (P : Pipeline TypedBody) → IsSource P → IsOf program.now P → IsAsking P f.0 self.old → self.old.part ≡ part.Reach g → reached ≡ stands f.0 (reach (graph P) g.0) → GoesOn P f.0 self.old self.new }
    {
        if reached {
            self.enter(program, f);
        } else {
            self.part = Part::Qualif(g);
        }
    }

    /// Whether the candidate qualifies was told.
    pub fn given_qualif(&mut self, g: FnId, flag: bool)
        ensures stays { (n : ℕ) → g.0 < n → StaysBelow n self.old → StaysBelow n self.new }
        ensures goes_on { (P : Pipeline TypedBody) → IsSource P → (f : ℕ) → IsAsking P f self.old → self.old.part ≡ part.Qualif g → flag ≡ qualifies P g.0 → GoesOn P f self.old self.new }
    {
        self.part = Part::Opt(g, flag);
    }

    /// The optimised body of the candidate was given: whom it brings, which are whom the body calls if the function takes it, else nobody.
    ///
    /// # Errors
    ///
    /// `OutOfMemory`; the candidates are spent then.
    pub fn given_opt(
        &mut self,
        program: &Program,
        f: FnId,
        g: FnId,
        brings: &List<FnId>,
    ) -> Result<(), OutOfMemory>
        requires f { f.0 < length program.now.functions }
        requires brings { AllBelow (length program.now.functions) (map fn_number brings.now) }
        requires stays { StaysBelow (length program.now.functions) self.old }
        ensures stays { OnOk result (StaysBelow (length program.now.functions) self.new) }
        ensures goes_on { OnOk result ((P : Pipeline TypedBody) → IsSource P → IsOf program.now P → IsAsking P f.0 self.old → (q : Bool) → self.old.part ≡ part.Opt g q → map fn_number brings.now ≡ (if P.takes self.old.large (P.inlining g.0) q (opt P g.0) then P.callees (opt P g.0) else []) → GoesOn P f.0 self.old self.new) }
    {
        self.lent.push(g)?;
        self.walk.bring(program.functions.as_slice(), brings)?;
        self.enter(program, f);
        Ok(())
    }
}

/// Where nothing is asked but the function's own body, it was given the bodies that it may take, and no others.
pub fn all_are_lent()
    ensures large { (P : Pipeline TypedBody) (f : ℕ) (a : Asking) → IsAsking P f a → a.part ≡ part.Elab → a.large ≡ is_large P f }
    ensures lent { (P : Pipeline TypedBody) (f : ℕ) (a : Asking) → IsAsking P f a → a.part ≡ part.Elab → (g : ℕ) → stands g (map fn_number a.lent) ≡ (stands g (cands P (opt P) f) && may_take P f g) }
{}

/// What an optimised body needs: its callees, its cost, and then what is asked of its candidates in turn, before its own elaborated body.
pub fn needs_are_asked()
    ensures needs { (P : Pipeline TypedBody) (f : ℕ) → needs_of P kind.Opt f ≡ query P.functions kind.Callees f ∷ query P.functions kind.Cost f ∷ left_with P f (all_of P f) }
    ensures comes { (P : Pipeline TypedBody) → IsSource P → (f : ℕ) → f < P.functions → (w v : AnyWalk) → IsFresh P.functions w → Brings (never_of P) P.functions w v (callees_of P f) → comes_in P f v ≡ all_of P f }
{}
