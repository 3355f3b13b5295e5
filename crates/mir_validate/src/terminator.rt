ghost use Rattle.std.specs.Prelude.{◌≡◌, ◌<◌, ◌^◌, ◌||◌, nat_lt, not, IsTrue, IfOk, false, length, map, take, drop};
ghost use Rattle.std.specs.List.{list_all, list_any};
ghost use Rattle.mir_syntax.specs.Tree.{at_id, trees_of};
ghost use Rattle.mir_syntax.specs.Crate.{crate_of};
ghost use Rattle.mir_syntax.specs.Shapes.{place_ty};
ghost use Rattle.mir_num.specs.Widths.{width_of};
ghost use Rattle.mir_syntax.specs.Parts.{path_formed, operand_whole, term_whole};
ghost use Rattle.mir_rules.specs.Formed.{callee_formed, call_formed};
ghost use Rattle.mir_rules.specs.Typing.{callee_result_ty};
ghost use Rattle.mir_rules.specs.BodyRules.{arm_value, has_twice, breaks_v20, breaks_v23, moves_through_destructor, moves_needing_indirectly};
ghost use Rattle.mir_rules.specs.Broken.{if_broken, own_broken, terminator_broken};
ghost use Rattle.mir_validate.specs.Inside.{shapes, local_types};
ghost use Rattle.mir_validate.specs.Codes.{place_untyped, operand_untyped, first_code};
ghost use Rattle.mir_validate.specs.Terms.{goes_back, arm_goes_back, ascends_from, ascends, term_untyped, term_any, scalar_operand, is_bool_scalar, unscalar, agree, callee_takes, callee_returns, switch_broken, call_broken, assert_broken};

use crate::inside::Inside;
use crate::moves::Moves;
use crate::seen::Seen;
use mir_num::wrap;
use mir_syntax::{Arm, Body, Callee, Operand, OutOfMemory, Place, ScalarTy, Term, TyId};
use std::alloc::Global;

fn an_arm_goes_back(arms: &[Arm]) -> bool
    ensures { result ≡ list_any arm_goes_back arms.now }
{
    let mut rest = arms;
    'arms: while let [arm, others @ ..] = rest {
        if arm.block == 0 {
            return true;
        }
        rest = others;
    }
    false
}

/// Whether a terminator goes to the first block.
fn goes_back(term: &Term) -> bool
    ensures { result ≡ goes_back term.now }
{
    match term {
        Term::Goto(next) => *next == 0,
        Term::Drop(_, next) => *next == 0,
        Term::Call(_, _, _, next) => *next == 0,
        Term::Assert(_, _, _, _, next) => *next == 0,
        Term::Switch(_, arms, other) => an_arm_goes_back(arms.as_slice()) || *other == 0,
        Term::Return | Term::Unreachable => false,
    }
}

fn is_ascending_from(least: u128, values: &[u128]) -> bool
    ensures { result ≡ ascends_from least values.now }
{
    let mut last = least;
    let mut rest = values;
    'values: while let [value, others @ ..] = rest {
        if *value <= last {
            return false;
        }
        last = *value;
        rest = others;
    }
    true
}

fn is_ascending(values: &[u128]) -> bool
    ensures { result ≡ ascends values.now }
{
    match values {
        [first, others @ ..] => is_ascending_from(*first, others),
        [] => true,
    }
}

fn values_of(alloc: Global, arms: &[Arm]) -> Result<Vec<u128>, OutOfMemory>
    ensures { IfOk result (λ values. values.items ≡ map arm_value arms.now) }
{
    let mut values = Vec::with_capacity(alloc, arms.len())?;
    for arm in arms {
        values.push(arm.value)?;
    }
    Ok(values)
}

/// Whether a switch value stands twice. Values are mostly written in ascending order, and then one walk shows that none does; else it shows in
/// their order.
fn has_twice(alloc: Global, arms: &[Arm]) -> Result<bool, OutOfMemory>
    ensures { IfOk result (λ twice. twice ≡ has_twice (map arm_value arms.now)) }
{
    let mut values = values_of(alloc, arms)?;
    if is_ascending(values.as_slice()) {
        return Ok(false);
    }
    values.sort()?;
    Ok(!is_ascending(values.as_slice()))
}

fn is_too_wide(scalar: ScalarTy, value: u128) -> bool
    ensures { result ≡ not (nat_lt value (2 ^ width_of scalar)) }
{
    wrap(scalar, value) != value
}

/// Whether a switch value doesn't fit the operand's width.
fn has_too_wide(scalar: ScalarTy, arms: &[Arm]) -> bool
    ensures { result ≡ list_any (λ v. not (nat_lt v (2 ^ width_of scalar))) (map arm_value arms.now) }
{
    let mut rest = arms;
    'arms: while let [arm, others @ ..] = rest {
        if is_too_wide(scalar, arm.value) {
            return true;
        }
        rest = others;
    }
    false
}

fn are_wrong(alloc: Global, scalar: ScalarTy, arms: &[Arm]) -> Result<bool, OutOfMemory>
    ensures { IfOk result (λ wrong. wrong ≡ (has_twice (map arm_value arms.now) || list_any (λ v. not (nat_lt v (2 ^ width_of scalar))) (map arm_value arms.now))) }
{
    let twice = has_twice(alloc, arms)?;
    Ok(twice || has_too_wide(scalar, arms))
}

/// The types of the arguments of a body.
fn arg_types(body: &Body) -> &[TyId]
    ensures { result.now ≡ take body.now.args (drop 1 body.now.locals) }
{
    let locals = body.locals.as_slice();
    let [_, others @ ..] = locals else {
        return &[];
    };
    let args = body.args as usize;
    if args < others.len() {
        &others[..args]
    } else {
        others
    }
}

impl Inside<'_> {
    /// Whether a projection in a terminator doesn't fit its place.
    fn term_untyped(&self, term: &Term) -> bool
        requires formed { IsTrue (term_whole term.now) }
        ensures { result ≡ term_untyped (shapes self.now.program.now) (local_types self.now.program.now self.now.body.now) term.now }
    {
        match term {
            Term::Switch(a, _, _) => self.operand_untyped(a),
            Term::Drop(place, _) => self.place_untyped(place),
            Term::Call(place, _, args, _) => {
                self.place_untyped(place) || self.operands_untyped(args.as_slice())
            }
            Term::Assert(a, _, _, args, _) => {
                self.operand_untyped(a) || self.operands_untyped(args.as_slice())
            }
            Term::Goto(_) | Term::Return | Term::Unreachable => false,
        }
    }

    fn operand_scalar(&self, operand: &Operand) -> Option<ScalarTy>
        requires formed { IsTrue (operand_whole operand.now) }
        ensures { result ≡ scalar_operand (shapes self.now.program.now) (local_types self.now.program.now self.now.body.now) operand.now }
    {
        match self.operand_ty(operand) {
            Some(seen) => self.scalar(seen),
            None => None,
        }
    }

    fn switch_code(
        &self,
        alloc: Global,
        operand: &Operand,
        arms: &[Arm],
    ) -> Result<Option<u8>, OutOfMemory>
        requires formed { IsTrue (operand_whole operand.now) }
        requires typed { operand_untyped (shapes self.now.program.now) (local_types self.now.program.now self.now.body.now) operand.now ≡ false }
        ensures { IfOk result (λ code. code ≡ first_code (switch_broken (shapes self.now.program.now) (local_types self.now.program.now self.now.body.now) operand.now arms.now)) }
    {
        let Some(scalar) = self.operand_scalar(operand) else {
            return Ok(Some(17));
        };
        let wrong = are_wrong(alloc, scalar, arms)?;
        if wrong { Ok(Some(18)) } else { Ok(None) }
    }

    fn is_bool(&self, operand: &Operand) -> bool
        requires formed { IsTrue (operand_whole operand.now) }
        ensures { result ≡ is_bool_scalar (scalar_operand (shapes self.now.program.now) (local_types self.now.program.now self.now.body.now) operand.now) }
    {
        match self.operand_scalar(operand) {
            Some(ScalarTy::Bool) => true,
            _ => false,
        }
    }

    /// Whether an operand's type isn't scalar.
    fn unscalar(&self, operand: &Operand) -> bool
        requires formed { IsTrue (operand_whole operand.now) }
        ensures { result ≡ unscalar (shapes self.now.program.now) (local_types self.now.program.now self.now.body.now) operand.now }
    {
        match self.operand_ty(operand) {
            Some(seen) => self.scalar(seen).is_none(),
            None => false,
        }
    }

    fn has_unscalar(&self, operands: &[Operand]) -> bool
        requires formed { IsTrue (list_all operand_whole operands.now) }
        ensures { result ≡ breaks_v20 (shapes self.now.program.now) (local_types self.now.program.now self.now.body.now) operands.now }
    {
        let mut rest = operands;
        'operands: while let [operand, others @ ..] = rest {
            if self.unscalar(operand) {
                return true;
            }
            rest = others;
        }
        false
    }

    fn assert_code(&self, operand: &Operand, args: &[Operand]) -> Option<u8>
        requires formed { IsTrue (operand_whole operand.now) }
        requires args { IsTrue (list_all operand_whole args.now) }
        requires typed { operand_untyped (shapes self.now.program.now) (local_types self.now.program.now self.now.body.now) operand.now ≡ false }
        ensures { result ≡ first_code (assert_broken (shapes self.now.program.now) (local_types self.now.program.now self.now.body.now) operand.now args.now) }
    {
        if !self.is_bool(operand) {
            Some(19)
        } else if self.has_unscalar(args) {
            Some(20)
        } else {
            None
        }
    }

    fn drop_code(&self, place: &Place) -> Option<u8>
        requires formed { IsTrue (path_formed place.now.proj) }
        ensures { result ≡ first_code (if_broken (breaks_v23 (shapes self.now.program.now) (local_types self.now.program.now self.now.body.now) place.now) 23) }
    {
        if !place.is_direct() || self.program.goes_through_destructor(self.body, place) {
            Some(23)
        } else {
            None
        }
    }

    /// Whether arguments have the types of the callee's.
    fn takes(&self, callee: Callee, args: &[Operand]) -> bool
        requires formed { IsTrue (list_all operand_whole args.now) }
        ensures { result ≡ callee_takes (crate_of self.now.program.now) (shapes self.now.program.now) (local_types self.now.program.now self.now.body.now) callee args.now }
    {
        match callee {
            Callee::Local(f) => match self.program.functions.get(f.0 as usize) {
                Some(function) => self.have_types(args, arg_types(&function.body)),
                None => false,
            },
            Callee::Outside(o) => match self.program.outsides.get(o.0 as usize) {
                Some(outside) => self.have_types(args, outside.args.as_slice()),
                None => false,
            },
        }
    }

    /// Whether the type of the id is that of what the callee returns.
    fn returns(&self, callee: Callee, id: TyId) -> bool
        requires in_table { id.0 < length self.now.program.now.types }
        ensures { result ≡ callee_returns (crate_of self.now.program.now) callee (at_id (trees_of self.now.program.now.types) id) }
    {
        match callee {
            Callee::Local(f) => match self.program.functions.get(f.0 as usize) {
                Some(function) => match function.body.locals.get(0) {
                    Some(first) => self.is(Seen::InTable(*first), id),
                    None => self.is(Seen::Unit, id),
                },
                None => false,
            },
            Callee::Outside(o) => match self.program.outsides.get(o.0 as usize) {
                Some(outside) => self.is(Seen::InTable(outside.result), id),
                None => false,
            },
        }
    }

    fn returns_into(&self, callee: Callee, place: &Place) -> bool
        requires formed { IsTrue (path_formed place.now.proj) }
        ensures { result ≡ agree (callee_result_ty (crate_of self.now.program.now) callee) (place_ty (shapes self.now.program.now) (local_types self.now.program.now self.now.body.now) place.now) }
    {
        match self.place_ty(place) {
            Some(id) => self.returns(callee, id),
            None => false,
        }
    }

    fn call_code(&self, place: &Place, callee: Callee, args: &[Operand]) -> Option<u8>
        requires formed { IsTrue (path_formed place.now.proj) }
        requires args { IsTrue (list_all operand_whole args.now) }
        requires callee { IsTrue (callee_formed (crate_of self.now.program.now) callee) }
        requires typed { place_untyped (shapes self.now.program.now) (local_types self.now.program.now self.now.body.now) place.now ≡ false }
        requires args_typed { list_any (operand_untyped (shapes self.now.program.now) (local_types self.now.program.now self.now.body.now)) args.now ≡ false }
        ensures { result ≡ first_code (call_broken (crate_of self.now.program.now) (shapes self.now.program.now) (local_types self.now.program.now self.now.body.now) callee args.now place.now) }
    {
        if !self.takes(callee, args) {
            Some(15)
        } else if !self.returns_into(callee, place) {
            Some(16)
        } else {
            None
        }
    }

    fn own_code(&self, alloc: Global, term: &Term) -> Result<Option<u8>, OutOfMemory>
        requires formed { IsTrue (term_whole term.now) }
        requires callee { IsTrue (call_formed (crate_of self.now.program.now) term.now) }
        requires typed { term_untyped (shapes self.now.program.now) (local_types self.now.program.now self.now.body.now) term.now ≡ false }
        ensures { IfOk result (λ code. code ≡ first_code (own_broken (crate_of self.now.program.now) (shapes self.now.program.now) (local_types self.now.program.now self.now.body.now) term.now)) }
    {
        match term {
            Term::Switch(a, arms, _) => self.switch_code(alloc, a, arms.as_slice()),
            Term::Call(place, callee, args, _) => {
                Ok(self.call_code(place, *callee, args.as_slice()))
            }
            Term::Assert(a, _, _, args, _) => Ok(self.assert_code(a, args.as_slice())),
            Term::Drop(place, _) => Ok(self.drop_code(place)),
            Term::Goto(_) | Term::Return | Term::Unreachable => Ok(None),
        }
    }

    fn term_moves(&self, term: &Term) -> Moves
        requires formed { IsTrue (term_whole term.now) }
        ensures through { result.through ≡ term_any (moves_through_destructor (shapes self.now.program.now) (local_types self.now.program.now self.now.body.now)) term.now }
        ensures indirectly { result.indirectly ≡ term_any (moves_needing_indirectly (shapes self.now.program.now) (local_types self.now.program.now self.now.body.now)) term.now }
    {
        match term {
            Term::Switch(a, _, _) => self.operand_moves(a),
            Term::Call(_, _, args, _) => self.moves(args.as_slice()),
            Term::Assert(a, _, _, args, _) => self.operand_moves(a).or(self.moves(args.as_slice())),
            Term::Drop(_, _) | Term::Goto(_) | Term::Return | Term::Unreachable => Moves::none(),
        }
    }

    /// The first rule that a terminator breaks.
    ///
    /// # Errors
    ///
    /// `OutOfMemory`.
    pub fn terminator_code(&self, alloc: Global, term: &Term) -> Result<Option<u8>, OutOfMemory>
        requires formed { IsTrue (term_whole term.now) }
        requires callee { IsTrue (call_formed (crate_of self.now.program.now) term.now) }
        ensures { IfOk result (λ code. code ≡ first_code (terminator_broken (crate_of self.now.program.now) (shapes self.now.program.now) (local_types self.now.program.now self.now.body.now) term.now)) }
    {
        if goes_back(term) {
            return Ok(Some(5));
        }
        if self.term_untyped(term) {
            return Ok(Some(6));
        }
        let own = self.own_code(alloc, term)?;
        match own {
            Some(code) => Ok(Some(code)),
            None => Ok(self.term_moves(term).code()),
        }
    }
}
