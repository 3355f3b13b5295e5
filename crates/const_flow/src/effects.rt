//! What statements and terminators make of facts.
ghost use Rattle.std.specs.Prelude.{◌≡◌, ◌+◌, ◌-◌, ◌≤◌, [], ◌∷◌, ◌++◌, length, map, drop, replicate, is_some, IsTrue, Contains, OnOk, OnErr};
ghost use Rattle.mir_syntax.specs.Parts.{arm_block, targets, rvalue_operands};
ghost use Rattle.mir_syntax.specs.Crate.{rvalue_of, stmt_of};
ghost use Rattle.mir_semantics.specs.Step.{take_arm};
ghost use Rattle.place_map.specs.Tracked.{way, SpansUnder};
ghost use Rattle.const_flow.specs.declared.cell.Cell.TheVariants.{Nothing};
ghost use Rattle.const_flow.specs.Facts as facts;
ghost use Rattle.const_flow.specs.Facts.{switch_to, can_be, always, whole_local, value_known, moved, moved_all, after_stmt, after_all, after_term};
ghost use Rattle.const_flow.specs.Cells.{put_from, places_between, known_under};
ghost use Rattle.const_flow.specs.Sights.{text_in, trees_in, facts_in};

use crate::cell::Cell;
use crate::places::known;
use crate::sight::Sight;
use mir_num::flag;
use mir_syntax::{Arm, List, Operand, OutOfMemory, Place, Proj, Rvalue, Stmt, Term};
use place_map::Span;
use std::alloc::Global;

/// What is known after the walk so far: a cell for each tracked place, and room for the cells of one value.
#[derive(Drop)]
pub(crate) struct Walk {
    pub cells: List<Cell>,
    pub fresh: List<Cell>,
}

/// From now on this is known of what a span names.
fn fill(cells: &mut [Cell], span: Span, cell: Cell)
    requires forward { span.from ≤ span.to }
    requires within { span.to ≤ length cells.old }
    ensures { cells.new ≡ put_from cells.old span.from (replicate (span.to - span.from) cell) }
{
    for path in span.from..span.to {
        cells[path as usize] = cell;
    }
}

/// Puts cells in the place of those from a number on.
fn put(cells: &mut [Cell], from: u32, fresh: &[Cell])
    requires { from + length fresh.now ≤ length cells.old }
    ensures { cells.new ≡ put_from cells.old from fresh.now }
{
    let from = from as usize;
    cells[from..from + fresh.len()].copy_from_slice(fresh);
}

/// The way from a place to one at or under it.
#[tactic(auto, using(crate::proofs::Learning::way_long))]
fn way_under<'a>(place: &Place, tracked: &'a Place) -> &'a [Proj]
    requires { IsTrue (is_some (way place.now tracked.now)) }
    ensures { result.now ≡ drop (length place.now.proj) tracked.now.proj }
{
    &tracked.proj.as_slice()[place.proj.len()..]
}

/// The block of the first arm with the value, else the other one.
pub fn taken_arm(number: u128, arms: &[Arm], other: u32) -> u32
    ensures { result ≡ take_arm number arms.now other }
{
    for arm in arms {
        if arm.value == number {
            return arm.block;
        }
    }
    other
}

/// Whether a switch on what is known can lead to a block, which is one of its targets.
fn switch_leads(known: Cell, arms: &[Arm], other: u32, to: u32) -> bool
    requires { Contains (map arm_block arms.now ++ other ∷ []) to }
    ensures { result ≡ switch_to to known arms.now other }
{
    match known {
        Cell::Nothing => false,
        Cell::Num(number) => taken_arm(number, arms, other) == to,
        Cell::Many => true,
    }
}

/// Whether a condition of which this is known can be as expected.
#[tactic(auto, unfolding(mir_num::specs::Numbers::flag))]
fn can_be(expected: bool, known: Cell) -> bool
    ensures { result ≡ can_be expected known }
{
    match known {
        Cell::Nothing => false,
        Cell::Num(number) => number == flag(expected),
        Cell::Many => true,
    }
}

/// Whether a terminator can lead to a block, which is one of its targets.
#[tactic(auto, unfolding(crate::specs::Facts::leads))]
pub(crate) fn leads(sight: Sight<'_>, cells: &[Cell], term: &Term, to: u32) -> bool
    requires cells { length cells.now ≡ length sight.paths.now }
    requires target { Contains (targets term.now) to }
    ensures { result ≡ facts.leads (facts_in sight.entry cells.now) term.now to }
{
    match term {
        Term::Goto(next) => *next == to,
        Term::Switch(operand, arms, other) => {
            switch_leads(
                known(sight.paths, cells, operand),
                arms.as_slice(),
                *other,
                to,
            )
        }
        Term::Return => false,
        Term::Unreachable => false,
        Term::Drop(_, next) => *next == to,
        Term::Call(_, _, _, next) => *next == to,
        Term::Assert(operand, expected, _, _, next) => {
            can_be(*expected, known(sight.paths, cells, operand)) && *next == to
        }
    }
}

impl Walk {
    fn learn(&mut self, sight: Sight<'_>, place: &Place, cell: Cell)
        requires { length self.old.cells ≡ length sight.paths.now }
        ensures cells { length self.new.cells ≡ length sight.entry.paths.now }
        ensures fresh { self.new.fresh ≡ self.old.fresh }
        ensures facts { facts_in sight.entry self.new.cells ≡ facts.learn place.now (always cell) (facts_in sight.entry self.old.cells) }
    {
        let span = sight.paths.under(place);
        fill(self.cells.as_mut_slice(), span, cell);
    }

    fn forget_local(&mut self, alloc: Global, sight: Sight<'_>, local: u32)
        requires { length self.old.cells ≡ length sight.paths.now }
        ensures cells { length self.new.cells ≡ length sight.entry.paths.now }
        ensures facts { facts_in sight.entry self.new.cells ≡ facts.learn (whole_local local) (always Nothing) (facts_in sight.entry self.old.cells) }
    {
        let place = Place {
            local,
            proj: List::new(alloc),
        };
        self.learn(sight, &place, Cell::Nothing);
    }

    /// What was moved is a hole.
    #[tactic(auto, unfolding(crate::specs::Facts::moved))]
    fn forget_moved(&mut self, sight: Sight<'_>, operand: &Operand)
        requires { length self.old.cells ≡ length sight.paths.now }
        ensures cells { length self.new.cells ≡ length sight.entry.paths.now }
        ensures fresh { self.new.fresh ≡ self.old.fresh }
        ensures facts { facts_in sight.entry self.new.cells ≡ moved operand.now (facts_in sight.entry self.old.cells) }
    {
        match operand {
            Operand::Copy(_) => {}
            Operand::Move(place) => self.learn(sight, place, Cell::Nothing),
            Operand::Const(_) => {}
        }
    }

    fn forget_all_moved(&mut self, sight: Sight<'_>, operands: &[Operand])
        requires { length self.old.cells ≡ length sight.paths.now }
        ensures cells { length self.new.cells ≡ length sight.entry.paths.now }
        ensures fresh { self.new.fresh ≡ self.old.fresh }
        ensures facts { facts_in sight.entry self.new.cells ≡ moved_all operands.now (facts_in sight.entry self.old.cells) }
    {
        for operand in operands {
            self.forget_moved(sight, operand);
        }
    }

    /// What an rvalue moves is a hole.
    fn forget_moved_by(&mut self, sight: Sight<'_>, rvalue: &Rvalue)
        requires { length self.old.cells ≡ length sight.paths.now }
        ensures cells { length self.new.cells ≡ length sight.entry.paths.now }
        ensures fresh { self.new.fresh ≡ self.old.fresh }
        ensures facts { facts_in sight.entry self.new.cells ≡ moved_all (rvalue_operands (rvalue_of (trees_in sight.entry) rvalue.now)) (facts_in sight.entry self.old.cells) }
    {
        match rvalue {
            Rvalue::Use(operand) => self.forget_moved(sight, operand),
            Rvalue::Unary(_, operand) => self.forget_moved(sight, operand),
            Rvalue::Cast(operand, _) => self.forget_moved(sight, operand),
            Rvalue::Binary(_, left, right) => {
                self.forget_moved(sight, left);
                self.forget_moved(sight, right);
            }
            Rvalue::Overflow(_, left, right) => {
                self.forget_moved(sight, left);
                self.forget_moved(sight, right);
            }
            Rvalue::Tuple(parts) => self.forget_all_moved(sight, parts.as_slice()),
            Rvalue::Build(_, _, parts) => self.forget_all_moved(sight, parts.as_slice()),
            Rvalue::Ref(_) | Rvalue::RefMut(_) | Rvalue::Discriminant(_) => {}
        }
    }

    /// Finds what is known of the parts of an rvalue's value that are tracked in a place, whose span is given.
    fn evaluate(
        &mut self,
        sight: Sight<'_>,
        place: &Place,
        span: Span,
        rvalue: &Rvalue,
    ) -> Result<(), OutOfMemory>
        requires cells { length self.old.cells ≡ length sight.paths.now }
        requires spans { SpansUnder sight.paths.now place.now span.from span.to }
        requires within { (span.from ≤ span.to) × (span.to ≤ length sight.paths.now) }
        ensures cells { self.new.cells ≡ self.old.cells }
        ensures fresh { OnOk result (self.new.fresh ≡ map (known_under place.now (value_known (text_in sight.entry) (facts_in sight.entry self.old.cells) (rvalue_of (trees_in sight.entry) rvalue.now))) (places_between sight.entry.paths.now span.from span.to)) }
    {
        self.fresh.truncate(0);
        for tracked in &sight.paths.places()[span.from as usize..span.to as usize] {
            let way = way_under(place, tracked);
            let cell = sight.value(self.cells.as_slice(), rvalue, way);
            self.fresh.push(cell)?;
        }
        Ok(())
    }

    fn assign(
        &mut self,
        sight: Sight<'_>,
        place: &Place,
        rvalue: &Rvalue,
    ) -> Result<(), OutOfMemory>
        requires { length self.old.cells ≡ length sight.paths.now }
        ensures cells { length self.new.cells ≡ length sight.entry.paths.now }
        ensures ok { OnOk result (facts_in sight.entry self.new.cells ≡ facts.learn place.now (value_known (text_in sight.entry) (facts_in sight.entry self.old.cells) (rvalue_of (trees_in sight.entry) rvalue.now)) (moved_all (rvalue_operands (rvalue_of (trees_in sight.entry) rvalue.now)) (facts_in sight.entry self.old.cells))) }
        ensures err { OnErr result (self.new.cells ≡ self.old.cells) }
    {
        let span = sight.paths.under(place);
        self.evaluate(sight, place, span, rvalue)?;
        self.forget_moved_by(sight, rvalue);
        put(self.cells.as_mut_slice(), span.from, self.fresh.as_slice());
        Ok(())
    }

    /// Goes over a statement. After an `Err` what is known is as it was before.
    ///
    /// # Errors
    ///
    /// `OutOfMemory`.
    #[tactic(auto, unfolding(crate::specs::Facts::after_stmt))]
    pub fn pass(&mut self, alloc: Global, sight: Sight<'_>, stmt: &Stmt) -> Result<(), OutOfMemory>
        requires { length self.old.cells ≡ length sight.paths.now }
        ensures cells { length self.new.cells ≡ length sight.entry.paths.now }
        ensures ok { OnOk result (facts_in sight.entry self.new.cells ≡ after_stmt (text_in sight.entry) (stmt_of (trees_in sight.entry) stmt.now) (facts_in sight.entry self.old.cells)) }
        ensures err { OnErr result (self.new.cells ≡ self.old.cells) }
    {
        match stmt {
            Stmt::Assign(place, rvalue) => self.assign(sight, place, rvalue),
            Stmt::StorageLive(local) => {
                self.forget_local(alloc, sight, *local);
                Ok(())
            }
            Stmt::StorageDead(local) => {
                self.forget_local(alloc, sight, *local);
                Ok(())
            }
            Stmt::SetDiscriminant(_, _) => Ok(()),
        }
    }

    /// Goes over statements. After an `Err` what is known is that before one of them.
    ///
    /// # Errors
    ///
    /// `OutOfMemory`.
    pub fn pass_all(
        &mut self,
        alloc: Global,
        sight: Sight<'_>,
        stmts: &[Stmt],
    ) -> Result<(), OutOfMemory>
        requires { length self.old.cells ≡ length sight.paths.now }
        ensures cells { length self.new.cells ≡ length sight.entry.paths.now }
        ensures ok { OnOk result (facts_in sight.entry self.new.cells ≡ after_all (text_in sight.entry) (map (stmt_of (trees_in sight.entry)) stmts.now) (facts_in sight.entry self.old.cells)) }
    {
        for stmt in stmts {
            self.pass(alloc, sight, stmt)?;
        }
        Ok(())
    }

    /// Goes over a terminator.
    #[tactic(auto, unfolding(crate::specs::Facts::after_term))]
    pub fn leave(&mut self, sight: Sight<'_>, term: &Term)
        requires { length self.old.cells ≡ length sight.paths.now }
        ensures cells { length self.new.cells ≡ length sight.entry.paths.now }
        ensures facts { facts_in sight.entry self.new.cells ≡ after_term term.now (facts_in sight.entry self.old.cells) }
    {
        match term {
            Term::Drop(place, _) => self.learn(sight, place, Cell::Nothing),
            Term::Call(place, _, args, _) => {
                self.forget_all_moved(sight, args.as_slice());
                self.learn(sight, place, Cell::Many);
            }
            Term::Goto(_) => {}
            Term::Switch(_, _, _) => {}
            Term::Return => {}
            Term::Unreachable => {}
            Term::Assert(_, _, _, _, _) => {}
        }
    }
}
