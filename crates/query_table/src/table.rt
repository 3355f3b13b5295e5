//! The table, its seats and its steps.
ghost use Rattle.std.specs.Prelude.{◌≡◌, ℕ, ◌+◌, ◌<◌, ◌≤◌, [], ◌∷◌, length};

use crate::slots::{AnswerShown, Slots};
use crate::token::{Borrow, Claim, Stolen};
use crate::view::View;
use atomic_table::{Play, Split, Table, TableRule};
use mir_syntax::{List, OutOfMemory};
use sched_core::Jobs;
use std::alloc::Global;
use std::marker::{Model, PhantomData};
use std::snapshot::Snapshot;
use std::sync::Wait;

/// The word of a query that failed.
const FAILED: u64 = 0x100_0000_0000;

/// The word of a query whose answer was stolen.
const STOLEN: u64 = 0x200_0000_0000;

/// What a table is told once, when it is made.
#[derive(Drop)]
pub struct About<J> {
    pub jobs: J,
    pub workers: u32,
}

/// What is true of the words and views of a table at every moment (`Stands` of `specs/Rule.antt`). No value of it is made.
pub struct Rule<J> {
    jobs: PhantomData<J>,
}

impl<J: Jobs> TableRule<(), View, About<J>> for Rule<J> {
    ghost use Rattle.query_table.specs.Rule.{Stands};
    ghost use Rattle.query_table.specs.Steps.{first_view};

    ghost holds = { λ about. Stands (J.plan about.jobs) about.workers };

    ghost first = { λ about. first_view };
}

/// A worker's place at a table: the token with which it steps, and the worker's number.
#[derive(Drop)]
pub struct Seat {
    token: atomic_table::Seat<(), View>,
    worker: u32,
    ghost numbered: { token.me.0.number ≡ worker },
}

impl Seat {
    /// The number of the seat's worker, counted from 0.
    pub fn worker(&self) -> u32
        ensures { result ≡ self.now.token.me.0.number }
    {
        self.worker
    }
}

/// The words and the answers of the queries of some jobs, over which several seats work at once.
#[derive(Drop)]
pub struct QueryTable<J: Jobs> {
    table: Table<(), View, About<J>, Rule<J>, Global>,
    slots: Slots<J>,
    pub(crate) jobs: J,
}

// Contracts see the table's name and the jobs.
impl<J: Jobs> Model for QueryTable<J> {
    ghost use Rattle.std.specs.Prelude.{◌≡◌, ◌+◌};
    ghost use Rattle.std.specs.Coded.{coded×};
    ghost use Rattle.sched_core.specs.Plan.{IsLawful};
    ghost use Rattle.atomic_table.specs.Seated.{TableId, table_id_coded};

    ghost Value = { TableId × J };

    ghost coded = { coded× table_id_coded J.code };

    ghost view = { λ t. (t.table.shared.table_id, t.jobs) };

    ghost invariant = { λ t. (t.table.shared.key.jobs ≡ t.jobs) × (t.table.shared.table_id.words ≡ (J.plan t.jobs).queries + 1) × (t.slots ≡ t.jobs) × IsLawful (J.plan t.jobs) };
}

/// What a claim answers.
pub enum Claimed {
    /// The query was unclaimed and is now this seat's.
    Won(Claim),
    /// The word that was found in place of 0.
    Lost(u64),
}

struct Claims;

impl Play<(), View> for Claims {
    ghost use Rattle.query_table.specs.Steps.{claims};

    ghost then = { claims };
}

impl<J: Jobs> QueryTable<J> {
    ghost use Rattle.query_table.specs.Steps.{claim_view, next_of_view};
    ghost use Rattle.std.specs.Prelude.{Some};
    ghost use Rattle.query_table.specs.Answers.{IsSeatOf, claim_answer};

    /// One compare and exchange of 0 with 1 on the query's word. The query is the seat's next need or, with an empty stack, its drawn root.
    pub fn claim(&self, seat: &mut Seat, q: u32) -> Claimed
        requires seat { IsSeatOf self.now.0 seat.old }
        requires query { q < (J.plan self.now.1).queries }
        requires next { next_of_view (J.plan self.now.1) seat.old.token.me.0 ≡ Some q }
        ensures seat { IsSeatOf self.now.0 seat.new }
        ensures step { (found : ℕ) × (seat.new.token.me.0 ≡ claim_view seat.old.token.me.0 q found) × claim_answer self.now.0 (J.plan self.now.1).queries q result found }
    {
        let word = q as usize + 1;
        let found = self
            .table
            .shared
            .compare_exchange::<Claims>(&mut seat.token, word, 0, 1);
        if found != 0 {
            return Claimed::Lost(found);
        }
        Claimed::Won(Claim {
            query: q,
            filled: false,
            by: Snapshot::of(seat),
        })
    }
}

/// What a look answers.
#[derive(Clone, Copy, Debug, PartialEq, Eq)]
pub enum Looked {
    /// The query is done, or its answer was stolen.
    Done,
    Failed,
    /// The word that was found: 0 for unclaimed, 1 for claimed.
    NotYet(u64),
}

struct Looks;

impl Play<(), View> for Looks {
    ghost use Rattle.query_table.specs.Steps.{looks};

    ghost then = { looks };
}

struct Publishes;

impl Play<(), View> for Publishes {
    ghost use Rattle.query_table.specs.Steps.{publishes};

    ghost then = { publishes };
}

struct Fails;

impl Play<(), View> for Fails {
    ghost use Rattle.query_table.specs.Steps.{fails};

    ghost then = { fails };
}

impl<J: Jobs> QueryTable<J> {
    ghost use Rattle.sched_core.specs.Plan.{has};
    ghost use Rattle.sched_core.specs.State.{WaitFits, queries_of};
    ghost use Rattle.query_table.specs.Rule.{last_root};
    ghost use Rattle.query_table.specs.Steps.{look_view, publish_view, fail_view, next_of_view, IsRipe};
    ghost use Rattle.std.specs.Prelude.{◌≢◌, List, Some, None, false};
    ghost use Rattle.query_table.specs.Answers.{IsSeatOf, IsClaimOf, look_answer};
    ghost use Rattle.std.specs.Prelude.{IsTrue};

    /// One load of the query's word. The query is the seat's next need or, with an empty stack, any root, and the seat hasn't claimed it.
    pub fn look(&self, seat: &mut Seat, q: u32) -> Looked
        requires seat { IsSeatOf self.now.0 seat.old }
        requires query { q < (J.plan self.now.1).queries }
        requires next { WaitFits (J.plan self.now.1) seat.old.token.me.0.stack (last_root (J.plan self.now.1) seat.old.token.me.0.drawn) q }
        requires other { has q (queries_of seat.old.token.me.0.stack) ≡ false }
        ensures seat { IsSeatOf self.now.0 seat.new }
        ensures step { (found : ℕ) × (seat.new.token.me.0 ≡ look_view seat.old.token.me.0 q found) × look_answer result found }
    {
        let found = self
            .table
            .shared
            .load::<Looks>(&mut seat.token, q as usize + 1);
        if found < 2 {
            Looked::NotYet(found)
        } else if found == FAILED {
            Looked::Failed
        } else {
            Looked::Done
        }
    }

    /// One store of 2 on the word of the claim's query. The claim is the seat's latest and is filled, all its needs were seen, what it steals
    /// is stolen, and nothing is borrowed.
    pub fn publish(&self, seat: &mut Seat, claim: Claim)
        requires seat { IsSeatOf self.now.0 seat.old }
        requires claim { IsClaimOf self.now.0 (J.plan self.now.1).queries claim }
        requires filled { IsTrue claim.filled }
        requires ripe { IsRipe (J.plan self.now.1) seat.old.token.me.0 claim.query }
        ensures seat { IsSeatOf self.now.0 seat.new }
        ensures step { seat.new.token.me.0 ≡ publish_view seat.old.token.me.0 claim.query }
    {
        let Claim {
            query,
            filled: _,
            by: _,
        } = claim;
        self.table
            .shared
            .store::<Publishes>(&mut seat.token, query as usize + 1, 2);
    }

    /// One store of 2^40 on the word of the claim's query. The claim is the seat's latest, and nothing is borrowed.
    pub fn fail(&self, seat: &mut Seat, claim: Claim)
        requires seat { IsSeatOf self.now.0 seat.old }
        requires claim { IsClaimOf self.now.0 (J.plan self.now.1).queries claim }
        requires latest { (given : List ℕ) × ((rest : List (ℕ × List ℕ)) × (seat.old.token.me.0.stack ≡ (claim.query, given) ∷ rest)) }
        requires free { seat.old.token.me.0.borrow ≡ None }
        ensures seat { IsSeatOf self.now.0 seat.new }
        ensures step { seat.new.token.me.0 ≡ fail_view seat.old.token.me.0 claim.query }
    {
        let Claim {
            query,
            filled: _,
            by: _,
        } = claim;
        self.table
            .shared
            .store::<Fails>(&mut seat.token, query as usize + 1, FAILED);
    }
}

struct Borrows;

impl Play<(), View> for Borrows {
    ghost use Rattle.query_table.specs.Steps.{borrows};

    ghost then = { borrows };
}

struct Releases;

impl Play<(), View> for Releases {
    ghost use Rattle.query_table.specs.Steps.{releases};

    ghost then = { releases };
}

struct Steals;

impl Play<(), View> for Steals {
    ghost use Rattle.query_table.specs.Steps.{steals};

    ghost then = { steals };
}

struct Draws;

impl Play<(), View> for Draws {
    ghost use Rattle.query_table.specs.Steps.{draws};

    ghost then = { draws };
}

impl<J: Jobs> QueryTable<J> {
    ghost use Rattle.query_table.specs.Steps.{borrow_view, release_view, steal_view, draw_view, MayBorrowAs, MayStealAs, MayDrawAs};
    ghost use Rattle.std.specs.Prelude.{Some, MatchOption};
    ghost use Rattle.query_table.specs.Answers.{IsSeatOf, IsClaimOf, IsBorrowOf, IsStolenOf};

    /// One addition of 1 on the slot's word. The claim is the seat's latest, the slot is its next need, which it doesn't steal and the seat has
    /// seen done, and the seat holds no borrow.
    pub fn borrow(&self, seat: &mut Seat, claim: &Claim, slot: u32) -> Borrow
        requires seat { IsSeatOf self.now.0 seat.old }
        requires claim { IsClaimOf self.now.0 (J.plan self.now.1).queries claim.now }
        requires may { MayBorrowAs (J.plan self.now.1) seat.old.token.me.0 claim.now.query slot }
        ensures seat { IsSeatOf self.now.0 seat.new }
        ensures step { (found : ℕ) × (seat.new.token.me.0 ≡ borrow_view seat.old.token.me.0 slot found) }
        ensures borrow { IsBorrowOf self.now.0 (J.plan self.now.1).queries result × (result.slot ≡ slot) }
    {
        let _ = claim;
        self.table
            .shared
            .fetch_add::<Borrows>(&mut seat.token, slot as usize + 1, 1);
        Borrow {
            slot,
            by: Snapshot::of(seat),
        }
    }

    /// One subtraction of 1 on the slot's word. The borrow is the one that the seat holds.
    pub fn release(&self, seat: &mut Seat, borrow: Borrow)
        requires seat { IsSeatOf self.now.0 seat.old }
        requires borrow { IsBorrowOf self.now.0 (J.plan self.now.1).queries borrow }
        requires holds { seat.old.token.me.0.borrow ≡ Some borrow.slot }
        ensures seat { IsSeatOf self.now.0 seat.new }
        ensures step { (found : ℕ) × (seat.new.token.me.0 ≡ release_view seat.old.token.me.0 borrow.slot found) }
    {
        let Borrow { slot, by: _ } = borrow;
        self.table
            .shared
            .fetch_sub::<Releases>(&mut seat.token, slot as usize + 1, 1);
    }

    /// One compare and exchange of 2 with 2^41 on the slot's word, which always finds it done without borrowers. The claim is the seat's
    /// latest, it steals the slot and hasn't stolen it yet, and all its needs were seen, the slot among them.
    pub fn steal(&self, seat: &mut Seat, claim: &Claim, slot: u32) -> Stolen
        requires seat { IsSeatOf self.now.0 seat.old }
        requires claim { IsClaimOf self.now.0 (J.plan self.now.1).queries claim.now }
        requires may { MayStealAs (J.plan self.now.1) seat.old.token.me.0 claim.now.query slot }
        ensures seat { IsSeatOf self.now.0 seat.new }
        ensures step { seat.new.token.me.0 ≡ steal_view seat.old.token.me.0 slot 2 }
        ensures stolen { IsStolenOf self.now.0 (J.plan self.now.1).queries result × (result.slot ≡ slot) }
    {
        let _ = claim;
        self.table
            .shared
            .compare_exchange::<Steals>(&mut seat.token, slot as usize + 1, 2, STOLEN);
        Stolen {
            slot,
            by: Snapshot::of(seat),
        }
    }

    /// One addition of 1 on the count of draws. The stack is empty, an earlier root was seen done or failed, and no draw has found none yet.
    pub fn draw(&self, seat: &mut Seat) -> Option<u32>
        requires seat { IsSeatOf self.now.0 seat.old }
        requires may { MayDrawAs (J.plan self.now.1) seat.old.token.me.0 }
        ensures seat { IsSeatOf self.now.0 seat.new }
        ensures step { (found : ℕ) × (seat.new.token.me.0 ≡ draw_view seat.old.token.me.0 found) × MatchOption result ((J.plan self.now.1).roots ≤ found) (λ root. (found < (J.plan self.now.1).roots) × (root ≡ (J.plan self.now.1).root found)) }
    {
        let found = self.table.shared.fetch_add::<Draws>(&mut seat.token, 0, 1);
        if found < self.jobs.roots() as u64 {
            Some(self.jobs.root(found as u32))
        } else {
            None
        }
    }
}

struct NewSeat;

impl Split<View> for NewSeat {
    ghost use Rattle.query_table.specs.Steps.{left_view, right_view};

    ghost left = { left_view };

    ghost right = { right_view };
}

/// A new table with a seat for each worker.
#[derive(Drop)]
pub struct Opened<J: Jobs> {
    pub table: QueryTable<J>,
    pub seats: List<Seat>,
}

impl<J: Jobs + Drop> QueryTable<J> {
    ghost use Rattle.std.specs.Prelude.{IfOk, All, vec_len};
    ghost use Rattle.query_table.specs.Answers.{IsSeatOf};
    ghost use Rattle.query_table.specs.Steps.{IsNew};
    ghost use Rattle.sched_core.specs.Plan.{IsLawful};

    /// A table of lawful jobs in which nothing is claimed, and one seat for each of 1 to 64 workers.
    ///
    /// # Errors
    ///
    /// `OutOfMemory`.
    pub fn new(alloc: Global, jobs: J, workers: u32) -> Result<Opened<J>, OutOfMemory>
        requires jobs { IsLawful (J.plan jobs) }
        requires workers { (0 < workers) × (workers ≤ 64) }
        ensures jobs { IfOk result (λ o. o.table.1 ≡ jobs) }
        ensures count { IfOk result (λ o. length o.seats ≡ workers) }
        ensures seats { IfOk result (λ o. All (λ s. IsSeatOf o.table.0 s × IsNew s.token.me.0) o.seats) }
    {
        let roots = jobs.roots();
        let _ = roots;
        let count = jobs.queries() as usize + 1;
        let slots = Slots::new(alloc, &jobs)?;
        let words: Vec<u64> = vec![in alloc; 0; count]?;
        let about = About { jobs, workers };
        let (table, mut first) = Table::of_words(alloc, words.as_slice(), &about)?;
        let mut seats: List<Seat> = List::new(alloc);
        for k in 1..workers {
            seats.push(Seat {
                token: table.shared.split_seat::<NewSeat>(&mut first),
                worker: k,
            })?;
        }
        seats.push(Seat {
            token: first,
            worker: 0,
        })?;
        let About { jobs, workers: _ } = about;
        Ok(Opened {
            table: QueryTable { table, slots, jobs },
            seats,
        })
    }
}

impl<J: Jobs + Drop> QueryTable<J> {
    ghost use Rattle.sched_core.specs.Plan.{IsLawful};

    /// The answers behind the words, and the jobs.
    pub(crate) fn into_slots(self) -> (Slots<J>, J)
        ensures { (result.0 ≡ self.1) × (result.1 ≡ self.1) × IsLawful (J.plan self.1) }
    {
        let QueryTable {
            table: _,
            slots,
            jobs,
        } = self;
        (slots, jobs)
    }
}

impl<J: Jobs> QueryTable<J> {
    ghost use Rattle.query_table.specs.Answers.{IsClaimOf, IsBorrowOf, IsStolenOf};
    ghost use Rattle.std.specs.Prelude.{true, false};

    /// Puts the defined answer of the claim's query into its slot.
    pub fn put<R: Wait>(&self, rt: &R, claim: &mut Claim, answer: J::Answer)
        requires claim { IsClaimOf self.now.0 (J.plan self.now.1).queries claim.old }
        requires empty { claim.old.filled ≡ false }
        requires answer { answer ≡ J.out self.now.1 claim.old.query }
        ensures { claim.new ≡ record claim.old { filled = true } }
    {
        self.slots.put(rt, claim.query, answer);
        claim.filled = true;
    }

    /// The right to read the defined answer of the borrowed slot. It lives no longer than the borrow: it has to be given back before `release`.
    pub fn show<'a, R: Wait>(&'a self, rt: &R, borrow: &'a Borrow) -> AnswerShown<'a, J>
        requires { IsBorrowOf self.now.0 (J.plan self.now.1).queries borrow.now }
        ensures query { result.shown.query ≡ borrow.now.slot }
        ensures jobs { result.shown.jobs.value ≡ self.now.1 }
    {
        self.slots.show(rt, borrow.slot)
    }

    /// Takes the defined answer out of the stolen slot.
    pub fn take<R: Wait>(&self, rt: &R, stolen: Stolen) -> J::Answer
        requires { IsStolenOf self.now.0 (J.plan self.now.1).queries stolen }
        ensures { result ≡ J.out self.now.1 stolen.slot }
    {
        let Stolen { slot, by: _ } = stolen;
        self.slots.take(rt, slot)
    }
}
