//! All workers on one thread, in the order of a schedule.
ghost use Rattle.std.specs.Prelude.{◌≡◌, ◌≢◌, ℕ, ◌+◌, ◌-◌, ◌<◌, ◌≤◌, List, [], ◌∷◌, ◌++◌, All, length, slice_get, slice_set, replicate, Option, Some, None, IfOk, OnOk, IfSome, MatchOption, option_to_list, true, false};
ghost use Rattle.sched_core.specs.Plan.{Plan, IsLawful, has, next_need};
ghost use Rattle.sched_core.specs.State.{State, done, start, Legal, next, after};
ghost use Rattle.sched_core.specs.Turn.{turn, moved};
ghost use Rattle.sched_core.specs.Work.{trail_of, work_left};
ghost use Rattle.sched_core.specs.Shown.{state_of, GoodFor, IsTold};
ghost use Rattle.sched_core.specs.Held.{Weaves, Holds, without, roots_answers, RootsStay};
ghost use Rattle.sched_core.specs.declared.Event.TheVariants.{Fail};

use crate::state::Core;
use crate::{Event, Jobs, Status};
use mir_syntax::{List, OutOfMemory};
use std::alloc::Global;

/// What a weave gives.
#[derive(Drop)]
pub struct Woven<A> {
    /// The roots' answers, in their order.
    pub answers: List<A>,
    /// The events of the schedule's turns.
    pub trail: List<Event>,
}

// A core, with the works and the answers by query.
#[derive(Drop)]
struct Loom<J: Jobs> {
    core: Core,
    works: Vec<Option<J::Work>>,
    answers: Vec<Option<J::Answer>>,
}

// So many empty places.
fn places<T: Drop>(alloc: Global, count: usize) -> Result<Vec<Option<T>>, OutOfMemory>
    ensures { IfOk result (λ places. places.items ≡ replicate count None) }
{
    let mut places = Vec::new(alloc);
    for _ in 0..count {
        if places.push(None).is_err() {
            return Err(OutOfMemory);
        }
    }
    Ok(places)
}

// The query's work begins.
fn begin_work<J: Jobs>(
    jobs: &J,
    works: &mut Vec<Option<J::Work>>,
    q: u32,
) -> Result<(), OutOfMemory>
    requires { (q < (J.plan jobs.now).queries) × (q < length works.old.items) }
    ensures { OnOk result ((x : J.Work) × (works.new.items ≡ slice_set works.old.items q (Some x)) × J.is_work jobs.now q x × (J.given jobs.now q x ≡ [])) }
{
    let work = jobs.begin(q)?;
    works[q as usize] = Some(work);
    Ok(())
}

// The query's work is given the answer of its next need.
fn give_need<J: Jobs>(
    jobs: &J,
    works: &mut Vec<Option<J::Work>>,
    answers: &Vec<Option<J::Answer>>,
    q: u32,
    need: u32,
) -> Result<(), OutOfMemory>
    requires query { (q < (J.plan jobs.now).queries) × ((J.plan jobs.now).steals q ≢ Some need) }
    requires work { (x : J.Work) × (slice_get works.old.items q ≡ Some (Some x)) × J.is_work jobs.now q x × (next_need ((J.plan jobs.now).needs q) (J.given jobs.now q x) ≡ Some need) }
    requires answer { slice_get answers.now.items need ≡ Some (Some (J.out jobs.now need)) }
    ensures { OnOk result ((y : J.Work) × (works.new.items ≡ slice_set works.old.items q (Some y)) × J.is_work jobs.now q y × ((x : J.Work) → slice_get works.old.items q ≡ Some (Some x) → J.given jobs.now q y ≡ J.given jobs.now q x ++ need ∷ [])) }
{
    let Some(Some(answer)) = answers.get(need as usize) else {
        unreachable!();
    };
    let Some(mut work) = works[q as usize].take() else {
        unreachable!();
    };
    jobs.give(q, &mut work, need, answer)?;
    works[q as usize] = Some(work);
    Ok(())
}

// The stolen answer leaves its place.
fn take_stolen<A: Drop>(answers: &mut Vec<Option<A>>, steals: Option<u32>) -> Option<A>
    requires { IfSome steals (λ s. s < length answers.old.items) }
    ensures taken { MatchOption steals (result ≡ None) (λ s. Some result ≡ slice_get answers.old.items s) }
    ensures rest { answers.new.items ≡ without steals answers.old.items }
{
    match steals {
        Some(s) => answers[s as usize].take(),
        None => None,
    }
}

// The query's work is finished, and its answer is put in its place.
fn finish_work<J: Jobs>(
    jobs: &J,
    works: &mut Vec<Option<J::Work>>,
    answers: &mut Vec<Option<J::Answer>>,
    q: u32,
) -> Result<(), OutOfMemory>
    requires query { (q < (J.plan jobs.now).queries) × (q < length answers.old.items) }
    requires work { (x : J.Work) × (slice_get works.old.items q ≡ Some (Some x)) × J.is_work jobs.now q x × ((n : ℕ) → has n ((J.plan jobs.now).needs q) ≡ true → (J.plan jobs.now).steals q ≢ Some n → has n (J.given jobs.now q x) ≡ true) }
    requires taken { IfSome ((J.plan jobs.now).steals q) (λ s. slice_get answers.old.items s ≡ Some (Some (J.out jobs.now s))) }
    ensures works { OnOk result (works.new.items ≡ slice_set works.old.items q None) }
    ensures answers { OnOk result (answers.new.items ≡ slice_set (without ((J.plan jobs.now).steals q) answers.old.items) q (Some (J.out jobs.now q))) }
{
    let Some(work) = works[q as usize].take() else {
        unreachable!();
    };
    let taken = take_stolen(answers, jobs.steals(q));
    let answer = jobs.finish(q, work, taken)?;
    answers[q as usize] = Some(answer);
    Ok(())
}

// The event of a turn, if it didn't pass, is put at the end.
fn note(trail: &mut List<Event>, event: Option<Event>) -> Result<(), OutOfMemory>
    ensures { OnOk result (trail.new ≡ trail.old ++ option_to_list event) }
{
    match event {
        Some(event) => trail.push(event),
        None => Ok(()),
    }
}

impl<J: Jobs> Loom<J> {
    fn new(alloc: Global, jobs: &J, workers: u32) -> Result<Loom<J>, OutOfMemory>
        requires jobs { IsLawful (J.plan jobs.now) }
        requires workers { (1 ≤ workers) × (workers ≤ 64) }
        ensures { IfOk result (λ loom. Weaves (J.is_work jobs.now) (J.given jobs.now) (J.out jobs.now) (J.plan jobs.now) loom.core loom.works.items loom.answers.items × (state_of loom.core ≡ start workers)) }
    {
        let queries = jobs.queries() as usize;
        Ok(Loom {
            core: Core::new(alloc, jobs, workers)?,
            works: places(alloc, queries)?,
            answers: places(alloc, queries)?,
        })
    }

    // The core is told the next need of the worker's top, where it wasn't yet.
    fn tell(&mut self, jobs: &J, w: u32) -> Result<(), OutOfMemory>
        requires loom { Weaves (J.is_work jobs.now) (J.given jobs.now) (J.out jobs.now) (J.plan jobs.now) self.old.core self.old.works.items self.old.answers.items }
        requires worker { w < length self.old.core.borrow.items }
        ensures loom { OnOk result (Weaves (J.is_work jobs.now) (J.given jobs.now) (J.out jobs.now) (J.plan jobs.now) self.new.core self.new.works.items self.new.answers.items) }
        ensures state { state_of self.new.core ≡ state_of self.old.core }
        ensures told { OnOk result (IsTold (J.plan jobs.now) self.new.core w) }
    {
        let Some(q) = self.core.top(w) else {
            return Ok(());
        };
        if self.core.told[w as usize].is_some() {
            return Ok(());
        }
        match self.works.get(q as usize) {
            Some(Some(work)) => self.core.tell(w, jobs.next(q, work)),
            _ => unreachable!(),
        }
    }

    // The works and answers move as the event says, before the core does.
    fn carry(&mut self, jobs: &J, event: Event) -> Result<(), OutOfMemory>
        requires loom { Weaves (J.is_work jobs.now) (J.given jobs.now) (J.out jobs.now) (J.plan jobs.now) self.old.core self.old.works.items self.old.answers.items }
        requires legal { Legal (J.plan jobs.now) (state_of self.old.core) event × ((w : ℕ) → event ≢ Fail w) }
        ensures holds { OnOk result (Holds (J.is_work jobs.now) (J.given jobs.now) (J.out jobs.now) (J.plan jobs.now) (after (J.plan jobs.now) (state_of self.old.core) event) self.new.works.items self.new.answers.items) }
        ensures core { self.new.core ≡ self.old.core }
    {
        match event {
            Event::Claim(_, q) => begin_work(jobs, &mut self.works, q),
            Event::Release(w, s) => match self.core.top(w) {
                Some(q) => give_need(jobs, &mut self.works, &self.answers, q, s),
                None => unreachable!(),
            },
            Event::Publish(w) => match self.core.top(w) {
                Some(q) => finish_work(jobs, &mut self.works, &mut self.answers, q),
                None => unreachable!(),
            },
            Event::Look(_, _) => Ok(()),
            Event::Borrow(_, _) => Ok(()),
            Event::Steal(_, _) => Ok(()),
            Event::Draw(_) => Ok(()),
            Event::Fail(_) => unreachable!(),
        }
    }

    // One turn of a worker. `None` where it passes.
    fn turn(&mut self, jobs: &J, w: u32) -> Result<Option<Event>, OutOfMemory>
        requires loom { Weaves (J.is_work jobs.now) (J.given jobs.now) (J.out jobs.now) (J.plan jobs.now) self.old.core self.old.works.items self.old.answers.items }
        requires worker { w < length self.old.core.borrow.items }
        ensures loom { OnOk result (Weaves (J.is_work jobs.now) (J.given jobs.now) (J.out jobs.now) (J.plan jobs.now) self.new.core self.new.works.items self.new.answers.items) }
        ensures event { IfOk result (λ event. (event ≡ turn (J.plan jobs.now) (state_of self.old.core) w) × (state_of self.new.core ≡ moved (J.plan jobs.now) (state_of self.old.core) event)) }
    {
        self.tell(jobs, w)?;
        let Some(event) = self.core.turn(jobs, w) else {
            return Ok(None);
        };
        self.carry(jobs, event)?;
        self.core.act(jobs, event);
        Ok(Some(event))
    }

    // One turn of each worker, while a root isn't done.
    fn round(&mut self, jobs: &J) -> Result<(), OutOfMemory>
        requires loom { Weaves (J.is_work jobs.now) (J.given jobs.now) (J.out jobs.now) (J.plan jobs.now) self.old.core self.old.works.items self.old.answers.items }
        requires undone { (0 < length self.old.core.borrow.items) × ((i : ℕ) × (i < (J.plan jobs.now).roots) × (done ((state_of self.old.core).status ((J.plan jobs.now).root i)) ≡ false)) }
        ensures loom { OnOk result (Weaves (J.is_work jobs.now) (J.given jobs.now) (J.out jobs.now) (J.plan jobs.now) self.new.core self.new.works.items self.new.answers.items) }
        ensures workers { OnOk result (length self.new.core.borrow.items ≡ length self.old.core.borrow.items) }
        ensures roots { OnOk result (RootsStay (J.plan jobs.now) (state_of self.old.core) (state_of self.new.core)) }
        ensures less { OnOk result (work_left (J.plan jobs.now) (state_of self.new.core) < work_left (J.plan jobs.now) (state_of self.old.core)) }
    {
        let workers = self.core.borrow.len();
        for w in 0..workers {
            self.turn(jobs, w as u32)?;
        }
        Ok(())
    }

    // The workers take turns until the root is done.
    fn work_on(&mut self, jobs: &J, i: u32) -> Result<(), OutOfMemory>
        requires loom { Weaves (J.is_work jobs.now) (J.given jobs.now) (J.out jobs.now) (J.plan jobs.now) self.old.core self.old.works.items self.old.answers.items }
        requires root { (i < (J.plan jobs.now).roots) × (0 < length self.old.core.borrow.items) }
        ensures loom { OnOk result (Weaves (J.is_work jobs.now) (J.given jobs.now) (J.out jobs.now) (J.plan jobs.now) self.new.core self.new.works.items self.new.answers.items) }
        ensures workers { OnOk result (length self.new.core.borrow.items ≡ length self.old.core.borrow.items) }
        ensures roots { OnOk result (RootsStay (J.plan jobs.now) (state_of self.old.core) (state_of self.new.core)) }
        ensures done { OnOk result (done ((state_of self.new.core).status ((J.plan jobs.now).root i)) ≡ true) }
    {
        let root = jobs.root(i);
        while !self.core.is_done(root) {
            self.round(jobs)?;
        }
        Ok(())
    }

    // The turns of the schedule.
    fn follow(
        &mut self,
        alloc: Global,
        jobs: &J,
        schedule: &[u32],
    ) -> Result<List<Event>, OutOfMemory>
        requires loom { Weaves (J.is_work jobs.now) (J.given jobs.now) (J.out jobs.now) (J.plan jobs.now) self.old.core self.old.works.items self.old.answers.items }
        requires schedule { All (λ w. w < length self.old.core.borrow.items) schedule.now }
        ensures loom { OnOk result (Weaves (J.is_work jobs.now) (J.given jobs.now) (J.out jobs.now) (J.plan jobs.now) self.new.core self.new.works.items self.new.answers.items) }
        ensures workers { OnOk result (length self.new.core.borrow.items ≡ length self.old.core.borrow.items) }
        ensures trail { IfOk result (λ trail. trail ≡ trail_of (J.plan jobs.now) (state_of self.old.core) schedule.now) }
    {
        let mut trail = List::new(alloc);
        for w in schedule {
            let event = self.turn(jobs, *w)?;
            note(&mut trail, event)?;
        }
        Ok(trail)
    }

    // The workers take turns until all roots are done.
    fn finish(&mut self, jobs: &J) -> Result<(), OutOfMemory>
        requires loom { Weaves (J.is_work jobs.now) (J.given jobs.now) (J.out jobs.now) (J.plan jobs.now) self.old.core self.old.works.items self.old.answers.items }
        requires workers { 0 < length self.old.core.borrow.items }
        ensures loom { OnOk result (Weaves (J.is_work jobs.now) (J.given jobs.now) (J.out jobs.now) (J.plan jobs.now) self.new.core self.new.works.items self.new.answers.items) }
        ensures done { OnOk result ((i : ℕ) → i < (J.plan jobs.now).roots → done ((state_of self.new.core).status ((J.plan jobs.now).root i)) ≡ true) }
    {
        for i in 0..jobs.roots() {
            self.work_on(jobs, i)?;
        }
        Ok(())
    }

    // The roots' answers, which are all there, leave their places.
    fn answers(self, alloc: Global, jobs: &J) -> Result<List<J::Answer>, OutOfMemory>
        requires loom { Weaves (J.is_work jobs.now) (J.given jobs.now) (J.out jobs.now) (J.plan jobs.now) self.core self.works.items self.answers.items }
        requires done { (i : ℕ) → i < (J.plan jobs.now).roots → done ((state_of self.core).status ((J.plan jobs.now).root i)) ≡ true }
        ensures { IfOk result (λ answers. answers ≡ roots_answers (J.out jobs.now) (J.plan jobs.now) 0 (J.plan jobs.now).roots) }
    {
        let mut places = self.answers;
        let mut answers = List::new(alloc);
        for i in 0..jobs.roots() {
            let Some(answer) = places[jobs.root(i) as usize].take() else {
                unreachable!();
            };
            answers.push(answer)?;
        }
        Ok(answers)
    }
}

/// Answers the roots of lawful jobs by so many workers (1 to 64) on one thread. The schedule is the workers' numbers in the order of their turns; after its end
/// the workers take turns in order until all roots are done.
///
/// The answers are the defined ones whatever the schedule, and the trail is that of the schedule's turns from a new core.
///
/// # Errors
///
/// `OutOfMemory`.
pub fn weave<J: Jobs>(
    alloc: Global,
    jobs: &J,
    workers: u32,
    schedule: &[u32],
) -> Result<Woven<J::Answer>, OutOfMemory>
    requires jobs { IsLawful (J.plan jobs.now) }
    requires workers { (1 ≤ workers) × (workers ≤ 64) }
    requires schedule { All (λ w. w < workers) schedule.now }
    ensures answers { IfOk result (λ woven. woven.answers ≡ roots_answers (J.out jobs.now) (J.plan jobs.now) 0 (J.plan jobs.now).roots) }
    ensures trail { IfOk result (λ woven. woven.trail ≡ trail_of (J.plan jobs.now) (start workers) schedule.now) }
{
    let mut loom = Loom::new(alloc, jobs, workers)?;
    let trail = loom.follow(alloc, jobs, schedule)?;
    loom.finish(jobs)?;
    let answers = loom.answers(alloc, jobs)?;
    Ok(Woven { answers, trail })
}
