ghost use Rattle.std.specs.Prelude.{◌≡◌, ◌≢◌, ◌<◌, ◌≤◌, ℕ, true, All, List, [], ◌∷◌, Some, None, IfOk, MatchOption, if◌then◌else◌};
ghost use Rattle.sched_core.specs.Plan.{has};
ghost use Rattle.sched_core.specs.TestJobs.{plan, out, own, stolen, IsWork, few};

use crate::{Core, Event, Illegal, Jobs, Why, weave};
use mir_syntax::{List, OutOfMemory};
use std::alloc::Global;
use std::test::Fail;

// Five queries, of which 3 and 4 are the roots. 2 reads the answer of 1, 3 steals it, and 4 reads the query that 0 answers.
#[derive(Drop)]
struct Five {
    alloc: Global,
    // Whether 0 answers 3, else 2.
    far: bool,
    // The query for whose answer there is no memory.
    fails: Option<u32>,
}

// The queries that were given, and their answers, end to end.
#[derive(Drop)]
struct Work {
    given: List<u32>,
    items: List<u32>,
}

impl Five {
    // What a query adds to its answer.
    #[tactic(auto, using(crate::proofs::TestJobs::own_else))]
    fn own(&self, q: u32) -> u32
        ensures { result ≡ own self.now.far q }
    {
        if q > 0 {
            q
        } else if self.far {
            3
        } else {
            2
        }
    }
}

impl Jobs for Five {
    type Answer = List<u32>;

    type Work = Work;

    ghost plan = { λ jobs. plan jobs.far };

    ghost out = { λ jobs q. out jobs.far q };

    ghost is_work = { λ jobs q work. IsWork jobs.far q work.given work.items };

    ghost given = { λ _ _ work. work.given };

    fn queries(&self) -> u32 {
        5
    }

    fn roots(&self) -> u32 {
        2
    }

    fn root(&self, i: u32) -> u32 {
        i + 3
    }

    fn steals(&self, q: u32) -> Option<u32> {
        if q == 3 { Some(1) } else { None }
    }

    fn begin(&self, _q: u32) -> Result<Work, OutOfMemory> {
        Ok(Work {
            given: List::new(self.alloc),
            items: List::new(self.alloc),
        })
    }

    fn next(&self, q: u32, work: &Work) -> Option<u32> {
        match (q, work.given.len()) {
            (2, 0) => Some(1),
            (3, 0) => Some(2),
            (3, 1) => Some(1),
            (4, 0) => Some(0),
            (4, 1) => work.items.get(0).copied(),
            _ => None,
        }
    }

    fn give(
        &self,
        _q: u32,
        work: &mut Work,
        need: u32,
        answer: &List<u32>,
    ) -> Result<(), OutOfMemory> {
        work.items.extend(answer.as_slice())?;
        work.given.push(need)?;
        Ok(())
    }

    fn finish(&self, q: u32, work: Work, taken: Option<List<u32>>) -> Result<List<u32>, OutOfMemory>
        requires work { (q < 5) × IsWork self.now.far q work.given work.items }
        requires needs { (n : ℕ) → has n ((plan self.now.far).needs q) ≡ true → stolen q ≢ Some n → has n work.given ≡ true }
        requires taken { MatchOption (stolen q) (taken ≡ None) (λ s. taken ≡ Some (out self.now.far s)) }
        ensures { IfOk result (λ answer. answer ≡ out self.now.far q) }
    {
        if self.fails == Some(q) {
            return Err(OutOfMemory);
        }
        let mut answer = match taken {
            Some(taken) => taken,
            None => List::new(self.alloc),
        };
        answer.append(work.items)?;
        answer.push(self.own(q))?;
        Ok(answer)
    }
}

// One query, which is the root, or two, of which the root reads the other. Each answers 7.
#[derive(Drop)]
struct Few {
    two: bool,
}

// Whether a query was given what it reads.
#[derive(Drop)]
struct Reading {
    given: bool,
}

impl Jobs for Few {
    type Answer = u32;

    type Work = Reading;

    ghost plan = { λ jobs. few jobs.two };

    ghost out = { λ _ q. 7 };

    ghost is_work = { λ _ q work. Unit {0} };

    ghost given = { λ _ _ work. if work.given then 0 ∷ [] else [] };

    fn queries(&self) -> u32 {
        if self.two { 2 } else { 1 }
    }

    fn roots(&self) -> u32 {
        1
    }

    fn root(&self, _i: u32) -> u32 {
        if self.two { 1 } else { 0 }
    }

    fn steals(&self, _q: u32) -> Option<u32> {
        None
    }

    fn begin(&self, _q: u32) -> Result<Reading, OutOfMemory> {
        Ok(Reading { given: false })
    }

    fn next(&self, q: u32, work: &Reading) -> Option<u32> {
        match (q, work.given) {
            (1, false) => Some(0),
            _ => None,
        }
    }

    fn give(
        &self,
        _q: u32,
        work: &mut Reading,
        _need: u32,
        _answer: &u32,
    ) -> Result<(), OutOfMemory> {
        work.given = true;
        Ok(())
    }

    fn finish(&self, _q: u32, _work: Reading, _taken: Option<u32>) -> Result<u32, OutOfMemory>
        ensures { IfOk result (λ answer. answer ≡ 7) }
    {
        Ok(7)
    }
}

// 60 workers' numbers, drawn by a linear generator.
fn drawn(alloc: Global, start: u32, workers: u32) -> Result<List<u32>, OutOfMemory>
    requires { 1 ≤ workers }
    ensures { IfOk result (λ schedule. All (λ w. w < workers) schedule) }
{
    let mut schedule = List::new(alloc);
    let mut state = start;
    for _ in 0..60 {
        state = state.wrapping_mul(1664525).wrapping_add(1013904223);
        schedule.push((state >> 16) % workers)?;
    }
    Ok(schedule)
}

#[test]
fn publish_in_a_new_core_is_illegal(rt: HostRuntime) -> Result<(), Fail> {
    let jobs = Five {
        alloc: rt.alloc(),
        far: false,
        fails: None,
    };
    let mut core = Core::new(rt.alloc(), &jobs, 1)?;
    assert_eq!(rt;
        core.step(&jobs, Event::Publish(0)),
        Err(Illegal {
            event: Event::Publish(0),
            why: Why::NotTop(0)
        })
    );
    Ok(())
}

#[test]
#[tactic(auto, using(crate::proofs::TestLaws::few_lawful))]
fn one_query_has_a_trail_of_three(rt: HostRuntime) -> Result<(), Fail> {
    let woven = weave(rt.alloc(), &Few { two: false }, 1, [0, 0, 0, 0].as_slice())?;
    assert_eq!(rt; woven.answers.as_slice(), [7].as_slice());
    assert_eq!(rt;
        woven.trail.as_slice(),
        [Event::Draw(0), Event::Claim(0, 0), Event::Publish(0)].as_slice()
    );
    Ok(())
}

#[test]
fn every_schedule_gives_the_same_answers(rt: HostRuntime) -> Result<(), Fail> {
    let alloc = rt.alloc();
    for workers in 1..4 {
        for start in 0..200 {
            let jobs = Five {
                alloc,
                far: start % 2 == 1,
                fails: None,
            };
            let schedule = drawn(alloc, start, workers)?;
            let woven = weave(alloc, &jobs, workers, schedule.as_slice())?;
            let stolen = woven.answers.get(0).ok_or("no root")?;
            let chosen = woven.answers.get(1).ok_or("one root")?;
            if jobs.far {
                assert_eq!(rt;
                    chosen.as_slice(),
                    [3, 1, 1, 2, 3, 4].as_slice(),
                    "by {workers} from {start}"
                );
            } else {
                assert_eq!(rt;
                    chosen.as_slice(),
                    [2, 1, 2, 4].as_slice(),
                    "by {workers} from {start}"
                );
            }
            assert_eq!(rt;
                stolen.as_slice(),
                [1, 1, 2, 3].as_slice(),
                "by {workers} from {start}"
            );
        }
    }
    Ok(())
}

#[test]
fn want_of_memory_ends_a_weave(rt: HostRuntime) -> Result<(), Fail> {
    let alloc = rt.alloc();
    for q in 0..5 {
        let jobs = Five {
            alloc,
            far: true,
            fails: Some(q),
        };
        assert!(rt; weave(alloc, &jobs, 2, [].as_slice()).is_err(), "at {q}");
    }
    Ok(())
}
