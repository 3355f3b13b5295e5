ghost use Rattle.std.specs.Prelude.{◌≡◌, IfOk, IfSome};
ghost use Rattle.query_table.specs.Answers.{IsSeatOf};
ghost use Rattle.query_table.specs.Chain.{IsIdle};
ghost use Rattle.query_table.specs.Steps.{IsNew};
ghost use Rattle.small_jobs.specs.Race.{HasClaimed};

use crate::Small;
use mir_syntax::{List, OutOfMemory};
use query_table::{Claim, Claimed, Looked, OpenGate, Opened, QueryTable, Seat};
use sched_core::{Woven, weave};
use std::alloc::Global;
use std::sync::Wait;
use std::test::Fail;
use std::thread::{self, Threads};

// A table of small jobs with two seats.
fn opened(alloc: Global, fails: Option<u32>) -> Result<(QueryTable<Small>, Seat, Seat), OutOfMemory>
    ensures first { IfOk result (λ o. IsSeatOf o.0.0 o.1 × IsNew o.1.token.me.0) }
    ensures second { IfOk result (λ o. IsSeatOf o.0.0 o.2 × IsNew o.2.token.me.0) }
{
    let Opened { table, mut seats } = QueryTable::new(alloc, Small::new(fails), 2)?;
    let Some(first) = seats.pop() else {
        return Err(OutOfMemory);
    };
    let Some(second) = seats.pop() else {
        return Err(OutOfMemory);
    };
    Ok((table, first, second))
}

// Draws a root and claims it.
#[tactic(auto, using(crate::proofs::Laws::carried_one))]
fn claim_root(table: &QueryTable<Small>, seat: &mut Seat) -> Option<Claim>
    requires seat { IsSeatOf table.now.0 seat.old }
    requires new { IsNew seat.old.token.me.0 }
    ensures { IfSome result (λ claim. HasClaimed table.now.0 table.now.1.thief_reads claim seat.new) }
{
    let root = table.draw(seat)?;
    match table.claim(seat, root) {
        Claimed::Won(claim) => Some(claim),
        Claimed::Lost(_) => None,
    }
}

// Claims query 1, looks at it where the claim is lost, and gives all up. What was found where it is lost.
fn lose(table: &QueryTable<Small>, seat: &mut Seat, root: Claim) -> Option<(u64, Looked)>
    requires { HasClaimed table.now.0 table.now.1.thief_reads root seat.old }
{
    match table.claim(seat, 1) {
        Claimed::Won(claim) => {
            table.fail(seat, claim);
            table.fail(seat, root);
            None
        }
        Claimed::Lost(word) => {
            let looked = table.look(seat, 1);
            table.fail(seat, root);
            Some((word, looked))
        }
    }
}

// Claims query 1 for the first seat and then for the second. Whether the first won, and what the second found.
fn race(
    table: &QueryTable<Small>,
    first: &mut Seat,
    second: &mut Seat,
    root: Claim,
    other: Claim,
) -> (bool, Option<(u64, Looked)>)
    requires first { HasClaimed table.now.0 table.now.1.thief_reads root first.old }
    requires second { HasClaimed table.now.0 table.now.1.thief_reads other second.old }
{
    let claimed = table.claim(first, 1);
    let found = lose(table, second, other);
    match claimed {
        Claimed::Won(claim) => {
            table.fail(first, claim);
            table.fail(first, root);
            (true, found)
        }
        Claimed::Lost(_) => {
            table.fail(first, root);
            (false, found)
        }
    }
}

#[test]
fn the_second_claim_is_lost(rt: HostRuntime) -> Result<(), Fail> {
    let (table, mut first, mut second) = opened(rt.alloc(), None)?;
    let Some(root) = claim_root(&table, &mut first) else {
        panic!(rt; "no root for the first seat")
    };
    let Some(other) = claim_root(&table, &mut second) else {
        table.fail(&mut first, root);
        panic!(rt; "no root for the second seat")
    };
    let (won, found) = race(&table, &mut first, &mut second, root, other);
    assert!(rt; won);
    assert_eq!(rt; found, Some((1, Looked::NotYet(1))));
    Ok(())
}

// Draws a root and forces it. The root, and whether it is done.
fn force_one<R: Wait>(
    rt: &R,
    alloc: Global,
    table: &QueryTable<Small>,
    mut seat: Seat,
) -> (Seat, Option<(u32, bool)>)
    requires seat { IsSeatOf table.now.0 seat }
    requires new { IsNew seat.token.me.0 }
    ensures { IsIdle table.now.0 result.0 }
{
    let Some(root) = table.draw(&mut seat) else {
        return (seat, None);
    };
    let forced = table.force(rt, alloc, &mut seat, &OpenGate, root);
    (seat, Some((root, forced.is_ok())))
}

// The answers of a table whose roots are done. `None` where one isn't.
fn answers<R: Wait>(
    rt: &R,
    alloc: Global,
    table: QueryTable<Small>,
    mut seat: Seat,
) -> Result<Option<List<u32>>, OutOfMemory>
    requires { IsIdle table.0 seat }
{
    let Looked::Done = table.look(&mut seat, 2) else {
        return Ok(None);
    };
    let Looked::Done = table.look(&mut seat, 3) else {
        return Ok(None);
    };
    let (_, answers) = table.answers(rt, alloc, seat)?.into_parts();
    Ok(Some(answers))
}

// Forces a root on each of two threads. The first seat is given back.
fn force_both<R: Threads + Wait + Sync>(
    rt: &R,
    alloc: Global,
    table: &QueryTable<Small>,
    first: Seat,
    second: Seat,
) -> (Seat, Option<(u32, bool)>, Option<(u32, bool)>)
    requires first { IsSeatOf table.now.0 first × IsNew first.token.me.0 }
    requires second { IsSeatOf table.now.0 second × IsNew second.token.me.0 }
    ensures { IsIdle table.now.0 result.0 }
{
    let ((seat, one), (_, two)) = thread::join(
        rt,
        move || -> (Seat, Option<(u32, bool)>)
            requires { IsSeatOf table.now.0 first × IsNew first.token.me.0 }
            ensures { IsIdle table.entry.now.0 result.0 }
        { force_one(rt, alloc, table, first) },
        move || -> (Seat, Option<(u32, bool)>)
            requires { IsSeatOf table.now.0 second × IsNew second.token.me.0 }
        { force_one(rt, alloc, table, second) },
    );
    (seat, one, two)
}

#[test]
fn two_threads_have_the_woven_answers(rt: HostRuntime) -> Result<(), Fail> {
    let alloc = rt.alloc();
    for _ in 0..100 {
        let (table, first, second) = opened(alloc, None)?;
        let (seat, one, two) = force_both(&rt, alloc, &table, first, second);
        assert!(rt; one.is_some_and(|one| one.1) && two.is_some_and(|two| two.1));
        let answers = answers(&rt, alloc, table, seat)?.ok_or("a root isn't done")?;
        assert_eq!(rt; answers.as_slice(), [18, 24].as_slice());
        let Woven {
            answers: woven,
            trail: _,
        } = weave(alloc, &Small::new(None), 2, [].as_slice())?;
        assert_eq!(rt; answers.as_slice(), woven.as_slice());
    }
    Ok(())
}

#[test]
fn a_failure_reaches_who_needs_it(rt: HostRuntime) -> Result<(), Fail> {
    let alloc = rt.alloc();
    for fails in 0..4 {
        let (table, first, second) = opened(alloc, Some(fails))?;
        let (_, one, two) = force_both(&rt, alloc, &table, first, second);
        for (root, done) in [one.ok_or("no root")?, two.ok_or("no root")?] {
            assert_eq!(rt;
                done,
                fails > 1 && fails != root,
                "root {root} where {fails} fails"
            );
        }
    }
    Ok(())
}
