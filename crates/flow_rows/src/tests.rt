use crate::{
    End, Line, body, borrowed_locals, chain, flat_if_ready, live_starts, program, pruned_if_ready,
    sources, stmt_counts, trimmed_if_ready, written,
};
use mir_syntax::OutOfMemory;
use std::alloc::Global;
use std::test::Fail;

#[test]
fn three_rounds_prune_and_unused_locals_go(rt: HostRuntime) -> Result<(), Fail> {
    let alloc = rt.alloc();
    let made = program(alloc)?;
    let lines = [
        Line::Copy(2, 1),
        Line::Copy(3, 2),
        Line::Copy(4, 3),
        Line::Copy(5, 4),
        Line::Constant(0),
    ];
    let plan = [(lines.as_slice(), End::Return)];
    let body = body(alloc, made.byte, 6, plan.as_slice())?;
    let Some(left) = pruned_if_ready(alloc, &made.program, body)? else {
        assert!(rt; false);
        return Ok(());
    };
    assert_eq!(rt; written(alloc, &left, 0)?.as_slice(), [2, 0].as_slice());
    let Some(left) = trimmed_if_ready(alloc, &made.program, left)? else {
        assert!(rt; false);
        return Ok(());
    };
    assert_eq!(rt; written(alloc, &left, 0)?.as_slice(), [2, 0].as_slice());
    assert_eq!(rt; left.locals.len(), 3);
    Ok(())
}

#[test]
fn a_result_is_live_along_a_chain(rt: HostRuntime) -> Result<(), Fail> {
    let alloc = rt.alloc();
    let made = program(alloc)?;
    let body = chain(alloc, made.byte, 1999)?;
    let starts = live_starts(alloc, &made.program, &body)?;
    assert_eq!(rt; starts.len(), 2000);
    for start in &starts {
        assert_eq!(rt; start.as_slice(), [1].as_slice());
    }
    Ok(())
}

#[test]
fn a_swap_reads_both_arguments(rt: HostRuntime) -> Result<(), Fail> {
    let alloc = rt.alloc();
    let made = program(alloc)?;
    let lines = [
        Line::Copy(3, 1),
        Line::Copy(1, 2),
        Line::Copy(2, 3),
        Line::Subtract(0, 1, 2),
    ];
    let plan = [(lines.as_slice(), End::Return)];
    let body = body(alloc, made.byte, 4, plan.as_slice())?;
    let starts = live_starts(alloc, &made.program, &body)?;
    assert_eq!(rt; starts.len(), 1);
    for start in &starts {
        assert_eq!(rt; start.as_slice(), [1, 2].as_slice());
    }
    Ok(())
}

// A loop with the head bb1, bb2 that goes back to it and the way out bb3, and bb4, to which no edge leads.
#[test]
fn a_loop_carries_what_its_blocks_read(rt: HostRuntime) -> Result<(), Fail> {
    let alloc = rt.alloc();
    let made = program(alloc)?;
    let plan = [
        ([Line::Copy(2, 1)].as_slice(), End::Goto(1)),
        ([].as_slice(), End::Choose(2, 2, 3)),
        ([Line::Copy(2, 3)].as_slice(), End::Goto(1)),
        ([Line::Copy(0, 1)].as_slice(), End::Return),
        ([Line::Copy(0, 4)].as_slice(), End::Goto(1)),
    ];
    let body = body(alloc, made.byte, 5, plan.as_slice())?;
    let starts = live_starts(alloc, &made.program, &body)?;
    let wanted = [
        [1, 3].as_slice(),
        [1, 2, 3].as_slice(),
        [1, 3].as_slice(),
        [1].as_slice(),
        [1, 2, 3, 4].as_slice(),
    ];
    assert_eq!(rt; starts.len(), 5);
    for (start, want) in starts.iter().zip(wanted) {
        assert_eq!(rt; start.as_slice(), want);
    }
    Ok(())
}

/// The locals that the first block of a pruned body writes.
fn left(alloc: Global, plan: &[(&[Line], End)]) -> Result<Vec<u32>, OutOfMemory> {
    let made = program(alloc)?;
    let body = body(alloc, made.byte, 3, plan)?;
    match pruned_if_ready(alloc, &made.program, body)? {
        Some(body) => written(alloc, &body, 0),
        None => Ok(Vec::new(alloc)),
    }
}

// A call that writes a part of a local leaves the rest of it, but no local is live that nobody reads.
#[test]
fn a_call_into_a_part_keeps_what_is_read(rt: HostRuntime) -> Result<(), Fail> {
    let call = ([Line::Copy(1, 2)].as_slice(), End::CallInto(1, 0, 1));
    let read = ([Line::CopyPart(0, 1, 1)].as_slice(), End::Return);
    let unread = ([Line::Constant(0)].as_slice(), End::Return);
    let kept = left(rt.alloc(), [call, read].as_slice())?;
    assert_eq!(rt; kept.as_slice(), [1].as_slice());
    let gone = left(rt.alloc(), [call, unread].as_slice())?;
    assert!(rt; gone.is_empty());
    Ok(())
}

// A borrowed local stays while the reference is used, and each round asks again what is borrowed.
#[test]
fn a_borrowed_local_stays_while_it_is_lent(rt: HostRuntime) -> Result<(), Fail> {
    let lines = [
        Line::Constant(1),
        Line::Borrow(2, 1),
        Line::Store(2),
        Line::Constant(0),
    ];
    let used = left(rt.alloc(), [(lines.as_slice(), End::Return)].as_slice())?;
    assert_eq!(rt; used.as_slice(), [1, 2, 2, 0].as_slice());
    let lines = [Line::Constant(1), Line::Borrow(2, 1), Line::Constant(0)];
    let idle = left(rt.alloc(), [(lines.as_slice(), End::Return)].as_slice())?;
    assert_eq!(rt; idle.as_slice(), [0].as_slice());
    Ok(())
}

#[test]
fn edges_and_loans_are_told(rt: HostRuntime) -> Result<(), Fail> {
    let alloc = rt.alloc();
    let made = program(alloc)?;
    let turns = [([].as_slice(), End::Goto(1)), ([].as_slice(), End::Goto(1))];
    let turning = body(alloc, made.byte, 1, turns.as_slice())?;
    let found = sources(alloc, &made.program, &turning)?;
    let wanted = [[].as_slice(), [0, 1].as_slice()];
    assert_eq!(rt; found.len(), 2);
    for (from, want) in found.as_slice().iter().zip(wanted) {
        assert_eq!(rt; from.as_slice(), want);
    }
    let lines = [
        Line::Borrow(3, 1),
        Line::Borrow(4, 3),
        Line::Borrow(5, 2),
        Line::Reborrow(5, 4),
    ];
    let plan = [(lines.as_slice(), End::Return)];
    let lending = body(alloc, made.byte, 6, plan.as_slice())?;
    let lent = borrowed_locals(alloc, &made.program, &lending)?;
    assert_eq!(rt; lent.as_slice(), [1, 2, 3].as_slice());
    Ok(())
}

#[test]
fn a_body_in_one_table_has_the_same_blocks(rt: HostRuntime) -> Result<(), Fail> {
    let alloc = rt.alloc();
    let made = program(alloc)?;
    let (none, choice, answer) = ([].as_slice(), [Line::Constant(2)], [Line::Constant(0)]);
    let plan = [
        (none, End::Choose(1, 2, 1)),
        (choice.as_slice(), End::Goto(3)),
        (choice.as_slice(), End::Goto(3)),
        (none, End::Choose(2, 5, 4)),
        (answer.as_slice(), End::Goto(6)),
        (answer.as_slice(), End::Goto(6)),
        (none, End::Return),
    ];
    let body = body(alloc, made.byte, 3, plan.as_slice())?;
    let Some(flat) = flat_if_ready(alloc, &made.program, body)? else {
        assert!(rt; false);
        return Ok(());
    };
    let copy = flat.copy(alloc)?;
    let counts = stmt_counts(alloc, &copy)?;
    assert_eq!(rt; counts.as_slice(), [0, 1, 1, 0, 1, 1, 0].as_slice());
    let back = copy.to_body(alloc)?;
    assert_eq!(rt; back.blocks.len(), 7);
    assert_eq!(rt; written(alloc, &back, 4)?.as_slice(), [0].as_slice());
    Ok(())
}
