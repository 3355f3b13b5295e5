//! The body in which calls are replaced, block by block and round by round.
ghost use Rattle.std.specs.Prelude.{◌≡◌, ◌<◌, ◌≤◌, ◌-◌, ◌^◌, length, IfOk, OnOk};
ghost use Rattle.std.specs.List.{range_with_len};
ghost use Rattle.mir_syntax.specs.Ids.{BodyInTable};
ghost use Rattle.mir_syntax.specs.Tree.{trees_of};
ghost use Rattle.mir_syntax.specs.Crate.{body_of};
ghost use Rattle.inline_pass.specs.Spliced.{inlined_at, inlined_in, spliced as spliced_body};
ghost use Rattle.inline_pass.specs.Takes.{AllInlinable, taken_in};
ghost use Rattle.inline_pass.specs.Caller.{IsCaller};

use crate::call::replace;
use crate::callees::{CalleeBodies, callee_at};
use crate::size::{room, stmts};
use mir_syntax::{Body, OutOfMemory, Program};
use std::alloc::Global;

/// How deep calls of inlined bodies are inlined.
const MOST_DEPTH: u32 = 3;

/// A body of which calls are replaced, and how many statements it has.
#[derive(Debug, Drop)]
pub(crate) struct Caller {
    pub body: Body,
    pub stmts: usize,
}

/// Replaces the call that ends the block, if it is one that is inlined and there is room.
fn inline_at<C: CalleeBodies>(
    alloc: Global,
    program: &Program,
    large: bool,
    bodies: &C,
    caller: &mut Caller,
    block: u32,
) -> Result<(), OutOfMemory>
    requires lent { AllInlinable program.now (C.lent bodies.now) }
    requires caller { IsCaller program.now caller.old }
    requires block { block < length caller.old.body.blocks }
    ensures body { OnOk result (body_of (trees_of program.now.types) caller.new.body
        ≡ inlined_at (taken_in program.now large (C.lent bodies.now) (C.qualifies bodies.now)) (body_of (trees_of program.now.types) caller.old.body) block) }
    ensures caller { OnOk result (IsCaller program.now caller.new) }
    ensures grows { OnOk result (length caller.old.body.blocks ≤ length caller.new.body.blocks) }
{
    let blocks = caller.body.blocks.as_slice();
    let Some(callee) = callee_at(program, large, bodies, blocks, block) else {
        return Ok(());
    };
    let Some(stmts) = room(&caller.body, caller.stmts, block, callee) else {
        return Ok(());
    };
    replace(alloc, program, &mut caller.body, block, callee)?;
    caller.stmts = stmts;
    Ok(())
}

/// Replaces the calls that end blocks, from one on and in order.
fn inline_from<C: CalleeBodies>(
    alloc: Global,
    program: &Program,
    large: bool,
    bodies: &C,
    caller: &mut Caller,
    from: u32,
) -> Result<(), OutOfMemory>
    requires lent { AllInlinable program.now (C.lent bodies.now) }
    requires caller { IsCaller program.now caller.old }
    requires from { from ≤ length caller.old.body.blocks }
    ensures body { OnOk result (body_of (trees_of program.now.types) caller.new.body
        ≡ inlined_in (taken_in program.now large (C.lent bodies.now) (C.qualifies bodies.now)) (body_of (trees_of program.now.types) caller.old.body) (range_with_len from (length caller.old.body.blocks - from))) }
    ensures caller { OnOk result (IsCaller program.now caller.new) }
    ensures grows { OnOk result (length caller.old.body.blocks ≤ length caller.new.body.blocks) }
{
    let end = caller.body.blocks.len() as u32;
    for block in from..end {
        inline_at(alloc, program, large, bodies, caller, block)?;
    }
    Ok(())
}

/// The body in which calls are replaced by the bodies of the functions that they call, as far as these are taken and there is room: its own
/// calls, those of the bodies that are inlined for them, and those of the bodies inlined for these.
///
/// # Errors
///
/// `OutOfMemory`; the body is spent then.
pub fn spliced<C: CalleeBodies>(
    alloc: Global,
    program: &Program,
    large: bool,
    body: Body,
    bodies: &C,
) -> Result<Body, OutOfMemory>
    requires lent { AllInlinable program.now (C.lent bodies.now) }
    requires body_ids { BodyInTable program.now.types body }
    requires few_blocks { length body.blocks < 2 ^ 30 }
    requires few_locals { length body.locals < 2 ^ 30 }
    ensures spliced { IfOk result (λ left. body_of (trees_of program.now.types) left ≡ spliced_body (taken_in program.now large (C.lent bodies.now) (C.qualifies bodies.now)) (body_of (trees_of program.now.types) body)) }
    ensures in_table { IfOk result (λ left. BodyInTable program.now.types left) }
{
    let stmts = stmts(body.blocks.as_slice());
    let mut caller = Caller { body, stmts };
    let mut from = 0;
    for depth in 0..MOST_DEPTH {
        let end = caller.body.blocks.len() as u32;
        inline_from(alloc, program, large, bodies, &mut caller, from)?;
        from = end;
    }
    Ok(caller.body)
}
