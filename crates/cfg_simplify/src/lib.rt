//! The pass `simple`: the cleaning of a body's control flow.
//!
//! Empty gotos are skipped (`gotos`), blocks that no path leads to go (`reach`), a block is joined to the one block that goes to it
//! (`joins`), and the rest is renumbered (`regroup`). The contract of `simple` is that the result is the one that `specs/Simple.antt`
//! defines, over a body whose ids are replaced by the types that they stand for, and that ids in the program's table stay there.
//! `specs/Edges.antt` leads edges elsewhere; where edges lead, and which blocks are reached, is `mir_cfg`'s.
//!
//! The functions of `laws` run nothing; their contracts are the laws of the pass. A crate with a cleaned body refines the crate (`simple_refines`), and
//! a cleaned body keeps the rules and is no larger (`simple_stays_valid`). `proofs/PassLaws.antt` gathers them for what folds over passes.
//!
//! Blocks and statements are moved and never copied; only the walk along empty gotos takes more than one pass over the blocks, as many
//! as their number has binary digits.
#![tactic(auto)]

ghost use Rattle.std.specs.Prelude.{◌≡◌, ◌<◌, ◌^◌, map, length, IfOk};
ghost use Rattle.mir_syntax.specs.Tree.{trees_of};
ghost use Rattle.mir_syntax.specs.Crate.{body_of};
ghost use Rattle.mir_syntax.specs.Ids.{BodyInTable};
ghost use Rattle.mir_cfg.specs.Paths.{terms_of, Closed};
ghost use Rattle.cfg_simplify.specs.Simple.{simple as simple_body};

mod edges;
mod gotos;
mod joins;
mod laws;
mod reach;
mod regroup;

use crate::reach::reached_blocks;
use crate::regroup::regrouped;
pub use laws::{simple_refines, simple_stays_valid};
use mir_syntax::{Body, OutOfMemory, Program};
use std::alloc::Global;

/// The body after the cleaning of its control flow: what rustc's `SimplifyCfg` does, reduced to a rule of this project's own. It takes a body
/// that has bb0 and whose edges lead to its blocks, as those of every valid body do.
///
/// # Errors
///
/// `OutOfMemory`; the body is spent then.
pub fn simple(alloc: Global, program: &Program, body: Body) -> Result<Body, OutOfMemory>
    requires some_block { 0 < length body.blocks }
    requires closed { Closed (terms_of body) }
    requires few { length body.blocks < 2 ^ 30 }
    ensures simpler { IfOk result (λ simpler. body_of (trees_of program.now.types) simpler ≡ simple_body (body_of (trees_of program.now.types) body)) }
    ensures in_table { BodyInTable program.now.types body → IfOk result (λ simpler. BodyInTable program.now.types simpler) }
{
    let blocks = gotos::hopped(alloc, body.blocks)?;
    let hopped = Body {
        args: body.args,
        locals: body.locals,
        blocks,
    };
    let reached = reached_blocks(alloc, &hopped)?;
    let blocks = regrouped(alloc, hopped.blocks, reached)?;
    Ok(Body {
        args: hopped.args,
        locals: hopped.locals,
        blocks,
    })
}
