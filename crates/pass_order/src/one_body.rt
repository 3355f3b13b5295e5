ghost use Rattle.std.specs.Prelude.{◌≡◌, ℕ, IfOk};
ghost use Rattle.mir_syntax.specs.Tree.{trees_of};
ghost use Rattle.mir_syntax.specs.Crate.{TypedFunction, crate_of, body_of};
ghost use Rattle.mir_syntax.specs.Shapes.{shapes_of};
ghost use Rattle.mir_syntax.specs.Drops.{KnowsDrops};
ghost use Rattle.mir_syntax.specs.Ids.{IdsInTable, BodyInTable};
ghost use Rattle.pass_order.specs.Passes.{after_passes as passed_body};
ghost use Rattle.pass_order.specs.Fits.{FitsAt};

use crate::passes::{PASSES, after_all};
use mir_syntax::{Body, OutOfMemory, Program};
use std::alloc::Global;

/// The body after the passes: tuples and structs that stay in it are split, what is known is folded, jumps to a known switch are threaded, locals
/// that are copied into one another are merged, what nobody reads goes, its control flow being cleaned before, between and after, and locals that
/// are left without use go. The body fits a function of the program, which need not hold it.
///
/// # Errors
///
/// `OutOfMemory`; the body is spent then.
pub fn after_passes(alloc: Global, program: &Program, body: Body) -> Result<Body, OutOfMemory>
    requires knows { KnowsDrops program.now }
    requires ids { IdsInTable program.now }
    requires body_ids { BodyInTable program.now.types body }
    requires fits { (f : ℕ) × (g : TypedFunction) × FitsAt (crate_of program.now) f g (body_of (trees_of program.now.types) body) }
    ensures passed { IfOk result (λ left. body_of (trees_of program.now.types) left ≡ passed_body (shapes_of (crate_of program.now)) (body_of (trees_of program.now.types) body)) }
    ensures in_table { IfOk result (λ left. BodyInTable program.now.types left) }
{
    after_all(alloc, program, body, &PASSES)
}
