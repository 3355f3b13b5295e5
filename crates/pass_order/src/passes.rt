ghost use Rattle.std.specs.Prelude.{◌≡◌, ℕ, map, IfOk};
ghost use Rattle.mir_syntax.specs.Tree.{trees_of};
ghost use Rattle.mir_syntax.specs.Crate.{TypedFunction, crate_of, body_of};
ghost use Rattle.mir_syntax.specs.Shapes.{shapes_of};
ghost use Rattle.mir_syntax.specs.Drops.{KnowsDrops};
ghost use Rattle.mir_syntax.specs.Ids.{IdsInTable, BodyInTable};
ghost use Rattle.pass_order.specs.Passes.{after};
ghost use Rattle.pass_order.specs.Steps.{pass_of};
ghost use Rattle.pass_order.specs.Fits.{FitsAt};

use cfg_simplify::simple;
use const_rewrite::folded;
use dead_store::pruned;
use dest_prop::merged;
use jump_threading::threaded;
use mir_syntax::{Body, OutOfMemory, Program};
use sroa_pass::split;
use std::alloc::Global;
use trim_locals::trimmed;

/// A pass over one body.
#[derive(Clone, Copy, Debug, Drop, PartialEq, Eq)]
pub(crate) enum Pass {
    /// Its control flow is cleaned.
    Clean,
    /// Tuples and structs that stay in the body become locals of their own.
    Split,
    /// What is known becomes constants and jumps.
    Fold,
    /// Jumps to a known switch go on to its target.
    Thread,
    /// Locals that are copied into one another share one.
    Merge,
    /// What nobody reads goes.
    Prune,
    /// Locals that are left without use go.
    Trim,
}

/// The passes in their order.
pub(crate) const PASSES: [Pass; 10] = [
    Pass::Clean,
    Pass::Split,
    Pass::Fold,
    Pass::Clean,
    Pass::Thread,
    Pass::Clean,
    Pass::Merge,
    Pass::Prune,
    Pass::Clean,
    Pass::Trim,
];

impl Pass {
    // The body after the pass.
    fn run(self, alloc: Global, program: &Program, body: Body) -> Result<Body, OutOfMemory>
        requires knows { KnowsDrops program.now }
        requires ids { IdsInTable program.now }
        requires body_ids { BodyInTable program.now.types body }
        requires fits { (f : ℕ) × (g : TypedFunction) × FitsAt (crate_of program.now) f g (body_of (trees_of program.now.types) body) }
        ensures passed { IfOk result (λ left. body_of (trees_of program.now.types) left ≡ pass_of self (shapes_of (crate_of program.now)) (body_of (trees_of program.now.types) body)) }
        ensures in_table { IfOk result (λ left. BodyInTable program.now.types left) }
    {
        match self {
            Pass::Clean => simple(alloc, program, body),
            Pass::Split => split(alloc, program, body),
            Pass::Fold => folded(alloc, program, body),
            Pass::Thread => threaded(alloc, program, body),
            Pass::Merge => merged(alloc, program, body),
            Pass::Prune => pruned(alloc, program, body),
            Pass::Trim => trimmed(alloc, program, body),
        }
    }
}

/// The body after passes, one after another. It fits a function of the program.
pub(crate) fn after_all(
    alloc: Global,
    program: &Program,
    body: Body,
    passes: &[Pass],
) -> Result<Body, OutOfMemory>
    requires knows { KnowsDrops program.now }
    requires ids { IdsInTable program.now }
    requires body_ids { BodyInTable program.now.types body }
    requires fits { (f : ℕ) × (g : TypedFunction) × FitsAt (crate_of program.now) f g (body_of (trees_of program.now.types) body) }
    ensures passed { IfOk result (λ left. body_of (trees_of program.now.types) left ≡ after (map pass_of passes.now) (shapes_of (crate_of program.now)) (body_of (trees_of program.now.types) body)) }
    ensures in_table { IfOk result (λ left. BodyInTable program.now.types left) }
{
    let mut left = body;
    for pass in passes {
        left = pass.run(alloc, program, left)?;
    }
    Ok(left)
}
