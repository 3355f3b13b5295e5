ghost use Rattle.std.specs.Prelude.{◌≡◌, ◌<◌, ℕ, Some, length, slice_get, IfOk};
ghost use Rattle.mir_syntax.specs.declared.body.Function as declared;
ghost use Rattle.mir_syntax.specs.Tree.{trees_of};
ghost use Rattle.mir_syntax.specs.Crate.{TypedFunction, crate_of, body_of};
ghost use Rattle.mir_syntax.specs.Shapes.{shapes_of};
ghost use Rattle.mir_syntax.specs.Drops.{KnowsDrops};
ghost use Rattle.mir_syntax.specs.Ids.{IdsInTable, BodyInTable};
ghost use Rattle.pass_order.specs.Stages.{passes_behind, HasStep, at_stage};
ghost use Rattle.pass_order.specs.Fits.{FitsAt};

use crate::passes::{PASSES, after_all};
use mir_syntax::{Body, FnId, Function, List, OutOfMemory, Program, Stage};
use mir_validate::Valid;
use std::alloc::Global;

/// How many of the passes are behind a body at a stage, or `None` where the stage's step isn't there yet.
pub fn passes_behind(stage: Stage) -> Option<usize>
    ensures { result ≡ passes_behind stage }
{
    match stage {
        Stage::Built => Some(0),
        Stage::Promoted => Some(1),
        Stage::Split => Some(2),
        Stage::Folded => Some(3),
        Stage::Threaded => Some(5),
        Stage::Merged => Some(7),
        Stage::Pruned => Some(8),
        Stage::Optimised => Some(10),
        Stage::Elaborated | Stage::Spliced => None,
    }
}

// The body at a stage: after the passes up to its step.
fn body_at(alloc: Global, program: &Program, body: Body, stage: Stage) -> Result<Body, OutOfMemory>
    requires step { HasStep stage }
    requires knows { KnowsDrops program.now }
    requires ids { IdsInTable program.now }
    requires body_ids { BodyInTable program.now.types body }
    requires fits { (f : ℕ) × (g : TypedFunction) × FitsAt (crate_of program.now) f g (body_of (trees_of program.now.types) body) }
    ensures at { IfOk result (λ left. at_stage stage (shapes_of (crate_of program.now)) (body_of (trees_of program.now.types) body) ≡ Some (body_of (trees_of program.now.types) left)) }
    ensures in_table { IfOk result (λ left. BodyInTable program.now.types left) }
{
    let Some(count) = passes_behind(stage) else {
        unreachable!()
    };
    after_all(alloc, program, body, &PASSES[..count])
}

// The function with another body.
fn with_body(alloc: Global, function: &Function, body: Body) -> Result<Function, OutOfMemory>
    ensures { IfOk result (λ made. made ≡ record function.now { body = body }) }
{
    let mut path = List::new(alloc);
    path.extend(function.path.as_slice())?;
    Ok(Function {
        path,
        inline: function.inline,
        is_drop: function.is_drop,
        body,
    })
}

/// A function of a valid program with its body as it is at a stage, of which the step is there (`passes_behind`): after the passes up to that step.
/// The program stays as it is.
///
/// # Errors
///
/// `OutOfMemory`.
pub fn dumped(alloc: Global, valid: &Valid, id: FnId, stage: Stage) -> Result<Function, OutOfMemory>
    requires step { HasStep stage }
    requires there { id.0 < length valid.now.functions }
    ensures head { (g : declared.Function) → slice_get valid.now.functions id.0 ≡ Some g → IfOk result (λ found. found ≡ record g { body = found.body }) }
    ensures at { (g : declared.Function) → slice_get valid.now.functions id.0 ≡ Some g → IfOk result (λ found. at_stage stage (shapes_of (crate_of valid.now)) (body_of (trees_of valid.now.types) g.body) ≡ Some (body_of (trees_of valid.now.types) found.body)) }
{
    let program = valid.program();
    let function = &program.functions.as_slice()[id.0 as usize];
    let built = function.body.copy(alloc)?;
    let body = body_at(alloc, program, built, stage)?;
    with_body(alloc, function, body)
}
