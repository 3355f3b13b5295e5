ghost use Rattle.std.specs.Prelude.{List, ℕ, IfOk, IfErr, IsErrOf};
ghost use Rattle.mir_syntax.specs.Crate.{crate_of};
ghost use Rattle.pass_order.specs.Stages.{HasStep};
ghost use Rattle.pipe_words.specs.declared.command.Command.TheVariants.{Dump};
ghost use Rattle.mirpipe_cli.specs.Refused.{IsAccepted, OfInput};
ghost use Rattle.mirpipe_cli.specs.Answer.{Writes, Refuses};
ghost use Rattle.mirpipe_cli.specs.Output.{bytes_of};

use crate::command::Output;
use crate::drops::first_drop;
use crate::fault::{InputFault, Refusal};
use crate::load::Accepted;
use mir_entry::function_at;
use mir_syntax::{Name, OutOfMemory, Stage};
use pass_order::dumped;
use std::alloc::Global;

/// The function with a path as it is at a stage, whose step is there.
///
/// # Errors
///
/// `Input` with a `drop`, or where no function has the path; `OutOfMemory`.
pub fn dump(alloc: Global, accepted: Accepted, stage: Stage, path: Name) -> Result<Output, Refusal>
    requires step { HasStep stage }
    ensures writes { (input : List ℕ) → IsAccepted input (crate_of accepted.valid) accepted.lines → IfOk result (λ output. Writes (Dump stage path) input (bytes_of output)) }
    ensures refused { (input : List ℕ) → IsAccepted input (crate_of accepted.valid) accepted.lines → IfErr result (OfInput (Refuses (Dump stage path) input)) }
    ensures no_source { IsErrOf result Refusal.ReadFault → ⊥ }
{
    let program = accepted.valid.program();
    if let Some(line) = first_drop(program, &accepted.lines) {
        return Err(Refusal::Input(InputFault::Drops { line }));
    }
    let Some(id) = function_at(program, path.as_slice()) else {
        return Err(Refusal::Input(InputFault::NoFunction));
    };
    match dumped(alloc, &accepted.valid, id, stage) {
        Ok(function) => Ok(Output::Function(accepted.valid.into_program(), function)),
        Err(OutOfMemory) => Err(Refusal::OutOfMemory),
    }
}
