ghost use Rattle.std.specs.Prelude.{◌≡◌, ◌<◌, length, Some, slice_get, IfOk, IsErrOf};
ghost use Rattle.mir_syntax.specs.declared.body.Function as spec;
ghost use Rattle.mir_syntax.specs.Crate.{TypedFunction, crate_of};
ghost use Rattle.mir_semantics.specs.Run.{Entry};
ghost use Rattle.mir_machine.specs.Runs.{entry_in};
ghost use Rattle.crate_run.specs.Ran.{IsCall, IsRunText, HasNoFunction, IsNoEntry};

use crate::fault::RunFault;
use mir_entry::{EntryFault, entry, function_at};
use mir_machine::{EntryCall, run};
use mir_syntax::{FnId, List, Number, Program, TyId};
use mir_validate::Valid;
use run_text::run_text;
use std::alloc::Global;

/// The type of a function's result.
fn result_type(program: &Program, f: FnId) -> TyId
    requires { (g : spec.Function) × (slice_get program.now.functions f.0 ≡ Some g) × (0 < length g.body.locals) }
    ensures { (g : spec.Function) → slice_get program.now.functions f.0 ≡ Some g → slice_get g.body.locals 0 ≡ Some result }
{
    let function = &program.functions.as_slice()[f.0 as usize];
    function.body.locals.as_slice()[0]
}

/// The call that numbers make of a function.
fn call_of(
    alloc: Global,
    program: &Program,
    f: FnId,
    args: &[Number],
) -> Result<EntryCall, RunFault>
    ensures call { (g : TypedFunction) → slice_get (crate_of program.now).functions f.0 ≡ Some g → IfOk result (λ call. IsCall (crate_of program.now) f.0 g args.now (entry_in call)) }
    ensures none { (g : TypedFunction) → slice_get (crate_of program.now).functions f.0 ≡ Some g → IsErrOf result RunFault.NoEntry → (e : Entry) → IsCall (crate_of program.now) f.0 g args.now e → ⊥ }
    ensures no_other { IsErrOf result RunFault.NoFunction → ⊥ }
{
    match entry(alloc, program, f, args) {
        Ok(call) => Ok(call),
        Err(EntryFault::NotFit(_)) => Err(RunFault::NoEntry),
        Err(EntryFault::OutOfMemory) => Err(RunFault::OutOfMemory),
    }
}

/// The text of a run of the function of a valid program with a path: of so many steps with these answers of the outside functions, or of as many as there
/// are. The function is called from outside, and its arguments are given by their flat form.
///
/// # Errors
///
/// `NoFunction` where no function has the path. `NoEntry` where the function can't be called from outside, or the numbers are the flat
/// form of no arguments of its types.
pub fn run_function(
    alloc: Global,
    valid: &Valid,
    path: &[u8],
    args: &[Number],
    answers: &[u128],
    steps: u64,
) -> Result<List<u8>, RunFault>
    ensures text { IfOk result (λ text. IsRunText (crate_of valid.now) path.now args.now answers.now steps text) }
    ensures no_function { IsErrOf result RunFault.NoFunction → HasNoFunction (crate_of valid.now) path.now }
    ensures no_entry { IsErrOf result RunFault.NoEntry → IsNoEntry (crate_of valid.now) path.now args.now }
{
    let program = valid.program();
    let Some(f) = function_at(program, path) else {
        return Err(RunFault::NoFunction);
    };
    let call = call_of(alloc, program, f, args)?;
    let ty = result_type(program, f);
    let seen = run(alloc, program, &call, answers, steps)?;
    let text = run_text(alloc, program, ty, &seen)?;
    Ok(text)
}
