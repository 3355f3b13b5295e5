ghost use Rattle.std.specs.Prelude.{◌≡◌, ◌≤◌, ◌<◌, List, ℕ, Some, IfOk, IfErr, OnOk, IsErrOf};
ghost use Rattle.std.specs.Io.KnownBytes.{IsAtEnd};
ghost use Rattle.pipe_io.specs.Causes.{Rose};
ghost use Rattle.mir_syntax.specs.Crate.{Crate, crate_of};
ghost use Rattle.mir_text.specs.Text.{text};
ghost use Rattle.mir_print.specs.Prints.{Prints};
ghost use Rattle.crate_gen.specs.Made.{made_crate};
ghost use Rattle.pipe_words.specs.declared.command.Command.TheVariants.{Check, Seq, Run, Gen};
ghost use Rattle.mirpipe_cli.specs.Refused.{IsAccepted, IsFaulty, OfInput};
ghost use Rattle.mirpipe_cli.specs.Answer.{counted, CanBeDone, Writes, Refuses, IsOptimised};
ghost use Rattle.mirpipe_cli.specs.Output.{bytes_of};

use crate::drops::first_drop;
use crate::dump::dump;
use crate::fault::{InputFault, Refusal};
use crate::load::{Accepted, load};
use crate_gen::generate;
use crate_run::{RunFault, run_function};
use itoa::Buffer;
use mir_print::{print_function, print_program};
use mir_syntax::{Function, List, Name, Number, OutOfMemory, Program};
use pass_order::optimised;
use pipe_io::{Failed, Sink, Source, write_all};
use pipe_words::Command;
use std::alloc::Global;

/// What a command writes.
#[derive(Drop)]
pub enum Output {
    Line(List<u8>),
    Crate(Program),
    /// A function alone, whose types are those of the program.
    Function(Program, Function),
}

// The line of the command `check`.
fn counted(alloc: Global, program: &Program) -> Result<List<u8>, OutOfMemory>
    ensures { IfOk result (λ line. line ≡ counted (crate_of program.now)) }
{
    let mut line = List::new(alloc);
    line.extend(b"ok ")?;
    line.extend(Buffer::new().format(program.functions.len()).as_bytes())?;
    line.extend(b"\n")?;
    Ok(line)
}

fn check(alloc: Global, accepted: Accepted) -> Result<Output, Refusal>
    ensures writes { (input : List ℕ) → IsAccepted input (crate_of accepted.valid) accepted.lines → IfOk result (λ output. Writes Check input (bytes_of output)) }
    ensures refused { IfErr result (OfInput (λ _. ⊥)) }
    ensures no_source { IsErrOf result Refusal.ReadFault → ⊥ }
{
    match counted(alloc, accepted.valid.program()) {
        Ok(line) => Ok(Output::Line(line)),
        Err(OutOfMemory) => Err(Refusal::OutOfMemory),
    }
}

fn seq(alloc: Global, accepted: Accepted) -> Result<Output, Refusal>
    ensures writes { (input : List ℕ) → IsAccepted input (crate_of accepted.valid) accepted.lines → IfOk result (λ output. Writes Seq input (bytes_of output)) }
    ensures refines { (input : List ℕ) → IsAccepted input (crate_of accepted.valid) accepted.lines → IfOk result (λ output. IsOptimised input (bytes_of output)) }
    ensures refused { (input : List ℕ) → IsAccepted input (crate_of accepted.valid) accepted.lines → IfErr result (OfInput (IsFaulty input)) }
    ensures no_source { IsErrOf result Refusal.ReadFault → ⊥ }
{
    if let Some(line) = first_drop(accepted.valid.program(), &accepted.lines) {
        return Err(Refusal::Input(InputFault::Drops { line }));
    }
    match optimised(alloc, accepted.valid) {
        Ok(program) => Ok(Output::Crate(program)),
        Err(OutOfMemory) => Err(Refusal::OutOfMemory),
    }
}

fn run(
    alloc: Global,
    accepted: Accepted,
    path: Name,
    args: List<Number>,
    answers: List<u128>,
    steps: u64,
) -> Result<Output, Refusal>
    ensures writes { (input : List ℕ) → IsAccepted input (crate_of accepted.valid) accepted.lines → IfOk result (λ output. Writes (Run path args answers steps) input (bytes_of output)) }
    ensures refused { (input : List ℕ) → IsAccepted input (crate_of accepted.valid) accepted.lines → IfErr result (OfInput (Refuses (Run path args answers steps) input)) }
    ensures no_source { IsErrOf result Refusal.ReadFault → ⊥ }
{
    let ran = run_function(
        alloc,
        &accepted.valid,
        path.as_slice(),
        args.as_slice(),
        answers.as_slice(),
        steps,
    );
    match ran {
        Ok(text) => Ok(Output::Line(text)),
        Err(fault) => match fault {
            RunFault::NoFunction => Err(Refusal::Input(InputFault::NoFunction)),
            RunFault::NoEntry => Err(Refusal::Input(InputFault::NoEntry)),
            RunFault::OutOfMemory => Err(Refusal::OutOfMemory),
        },
    }
}

/// The crate that is made from a number.
fn made(alloc: Global, start: u32, functions: u32) -> Result<Output, Refusal>
    requires some { 0 < functions }
    requires few { functions ≤ 10000 }
    ensures writes { IfOk result (λ output. bytes_of output ≡ text (made_crate start functions)) }
    ensures refused { IfErr result (λ refusal. refusal ≡ Refusal.OutOfMemory) }
{
    match generate(alloc, start, functions) {
        Ok(made) => Ok(Output::Crate(made.program)),
        Err(OutOfMemory) => Err(Refusal::OutOfMemory),
    }
}

/// Does the work of a command: what it writes, or why there is nothing to write. All memory is taken here. The command `gen` takes nothing from
/// the source, and each other one reads it to its end.
///
/// # Errors
///
/// `Input` with the fault for which the command refuses the input; `ReadFault`, only where the source's count of faults rose; `OutOfMemory`.
pub fn work<S: Source>(alloc: Global, command: Command, source: &mut S) -> Result<Output, Refusal>
    requires can { CanBeDone command }
    ensures writes { (input : List ℕ) → S.left source.old ≡ Some input → IfOk result (λ output. Writes command input (bytes_of output)) }
    ensures refines { (input : List ℕ) → S.left source.old ≡ Some input → command ≡ Seq → IfOk result (λ output. IsOptimised input (bytes_of output)) }
    ensures refused { (input : List ℕ) → S.left source.old ≡ Some input → IfErr result (OfInput (Refuses command input)) }
    ensures made { (start functions : ℕ) → command ≡ Gen start functions → IfOk result (λ output. bytes_of output ≡ text (made_crate start functions)) }
    ensures made_refused { (start functions : ℕ) → command ≡ Gen start functions → IfErr result (λ refusal. refusal ≡ Refusal.OutOfMemory) }
    ensures unread { (start functions : ℕ) → command ≡ Gen start functions → source.new ≡ source.old }
    ensures at_end { ((start functions : ℕ) → command ≡ Gen start functions → ⊥) → OnOk result (IsAtEnd (S.left source.new)) }
    ensures later { S.faults source.old ≤ S.faults source.new }
    ensures fault { IsErrOf result Refusal.ReadFault → Rose (S.faults source.old) (S.faults source.new) }
    ensures kept { OnOk result (S.faults source.new ≡ S.faults source.old) }
    ensures kept_refused { IfErr result (OfInput (λ _. S.faults source.new ≡ S.faults source.old)) }
{
    match command {
        Command::Check => {
            let accepted = load(alloc, source)?;
            check(alloc, accepted)
        }
        Command::Seq => {
            let accepted = load(alloc, source)?;
            seq(alloc, accepted)
        }
        Command::Run(path, args, answers, steps) => {
            let accepted = load(alloc, source)?;
            run(alloc, accepted, path, args, answers, steps)
        }
        Command::Dump(stage, path) => {
            let accepted = load(alloc, source)?;
            dump(alloc, accepted, stage, path)
        }
        Command::Gen(start, functions) => made(alloc, start, functions),
    }
}

/// Writes it. No memory is taken.
///
/// # Errors
///
/// `Failed`, only where the sink's count of faults rose; a front of it is written then.
pub fn write<K: Sink>(output: &Output, out: &mut K) -> Result<(), Failed>
    ensures { Prints (K.written out.old) (K.written out.new) (K.faults out.old) (K.faults out.new) (bytes_of output.now) result }
{
    match output {
        Output::Line(line) => write_all(out, line.as_slice()),
        Output::Crate(program) => print_program(program, out),
        Output::Function(program, function) => print_function(
            program,
            function,
            &function.body,
            out,
        ),
    }
}
