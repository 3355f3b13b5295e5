ghost use Rattle.std.specs.Prelude.{◌≡◌, ◌++◌, ◌-◌, ◌^◌, [], Bool, map, min, length};
ghost use Rattle.mir_syntax.specs.Crate.{body_of, crate_of, function_of};
ghost use Rattle.mir_syntax.specs.Tree.{trees_of};
ghost use Rattle.mir_text.specs.Text.{defs_text, outsides_text, gap_text, function_text, functions_text, others_stand, text};
ghost use Rattle.mir_print.specs.Seen.{crate_in, with_body};
ghost use Rattle.mir_print.specs.Prints.{Goes, Prints, at};

use crate::function::put_function;
use crate::items::{put_defs, put_outsides};
use crate::length::Nowhere;
use crate::output::Output;
use mir_syntax::{Body, Function, Program};
use pipe_io::{Failed, Sink};

// An empty line, where anything stands before.
#[tactic(auto, using(crate::proofs::Printing::goes_nothing), unfolding(mir_text::specs::Text::gap_text))]
fn put_gap<K: Sink>(output: &mut Output, sink: &mut K, before: bool)
    ensures { Goes (at (K.written sink.old) (K.faults sink.old) output.old)
        (at (K.written sink.new) (K.faults sink.new) output.new) (gap_text before) }
{
    if before {
        output.put(sink, b"\n");
    }
}

// A function with its own body.
fn put_whole_function<K: Sink>(
    output: &mut Output,
    sink: &mut K,
    program: &Program,
    function: &Function,
)
    ensures { Goes (at (K.written sink.old) (K.faults sink.old) output.old)
        (at (K.written sink.new) (K.faults sink.new) output.new) (function_text (crate_in program.now) (function_of (trees_of program.now.types) function.now)) }
{
    put_function(output, sink, program, function, &function.body);
}

#[tactic(auto, using(crate::proofs::Printing::goes_then))]
fn put_next_function<K: Sink>(
    output: &mut Output,
    sink: &mut K,
    program: &Program,
    before: bool,
    function: &Function,
)
    ensures { Goes (at (K.written sink.old) (K.faults sink.old) output.old)
        (at (K.written sink.new) (K.faults sink.new) output.new) (gap_text before ++ function_text (crate_in program.now) (function_of (trees_of program.now.types) function.now)) }
{
    put_gap(output, sink, before);
    put_whole_function(output, sink, program, function);
}

// Functions, where anything stands before the first one or not.
fn put_functions<K: Sink>(
    output: &mut Output,
    sink: &mut K,
    program: &Program,
    stands: bool,
    functions: &[Function],
)
    ensures { Goes (at (K.written sink.old) (K.faults sink.old) output.old)
        (at (K.written sink.new) (K.faults sink.new) output.new) (functions_text (crate_in program.now) stands (map (function_of (trees_of program.now.types)) functions.now)) }
{
    let mut before = stands;
    for function in functions {
        put_next_function(output, sink, program, before, function);
        before = true;
    }
}

// Whether the program has a struct, an enum or an outside function.
fn has_others(program: &Program) -> bool
    ensures { result ≡ others_stand ((crate_in program.now)).defs ((crate_in program.now)).outsides }
{
    if program.defs.is_empty() {
        !program.outsides.is_empty()
    } else {
        true
    }
}

fn put_all_defs<K: Sink>(output: &mut Output, sink: &mut K, program: &Program)
    ensures { Goes (at (K.written sink.old) (K.faults sink.old) output.old)
        (at (K.written sink.new) (K.faults sink.new) output.new) (defs_text (crate_in program.now) ((crate_in program.now)).defs) }
{
    put_defs(output, sink, program, program.defs.as_slice());
}

fn put_all_outsides<K: Sink>(output: &mut Output, sink: &mut K, program: &Program)
    ensures { Goes (at (K.written sink.old) (K.faults sink.old) output.old)
        (at (K.written sink.new) (K.faults sink.new) output.new) (outsides_text (crate_in program.now) ((crate_in program.now)).outsides) }
{
    put_outsides(output, sink, program, program.outsides.as_slice());
}

fn put_all_functions<K: Sink>(output: &mut Output, sink: &mut K, program: &Program)
    ensures { Goes (at (K.written sink.old) (K.faults sink.old) output.old)
        (at (K.written sink.new) (K.faults sink.new) output.new) (functions_text (crate_in program.now) (others_stand ((crate_in program.now)).defs ((crate_in program.now)).outsides) ((crate_in program.now)).functions) }
{
    put_functions(
        output,
        sink,
        program,
        has_others(program),
        program.functions.as_slice(),
    );
}

#[tactic(auto, using(crate::proofs::Printing::goes_then), unfolding(mir_text::specs::Text::text))]
fn put_program<K: Sink>(output: &mut Output, sink: &mut K, program: &Program)
    ensures { Goes (at (K.written sink.old) (K.faults sink.old) output.old)
        (at (K.written sink.new) (K.faults sink.new) output.new) (text (crate_in program.now)) }
{
    put_all_defs(output, sink, program);
    put_all_outsides(output, sink, program);
    put_all_functions(output, sink, program);
}

// Prints a program, and writes what waits.
#[tactic(auto, using(crate::proofs::Printing::goes_ended))]
fn put_whole<K: Sink>(output: &mut Output, sink: &mut K, program: &Program)
    ensures goes { Goes (at (K.written sink.old) (K.faults sink.old) output.old)
        (at (K.written sink.new) (K.faults sink.new) output.new) (text (crate_in program.now)) }
    ensures none { output.new.bytes ≡ [] }
{
    put_program(output, sink, program);
    output.flush(sink);
}

// Prints a function, and writes what waits.
#[tactic(auto, using(crate::proofs::Printing::goes_ended))]
fn put_alone<K: Sink>(
    output: &mut Output,
    sink: &mut K,
    program: &Program,
    function: &Function,
    body: &Body,
)
    ensures goes { Goes (at (K.written sink.old) (K.faults sink.old) output.old)
        (at (K.written sink.new) (K.faults sink.new) output.new) (function_text (crate_in program.now) (with_body (function_of (trees_of program.now.types) function.now) (body_of (trees_of program.now.types) body.now))) }
    ensures none { output.new.bytes ≡ [] }
{
    put_function(output, sink, program, function, body);
    output.flush(sink);
}

/// Prints the canonical text of a program. No memory is taken.
///
/// # Errors
///
/// `Failed`, only where the sink's count of faults rose; a front of the text is written then.
#[tactic(auto, using(crate::proofs::Printing::prints_whole, crate::proofs::Printing::prints_front), unfolding(crate::specs::Seen::crate_in))]
pub fn print_program<K: Sink>(program: &Program, sink: &mut K) -> Result<(), Failed>
    ensures { Prints (K.written sink.old) (K.written sink.new) (K.faults sink.old) (K.faults sink.new) (text (crate_of program.now)) result }
{
    let mut output = Output::new();
    put_whole(&mut output, sink, program);
    if output.is_going() {
        Ok(())
    } else {
        Err(Failed)
    }
}

/// Prints the canonical text of a function with another body in place of its own, as `print_program` prints it. No memory is taken.
///
/// # Errors
///
/// `Failed`, only where the sink's count of faults rose; a front of the text is written then.
#[tactic(auto, using(crate::proofs::Printing::prints_whole, crate::proofs::Printing::prints_front), unfolding(crate::specs::Seen::crate_in))]
pub fn print_function<K: Sink>(
    program: &Program,
    function: &Function,
    body: &Body,
    sink: &mut K,
) -> Result<(), Failed>
    ensures { Prints (K.written sink.old) (K.written sink.new) (K.faults sink.old) (K.faults sink.new)
        (function_text (crate_of program.now) (with_body (function_of (trees_of program.now.types) function.now) (body_of (trees_of program.now.types) body.now))) result }
{
    let mut output = Output::new();
    put_alone(&mut output, sink, program, function, body);
    if output.is_going() {
        Ok(())
    } else {
        Err(Failed)
    }
}

/// The length of a program's canonical text in bytes, or 2^64 - 1 where it is longer. No memory is taken.
pub fn text_len(program: &Program) -> u64
    ensures { result ≡ min (length (text (crate_of program.now))) (2 ^ 64 - 1) }
{
    let mut output = Output::new();
    put_program(&mut output, &mut Nowhere, program);
    output.count()
}
