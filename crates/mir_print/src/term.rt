ghost use Rattle.std.specs.Prelude.{◌≡◌, ◌++◌, codes, decimal, map};
ghost use Rattle.mir_syntax.specs.Tree.{at_id, trees_of};
ghost use Rattle.mir_text.specs.TypeText.{piece, more_items, comma_list};
ghost use Rattle.mir_text.specs.PlaceText.{place_text, operand_text};
ghost use Rattle.mir_text.specs.TermText.{block_name, path_or_none, function_paths, outside_paths, callee_path, return_text, success_text, arms_text, expected_text, term_text, term_line};
ghost use Rattle.mir_print.specs.Seen.{crate_in};
ghost use Rattle.mir_print.specs.Prints.{Goes, at};

use crate::output::Output;
use crate::place::{put_more_operands, put_operand, put_operands, put_place};
use crate::types::put_name;
use mir_syntax::{Arm, Callee, FnId, List, Name, Operand, OutId, Place, Program, Term, TyId};
use pipe_io::Sink;

/// Prints `bb` and the number of a block.
#[tactic(auto, using(crate::proofs::Printing::goes_then), unfolding(mir_text::specs::TermText::block_name))]
pub fn put_block_name<K: Sink>(output: &mut Output, sink: &mut K, block: u128)
    ensures { Goes (at (K.written sink.old) (K.faults sink.old) output.old)
        (at (K.written sink.new) (K.faults sink.new) output.new) (block_name block) }
{
    output.put(sink, b"bb");
    output.put_number(sink, block);
}

fn function_path(program: &Program, function: FnId) -> &[u8]
    ensures { result.now ≡ path_or_none (function_paths ((crate_in program.now)).functions) function.0 }
{
    match program.functions.get(function.0 as usize) {
        Some(found) => found.path.as_slice(),
        None => &[],
    }
}

fn outside_path(program: &Program, outside: OutId) -> &[u8]
    ensures { result.now ≡ path_or_none (outside_paths ((crate_in program.now)).outsides) outside.0 }
{
    match program.outsides.get(outside.0 as usize) {
        Some(found) => found.path.as_slice(),
        None => &[],
    }
}

// The path of what a call calls.
#[tactic(auto, unfolding(mir_text::specs::TermText::callee_path))]
fn callee_path(program: &Program, callee: Callee) -> &[u8]
    ensures { result.now ≡ callee_path (crate_in program.now) callee }
{
    match callee {
        Callee::Local(function) => function_path(program, function),
        Callee::Outside(outside) => outside_path(program, outside),
    }
}

fn put_callee<K: Sink>(output: &mut Output, sink: &mut K, program: &Program, callee: Callee)
    ensures { Goes (at (K.written sink.old) (K.faults sink.old) output.old)
        (at (K.written sink.new) (K.faults sink.new) output.new) (piece (callee_path (crate_in program.now) callee)) }
{
    output.put(sink, callee_path(program, callee));
}

// Where a terminator that may unwind goes on.
#[tactic(auto, using(crate::proofs::Printing::goes_then), unfolding(mir_text::specs::TermText::return_text))]
fn put_return<K: Sink>(output: &mut Output, sink: &mut K, block: u128)
    ensures { Goes (at (K.written sink.old) (K.faults sink.old) output.old)
        (at (K.written sink.new) (K.faults sink.new) output.new) (return_text block) }
{
    output.put(sink, b" -> [return: ");
    put_block_name(output, sink, block);
    output.put(sink, b", unwind unreachable]");
}

#[tactic(auto, using(crate::proofs::Printing::goes_then), unfolding(mir_text::specs::TermText::success_text))]
fn put_success<K: Sink>(output: &mut Output, sink: &mut K, block: u128)
    ensures { Goes (at (K.written sink.old) (K.faults sink.old) output.old)
        (at (K.written sink.new) (K.faults sink.new) output.new) (success_text block) }
{
    output.put(sink, b") -> [success: ");
    put_block_name(output, sink, block);
    output.put(sink, b", unwind unreachable]");
}

#[tactic(auto, using(crate::proofs::Printing::goes_then))]
fn put_arm<K: Sink>(output: &mut Output, sink: &mut K, arm: Arm)
    ensures { Goes (at (K.written sink.old) (K.faults sink.old) output.old)
        (at (K.written sink.new) (K.faults sink.new) output.new) (piece (decimal arm.value) ++ (piece (codes ": ") ++ (block_name arm.block ++ piece (codes ", ")))) }
{
    output.put_number(sink, arm.value);
    output.put(sink, b": ");
    put_block_name(output, sink, arm.block as u128);
    output.put(sink, b", ");
}

fn put_arms<K: Sink>(output: &mut Output, sink: &mut K, arms: &[Arm])
    ensures { Goes (at (K.written sink.old) (K.faults sink.old) output.old)
        (at (K.written sink.new) (K.faults sink.new) output.new) (arms_text arms.now) }
{
    for arm in arms {
        put_arm(output, sink, *arm);
    }
}

fn put_arms_of<K: Sink>(output: &mut Output, sink: &mut K, arms: &List<Arm>)
    ensures { Goes (at (K.written sink.old) (K.faults sink.old) output.old)
        (at (K.written sink.new) (K.faults sink.new) output.new) (arms_text arms.now) }
{
    put_arms(output, sink, arms.as_slice());
}

#[tactic(auto, using(crate::proofs::Printing::goes_then))]
fn put_switch<K: Sink>(
    output: &mut Output,
    sink: &mut K,
    program: &Program,
    locals: &[TyId],
    operand: &Operand,
    arms: &List<Arm>,
    otherwise: u128,
)
    ensures { Goes (at (K.written sink.old) (K.faults sink.old) output.old)
        (at (K.written sink.new) (K.faults sink.new) output.new) (piece (codes "switchInt(") ++ (operand_text (crate_in program.now) (map (at_id (trees_of program.now.types)) locals.now) operand.now ++ (piece (codes ") -> [") ++ (arms_text arms.now ++ (piece (codes "otherwise: ") ++ (block_name otherwise ++ piece (codes "]"))))))) }
{
    output.put(sink, b"switchInt(");
    put_operand(output, sink, program, locals, operand);
    output.put(sink, b") -> [");
    put_arms_of(output, sink, arms);
    output.put(sink, b"otherwise: ");
    put_block_name(output, sink, otherwise);
    output.put(sink, b"]");
}

#[tactic(auto, using(crate::proofs::Printing::goes_then))]
fn put_drop<K: Sink>(
    output: &mut Output,
    sink: &mut K,
    program: &Program,
    locals: &[TyId],
    place: &Place,
    block: u128,
)
    ensures { Goes (at (K.written sink.old) (K.faults sink.old) output.old)
        (at (K.written sink.new) (K.faults sink.new) output.new) (piece (codes "drop(") ++ (place_text (crate_in program.now) (map (at_id (trees_of program.now.types)) locals.now) place.now ++ (piece (codes ")") ++ return_text block))) }
{
    output.put(sink, b"drop(");
    put_place(output, sink, program, locals, place);
    output.put(sink, b")");
    put_return(output, sink, block);
}

fn put_args<K: Sink>(
    output: &mut Output,
    sink: &mut K,
    program: &Program,
    locals: &[TyId],
    args: &List<Operand>,
)
    ensures { Goes (at (K.written sink.old) (K.faults sink.old) output.old)
        (at (K.written sink.new) (K.faults sink.new) output.new) (comma_list (operand_text (crate_in program.now) (map (at_id (trees_of program.now.types)) locals.now)) args.now) }
{
    put_operands(output, sink, program, locals, args.as_slice());
}

fn put_values<K: Sink>(
    output: &mut Output,
    sink: &mut K,
    program: &Program,
    locals: &[TyId],
    values: &List<Operand>,
)
    ensures { Goes (at (K.written sink.old) (K.faults sink.old) output.old)
        (at (K.written sink.new) (K.faults sink.new) output.new) (more_items (operand_text (crate_in program.now) (map (at_id (trees_of program.now.types)) locals.now)) values.now) }
{
    put_more_operands(output, sink, program, locals, values.as_slice());
}

#[tactic(auto, using(crate::proofs::Printing::goes_then))]
fn put_call<K: Sink>(
    output: &mut Output,
    sink: &mut K,
    program: &Program,
    locals: &[TyId],
    place: &Place,
    callee: Callee,
    args: &List<Operand>,
    block: u128,
)
    ensures { Goes (at (K.written sink.old) (K.faults sink.old) output.old)
        (at (K.written sink.new) (K.faults sink.new) output.new) (place_text (crate_in program.now) (map (at_id (trees_of program.now.types)) locals.now) place.now ++ (piece (codes " = ") ++ (piece (callee_path (crate_in program.now) callee) ++ (piece (codes "(") ++ (comma_list (operand_text (crate_in program.now) (map (at_id (trees_of program.now.types)) locals.now)) args.now ++ (piece (codes ")") ++ return_text block)))))) }
{
    put_place(output, sink, program, locals, place);
    output.put(sink, b" = ");
    put_callee(output, sink, program, callee);
    output.put(sink, b"(");
    put_args(output, sink, program, locals, args);
    output.put(sink, b")");
    put_return(output, sink, block);
}

// An assert that expects false says so.
#[tactic(auto, using(crate::proofs::Printing::goes_nothing), unfolding(mir_text::specs::TermText::expected_text))]
fn put_expected<K: Sink>(output: &mut Output, sink: &mut K, expected: bool)
    ensures { Goes (at (K.written sink.old) (K.faults sink.old) output.old)
        (at (K.written sink.new) (K.faults sink.new) output.new) (expected_text expected) }
{
    if !expected {
        output.put(sink, b"!");
    }
}

#[tactic(auto, using(crate::proofs::Printing::goes_then))]
fn put_assert<K: Sink>(
    output: &mut Output,
    sink: &mut K,
    program: &Program,
    locals: &[TyId],
    operand: &Operand,
    expected: bool,
    message: &Name,
    values: &List<Operand>,
    block: u128,
)
    ensures { Goes (at (K.written sink.old) (K.faults sink.old) output.old)
        (at (K.written sink.new) (K.faults sink.new) output.new) (piece (codes "assert(") ++ (expected_text expected ++ (operand_text (crate_in program.now) (map (at_id (trees_of program.now.types)) locals.now) operand.now ++ (piece (codes ", \"") ++ (piece message.now ++ (piece (codes "\"") ++ (more_items (operand_text (crate_in program.now) (map (at_id (trees_of program.now.types)) locals.now)) values.now ++ success_text block))))))) }
{
    output.put(sink, b"assert(");
    put_expected(output, sink, expected);
    put_operand(output, sink, program, locals, operand);
    output.put(sink, b", \"");
    put_name(output, sink, message);
    output.put(sink, b"\"");
    put_values(output, sink, program, locals, values);
    put_success(output, sink, block);
}

#[tactic(auto, using(crate::proofs::Printing::goes_then), unfolding(mir_text::specs::TermText::term_text))]
fn put_term<K: Sink>(
    output: &mut Output,
    sink: &mut K,
    program: &Program,
    locals: &[TyId],
    term: &Term,
)
    ensures { Goes (at (K.written sink.old) (K.faults sink.old) output.old)
        (at (K.written sink.new) (K.faults sink.new) output.new) (term_text (crate_in program.now) (map (at_id (trees_of program.now.types)) locals.now) term.now) }
{
    match term {
        Term::Goto(block) => {
            output.put(sink, b"goto -> ");
            put_block_name(output, sink, *block as u128);
        }
        Term::Switch(operand, arms, otherwise) => put_switch(
            output,
            sink,
            program,
            locals,
            operand,
            arms,
            *otherwise as u128,
        ),
        Term::Return => output.put(sink, b"return"),
        Term::Unreachable => output.put(sink, b"unreachable"),
        Term::Drop(place, block) => put_drop(output, sink, program, locals, place, *block as u128),
        Term::Call(place, callee, args, block) => put_call(
            output,
            sink,
            program,
            locals,
            place,
            *callee,
            args,
            *block as u128,
        ),
        Term::Assert(operand, expected, message, values, block) => {
            put_assert(
                output,
                sink,
                program,
                locals,
                operand,
                *expected,
                message,
                values,
                *block as u128,
            )
        }
    }
}

/// Prints the line of a terminator.
#[tactic(auto, using(crate::proofs::Printing::goes_then), unfolding(mir_text::specs::TermText::term_line))]
pub fn put_term_line<K: Sink>(
    output: &mut Output,
    sink: &mut K,
    program: &Program,
    locals: &[TyId],
    term: &Term,
)
    ensures { Goes (at (K.written sink.old) (K.faults sink.old) output.old)
        (at (K.written sink.new) (K.faults sink.new) output.new) (term_line (crate_in program.now) (map (at_id (trees_of program.now.types)) locals.now) term.now) }
{
    output.put(sink, b"        ");
    put_term(output, sink, program, locals, term);
    output.put(sink, b";\n");
}
