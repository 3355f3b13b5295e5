ghost use Rattle.std.specs.Prelude.{◌≡◌, ◌++◌, ◌+◌, codes, suc, map, take, drop};
ghost use Rattle.mir_syntax.specs.Crate.{block_of, body_of, function_of};
ghost use Rattle.mir_syntax.specs.Tree.{at_id, trees_of};
ghost use Rattle.mir_text.specs.TypeText.{piece, type_text};
ghost use Rattle.mir_text.specs.PlaceText.{local_ty};
ghost use Rattle.mir_text.specs.TermText.{blocks_text};
ghost use Rattle.mir_text.specs.Text.{local_decl, more_args, args_text, args_of, others_of, let_line, lets_text, body_text, inline_text, drop_text, header_text, function_text};
ghost use Rattle.mir_print.specs.Seen.{crate_in, with_body};
ghost use Rattle.mir_print.specs.Prints.{Goes, at};

use crate::block::put_blocks;
use crate::output::Output;
use crate::place::put_local;
use crate::types::{put_name, put_type};
use mir_syntax::{Body, Function, Inline, Name, Program, TyId};
use pipe_io::Sink;

// A local and its type.
#[tactic(auto, using(crate::proofs::Printing::goes_then), unfolding(mir_text::specs::Text::local_decl))]
fn put_decl<K: Sink>(output: &mut Output, sink: &mut K, program: &Program, local: u128, ty: TyId)
    ensures { Goes (at (K.written sink.old) (K.faults sink.old) output.old)
        (at (K.written sink.new) (K.faults sink.new) output.new) (local_decl (crate_in program.now) local (at_id (trees_of program.now.types) ty)) }
{
    put_local(output, sink, local);
    output.put(sink, b": ");
    put_type(output, sink, program, ty);
}

#[tactic(auto, using(crate::proofs::Printing::goes_then))]
fn put_next_arg<K: Sink>(
    output: &mut Output,
    sink: &mut K,
    program: &Program,
    local: u128,
    ty: TyId,
)
    ensures { Goes (at (K.written sink.old) (K.faults sink.old) output.old)
        (at (K.written sink.new) (K.faults sink.new) output.new) (piece (codes ", ") ++ local_decl (crate_in program.now) local (at_id (trees_of program.now.types) ty)) }
{
    output.put(sink, b", ");
    put_decl(output, sink, program, local, ty);
}

// The arguments after the first one.
fn put_more_args<K: Sink>(output: &mut Output, sink: &mut K, program: &Program, types: &[TyId])
    ensures { Goes (at (K.written sink.old) (K.faults sink.old) output.old)
        (at (K.written sink.new) (K.faults sink.new) output.new) (more_args (crate_in program.now) 2 (map (at_id (trees_of program.now.types)) types.now)) }
{
    for (index, ty) in types.iter().enumerate() {
        put_next_arg(output, sink, program, index as u128 + 2, *ty);
    }
}

#[tactic(auto, using(crate::proofs::Printing::goes_then, crate::proofs::Printing::goes_nothing), unfolding(mir_text::specs::Text::args_text))]
fn put_args<K: Sink>(output: &mut Output, sink: &mut K, program: &Program, types: &[TyId])
    ensures { Goes (at (K.written sink.old) (K.faults sink.old) output.old)
        (at (K.written sink.new) (K.faults sink.new) output.new) (args_text (crate_in program.now) (map (at_id (trees_of program.now.types)) types.now)) }
{
    match types {
        [] => {}
        [first, others @ ..] => {
            put_decl(output, sink, program, 1, *first);
            put_more_args(output, sink, program, others);
        }
    }
}

#[tactic(auto, using(crate::proofs::Printing::goes_then), unfolding(mir_text::specs::Text::let_line))]
fn put_let<K: Sink>(output: &mut Output, sink: &mut K, program: &Program, local: u128, ty: TyId)
    ensures { Goes (at (K.written sink.old) (K.faults sink.old) output.old)
        (at (K.written sink.new) (K.faults sink.new) output.new) (let_line (crate_in program.now) local (at_id (trees_of program.now.types) ty)) }
{
    output.put(sink, b"    let mut ");
    put_decl(output, sink, program, local, ty);
    output.put(sink, b";\n");
}

// The lines of locals, the first of which has a number.
fn put_lets<K: Sink>(
    output: &mut Output,
    sink: &mut K,
    program: &Program,
    first: u64,
    types: &[TyId],
)
    ensures { Goes (at (K.written sink.old) (K.faults sink.old) output.old)
        (at (K.written sink.new) (K.faults sink.new) output.new) (lets_text (crate_in program.now) first (map (at_id (trees_of program.now.types)) types.now)) }
{
    for (index, ty) in types.iter().enumerate() {
        put_let(output, sink, program, first as u128 + index as u128, *ty);
    }
}

#[tactic(auto, using(crate::proofs::Printing::goes_nothing), unfolding(mir_text::specs::Text::inline_text))]
fn put_inline<K: Sink>(output: &mut Output, sink: &mut K, inline: Inline)
    ensures { Goes (at (K.written sink.old) (K.faults sink.old) output.old)
        (at (K.written sink.new) (K.faults sink.new) output.new) (inline_text inline) }
{
    match inline {
        Inline::Plain => {}
        Inline::Hint => output.put(sink, b"#[inline]\n"),
        Inline::Always => output.put(sink, b"#[inline(always)]\n"),
        Inline::Never => output.put(sink, b"#[inline(never)]\n"),
    }
}

#[tactic(auto, using(crate::proofs::Printing::goes_nothing), unfolding(mir_text::specs::Text::drop_text))]
fn put_drop<K: Sink>(output: &mut Output, sink: &mut K, is_drop: bool)
    ensures { Goes (at (K.written sink.old) (K.faults sink.old) output.old)
        (at (K.written sink.new) (K.faults sink.new) output.new) (drop_text is_drop) }
{
    if is_drop {
        output.put(sink, b"drop ");
    }
}

// The first ids, or all where there are fewer.
fn first_ids(ids: &[TyId], count: usize) -> &[TyId]
    ensures { result.now ≡ take count ids.now }
{
    &ids[..count.min(ids.len())]
}

// The ids behind the first ones.
fn later_ids(ids: &[TyId], count: usize) -> &[TyId]
    ensures { result.now ≡ drop count ids.now }
{
    &ids[count.min(ids.len())..]
}

fn put_args_of<K: Sink>(output: &mut Output, sink: &mut K, program: &Program, body: &Body)
    ensures { Goes (at (K.written sink.old) (K.faults sink.old) output.old)
        (at (K.written sink.new) (K.faults sink.new) output.new) (args_text (crate_in program.now) (args_of (body_of (trees_of program.now.types) body.now))) }
{
    let later = later_ids(body.locals.as_slice(), 1);
    put_args(output, sink, program, first_ids(later, body.args as usize));
}

fn put_others_of<K: Sink>(output: &mut Output, sink: &mut K, program: &Program, body: &Body)
    ensures { Goes (at (K.written sink.old) (K.faults sink.old) output.old)
        (at (K.written sink.new) (K.faults sink.new) output.new) (lets_text (crate_in program.now) (suc body.now.args) (others_of (body_of (trees_of program.now.types) body.now))) }
{
    let first = body.args as u64 + 1;
    put_lets(
        output,
        sink,
        program,
        first,
        later_ids(body.locals.as_slice(), first as usize),
    );
}

// The type of `_0`.
fn put_result_ty<K: Sink>(output: &mut Output, sink: &mut K, program: &Program, body: &Body)
    ensures { Goes (at (K.written sink.old) (K.faults sink.old) output.old)
        (at (K.written sink.new) (K.faults sink.new) output.new) (type_text (crate_in program.now) (local_ty (map (at_id (trees_of program.now.types)) body.now.locals) 0)) }
{
    match body.locals.get(0) {
        Some(ty) => put_type(output, sink, program, *ty),
        None => output.put(sink, b"()"),
    }
}

#[tactic(auto, using(crate::proofs::Printing::goes_then), unfolding(mir_text::specs::Text::local_decl))]
fn put_result_decl<K: Sink>(output: &mut Output, sink: &mut K, program: &Program, body: &Body)
    ensures { Goes (at (K.written sink.old) (K.faults sink.old) output.old)
        (at (K.written sink.new) (K.faults sink.new) output.new) (local_decl (crate_in program.now) 0 (local_ty (map (at_id (trees_of program.now.types)) body.now.locals) 0)) }
{
    put_local(output, sink, 0);
    output.put(sink, b": ");
    put_result_ty(output, sink, program, body);
}

#[tactic(auto, using(crate::proofs::Printing::goes_then), unfolding(mir_text::specs::Text::let_line))]
fn put_result_let<K: Sink>(output: &mut Output, sink: &mut K, program: &Program, body: &Body)
    ensures { Goes (at (K.written sink.old) (K.faults sink.old) output.old)
        (at (K.written sink.new) (K.faults sink.new) output.new) (let_line (crate_in program.now) 0 (local_ty (map (at_id (trees_of program.now.types)) body.now.locals) 0)) }
{
    output.put(sink, b"    let mut ");
    put_result_decl(output, sink, program, body);
    output.put(sink, b";\n");
}

#[tactic(auto, using(crate::proofs::Printing::goes_then), unfolding(mir_text::specs::Text::header_text))]
fn put_header<K: Sink>(
    output: &mut Output,
    sink: &mut K,
    program: &Program,
    path: &Name,
    body: &Body,
)
    ensures { Goes (at (K.written sink.old) (K.faults sink.old) output.old)
        (at (K.written sink.new) (K.faults sink.new) output.new) (header_text (crate_in program.now) path.now (body_of (trees_of program.now.types) body.now)) }
{
    output.put(sink, b"fn ");
    put_name(output, sink, path);
    output.put(sink, b"(");
    put_args_of(output, sink, program, body);
    output.put(sink, b") -> ");
    put_result_ty(output, sink, program, body);
    output.put(sink, b" {\n");
}

fn put_blocks_of<K: Sink>(output: &mut Output, sink: &mut K, program: &Program, body: &Body)
    ensures { Goes (at (K.written sink.old) (K.faults sink.old) output.old)
        (at (K.written sink.new) (K.faults sink.new) output.new) (blocks_text (crate_in program.now) (map (at_id (trees_of program.now.types)) body.now.locals) 0 (map (block_of (trees_of program.now.types)) body.now.blocks)) }
{
    put_blocks(
        output,
        sink,
        program,
        body.locals.as_slice(),
        body.blocks.as_slice(),
    );
}

#[tactic(auto, using(crate::proofs::Printing::goes_then), unfolding(mir_text::specs::Text::body_text))]
fn put_body<K: Sink>(output: &mut Output, sink: &mut K, program: &Program, body: &Body)
    ensures { Goes (at (K.written sink.old) (K.faults sink.old) output.old)
        (at (K.written sink.new) (K.faults sink.new) output.new) (body_text (crate_in program.now) (body_of (trees_of program.now.types) body.now)) }
{
    put_result_let(output, sink, program, body);
    put_others_of(output, sink, program, body);
    put_blocks_of(output, sink, program, body);
}

/// Prints a function with a body.
#[tactic(auto, using(crate::proofs::Printing::goes_then), unfolding(mir_text::specs::Text::function_text))]
pub fn put_function<K: Sink>(
    output: &mut Output,
    sink: &mut K,
    program: &Program,
    function: &Function,
    body: &Body,
)
    ensures { Goes (at (K.written sink.old) (K.faults sink.old) output.old)
        (at (K.written sink.new) (K.faults sink.new) output.new) (function_text (crate_in program.now) (with_body (function_of (trees_of program.now.types) function.now) (body_of (trees_of program.now.types) body.now))) }
{
    put_inline(output, sink, function.inline);
    put_drop(output, sink, function.is_drop);
    put_header(output, sink, program, &function.path, body);
    put_body(output, sink, program, body);
    output.put(sink, b"}\n");
}
