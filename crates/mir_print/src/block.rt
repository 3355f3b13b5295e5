ghost use Rattle.std.specs.Prelude.{◌++◌, codes, map};
ghost use Rattle.mir_syntax.specs.Crate.{stmt_of, block_of};
ghost use Rattle.mir_syntax.specs.Tree.{at_id, trees_of};
ghost use Rattle.mir_text.specs.TypeText.{piece};
ghost use Rattle.mir_text.specs.StatementText.{stmts_text};
ghost use Rattle.mir_text.specs.TermText.{block_name, block_text, blocks_text};
ghost use Rattle.mir_print.specs.Seen.{crate_in};
ghost use Rattle.mir_print.specs.Prints.{Goes, at};

use crate::output::Output;
use crate::stmt::put_stmts;
use crate::term::{put_block_name, put_term_line};
use mir_syntax::{Block, Program, TyId};
use pipe_io::Sink;

fn put_stmts_of<K: Sink>(
    output: &mut Output,
    sink: &mut K,
    program: &Program,
    locals: &[TyId],
    block: &Block,
)
    ensures { Goes (at (K.written sink.old) (K.faults sink.old) output.old)
        (at (K.written sink.new) (K.faults sink.new) output.new) (stmts_text (crate_in program.now) (map (at_id (trees_of program.now.types)) locals.now) (map (stmt_of (trees_of program.now.types)) block.now.stmts)) }
{
    put_stmts(output, sink, program, locals, block.stmts.as_slice());
}

#[tactic(auto, using(crate::proofs::Printing::goes_then), unfolding(mir_text::specs::TermText::block_text))]
fn put_block<K: Sink>(
    output: &mut Output,
    sink: &mut K,
    program: &Program,
    locals: &[TyId],
    number: u128,
    block: &Block,
)
    ensures { Goes (at (K.written sink.old) (K.faults sink.old) output.old)
        (at (K.written sink.new) (K.faults sink.new) output.new) (block_text (crate_in program.now) (map (at_id (trees_of program.now.types)) locals.now) number (block_of (trees_of program.now.types) block.now)) }
{
    output.put(sink, b"    ");
    put_block_name(output, sink, number);
    output.put(sink, b": {\n");
    put_stmts_of(output, sink, program, locals, block);
    put_term_line(output, sink, program, locals, &block.term);
    output.put(sink, b"    }\n");
}

// A block after an empty line.
#[tactic(auto, using(crate::proofs::Printing::goes_then))]
fn put_next_block<K: Sink>(
    output: &mut Output,
    sink: &mut K,
    program: &Program,
    locals: &[TyId],
    number: u128,
    block: &Block,
)
    ensures { Goes (at (K.written sink.old) (K.faults sink.old) output.old)
        (at (K.written sink.new) (K.faults sink.new) output.new) (piece (codes "\n") ++ block_text (crate_in program.now) (map (at_id (trees_of program.now.types)) locals.now) number (block_of (trees_of program.now.types) block.now)) }
{
    output.put(sink, b"\n");
    put_block(output, sink, program, locals, number, block);
}

/// Prints the blocks of a body.
pub fn put_blocks<K: Sink>(
    output: &mut Output,
    sink: &mut K,
    program: &Program,
    locals: &[TyId],
    blocks: &[Block],
)
    ensures { Goes (at (K.written sink.old) (K.faults sink.old) output.old)
        (at (K.written sink.new) (K.faults sink.new) output.new) (blocks_text (crate_in program.now) (map (at_id (trees_of program.now.types)) locals.now) 0 (map (block_of (trees_of program.now.types)) blocks.now)) }
{
    for (number, block) in blocks.iter().enumerate() {
        put_next_block(output, sink, program, locals, number as u128, block);
    }
}
