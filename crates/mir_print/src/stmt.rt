ghost use Rattle.std.specs.Prelude.{◌++◌, codes, decimal, map};
ghost use Rattle.mir_syntax.specs.Crate.{stmt_of};
ghost use Rattle.mir_syntax.specs.Tree.{at_id, trees_of};
ghost use Rattle.mir_text.specs.TypeText.{piece};
ghost use Rattle.mir_text.specs.PlaceText.{local_text, place_text};
ghost use Rattle.mir_text.specs.StatementText.{stmt_text, stmt_line, stmts_text};
ghost use Rattle.mir_print.specs.Seen.{crate_in};
ghost use Rattle.mir_print.specs.Prints.{Goes, at};

use crate::output::Output;
use crate::place::{put_local, put_place};
use crate::rvalue::put_rvalue;
use mir_syntax::{Place, Program, Stmt, TyId};
use pipe_io::Sink;

#[tactic(auto, using(crate::proofs::Printing::goes_then))]
fn put_set_discriminant<K: Sink>(
    output: &mut Output,
    sink: &mut K,
    program: &Program,
    locals: &[TyId],
    place: &Place,
    variant: u32,
)
    ensures { Goes (at (K.written sink.old) (K.faults sink.old) output.old)
        (at (K.written sink.new) (K.faults sink.new) output.new) (piece (codes "discriminant(") ++ (place_text (crate_in program.now) (map (at_id (trees_of program.now.types)) locals.now) place.now ++ (piece (codes ") = ") ++ piece (decimal variant)))) }
{
    output.put(sink, b"discriminant(");
    put_place(output, sink, program, locals, place);
    output.put(sink, b") = ");
    output.put_number(sink, variant as u128);
}

#[tactic(auto, using(crate::proofs::Printing::goes_then), unfolding(mir_text::specs::StatementText::stmt_text))]
fn put_stmt<K: Sink>(
    output: &mut Output,
    sink: &mut K,
    program: &Program,
    locals: &[TyId],
    stmt: &Stmt,
)
    ensures { Goes (at (K.written sink.old) (K.faults sink.old) output.old)
        (at (K.written sink.new) (K.faults sink.new) output.new) (stmt_text (crate_in program.now) (map (at_id (trees_of program.now.types)) locals.now) (stmt_of (trees_of program.now.types) stmt.now)) }
{
    match stmt {
        Stmt::Assign(place, value) => {
            put_place(output, sink, program, locals, place);
            output.put(sink, b" = ");
            put_rvalue(output, sink, program, locals, value);
        }
        Stmt::StorageLive(local) => {
            output.put(sink, b"StorageLive(");
            put_local(output, sink, *local as u128);
            output.put(sink, b")");
        }
        Stmt::StorageDead(local) => {
            output.put(sink, b"StorageDead(");
            put_local(output, sink, *local as u128);
            output.put(sink, b")");
        }
        Stmt::SetDiscriminant(place, variant) => put_set_discriminant(
            output, sink, program, locals, place, *variant,
        ),
    }
}

#[tactic(auto, using(crate::proofs::Printing::goes_then), unfolding(mir_text::specs::StatementText::stmt_line))]
fn put_stmt_line<K: Sink>(
    output: &mut Output,
    sink: &mut K,
    program: &Program,
    locals: &[TyId],
    stmt: &Stmt,
)
    ensures { Goes (at (K.written sink.old) (K.faults sink.old) output.old)
        (at (K.written sink.new) (K.faults sink.new) output.new) (stmt_line (crate_in program.now) (map (at_id (trees_of program.now.types)) locals.now) (stmt_of (trees_of program.now.types) stmt.now)) }
{
    output.put(sink, b"        ");
    put_stmt(output, sink, program, locals, stmt);
    output.put(sink, b";\n");
}

/// Prints statements, each in a line.
pub fn put_stmts<K: Sink>(
    output: &mut Output,
    sink: &mut K,
    program: &Program,
    locals: &[TyId],
    stmts: &[Stmt],
)
    ensures { Goes (at (K.written sink.old) (K.faults sink.old) output.old)
        (at (K.written sink.new) (K.faults sink.new) output.new) (stmts_text (crate_in program.now) (map (at_id (trees_of program.now.types)) locals.now) (map (stmt_of (trees_of program.now.types)) stmts.now)) }
{
    for stmt in stmts {
        put_stmt_line(output, sink, program, locals, stmt);
    }
}
