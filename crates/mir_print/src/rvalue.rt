ghost use Rattle.std.specs.Prelude.{◌++◌, codes, map};
ghost use Rattle.mir_syntax.specs.Crate.{rvalue_of};
ghost use Rattle.mir_syntax.specs.Tree.{at_id, trees_of};
ghost use Rattle.mir_text.specs.TypeText.{piece, type_text};
ghost use Rattle.mir_text.specs.PlaceText.{place_text, operand_text};
ghost use Rattle.mir_text.specs.StatementText.{binary_name, over_name, unary_name, pair_text, rvalue_text};
ghost use Rattle.mir_print.specs.Seen.{crate_in};
ghost use Rattle.mir_print.specs.Prints.{Goes, at};

use crate::build::{put_build, put_tuple_build};
use crate::output::Output;
use crate::place::{put_operand, put_place};
use crate::types::put_type;
use mir_syntax::{BinOp, Operand, OverOp, Place, Program, Rvalue, TyId, UnOp};
use pipe_io::Sink;

#[tactic(auto, unfolding(mir_text::specs::StatementText::binary_name))]
fn put_binary_name<K: Sink>(output: &mut Output, sink: &mut K, op: BinOp)
    ensures { Goes (at (K.written sink.old) (K.faults sink.old) output.old)
        (at (K.written sink.new) (K.faults sink.new) output.new) (piece (binary_name op)) }
{
    match op {
        BinOp::Add => output.put(sink, b"Add"),
        BinOp::Sub => output.put(sink, b"Sub"),
        BinOp::Mul => output.put(sink, b"Mul"),
        BinOp::Div => output.put(sink, b"Div"),
        BinOp::Rem => output.put(sink, b"Rem"),
        BinOp::BitXor => output.put(sink, b"BitXor"),
        BinOp::BitAnd => output.put(sink, b"BitAnd"),
        BinOp::BitOr => output.put(sink, b"BitOr"),
        BinOp::Shl => output.put(sink, b"Shl"),
        BinOp::Shr => output.put(sink, b"Shr"),
        BinOp::Eq => output.put(sink, b"Eq"),
        BinOp::Ne => output.put(sink, b"Ne"),
        BinOp::Lt => output.put(sink, b"Lt"),
        BinOp::Le => output.put(sink, b"Le"),
        BinOp::Gt => output.put(sink, b"Gt"),
        BinOp::Ge => output.put(sink, b"Ge"),
        BinOp::AddUnchecked => output.put(sink, b"AddUnchecked"),
        BinOp::SubUnchecked => output.put(sink, b"SubUnchecked"),
        BinOp::MulUnchecked => output.put(sink, b"MulUnchecked"),
    }
}

#[tactic(auto, unfolding(mir_text::specs::StatementText::over_name))]
fn put_over_name<K: Sink>(output: &mut Output, sink: &mut K, op: OverOp)
    ensures { Goes (at (K.written sink.old) (K.faults sink.old) output.old)
        (at (K.written sink.new) (K.faults sink.new) output.new) (piece (over_name op)) }
{
    match op {
        OverOp::Add => output.put(sink, b"AddWithOverflow"),
        OverOp::Sub => output.put(sink, b"SubWithOverflow"),
        OverOp::Mul => output.put(sink, b"MulWithOverflow"),
    }
}

#[tactic(auto, unfolding(mir_text::specs::StatementText::unary_name))]
fn put_unary_name<K: Sink>(output: &mut Output, sink: &mut K, op: UnOp)
    ensures { Goes (at (K.written sink.old) (K.faults sink.old) output.old)
        (at (K.written sink.new) (K.faults sink.new) output.new) (piece (unary_name op)) }
{
    match op {
        UnOp::Not => output.put(sink, b"Not"),
        UnOp::Neg => output.put(sink, b"Neg"),
    }
}

// Two operands in a parenthesis.
#[tactic(auto, using(crate::proofs::Printing::goes_then), unfolding(mir_text::specs::StatementText::pair_text))]
fn put_pair<K: Sink>(
    output: &mut Output,
    sink: &mut K,
    program: &Program,
    locals: &[TyId],
    left: &Operand,
    right: &Operand,
)
    ensures { Goes (at (K.written sink.old) (K.faults sink.old) output.old)
        (at (K.written sink.new) (K.faults sink.new) output.new) (pair_text (crate_in program.now) (map (at_id (trees_of program.now.types)) locals.now) left.now right.now) }
{
    output.put(sink, b"(");
    put_operand(output, sink, program, locals, left);
    output.put(sink, b", ");
    put_operand(output, sink, program, locals, right);
    output.put(sink, b")");
}

// A cast to an integer type.
#[tactic(auto, using(crate::proofs::Printing::goes_then))]
fn put_cast<K: Sink>(
    output: &mut Output,
    sink: &mut K,
    program: &Program,
    locals: &[TyId],
    operand: &Operand,
    ty: TyId,
)
    ensures { Goes (at (K.written sink.old) (K.faults sink.old) output.old)
        (at (K.written sink.new) (K.faults sink.new) output.new) (operand_text (crate_in program.now) (map (at_id (trees_of program.now.types)) locals.now) operand.now ++ (piece (codes " as ") ++ (type_text (crate_in program.now) (at_id (trees_of program.now.types) ty) ++ piece (codes " (IntToInt)")))) }
{
    put_operand(output, sink, program, locals, operand);
    output.put(sink, b" as ");
    put_type(output, sink, program, ty);
    output.put(sink, b" (IntToInt)");
}

// A word, and a place in a parenthesis behind it.
#[tactic(auto, using(crate::proofs::Printing::goes_then))]
fn put_discriminant<K: Sink>(
    output: &mut Output,
    sink: &mut K,
    program: &Program,
    locals: &[TyId],
    place: &Place,
)
    ensures { Goes (at (K.written sink.old) (K.faults sink.old) output.old)
        (at (K.written sink.new) (K.faults sink.new) output.new) (piece (codes "discriminant(") ++ (place_text (crate_in program.now) (map (at_id (trees_of program.now.types)) locals.now) place.now ++ piece (codes ")"))) }
{
    output.put(sink, b"discriminant(");
    put_place(output, sink, program, locals, place);
    output.put(sink, b")");
}

#[tactic(auto, using(crate::proofs::Printing::goes_then))]
fn put_unary<K: Sink>(
    output: &mut Output,
    sink: &mut K,
    program: &Program,
    locals: &[TyId],
    op: UnOp,
    operand: &Operand,
)
    ensures { Goes (at (K.written sink.old) (K.faults sink.old) output.old)
        (at (K.written sink.new) (K.faults sink.new) output.new) (piece (unary_name op) ++ (piece (codes "(") ++ (operand_text (crate_in program.now) (map (at_id (trees_of program.now.types)) locals.now) operand.now ++ piece (codes ")")))) }
{
    put_unary_name(output, sink, op);
    output.put(sink, b"(");
    put_operand(output, sink, program, locals, operand);
    output.put(sink, b")");
}

/// Prints what an assignment computes.
#[tactic(auto, using(crate::proofs::Printing::goes_then), unfolding(mir_text::specs::StatementText::rvalue_text))]
pub fn put_rvalue<K: Sink>(
    output: &mut Output,
    sink: &mut K,
    program: &Program,
    locals: &[TyId],
    value: &Rvalue,
)
    ensures { Goes (at (K.written sink.old) (K.faults sink.old) output.old)
        (at (K.written sink.new) (K.faults sink.new) output.new) (rvalue_text (crate_in program.now) (map (at_id (trees_of program.now.types)) locals.now) (rvalue_of (trees_of program.now.types) value.now)) }
{
    match value {
        Rvalue::Use(operand) => put_operand(output, sink, program, locals, operand),
        Rvalue::Binary(op, left, right) => {
            put_binary_name(output, sink, *op);
            put_pair(output, sink, program, locals, left, right);
        }
        Rvalue::Overflow(op, left, right) => {
            put_over_name(output, sink, *op);
            put_pair(output, sink, program, locals, left, right);
        }
        Rvalue::Unary(op, operand) => put_unary(output, sink, program, locals, *op, operand),
        Rvalue::Cast(operand, ty) => put_cast(output, sink, program, locals, operand, *ty),
        Rvalue::Ref(place) => {
            output.put(sink, b"&");
            put_place(output, sink, program, locals, place);
        }
        Rvalue::RefMut(place) => {
            output.put(sink, b"&mut ");
            put_place(output, sink, program, locals, place);
        }
        Rvalue::Discriminant(place) => put_discriminant(output, sink, program, locals, place),
        Rvalue::Tuple(parts) => put_tuple_build(output, sink, program, locals, parts.as_slice()),
        Rvalue::Build(def, variant, parts) => put_build(
            output,
            sink,
            program,
            locals,
            *def,
            *variant,
            parts.as_slice(),
        ),
    }
}
