ghost use Rattle.std.specs.Prelude.{◌≡◌, ◌<◌, ◌++◌, IsTrue, codes, length, map};
ghost use Rattle.mir_syntax.specs.Table.{all_below};
ghost use Rattle.mir_syntax.specs.Tree.{at_id, at_ids, trees_of};
ghost use Rattle.mir_text.specs.TypeText.{piece, more_items, comma_list, int_name, scalar_text, def_at, type_text, rest_text, parts_text};
ghost use Rattle.mir_print.specs.Seen.{crate_in};
ghost use Rattle.mir_print.specs.Prints.{Goes, at};

use crate::output::Output;
use mir_syntax::{IntTy, Name, Program, ScalarTy, Ty, TyId};
use pipe_io::Sink;

/// Prints a name, a path or the text of a message.
pub fn put_name<K: Sink>(output: &mut Output, sink: &mut K, name: &Name)
    ensures { Goes (at (K.written sink.old) (K.faults sink.old) output.old)
        (at (K.written sink.new) (K.faults sink.new) output.new) (piece name.now) }
{
    output.put(sink, name.as_slice());
}

/// Prints the name of an integer type.
#[tactic(auto, unfolding(mir_text::specs::TypeText::int_name))]
pub fn put_int_name<K: Sink>(output: &mut Output, sink: &mut K, ty: IntTy)
    ensures { Goes (at (K.written sink.old) (K.faults sink.old) output.old)
        (at (K.written sink.new) (K.faults sink.new) output.new) (piece (int_name ty)) }
{
    match ty {
        IntTy::I8 => output.put(sink, b"i8"),
        IntTy::I16 => output.put(sink, b"i16"),
        IntTy::I32 => output.put(sink, b"i32"),
        IntTy::I64 => output.put(sink, b"i64"),
        IntTy::I128 => output.put(sink, b"i128"),
        IntTy::Isize => output.put(sink, b"isize"),
        IntTy::U8 => output.put(sink, b"u8"),
        IntTy::U16 => output.put(sink, b"u16"),
        IntTy::U32 => output.put(sink, b"u32"),
        IntTy::U64 => output.put(sink, b"u64"),
        IntTy::U128 => output.put(sink, b"u128"),
        IntTy::Usize => output.put(sink, b"usize"),
    }
}

#[tactic(auto, unfolding(mir_text::specs::TypeText::scalar_text))]
fn put_scalar<K: Sink>(output: &mut Output, sink: &mut K, ty: ScalarTy)
    ensures { Goes (at (K.written sink.old) (K.faults sink.old) output.old)
        (at (K.written sink.new) (K.faults sink.new) output.new) (scalar_text ty) }
{
    match ty {
        ScalarTy::Bool => output.put(sink, b"bool"),
        ScalarTy::Int(int) => put_int_name(output, sink, int),
    }
}

// The path of a definition.
#[tactic(auto, using(crate::proofs::Texts::def_some, crate::proofs::Texts::def_none))]
fn def_path(program: &Program, def: u32) -> &[u8]
    ensures { result.now ≡ (def_at (crate_in program.now) def).path }
{
    match program.defs.get(def as usize) {
        Some(found) => found.path.as_slice(),
        None => &[],
    }
}

/// Prints the path of a definition.
pub fn put_def_path<K: Sink>(output: &mut Output, sink: &mut K, program: &Program, def: u32)
    ensures { Goes (at (K.written sink.old) (K.faults sink.old) output.old)
        (at (K.written sink.new) (K.faults sink.new) output.new) (piece (def_at (crate_in program.now) def).path) }
{
    output.put(sink, def_path(program, def));
}

/// Prints the type that an id stands for.
#[cycle(types)]
pub fn put_type<K: Sink>(output: &mut Output, sink: &mut K, program: &Program, id: TyId)
    ensures { Goes (at (K.written sink.old) (K.faults sink.old) output.old)
        (at (K.written sink.new) (K.faults sink.new) output.new) (type_text (crate_in program.now) (at_id (trees_of program.now.types) id)) }
{
    if id.0 < program.types() {
        put_known_type(output, sink, program, id);
    } else {
        // Contracts read an id that isn't in the table as `bool`.
        put_scalar(output, sink, ScalarTy::Bool);
    }
}

// A type of the table.
#[cycle(types)]
#[tactic(auto, using(crate::proofs::Printing::goes_then), unfolding(mir_text::specs::TypeText::type_text))]
fn put_known_type<K: Sink>(output: &mut Output, sink: &mut K, program: &Program, id: TyId)
    requires { id.0 < length program.now.types }
    ensures { Goes (at (K.written sink.old) (K.faults sink.old) output.old)
        (at (K.written sink.new) (K.faults sink.new) output.new) (type_text (crate_in program.now) (at_id (trees_of program.now.types) id)) }
{
    match program.ty(id) {
        Ty::Scalar(scalar) => put_scalar(output, sink, *scalar),
        Ty::Tuple(ids) => put_tuple(output, sink, program, id.0, ids.as_slice()),
        Ty::Ref(inner) => {
            output.put(sink, b"&");
            put_type(output, sink, program, *inner);
        }
        Ty::RefMut(inner) => {
            output.put(sink, b"&mut ");
            put_type(output, sink, program, *inner);
        }
        Ty::Named(def) => put_def_path(output, sink, program, *def),
    }
}

// A tuple of types whose ids are below a bound.
#[cycle(types)]
#[tactic(auto, using(crate::proofs::Printing::goes_then), unfolding(mir_text::specs::TypeText::type_text))]
fn put_tuple<K: Sink>(
    output: &mut Output,
    sink: &mut K,
    program: &Program,
    bound: u32,
    ids: &[TyId],
)
    requires { IsTrue (all_below bound ids.now) }
    ensures { Goes (at (K.written sink.old) (K.faults sink.old) output.old)
        (at (K.written sink.new) (K.faults sink.new) output.new) (type_text (crate_in program.now) (at_ids (trees_of program.now.types) ids.now)) }
{
    match ids {
        [] => output.put(sink, b"()"),
        [first, others @ ..] => {
            output.put(sink, b"(");
            put_type(output, sink, program, *first);
            put_rest(output, sink, program, bound, others);
        }
    }
}

// What follows the first part of a tuple; a lone part has a comma.
#[cycle(types)]
#[tactic(auto, using(crate::proofs::Printing::goes_then), unfolding(mir_text::specs::TypeText::rest_text))]
fn put_rest<K: Sink>(output: &mut Output, sink: &mut K, program: &Program, bound: u32, ids: &[TyId])
    requires { IsTrue (all_below bound ids.now) }
    ensures { Goes (at (K.written sink.old) (K.faults sink.old) output.old)
        (at (K.written sink.new) (K.faults sink.new) output.new) (rest_text (crate_in program.now) (at_ids (trees_of program.now.types) ids.now)) }
{
    match ids {
        [] => output.put(sink, b",)"),
        [second, others @ ..] => {
            output.put(sink, b", ");
            put_type(output, sink, program, *second);
            put_parts(output, sink, program, bound, others);
        }
    }
}

// What follows a later part of a tuple.
#[cycle(types)]
fn put_parts<K: Sink>(
    output: &mut Output,
    sink: &mut K,
    program: &Program,
    bound: u32,
    ids: &[TyId],
)
    requires { IsTrue (all_below bound ids.now) }
    ensures { Goes (at (K.written sink.old) (K.faults sink.old) output.old)
        (at (K.written sink.new) (K.faults sink.new) output.new) (parts_text (crate_in program.now) (at_ids (trees_of program.now.types) ids.now)) }
{
    for id in ids {
        output.put(sink, b", ");
        put_type(output, sink, program, *id);
    }
    output.put(sink, b")");
}

#[tactic(auto, using(crate::proofs::Printing::goes_then))]
fn put_next_type<K: Sink>(output: &mut Output, sink: &mut K, program: &Program, id: TyId)
    ensures { Goes (at (K.written sink.old) (K.faults sink.old) output.old)
        (at (K.written sink.new) (K.faults sink.new) output.new) (piece (codes ", ") ++ type_text (crate_in program.now) (at_id (trees_of program.now.types) id)) }
{
    output.put(sink, b", ");
    put_type(output, sink, program, id);
}

// The types of a list after the first one.
fn put_more_types<K: Sink>(output: &mut Output, sink: &mut K, program: &Program, ids: &[TyId])
    ensures { Goes (at (K.written sink.old) (K.faults sink.old) output.old)
        (at (K.written sink.new) (K.faults sink.new) output.new) (more_items (type_text (crate_in program.now)) (map (at_id (trees_of program.now.types)) ids.now)) }
{
    for id in ids {
        put_next_type(output, sink, program, *id);
    }
}

/// Prints types with commas between them.
#[tactic(auto, using(crate::proofs::Printing::goes_then, crate::proofs::Printing::goes_nothing), unfolding(mir_text::specs::TypeText::comma_list))]
pub fn put_types<K: Sink>(output: &mut Output, sink: &mut K, program: &Program, ids: &[TyId])
    ensures { Goes (at (K.written sink.old) (K.faults sink.old) output.old)
        (at (K.written sink.new) (K.faults sink.new) output.new) (comma_list (type_text (crate_in program.now)) (map (at_id (trees_of program.now.types)) ids.now)) }
{
    match ids {
        [] => {}
        [first, others @ ..] => {
            put_type(output, sink, program, *first);
            put_more_types(output, sink, program, others);
        }
    }
}
