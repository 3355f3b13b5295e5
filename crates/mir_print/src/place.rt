ghost use Rattle.std.specs.Prelude.{◌≡◌, ◌++◌, ◌+◌, ◌-◌, ◌<◌, ◌≤◌, List, codes, decimal, length, map, get_or};
ghost use Rattle.mir_syntax.specs.declared.body.Proj.TheVariants as proj;
ghost use Rattle.mir_syntax.specs.Tree.{Tree, at_id, trees_of};
ghost use Rattle.mir_text.specs.TypeText.{piece, more_items, comma_list, type_text};
ghost use Rattle.mir_text.specs.PlaceText.{local_text, local_ty, type_after, variant_name, opening, openings, closing, closings, place_text, operand_text};
ghost use Rattle.mir_print.specs.Seen.{crate_in};
ghost use Rattle.mir_print.specs.Parts.{part_tree};
ghost use Rattle.mir_print.specs.Prints.{Goes, at};

use crate::constant::put_const;
use crate::fields::{Part, part_after, part_field, part_variant_name};
use crate::output::Output;
use crate::types::put_type;
use mir_syntax::{Operand, Place, Program, Proj, TyId};
use pipe_io::Sink;

/// Prints `_` and the number of a local.
#[tactic(auto, using(crate::proofs::Printing::goes_then), unfolding(mir_text::specs::PlaceText::local_text))]
pub fn put_local<K: Sink>(output: &mut Output, sink: &mut K, local: u128)
    ensures { Goes (at (K.written sink.old) (K.faults sink.old) output.old)
        (at (K.written sink.new) (K.faults sink.new) output.new) (local_text local) }
{
    output.put(sink, b"_");
    output.put_number(sink, local);
}

// What a projection puts before the place that it goes on from.
#[tactic(auto, unfolding(mir_text::specs::PlaceText::opening))]
fn put_opening<K: Sink>(output: &mut Output, sink: &mut K, proj: Proj)
    ensures { Goes (at (K.written sink.old) (K.faults sink.old) output.old)
        (at (K.written sink.new) (K.faults sink.new) output.new) (opening proj) }
{
    match proj {
        Proj::Deref => output.put(sink, b"(*"),
        Proj::Downcast(_) => output.put(sink, b"("),
        Proj::Field(_) => output.put(sink, b"("),
    }
}

// The openings of projections, the last of which is the outermost.
fn put_openings<K: Sink>(output: &mut Output, sink: &mut K, projs: &[Proj])
    ensures { Goes (at (K.written sink.old) (K.faults sink.old) output.old)
        (at (K.written sink.new) (K.faults sink.new) output.new) (openings projs.now) }
{
    let mut left = projs.len();
    while left > 0 {
        left -= 1;
        put_opening(output, sink, projs[left]);
    }
}

// The type of a field of a part.
fn put_field_type<K: Sink>(
    output: &mut Output,
    sink: &mut K,
    program: &Program,
    part: Part,
    index: u32,
)
    ensures { Goes (at (K.written sink.old) (K.faults sink.old) output.old)
        (at (K.written sink.new) (K.faults sink.new) output.new) (type_text (crate_in program.now) (type_after (crate_in program.now) (part_tree (trees_of program.now.types) part.entry) (proj.Field index))) }
{
    match part_field(program, part, index) {
        Some(id) => put_type(output, sink, program, id),
        None => output.put(sink, b"()"),
    }
}

fn put_variant_name<K: Sink>(
    output: &mut Output,
    sink: &mut K,
    program: &Program,
    part: Part,
    variant: u32,
)
    ensures { Goes (at (K.written sink.old) (K.faults sink.old) output.old)
        (at (K.written sink.new) (K.faults sink.new) output.new) (piece (variant_name (crate_in program.now) (part_tree (trees_of program.now.types) part.entry) variant)) }
{
    output.put(sink, part_variant_name(program, part, variant));
}

// What a projection puts after a place at which a part stands.
#[tactic(auto, using(crate::proofs::Printing::goes_then), unfolding(mir_text::specs::PlaceText::closing))]
fn put_closing<K: Sink>(
    output: &mut Output,
    sink: &mut K,
    program: &Program,
    part: Part,
    proj: Proj,
)
    ensures { Goes (at (K.written sink.old) (K.faults sink.old) output.old)
        (at (K.written sink.new) (K.faults sink.new) output.new) (closing (crate_in program.now) (part_tree (trees_of program.now.types) part.entry) proj) }
{
    match proj {
        Proj::Deref => output.put(sink, b")"),
        Proj::Downcast(variant) => {
            output.put(sink, b" as ");
            put_variant_name(output, sink, program, part, variant);
            output.put(sink, b")");
        }
        Proj::Field(index) => {
            output.put(sink, b".");
            output.put_number(sink, index as u128);
            output.put(sink, b": ");
            put_field_type(output, sink, program, part, index);
            output.put(sink, b")");
        }
    }
}

fn put_closings<K: Sink>(
    output: &mut Output,
    sink: &mut K,
    program: &Program,
    start: Part,
    projs: &[Proj],
)
    ensures { Goes (at (K.written sink.old) (K.faults sink.old) output.old)
        (at (K.written sink.new) (K.faults sink.new) output.new) (closings (crate_in program.now) (part_tree (trees_of program.now.types) start.entry) projs.now) }
{
    let mut part = start;
    for proj in projs {
        put_closing(output, sink, program, part, *proj);
        part = part_after(program, part, *proj);
    }
}

// What stands at a local.
fn local_part<'a>(locals: &[TyId], local: u32) -> Part<'a>
    ensures { (trees : List Tree) → part_tree trees result ≡ local_ty (map (at_id trees) locals.now) local }
{
    match locals.get(local as usize) {
        Some(id) => Part::Ty(*id),
        None => Part::Fields(&[]),
    }
}

// What the projections of a place put after its local.
fn put_closings_of<K: Sink>(
    output: &mut Output,
    sink: &mut K,
    program: &Program,
    locals: &[TyId],
    place: &Place,
)
    ensures { Goes (at (K.written sink.old) (K.faults sink.old) output.old)
        (at (K.written sink.new) (K.faults sink.new) output.new) (closings (crate_in program.now) (local_ty (map (at_id (trees_of program.now.types)) locals.now) place.now.local) place.now.proj) }
{
    let start = local_part(locals, place.local);
    put_closings(output, sink, program, start, place.proj.as_slice());
}

fn put_openings_of<K: Sink>(output: &mut Output, sink: &mut K, place: &Place)
    ensures { Goes (at (K.written sink.old) (K.faults sink.old) output.old)
        (at (K.written sink.new) (K.faults sink.new) output.new) (openings place.now.proj) }
{
    put_openings(output, sink, place.proj.as_slice());
}

/// Prints a place. Each field in it is written with its type.
#[tactic(auto, using(crate::proofs::Printing::goes_then), unfolding(mir_text::specs::PlaceText::place_text))]
pub fn put_place<K: Sink>(
    output: &mut Output,
    sink: &mut K,
    program: &Program,
    locals: &[TyId],
    place: &Place,
)
    ensures { Goes (at (K.written sink.old) (K.faults sink.old) output.old)
        (at (K.written sink.new) (K.faults sink.new) output.new) (place_text (crate_in program.now) (map (at_id (trees_of program.now.types)) locals.now) place.now) }
{
    put_openings_of(output, sink, place);
    put_local(output, sink, place.local as u128);
    put_closings_of(output, sink, program, locals, place);
}

/// Prints an operand.
#[tactic(auto, using(crate::proofs::Printing::goes_then), unfolding(mir_text::specs::PlaceText::operand_text))]
pub fn put_operand<K: Sink>(
    output: &mut Output,
    sink: &mut K,
    program: &Program,
    locals: &[TyId],
    operand: &Operand,
)
    ensures { Goes (at (K.written sink.old) (K.faults sink.old) output.old)
        (at (K.written sink.new) (K.faults sink.new) output.new) (operand_text (crate_in program.now) (map (at_id (trees_of program.now.types)) locals.now) operand.now) }
{
    match operand {
        Operand::Copy(place) => {
            output.put(sink, b"copy ");
            put_place(output, sink, program, locals, place);
        }
        Operand::Move(place) => {
            output.put(sink, b"move ");
            put_place(output, sink, program, locals, place);
        }
        Operand::Const(value) => put_const(output, sink, *value),
    }
}

#[tactic(auto, using(crate::proofs::Printing::goes_then))]
fn put_next_operand<K: Sink>(
    output: &mut Output,
    sink: &mut K,
    program: &Program,
    locals: &[TyId],
    operand: &Operand,
)
    ensures { Goes (at (K.written sink.old) (K.faults sink.old) output.old)
        (at (K.written sink.new) (K.faults sink.new) output.new) (piece (codes ", ") ++ operand_text (crate_in program.now) (map (at_id (trees_of program.now.types)) locals.now) operand.now) }
{
    output.put(sink, b", ");
    put_operand(output, sink, program, locals, operand);
}

/// Prints operands, with a comma before each.
pub fn put_more_operands<K: Sink>(
    output: &mut Output,
    sink: &mut K,
    program: &Program,
    locals: &[TyId],
    operands: &[Operand],
)
    ensures { Goes (at (K.written sink.old) (K.faults sink.old) output.old)
        (at (K.written sink.new) (K.faults sink.new) output.new) (more_items (operand_text (crate_in program.now) (map (at_id (trees_of program.now.types)) locals.now)) operands.now) }
{
    for operand in operands {
        put_next_operand(output, sink, program, locals, operand);
    }
}

/// Prints operands with commas between them.
#[tactic(auto, using(crate::proofs::Printing::goes_then, crate::proofs::Printing::goes_nothing), unfolding(mir_text::specs::TypeText::comma_list))]
pub fn put_operands<K: Sink>(
    output: &mut Output,
    sink: &mut K,
    program: &Program,
    locals: &[TyId],
    operands: &[Operand],
)
    ensures { Goes (at (K.written sink.old) (K.faults sink.old) output.old)
        (at (K.written sink.new) (K.faults sink.new) output.new) (comma_list (operand_text (crate_in program.now) (map (at_id (trees_of program.now.types)) locals.now)) operands.now) }
{
    match operands {
        [] => {}
        [first, others @ ..] => {
            put_operand(output, sink, program, locals, first);
            put_more_operands(output, sink, program, locals, others);
        }
    }
}
