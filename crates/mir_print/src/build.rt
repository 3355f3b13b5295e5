ghost use Rattle.std.specs.Prelude.{◌≡◌, ◌++◌, ◌+◌, ◌<◌, ◌≤◌, [], ◌∷◌, List, codes, length, map, drop, min};
ghost use Rattle.mir_syntax.specs.Crate.{def_of, variant_of, field_of};
ghost use Rattle.mir_syntax.specs.Tree.{at_id, trees_of};
ghost use Rattle.mir_text.specs.TypeText.{piece, def_at, comma_list};
ghost use Rattle.mir_text.specs.PlaceText.{variant_at, operand_text};
ghost use Rattle.mir_text.specs.StatementText.{variant_path, more_named, named_text, build_parts, build_text, tuple_text};
ghost use Rattle.mir_print.specs.Seen.{crate_in};
ghost use Rattle.mir_print.specs.Prints.{Goes, at};

use crate::output::Output;
use crate::place::{put_more_operands, put_operand, put_operands};
use crate::types::put_name;
use mir_syntax::{Def, Field, Form, Name, Operand, Program, TyId, Variant};
use pipe_io::Sink;

/// Prints a tuple; a lone part has a comma.
#[tactic(auto, using(crate::proofs::Printing::goes_then), unfolding(mir_text::specs::StatementText::tuple_text))]
pub fn put_tuple_build<K: Sink>(
    output: &mut Output,
    sink: &mut K,
    program: &Program,
    locals: &[TyId],
    operands: &[Operand],
)
    ensures { Goes (at (K.written sink.old) (K.faults sink.old) output.old)
        (at (K.written sink.new) (K.faults sink.new) output.new) (tuple_text (crate_in program.now) (map (at_id (trees_of program.now.types)) locals.now) operands.now) }
{
    match operands {
        [] => output.put(sink, b"()"),
        [only] => {
            output.put(sink, b"(");
            put_operand(output, sink, program, locals, only);
            output.put(sink, b",)");
        }
        [first, others @ ..] => {
            output.put(sink, b"(");
            put_operand(output, sink, program, locals, first);
            put_more_operands(output, sink, program, locals, others);
            output.put(sink, b")");
        }
    }
}

// An operand with the name of its field.
#[tactic(auto, using(crate::proofs::Printing::goes_then))]
fn put_named<K: Sink>(
    output: &mut Output,
    sink: &mut K,
    program: &Program,
    locals: &[TyId],
    field: &Field,
    operand: &Operand,
)
    ensures { Goes (at (K.written sink.old) (K.faults sink.old) output.old)
        (at (K.written sink.new) (K.faults sink.new) output.new) (piece field.now.name ++ (piece (codes ": ") ++ operand_text (crate_in program.now) (map (at_id (trees_of program.now.types)) locals.now) operand.now)) }
{
    put_name(output, sink, &field.name);
    output.put(sink, b": ");
    put_operand(output, sink, program, locals, operand);
}

#[tactic(auto, using(crate::proofs::Printing::goes_then))]
fn put_next_named<K: Sink>(
    output: &mut Output,
    sink: &mut K,
    program: &Program,
    locals: &[TyId],
    field: &Field,
    operand: &Operand,
)
    ensures { Goes (at (K.written sink.old) (K.faults sink.old) output.old)
        (at (K.written sink.new) (K.faults sink.new) output.new) (piece (codes ", ") ++ (piece field.now.name ++ (piece (codes ": ") ++ operand_text (crate_in program.now) (map (at_id (trees_of program.now.types)) locals.now) operand.now))) }
{
    output.put(sink, b", ");
    put_named(output, sink, program, locals, field, operand);
}

// Operands with the names of their fields, after the first one.
fn put_more_named<K: Sink>(
    output: &mut Output,
    sink: &mut K,
    program: &Program,
    locals: &[TyId],
    fields: &[Field],
    operands: &[Operand],
)
    ensures { Goes (at (K.written sink.old) (K.faults sink.old) output.old)
        (at (K.written sink.new) (K.faults sink.new) output.new) (more_named (crate_in program.now) (map (at_id (trees_of program.now.types)) locals.now) (map (field_of (trees_of program.now.types)) fields.now) operands.now) }
{
    let count = fields.len().min(operands.len());
    for index in 0..count {
        put_next_named(
            output,
            sink,
            program,
            locals,
            &fields[index],
            &operands[index],
        );
    }
}

// Operands with the names of their fields, in braces.
#[tactic(auto, using(crate::proofs::Printing::goes_then), unfolding(mir_text::specs::StatementText::named_text))]
fn put_all_named<K: Sink>(
    output: &mut Output,
    sink: &mut K,
    program: &Program,
    locals: &[TyId],
    fields: &[Field],
    operands: &[Operand],
)
    ensures { Goes (at (K.written sink.old) (K.faults sink.old) output.old)
        (at (K.written sink.new) (K.faults sink.new) output.new) (named_text (crate_in program.now) (map (at_id (trees_of program.now.types)) locals.now) (map (field_of (trees_of program.now.types)) fields.now) operands.now) }
{
    match fields {
        [] => output.put(sink, b" {}"),
        [field, others @ ..] => put_some_named(
            output, sink, program, locals, field, others, operands,
        ),
    }
}

#[tactic(auto, using(crate::proofs::Printing::goes_then), unfolding(mir_text::specs::StatementText::named_text))]
fn put_some_named<K: Sink>(
    output: &mut Output,
    sink: &mut K,
    program: &Program,
    locals: &[TyId],
    field: &Field,
    fields: &[Field],
    operands: &[Operand],
)
    ensures { Goes (at (K.written sink.old) (K.faults sink.old) output.old)
        (at (K.written sink.new) (K.faults sink.new) output.new) (named_text (crate_in program.now) (map (at_id (trees_of program.now.types)) locals.now) (field_of (trees_of program.now.types) field.now ∷ map (field_of (trees_of program.now.types)) fields.now) operands.now) }
{
    match operands {
        [] => output.put(sink, b" {}"),
        [operand, operands @ ..] => {
            output.put(sink, b" { ");
            put_name(output, sink, &field.name);
            output.put(sink, b": ");
            put_operand(output, sink, program, locals, operand);
            put_more_named(output, sink, program, locals, fields, operands);
            output.put(sink, b" }");
        }
    }
}

#[tactic(auto, using(crate::proofs::Printing::goes_then))]
fn put_tupled<K: Sink>(
    output: &mut Output,
    sink: &mut K,
    program: &Program,
    locals: &[TyId],
    operands: &[Operand],
)
    ensures { Goes (at (K.written sink.old) (K.faults sink.old) output.old)
        (at (K.written sink.new) (K.faults sink.new) output.new) (piece (codes "(") ++ (comma_list (operand_text (crate_in program.now) (map (at_id (trees_of program.now.types)) locals.now)) operands.now ++ piece (codes ")"))) }
{
    output.put(sink, b"(");
    put_operands(output, sink, program, locals, operands);
    output.put(sink, b")");
}

// What follows the path of a build.
#[tactic(auto, using(crate::proofs::Printing::goes_nothing), unfolding(mir_text::specs::StatementText::build_parts))]
fn put_build_parts<K: Sink>(
    output: &mut Output,
    sink: &mut K,
    program: &Program,
    locals: &[TyId],
    variant: &Variant,
    operands: &[Operand],
)
    ensures { Goes (at (K.written sink.old) (K.faults sink.old) output.old)
        (at (K.written sink.new) (K.faults sink.new) output.new) (build_parts (crate_in program.now) (map (at_id (trees_of program.now.types)) locals.now) variant.now.form (map (field_of (trees_of program.now.types)) variant.now.fields) operands.now) }
{
    match variant.form {
        Form::Unit => {}
        Form::Tuple => put_tupled(output, sink, program, locals, operands),
        Form::Named => put_all_named(
            output,
            sink,
            program,
            locals,
            variant.fields.as_slice(),
            operands,
        ),
    }
}

// Behind the path of an enum stands the variant's name.
#[tactic(auto, using(crate::proofs::Printing::goes_then, crate::proofs::Printing::goes_nothing), unfolding(mir_text::specs::StatementText::variant_path))]
fn put_variant_path<K: Sink>(output: &mut Output, sink: &mut K, is_enum: bool, name: &Name)
    ensures { Goes (at (K.written sink.old) (K.faults sink.old) output.old)
        (at (K.written sink.new) (K.faults sink.new) output.new) (variant_path is_enum name.now) }
{
    if is_enum {
        output.put(sink, b"::");
        put_name(output, sink, name);
    }
}

#[tactic(auto, using(crate::proofs::Printing::goes_then), unfolding(mir_text::specs::StatementText::build_text))]
fn put_variant_build<K: Sink>(
    output: &mut Output,
    sink: &mut K,
    program: &Program,
    locals: &[TyId],
    def: &Def,
    variant: &Variant,
    operands: &[Operand],
)
    ensures { Goes (at (K.written sink.old) (K.faults sink.old) output.old)
        (at (K.written sink.new) (K.faults sink.new) output.new) (build_text (crate_in program.now) (map (at_id (trees_of program.now.types)) locals.now) (def_of (trees_of program.now.types) def.now) (variant_of (trees_of program.now.types) variant.now) operands.now) }
{
    put_name(output, sink, &def.path);
    put_variant_path(output, sink, def.is_enum, &variant.name);
    put_build_parts(output, sink, program, locals, variant, operands);
}

// The sign behind the path of an enum where no variant is named.
#[tactic(auto, using(crate::proofs::Printing::goes_then, crate::proofs::Printing::goes_nothing), unfolding(mir_text::specs::StatementText::variant_path))]
fn put_bare_path<K: Sink>(output: &mut Output, sink: &mut K, is_enum: bool)
    ensures { Goes (at (K.written sink.old) (K.faults sink.old) output.old)
        (at (K.written sink.new) (K.faults sink.new) output.new) (variant_path is_enum []) }
{
    if is_enum {
        output.put(sink, b"::");
        output.put(sink, b"");
    }
}

// A build of a variant that the definition doesn't have.
#[tactic(auto, using(crate::proofs::Printing::goes_then))]
fn put_bare_build<K: Sink>(output: &mut Output, sink: &mut K, def: &Def)
    ensures { Goes (at (K.written sink.old) (K.faults sink.old) output.old)
        (at (K.written sink.new) (K.faults sink.new) output.new) (piece def.now.path ++ variant_path def.now.is_enum []) }
{
    put_name(output, sink, &def.path);
    put_bare_path(output, sink, def.is_enum);
}

/// Prints a build of a struct or of a variant of an enum.
pub fn put_build<K: Sink>(
    output: &mut Output,
    sink: &mut K,
    program: &Program,
    locals: &[TyId],
    def: u32,
    variant: u32,
    operands: &[Operand],
)
    ensures { Goes (at (K.written sink.old) (K.faults sink.old) output.old)
        (at (K.written sink.new) (K.faults sink.new) output.new) (build_text (crate_in program.now) (map (at_id (trees_of program.now.types)) locals.now) (def_at (crate_in program.now) def) (variant_at (crate_in program.now) def variant) operands.now) }
{
    let Some(def) = program.defs.get(def as usize) else {
        return;
    };
    match def.variants.get(variant as usize) {
        Some(variant) => put_variant_build(output, sink, program, locals, def, variant, operands),
        None => put_bare_build(output, sink, def),
    }
}
