ghost use Rattle.std.specs.Prelude.{◌++◌, [], codes, map};
ghost use Rattle.mir_syntax.specs.Crate.{field_of, variant_of, def_of, outside_of};
ghost use Rattle.mir_syntax.specs.Tree.{at_id, trees_of};
ghost use Rattle.mir_text.specs.TypeText.{piece, more_items, comma_list, type_text};
ghost use Rattle.mir_text.specs.Text.{field_ty_text, field_text, braced_text, fields_text, variant_text, variants_text, struct_text, shape_text, def_word, def_text, defs_text, outside_text, outsides_text};
ghost use Rattle.mir_print.specs.Seen.{crate_in};
ghost use Rattle.mir_print.specs.Prints.{Goes, at};

use crate::output::Output;
use crate::types::{put_name, put_type, put_types};
use mir_syntax::{Def, Field, Form, List, Outside, Program, Variant};
use pipe_io::Sink;

#[tactic(auto, unfolding(mir_text::specs::Text::field_ty_text))]
fn put_field_ty<K: Sink>(output: &mut Output, sink: &mut K, program: &Program, field: &Field)
    ensures { Goes (at (K.written sink.old) (K.faults sink.old) output.old)
        (at (K.written sink.new) (K.faults sink.new) output.new) (field_ty_text (crate_in program.now) (field_of (trees_of program.now.types) field.now)) }
{
    put_type(output, sink, program, field.ty);
}

#[tactic(auto, using(crate::proofs::Printing::goes_then))]
fn put_next_field_ty<K: Sink>(output: &mut Output, sink: &mut K, program: &Program, field: &Field)
    ensures { Goes (at (K.written sink.old) (K.faults sink.old) output.old)
        (at (K.written sink.new) (K.faults sink.new) output.new) (piece (codes ", ") ++ field_ty_text (crate_in program.now) (field_of (trees_of program.now.types) field.now)) }
{
    output.put(sink, b", ");
    put_field_ty(output, sink, program, field);
}

// The types of fields after the first one.
fn put_more_field_tys<K: Sink>(
    output: &mut Output,
    sink: &mut K,
    program: &Program,
    fields: &[Field],
)
    ensures { Goes (at (K.written sink.old) (K.faults sink.old) output.old)
        (at (K.written sink.new) (K.faults sink.new) output.new) (more_items (field_ty_text (crate_in program.now)) (map (field_of (trees_of program.now.types)) fields.now)) }
{
    for field in fields {
        put_next_field_ty(output, sink, program, field);
    }
}

#[tactic(auto, using(crate::proofs::Printing::goes_then, crate::proofs::Printing::goes_nothing), unfolding(mir_text::specs::TypeText::comma_list))]
fn put_field_tys<K: Sink>(output: &mut Output, sink: &mut K, program: &Program, fields: &[Field])
    ensures { Goes (at (K.written sink.old) (K.faults sink.old) output.old)
        (at (K.written sink.new) (K.faults sink.new) output.new) (comma_list (field_ty_text (crate_in program.now)) (map (field_of (trees_of program.now.types)) fields.now)) }
{
    match fields {
        [] => {}
        [first, others @ ..] => {
            put_field_ty(output, sink, program, first);
            put_more_field_tys(output, sink, program, others);
        }
    }
}

#[tactic(auto, using(crate::proofs::Printing::goes_then), unfolding(mir_text::specs::Text::field_text))]
fn put_field<K: Sink>(output: &mut Output, sink: &mut K, program: &Program, field: &Field)
    ensures { Goes (at (K.written sink.old) (K.faults sink.old) output.old)
        (at (K.written sink.new) (K.faults sink.new) output.new) (field_text (crate_in program.now) (field_of (trees_of program.now.types) field.now)) }
{
    put_name(output, sink, &field.name);
    output.put(sink, b": ");
    put_type(output, sink, program, field.ty);
}

#[tactic(auto, using(crate::proofs::Printing::goes_then))]
fn put_next_field<K: Sink>(output: &mut Output, sink: &mut K, program: &Program, field: &Field)
    ensures { Goes (at (K.written sink.old) (K.faults sink.old) output.old)
        (at (K.written sink.new) (K.faults sink.new) output.new) (piece (codes ", ") ++ field_text (crate_in program.now) (field_of (trees_of program.now.types) field.now)) }
{
    output.put(sink, b", ");
    put_field(output, sink, program, field);
}

// Fields with their names, after the first one.
fn put_more_fields<K: Sink>(output: &mut Output, sink: &mut K, program: &Program, fields: &[Field])
    ensures { Goes (at (K.written sink.old) (K.faults sink.old) output.old)
        (at (K.written sink.new) (K.faults sink.new) output.new) (more_items (field_text (crate_in program.now)) (map (field_of (trees_of program.now.types)) fields.now)) }
{
    for field in fields {
        put_next_field(output, sink, program, field);
    }
}

// Fields with their names, in braces.
#[tactic(auto, using(crate::proofs::Printing::goes_then), unfolding(mir_text::specs::Text::braced_text))]
fn put_braced<K: Sink>(output: &mut Output, sink: &mut K, program: &Program, fields: &[Field])
    ensures { Goes (at (K.written sink.old) (K.faults sink.old) output.old)
        (at (K.written sink.new) (K.faults sink.new) output.new) (braced_text (crate_in program.now) (map (field_of (trees_of program.now.types)) fields.now)) }
{
    match fields {
        [] => output.put(sink, b" {}"),
        [first, others @ ..] => {
            output.put(sink, b" { ");
            put_field(output, sink, program, first);
            put_more_fields(output, sink, program, others);
            output.put(sink, b" }");
        }
    }
}

#[tactic(auto, using(crate::proofs::Printing::goes_then))]
fn put_parens<K: Sink>(
    output: &mut Output,
    sink: &mut K,
    program: &Program,
    fields: &[Field],
    end: &[u8],
)
    ensures { Goes (at (K.written sink.old) (K.faults sink.old) output.old)
        (at (K.written sink.new) (K.faults sink.new) output.new) (piece (codes "(") ++ (comma_list (field_ty_text (crate_in program.now)) (map (field_of (trees_of program.now.types)) fields.now) ++ (piece (codes ")") ++ piece end.now))) }
{
    output.put(sink, b"(");
    put_field_tys(output, sink, program, fields);
    output.put(sink, b")");
    output.put(sink, end);
}

// The fields of a form, and then a text that braces do without.
#[tactic(auto, unfolding(mir_text::specs::Text::fields_text))]
fn put_fields<K: Sink>(
    output: &mut Output,
    sink: &mut K,
    program: &Program,
    form: Form,
    fields: &[Field],
    end: &[u8],
)
    ensures { Goes (at (K.written sink.old) (K.faults sink.old) output.old)
        (at (K.written sink.new) (K.faults sink.new) output.new) (fields_text (crate_in program.now) form (map (field_of (trees_of program.now.types)) fields.now) (piece end.now)) }
{
    match form {
        Form::Unit => output.put(sink, end),
        Form::Tuple => put_parens(output, sink, program, fields, end),
        Form::Named => put_braced(output, sink, program, fields),
    }
}

#[tactic(auto, unfolding(mir_text::specs::TypeText::piece))]
fn put_variant_fields<K: Sink>(
    output: &mut Output,
    sink: &mut K,
    program: &Program,
    variant: &Variant,
)
    ensures { Goes (at (K.written sink.old) (K.faults sink.old) output.old)
        (at (K.written sink.new) (K.faults sink.new) output.new) (fields_text (crate_in program.now) variant.now.form (map (field_of (trees_of program.now.types)) variant.now.fields) []) }
{
    put_fields(
        output,
        sink,
        program,
        variant.form,
        variant.fields.as_slice(),
        b"",
    );
}

#[tactic(auto, using(crate::proofs::Printing::goes_then), unfolding(mir_text::specs::Text::variant_text))]
fn put_variant<K: Sink>(output: &mut Output, sink: &mut K, program: &Program, variant: &Variant)
    ensures { Goes (at (K.written sink.old) (K.faults sink.old) output.old)
        (at (K.written sink.new) (K.faults sink.new) output.new) (variant_text (crate_in program.now) (variant_of (trees_of program.now.types) variant.now)) }
{
    put_name(output, sink, &variant.name);
    put_variant_fields(output, sink, program, variant);
}

#[tactic(auto, using(crate::proofs::Printing::goes_then))]
fn put_next_variant<K: Sink>(
    output: &mut Output,
    sink: &mut K,
    program: &Program,
    variant: &Variant,
)
    ensures { Goes (at (K.written sink.old) (K.faults sink.old) output.old)
        (at (K.written sink.new) (K.faults sink.new) output.new) (piece (codes ", ") ++ variant_text (crate_in program.now) (variant_of (trees_of program.now.types) variant.now)) }
{
    output.put(sink, b", ");
    put_variant(output, sink, program, variant);
}

// The variants of an enum after the first one.
fn put_more_variants<K: Sink>(
    output: &mut Output,
    sink: &mut K,
    program: &Program,
    variants: &[Variant],
)
    ensures { Goes (at (K.written sink.old) (K.faults sink.old) output.old)
        (at (K.written sink.new) (K.faults sink.new) output.new) (more_items (variant_text (crate_in program.now)) (map (variant_of (trees_of program.now.types)) variants.now)) }
{
    for variant in variants {
        put_next_variant(output, sink, program, variant);
    }
}

// The variants of an enum, in braces.
#[tactic(auto, using(crate::proofs::Printing::goes_then), unfolding(mir_text::specs::Text::variants_text))]
fn put_variants<K: Sink>(output: &mut Output, sink: &mut K, program: &Program, variants: &[Variant])
    ensures { Goes (at (K.written sink.old) (K.faults sink.old) output.old)
        (at (K.written sink.new) (K.faults sink.new) output.new) (variants_text (crate_in program.now) (map (variant_of (trees_of program.now.types)) variants.now)) }
{
    match variants {
        [] => output.put(sink, b" {}"),
        [first, others @ ..] => {
            output.put(sink, b" { ");
            put_variant(output, sink, program, first);
            put_more_variants(output, sink, program, others);
            output.put(sink, b" }");
        }
    }
}

fn put_struct_fields<K: Sink>(
    output: &mut Output,
    sink: &mut K,
    program: &Program,
    variant: &Variant,
)
    ensures { Goes (at (K.written sink.old) (K.faults sink.old) output.old)
        (at (K.written sink.new) (K.faults sink.new) output.new) (fields_text (crate_in program.now) variant.now.form (map (field_of (trees_of program.now.types)) variant.now.fields) (piece (codes ";"))) }
{
    put_fields(
        output,
        sink,
        program,
        variant.form,
        variant.fields.as_slice(),
        b";",
    );
}

// The fields of a struct: those of its one variant.
#[tactic(auto, using(crate::proofs::Printing::goes_nothing), unfolding(mir_text::specs::Text::struct_text))]
fn put_struct<K: Sink>(output: &mut Output, sink: &mut K, program: &Program, variants: &[Variant])
    ensures { Goes (at (K.written sink.old) (K.faults sink.old) output.old)
        (at (K.written sink.new) (K.faults sink.new) output.new) (struct_text (crate_in program.now) (map (variant_of (trees_of program.now.types)) variants.now)) }
{
    match variants {
        [] => {}
        [variant, ..] => put_struct_fields(output, sink, program, variant),
    }
}

// What follows the path of a struct or enum.
#[tactic(auto, unfolding(mir_text::specs::Text::shape_text))]
fn put_shape<K: Sink>(
    output: &mut Output,
    sink: &mut K,
    program: &Program,
    is_enum: bool,
    variants: &List<Variant>,
)
    ensures { Goes (at (K.written sink.old) (K.faults sink.old) output.old)
        (at (K.written sink.new) (K.faults sink.new) output.new) (shape_text (crate_in program.now) is_enum (map (variant_of (trees_of program.now.types)) variants.now)) }
{
    if is_enum {
        put_variants(output, sink, program, variants.as_slice());
    } else {
        put_struct(output, sink, program, variants.as_slice());
    }
}

#[tactic(auto, unfolding(mir_text::specs::Text::def_word))]
fn put_def_word<K: Sink>(output: &mut Output, sink: &mut K, is_enum: bool)
    ensures { Goes (at (K.written sink.old) (K.faults sink.old) output.old)
        (at (K.written sink.new) (K.faults sink.new) output.new) (piece (def_word is_enum)) }
{
    if is_enum {
        output.put(sink, b"enum ");
    } else {
        output.put(sink, b"struct ");
    }
}

#[tactic(auto, using(crate::proofs::Printing::goes_then), unfolding(mir_text::specs::Text::def_text))]
fn put_def<K: Sink>(output: &mut Output, sink: &mut K, program: &Program, def: &Def)
    ensures { Goes (at (K.written sink.old) (K.faults sink.old) output.old)
        (at (K.written sink.new) (K.faults sink.new) output.new) (def_text (crate_in program.now) (def_of (trees_of program.now.types) def.now)) }
{
    put_def_word(output, sink, def.is_enum);
    put_name(output, sink, &def.path);
    put_shape(output, sink, program, def.is_enum, &def.variants);
    output.put(sink, b"\n");
}

/// Prints structs and enums, each in a line.
pub fn put_defs<K: Sink>(output: &mut Output, sink: &mut K, program: &Program, defs: &[Def])
    ensures { Goes (at (K.written sink.old) (K.faults sink.old) output.old)
        (at (K.written sink.new) (K.faults sink.new) output.new) (defs_text (crate_in program.now) (map (def_of (trees_of program.now.types)) defs.now)) }
{
    for def in defs {
        put_def(output, sink, program, def);
    }
}

fn put_arg_types<K: Sink>(output: &mut Output, sink: &mut K, program: &Program, outside: &Outside)
    ensures { Goes (at (K.written sink.old) (K.faults sink.old) output.old)
        (at (K.written sink.new) (K.faults sink.new) output.new) (comma_list (type_text (crate_in program.now)) (map (at_id (trees_of program.now.types)) outside.now.args)) }
{
    put_types(output, sink, program, outside.args.as_slice());
}

#[tactic(auto, using(crate::proofs::Printing::goes_then), unfolding(mir_text::specs::Text::outside_text))]
fn put_outside<K: Sink>(output: &mut Output, sink: &mut K, program: &Program, outside: &Outside)
    ensures { Goes (at (K.written sink.old) (K.faults sink.old) output.old)
        (at (K.written sink.new) (K.faults sink.new) output.new) (outside_text (crate_in program.now) (outside_of (trees_of program.now.types) outside.now)) }
{
    output.put(sink, b"extern fn ");
    put_name(output, sink, &outside.path);
    output.put(sink, b"(");
    put_arg_types(output, sink, program, outside);
    output.put(sink, b") -> ");
    put_type(output, sink, program, outside.result);
    output.put(sink, b";\n");
}

/// Prints outside functions, each in a line.
pub fn put_outsides<K: Sink>(
    output: &mut Output,
    sink: &mut K,
    program: &Program,
    outsides: &[Outside],
)
    ensures { Goes (at (K.written sink.old) (K.faults sink.old) output.old)
        (at (K.written sink.new) (K.faults sink.new) output.new) (outsides_text (crate_in program.now) (map (outside_of (trees_of program.now.types)) outsides.now)) }
{
    for outside in outsides {
        put_outside(output, sink, program, outside);
    }
}
