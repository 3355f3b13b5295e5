ghost use Rattle.std.specs.Prelude.{◌≡◌, ◌<◌, ◌^◌, List, map, IsTrue, IfOk, option_map, length};
ghost use Rattle.mir_syntax.specs.Tree.{Tree, at_ids, trees_of};
ghost use Rattle.mir_syntax.specs.Table.{all_below};
ghost use Rattle.mir_syntax.specs.Crate.{variant_of};
ghost use Rattle.mir_syntax.specs.Shapes.{fields_tree, fields_tuple, first_variant};
ghost use Rattle.mir_machine.specs.Ends.{integer_in};
ghost use Rattle.mir_meaning.specs.Programs.{shapes_in, type_in};
ghost use Rattle.mir_meaning.specs.Views.{value_of, fields_of};
ghost use Rattle.mir_entry.specs.Readings as spec;
ghost use Rattle.mir_entry.specs.Readings.{read_by, read_def, integers_of};

use crate::scalars::scalar_bits;
use crate::splits::split_numbers;
use mir_meaning::datum::Datum;
use mir_meaning::operand::scalar_of;
use mir_meaning::split::{split_fields, split_types};
use mir_meaning::types::ty;
use mir_syntax::{Field, List, Number, OutOfMemory, Program, ScalarTy, Ty, TyId, Variant};
use std::alloc::Global;

fn read_scalar(ty: ScalarTy, numbers: &[Number]) -> Option<(Datum, &[Number])>
    ensures { option_map (λ f. (value_of f.0, integers_of f.1.now)) result ≡ spec.scalar_front ty (integers_of numbers.now) }
{
    match split_numbers(numbers) {
        Some((first, rest)) => match scalar_bits(ty, first) {
            Some(bits) => Some((Datum::Num(bits), rest)),
            None => None,
        },
        None => None,
    }
}

/// The value of a type whose flat form comes first, and the numbers behind it, to a depth of definitions inside one another.
#[cycle(read)]
fn read_value<'a>(
    alloc: Global,
    program: &Program,
    depth: usize,
    id: TyId,
    numbers: &'a [Number],
) -> Result<Option<(Datum, &'a [Number])>, OutOfMemory>
    ensures { IfOk result (λ found. option_map (λ f. (value_of f.0, integers_of f.1.now)) found ≡ read_by (read_def (shapes_in program.now) depth) (type_in program.now id) (integers_of numbers.now)) }
{
    if let Some(scalar) = scalar_of(program, id) {
        return Ok(read_scalar(scalar, numbers));
    }
    let Some(ty) = ty(program, id) else {
        return Ok(None);
    };
    match ty {
        Ty::Tuple(ids) => read_tuple(alloc, program, depth, id.0, ids.as_slice(), numbers),
        Ty::Named(def) => read_named(alloc, program, depth, *def, numbers),
        _ => Ok(None),
    }
}

#[cycle(read)]
fn read_tuple<'a>(
    alloc: Global,
    program: &Program,
    depth: usize,
    bound: u32,
    ids: &[TyId],
    numbers: &'a [Number],
) -> Result<Option<(Datum, &'a [Number])>, OutOfMemory>
    requires { IsTrue (all_below bound ids.now) }
    ensures { IfOk result (λ found. option_map (λ f. (value_of f.0, integers_of f.1.now)) found ≡ read_by (read_def (shapes_in program.now) depth) (at_ids (trees_of program.now.types) ids.now) (integers_of numbers.now)) }
{
    match read_types(alloc, program, depth, bound, ids, numbers)? {
        Some((values, rest)) => Ok(Some((Datum::Parts(values), rest))),
        None => Ok(None),
    }
}

/// The values of types, one after the other.
#[cycle(read)]
fn read_types<'a>(
    alloc: Global,
    program: &Program,
    depth: usize,
    bound: u32,
    ids: &[TyId],
    numbers: &'a [Number],
) -> Result<Option<(List<Datum>, &'a [Number])>, OutOfMemory>
    requires { IsTrue (all_below bound ids.now) }
    ensures { IfOk result (λ found. option_map (λ f. (fields_of f.0, integers_of f.1.now)) found ≡ read_by (read_def (shapes_in program.now) depth) (at_ids (trees_of program.now.types) ids.now) (integers_of numbers.now)) }
{
    let mut values = List::with_capacity(alloc, ids.len())?;
    let mut ids = ids;
    let mut numbers = numbers;
    'types: while let Some((id, others)) = split_types(ids) {
        match read_value(alloc, program, depth, id, numbers)? {
            Some((value, rest)) => {
                values.push(value)?;
                ids = others;
                numbers = rest;
            }
            None => return Ok(None),
        }
    }
    Ok(Some((values, numbers)))
}

#[cycle(read)]
fn read_named<'a>(
    alloc: Global,
    program: &Program,
    depth: usize,
    def: u32,
    numbers: &'a [Number],
) -> Result<Option<(Datum, &'a [Number])>, OutOfMemory>
    ensures { IfOk result (λ found. option_map (λ f. (value_of f.0, integers_of f.1.now)) found ≡ read_def (shapes_in program.now) depth def (integers_of numbers.now)) }
{
    if depth == 0 {
        return Ok(None);
    }
    match program.defs.get(def as usize) {
        Some(def) => {
            if def.is_enum {
                read_variant(alloc, program, depth - 1, &def.variants, numbers)
            } else {
                let variants = def.variants.as_slice();
                read_struct(alloc, program, depth - 1, variants, numbers)
            }
        }
        None => Ok(None),
    }
}

/// The fields of a struct's one variant.
fn struct_fields(variants: &[Variant]) -> &[Field]
    ensures { (trees : List Tree) → fields_tree trees result.now ≡ first_variant (map fields_tuple (map (variant_of trees) variants.now)) }
{
    match variants {
        [first, ..] => first.fields.as_slice(),
        [] => &[],
    }
}

#[cycle(read)]
fn read_struct<'a>(
    alloc: Global,
    program: &Program,
    depth: usize,
    variants: &[Variant],
    numbers: &'a [Number],
) -> Result<Option<(Datum, &'a [Number])>, OutOfMemory>
    ensures { IfOk result (λ found. option_map (λ f. (value_of f.0, integers_of f.1.now)) found ≡ read_by (read_def (shapes_in program.now) depth) (first_variant (map fields_tuple (map (variant_of (trees_of program.now.types)) variants.now))) (integers_of numbers.now)) }
{
    let fields = struct_fields(variants);
    match read_fields(alloc, program, depth, fields, numbers)? {
        Some((values, rest)) => Ok(Some((Datum::Parts(values), rest))),
        None => Ok(None),
    }
}

/// A number that isn't negative and has 32 bits.
fn small_natural(number: Number) -> Option<u32>
    ensures { result ≡ spec.small_natural (integer_in number) }
{
    if number.negative && number.size > 0 {
        None
    } else if number.size < 0x1_0000_0000 {
        Some(number.size as u32)
    } else {
        None
    }
}

/// The variant that a number names: its place, and its fields.
#[tactic(auto, using(mir_syntax::proofs::Places::variants_at))]
fn variant_at(variants: &List<Variant>, number: Number) -> Option<(u32, &[Field])>
    ensures { (trees : List Tree) → option_map (λ f. (f.0, fields_tree trees f.1.now)) result ≡ spec.variant_named (map fields_tuple (map (variant_of trees) variants.now)) (integer_in number) }
{
    match small_natural(number) {
        Some(place) => match variants.get(place as usize) {
            Some(variant) => Some((place, variant.fields.as_slice())),
            None => None,
        },
        None => None,
    }
}

/// A variant's number, and then its fields.
#[cycle(read)]
fn read_variant<'a>(
    alloc: Global,
    program: &Program,
    depth: usize,
    variants: &List<Variant>,
    numbers: &'a [Number],
) -> Result<Option<(Datum, &'a [Number])>, OutOfMemory>
    ensures { IfOk result (λ found. option_map (λ f. (value_of f.0, integers_of f.1.now)) found ≡ spec.read_variant (read_def (shapes_in program.now) depth) (map fields_tuple (map (variant_of (trees_of program.now.types)) variants.now)) (integers_of numbers.now)) }
{
    let Some((first, rest)) = split_numbers(numbers) else {
        return Ok(None);
    };
    let Some((variant, fields)) = variant_at(variants, first) else {
        return Ok(None);
    };
    match read_fields(alloc, program, depth, fields, rest)? {
        Some((values, behind)) => Ok(Some((Datum::Variant(variant, values), behind))),
        None => Ok(None),
    }
}

/// The values of fields, one after the other.
#[cycle(read)]
fn read_fields<'a>(
    alloc: Global,
    program: &Program,
    depth: usize,
    fields: &[Field],
    numbers: &'a [Number],
) -> Result<Option<(List<Datum>, &'a [Number])>, OutOfMemory>
    ensures { IfOk result (λ found. option_map (λ f. (fields_of f.0, integers_of f.1.now)) found ≡ read_by (read_def (shapes_in program.now) depth) (fields_tree (trees_of program.now.types) fields.now) (integers_of numbers.now)) }
{
    let mut values = List::with_capacity(alloc, fields.len())?;
    let mut fields = fields;
    let mut numbers = numbers;
    'fields: while let Some((field, others)) = split_fields(fields) {
        match read_value(alloc, program, depth, field.ty, numbers)? {
            Some((value, rest)) => {
                values.push(value)?;
                fields = others;
                numbers = rest;
            }
            None => return Ok(None),
        }
    }
    Ok(Some((values, numbers)))
}

/// What numbers give arguments: values with the numbers behind them, or the first argument that they give no value of.
#[derive(Drop)]
pub enum Arguments<'a> {
    Fit(List<Datum>, &'a [Number]),
    Stop(u32),
}

/// The values of arguments, one after the other.
///
/// # Errors
///
/// `OutOfMemory`.
pub fn read_arguments<'a>(
    alloc: Global,
    program: &Program,
    types: &[TyId],
    numbers: &'a [Number],
) -> Result<Arguments<'a>, OutOfMemory>
    requires { length types.now < 2 ^ 32 }
    ensures read { IfOk result (λ found. spec.arguments_in found ≡ spec.reading (shapes_in program.now) (at_ids (trees_of program.now.types) types.now) (integers_of numbers.now)) }
    ensures stops { IfOk result (λ found. spec.StopsWhere program.now types.now (integers_of numbers.now) found) }
{
    let mut values = List::with_capacity(alloc, types.len())?;
    let mut types = types;
    let mut numbers = numbers;
    let mut place = 0;
    'arguments: while let Some((ty, others)) = split_types(types) {
        match read_value(alloc, program, program.defs.len(), ty, numbers)? {
            Some((value, rest)) => {
                values.push(value)?;
                types = others;
                numbers = rest;
                place += 1;
            }
            None => return Ok(Arguments::Stop(place)),
        }
    }
    Ok(Arguments::Fit(values, numbers))
}
