ghost use Rattle.std.specs.Prelude.{◌≡◌, map, IsTrue};
ghost use Rattle.mir_syntax.specs.Parts.{path_formed, begins_with_field};
ghost use Rattle.mir_semantics.specs.Values as sem;
ghost use Rattle.mir_meaning.specs.Views.{value_of};

use crate::datum::Datum;
use crate::path::split;
use mir_syntax::{List, Proj};
use std::mem;

/// The value with another at a path; where nothing stands there it stays as it is.
#[cycle(put)]
pub fn put(value: Datum, path: &[Proj], new: Datum) -> Datum
    requires { IsTrue (path_formed path.now) }
    ensures { value_of result ≡ sem.put path.now (value_of new) (value_of value) }
{
    let Some((first, rest)) = split(path) else {
        return new;
    };
    match first {
        Proj::Field(index) => put_item(value, index, rest, new),
        Proj::Downcast(variant) => put_payload(value, variant, rest, new),
        Proj::Deref => value,
    }
}

/// The same at an item of a tuple or a struct, and on from there.
#[cycle(put)]
fn put_item(value: Datum, index: u32, rest: &[Proj], new: Datum) -> Datum
    requires { IsTrue (path_formed rest.now) }
    ensures { value_of result ≡ sem.change_part index (sem.put rest.now (value_of new)) (value_of value) }
{
    match value {
        Datum::Num(bits) => Datum::Num(bits),
        Datum::Parts(fields) => Datum::Parts(put_field(fields, index, rest, new)),
        Datum::Variant(active, fields) => Datum::Variant(active, fields),
        Datum::Ref(pointer) => Datum::Ref(pointer),
        Datum::Hole => Datum::Hole,
    }
}

/// The same in the fields of a variant, where it is that one.
#[cycle(put)]
fn put_payload(value: Datum, variant: u32, rest: &[Proj], new: Datum) -> Datum
    requires formed { IsTrue (path_formed rest.now) }
    requires field { IsTrue (begins_with_field rest.now) }
    ensures { value_of result ≡ sem.change_payload variant (sem.put rest.now (value_of new)) (value_of value) }
{
    match value {
        Datum::Num(bits) => Datum::Num(bits),
        Datum::Parts(fields) => Datum::Parts(fields),
        Datum::Variant(active, fields) => {
            if active == variant {
                Datum::Variant(active, put_listed(fields, rest, new))
            } else {
                Datum::Variant(active, fields)
            }
        }
        Datum::Ref(pointer) => Datum::Ref(pointer),
        Datum::Hole => Datum::Hole,
    }
}

#[cycle(put)]
fn put_listed(fields: List<Datum>, path: &[Proj], new: Datum) -> List<Datum>
    requires formed { IsTrue (path_formed path.now) }
    requires field { IsTrue (begins_with_field path.now) }
    ensures { sem.listed (map value_of result) ≡ sem.put path.now (value_of new) (sem.listed (map value_of fields)) }
{
    match split(path) {
        Some((Proj::Field(index), rest)) => put_field(fields, index, rest, new),
        _ => fields,
    }
}

#[cycle(put)]
fn put_field(fields: List<Datum>, index: u32, rest: &[Proj], new: Datum) -> List<Datum>
    requires { IsTrue (path_formed rest.now) }
    ensures { sem.listed (map value_of result) ≡ sem.change_part index (sem.put rest.now (value_of new)) (sem.listed (map value_of fields)) }
{
    let mut fields = fields;
    let slots = fields.as_mut_slice();
    if slots.len() <= index as usize {
        return fields;
    }
    let old = mem::replace(&mut slots[index as usize], Datum::Hole);
    slots[index as usize] = put(old, rest, new);
    fields
}
