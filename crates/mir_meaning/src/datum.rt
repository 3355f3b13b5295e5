ghost use Rattle.std.specs.Prelude.{◌≡◌, map, IfOk};
ghost use Rattle.mir_semantics.specs.Values.{whole, is_hole, listed};
ghost use Rattle.mir_meaning.specs.Views.{value_of, addr_of};

use crate::pointer::Pointer;
use mir_syntax::{Copied, List, OutOfMemory};
use std::alloc::Global;

/// A value in memory.
#[derive(Drop)]
pub enum Datum {
    Num(u128),
    Parts(List<Datum>),
    Variant(u32, List<Datum>),
    Ref(Pointer),
    Hole,
}

/// Whether no hole stands anywhere in it.
#[cycle(whole)]
pub fn is_whole(datum: &Datum) -> bool
    ensures { result ≡ whole (value_of datum.now) }
{
    match datum {
        Datum::Num(_) => true,
        Datum::Parts(fields) => all_whole(fields.as_slice()),
        Datum::Variant(_, fields) => all_whole(fields.as_slice()),
        Datum::Ref(_) => true,
        Datum::Hole => false,
    }
}

/// Whether no hole stands anywhere in any of them.
#[cycle(whole)]
pub fn all_whole(fields: &[Datum]) -> bool
    ensures { result ≡ whole (listed (map value_of fields.now)) }
{
    for field in fields {
        if !is_whole(field) {
            return false;
        }
    }
    true
}

/// An equal pointer.
///
/// # Errors
///
/// `OutOfMemory`.
pub fn copied_pointer(alloc: Global, pointer: &Pointer) -> Result<Pointer, OutOfMemory>
    ensures { IfOk result (λ copy. addr_of copy ≡ addr_of pointer.now) }
{
    Ok(Pointer {
        frame: pointer.frame,
        local: pointer.local,
        path: pointer.path.copied(alloc)?,
    })
}

/// An equal value.
///
/// # Errors
///
/// `OutOfMemory`.
#[cycle(copied)]
pub fn copied(alloc: Global, datum: &Datum) -> Result<Datum, OutOfMemory>
    ensures { IfOk result (λ copy. value_of copy ≡ value_of datum.now) }
{
    match datum {
        Datum::Num(n) => Ok(Datum::Num(*n)),
        Datum::Parts(fields) => Ok(Datum::Parts(all_copied(alloc, fields.as_slice())?)),
        Datum::Variant(variant, fields) => {
            Ok(Datum::Variant(*variant, all_copied(alloc, fields.as_slice())?))
        }
        Datum::Ref(pointer) => Ok(Datum::Ref(copied_pointer(alloc, pointer)?)),
        Datum::Hole => Ok(Datum::Hole),
    }
}

/// Equal values, in their order.
///
/// # Errors
///
/// `OutOfMemory`.
#[cycle(copied)]
pub fn all_copied(alloc: Global, fields: &[Datum]) -> Result<List<Datum>, OutOfMemory>
    ensures { IfOk result (λ copy. map value_of copy ≡ map value_of fields.now) }
{
    let mut copy = List::with_capacity(alloc, fields.len())?;
    for field in fields {
        copy.push(copied(alloc, field)?)?;
    }
    Ok(copy)
}
