ghost use Rattle.std.specs.Prelude.{◌≡◌, ◌<◌, ◌^◌, ◌++◌, [], IfOk, OnOk, map, length, replicate};
ghost use Rattle.std.specs.List.{flat_map};
ghost use Rattle.mir_syntax.specs.Tree.{trees_of};
ghost use Rattle.mir_syntax.specs.Crate.{crate_of};
ghost use Rattle.mir_syntax.specs.Ids.{IdsInTable};
ghost use Rattle.mir_syntax.specs.Shapes.{shapes_of, field_id};
ghost use Rattle.drop_tables.specs.Holders.{AreHolders, Noted};
ghost use Rattle.drop_tables.specs.Marks.{ids_of, noted_at};

use mir_syntax::{Def, Field, List, OutOfMemory, Program, Ty, TyId};
use std::alloc::Global;

fn push_types(fields: &[Field], ids: &mut Vec<TyId>) -> Result<(), OutOfMemory>
    ensures { OnOk result (ids.new.items ≡ ids.old.items ++ map field_id fields.now) }
{
    for field in fields {
        ids.push(field.ty)?;
    }
    Ok(())
}

/// Puts the types of all fields of a definition at the end.
fn push_all_types(def: &Def, ids: &mut Vec<TyId>) -> Result<(), OutOfMemory>
    ensures { OnOk result (ids.new.items ≡ ids.old.items ++ flat_map ids_of def.now.variants) }
{
    let variants = def.variants.as_slice();
    for variant in variants {
        push_types(variant.fields.as_slice(), ids)?;
    }
    Ok(())
}

/// Puts a number into the list of a definition, if that is there.
fn note(holders: &mut Vec<List<u32>>, def: u32, from: u32) -> Result<(), OutOfMemory>
    ensures { OnOk result (holders.new.items ≡ noted_at holders.old.items def from) }
{
    if (def as usize) < holders.len() {
        let list = &mut holders[def as usize];
        list.push(from)?;
    }
    Ok(())
}

/// Notes a definition with each that the types hold by value, through tuples. The types are used up.
fn note_all(
    program: &Program,
    holders: &mut Vec<List<u32>>,
    from: u32,
    ids: &mut Vec<TyId>,
) -> Result<(), OutOfMemory>
    ensures none { OnOk result (ids.new.items ≡ []) }
    ensures noted { OnOk result (Noted (trees_of program.now.types) ids.old.items from holders.old.items holders.new.items) }
{
    'ids: while let Some(id) = ids.pop() {
        let Some(ty) = program.ty_at(id) else {
            continue;
        };
        match ty {
            Ty::Tuple(parts) => ids.extend_from_slice(parts.as_slice())?,
            Ty::Named(def) => note(holders, *def, from)?,
            _ => {}
        }
    }
    Ok(())
}

fn empty_lists(alloc: Global, count: usize) -> Result<Vec<List<u32>>, OutOfMemory>
    ensures { IfOk result (λ lists. lists.items ≡ replicate count []) }
{
    let mut lists = Vec::with_capacity(alloc, count)?;
    for _ in 0..count {
        lists.push(List::new(alloc))?;
    }
    Ok(lists)
}

/// Of each definition those that hold it by value with no other definition between.
///
/// # Errors
///
/// `OutOfMemory`.
pub fn holders_of(alloc: Global, program: &Program) -> Result<List<List<u32>>, OutOfMemory>
    requires ids { IdsInTable program.now }
    ensures holders { IfOk result (λ lists. AreHolders (shapes_of (crate_of program.now)) lists) }
    ensures few { IfOk result (λ lists. length lists < 2 ^ 32) }
{
    let defs = program.defs.as_slice();
    if defs.len() > u32::MAX as usize {
        return Err(OutOfMemory);
    }
    let mut lists = empty_lists(alloc, defs.len())?;
    let mut ids = Vec::new(alloc);
    for from in 0..defs.len() {
        push_all_types(&defs[from], &mut ids)?;
        note_all(program, &mut lists, from as u32, &mut ids)?;
    }
    Ok(List::from_vec(lists))
}
