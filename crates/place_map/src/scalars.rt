ghost use Rattle.std.specs.Prelude.{◌≡◌, ◌<◌, ◌≤◌, ◌↔◌, ◌^◌, ◌++◌, ◌∷◌, [], length, map, take, None, Some, IsTrue, IfOk, OnOk};
ghost use Rattle.bit_rows.specs.Rows.{flag};
ghost use Rattle.mir_syntax.specs.declared.body.Proj.TheVariants.{Field};
ghost use Rattle.mir_syntax.specs.Tree.{at_id, at_ids, trees_of};
ghost use Rattle.mir_syntax.specs.Table.{all_below};
ghost use Rattle.mir_syntax.specs.Crate.{crate_of, body_of};
ghost use Rattle.mir_syntax.specs.Shapes.{shapes_of, fields_tree};
ghost use Rattle.place_map.specs.Tracked.{scalars_by, scalars_def, most_tracked, tracked};
ghost use Rattle.place_map.specs.Finding.{Gathers};

use crate::path_map::PathMap;
use bit_rows::BitRows;
use mir_syntax::{Body, Field as StructField, List, OutOfMemory, Place, Program, Proj, Ty, TyId};
use std::alloc::Global;

/// The scalars that were found, and where the search stands: in a local, at a path of fields. No more than so many are kept.
#[derive(Drop)]
struct Found {
    most: usize,
    local: u32,
    path: List<Proj>,
    places: List<Place>,
}

impl Found {
    fn is_full(&self) -> bool
        ensures { IsTrue result ↔ (self.now.most ≤ length self.now.places) }
    {
        self.most <= self.places.len()
    }

    /// Keeps the place where the search stands.
    fn keep(&mut self, alloc: Global) -> Result<(), OutOfMemory>
        requires { length self.old.places ≤ self.old.most }
        ensures { OnOk result (Gathers self.old self.new [] ([] ∷ [])) }
    {
        if self.is_full() {
            return Ok(());
        }
        let mut proj = List::new(alloc);
        proj.extend(self.path.as_slice())?;
        self.places.push(Place {
            local: self.local,
            proj,
        })
    }

    /// Goes on to a field.
    fn enter(&mut self, index: usize) -> Result<(), OutOfMemory>
        ensures most { self.new.most ≡ self.old.most }
        ensures local { self.new.local ≡ self.old.local }
        ensures places { self.new.places ≡ self.old.places }
        ensures path { OnOk result (self.new.path ≡ self.old.path ++ Field index ∷ []) }
    {
        let Ok(index) = u32::try_from(index) else {
            return Err(OutOfMemory);
        };
        self.path.push(Proj::Field(index))
    }
}

/// Finds the scalars of a type, to a depth of definitions inside one another.
#[cycle(find)]
fn find_scalars(
    found: &mut Found,
    alloc: Global,
    program: &Program,
    depth: usize,
    id: TyId,
) -> Result<(), OutOfMemory>
    requires { length found.old.places ≤ found.old.most }
    ensures { OnOk result (Gathers found.old found.new [] (scalars_by (scalars_def (shapes_of (crate_of program.now)) depth) None (at_id (trees_of program.now.types) id))) }
{
    if found.is_full() {
        return Ok(());
    }
    if program.types() <= id.0 {
        return found.keep(alloc);
    }
    match program.ty(id) {
        Ty::Scalar(_) => found.keep(alloc),
        Ty::Tuple(ids) => find_in_tuple(found, alloc, program, depth, id.0, ids.as_slice()),
        Ty::Named(def) => find_in_struct(found, alloc, program, depth, *def),
        Ty::Ref(_) | Ty::RefMut(_) => Ok(()),
    }
}

/// Finds the scalars of a tuple of types whose ids lie below a bound.
#[cycle(find)]
fn find_in_tuple(
    found: &mut Found,
    alloc: Global,
    program: &Program,
    depth: usize,
    bound: u32,
    ids: &[TyId],
) -> Result<(), OutOfMemory>
    requires few { length found.old.places ≤ found.old.most }
    requires below { IsTrue (all_below bound ids.now) }
    ensures { OnOk result (Gathers found.old found.new [] (scalars_by (scalars_def (shapes_of (crate_of program.now)) depth) (Some 0) (at_ids (trees_of program.now.types) ids.now))) }
{
    for (index, part) in ids.iter().enumerate() {
        found.enter(index)?;
        find_scalars(found, alloc, program, depth, *part)?;
        found.path.pop();
    }
    Ok(())
}

#[cycle(find)]
fn find_in_struct(
    found: &mut Found,
    alloc: Global,
    program: &Program,
    depth: usize,
    def: u32,
) -> Result<(), OutOfMemory>
    requires { length found.old.places ≤ found.old.most }
    ensures { OnOk result (Gathers found.old found.new [] (scalars_def (shapes_of (crate_of program.now)) depth def)) }
{
    if depth == 0 {
        return Ok(());
    }
    let Some(fields) = program.struct_fields(def) else {
        return Ok(());
    };
    find_in_fields(found, alloc, program, depth - 1, fields)
}

/// Finds the scalars of the fields of a struct.
#[cycle(find)]
fn find_in_fields(
    found: &mut Found,
    alloc: Global,
    program: &Program,
    depth: usize,
    fields: &[StructField],
) -> Result<(), OutOfMemory>
    requires { length found.old.places ≤ found.old.most }
    ensures { OnOk result (Gathers found.old found.new [] (scalars_by (scalars_def (shapes_of (crate_of program.now)) depth) (Some 0) (fields_tree (trees_of program.now.types) fields.now))) }
{
    for (index, field) in fields.iter().enumerate() {
        found.enter(index)?;
        find_scalars(found, alloc, program, depth, field.ty)?;
        found.path.pop();
    }
    Ok(())
}

/// How many places are tracked at most in a body of so many blocks.
fn most_tracked(blocks: usize) -> usize
    requires { 0 < blocks }
    ensures { result ≡ most_tracked blocks }
{
    let most = 1_000_000 / blocks;
    if 1000 <= most { 1000 } else { most }
}

/// The tracked places of a body, given one row of the locals that are taken.
///
/// # Errors
///
/// `OutOfMemory`.
pub fn paths(
    alloc: Global,
    program: &Program,
    body: &Body,
    taken: &BitRows,
) -> Result<PathMap, OutOfMemory>
    requires one_row { 0 < length taken.now }
    requires some_block { 0 < length body.now.blocks }
    requires few_locals { length body.now.locals < 2 ^ 30 }
    ensures { IfOk result (λ map. map ≡ tracked (shapes_of (crate_of program.now)) (flag taken.now 0) (body_of (trees_of program.now.types) body.now)) }
{
    let mut found = Found {
        most: most_tracked(body.blocks.len()),
        local: 0,
        path: List::new(alloc),
        places: List::new(alloc),
    };
    for (local, id) in body.locals.as_slice().iter().enumerate() {
        found.local = local as u32;
        if !taken.has(0, local as u32) {
            find_scalars(&mut found, alloc, program, program.defs.len(), *id)?;
        }
    }
    Ok(PathMap {
        places: found.places,
    })
}
