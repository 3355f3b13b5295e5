//! The units of a type, found by going down through its parts.
ghost use Rattle.std.specs.Prelude.{◌≡◌, ◌<◌, ◌++◌, ◌∷◌, [], length, IsTrue, OnOk};
ghost use Rattle.std.specs.List.{list_all};
ghost use Rattle.mir_syntax.specs.declared.body.Proj.TheVariants.{Field};
ghost use Rattle.mir_syntax.specs.Tree.{named, at_id, at_ids, trees_of};
ghost use Rattle.mir_syntax.specs.Table.{all_below};
ghost use Rattle.mir_syntax.specs.Ids.{field_below, IdsInTable};
ghost use Rattle.mir_syntax.specs.Drops.{KnowsDrops};
ghost use Rattle.mir_syntax.specs.Crate.{crate_of};
ghost use Rattle.mir_syntax.specs.Shapes.{shapes_of, fields_tree};
ghost use Rattle.mir_rules.specs.Weights.{units_from, units_def};
ghost use Rattle.move_paths.specs.Finding.{Gathers};

use mir_syntax::{Field as StructField, List, OutOfMemory, Place, Program, Proj, Ty, TyId};
use std::alloc::Global;

/// The units that were found, and where the search stands: in a local, at a path of fields.
#[derive(Drop)]
pub(crate) struct Search {
    pub local: u32,
    pub path: List<Proj>,
    pub places: List<Place>,
}

impl Search {
    /// Keeps the place where the search stands.
    fn keep(&mut self, alloc: Global) -> Result<(), OutOfMemory>
        ensures { OnOk result (Gathers self.old self.new [] ([] ∷ [])) }
    {
        let mut proj = List::new(alloc);
        proj.extend(self.path.as_slice())?;
        self.places.push(Place {
            local: self.local,
            proj,
        })
    }

    /// Goes on to a field.
    fn enter(&mut self, index: usize) -> Result<(), OutOfMemory>
        ensures local { self.new.local ≡ self.old.local }
        ensures places { self.new.places ≡ self.old.places }
        ensures path { OnOk result (self.new.path ≡ self.old.path ++ Field index ∷ []) }
    {
        let Ok(index) = u32::try_from(index) else {
            return Err(OutOfMemory);
        };
        self.path.push(Proj::Field(index))
    }
}

/// Finds the units of a type, to a depth of definitions inside one another.
#[cycle(find)]
pub(crate) fn find_units(
    search: &mut Search,
    alloc: Global,
    program: &Program,
    depth: usize,
    id: TyId,
) -> Result<(), OutOfMemory>
    requires knows { KnowsDrops program.now }
    requires ids { IdsInTable program.now }
    requires in_table { id.0 < length program.now.types }
    ensures { OnOk result (Gathers search.old search.new [] (units_from (units_def (shapes_of (crate_of program.now)) depth) 0 (at_id (trees_of program.now.types) id))) }
{
    match program.ty(id) {
        Ty::Tuple(ids) => find_in_tuple(search, alloc, program, depth, id.0, ids.as_slice()),
        Ty::Named(def) => find_in_definition(search, alloc, program, depth, id, *def),
        Ty::Scalar(_) | Ty::Ref(_) | Ty::RefMut(_) => Ok(()),
    }
}

/// Finds the units of a tuple of types whose ids lie below a bound.
#[cycle(find)]
fn find_in_tuple(
    search: &mut Search,
    alloc: Global,
    program: &Program,
    depth: usize,
    bound: u32,
    ids: &[TyId],
) -> Result<(), OutOfMemory>
    requires knows { KnowsDrops program.now }
    requires ids { IdsInTable program.now }
    requires in_table { bound < length program.now.types }
    requires below { IsTrue (all_below bound ids.now) }
    ensures { OnOk result (Gathers search.old search.new [] (units_from (units_def (shapes_of (crate_of program.now)) depth) 0 (at_ids (trees_of program.now.types) ids.now))) }
{
    for (index, part) in ids.iter().enumerate() {
        search.enter(index)?;
        find_units(search, alloc, program, depth, *part)?;
        search.path.pop();
    }
    Ok(())
}

/// Finds the units of a definition: itself where it has a destructor, else an enum that needs drop, or what its fields have.
#[cycle(find)]
fn find_in_definition(
    search: &mut Search,
    alloc: Global,
    program: &Program,
    depth: usize,
    id: TyId,
    def: u32,
) -> Result<(), OutOfMemory>
    requires knows { KnowsDrops program.now }
    requires ids { IdsInTable program.now }
    requires in_table { id.0 < length program.now.types }
    requires is { at_id (trees_of program.now.types) id ≡ named def }
    ensures { OnOk result (Gathers search.old search.new [] (units_def (shapes_of (crate_of program.now)) depth def)) }
{
    if depth == 0 {
        return Ok(());
    }
    if program.destructor(id).is_some() {
        return search.keep(alloc);
    }
    if let Some(fields) = program.struct_fields(def) {
        return find_in_fields(search, alloc, program, depth - 1, fields);
    }
    if program.needs_drop(id) {
        return search.keep(alloc);
    }
    Ok(())
}

/// Finds the units of the fields of a struct.
#[cycle(find)]
fn find_in_fields(
    search: &mut Search,
    alloc: Global,
    program: &Program,
    depth: usize,
    fields: &[StructField],
) -> Result<(), OutOfMemory>
    requires knows { KnowsDrops program.now }
    requires ids { IdsInTable program.now }
    requires below { IsTrue (list_all (field_below (length program.now.types)) fields.now) }
    ensures { OnOk result (Gathers search.old search.new [] (units_from (units_def (shapes_of (crate_of program.now)) depth) 0 (fields_tree (trees_of program.now.types) fields.now))) }
{
    for (index, field) in fields.iter().enumerate() {
        search.enter(index)?;
        find_units(search, alloc, program, depth, field.ty)?;
        search.path.pop();
    }
    Ok(())
}
