ghost use Rattle.std.specs.Prelude.{◌≡◌, ℕ, ◌<◌, ◌≤◌, ◌↔◌, ◌^◌, IsTrue, IfOk, OnOk, length, map, replicate, slice_get, is_some};
ghost use Rattle.mir_syntax.specs.declared.types.TyId.{TyId as TyIdData};
ghost use Rattle.std.specs.List.{list_all};
ghost use Rattle.mir_syntax.specs.Tree.{named, at_id, trees_of};
ghost use Rattle.mir_syntax.specs.Ids.{def_below};
ghost use Rattle.mir_syntax.specs.Crate.{crate_of, variant_of};
ghost use Rattle.mir_syntax.specs.Shapes.{shapes_of, fields_tuple, needs_drop};
ghost use Rattle.type_sizes.specs.UpTo.{Tells};
ghost use Rattle.type_sizes.specs.Measures.{leaf, most, size_by, shape_size, with_destructor, enum_size, whole, level, told, one_if, Told, TypesTold};
ghost use Rattle.drop_tables.specs.Marks.{is_marked, own_of};

use crate::measure::Measure;
use crate::sizing::Sizing;
use drop_tables::is_marked;
use mir_syntax::{Def, List, OutOfMemory, Ty, TyId};
use std::alloc::Global;

/// What a list says of a number; what it doesn't reach is a leaf.
pub fn told(measure: Measure, sizes: &[u32], at: u32) -> u32
    ensures { result ≡ told measure sizes.now at }
{
    match sizes.get(at as usize) {
        Some(size) => *size,
        None => measure.leaf(),
    }
}

fn enum_size(measure: Measure, needs: bool, inside: u32) -> u32
    requires bounded { inside ≤ most measure }
    ensures bounded { result ≤ most measure }
    ensures tells { (n : ℕ) → Tells (most measure) inside n → Tells (most measure) result (enum_size measure needs n) }
{
    match measure {
        Measure::Nodes => crate::measure::add(1025, inside, 1),
        Measure::Units => { if needs { 1 } else { 0 } }
        Measure::Inside => inside,
    }
}

fn with_destructor(measure: Measure, has: bool, inside: u32) -> u32
    requires bounded { inside ≤ most measure }
    ensures bounded { result ≤ most measure }
    ensures tells { (n : ℕ) → Tells (most measure) inside n → Tells (most measure) result (with_destructor measure has n) }
{
    match measure {
        Measure::Units => { if has { 1 } else { inside } }
        _ => inside,
    }
}

fn same(a: &[u32], b: &[u32]) -> bool
    ensures { IsTrue result ↔ (a.now ≡ b.now) }
{
    a == b
}

impl Sizing<'_> {
    /// What is counted in a type, by what is known of the types before it and of definitions.
    fn type_size(&self, id: TyId, known: &[u32], defs: &[u32]) -> u32
        requires in_table { id.0 < length self.now.program.now.types }
        requires before { length known.now ≡ id.0 }
        requires known { (k : ℕ) → told self.now.measure known.now k ≤ most self.now.measure }
        requires defs { (k : ℕ) → told self.now.measure defs.now k ≤ most self.now.measure }
        ensures bounded { result ≤ most self.now.measure }
        ensures tells { (g : ℕ → ℕ) → Told self.now.measure defs.now g → TypesTold (shapes_of (crate_of self.now.program.now)) (trees_of self.now.program.now.types) self.now.measure known.now g
            → Tells (most self.now.measure) result (size_by (shapes_of (crate_of self.now.program.now)) self.now.measure g (at_id (trees_of self.now.program.now.types) id)) }
    {
        match self.program.ty(id) {
            Ty::Tuple(parts) => self.ids_size(parts.as_slice(), known),
            Ty::Named(def) => told(self.measure, defs, *def),
            _ => self.measure.leaf(),
        }
    }

    /// What is counted in each type of the table, given the definitions.
    ///
    /// # Errors
    ///
    /// `OutOfMemory`.
    pub fn type_sizes(&self, alloc: Global, defs: &[u32]) -> Result<List<u32>, OutOfMemory>
        requires defs { (k : ℕ) → told self.now.measure defs.now k ≤ most self.now.measure }
        ensures long { IfOk result (λ sizes. length sizes ≡ length self.now.program.now.types) }
        ensures bounded { IfOk result (λ sizes. (k : ℕ) → told self.now.measure sizes k ≤ most self.now.measure) }
        ensures tells { IfOk result (λ sizes. (g : ℕ → ℕ) → Told self.now.measure defs.now g
            → TypesTold (shapes_of (crate_of self.now.program.now)) (trees_of self.now.program.now.types) self.now.measure sizes g) }
    {
        let mut sizes = List::with_capacity(alloc, self.program.types() as usize)?;
        for at in 0..self.program.types() {
            sizes.push(self.type_size(TyId(at), sizes.as_slice(), defs))?;
        }
        Ok(sizes)
    }

    /// What is counted in a definition, given its types.
    fn def_size(&self, def: &Def, has: bool, needs: bool, known: &[u32]) -> u32
        requires below { IsTrue (def_below (length known.now) def.now) }
        requires within { length known.now ≤ length self.now.program.now.types }
        requires bounded { (k : ℕ) → told self.now.measure known.now k ≤ most self.now.measure }
        ensures bounded { result ≤ most self.now.measure }
        ensures tells { (g : ℕ → ℕ) → TypesTold (shapes_of (crate_of self.now.program.now)) (trees_of self.now.program.now.types) self.now.measure known.now g
            → Tells (most self.now.measure) result (with_destructor self.now.measure has (shape_size (shapes_of (crate_of self.now.program.now)) self.now.measure g needs def.now.is_enum (map fields_tuple (map (variant_of (trees_of self.now.program.now.types)) def.now.variants)))) }
    {
        let variants = def.variants.as_slice();
        if def.is_enum {
            let inside = enum_size(self.measure, needs, self.variants_size(variants, known));
            with_destructor(self.measure, has, inside)
        } else {
            with_destructor(self.measure, has, self.struct_size(variants, known))
        }
    }

    /// A round: what is counted in each definition, given what was before.
    fn def_sizes(
        &self,
        alloc: Global,
        has: &[bool],
        needs: &[bool],
        defs: &[u32],
    ) -> Result<List<u32>, OutOfMemory>
        requires few { length self.now.program.now.defs < 2 ^ 32 }
        requires has_is { (d : ℕ) → is_marked has.now d ≡ own_of (slice_get (shapes_of (crate_of self.now.program.now)) d) }
        requires needs_is { (d : ℕ) → is_marked needs.now d ≡ needs_drop (shapes_of (crate_of self.now.program.now)) (named d) }
        requires defs { (k : ℕ) → told self.now.measure defs.now k ≤ most self.now.measure }
        ensures bounded { IfOk result (λ sizes. (k : ℕ) → told self.now.measure sizes k ≤ most self.now.measure) }
        ensures tells { IfOk result (λ sizes. (g : ℕ → ℕ) → Told self.now.measure defs.now g
            → Told self.now.measure sizes (λ d. whole (shapes_of (crate_of self.now.program.now)) self.now.measure g (needs_drop (shapes_of (crate_of self.now.program.now)) (named d)) (slice_get (shapes_of (crate_of self.now.program.now)) d))) }
    {
        let known = self.type_sizes(alloc, defs)?;
        let all = self.program.defs.as_slice();
        let mut sizes = List::with_capacity(alloc, all.len())?;
        for at in 0..all.len() {
            let has = is_marked(has, at as u32);
            let needs = is_marked(needs, at as u32);
            sizes.push(self.def_size(&all[at], has, needs, known.as_slice()))?;
        }
        Ok(sizes)
    }

    /// What is counted in each definition. A round that changes nothing is the last.
    ///
    /// # Errors
    ///
    /// `OutOfMemory`.
    pub fn all_sizes(
        &self,
        alloc: Global,
        has: &[bool],
        needs: &[bool],
    ) -> Result<List<u32>, OutOfMemory>
        requires few { length self.now.program.now.defs < 2 ^ 32 }
        requires has_is { (d : ℕ) → is_marked has.now d ≡ own_of (slice_get (shapes_of (crate_of self.now.program.now)) d) }
        requires needs_is { (d : ℕ) → is_marked needs.now d ≡ needs_drop (shapes_of (crate_of self.now.program.now)) (named d) }
        ensures bounded { IfOk result (λ sizes. (k : ℕ) → told self.now.measure sizes k ≤ most self.now.measure) }
        ensures tells { IfOk result (λ sizes. Told self.now.measure sizes (level (shapes_of (crate_of self.now.program.now)) self.now.measure (length self.now.program.now.defs))) }
    {
        let count = self.program.defs.len();
        let mut sizes = List::from_vec(vec![in alloc; self.measure.leaf(); count]?);
        for round in 0..count {
            let next = self.def_sizes(alloc, has, needs, sizes.as_slice())?;
            if same(next.as_slice(), sizes.as_slice()) {
                return Ok(sizes);
            }
            sizes = next;
        }
        Ok(sizes)
    }
}
