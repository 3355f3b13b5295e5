ghost use Rattle.std.specs.Prelude.{◌≡◌, ℕ, ◌+◌, ◌<◌, ◌≤◌, IsTrue, length, map, sum_by};
ghost use Rattle.std.specs.List.{list_all};
ghost use Rattle.mir_syntax.specs.declared.types.TyId.{TyId as TyIdData};
ghost use Rattle.mir_syntax.specs.Tree.{at_id, at_ids, trees_of};
ghost use Rattle.mir_syntax.specs.Table.{all_below};
ghost use Rattle.mir_syntax.specs.Ids.{field_below, variant_below, IdsInTable};
ghost use Rattle.mir_syntax.specs.Crate.{crate_of, variant_of};
ghost use Rattle.mir_syntax.specs.Shapes.{shapes_of, fields_tree, fields_tuple, first_variant, needs_drop};
ghost use Rattle.mir_syntax.specs.Drops.{KnowsDrops};
ghost use Rattle.type_sizes.specs.UpTo.{Tells};
ghost use Rattle.type_sizes.specs.Measures.{leaf, most, part, size_by, variant_size, told};

use crate::measure::{Measure, add};
use mir_syntax::{Field, Program, TyId, Variant};

/// What is counted in a program of which the drops are known.
#[derive(Clone, Copy, Drop)]
pub struct Sizing<'a> {
    pub program: &'a Program,
    pub measure: Measure,
    pub ghost drops: { KnowsDrops program.now },
    pub ghost ids: { IdsInTable program.now },
}

impl Sizing<'_> {
    /// What a part adds that is counted up to the bound.
    fn part(&self, needs: bool, size: u32) -> u32
        requires bounded { size ≤ most self.now.measure }
        ensures bounded { result ≤ most self.now.measure }
        ensures tells { (n : ℕ) → Tells (most self.now.measure) size n → Tells (most self.now.measure) result (part self.now.measure needs n) }
    {
        match self.measure {
            Measure::Inside => { if needs { add(10001, size, 1) } else { 0 } }
            _ => size,
        }
    }

    /// What the parts of a tuple sum up to, by what is known of the types before it.
    pub fn ids_size(&self, ids: &[TyId], known: &[u32]) -> u32
        requires below { IsTrue (all_below (length known.now) ids.now) }
        requires within { length known.now ≤ length self.now.program.now.types }
        requires bounded { (k : ℕ) → told self.now.measure known.now k ≤ most self.now.measure }
        ensures bounded { result ≤ most self.now.measure }
        ensures tells { (g : ℕ → ℕ) → ((id : TyIdData) → id.0 < length known.now → Tells (most self.now.measure) (told self.now.measure known.now id.0) (size_by (shapes_of (crate_of self.now.program.now)) self.now.measure g (at_id (trees_of self.now.program.now.types) id)))
            → Tells (most self.now.measure) result (size_by (shapes_of (crate_of self.now.program.now)) self.now.measure g (at_ids (trees_of self.now.program.now.types) ids.now)) }
    {
        let mut total = self.measure.leaf();
        let mut rest = ids;
        'ids: while let [id, others @ ..] = rest {
            let size = self.part(self.program.needs_drop(*id), known[id.0 as usize]);
            total = add(self.measure.most(), total, size);
            rest = others;
        }
        total
    }

    /// What fields sum up to.
    pub fn fields_size(&self, fields: &[Field], known: &[u32]) -> u32
        requires below { IsTrue (list_all (field_below (length known.now)) fields.now) }
        requires within { length known.now ≤ length self.now.program.now.types }
        requires bounded { (k : ℕ) → told self.now.measure known.now k ≤ most self.now.measure }
        ensures bounded { result ≤ most self.now.measure }
        ensures tells { (g : ℕ → ℕ) → ((id : TyIdData) → id.0 < length known.now → Tells (most self.now.measure) (told self.now.measure known.now id.0) (size_by (shapes_of (crate_of self.now.program.now)) self.now.measure g (at_id (trees_of self.now.program.now.types) id)))
            → Tells (most self.now.measure) result (size_by (shapes_of (crate_of self.now.program.now)) self.now.measure g (fields_tree (trees_of self.now.program.now.types) fields.now)) }
    {
        let mut total = self.measure.leaf();
        let mut rest = fields;
        'fields: while let [field, others @ ..] = rest {
            let ty = field.ty;
            let size = self.part(self.program.needs_drop(ty), known[ty.0 as usize]);
            total = add(self.measure.most(), total, size);
            rest = others;
        }
        total
    }

    /// Whether a field needs drop.
    #[tactic(auto, unfolding(mir_syntax::specs::Shapes::needs_drop))]
    fn any_needs(&self, fields: &[Field]) -> bool
        requires below { IsTrue (list_all (field_below (length self.now.program.now.types)) fields.now) }
        ensures { result ≡ needs_drop (shapes_of (crate_of self.now.program.now)) (fields_tree (trees_of self.now.program.now.types) fields.now) }
    {
        let mut rest = fields;
        'fields: while let [field, others @ ..] = rest {
            if self.program.needs_drop(field.ty) {
                return true;
            }
            rest = others;
        }
        false
    }

    /// What a variant of an enum adds.
    fn variant_size(&self, fields: &[Field], known: &[u32]) -> u32
        requires below { IsTrue (list_all (field_below (length known.now)) fields.now) }
        requires within { length known.now ≤ length self.now.program.now.types }
        requires bounded { (k : ℕ) → told self.now.measure known.now k ≤ most self.now.measure }
        ensures bounded { result ≤ most self.now.measure }
        ensures tells { (g : ℕ → ℕ) → ((id : TyIdData) → id.0 < length known.now → Tells (most self.now.measure) (told self.now.measure known.now id.0) (size_by (shapes_of (crate_of self.now.program.now)) self.now.measure g (at_id (trees_of self.now.program.now.types) id)))
            → Tells (most self.now.measure) result (variant_size (shapes_of (crate_of self.now.program.now)) self.now.measure g (fields_tree (trees_of self.now.program.now.types) fields.now)) }
    {
        self.part(self.any_needs(fields), self.fields_size(fields, known))
    }

    /// What the variants of an enum sum up to.
    pub fn variants_size(&self, variants: &[Variant], known: &[u32]) -> u32
        requires below { IsTrue (list_all (variant_below (length known.now)) variants.now) }
        requires within { length known.now ≤ length self.now.program.now.types }
        requires bounded { (k : ℕ) → told self.now.measure known.now k ≤ most self.now.measure }
        ensures bounded { result ≤ most self.now.measure }
        ensures tells { (g : ℕ → ℕ) → ((id : TyIdData) → id.0 < length known.now → Tells (most self.now.measure) (told self.now.measure known.now id.0) (size_by (shapes_of (crate_of self.now.program.now)) self.now.measure g (at_id (trees_of self.now.program.now.types) id)))
            → Tells (most self.now.measure) result (sum_by (variant_size (shapes_of (crate_of self.now.program.now)) self.now.measure g) (map fields_tuple (map (variant_of (trees_of self.now.program.now.types)) variants.now))) }
    {
        let mut total = 0;
        let mut rest = variants;
        'variants: while let [variant, others @ ..] = rest {
            let size = self.variant_size(variant.fields.as_slice(), known);
            total = add(self.measure.most(), total, size);
            rest = others;
        }
        total
    }

    /// What the fields of a struct sum up to: those of its one variant.
    pub fn struct_size(&self, variants: &[Variant], known: &[u32]) -> u32
        requires below { IsTrue (list_all (variant_below (length known.now)) variants.now) }
        requires within { length known.now ≤ length self.now.program.now.types }
        requires bounded { (k : ℕ) → told self.now.measure known.now k ≤ most self.now.measure }
        ensures bounded { result ≤ most self.now.measure }
        ensures tells { (g : ℕ → ℕ) → ((id : TyIdData) → id.0 < length known.now → Tells (most self.now.measure) (told self.now.measure known.now id.0) (size_by (shapes_of (crate_of self.now.program.now)) self.now.measure g (at_id (trees_of self.now.program.now.types) id)))
            → Tells (most self.now.measure) result (size_by (shapes_of (crate_of self.now.program.now)) self.now.measure g (first_variant (map fields_tuple (map (variant_of (trees_of self.now.program.now.types)) variants.now)))) }
    {
        match variants {
            [variant, ..] => self.fields_size(variant.fields.as_slice(), known),
            [] => self.measure.leaf(),
        }
    }
}
