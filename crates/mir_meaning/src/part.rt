ghost use Rattle.std.specs.Prelude.{◌≡◌, ℕ, map, slice_get, Some, None, IfOk, MatchOption, option_map, option_copied};
ghost use Rattle.mir_syntax.specs.declared.body.Proj.{Proj};
ghost use Rattle.mir_semantics.specs.Values.{whole, is_hole, listed, part, payload, inner, at_path};
ghost use Rattle.mir_semantics.specs.Memory.{referent};
ghost use Rattle.mir_semantics.specs.Step.{variant_in};
ghost use Rattle.mir_meaning.specs.Views.{value_of, fields_of, part_of, addr_of};

use crate::datum::{Datum, all_copied, all_whole, copied, is_whole};
use crate::path::split;
use crate::pointer::Pointer;
use mir_syntax::{OutOfMemory, Proj};
use std::alloc::Global;

/// What stands at an address: a value, or the fields of a variant.
#[derive(Clone, Copy)]
pub enum Part<'m> {
    Whole(&'m Datum),
    Fields(&'m [Datum]),
}

impl<'m> Part<'m> {
    /// The items of a tuple or a struct, or the fields of a variant.
    pub fn items(self) -> Option<&'m [Datum]>
        ensures { MatchOption result
            ((i : ℕ) → part i (part_of self.entry) ≡ None)
            (λ fields. part_of self.entry ≡ listed (map value_of fields.now)) }
    {
        match self {
            Part::Whole(datum) => items_of(datum),
            Part::Fields(fields) => Some(fields),
        }
    }

    #[tactic(auto, using(crate::proofs::Values::item_none, crate::proofs::Values::item_some))]
    fn field(self, index: u32) -> Option<Part<'m>>
        ensures { option_map part_of result ≡ part index (part_of self.entry) }
    {
        let Some(fields) = self.items() else {
            return None;
        };
        let Some(item) = item_at(fields, index) else {
            return None;
        };
        Some(Part::Whole(item))
    }

    #[tactic(auto, using(crate::proofs::Values::fields_payload))]
    fn payload(self, variant: u32) -> Option<Part<'m>>
        ensures { option_map part_of result ≡ payload variant (part_of self.entry) }
    {
        match self {
            Part::Whole(datum) => {
                let Some(fields) = payload_of(datum, variant) else {
                    return None;
                };
                Some(Part::Fields(fields))
            }
            Part::Fields(_) => None,
        }
    }

    /// The part behind one projection.
    pub fn inner(self, proj: Proj) -> Option<Part<'m>>
        ensures { option_map part_of result ≡ inner proj (part_of self.entry) }
    {
        match proj {
            Proj::Field(index) => self.field(index),
            Proj::Downcast(variant) => self.payload(variant),
            Proj::Deref => None,
        }
    }

    /// The part at the end of a path.
    #[tactic(auto, using(crate::proofs::Values::along_more, crate::proofs::Values::along_none, crate::proofs::Values::along_end))]
    pub fn along(self, path: &[Proj]) -> Option<Part<'m>>
        ensures { option_map part_of result ≡ at_path path.now (part_of self.entry) }
    {
        let mut part = self;
        let mut path = path;
        while let Some((first, rest)) = split(path) {
            let Some(next) = part.inner(first) else {
                return None;
            };
            part = next;
            path = rest;
        }
        Some(part)
    }

    /// Whether no hole stands anywhere in it.
    pub fn is_whole(self) -> bool
        ensures { result ≡ whole (part_of self.entry) }
    {
        match self {
            Part::Whole(datum) => is_whole(datum),
            Part::Fields(fields) => all_whole(fields),
        }
    }

    /// Whether it is a hole itself.
    #[tactic(auto, using(crate::proofs::Values::fields_hole))]
    pub fn is_hole(self) -> bool
        ensures { result ≡ is_hole (part_of self.entry) }
    {
        match self {
            Part::Whole(datum) => is_hole(datum),
            Part::Fields(_) => false,
        }
    }

    /// An equal value, apart from the memory.
    ///
    /// # Errors
    ///
    /// `OutOfMemory`.
    pub fn copied(self, alloc: Global) -> Result<Datum, OutOfMemory>
        ensures { IfOk result (λ copy. value_of copy ≡ part_of self.entry) }
    {
        match self {
            Part::Whole(datum) => copied(alloc, datum),
            Part::Fields(fields) => Ok(Datum::Parts(all_copied(alloc, fields)?)),
        }
    }

    /// Which variant it is.
    #[tactic(auto, using(crate::proofs::Values::fields_variant))]
    pub fn variant(self) -> Option<u32>
        ensures { result ≡ variant_in (part_of self.entry) }
    {
        match self {
            Part::Whole(datum) => variant_of(datum),
            Part::Fields(_) => None,
        }
    }

    /// What it refers to.
    #[tactic(auto, using(crate::proofs::Values::fields_referent))]
    pub fn referent(self) -> Option<&'m Pointer>
        ensures { option_map addr_of (option_copied result) ≡ referent (part_of self.entry) }
    {
        match self {
            Part::Whole(datum) => referent_of(datum),
            Part::Fields(_) => None,
        }
    }
}

#[tactic(auto, using(crate::proofs::Values::parts_hole))]
fn is_hole(datum: &Datum) -> bool
    ensures { result ≡ is_hole (value_of datum.now) }
{
    match datum {
        Datum::Num(_) => false,
        Datum::Parts(_) => false,
        Datum::Variant(_, _) => false,
        Datum::Ref(_) => false,
        Datum::Hole => true,
    }
}

#[tactic(auto, using(crate::proofs::Values::parts_variant))]
fn variant_of(datum: &Datum) -> Option<u32>
    ensures { result ≡ variant_in (value_of datum.now) }
{
    match datum {
        Datum::Num(_) => None,
        Datum::Parts(_) => None,
        Datum::Variant(active, _) => Some(*active),
        Datum::Ref(_) => None,
        Datum::Hole => None,
    }
}

#[tactic(auto, using(crate::proofs::Values::parts_referent))]
fn referent_of(datum: &Datum) -> Option<&Pointer>
    ensures { option_map addr_of (option_copied result) ≡ referent (value_of datum.now) }
{
    match datum {
        Datum::Num(_) => None,
        Datum::Parts(_) => None,
        Datum::Variant(_, _) => None,
        Datum::Ref(pointer) => Some(pointer),
        Datum::Hole => None,
    }
}

fn item_at(fields: &[Datum], index: u32) -> Option<&Datum>
    ensures { option_copied result ≡ slice_get fields.now index }
{
    fields.get(index as usize)
}

#[tactic(auto, using(crate::proofs::Values::num_part, crate::proofs::Values::parts_listed, crate::proofs::Values::variant_part, crate::proofs::Values::ref_part, crate::proofs::Values::hole_part))]
fn items_of(datum: &Datum) -> Option<&[Datum]>
    ensures { MatchOption result
        ((i : ℕ) → part i (value_of datum.now) ≡ None)
        (λ fields. value_of datum.now ≡ listed (map value_of fields.now)) }
{
    match datum {
        Datum::Num(_) => None,
        Datum::Parts(fields) => Some(fields.as_slice()),
        Datum::Variant(_, _) => None,
        Datum::Ref(_) => None,
        Datum::Hole => None,
    }
}

#[tactic(auto, using(crate::proofs::Values::parts_payload, crate::proofs::Values::variant_payload))]
fn payload_of(datum: &Datum, variant: u32) -> Option<&[Datum]>
    ensures { option_map fields_of (option_copied result) ≡ payload variant (value_of datum.now) }
{
    match datum {
        Datum::Num(_) => None,
        Datum::Parts(_) => None,
        Datum::Variant(active, fields) => {
            if *active == variant {
                Some(fields.as_slice())
            } else {
                None
            }
        }
        Datum::Ref(_) => None,
        Datum::Hole => None,
    }
}
