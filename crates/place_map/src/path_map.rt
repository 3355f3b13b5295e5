ghost use Rattle.std.specs.Prelude.{◌≡◌, ℕ, ◌<◌, ◌≤◌, length, slice_get, Some, MatchOption};
ghost use Rattle.place_map.specs.Tracked.{beyond, SpansUnder, IsNumber};

use crate::side::{is_before, is_until};
use mir_syntax::{List, Place, Proj};
use std::marker::Model;

/// The tracked places of a body, in their order: a place's number is where it stands in it.
#[derive(Drop)]
pub struct PathMap {
    pub(crate) places: List<Place>,
}

impl Model for PathMap {
    ghost use Rattle.std.specs.Prelude.{List};
    ghost use Rattle.mir_syntax.specs.declared.body.Place.{Place};
    ghost use Rattle.place_map.specs.Order.{IsOrdered};

    ghost Value = { List Place };

    ghost view = { λ map. map.places };

    ghost invariant = { λ map. IsOrdered map.places };
}

/// The numbers from `from` up to but not `to`.
#[derive(Clone, Copy, Debug, Drop, PartialEq, Eq)]
pub struct Span {
    pub from: u32,
    pub to: u32,
}

impl PathMap {
    /// How many places are tracked.
    pub fn len(&self) -> u32
        ensures { result ≡ length self.now }
    {
        self.places.len() as u32
    }

    /// The tracked places, in order of their numbers.
    pub fn places(&self) -> &[Place]
        ensures { result.now ≡ self.now }
    {
        self.places.as_slice()
    }

    /// The number of a place. `None` exactly where it isn't tracked.
    #[tactic(auto, using(crate::proofs::Sides::beyond_nothing))]
    pub fn find(&self, place: &Place) -> Option<u32>
        ensures { MatchOption result ((i : ℕ) → slice_get self.now i ≡ Some place.now → ⊥) (IsNumber self.now place.now) }
    {
        self.find_part(place, &[])
    }

    /// The number of the place at the end of a way from another. `None` exactly where it isn't tracked.
    pub fn find_part(&self, place: &Place, way: &[Proj]) -> Option<u32>
        ensures { MatchOption result ((i : ℕ) → slice_get self.now i ≡ Some (beyond place.now way.now) → ⊥) (IsNumber self.now (beyond place.now way.now)) }
    {
        let span = self.under_part(place, way);
        if span.from == span.to {
            return None;
        }
        let first = &self.places.as_slice()[span.from as usize];
        let left = first.proj.len().checked_sub(place.proj.len())?;
        if left == way.len() {
            Some(span.from)
        } else {
            None
        }
    }

    /// The numbers of the tracked places at or under a place.
    #[tactic(auto, using(crate::proofs::Sides::beyond_nothing))]
    pub fn under(&self, place: &Place) -> Span
        ensures spans { SpansUnder self.now place.now result.from result.to }
        ensures within { (result.from ≤ result.to) × (result.to ≤ length self.now) }
    {
        self.under_part(place, &[])
    }

    fn under_part(&self, place: &Place, way: &[Proj]) -> Span
        ensures spans { SpansUnder self.now (beyond place.now way.now) result.from result.to }
        ensures within { (result.from ≤ result.to) × (result.to ≤ length self.now) }
    {
        let places = self.places.as_slice();
        let from = places.partition_point(|tracked| is_before(tracked, place, way));
        let to = places.partition_point(|tracked| is_until(tracked, place, way));
        Span {
            from: from as u32,
            to: to as u32,
        }
    }
}
