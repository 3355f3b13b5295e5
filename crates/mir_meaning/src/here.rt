ghost use Rattle.std.specs.Prelude.{◌≡◌, ◌++◌, None, Some, IsTrue, MatchOption, IfSome, option_map};
ghost use Rattle.mir_syntax.specs.Parts.{path_formed};
ghost use Rattle.mir_semantics.specs.Step as sem;
ghost use Rattle.mir_meaning.specs.Programs.{type_in};
ghost use Rattle.mir_meaning.specs.Views.{memory_of, part_of};
ghost use Rattle.mir_meaning.specs.Spots.{spot_of, IsSpot};
ghost use Rattle.mir_meaning.specs.Sight.{here_of, Misses, Finds};

use crate::memory::Memory;
use crate::part::Part;
use crate::place::Spot;
use mir_syntax::{Body, Place, Program, TyId};

/// What statements and operands see: the program, the body of the frame's function, and the frame's number.
#[derive(Clone, Copy)]
pub struct Here<'p> {
    pub program: &'p Program,
    pub body: &'p Body,
    pub frame: u64,
}

impl<'p> Here<'p> {
    /// The type of a place, if it has one.
    pub fn type_of(self, place: &Place) -> Option<TyId>
        requires { IsTrue (path_formed place.now.proj) }
        ensures { option_map (type_in self.entry.program.now) result ≡ sem.type_of (here_of self.entry) place.now }
    {
        self.program.place_ty(self.body, place)
    }

    /// The spot of a place, if it is there.
    #[inline(always)]
    pub fn resolve<'m, 'q>(self, memory: &'m Memory, place: &'q Place) -> Option<Spot<'m, 'q>>
        requires { IsTrue (path_formed place.now.proj) }
        ensures place { MatchOption result
            (sem.resolve (here_of self.entry) (memory_of memory.now) place.now ≡ None)
            (λ spot. sem.resolve (here_of self.entry) (memory_of memory.now) place.now ≡ Some (spot_of spot)) }
        ensures part { IfSome result (λ spot. IsSpot (memory_of memory.now) spot) }
        ensures formed { IfSome result (λ spot. IsTrue (path_formed (spot.front.now ++ spot.back.now))) }
    {
        memory.resolve(self.frame, place)
    }

    /// The spot of a place and what stands there, if anything does.
    #[inline(always)]
    pub fn find<'m, 'q>(
        self,
        memory: &'m Memory,
        place: &'q Place,
    ) -> Option<(Spot<'m, 'q>, Part<'m>)>
        requires { IsTrue (path_formed place.now.proj) }
        ensures place { MatchOption result
            (Misses (here_of self.entry) (memory_of memory.now) place.now)
            (λ found. Finds (here_of self.entry) (memory_of memory.now) place.now (spot_of found.0) (part_of found.1)) }
        ensures formed { IfSome result (λ found. IsTrue (path_formed (found.0.front.now ++ found.0.back.now))) }
    {
        let Some(spot) = self.resolve(memory, place) else {
            return None;
        };
        let Some(part) = spot.part else {
            return None;
        };
        Some((spot, part))
    }
}
