ghost use Rattle.std.specs.Prelude.{◌≡◌, ◌<◌, length, take, drop, slice_get, List, [], ◌∷◌, ◌++◌, Some, None, IsTrue, IfOk, MatchOption, IfSome, OnSome, option_map};
ghost use Rattle.mir_syntax.specs.declared.body.Proj.{Proj};
ghost use Rattle.mir_syntax.specs.Parts.{path_formed};
ghost use Rattle.mir_semantics.specs.Memory.{value_at};
ghost use Rattle.mir_semantics.specs.Memory as sem;
ghost use Rattle.mir_semantics.specs.Memory.{walk as along};
ghost use Rattle.mir_semantics.specs.Step.{local_addr};
ghost use Rattle.mir_meaning.specs.Views.{value_of, addr_of, part_of, memory_of};
ghost use Rattle.mir_meaning.specs.Spots.{spot_of, IsSpot};

use crate::memory::Memory;
use crate::part::Part;
use crate::pointer::Pointer;
use mir_syntax::{List, OutOfMemory, Place, Proj};
use std::alloc::Global;

/// A place that was found in memory: its frame and local, the path of the pointer that was followed last, the projections since, and what
/// stands there, if anything.
#[derive(Clone, Copy)]
pub struct Spot<'m, 'p> {
    pub frame: u64,
    pub local: u32,
    pub front: &'m [Proj],
    pub back: &'p [Proj],
    pub part: Option<Part<'m>>,
}

/// A path, and behind it another.
///
/// # Errors
///
/// `OutOfMemory`.
pub fn joined(alloc: Global, front: &[Proj], back: &[Proj]) -> Result<List<Proj>, OutOfMemory>
    ensures { IfOk result (λ path. path ≡ front.now ++ back.now) }
{
    let mut path = List::new(alloc);
    path.extend(front)?;
    path.extend(back)?;
    Ok(path)
}

impl<'m, 'p> Spot<'m, 'p> {
    /// The address, apart from the memory.
    ///
    /// # Errors
    ///
    /// `OutOfMemory`.
    pub fn pointer(self, alloc: Global) -> Result<Pointer, OutOfMemory>
        requires { IsTrue (path_formed (self.front.now ++ self.back.now)) }
        ensures { IfOk result (λ pointer. addr_of pointer ≡ spot_of self.entry) }
    {
        Ok(Pointer {
            frame: self.frame,
            local: self.local,
            path: joined(alloc, self.front, self.back)?,
        })
    }
}

/// The spot that a pointer points to, with what stands there.
fn pointed<'m, 'p>(pointer: &'m Pointer, target: Part<'m>) -> Spot<'m, 'p>
    ensures addr { spot_of result ≡ addr_of pointer.now }
    ensures part { result.part ≡ Some target.entry }
    ensures formed { IsTrue (path_formed result.front.now) }
    ensures back { result.back.now ≡ [] }
{
    Spot {
        frame: pointer.frame,
        local: pointer.local,
        front: pointer.path.as_slice(),
        back: &[],
        part: Some(target),
    }
}

#[inline(always)]
fn step_at(path: &[Proj], at: usize) -> Option<Proj>
    ensures found { result ≡ slice_get path.now at }
    ensures within { OnSome result (at < length path.now) }
{
    path.get(at).copied()
}

impl Memory {
    #[inline(always)]
    fn start<'m, 'p>(&'m self, frame: u64, local: u32) -> Spot<'m, 'p>
        ensures addr { spot_of result ≡ local_addr frame local }
        ensures part { IsSpot (memory_of self.now) result }
        ensures front { result.front.now ≡ [] }
        ensures back { result.back.now ≡ [] }
    {
        Spot {
            frame,
            local,
            front: &[],
            back: &[],
            part: self.at(frame, local, &[]),
        }
    }

    /// The spot that a pointer points to, which stands at another spot.
    fn referent<'m, 'p>(&'m self, spot: Spot<'m, 'p>) -> Option<Spot<'m, 'p>>
        requires { IsSpot (memory_of self.now) spot }
        ensures gone { result ≡ None → (rest : List Proj) → along (memory_of self.now) (spot_of spot.entry) (Proj.Deref ∷ rest) ≡ None }
        ensures there { IfSome result (λ next. (rest : List Proj) → along (memory_of self.now) (spot_of spot.entry) (Proj.Deref ∷ rest) ≡ along (memory_of self.now) (spot_of next) rest) }
        ensures part { IfSome result (λ next. IsSpot (memory_of self.now) next) }
        ensures formed { IfSome result (λ next. IsTrue (path_formed next.front.now)) }
        ensures back { IfSome result (λ next. next.back.now ≡ []) }
    {
        let Some(part) = spot.part else {
            return None;
        };
        let Some(pointer) = part.referent() else {
            return None;
        };
        let Some(target) = self.behind(pointer) else {
            return None;
        };
        Some(pointed(pointer, target))
    }

    /// The spot of a place of a frame, resolved from left to right. Nothing is copied.
    #[inline(always)]
    pub fn resolve<'m, 'p>(&'m self, frame: u64, place: &'p Place) -> Option<Spot<'m, 'p>>
        ensures gone { result ≡ None → along (memory_of self.now) (local_addr frame place.now.local) place.now.proj ≡ None }
        ensures there { IfSome result (λ spot. along (memory_of self.now) (local_addr frame place.now.local) place.now.proj ≡ Some (spot_of spot)) }
        ensures part { IfSome result (λ spot. IsSpot (memory_of self.now) spot) }
        ensures formed { IsTrue (path_formed place.now.proj) → IfSome result (λ spot. IsTrue (path_formed (spot.front.now ++ spot.back.now))) }
    {
        walk(
            self,
            self.start(frame, place.local),
            place.proj.as_slice(),
            0,
        )
    }
}

/// Goes on from a spot, which the first projections since the last pointer led to, along the others.
fn walk<'m, 'p>(
    memory: &'m Memory,
    spot: Spot<'m, 'p>,
    from: &'p [Proj],
    len: usize,
) -> Option<Spot<'m, 'p>>
    requires part { IsSpot (memory_of memory.now) spot }
    requires back { spot.back.now ≡ take len from.now }
    requires front { IsTrue (path_formed spot.front.now) }
    ensures gone { result ≡ None → along (memory_of memory.now) (spot_of spot.entry) (drop len from.now) ≡ None }
    ensures there { IfSome result (λ next. along (memory_of memory.now) (spot_of spot.entry) (drop len from.now) ≡ Some (spot_of next)) }
    ensures part { IfSome result (λ next. IsSpot (memory_of memory.now) next) }
    ensures formed { IsTrue (path_formed from.now) → IfSome result (λ next. IsTrue (path_formed (next.front.now ++ next.back.now))) }
{
    let Some(step) = step_at(from, len) else {
        return Some(spot);
    };
    match step {
        Proj::Deref => {
            let Some(next) = memory.referent(spot) else {
                return None;
            };
            walk(memory, next, &from[len + 1..], 0)
        }
        _ => {
            let Some(next) = further(spot, step, &from[..len + 1]) else {
                return None;
            };
            walk(memory, next, from, len + 1)
        }
    }
}

/// The spot of a part of what stands at a spot, one projection further.
fn further<'m, 'p>(spot: Spot<'m, 'p>, step: Proj, back: &'p [Proj]) -> Option<Spot<'m, 'p>>
    requires other { step ≡ Proj.Deref → ⊥ }
    requires further { back.now ≡ spot.back.now ++ step ∷ [] }
    ensures gone { result ≡ None → (m : sem.Memory) (rest : List Proj) → IsSpot m spot.entry → along m (spot_of spot.entry) (step ∷ rest) ≡ None }
    ensures there { IfSome result (λ next. (m : sem.Memory) (rest : List Proj) → IsSpot m spot.entry → along m (spot_of spot.entry) (step ∷ rest) ≡ along m (spot_of next) rest) }
    ensures part { IfSome result (λ next. (m : sem.Memory) → IsSpot m spot.entry → IsSpot m next) }
    ensures front { IfSome result (λ next. next.front.now ≡ spot.entry.front.now) }
    ensures back { IfSome result (λ next. next.back.now ≡ back.now) }
{
    let Some(part) = spot.part else {
        return None;
    };
    let Some(next) = part.inner(step) else {
        return None;
    };
    Some(Spot {
        frame: spot.frame,
        local: spot.local,
        front: spot.front,
        back,
        part: Some(next),
    })
}
