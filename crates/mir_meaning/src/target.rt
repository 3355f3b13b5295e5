ghost use Rattle.std.specs.Prelude.{◌≡◌, ◌++◌, IsTrue, IfOk};
ghost use Rattle.mir_syntax.specs.Parts.{path_formed};
ghost use Rattle.mir_semantics.specs.Memory as sem;
ghost use Rattle.mir_meaning.specs.Views.{value_of, memory_of};
ghost use Rattle.mir_meaning.specs.Spots.{spot_of};
ghost use Rattle.mir_meaning.specs.Targets.{path_in, target_of};

use crate::datum::Datum;
use crate::memory::Memory;
use crate::place::{Spot, joined};
use mir_syntax::{List, OutOfMemory, Proj};
use std::alloc::Global;

/// A path that borrows nothing of the memory: that of a place, or one that was copied since it goes on from a reference's.
pub enum Path<'p> {
    Given(&'p [Proj]),
    Made(List<Proj>),
}

impl Drop for Path<'_> {
    fn drop(self) {
        match self {
            Path::Given(_) => {}
            Path::Made(_made) => {}
        }
    }
}

impl<'p> Path<'p> {
    fn as_slice(&self) -> &[Proj]
        ensures { result.now ≡ path_in self.now }
    {
        match self {
            Path::Given(path) => path,
            Path::Made(path) => path.as_slice(),
        }
    }
}

/// The address that a write goes to.
#[derive(Drop)]
pub struct Target<'p> {
    pub frame: u64,
    pub local: u32,
    pub path: Path<'p>,
}

fn path_of<'p>(alloc: Global, front: &[Proj], back: &'p [Proj]) -> Result<Path<'p>, OutOfMemory>
    ensures { IfOk result (λ path. path_in path ≡ front.now ++ back.now) }
{
    if front.is_empty() {
        Ok(Path::Given(back))
    } else {
        Ok(Path::Made(joined(alloc, front, back)?))
    }
}

impl<'m, 'p> Spot<'m, 'p> {
    /// The address, apart from the memory. Its path is copied only where a pointer into a part was followed.
    ///
    /// # Errors
    ///
    /// `OutOfMemory`.
    pub fn target(self, alloc: Global) -> Result<Target<'p>, OutOfMemory>
        ensures { IfOk result (λ target. target_of target ≡ spot_of self.entry) }
    {
        Ok(Target {
            frame: self.frame,
            local: self.local,
            path: path_of(alloc, self.front, self.back)?,
        })
    }
}

impl Memory {
    /// Writes a value where the target stands; where that isn't there, nothing changes.
    pub fn put_at(&mut self, target: &Target<'_>, value: Datum)
        requires { IsTrue (path_formed (target_of target.now).path) }
        ensures { memory_of self.new ≡ sem.write (memory_of self.old) (target_of target.now) (value_of value) }
    {
        self.write(target.frame, target.local, target.path.as_slice(), value);
    }
}
