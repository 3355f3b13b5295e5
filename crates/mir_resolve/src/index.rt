ghost use Rattle.std.specs.Prelude.{◌≡◌, ◌<◌, ◌^◌, ◌∷◌, ◌++◌, [], length, slice_get, IfOk};
ghost use Rattle.mir_text.specs.Words.{place_in};
ghost use Rattle.mir_text.specs.NameFaults.{stands_in};

use mir_names::{NameFault, Names};
use mir_syntax::{List, OutOfMemory};
use std::alloc::Global;
use std::marker::Model;

/// Texts in the order in which they were added. One may stand twice, and is then found at its first place.
#[derive(Drop)]
pub struct PathIndex {
    /// The different ones.
    different: Names,
    /// The first place of each of them.
    firsts: List<u32>,
    /// Of each text in turn, which of the different ones it is.
    numbers: List<u32>,
}

impl Model for PathIndex {
    ghost use Rattle.std.specs.Prelude.{ℕ, List, length, ◌<◌, ◌^◌, ◌≤◌};
    ghost use Rattle.mir_resolve.specs.Index.{texts_of, IsIndexed};

    ghost Value = { List (List ℕ) };

    ghost view = { λ p. texts_of p.different p.numbers };

    ghost invariant = { λ p. IsIndexed p.different p.firsts p.numbers };
}

/// An index with one more text, and whether that stood in it before.
#[derive(Drop)]
pub struct Added {
    pub index: PathIndex,
    pub stood: bool,
}

fn first_of(firsts: &[u32], number: u32) -> Option<u32>
    ensures { result ≡ slice_get firsts.now number }
{
    firsts.get(number as usize).copied()
}

impl PathIndex {
    /// No texts.
    pub fn new(alloc: Global) -> PathIndex
        ensures { result ≡ [] }
    {
        PathIndex {
            different: Names::new(alloc),
            firsts: List::new(alloc),
            numbers: List::new(alloc),
        }
    }

    /// How many texts there are.
    pub fn len(&self) -> u32
        ensures { result ≡ length self.now }
    {
        self.numbers.len() as u32
    }

    /// The first place of a text, in expected constant time.
    pub fn find(&self, text: &[u8]) -> Option<u32>
        ensures { result ≡ place_in self.now text.now }
    {
        match self.different.find(text) {
            Some(number) => first_of(self.firsts.as_slice(), number),
            None => None,
        }
    }

    /// Puts a text at the end. Where there is no memory the index is spent.
    ///
    /// # Errors
    ///
    /// `OutOfMemory`.
    pub fn with(self, text: &[u8]) -> Result<Added, OutOfMemory>
        ensures index { IfOk result (λ added. added.index ≡ self ++ text.now ∷ []) }
        ensures stood { IfOk result (λ added. added.stood ≡ stands_in self text.now) }
    {
        let PathIndex {
            mut different,
            mut firsts,
            mut numbers,
        } = self;
        let place = numbers.len();
        if place >= 1 << 30 || different.len() >= 1 << 30 {
            return Err(OutOfMemory);
        }
        match different.add(text) {
            Ok(number) => {
                firsts.push(place as u32)?;
                numbers.push(number)?;
                let index = PathIndex {
                    different,
                    firsts,
                    numbers,
                };
                Ok(Added {
                    index,
                    stood: false,
                })
            }
            Err(NameFault::Twice(number)) => {
                numbers.push(number)?;
                let index = PathIndex {
                    different,
                    firsts,
                    numbers,
                };
                Ok(Added { index, stood: true })
            }
            Err(NameFault::OutOfMemory) => Err(OutOfMemory),
        }
    }
}
