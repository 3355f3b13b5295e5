ghost use Rattle.std.specs.Prelude.{◌≡◌, ℕ, ◌-◌, ◌<◌, ◌^◌, [], ◌∷◌, ◌++◌, length, None, slice_get, option_map, IfOk, IfSome, OnOk, OnErr};
ghost use Rattle.mir_text.specs.Words.{place_in};
ghost use Rattle.mir_names.specs.Names.{SaysTwice};

use indexmap::IndexSet;
use mir_syntax::OutOfMemory;
use std::alloc::Global;
use std::marker::Model;

/// Why a name isn't added.
#[derive(Debug, Drop)]
pub enum NameFault {
    /// It stands already, with this number.
    Twice(u32),
    OutOfMemory,
}

impl From<OutOfMemory> for NameFault {
    ghost use Rattle.mir_names.specs.declared.names.NameFault.TheVariants as fault;
    ghost use Rattle.std.specs.Prelude.{◌≡◌};

    ghost from_gives = { λ _ e. e ≡ fault.OutOfMemory };

    fn from(_error: OutOfMemory) -> NameFault {
        NameFault::OutOfMemory
    }
}

/// Names in the order in which they were added, none twice. A name's number is its place.
#[derive(Drop)]
pub struct Names {
    names: IndexSet<Vec<u8>>,
}

impl Model for Names {
    ghost use Rattle.std.specs.Prelude.{ℕ, List, length, map, ◌<◌, ◌^◌};

    ghost Value = { List (List ℕ) };

    ghost view = { λ n. map (λ name. name.items) n.names.keys };

    ghost invariant = { λ n. length n.names.keys < 2 ^ 32 };
}

impl Names {
    /// No names.
    pub fn new(alloc: Global) -> Names
        ensures { result ≡ [] }
    {
        Names {
            names: IndexSet::new(alloc),
        }
    }

    /// How many names there are.
    #[tactic(auto, using(crate::proofs::Places::names_length))]
    pub fn len(&self) -> usize
        ensures count { result ≡ length self.now }
        ensures small { length self.now < 2 ^ 32 }
    {
        self.names.as_slice().len()
    }

    /// The number of a name, in expected constant time.
    #[tactic(auto, using(crate::proofs::Places::found_place))]
    pub fn find(&self, name: &[u8]) -> Option<u32>
        ensures place { result ≡ place_in self.now name.now }
        ensures within { IfSome result (λ n. n < length self.now) }
    {
        match self.names.get_index_of(name) {
            Some(place) => Some(place as u32),
            None => None,
        }
    }

    /// The name with a number.
    pub fn get(&self, number: u32) -> Option<&[u8]>
        ensures { option_map (λ name. name.now) result ≡ slice_get self.now number }
    {
        match self.names.get_index(number as usize) {
            Some(name) => Some(name.as_slice()),
            None => None,
        }
    }

    /// Puts a name at the end that doesn't stand yet.
    #[tactic(auto, using(crate::proofs::Places::absent_name))]
    fn append(&mut self, name: &[u8]) -> Result<u32, OutOfMemory>
        requires room { length self.old < 2 ^ 32 - 1 }
        requires absent { place_in self.old name.now ≡ None }
        ensures number { IfOk result (λ n. n ≡ length self.old) }
        ensures appended { OnOk result (self.new ≡ self.old ++ name.now ∷ []) }
        ensures unchanged { OnErr result (self.new ≡ self.old) }
    {
        let number = self.names.as_slice().len();
        let copy = name.to_vec(*self.names.allocator())?;
        self.names.insert(copy)?;
        Ok(number as u32)
    }

    /// Gives the next number to a name, in expected constant time.
    ///
    /// # Errors
    ///
    /// `Twice` exactly where the name stands already. After an error the names are as they were.
    pub fn add(&mut self, name: &[u8]) -> Result<u32, NameFault>
        requires { length self.old < 2 ^ 32 - 1 }
        ensures number { IfOk result (λ n. n ≡ length self.old) }
        ensures appended { OnOk result (self.new ≡ self.old ++ name.now ∷ []) }
        ensures twice { SaysTwice (place_in self.old name.now) result }
        ensures unchanged { OnErr result (self.new ≡ self.old) }
    {
        match self.find(name) {
            Some(number) => Err(NameFault::Twice(number)),
            None => {
                let number = self.append(name)?;
                Ok(number)
            }
        }
    }
}
