ghost use Rattle.std.specs.Prelude.{◌≡◌, [], map, IsTrue, ◌<◌, length, MatchOption, IfSome, OnOk, option_map, option_copied};
ghost use Rattle.mir_syntax.specs.Parts.{path_formed};
ghost use Rattle.mir_semantics.specs.Values as values;
ghost use Rattle.mir_semantics.specs.Memory as sem;
ghost use Rattle.mir_semantics.specs.Memory.{local_at, value_at, change_slot, open_frame};
ghost use Rattle.mir_meaning.specs.Views.{value_of, address, addr_of, part_of, memory_of};
ghost use Rattle.mir_meaning.specs.Newest.{NoneHas, IsNewest};

use crate::datum::Datum;
use crate::part::Part;
use crate::pointer::Pointer;
use crate::put::put;
use mir_syntax::{List, OutOfMemory, Proj};
use std::alloc::Global;
use std::mem;

/// The locals of one frame.
#[derive(Drop)]
pub struct Store {
    pub frame: u64,
    pub slots: List<Datum>,
}

/// The locals of the frames that live, the newest frame last.
#[derive(Drop)]
pub struct Memory {
    pub stores: List<Store>,
}

fn change(slots: &mut List<Datum>, local: u32, path: &[Proj], value: Datum)
    requires { IsTrue (path_formed path.now) }
    ensures { map value_of slots.new ≡ change_slot local (values.put path.now (value_of value)) (map value_of slots.old) }
{
    let slots = slots.as_mut_slice();
    if slots.len() <= local as usize {
        return;
    }
    let old = mem::replace(&mut slots[local as usize], Datum::Hole);
    slots[local as usize] = put(old, path, value);
}

fn newest(stores: &[Store], frame: u64) -> Option<usize>
    ensures found { MatchOption result (NoneHas stores.now frame) (λ i. IsNewest stores.now frame i) }
    ensures within { IfSome result (λ i. i < length stores.now) }
{
    let mut at = stores.len();
    while 0 < at {
        at -= 1;
        if stores[at].frame == frame {
            return Some(at);
        }
    }
    None
}

impl Memory {
    /// A memory without a frame.
    pub fn new(alloc: Global) -> Memory
        ensures { memory_of result ≡ [] }
    {
        Memory {
            stores: List::new(alloc),
        }
    }

    /// The value of a local.
    pub fn local(&self, frame: u64, local: u32) -> Option<&Datum>
        ensures { option_map value_of (option_copied result) ≡ local_at (memory_of self.now) frame local }
    {
        let stores = self.stores.as_slice();
        let Some(at) = newest(stores, frame) else {
            return None;
        };
        stores[at].slots.get(local as usize)
    }

    /// What stands at an address.
    pub fn at(&self, frame: u64, local: u32, path: &[Proj]) -> Option<Part<'_>>
        ensures { option_map part_of result ≡ value_at (memory_of self.now) (address frame local path.now) }
    {
        let Some(datum) = self.local(frame, local) else {
            return None;
        };
        Part::Whole(datum).along(path)
    }

    /// What stands where a pointer points.
    pub fn behind(&self, pointer: &Pointer) -> Option<Part<'_>>
        ensures { option_map part_of result ≡ value_at (memory_of self.now) (addr_of pointer.now) }
    {
        self.at(pointer.frame, pointer.local, pointer.path.as_slice())
    }

    /// Puts a value at an address; where nothing stands there, nothing changes.
    pub fn write(&mut self, frame: u64, local: u32, path: &[Proj], value: Datum)
        requires { IsTrue (path_formed path.now) }
        ensures { memory_of self.new ≡ sem.write (memory_of self.old) (address frame local path.now) (value_of value) }
    {
        let stores = self.stores.as_mut_slice();
        let Some(at) = newest(stores, frame) else {
            return;
        };
        change(&mut stores[at].slots, local, path, value);
    }

    /// A new frame with its locals.
    ///
    /// # Errors
    ///
    /// `OutOfMemory`.
    pub fn open(&mut self, frame: u64, slots: List<Datum>) -> Result<(), OutOfMemory>
        ensures { OnOk result (memory_of self.new ≡ open_frame (memory_of self.old) frame (map value_of slots)) }
    {
        self.stores.push(Store { frame, slots })?;
        Ok(())
    }
}
