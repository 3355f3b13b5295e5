//! Blocks that wait for their turn.
ghost use Rattle.std.specs.Prelude.{◌≡◌, ◌<◌, ◌≤◌, length, replicate, set, true, false, IfOk, MatchOption, if◌then◌else◌};
ghost use Rattle.flow_engine.specs.Solving.{Waits, SleepBelow, SleepFrom, SleepAhead, SleepAll};

use mir_syntax::OutOfMemory;
use std::alloc::Global;

/// The first block that waits, from a number on.
fn first_from(waits: &[bool], from: usize) -> Option<usize>
    ensures { MatchOption result (SleepFrom waits.now from) (Waits waits.now) }
{
    for block in from..waits.len() {
        if waits[block] {
            return Some(block);
        }
    }
    None
}

/// The last block that waits, below a number.
fn last_below(waits: &[bool], end: usize) -> Option<usize>
    requires { end ≤ length waits.now }
    ensures { MatchOption result (SleepBelow waits.now end) (Waits waits.now) }
{
    for block in (0..end).rev() {
        if waits[block] {
            return Some(block);
        }
    }
    None
}

/// The blocks that wait, by marks. A sweep over them stands before the block `at`: upward, that block and those behind it are still ahead, and
/// downward those before it. A block that comes to wait where it is ahead has its turn in the same sweep. Sweeps go to and fro.
#[derive(Drop)]
pub(crate) struct Worklist {
    pub waits: Vec<bool>,
    pub at: usize,
    pub is_upward: bool,
    pub ghost within: { at ≤ length waits.items },
}

impl Worklist {
    /// All of so many blocks wait; the last is the next.
    ///
    /// # Errors
    ///
    /// `OutOfMemory`.
    pub fn all(alloc: Global, blocks: u32) -> Result<Worklist, OutOfMemory>
        ensures { IfOk result (λ made. made.waits.items ≡ replicate blocks true) }
    {
        let mut waits = Vec::new(alloc);
        for _ in 0..blocks {
            waits.push(true)?;
        }
        Ok(Worklist {
            at: waits.len(),
            waits,
            is_upward: false,
        })
    }

    /// The next block of this sweep.
    fn ahead(&self) -> Option<usize>
        ensures { MatchOption result (SleepAhead self.now.waits.items self.now.at self.now.is_upward) (Waits self.now.waits.items) }
    {
        if self.is_upward {
            first_from(&self.waits, self.at)
        } else {
            last_below(&self.waits, self.at)
        }
    }

    /// The next block, of this sweep or else of the one back.
    fn find(&mut self) -> Option<usize>
        ensures same { self.new.waits ≡ self.old.waits }
        ensures found { MatchOption result (SleepAll self.old.waits.items) (Waits self.old.waits.items) }
    {
        if let Some(block) = self.ahead() {
            return Some(block);
        }
        self.is_upward = !self.is_upward;
        self.ahead()
    }

    /// Takes out the next block, if one waits.
    pub fn next(&mut self) -> Option<usize>
        ensures { MatchOption result
            (SleepAll self.old.waits.items)
            (λ block. Waits self.old.waits.items block × (self.new.waits.items ≡ set self.old.waits.items block false)) }
    {
        let block = self.find()?;
        self.at = if self.is_upward { block + 1 } else { block };
        self.waits[block] = false;
        Some(block)
    }

    /// Lets a block wait if something changed there.
    pub fn add_if(&mut self, changed: bool, block: u32)
        requires { block < length self.old.waits.items }
        ensures { self.new.waits.items ≡ (if changed then set self.old.waits.items block true else self.old.waits.items) }
    {
        if changed {
            self.waits[block as usize] = true;
        }
    }
}
