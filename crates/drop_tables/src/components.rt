use mir_syntax::{List, OutOfMemory};
use std::alloc::Global;

/// A definition on the way from the first to the one that is looked at.
#[derive(Clone, Copy, Debug, Drop)]
struct Visit {
    def: u32,
    /// How many of its holders were gone over.
    done: usize,
    /// The least number of a definition without a component to which a way leads from it, as far as was seen.
    low: u32,
}

/// A walk over definitions and those that hold them, depth first, which numbers definitions as it meets them and closes a component when it
/// goes back over the first of it (Tarjan's). Nothing is promised of it: who takes its answer looks it over.
#[derive(Drop)]
struct Walk<'a> {
    holders: &'a [List<u32>],
    /// Numbers from 1 in the order in which definitions were met; 0 for one that wasn't.
    met: Vec<u32>,
    /// Numbers from 1 in the order in which components were closed; 0 for a definition without one.
    component: Vec<u32>,
    /// Those that were met and have no component, in their order.
    open: Vec<u32>,
    way: Vec<Visit>,
    count: u32,
    closed: u32,
}

/// What a list has at a place; 0 past its end.
fn at(numbers: &[u32], place: u32) -> u32 {
    match numbers.get(place as usize) {
        Some(number) => *number,
        None => 0,
    }
}

fn put(numbers: &mut [u32], place: u32, number: u32) {
    if let Some(old) = numbers.get_mut(place as usize) {
        *old = number;
    }
}

impl Walk<'_> {
    fn enter(&mut self, def: u32) -> Result<(), OutOfMemory> {
        self.count = self.count.saturating_add(1);
        put(self.met.as_mut_slice(), def, self.count);
        self.open.push(def)?;
        let low = self.count;
        self.way.push(Visit { def, done: 0, low })?;
        Ok(())
    }

    fn close(&mut self, first: u32) {
        self.closed = self.closed.saturating_add(1);
        for _ in 0..self.open.len() {
            let Some(def) = self.open.pop() else {
                return;
            };
            put(self.component.as_mut_slice(), def, self.closed);
            if def == first {
                return;
            }
        }
    }

    fn holder(&self, visit: &Visit) -> Option<u32> {
        let list = self.holders.get(visit.def as usize)?;
        list.get(visit.done).copied()
    }

    /// Goes over one more holder of the last definition on the way, or back over it.
    fn step(&mut self) -> Result<(), OutOfMemory> {
        let Some(mut visit) = self.way.pop() else {
            return Ok(());
        };
        match self.holder(&visit) {
            Some(holder) => {
                visit.done = visit.done.saturating_add(1);
                let met = at(self.met.as_slice(), holder);
                if met != 0 && at(self.component.as_slice(), holder) == 0 {
                    visit.low = visit.low.min(met);
                }
                self.way.push(visit)?;
                if met == 0 {
                    self.enter(holder)?;
                }
            }
            None => self.leave(visit)?,
        }
        Ok(())
    }

    fn leave(&mut self, visit: Visit) -> Result<(), OutOfMemory> {
        if visit.low == at(self.met.as_slice(), visit.def) {
            self.close(visit.def);
        } else if let Some(mut before) = self.way.pop() {
            before.low = before.low.min(visit.low);
            self.way.push(before)?;
        }
        Ok(())
    }

    fn from(&mut self, def: u32, steps: usize) -> Result<usize, OutOfMemory> {
        if at(self.met.as_slice(), def) != 0 {
            return Ok(steps);
        }
        self.enter(def)?;
        for left in 0..steps {
            if self.way.is_empty() {
                return Ok(steps - left);
            }
            self.step()?;
        }
        Ok(0)
    }
}

/// The steps that the walk takes at most: one for each holder, and one back over each definition.
fn steps_of(holders: &[List<u32>]) -> usize {
    let mut steps = holders.len();
    for list in holders {
        steps = steps.saturating_add(list.len());
    }
    steps
}

/// A number for each definition: those that hold one another have one number, and no number falls from a definition to those that it holds.
/// (No clause says so: `suspects` looks the numbers over.)
///
/// # Errors
///
/// `OutOfMemory`.
pub fn components(alloc: Global, holders: &[List<u32>]) -> Result<Vec<u32>, OutOfMemory> {
    let mut walk = Walk {
        holders,
        met: vec![in alloc; 0; holders.len()]?,
        component: vec![in alloc; 0; holders.len()]?,
        open: Vec::new(alloc),
        way: Vec::new(alloc),
        count: 0,
        closed: 0,
    };
    let mut steps = steps_of(holders);
    for def in 0..holders.len() {
        if def > u32::MAX as usize {
            break;
        }
        steps = walk.from(def as u32, steps)?;
    }
    let Walk { component, .. } = walk;
    Ok(component)
}
