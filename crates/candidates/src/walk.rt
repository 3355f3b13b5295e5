//! The candidates of a function, one after another.
ghost use Rattle.std.specs.Prelude.{◌≡◌, ◌<◌, ◌≤◌, ◌∷◌, ◌++◌, [], ℕ, length, replicate, map, option_map, false, not, ◌&&◌, IfOk, OnOk};
ghost use Rattle.bit_rows.specs.Rows.{row_at, flag};
ghost use Rattle.mir_syntax.specs.Drops.{fn_number};
ghost use Rattle.candidates.specs.Walk.{AllBelow, IsWalk, IsFresh, IsNextLayer, IsSettled, Took, Brings, never_in};

use bit_rows::BitRows;
use mir_syntax::{FnId, Function, Inline, List, OutOfMemory};
use std::alloc::Global;
use std::mem;

/// Who may be inlined into a function: the candidates of this layer from a place on, those that come in the next one, and whom it knows.
///
/// There are three layers: whom the function calls, whom those bodies call that it takes of them, and whom the bodies of these. Each comes
/// once, in the order in which it was brought first, and without those that may never be inlined.
#[derive(Drop)]
pub struct Walk {
    alloc: Global,
    /// How many layers come after this one.
    layers: u32,
    layer: List<u32>,
    at: usize,
    fresh: List<u32>,
    known: BitRows,
}

/// Whether the function may never be inlined.
fn is_never(functions: &[Function], g: u32) -> bool
    ensures { result ≡ never_in functions.now g }
{
    match functions.get(g as usize) {
        Some(function) => function.inline == Inline::Never,
        None => false,
    }
}

impl Walk {
    /// Nobody comes yet; who is brought comes in the first layer.
    ///
    /// # Errors
    ///
    /// `OutOfMemory`.
    pub fn new(alloc: Global, functions: u32) -> Result<Walk, OutOfMemory>
        ensures { IfOk result (IsFresh functions) }
    {
        Ok(Walk {
            alloc,
            layers: 3,
            layer: List::new(alloc),
            at: 0,
            fresh: List::new(alloc),
            known: BitRows::new(alloc, 1, functions)?,
        })
    }

    fn next_layer(&mut self)
        requires { 0 < self.old.layers }
        ensures { IsNextLayer self.old self.new }
    {
        self.layers -= 1;
        self.layer = mem::replace(&mut self.fresh, List::new(self.alloc));
        self.at = 0;
    }

    /// Where a layer is at its end, the next begins.
    fn settle(&mut self)
        ensures { IsSettled self.old self.new }
    {
        if self.at == self.layer.len() && self.layers > 0 {
            self.next_layer();
        }
    }

    /// The next candidate; `None` where none is left.
    pub fn take(&mut self) -> Option<FnId>
        requires { self.old.at ≤ length self.old.layer }
        ensures { Took self.old self.new (option_map fn_number result) }
    {
        self.settle();
        if self.at >= self.layer.len() {
            return None;
        }
        let g = self.layer.as_slice()[self.at];
        self.at += 1;
        Some(FnId(g))
    }

    fn is_new(&self, functions: &[Function], c: u32) -> bool
        requires row { 0 < length self.now.known }
        requires bit { c < length (row_at self.now.known 0) }
        ensures { result ≡ (not (flag self.now.known 0 c) && not (never_in functions.now c)) }
    {
        if self.known.get(0, c) {
            false
        } else {
            !is_never(functions, c)
        }
    }

    fn bring_one(&mut self, functions: &[Function], c: u32) -> Result<(), OutOfMemory>
        requires walk { IsWalk (length functions.now) self.old }
        requires c { c < length functions.now }
        ensures { OnOk result (Brings (never_in functions.now) (length functions.now) self.old self.new (c ∷ [])) }
    {
        let adds = self.is_new(functions, c);
        self.known.set(0, c, true);
        if adds {
            self.fresh.push(c)?;
            Ok(())
        } else {
            Ok(())
        }
    }

    /// Functions are brought: they come in the next layer, but for those that were brought before and those that may never be inlined.
    ///
    /// # Errors
    ///
    /// `OutOfMemory`; the walk is spent then.
    pub fn bring(&mut self, functions: &[Function], calls: &List<FnId>) -> Result<(), OutOfMemory>
        requires walk { IsWalk (length functions.now) self.old }
        requires calls { AllBelow (length functions.now) (map fn_number calls.now) }
        ensures { OnOk result (Brings (never_in functions.now) (length functions.now) self.old self.new (map fn_number calls.now)) }
    {
        for c in calls.as_slice() {
            self.bring_one(functions, c.0)?;
        }
        Ok(())
    }
}
