//! What chains of calls lead to, as rows of bits that grow.
ghost use Rattle.std.specs.Prelude.{◌≡◌, ◌<◌, ◌∷◌, ◌++◌, [], ℕ, List as ListOf, ◌↔◌, Bool, length, set, true, false, Some, IsTrue, IfOk, map, min, option_map, if◌then◌else◌};
ghost use Rattle.std.specs.List.{All};
ghost use Rattle.bit_rows.specs.Rows.{row_at, flag, marked, stands};
ghost use Rattle.mir_syntax.specs.Drops.{fn_number};
ghost use Rattle.mir_syntax.specs.declared.types.FnId.{FnId};
ghost use Rattle.call_graph.specs.Graph.{Graph, IsGraph, Reaches, is_known, least, next_known, reach};
ghost use Rattle.call_graph.specs.Reaching.{rows_of, is_waiting};

use bit_rows::BitRows;
use mir_syntax::{FnId, List, OutOfMemory};
use std::alloc::Global;
use std::marker::Model;

/// What chains of calls lead to from a function, as far as callees were given. Contracts see two rows of bits: the known functions, and
/// those whose callees were given.
#[derive(Drop)]
pub struct Reach {
    functions: u32,
    /// No function below it waits for its callees.
    low: u32,
    rows: BitRows,
}

impl Model for Reach {
    ghost use Rattle.std.specs.Prelude.{List, Bool};
    ghost use Rattle.std.specs.Coded.{coded_list, coded_bool};
    ghost use Rattle.call_graph.specs.Reaching.{KeepsLow};

    ghost Value = { List (List Bool) };

    ghost coded = { coded_list (coded_list coded_bool) };

    ghost view = { λ r. r.rows };

    ghost invariant = { λ r. KeepsLow r.rows r.functions r.low };
}

/// The number below which none waits, after a function became known, or was known before.
fn lowered(was_known: bool, g: u32, low: u32) -> u32
    ensures { result ≡ (if was_known then low else min g low) }
{
    if was_known { low } else { g.min(low) }
}

impl Reach {
    /// Only the function itself is known.
    ///
    /// # Errors
    ///
    /// `OutOfMemory`.
    pub fn new(alloc: Global, functions: u32, g: FnId) -> Result<Reach, OutOfMemory>
        requires { g.0 < functions }
        ensures { IfOk result (λ reach. (G : Graph) → G.functions ≡ functions → reach ≡ rows_of G g.0 []) }
    {
        let mut rows = BitRows::new(alloc, 2, functions)?;
        rows.set(0, g.0, true);
        Ok(Reach {
            functions,
            low: 0,
            rows,
        })
    }

    /// The least known function whose callees weren't given. `None` exactly where the reach is finished.
    pub fn next(&self) -> Option<FnId>
        ensures waiting { option_map fn_number result ≡ least (is_waiting self.now) 0 (length (row_at self.now 0)) }
        ensures next { (G : Graph) (g : ℕ) (given : ListOf ℕ) → self.now ≡ rows_of G g given → option_map fn_number result ≡ next_known G g given }
    {
        for h in self.low..self.functions {
            if self.rows.get(0, h) && !self.rows.get(1, h) {
                return Some(FnId(h));
            }
        }
        None
    }

    /// Whether chains over the given callees lead to a function.
    pub fn has(&self, f: FnId) -> bool
        requires { f.0 < length (row_at self.now 0) }
        ensures known { (G : Graph) (g : ℕ) (given : ListOf ℕ) → self.now ≡ rows_of G g given → result ≡ is_known G g given f.0 }
        // At the end it tells what is reached.
        ensures finished { (G : Graph) (g : ℕ) → IsGraph G → g < G.functions → self.now ≡ rows_of G g (reach G g) → result ≡ stands f.0 (reach G g) }
        ensures chains { (G : Graph) (g : ℕ) → IsGraph G → g < G.functions → self.now ≡ rows_of G g (reach G g) → IsTrue result ↔ Reaches G g f.0 }
    {
        self.rows.get(0, f.0)
    }

    /// A function becomes known.
    fn know(&mut self, g: u32)
        requires { g < length (row_at self.old 0) }
        ensures { self.new ≡ set self.old 0 (set (row_at self.old 0) g true) }
    {
        let was_known = self.rows.get(0, g);
        self.rows.set(0, g, true);
        self.low = lowered(was_known, g, self.low);
    }

    /// The function whose callees are given next has them given.
    fn take(&mut self, h: u32)
        requires within { h < length (row_at self.old 0) }
        requires next { least (is_waiting self.old) 0 (length (row_at self.old 0)) ≡ Some h }
        ensures { self.new ≡ row_at self.old 0 ∷ set (row_at self.old 1) h true ∷ [] }
    {
        self.rows.set(1, h, true);
        self.low = h + 1;
    }

    /// The callees of the function that `next` gives become known.
    pub fn give(&mut self, f: FnId, list: &List<FnId>)
        requires next { least (is_waiting self.old) 0 (length (row_at self.old 0)) ≡ Some f.0 }
        requires within { f.0 < length (row_at self.old 0) }
        requires callees { All (λ (g : FnId). g.0 < length (row_at self.old 0)) list.now }
        ensures rows { self.new ≡ marked (row_at self.old 0) (map fn_number list.now) ∷ set (row_at self.old 1) f.0 true ∷ [] }
        ensures grows { (G : Graph) (g : ℕ) (given : ListOf ℕ) → self.old ≡ rows_of G g given → map fn_number list.now ≡ G.callees f.0 → self.new ≡ rows_of G g (given ++ f.0 ∷ []) }
    {
        self.take(f.0);
        for g in list.as_slice() {
            self.know(g.0);
        }
    }
}
