//! Functions that are found one after another.
ghost use Rattle.std.specs.Prelude.{◌≡◌, ◌<◌, [], length, map, OnOk, IfOk};
ghost use Rattle.bit_rows.specs.Rows.{row_at};
ghost use Rattle.mir_syntax.specs.Drops.{fn_number};
ghost use Rattle.call_graph.specs.Walk.{IsFound, added};

use bit_rows::BitRows;
use mir_syntax::{FnId, List, OutOfMemory};
use std::alloc::Global;

/// Functions in the order in which they came, each once, with a mark for each.
#[derive(Drop)]
pub(crate) struct Found {
    pub list: List<FnId>,
    pub marks: BitRows,
    pub ghost marked: { IsFound list marks },
}

impl Found {
    pub(crate) fn new(alloc: Global, functions: u32) -> Result<Found, OutOfMemory>
        ensures none { IfOk result (λ found. found.list ≡ []) }
        ensures size { IfOk result (λ found. length (row_at found.marks 0) ≡ functions) }
    {
        Ok(Found {
            list: List::new(alloc),
            marks: BitRows::new(alloc, 1, functions)?,
        })
    }

    /// Puts a function at the end, unless it came before.
    pub(crate) fn add(&mut self, f: FnId) -> Result<(), OutOfMemory>
        requires { f.0 < length (row_at self.old.marks 0) }
        ensures list { OnOk result (map fn_number self.new.list ≡ added (map fn_number self.old.list) f.0) }
        ensures size { OnOk result (length (row_at self.new.marks 0) ≡ length (row_at self.old.marks 0)) }
    {
        if self.marks.get(0, f.0) {
            return Ok(());
        }
        self.list.push(f)?;
        self.marks.set(0, f.0, true);
        Ok(())
    }

    pub(crate) fn into_list(self) -> List<FnId>
        ensures { result ≡ self.list }
    {
        let Found { list, .. } = self;
        list
    }
}
