ghost use Rattle.std.specs.Prelude.{◌≡◌, ℕ, [], ◌∷◌, IsTrue, IfOk, MatchOption, Some, map, length, slice_get, option_map};
ghost use Rattle.std.specs.List.{list_all};
ghost use Rattle.mir_syntax.specs.Tree.{trees_of};
ghost use Rattle.mir_syntax.specs.Crate.{crate_of};
ghost use Rattle.mir_syntax.specs.Ids.{stmt_below, block_below};
ghost use Rattle.mir_text.specs.NameFaults.{first_fault};
ghost use Rattle.mir_rules.specs.Formed.{body_formed};
ghost use Rattle.mir_syntax.specs.declared.lines.Lines.{Lines as LinesData};
ghost use Rattle.mir_rules.specs.Broken.{body_found};
ghost use Rattle.mir_rules.specs.Faults.{same_lengths, block_fits, by_line};
ghost use Rattle.mir_validate.specs.Inside.{shapes, typed, local_types};
ghost use Rattle.mir_syntax.specs.Parts.{stmt_whole};
ghost use Rattle.mir_validate.specs.Terms.{block_ready};
ghost use Rattle.mir_validate.specs.Walk.{place_of, statements_broken, block_broken, blocks_broken};

use crate::fault::{Broken, on_line, sooner};
use crate::inside::Inside;
use mir_syntax::{Block, BlockLines, FnLines, OutOfMemory, Stmt};
use std::alloc::Global;

/// The first item and the others.
fn parted<'a, T>(items: &'a [T]) -> Option<(&'a T, &'a [T])>
    ensures { MatchOption result (items.now ≡ []) (λ parts. items.now ≡ parts.0.now ∷ parts.1.now) }
{
    match items {
        [first, others @ ..] => Some((first, others)),
        [] => None,
    }
}

impl Inside<'_> {
    fn statements_fault(&self, stmts: &[Stmt], lines: &[u32]) -> Option<Broken>
        requires formed { IsTrue (list_all stmt_whole stmts.now) }
        requires below { IsTrue (list_all (stmt_below (length self.now.program.now.types)) stmts.now) }
        ensures { option_map place_of result ≡ first_fault (statements_broken (shapes self.now.program.now) self.now.body.now.args (local_types self.now.program.now self.now.body.now) (trees_of self.now.program.now.types) lines.now stmts.now) }
    {
        let mut found = None;
        let mut rest = stmts;
        let mut left = lines;
        'stmts: while let Some((stmt, others)) = parted(rest) {
            let Some((line, later)) = parted(left) else {
                return found;
            };
            found = sooner(found, on_line(*line, self.statement_code(stmt)));
            rest = others;
            left = later;
        }
        found
    }

    fn block_fault(
        &self,
        alloc: Global,
        block: &Block,
        lines: &BlockLines,
    ) -> Result<Option<Broken>, OutOfMemory>
        requires formed { IsTrue (block_ready (crate_of self.now.program.now) block.now) }
        requires below { IsTrue (block_below (length self.now.program.now.types) block.now) }
        ensures { IfOk result (λ found. option_map place_of found ≡ first_fault (block_broken (crate_of self.now.program.now) (shapes self.now.program.now) self.now.body.now.args (local_types self.now.program.now self.now.body.now) (trees_of self.now.program.now.types) lines.now block.now)) }
    {
        let stmts = self.statements_fault(block.stmts.as_slice(), lines.stmts.as_slice());
        let code = self.terminator_code(alloc, &block.term)?;
        Ok(sooner(stmts, on_line(lines.term, code)))
    }

    /// What is answered of all that blocks break.
    ///
    /// # Errors
    ///
    /// `OutOfMemory`.
    pub fn blocks_fault(
        &self,
        alloc: Global,
        blocks: &[Block],
        lines: &[BlockLines],
    ) -> Result<Option<Broken>, OutOfMemory>
        requires formed { IsTrue (list_all (block_ready (crate_of self.now.program.now)) blocks.now) }
        requires below { IsTrue (list_all (block_below (length self.now.program.now.types)) blocks.now) }
        ensures { IfOk result (λ found. option_map place_of found ≡ first_fault (blocks_broken (crate_of self.now.program.now) (shapes self.now.program.now) self.now.body.now.args (local_types self.now.program.now self.now.body.now) (trees_of self.now.program.now.types) lines.now blocks.now)) }
    {
        let mut found = None;
        let mut rest = blocks;
        let mut left = lines;
        'walk: while let Some((block, others)) = parted(rest) {
            let Some((line, later)) = parted(left) else {
                return Ok(found);
            };
            let fault = self.block_fault(alloc, block, line)?;
            found = sooner(found, fault);
            rest = others;
            left = later;
        }
        Ok(found)
    }

    /// What is answered of all that the body breaks: the rule on the first line, and on one line the one of least code. `None` exactly where it
    /// breaks none. The lines are those of the function in the lines of the whole program.
    ///
    /// # Errors
    ///
    /// `OutOfMemory`.
    pub fn body_fault(&self, alloc: Global, lines: &FnLines) -> Result<Option<Broken>, OutOfMemory>
        requires formed { IsTrue (body_formed (crate_of self.now.program.now) (typed self.now.program.now self.now.body.now)) }
        ensures { IfOk result (λ found. (all : LinesData) (f : ℕ) → slice_get all.functions f ≡ Some lines.now → IsTrue (same_lengths block_fits lines.now.blocks (typed self.now.program.now self.now.body.now).blocks)
            → option_map place_of found ≡ first_fault (map (by_line all) (body_found (crate_of self.now.program.now) (shapes self.now.program.now) f (typed self.now.program.now self.now.body.now)))) }
    {
        let found = self.blocks_fault(alloc, self.body.blocks.as_slice(), lines.blocks.as_slice())?;
        Ok(found)
    }
}
