ghost use Rattle.std.specs.Prelude.{◌≡◌, ◌∷◌, ◌++◌, [], map, length, IsTrue, IfOk, OnOk};
ghost use Rattle.std.specs.List.{list_all};
ghost use Rattle.mir_syntax.specs.Tree.{trees_of};
ghost use Rattle.mir_syntax.specs.Crate.{block_of};
ghost use Rattle.mir_syntax.specs.Ids.{block_below};
ghost use Rattle.mir_text.specs.NamedBodies.{or_else};
ghost use Rattle.mir_text.specs.NameFaults.{each};
ghost use Rattle.mir_text.specs.ReadLines.{first_of};
ghost use Rattle.mir_resolve.specs.Types.{Grown};
ghost use Rattle.mir_resolve.specs.Faults.{noted};
ghost use Rattle.mir_bodies.specs.Scope.{Sense, Tells};
ghost use Rattle.mir_file.specs.Functions.{text_block, text_lines, text_wrong, text_faults};

use mir_bodies::{ReadBlock, Scope, read_block};
use mir_resolve::Draft;
use mir_syntax::{Block, BlockLines, List, OutOfMemory};
use mir_tree::BlockText;
use std::alloc::Global;

/// Blocks with the lines of their parts, and the first line of a field that is written with another type than the definition's.
#[derive(Drop)]
pub struct ReadBlocks {
    pub blocks: List<Block>,
    pub lines: List<BlockLines>,
    pub wrong_field: Option<u32>,
}

/// The first of two lines that there may be.
pub fn first_line_of(first: Option<u32>, other: Option<u32>) -> Option<u32>
    ensures { result ≡ or_else first other }
{
    match first {
        Some(first) => Some(first),
        None => other,
    }
}

impl ReadBlocks {
    fn push(&mut self, read: ReadBlock) -> Result<(), OutOfMemory>
        ensures blocks { OnOk result (self.new.blocks ≡ self.old.blocks ++ read.block ∷ []) }
        ensures lines { OnOk result (self.new.lines ≡ self.old.lines ++ read.lines ∷ []) }
        ensures wrong { OnOk result (self.new.wrong_field ≡ or_else self.old.wrong_field read.wrong_field) }
    {
        self.blocks.push(read.block)?;
        self.lines.push(read.lines)?;
        self.wrong_field = first_line_of(self.wrong_field, read.wrong_field);
        Ok(())
    }
}

/// Blocks, with the faults of their parts noted on their lines.
///
/// # Errors
///
/// `OutOfMemory`.
pub fn read_blocks(
    alloc: Global,
    scope: &Scope,
    draft: &mut Draft,
    texts: &[BlockText],
) -> Result<ReadBlocks, OutOfMemory>
    ghost sense: { Sense }
    requires { Tells scope.now draft.old.program sense }
    ensures blocks { IfOk result (λ read. map (block_of (trees_of draft.new.program.types)) read.blocks ≡ map (text_block sense) texts.now) }
    ensures lines { IfOk result (λ read. read.lines ≡ map text_lines texts.now) }
    ensures wrong { IfOk result (λ read. read.wrong_field ≡ first_of (each (text_wrong sense) texts.now)) }
    ensures inside { IfOk result (λ read. IsTrue (list_all (block_below (length draft.new.program.types)) read.blocks)) }
    ensures notes { OnOk result (draft.new.notes ≡ noted draft.old.notes (each (text_faults sense) texts.now)) }
    ensures grown { OnOk result (Grown draft.old.program draft.new.program) }
{
    let mut found = ReadBlocks {
        blocks: List::with_capacity(alloc, texts.len())?,
        lines: List::with_capacity(alloc, texts.len())?,
        wrong_field: None,
    };
    let mut left = texts;
    'parts: while let [text, rest @ ..] = left {
        let read = read_block(alloc, scope, draft, text)?;
        found.push(read)?;
        left = rest;
    }
    Ok(found)
}
