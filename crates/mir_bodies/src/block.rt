ghost use Rattle.std.specs.Prelude.{◌≡◌, ◌++◌, IsTrue, map, length, IfOk, OnOk};
ghost use Rattle.std.specs.List.{list_all};
ghost use Rattle.mir_syntax.specs.Tree.{trees_of};
ghost use Rattle.mir_syntax.specs.Crate.{stmt_of, block_of};
ghost use Rattle.mir_syntax.specs.Ids.{stmt_below, block_below};
ghost use Rattle.mir_text.specs.NamedBodies.{block_named};
ghost use Rattle.mir_text.specs.NameFaults.{each, block_faults};
ghost use Rattle.mir_text.specs.ReadLines as l;
ghost use Rattle.mir_text.specs.ReadLines.{first_of};
ghost use Rattle.mir_tree.specs.Rules.{block_rule};
ghost use Rattle.mir_tree.specs.Bodies.{lined_block};
ghost use Rattle.mir_resolve.specs.Types.{Grown};
ghost use Rattle.mir_resolve.specs.Faults.{noted};
ghost use Rattle.mir_bodies.specs.Scope.{Sense, Tells};
ghost use Rattle.mir_bodies.specs.Statements.{listed, first_kept, text_stmts, text_line, text_faults, text_wrong};

use crate::stmt::read_stmt;
use crate::term::read_term;
use crate::{Read, Scope};
use mir_resolve::Draft;
use mir_syntax::{Block, BlockLines, List, OutOfMemory, Stmt};
use mir_tree::{BlockText, Lined, StmtText};
use std::alloc::Global;

/// Statements with their lines, and the line of the first of them with a field that is written with another type than the definition's.
#[derive(Debug, Drop)]
struct ReadStmts {
    stmts: List<Stmt>,
    lines: List<u32>,
    wrong: Option<u32>,
}

/// A block with the lines of its parts, and the first line of a field that is written with another type than the definition's.
#[derive(Debug, Drop)]
pub struct ReadBlock {
    pub block: Block,
    pub lines: BlockLines,
    pub wrong_field: Option<u32>,
}

/// The first line, if there is one, or else this line where something is wrong.
fn first_wrong(first: Option<u32>, wrong: bool, line: u32) -> Option<u32>
    ensures { result ≡ first_kept first wrong line }
{
    match first {
        Some(first) => Some(first),
        None => { if wrong { Some(line) } else { None } }
    }
}

/// Puts a statement and its line at the ends, if there is one.
fn put_stmt(
    stmts: &mut List<Stmt>,
    lines: &mut List<u32>,
    stmt: Option<Stmt>,
    line: u32,
) -> Result<(), OutOfMemory>
    ensures stmts { OnOk result (stmts.new ≡ stmts.old ++ listed stmt) }
    ensures lines { OnOk result (lines.new ≡ lines.old ++ map (λ s. line) (listed stmt)) }
{
    match stmt {
        Some(stmt) => {
            stmts.push(stmt)?;
            lines.push(line)?;
            Ok(())
        }
        None => Ok(()),
    }
}

fn read_stmts(
    alloc: Global,
    scope: &Scope,
    draft: &mut Draft,
    texts: &[Lined<StmtText>],
) -> Result<ReadStmts, OutOfMemory>
    ghost sense: { Sense }
    requires { Tells scope.now draft.old.program sense }
    ensures stmts { IfOk result (λ read. map (stmt_of (trees_of draft.new.program.types)) read.stmts ≡ each (text_stmts sense) texts.now) }
    ensures lines { IfOk result (λ read. read.lines ≡ each text_line texts.now) }
    ensures wrong { IfOk result (λ read. read.wrong ≡ first_of (each (text_wrong sense) texts.now)) }
    ensures inside { IfOk result (λ read. IsTrue (list_all (stmt_below (length draft.new.program.types)) read.stmts)) }
    ensures notes { OnOk result (draft.new.notes ≡ noted draft.old.notes (each (text_faults sense) texts.now)) }
    ensures grown { OnOk result (Grown draft.old.program draft.new.program) }
    ensures tells { OnOk result (Tells scope.now draft.new.program sense) }
{
    let mut stmts = List::with_capacity(alloc, texts.len())?;
    let mut lines = List::with_capacity(alloc, texts.len())?;
    let mut wrong = None;
    let mut left = texts;
    'stmts: while let [text, rest @ ..] = left {
        let read = read_stmt(alloc, scope, draft, text.line, &text.part)?;
        put_stmt(&mut stmts, &mut lines, read.part, text.line)?;
        wrong = first_wrong(wrong, read.wrong, text.line);
        left = rest;
    }
    Ok(ReadStmts {
        stmts,
        lines,
        wrong,
    })
}

/// A block, with the faults of its statements and its terminator noted on their lines.
///
/// # Errors
///
/// `OutOfMemory`.
pub fn read_block(
    alloc: Global,
    scope: &Scope,
    draft: &mut Draft,
    text: &BlockText,
) -> Result<ReadBlock, OutOfMemory>
    ghost sense: { Sense }
    requires { Tells scope.now draft.old.program sense }
    ensures block { IfOk result (λ read. block_of (trees_of draft.new.program.types) read.block
        ≡ block_named sense.names sense.locals (block_rule (lined_block text.now))) }
    ensures lines { IfOk result (λ read. read.lines ≡ l.block_lines (lined_block text.now)) }
    ensures wrong { IfOk result (λ read. read.wrong_field ≡ first_of (l.wrong_in_block sense.names sense.locals (lined_block text.now))) }
    ensures inside { IfOk result (λ read. IsTrue (block_below (length draft.new.program.types) read.block)) }
    ensures notes { OnOk result (draft.new.notes ≡ noted draft.old.notes (block_faults sense.names sense.locals sense.labels (lined_block text.now))) }
    ensures grown { OnOk result (Grown draft.old.program draft.new.program) }
    ensures tells { OnOk result (Tells scope.now draft.new.program sense) }
{
    let stmts = read_stmts(alloc, scope, draft, text.stmts.as_slice())?;
    let term = read_term(alloc, scope, draft, text.term.line, &text.term.part)?;
    let block = Block {
        stmts: stmts.stmts,
        term: term.part,
    };
    let lines = BlockLines {
        stmts: stmts.lines,
        term: text.term.line,
    };
    Ok(ReadBlock {
        block,
        lines,
        wrong_field: first_wrong(stmts.wrong, term.wrong, text.term.line),
    })
}
