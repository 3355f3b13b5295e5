ghost use Rattle.std.specs.Prelude.{◌≡◌, ℕ, ◌<◌, ◌^◌, None, map, length, get_or, option_map, IsTrue, IfOk, OnOk};
ghost use Rattle.std.specs.List.{list_all};
ghost use Rattle.mir_syntax.specs.declared.body.Block.{Block};
ghost use Rattle.mir_syntax.specs.Tree.{trees_of};
ghost use Rattle.mir_syntax.specs.Crate.{crate_of, body_of, stmt_of, block_of};
ghost use Rattle.mir_syntax.specs.Shapes.{shapes_of};
ghost use Rattle.mir_syntax.specs.Drops.{KnowsDrops};
ghost use Rattle.mir_syntax.specs.Ids.{stmt_below, block_below, IdsInTable, BodyInTable};
ghost use Rattle.mir_cfg.specs.Paths.{terms_of, Closed};
ghost use Rattle.const_flow.specs.Facts.{after_stmt, after_all};
ghost use Rattle.const_rewrite.specs.Folded as definition;
ghost use Rattle.const_rewrite.specs.Points.{here, trees_in, where_reached};

use crate::noted::note_stmt;
use crate::point::Text;
use crate::put::put_stmt;
use crate::terminator::folded_term;
use const_flow::{ConstRows, Facts, consts};
use mir_syntax::{Block, Body, Const, List, OutOfMemory, Program, Stmt, Term};
use std::alloc::Global;
use std::mem;

/// Folds a statement by what is known before it, and makes of that what is known after it. The list is room for constants.
fn fold_stmt(
    alloc: Global,
    text: Text<'_>,
    facts: &mut Facts<'_>,
    constants: &mut List<Option<Const>>,
    stmt: &mut Stmt,
) -> Result<(), OutOfMemory>
    ensures stmt { OnOk result (stmt_of (trees_in text.entry) stmt.new ≡ where_reached (definition.folded_stmt (here text.entry)) facts.old (stmt_of (trees_in text.entry) stmt.old)) }
    ensures facts { OnOk result (facts.new ≡ option_map (after_stmt (here text.entry) (stmt_of (trees_in text.entry) stmt.old)) facts.old) }
    ensures ids { OnOk result ((n : ℕ) → IsTrue (stmt_below n stmt.old) → IsTrue (stmt_below n stmt.new)) }
{
    let value = note_stmt(text, facts, constants, stmt)?;
    facts.pass(text.program, text.body, stmt)?;
    let old = mem::replace(stmt, Stmt::StorageLive(0));
    let left = put_stmt(alloc, value, constants.as_slice(), old)?;
    *stmt = left;
    Ok(())
}

fn folded_stmts(
    alloc: Global,
    text: Text<'_>,
    facts: &mut Facts<'_>,
    constants: &mut List<Option<Const>>,
    stmts: List<Stmt>,
) -> Result<List<Stmt>, OutOfMemory>
    ensures stmts { IfOk result (λ left. map (stmt_of (trees_in text.entry)) left ≡ where_reached (definition.folded_stmts (here text.entry)) facts.old (map (stmt_of (trees_in text.entry)) stmts)) }
    ensures facts { OnOk result (facts.new ≡ option_map (after_all (here text.entry) (map (stmt_of (trees_in text.entry)) stmts)) facts.old) }
    ensures ids { IfOk result (λ left. (n : ℕ) → IsTrue (list_all (stmt_below n) stmts) → IsTrue (list_all (stmt_below n) left)) }
{
    let mut stmts = stmts.into_vec();
    for stmt in stmts.iter_mut() {
        fold_stmt(alloc, text, facts, constants, stmt)?;
    }
    Ok(List::from_vec(stmts))
}

/// Folds a block by what is known at the start of the one with its number.
fn fold_block(
    alloc: Global,
    text: Text<'_>,
    rows: &ConstRows,
    at: u32,
    constants: &mut List<Option<Const>>,
    block: &mut Block,
) -> Result<(), OutOfMemory>
    ensures block { OnOk result (block_of (trees_in text.entry) block.new ≡ definition.folded_block (here text.entry) (block_of (trees_in text.entry) block.old) (get_or rows.now at None)) }
    ensures ids { OnOk result ((n : ℕ) → IsTrue (block_below n block.old) → IsTrue (block_below n block.new)) }
{
    let mut facts = rows.facts(alloc, at)?;
    let stmts = mem::replace(&mut block.stmts, List::new(alloc));
    let term = mem::replace(&mut block.term, Term::Unreachable);
    let left = folded_stmts(alloc, text, &mut facts, constants, stmts)?;
    block.stmts = left;
    block.term = folded_term(text, &facts, term);
    Ok(())
}

/// The blocks of a body, which they have left, folded by what is known at their starts.
fn folded_blocks(
    alloc: Global,
    text: Text<'_>,
    rows: &ConstRows,
    blocks: List<Block>,
) -> Result<List<Block>, OutOfMemory>
    requires { length blocks < 2 ^ 30 }
    ensures blocks { IfOk result (λ left. map (block_of (trees_in text.entry)) left ≡ definition.folded_blocks (here text.entry) (map (block_of (trees_in text.entry)) blocks) rows.now) }
    ensures ids { IfOk result (λ left. (n : ℕ) → IsTrue (list_all (block_below n) blocks) → IsTrue (list_all (block_below n) left)) }
{
    let mut constants = List::new(alloc);
    let mut blocks = blocks.into_vec();
    for (at, block) in blocks.iter_mut().enumerate() {
        fold_block(alloc, text, rows, at as u32, &mut constants, block)?;
    }
    Ok(List::from_vec(blocks))
}

/// The body in which what is known to be a constant is one, and in which a branch that is known is a jump.
///
/// # Errors
///
/// `OutOfMemory`; the body is spent then.
pub fn folded(alloc: Global, program: &Program, body: Body) -> Result<Body, OutOfMemory>
    requires knows { KnowsDrops program.now }
    requires ids { IdsInTable program.now }
    requires body_ids { BodyInTable program.now.types body }
    requires closed { Closed (terms_of body) }
    requires some_block { 0 < length body.blocks }
    requires few_blocks { length body.blocks < 2 ^ 30 }
    requires few_locals { length body.locals < 2 ^ 30 }
    ensures folded { IfOk result (λ left. body_of (trees_of program.now.types) left ≡ definition.folded (shapes_of (crate_of program.now)) (body_of (trees_of program.now.types) body)) }
    ensures in_table { IfOk result (λ left. BodyInTable program.now.types left) }
{
    let rows = consts(alloc, program, &body)?;
    let Body {
        args,
        locals,
        blocks,
    } = body;
    let header = Body {
        args,
        locals,
        blocks: List::new(alloc),
    };
    let text = Text {
        program,
        body: &header,
    };
    let blocks = folded_blocks(alloc, text, &rows, blocks)?;
    Ok(Body {
        args: header.args,
        locals: header.locals,
        blocks,
    })
}
