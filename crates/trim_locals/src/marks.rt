ghost use Rattle.std.specs.Prelude.{◌≡◌, ◌<◌, ◌^◌, ◌∷◌, [], ◌++◌, ◌+◌, map, set, length, replicate, false, IfOk};
ghost use Rattle.std.specs.List.{flat_map, range_with_len};
ghost use Rattle.bit_rows.specs.Rows.{row_at, marked, stands};
ghost use Rattle.trim_locals.specs.Code.{bare_stmt_uses, bare_term_uses, bare_block_uses};

use bit_rows::BitRows;
use liveness::{read_operand, read_operands, read_rvalue};
use mir_syntax::{Block, Body, OutOfMemory, Stmt, Term};
use std::alloc::Global;

fn mark_stmt(rows: &mut BitRows, stmt: &Stmt)
    requires { 0 < length rows.old }
    ensures { rows.new ≡ set rows.old 0 (marked (row_at rows.old 0) (bare_stmt_uses stmt.now)) }
{
    match stmt {
        Stmt::Assign(place, rvalue) => {
            read_rvalue(rvalue, rows, 0);
            rows.write(0, place.local, true);
        }
        Stmt::SetDiscriminant(place, _) => rows.write(0, place.local, true),
        Stmt::StorageLive(_) => {}
        Stmt::StorageDead(_) => {}
    }
}

fn mark_stmts(rows: &mut BitRows, stmts: &[Stmt])
    requires { 0 < length rows.old }
    ensures { rows.new ≡ set rows.old 0 (marked (row_at rows.old 0) (flat_map bare_stmt_uses stmts.now)) }
{
    for stmt in stmts {
        mark_stmt(rows, stmt);
    }
}

fn mark_term(rows: &mut BitRows, term: &Term)
    requires { 0 < length rows.old }
    ensures { rows.new ≡ set rows.old 0 (marked (row_at rows.old 0) (bare_term_uses term.now)) }
{
    match term {
        Term::Switch(operand, _, _) => read_operand(operand, rows, 0),
        Term::Drop(place, _) => rows.write(0, place.local, true),
        Term::Call(place, _, args, _) => {
            rows.write(0, place.local, true);
            read_operands(args.as_slice(), rows, 0);
        }
        Term::Assert(operand, _, _, values, _) => {
            read_operand(operand, rows, 0);
            read_operands(values.as_slice(), rows, 0);
        }
        Term::Goto(_) => {}
        Term::Return => {}
        Term::Unreachable => {}
    }
}

fn mark_block(rows: &mut BitRows, block: &Block)
    requires { 0 < length rows.old }
    ensures { rows.new ≡ set rows.old 0 (marked (row_at rows.old 0) (bare_block_uses block.now)) }
{
    mark_stmts(rows, block.stmts.as_slice());
    mark_term(rows, &block.term);
}

fn mark_blocks(rows: &mut BitRows, blocks: &[Block])
    requires { 0 < length rows.old }
    ensures { rows.new ≡ set rows.old 0 (marked (row_at rows.old 0) (flat_map bare_block_uses blocks.now)) }
{
    for block in blocks {
        mark_block(rows, block);
    }
}

/// Marks `_0` and the arguments.
fn mark_header(rows: &mut BitRows, args: u32)
    requires { 0 < length rows.old }
    ensures { rows.new ≡ set rows.old 0 (marked (row_at rows.old 0) (range_with_len 0 (args + 1))) }
{
    for local in 0..args {
        rows.write(0, local, true);
    }
    rows.write(0, args, true);
}

/// One row, in which the used locals are marked.
pub(crate) fn used_row(alloc: Global, body: &Body) -> Result<BitRows, OutOfMemory>
    requires { length body.now.locals < 2 ^ 30 }
    ensures { IfOk result (λ row. row ≡ marked (replicate (length body.now.locals) false) (range_with_len 0 (body.now.args + 1) ++ flat_map bare_block_uses body.now.blocks) ∷ []) }
{
    let mut row = BitRows::new(alloc, 1, body.locals.len() as u32)?;
    mark_header(&mut row, body.args);
    mark_blocks(&mut row, body.blocks.as_slice());
    Ok(row)
}
