ghost use Rattle.std.specs.Prelude.{◌≡◌, ◌<◌, ◌^◌, length};
ghost use Rattle.std.specs.Bool.{OnTrue};
ghost use Rattle.std.specs.List.{list_all};
ghost use Rattle.mir_syntax.specs.Ids.{rvalue_below};
ghost use Rattle.mir_syntax.specs.Parts.{targets};
ghost use Rattle.dead_store.specs.Rounds.{IsReady};
ghost use Rattle.flow_rows.specs.Ready.{are_below, arm_fits, id_fits, stmt_fits, block_fits, body_fits};

use mir_syntax::{Arm, Block, Body, Program, Rvalue, Stmt, Term, TyId};

fn rvalue_fits(types: u32, rvalue: &Rvalue) -> bool
    ensures { result ≡ rvalue_below types rvalue.now }
{
    match rvalue {
        Rvalue::Cast(_, ty) => ty.0 < types,
        Rvalue::Use(_)
        | Rvalue::Binary(_, _, _)
        | Rvalue::Overflow(_, _, _)
        | Rvalue::Unary(_, _)
        | Rvalue::Ref(_)
        | Rvalue::RefMut(_)
        | Rvalue::Discriminant(_)
        | Rvalue::Tuple(_)
        | Rvalue::Build(_, _, _) => true,
    }
}

fn statement_fits(types: u32, locals: u32, stmt: &Stmt) -> bool
    ensures { result ≡ stmt_fits types locals stmt.now }
{
    match stmt {
        Stmt::Assign(place, rvalue) => rvalue_fits(types, rvalue) && place.local < locals,
        Stmt::SetDiscriminant(place, _) => place.local < locals,
        Stmt::StorageLive(_) => true,
        Stmt::StorageDead(_) => true,
    }
}

fn arms_fit(blocks: u32, arms: &[Arm]) -> bool
    ensures { result ≡ list_all (arm_fits blocks) arms.now }
{
    arms.iter().all(|arm| arm.block < blocks)
}

fn edges_fit(blocks: u32, term: &Term) -> bool
    ensures { result ≡ are_below blocks (targets term.now) }
{
    match term {
        Term::Goto(next) => *next < blocks,
        Term::Drop(_, next) => *next < blocks,
        Term::Call(_, _, _, next) => *next < blocks,
        Term::Assert(_, _, _, _, next) => *next < blocks,
        Term::Switch(_, arms, other) => arms_fit(blocks, arms.as_slice()) & (*other < blocks),
        Term::Return => true,
        Term::Unreachable => true,
    }
}

fn statements_fit(types: u32, locals: u32, stmts: &[Stmt]) -> bool
    ensures { result ≡ list_all (stmt_fits types locals) stmts.now }
{
    stmts.iter().all(|stmt| statement_fits(types, locals, stmt))
}

fn one_fits(types: u32, locals: u32, blocks: u32, block: &Block) -> bool
    ensures { result ≡ block_fits types locals blocks block.now }
{
    statements_fit(types, locals, block.stmts.as_slice()) & edges_fit(blocks, &block.term)
}

fn all_fit(types: u32, locals: u32, count: u32, blocks: &[Block]) -> bool
    ensures { result ≡ list_all (block_fits types locals count) blocks.now }
{
    blocks
        .iter()
        .all(|block| one_fits(types, locals, count, block))
}

fn ids_fit(types: u32, ids: &[TyId]) -> bool
    ensures { result ≡ list_all (id_fits types) ids.now }
{
    ids.iter().all(|id| id.0 < types)
}

fn fits(types: u32, body: &Body) -> bool
    requires few_blocks { length body.now.blocks < 2 ^ 30 }
    requires few_locals { length body.now.locals < 2 ^ 30 }
    ensures { result ≡ body_fits types body.now }
{
    let locals = body.locals.len() as u32;
    let blocks = body.blocks.len() as u32;
    ids_fit(types, body.locals.as_slice()) & all_fit(types, locals, blocks, body.blocks.as_slice())
}

/// Whether the ids, edges and written locals of a body are there, so that the passes take it.
pub fn is_ready(program: &Program, body: &Body) -> bool
    ensures { OnTrue result (IsReady program.now.types body.now) }
{
    if body.blocks.len() >= 1 << 30 || body.locals.len() >= 1 << 30 {
        return false;
    }
    fits(program.types(), body)
}
