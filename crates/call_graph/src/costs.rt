ghost use Rattle.std.specs.Prelude.{◌≡◌, ◌+◌, ◌-◌, ◌^◌, List, map, min};
ghost use Rattle.mir_syntax.specs.Tree.{Tree};
ghost use Rattle.mir_syntax.specs.Crate.{body_of, stmt_of};
ghost use Rattle.call_graph.specs.Cost as of;

use mir_syntax::{Body, FlatBody, Stmt, Term};

fn stmt_cost(stmt: &Stmt) -> u64
    ensures { (trees : List Tree) → result ≡ of.stmt_cost (stmt_of trees stmt.now) }
{
    match stmt {
        Stmt::StorageLive(_) => 0,
        Stmt::StorageDead(_) => 0,
        Stmt::Assign(_, _) => 5,
        Stmt::SetDiscriminant(_, _) => 5,
    }
}

fn term_cost(term: &Term) -> u64
    ensures { result ≡ of.term_cost term.now }
{
    match term {
        Term::Call(_, _, _, _) => 30,
        Term::Goto(_) => 5,
        Term::Switch(_, _, _) => 5,
        Term::Return => 5,
        Term::Unreachable => 5,
        Term::Drop(_, _) => 5,
        Term::Assert(_, _, _, _, _) => 5,
    }
}

fn block_cost(stmts: &[Stmt], term: &Term) -> u64
    ensures { (trees : List Tree) → result ≡ min (of.block_cost (record { stmts = map (stmt_of trees) stmts.now; term = term.now })) (2 ^ 64 - 1) }
{
    let mut total = 0u64;
    for stmt in stmts {
        total = total.saturating_add(stmt_cost(stmt));
    }
    total.saturating_add(term_cost(term))
}

/// What a body costs: 5 for each statement that isn't one of storage, 5 for each terminator and 25 more for each call; `u64::MAX` where
/// that sum is greater.
pub fn cost(body: &Body) -> u64
    ensures { (trees : List Tree) → result ≡ of.cost (body_of trees body.now) }
{
    let mut total = 0u64;
    for block in body.blocks.as_slice() {
        total = total.saturating_add(block_cost(block.stmts.as_slice(), &block.term));
    }
    total
}

/// The same for a body in one table.
pub fn cost_flat(body: &FlatBody) -> u64
    ensures { (trees : List Tree) → result ≡ of.cost (body_of trees body.now) }
{
    let mut total = 0u64;
    for block in 0..body.blocks() {
        total = total.saturating_add(block_cost(body.stmts(block), body.term(block)));
    }
    total
}
