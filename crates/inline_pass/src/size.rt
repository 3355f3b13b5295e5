//! How large a body would be without a call.
ghost use Rattle.std.specs.Prelude.{◌≡◌, ◌<◌, true, false, List, length, map, sum_by, Some, MatchOption, slice_get};
ghost use Rattle.mir_syntax.specs.declared.body.Block.{Block as SomeBlock};
ghost use Rattle.mir_syntax.specs.Tree.{Tree};
ghost use Rattle.mir_syntax.specs.Crate.{block_of};
ghost use Rattle.inline_pass.specs.Spliced.{stmts_in};
ghost use Rattle.inline_pass.specs.Code.{capped, copied_in, kept_count, entering, keeping, bare_stmts, bare_fits};

use mir_syntax::{Block, Body, FlatBody, Place, Stmt, Term};

/// How many blocks, locals and statements a body may have in which a call was replaced.
const MOST_BLOCKS: usize = 1000;

const MOST_LOCALS: usize = 2000;

const MOST_STMTS: usize = 4000;

fn in_block(block: &Block) -> usize
    ensures { (trees : List Tree) → result ≡ capped (stmts_in (block_of trees block.now)) }
{
    block.stmts.len()
}

/// How many statements the blocks have; `usize::MAX` where they have more.
pub(crate) fn stmts(blocks: &[Block]) -> usize
    ensures { (trees : List Tree) → result ≡ capped (sum_by stmts_in (map (block_of trees) blocks.now)) }
{
    let mut total = 0usize;
    for block in blocks {
        total = total.saturating_add(in_block(block));
    }
    total
}

/// How many there are in a copy of a block of these statements, which puts its result where the block returns.
fn copied(stmts: &[Stmt], term: &Term) -> usize
    ensures { (trees : List Tree) → result ≡ capped (copied_in (block_of trees (record { stmts = stmts.now; term = term.now }))) }
{
    match term {
        Term::Return => stmts.len().saturating_add(1),
        _ => stmts.len(),
    }
}

fn all_copied(callee: &FlatBody) -> usize
    ensures { (trees : List Tree) → result ≡ capped (sum_by copied_in (map (block_of trees) callee.now.blocks)) }
{
    let mut total = 0usize;
    for block in 0..callee.blocks() {
        total = total.saturating_add(copied(callee.stmts(block), callee.term(block)));
    }
    total
}

/// Whether a destination is kept in a local.
fn kept(dest: &Place) -> usize
    ensures { result ≡ kept_count dest.now }
{
    if dest.has_deref() { 1 } else { 0 }
}

/// How many statements the calling block gets.
fn entering(term: &Term) -> usize
    ensures { result ≡ capped (entering term.now) }
{
    match term {
        Term::Call(dest, _, args, _) => kept(dest).saturating_add(args.len()),
        _ => 0,
    }
}

/// How many locals the caller gets besides those of the callee.
fn keeping(term: &Term) -> usize
    ensures { result ≡ keeping term.now }
{
    match term {
        Term::Call(dest, _, _, _) => kept(dest),
        _ => 0,
    }
}

/// How many statements a body that has so many would have without the call that the terminator is.
fn stmts_without(stmts: usize, term: &Term, callee: &FlatBody) -> usize
    ensures { (trees : List Tree) → result ≡ bare_stmts stmts term.now (map (block_of trees) callee.now.blocks) }
{
    stmts
        .saturating_add(entering(term))
        .saturating_add(all_copied(callee))
}

/// Whether the body without the call would be within the limits, given its statements.
fn fits(body: &Body, term: &Term, callee: &FlatBody, stmts: usize) -> bool
    ensures { result ≡ bare_fits body.now term.now callee.now stmts }
{
    let blocks = body.blocks.len().saturating_add(callee.blocks() as usize);
    let locals = body.locals.len().saturating_add(callee.locals().len());
    blocks <= MOST_BLOCKS
        && locals.saturating_add(keeping(term)) <= MOST_LOCALS
        && stmts <= MOST_STMTS
}

/// How many statements the body would have without the call that ends the block. `None` where it would pass a limit then.
pub(crate) fn room(body: &Body, stmts: usize, block: u32, callee: &FlatBody) -> Option<usize>
    requires { block < length body.now.blocks }
    ensures { (trees : List Tree) (k : SomeBlock) → slice_get body.now.blocks block ≡ Some k
        → MatchOption result (bare_fits body.now k.term callee.now (bare_stmts stmts k.term (map (block_of trees) callee.now.blocks)) ≡ false)
        (λ left. (left ≡ bare_stmts stmts k.term (map (block_of trees) callee.now.blocks)) × (bare_fits body.now k.term callee.now left ≡ true)) }
{
    let term = &body.blocks.as_slice()[block as usize].term;
    let left = stmts_without(stmts, term, callee);
    if fits(body, term, callee, left) {
        Some(left)
    } else {
        None
    }
}
