//! A call that is replaced by the callee's body.
ghost use Rattle.std.specs.Prelude.{◌≡◌, ℕ, List as ListOf, Some, slice_get, ◌<◌, ◌+◌, ◌^◌, ◌++◌, length, map, IfOk, OnOk, MatchOption};
ghost use Rattle.mir_syntax.specs.declared.types.TyId.{TyId};
ghost use Rattle.mir_syntax.specs.declared.body.Place.{Place as SomePlace};
ghost use Rattle.mir_syntax.specs.declared.body.Operand.{Operand as SomeOperand};
ghost use Rattle.mir_syntax.specs.declared.body.Callee.{Callee};
ghost use Rattle.mir_syntax.specs.declared.body.Block.{Block as SomeBlock};
ghost use Rattle.mir_syntax.specs.declared.body.Term.TheVariants as SomeTerm;
ghost use Rattle.mir_syntax.specs.Ids.{BodyInTable};
ghost use Rattle.mir_syntax.specs.Tree.{ref_mut, at_id, trees_of};
ghost use Rattle.mir_syntax.specs.Crate.{stmt_of, body_of};
ghost use Rattle.inline_pass.specs.declared.call.Call.{Call};
ghost use Rattle.inline_pass.specs.Spliced.{kept_dest, with_call};
ghost use Rattle.inline_pass.specs.Takes.{Inlinable};
ghost use Rattle.inline_pass.specs.Code.{shifted, bare_kept, bare_handed, bare_block, kept_id, bare_entered, set_by, bare_with_call, IsCall, NoCall, IsCallAt, NoCallAt, without_call};

use crate::copies::{Behind, local_place};
use mir_syntax::{
    Block, Body, FlatBody, List, Operand, OutOfMemory, Place, Program, Proj, Rvalue, Stmt, Term,
    TyId,
};
use std::alloc::Global;
use std::mem;

/// A call at the end of a block: its destination, its arguments, and the block to which it returns.
#[derive(Debug, Drop)]
pub(crate) struct Call {
    pub dest: Place,
    pub args: List<Operand>,
    pub next: u32,
}

/// Takes out the call that ends the block, if one does.
fn take_call(block: &mut Block) -> Option<Call>
    ensures { MatchOption result ((block.new ≡ block.old) × NoCall block.old.term) (λ call. (block.new ≡ without_call block.old) × IsCall block.old.term call) }
{
    match mem::replace(&mut block.term, Term::Unreachable) {
        Term::Call(dest, _, args, next) => Some(Call { dest, args, next }),
        term => {
            block.term = term;
            None
        }
    }
}

/// The same for the block of this number.
fn take_call_at(blocks: &mut [Block], block: u32) -> Option<Call>
    requires { block < length blocks.old }
    ensures { MatchOption result (NoCallAt blocks.old block) (λ call. (blocks.new ≡ set_by without_call blocks.old block) × IsCallAt blocks.old block call) }
{
    take_call(&mut blocks[block as usize])
}

/// Keeps a reference to a destination behind a reference in a local, and gives the place that stands for the destination.
fn keep(
    alloc: Global,
    stmts: &mut List<Stmt>,
    local: u32,
    dest: Place,
) -> Result<Place, OutOfMemory>
    ensures stmts { OnOk result (stmts.new ≡ stmts.old ++ bare_kept local dest) }
    ensures place { IfOk result (λ place. place ≡ kept_dest local dest) }
{
    if !dest.has_deref() {
        return Ok(dest);
    }
    stmts.push(Stmt::Assign(local_place(alloc, local), Rvalue::RefMut(dest)))?;
    let mut proj = List::new(alloc);
    proj.push(Proj::Deref)?;
    Ok(Place { local, proj })
}

/// Assigns arguments to locals, from one on.
fn hand(
    alloc: Global,
    stmts: &mut List<Stmt>,
    first: u32,
    args: List<Operand>,
) -> Result<(), OutOfMemory>
    requires few { first + length args < 2 ^ 32 }
    ensures { OnOk result (stmts.new ≡ stmts.old ++ bare_handed first args) }
{
    let mut local = first;
    'each: for arg in args.into_vec() {
        stmts.push(Stmt::Assign(local_place(alloc, local), Rvalue::Use(arg)))?;
        local += 1;
    }
    Ok(())
}

/// Puts copies of the callee's blocks at the end.
fn copy_blocks(
    alloc: Global,
    blocks: &mut List<Block>,
    callee: &FlatBody,
    behind: Behind,
    dest: &Place,
    next: u32,
) -> Result<(), OutOfMemory>
    ensures { OnOk result (blocks.new ≡ blocks.old ++ map (bare_block behind.locals behind.blocks dest.now next) callee.now.blocks) }
{
    for block in 0..callee.blocks() {
        let stmts = callee.stmts(block);
        let term = callee.term(block);
        blocks.push(behind.block(alloc, stmts, term, dest, next)?)?;
    }
    Ok(())
}

/// The locals of the caller, those of the callee, and one that keeps the destination where that goes through a reference.
fn push_locals(
    locals: &mut List<TyId>,
    callee: &[TyId],
    dest: &Place,
    kept: TyId,
) -> Result<(), OutOfMemory>
    ensures { OnOk result (locals.new ≡ locals.old ++ (callee.now ++ kept_id kept dest.now)) }
{
    locals.extend(callee)?;
    if dest.has_deref() {
        locals.push(kept)?;
    }
    Ok(())
}

/// The calling block keeps its destination, assigns the arguments and goes to the callee's first block. Gives the place that stands for the
/// destination.
fn enter(
    alloc: Global,
    block: &mut Block,
    behind: Behind,
    local: u32,
    call: Call,
) -> Result<Place, OutOfMemory>
    requires few { behind.locals + 1 + length call.args < 2 ^ 32 }
    ensures block { OnOk result (block.new ≡ bare_entered behind.locals behind.blocks local call block.old) }
    ensures place { IfOk result (λ place. place ≡ kept_dest local call.dest) }
{
    let place = keep(alloc, &mut block.stmts, local, call.dest)?;
    hand(alloc, &mut block.stmts, behind.locals + 1, call.args)?;
    block.term = Term::Goto(behind.blocks);
    Ok(place)
}

/// The same for the block of this number.
fn enter_at(
    alloc: Global,
    blocks: &mut [Block],
    block: u32,
    behind: Behind,
    local: u32,
    call: Call,
) -> Result<Place, OutOfMemory>
    requires block { block < length blocks.old }
    requires few { behind.locals + 1 + length call.args < 2 ^ 32 }
    ensures blocks { OnOk result (blocks.new ≡ set_by (bare_entered behind.locals behind.blocks local call) blocks.old block) }
    ensures place { IfOk result (λ place. place ≡ kept_dest local call.dest) }
{
    enter(alloc, &mut blocks[block as usize], behind, local, call)
}

/// Puts the callee's body in the place of a call that ended a block. The type is that of a local that keeps the destination.
fn put_body(
    alloc: Global,
    body: &mut Body,
    block: u32,
    call: Call,
    callee: &FlatBody,
    kept: TyId,
) -> Result<(), OutOfMemory>
    requires block { block < length body.old.blocks }
    requires few_blocks { length body.old.blocks < 2 ^ 30 }
    requires few_locals { length body.old.locals < 2 ^ 30 }
    requires few_more { length callee.now.locals < 2 ^ 30 }
    requires few_args { length call.args < 2 ^ 30 }
    ensures { OnOk result (body.new ≡ bare_with_call body.old block call callee.now kept) }
{
    let behind = Behind {
        locals: body.locals.len() as u32,
        blocks: body.blocks.len() as u32,
    };
    let local = behind.locals + callee.locals().len() as u32;
    let next = call.next;
    push_locals(&mut body.locals, callee.locals(), &call.dest, kept)?;
    let dest = enter_at(
        alloc,
        body.blocks.as_mut_slice(),
        block,
        behind,
        local,
        call,
    )?;
    copy_blocks(alloc, &mut body.blocks, callee, behind, &dest, next)
}

/// The type of a local that keeps a call's destination: a reference to the callee's result.
fn kept_ty(program: &Program, callee: &FlatBody) -> TyId
    requires { Inlinable program.now callee.now }
    ensures stands { (id : TyId) × (slice_get callee.now.locals 0 ≡ Some id) × (at_id (trees_of program.now.types) result ≡ ref_mut (at_id (trees_of program.now.types) id)) }
    ensures in_table { result.0 < length program.now.types }
{
    program.ref_mut(callee.locals()[0])
}

/// The same for the blocks of a body.
fn take_call_in(body: &mut Body, block: u32) -> Option<Call>
    requires { block < length body.old.blocks }
    ensures { MatchOption result (NoCallAt body.old.blocks block) (λ call. (body.new ≡ record body.old { blocks = set_by without_call body.old.blocks block }) × IsCallAt body.old.blocks block call) }
{
    take_call_at(body.blocks.as_mut_slice(), block)
}

/// Replaces the call that ends a block by the callee's body.
pub(crate) fn replace(
    alloc: Global,
    program: &Program,
    body: &mut Body,
    block: u32,
    callee: &FlatBody,
) -> Result<(), OutOfMemory>
    requires inlinable { Inlinable program.now callee.now }
    requires block { block < length body.old.blocks }
    requires few_blocks { length body.old.blocks + length callee.now.blocks < 2 ^ 30 }
    requires few_locals { length body.old.locals + length callee.now.locals < 2 ^ 30 }
    requires few_args { (call : Call) → IsCallAt body.old.blocks block call → length call.args < 2 ^ 30 }
    ensures body { OnOk result ((k : SomeBlock) (p : SomePlace) (g : Callee) (os : ListOf SomeOperand) (next : ℕ) → slice_get body.old.blocks block ≡ Some k → k.term ≡ SomeTerm.Call p g os next
        → body_of (trees_of program.now.types) body.new ≡ with_call (body_of (trees_of program.now.types) body.old) block (map (stmt_of (trees_of program.now.types)) k.stmts) p os next (body_of (trees_of program.now.types) callee.now)) }
    ensures in_table { OnOk result ((call : Call) → IsCallAt body.old.blocks block call → BodyInTable program.now.types body.old → BodyInTable program.now.types body.new) }
{
    let Some(call) = take_call_in(body, block) else {
        return Ok(());
    };
    let kept = kept_ty(program, callee);
    put_body(alloc, body, block, call, callee, kept)
}
