ghost use Rattle.std.specs.Prelude.{◌≡◌, ◌<◌, [], ◌∷◌, ℕ, List, map, IfOk, IsTrue};
ghost use Rattle.mir_syntax.specs.Tree.{Tree, at_id};
ghost use Rattle.mir_syntax.specs.Crate.{block_of, body_of};
ghost use Rattle.mir_syntax.specs.Table.{all_below};
ghost use Rattle.mir_syntax.specs.Ids.{block_below, body_below};
ghost use Rattle.crate_gen.specs.Made.{whole, copied, number, number_ty, bool_ty, comparing, calling, returning, made_body};

use crate::choice::Choice;
use mir_syntax::{
    Arm, BinOp, Block, Body, Callee, Const, FnId, IntTy, List, Operand, OutOfMemory, Place, Rvalue,
    Stmt, Term, TyId,
};
use std::alloc::Global;

/// The types of a function's locals.
#[derive(Clone, Copy, Drop)]
pub(crate) struct Types {
    pub number: TyId,
    pub flag: TyId,
}

fn whole(alloc: Global, local: u32) -> Place
    ensures { result ≡ whole local }
{
    Place {
        local,
        proj: List::new(alloc),
    }
}

fn copied(alloc: Global, local: u32) -> Operand
    ensures { result ≡ copied local }
{
    Operand::Copy(whole(alloc, local))
}

fn number(value: u32) -> Operand
    ensures { result ≡ number value }
{
    Operand::Const(Const::Int(IntTy::U32, u128::from(value)))
}

/// The block that compares.
fn comparing(alloc: Global, choice: Choice) -> Result<Block, OutOfMemory>
    ensures made { IfOk result (λ block. (trees : List Tree) → block_of trees block ≡ comparing choice) }
    ensures ids { IfOk result (λ block. (n : ℕ) → IsTrue (block_below n block)) }
{
    let made = Rvalue::Binary(choice.op, copied(alloc, 1), copied(alloc, 3));
    let compared = Rvalue::Binary(BinOp::Lt, copied(alloc, 3), number(choice.bound));
    let mut stmts = List::with_capacity(alloc, 3)?;
    stmts.push(Stmt::Assign(whole(alloc, 3), Rvalue::Use(number(choice.value))))?;
    stmts.push(Stmt::Assign(whole(alloc, 4), made))?;
    stmts.push(Stmt::Assign(whole(alloc, 5), compared))?;
    let mut arms = List::with_capacity(alloc, 1)?;
    arms.push(Arm { value: 0, block: 2 })?;
    let term = Term::Switch(Operand::Move(whole(alloc, 5)), arms, 1);
    Ok(Block { stmts, term })
}

/// A block that calls a function with two locals.
fn calling(alloc: Global, function: u32, a: u32, b: u32) -> Result<Block, OutOfMemory>
    ensures made { IfOk result (λ block. (trees : List Tree) → block_of trees block ≡ calling function a b) }
    ensures ids { IfOk result (λ block. (n : ℕ) → IsTrue (block_below n block)) }
{
    let mut args = List::with_capacity(alloc, 2)?;
    args.push(copied(alloc, a))?;
    args.push(copied(alloc, b))?;
    let callee = Callee::Local(FnId(function));
    Ok(Block {
        stmts: List::new(alloc),
        term: Term::Call(whole(alloc, 0), callee, args, 3),
    })
}

fn returning(alloc: Global) -> Block
    ensures made { (trees : List Tree) → block_of trees result ≡ returning }
    ensures ids { (n : ℕ) → IsTrue (block_below n result) }
{
    Block {
        stmts: List::new(alloc),
        term: Term::Return,
    }
}

fn locals(alloc: Global, types: Types) -> Result<List<TyId>, OutOfMemory>
    ensures made { IfOk result (λ locals. (trees : List Tree) → at_id trees types.number ≡ number_ty → map (at_id trees) locals ≡ number_ty ∷ number_ty ∷ number_ty ∷ number_ty ∷ number_ty ∷ at_id trees types.flag ∷ []) }
    ensures ids { IfOk result (λ locals. (n : ℕ) → types.number.0 < n → types.flag.0 < n → IsTrue (all_below n locals)) }
{
    let Types { number, flag } = types;
    let mut locals = List::with_capacity(alloc, 6)?;
    locals.extend([number, number, number, number, number, flag].as_slice())?;
    Ok(locals)
}

/// The body of a function.
pub(crate) fn made_body(alloc: Global, types: Types, choice: Choice) -> Result<Body, OutOfMemory>
    ensures made { IfOk result (λ body. (trees : List Tree) → at_id trees types.number ≡ number_ty → at_id trees types.flag ≡ bool_ty → body_of trees body ≡ made_body choice) }
    ensures ids { IfOk result (λ body. (n : ℕ) → types.number.0 < n → types.flag.0 < n → IsTrue (body_below n body)) }
{
    let mut blocks = List::with_capacity(alloc, 4)?;
    blocks.push(comparing(alloc, choice)?)?;
    blocks.push(calling(alloc, choice.below, 4, 2)?)?;
    blocks.push(calling(alloc, choice.otherwise, 2, 4)?)?;
    blocks.push(returning(alloc))?;
    Ok(Body {
        args: 2,
        locals: locals(alloc, types)?,
        blocks,
    })
}
