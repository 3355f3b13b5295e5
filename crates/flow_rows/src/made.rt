ghost use Rattle.std.specs.Prelude.{◌≡◌, ◌<◌, ◌^◌, length, IfOk};
ghost use Rattle.mir_syntax.specs.Drops.{KnowsDrops};
ghost use Rattle.mir_syntax.specs.Ids.{IdsInTable};

use drop_tables::drop_facts;
use mir_syntax::{
    Arm, BinOp, Block, Body, Callee, Const, IntTy, List, Operand, OutId, OutOfMemory, Place,
    Program, Proj, Rvalue, ScalarTy, Stmt, Term, Ty, TyId,
};
use std::alloc::Global;

/// A program without items, and its one type, `u8`.
#[derive(Drop)]
pub struct Made {
    pub program: Program,
    pub byte: TyId,
}

/// A program without items, whose table has `u8`, and which knows that nothing needs drop.
///
/// # Errors
///
/// `OutOfMemory`.
pub fn program(alloc: Global) -> Result<Made, OutOfMemory>
    ensures knows { IfOk result (λ made. KnowsDrops made.program) }
    ensures ids { IfOk result (λ made. IdsInTable made.program) }
{
    let mut program = Program::new(alloc);
    let byte = program.intern(Ty::Scalar(ScalarTy::Int(IntTy::U8)))?;
    let drops = drop_facts(alloc, &program)?;
    program.keep_drops(drops);
    Ok(Made { program, byte })
}

/// A statement, by the numbers of its locals.
#[derive(Clone, Copy, Drop)]
pub enum Line {
    /// `_0 = copy _1`
    Copy(u32, u32),
    /// `_0 = copy (_1.2)`
    CopyPart(u32, u32, u32),
    /// `_0 = Sub(copy _1, copy _2)`
    Subtract(u32, u32, u32),
    /// `_0 = const 3_u8`
    Constant(u32),
    /// `_0 = &mut _1`
    Borrow(u32, u32),
    /// `_0 = &mut (*_1)`
    Reborrow(u32, u32),
    /// `(*_0) = const 3_u8`
    Store(u32),
}

/// How a block ends, by the numbers of locals and blocks.
#[derive(Clone, Copy, Drop)]
pub enum End {
    /// `goto -> bb0`
    Goto(u32),
    /// `switchInt(copy _0) -> [0: bb1, otherwise: bb2]`
    Choose(u32, u32, u32),
    /// `(_0.1) = ask() -> [return: bb2, ..]`
    CallInto(u32, u32, u32),
    /// `return`
    Return,
}

fn place(alloc: Global, local: u32) -> Place {
    Place {
        local,
        proj: List::new(alloc),
    }
}

fn projected(alloc: Global, local: u32, step: Proj) -> Result<Place, OutOfMemory> {
    let mut proj = List::new(alloc);
    proj.push(step)?;
    Ok(Place { local, proj })
}

fn copy(alloc: Global, local: u32) -> Operand {
    Operand::Copy(place(alloc, local))
}

fn three() -> Rvalue {
    Rvalue::Use(Operand::Const(Const::Int(IntTy::U8, 3)))
}

fn statement(alloc: Global, line: Line) -> Result<Stmt, OutOfMemory> {
    let (into, value) = match line {
        Line::Copy(into, from) => (place(alloc, into), Rvalue::Use(copy(alloc, from))),
        Line::CopyPart(into, from, field) => {
            let from = projected(alloc, from, Proj::Field(field))?;
            (place(alloc, into), Rvalue::Use(Operand::Copy(from)))
        }
        Line::Subtract(into, a, b) => (
            place(alloc, into),
            Rvalue::Binary(BinOp::Sub, copy(alloc, a), copy(alloc, b)),
        ),
        Line::Constant(into) => (place(alloc, into), three()),
        Line::Borrow(into, of) => (place(alloc, into), Rvalue::RefMut(place(alloc, of))),
        Line::Reborrow(into, of) => {
            let of = projected(alloc, of, Proj::Deref)?;
            (place(alloc, into), Rvalue::RefMut(of))
        }
        Line::Store(through) => (projected(alloc, through, Proj::Deref)?, three()),
    };
    Ok(Stmt::Assign(into, value))
}

fn terminator(alloc: Global, end: End) -> Result<Term, OutOfMemory> {
    match end {
        End::Goto(next) => Ok(Term::Goto(next)),
        End::Choose(on, block, other) => {
            let mut arms = List::new(alloc);
            arms.push(Arm { value: 0, block })?;
            Ok(Term::Switch(copy(alloc, on), arms, other))
        }
        End::CallInto(local, field, next) => Ok(Term::Call(
            projected(alloc, local, Proj::Field(field))?,
            Callee::Outside(OutId(0)),
            List::new(alloc),
            next,
        )),
        End::Return => Ok(Term::Return),
    }
}

/// A block of these statements and this end.
///
/// # Errors
///
/// `OutOfMemory`.
pub fn block(alloc: Global, lines: &[Line], end: End) -> Result<Block, OutOfMemory> {
    let mut stmts = List::new(alloc);
    for line in lines {
        stmts.push(statement(alloc, *line)?)?;
    }
    Ok(Block {
        stmts,
        term: terminator(alloc, end)?,
    })
}

/// A body of so many locals of a type, and of these blocks.
///
/// # Errors
///
/// `OutOfMemory`.
pub fn body(
    alloc: Global,
    ty: TyId,
    locals: u32,
    plan: &[(&[Line], End)],
) -> Result<Body, OutOfMemory> {
    let mut blocks = List::new(alloc);
    for (lines, end) in plan {
        blocks.push(block(alloc, lines, *end)?)?;
    }
    Ok(Body {
        args: 0,
        locals: like(alloc, ty, locals)?,
        blocks,
    })
}

/// So many blocks that each go to the next one, and a last one that returns a copy of the second local.
///
/// # Errors
///
/// `OutOfMemory`.
pub fn chain(alloc: Global, ty: TyId, count: u32) -> Result<Body, OutOfMemory> {
    let mut blocks = List::new(alloc);
    for next in 0..count {
        blocks.push(block(alloc, [].as_slice(), End::Goto(next.saturating_add(1)))?)?;
    }
    blocks.push(block(alloc, [Line::Copy(0, 1)].as_slice(), End::Return)?)?;
    Ok(Body {
        args: 0,
        locals: like(alloc, ty, 2)?,
        blocks,
    })
}

fn like(alloc: Global, ty: TyId, count: u32) -> Result<List<TyId>, OutOfMemory> {
    let mut types = List::new(alloc);
    for _ in 0..count {
        types.push(ty)?;
    }
    Ok(types)
}
