ghost use Rattle.std.specs.Prelude.{◌≡◌, IfOk};

use crate::body::{Arm, Block, Body, Callee, Const, Operand, Place, Proj, Rvalue, Stmt, Term};
use crate::types::TyId;
use crate::{List, OutOfMemory};
use std::alloc::Global;

/// What can be copied into memory of its own.
pub trait Copied: Drop {
    /// An equal value.
    fn copied(&self, alloc: Global) -> Result<Self, OutOfMemory>
        ensures { IfOk result (λ copy. copy ≡ self.now) };
}

pub(crate) fn copy_all<T: Copied>(alloc: Global, items: &[T]) -> Result<List<T>, OutOfMemory>
    ensures { IfOk result (λ copy. copy ≡ items.now) }
{
    let mut copy = List::with_capacity(alloc, items.len())?;
    for item in items {
        copy.push(item.copied(alloc)?)?;
    }
    Ok(copy)
}

impl<T: Copied> Copied for List<T> {
    fn copied(&self, alloc: Global) -> Result<Self, OutOfMemory> {
        copy_all(alloc, self.as_slice())
    }
}

impl Copied for u8 {
    fn copied(&self, _alloc: Global) -> Result<Self, OutOfMemory> {
        Ok(*self)
    }
}

impl Copied for usize {
    fn copied(&self, _alloc: Global) -> Result<Self, OutOfMemory> {
        Ok(*self)
    }
}

impl Copied for TyId {
    fn copied(&self, _alloc: Global) -> Result<Self, OutOfMemory> {
        Ok(*self)
    }
}

impl Copied for Proj {
    fn copied(&self, _alloc: Global) -> Result<Self, OutOfMemory> {
        Ok(*self)
    }
}

impl Copied for Arm {
    fn copied(&self, _alloc: Global) -> Result<Self, OutOfMemory> {
        Ok(*self)
    }
}

impl Copied for Place {
    fn copied(&self, alloc: Global) -> Result<Self, OutOfMemory> {
        Ok(Place {
            local: self.local,
            proj: self.proj.copied(alloc)?,
        })
    }
}

impl Copied for Operand {
    fn copied(&self, alloc: Global) -> Result<Self, OutOfMemory> {
        match self {
            Operand::Copy(place) => Ok(Operand::Copy(place.copied(alloc)?)),
            Operand::Move(place) => Ok(Operand::Move(place.copied(alloc)?)),
            Operand::Const(value) => Ok(Operand::Const(*value)),
        }
    }
}

impl Copied for Rvalue {
    fn copied(&self, alloc: Global) -> Result<Self, OutOfMemory> {
        match self {
            Rvalue::Use(operand) => Ok(Rvalue::Use(operand.copied(alloc)?)),
            Rvalue::Binary(op, left, right) => Ok(Rvalue::Binary(
                *op,
                left.copied(alloc)?,
                right.copied(alloc)?,
            )),
            Rvalue::Overflow(op, left, right) => Ok(Rvalue::Overflow(
                *op,
                left.copied(alloc)?,
                right.copied(alloc)?,
            )),
            Rvalue::Unary(op, operand) => Ok(Rvalue::Unary(*op, operand.copied(alloc)?)),
            Rvalue::Cast(operand, ty) => Ok(Rvalue::Cast(operand.copied(alloc)?, *ty)),
            Rvalue::Ref(place) => Ok(Rvalue::Ref(place.copied(alloc)?)),
            Rvalue::RefMut(place) => Ok(Rvalue::RefMut(place.copied(alloc)?)),
            Rvalue::Discriminant(place) => Ok(Rvalue::Discriminant(place.copied(alloc)?)),
            Rvalue::Tuple(parts) => Ok(Rvalue::Tuple(parts.copied(alloc)?)),
            Rvalue::Build(def, variant, parts) => Ok(Rvalue::Build(
                *def,
                *variant,
                parts.copied(alloc)?,
            )),
        }
    }
}

impl Copied for Stmt {
    fn copied(&self, alloc: Global) -> Result<Self, OutOfMemory> {
        match self {
            Stmt::Assign(place, value) => Ok(Stmt::Assign(
                place.copied(alloc)?,
                value.copied(alloc)?,
            )),
            Stmt::StorageLive(local) => Ok(Stmt::StorageLive(*local)),
            Stmt::StorageDead(local) => Ok(Stmt::StorageDead(*local)),
            Stmt::SetDiscriminant(place, variant) => {
                Ok(Stmt::SetDiscriminant(place.copied(alloc)?, *variant))
            }
        }
    }
}

impl Copied for Term {
    fn copied(&self, alloc: Global) -> Result<Self, OutOfMemory> {
        match self {
            Term::Goto(block) => Ok(Term::Goto(*block)),
            Term::Switch(operand, arms, otherwise) => {
                Ok(Term::Switch(operand.copied(alloc)?, arms.copied(alloc)?, *otherwise))
            }
            Term::Return => Ok(Term::Return),
            Term::Unreachable => Ok(Term::Unreachable),
            Term::Drop(place, block) => Ok(Term::Drop(place.copied(alloc)?, *block)),
            Term::Call(place, callee, args, block) => {
                Ok(Term::Call(place.copied(alloc)?, *callee, args.copied(alloc)?, *block))
            }
            Term::Assert(operand, expected, text, values, block) => Ok(Term::Assert(
                operand.copied(alloc)?,
                *expected,
                text.copied(alloc)?,
                values.copied(alloc)?,
                *block,
            )),
        }
    }
}

impl Copied for Block {
    fn copied(&self, alloc: Global) -> Result<Self, OutOfMemory> {
        Ok(Block {
            stmts: self.stmts.copied(alloc)?,
            term: self.term.copied(alloc)?,
        })
    }
}

impl Body {
    /// An equal body.
    ///
    /// # Errors
    ///
    /// `OutOfMemory`.
    pub fn copy(&self, alloc: Global) -> Result<Body, OutOfMemory>
        ensures { IfOk result (λ copy. copy ≡ self.now) }
    {
        Ok(Body {
            args: self.args,
            locals: self.locals.copied(alloc)?,
            blocks: self.blocks.copied(alloc)?,
        })
    }
}
