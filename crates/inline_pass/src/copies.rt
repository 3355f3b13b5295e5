//! Copies of a callee's text, whose locals and blocks stand behind those of the caller.
ghost use Rattle.std.specs.Prelude.{◌≡◌, ◌+◌, ◌-◌, ◌^◌, ◌++◌, min, map, IfOk, OnOk};
ghost use Rattle.mir_syntax.specs.Parts.{retargeted_arm};
ghost use Rattle.trim_locals.specs.Trimmed.{renamed_place, renamed_operand, renamed_term};
ghost use Rattle.trim_locals.specs.Code.{bare_renamed_rvalue, bare_renamed_stmt};
ghost use Rattle.inline_pass.specs.Spliced.{whole_local};
ghost use Rattle.inline_pass.specs.Code.{shifted, bare_term, bare_result, bare_block};

use mir_syntax::{Arm, Block, Copied, List, Operand, OutOfMemory, Place, Rvalue, Stmt, Term};
use std::alloc::Global;

/// The place that is a local.
pub(crate) fn local_place(alloc: Global, local: u32) -> Place
    ensures { result ≡ whole_local local }
{
    Place {
        local,
        proj: List::new(alloc),
    }
}

/// How many locals and blocks the caller has, behind which those of the callee come.
#[derive(Clone, Copy, Debug, Drop)]
pub(crate) struct Behind {
    pub locals: u32,
    pub blocks: u32,
}

impl Behind {
    /// The number of a local of the callee. (Numbers of a body never get as far as the last one.)
    fn local(self, local: u32) -> u32
        ensures { result ≡ shifted self.locals local }
    {
        self.locals.saturating_add(local)
    }

    fn target(self, block: u32) -> u32
        ensures { result ≡ shifted self.blocks block }
    {
        self.blocks.saturating_add(block)
    }

    fn place(self, alloc: Global, place: &Place) -> Result<Place, OutOfMemory>
        ensures { IfOk result (λ copy. copy ≡ renamed_place (shifted self.locals) place.now) }
    {
        Ok(Place {
            local: self.local(place.local),
            proj: place.proj.copied(alloc)?,
        })
    }

    fn operand(self, alloc: Global, operand: &Operand) -> Result<Operand, OutOfMemory>
        ensures { IfOk result (λ copy. copy ≡ renamed_operand (shifted self.locals) operand.now) }
    {
        match operand {
            Operand::Copy(place) => Ok(Operand::Copy(self.place(alloc, place)?)),
            Operand::Move(place) => Ok(Operand::Move(self.place(alloc, place)?)),
            Operand::Const(value) => Ok(Operand::Const(*value)),
        }
    }

    fn operands(self, alloc: Global, operands: &[Operand]) -> Result<List<Operand>, OutOfMemory>
        ensures { IfOk result (λ copies. copies ≡ map (renamed_operand (shifted self.locals)) operands.now) }
    {
        let mut copies = List::with_capacity(alloc, operands.len())?;
        for operand in operands {
            copies.push(self.operand(alloc, operand)?)?;
        }
        Ok(copies)
    }

    fn rvalue(self, alloc: Global, rvalue: &Rvalue) -> Result<Rvalue, OutOfMemory>
        ensures { IfOk result (λ copy. copy ≡ bare_renamed_rvalue (shifted self.locals) rvalue.now) }
    {
        match rvalue {
            Rvalue::Use(a) => Ok(Rvalue::Use(self.operand(alloc, a)?)),
            Rvalue::Binary(op, a, b) => {
                Ok(Rvalue::Binary(*op, self.operand(alloc, a)?, self.operand(alloc, b)?))
            }
            Rvalue::Overflow(op, a, b) => {
                Ok(Rvalue::Overflow(*op, self.operand(alloc, a)?, self.operand(alloc, b)?))
            }
            Rvalue::Unary(op, a) => Ok(Rvalue::Unary(*op, self.operand(alloc, a)?)),
            Rvalue::Cast(a, ty) => Ok(Rvalue::Cast(self.operand(alloc, a)?, *ty)),
            Rvalue::Ref(place) => Ok(Rvalue::Ref(self.place(alloc, place)?)),
            Rvalue::RefMut(place) => Ok(Rvalue::RefMut(self.place(alloc, place)?)),
            Rvalue::Discriminant(place) => Ok(Rvalue::Discriminant(self.place(alloc, place)?)),
            Rvalue::Tuple(parts) => Ok(Rvalue::Tuple(self.operands(alloc, parts.as_slice())?)),
            Rvalue::Build(def, variant, parts) => {
                Ok(Rvalue::Build(*def, *variant, self.operands(alloc, parts.as_slice())?))
            }
        }
    }

    fn stmt(self, alloc: Global, stmt: &Stmt) -> Result<Stmt, OutOfMemory>
        ensures { IfOk result (λ copy. copy ≡ bare_renamed_stmt (shifted self.locals) stmt.now) }
    {
        match stmt {
            Stmt::Assign(place, rvalue) => {
                Ok(Stmt::Assign(self.place(alloc, place)?, self.rvalue(alloc, rvalue)?))
            }
            Stmt::StorageLive(local) => Ok(Stmt::StorageLive(self.local(*local))),
            Stmt::StorageDead(local) => Ok(Stmt::StorageDead(self.local(*local))),
            Stmt::SetDiscriminant(place, variant) => {
                Ok(Stmt::SetDiscriminant(self.place(alloc, place)?, *variant))
            }
        }
    }

    fn stmts(self, alloc: Global, stmts: &[Stmt]) -> Result<List<Stmt>, OutOfMemory>
        ensures { IfOk result (λ copies. copies ≡ map (bare_renamed_stmt (shifted self.locals)) stmts.now) }
    {
        let mut copies = List::with_capacity(alloc, stmts.len())?;
        for stmt in stmts {
            copies.push(self.stmt(alloc, stmt)?)?;
        }
        Ok(copies)
    }

    fn arms(self, alloc: Global, arms: &[Arm]) -> Result<List<Arm>, OutOfMemory>
        ensures { IfOk result (λ copies. copies ≡ map (retargeted_arm (shifted self.blocks)) arms.now) }
    {
        let mut copies = List::with_capacity(alloc, arms.len())?;
        for arm in arms {
            copies.push(Arm {
                value: arm.value,
                block: self.target(arm.block),
            })?;
        }
        Ok(copies)
    }

    /// The terminator; where it returns, the caller goes on at a block of its own.
    fn term(self, alloc: Global, term: &Term, next: u32) -> Result<Term, OutOfMemory>
        ensures { IfOk result (λ copy. copy ≡ bare_term self.locals self.blocks next term.now) }
    {
        match term {
            Term::Goto(block) => Ok(Term::Goto(self.target(*block))),
            Term::Switch(operand, arms, other) => {
                let operand = self.operand(alloc, operand)?;
                let arms = self.arms(alloc, arms.as_slice())?;
                Ok(Term::Switch(operand, arms, self.target(*other)))
            }
            Term::Return => Ok(Term::Goto(next)),
            Term::Unreachable => Ok(Term::Unreachable),
            Term::Drop(place, block) => {
                Ok(Term::Drop(self.place(alloc, place)?, self.target(*block)))
            }
            Term::Call(place, callee, args, block) => {
                let place = self.place(alloc, place)?;
                let args = self.operands(alloc, args.as_slice())?;
                Ok(Term::Call(place, *callee, args, self.target(*block)))
            }
            Term::Assert(operand, expected, text, values, block) => {
                let operand = self.operand(alloc, operand)?;
                let values = self.operands(alloc, values.as_slice())?;
                let text = text.copied(alloc)?;
                Ok(Term::Assert(operand, *expected, text, values, self.target(*block)))
            }
        }
    }

    /// Where the callee returns, its result is moved to the call's destination.
    fn put_result(
        self,
        alloc: Global,
        stmts: &mut List<Stmt>,
        term: &Term,
        dest: &Place,
    ) -> Result<(), OutOfMemory>
        ensures { OnOk result (stmts.new ≡ stmts.old ++ bare_result self.locals dest.now term.now) }
    {
        if let Term::Return = term {
            let result = Operand::Move(local_place(alloc, self.locals));
            stmts.push(Stmt::Assign(dest.copied(alloc)?, Rvalue::Use(result)))?;
        }
        Ok(())
    }

    /// The copy of a block of these statements and this terminator, given the destination of the call and the block to which it returns.
    ///
    /// # Errors
    ///
    /// `OutOfMemory`.
    pub fn block(
        self,
        alloc: Global,
        stmts: &[Stmt],
        term: &Term,
        dest: &Place,
        next: u32,
    ) -> Result<Block, OutOfMemory>
        ensures { IfOk result (λ copy. copy ≡ bare_block self.locals self.blocks dest.now next (record { stmts = stmts.now; term = term.now })) }
    {
        let mut copies = self.stmts(alloc, stmts)?;
        self.put_result(alloc, &mut copies, term, dest)?;
        Ok(Block {
            stmts: copies,
            term: self.term(alloc, term, next)?,
        })
    }
}
