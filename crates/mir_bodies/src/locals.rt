ghost use Rattle.std.specs.Prelude.{◌≡◌, [], ◌∷◌, ◌++◌, length, IfOk};
ghost use Rattle.mir_bodies.specs.Locals.{first_ty};

use mir_syntax::{List, OutOfMemory, TyId};
use std::alloc::Global;
use std::collections::HashMap;
use std::marker::Model;

/// The locals that a function declares, each with the id of its type, in order. One may be declared twice: it has the type of its first
/// declaration.
#[derive(Drop)]
pub struct Locals {
    declared: List<(u32, TyId)>,
    firsts: HashMap<u32, TyId>,
}

impl Model for Locals {
    ghost use Rattle.std.specs.Prelude.{ℕ, List};
    ghost use Rattle.mir_syntax.specs.declared.types.TyId.{TyId};
    ghost use Rattle.mir_bodies.specs.Locals.{AreFirsts};

    ghost Value = { List (ℕ × TyId) };

    ghost view = { λ l. l.declared };

    ghost invariant = { λ l. AreFirsts l.declared l.firsts };
}

impl Locals {
    /// No locals.
    pub fn new(alloc: Global) -> Locals
        ensures { result ≡ [] }
    {
        Locals {
            declared: List::new(alloc),
            firsts: HashMap::new(alloc),
        }
    }

    /// The type of a local, in expected constant time. `None` exactly where it isn't declared.
    pub fn get(&self, local: u32) -> Option<TyId>
        ensures { result ≡ first_ty self.now local }
    {
        self.firsts.get(&local).copied()
    }

    /// The declarations, in order.
    pub fn as_slice(&self) -> &[(u32, TyId)]
        ensures { result.now ≡ self.now }
    {
        self.declared.as_slice()
    }

    /// Puts a declaration at the end. Where there is no memory the locals are spent.
    ///
    /// # Errors
    ///
    /// `OutOfMemory`.
    pub fn with(self, local: u32, ty: TyId) -> Result<Locals, OutOfMemory>
        ensures { IfOk result (λ locals. locals ≡ self ++ (local, ty) ∷ []) }
    {
        let Locals {
            mut declared,
            mut firsts,
        } = self;
        declared.push((local, ty))?;
        if !firsts.contains_key(&local) {
            firsts.insert(local, ty)?;
        }
        Ok(Locals { declared, firsts })
    }
}
