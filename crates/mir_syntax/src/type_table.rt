ghost use Rattle.std.specs.Prelude.{◌≡◌, ℕ, ◌⊎◌, [], ◌+◌, ◌-◌, ◌^◌, ◌<◌, length, slice_get, option_copied, Some, IfOk, MatchOption, OnOk, OnErr};
ghost use Rattle.mir_syntax.specs.Table.{Grows};

use crate::type_index::TypeIndex;
use crate::types::Ty;
use crate::{List, OutOfMemory};
use std::alloc::Global;
use std::marker::Model;

/// A list of types, and what finds one of them without a walk over the list.
#[derive(Drop)]
pub struct TypeTable {
    types: List<Ty>,
    index: TypeIndex,
}

impl Model for TypeTable {
    ghost use Rattle.std.specs.Prelude.{List};
    ghost use Rattle.mir_syntax.specs.declared.types.Ty.{Ty};
    ghost use Rattle.mir_syntax.specs.TypeIndex.{IsIndex};

    ghost Value = { List Ty };

    ghost view = { λ t. t.types };

    ghost invariant = { λ t. IsIndex t.types t.index.heads.items t.index.next.items };
}

impl TypeTable {
    /// A table without types.
    pub fn new(alloc: Global) -> TypeTable
        ensures { result ≡ [] }
    {
        TypeTable {
            types: List::new(alloc),
            index: TypeIndex::new(alloc),
        }
    }

    /// All types, in the order in which they came.
    pub fn as_slice(&self) -> &[Ty]
        ensures { result.now ≡ self.now }
    {
        self.types.as_slice()
    }

    /// The type at a place, if there is one.
    pub fn get(&self, index: usize) -> Option<&Ty>
        ensures { option_copied result ≡ slice_get self.now index }
    {
        self.types.get(index)
    }

    /// The place of the type.
    pub fn find(&self, ty: &Ty) -> Option<u32>
        requires { length self.now < 2 ^ 32 }
        ensures { MatchOption result
            ((k : ℕ) → slice_get self.now k ≡ Some ty.now → ⊥)
            (λ at. slice_get self.now at ≡ Some ty.now) }
    {
        self.index.find(self.types.as_slice(), ty)
    }

    /// The place of the type, which is put at the end where it stood nowhere.
    ///
    /// # Errors
    ///
    /// `OutOfMemory`.
    pub fn place(&mut self, ty: Ty) -> Result<u32, OutOfMemory>
        requires { length self.old < 2 ^ 32 - 1 }
        ensures found { IfOk result (λ at. slice_get self.new at ≡ Some ty) }
        ensures types { Grows self.old self.new ty }
        ensures once { OnOk result ((self.new ≡ self.old) ⊎ ((k : ℕ) → slice_get self.old k ≡ Some ty → ⊥)) }
        ensures err { OnErr result (self.new ≡ self.old) }
    {
        if let Some(at) = self.find(&ty) {
            return Ok(at);
        }
        let at = self.types.len();
        if self.index.is_full(at) {
            self.index = self.index.grown(self.types.as_slice())?;
        }
        self.types.push(ty)?;
        self.index.link(self.types.as_slice(), at as u32);
        Ok(at as u32)
    }
}
