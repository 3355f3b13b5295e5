ghost use Rattle.std.specs.Prelude.{◌≡◌, ◌+◌, ◌-◌, ◌^◌, ◌<◌, ◌≤◌, IsTrue, length, slice_get, Some, IfOk, OnOk, OnErr};
ghost use Rattle.mir_syntax.specs.declared.types.TyId.{TyId};
ghost use Rattle.mir_syntax.specs.Tree.{at_id, trees_of, node};
ghost use Rattle.mir_syntax.specs.Table.{ids_below, Grows};
ghost use Rattle.mir_syntax.specs.Ids.{IdsInTable};
ghost use Rattle.mir_syntax.specs.Crate.{crate_of};

use crate::types::{Ty, TyId};
use crate::{OutOfMemory, Program};

impl Program {
    /// The ids below it are in the table.
    pub fn types(&self) -> u32
        ensures { result ≡ length self.now.types }
    {
        self.types.as_slice().len() as u32
    }

    /// The type that an id stands for, made of ids that come before it.
    pub fn ty(&self, id: TyId) -> &Ty
        requires { id.0 < length self.now.types }
        ensures found { slice_get self.now.types id.0 ≡ Some result.now }
        ensures made { IsTrue (ids_below id.0 result.now) }
        // What the id stands for is made of what theirs do.
        ensures stands { at_id (trees_of self.now.types) id ≡ node (trees_of self.now.types) result.now }
    {
        &self.types.as_slice()[id.0 as usize]
    }

    /// The id of a type. Equal types have one id, found in expected constant time; a new one comes at the end of the table.
    /// Where there is no memory, the type is spent and the program is as it was.
    ///
    /// # Errors
    ///
    /// `OutOfMemory`.
    pub fn intern(&mut self, ty: Ty) -> Result<TyId, OutOfMemory>
        requires made { IsTrue (ids_below (length self.old.types) ty) }
        requires room { length self.old.types < 2 ^ 32 - 1 }
        ensures found { IfOk result (λ id. slice_get self.new.types id.0 ≡ Some ty) }
        ensures types { OnOk result (Grows self.old.types self.new.types ty) }
        ensures defs { self.new.defs ≡ self.old.defs }
        ensures outsides { self.new.outsides ≡ self.old.outsides }
        ensures functions { self.new.functions ≡ self.old.functions }
        ensures err { OnErr result (self.new.types ≡ self.old.types) }
        // The id stands for the type that was handed in.
        ensures stands { IfOk result (λ id. at_id (trees_of self.new.types) id ≡ node (trees_of self.old.types) ty) }
        // Earlier ids stand for what they stood for.
        ensures kept { (id : TyId) → id.0 < length self.old.types → at_id (trees_of self.new.types) id ≡ at_id (trees_of self.old.types) id }
        ensures rises { (length self.old.types ≤ length self.new.types) × (length self.new.types ≤ length self.old.types + 1) }
        ensures within { IfOk result (λ id. id.0 < length self.new.types) }
        ensures same_crate { IdsInTable self.old → crate_of self.new ≡ crate_of self.old }
        ensures in_table { IdsInTable self.old → IdsInTable self.new }
    {
        Ok(TyId(self.types.place(ty)?))
    }
}
