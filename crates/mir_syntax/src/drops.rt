ghost use Rattle.std.specs.Prelude.{◌≡◌, ◌<◌, map, length, option_map};
ghost use Rattle.mir_syntax.specs.Tree.{scalar, ref_mut, at_id, trees_of, Stands};
ghost use Rattle.mir_syntax.specs.declared.types.TyId.{TyId};
ghost use Rattle.mir_syntax.specs.Crate.{crate_of};
ghost use Rattle.mir_syntax.specs.Shapes.{shapes_of, needs_drop, destructor_of};
ghost use Rattle.mir_syntax.specs.Drops.{fn_number, own_destructor, KnowsDrops};

use crate::types::{FnId, ScalarTy, Ty, TyId};
use crate::{List, Program};

/// What a program keeps of its drops, so that nobody has to search for it.
#[derive(Debug, Drop)]
pub struct DropFacts {
    /// For each id of the table, whether its type needs drop.
    pub needs_drop: List<bool>,
    /// For each definition, the function that is its destructor.
    pub destructors: List<Option<FnId>>,
}

impl Program {
    /// Keeps what is known of the program's drops. Whoever validates a program finds it out and hands it in; it stays right as long as
    /// the definitions, the types and the functions' headers stay.
    pub fn keep_drops(&mut self, drops: DropFacts)
        requires needs { drops.needs_drop ≡ map (needs_drop (shapes_of (crate_of self.old))) (trees_of self.old.types) }
        requires destructors { map (option_map fn_number) drops.destructors ≡ map own_destructor (shapes_of (crate_of self.old)) }
        ensures knows { KnowsDrops self.new }
        ensures defs { self.new.defs ≡ self.old.defs }
        ensures outsides { self.new.outsides ≡ self.old.outsides }
        ensures functions { self.new.functions ≡ self.old.functions }
        ensures types { self.new.types ≡ self.old.types }
    {
        self.drops = drops;
    }

    /// Whether a value of the type is dropped by more than forgetting it: the type has a destructor or holds a type that needs drop by
    /// value (Rust Reference, destructors).
    pub fn needs_drop(&self, id: TyId) -> bool
        requires knows { KnowsDrops self.now }
        requires in_table { id.0 < length self.now.types }
        ensures { result ≡ needs_drop (shapes_of (crate_of self.now)) (at_id (trees_of self.now.types) id) }
    {
        self.drops.needs_drop.as_slice()[id.0 as usize]
    }

    /// The function that is the destructor of the type. `None` exactly where it has none.
    pub fn destructor(&self, id: TyId) -> Option<FnId>
        requires knows { KnowsDrops self.now }
        requires in_table { id.0 < length self.now.types }
        ensures { option_map fn_number result ≡ destructor_of (shapes_of (crate_of self.now)) (at_id (trees_of self.now.types) id) }
    {
        match self.ty(id) {
            Ty::Named(def) => *self.drops.destructors.get(*def as usize)?,
            _ => None,
        }
    }

    /// The id of `&mut` of the type.
    pub fn ref_mut(&self, id: TyId) -> TyId
        requires in_table { id.0 < length self.now.types }
        requires there { (there : TyId) × Stands self.now.types there (ref_mut (at_id (trees_of self.now.types) id)) }
        ensures stands { at_id (trees_of self.now.types) result ≡ ref_mut (at_id (trees_of self.now.types) id) }
        ensures in_table { result.0 < length self.now.types }
    {
        match self.types.find(&Ty::RefMut(id)) {
            Some(at) => TyId(at),
            None => id,
        }
    }

    /// The id of a scalar type.
    pub fn scalar_id(&self, ty: ScalarTy) -> TyId
        requires { (there : TyId) × Stands self.now.types there (scalar ty) }
        ensures stands { at_id (trees_of self.now.types) result ≡ scalar ty }
        ensures in_table { result.0 < length self.now.types }
    {
        match self.types.find(&Ty::Scalar(ty)) {
            Some(at) => TyId(at),
            None => TyId(0),
        }
    }
}
