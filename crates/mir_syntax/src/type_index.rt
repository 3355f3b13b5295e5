ghost use Rattle.std.specs.Prelude.{◌≡◌, ℕ, ◌+◌, ◌-◌, ◌^◌, ◌<◌, ◌≤◌, ◌↔◌, [], map, take, fold, length, slice_get, slice_index_or, IsTrue, Some, IfOk, MatchOption};
ghost use Rattle.mir_syntax.specs.TypeIndex.{IsIndex, scalar_number, with_number, number_of, type_hash, slot_of};

use crate::OutOfMemory;
use crate::types::{ScalarTy, Ty, TyId};
use std::alloc::Global;
use std::hash::{FoldHasher, Hasher};

/// Chains of the types with equal hashes. A link is one more than a place in the table, and 0 at a chain's end.
#[derive(Drop)]
pub struct TypeIndex {
    heads: Vec<u32>,
    next: Vec<u32>,
}

fn same_ids(a: &[TyId], b: &[TyId]) -> bool
    ensures { IsTrue result ↔ (a.now ≡ b.now) }
{
    a == b
}

fn same_type(a: &Ty, b: &Ty) -> bool
    ensures { IsTrue result ↔ (a.now ≡ b.now) }
{
    match (a, b) {
        (Ty::Scalar(x), Ty::Scalar(y)) => x == y,
        (Ty::Tuple(x), Ty::Tuple(y)) => same_ids(x.as_slice(), y.as_slice()),
        (Ty::Ref(x), Ty::Ref(y)) => x == y,
        (Ty::RefMut(x), Ty::RefMut(y)) => x == y,
        (Ty::Named(x), Ty::Named(y)) => x == y,
        _ => false,
    }
}

fn scalar_code(ty: ScalarTy) -> u32
    ensures { result ≡ scalar_number ty }
{
    match ty {
        ScalarTy::Int(int) => int as u32,
        ScalarTy::Bool => 12,
    }
}

fn hash_ids(hasher: &mut FoldHasher, ids: &[TyId])
    ensures { hasher.new ≡ fold with_number hasher.old (map number_of ids.now) }
{
    for id in ids {
        hasher.write_u32(id.0);
    }
}

#[tactic(auto, unfolding(crate::specs::TypeIndex::type_hash))]
fn hash_of(ty: &Ty) -> u64
    ensures { result ≡ type_hash ty.now }
{
    let mut hasher = FoldHasher::default();
    match ty {
        Ty::Scalar(scalar) => {
            hasher.write_u32(0);
            hasher.write_u32(scalar_code(*scalar));
        }
        Ty::Tuple(ids) => {
            hasher.write_u32(1);
            hash_ids(&mut hasher, ids.as_slice());
        }
        Ty::Ref(id) => {
            hasher.write_u32(2);
            hasher.write_u32(id.0);
        }
        Ty::RefMut(id) => {
            hasher.write_u32(3);
            hasher.write_u32(id.0);
        }
        Ty::Named(def) => {
            hasher.write_u32(4);
            hasher.write_u32(*def);
        }
    }
    hasher.finish()
}

fn slot(ty: &Ty, slots: usize) -> usize
    requires { 0 < slots }
    ensures { result ≡ slot_of slots ty.now }
{
    (hash_of(ty) % slots as u64) as usize
}

impl TypeIndex {
    /// The index of a table without types.
    pub fn new(alloc: Global) -> TypeIndex
        ensures { IsIndex [] result.heads.items result.next.items }
    {
        TypeIndex {
            heads: Vec::new(alloc),
            next: Vec::new(alloc),
        }
    }

    /// The place of the type in the table that this is the index of.
    pub fn find(&self, types: &[Ty], ty: &Ty) -> Option<u32>
        requires index { IsIndex types.now self.now.heads.items self.now.next.items }
        requires small { length types.now < 2 ^ 32 }
        ensures { MatchOption result
            ((k : ℕ) → slice_get types.now k ≡ Some ty.now → ⊥)
            (λ k. slice_get types.now k ≡ Some ty.now) }
    {
        if self.heads.len() == 0 {
            return None;
        }
        let mut link = self.heads[slot(ty, self.heads.len())];
        while link > 0 {
            let at = link - 1;
            if same_type(&types[at as usize], ty) {
                return Some(at);
            }
            link = self.next[at as usize];
        }
        None
    }

    /// Whether there are no more chains than `len`, so that the index has to grow before a type joins.
    pub fn is_full(&self, len: usize) -> bool
        ensures { IsTrue result ↔ (length self.now.heads.items ≤ len) }
    {
        self.heads.len() <= len
    }

    /// Puts the type at this place into the index of those before it.
    pub fn link(&mut self, types: &[Ty], at: u32)
        requires within { at < length types.now }
        requires room { at < length self.old.heads.items }
        requires small { at < 2 ^ 32 - 1 }
        requires index { IsIndex (take at types.now) self.old.heads.items self.old.next.items }
        ensures index { IsIndex (take (at + 1) types.now) self.new.heads.items self.new.next.items }
        ensures room { length self.new.heads.items ≡ length self.old.heads.items }
    {
        let slot = slot(&types[at as usize], self.heads.len());
        self.next[at as usize] = self.heads[slot];
        self.heads[slot] = at + 1;
    }

    /// An index of the same types with room for twice as many.
    ///
    /// # Errors
    ///
    /// `OutOfMemory`.
    pub fn grown(&self, types: &[Ty]) -> Result<TypeIndex, OutOfMemory>
        requires small { length types.now < 2 ^ 32 - 1 }
        ensures index { IfOk result (λ index. IsIndex types.now index.heads.items index.next.items) }
        ensures room { IfOk result (λ index. length types.now < length index.heads.items) }
    {
        let alloc = *self.heads.allocator();
        let slots = (2 * types.len()).max(16);
        let mut index = TypeIndex {
            heads: vec![in alloc; 0; slots]?,
            next: vec![in alloc; 0; slots]?,
        };
        for at in 0..types.len() {
            index.link(types, at as u32);
        }
        Ok(index)
    }
}
