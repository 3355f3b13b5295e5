use mir_meaning::pointer::Pointer;
use mir_syntax::{FnId, List, TyId};

/// Where a value is written, and the type, if any, of which the old value may have no hole at a unit of drop.
#[derive(Drop)]
pub struct Dest {
    pub at: Pointer,
    pub guard: Option<TyId>,
}

/// A place of a type that a drop has still to visit.
#[derive(Drop)]
pub struct Visit {
    pub at: Pointer,
    pub ty: TyId,
}

/// A drop that has begun: its place, where it goes on, and the items that are left, the next one last.
#[derive(Drop)]
pub struct Dropping {
    pub place: Visit,
    pub target: u32,
    pub items: List<Visit>,
}

/// Where a frame stands.
#[derive(Drop)]
pub struct Control {
    pub function: FnId,
    pub frame: u64,
    pub block: u32,
    pub at: usize,
    pub dropping: Option<Dropping>,
    pub dest: Option<Dest>,
}
