//! The syntax of a crate of MIR bodies: types, places, statements, blocks, and the `Program` that holds them over one table of types.
//!
//! Everything else stands on this crate. Contracts see a `Program` through `crate_of` (`specs/Crate.antt`), in which each id is replaced
//! by the type that it stands for (`specs/Tree.antt`), so the order of the table is no part of a program. The main contracts are
//! `Program::intern` and `Program::ty` (equal types have one id, and an id keeps its type), `Program::place_ty` (the type of a place,
//! by `specs/Shapes.antt`), `Program::needs_drop` and `destructor` (what validation found, `specs/Drops.antt`) and `Body::copy`
//! (an equal body); a `FlatBody` is a body in one table of statements (`specs/Flat.antt`). `specs/Parts.antt` says which operands, places and
//! targets statements and terminators write down.
#![tactic(auto)]

ghost use Rattle.std.specs.Prelude.{◌≡◌};

mod body;
mod copied;
mod drops;
mod flat_body;
mod intern;
mod lines;
mod list;
mod number;
mod paths;
mod place_ty;
mod program;
mod stage;
mod type_index;
mod type_table;
mod types;

pub use body::{
    Arm, BinOp, Block, Body, Callee, Const, Function, Inline, Operand, OverOp, Place, Proj, Rvalue,
    Stmt, Term, UnOp,
};
pub use copied::Copied;
pub use drops::DropFacts;
pub use flat_body::FlatBody;
pub use lines::{BlockLines, FnLines, Lines};
pub use list::List;
pub use number::Number;
pub use place_ty::field_at;
pub use program::Program;
pub use stage::Stage;
use std::alloc::{AllocError, AllocFailed};
pub use types::{Def, Field, FnId, Form, IntTy, OutId, Outside, ScalarTy, Ty, TyId, Variant};

/// Memory was asked for and not given.
#[derive(Clone, Copy, Debug, PartialEq, Eq, thiserror::Error)]
#[error("out of memory")]
pub struct OutOfMemory;

impl From<AllocError> for OutOfMemory {
    ghost from_gives = { λ _ e. e ≡ record {} };

    fn from(_error: AllocError) -> OutOfMemory {
        OutOfMemory
    }
}

impl<T: Drop> From<AllocFailed<T>> for OutOfMemory {
    ghost from_gives = { λ _ e. e ≡ record {} };

    fn from(_failed: AllocFailed<T>) -> OutOfMemory {
        OutOfMemory
    }
}

/// A name or a path, as its bytes.
pub type Name = List<u8>;
