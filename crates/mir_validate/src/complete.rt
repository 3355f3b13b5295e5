ghost use Rattle.std.specs.Prelude.{◌≡◌, ℕ, ◌+◌, ◌*◌, ◌-◌, ◌<◌, ◌≤◌, ◌^◌, [], IsTrue, Some, IfOk, OnOk, length, slice_get};
ghost use Rattle.mir_syntax.specs.Table.{ids_below};
ghost use Rattle.mir_syntax.specs.declared.types.Ty.TheVariants as ty;
ghost use Rattle.mir_syntax.specs.declared.types.ScalarTy.TheVariants as scalar_ty;
ghost use Rattle.mir_syntax.specs.declared.types.IntTy.TheVariants as int_ty;
ghost use Rattle.mir_validate.specs.Complete.{Grown, Has, mutable};

use mir_syntax::{IntTy, List, OutOfMemory, Program, ScalarTy, Ty, TyId};
use std::alloc::Global;

fn add(program: &mut Program, ty: Ty) -> Result<(), OutOfMemory>
    requires made { IsTrue (ids_below (length program.old.types) ty) }
    requires room { length program.old.types < 2 ^ 32 - 1 }
    ensures grown { Grown program.old program.new }
    ensures few { length program.new.types ≤ length program.old.types + 1 }
    ensures has { OnOk result (Has program.new.types ty) }
{
    program.intern(ty)?;
    Ok(())
}

fn add_plain(alloc: Global, program: &mut Program) -> Result<(), OutOfMemory>
    requires room { length program.old.types < 2 ^ 32 - 4 }
    ensures grown { Grown program.old program.new }
    ensures few { length program.new.types ≤ length program.old.types + 3 }
    ensures bool { OnOk result (Has program.new.types (ty.Scalar scalar_ty.Bool)) }
    ensures isize { OnOk result (Has program.new.types (ty.Scalar (scalar_ty.Int int_ty.Isize))) }
    ensures unit { OnOk result (Has program.new.types (ty.Tuple [])) }
{
    add(program, Ty::Scalar(ScalarTy::Bool))?;
    add(program, Ty::Scalar(ScalarTy::Int(IntTy::Isize)))?;
    add(program, Ty::Tuple(List::new(alloc)))?;
    Ok(())
}

fn add_references(program: &mut Program) -> Result<(), OutOfMemory>
    requires room { length program.old.types < 2 ^ 31 - 1 }
    ensures grown { Grown program.old program.new }
    ensures few { length program.new.types ≤ 2 * length program.old.types }
    ensures has { OnOk result ((k : ℕ) → k < length program.old.types → Has program.new.types (mutable k)) }
{
    for at in 0..program.types() {
        add(program, Ty::RefMut(TyId(at)))?;
    }
    Ok(())
}

/// Puts `bool`, `isize`, `()` and `&mut` of each type into the table.
///
/// # Errors
///
/// `OutOfMemory`.
pub fn complete_types(alloc: Global, program: &mut Program) -> Result<(), OutOfMemory>
    requires room { length program.old.types < 2 ^ 30 }
    ensures grown { Grown program.old program.new }
    ensures few { length program.new.types ≤ 2 * length program.old.types + 6 }
    ensures bool { OnOk result (Has program.new.types (ty.Scalar scalar_ty.Bool)) }
    ensures isize { OnOk result (Has program.new.types (ty.Scalar (scalar_ty.Int int_ty.Isize))) }
    ensures unit { OnOk result (Has program.new.types (ty.Tuple [])) }
    ensures references { OnOk result ((k : ℕ) → k < length program.old.types → Has program.new.types (mutable k)) }
{
    add_plain(alloc, program)?;
    add_references(program)?;
    Ok(())
}
