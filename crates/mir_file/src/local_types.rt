ghost use Rattle.std.specs.Prelude.{◌≡◌, ◌<◌, [], map, length, IsTrue, IfOk, OnOk};
ghost use Rattle.std.specs.List.{list_all};
ghost use Rattle.mir_syntax.specs.Tree.{empty, at_id, trees_of};
ghost use Rattle.mir_syntax.specs.Table.{all_below};
ghost use Rattle.mir_text.specs.Naming.{locals_from};
ghost use Rattle.mir_resolve.specs.Types.{Grown};
ghost use Rattle.mir_bodies.specs.Locals.{declared_in};
ghost use Rattle.mir_file.specs.Declarations.{declared_below, ids_from};

use mir_bodies::Locals;
use mir_syntax::{List, OutOfMemory, Program, Ty, TyId};
use std::alloc::Global;

/// So many types a program may have: far more than a text of this size can name.
const MOST_TYPES: u32 = 1 << 30;
/// So many locals a function may have.
const MOST_LOCALS: usize = 1 << 30;

fn unit_type(alloc: Global, program: &mut Program) -> Result<TyId, OutOfMemory>
    ensures stands { IfOk result (λ id. at_id (trees_of program.new.types) id ≡ empty) }
    ensures inside { IfOk result (λ id. id.0 < length program.new.types) }
    ensures grown { OnOk result (Grown program.old program.new) }
{
    if program.types() >= MOST_TYPES {
        return Err(OutOfMemory);
    }
    let id = program.intern(Ty::Tuple(List::new(alloc)))?;
    Ok(id)
}

fn types_of(
    alloc: Global,
    locals: &Locals,
    unit: TyId,
    count: u32,
) -> Result<List<TyId>, OutOfMemory>
    ensures { IfOk result (λ ids. ids ≡ ids_from locals.now unit 0 count) }
{
    let mut ids = List::with_capacity(alloc, count as usize)?;
    for local in 0..count {
        ids.push(locals.get(local).unwrap_or(unit))?;
    }
    Ok(ids)
}

/// The types of the locals of a function from `_0` on, as many as it declares: that of the first declaration, and `()` where there is none.
///
/// # Errors
///
/// `OutOfMemory`.
pub fn local_types(
    alloc: Global,
    program: &mut Program,
    locals: &Locals,
) -> Result<List<TyId>, OutOfMemory>
    requires { IsTrue (list_all (declared_below (length program.old.types)) locals.now) }
    ensures types { IfOk result (λ ids. map (at_id (trees_of program.new.types)) ids ≡ locals_from (declared_in (trees_of program.new.types) locals.now) 0 (length locals.now)) }
    ensures inside { IfOk result (λ ids. IsTrue (all_below (length program.new.types) ids)) }
    ensures grown { OnOk result (Grown program.old program.new) }
{
    let unit = unit_type(alloc, program)?;
    let count = locals.as_slice().len();
    if count >= MOST_LOCALS {
        return Err(OutOfMemory);
    }
    let ids = types_of(alloc, locals, unit, count as u32)?;
    Ok(ids)
}
