ghost use Rattle.std.specs.Prelude.{◌≡◌, ◌<◌, ◌^◌, IsTrue, IfOk, map, length, replicate, is_some, option_map};
ghost use Rattle.mir_syntax.specs.Tree.{trees_of};
ghost use Rattle.mir_syntax.specs.Ids.{function_below, IdsInTable};
ghost use Rattle.mir_syntax.specs.Crate.{crate_of, function_of};
ghost use Rattle.mir_syntax.specs.Shapes.{Shape, shapes_of};
ghost use Rattle.mir_syntax.specs.Drops.{fn_number, own_destructor};
ghost use Rattle.drop_tables.specs.Marks.{noted, drop_of, has_one};

use crate::header::dropped_by;
use mir_syntax::{FnId, Function, List, OutOfMemory, Program};
use std::alloc::Global;

/// The definition that a function is a destructor of.
pub fn drop_of(program: &Program, function: &Function) -> Option<u32>
    requires below { IsTrue (function_below (length program.now.types) function.now) }
    ensures { result ≡ drop_of (function_of (trees_of program.now.types) function.now) }
{
    if function.is_drop {
        dropped_by(program, &function.body)
    } else {
        None
    }
}

fn note(found: &mut Vec<Option<FnId>>, def: Option<u32>, function: FnId)
    ensures { found.new.items ≡ noted found.old.items def function }
{
    if let Some(def) = def {
        if (def as usize) < found.len() {
            found[def as usize] = Some(function);
        }
    }
}

/// For each definition the function that is its destructor: the first with the header of one.
///
/// # Errors
///
/// `OutOfMemory`.
pub fn destructors(alloc: Global, program: &Program) -> Result<List<Option<FnId>>, OutOfMemory>
    requires ids { IdsInTable program.now }
    requires few { length program.now.functions < 2 ^ 32 }
    ensures { IfOk result (λ found. map (option_map fn_number) found ≡ map own_destructor (shapes_of (crate_of program.now))) }
{
    let mut found = vec![in alloc; None; program.defs.len()]?;
    let functions = program.functions.as_slice();
    let mut left = functions.len();
    'functions: while left > 0 {
        left -= 1;
        let def = drop_of(program, &functions[left]);
        note(&mut found, def, FnId(left as u32));
    }
    Ok(List::from_vec(found))
}

/// Whether there is a destructor, one by one.
///
/// # Errors
///
/// `OutOfMemory`.
pub fn have_destructor(
    alloc: Global,
    destructors: &[Option<FnId>],
) -> Result<List<bool>, OutOfMemory>
    ensures { IfOk result (λ have. have ≡ map has_one destructors.now) }
{
    let mut have = List::with_capacity(alloc, destructors.len())?;
    for destructor in destructors {
        have.push(destructor.is_some())?;
    }
    Ok(have)
}

/// So many equal marks.
///
/// # Errors
///
/// `OutOfMemory`.
pub fn marks_of(alloc: Global, count: usize, mark: bool) -> Result<List<bool>, OutOfMemory>
    ensures { IfOk result (λ marks. marks ≡ replicate count mark) }
{
    Ok(List::from_vec(vec![in alloc; mark; count]?))
}
