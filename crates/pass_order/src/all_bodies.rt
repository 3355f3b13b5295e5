ghost use Rattle.std.specs.Prelude.{◌≡◌, ℕ, Some, length, slice_get, IfOk, OnOk};
ghost use Rattle.mir_syntax.specs.Crate.{crate_of};
ghost use Rattle.mir_syntax.specs.Drops.{KnowsDrops};
ghost use Rattle.mir_syntax.specs.Ids.{IdsInTable};
ghost use Rattle.mir_syntax.specs.declared.body.Function.{Function};
ghost use Rattle.pass_order.specs.Passes.{optimised as optimised_crate};
ghost use Rattle.pass_order.specs.Programs.{CanPass, PassesTo};

use crate::headers::header_functions;
use crate::one_body::after_passes;
use mir_syntax::{Body, Function, List, OutOfMemory, Program};
use mir_validate::Valid;
use std::alloc::Global;
use std::mem;

/// Takes the body of a function through the passes.
fn pass_function(
    alloc: Global,
    program: &Program,
    function: &mut Function,
) -> Result<(), OutOfMemory>
    requires knows { KnowsDrops program.now }
    requires ids { IdsInTable program.now }
    requires can_pass { CanPass program.now function.old.body }
    ensures { OnOk result (PassesTo program.now function.old function.new) }
{
    let hollow = Body {
        args: 0,
        locals: List::new(alloc),
        blocks: List::new(alloc),
    };
    let body = mem::replace(&mut function.body, hollow);
    function.body = after_passes(alloc, program, body)?;
    Ok(())
}

/// The functions with their bodies after the passes. Each fits a function of the program.
fn passed_functions(
    alloc: Global,
    program: &Program,
    functions: List<Function>,
) -> Result<List<Function>, OutOfMemory>
    requires knows { KnowsDrops program.now }
    requires ids { IdsInTable program.now }
    requires can_pass { (i : ℕ) (g : Function) → slice_get functions i ≡ Some g → CanPass program.now g.body }
    ensures count { IfOk result (λ list. length list ≡ length functions) }
    ensures each { IfOk result (λ list. (i : ℕ) (g g2 : Function) → slice_get functions i ≡ Some g → slice_get list i ≡ Some g2 → PassesTo program.now g g2) }
{
    let mut passed = functions.into_vec();
    for function in passed.iter_mut() {
        pass_function(alloc, program, function)?;
    }
    Ok(List::from_vec(passed))
}

/// A valid program with each body after the passes, in the order of the functions. Its drops stay known.
///
/// # Errors
///
/// `OutOfMemory`; the program is spent then.
pub fn optimised(alloc: Global, valid: Valid) -> Result<Program, OutOfMemory>
    ensures optimised { IfOk result (λ left. crate_of left ≡ optimised_crate (crate_of valid)) }
    ensures in_table { IfOk result (λ left. IdsInTable left) }
    ensures knows { IfOk result (λ left. KnowsDrops left) }
    ensures types { IfOk result (λ left. left.types ≡ valid.types) }
{
    let mut left = valid.into_program();
    let headers = header_functions(alloc, left.functions.as_slice())?;
    let functions = mem::replace(&mut left.functions, headers);
    left.functions = passed_functions(alloc, &left, functions)?;
    Ok(left)
}
