ghost use Rattle.std.specs.Prelude.{◌≡◌, ℕ, ◌+◌, ◌*◌, ◌<◌, ◌≤◌, ◌^◌, [], IsTrue, IfOk, OnOk, length, option_map};
ghost use Rattle.mir_syntax.specs.declared.types.Ty.TheVariants as ty;
ghost use Rattle.mir_syntax.specs.declared.types.ScalarTy.TheVariants as scalar_ty;
ghost use Rattle.mir_syntax.specs.declared.types.IntTy.TheVariants as int_ty;
ghost use Rattle.mir_syntax.specs.Ids.{IdsInTable};
ghost use Rattle.mir_syntax.specs.Crate.{crate_of};
ghost use Rattle.mir_syntax.specs.Drops.{KnowsDrops};
ghost use Rattle.mir_rules.specs.Formed.{is_formed};
ghost use Rattle.mir_rules.specs.Faults.{lines_fit, first_rule};
ghost use Rattle.mir_validate.specs.Complete.{Grown, Has, mutable};
ghost use Rattle.mir_validate.specs.Walk.{place_of};

use crate::complete::complete_types;
use crate::fault::Broken;
use crate::rules::first_rule;
use drop_tables::{Circles, drop_facts};
use mir_syntax::{Lines, OutOfMemory, Program};
use std::alloc::Global;

/// Completes the table of types, keeps in the program what is known of its drops, and tells the rule that is answered: on the first line,
/// and there the one of least code. `None` exactly where the program breaks none.
///
/// # Errors
///
/// `OutOfMemory`.
pub fn judge(
    alloc: Global,
    program: &mut Program,
    lines: &Lines,
) -> Result<Option<Broken>, OutOfMemory>
    requires ids { IdsInTable program.old }
    requires formed { IsTrue (is_formed (crate_of program.old)) }
    requires fit { IsTrue (lines_fit lines.now (crate_of program.old)) }
    requires room { length program.old.types < 2 ^ 30 }
    requires few_defs { length program.old.defs < 2 ^ 30 }
    requires few_functions { length program.old.functions < 2 ^ 30 }
    ensures grown { Grown program.old program.new }
    ensures few { length program.new.types ≤ 2 * length program.old.types + 6 }
    ensures first { IfOk result (λ broken. option_map place_of broken ≡ first_rule lines.now (crate_of program.old)) }
    ensures drops { OnOk result (KnowsDrops program.new) }
    ensures bool { OnOk result (Has program.new.types (ty.Scalar scalar_ty.Bool)) }
    ensures isize { OnOk result (Has program.new.types (ty.Scalar (scalar_ty.Int int_ty.Isize))) }
    ensures unit { OnOk result (Has program.new.types (ty.Tuple [])) }
    ensures references { OnOk result ((k : ℕ) → k < length program.old.types → Has program.new.types (mutable k)) }
{
    complete_types(alloc, program)?;
    let drops = drop_facts(alloc, program)?;
    let circles = Circles::new(alloc, program)?;
    program.keep_drops(drops);
    let broken = first_rule(alloc, program, lines, &circles)?;
    Ok(broken)
}
