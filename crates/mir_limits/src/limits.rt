ghost use Rattle.std.specs.Prelude.{◌≡◌, ◌<◌, ◌^◌, IsTrue, IfOk, map, length, option_map};
ghost use Rattle.mir_syntax.specs.Ids.{IdsInTable};
ghost use Rattle.mir_syntax.specs.Crate.{Crate, crate_of};
ghost use Rattle.mir_syntax.specs.Drops.{KnowsDrops};
ghost use Rattle.mir_text.specs.NameFaults.{first_fault};
ghost use Rattle.mir_rules.specs.Formed.{is_formed};
ghost use Rattle.mir_rules.specs.Faults.{lines_fit, by_code, first_limit};
ghost use Rattle.mir_rules.specs.Limits.{most_functions, functions_passed};
ghost use Rattle.mir_limits.specs.Answer.{at_code, answer_of};

use crate::passed::{Passed, at_code};
use crate::search::Search;
use crate::statements::statements_line;
use mir_syntax::{Lines, OutOfMemory, Program};
use std::alloc::Global;
use type_sizes::size_types;

/// The line of the first function beyond the limit.
fn functions_line(lines: &Lines) -> Option<u32>
    ensures { (C : Crate) → IsTrue (lines_fit lines.now C) → option_map (at_code 2) result ≡ first_fault (map (by_code lines.now) (functions_passed most_functions C)) }
{
    Some(lines.functions.get(10_000)?.head)
}

/// What is answered of all that passes a limit: the limit of least number, and of that the first line. `None` exactly where the program, of
/// which the drops are known, is within the limits.
///
/// # Errors
///
/// `OutOfMemory`.
pub fn limit_fault(
    alloc: Global,
    program: &Program,
    lines: &Lines,
) -> Result<Option<Passed>, OutOfMemory>
    requires drops { KnowsDrops program.now }
    requires ids { IdsInTable program.now }
    requires formed { IsTrue (is_formed (crate_of program.now)) }
    requires fit { IsTrue (lines_fit lines.now (crate_of program.now)) }
    requires few { length program.now.defs < 2 ^ 32 }
    requires few_functions { length program.now.functions < 2 ^ 32 }
    ensures { IfOk result (λ passed. option_map answer_of passed ≡ first_limit lines.now (crate_of program.now)) }
{
    let sizes = size_types(alloc, program)?;
    let search = Search {
        program,
        lines,
        sizes: &sizes,
    };
    let bodies = search.bodies_lines();
    let functions = at_code(2, functions_line(lines));
    let types = at_code(3, search.types_line());
    let blocks = at_code(4, bodies.blocks);
    let locals = at_code(5, bodies.locals);
    let statements = at_code(6, statements_line(lines));
    Ok(functions.or(types).or(blocks).or(locals).or(statements))
}
