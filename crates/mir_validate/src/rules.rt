ghost use Rattle.std.specs.Prelude.{◌≡◌, ◌<◌, ◌^◌, IsTrue, IfOk, IfSome, Some, slice_get, length, map, option_map};
ghost use Rattle.mir_syntax.specs.Tree.{named, at_id, trees_of};
ghost use Rattle.mir_syntax.specs.declared.body.Function.{Function as FunctionData};
ghost use Rattle.mir_syntax.specs.Crate.{crate_of, def_of, outside_of, function_of};
ghost use Rattle.mir_syntax.specs.Ids.{outside_below, BodyInTable, IdsInTable};
ghost use Rattle.mir_syntax.specs.Drops.{KnowsDrops};
ghost use Rattle.mir_text.specs.NameFaults.{first_fault};
ghost use Rattle.mir_rules.specs.Formed.{is_formed};
ghost use Rattle.mir_rules.specs.DefinitionRules.{breaks_v01, breaks_v04};
ghost use Rattle.mir_rules.specs.Broken.{gather, if_broken, header_broken, definition_found, outside_found, function_found};
ghost use Rattle.mir_rules.specs.Faults.{by_line, lines_fit, wrong_field_fault, first_rule};
ghost use Rattle.drop_tables.specs.Holders.{IsAsked};
ghost use Rattle.drop_tables.specs.Marks.{drop_of};
ghost use Rattle.mir_limits.specs.Answer.{either};
ghost use Rattle.mir_validate.specs.Codes.{first_code};
ghost use Rattle.mir_validate.specs.Inside.{shapes};
ghost use Rattle.mir_validate.specs.Walk.{place_of, is_found_by, on_line as by_code};

use crate::fault::{Broken, on_line, sooner};
use crate::inside::Inside;
use drop_tables::header::{breaks_v02, breaks_v03};
use drop_tables::{Circles, drop_of};
use mir_syntax::{Function, Lines, OutOfMemory, Program, TyId};
use std::alloc::Global;

fn code_if(broken: bool, code: u8) -> Option<u8>
    ensures { result ≡ first_code (if_broken broken code) }
{
    if broken { Some(code) } else { None }
}

fn is_found_by(found: Option<Broken>, line: u32) -> bool
    ensures { result ≡ is_found_by (option_map place_of found) line }
{
    match found {
        Some(first) => first.line < line || (first.line == line && first.code <= 1),
        None => false,
    }
}

/// The rule that a definition breaks, where it holds itself by value. Behind a fault that is answered before it nothing is asked.
fn definition_code(
    alloc: Global,
    program: &Program,
    circles: &Circles,
    found: Option<Broken>,
    line: u32,
    at: usize,
) -> Result<Option<u8>, OutOfMemory>
    requires ids { IdsInTable program.now }
    requires there { at < length program.now.defs }
    requires few { length program.now.defs < 2 ^ 32 }
    requires asked { IsAsked (shapes program.now) circles.now.holders circles.now.suspects }
    ensures { IfOk result (λ code. either (option_map place_of found) (by_code line code) ≡ either (option_map place_of found) (by_code line (first_code (if_broken (breaks_v01 (shapes program.now) at) 1)))) }
{
    if is_found_by(found, line) {
        return Ok(None);
    }
    let holds = circles.holds_itself(alloc, program, at)?;
    Ok(code_if(holds, 1))
}

/// What definitions break: those that hold themselves by value.
fn definitions_fault(
    alloc: Global,
    program: &Program,
    lines: &Lines,
    circles: &Circles,
) -> Result<Option<Broken>, OutOfMemory>
    requires ids { IdsInTable program.now }
    requires fit { IsTrue (lines_fit lines.now (crate_of program.now)) }
    requires few { length program.now.defs < 2 ^ 32 }
    requires asked { IsAsked (shapes program.now) circles.now.holders circles.now.suspects }
    ensures { IfOk result (λ found. option_map place_of found ≡ first_fault (map (by_line lines.now) (gather (definition_found (shapes program.now)) 0 (crate_of program.now).defs))) }
{
    let mut found = None;
    for at in 0..program.defs.len() {
        let line = lines.defs.as_slice()[at];
        let code = definition_code(alloc, program, circles, found, line, at)?;
        found = sooner(found, on_line(line, code));
    }
    Ok(found)
}

fn outsides_fault(program: &Program, lines: &Lines) -> Option<Broken>
    requires fit { IsTrue (lines_fit lines.now (crate_of program.now)) }
    requires ids { IdsInTable program.now }
    ensures { option_map place_of result ≡ first_fault (map (by_line lines.now) (gather outside_found 0 (crate_of program.now).outsides)) }
{
    let mut found = None;
    for at in 0..program.outsides.len() {
        let code = code_if(breaks_v02(program, &program.outsides.as_slice()[at]), 2);
        found = sooner(found, on_line(lines.outsides.as_slice()[at], code));
    }
    found
}

/// The type that a `drop fn` with the header of a destructor drops.
fn dropped_type(program: &Program, function: &Function) -> Option<TyId>
    requires ids { IdsInTable program.now }
    requires in_table { BodyInTable program.now.types function.now.body }
    ensures ty { option_map (at_id (trees_of program.now.types)) result ≡ option_map named (drop_of (function_of (trees_of program.now.types) function.now)) }
    ensures in_table { IfSome result (λ id. id.0 < length program.now.types) }
{
    drop_of(program, function)?;
    program.pointee(*function.body.locals.get(1)?)
}

/// Whether a function is a `drop fn` of a type whose destructor is an earlier one.
fn breaks_v04(program: &Program, function: &Function, at: u32) -> bool
    requires drops { KnowsDrops program.now }
    requires ids { IdsInTable program.now }
    requires in_table { BodyInTable program.now.types function.now.body }
    ensures { result ≡ breaks_v04 (shapes program.now) at (function_of (trees_of program.now.types) function.now) }
{
    let Some(id) = dropped_type(program, function) else {
        return false;
    };
    match program.destructor(id) {
        Some(first) => first.0 < at,
        None => false,
    }
}

fn header_code(program: &Program, function: &Function, at: u32) -> Option<u8>
    requires drops { KnowsDrops program.now }
    requires ids { IdsInTable program.now }
    requires in_table { BodyInTable program.now.types function.now.body }
    ensures { result ≡ first_code (header_broken (shapes program.now) at (function_of (trees_of program.now.types) function.now)) }
{
    if breaks_v03(program, function) {
        Some(3)
    } else {
        code_if(breaks_v04(program, function, at), 4)
    }
}

/// What a function breaks, in its header and in its body.
fn function_fault(
    alloc: Global,
    program: &Program,
    lines: &Lines,
    at: usize,
) -> Result<Option<Broken>, OutOfMemory>
    requires drops { KnowsDrops program.now }
    requires ids { IdsInTable program.now }
    requires formed { IsTrue (is_formed (crate_of program.now)) }
    requires fit { IsTrue (lines_fit lines.now (crate_of program.now)) }
    requires there { at < length program.now.functions }
    requires small { length program.now.functions < 2 ^ 32 }
    ensures { IfOk result (λ found. (function : FunctionData) → slice_get program.now.functions at ≡ Some function
        → option_map place_of found ≡ first_fault (map (by_line lines.now) (function_found (crate_of program.now) (shapes program.now) at (function_of (trees_of program.now.types) function)))) }
{
    let function = &program.functions.as_slice()[at];
    let lines = &lines.functions.as_slice()[at];
    let inside = Inside {
        program,
        body: &function.body,
    };
    let header = on_line(lines.head, header_code(program, function, at as u32));
    let body = inside.body_fault(alloc, lines)?;
    Ok(sooner(header, body))
}

fn functions_fault(
    alloc: Global,
    program: &Program,
    lines: &Lines,
) -> Result<Option<Broken>, OutOfMemory>
    requires drops { KnowsDrops program.now }
    requires ids { IdsInTable program.now }
    requires formed { IsTrue (is_formed (crate_of program.now)) }
    requires fit { IsTrue (lines_fit lines.now (crate_of program.now)) }
    requires small { length program.now.functions < 2 ^ 32 }
    ensures { IfOk result (λ found. option_map place_of found ≡ first_fault (map (by_line lines.now) (gather (function_found (crate_of program.now) (shapes program.now)) 0 (crate_of program.now).functions))) }
{
    let mut found = None;
    for at in 0..program.functions.len() {
        let fault = function_fault(alloc, program, lines, at)?;
        found = sooner(found, fault);
    }
    Ok(found)
}

/// The first field whose type is written otherwise than it is.
fn written_fault(lines: &Lines) -> Option<Broken>
    ensures { option_map place_of result ≡ first_fault (wrong_field_fault lines.now.wrong_field) }
{
    match lines.wrong_field {
        Some(line) => Some(Broken { line, code: 7 }),
        None => None,
    }
}

/// What is answered of all that a program breaks: the rule on the first line, and on one line the one of least code. `None` exactly where
/// it breaks none.
///
/// # Errors
///
/// `OutOfMemory`.
pub fn first_rule(
    alloc: Global,
    program: &Program,
    lines: &Lines,
    circles: &Circles,
) -> Result<Option<Broken>, OutOfMemory>
    requires drops { KnowsDrops program.now }
    requires ids { IdsInTable program.now }
    requires formed { IsTrue (is_formed (crate_of program.now)) }
    requires fit { IsTrue (lines_fit lines.now (crate_of program.now)) }
    requires small { length program.now.functions < 2 ^ 32 }
    requires few { length program.now.defs < 2 ^ 32 }
    requires asked { IsAsked (shapes program.now) circles.now.holders circles.now.suspects }
    ensures { IfOk result (λ found. option_map place_of found ≡ first_rule lines.now (crate_of program.now)) }
{
    let written = written_fault(lines);
    let definitions = definitions_fault(alloc, program, lines, circles)?;
    let outsides = outsides_fault(program, lines);
    let functions = functions_fault(alloc, program, lines)?;
    Ok(sooner(written, sooner(definitions, sooner(outsides, functions))))
}
