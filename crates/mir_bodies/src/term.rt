ghost use Rattle.std.specs.Prelude.{◌≡◌, map, IfOk, OnOk};
ghost use Rattle.mir_text.specs.Words.{place_in};
ghost use Rattle.mir_text.specs.Names.{path_bytes};
ghost use Rattle.mir_text.specs.GrammarTerms as g;
ghost use Rattle.mir_text.specs.NamedBodies as named;
ghost use Rattle.mir_text.specs.NamedBodies.{term_named, or_first_function};
ghost use Rattle.mir_text.specs.NameFaults.{each, target_codes, call_codes, term_codes};
ghost use Rattle.mir_text.specs.ReadLines.{any_wrong, term_places};
ghost use Rattle.mir_tree.specs.Types.{path_rule};
ghost use Rattle.mir_tree.specs.Lists.{items_rule};
ghost use Rattle.mir_tree.specs.Bodies.{place_rule, operand_rule, arm_rule, unwind_rule, term_rule};
ghost use Rattle.mir_resolve.specs.Definitions.{Went};
ghost use Rattle.mir_bodies.specs.Scope.{Sense, Tells};
ghost use Rattle.mir_bodies.specs.Statements.{text_arm, text_arm_codes};

use crate::operand::{read_operand, read_operands};
use crate::place::{either, read_place};
use crate::{Read, Scope};
use mir_resolve::{Draft, copy_name, put_path, string_of};
use mir_syntax::{Arm, Callee, FnId, List, OutId, OutOfMemory, Term};
use mir_tree::{ArmText, Items, OperandText, PathText, PlaceText, TermText, UnwindText};
use std::alloc::Global;

/// Notes S15 where no block has a label.
fn note_target(scope: &Scope, draft: &mut Draft, line: u32, block: u32)
    ghost sense: { Sense }
    requires { Tells scope.now draft.old.program sense }
    ensures went { Went draft.old draft.new line (target_codes sense.labels block) }
    ensures tells { Tells scope.now draft.new.program sense }
{
    let there = scope.labels.contains(block);
    draft.notes.note_unless(there, line, 15);
}

fn read_arms(
    alloc: Global,
    scope: &Scope,
    draft: &mut Draft,
    line: u32,
    texts: &[ArmText],
) -> Result<List<Arm>, OutOfMemory>
    ghost sense: { Sense }
    requires { Tells scope.now draft.old.program sense }
    ensures arms { IfOk result (λ arms. arms ≡ map text_arm texts.now) }
    ensures went { OnOk result (Went draft.old draft.new line (each (text_arm_codes sense) texts.now)) }
    ensures tells { OnOk result (Tells scope.now draft.new.program sense) }
{
    let mut arms = List::with_capacity(alloc, texts.len())?;
    let mut left = texts;
    'arms: while let [text, rest @ ..] = left {
        note_target(scope, draft, line, text.block);
        arms.push(Arm {
            value: text.value,
            block: text.block,
        })?;
        left = rest;
    }
    Ok(arms)
}

fn read_switch(
    alloc: Global,
    scope: &Scope,
    draft: &mut Draft,
    line: u32,
    operand: &OperandText,
    arms: &[ArmText],
    otherwise: u32,
) -> Result<Read<Term>, OutOfMemory>
    ghost sense: { Sense }
    requires { Tells scope.now draft.old.program sense }
    ensures term { IfOk result (λ read. read.part ≡ term_named sense.names sense.locals (g.switch (operand_rule operand.now) (map arm_rule arms.now) otherwise)) }
    ensures wrong { IfOk result (λ read. read.wrong
        ≡ any_wrong sense.names sense.locals (term_places (g.switch (operand_rule operand.now) (map arm_rule arms.now) otherwise))) }
    ensures went { OnOk result (Went draft.old draft.new line
        (term_codes sense.names sense.locals sense.labels (g.switch (operand_rule operand.now) (map arm_rule arms.now) otherwise))) }
    ensures tells { OnOk result (Tells scope.now draft.new.program sense) }
{
    let operand = read_operand(alloc, scope, draft, line, operand)?;
    let arms = read_arms(alloc, scope, draft, line, arms)?;
    note_target(scope, draft, line, otherwise);
    Ok(Read {
        part: Term::Switch(operand.part, arms, otherwise),
        wrong: operand.wrong,
    })
}

fn callee_at(function: Option<u32>, outside: Option<u32>) -> Option<Callee>
    ensures { result ≡ named.function_or function outside }
{
    match function {
        Some(function) => Some(Callee::Local(FnId(function))),
        None => match outside {
            Some(outside) => Some(Callee::Outside(OutId(outside))),
            None => None,
        },
    }
}

/// The function or the outside function that a path names.
fn called_by(
    scope: &Scope,
    buffer: &mut List<u8>,
    path: &PathText,
) -> Result<Option<Callee>, OutOfMemory>
    ensures { IfOk result (λ callee. callee ≡ named.function_or
        (place_in scope.now.functions.now (path_bytes scope.now.strings.now (path_rule path.now)))
        (place_in scope.now.outsides.now (path_bytes scope.now.strings.now (path_rule path.now)))) }
{
    put_path(buffer, scope.strings, path)?;
    let function = scope.functions.find(buffer.as_slice());
    let outside = scope.outsides.find(buffer.as_slice());
    Ok(callee_at(function, outside))
}

/// What a call calls, with S11 noted where the path names no function; the first function stands in for it then.
fn read_callee(
    scope: &Scope,
    draft: &mut Draft,
    line: u32,
    path: &PathText,
) -> Result<Callee, OutOfMemory>
    ghost sense: { Sense }
    requires { Tells scope.now draft.old.program sense }
    ensures callee { IfOk result (λ callee. callee ≡ or_first_function (named.called_by sense.names (path_rule path.now))) }
    ensures went { OnOk result (Went draft.old draft.new line (call_codes sense.names (path_rule path.now))) }
    ensures tells { OnOk result (Tells scope.now draft.new.program sense) }
{
    let callee = called_by(scope, &mut draft.scratch.path, path)?;
    draft.notes.note_unless(callee.is_some(), line, 11);
    Ok(callee.unwrap_or(Callee::Local(FnId(0))))
}

fn read_call(
    alloc: Global,
    scope: &Scope,
    draft: &mut Draft,
    line: u32,
    place: &PlaceText,
    path: &PathText,
    args: &Items<OperandText>,
    block: u32,
    unwind: UnwindText,
) -> Result<Read<Term>, OutOfMemory>
    ghost sense: { Sense }
    requires { Tells scope.now draft.old.program sense }
    ensures term { IfOk result (λ read. read.part
        ≡ term_named sense.names sense.locals (g.call (place_rule place.now) (path_rule path.now) (items_rule operand_rule args.now) block (unwind_rule unwind))) }
    ensures wrong { IfOk result (λ read. read.wrong
        ≡ any_wrong sense.names sense.locals (term_places (g.call (place_rule place.now) (path_rule path.now) (items_rule operand_rule args.now) block (unwind_rule unwind)))) }
    ensures went { OnOk result (Went draft.old draft.new line (term_codes sense.names sense.locals sense.labels
        (g.call (place_rule place.now) (path_rule path.now) (items_rule operand_rule args.now) block (unwind_rule unwind)))) }
    ensures tells { OnOk result (Tells scope.now draft.new.program sense) }
{
    let place = read_place(alloc, scope, draft, line, place)?;
    let callee = read_callee(scope, draft, line, path)?;
    let args = read_operands(alloc, scope, draft, line, args.items.as_slice())?;
    note_target(scope, draft, line, block);
    Ok(Read {
        part: Term::Call(place.part, callee, args.part, block),
        wrong: either(place.wrong, args.wrong),
    })
}

fn read_assert(
    alloc: Global,
    scope: &Scope,
    draft: &mut Draft,
    line: u32,
    expected: bool,
    operand: &OperandText,
    message: u32,
    args: &[OperandText],
    block: u32,
    unwind: UnwindText,
) -> Result<Read<Term>, OutOfMemory>
    ghost sense: { Sense }
    requires { Tells scope.now draft.old.program sense }
    ensures term { IfOk result (λ read. read.part
        ≡ term_named sense.names sense.locals (g.assert expected (operand_rule operand.now) message (map operand_rule args.now) block (unwind_rule unwind))) }
    ensures wrong { IfOk result (λ read. read.wrong
        ≡ any_wrong sense.names sense.locals (term_places (g.assert expected (operand_rule operand.now) message (map operand_rule args.now) block (unwind_rule unwind)))) }
    ensures went { OnOk result (Went draft.old draft.new line (term_codes sense.names sense.locals sense.labels
        (g.assert expected (operand_rule operand.now) message (map operand_rule args.now) block (unwind_rule unwind)))) }
    ensures tells { OnOk result (Tells scope.now draft.new.program sense) }
{
    let operand = read_operand(alloc, scope, draft, line, operand)?;
    let args = read_operands(alloc, scope, draft, line, args)?;
    let message = copy_name(alloc, string_of(scope.strings, message))?;
    note_target(scope, draft, line, block);
    Ok(Read {
        part: Term::Assert(operand.part, expected, message, args.part, block),
        wrong: either(operand.wrong, args.wrong),
    })
}

/// A terminator, with faults noted as for its parts, S11 where a call names no function, and S15 where a block isn't there.
///
/// # Errors
///
/// `OutOfMemory`.
pub fn read_term(
    alloc: Global,
    scope: &Scope,
    draft: &mut Draft,
    line: u32,
    text: &TermText,
) -> Result<Read<Term>, OutOfMemory>
    ghost sense: { Sense }
    requires { Tells scope.now draft.old.program sense }
    ensures term { IfOk result (λ read. read.part ≡ term_named sense.names sense.locals (term_rule text.now)) }
    ensures wrong { IfOk result (λ read. read.wrong ≡ any_wrong sense.names sense.locals (term_places (term_rule text.now))) }
    ensures went { OnOk result (Went draft.old draft.new line (term_codes sense.names sense.locals sense.labels (term_rule text.now))) }
    ensures tells { OnOk result (Tells scope.now draft.new.program sense) }
{
    match text {
        TermText::Goto(block) => {
            note_target(scope, draft, line, *block);
            Ok(Read {
                part: Term::Goto(*block),
                wrong: false,
            })
        }
        TermText::Return => Ok(Read {
            part: Term::Return,
            wrong: false,
        }),
        TermText::Unreachable => Ok(Read {
            part: Term::Unreachable,
            wrong: false,
        }),
        TermText::Switch(operand, arms, block) => {
            read_switch(alloc, scope, draft, line, operand, arms.as_slice(), *block)
        }
        TermText::Call(place, path, args, block, unwind) => {
            read_call(
                alloc, scope, draft, line, place, path, args, *block, *unwind,
            )
        }
        TermText::Drop(place, block, _) => {
            let place = read_place(alloc, scope, draft, line, place)?;
            note_target(scope, draft, line, *block);
            Ok(Read {
                part: Term::Drop(place.part, *block),
                wrong: place.wrong,
            })
        }
        TermText::Assert(expected, operand, message, args, block, unwind) => read_assert(
            alloc,
            scope,
            draft,
            line,
            *expected,
            operand,
            *message,
            args.as_slice(),
            *block,
            *unwind,
        ),
    }
}
