ghost use Rattle.std.specs.Prelude.{◌≡◌, map, IfOk, OnOk};
ghost use Rattle.mir_text.specs.NamedBodies.{operand_named};
ghost use Rattle.mir_text.specs.NameFaults.{operand_codes, each};
ghost use Rattle.mir_text.specs.ReadLines.{any_wrong, operand_places};
ghost use Rattle.mir_tree.specs.Bodies.{operand_rule};
ghost use Rattle.mir_resolve.specs.Definitions.{Went};
ghost use Rattle.mir_bodies.specs.Scope.{Sense, Tells};
ghost use Rattle.mir_bodies.specs.Operands.{text_operand, text_codes, text_places, behind_name};

use crate::place::{either, read_place};
use crate::value::value_of;
use crate::{Read, Scope};
use mir_resolve::Draft;
use mir_syntax::{List, Operand, OutOfMemory};
use mir_tree::{NamedText, OperandText};
use std::alloc::Global;

/// An operand, with faults noted as for its place.
///
/// # Errors
///
/// `OutOfMemory`.
pub fn read_operand(
    alloc: Global,
    scope: &Scope,
    draft: &mut Draft,
    line: u32,
    text: &OperandText,
) -> Result<Read<Operand>, OutOfMemory>
    ghost sense: { Sense }
    requires { Tells scope.now draft.old.program sense }
    ensures operand { IfOk result (λ read. read.part ≡ operand_named sense.names sense.locals (operand_rule text.now)) }
    ensures wrong { IfOk result (λ read. read.wrong ≡ any_wrong sense.names sense.locals (operand_places (operand_rule text.now))) }
    ensures went { OnOk result (Went draft.old draft.new line (operand_codes sense.names sense.locals (operand_rule text.now))) }
    ensures tells { OnOk result (Tells scope.now draft.new.program sense) }
{
    match text {
        OperandText::Copy(place) => {
            let place = read_place(alloc, scope, draft, line, place)?;
            Ok(Read {
                part: Operand::Copy(place.part),
                wrong: place.wrong,
            })
        }
        OperandText::Move(place) => {
            let place = read_place(alloc, scope, draft, line, place)?;
            Ok(Read {
                part: Operand::Move(place.part),
                wrong: place.wrong,
            })
        }
        OperandText::Bare(place) => {
            let place = read_place(alloc, scope, draft, line, place)?;
            Ok(Read {
                part: Operand::Copy(place.part),
                wrong: place.wrong,
            })
        }
        OperandText::Const(value) => Ok(Read {
            part: Operand::Const(value_of(value)),
            wrong: false,
        }),
    }
}

/// The operands of a list.
///
/// # Errors
///
/// `OutOfMemory`.
pub fn read_operands(
    alloc: Global,
    scope: &Scope,
    draft: &mut Draft,
    line: u32,
    texts: &[OperandText],
) -> Result<Read<List<Operand>>, OutOfMemory>
    ghost sense: { Sense }
    requires { Tells scope.now draft.old.program sense }
    ensures operands { IfOk result (λ read. read.part ≡ map (text_operand sense) texts.now) }
    ensures wrong { IfOk result (λ read. read.wrong ≡ any_wrong sense.names sense.locals (each text_places texts.now)) }
    ensures went { OnOk result (Went draft.old draft.new line (each (text_codes sense) texts.now)) }
    ensures tells { OnOk result (Tells scope.now draft.new.program sense) }
{
    let mut operands = List::with_capacity(alloc, texts.len())?;
    let mut wrong = false;
    let mut left = texts;
    'operands: while let [text, rest @ ..] = left {
        let operand = read_operand(alloc, scope, draft, line, text)?;
        operands.push(operand.part)?;
        wrong = either(wrong, operand.wrong);
        left = rest;
    }
    Ok(Read {
        part: operands,
        wrong,
    })
}

/// The operands of a list, without the names that stand before them.
///
/// # Errors
///
/// `OutOfMemory`.
pub fn read_named(
    alloc: Global,
    scope: &Scope,
    draft: &mut Draft,
    line: u32,
    texts: &[NamedText],
) -> Result<Read<List<Operand>>, OutOfMemory>
    ghost sense: { Sense }
    requires { Tells scope.now draft.old.program sense }
    ensures operands { IfOk result (λ read. read.part ≡ map (text_operand sense) (map behind_name texts.now)) }
    ensures wrong { IfOk result (λ read. read.wrong ≡ any_wrong sense.names sense.locals (each text_places (map behind_name texts.now))) }
    ensures went { OnOk result (Went draft.old draft.new line (each (text_codes sense) (map behind_name texts.now))) }
    ensures tells { OnOk result (Tells scope.now draft.new.program sense) }
{
    let mut operands = List::with_capacity(alloc, texts.len())?;
    let mut wrong = false;
    let mut left = texts;
    'named: while let [text, rest @ ..] = left {
        let operand = read_operand(alloc, scope, draft, line, &text.operand)?;
        operands.push(operand.part)?;
        wrong = either(wrong, operand.wrong);
        left = rest;
    }
    Ok(Read {
        part: operands,
        wrong,
    })
}
