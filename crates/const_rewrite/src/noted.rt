//! What becomes of a statement, noted before its effect on what is known.
ghost use Rattle.std.specs.Prelude.{◌≡◌, ◌++◌, ◌∷◌, [], map, IfOk, OnOk};
ghost use Rattle.mir_syntax.specs.Parts.{rvalue_operands};
ghost use Rattle.mir_syntax.specs.Crate.{rvalue_of, stmt_of};
ghost use Rattle.const_rewrite.specs.Folded.{folded_rvalue, folded_stmt};
ghost use Rattle.const_rewrite.specs.Points.{here, trees_in, where_reached, constant_at, put_value, put_stmt};

use crate::point::{Text, Value};
use const_flow::Facts;
use mir_syntax::{Const, List, Operand, OutOfMemory, Rvalue, Stmt};

fn note(
    text: Text<'_>,
    facts: &Facts<'_>,
    constants: &mut List<Option<Const>>,
    operand: &Operand,
) -> Result<(), OutOfMemory>
    ensures { OnOk result (constants.new ≡ constants.old ++ constant_at (here text.entry) facts.now operand.now ∷ []) }
{
    constants.push(text.constant(facts, operand))
}

fn note_all(
    text: Text<'_>,
    facts: &Facts<'_>,
    constants: &mut List<Option<Const>>,
    operands: &[Operand],
) -> Result<(), OutOfMemory>
    ensures { OnOk result (constants.new ≡ constants.old ++ map (constant_at (here text.entry) facts.now) operands.now) }
{
    for operand in operands {
        note(text, facts, constants, operand)?;
    }
    Ok(())
}

/// Notes the constants that the operands of an rvalue are known to be.
fn note_operands(
    text: Text<'_>,
    facts: &Facts<'_>,
    constants: &mut List<Option<Const>>,
    rvalue: &Rvalue,
) -> Result<(), OutOfMemory>
    ensures { OnOk result (constants.new ≡ map (constant_at (here text.entry) facts.now) (rvalue_operands (rvalue_of (trees_in text.entry) rvalue.now))) }
{
    constants.truncate(0);
    match rvalue {
        Rvalue::Use(operand) => note(text, facts, constants, operand),
        Rvalue::Unary(_, operand) => note(text, facts, constants, operand),
        Rvalue::Cast(operand, _) => note(text, facts, constants, operand),
        Rvalue::Binary(_, left, right) => {
            note(text, facts, constants, left)?;
            note(text, facts, constants, right)
        }
        Rvalue::Overflow(_, left, right) => {
            note(text, facts, constants, left)?;
            note(text, facts, constants, right)
        }
        Rvalue::Tuple(parts) => note_all(text, facts, constants, parts.as_slice()),
        Rvalue::Build(_, _, parts) => note_all(text, facts, constants, parts.as_slice()),
        Rvalue::Ref(_) | Rvalue::RefMut(_) | Rvalue::Discriminant(_) => Ok(()),
    }
}

/// Finds the value that takes the place of an rvalue, and notes the constants that take the places of its operands if it stays.
fn note_rvalue(
    text: Text<'_>,
    facts: &Facts<'_>,
    constants: &mut List<Option<Const>>,
    rvalue: &Rvalue,
) -> Result<Value, OutOfMemory>
    ensures { IfOk result (λ value. rvalue_of (trees_in text.entry) (put_value value constants.new rvalue.now) ≡ where_reached (folded_rvalue (here text.entry)) facts.now (rvalue_of (trees_in text.entry) rvalue.now)) }
{
    match text.value(facts, rvalue) {
        Value::Operands => {
            note_operands(text, facts, constants, rvalue)?;
            Ok(Value::Operands)
        }
        Value::Number(number) => Ok(Value::Number(number)),
        Value::Pair(bits, over) => Ok(Value::Pair(bits, over)),
    }
}

/// The same of a statement.
pub(crate) fn note_stmt(
    text: Text<'_>,
    facts: &Facts<'_>,
    constants: &mut List<Option<Const>>,
    stmt: &Stmt,
) -> Result<Value, OutOfMemory>
    ensures { IfOk result (λ value. stmt_of (trees_in text.entry) (put_stmt value constants.new stmt.now) ≡ where_reached (folded_stmt (here text.entry)) facts.now (stmt_of (trees_in text.entry) stmt.now)) }
{
    match stmt {
        Stmt::Assign(_, rvalue) => note_rvalue(text, facts, constants, rvalue),
        _ => Ok(Value::Operands),
    }
}
