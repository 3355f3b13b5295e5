ghost use Rattle.std.specs.Prelude.{◌≡◌, ◌<◌, ◌≤◌, length, IfOk, false};
ghost use Rattle.mir_parse.specs.Parser.{Gives};
ghost use Rattle.mir_parse.specs.Terms as spec;

use crate::ParseRefused;
use crate::fault::refuse;
use crate::operand::read_operand;
use crate::rvalue::{read_place_single, read_single};
use crate::sign::{
    read_arrow, read_block_number, read_close, read_close_bracket, read_colon, read_comma,
    read_open_bracket, read_open_paren, read_otherwise, read_returns, read_string, read_this_name,
    read_unwind,
};
use mir_syntax::List;
use mir_text::Symbol;
use mir_tree::{ArmText, OperandText, TermText, UnwindText};
use std::alloc::Global;

/// What is said of unwinding, behind its word.
#[tactic(auto, unfolding(crate::specs::Terms::action))]
fn read_action(symbols: &[Symbol]) -> Result<(UnwindText, &[Symbol]), ParseRefused>
    ensures read { Gives (λ f. (f.0, f.1.now)) result (spec.action symbols.now) }
    ensures shorter { IfOk result (λ f. length f.1.now < length symbols.now) }
{
    match symbols {
        [Symbol::Continue, rest @ ..] => Ok((UnwindText::Continue, rest)),
        [Symbol::Unreachable, rest @ ..] => Ok((UnwindText::Unreachable, rest)),
        _ => refuse(symbols),
    }
}

/// `: bb , unwind ]`
#[tactic(auto, unfolding(crate::specs::Terms::goes_end))]
fn read_goes_end(symbols: &[Symbol]) -> Result<((u32, UnwindText), &[Symbol]), ParseRefused>
    ensures read { Gives (λ f. (f.0, f.1.now)) result (spec.goes_end symbols.now) }
    ensures shorter { IfOk result (λ f. length f.1.now < length symbols.now) }
{
    let rest = read_colon(symbols)?;
    let (block, rest) = read_block_number(rest)?;
    let rest = read_comma(rest)?;
    let rest = read_unwind(rest)?;
    let (action, rest) = read_action(rest)?;
    let rest = read_close_bracket(rest)?;
    Ok(((block, action), rest))
}

/// `-> [ return : bb , unwind ]`
#[tactic(auto, unfolding(crate::specs::Terms::return_target))]
pub(crate) fn read_return_target(
    symbols: &[Symbol],
) -> Result<((u32, UnwindText), &[Symbol]), ParseRefused>
    ensures read { Gives (λ f. (f.0, f.1.now)) result (spec.return_target symbols.now) }
    ensures shorter { IfOk result (λ f. length f.1.now < length symbols.now) }
{
    let rest = read_arrow(symbols)?;
    let rest = read_open_bracket(rest)?;
    let rest = read_returns(rest)?;
    let (target, rest) = read_goes_end(rest)?;
    Ok((target, rest))
}

/// `-> [ success : bb , unwind ]`
#[tactic(auto, unfolding(crate::specs::Terms::success_target))]
fn read_success_target(symbols: &[Symbol]) -> Result<((u32, UnwindText), &[Symbol]), ParseRefused>
    ensures read { Gives (λ f. (f.0, f.1.now)) result (spec.success_target symbols.now) }
    ensures shorter { IfOk result (λ f. length f.1.now < length symbols.now) }
{
    let rest = read_arrow(symbols)?;
    let rest = read_open_bracket(rest)?;
    let rest = read_this_name(4, rest)?;
    let (target, rest) = read_goes_end(rest)?;
    Ok((target, rest))
}

/// `-> bb`
#[tactic(auto, unfolding(crate::specs::Terms::goto_end))]
pub(crate) fn read_goto_end(symbols: &[Symbol]) -> Result<(TermText, &[Symbol]), ParseRefused>
    ensures read { Gives (λ f. (f.0, f.1.now)) result (spec.goto_end symbols.now) }
    ensures shorter { IfOk result (λ f. length f.1.now < length symbols.now) }
{
    let rest = read_arrow(symbols)?;
    let (block, rest) = read_block_number(rest)?;
    Ok((TermText::Goto(block), rest))
}

/// `: bb ,`
#[tactic(auto, unfolding(crate::specs::Terms::arm_end))]
fn read_arm_end(symbols: &[Symbol]) -> Result<(u32, &[Symbol]), ParseRefused>
    ensures read { Gives (λ f. (f.0, f.1.now)) result (spec.arm_end symbols.now) }
    ensures shorter { IfOk result (λ f. length f.1.now < length symbols.now) }
{
    let rest = read_colon(symbols)?;
    let (block, rest) = read_block_number(rest)?;
    let rest = read_comma(rest)?;
    Ok((block, rest))
}

/// The next arm of a switch, if one comes. It answers whether the arms end.
#[tactic(auto, unfolding(crate::specs::Terms::arms_turn))]
fn read_arms_turn<'a>(
    arms: &mut List<ArmText>,
    symbols: &'a [Symbol],
) -> Result<(bool, &'a [Symbol]), ParseRefused>
    ensures read { Gives (λ f. ((f.0, arms.new), f.1.now)) result (spec.arms_turn arms.old symbols.now) }
    ensures within { IfOk result (λ f. length f.1.now ≤ length symbols.now) }
    ensures shorter { IfOk result (λ f. f.0 ≡ false → length f.1.now < length symbols.now) }
{
    match symbols {
        [Symbol::Number(value), rest @ ..] => {
            let (block, rest) = read_arm_end(rest)?;
            arms.push(ArmText {
                value: *value,
                block,
            })?;
            Ok((false, rest))
        }
        _ => Ok((true, symbols)),
    }
}

/// The arms of a switch, as far as they go.
#[tactic(auto, unfolding(crate::specs::Terms::each_from))]
fn read_arms<'a>(
    alloc: Global,
    symbols: &'a [Symbol],
) -> Result<(List<ArmText>, &'a [Symbol]), ParseRefused>
    ensures read { Gives (λ f. (f.0, f.1.now)) result (spec.arms_at symbols.now) }
    ensures within { IfOk result (λ f. length f.1.now ≤ length symbols.now) }
{
    let mut arms = List::new(alloc);
    let mut rest = symbols;
    'turns: loop {
        let (ends, past) = read_arms_turn(&mut arms, rest)?;
        if ends {
            return Ok((arms, past));
        }
        rest = past;
    }
}

/// `otherwise : bb ]`
#[tactic(auto, unfolding(crate::specs::Terms::otherwise_end))]
fn read_otherwise_end(symbols: &[Symbol]) -> Result<(u32, &[Symbol]), ParseRefused>
    ensures read { Gives (λ f. (f.0, f.1.now)) result (spec.otherwise_end symbols.now) }
    ensures shorter { IfOk result (λ f. length f.1.now < length symbols.now) }
{
    let rest = read_otherwise(symbols)?;
    let rest = read_colon(rest)?;
    let (block, rest) = read_block_number(rest)?;
    let rest = read_close_bracket(rest)?;
    Ok((block, rest))
}

/// `( operand ) -> [ (number : bb ,)* otherwise : bb ]`
#[tactic(auto, unfolding(crate::specs::Terms::switch_end))]
pub(crate) fn read_switch_end<'a>(
    alloc: Global,
    symbols: &'a [Symbol],
) -> Result<(TermText, &'a [Symbol]), ParseRefused>
    ensures read { Gives (λ f. (f.0, f.1.now)) result (spec.switch_end symbols.now) }
    ensures shorter { IfOk result (λ f. length f.1.now < length symbols.now) }
{
    let (operand, rest) = read_single(alloc, symbols)?;
    let rest = read_arrow(rest)?;
    let rest = read_open_bracket(rest)?;
    let (arms, rest) = read_arms(alloc, rest)?;
    let (block, rest) = read_otherwise_end(rest)?;
    Ok((TermText::Switch(operand, arms, block), rest))
}

/// `( place ) -> [ return : bb , unwind ]`
#[tactic(auto, unfolding(crate::specs::Terms::drop_end))]
pub(crate) fn read_drop_end<'a>(
    alloc: Global,
    symbols: &'a [Symbol],
) -> Result<(TermText, &'a [Symbol]), ParseRefused>
    ensures read { Gives (λ f. (f.0, f.1.now)) result (spec.drop_end symbols.now) }
    ensures shorter { IfOk result (λ f. length f.1.now < length symbols.now) }
{
    let (place, rest) = read_place_single(alloc, symbols)?;
    let (target, rest) = read_return_target(rest)?;
    Ok((TermText::Drop(place, target.0, target.1), rest))
}

/// Whether the condition of an assert is to be true, and what stands past its `!`.
#[tactic(auto, unfolding(crate::specs::Terms::expected_at))]
fn read_expected(symbols: &[Symbol]) -> (bool, &[Symbol])
    ensures read { result.0 ≡ (spec.expected_at symbols.now).0 }
    ensures rest { result.1.now ≡ (spec.expected_at symbols.now).1 }
    ensures shorter { length result.1.now ≤ length symbols.now }
{
    match symbols {
        [Symbol::Exclamation, rest @ ..] => (false, rest),
        _ => (true, symbols),
    }
}

/// `, operand`, if it comes. It answers whether the operands end.
#[tactic(auto, unfolding(crate::specs::Terms::values_turn))]
fn read_values_turn<'a>(
    alloc: Global,
    values: &mut List<OperandText>,
    symbols: &'a [Symbol],
) -> Result<(bool, &'a [Symbol]), ParseRefused>
    ensures read { Gives (λ f. ((f.0, values.new), f.1.now)) result (spec.values_turn values.old symbols.now) }
    ensures within { IfOk result (λ f. length f.1.now ≤ length symbols.now) }
    ensures shorter { IfOk result (λ f. f.0 ≡ false → length f.1.now < length symbols.now) }
{
    match symbols {
        [Symbol::Comma, rest @ ..] => {
            let (value, rest) = read_operand(alloc, rest)?;
            values.push(value)?;
            Ok((false, rest))
        }
        _ => Ok((true, symbols)),
    }
}

/// The operands of an assert's message, as far as they go.
#[tactic(auto, unfolding(crate::specs::Terms::each_from))]
fn read_values<'a>(
    alloc: Global,
    symbols: &'a [Symbol],
) -> Result<(List<OperandText>, &'a [Symbol]), ParseRefused>
    ensures read { Gives (λ f. (f.0, f.1.now)) result (spec.values_at symbols.now) }
    ensures within { IfOk result (λ f. length f.1.now ≤ length symbols.now) }
{
    let mut values = List::new(alloc);
    let mut rest = symbols;
    'turns: loop {
        let (ends, past) = read_values_turn(alloc, &mut values, rest)?;
        if ends {
            return Ok((values, past));
        }
        rest = past;
    }
}

/// `operand , string`
#[tactic(auto, unfolding(crate::specs::Terms::condition))]
fn read_condition<'a>(
    alloc: Global,
    symbols: &'a [Symbol],
) -> Result<((OperandText, u32), &'a [Symbol]), ParseRefused>
    ensures read { Gives (λ f. (f.0, f.1.now)) result (spec.condition symbols.now) }
    ensures shorter { IfOk result (λ f. length f.1.now < length symbols.now) }
{
    let (operand, rest) = read_operand(alloc, symbols)?;
    let rest = read_comma(rest)?;
    let (message, rest) = read_string(rest)?;
    Ok(((operand, message), rest))
}

/// The rest of an assert behind its message.
#[tactic(auto, unfolding(crate::specs::Terms::asserted))]
fn read_asserted<'a>(
    alloc: Global,
    expected: bool,
    operand: OperandText,
    message: u32,
    symbols: &'a [Symbol],
) -> Result<(TermText, &'a [Symbol]), ParseRefused>
    ensures read { Gives (λ f. (f.0, f.1.now)) result (spec.asserted expected operand message symbols.now) }
    ensures shorter { IfOk result (λ f. length f.1.now < length symbols.now) }
{
    let (values, rest) = read_values(alloc, symbols)?;
    let rest = read_close(rest)?;
    let (target, rest) = read_success_target(rest)?;
    Ok((
        TermText::Assert(expected, operand, message, values, target.0, target.1),
        rest,
    ))
}

/// An assert behind its word.
#[tactic(auto, unfolding(crate::specs::Terms::assert_end))]
pub(crate) fn read_assert_end<'a>(
    alloc: Global,
    symbols: &'a [Symbol],
) -> Result<(TermText, &'a [Symbol]), ParseRefused>
    ensures read { Gives (λ f. (f.0, f.1.now)) result (spec.assert_end symbols.now) }
    ensures shorter { IfOk result (λ f. length f.1.now < length symbols.now) }
{
    let rest = read_open_paren(symbols)?;
    let (expected, rest) = read_expected(rest);
    let ((operand, message), rest) = read_condition(alloc, rest)?;
    let (term, rest) = read_asserted(alloc, expected, operand, message, rest)?;
    Ok((term, rest))
}
