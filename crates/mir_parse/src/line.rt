ghost use Rattle.std.specs.Prelude.{◌≡◌, ◌<◌, ◌≤◌, length, IfOk};
ghost use Rattle.mir_parse.specs.Parser.{Gives};
ghost use Rattle.mir_parse.specs.Lines as spec;
ghost use Rattle.mir_parse.specs.LineRules.{line_put, line_rule, LineGood};
ghost use Rattle.mir_parse.specs.Promises.{IsParsed, NoneStands, Semicolon};

use crate::path::read_path;
use crate::place::read_place;
use crate::rvalue::{read_build_parts, read_place_single, read_rvalue};
use crate::sign::{
    read_close, read_equals, read_local, read_open_paren, read_semicolon, read_small_number,
};
use crate::term::{
    read_assert_end, read_drop_end, read_goto_end, read_return_target, read_switch_end,
};
use crate::{ParseRefused, SyntaxFault};
use mir_text::Symbol;
use mir_tree::{
    BuildText, Items, OperandText, PathText, PlaceText, RvalueText, StmtText, TermText,
};
use std::alloc::Global;

/// What stands in a block, each before a semicolon.
#[derive(Debug, Drop)]
pub enum LineText {
    Stmt(StmtText),
    Term(TermText),
}

/// The fault, in a part that began where so many symbols were left.
pub fn in_part(fault: SyntaxFault, left: usize) -> SyntaxFault
    ensures { result ≡ spec.in_part left fault }
{
    SyntaxFault {
        code: fault.code,
        left: fault.left,
        part: Some(left),
    }
}

/// What stands behind the arguments of a call or a build: an arrow makes it a call.
#[tactic(auto, unfolding(crate::specs::Lines::after_args))]
fn read_after_args<'a>(
    place: PlaceText,
    path: PathText,
    args: Items<OperandText>,
    symbols: &'a [Symbol],
) -> Result<(LineText, &'a [Symbol]), ParseRefused>
    ensures read { Gives (λ f. (f.0, f.1.now)) result (spec.after_args place path args symbols.now) }
    ensures within { IfOk result (λ f. length f.1.now ≤ length symbols.now) }
{
    match symbols {
        [Symbol::Arrow, ..] => {
            let (target, rest) = read_return_target(symbols)?;
            Ok((
                LineText::Term(TermText::Call(place, path, args, target.0, target.1)),
                rest,
            ))
        }
        _ => {
            let value = RvalueText::Build(path, BuildText::Tupled(args));
            Ok((LineText::Stmt(StmtText::Assign(place, value)), symbols))
        }
    }
}

#[tactic(auto, unfolding(crate::specs::Lines::built))]
fn read_built<'a>(
    place: PlaceText,
    path: PathText,
    parts: BuildText,
    symbols: &'a [Symbol],
) -> Result<(LineText, &'a [Symbol]), ParseRefused>
    ensures read { Gives (λ f. (f.0, f.1.now)) result (spec.built place path parts symbols.now) }
    ensures within { IfOk result (λ f. length f.1.now ≤ length symbols.now) }
{
    match parts {
        BuildText::Tupled(args) => {
            let (line, rest) = read_after_args(place, path, args, symbols)?;
            Ok((line, rest))
        }
        BuildText::Plain => {
            let value = RvalueText::Build(path, BuildText::Plain);
            Ok((LineText::Stmt(StmtText::Assign(place, value)), symbols))
        }
        BuildText::Labelled(parts) => {
            let value = RvalueText::Build(path, BuildText::Labelled(parts));
            Ok((LineText::Stmt(StmtText::Assign(place, value)), symbols))
        }
    }
}

/// A build, or a call, behind `place =`.
#[tactic(auto, unfolding(crate::specs::Lines::build_or_call))]
fn read_build_or_call<'a>(
    alloc: Global,
    place: PlaceText,
    symbols: &'a [Symbol],
) -> Result<(LineText, &'a [Symbol]), ParseRefused>
    ensures read { Gives (λ f. (f.0, f.1.now)) result (spec.build_or_call place symbols.now) }
    ensures shorter { IfOk result (λ f. length f.1.now < length symbols.now) }
{
    let (path, rest) = read_path(alloc, symbols)?;
    let (parts, rest) = read_build_parts(alloc, rest)?;
    let (line, rest) = read_built(place, path, parts, rest)?;
    Ok((line, rest))
}

/// What stands behind `place =`.
#[tactic(auto, unfolding(crate::specs::Lines::assigned))]
fn read_assigned<'a>(
    alloc: Global,
    place: PlaceText,
    symbols: &'a [Symbol],
) -> Result<(LineText, &'a [Symbol]), ParseRefused>
    ensures read { Gives (λ f. (f.0, f.1.now)) result (spec.assigned place symbols.now) }
    ensures shorter { IfOk result (λ f. length f.1.now < length symbols.now) }
{
    match symbols {
        [Symbol::Name(_), ..] => {
            let (line, rest) = read_build_or_call(alloc, place, symbols)?;
            Ok((line, rest))
        }
        _ => {
            let (value, rest) = read_rvalue(alloc, symbols)?;
            Ok((LineText::Stmt(StmtText::Assign(place, value)), rest))
        }
    }
}

/// An assignment, or a call.
#[tactic(auto, unfolding(crate::specs::Lines::assignment))]
fn read_assignment<'a>(
    alloc: Global,
    symbols: &'a [Symbol],
) -> Result<(LineText, &'a [Symbol]), ParseRefused>
    ensures read { Gives (λ f. (f.0, f.1.now)) result (spec.assignment symbols.now) }
    ensures shorter { IfOk result (λ f. length f.1.now < length symbols.now) }
{
    let (place, rest) = read_place(alloc, symbols, 65)?;
    let rest = read_equals(rest)?;
    let (line, rest) = read_assigned(alloc, place, rest)?;
    Ok((line, rest))
}

/// `( local )`
#[tactic(auto, unfolding(crate::specs::Lines::local_single))]
fn read_local_single(symbols: &[Symbol]) -> Result<(u32, &[Symbol]), ParseRefused>
    ensures read { Gives (λ f. (f.0, f.1.now)) result (spec.local_single symbols.now) }
    ensures shorter { IfOk result (λ f. length f.1.now < length symbols.now) }
{
    let rest = read_open_paren(symbols)?;
    let (local, rest) = read_local(rest)?;
    let rest = read_close(rest)?;
    Ok((local, rest))
}

/// `( place ) = number`
#[tactic(auto, unfolding(crate::specs::Lines::set_end))]
fn read_set_end<'a>(
    alloc: Global,
    symbols: &'a [Symbol],
) -> Result<(StmtText, &'a [Symbol]), ParseRefused>
    ensures read { Gives (λ f. (f.0, f.1.now)) result (spec.set_end symbols.now) }
    ensures shorter { IfOk result (λ f. length f.1.now < length symbols.now) }
{
    let (place, rest) = read_place_single(alloc, symbols)?;
    let rest = read_equals(rest)?;
    let (variant, rest) = read_small_number(rest)?;
    Ok((StmtText::SetDiscriminant(place, variant), rest))
}

/// A terminator, or an assignment.
#[tactic(auto, unfolding(crate::specs::Lines::term_or_assignment))]
fn read_term_or_assignment<'a>(
    alloc: Global,
    symbols: &'a [Symbol],
) -> Result<(LineText, &'a [Symbol]), ParseRefused>
    ensures read { Gives (λ f. (f.0, f.1.now)) result (spec.term_or_assignment symbols.now) }
    ensures shorter { IfOk result (λ f. length f.1.now < length symbols.now) }
{
    match symbols {
        [Symbol::Goto, rest @ ..] => {
            let (term, rest) = read_goto_end(rest)?;
            Ok((LineText::Term(term), rest))
        }
        [Symbol::Return, rest @ ..] => Ok((LineText::Term(TermText::Return), rest)),
        [Symbol::Unreachable, rest @ ..] => Ok((LineText::Term(TermText::Unreachable), rest)),
        [Symbol::SwitchInt, rest @ ..] => {
            let (term, rest) = read_switch_end(alloc, rest)?;
            Ok((LineText::Term(term), rest))
        }
        [Symbol::Drop, rest @ ..] => {
            let (term, rest) = read_drop_end(alloc, rest)?;
            Ok((LineText::Term(term), rest))
        }
        [Symbol::Assert, rest @ ..] => {
            let (term, rest) = read_assert_end(alloc, rest)?;
            Ok((LineText::Term(term), rest))
        }
        _ => {
            let (line, rest) = read_assignment(alloc, symbols)?;
            Ok((line, rest))
        }
    }
}

/// A statement or a terminator, without its semicolon.
#[tactic(auto, unfolding(crate::specs::Lines::line))]
pub(crate) fn read_line<'a>(
    alloc: Global,
    symbols: &'a [Symbol],
) -> Result<(LineText, &'a [Symbol]), ParseRefused>
    ensures read { Gives (λ f. (f.0, f.1.now)) result (spec.line symbols.now) }
    ensures shorter { IfOk result (λ f. length f.1.now < length symbols.now) }
{
    match symbols {
        [Symbol::Nop, rest @ ..] => Ok((LineText::Stmt(StmtText::Nop), rest)),
        [Symbol::StorageLive, rest @ ..] => {
            let (local, rest) = read_local_single(rest)?;
            Ok((LineText::Stmt(StmtText::StorageLive(local)), rest))
        }
        [Symbol::StorageDead, rest @ ..] => {
            let (local, rest) = read_local_single(rest)?;
            Ok((LineText::Stmt(StmtText::StorageDead(local)), rest))
        }
        [Symbol::Discriminant, rest @ ..] => {
            let (stmt, rest) = read_set_end(alloc, rest)?;
            Ok((LineText::Stmt(stmt), rest))
        }
        _ => {
            let (line, rest) = read_term_or_assignment(alloc, symbols)?;
            Ok((line, rest))
        }
    }
}

#[tactic(auto, unfolding(crate::specs::Lines::line_end))]
fn read_line_end<'a>(
    alloc: Global,
    symbols: &'a [Symbol],
) -> Result<(LineText, &'a [Symbol]), ParseRefused>
    ensures read { Gives (λ f. (f.0, f.1.now)) result (spec.line_end symbols.now) }
    ensures shorter { IfOk result (λ f. length f.1.now < length symbols.now) }
{
    let (line, rest) = read_line(alloc, symbols)?;
    let rest = read_semicolon(rest)?;
    Ok((line, rest))
}

/// A statement or a terminator and its semicolon. A fault in it tells where it began.
#[tactic(auto, unfolding(crate::specs::Lines::ended_line))]
pub(crate) fn read_ended_line<'a>(
    alloc: Global,
    symbols: &'a [Symbol],
) -> Result<(LineText, &'a [Symbol]), ParseRefused>
    ensures read { Gives (λ f. (f.0, f.1.now)) result (spec.ended_line symbols.now) }
    ensures shorter { IfOk result (λ f. length f.1.now < length symbols.now) }
{
    match read_line_end(alloc, symbols) {
        Ok(found) => Ok(found),
        Err(ParseRefused::Fault(fault)) => {
            Err(ParseRefused::Fault(in_part(fault, symbols.len())))
        }
        Err(ParseRefused::OutOfMemory) => Err(ParseRefused::OutOfMemory),
    }
}

/// Parses a statement or a terminator as far as it goes, without its semicolon, and answers what stands past it. One before a semicolon goes
/// up to that.
///
/// # Errors
///
/// `Fault` with the first fault, where no such part stands at the front; `OutOfMemory`.
pub fn parse_line<'a>(
    alloc: Global,
    symbols: &'a [Symbol],
) -> Result<(LineText, &'a [Symbol]), ParseRefused>
    ensures derives { IfOk result (λ f. IsParsed line_put line_rule LineGood symbols.now f.0 f.1.now) }
    ensures refuses { NoneStands line_put LineGood Semicolon symbols.now result }
    ensures read { Gives (λ f. (f.0, f.1.now)) result (spec.line symbols.now) }
    ensures shorter { IfOk result (λ f. length f.1.now < length symbols.now) }
{
    read_line(alloc, symbols)
}
