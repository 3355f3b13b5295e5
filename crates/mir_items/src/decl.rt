ghost use Rattle.std.specs.Prelude.{◌≡◌, ◌-◌, ◌<◌, ◌≤◌, ◌∷◌, false, length, IfOk};
ghost use Rattle.mir_text.specs.declared.symbol.Symbol.TheVariants as symbol;
ghost use Rattle.mir_parse.specs.Parser.{Gives};
ghost use Rattle.mir_items.specs.Decls as spec;

use crate::arg::{read_arg_at, with_line};
use crate::line::{fault_within, line_at};
use mir_parse::{
    ParseRefused, fault_at, parse_path, read_close, read_close_brace, read_open_brace,
    read_semicolon, read_small_number, read_this_name, refuse, refuse_with,
};
use mir_syntax::List;
use mir_text::Symbol;
use mir_tree::{ArgText, Lined};
use std::alloc::Global;

/// The number of `inlined` among the names that the grammar looks for.
const INLINED: u32 = 3;

#[tactic(auto, unfolding(crate::specs::Decls::mut_past))]
fn past_mut(symbols: &[Symbol]) -> &[Symbol]
    ensures read { result.now ≡ spec.mut_past symbols.now }
    ensures within { length result.now ≤ length symbols.now }
{
    match symbols {
        [Symbol::Mut, rest @ ..] => rest,
        _ => symbols,
    }
}

/// A `let` line past its first word.
#[tactic(auto, unfolding(crate::specs::Decls::let_end))]
fn read_let_end<'a>(
    alloc: Global,
    symbols: &'a [Symbol],
    depth: u32,
) -> Result<(ArgText, &'a [Symbol]), ParseRefused>
    ensures read { Gives (λ f. (f.0, f.1.now)) result (spec.let_end depth symbols.now) }
    ensures shorter { IfOk result (λ f. length f.1.now < length symbols.now) }
{
    let (arg, rest) = read_arg_at(alloc, past_mut(symbols), depth)?;
    let rest = read_semicolon(rest)?;
    Ok((arg, rest))
}

/// A `let` line, past its first word.
#[tactic(auto, unfolding(crate::specs::Decls::let_at))]
fn read_let<'a>(
    alloc: Global,
    lines: &[u32],
    symbols: &'a [Symbol],
    past: &'a [Symbol],
    depth: u32,
) -> Result<(Lined<ArgText>, &'a [Symbol]), ParseRefused>
    requires { symbols.now ≡ symbol.Let ∷ past.now }
    ensures read { Gives (λ f. (f.0, f.1.now)) result (spec.let_at lines.now depth past.now) }
    ensures shorter { IfOk result (λ f. length f.1.now < length symbols.now) }
{
    match read_let_end(alloc, past, depth) {
        Ok((arg, rest)) => Ok((with_line(line_at(lines, symbols), arg), rest)),
        Err(ParseRefused::Fault(fault)) => {
            Err(ParseRefused::Fault(fault_within(fault, symbols)))
        }
        Err(ParseRefused::OutOfMemory) => Err(ParseRefused::OutOfMemory),
    }
}

/// A `debug` line past its first word: any symbols up to a semicolon.
#[tactic(auto, unfolding(crate::specs::Decls::debug_end))]
fn read_debug(symbols: &[Symbol]) -> Result<&[Symbol], ParseRefused>
    ensures read { Gives (λ f. (tt, f.now)) result (spec.debug_end symbols.now) }
    ensures shorter { IfOk result (λ f. length f.now < length symbols.now) }
{
    let mut rest = symbols;
    'symbols: while let [first, past @ ..] = rest {
        match first {
            Symbol::Semicolon => return Ok(past),
            Symbol::LargeLocal => return refuse_with(9, rest),
            Symbol::LargeBlock => return refuse_with(9, rest),
            _ => rest = past,
        }
    }
    refuse(rest)
}

/// `( inlined path )`, if it comes next.
#[tactic(auto, unfolding(crate::specs::Decls::inlined))]
fn read_inlined<'a>(alloc: Global, symbols: &'a [Symbol]) -> Result<&'a [Symbol], ParseRefused>
    ensures read { Gives (λ f. (tt, f.now)) result (spec.inlined symbols.now) }
    ensures within { IfOk result (λ f. length f.now ≤ length symbols.now) }
{
    match symbols {
        [Symbol::Open, rest @ ..] => {
            let rest = read_this_name(INLINED, rest)?;
            let (_, rest) = parse_path(alloc, rest)?;
            let rest = read_close(rest)?;
            Ok(rest)
        }
        _ => Ok(symbols),
    }
}

/// A scope past its first word, up to its opening brace.
#[tactic(auto, unfolding(crate::specs::Decls::scope_front))]
fn read_scope_front<'a>(alloc: Global, symbols: &'a [Symbol]) -> Result<&'a [Symbol], ParseRefused>
    ensures read { Gives (λ f. (tt, f.now)) result (spec.scope_front symbols.now) }
    ensures shorter { IfOk result (λ f. length f.now < length symbols.now) }
{
    let (_, rest) = read_small_number(symbols)?;
    let rest = read_inlined(alloc, rest)?;
    let rest = read_open_brace(rest)?;
    Ok(rest)
}

/// A scope past its first word, that nests no deeper than `depth`.
#[cycle(decls)]
fn read_scope<'a>(
    alloc: Global,
    lets: &mut List<Lined<ArgText>>,
    lines: &[u32],
    symbols: &'a [Symbol],
    past: &'a [Symbol],
    depth: u32,
) -> Result<&'a [Symbol], ParseRefused>
    requires { symbols.now ≡ symbol.Scope ∷ past.now }
    ensures read { Gives (λ f. (lets.new, f.now)) result (spec.scope_at lines.now depth lets.old past.now) }
    ensures shorter { IfOk result (λ f. length f.now < length symbols.now) }
{
    if depth == 0 {
        return Err(ParseRefused::Fault(fault_at(6, symbols)));
    }
    read_inner_scope(alloc, lets, lines, past, depth - 1)
}

/// A scope past its first word, in which nothing nests deeper than `depth`.
#[cycle(decls)]
#[tactic(auto, unfolding(crate::specs::Decls::scope_with))]
fn read_inner_scope<'a>(
    alloc: Global,
    lets: &mut List<Lined<ArgText>>,
    lines: &[u32],
    symbols: &'a [Symbol],
    depth: u32,
) -> Result<&'a [Symbol], ParseRefused>
    ensures read { Gives (λ f. (lets.new, f.now)) result (spec.scope_with (spec.decls_at lines.now depth) lets.old symbols.now) }
    ensures shorter { IfOk result (λ f. length f.now < length symbols.now) }
{
    let rest = read_scope_front(alloc, symbols)?;
    let rest = read_decls(alloc, lets, lines, rest, depth)?;
    let rest = read_close_brace(rest)?;
    Ok(rest)
}

/// The next declaration, if one comes next. It answers whether the declarations end.
#[cycle(decls)]
#[tactic(auto, unfolding(crate::specs::Decls::decl_turn))]
fn read_decl_turn<'a>(
    alloc: Global,
    lets: &mut List<Lined<ArgText>>,
    lines: &[u32],
    symbols: &'a [Symbol],
    depth: u32,
) -> Result<(bool, &'a [Symbol]), ParseRefused>
    ensures read { Gives (λ f. ((f.0, lets.new), f.1.now)) result (spec.decl_turn (spec.scope_at lines.now depth) lines.now depth lets.old symbols.now) }
    ensures within { IfOk result (λ f. length f.1.now ≤ length symbols.now) }
    ensures shorter { IfOk result (λ f. f.0 ≡ false → length f.1.now < length symbols.now) }
{
    match symbols {
        [Symbol::Let, past @ ..] => {
            let (found, rest) = read_let(alloc, lines, symbols, past, depth)?;
            lets.push(found)?;
            Ok((false, rest))
        }
        [Symbol::Debug, past @ ..] => {
            let rest = read_debug(past)?;
            Ok((false, rest))
        }
        [Symbol::Scope, past @ ..] => {
            let rest = read_scope(alloc, lets, lines, symbols, past, depth)?;
            Ok((false, rest))
        }
        _ => Ok((true, symbols)),
    }
}

/// Parses declarations, as far as they go: their `let` lines go to the end of a list, and what stands past them is answered.
///
/// # Errors
///
/// `Fault` with the first fault, where no such part stands at the front; `OutOfMemory`.
#[cycle(decls)]
#[tactic(auto, unfolding(crate::specs::Decls::decls_from))]
pub fn read_decls<'a>(
    alloc: Global,
    lets: &mut List<Lined<ArgText>>,
    lines: &[u32],
    symbols: &'a [Symbol],
    depth: u32,
) -> Result<&'a [Symbol], ParseRefused>
    ensures read { Gives (λ f. (lets.new, f.now)) result (spec.decls_at lines.now depth lets.old symbols.now) }
    ensures within { IfOk result (λ f. length f.now ≤ length symbols.now) }
{
    let mut rest = symbols;
    'turns: loop {
        let (ends, past) = read_decl_turn(alloc, lets, lines, rest, depth)?;
        if ends {
            return Ok(past);
        }
        rest = past;
    }
}
