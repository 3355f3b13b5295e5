ghost use Rattle.std.specs.Prelude.{◌≡◌, ◌<◌, ◌≤◌, length, IfOk};
ghost use Rattle.mir_parse.specs.Parser.{Gives};
ghost use Rattle.mir_items.specs.Decls as spec;

use crate::line::{fault_within, line_at};
use mir_parse::{Bracket, ParseRefused, ReadItem, parse_type, read_colon, read_items, read_local};
use mir_text::Symbol;
use mir_tree::{ArgText, Items, Lined};
use std::alloc::Global;

/// The argument with its line.
pub fn with_line(line: u32, arg: ArgText) -> Lined<ArgText>
    ensures { result ≡ spec.with_line line arg }
{
    Lined { line, part: arg }
}

/// `_local : type`, where the type nests no deeper than `depth`.
///
/// # Errors
///
/// `Fault` with the first fault, where no such part stands at the front; `OutOfMemory`.
#[tactic(auto, unfolding(crate::specs::Decls::arg_at))]
pub fn read_arg_at<'a>(
    alloc: Global,
    symbols: &'a [Symbol],
    depth: u32,
) -> Result<(ArgText, &'a [Symbol]), ParseRefused>
    ensures read { Gives (λ f. (f.0, f.1.now)) result (spec.arg_at depth symbols.now) }
    ensures shorter { IfOk result (λ f. length f.1.now < length symbols.now) }
{
    let (local, rest) = read_local(symbols)?;
    let rest = read_colon(rest)?;
    let (ty, rest) = parse_type(alloc, rest, depth)?;
    Ok((ArgText { local, ty }, rest))
}

/// An argument with its line.
#[tactic(auto, unfolding(crate::specs::Decls::arg))]
fn read_arg<'a>(
    alloc: Global,
    lines: &[u32],
    symbols: &'a [Symbol],
) -> Result<(Lined<ArgText>, &'a [Symbol]), ParseRefused>
    ensures read { Gives (λ f. (f.0, f.1.now)) result (spec.arg lines.now symbols.now) }
    ensures shorter { IfOk result (λ f. length f.1.now < length symbols.now) }
{
    match read_arg_at(alloc, symbols, 65) {
        Ok((arg, rest)) => Ok((with_line(line_at(lines, symbols), arg), rest)),
        Err(ParseRefused::Fault(fault)) => {
            Err(ParseRefused::Fault(fault_within(fault, symbols)))
        }
        Err(ParseRefused::OutOfMemory) => Err(ParseRefused::OutOfMemory),
    }
}

/// Reads the arguments of a list, with their lines.
#[derive(Drop)]
struct ArgReader<'l> {
    lines: &'l [u32],
}

impl<'l> ReadItem for ArgReader<'l> {
    type Item = Lined<ArgText>;

    ghost item = { λ reader. spec.arg reader.lines.now };

    fn read<'a>(
        &self,
        alloc: Global,
        symbols: &'a [Symbol],
    ) -> Result<(Lined<ArgText>, &'a [Symbol]), ParseRefused> {
        read_arg(alloc, self.lines, symbols)
    }
}

/// Parses `arg,*` and the parenthesis that closes it, and answers what stands past that.
///
/// # Errors
///
/// `Fault` with the first fault, where no such part stands at the front; `OutOfMemory`.
pub fn read_args<'a>(
    alloc: Global,
    lines: &[u32],
    symbols: &'a [Symbol],
) -> Result<(Items<Lined<ArgText>>, &'a [Symbol]), ParseRefused>
    ensures read { Gives (λ f. (f.0, f.1.now)) result (spec.args lines.now symbols.now) }
    ensures shorter { IfOk result (λ f. length f.1.now < length symbols.now) }
{
    read_items(alloc, &ArgReader { lines }, Bracket::Paren, symbols)
}
