ghost use Rattle.std.specs.Prelude.{◌≡◌, ◌<◌, ◌≤◌, length, IfOk, false};
ghost use Rattle.mir_parse.specs.Parser.{Gives};
ghost use Rattle.mir_parse.specs.Paths as spec;
ghost use Rattle.mir_parse.specs.Promises.{IsParsed, NoneStands, NoColons};
ghost use Rattle.mir_text.specs.GrammarTypes.{PathRule, path_put};
ghost use Rattle.mir_tree.specs.Types.{path_rule};

use crate::ParseRefused;
use crate::sign::read_name;
use mir_syntax::List;
use mir_text::Symbol;
use mir_tree::PathText;
use std::alloc::Global;

/// `:: name`, where it comes next. It answers whether the names end.
#[tactic(auto, unfolding(crate::specs::Paths::path_turn))]
fn read_path_turn<'a>(
    names: &mut List<u32>,
    symbols: &'a [Symbol],
) -> Result<(bool, &'a [Symbol]), ParseRefused>
    ensures read { Gives (λ f. ((f.0, names.new), f.1.now)) result (spec.path_turn names.old symbols.now) }
    ensures within { IfOk result (λ f. length f.1.now ≤ length symbols.now) }
    ensures shorter { IfOk result (λ f. f.0 ≡ false → length f.1.now < length symbols.now) }
{
    match symbols {
        [Symbol::Colons, rest @ ..] => {
            let (name, rest) = read_name(rest)?;
            names.push(name)?;
            Ok((false, rest))
        }
        _ => Ok((true, symbols)),
    }
}

/// The names behind those of a path.
#[tactic(auto, unfolding(crate::specs::Paths::path_from))]
fn read_path_more(
    mut names: List<u32>,
    symbols: &[Symbol],
) -> Result<(List<u32>, &[Symbol]), ParseRefused>
    ensures read { Gives (λ f. (f.0, f.1.now)) result (spec.path_at names symbols.now) }
    ensures within { IfOk result (λ f. length f.1.now ≤ length symbols.now) }
{
    let mut rest = symbols;
    'turns: loop {
        let (ends, past) = read_path_turn(&mut names, rest)?;
        if ends {
            return Ok((names, past));
        }
        rest = past;
    }
}

/// A path, as far as it goes.
#[tactic(auto, unfolding(crate::specs::Paths::path))]
pub(crate) fn read_path<'a>(
    alloc: Global,
    symbols: &'a [Symbol],
) -> Result<(PathText, &'a [Symbol]), ParseRefused>
    ensures read { Gives (λ f. (f.0, f.1.now)) result (spec.path symbols.now) }
    ensures shorter { IfOk result (λ f. length f.1.now < length symbols.now) }
{
    let (first, rest) = read_name(symbols)?;
    let (names, rest) = read_path_more(List::new(alloc), rest)?;
    Ok((PathText { first, rest: names }, rest))
}

/// Parses a path (`name ( "::" name )*`), as far as it goes, and answers what stands past it.
///
/// # Errors
///
/// `Fault` with the first fault, where no such part stands at the front; `OutOfMemory`.
pub fn parse_path<'a>(
    alloc: Global,
    symbols: &'a [Symbol],
) -> Result<(PathText, &'a [Symbol]), ParseRefused>
    ensures derives { IfOk result (λ f. IsParsed path_put path_rule (λ q. Unit {0}) symbols.now f.0 f.1.now) }
    ensures refuses { NoneStands path_put (λ (q : PathRule). Unit {0}) NoColons symbols.now result }
    ensures read { Gives (λ f. (f.0, f.1.now)) result (spec.path symbols.now) }
    ensures shorter { IfOk result (λ f. length f.1.now < length symbols.now) }
{
    read_path(alloc, symbols)
}
