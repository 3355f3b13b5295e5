ghost use Rattle.std.specs.Prelude.{◌≡◌, ◌<◌, ◌≤◌, length, IfOk};
ghost use Rattle.mir_parse.specs.Parser.{Gives};
ghost use Rattle.mir_items.specs.Attrs as spec;

use mir_parse::{
    ParseRefused, read_close, read_close_bracket, read_open_bracket, read_this_name, refuse,
};
use mir_syntax::Inline;
use mir_text::Symbol;

/// The numbers of the names that an attribute is made of, among the names that the grammar looks for.
const INLINE: u32 = 0;

const ALWAYS: u32 = 1;

const NEVER: u32 = 2;

/// `always` or `never`
#[tactic(auto, unfolding(crate::specs::Attrs::wish))]
fn read_wish(symbols: &[Symbol]) -> Result<(Inline, &[Symbol]), ParseRefused>
    ensures read { Gives (λ f. (f.0, f.1.now)) result (spec.wish symbols.now) }
    ensures shorter { IfOk result (λ f. length f.1.now < length symbols.now) }
{
    match symbols {
        [Symbol::Name(name), rest @ ..] => {
            if *name == ALWAYS {
                Ok((Inline::Always, rest))
            } else if *name == NEVER {
                Ok((Inline::Never, rest))
            } else {
                refuse(symbols)
            }
        }
        _ => refuse(symbols),
    }
}

/// What may stand behind `inline`: `( always )` or `( never )`.
#[tactic(auto, unfolding(crate::specs::Attrs::wish_end))]
fn read_wish_end(symbols: &[Symbol]) -> Result<(Inline, &[Symbol]), ParseRefused>
    ensures read { Gives (λ f. (f.0, f.1.now)) result (spec.wish_end symbols.now) }
    ensures within { IfOk result (λ f. length f.1.now ≤ length symbols.now) }
{
    match symbols {
        [Symbol::Open, rest @ ..] => {
            let (wish, rest) = read_wish(rest)?;
            let rest = read_close(rest)?;
            Ok((wish, rest))
        }
        _ => Ok((Inline::Hint, symbols)),
    }
}

/// An attribute past its `#`.
#[tactic(auto, unfolding(crate::specs::Attrs::attr_end))]
fn read_attr_end(symbols: &[Symbol]) -> Result<(Inline, &[Symbol]), ParseRefused>
    ensures read { Gives (λ f. (f.0, f.1.now)) result (spec.attr_end symbols.now) }
    ensures within { IfOk result (λ f. length f.1.now ≤ length symbols.now) }
{
    let rest = read_open_bracket(symbols)?;
    let rest = read_this_name(INLINE, rest)?;
    let (wish, rest) = read_wish_end(rest)?;
    let rest = read_close_bracket(rest)?;
    Ok((wish, rest))
}

/// Parses an attribute, if one comes next.
///
/// # Errors
///
/// `Fault` with the first fault, where no such part stands at the front.
#[tactic(auto, unfolding(crate::specs::Attrs::attr))]
pub fn read_attr(symbols: &[Symbol]) -> Result<(Inline, &[Symbol]), ParseRefused>
    ensures read { Gives (λ f. (f.0, f.1.now)) result (spec.attr symbols.now) }
    ensures within { IfOk result (λ f. length f.1.now ≤ length symbols.now) }
{
    match symbols {
        [Symbol::Hash, rest @ ..] => {
            let (wish, rest) = read_attr_end(rest)?;
            Ok((wish, rest))
        }
        _ => Ok((Inline::Plain, symbols)),
    }
}

/// Whether `drop` comes next, and what stands past it.
#[tactic(auto, unfolding(crate::specs::Attrs::drop_at))]
pub fn read_drop(symbols: &[Symbol]) -> (bool, &[Symbol])
    ensures read { result.0 ≡ (spec.drop_at symbols.now).0 }
    ensures rest { result.1.now ≡ (spec.drop_at symbols.now).1 }
    ensures within { length result.1.now ≤ length symbols.now }
{
    match symbols {
        [Symbol::Drop, rest @ ..] => (true, rest),
        _ => (false, symbols),
    }
}
