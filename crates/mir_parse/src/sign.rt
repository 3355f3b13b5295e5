ghost use Rattle.std.specs.Prelude.{◌≡◌, ◌<◌, length, IfOk};
ghost use Rattle.mir_parse.specs.Parser.{Gives};
ghost use Rattle.mir_parse.specs.Signs as spec;

use crate::ParseRefused;
use crate::fault::{refuse, refuse_with};
use mir_text::Symbol;

/// `,`
///
/// # Errors
///
/// `Fault` where another symbol stands there.
#[tactic(auto, unfolding(crate::specs::Signs::comma))]
pub fn read_comma(symbols: &[Symbol]) -> Result<&[Symbol], ParseRefused>
    ensures read { Gives (λ f. (tt, f.now)) result (spec.comma symbols.now) }
    ensures shorter { IfOk result (λ f. length f.now < length symbols.now) }
{
    match symbols {
        [Symbol::Comma, rest @ ..] => Ok(rest),
        _ => refuse(symbols),
    }
}

/// `(`
///
/// # Errors
///
/// `Fault` where another symbol stands there.
#[tactic(auto, unfolding(crate::specs::Signs::open_paren))]
pub fn read_open_paren(symbols: &[Symbol]) -> Result<&[Symbol], ParseRefused>
    ensures read { Gives (λ f. (tt, f.now)) result (spec.open_paren symbols.now) }
    ensures shorter { IfOk result (λ f. length f.now < length symbols.now) }
{
    match symbols {
        [Symbol::Open, rest @ ..] => Ok(rest),
        _ => refuse(symbols),
    }
}

/// `)`
///
/// # Errors
///
/// `Fault` where another symbol stands there.
#[tactic(auto, unfolding(crate::specs::Signs::close))]
pub fn read_close(symbols: &[Symbol]) -> Result<&[Symbol], ParseRefused>
    ensures read { Gives (λ f. (tt, f.now)) result (spec.close symbols.now) }
    ensures shorter { IfOk result (λ f. length f.now < length symbols.now) }
{
    match symbols {
        [Symbol::Close, rest @ ..] => Ok(rest),
        _ => refuse(symbols),
    }
}

/// `{`
///
/// # Errors
///
/// `Fault` where another symbol stands there.
#[tactic(auto, unfolding(crate::specs::Signs::open_brace))]
pub fn read_open_brace(symbols: &[Symbol]) -> Result<&[Symbol], ParseRefused>
    ensures read { Gives (λ f. (tt, f.now)) result (spec.open_brace symbols.now) }
    ensures shorter { IfOk result (λ f. length f.now < length symbols.now) }
{
    match symbols {
        [Symbol::OpenBrace, rest @ ..] => Ok(rest),
        _ => refuse(symbols),
    }
}

/// `}`
///
/// # Errors
///
/// `Fault` where another symbol stands there.
#[tactic(auto, unfolding(crate::specs::Signs::close_brace))]
pub fn read_close_brace(symbols: &[Symbol]) -> Result<&[Symbol], ParseRefused>
    ensures read { Gives (λ f. (tt, f.now)) result (spec.close_brace symbols.now) }
    ensures shorter { IfOk result (λ f. length f.now < length symbols.now) }
{
    match symbols {
        [Symbol::CloseBrace, rest @ ..] => Ok(rest),
        _ => refuse(symbols),
    }
}

/// `[`
///
/// # Errors
///
/// `Fault` where another symbol stands there.
#[tactic(auto, unfolding(crate::specs::Signs::open_bracket))]
pub fn read_open_bracket(symbols: &[Symbol]) -> Result<&[Symbol], ParseRefused>
    ensures read { Gives (λ f. (tt, f.now)) result (spec.open_bracket symbols.now) }
    ensures shorter { IfOk result (λ f. length f.now < length symbols.now) }
{
    match symbols {
        [Symbol::OpenBracket, rest @ ..] => Ok(rest),
        _ => refuse(symbols),
    }
}

/// `]`
///
/// # Errors
///
/// `Fault` where another symbol stands there.
#[tactic(auto, unfolding(crate::specs::Signs::close_bracket))]
pub fn read_close_bracket(symbols: &[Symbol]) -> Result<&[Symbol], ParseRefused>
    ensures read { Gives (λ f. (tt, f.now)) result (spec.close_bracket symbols.now) }
    ensures shorter { IfOk result (λ f. length f.now < length symbols.now) }
{
    match symbols {
        [Symbol::CloseBracket, rest @ ..] => Ok(rest),
        _ => refuse(symbols),
    }
}

/// `;`
///
/// # Errors
///
/// `Fault` where another symbol stands there.
#[tactic(auto, unfolding(crate::specs::Signs::semicolon))]
pub fn read_semicolon(symbols: &[Symbol]) -> Result<&[Symbol], ParseRefused>
    ensures read { Gives (λ f. (tt, f.now)) result (spec.semicolon symbols.now) }
    ensures shorter { IfOk result (λ f. length f.now < length symbols.now) }
{
    match symbols {
        [Symbol::Semicolon, rest @ ..] => Ok(rest),
        _ => refuse(symbols),
    }
}

/// `:`
///
/// # Errors
///
/// `Fault` where another symbol stands there.
#[tactic(auto, unfolding(crate::specs::Signs::colon))]
pub fn read_colon(symbols: &[Symbol]) -> Result<&[Symbol], ParseRefused>
    ensures read { Gives (λ f. (tt, f.now)) result (spec.colon symbols.now) }
    ensures shorter { IfOk result (λ f. length f.now < length symbols.now) }
{
    match symbols {
        [Symbol::Colon, rest @ ..] => Ok(rest),
        _ => refuse(symbols),
    }
}

/// `::`
///
/// # Errors
///
/// `Fault` where another symbol stands there.
#[tactic(auto, unfolding(crate::specs::Signs::colons))]
pub fn read_colons(symbols: &[Symbol]) -> Result<&[Symbol], ParseRefused>
    ensures read { Gives (λ f. (tt, f.now)) result (spec.colons symbols.now) }
    ensures shorter { IfOk result (λ f. length f.now < length symbols.now) }
{
    match symbols {
        [Symbol::Colons, rest @ ..] => Ok(rest),
        _ => refuse(symbols),
    }
}

/// `.`
///
/// # Errors
///
/// `Fault` where another symbol stands there.
#[tactic(auto, unfolding(crate::specs::Signs::dot))]
pub fn read_dot(symbols: &[Symbol]) -> Result<&[Symbol], ParseRefused>
    ensures read { Gives (λ f. (tt, f.now)) result (spec.dot symbols.now) }
    ensures shorter { IfOk result (λ f. length f.now < length symbols.now) }
{
    match symbols {
        [Symbol::Dot, rest @ ..] => Ok(rest),
        _ => refuse(symbols),
    }
}

/// `=`
///
/// # Errors
///
/// `Fault` where another symbol stands there.
#[tactic(auto, unfolding(crate::specs::Signs::equals))]
pub fn read_equals(symbols: &[Symbol]) -> Result<&[Symbol], ParseRefused>
    ensures read { Gives (λ f. (tt, f.now)) result (spec.equals symbols.now) }
    ensures shorter { IfOk result (λ f. length f.now < length symbols.now) }
{
    match symbols {
        [Symbol::Equals, rest @ ..] => Ok(rest),
        _ => refuse(symbols),
    }
}

/// `->`
///
/// # Errors
///
/// `Fault` where another symbol stands there.
#[tactic(auto, unfolding(crate::specs::Signs::arrow))]
pub fn read_arrow(symbols: &[Symbol]) -> Result<&[Symbol], ParseRefused>
    ensures read { Gives (λ f. (tt, f.now)) result (spec.arrow symbols.now) }
    ensures shorter { IfOk result (λ f. length f.now < length symbols.now) }
{
    match symbols {
        [Symbol::Arrow, rest @ ..] => Ok(rest),
        _ => refuse(symbols),
    }
}

/// `return`
///
/// # Errors
///
/// `Fault` where another symbol stands there.
#[tactic(auto, unfolding(crate::specs::Signs::returns))]
pub fn read_returns(symbols: &[Symbol]) -> Result<&[Symbol], ParseRefused>
    ensures read { Gives (λ f. (tt, f.now)) result (spec.returns symbols.now) }
    ensures shorter { IfOk result (λ f. length f.now < length symbols.now) }
{
    match symbols {
        [Symbol::Return, rest @ ..] => Ok(rest),
        _ => refuse(symbols),
    }
}

/// `otherwise`
///
/// # Errors
///
/// `Fault` where another symbol stands there.
#[tactic(auto, unfolding(crate::specs::Signs::otherwise))]
pub fn read_otherwise(symbols: &[Symbol]) -> Result<&[Symbol], ParseRefused>
    ensures read { Gives (λ f. (tt, f.now)) result (spec.otherwise symbols.now) }
    ensures shorter { IfOk result (λ f. length f.now < length symbols.now) }
{
    match symbols {
        [Symbol::Otherwise, rest @ ..] => Ok(rest),
        _ => refuse(symbols),
    }
}

/// `unwind`
///
/// # Errors
///
/// `Fault` where another symbol stands there.
#[tactic(auto, unfolding(crate::specs::Signs::unwind))]
pub fn read_unwind(symbols: &[Symbol]) -> Result<&[Symbol], ParseRefused>
    ensures read { Gives (λ f. (tt, f.now)) result (spec.unwind symbols.now) }
    ensures shorter { IfOk result (λ f. length f.now < length symbols.now) }
{
    match symbols {
        [Symbol::Unwind, rest @ ..] => Ok(rest),
        _ => refuse(symbols),
    }
}

/// A name, by its number.
///
/// # Errors
///
/// `Fault` where another symbol stands there.
#[tactic(auto, unfolding(crate::specs::Signs::name))]
pub fn read_name(symbols: &[Symbol]) -> Result<(u32, &[Symbol]), ParseRefused>
    ensures read { Gives (λ f. (f.0, f.1.now)) result (spec.name symbols.now) }
    ensures shorter { IfOk result (λ f. length f.1.now < length symbols.now) }
{
    match symbols {
        [Symbol::Name(name), rest @ ..] => Ok((*name, rest)),
        _ => refuse(symbols),
    }
}

/// The name with a number.
///
/// # Errors
///
/// `Fault` where another symbol stands there.
#[tactic(auto, unfolding(crate::specs::Signs::this_name))]
pub fn read_this_name(name: u32, symbols: &[Symbol]) -> Result<&[Symbol], ParseRefused>
    ensures read { Gives (λ f. (tt, f.now)) result (spec.this_name name symbols.now) }
    ensures shorter { IfOk result (λ f. length f.now < length symbols.now) }
{
    match symbols {
        [Symbol::Name(other), rest @ ..] => {
            if *other == name {
                Ok(rest)
            } else {
                refuse(symbols)
            }
        }
        _ => refuse(symbols),
    }
}

/// A string, by its number.
///
/// # Errors
///
/// `Fault` where another symbol stands there.
#[tactic(auto, unfolding(crate::specs::Signs::string))]
pub fn read_string(symbols: &[Symbol]) -> Result<(u32, &[Symbol]), ParseRefused>
    ensures read { Gives (λ f. (f.0, f.1.now)) result (spec.string symbols.now) }
    ensures shorter { IfOk result (λ f. length f.1.now < length symbols.now) }
{
    match symbols {
        [Symbol::Text(text), rest @ ..] => Ok((*text, rest)),
        _ => refuse(symbols),
    }
}

/// A local, by its number.
///
/// # Errors
///
/// `Fault` where another symbol stands there.
#[tactic(auto, unfolding(crate::specs::Signs::local))]
pub fn read_local(symbols: &[Symbol]) -> Result<(u32, &[Symbol]), ParseRefused>
    ensures read { Gives (λ f. (f.0, f.1.now)) result (spec.local symbols.now) }
    ensures shorter { IfOk result (λ f. length f.1.now < length symbols.now) }
{
    match symbols {
        [Symbol::Local(local), rest @ ..] => Ok((*local, rest)),
        [Symbol::LargeLocal, ..] => refuse_with(9, symbols),
        _ => refuse(symbols),
    }
}

/// The number of a block.
///
/// # Errors
///
/// `Fault` where another symbol stands there.
#[tactic(auto, unfolding(crate::specs::Signs::block))]
pub fn read_block_number(symbols: &[Symbol]) -> Result<(u32, &[Symbol]), ParseRefused>
    ensures read { Gives (λ f. (f.0, f.1.now)) result (spec.block symbols.now) }
    ensures shorter { IfOk result (λ f. length f.1.now < length symbols.now) }
{
    match symbols {
        [Symbol::Block(block), rest @ ..] => Ok((*block, rest)),
        [Symbol::LargeBlock, ..] => refuse_with(9, symbols),
        _ => refuse(symbols),
    }
}

/// The number of a field, a scope or a set variant.
///
/// # Errors
///
/// `Fault` where another symbol stands there.
#[tactic(auto, unfolding(crate::specs::Signs::small_number))]
pub fn read_small_number(symbols: &[Symbol]) -> Result<(u32, &[Symbol]), ParseRefused>
    ensures read { Gives (λ f. (f.0, f.1.now)) result (spec.small_number symbols.now) }
    ensures shorter { IfOk result (λ f. length f.1.now < length symbols.now) }
{
    match symbols {
        [Symbol::Number(number), rest @ ..] => {
            if *number > 4_294_967_295 {
                return refuse_with(9, symbols);
            }
            Ok((*number as u32, rest))
        }
        _ => refuse(symbols),
    }
}
