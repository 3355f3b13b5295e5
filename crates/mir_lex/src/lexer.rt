ghost use Rattle.std.specs.Prelude.{◌≡◌, ◌≤◌, length, IfOk};
ghost use Rattle.mir_lex.specs.Tokens.{lexed};
ghost use Rattle.mir_lex.specs.Pieces.{Lexes};
ghost use Rattle.mir_lex.specs.declared.kind.Lexed.{Lexed as LexedData};

use crate::scan::{Found, read_found};
use crate::{LexFault, Lexed, Token};
use mir_syntax::{List, OutOfMemory};
use std::alloc::Global;

#[tactic(auto, unfolding(crate::specs::Tokens::lexed, crate::specs::Tokens::lexed_from))]
fn lex_all(alloc: Global, bytes: &[u8]) -> Result<Lexed, OutOfMemory>
    requires { length bytes.now ≤ 67_108_864 }
    ensures { IfOk result (λ found. found ≡ lexed bytes.now) }
{
    let mut tokens = List::new(alloc);
    let mut line: u32 = 1;
    let mut rest = bytes;
    'turns: while let [first, past @ ..] = rest {
        match read_found(rest, *first, past) {
            Ok((Found::Blank | Found::Comment, after)) => {
                rest = after;
            }
            Ok((Found::Line, after)) => {
                line += 1;
                rest = after;
            }
            Ok((Found::Token(kind), after)) => {
                tokens.push(Token {
                    kind,
                    at: (bytes.len() - rest.len()) as u32,
                    len: (rest.len() - after.len()) as u32,
                    line,
                })?;
                rest = after;
            }
            Err(code) => {
                return Ok(Lexed {
                    tokens,
                    fault: Some(LexFault { code, line }),
                });
            }
        }
    }
    Ok(Lexed {
        tokens,
        fault: None,
    })
}

/// The tokens of a text, up to its end or up to the first fault. The longest token is taken.
///
/// # Errors
///
/// `OutOfMemory`, where the list of tokens gets no memory.
#[tactic(auto, using(crate::proofs::PiecesSound::lexed_cut, crate::proofs::PiecesSound::cut_once))]
pub fn lex(alloc: Global, bytes: &[u8]) -> Result<Lexed, OutOfMemory>
    requires { length bytes.now ≤ 67_108_864 }
    ensures value { IfOk result (λ found. found ≡ lexed bytes.now) }
    // The text is cut into pieces that stand together, and these are their tokens.
    ensures cut { IfOk result (λ found. Lexes bytes.now found) }
    // It is cut so in no other way.
    ensures once { IfOk result (λ found. (other : LexedData) → Lexes bytes.now other → other ≡ found) }
{
    lex_all(alloc, bytes)
}
