//! Cuts a crate's text into tokens.
//!
//! `lex` answers all tokens with their places and lines, up to the end of the text or to the first fault: the text is cut into pieces that
//! stand together, the tokens are those of the pieces, and it is cut so in no other way (`Lexes`, `specs/Pieces.antt`, over the pieces of
//! `mir_text`). A fault comes exactly where no piece stands (`FaultAt`). `first_piece` takes one piece off the front of a text, for
//! a reader that needs no list of tokens (`IsFound`).
#![tactic(auto)]

mod kind;
mod lexer;
mod number;
mod scan;
mod sign;
mod string;
#[cfg(test)]
mod tests;
mod word;

pub use kind::{Kind, LexFault, Lexed, Token};
pub use lexer::lex;
pub use scan::{Found, first_piece};
