//! The text of a crate of MIR bodies: what its tokens and its grammar are, which program a text names, what its canonical text is, and
//! which code and line a text that names none is refused with.
//!
//! The definitions stand in `specs/`; the reader, the lexer and the printer are proved against them. The code here is the one enum
//! `Symbol`, a token by what the grammar asks of it. Bytes are cut into pieces (`specs/Pieces.antt`), the pieces are numbered symbols
//! (`specs/Symbols.antt`), and the grammar's rules say which symbols they put (`specs/Grammar.antt`).
#![tactic(auto)]

mod symbol;

pub use symbol::Symbol;
