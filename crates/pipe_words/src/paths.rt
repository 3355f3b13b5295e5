ghost use Rattle.std.specs.Prelude.{◌≡◌, ◌++◌, ◌<◌, ◌↔◌, ℕ, List, IsTrue, IfSome, IsSomeAnd, MatchOption, ◌∷◌, length, false};
ghost use Rattle.mir_text.specs.Bytes.{begins, is_name_byte};
ghost use Rattle.pipe_words.specs.Paths.{IsName, IsPath};
ghost use Rattle.pipe_words.specs.Tokens.{is_name_found};

use mir_lex::{Found, Kind, first_piece};

// Whether a token is a name.
fn is_name(found: Found) -> bool
    ensures { result ≡ is_name_found found }
{
    match found {
        Found::Token(Kind::Name) => true,
        _ => false,
    }
}

// What follows the name at the front of a text.
#[tactic(auto, using(crate::proofs::Tokens::name_sound, crate::proofs::Tokens::name_found))]
fn past_name(text: &[u8]) -> Option<&[u8]>
    ensures some { IfSome result (λ rest. (n : List ℕ) × IsName n × (text.now ≡ n ++ rest.now)) }
    ensures all { (n rest : List ℕ) → IsName n → begins is_name_byte rest ≡ false → text.now ≡ n ++ rest → IsSomeAnd result (λ past. past.now ≡ rest) }
    ensures shorter { IfSome result (λ rest. length rest.now < length text.now) }
{
    if text.is_empty() {
        return None;
    }
    match first_piece(text) {
        Ok((found, rest)) => { if is_name(found) { Some(rest) } else { None } }
        Err(_) => None,
    }
}

// What follows the colons at the front of a text.
fn past_colons(text: &[u8]) -> Option<&[u8]>
    ensures { MatchOption result ((more : List ℕ) → text.now ≡ 58 ∷ 58 ∷ more → ⊥) (λ more. text.now ≡ 58 ∷ 58 ∷ more.now) }
{
    match text {
        [b':', b':', more @ ..] => Some(more),
        _ => None,
    }
}

/// Whether a text is a path.
pub fn is_path(text: &[u8]) -> bool
    ensures { IsTrue result ↔ IsPath text.now }
{
    let mut rest = text;
    'names: while let Some(past) = past_name(rest) {
        match past_colons(past) {
            Some(more) => rest = more,
            None => return past.is_empty(),
        }
    }
    false
}
