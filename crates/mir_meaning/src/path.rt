ghost use Rattle.std.specs.Prelude.{◌≡◌, [], ◌∷◌, MatchOption};

use mir_syntax::Proj;

/// The projection that comes first, and those behind it.
pub fn split(path: &[Proj]) -> Option<(Proj, &[Proj])>
    ensures { MatchOption result (path.now ≡ []) (λ on. path.now ≡ on.0 ∷ on.1.now) }
{
    match path {
        [first, rest @ ..] => Some((*first, rest)),
        [] => None,
    }
}
