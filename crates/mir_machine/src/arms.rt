ghost use Rattle.std.specs.Prelude.{◌≡◌, [], ◌∷◌, MatchOption};
ghost use Rattle.mir_semantics.specs.Step as sem;

use mir_syntax::Arm;

fn split(arms: &[Arm]) -> Option<(Arm, &[Arm])>
    ensures { MatchOption result (arms.now ≡ []) (λ on. arms.now ≡ on.0 ∷ on.1.now) }
{
    match arms {
        [first, rest @ ..] => Some((*first, rest)),
        [] => None,
    }
}

/// The block of the first arm with the value, else the other one.
pub fn take_arm(bits: u128, arms: &[Arm], otherwise: u32) -> u32
    ensures { result ≡ sem.take_arm bits arms.now otherwise }
{
    let mut arms = arms;
    while let Some((arm, rest)) = split(arms) {
        if arm.value == bits {
            return arm.block;
        }
        arms = rest;
    }
    otherwise
}
