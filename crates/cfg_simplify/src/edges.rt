ghost use Rattle.std.specs.Prelude.{◌≡◌, ◌<◌, [], map, length, ◌++◌};
ghost use Rattle.std.specs.List.{All};
ghost use Rattle.std.specs.Option.{option_to_list};
ghost use Rattle.mir_syntax.specs.Parts.{arm_block, targets};
ghost use Rattle.cfg_simplify.specs.Edges.{retarget, retarget_arm};
ghost use Rattle.cfg_simplify.specs.Code.{at};

use mir_syntax::{Arm, List, Term};
use std::mem;

fn retargeted_arms(arms: List<Arm>, numbers: &[u32]) -> List<Arm>
    requires { All (λ b. b < length numbers.now) (map arm_block arms) }
    ensures { result ≡ map (retarget_arm (at numbers.now)) arms }
{
    let mut arms = arms.into_vec();
    for arm in arms.iter_mut() {
        arm.block = numbers[arm.block as usize];
    }
    List::from_vec(arms)
}

/// The terminator with each edge led to the block that has the number of its target.
pub(crate) fn retargeted(term: Term, numbers: &[u32]) -> Term
    requires { All (λ b. b < length numbers.now) (targets term) }
    ensures { result ≡ retarget (at numbers.now) term }
{
    match term {
        Term::Goto(block) => Term::Goto(numbers[block as usize]),
        Term::Switch(operand, arms, block) => {
            let arms = retargeted_arms(arms, numbers);
            Term::Switch(operand, arms, numbers[block as usize])
        }
        Term::Return => Term::Return,
        Term::Unreachable => Term::Unreachable,
        Term::Drop(place, block) => Term::Drop(place, numbers[block as usize]),
        Term::Call(place, callee, args, block) => {
            Term::Call(place, callee, args, numbers[block as usize])
        }
        Term::Assert(operand, expected, text, values, block) => {
            Term::Assert(operand, expected, text, values, numbers[block as usize])
        }
    }
}

/// The same where the terminator stands.
pub(crate) fn retarget_in_place(term: &mut Term, numbers: &[u32])
    requires { All (λ b. b < length numbers.now) (targets term.old) }
    ensures { term.new ≡ retarget (at numbers.now) term.old }
{
    let old = mem::replace(term, Term::Unreachable);
    *term = retargeted(old, numbers);
}
