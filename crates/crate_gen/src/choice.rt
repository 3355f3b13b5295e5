ghost use Rattle.std.specs.Prelude.{◌≡◌, ◌<◌};
ghost use Rattle.crate_gen.specs.Made.{choice, op_of, after_choice};

use crate::random::Random;
use mir_syntax::BinOp;

/// What is drawn for a function: a constant and its bound, an operator, and the functions that are called where the constant is below the bound
/// and where it is not.
#[derive(Clone, Copy, Drop)]
pub(crate) struct Choice {
    pub value: u32,
    pub op: BinOp,
    pub bound: u32,
    pub below: u32,
    pub otherwise: u32,
}

fn operator(drawn: u32) -> BinOp
    ensures { result ≡ op_of drawn }
{
    match drawn {
        0 => BinOp::Add,
        1 => BinOp::Sub,
        _ => BinOp::Mul,
    }
}

impl Choice {
    /// Draws for a function of a crate with so many.
    pub fn draw(random: &mut Random, functions: u32) -> Choice
        requires { 0 < functions }
        ensures choice { result ≡ choice functions random.old.state }
        ensures after { random.new.state ≡ after_choice random.old.state }
    {
        Choice {
            value: random.draw(100),
            op: operator(random.draw(3)),
            bound: random.draw(100),
            below: random.draw(functions),
            otherwise: random.draw(functions),
        }
    }
}
