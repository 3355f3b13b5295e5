ghost use Rattle.std.specs.Prelude.{◌≡◌};
ghost use Rattle.mir_meaning.specs.declared.stop.Stop.TheVariants as stop;

use mir_syntax::OutOfMemory;

/// Why a step has no result: the meaning of the crate says nothing there, or there is no memory.
#[derive(Debug, Drop)]
pub enum Stop {
    Undefined,
    OutOfMemory,
}

impl From<OutOfMemory> for Stop {
    ghost from_gives = { λ _ s. s ≡ stop.OutOfMemory };

    fn from(_want: OutOfMemory) -> Stop {
        Stop::OutOfMemory
    }
}
