ghost use Rattle.std.specs.Prelude.{None, length};
ghost use Rattle.std.specs.Io.KnownBytes.{WriteAppends};
ghost use Rattle.pipe_io.specs.Causes.{HasCause, TakesSome};

use pipe_io::{Failed, Sink};

/// A sink that takes everything, keeps nothing and never fails.
#[derive(Drop)]
pub struct Nowhere;

impl Sink for Nowhere {
    ghost written = { λ _. None };

    ghost faults = { λ _. 0 };

    fn write(&mut self, piece: &[u8]) -> Result<usize, Failed>
        ensures taken { TakesSome result piece.now }
        ensures bytes { WriteAppends None None result piece.now }
        ensures cause { HasCause 0 0 result }
    {
        Ok(piece.len())
    }
}
