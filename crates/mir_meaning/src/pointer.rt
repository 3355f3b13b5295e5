ghost use Rattle.std.specs.Prelude.{IsTrue};
ghost use Rattle.mir_syntax.specs.Parts.{path_formed};

use mir_syntax::{List, Proj};

/// What a reference refers to: a frame by its number, a local, and a path of fields and variants.
#[derive(Drop)]
pub struct Pointer {
    pub frame: u64,
    pub local: u32,
    pub path: List<Proj>,
    pub ghost formed: { IsTrue (path_formed path) },
}
