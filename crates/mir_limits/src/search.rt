ghost use Rattle.std.specs.Prelude.{◌<◌, ◌^◌, IsTrue, length};
ghost use Rattle.mir_syntax.specs.Ids.{IdsInTable};
ghost use Rattle.mir_syntax.specs.Crate.{crate_of};
ghost use Rattle.mir_syntax.specs.Drops.{KnowsDrops};
ghost use Rattle.mir_rules.specs.Formed.{is_formed};
ghost use Rattle.mir_rules.specs.Faults.{lines_fit};
ghost use Rattle.type_sizes.specs.Sized.{IsSized};

use mir_syntax::{Lines, Program};
use type_sizes::Sizes;

/// A program of which the drops are known, with the lines of its parts and the sizes of its types.
#[derive(Clone, Copy, Drop)]
pub struct Search<'a> {
    pub program: &'a Program,
    pub lines: &'a Lines,
    pub sizes: &'a Sizes,
    pub ghost drops: { KnowsDrops program.now },
    pub ghost ids: { IdsInTable program.now },
    pub ghost formed: { IsTrue (is_formed (crate_of program.now)) },
    pub ghost fit: { IsTrue (lines_fit lines.now (crate_of program.now)) },
    pub ghost sized: { IsSized program.now sizes.now },
    pub ghost few: { length program.now.defs < 2 ^ 32 },
}
