ghost use Rattle.std.specs.Prelude.{◌≡◌, ◌<◌, ◌&&◌, [], List, map, length, IsTrue, IfSome, option_map};
ghost use Rattle.mir_syntax.specs.Tree.{Tree, at_id, trees_of};
ghost use Rattle.mir_text.specs.NameFaults.{args_in_place, below_declared, blocks_in_order};
ghost use Rattle.mir_text.specs.NameFaults as faults;
ghost use Rattle.mir_tree.specs.Bodies.{lined};
ghost use Rattle.mir_tree.specs.Rules.{arg_rule};
ghost use Rattle.mir_resolve.specs.Faults.{noted};
ghost use Rattle.mir_bodies.specs.Locals.{declared_in};
ghost use Rattle.mir_file.specs.Declarations.{label_in, result_fault};

use mir_bodies::Locals;
use mir_resolve::{Noted, both};
use mir_syntax::{Program, TyId};
use mir_tree::{ArgText, BlockText, Lined};

/// Notes S14 on each argument that doesn't stand at its place, the first one being `_1`.
pub fn note_places(notes: &mut Noted, args: &[Lined<ArgText>])
    ensures { notes.new ≡ noted notes.old (args_in_place 1 (map (lined arg_rule) args.now)) }
{
    let mut place: usize = 0;
    let mut left = args;
    'texts: while let [arg, rest @ ..] = left {
        place += 1;
        notes.note_unless(arg.part.local as usize == place, arg.line, 14);
        left = rest;
    }
}

/// Whether the blocks are bb0, bb1 and so on, at least bb0.
pub fn are_in_order(blocks: &[BlockText]) -> bool
    ensures { result ≡ blocks_in_order (map label_in blocks.now) }
{
    let mut number: usize = 0;
    let mut left = blocks;
    'labels: while let [block, rest @ ..] = left {
        if block.label as usize != number {
            return false;
        }
        number += 1;
        left = rest;
    }
    number > 0
}

/// Whether the local below a local is declared; there is none below `_0`.
fn has_below(locals: &Locals, local: u32) -> bool
    ensures { (trees : List Tree) → result ≡ below_declared (declared_in trees locals.now) local }
{
    if local == 0 {
        true
    } else {
        locals.get(local - 1).is_some()
    }
}

/// Whether `_0` is declared, and with each local the one below it.
pub fn none_missing(locals: &Locals) -> bool
    ensures { (trees : List Tree) → result ≡ faults.none_missing (declared_in trees locals.now) }
{
    let mut whole = locals.get(0).is_some();
    let mut left = locals.as_slice();
    'locals: while let [local, rest @ ..] = left {
        let below = has_below(locals, local.0);
        whole = both(whole, below);
        left = rest;
    }
    whole
}

/// Notes S14 on the line of the first declaration of `_0`, where that has another type than the result.
pub fn note_result(
    program: &Program,
    notes: &mut Noted,
    declared: Option<TyId>,
    ty: TyId,
    line: u32,
)
    requires inside { IfSome declared (λ id. id.0 < length program.now.types) }
    requires result_inside { ty.0 < length program.now.types }
    ensures { notes.new ≡ noted notes.old (result_fault (option_map (at_id (trees_of program.now.types)) declared) (at_id (trees_of program.now.types) ty) line) }
{
    if let Some(id) = declared {
        notes.note_unless(id.0 == ty.0, line, 14);
    }
}
