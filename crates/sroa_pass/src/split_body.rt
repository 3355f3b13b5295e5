//! The split body.
ghost use Rattle.std.specs.Prelude.{◌≡◌, ◌<◌, ◌^◌, length, IfOk};
ghost use Rattle.mir_syntax.specs.Drops.{KnowsDrops};
ghost use Rattle.mir_syntax.specs.Ids.{IdsInTable, BodyInTable};
ghost use Rattle.mir_syntax.specs.Tree.{trees_of};
ghost use Rattle.mir_syntax.specs.Crate.{crate_of, body_of};
ghost use Rattle.mir_syntax.specs.Shapes.{shapes_of};
ghost use Rattle.sroa_pass.specs.Code.{IsTyped};
ghost use Rattle.sroa_pass.specs.Split as definition;

use crate::chosen::split_locals;
use crate::held::hold_blocks;
use crate::statements::put_blocks;
use escape_info::address_taken;
use mir_syntax::{Body, OutOfMemory, Program};
use std::alloc::Global;

/// The body in which each local that may be split is one local for each field.
///
/// # Errors
///
/// `OutOfMemory`; the body is spent then.
pub fn split(alloc: Global, program: &Program, body: Body) -> Result<Body, OutOfMemory>
    requires knows { KnowsDrops program.now }
    requires ids { IdsInTable program.now }
    requires body_ids { BodyInTable program.now.types body }
    requires typed { IsTyped (shapes_of (crate_of program.now)) (body_of (trees_of program.now.types) body) }
    requires few_locals { length body.locals < 2 ^ 30 }
    ensures split { IfOk result (λ left. body_of (trees_of program.now.types) left ≡ definition.split (shapes_of (crate_of program.now)) (body_of (trees_of program.now.types) body)) }
    ensures in_table { IfOk result (λ left. BodyInTable program.now.types left) }
{
    let mut held = address_taken(alloc, program, &body)?;
    hold_blocks(&mut held, body.blocks.as_slice());
    let Body {
        args,
        mut locals,
        blocks,
    } = body;
    let table = split_locals(alloc, program, args, &held, &mut locals)?;
    let blocks = put_blocks(alloc, table.as_slice(), blocks)?;
    Ok(Body {
        args,
        locals,
        blocks,
    })
}
