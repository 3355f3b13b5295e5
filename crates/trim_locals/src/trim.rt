ghost use Rattle.std.specs.Prelude.{◌≡◌, ◌<◌, ◌^◌, map, length, IfOk};
ghost use Rattle.mir_syntax.specs.Tree.{trees_of};
ghost use Rattle.mir_syntax.specs.Crate.{body_of};
ghost use Rattle.mir_syntax.specs.Ids.{BodyInTable};
ghost use Rattle.bit_rows.specs.Rows.{row_at, HasSize};
ghost use Rattle.trim_locals.specs.Trimmed.{new_numbers as all_new_numbers, marked_items, trimmed as trimmed_body};

use crate::blocks::trimmed_blocks;
use crate::marks::used_row;
use bit_rows::BitRows;
use mir_syntax::{Body, List, OutOfMemory, Program, TyId};
use std::alloc::Global;

/// The new number of each local: how many used ones stand before it.
fn new_numbers(alloc: Global, used: &BitRows, locals: u32) -> Result<List<u32>, OutOfMemory>
    requires few { locals < 2 ^ 30 }
    requires size { HasSize used.now 1 locals }
    ensures { IfOk result (λ list. list ≡ all_new_numbers (row_at used.now 0)) }
{
    let mut numbers = List::new(alloc);
    let mut next = 0;
    for local in 0..locals {
        numbers.push(next)?;
        if used.get(0, local) {
            next += 1;
        }
    }
    Ok(numbers)
}

/// The types of the locals that stay.
fn used_types(alloc: Global, used: &BitRows, locals: &[TyId]) -> Result<List<TyId>, OutOfMemory>
    requires few { length locals.now < 2 ^ 30 }
    requires size { HasSize used.now 1 (length locals.now) }
    ensures { IfOk result (λ list. list ≡ marked_items (row_at used.now 0) locals.now) }
{
    let mut kept = List::new(alloc);
    for (local, ty) in locals.iter().enumerate() {
        if used.get(0, local as u32) {
            kept.push(*ty)?;
        }
    }
    Ok(kept)
}

/// The body without the locals that stand in storage statements alone, or nowhere.
///
/// # Errors
///
/// `OutOfMemory`; the body is spent then.
pub fn trimmed(alloc: Global, program: &Program, body: Body) -> Result<Body, OutOfMemory>
    requires { length body.locals < 2 ^ 30 }
    ensures trimmed { IfOk result (λ left. body_of (trees_of program.now.types) left ≡ trimmed_body (body_of (trees_of program.now.types) body)) }
    ensures in_table { BodyInTable program.now.types body → IfOk result (λ left. BodyInTable program.now.types left) }
{
    let used = used_row(alloc, &body)?;
    let numbers = new_numbers(alloc, &used, body.locals.len() as u32)?;
    let locals = used_types(alloc, &used, body.locals.as_slice())?;
    let blocks = trimmed_blocks(alloc, body.blocks, &used, numbers.as_slice())?;
    Ok(Body {
        args: body.args,
        locals,
        blocks,
    })
}
