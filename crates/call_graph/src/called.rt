//! Whom a body calls.
ghost use Rattle.std.specs.Prelude.{◌≡◌, ◌<◌, ◌≤◌, ◌^◌, [], List as ListOf, length, map, true, IsTrue, Some, OnOk, IfOk, option_to_list, slice_get};
ghost use Rattle.std.specs.List.{All, list_all};
ghost use Rattle.bit_rows.specs.Rows.{row_at};
ghost use Rattle.mir_syntax.specs.Tree.{Tree, at_id, trees_of, named};
ghost use Rattle.mir_rules.specs.Formed.{body_formed};
ghost use Rattle.mir_syntax.specs.Crate.{Crate, TypedBody, crate_of, body_of};
ghost use Rattle.mir_syntax.specs.Shapes.{shapes_of, destructor_of};
ghost use Rattle.mir_syntax.specs.Drops.{fn_number, KnowsDrops};
ghost use Rattle.mir_syntax.specs.Ids.{IdsInTable, BodyInTable};
ghost use Rattle.call_graph.specs.Callees as of;
ghost use Rattle.call_graph.specs.Walk.{all_added, destructors_at, Entered};

use crate::found::Found;
use crate::parts::{Part, open_types, open_variants};
use mir_syntax::{Body, Callee, FnId, List, OutOfMemory, Program, Term, Ty, TyId};
use std::alloc::Global;

/// Adds the destructor of a type, if it has one.
fn add_own(program: &Program, ty: TyId, found: &mut Found) -> Result<(), OutOfMemory>
    requires knows { KnowsDrops program.now }
    requires in_table { ty.0 < length program.now.types }
    requires inside { All (λ f. f < length (row_at found.old.marks 0)) (option_to_list (destructor_of (shapes_of (crate_of program.now)) (at_id (trees_of program.now.types) ty))) }
    ensures list { OnOk result (map fn_number found.new.list ≡ all_added (map fn_number found.old.list) (option_to_list (destructor_of (shapes_of (crate_of program.now)) (at_id (trees_of program.now.types) ty)))) }
    ensures size { OnOk result (length (row_at found.new.marks 0) ≡ length (row_at found.old.marks 0)) }
{
    match program.destructor(ty) {
        Some(f) => found.add(f),
        None => Ok(()),
    }
}

/// Goes over a part whose type is a definition: its destructor is found, and its fields are opened.
fn enter_definition(
    program: &Program,
    part: Part,
    def: u32,
    found: &mut Found,
    stack: &mut Vec<Part>,
) -> Result<(), OutOfMemory>
    requires knows { KnowsDrops program.now }
    requires ids { IdsInTable program.now }
    requires in_table { part.ty.0 < length program.now.types }
    requires is { at_id (trees_of program.now.types) part.ty ≡ named def }
    requires inside { All (λ f. f < length (row_at found.old.marks 0)) (destructors_at (shapes_of (crate_of program.now)) (trees_of program.now.types) part) }
    ensures entered { OnOk result (Entered (shapes_of (crate_of program.now)) (trees_of program.now.types) part (map fn_number found.old.list) (map fn_number found.new.list) stack.old.items stack.new.items) }
    ensures size { OnOk result (length (row_at found.new.marks 0) ≡ length (row_at found.old.marks 0)) }
{
    if part.depth == 0 {
        return Ok(());
    }
    let Some(definition) = program.defs.get(def as usize) else {
        return Ok(());
    };
    add_own(program, part.ty, found)?;
    open_variants(stack, definition.variants.as_slice(), part.depth - 1)?;
    Ok(())
}

/// Goes over a part: its destructor is found, and the parts inside it are opened.
fn enter(
    program: &Program,
    part: Part,
    found: &mut Found,
    stack: &mut Vec<Part>,
) -> Result<(), OutOfMemory>
    requires knows { KnowsDrops program.now }
    requires ids { IdsInTable program.now }
    requires in_table { part.ty.0 < length program.now.types }
    requires inside { All (λ f. f < length (row_at found.old.marks 0)) (destructors_at (shapes_of (crate_of program.now)) (trees_of program.now.types) part) }
    ensures entered { OnOk result (Entered (shapes_of (crate_of program.now)) (trees_of program.now.types) part (map fn_number found.old.list) (map fn_number found.new.list) stack.old.items stack.new.items) }
    ensures size { OnOk result (length (row_at found.new.marks 0) ≡ length (row_at found.old.marks 0)) }
{
    match program.ty(part.ty) {
        Ty::Named(def) => enter_definition(program, part, *def, found, stack),
        Ty::Tuple(ids) => {
            open_types(stack, ids.as_slice(), part.depth)?;
            Ok(())
        }
        Ty::Scalar(_) => Ok(()),
        Ty::Ref(_) => Ok(()),
        Ty::RefMut(_) => Ok(()),
    }
}

/// Adds the destructors in a type, in the order of declaration and outer before inner.
fn add_destructors(
    alloc: Global,
    program: &Program,
    ty: TyId,
    found: &mut Found,
) -> Result<(), OutOfMemory>
    requires knows { KnowsDrops program.now }
    requires ids { IdsInTable program.now }
    requires in_table { ty.0 < length program.now.types }
    requires inside { All (λ f. f < length (row_at found.old.marks 0)) (of.destructors_in (shapes_of (crate_of program.now)) (at_id (trees_of program.now.types) ty)) }
    ensures list { OnOk result (map fn_number found.new.list ≡ all_added (map fn_number found.old.list) (of.destructors_in (shapes_of (crate_of program.now)) (at_id (trees_of program.now.types) ty))) }
    ensures size { OnOk result (length (row_at found.new.marks 0) ≡ length (row_at found.old.marks 0)) }
{
    let mut stack = Vec::new(alloc);
    let depth = program.defs.len();
    stack.push(Part { ty, depth })?;
    while let Some(part) = stack.pop() {
        if program.needs_drop(part.ty) {
            enter(program, part, found, &mut stack)?;
        }
    }
    Ok(())
}

/// Adds the functions that a terminator calls or may run.
fn add_called(
    alloc: Global,
    program: &Program,
    body: &Body,
    term: &Term,
    found: &mut Found,
) -> Result<(), OutOfMemory>
    requires knows { KnowsDrops program.now }
    requires ids { IdsInTable program.now }
    requires body_ids { BodyInTable program.now.types body.now }
    requires inside { All (λ f. f < length (row_at found.old.marks 0)) (of.called (shapes_of (crate_of program.now)) (body_of (trees_of program.now.types) body.now).locals term.now) }
    ensures list { OnOk result (map fn_number found.new.list ≡ all_added (map fn_number found.old.list) (of.called (shapes_of (crate_of program.now)) (body_of (trees_of program.now.types) body.now).locals term.now)) }
    ensures size { OnOk result (length (row_at found.new.marks 0) ≡ length (row_at found.old.marks 0)) }
{
    match term {
        Term::Call(_, Callee::Local(f), _, _) => found.add(*f),
        Term::Drop(place, _) => match program.place_ty(body, place) {
            Some(ty) => add_destructors(alloc, program, ty, found),
            None => Ok(()),
        },
        _ => Ok(()),
    }
}

/// The functions that a body calls, and the destructors that its drops may run: each once, in the order in which they first come.
///
/// # Errors
///
/// `OutOfMemory`.
pub fn callees(alloc: Global, program: &Program, body: &Body) -> Result<List<FnId>, OutOfMemory>
    requires knows { KnowsDrops program.now }
    requires ids { IdsInTable program.now }
    requires body_ids { BodyInTable program.now.types body.now }
    requires few { length program.now.functions < 2 ^ 32 }
    requires inside { All (λ f. f < length program.now.functions) (of.all_called (shapes_of (crate_of program.now)) (body_of (trees_of program.now.types) body.now)) }
    ensures { IfOk result (λ list. map fn_number list ≡ of.callees (shapes_of (crate_of program.now)) (body_of (trees_of program.now.types) body.now)) }
{
    let mut found = Found::new(alloc, program.functions.len() as u32)?;
    for block in body.blocks.as_slice() {
        add_called(alloc, program, body, &block.term, &mut found)?;
    }
    Ok(found.into_list())
}

/// In a formed body all that is called or may be run by a drop is a function of the crate, as `callees` asks.
pub fn calls_stay_inside()
    ensures { (C : Crate) (b : TypedBody) → IsTrue (body_formed C b) → All (λ f. f < length C.functions) (of.all_called (shapes_of C) b) }
{}
