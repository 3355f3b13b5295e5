ghost use Rattle.std.specs.Prelude.{◌≡◌, ◌<◌, ◌≤◌, ◌∷◌, [], length, drop, map, IsTrue, IfOk, OnOk};
ghost use Rattle.std.specs.List.{list_all};
ghost use Rattle.mir_syntax.specs.Tree.{at_id, trees_of, node};
ghost use Rattle.mir_syntax.specs.Table.{ids_below};
ghost use Rattle.mir_resolve.specs.Types.{Grown, put_told, taken_told, ref_told, path_told, part_told, top_told, read_in, read_id, read_known, read_below, stack_in, ref_ty_of};
ghost use Rattle.mir_syntax.specs.Tree.{empty, named};
ghost use Rattle.mir_text.specs.Names.{type_named, is_known};
ghost use Rattle.mir_tree.specs.Types.{path_rule, type_rule};
ghost use Rattle.std.specs.Prelude.{true};

use crate::index::PathIndex;
use crate::paths::put_path;
use mir_names::Names;
use mir_syntax::{List, OutOfMemory, Program, ScalarTy, Ty, TyId};
use mir_tree::{PathText, TypePart, TypeText};
use std::alloc::Global;

/// A type of a program's table, and whether each path in it names a struct or an enum.
#[derive(Clone, Copy, Debug, Drop, PartialEq, Eq)]
pub struct ReadTy {
    pub id: TyId,
    pub known: bool,
}

/// So many types a program may have: far more than a text of this size can name.
const MOST_TYPES: u32 = 1 << 30;

fn intern(program: &mut Program, ty: Ty) -> Result<TyId, OutOfMemory>
    requires { IsTrue (ids_below (length program.old.types) ty) }
    ensures stands { IfOk result (λ id. at_id (trees_of program.new.types) id ≡ node (trees_of program.old.types) ty) }
    ensures inside { IfOk result (λ id. id.0 < length program.new.types) }
    ensures grown { OnOk result (Grown program.old program.new) }
{
    if program.types() >= MOST_TYPES {
        return Err(OutOfMemory);
    }
    let id = program.intern(ty)?;
    Ok(id)
}

/// Puts a type on top.
fn push(
    program: &mut Program,
    stack: &mut List<ReadTy>,
    ty: Ty,
    known: bool,
) -> Result<(), OutOfMemory>
    requires made { IsTrue (ids_below (length program.old.types) ty) }
    requires inside { IsTrue (list_all (read_below (length program.old.types)) stack.old) }
    ensures read { OnOk result (stack_in (trees_of program.new.types) stack.new ≡ (node (trees_of program.old.types) ty, known) ∷ stack_in (trees_of program.old.types) stack.old) }
    ensures inside { OnOk result (IsTrue (list_all (read_below (length program.new.types)) stack.new)) }
    ensures grown { OnOk result (Grown program.old program.new) }
{
    let id = intern(program, ty)?;
    stack.push(ReadTy { id, known })?;
    Ok(())
}

fn ids_of(alloc: Global, reads: &[ReadTy]) -> Result<List<TyId>, OutOfMemory>
    ensures { IfOk result (λ ids. ids ≡ map read_id reads.now) }
{
    let mut ids = List::with_capacity(alloc, reads.len())?;
    for read in reads {
        ids.push(read.id)?;
    }
    Ok(ids)
}

fn all_known(reads: &[ReadTy]) -> bool
    ensures { result ≡ list_all read_known reads.now }
{
    reads.iter().all(|read| read.known)
}

fn parts_from(reads: &[ReadTy], at: usize) -> &[ReadTy]
    requires { at ≤ length reads.now }
    ensures { result.now ≡ drop at reads.now }
{
    let (_, parts) = reads.split_at(at);
    parts
}

/// Takes so many types off, and puts the tuple of them on top.
fn push_tuple(
    alloc: Global,
    program: &mut Program,
    stack: &mut List<ReadTy>,
    count: u32,
) -> Result<(), OutOfMemory>
    requires { IsTrue (list_all (read_below (length program.old.types)) stack.old) }
    ensures read { OnOk result (stack_in (trees_of program.new.types) stack.new ≡ put_told (taken_told count (empty, true) (stack_in (trees_of program.old.types) stack.old))) }
    ensures inside { OnOk result (IsTrue (list_all (read_below (length program.new.types)) stack.new)) }
    ensures grown { OnOk result (Grown program.old program.new) }
{
    let at = stack.len().saturating_sub(count as usize);
    let parts = parts_from(stack.as_slice(), at);
    let ids = ids_of(alloc, parts)?;
    let known = all_known(parts);
    stack.truncate(at);
    push(program, stack, Ty::Tuple(ids), known)
}

fn ref_ty(mutable: bool, id: TyId) -> Ty
    ensures { result ≡ ref_ty_of mutable id }
{
    if mutable { Ty::RefMut(id) } else { Ty::Ref(id) }
}

/// Makes the type on top a reference to it.
fn push_ref(
    program: &mut Program,
    stack: &mut List<ReadTy>,
    mutable: bool,
) -> Result<(), OutOfMemory>
    requires { IsTrue (list_all (read_below (length program.old.types)) stack.old) }
    ensures read { OnOk result (stack_in (trees_of program.new.types) stack.new ≡ ref_told mutable (stack_in (trees_of program.old.types) stack.old)) }
    ensures inside { OnOk result (IsTrue (list_all (read_below (length program.new.types)) stack.new)) }
    ensures grown { OnOk result (Grown program.old program.new) }
{
    match stack.pop() {
        Some(read) => push(program, stack, ref_ty(mutable, read.id), read.known),
        None => Ok(()),
    }
}

/// Lists that are used again and again: the bytes of a path, and the types of which a larger one is made.
#[derive(Drop)]
pub struct Scratch {
    pub path: List<u8>,
    pub types: List<ReadTy>,
}

/// The struct or enum that a path names, and whether it names one; else a number that no definition has.
fn def_named(
    path: &mut List<u8>,
    strings: &Names,
    paths: &PathIndex,
    text: &PathText,
) -> Result<(u32, bool), OutOfMemory>
    ensures { IfOk result (λ found. (named found.0, found.1) ≡ path_told strings.now paths.now (path_rule text.now)) }
{
    put_path(path, strings, text)?;
    match paths.find(path.as_slice()) {
        Some(def) => Ok((def, true)),
        None => Ok((paths.len(), false)),
    }
}

fn push_path(
    strings: &Names,
    paths: &PathIndex,
    program: &mut Program,
    scratch: &mut Scratch,
    text: &PathText,
) -> Result<(), OutOfMemory>
    requires { IsTrue (list_all (read_below (length program.old.types)) scratch.old.types) }
    ensures read { OnOk result (stack_in (trees_of program.new.types) scratch.new.types ≡ path_told strings.now paths.now (path_rule text.now) ∷ stack_in (trees_of program.old.types) scratch.old.types) }
    ensures inside { OnOk result (IsTrue (list_all (read_below (length program.new.types)) scratch.new.types)) }
    ensures grown { OnOk result (Grown program.old program.new) }
{
    let (def, known) = def_named(&mut scratch.path, strings, paths, text)?;
    push(program, &mut scratch.types, Ty::Named(def), known)
}

fn push_part(
    alloc: Global,
    strings: &Names,
    paths: &PathIndex,
    program: &mut Program,
    scratch: &mut Scratch,
    part: &TypePart,
) -> Result<(), OutOfMemory>
    requires { IsTrue (list_all (read_below (length program.old.types)) scratch.old.types) }
    ensures read { OnOk result (stack_in (trees_of program.new.types) scratch.new.types ≡ part_told strings.now paths.now part.now (stack_in (trees_of program.old.types) scratch.old.types)) }
    ensures inside { OnOk result (IsTrue (list_all (read_below (length program.new.types)) scratch.new.types)) }
    ensures grown { OnOk result (Grown program.old program.new) }
{
    match part {
        TypePart::Int(int) => push(
            program,
            &mut scratch.types,
            Ty::Scalar(ScalarTy::Int(*int)),
            true,
        ),
        TypePart::Bool => push(
            program,
            &mut scratch.types,
            Ty::Scalar(ScalarTy::Bool),
            true,
        ),
        TypePart::Path(text) => push_path(strings, paths, program, scratch, text),
        TypePart::Unit => push(
            program,
            &mut scratch.types,
            Ty::Tuple(List::new(alloc)),
            true,
        ),
        TypePart::Ref(mutable) => push_ref(program, &mut scratch.types, *mutable),
        TypePart::Tuple(count, _) => push_tuple(alloc, program, &mut scratch.types, *count),
    }
}

/// The type on top; without one it is `()`.
#[tactic(auto, using(crate::proofs::Growing::grown_same))]
fn top(
    alloc: Global,
    program: &mut Program,
    types: &mut List<ReadTy>,
) -> Result<ReadTy, OutOfMemory>
    requires { IsTrue (list_all (read_below (length program.old.types)) types.old) }
    ensures read { IfOk result (λ read. read_in (trees_of program.new.types) read ≡ top_told (stack_in (trees_of program.old.types) types.old)) }
    ensures inside { IfOk result (λ read. read.id.0 < length program.new.types) }
    ensures grown { OnOk result (Grown program.old program.new) }
{
    match types.pop() {
        Some(read) => Ok(read),
        None => {
            let id = intern(program, Ty::Tuple(List::new(alloc)))?;
            Ok(ReadTy { id, known: true })
        }
    }
}

/// Reads a type into the table of a program (Rust Reference, types). A path that names no struct or enum stands for a definition that isn't
/// there, and is told by `known`.
///
/// # Errors
///
/// `OutOfMemory`.
#[tactic(auto, using(crate::proofs::Growing::grown_then, crate::proofs::Growing::grown_same))]
pub fn read_type(
    alloc: Global,
    strings: &Names,
    paths: &PathIndex,
    program: &mut Program,
    scratch: &mut Scratch,
    text: &TypeText,
) -> Result<ReadTy, OutOfMemory>
    ensures stands { IfOk result (λ read. at_id (trees_of program.new.types) read.id ≡ type_named strings.now paths.now (type_rule text.now)) }
    ensures known { IfOk result (λ read. read.known ≡ is_known strings.now paths.now (type_rule text.now)) }
    ensures inside { IfOk result (λ read. read.id.0 < length program.new.types) }
    ensures grown { OnOk result (Grown program.old program.new) }
{
    scratch.types.truncate(0);
    let mut left = text.parts.as_slice();
    'parts: while let [part, rest @ ..] = left {
        push_part(alloc, strings, paths, program, scratch, part)?;
        left = rest;
    }
    let read = top(alloc, program, &mut scratch.types)?;
    Ok(read)
}
