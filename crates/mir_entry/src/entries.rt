ghost use Rattle.std.specs.Prelude.{◌≡◌, ◌+◌, ◌<◌, ◌^◌, ℕ, map, take, drop, length, IfOk, IsTrue, ◌↔◌, MatchOption, slice_get};
ghost use Rattle.mir_syntax.specs.Crate.{TypedBody};
ghost use Rattle.mir_syntax.specs.declared.body.Function as spec;
ghost use Rattle.mir_semantics.specs.Entry.{IsEntry, AreFlat, arg_types};
ghost use Rattle.mir_semantics.specs.Run.{Entry};
ghost use Rattle.mir_meaning.specs.Programs.{shapes_in};
ghost use Rattle.mir_meaning.specs.Views.{value_of};
ghost use Rattle.mir_machine.specs.Seen.{code_in};
ghost use Rattle.mir_machine.specs.Runs.{entry_in};
ghost use Rattle.mir_machine.specs.Ends.{integer_in};
ghost use Rattle.std.specs.List.{list_all};
ghost use Rattle.mir_entry.specs.Entering.{few_variants, Enters, Refuses, Strays};
ghost use Rattle.mir_entry.specs.Misfits.{Misfits};
ghost use Rattle.mir_entry.specs.Readings.{integers_of};
ghost use Rattle.mir_entry.specs.declared.entries.EntryFault.TheVariants as fault;

use crate::reads::{Arguments, read_arguments};
use crate::refers::types_refer_any;
use crate::splits::split_functions;
use mir_machine::EntryCall;
use mir_meaning::datum::Datum;
use mir_syntax::{Body, FnId, Function, List, Number, OutOfMemory, Program, TyId};
use std::alloc::Global;

/// Why numbers call no function from outside.
#[derive(Clone, Copy, Debug, Drop, PartialEq, Eq)]
pub enum EntryFault {
    /// The first argument that the numbers give no value of, counted from 0; the number of arguments where numbers are left over, or
    /// the function can't be called from outside.
    NotFit(u32),
    OutOfMemory,
}

impl From<OutOfMemory> for EntryFault {
    ghost use Rattle.std.specs.Prelude.{◌≡◌};
    ghost use Rattle.mir_entry.specs.declared.entries.EntryFault.TheVariants as fault;

    ghost from_gives = { λ _ e. e ≡ fault.OutOfMemory };

    fn from(_error: OutOfMemory) -> EntryFault {
        EntryFault::OutOfMemory
    }
}

/// The types of a function's result and arguments.
fn signature(body: &Body) -> &[TyId]
    ensures takes { result.now ≡ take (body.now.args + 1) body.now.locals }
    ensures few { length result.now < 2 ^ 32 + 1 }
{
    let locals = body.locals.as_slice();
    let count = body.args as usize + 1;
    if count < locals.len() {
        &locals[..count]
    } else {
        locals
    }
}

/// The types without the first.
fn behind_first(types: &[TyId]) -> &[TyId]
    requires { length types.now < 2 ^ 32 + 1 }
    ensures drops { result.now ≡ drop 1 types.now }
    ensures few { length result.now < 2 ^ 32 }
{
    match types {
        [_, rest @ ..] => rest,
        [] => types,
    }
}

/// Whether each definition has no more variants than numbers of 32 bits.
fn few_variants(program: &Program) -> bool
    ensures { result ≡ list_all few_variants program.now.defs }
{
    program
        .defs
        .as_slice()
        .iter()
        .all(|def| def.variants.len() <= 0x1_0000_0000)
}

/// The arguments that numbers give a function.
fn arguments(
    alloc: Global,
    program: &Program,
    body: &Body,
    flat: &[Number],
) -> Result<List<Datum>, EntryFault>
    ensures enters { IfOk result (λ args. Enters program.now body.now (integers_of flat.now) args) }
    ensures refuses { (k : ℕ) → result ≡ Err (fault.NotFit k) → Refuses program.now body.now (integers_of flat.now) }
    ensures strays { (k : ℕ) → result ≡ Err (fault.NotFit k) → Strays program.now body.now (integers_of flat.now) k }
{
    let signature = signature(body);
    if types_refer_any(program, signature) {
        return Err(EntryFault::NotFit(body.args));
    }
    match read_arguments(alloc, program, behind_first(signature), flat)? {
        Arguments::Fit(args, rest) => {
            if rest.is_empty() {
                Ok(args)
            } else {
                Err(EntryFault::NotFit(body.args))
            }
        }
        Arguments::Stop(place) => Err(EntryFault::NotFit(place)),
    }
}

/// A call of a function from outside, its arguments being given by their flat form.
///
/// # Errors
///
/// `NotFit` where the function's signature holds a reference, or the numbers are the flat form of no arguments of its types: with the
/// first argument that they give no value of, or the number of arguments (`Misfits`). A program with a definition of more than 2^32
/// variants is want of memory.
pub fn entry(
    alloc: Global,
    program: &Program,
    f: FnId,
    flat: &[Number],
) -> Result<EntryCall, EntryFault>
    ensures entry { IfOk result (λ call. IsEntry (code_in program.now) (entry_in call)) }
    ensures function { IfOk result (λ call. call.f ≡ f) }
    ensures fits { IfOk result (λ call. (body : TypedBody) → slice_get (code_in program.now).bodies f.0 ≡ Some body → AreFlat (shapes_in program.now) (arg_types body) (map integer_in flat.now) (map value_of call.args)) }
    ensures refused { (k : ℕ) → result ≡ Err (fault.NotFit k) → (body : TypedBody) (e : Entry) → slice_get (code_in program.now).bodies f.0 ≡ Some body → e.function ≡ f.0 → IsEntry (code_in program.now) e → AreFlat (shapes_in program.now) (arg_types body) (map integer_in flat.now) e.args → ⊥ }
    ensures place { (k : ℕ) → result ≡ Err (fault.NotFit k) → (body : TypedBody) → slice_get (code_in program.now).bodies f.0 ≡ Some body → Misfits (shapes_in program.now) body (map integer_in flat.now) k }
{
    if !few_variants(program) {
        return Err(EntryFault::OutOfMemory);
    }
    match program.functions.get(f.0 as usize) {
        Some(function) => {
            let args = arguments(alloc, program, &function.body, flat)?;
            Ok(EntryCall { f, args })
        }
        None => Err(EntryFault::NotFit(0)),
    }
}

/// Whether a function has a path.
fn has_path(function: &Function, path: &[u8]) -> bool
    ensures { IsTrue result ↔ (function.now.path ≡ path.now) }
{
    function.path.as_slice() == path
}

/// The function with a path; the first where several have it.
pub fn function_at(program: &Program, path: &[u8]) -> Option<FnId>
    ensures { MatchOption result ((k : ℕ) (g : spec.Function) → k < 2 ^ 32 → slice_get program.now.functions k ≡ Some g → g.path ≡ path.now → ⊥) (λ f. (g : spec.Function) × (slice_get program.now.functions f.0 ≡ Some g) × (g.path ≡ path.now) × ((k : ℕ) (h : spec.Function) → k < f.0 → slice_get program.now.functions k ≡ Some h → h.path ≡ path.now → ⊥)) }
{
    let mut left = program.functions.as_slice();
    let mut place = 0;
    'functions: while let Some((function, rest)) = split_functions(left) {
        if has_path(function, path) {
            return Some(FnId(place));
        }
        if place == u32::MAX {
            return None;
        }
        place += 1;
        left = rest;
    }
    None
}
