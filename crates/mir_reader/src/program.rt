ghost use Rattle.std.specs.Prelude.{◌≡◌, ◌≤◌, ℕ, length, Err, IfOk};
ghost use Rattle.mir_syntax.specs.Crate.{Crate, crate_of};
ghost use Rattle.mir_syntax.specs.Ids.{IdsInTable};
ghost use Rattle.mir_text.specs.Reads.{Reads, ReadsWith};
ghost use Rattle.mir_reader.specs.Refusals.{IsRefusedWith};
ghost use Rattle.mir_reader.specs.declared.refused.ReadRefused.TheVariants as refused;

use crate::{ReadRefused, read_tree};
use mir_file::{Resolved, resolve_file};
use mir_syntax::{Lines, Program};
use std::alloc::Global;

/// The program that a text names, and the lines of its parts.
#[derive(Drop)]
pub struct Read {
    pub program: Program,
    pub lines: Lines,
}

/// Reads the text of a crate.
///
/// # Errors
///
/// `Fault` with the first fault of the text (S01 to S15), which then names no crate; `OutOfMemory`.
pub fn read_program(alloc: Global, bytes: &[u8]) -> Result<Read, ReadRefused>
    requires { length bytes.now ≤ 67_108_864 }
    // The text names this crate, and its parts have these lines.
    ensures reads { IfOk result (λ read. ReadsWith bytes.now (crate_of read.program) read.lines) }
    // A text that is refused names no crate.
    ensures refuses { (code line : ℕ) → result ≡ Err (refused.Fault code line) → (C : Crate) → Reads bytes.now C → ⊥ }
    // It is refused with the code and the line of its first fault.
    ensures first { (code line : ℕ) → result ≡ Err (refused.Fault code line) → IsRefusedWith bytes.now code line }
    ensures in_table { IfOk result (λ read. IdsInTable read.program) }
{
    let found = read_tree(alloc, bytes)?;
    let file = found.file;
    let Resolved { program, lines } = resolve_file(alloc, &found.strings, file)?;
    Ok(Read { program, lines })
}
