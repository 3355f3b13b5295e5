ghost use Rattle.std.specs.Prelude.{◌≤◌, ◌++◌, codes, decimal};
ghost use Rattle.std.specs.Io.KnownBytes.{Appends};
ghost use Rattle.pipe_io.specs.Causes.{Rose};
ghost use Rattle.mirpipe_cli.specs.Refused.{zero_before, place_line, fault_line};

use crate::fault::InputFault;
use itoa::Buffer;
use pipe_io::{Sink, write_all};

/// Writes a line of notes, or what a fault leaves of it.
pub fn note<N: Sink>(notes: &mut N, line: &[u8])
    ensures later { N.faults notes.old ≤ N.faults notes.new }
    ensures line { (Rose (N.faults notes.old) (N.faults notes.new) → ⊥) → Appends (N.written notes.old) (N.written notes.new) line.now }
{
    let _ = write_all(notes, line);
}

/// Notes the place of a word that doesn't fit.
pub fn note_word<N: Sink>(notes: &mut N, place: u32)
    ensures later { N.faults notes.old ≤ N.faults notes.new }
    ensures line { (Rose (N.faults notes.old) (N.faults notes.new) → ⊥) → Appends (N.written notes.old) (N.written notes.new) (codes "word " ++ (decimal place ++ codes "\n")) }
{
    note(notes, b"word ");
    note(notes, Buffer::new().format(place).as_bytes());
    note(notes, b"\n");
}

fn note_zero<N: Sink>(notes: &mut N, code: u8)
    ensures later { N.faults notes.old ≤ N.faults notes.new }
    ensures line { (Rose (N.faults notes.old) (N.faults notes.new) → ⊥) → Appends (N.written notes.old) (N.written notes.new) (zero_before code) }
{
    if code < 10 {
        note(notes, b"0");
    }
}

fn note_place<N: Sink>(notes: &mut N, letter: &[u8], code: u8, line: u32)
    ensures later { N.faults notes.old ≤ N.faults notes.new }
    ensures line { (Rose (N.faults notes.old) (N.faults notes.new) → ⊥) → Appends (N.written notes.old) (N.written notes.new) (place_line letter.now code line) }
{
    note(notes, letter);
    note_zero(notes, code);
    note(notes, Buffer::new().format(code).as_bytes());
    note(notes, b" line ");
    note(notes, Buffer::new().format(line).as_bytes());
    note(notes, b"\n");
}

/// Notes the code and the line of a fault of the input.
pub fn note_fault<N: Sink>(notes: &mut N, fault: InputFault)
    ensures later { N.faults notes.old ≤ N.faults notes.new }
    ensures line { (Rose (N.faults notes.old) (N.faults notes.new) → ⊥) → Appends (N.written notes.old) (N.written notes.new) (fault_line fault) }
{
    match fault {
        InputFault::Long => note(notes, b"L01 67108865\n"),
        InputFault::Text { code, line } => note_place(notes, b"S", code, line),
        InputFault::Rule { code, line } => note_place(notes, b"V", code, line),
        InputFault::Limit { code, line } => note_place(notes, b"L", code, line),
        InputFault::Drops { line } => note_place(notes, b"S", 16, line),
        InputFault::NoFunction => note(notes, b"E01\n"),
        InputFault::NoEntry => note(notes, b"E02\n"),
    }
}
