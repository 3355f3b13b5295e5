ghost use Rattle.std.specs.Prelude.{◌≡◌, ◌≢◌, ◌<◌, ◌≤◌, ◌⊎◌, [], List, ℕ, Some, map, string_bytes, codes};
ghost use Rattle.std.specs.Io.KnownBytes.{Appends, IsAtEnd};
ghost use Rattle.pipe_io.specs.Causes.{Rose, AppendsFront};
ghost use Rattle.mir_text.specs.Text.{text};
ghost use Rattle.pipe_words.specs.declared.command.Command.TheVariants.{Seq, Gen};
ghost use Rattle.pipe_words.specs.Commands.{Says, IsMisfit};
ghost use Rattle.crate_gen.specs.Made.{made_crate};
ghost use Rattle.mirpipe_cli.specs.Answer.{Told, Answers, ReadsNothing, IsOptimised};

use crate::command::{work, write};
use crate::fault::Refusal;
use crate::notes::{note, note_fault, note_word};
use pipe_io::{Failed, Sink, Source};
use pipe_words::{WordsFault, parse};
use std::alloc::Global;

/// Does what the words ask for, and answers the status.
///
/// | Words | What is written at status 0 |
/// |---|---|
/// | `check` | `ok F`, F the number of functions |
/// | `seq` | the text of the crate after the passes |
/// | `run FN ARGS --answers LIST --steps N` | the text of a run of the function with the path FN |
/// | `dump STAGE FN` | the text of the function with the path FN as it is at the stage |
/// | `gen S N` | the text of the crate of N functions that is made from the number S; nothing is read |
///
/// | Status | Meaning | Notes |
/// |---|---|---|
/// | 0 | done, and the input was read to its end, but by `gen` | none |
/// | 1 | the input is refused | code and line, as `S04 line 8`, `V05 line 9`, `L02 line 260000`; or `L01 67108865` |
/// | 1 | no function has the path FN, or ARGS makes no call of it | `E01`, or `E02` |
/// | 2 | the words fit no command | `word K`, the place of the first that doesn't fit |
/// | 3 | the source failed | `read fault` |
/// | 4 | `out` failed, and a front of the answer is written | `write fault` |
/// | 5 | memory was refused | `out of memory` |
///
/// A fault of `notes` changes neither status nor output. All memory is taken before the first byte is written.
pub fn run_quiet<S: Source, K: Sink, N: Sink>(
    alloc: Global,
    words: &[String],
    source: &mut S,
    out: &mut K,
    notes: &mut N,
) -> u8
    ensures bound { result ≤ 5 }

    // When each status comes, whether or not source and sinks tell their bytes.
    ensures words { (place : ℕ) → IsMisfit (map string_bytes words.now) place → (result ≡ 2) ⊎ (result ≡ 5) }
    ensures words_only { result ≡ 2 → (place : ℕ) × IsMisfit (map string_bytes words.now) place }
    ensures read { result ≡ 3 → Rose (S.faults source.old) (S.faults source.new) }
    ensures read_grew { S.faults source.old < S.faults source.new → (result ≡ 3) ⊎ (result ≡ 5) }
    ensures write { result ≡ 4 → Rose (K.faults out.old) (K.faults out.new) }
    ensures write_grew { K.faults out.old < K.faults out.new → result ≡ 4 }
    ensures end { result ≡ 0 → (ReadsNothing (map string_bytes words.now) → ⊥) → IsAtEnd (S.left source.new) }
    ensures unread { ReadsNothing (map string_bytes words.now) → source.new ≡ source.old }
    ensures unread_ends { ReadsNothing (map string_bytes words.now) → (result ≡ 0) ⊎ (result ≡ 4) ⊎ (result ≡ 5) }

    // What is told, where no object fails and memory suffices.
    ensures told { (input : List ℕ) → S.left source.old ≡ Some input → (Rose (S.faults source.old) (S.faults source.new) → ⊥)
        → (Rose (K.faults out.old) (K.faults out.new) → ⊥) → result ≢ 5
        → (told : Told) × Answers (map string_bytes words.now) input told × (result ≡ told.status) × Appends (K.written out.old) (K.written out.new) told.out
        × ((Rose (N.faults notes.old) (N.faults notes.new) → ⊥) → Appends (N.written notes.old) (N.written notes.new) told.notes) }

    // What `seq` writes: the text of a crate that refines the accepted one.
    ensures printed { (input : List ℕ) → S.left source.old ≡ Some input → Says (map string_bytes words.now) Seq → result ≡ 0
        → (bytes : List ℕ) × IsOptimised input bytes × Appends (K.written out.old) (K.written out.new) bytes }

    // What `gen` writes, whatever source there is.
    ensures made { (start functions : ℕ) → Says (map string_bytes words.now) (Gen start functions) → result ≡ 0
        → Appends (K.written out.old) (K.written out.new) (text (made_crate start functions)) }
    ensures made_front { (start functions : ℕ) → Says (map string_bytes words.now) (Gen start functions) → result ≡ 4
        → AppendsFront (K.written out.old) (K.written out.new) (text (made_crate start functions)) }

    // What comes out where `out` fails, and that nothing does for other causes.
    ensures front { (input : List ℕ) → S.left source.old ≡ Some input → result ≡ 4
        → (told : Told) × Answers (map string_bytes words.now) input told × AppendsFront (K.written out.old) (K.written out.new) told.out }
    ensures nothing { result ≢ 0 → result ≢ 4 → Appends (K.written out.old) (K.written out.new) [] }

    // The notes on a failure.
    ensures read_line { result ≡ 3 → (Rose (N.faults notes.old) (N.faults notes.new) → ⊥) → Appends (N.written notes.old) (N.written notes.new) (codes "read fault\n") }
    ensures write_line { result ≡ 4 → (Rose (N.faults notes.old) (N.faults notes.new) → ⊥) → Appends (N.written notes.old) (N.written notes.new) (codes "write fault\n") }
    ensures memory_line { result ≡ 5 → (Rose (N.faults notes.old) (N.faults notes.new) → ⊥) → Appends (N.written notes.old) (N.written notes.new) (codes "out of memory\n") }
{
    let command = match parse(alloc, words) {
        Ok(command) => command,
        Err(fault) => match fault {
            WordsFault::Bad(place) => {
                note_word(notes, place);
                return 2;
            }
            WordsFault::OutOfMemory => {
                note(notes, b"out of memory\n");
                return 5;
            }
        },
    };
    match work(alloc, command, source) {
        Ok(output) => match write(&output, out) {
            Ok(()) => 0,
            Err(Failed) => {
                note(notes, b"write fault\n");
                4
            }
        },
        Err(Refusal::Input(fault)) => {
            note_fault(notes, fault);
            1
        }
        Err(Refusal::ReadFault) => {
            note(notes, b"read fault\n");
            3
        }
        Err(Refusal::OutOfMemory) => {
            note(notes, b"out of memory\n");
            5
        }
    }
}
