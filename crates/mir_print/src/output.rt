ghost use Rattle.std.specs.Prelude.{◌≡◌, ◌≤◌, ◌+◌, ◌++◌, ◌↔◌, IsTrue, [], true, false, length, decimal};
ghost use Rattle.std.specs.Io.KnownBytes.{Appends};
ghost use Rattle.pipe_io.specs.Causes.{AppendsFront, Rose};
ghost use Rattle.mir_print.specs.Prints.{Goes, at, counted};
ghost use Rattle.mir_text.specs.TypeText.{piece};

use itoa::Buffer;
use pipe_io::{Sink, write_all};
use std::marker::Model;

const ROOM: usize = 8192;

/// Bytes that are printed and wait to be written, so that a sink is called for many pieces at once, and how many were printed. After a
/// write that failed nothing more is written.
#[derive(Drop)]
pub struct Output {
    bytes: [u8; ROOM],
    filled: usize,
    going: bool,
    count: u64,
}

impl Model for Output {
    ghost use Rattle.std.specs.Prelude.{◌≤◌, take, length};
    ghost use Rattle.mir_print.specs.Prints.{Waiting};

    ghost Value = { Waiting };

    ghost view = { λ output. record { going = output.going; bytes = take output.filled output.bytes; count = output.count } };

    ghost invariant = { λ output. output.filled ≤ 8192 };
}

// Writes a text, and answers whether the sink took it.
fn send<K: Sink>(sink: &mut K, text: &[u8]) -> bool
    ensures sent { result ≡ true → Appends (K.written sink.old) (K.written sink.new) text.now × (K.faults sink.new ≡ K.faults sink.old) }
    ensures stopped { result ≡ false → Rose (K.faults sink.old) (K.faults sink.new) × (K.faults sink.old ≤ K.faults sink.new) }
    ensures front { AppendsFront (K.written sink.old) (K.written sink.new) text.now }
{
    match write_all(sink, text) {
        Ok(()) => true,
        Err(_) => false,
    }
}

impl Output {
    /// Nothing waits.
    pub fn new() -> Output
        ensures { result ≡ record { going = true; bytes = []; count = 0 } }
    {
        Output {
            bytes: [0; ROOM],
            filled: 0,
            going: true,
            count: 0,
        }
    }

    /// Whether no write failed yet.
    pub fn is_going(&self) -> bool
        ensures { result ≡ self.now.going }
    {
        self.going
    }

    /// How many bytes were printed, or 2^64 - 1 where it is more.
    pub fn count(&self) -> u64
        ensures { result ≡ self.now.count }
    {
        self.count
    }

    fn has_room(&self, count: usize) -> bool
        ensures { IsTrue result ↔ (length self.now.bytes + count ≤ 8192) }
    {
        count <= ROOM - self.filled
    }

    // Puts a text behind what waits.
    fn keep(&mut self, text: &[u8])
        requires { length self.old.bytes + length text.now ≤ 8192 }
        ensures bytes { self.new.bytes ≡ self.old.bytes ++ text.now }
        ensures going { self.new.going ≡ self.old.going }
        ensures count { self.new.count ≡ counted self.old.count text.now }
    {
        let end = self.filled + text.len();
        self.bytes[self.filled..end].copy_from_slice(text);
        self.filled = end;
        self.count = self.count.saturating_add(text.len() as u64);
    }

    // Nothing waits any more, and a text was printed.
    fn clear(&mut self, going: bool, text: &[u8])
        ensures { self.new ≡ record { going = going; bytes = []; count = counted self.old.count text.now } }
    {
        self.filled = 0;
        self.going = going;
        self.count = self.count.saturating_add(text.len() as u64);
    }

    // Prints a text that is longer than there is room.
    #[tactic(auto, using(crate::proofs::Printing::goes_passed, crate::proofs::Printing::goes_stopped))]
    fn pass<K: Sink>(&mut self, sink: &mut K, text: &[u8])
        requires { self.old.bytes ≡ [] }
        ensures { Goes (at (K.written sink.old) (K.faults sink.old) self.old)
            (at (K.written sink.new) (K.faults sink.new) self.new) text.now }
    {
        if self.going {
            let going = send(sink, text);
            self.clear(going, text);
        } else {
            self.clear(false, text);
        }
    }

    // Prints a text where nothing waits.
    #[tactic(auto, using(crate::proofs::Printing::goes_kept))]
    fn put_first<K: Sink>(&mut self, sink: &mut K, text: &[u8])
        requires { self.old.bytes ≡ [] }
        ensures { Goes (at (K.written sink.old) (K.faults sink.old) self.old)
            (at (K.written sink.new) (K.faults sink.new) self.new) text.now }
    {
        if self.has_room(text.len()) {
            self.keep(text);
        } else {
            self.pass(sink, text);
        }
    }

    /// Writes what waits.
    #[tactic(auto, using(crate::proofs::Printing::goes_flushed, crate::proofs::Printing::goes_stopped))]
    pub fn flush<K: Sink>(&mut self, sink: &mut K)
        ensures goes { Goes (at (K.written sink.old) (K.faults sink.old) self.old)
            (at (K.written sink.new) (K.faults sink.new) self.new) [] }
        ensures none { self.new.bytes ≡ [] }
    {
        if self.going {
            let going = send(sink, &self.bytes[..self.filled]);
            self.clear(going, &[]);
        } else {
            self.clear(false, &[]);
        }
    }

    // Makes room for a text, and prints it.
    #[tactic(auto, using(crate::proofs::Printing::goes_then))]
    fn put_anew<K: Sink>(&mut self, sink: &mut K, text: &[u8])
        ensures { Goes (at (K.written sink.old) (K.faults sink.old) self.old)
            (at (K.written sink.new) (K.faults sink.new) self.new) ([] ++ text.now) }
    {
        self.flush(sink);
        self.put_first(sink, text);
    }

    /// Prints a text.
    #[tactic(auto, using(crate::proofs::Printing::goes_kept), unfolding(mir_text::specs::TypeText::piece))]
    pub fn put<K: Sink>(&mut self, sink: &mut K, text: &[u8])
        ensures { Goes (at (K.written sink.old) (K.faults sink.old) self.old)
            (at (K.written sink.new) (K.faults sink.new) self.new) (piece text.now) }
    {
        if self.has_room(text.len()) {
            self.keep(text);
        } else {
            self.put_anew(sink, text);
        }
    }

    /// Prints a number in decimal digits.
    pub fn put_number<K: Sink>(&mut self, sink: &mut K, number: u128)
        ensures { Goes (at (K.written sink.old) (K.faults sink.old) self.old)
            (at (K.written sink.new) (K.faults sink.new) self.new) (piece (decimal number)) }
    {
        self.put(sink, Buffer::new().format(number).as_bytes());
    }
}
