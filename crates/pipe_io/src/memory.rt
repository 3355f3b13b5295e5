ghost use Rattle.std.specs.Prelude.{◌≡◌, ◌≤◌, ◌↔◌, [], ◌+◌, ◌-◌, ◌^◌, ◌++◌, ◌<◌, min, length, take, drop, Some, Ok, IsTrue, IsErr, IfOk, Contains};
ghost use Rattle.std.specs.Io.{ReadsAtMost};
ghost use Rattle.std.specs.Io.KnownBytes.{ReadConsumes, WriteAppends};
ghost use Rattle.pipe_io.specs.Causes.{HasCause, TakesSome};
ghost use Rattle.pipe_io.specs.Objects.{Written, Failing, Choking};

use crate::{Failed, Sink, Source};
use mir_syntax::List;
use std::alloc::Global;
use std::marker::Model;

/// A source in memory. It never fails.
#[derive(Drop)]
pub struct PlainSource {
    bytes: List<u8>,
    at: usize,
}

impl Model for PlainSource {
    ghost use Rattle.std.specs.Prelude.{ℕ, ◌≤◌, List, drop, length};

    ghost Value = { List ℕ };

    ghost view = { λ source. drop source.at source.bytes };

    ghost invariant = { λ source. source.at ≤ length source.bytes };
}

impl PlainSource {
    /// A source of these bytes.
    pub fn new(bytes: List<u8>) -> PlainSource
        ensures { result ≡ bytes }
    {
        PlainSource { bytes, at: 0 }
    }
}

// Copies as many bytes as there are from a place on, and fit, to the front of the buffer.
fn copy_front(bytes: &[u8], at: usize, buf: &mut [u8]) -> usize
    requires { at ≤ length bytes.now }
    ensures moved { drop at bytes.now ≡ take result buf.new ++ drop (at + result) bytes.now }
    ensures end { result ≡ 0 → 0 < length buf.new → drop at bytes.now ≡ [] }
    ensures within { at + result ≤ length bytes.now }
    ensures count { result ≡ min (length bytes.now - at) (length buf.old) }
    ensures room { result ≤ length buf.new }
{
    let rest = &bytes[at..];
    let count = rest.len().min(buf.len());
    buf[..count].copy_from_slice(&rest[..count]);
    count
}

impl Source for PlainSource {
    ghost left = { λ source. Some source };

    ghost faults = { λ _. 0 };

    /// Reads as many bytes as are left and fit.
    fn read(&mut self, buf: &mut [u8]) -> Result<usize, Failed>
        ensures bound { ReadsAtMost result buf.new }
        ensures bytes { ReadConsumes (Some self.old) (Some self.new) result buf.new }
        ensures cause { HasCause 0 0 result }
        ensures count { result ≡ Ok (min (length self.old) (length buf.old)) }
    {
        let count = copy_front(self.bytes.as_slice(), self.at, buf);
        self.at += count;
        Ok(count)
    }
}

/// A sink in memory. It fails only where memory to grow is refused.
#[derive(Drop)]
pub struct PlainSink {
    bytes: List<u8>,
    faults: u64,
}

impl Model for PlainSink {
    ghost use Rattle.pipe_io.specs.Objects.{Written};

    ghost Value = { Written };

    ghost view = { λ sink. record { bytes = sink.bytes; faults = sink.faults } };
}

impl PlainSink {
    /// An empty sink.
    pub fn new(alloc: Global) -> PlainSink
        ensures bytes { result.bytes ≡ [] }
        ensures faults { result.faults ≡ 0 }
    {
        PlainSink {
            bytes: List::new(alloc),
            faults: 0,
        }
    }

    /// What was written.
    pub fn bytes(&self) -> &[u8]
        ensures { result.now ≡ self.now.bytes }
    {
        self.bytes.as_slice()
    }
}

impl Sink for PlainSink {
    ghost written = { λ sink. Some sink.bytes };

    ghost faults = { λ sink. sink.faults };

    /// Takes the whole piece, or fails for want of memory.
    fn write(&mut self, piece: &[u8]) -> Result<usize, Failed>
        ensures taken { TakesSome result piece.now }
        ensures bytes { WriteAppends (Some self.old.bytes) (Some self.new.bytes) result piece.now }
        ensures cause { HasCause self.old.faults self.new.faults result }
        ensures count { IfOk result (λ n. n ≡ length piece.now) }
    {
        match self.bytes.extend(piece) {
            Ok(()) => Ok(piece.len()),
            Err(_) => {
                self.faults = self.faults.saturating_add(1);
                Err(Failed)
            }
        }
    }
}

// Whether a number is listed.
fn is_listed(numbers: &[u64], number: u64) -> bool
    ensures { IsTrue result ↔ Contains numbers.now number }
{
    numbers.contains(&number)
}

/// A source in memory that fails at the calls with the numbers given, the first call being 0. The number of a call stops at
/// `u64::MAX`.
#[derive(Drop)]
pub struct FaultySource {
    bytes: List<u8>,
    at: usize,
    fails: List<u64>,
    calls: u64,
    faults: u64,
}

impl Model for FaultySource {
    ghost use Rattle.std.specs.Prelude.{◌≤◌, drop, length};
    ghost use Rattle.pipe_io.specs.Objects.{Failing};

    ghost Value = { Failing };

    ghost view = { λ s. record { left = drop s.at s.bytes; fails = s.fails; calls = s.calls; faults = s.faults } };

    ghost invariant = { λ s. s.at ≤ length s.bytes };
}

impl FaultySource {
    /// A source of these bytes that fails at these calls.
    pub fn new(bytes: List<u8>, fails: List<u64>) -> FaultySource
        ensures { result ≡ record { left = bytes; fails = fails; calls = 0; faults = 0 } }
    {
        FaultySource {
            bytes,
            at: 0,
            fails,
            calls: 0,
            faults: 0,
        }
    }
}

impl Source for FaultySource {
    ghost left = { λ source. Some source.left };

    ghost faults = { λ source. source.faults };

    /// Fails exactly at the listed calls. At every other it reads as many bytes as are left and fit.
    fn read(&mut self, buf: &mut [u8]) -> Result<usize, Failed>
        ensures bound { ReadsAtMost result buf.new }
        ensures bytes { ReadConsumes (Some self.old.left) (Some self.new.left) result buf.new }
        ensures cause { HasCause self.old.faults self.new.faults result }
        ensures fails { IsErr result ↔ Contains self.old.fails self.old.calls }
        ensures count { IfOk result (λ n. n ≡ min (length self.old.left) (length buf.old)) }
        ensures calls { self.new.calls ≡ min (self.old.calls + 1) (2 ^ 64 - 1) }
        ensures kept { self.new.fails ≡ self.old.fails }
    {
        let call = self.calls;
        self.calls = call.saturating_add(1);
        if is_listed(self.fails.as_slice(), call) {
            self.faults = self.faults.saturating_add(1);
            return Err(Failed);
        }
        let count = copy_front(self.bytes.as_slice(), self.at, buf);
        self.at += count;
        Ok(count)
    }
}

/// A sink in memory that fails at the calls with the numbers given, the first call being 0, and takes at most so many bytes in one.
/// The number of a call stops at `u64::MAX`.
#[derive(Drop)]
pub struct FaultySink {
    bytes: List<u8>,
    fails: List<u64>,
    calls: u64,
    faults: u64,
    most: usize,
}

impl Model for FaultySink {
    ghost use Rattle.std.specs.Prelude.{◌<◌};
    ghost use Rattle.pipe_io.specs.Objects.{Choking};

    ghost Value = { Choking };

    ghost view = { λ s. record { bytes = s.bytes; fails = s.fails; calls = s.calls; faults = s.faults; most = s.most } };

    ghost invariant = { λ s. 0 < s.most };
}

impl FaultySink {
    /// An empty sink that fails at these calls and takes at most so many bytes in one.
    pub fn new(alloc: Global, fails: List<u64>, most: usize) -> FaultySink
        requires { 1 ≤ most }
        ensures { result ≡ record { bytes = []; fails = fails; calls = 0; faults = 0; most = most } }
    {
        FaultySink {
            bytes: List::new(alloc),
            fails,
            calls: 0,
            faults: 0,
            most,
        }
    }

    /// What was written.
    pub fn bytes(&self) -> &[u8]
        ensures { result.now ≡ self.now.bytes }
    {
        self.bytes.as_slice()
    }
}

impl Sink for FaultySink {
    ghost written = { λ sink. Some sink.bytes };

    ghost faults = { λ sink. sink.faults };

    /// Fails at the listed calls, and at another only for want of memory. Otherwise it takes as many bytes as it may.
    fn write(&mut self, piece: &[u8]) -> Result<usize, Failed>
        ensures taken { TakesSome result piece.now }
        ensures bytes { WriteAppends (Some self.old.bytes) (Some self.new.bytes) result piece.now }
        ensures cause { HasCause self.old.faults self.new.faults result }
        ensures fails { Contains self.old.fails self.old.calls → IsErr result }
        ensures count { IfOk result (λ n. n ≡ min (length piece.now) self.old.most) }
        ensures calls { self.new.calls ≡ min (self.old.calls + 1) (2 ^ 64 - 1) }
        ensures kept { (self.new.fails ≡ self.old.fails) × (self.new.most ≡ self.old.most) }
    {
        let call = self.calls;
        self.calls = call.saturating_add(1);
        if is_listed(self.fails.as_slice(), call) {
            self.faults = self.faults.saturating_add(1);
            return Err(Failed);
        }
        let count = piece.len().min(self.most);
        match self.bytes.extend(&piece[..count]) {
            Ok(()) => Ok(count),
            Err(_) => {
                self.faults = self.faults.saturating_add(1);
                Err(Failed)
            }
        }
    }
}
