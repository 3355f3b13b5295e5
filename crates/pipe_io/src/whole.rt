ghost use Rattle.std.specs.Prelude.{◌≡◌, ◌+◌, ◌-◌, ◌^◌, ◌<◌, ◌≤◌, ◌↔◌, IsTrue, false, length, IfOk, OnOk, OnErr, IsErrOf};
ghost use Rattle.std.specs.Io.KnownBytes.{Consumes, Appends, IsAtEnd};
ghost use Rattle.pipe_io.specs.Causes.{HasCause, Rose, AppendsFront};

use crate::{Failed, Sink, Source};
use mir_syntax::List;
use std::alloc::Global;

/// What was read, and whether it is more than the limit.
#[derive(Debug, Drop)]
pub struct Input {
    pub bytes: List<u8>,
    pub over: bool,
}

/// Why an input was not read.
#[derive(Clone, Copy, Debug, Drop, PartialEq, Eq)]
pub enum ReadFault {
    Failed,
    OutOfMemory,
}

/// Reads to the end, or one byte more than the limit.
///
/// # Errors
///
/// `Failed`, only where the source's count of faults rose; `OutOfMemory`.
pub fn read_all<S: Source>(alloc: Global, source: &mut S, limit: usize) -> Result<Input, ReadFault>
    requires { limit < 2 ^ 64 - 1 }
    ensures bytes { IfOk result (λ input. Consumes (S.left source.old) (S.left source.new) input.bytes) }
    ensures bound { IfOk result (λ input. length input.bytes ≤ limit + 1) }
    ensures over { IfOk result (λ input. IsTrue input.over ↔ (length input.bytes ≡ limit + 1)) }
    ensures end { IfOk result (λ input. input.over ≡ false → IsAtEnd (S.left source.new)) }
    ensures later { S.faults source.old ≤ S.faults source.new }
    ensures failed { IsErrOf result ReadFault.Failed → Rose (S.faults source.old) (S.faults source.new) }
    ensures kept { OnOk result (S.faults source.new ≡ S.faults source.old) }
{
    let mut bytes = List::new(alloc);
    let mut buf = [0; 4096];
    let most = limit + 1;
    while bytes.len() < most {
        let want = (most - bytes.len()).min(4096);
        match source.read(&mut buf[..want]) {
            Ok(0) => {
                return Ok(Input { bytes, over: false });
            }
            Ok(count) => {
                if bytes.extend(&buf[..count]).is_err() {
                    return Err(ReadFault::OutOfMemory);
                }
            }
            Err(_) => return Err(ReadFault::Failed),
        }
    }
    Ok(Input { bytes, over: true })
}

/// Writes the whole piece.
///
/// # Errors
///
/// `Failed`, only where the sink's count of faults rose; a front of the piece is written then.
pub fn write_all<K: Sink>(sink: &mut K, piece: &[u8]) -> Result<(), Failed>
    ensures whole { OnOk result (Appends (K.written sink.old) (K.written sink.new) piece.now) }
    ensures front { AppendsFront (K.written sink.old) (K.written sink.new) piece.now }
    ensures cause { HasCause (K.faults sink.old) (K.faults sink.new) result }
{
    let mut done = 0;
    while done < piece.len() {
        done += sink.write(&piece[done..])?;
    }
    Ok(())
}
