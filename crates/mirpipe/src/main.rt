//! The program `mirpipe`: reads a crate's MIR bodies as text on standard input, optimises them and prints them on standard output.
//!
//! `main` hands words and streams to `mirpipe_cli::run_quiet`, whose contract says what the program promises. What standard input, output
//! and error really hold is trusted, and so are these few lines.
#![tactic(auto)]

use mirpipe_cli::run_quiet;
use pipe_io::{ReadSource, WriteSink};
use std::env;
use std::io::{self, ErrorKind};
use std::process::ExitCode;

/// The words after the program's name.
fn words(rt: &HostRuntime) -> io::Result<Vec<String>> {
    let mut words = Vec::new(rt.alloc());
    for word in env::args(rt)?.skip(1) {
        words.push(word)?;
    }
    Ok(words)
}

/// The status is that of `run_quiet`. Where the words can't be had it is 5 for want of memory, else 6.
fn main(rt: HostRuntime) -> ExitCode {
    match words(&rt) {
        Ok(words) => {
            let mut source = ReadSource::new(rt.stdin());
            let mut out = WriteSink::new(rt.stdout());
            let mut notes = WriteSink::new(rt.stderr());
            ExitCode::from(run_quiet(
                rt.alloc(),
                words.as_slice(),
                &mut source,
                &mut out,
                &mut notes,
            ))
        }
        Err(error) if error.kind() == ErrorKind::OutOfMemory => ExitCode::from(5),
        Err(_) => ExitCode::from(6),
    }
}
