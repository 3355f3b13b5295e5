//! Runs texts by the words that follow each of them, through the top call of `mirpipe`, and writes what it answers.
//!
//! The table is read from standard input: the lines of a text, and behind them lines `== WORDS`, each of which is answered for that text. A line
//! `@ N TEXT` stands for N lines of the text, in which each `@` is the number of the line, from 0: so a short table has long texts, and `@ 0 -` an
//! empty one. Of each line of words these are written with the status and the notes, and then the output.
//!
//! `stdin` has first the examples of `examples/`: the text of each, and its text after the passes, which runs alike. `tools/examples.py` writes
//! these entries from the files. Then come parts of rustc's dumps that are refused, as `docs/dumps.md` tells, and texts for each of the codes S01
//! to S16, V01 to V25 and L01 to L06. Each rule is broken alone by two programs. For it, and for each of the codes S10 to S15, there are also
//! texts with two faults: the other one is of greater code and on the same line, or of lesser code and further on. For each limit there is a text
//! that just keeps it, one that passes it by one, and one that passes two limits. What is done, and words, follow. Then there are runs of
//! functions for each statement, terminator and kind of drop, for each cause of a run that has no meaning, and for the least and greatest numbers;
//! each is run to its end and up to some step before it. Then functions are dumped at each stage that is there, with the words and texts that are
//! refused. Last, crates are made from numbers, over no text and over one that is refused. `stdout` has the answers.
#![tactic(auto)]

use mir_syntax::List;
use mirpipe_cli::run_quiet;
use pipe_io::{PlainSink, PlainSource};
use std::alloc::Global;
use std::io::{self, BufRead, BufReader, ErrorKind};
use std::str;

fn no_memory() -> io::Error {
    io::Error::from(ErrorKind::OutOfMemory)
}

fn bad_line() -> io::Error {
    io::Error::from(ErrorKind::InvalidData)
}

/// A text, and whether words have followed it.
#[derive(Drop)]
struct Text {
    bytes: List<u8>,
    asked: bool,
}

impl Text {
    fn new(alloc: Global) -> Text {
        Text {
            bytes: List::new(alloc),
            asked: false,
        }
    }

    /// One more line of the text.
    fn add(&mut self, line: &str) -> io::Result<()> {
        self.bytes.extend(line.as_bytes()).map_err(|_| no_memory())?;
        self.bytes.push(b'\n').map_err(|_| no_memory())
    }

    /// One more line of the text, which has a number in the place of each `@`.
    fn add_numbered(&mut self, line: &str, number: &str) -> io::Result<()> {
        for byte in line.as_bytes() {
            if *byte == b'@' {
                self.bytes
                    .extend(number.as_bytes())
                    .map_err(|_| no_memory())?;
            } else {
                self.bytes.push(*byte).map_err(|_| no_memory())?;
            }
        }
        self.bytes.push(b'\n').map_err(|_| no_memory())
    }

    /// The lines of the text that `N TEXT` stands for.
    fn add_many(&mut self, alloc: Global, many: &str) -> io::Result<()> {
        let Some((count, line)) = many.split_once(' ') else {
            return Err(bad_line());
        };
        let Ok(count) = count.parse::<u32>() else {
            return Err(bad_line());
        };
        for number in 0..count {
            let number = number.to_string(alloc)?;
            self.add_numbered(line, number.as_str())?;
        }
        Ok(())
    }

    /// A line of the table that has no words.
    fn add_line(&mut self, alloc: Global, line: &str) -> io::Result<()> {
        match line.strip_prefix("@ ") {
            Some(many) => self.add_many(alloc, many),
            None => self.add(line),
        }
    }

    fn source(&self, alloc: Global) -> io::Result<PlainSource> {
        let mut bytes = List::new(alloc);
        bytes
            .extend(self.bytes.as_slice())
            .map_err(|_| no_memory())?;
        Ok(PlainSource::new(bytes))
    }
}

fn words_of(alloc: Global, title: &str) -> io::Result<Vec<String>> {
    let mut words = Vec::new(alloc);
    for word in title.split_whitespace() {
        words.push(word.to_owned(alloc)?)?;
    }
    Ok(words)
}

/// The bytes as text; what the program writes is text.
fn text_of(bytes: &[u8]) -> &str {
    str::from_utf8(bytes).unwrap_or("?\n")
}

/// Answers words for a text.
fn answer(rt: &HostRuntime, title: &str, text: &Text) -> io::Result<()> {
    let alloc = rt.alloc();
    let words = words_of(alloc, title)?;
    let mut source = text.source(alloc)?;
    let mut out = PlainSink::new(alloc);
    let mut notes = PlainSink::new(alloc);
    let status = run_quiet(alloc, words.as_slice(), &mut source, &mut out, &mut notes);
    print!(rt; "== {title} -> {status} ")?;
    println!(rt; "{}", text_of(notes.bytes()).trim_end())?;
    print!(rt; "{}", text_of(out.bytes()))
}

fn main(rt: HostRuntime) -> io::Result<()> {
    let alloc = rt.alloc();
    let mut text = Text::new(alloc);
    for line in BufReader::new(alloc, rt.reader())?.lines(alloc) {
        let line = line?;
        match line.strip_prefix("== ") {
            Some(title) => {
                answer(&rt, title, &text)?;
                text.asked = true;
            }
            None => {
                if text.asked {
                    text = Text::new(alloc);
                }
                text.add_line(alloc, &line)?;
            }
        }
    }
    Ok(())
}
