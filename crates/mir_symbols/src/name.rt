ghost use Rattle.std.specs.Prelude.{◌≡◌, ◌+◌, ◌-◌, ◌<◌, ◌≤◌, ◌^◌, [], length, map, IfOk, OnOk};
ghost use Rattle.mir_text.specs.Symbols.{grammar_names, number_in, noted};
ghost use Rattle.mir_symbols.specs.Scan.{noted_all};

use mir_names::{NameFault, Names};
use mir_syntax::OutOfMemory;
use std::alloc::Global;

/// The names that the grammar looks for. They have the first numbers.
const GRAMMAR_NAMES: [&[u8]; 8] = [
    b"inline",
    b"always",
    b"never",
    b"inlined",
    b"success",
    b"MIN",
    b"MAX",
    b"IntToInt",
];

/// The number of a byte string among those seen, or else the next number.
///
/// # Errors
///
/// `OutOfMemory`.
pub fn number_of(seen: &mut Names, bytes: &[u8]) -> Result<u32, OutOfMemory>
    requires { length seen.old < 2 ^ 32 - 1 }
    ensures number { IfOk result (λ n. n ≡ number_in seen.old bytes.now) }
    ensures noted { OnOk result (seen.new ≡ noted seen.old bytes.now) }
    ensures few { length seen.new ≤ length seen.old + 1 }
{
    match seen.add(bytes) {
        Ok(number) => Ok(number),
        Err(NameFault::Twice(number)) => Ok(number),
        Err(NameFault::OutOfMemory) => Err(OutOfMemory),
    }
}

fn number_all(seen: &mut Names, mut texts: &[&[u8]]) -> Result<(), OutOfMemory>
    requires { length seen.old + length texts.now < 2 ^ 32 }
    ensures { OnOk result (seen.new ≡ noted_all seen.old (map (λ w. w.now) texts.entry.now)) }
{
    'texts: while let [text, rest @ ..] = texts {
        let _number = number_of(seen, text)?;
        texts = rest;
    }
    Ok(())
}

/// The names that the grammar looks for, by their numbers.
///
/// # Errors
///
/// `OutOfMemory`.
pub fn first_names(alloc: Global) -> Result<Names, OutOfMemory>
    ensures { IfOk result (λ seen. seen ≡ grammar_names) }
{
    let mut seen = Names::new(alloc);
    number_all(&mut seen, &GRAMMAR_NAMES)?;
    Ok(seen)
}
