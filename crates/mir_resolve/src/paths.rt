ghost use Rattle.std.specs.Prelude.{◌≡◌, ◌++◌, OnOk, codes};
ghost use Rattle.mir_text.specs.Names.{string_at, path_bytes};
ghost use Rattle.mir_tree.specs.Types.{path_of, path_rule};

use mir_names::Names;
use mir_syntax::{List, OutOfMemory};
use mir_tree::PathText;

/// The bytes of a string; a number that no string has means no bytes.
pub fn string_of<'a>(strings: &'a Names, number: u32) -> &'a [u8]
    ensures { result.now ≡ string_at strings.now number }
{
    match strings.get(number) {
        Some(bytes) => bytes,
        None => &[],
    }
}

/// Puts `::` and a name behind what a buffer holds.
///
/// # Errors
///
/// `OutOfMemory`.
pub fn put_name(buffer: &mut List<u8>, strings: &Names, number: u32) -> Result<(), OutOfMemory>
    ensures { OnOk result (buffer.new ≡ buffer.old ++ (codes "::" ++ string_at strings.now number)) }
{
    buffer.extend(b"::")?;
    buffer.extend(string_of(strings, number))
}

/// Puts the bytes of a path into a buffer, in place of what it held.
///
/// # Errors
///
/// `OutOfMemory`.
pub fn put_names(
    buffer: &mut List<u8>,
    strings: &Names,
    first: u32,
    rest: &[u32],
) -> Result<(), OutOfMemory>
    ensures { OnOk result (buffer.new ≡ path_bytes strings.now (path_of first rest.now)) }
{
    buffer.truncate(0);
    buffer.extend(string_of(strings, first))?;
    let mut left = rest;
    'names: while let [name, past @ ..] = left {
        put_name(buffer, strings, *name)?;
        left = past;
    }
    Ok(())
}

/// Puts the bytes of a path into a buffer, in place of what it held.
///
/// # Errors
///
/// `OutOfMemory`.
pub fn put_path(buffer: &mut List<u8>, strings: &Names, path: &PathText) -> Result<(), OutOfMemory>
    ensures { OnOk result (buffer.new ≡ path_bytes strings.now (path_rule path.now)) }
{
    put_names(buffer, strings, path.first, path.rest.as_slice())
}
