ghost use Rattle.std.specs.Prelude.{◌≡◌, ◌++◌, map, decimal, OnOk};
ghost use Rattle.std.specs.Fmt.{signed_decimal};
ghost use Rattle.mir_machine.specs.Ends.{integer_in};
ghost use Rattle.run_text.specs.RunText.{integers_text, behind_word};

use itoa::Buffer;
use mir_syntax::{List, Number, OutOfMemory};

/// Puts bytes at the end of a text.
///
/// # Errors
///
/// `OutOfMemory`.
pub fn put(out: &mut List<u8>, piece: &[u8]) -> Result<(), OutOfMemory>
    ensures { OnOk result (out.new ≡ out.old ++ piece.now) }
{
    out.extend(piece)?;
    Ok(())
}

/// Puts the digits of a number at the end.
fn put_size(out: &mut List<u8>, size: u128) -> Result<(), OutOfMemory>
    ensures { OnOk result (out.new ≡ out.old ++ decimal size) }
{
    put(out, Buffer::new().format(size).as_bytes())?;
    Ok(())
}

/// Puts an integer at the end.
///
/// # Errors
///
/// `OutOfMemory`.
pub fn put_integer(out: &mut List<u8>, number: Number) -> Result<(), OutOfMemory>
    ensures { OnOk result (out.new ≡ out.old ++ signed_decimal (integer_in number)) }
{
    if number.negative && number.size > 0 {
        put(out, b"-")?;
    }
    put_size(out, number.size)?;
    Ok(())
}

/// Puts integers at the end, with a comma and a space between two.
///
/// # Errors
///
/// `OutOfMemory`.
pub fn put_integers(out: &mut List<u8>, numbers: &[Number]) -> Result<(), OutOfMemory>
    ensures { OnOk result (out.new ≡ out.old ++ integers_text (map integer_in numbers.now)) }
{
    match numbers {
        [first, rest @ ..] => {
            put_integer(out, *first)?;
            for number in rest {
                put(out, b", ")?;
                put_integer(out, *number)?;
            }
            Ok(())
        }
        [] => Ok(()),
    }
}

/// Puts integers behind a word, where there are any.
///
/// # Errors
///
/// `OutOfMemory`.
pub fn put_behind(out: &mut List<u8>, numbers: &[Number]) -> Result<(), OutOfMemory>
    ensures { OnOk result (out.new ≡ out.old ++ behind_word (map integer_in numbers.now)) }
{
    if numbers.is_empty() {
        return Ok(());
    }
    put(out, b" ")?;
    put_integers(out, numbers)?;
    Ok(())
}
