ghost use Rattle.std.specs.Prelude.{◌≡◌, map};
ghost use Rattle.mir_semantics.specs.Step as sem;
ghost use Rattle.mir_meaning.specs.Views.{value_of};
ghost use Rattle.mir_meaning.specs.Gives.{Gives};

use mir_meaning::datum::Datum;
use mir_meaning::operand::number_of;
use mir_meaning::stop::Stop;
use mir_syntax::List;
use std::alloc::Global;

/// The bits of numbers.
///
/// # Errors
///
/// `Undefined` where the meaning is undefined; `OutOfMemory`.
pub fn numbers_in(alloc: Global, values: &[Datum]) -> Result<List<u128>, Stop>
    ensures { Gives result (sem.numbers_in (map value_of values.now)) (λ numbers. numbers) }
{
    let mut numbers = List::with_capacity(alloc, values.len())?;
    for value in values {
        let Some(bits) = number_of(value) else {
            return Err(Stop::Undefined);
        };
        numbers.push(bits)?;
    }
    Ok(numbers)
}
