ghost use Rattle.std.specs.Prelude.{◌≡◌, ◌+◌, map, IsTrue};
ghost use Rattle.std.specs.List.{list_all};
ghost use Rattle.mir_syntax.specs.Drops.{KnowsDrops};
ghost use Rattle.mir_num.specs.Widths.{patterns};
ghost use Rattle.mir_num.specs.Numbers as num;
ghost use Rattle.mir_num.specs.Numbers.{integer_of};
ghost use Rattle.mir_semantics.specs.Step as sem;
ghost use Rattle.mir_meaning.specs.Views.{memory_of};
ghost use Rattle.mir_syntax.specs.Parts.{operand_whole};
ghost use Rattle.mir_meaning.specs.Sight.{here_of};
ghost use Rattle.mir_meaning.specs.Gives.{Gives};
ghost use Rattle.mir_machine.specs.Ends.{integer_in};

use mir_meaning::here::Here;
use mir_meaning::memory::Memory;
use mir_meaning::operand::{read_number, scalar_ty};
use mir_meaning::stop::Stop;
use mir_num::{signed, width, wrap};
use mir_syntax::{List, Number, Operand, ScalarTy};
use std::alloc::Global;

/// The greatest pattern of a type: ones at all its bits.
fn greatest(ty: ScalarTy) -> u128
    ensures { result + 1 ≡ patterns ty }
{
    u128::MAX >> (128 - width(ty))
}

/// The integer that a pattern of a type stands for.
pub fn integer(ty: ScalarTy, bits: u128) -> Number
    ensures { integer_in result ≡ integer_of ty bits }
{
    let low = wrap(ty, bits);
    if !signed(ty) {
        return Number {
            negative: false,
            size: low,
        };
    }
    let greatest = greatest(ty);
    if low <= greatest >> 1 {
        return Number {
            negative: false,
            size: low,
        };
    }
    Number {
        negative: true,
        size: greatest - low + 1,
    }
}

/// The bits of a `bool`.
#[tactic(auto, unfolding(mir_num::specs::Numbers::flag))]
pub fn flag(holds: bool) -> u128
    ensures { result ≡ num.flag holds }
{
    match holds {
        true => 1,
        false => 0,
    }
}

/// The integers of a message's operands.
///
/// # Errors
///
/// `Undefined` where the meaning is undefined; `OutOfMemory`.
pub fn integers(
    alloc: Global,
    here: Here<'_>,
    memory: &mut Memory,
    operands: &[Operand],
) -> Result<List<Number>, Stop>
    requires formed { IsTrue (list_all operand_whole operands.now) }
    requires knows { KnowsDrops here.program.now }
    ensures { Gives result (sem.integers (here_of here.entry) (memory_of memory.old) operands.now) (λ numbers. (map integer_in numbers, memory_of memory.new)) }
{
    let mut numbers = List::with_capacity(alloc, operands.len())?;
    for operand in operands {
        let Some(ty) = scalar_ty(here, operand) else {
            return Err(Stop::Undefined);
        };
        let bits = read_number(alloc, here, memory, operand)?;
        numbers.push(integer(ty, bits))?;
    }
    Ok(numbers)
}
