ghost use Rattle.std.specs.Prelude.{◌≡◌, ℕ, ◌+◌, ◌*◌, ◌<◌, ◌≤◌, ◌^◌, [], IsTrue, IfOk, IfErr, OnOk, None, Some, false, length};
ghost use Rattle.mir_syntax.specs.declared.types.Ty.TheVariants as ty;
ghost use Rattle.mir_syntax.specs.declared.types.ScalarTy.TheVariants as scalar_ty;
ghost use Rattle.mir_syntax.specs.declared.types.IntTy.TheVariants as int_ty;
ghost use Rattle.mir_syntax.specs.Ids.{IdsInTable};
ghost use Rattle.mir_syntax.specs.Crate.{crate_of};
ghost use Rattle.mir_syntax.specs.Drops.{KnowsDrops};
ghost use Rattle.mir_rules.specs.Formed.{is_formed};
ghost use Rattle.mir_rules.specs.Faults.{lines_fit, first_rule, first_limit};
ghost use Rattle.mir_validate.specs.Checked.{IsChecked};
ghost use Rattle.mir_validate.specs.Complete.{Grown, Has, mutable};
ghost use Rattle.mir_validate.specs.declared.verdict.Fault.TheVariants as fault;

use crate::judge::judge;
use mir_limits::limit_fault;
use mir_syntax::{Lines, OutOfMemory, Program};
use std::alloc::Global;
use std::marker::Model;

/// A program that breaks no rule and passes no limit, and knows its drops. Only `validate` makes one.
#[derive(Drop)]
pub struct Valid {
    program: Program,
}

impl Model for Valid {
    ghost use Rattle.mir_syntax.specs.declared.program.Program.{Program};
    ghost use Rattle.mir_validate.specs.Checked.{IsChecked};

    ghost Value = { Program };

    ghost view = { λ valid. valid.program };

    ghost invariant = { λ valid. IsChecked valid.program };
}

impl Valid {
    /// The program.
    pub fn program(&self) -> &Program
        ensures same { result.now ≡ self.now }
        ensures checked { IsChecked result.now }
    {
        &self.program
    }

    /// The program, from now on by itself.
    pub fn into_program(self) -> Program
        ensures same { result ≡ self }
        ensures checked { IsChecked result }
    {
        self.program
    }
}

/// A program that is refused, and why.
#[derive(Drop)]
pub struct Refused {
    pub program: Program,
    pub fault: Fault,
}

/// Why a program is refused: the rule on the first line that breaks one, and there the one of least code; where no rule is broken, the limit
/// of least number that is passed, and of that the first line; or want of memory.
#[derive(Clone, Copy, Debug, Drop)]
pub enum Fault {
    Rule { code: u8, line: u32 },
    Limit { code: u8, line: u32 },
    OutOfMemory,
}

impl From<OutOfMemory> for Fault {
    ghost from_gives = { λ _ e. e ≡ fault.OutOfMemory };

    fn from(_want: OutOfMemory) -> Fault {
        Fault::OutOfMemory
    }
}

/// Whether there are more types, definitions or functions than can be numbered once the table of types is complete.
fn is_beyond_numbers(program: &Program) -> bool
    ensures { result ≡ false → (length program.now.types < 2 ^ 30) × (length program.now.defs < 2 ^ 30) × (length program.now.functions < 2 ^ 30) }
{
    let most = 1 << 30;
    most <= program.types() as usize
        || most <= program.defs.len()
        || most <= program.functions.len()
}

fn find_fault(alloc: Global, program: &mut Program, lines: &Lines) -> Result<(), Fault>
    requires ids { IdsInTable program.old }
    requires formed { IsTrue (is_formed (crate_of program.old)) }
    requires fit { IsTrue (lines_fit lines.now (crate_of program.old)) }
    ensures grown { Grown program.old program.new }
    ensures few { length program.new.types ≤ 2 * length program.old.types + 6 }
    ensures no_rule { OnOk result (first_rule lines.now (crate_of program.old) ≡ None) }
    ensures no_limit { OnOk result (first_limit lines.now (crate_of program.old) ≡ None) }
    ensures rule { (code line : ℕ) → result ≡ Err (fault.Rule code line) → first_rule lines.now (crate_of program.old) ≡ Some (line, code) }
    ensures limit { (code line : ℕ) → result ≡ Err (fault.Limit code line) → (first_rule lines.now (crate_of program.old) ≡ None) × (first_limit lines.now (crate_of program.old) ≡ Some (code, line)) }
    ensures drops { OnOk result (KnowsDrops program.new) }
    ensures bool { OnOk result (Has program.new.types (ty.Scalar scalar_ty.Bool)) }
    ensures isize { OnOk result (Has program.new.types (ty.Scalar (scalar_ty.Int int_ty.Isize))) }
    ensures unit { OnOk result (Has program.new.types (ty.Tuple [])) }
    ensures references { OnOk result ((k : ℕ) → k < length program.old.types → Has program.new.types (mutable k)) }
{
    if is_beyond_numbers(program) {
        return Err(Fault::OutOfMemory);
    }
    if let Some(broken) = judge(alloc, program, lines)? {
        return Err(Fault::Rule {
            code: broken.code,
            line: broken.line,
        });
    }
    match limit_fault(alloc, program, lines)? {
        Some(passed) => Err(Fault::Limit {
            code: passed.code,
            line: passed.line,
        }),
        None => Ok(()),
    }
}

/// Tests all rules and limits. The program that is handed back names the same crate, and its earlier ids keep their types; a valid one has in its
/// table `bool`, `isize`, `()` and `&mut` of each type that it had.
///
/// # Errors
///
/// `Refused`: the program, and as its fault the rule that is broken, the limit that is passed, or `OutOfMemory`.
pub fn validate(alloc: Global, mut program: Program, lines: &Lines) -> Result<Valid, Refused>
    requires ids { IdsInTable program }
    requires formed { IsTrue (is_formed (crate_of program)) }
    requires fit { IsTrue (lines_fit lines.now (crate_of program)) }
    ensures same_ok { IfOk result (λ valid. crate_of valid ≡ crate_of program) }
    ensures same_err { IfErr result (λ refused. crate_of refused.program ≡ crate_of program) }
    ensures kept_ok { IfOk result (λ valid. Grown program valid) }
    ensures kept_err { IfErr result (λ refused. Grown program refused.program) }
    ensures checked { IfOk result IsChecked }
    ensures no_rule { IfOk result (λ _. first_rule lines.now (crate_of program) ≡ None) }
    ensures no_limit { IfOk result (λ _. first_limit lines.now (crate_of program) ≡ None) }
    ensures rule { IfErr result (λ refused. (code line : ℕ) → refused.fault ≡ fault.Rule code line → first_rule lines.now (crate_of program) ≡ Some (line, code)) }
    ensures limit { IfErr result (λ refused. (code line : ℕ) → refused.fault ≡ fault.Limit code line → (first_rule lines.now (crate_of program) ≡ None) × (first_limit lines.now (crate_of program) ≡ Some (code, line))) }
    ensures few { IfOk result (λ valid. length valid.types ≤ 2 * length program.types + 6) }
    ensures bool { IfOk result (λ valid. Has valid.types (ty.Scalar scalar_ty.Bool)) }
    ensures isize { IfOk result (λ valid. Has valid.types (ty.Scalar (scalar_ty.Int int_ty.Isize))) }
    ensures unit { IfOk result (λ valid. Has valid.types (ty.Tuple [])) }
    ensures references { IfOk result (λ valid. (k : ℕ) → k < length program.types → Has valid.types (mutable k)) }
    ensures ids_err { IfErr result (λ refused. IdsInTable refused.program) }
{
    match find_fault(alloc, &mut program, lines) {
        Ok(()) => Ok(Valid { program }),
        Err(fault) => Err(Refused { program, fault }),
    }
}
