ghost use Rattle.std.specs.Prelude.{◌≡◌};
ghost use Rattle.mir_reader.specs.Refusals as spec;
ghost use Rattle.mir_reader.specs.declared.refused.ReadRefused.TheVariants as refused;

use mir_file::Unresolved;
use mir_lex::LexFault;
use mir_syntax::OutOfMemory;
use thiserror::Error;

/// Why a text is read as no program: it is refused with a code, 1 to 15 (`S01` to `S15`), and a line; or memory ran out.
#[derive(Debug, Drop, Error)]
pub enum ReadRefused {
    #[error("refused with code {code} on line {line}")]
    Fault { code: u8, line: u32 },
    #[error("out of memory")]
    OutOfMemory,
}

impl From<OutOfMemory> for ReadRefused {
    ghost from_gives = { λ _ e. e ≡ refused.OutOfMemory };

    fn from(_: OutOfMemory) -> Self {
        ReadRefused::OutOfMemory
    }
}

impl From<LexFault> for ReadRefused {
    ghost from_gives = { λ fault e. e ≡ refused.Fault fault.code fault.line };

    fn from(fault: LexFault) -> Self {
        ReadRefused::Fault {
            code: fault.code,
            line: fault.line,
        }
    }
}

impl From<Unresolved> for ReadRefused {
    ghost from_gives = { λ cause e. e ≡ spec.refused_by_names cause };

    fn from(cause: Unresolved) -> Self {
        match cause {
            Unresolved::Names(fault) => ReadRefused::Fault {
                code: fault.code,
                line: fault.line,
            },
            Unresolved::OutOfMemory => ReadRefused::OutOfMemory,
        }
    }
}
