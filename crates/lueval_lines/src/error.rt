//! Why a program has no streams.

use luflow::FaultKind;
use std::alloc::AllocError;
use thiserror::Error;

/// Why a program has no streams. Its text is the line that the program prints, but for the variable's number,
/// where that line has the variable's name.
#[derive(Clone, Copy, Debug, Drop, PartialEq, Eq, Error)]
pub enum EvalError {
    /// An operator has no value. Of all faults it is the one of the least instant and, there, of the least
    /// rank. The variable is the number of the main variable in whose equation the operator stands.
    #[error("R1 Fault {variable} {instant} {kind}")]
    Fault {
        variable: usize,
        instant: u32,
        kind: FaultKind,
    },
    /// Memory ran out.
    #[error("R2 OutOfMemory")]
    OutOfMemory,
}

impl From<AllocError> for EvalError {
    ghost use Rattle.std.specs.Prelude.{◌≡◌};
    ghost use Rattle.lueval_lines.specs.declared.error.EvalError.TheVariants.{OutOfMemory};

    ghost from_gives = { λ _ e. e ≡ OutOfMemory };

    fn from(_error: AllocError) -> Self {
        EvalError::OutOfMemory
    }
}
