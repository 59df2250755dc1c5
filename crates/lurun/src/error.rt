//! Why a run has no outputs.

use luflow::FaultKind;
use std::alloc::AllocError;
use thiserror::Error;

/// Why a run has no outputs. Its text is the line that the program prints, but for the variable's number,
/// where that line has the variable's name.
#[derive(Clone, Copy, Debug, Drop, PartialEq, Eq, Error)]
pub enum RunError {
    /// An operator has no value. The variable is the number of the main variable in whose equation it stands.
    #[error("R1 Fault {variable} {instant} {kind}")]
    Fault {
        variable: usize,
        instant: u32,
        kind: FaultKind,
    },
    /// Memory ran out.
    #[error("R2 OutOfMemory")]
    OutOfMemory,
    /// A site was left before the end of its script.
    #[error("R3 LinkLost")]
    LinkLost,
    /// A thread was refused.
    #[error("R4 NoThread")]
    NoThread,
    /// There is no report, or one of a site is missing or stands twice, or one is of no site.
    #[error("R5 WrongReports")]
    WrongReports,
}

impl From<AllocError> for RunError {
    ghost use Rattle.std.specs.Prelude.{◌≡◌};
    ghost use Rattle.lurun.specs.declared.error.RunError.TheVariants.{OutOfMemory};

    ghost from_gives = { λ _ e. e ≡ OutOfMemory };

    fn from(_error: AllocError) -> Self {
        RunError::OutOfMemory
    }
}
