//! Why there is no flat program.

use lubase::Name;
use std::alloc::{AllocError, AllocFailed};
use std::fmt;
use thiserror::Error;

/// Why there is no flat program. Its text is the line that the program prints.
#[derive(Debug, Drop, Error)]
pub enum CoreError {
    /// The flat program would have more than 4,096 flows.
    TooLarge,
    /// A flow reads itself through a chain of reads at one instant. The variable is the one in whose equation
    /// it stands.
    Cycle { variable: Name },
    /// Memory ran out.
    OutOfMemory,
}

impl fmt::Display for CoreError {
    ghost use Rattle.std.specs.Prelude.{Some};
    ghost use Rattle.lucore.specs.Lines.{line_of};

    ghost output = { λ e. Some (line_of e) };

    fn fmt<W: fmt::Write>(&self, f: &mut fmt::Formatter<W>) -> fmt::Result {
        match self {
            CoreError::TooLarge => f.write_str("E50 TooLarge"),
            CoreError::Cycle { variable } => write!(f, "E40 Cycle {}", variable.as_str()),
            CoreError::OutOfMemory => f.write_str("R2 OutOfMemory"),
        }
    }
}

impl From<AllocError> for CoreError {
    ghost use Rattle.std.specs.Prelude.{◌≡◌};
    ghost use Rattle.lucore.specs.declared.error.CoreError.TheVariants.{OutOfMemory};

    ghost from_gives = { λ _ e. e ≡ OutOfMemory };

    fn from(_error: AllocError) -> Self {
        CoreError::OutOfMemory
    }
}

impl<T: Drop> From<AllocFailed<T>> for CoreError {
    ghost use Rattle.std.specs.Prelude.{◌≡◌};
    ghost use Rattle.lucore.specs.declared.error.CoreError.TheVariants.{OutOfMemory};

    ghost from_gives = { λ _ e. e ≡ OutOfMemory };

    fn from(_error: AllocFailed<T>) -> Self {
        CoreError::OutOfMemory
    }
}
