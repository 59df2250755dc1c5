//! Why tokens are refused.

use std::alloc::{AllocError, AllocFailed};
use thiserror::Error;

/// Why tokens are refused. Its text is the line that the program prints.
#[derive(Debug, Drop, Error)]
pub enum ParseError {
    /// The byte is the place of the first token with which no program goes on, or the text's length where it
    /// ends too early.
    #[error("E01 Syntax at {byte}")]
    Syntax { byte: usize },
    /// Memory ran out.
    #[error("R2 OutOfMemory")]
    OutOfMemory,
}

/// Why reading stops.
#[derive(Drop)]
pub(crate) enum Stop {
    /// At the token with this index no program goes on.
    Refused(usize),
    /// Memory ran out.
    OutOfMemory,
}

impl From<AllocError> for Stop {
    ghost use Rattle.std.specs.Prelude.{◌≡◌};
    ghost use Rattle.lusyn_parser.specs.declared.error.Stop.TheVariants.{OutOfMemory};

    ghost from_gives = { λ _ e. e ≡ OutOfMemory };

    fn from(_error: AllocError) -> Self {
        Stop::OutOfMemory
    }
}

impl<T: Drop> From<AllocFailed<T>> for Stop {
    ghost use Rattle.std.specs.Prelude.{◌≡◌};
    ghost use Rattle.lusyn_parser.specs.declared.error.Stop.TheVariants.{OutOfMemory};

    ghost from_gives = { λ _ e. e ≡ OutOfMemory };

    fn from(_error: AllocFailed<T>) -> Self {
        Stop::OutOfMemory
    }
}
