//! Why a text has no tokens.

use std::alloc::{AllocError, AllocFailed};
use thiserror::Error;

/// Why a text is refused. Its text is the line that a program prints. Of a text the first of these that is
/// true is reported.
#[derive(Debug, Drop, Error)]
pub enum LexError {
    /// The text has more than 1,048,576 bytes.
    #[error("E04 TooLong")]
    TooLong,
    /// A byte is above 127.
    #[error("E03 NotAscii")]
    NotAscii,
    /// This byte begins no token, white space or comment.
    #[error("E01 Syntax at {byte}")]
    NoToken { byte: usize },
    /// The number whose first digit this is is above 9223372036854775807.
    #[error("E02 NumberTooLarge at {byte}")]
    NumberTooLarge { byte: usize },
    /// The token at this byte has 1,000 others of its run before it. A run's tokens are those before the
    /// first `;`, those between two, and those after the last.
    #[error("E05 LongRun at {byte}")]
    LongRun { byte: usize },
    /// Memory ran out.
    #[error("R2 OutOfMemory")]
    OutOfMemory,
}

impl From<AllocError> for LexError {
    ghost use Rattle.std.specs.Prelude.{◌≡◌};
    ghost use Rattle.lusyn_grammar.specs.declared.error.LexError.TheVariants.{OutOfMemory};

    ghost from_gives = { λ _ e. e ≡ OutOfMemory };

    fn from(_error: AllocError) -> Self {
        LexError::OutOfMemory
    }
}

impl<T: Drop> From<AllocFailed<T>> for LexError {
    ghost use Rattle.std.specs.Prelude.{◌≡◌};
    ghost use Rattle.lusyn_grammar.specs.declared.error.LexError.TheVariants.{OutOfMemory};

    ghost from_gives = { λ _ e. e ≡ OutOfMemory };

    fn from(_error: AllocFailed<T>) -> Self {
        LexError::OutOfMemory
    }
}
