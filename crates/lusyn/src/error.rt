//! Why a text is refused.

use lusyn_grammar::LexError;
use lusyn_parser::ParseError;
use std::alloc::{AllocError, AllocFailed};
use std::fmt;
use thiserror::Error;

/// Why a text is refused. Its text is the line that the program prints.
#[derive(Debug, Drop, Error)]
pub enum SynError {
    /// The text spells no program. The byte is one that begins no token, or the first one of the first token
    /// with which no program goes on, or the text's length where it ends too early.
    Syntax { byte: usize },
    /// The number at this byte is above 9223372036854775807.
    NumberTooLarge { byte: usize },
    /// A byte is above 127.
    NotAscii,
    /// The text has more than 1,048,576 bytes, or its program has more than 256 nodes, more than 64 types, or
    /// a type of more than 64 names.
    TooLong,
    /// The token at this byte is the first one with 1,000 others of its run before it. A run's tokens are
    /// those before the first `;`, those between two, and those after the last.
    LongRun { byte: usize },
    /// Memory ran out.
    OutOfMemory,
}

impl fmt::Display for SynError {
    ghost use Rattle.std.specs.Prelude.{Some};
    ghost use Rattle.lusyn.specs.Lines.{line_of};

    ghost output = { λ e. Some (line_of e) };

    fn fmt<W: fmt::Write>(&self, f: &mut fmt::Formatter<W>) -> fmt::Result {
        match self {
            SynError::Syntax { byte } => write!(f, "E01 Syntax at {byte}"),
            SynError::NumberTooLarge { byte } => write!(f, "E02 NumberTooLarge at {byte}"),
            SynError::NotAscii => f.write_str("E03 NotAscii"),
            SynError::TooLong => f.write_str("E04 TooLong"),
            SynError::LongRun { byte } => write!(f, "E05 LongRun at {byte}"),
            SynError::OutOfMemory => f.write_str("R2 OutOfMemory"),
        }
    }
}

impl From<AllocError> for SynError {
    ghost use Rattle.std.specs.Prelude.{◌≡◌};
    ghost use Rattle.lusyn.specs.declared.error.SynError.TheVariants.{OutOfMemory};

    ghost from_gives = { λ _ e. e ≡ OutOfMemory };

    fn from(_error: AllocError) -> Self {
        SynError::OutOfMemory
    }
}

impl<T: Drop> From<AllocFailed<T>> for SynError {
    ghost use Rattle.std.specs.Prelude.{◌≡◌};
    ghost use Rattle.lusyn.specs.declared.error.SynError.TheVariants.{OutOfMemory};

    ghost from_gives = { λ _ e. e ≡ OutOfMemory };

    fn from(_error: AllocFailed<T>) -> Self {
        SynError::OutOfMemory
    }
}

impl From<LexError> for SynError {
    ghost use Rattle.std.specs.Prelude.{◌≡◌};
    ghost use Rattle.lusyn.specs.Gives.{refusal};

    ghost from_gives = { λ error e. e ≡ refusal error };

    fn from(error: LexError) -> Self {
        match error {
            LexError::TooLong => SynError::TooLong,
            LexError::NotAscii => SynError::NotAscii,
            LexError::NoToken { byte } => SynError::Syntax { byte },
            LexError::NumberTooLarge { byte } => SynError::NumberTooLarge { byte },
            LexError::LongRun { byte } => SynError::LongRun { byte },
            LexError::OutOfMemory => SynError::OutOfMemory,
        }
    }
}

impl From<ParseError> for SynError {
    ghost use Rattle.std.specs.Prelude.{◌≡◌};
    ghost use Rattle.lusyn.specs.Gives.{syntax_refusal};

    ghost from_gives = { λ error e. e ≡ syntax_refusal error };

    fn from(error: ParseError) -> Self {
        match error {
            ParseError::Syntax { byte } => SynError::Syntax { byte },
            ParseError::OutOfMemory => SynError::OutOfMemory,
        }
    }
}
