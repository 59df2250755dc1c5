//! Why a table is refused.

ghost use Rattle.std.specs.Prelude.{◌≡◌};
ghost use Rattle.lutab.specs.declared.error.TabError.TheVariants as table;
ghost use Rattle.lutab.specs.declared.error.LineError.TheVariants as lines;

use std::alloc::AllocError;
use std::fmt;
use thiserror::Error;

/// Why a table is refused. What it displays is the line that the program prints, with no line feed.
#[derive(Clone, Copy, Debug, PartialEq, Eq, Error)]
pub enum TabError {
    /// Line 1 isn't the header, or has no line feed at its end.
    BadHeader,
    /// This line, counted from 1, has another number of fields, or has no line feed at its end.
    BadRow { line: usize },
    /// A field of this line, counted from 1, is no value of its type.
    BadValue { line: usize },
    /// The text has more than 67,108,864 bytes, or more than 1,000,001 line feeds.
    TooLong,
    /// Memory ran out, which says nothing of the table.
    OutOfMemory,
}

impl fmt::Display for TabError {
    ghost use Rattle.std.specs.Prelude.{Some};
    ghost use Rattle.lutab.specs.Lines.{line_of};

    ghost output = { λ e. Some (line_of e) };

    fn fmt<W: fmt::Write>(&self, f: &mut fmt::Formatter<W>) -> fmt::Result {
        match self {
            TabError::BadHeader => f.write_str("T01 BadHeader"),
            TabError::BadRow { line } => write!(f, "T02 BadRow line {line}"),
            TabError::BadValue { line } => write!(f, "T03 BadValue line {line}"),
            TabError::TooLong => f.write_str("T04 TooLong"),
            TabError::OutOfMemory => f.write_str("R2 OutOfMemory"),
        }
    }
}

impl From<AllocError> for TabError {
    ghost from_gives = { λ _ e. e ≡ table.OutOfMemory };

    fn from(_e: AllocError) -> TabError {
        TabError::OutOfMemory
    }
}

/// Why a line can't be read.
#[derive(Debug, Drop)]
pub enum LineError {
    /// Memory ran out.
    OutOfMemory,
    /// The line is no row.
    Faulty,
}

impl From<AllocError> for LineError {
    ghost from_gives = { λ _ e. e ≡ lines.OutOfMemory };

    fn from(_e: AllocError) -> LineError {
        LineError::OutOfMemory
    }
}
