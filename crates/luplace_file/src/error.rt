//! Why a placement is refused.

ghost use Rattle.std.specs.Prelude.{◌≡◌};
ghost use Rattle.luplace_file.specs.declared.error.PlaceError.TheVariants.{OutOfMemory};

use std::alloc::{AllocError, AllocFailed};
use std::fmt;
use thiserror::Error;

/// Why a placement is refused. What it displays is the line that the program prints, with no line feed.
#[derive(Clone, Copy, Debug, PartialEq, Eq, Error)]
pub enum PlaceError {
    /// The text is no TOML, a key that stands twice among it.
    NotToml,
    /// A key that a placement doesn't have, a missing `sites`, a value of the wrong kind, or a text in
    /// `sites` that is no site name.
    BadKey,
    /// A variable is placed at a site that isn't one of `sites`.
    UnknownSite,
    /// What is placed is no variable of the main node.
    UnknownVariable,
    /// A variable of the main node has no site.
    Unplaced,
    /// Two of `sites` have one name.
    DuplicateSite,
    /// The text is too long, or the capacity or the number of sites is out of range.
    OutOfRange,
    /// The variables of one call stand at different sites.
    SplitCall,
    /// Memory ran out, which says nothing of the placement.
    OutOfMemory,
}

impl fmt::Display for PlaceError {
    ghost use Rattle.std.specs.Prelude.{Some};
    ghost use Rattle.luplace_file.specs.Lines.{line_of};

    ghost output = { λ e. Some (line_of e) };

    fn fmt<W: fmt::Write>(&self, f: &mut fmt::Formatter<W>) -> fmt::Result {
        match self {
            PlaceError::NotToml => f.write_str("P01 NotToml"),
            PlaceError::BadKey => f.write_str("P02 BadKey"),
            PlaceError::UnknownSite => f.write_str("P03 UnknownSite"),
            PlaceError::UnknownVariable => f.write_str("P04 UnknownVariable"),
            PlaceError::Unplaced => f.write_str("P05 Unplaced"),
            PlaceError::DuplicateSite => f.write_str("P06 DuplicateSite"),
            PlaceError::OutOfRange => f.write_str("P07 OutOfRange"),
            PlaceError::SplitCall => f.write_str("P08 SplitCall"),
            PlaceError::OutOfMemory => f.write_str("R2 OutOfMemory"),
        }
    }
}

impl From<AllocError> for PlaceError {
    ghost from_gives = { λ _ e. e ≡ OutOfMemory };

    fn from(_e: AllocError) -> PlaceError {
        PlaceError::OutOfMemory
    }
}

impl<T: Drop> From<AllocFailed<T>> for PlaceError {
    ghost from_gives = { λ _ e. e ≡ OutOfMemory };

    fn from(_e: AllocFailed<T>) -> PlaceError {
        PlaceError::OutOfMemory
    }
}
