//! The texts of the design, as files.

ghost use Rattle.std.specs.Prelude.{◌≡◌, [], option_map};
ghost use Rattle.example_embed.specs.Texts.{text_of};

use crate::design::{DESIGN, PLACEMENT, SCHEDULE, TABLE};
use lusdist_shell::{Dumps, Files, ReadError, ReadFault, WriteError};
use std::alloc::Global;

/// The texts, as files of these names.
pub(crate) struct Texts;

/// The text of this name.
fn text_of(path: &str) -> Option<&'static str>
    ensures { option_map (λ s. s.now) result ≡ text_of path.now }
{
    if path == "design" {
        Some(DESIGN)
    } else if path == "placement" {
        Some(PLACEMENT)
    } else if path == "table" {
        Some(TABLE)
    } else if path == "schedule" {
        Some(SCHEDULE)
    } else {
        None
    }
}

impl Files for Texts {
    ghost gives = { λ _ path given. given ≡ text_of path };

    fn read(&self, alloc: Global, path: &str) -> Result<Vec<u8>, ReadError> {
        let Some(text) = text_of(path) else {
            return Err(ReadError::CannotRead(ReadFault::Missing));
        };
        match String::from_str(alloc, text) {
            Ok(text) => Ok(text.into_bytes()),
            Err(_) => Err(ReadError::OutOfMemory),
        }
    }
}

/// No file at all: nothing is ever written.
#[derive(Drop)]
pub(crate) struct NoFile;

impl Dumps for NoFile {
    ghost written = { λ _. [] };

    ghost same = { λ _ one other. one ≡ other };

    ghost shut = { λ _ _. ⊥ };

    fn is_same(&self, _alloc: Global, one: &str, other: &str) -> bool {
        one == other
    }

    fn is_shut(&self, _alloc: Global, _path: &str) -> bool {
        false
    }

    fn write(&mut self, _alloc: Global, _path: &str, _text: String) -> Result<(), WriteError> {
        Err(WriteError::OutOfMemory)
    }
}
