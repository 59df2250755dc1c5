//! Files in memory that commands write.

ghost use Rattle.std.specs.Prelude.{◌≡◌, map, []};

use lusdist_shell::{Dump, Dumps, RealDumps, WriteError};
use std::alloc::Global;

/// What a command wrote. A path with a slash is one of the system's.
#[derive(Drop)]
pub struct Folder<'a> {
    pub runtime: &'a HostRuntime,
    pub written: Vec<Dump>,
}

/// A path without the `./` that it may begin with.
fn plain(path: &str) -> &str {
    path.strip_prefix("./").unwrap_or(path)
}

/// Whether the text is written by the system.
fn is_written(runtime: &HostRuntime, alloc: Global, path: &str, text: &str) -> bool {
    let Ok(text) = String::from_str(alloc, text) else {
        return false;
    };
    let mut dumps = RealDumps::new(runtime);
    dumps.write(alloc, path, text).is_ok()
}

impl Dumps for Folder<'_> {
    ghost use Rattle.lusdist_shell.specs.Writes.{written_of};

    ghost written = { λ folder. map written_of folder.written.items };

    ghost same = { λ _ _ _. Unit {0} };

    ghost shut = { λ _ _. Unit {0} };

    fn is_same(&self, _alloc: Global, one: &str, other: &str) -> bool {
        one == other || plain(one) == plain(other)
    }

    fn is_shut(&self, alloc: Global, path: &str) -> bool {
        path.contains('/') && RealDumps::new(self.runtime).is_shut(alloc, path)
    }

    fn write(&mut self, alloc: Global, path: &str, text: String) -> Result<(), WriteError> {
        let Ok(name) = String::from_str(alloc, path) else {
            return Err(WriteError::OutOfMemory);
        };
        if self.written.try_reserve(1).is_err() {
            return Err(WriteError::OutOfMemory);
        }
        let whole = !path.contains('/') || is_written(self.runtime, alloc, path, text.as_str());
        self.written.push_reserved(Dump {
            path: name,
            text,
            whole,
        });
        if whole {
            Ok(())
        } else {
            Err(WriteError::CannotWrite)
        }
    }
}

/// No file at all: nothing is ever written.
#[derive(Drop)]
pub struct NoFile;

impl Dumps for NoFile {
    ghost written = { λ _. [] };

    ghost same = { λ _ one other. one ≡ other };

    ghost shut = { λ _ _. ⊥ };

    fn is_same(&self, _alloc: Global, one: &str, other: &str) -> bool {
        one == other
    }

    fn is_shut(&self, _alloc: Global, _path: &str) -> bool {
        false
    }

    fn write(&mut self, _alloc: Global, _path: &str, _text: String) -> Result<(), WriteError> {
        Err(WriteError::OutOfMemory)
    }
}
