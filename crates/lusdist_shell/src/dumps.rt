//! Where a dump goes.

ghost use Rattle.std.specs.Prelude.{◌≡◌, ℕ, List, true, map, IfErr, OnOk, string_bytes};
ghost use Rattle.std.specs.Bool.{OnTrue};
ghost use Rattle.lusdist_shell.specs.Dumps.{Written, written_whole, HasFailed};

use crate::targets::{is_one_file, is_shut, put};
use std::alloc::Global;
use std::rt;

/// A dump wasn't written.
#[derive(Clone, Copy, Debug, PartialEq, Eq)]
pub enum WriteError {
    /// The file can't be written: it has no such place, or the disk is full, for instance. A file has what it
    /// had; what takes bytes as they come, as a pipe, has a prefix of the text.
    CannotWrite,
    /// Memory ran out before anything was written.
    OutOfMemory,
}

/// The files that dumps are written into.
pub trait Dumps {
    /// What was written so far: an entry for each write, in order.
    ghost written: { Self → List Written };

    /// These two paths may name one file. Paths that are spelled alike do; of others an impl says what it can
    /// tell.
    ghost same: { Self → List ℕ → List ℕ → Type 0 };

    /// No file can be written at this path, as a folder is there, or no such place.
    ghost shut: { Self → List ℕ → Type 0 };

    /// Whether a dump at the one path would take the place of the file at the other one. It looks at what is
    /// there, and touches nothing. Where it answers no, the paths aren't spelled alike.
    fn is_same(&self, alloc: Global, one: &str, other: &str) -> bool
        ensures alike { one.now ≡ other.now → result ≡ true }
        ensures same { OnTrue result (same self.now one.now other.now) };

    /// Whether no file can be written at the path, as far as that is seen beforehand. What is there keeps
    /// what it has; a new file may be made beside it and removed again.
    fn is_shut(&self, alloc: Global, path: &str) -> bool
        ensures shut { OnTrue result (shut self.now path.now) };

    /// Writes the text into the file at the path, in place of what it had.
    fn write(&mut self, alloc: Global, path: &str, text: String) -> Result<(), WriteError>
        ensures whole { OnOk result (written self.new
            ≡ written_whole (written self.old) path.now (string_bytes text)) }
        ensures failed { IfErr result (HasFailed (written self.old) (written self.new) path.now
            (string_bytes text)) };
}

/// A write of a text into a file: whether all of it was written.
#[derive(Drop)]
pub struct Dump {
    pub path: String,
    pub text: String,
    pub whole: bool,
}

/// Files of the system, and what was written into them.
#[derive(Drop)]
pub struct RealDumps<'a, R> {
    runtime: &'a R,
    written: Vec<Dump>,
}

impl<'a, R: rt::Files + AllocGlobal> RealDumps<'a, R> {
    /// The files that this runtime reaches, of which none was written.
    pub fn new(runtime: &'a R) -> Self {
        RealDumps {
            runtime,
            written: Vec::new(runtime.alloc()),
        }
    }
}

impl<R: rt::Files + AllocGlobal> Dumps for RealDumps<'_, R> {
    ghost use Rattle.lusdist_shell.specs.Writes.{written_of};

    ghost written = { λ dumps. map written_of dumps.written.items };

    ghost same = { λ _ _ _. Unit {0} };

    ghost shut = { λ _ _. Unit {0} };

    fn is_same(&self, _alloc: Global, one: &str, other: &str) -> bool {
        one == other || is_one_file(self.runtime, one, other)
    }

    fn is_shut(&self, _alloc: Global, path: &str) -> bool {
        is_shut(self.runtime, path)
    }

    fn write(&mut self, alloc: Global, path: &str, text: String) -> Result<(), WriteError> {
        let Ok(name) = String::from_str(alloc, path) else {
            return Err(WriteError::OutOfMemory);
        };
        if self.written.try_reserve(1).is_err() {
            return Err(WriteError::OutOfMemory);
        }
        let whole = put(self.runtime, path, text.as_bytes()).is_ok();
        self.written.push_reserved(Dump {
            path: name,
            text,
            whole,
        });
        if whole {
            Ok(())
        } else {
            Err(WriteError::CannotWrite)
        }
    }
}
