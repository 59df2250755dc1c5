//! Where the program's texts come from.

ghost use Rattle.std.specs.Prelude.{List, ℕ, Option, Some, IfOk, IfErr};
ghost use Rattle.lusdist_shell.specs.Files.{IsMissed};

use std::alloc::Global;
use std::io::ErrorKind;
use std::{fs, rt};

/// Why a file can't be read, as far as the system tells.
#[derive(Clone, Copy, Debug, PartialEq, Eq)]
pub enum ReadFault {
    /// There is none at the path.
    Missing,
    /// A folder is there.
    Folder,
    /// The system doesn't allow it.
    Forbidden,
    /// For another reason.
    Other,
}

/// Why a file gave no bytes.
#[derive(Clone, Copy, Debug, PartialEq, Eq)]
pub enum ReadError {
    /// There is no such file, or it can't be read.
    CannotRead(ReadFault),
    /// Memory ran out, which says nothing of the file.
    OutOfMemory,
}

/// Files by their paths, which are read.
pub trait Files {
    /// A read of the path may give these bytes, or none, where there is no file that can be read. Files in
    /// memory say which; real files may give any.
    ghost gives: { Self → List ℕ → Option (List ℕ) → Type 0 };

    /// The bytes of the file at the path.
    fn read(&self, alloc: Global, path: &str) -> Result<Vec<u8>, ReadError>
        ensures given { IfOk result (λ bytes. gives self.now path.now (Some bytes.items)) }
        ensures missed { IfErr result (IsMissed (gives self.now path.now)) };
}

/// Why the system read no file.
fn fault_of(kind: ErrorKind) -> ReadFault {
    match kind {
        ErrorKind::NotFound | ErrorKind::NotADirectory => ReadFault::Missing,
        ErrorKind::IsADirectory => ReadFault::Folder,
        ErrorKind::PermissionDenied => ReadFault::Forbidden,
        _ => ReadFault::Other,
    }
}

/// The files of the system.
#[derive(Drop)]
pub struct RealFiles<'a, R> {
    runtime: &'a R,
}

impl<'a, R: rt::Files + AllocGlobal> RealFiles<'a, R> {
    /// The files that this runtime reaches.
    pub fn new(runtime: &'a R) -> Self {
        RealFiles { runtime }
    }
}

impl<R: rt::Files + AllocGlobal> Files for RealFiles<'_, R> {
    ghost gives = { λ _ _ _. Unit {0} };

    fn read(&self, _alloc: Global, path: &str) -> Result<Vec<u8>, ReadError> {
        match fs::read(self.runtime, path) {
            Ok(bytes) => Ok(bytes),
            Err(e) => {
                if e.kind() == ErrorKind::OutOfMemory {
                    Err(ReadError::OutOfMemory)
                } else {
                    Err(ReadError::CannotRead(fault_of(e.kind())))
                }
            }
        }
    }
}
