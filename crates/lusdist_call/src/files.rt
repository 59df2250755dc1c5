//! The files that a call reads, and the one into which it writes a dump.

ghost use Rattle.std.specs.Prelude.{◌≡◌, ◌⊎◌, ◌++◌, List, true, IfOk, IfErr, OnOk, Some, option_map, string_bytes};
ghost use Rattle.lusdist_shell.specs.Dumps.{Written};
ghost use Rattle.lusdist_call.specs.Files.{IsUnread, IsUnfiled, writes_of};
ghost use Rattle.lusdist_call.specs.declared.call_error.CallError.TheVariants.{CannotRead, OutOfMemory};

use crate::call_error::CallError;
use lubase::Name;
use lusdist_shell::{Dumps, Files, ReadError, WriteError};
use std::alloc::Global;

/// The stop for a file that can't be read.
fn unread(alloc: Global, path: &str) -> CallError
    ensures { (result ≡ OutOfMemory) ⊎ (result ≡ CannotRead path.now) }
{
    match Name::from_text(alloc, path) {
        Ok(path) => CallError::CannotRead { path },
        Err(_) => CallError::OutOfMemory,
    }
}

/// The bytes of the file at the path.
pub fn read<F: Files>(alloc: Global, files: &F, path: &str) -> Result<Vec<u8>, CallError>
    ensures given { IfOk result (λ bytes. F.gives files.now path.now (Some bytes.items)) }
    ensures unread { IfErr result (IsUnread (F.gives files.now) path.now) }
{
    match files.read(alloc, path) {
        Ok(bytes) => Ok(bytes),
        Err(ReadError::OutOfMemory) => Err(CallError::OutOfMemory),
        Err(ReadError::CannotRead(_)) => Err(unread(alloc, path)),
    }
}

/// Writes a dump into the file of this path.
fn write_dump<D: Dumps>(
    alloc: Global,
    dumps: &mut D,
    path: &str,
    text: String,
) -> Result<(), CallError>
    ensures filed { OnOk result (D.written dumps.new ≡ D.written dumps.old
        ++ writes_of (Some path.now) (Some (string_bytes text)) true) }
    ensures stopped { IfErr result (λ error. (wrote : List Written)
        × (D.written dumps.new ≡ D.written dumps.old ++ wrote)
        × IsUnfiled (Some path.now) (Some (string_bytes text)) error wrote) }
{
    let Ok(name) = Name::from_text(alloc, path) else {
        return Err(CallError::OutOfMemory);
    };
    match dumps.write(alloc, path, text) {
        Ok(()) => Ok(()),
        Err(WriteError::CannotWrite) => Err(CallError::CannotWrite { path: name }),
        Err(WriteError::OutOfMemory) => Err(CallError::OutOfMemory),
    }
}

/// Writes a dump into the file of a path, where there are both; else nothing. It is one write.
pub fn file_dump<D: Dumps>(
    alloc: Global,
    dumps: &mut D,
    path: Option<&str>,
    dump: Option<String>,
) -> Result<(), CallError>
    ensures filed { OnOk result (D.written dumps.new ≡ D.written dumps.old
        ++ writes_of (option_map (λ s. s.now) path.entry) (option_map string_bytes dump) true) }
    ensures stopped { IfErr result (λ error. (wrote : List Written)
        × (D.written dumps.new ≡ D.written dumps.old ++ wrote)
        × IsUnfiled (option_map (λ s. s.now) path.entry) (option_map string_bytes dump) error
        wrote) }
{
    match path {
        Some(path) => match dump {
            Some(text) => write_dump(alloc, dumps, path, text),
            None => Ok(()),
        },
        None => Ok(()),
    }
}
