//! Where a dump goes in the files of the system: into a new file beside its target, which takes the target's
//! place when it is whole.

use std::fs::{File, OpenFile, OpenOptions, Permissions};
use std::io::{ErrorKind, Write};
use std::{fs, io, rt};

/// What the name of a file beside a target has behind the target's, in the order in which they are tried.
const ENDINGS: [&str; 4] = [".part", ".part2", ".part3", ".part4"];

/// What stands at the path of a dump.
#[derive(Drop)]
enum Target {
    /// A file: its path, behind all links.
    Place(String),
    /// Nothing yet.
    Gap,
    /// What takes bytes as they come, or is none of the user's files: a device, a pipe, a link to nothing.
    Stream,
    /// What takes no bytes: a folder, or the empty path.
    Shut,
}

/// Whether what stands at the path is one of the system's, as a device, or a stream that is open.
fn is_of_system(path: &str) -> bool {
    path.starts_with("/dev/") || path.starts_with("/proc/")
}

/// What stands at the path of a dump.
fn target_of<R: rt::Files + AllocGlobal>(runtime: &R, path: &str) -> io::Result<Target> {
    match fs::metadata(runtime, path) {
        Ok(found) => {
            if found.is_dir() {
                Ok(Target::Shut)
            } else if found.is_file() && !is_of_system(path) {
                Ok(Target::Place(fs::canonicalize(runtime, path)?.into_string()))
            } else {
                Ok(Target::Stream)
            }
        }
        Err(_) => {
            if path.is_empty() {
                Ok(Target::Shut)
            } else if fs::symlink_metadata(runtime, path).is_ok() {
                Ok(Target::Stream)
            } else {
                Ok(Target::Gap)
            }
        }
    }
}

/// A new file beside a target, and its path. A file that is there is never opened.
fn file_beside<R: rt::Files + AllocGlobal>(
    runtime: &R,
    place: &str,
) -> io::Result<(R::File, String)> {
    for ending in ENDINGS {
        let name = format!(in runtime.alloc(); "{place}{ending}")?;
        match File::create_new(runtime, name.as_str()) {
            Ok(file) => return Ok((file, name)),
            Err(e) => {
                if e.kind() != ErrorKind::AlreadyExists {
                    return Err(e);
                }
            }
        }
    }
    Err(io::Error::from(ErrorKind::AlreadyExists))
}

/// Whether no file can be made beside a target. One that was made is removed again.
fn takes_none<R: rt::Files + AllocGlobal>(runtime: &R, place: &str) -> bool {
    match file_beside(runtime, place) {
        Ok((_, name)) => fs::remove_file(runtime, name.as_str()).is_err(),
        Err(e) => e.kind() != ErrorKind::OutOfMemory,
    }
}

/// Who may read and write a file, which this call may write. It is opened, and left as it is.
fn permissions_of<R: rt::Files + AllocGlobal>(runtime: &R, place: &str) -> io::Result<Permissions> {
    let file = OpenOptions::new().write(true).open(runtime, place)?;
    Ok(file.metadata()?.permissions())
}

/// Whether a dump can't be written at the path, as far as that can be seen. What stands there is left as it
/// is.
pub fn is_shut<R: rt::Files + AllocGlobal>(runtime: &R, path: &str) -> bool {
    match target_of(runtime, path) {
        Ok(Target::Place(place)) => {
            permissions_of(runtime, place.as_str()).is_err() || takes_none(runtime, place.as_str())
        }
        Ok(Target::Gap) => takes_none(runtime, path),
        Ok(Target::Shut) => true,
        Ok(Target::Stream) | Err(_) => false,
    }
}

/// Whether two paths lead to one file. Where either leads to none, they don't.
pub fn is_one_file<R: rt::Files + AllocGlobal>(runtime: &R, one: &str, other: &str) -> bool {
    let Ok(one) = fs::canonicalize(runtime, one) else {
        return false;
    };
    let Ok(other) = fs::canonicalize(runtime, other) else {
        return false;
    };
    one.as_str() == other.as_str()
}

/// Gives a new file its permissions, where there are some to keep, and all bytes.
fn fill<F: OpenFile + Write + Drop>(
    mut file: F,
    kept: Option<Permissions>,
    bytes: &[u8],
) -> io::Result<()> {
    if let Some(permissions) = kept {
        file.set_permissions(permissions)?;
    }
    file.write_all(bytes)?;
    file.sync_all()
}

/// Writes the bytes into a new file beside a target, which then takes its place. Where a step fails the new
/// file is removed.
fn replace<R: rt::Files + AllocGlobal>(
    runtime: &R,
    place: &str,
    kept: Option<Permissions>,
    bytes: &[u8],
) -> io::Result<()> {
    let (file, name) = file_beside(runtime, place)?;
    let mut done = fill(file, kept, bytes);
    if done.is_ok() {
        done = fs::rename(runtime, name.as_str(), place);
    }
    if done.is_err() {
        let _ = fs::remove_file(runtime, name.as_str());
    }
    done
}

/// Writes the bytes at the path, in place of what it had. Where that fails a file has what it had; a stream
/// has a prefix of the bytes.
pub fn put<R: rt::Files + AllocGlobal>(runtime: &R, path: &str, bytes: &[u8]) -> io::Result<()> {
    match target_of(runtime, path)? {
        Target::Place(place) => {
            let kept = permissions_of(runtime, place.as_str())?;
            replace(runtime, place.as_str(), Some(kept), bytes)
        }
        Target::Gap => replace(runtime, path, None, bytes),
        Target::Stream => fs::write(runtime, path, bytes),
        Target::Shut => Err(io::Error::from(ErrorKind::InvalidInput)),
    }
}
