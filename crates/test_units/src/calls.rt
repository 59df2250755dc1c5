//! Words that can't be read, errors that can't be written, the line of refused memory, and real files.

use luplace_file::PlaceError;
use lusdist_shell::{
    Files, ReadError, ReadFault, RealFiles, ScheduleError, Sink, put_out, put_unread,
};
use lustat_rules::StatError;
use lusyn_grammar::LexError;
use lutab::TabError;
use std::alloc::{AllocError, Global};
use std::fmt::Display;
use std::io;
use std::io::Write;
use std::test::Fail;

/// A stream that takes nothing.
#[derive(Drop)]
struct Full;

impl Write for Full {
    fn write(&mut self, _buf: &[u8]) -> io::Result<usize> {
        Ok(0)
    }

    fn flush(&mut self) -> io::Result<()> {
        Ok(())
    }
}

const NO_MEMORY: (u8, &str) = (3, "R2 OutOfMemory\n");

/// Whether words that can't be read for this reason have this status and line.
fn is_unread_reported(alloc: Global, why: io::ErrorKind, want: (u8, &str)) -> bool {
    let mut err = Sink::new(Vec::new(alloc));
    put_unread(&mut err, why) == want.0 && err.writer().as_slice() == want.1.as_bytes()
}

const NO_TEXT: (u8, &str) = (
    2,
    "error: invalid UTF-8 was detected in one or more arguments\n",
);

#[test]
fn words_that_cannot_be_read_and_errors_that_cannot_be_written(rt: HostRuntime) {
    assert!(rt; is_unread_reported(rt.alloc(), io::ErrorKind::OutOfMemory, NO_MEMORY));
    assert!(rt; is_unread_reported(rt.alloc(), io::ErrorKind::InvalidData, NO_TEXT));
    let mut err = Sink::new(Full);
    assert!(rt; put_unread(&mut err, io::ErrorKind::InvalidData) == 2 && err.failed());
    assert!(rt; put_out(&mut Sink::new(Full), &mut err, b"site A ended\n") == 3);
}

/// Whether an error is displayed as refused memory is.
fn is_no_memory<E: Display + Drop>(alloc: Global, error: E) -> Result<bool, AllocError> {
    Ok(error.to_string(alloc)?.as_str() == "R2 OutOfMemory")
}

#[test]
fn refused_memory_has_one_line(rt: HostRuntime) -> Result<(), Fail> {
    assert!(rt; is_no_memory(rt.alloc(), LexError::OutOfMemory)?);
    assert!(rt; is_no_memory(rt.alloc(), StatError::OutOfMemory)?);
    assert!(rt; is_no_memory(rt.alloc(), PlaceError::OutOfMemory)?);
    assert!(rt; is_no_memory(rt.alloc(), TabError::OutOfMemory)?);
    assert!(rt; is_no_memory(rt.alloc(), ScheduleError::OutOfMemory)?);
    Ok(())
}

/// Whether files have these bytes at a path, or can't read it.
fn has(files: &impl Files, alloc: Global, path: &str, want: Result<&[u8], ReadError>) -> bool {
    match files.read(alloc, path) {
        Ok(bytes) => want == Ok(bytes.as_slice()),
        Err(error) => want == Err(error),
    }
}

#[test]
fn real_files(rt: HostRuntime) {
    let real = RealFiles::new(&rt);
    assert!(rt; has(&real, rt.alloc(), "/dev/null", Ok(b"")));
    assert!(rt;
        has(
            &real,
            rt.alloc(),
            "/",
            Err(ReadError::CannotRead(ReadFault::Folder))
        )
    );
    assert!(rt;
        has(
            &real,
            rt.alloc(),
            "no/such/file",
            Err(ReadError::CannotRead(ReadFault::Missing))
        )
    );
}
