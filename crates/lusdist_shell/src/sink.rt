//! The streams that the program writes to.

ghost use Rattle.std.specs.Prelude.{◌≡◌, ℕ, IfSome, false, take};
ghost use Rattle.std.specs.Bool.{OnTrue};
ghost use Rattle.std.specs.Io.KnownBytes.{Appends};
ghost use Rattle.lusdist_shell.specs.Sinks.{HasPut, HasLineOf, HasBeginning};

use std::fmt::Display;
use std::io::{ErrorKind, Write};

/// A stream that the program writes to. It remembers whether a write has failed, so that a contract can say
/// of each call what stands in the stream after it, or that a write failed.
#[derive(Drop)]
pub struct Sink<W> {
    writer: W,
    failed: bool,
}

/// Writes the bytes, and answers whether all were written. Where a write failed, those before it were.
fn put_bytes<W: Write>(writer: &mut W, bytes: &[u8]) -> bool
    ensures whole { OnTrue result (Appends (W.contents writer.old) (W.contents writer.new)
        bytes.now) }
    ensures beginning { (n : ℕ) × Appends (W.contents writer.old) (W.contents writer.new)
        (take n bytes.now) }
{
    let mut at = 0;
    for _ in 0..usize::MAX {
        if at == bytes.len() {
            return true;
        }
        match writer.write(&bytes[at..]) {
            Ok(0) => return false,
            Ok(n) => at += n,
            Err(e) => {
                if e.kind() != ErrorKind::Interrupted {
                    return false;
                }
            }
        }
    }
    false
}

impl<W: Write> Sink<W> {
    /// The stream of a writer, of which no write has failed.
    pub fn new(writer: W) -> Self
        ensures { result ≡ record { writer = writer; failed = false } }
    {
        Sink {
            writer,
            failed: false,
        }
    }

    /// The writer.
    pub fn writer(&self) -> &W
        ensures { result.now ≡ self.now.writer }
    {
        &self.writer
    }

    /// Whether a write has failed.
    pub fn failed(&self) -> bool
        ensures { result ≡ self.now.failed }
    {
        self.failed
    }

    /// Writes the bytes: all of them, or those before a failing write.
    pub fn put(&mut self, bytes: &[u8])
        ensures put { HasPut W.contents self.old self.new bytes.now }
        ensures beginning { HasBeginning W.contents self.old self.new bytes.now }
    {
        if !put_bytes(&mut self.writer, bytes) {
            self.failed = true;
        }
    }

    /// Writes one line: what the error displays, and a line feed.
    pub fn put_line<E: Display + Drop>(&mut self, error: E)
        ensures { HasLineOf W.contents self.old self.new (E.output error) }
    {
        if writeln!(&mut self.writer, "{error}").is_err() {
            self.failed = true;
        }
    }

    /// Writes what the text displays, with no line feed behind it.
    pub fn put_text<E: Display + Drop>(&mut self, text: E)
        ensures { IfSome (E.output text) (HasPut W.contents self.old self.new) }
    {
        if write!(&mut self.writer, "{text}").is_err() {
            self.failed = true;
        }
    }
}
