//! Writing to the output and to the error stream.

ghost use Rattle.std.specs.Prelude.{◌≡◌, ◌≢◌, ◌⊎◌, [], false, true, codes};
ghost use Rattle.std.specs.Io.KnownBytes.{Appends};
ghost use Rattle.clap.specs.Words.{kind_of};
ghost use Rattle.clap.specs.declared.error.kind.ErrorKind.TheVariants.{OutOfMemory, DisplayHelp, DisplayVersion};
ghost use Rattle.std.specs.declared.io.ErrorKind.TheVariants.{OutOfMemory as NoMemory};
ghost use Rattle.lusdist_shell.specs.Sinks.{HasPut, HasLine, HasBeginning};

use crate::sink::Sink;
use clap::error::ErrorKind;
use std::io;
use std::io::Write;

/// The status of what was written to the output: 0, or 3 where it couldn't be written, which the error stream
/// then reports.
fn written<W: Write, V: Write>(out: &Sink<W>, err: &mut Sink<V>) -> u8
    ensures status { (result ≡ 0) ⊎ ((result ≡ 3) × (out.now.failed ≡ true)) }
    ensures silent { result ≡ 0 → (err.new ≡ err.old) × (out.now.failed ≡ false) }
    ensures line { result ≡ 3 → HasLine V.contents err.old err.new (codes "F02 CannotWrite") }
{
    if out.failed() {
        err.put_line("F02 CannotWrite");
        3
    } else {
        0
    }
}

/// Writes the bytes to the output, and answers the program's status: 0, or 3 where they can't be written,
/// which the error stream then reports.
pub fn put_out<W: Write, V: Write>(out: &mut Sink<W>, err: &mut Sink<V>, bytes: &[u8]) -> u8
    ensures status { (result ≡ 0) ⊎ ((result ≡ 3) × (out.new.failed ≡ true)) }
    ensures written { result ≡ 0 → Appends (W.contents out.old.writer)
        (W.contents out.new.writer) bytes.now }
    ensures silent { result ≡ 0 → err.new ≡ err.old }
    ensures beginning { HasBeginning W.contents out.old out.new bytes.now }
    ensures line { result ≡ 3 → HasLine V.contents err.old err.new (codes "F02 CannotWrite") }
{
    out.put(bytes);
    written(out, err)
}

/// Writes notes to the error stream; nothing where there are none.
pub fn put_notes<V: Write>(err: &mut Sink<V>, notes: &[u8])
    ensures put { HasPut V.contents err.old err.new notes.now }
    ensures silent { notes.now ≡ [] → err.new ≡ err.old }
{
    if !notes.is_empty() {
        err.put(notes);
    }
}

/// Reports on the error stream why the words of the command line can't be read, and answers the program's
/// status: 3 where it is out of memory, and else 2, since a word is no text.
pub fn put_unread<V: Write>(err: &mut Sink<V>, why: io::ErrorKind) -> u8
    ensures memory { why ≡ NoMemory → (result ≡ 3)
        × HasLine V.contents err.old err.new (codes "R2 OutOfMemory") }
    ensures other { why ≢ NoMemory → (result ≡ 2) × HasLine V.contents err.old err.new
        (codes "error: invalid UTF-8 was detected in one or more arguments") }
{
    if why == io::ErrorKind::OutOfMemory {
        err.put_line("R2 OutOfMemory");
        return 3;
    }
    err.put_line("error: invalid UTF-8 was detected in one or more arguments");
    2
}

/// Shows what the parser of the command line says: help on the output with status 0, a mistake on the error
/// stream with status 2, and out of memory with status 3.
pub fn put_mistake<W: Write, V: Write>(
    out: &mut Sink<W>,
    err: &mut Sink<V>,
    mistake: &clap::Error,
) -> u8
    ensures memory { kind_of mistake.now ≡ OutOfMemory → (result ≡ 3) × (out.new ≡ out.old)
        × HasLine V.contents err.old err.new (codes "R2 OutOfMemory") }
    ensures help { (kind_of mistake.now ≡ DisplayHelp) ⊎ (kind_of mistake.now ≡ DisplayVersion)
        → ((result ≡ 0) × (out.new.failed ≡ false)) ⊎ ((result ≡ 3) × (out.new.failed ≡ true)
        × HasLine V.contents err.old err.new (codes "F02 CannotWrite")) }
    ensures other { kind_of mistake.now ≢ OutOfMemory → kind_of mistake.now ≢ DisplayHelp
        → kind_of mistake.now ≢ DisplayVersion → result ≡ 2 }
    ensures kept { kind_of mistake.now ≢ DisplayHelp → kind_of mistake.now ≢ DisplayVersion
        → out.new ≡ out.old }
    ensures silent { result ≡ 0 → err.new ≡ err.old }
{
    if mistake.kind() == ErrorKind::OutOfMemory {
        err.put_line("R2 OutOfMemory");
        return 3;
    }
    if mistake.use_stderr() {
        err.put_text(mistake);
        return 2;
    }
    out.put_text(mistake);
    written(out, err)
}
