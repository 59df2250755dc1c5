//! What a call answers that doesn't stop.

ghost use Rattle.std.specs.Prelude.{◌≡◌, ◌⊎◌, ◌++◌, [], true, false, IfOk, None, string_bytes, codes};
ghost use Rattle.std.specs.Io.KnownBytes.{Appends};
ghost use Rattle.lusdist_shell.specs.Sinks.{HasPut, HasLine, HasBeginning};
ghost use Rattle.lusdist_call.specs.Statuses.{status_beside};
ghost use Rattle.lusdist_call.specs.Violations.{has_lines};

use lusdist_shell::{Sink, put_notes, put_out};
use std::alloc::{AllocError, Global};
use std::io::Write;

/// What a call answers: a text for the output, notes for the error stream, and a dump for a file, where one
/// is asked for; and whether the notes tell that an output that is observed is violated.
#[derive(Drop)]
pub struct Reply {
    pub text: String,
    pub notes: String,
    pub dump: Option<String>,
    pub violated: bool,
}

impl Reply {
    /// A text, and a dump or none, with what is told of outputs that are observed.
    pub fn new(text: String, told: String, dump: Option<String>) -> Reply
        ensures text { result.text ≡ text }
        ensures notes { result.notes ≡ told }
        ensures dump { result.dump ≡ dump }
        ensures violated { result.violated ≡ has_lines (string_bytes told) }
    {
        let violated = !told.is_empty();
        Reply {
            text,
            notes: told,
            dump,
            violated,
        }
    }

    /// A text with notes alone, which tell of nothing that is observed.
    pub fn noted(text: String, notes: String) -> Reply
        ensures text { result.text ≡ text }
        ensures notes { result.notes ≡ notes }
        ensures dump { result.dump ≡ None }
        ensures violated { result.violated ≡ false }
    {
        Reply {
            text,
            notes,
            dump: None,
            violated: false,
        }
    }

    /// The same with these notes before its own.
    ///
    /// # Errors
    ///
    /// `AllocError` where memory ran out. The reply is gone then.
    pub fn behind(self, notes: String) -> Result<Reply, AllocError>
        ensures text { IfOk result (λ reply. reply.text ≡ self.text) }
        ensures notes { IfOk result (λ reply. string_bytes reply.notes
            ≡ string_bytes notes ++ string_bytes self.notes) }
        ensures dump { IfOk result (λ reply. reply.dump ≡ self.dump) }
        ensures violated { IfOk result (λ reply. reply.violated ≡ self.violated) }
    {
        let Reply {
            text,
            notes: own,
            dump,
            violated,
        } = self;
        let mut all = notes;
        all.push_str(&own)?;
        Ok(Reply {
            text,
            notes: all,
            dump,
            violated,
        })
    }

    /// A text alone.
    pub fn plain(alloc: Global, text: String) -> Reply
        ensures text { result.text ≡ text }
        ensures notes { string_bytes result.notes ≡ [] }
        ensures dump { result.dump ≡ None }
        ensures violated { result.violated ≡ false }
    {
        Reply::noted(text, String::new(alloc))
    }
}

/// The status of a call that answers, by whether an output that is observed is violated: 3, else 0.
pub fn status_beside(violated: bool) -> u8
    ensures { result ≡ status_beside violated }
{
    if violated { 3 } else { 0 }
}

/// Writes a text to the output, and then its notes to the error stream. Answers the status: 0, or 3 where the
/// output can't be written, which the error stream then reports, and no notes.
pub fn put_reply<W: Write, V: Write>(
    out: &mut Sink<W>,
    err: &mut Sink<V>,
    text: &str,
    notes: &str,
) -> u8
    ensures status { (result ≡ 0) ⊎ ((result ≡ 3) × (out.new.failed ≡ true)) }
    ensures written { result ≡ 0 → Appends (W.contents out.old.writer) (W.contents out.new.writer)
        text.now }
    ensures noted { result ≡ 0 → HasPut V.contents err.old err.new notes.now }
    ensures silent { result ≡ 0 → notes.now ≡ [] → err.new ≡ err.old }
    ensures beginning { HasBeginning W.contents out.old out.new text.now }
    ensures line { result ≡ 3 → HasLine V.contents err.old err.new (codes "F02 CannotWrite") }
{
    let status = put_out(out, err, text.as_bytes());
    if status != 0 {
        return status;
    }
    put_notes(err, notes.as_bytes());
    0
}
