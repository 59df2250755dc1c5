//! What is told of a refusal on the error stream.

ghost use Rattle.std.specs.Prelude.{◌≡◌, ◌<◌, ◌≤◌, ◌++◌, List, ℕ, Some, codes, length, slice_get, string_bytes, IfOk, IfSome};
ghost use Rattle.lustat_rules.specs.declared.error.StatError.{StatError};
ghost use Rattle.luexplain.specs.declared.said.Explanation.{Explanation as AnyExplanation};
ghost use Rattle.lusdist_call.specs.Lines.{line_of, is_inside_word, named};
ghost use Rattle.luexplain.specs.declared.refused.SyntaxRefusal.{SyntaxRefusal as AnyRefusal};
ghost use Rattle.lusdist_call.specs.Reasons.{all_told, asks_all, asks_all_places, asks_short, asks_why, count_text, explained_line, explained_text, main_name, program_path, short_line, short_text, told_of, AreFaultsAt, AreRefusalsAt, AreTold, HasRefusal, IsReasonOf, IsRefusalText, IsTold};
ghost use Rattle.lusdist_call.specs.Statuses.{status_of};
ghost use Rattle.lusdist_call.specs.declared.call_error.CallError.TheVariants as stops;
ghost use Rattle.std.specs.List.{prefix_len};

use crate::reasons::{faults_of, reason, refusals_of};
use luexplain::{Explanation, SyntaxRefusal};
use lusdist_call::CallError;
use lusdist_shell::{Files, Request, Sink};
use lustat_rules::StatError;
use std::alloc::{AllocError, Global};
use std::fmt;
use std::io::Write;

/// Whether a request asks why a text is refused.
fn asks_why(request: Request<'_>) -> bool
    ensures { result ≡ asks_why request.entry }
{
    match request {
        Request::Check(asked) => asked.explain,
        Request::Eval(asked) => asked.explain,
        Request::New(asked) => asked.explain,
        Request::Plan(asked) => asked.explain,
        Request::Replay(asked) => asked.explain,
        Request::Run(asked) => asked.explain,
        Request::Explain(_) => false,
    }
}

/// Whether a request asks for a refusal in one line, with its place.
fn asks_short(request: Request<'_>) -> bool
    ensures { result ≡ asks_short request.entry }
{
    match request {
        Request::Check(asked) => asked.short,
        Request::Eval(asked) => asked.short,
        Request::New(asked) => asked.short,
        Request::Plan(asked) => asked.short,
        Request::Replay(asked) => asked.short,
        Request::Run(asked) => asked.short,
        Request::Explain(_) => false,
    }
}

/// Whether a request asks for all faults, where a rule is broken.
fn asks_all(request: Request<'_>, stop: &CallError) -> bool
    ensures { result ≡ asks_all request.entry stop.now }
{
    match (request, stop) {
        (Request::Check(asked), CallError::Rules(_)) => asked.all,
        _ => false,
    }
}

/// Whether a request asks for all refusals of a text that is no program.
fn asks_all_places(request: Request<'_>, stop: &CallError) -> bool
    ensures { result ≡ asks_all_places request.entry stop.now }
{
    match (request, stop) {
        (Request::Check(asked), CallError::Syntax(_) | CallError::NotAscii) => asked.all,
        _ => false,
    }
}

/// The length of the word that bytes begin with.
fn word_len(bytes: &[u8]) -> usize
    ensures length { result ≡ prefix_len is_inside_word bytes.now }
    ensures within { result ≤ length bytes.now }
{
    bytes.iter().take_while(|byte| **byte != b' ').count()
}

/// The first two words of a line: the code and the name.
fn named(line: &[u8]) -> &[u8]
    ensures { result.now ≡ named line.now }
{
    let first = word_len(line);
    if line.len() <= first {
        return line;
    }
    let second = word_len(&line[first + 1..]);
    &line[..first + 1 + second]
}

/// Adds a refusal of this line in one line, with its place.
fn put_short(text: &mut Vec<u8>, line: &str, reason: &Explanation) -> Result<(), AllocError>
    ensures { IfOk result (λ _. text.new.items ≡ text.old.items ++ short_line line.now reason.now) }
{
    text.extend_from_slice(reason.head())?;
    text.extend_from_slice(b": ")?;
    text.extend_from_slice(named(line.as_bytes()))?;
    text.extend_from_slice(b": ")?;
    text.extend_from_slice(reason.what.as_bytes())?;
    text.extend_from_slice(b"\n")?;
    Ok(())
}

/// Adds the line of a refusal, and behind it where it stands, what is wrong there, and how to mend it.
fn put_explained(text: &mut Vec<u8>, line: &str, reason: &Explanation) -> Result<(), AllocError>
    ensures { IfOk result (λ _. text.new.items
        ≡ text.old.items ++ explained_line line.now reason.now) }
{
    text.extend_from_slice(line.as_bytes())?;
    text.extend_from_slice(b"\n")?;
    text.extend_from_slice(reason.place.as_bytes())?;
    text.extend_from_slice(reason.what.as_bytes())?;
    text.extend_from_slice(b"\n")?;
    text.extend_from_slice(reason.mend.as_bytes())?;
    text.extend_from_slice(b"\n")?;
    Ok(())
}

/// The reason of a stop, where the request asks for it. The texts are read once more. None where no text is
/// to blame, where its file can't be read again, or where memory runs out.
fn asked_reason<F: Files>(
    alloc: Global,
    files: &F,
    request: Request<'_>,
    stop: &CallError,
) -> Option<Explanation>
    ensures { IfSome result (IsReasonOf (F.gives files.now) request.entry stop.now) }
{
    match reason(alloc, files, request, stop) {
        Ok(reason) => Some(reason),
        Err(_) => None,
    }
}

/// Adds a refusal's line alone.
fn put_alone(text: &mut Vec<u8>, line: &str) -> Result<(), AllocError>
    ensures { IfOk result (λ _. text.new.items ≡ text.old.items ++ (line.now ++ codes "\n")) }
{
    text.extend_from_slice(line.as_bytes())?;
    text.extend_from_slice(b"\n")?;
    Ok(())
}

/// The line of a stop.
fn line_of(alloc: Global, stop: &CallError) -> Result<String, AllocError>
    ensures { IfOk result (λ line. string_bytes line ≡ line_of stop.now) }
{
    format!(in alloc; "{stop}")
}

/// Adds a refusal as it is told.
fn put_told<F: Files>(
    alloc: Global,
    text: &mut Vec<u8>,
    files: &F,
    request: Request<'_>,
    stop: &CallError,
) -> Result<(), AllocError>
    ensures { IfOk result (λ _. (told : List ℕ) × IsTold (F.gives files.now) request.entry stop.now told
        × (text.new.items ≡ text.old.items ++ told)) }
{
    let line = line_of(alloc, stop)?;
    if asks_short(request) {
        if let Some(reason) = asked_reason(alloc, files, request, stop) {
            return put_short(text, line.as_str(), &reason);
        }
    } else if asks_why(request) {
        if let Some(reason) = asked_reason(alloc, files, request, stop) {
            return put_explained(text, line.as_str(), &reason);
        }
    }
    put_alone(text, line.as_str())
}

/// The fault of this number, as a stop.
fn fault_at(faults: &[StatError], j: usize) -> CallError
    requires { j < length faults.now }
    ensures { (fault : StatError) × (slice_get faults.now j ≡ Some fault) × (result ≡ stops.Rules fault) }
{
    CallError::Rules(faults[j])
}

/// Adds faults as they are told.
fn put_each<F: Files>(
    alloc: Global,
    text: &mut Vec<u8>,
    files: &F,
    request: Request<'_>,
    faults: &[StatError],
) -> Result<(), AllocError>
    ensures { IfOk result (λ _. (told : List ℕ) × AreTold (F.gives files.now) request.entry faults.now told
        × (text.new.items ≡ text.old.items ++ told)) }
{
    for j in 0..faults.len() {
        let stop = fault_at(faults, j);
        put_told(alloc, text, files, request, &stop)?;
    }
    Ok(())
}

/// Adds how many faults there are.
fn put_count(alloc: Global, text: &mut Vec<u8>, count: usize) -> Result<(), AllocError>
    ensures { IfOk result (λ _. text.new.items ≡ text.old.items ++ count_text count) }
{
    let line = if count == 1 {
        format!(in alloc; "{count} fault\n")?
    } else {
        format!(in alloc; "{count} faults\n")?
    };
    text.extend_from_slice(line.as_bytes())?;
    Ok(())
}

/// All faults of the program that a request names, as they are told, and how many there are.
fn all_text<F: Files>(alloc: Global, files: &F, request: Request<'_>) -> Result<Vec<u8>, CallError>
    ensures { IfOk result (λ text. (faults : List StatError) × (told : List ℕ)
        × AreFaultsAt (F.gives files.now) (program_path request.entry) (main_name request.entry) faults
        × AreTold (F.gives files.now) request.entry faults told
        × (text.items ≡ told ++ count_text (length faults))) }
{
    let faults = faults_of(alloc, files, request)?;
    let mut text = Vec::new(alloc);
    put_each(alloc, &mut text, files, request, &faults)?;
    put_count(alloc, &mut text, faults.len())?;
    Ok(text)
}

/// Adds a refusal of a text that is no program as it is told.
fn put_place(
    alloc: Global,
    text: &mut Vec<u8>,
    request: Request<'_>,
    refusal: &SyntaxRefusal,
) -> Result<(), AllocError>
    ensures { IfOk result (λ _. text.new.items
        ≡ text.old.items ++ told_of request.entry refusal.now) }
{
    let line = format!(in alloc; "{}", refusal.error)?;
    if asks_short(request) {
        return put_short(text, line.as_str(), &refusal.reason);
    }
    if asks_why(request) {
        return put_explained(text, line.as_str(), &refusal.reason);
    }
    put_alone(text, line.as_str())
}

/// Adds refusals of a text that is no program as they are told.
fn put_places(
    alloc: Global,
    text: &mut Vec<u8>,
    request: Request<'_>,
    refusals: &[SyntaxRefusal],
) -> Result<(), AllocError>
    ensures { IfOk result (λ _. text.new.items
        ≡ text.old.items ++ all_told request.entry refusals.now) }
{
    for refusal in refusals {
        put_place(alloc, text, request, refusal)?;
    }
    Ok(())
}

/// All refusals of the text that a request names, which is no program, as they are told, and how many there
/// are.
fn places_text<F: Files>(
    alloc: Global,
    files: &F,
    request: Request<'_>,
) -> Result<Vec<u8>, CallError>
    ensures { IfOk result (λ text. (found : List AnyRefusal)
        × AreRefusalsAt (F.gives files.now) (program_path request.entry) found
        × (text.items ≡ all_told request.entry found ++ count_text (length found))) }
{
    let refusals = refusals_of(alloc, files, request)?;
    let mut text = Vec::new(alloc);
    put_places(alloc, &mut text, request, &refusals)?;
    put_count(alloc, &mut text, refusals.len())?;
    Ok(text)
}

/// A refusal as it is told.
fn one_text<F: Files>(
    alloc: Global,
    files: &F,
    request: Request<'_>,
    stop: &CallError,
) -> Result<Vec<u8>, AllocError>
    ensures { IfOk result (λ text. IsTold (F.gives files.now) request.entry stop.now text.items) }
{
    let mut text = Vec::new(alloc);
    put_told(alloc, &mut text, files, request, stop)?;
    Ok(text)
}

/// A stop, and that memory ran out for all faults.
#[derive(Drop)]
struct Cut {
    stop: CallError,
}

impl fmt::Display for Cut {
    ghost use Rattle.std.specs.Prelude.{Some, ◌++◌, codes};
    ghost use Rattle.lusdist_call.specs.Lines.{line_of};

    ghost output = { λ cut. Some (line_of cut.stop ++ codes "\nR2 OutOfMemory") };

    fn fmt<W: fmt::Write>(&self, f: &mut fmt::Formatter<W>) -> fmt::Result {
        write!(f, "{}\nR2 OutOfMemory", self.stop)
    }
}

/// Writes what is told of a stop to the error stream. Answers the status.
pub fn put_refusal<F: Files, V: Write>(
    alloc: Global,
    files: &F,
    request: Request<'_>,
    stop: CallError,
    err: &mut Sink<V>,
) -> u8
    ensures put { HasRefusal (F.gives files.now) request.entry stop V.contents err.old err.new }
    ensures status { result ≡ status_of stop }
{
    let status = stop.status();
    if asks_all(request, &stop) {
        match all_text(alloc, files, request) {
            Ok(text) => err.put(&text),
            Err(_) => err.put_line(Cut { stop }),
        }
        return status;
    }
    if asks_all_places(request, &stop) {
        match places_text(alloc, files, request) {
            Ok(text) => err.put(&text),
            Err(_) => err.put_line(Cut { stop }),
        }
        return status;
    }
    match one_text(alloc, files, request, &stop) {
        Ok(text) => err.put(&text),
        Err(_) => err.put_line(stop),
    }
    status
}
