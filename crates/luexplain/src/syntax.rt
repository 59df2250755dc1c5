//! Texts that are no programs: `E01` to `E05`.

ghost use Rattle.std.specs.Prelude.{◌≡◌, IfOk, string_bytes};
ghost use Rattle.std.specs.List.{prefix_len};
ghost use Rattle.luexplain.specs.Explanations.{IsExplanation};
ghost use Rattle.luexplain.specs.Syntax as spec;

use crate::around::{Around, habit_around, token_of, what_stands};
use crate::bytes::from_byte;
use crate::expected::expected;
use crate::place::{line_of, where_in};
use crate::said::{Explanation, Said, reported, say, whole};
use crate::sentences;
use crate::sentences::Wording;
use crate::unread::said_of_order;
use crate::words::Part;
use lubase::limits::LONGEST_PROGRAM;
use lusyn::SynError;
use lusyn_grammar::{LexError, Lexeme, lex};
use std::alloc::{AllocError, Global};
use std::str;

fn is_ascii(byte: u8) -> bool
    ensures { result ≡ spec.is_ascii byte }
{
    byte < 128
}

/// Where the first byte above 127 stands.
pub(crate) fn first_wide(text: &[u8]) -> usize
    ensures { result ≡ prefix_len spec.is_ascii text.now }
{
    text.iter().take_while(|byte| is_ascii(**byte)).count()
}

/// Whether a byte begins a name, a number or a sign.
fn is_sign(byte: u8) -> bool {
    match byte {
        b'(' | b')' | b'{' | b'}' | b',' | b';' | b':' => true,
        b'=' | b'<' | b'>' | b'+' | b'-' | b'*' => true,
        _ => byte.is_ascii_alphanumeric() || byte == b'_',
    }
}

/// The tokens before a byte.
pub(crate) fn tokens_before(
    alloc: Global,
    text: &[u8],
    byte: usize,
) -> Result<Vec<Lexeme<'_>>, AllocError> {
    let past = text.get(..byte).unwrap_or(text);
    let Ok(past) = str::from_utf8(past) else {
        return Ok(Vec::new(alloc));
    };
    match lex(alloc, past) {
        Ok(tokens) => Ok(tokens),
        Err(LexError::OutOfMemory) => Err(AllocError),
        Err(_) => Ok(Vec::new(alloc)),
    }
}

/// What is said of a token with which no program goes on: a habit of another dialect, or else what could
/// stand here.
fn said_of_token(alloc: Global, text: &[u8], around: &Around) -> Result<Said, AllocError> {
    let usual = match around.token {
        [first, ..] if is_sign(*first) => Wording {
            what: sentences::MISPLACED,
            mend: expected(around.state),
        },
        _ => sentences::NO_TOKEN,
    };
    let wording = match habit_around(around) {
        Some(habit) => Wording {
            what: usual.what,
            mend: habit.1,
        },
        None => usual,
    };
    say(
        alloc,
        wording,
        &[
            Part::Bytes(around.token),
            Part::Bytes(around.before),
            Part::Number(line_of(text, around.before_byte)),
        ],
    )
}

/// What is said of a byte with which no program goes on.
fn said_of_byte(alloc: Global, text: &[u8], read: &[u8], byte: usize) -> Result<Said, AllocError> {
    if read.len() <= byte {
        return say(alloc, sentences::TEXT_ENDS, &[]);
    }
    let tokens = tokens_before(alloc, read, byte)?;
    let around = what_stands(read, byte, tokens.as_slice());
    said_of_token(alloc, text, &around)
}

/// What is said of a text with a byte above 127.
fn of_wide(text: &[u8]) -> Wording {
    match text {
        [0xEF, 0xBB, 0xBF, ..] => sentences::MARKED_PROGRAM,
        _ => sentences::WIDE_BYTE,
    }
}

/// What is said of a text that is no program and is read as another of its length.
fn said_of_syntax(
    alloc: Global,
    text: &[u8],
    read: &[u8],
    error: &SynError,
) -> Result<Said, AllocError> {
    match error {
        SynError::Syntax { byte } => said_of_byte(alloc, text, read, *byte),
        SynError::NumberTooLarge { byte } => {
            let token = token_of(from_byte(read, *byte));
            say(alloc, sentences::LARGE_NUMBER, &[Part::Bytes(token)])
        }
        SynError::NotAscii => say(alloc, of_wide(text), &[]),
        SynError::TooLong if text.len() > LONGEST_PROGRAM => say(
            alloc,
            sentences::LONG_PROGRAM,
            &[Part::Number(text.len()), Part::Number(LONGEST_PROGRAM)],
        ),
        SynError::TooLong => say(alloc, sentences::MANY_ITEMS, &[]),
        SynError::LongRun { .. } => say(alloc, sentences::LONG_RUN, &[]),
        SynError::OutOfMemory => say(alloc, sentences::OUT_OF_MEMORY, &[]),
    }
}

/// Where a text is no program: at the byte that is reported, or at the first above 127; where it is too long,
/// and where memory ran out, in the whole.
fn place_of_syntax(
    alloc: Global,
    path: &str,
    text: &[u8],
    error: &SynError,
) -> Result<String, AllocError>
    ensures { IfOk result (λ reported. string_bytes reported
        ≡ spec.place_of_syntax path.now text.now error.now) }
{
    match error {
        SynError::Syntax { byte }
        | SynError::NumberTooLarge { byte }
        | SynError::LongRun { byte } => where_in(alloc, path, text, *byte),
        SynError::NotAscii => where_in(alloc, path, text, first_wide(text)),
        SynError::TooLong | SynError::OutOfMemory => whole(alloc, path),
    }
}

/// The same of a text that is read as another of its length.
pub(crate) fn of_syntax_as(
    alloc: Global,
    path: &str,
    text: &[u8],
    read: &[u8],
    error: &SynError,
) -> Result<Explanation, AllocError>
    ensures { IfOk result (IsExplanation (spec.place_of_syntax path.now text.now error.now)) }
{
    let said = match said_of_order(alloc, path, "PROGRAM")? {
        Some(said) => said,
        None => said_of_syntax(alloc, text, read, error)?,
    };
    Ok(reported(place_of_syntax(alloc, path, text, error)?, said))
}

/// What a user reads about a text that is no program: its place, what is wrong, and how to mend it. `text` is
/// the text of the file of this path.
///
/// # Errors
///
/// An error means that memory ran out.
pub fn of_syntax(
    alloc: Global,
    path: &str,
    text: &[u8],
    error: &SynError,
) -> Result<Explanation, AllocError>
    ensures { IfOk result (IsExplanation (spec.place_of_syntax path.now text.now error.now)) }
{
    of_syntax_as(alloc, path, text, text, error)
}
