//! What is reported: a place, what is wrong, and how to mend it.

ghost use Rattle.std.specs.Prelude.{◌≡◌, ◌++◌, codes, IfOk, string_bytes};
ghost use Rattle.luexplain.specs.Place.{line_behind};
ghost use Rattle.luexplain.specs.Texts.{IsExplainedSomewhere};
ghost use Rattle.luexplain.specs.Explanations.{IsExplanation};

use crate::place::{line_behind, where_in};
use crate::sentences::Wording;
use crate::words::{Part, put_part};
use std::alloc::{AllocError, Global};

/// What is wrong, in a sentence, and how to mend it, in another.
#[derive(Drop)]
pub(crate) struct Said {
    pub(crate) what: String,
    pub(crate) mend: String,
}

/// What a user reads of a refusal.
#[derive(Drop)]
pub struct Explanation {
    /// Where it stands: `PATH:LINE:COLUMN` on a line, and below it the line of the text with a caret; of the
    /// whole text a line with its path.
    pub place: String,
    /// What is wrong, in a sentence.
    pub what: String,
    /// How to mend it, in another.
    pub mend: String,
}

impl Explanation {
    /// `PATH:LINE:COLUMN`, or the path alone: the first line of the place.
    pub fn head(&self) -> &[u8]
        ensures { result.now ≡ line_behind (string_bytes self.now.place) }
    {
        line_behind(self.place.as_bytes())
    }
}

/// What is said, and the byte at which it stands; none where it is of the whole.
#[derive(Drop)]
pub(crate) struct Found {
    pub(crate) byte: Option<usize>,
    pub(crate) said: Said,
}

/// Adds a sentence with parts in its holes, from this one on. Answers which part is the next.
fn put_sentence(
    text: &mut String,
    alloc: Global,
    sentence: &str,
    parts: &[Part],
    first: usize,
) -> Result<usize, AllocError> {
    let mut next = first;
    for byte in sentence.as_bytes() {
        if *byte != b'@' {
            text.push(*byte as char)?;
        } else if let Some(part) = parts.get(next) {
            put_part(text, alloc, *part)?;
            next = next.saturating_add(1);
        }
    }
    Ok(next)
}

/// A wording with parts in its holes.
pub(crate) fn say(alloc: Global, wording: Wording, parts: &[Part]) -> Result<Said, AllocError> {
    let mut said = Said {
        what: String::new(alloc),
        mend: String::new(alloc),
    };
    let next = put_sentence(&mut said.what, alloc, wording.what, parts, 0)?;
    put_sentence(&mut said.mend, alloc, wording.mend, parts, next)?;
    Ok(said)
}

/// A wording with parts in its holes, of what stands at a byte.
pub(crate) fn say_at(
    alloc: Global,
    byte: usize,
    wording: Wording,
    parts: &[Part],
) -> Result<Found, AllocError> {
    let said = say(alloc, wording, parts)?;
    let byte = Some(byte);
    Ok(Found { byte, said })
}

/// The line of a file's path, which stands for the whole of it.
pub(crate) fn whole(alloc: Global, path: &str) -> Result<String, AllocError>
    ensures { IfOk result (λ line. string_bytes line ≡ path.now ++ codes "\n") }
{
    let mut line = String::from_str(alloc, path)?;
    line.push('\n')?;
    Ok(line)
}

/// A place, and what is said of it.
pub(crate) fn reported(place: String, said: Said) -> Explanation
    ensures { IsExplanation (string_bytes place) result }
{
    let Said { what, mend } = said;
    Explanation { place, what, mend }
}

/// What is said, and its place.
pub(crate) fn reported_of(
    alloc: Global,
    path: &str,
    text: &[u8],
    found: Found,
) -> Result<Explanation, AllocError>
    ensures { IfOk result (IsExplainedSomewhere path.now text.now) }
{
    let Found { byte, said } = found;
    match byte {
        Some(byte) => Ok(reported(where_in(alloc, path, text, byte)?, said)),
        None => Ok(reported(whole(alloc, path)?, said)),
    }
}
