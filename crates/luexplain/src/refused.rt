//! What is told of a text that is no program, beyond its first refusal: it is overwritten where it is
//! refused, and judged anew.

ghost use Rattle.std.specs.Prelude.{◌≡◌, ◌≢◌, ◌++◌, ◌⊎◌, [], ◌∷◌, false, length, nat_eq, IfOk, MatchOption};
ghost use Rattle.std.specs.List.{list_any};
ghost use Rattle.lusyn.specs.declared.error.SynError.{SynError as AnyError};
ghost use Rattle.luexplain.specs.declared.refused.SyntaxRefusal.{SyntaxRefusal as AnyRefusal};
ghost use Rattle.luexplain.specs.Refusals.{at_one_byte, byte_of_syntax, AreAllRefusals, AreNone, AreRefusalsOf, IsRefusedAs, IsRefusedLike};

use crate::around::what_stands;
use crate::recovery::{Patch, of_number, overwrite, patch_at, whole_of};
use crate::said::Explanation;
use crate::syntax::{first_wide, of_syntax_as, tokens_before};
use crate::unread::is_other;
use lusyn::{SynError, read_program};
use std::alloc::{AllocError, Global};
use std::str;

/// How many refusals of one text are told.
const MOST_TOLD: usize = 50;

/// A refusal of a text that is no program.
#[derive(Drop)]
pub struct SyntaxRefusal {
    /// The byte at which it stands, counted from 0; 0 where it is of the whole.
    pub byte: usize,
    /// What is refused.
    pub error: SynError,
    /// Where it stands, what is wrong there, and how to mend it.
    pub reason: Explanation,
}

/// The byte at which a refusal stands.
fn byte_of(text: &[u8], error: &SynError) -> usize
    ensures { result ≡ byte_of_syntax text.now error.now }
{
    match error {
        SynError::Syntax { byte }
        | SynError::NumberTooLarge { byte }
        | SynError::LongRun { byte } => *byte,
        SynError::NotAscii => first_wide(text),
        SynError::TooLong | SynError::OutOfMemory => 0,
    }
}

/// The refusal of a text.
fn refusal_in(alloc: Global, text: &[u8]) -> Result<Option<SynError>, AllocError>
    ensures { IfOk result (λ found. MatchOption found ((e : AnyError) → ¬ IsRefusedAs text.now e)
        (IsRefusedAs text.now)) }
{
    let Ok(text) = str::from_utf8(text) else {
        return Ok(Some(SynError::NotAscii));
    };
    match read_program(alloc, text) {
        Ok(_) => Ok(None),
        Err(SynError::OutOfMemory) => Err(AllocError),
        Err(error) => Ok(Some(error)),
    }
}

/// What is overwritten of a text that is refused at a byte.
fn patch_of(alloc: Global, text: &[u8], byte: usize) -> Result<Option<Patch>, AllocError> {
    if text.len() <= byte {
        return Ok(None);
    }
    let tokens = tokens_before(alloc, text, byte)?;
    let around = what_stands(text, byte, tokens.as_slice());
    Ok(patch_at(text, byte, tokens.as_slice(), &around))
}

/// What is overwritten of a text that is refused so.
fn patch_for(alloc: Global, text: &[u8], error: &SynError) -> Result<Option<Patch>, AllocError> {
    match error {
        SynError::Syntax { byte } => patch_of(alloc, text, *byte),
        SynError::NumberTooLarge { byte } => Ok(Some(of_number(text, *byte))),
        SynError::NotAscii => Ok(Some(whole_of(text))),
        _ => Ok(None),
    }
}

/// Overwrites a text where it is refused, unless its file is none of a program. Answers whether it is to be
/// judged anew.
fn read_on(
    alloc: Global,
    path: &str,
    text: &mut Vec<u8>,
    error: &SynError,
) -> Result<bool, AllocError>
    ensures { length text.new.items ≡ length text.old.items }
{
    if is_other(path, "PROGRAM") {
        return Ok(false);
    }
    match patch_for(alloc, text.as_slice(), error)? {
        Some(patch) => {
            overwrite(text.as_mut_slice(), patch);
            Ok(true)
        }
        None => Ok(false),
    }
}

/// Whether a refusal at this byte is told.
fn is_told(found: &[SyntaxRefusal], byte: usize) -> bool
    ensures told { result ≡ list_any (λ r. nat_eq byte r.byte) found.now }
    ensures none { length found.now ≡ 0 → result ≡ false }
{
    found.iter().any(|refusal| byte == refusal.byte)
}

/// Adds this refusal of a text as it is read, unless one at this place is told, and overwrites it there.
/// Answers whether it is to be judged anew.
fn push_refusal(
    found: &mut Vec<SyntaxRefusal>,
    alloc: Global,
    path: &str,
    text: &[u8],
    read: &mut Vec<u8>,
    error: SynError,
) -> Result<bool, AllocError>
    requires long { length read.now.items ≡ length text.now }
    requires refused { IsRefusedAs read.now.items error }
    ensures long { length read.new.items ≡ length text.now }
    ensures next { IfOk result (λ goes_on.
        ((found.new.items ≡ found.old.items) × (goes_on ≡ false) × (length found.old.items ≢ 0))
        ⊎ ((r : AnyRefusal) × (found.new.items ≡ found.old.items ++ r ∷ [])
        × IsRefusedLike path.now text.now read.old.items r
        × (list_any (at_one_byte r) found.old.items ≡ false))) }
{
    let byte = byte_of(text, &error);
    if is_told(found.as_slice(), byte) {
        return Ok(false);
    }
    let reason = of_syntax_as(alloc, path, text, read.as_slice(), &error)?;
    let goes_on = read_on(alloc, path, read, &error)?;
    found.push(SyntaxRefusal {
        byte,
        error,
        reason,
    })?;
    Ok(goes_on)
}

/// The same of the refusal of a text as it is read, where it is refused.
fn push_next(
    found: &mut Vec<SyntaxRefusal>,
    alloc: Global,
    path: &str,
    text: &[u8],
    read: &mut Vec<u8>,
) -> Result<bool, AllocError>
    requires long { length read.now.items ≡ length text.now }
    ensures long { length read.new.items ≡ length text.now }
    ensures next { IfOk result (λ goes_on.
        ((found.new.items ≡ found.old.items) × (goes_on ≡ false)
        × (length found.old.items ≡ 0 → (e : AnyError) → ¬ IsRefusedAs read.old.items e))
        ⊎ ((r : AnyRefusal) × (found.new.items ≡ found.old.items ++ r ∷ [])
        × IsRefusedLike path.now text.now read.old.items r
        × (list_any (at_one_byte r) found.old.items ≡ false))) }
{
    match refusal_in(alloc, read.as_slice())? {
        Some(error) => push_refusal(found, alloc, path, text, read, error),
        None => Ok(false),
    }
}

/// The refusals of a text that is read on where it is refused, as they are found.
fn read_through(alloc: Global, path: &str, text: &[u8]) -> Result<Vec<SyntaxRefusal>, AllocError>
    ensures { IfOk result (λ found. AreNone text.now found.items
        ⊎ AreRefusalsOf path.now text.now found.items) }
{
    let mut read = Vec::from_slice(alloc, text)?;
    let mut found = Vec::new(alloc);
    for _turn in 0..MOST_TOLD {
        if !push_next(&mut found, alloc, path, text, &mut read)? {
            break;
        }
    }
    Ok(found)
}

/// All refusals that are told of a text, in the order of their bytes, no two at one: where it is refused, it
/// is overwritten, by blanks or by a sign that is as good, and judged anew, as long as that gives refusals at
/// other bytes, and at most 50 times. None where it is a program; the first alone of a file whose path ends
/// as that of a table or a placement does. `text` is the text of the file of this path.
///
/// # Errors
///
/// An error means that memory ran out.
pub fn all_refusals(
    alloc: Global,
    path: &str,
    text: &[u8],
) -> Result<Vec<SyntaxRefusal>, AllocError>
    ensures { IfOk result (λ found. AreAllRefusals path.now text.now found.items) }
{
    let mut found = read_through(alloc, path, text)?;
    found.sort_unstable_by_key(|refusal| refusal.byte);
    Ok(found)
}
