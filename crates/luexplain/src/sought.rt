//! Where a key or a name in quotes stands in the text of a placement. Comments are passed over, and what
//! stands in quotes is one piece.

use crate::bytes::{from_byte, length_before};

/// What is looked for.
#[derive(Clone, Copy)]
enum Sought {
    /// A key, before `=`, before `.`, or in the brackets of a table.
    Key,
    /// A text in quotes.
    Text,
}

/// How many bytes a text in quotes has, with its quotes.
fn quoted_length(text: &[u8], quote: u8) -> usize {
    let mut is_passed = true;
    for (i, byte) in text.iter().enumerate() {
        if is_passed {
            is_passed = false;
        } else if *byte == b'\\' && quote == b'"' {
            is_passed = true;
        } else if *byte == quote {
            return i.saturating_add(1);
        }
    }
    text.len()
}

fn is_word(byte: u8) -> bool {
    byte.is_ascii_alphanumeric() || byte == b'_' || byte == b'-'
}

/// How many bytes of a word stand at the front.
fn word_length(text: &[u8]) -> usize {
    for (i, byte) in text.iter().enumerate() {
        if !is_word(*byte) {
            return i;
        }
    }
    text.len()
}

/// How many bytes the piece at the front has: a comment, a text in quotes, a word, or one byte.
fn piece_length(text: &[u8]) -> usize {
    match text {
        [b'#', ..] => length_before(text, b'\n'),
        [b'"', ..] => quoted_length(text, b'"'),
        [b'\'', ..] => quoted_length(text, b'\''),
        [first, ..] if is_word(*first) => word_length(text),
        _ => 1,
    }
}

/// What stands in the quotes of a piece.
fn unquoted(piece: &[u8]) -> Option<&[u8]> {
    match piece {
        [first, inner @ ..] if *first == b'"' || *first == b'\'' => {
            inner.get(..inner.len().saturating_sub(1))
        }
        _ => None,
    }
}

/// The first byte that is no blank.
fn first_sign(text: &[u8]) -> u8 {
    for byte in text {
        if *byte != b' ' && *byte != b'\t' {
            return *byte;
        }
    }
    0
}

/// Whether a piece is what is looked for, by what stands behind it.
fn is_found(piece: &[u8], rest: &[u8], name: &[u8], sought: Sought) -> bool {
    match (unquoted(piece), sought) {
        (Some(inner), Sought::Text) => inner == name,
        (Some(inner), Sought::Key) => {
            inner == name && (first_sign(rest) == b'=' || first_sign(rest) == b'.')
        }
        (None, Sought::Key) => match first_sign(rest) {
            b'=' | b'.' | b']' => piece == name,
            _ => false,
        },
        (None, Sought::Text) => false,
    }
}

/// Where the first piece from a byte on stands that is looked for.
fn found_from(text: &[u8], byte: usize, name: &str, sought: Sought) -> Option<usize> {
    let mut at = byte;
    for _ in 0..text.len() {
        let rest = from_byte(text, at);
        if rest.is_empty() {
            return None;
        }
        let length = piece_length(rest);
        let piece = rest.get(..length).unwrap_or(rest);
        if is_found(piece, from_byte(rest, length), name.as_bytes(), sought) {
            return Some(at);
        }
        at = at.saturating_add(length);
    }
    None
}

/// Where the piece ends that stands at a byte.
fn end_of(text: &[u8], byte: usize) -> usize {
    byte.saturating_add(piece_length(from_byte(text, byte)))
}

/// Where a key of the placement stands.
pub(crate) fn key_in(text: &[u8], key: &str) -> Option<usize> {
    found_from(text, 0, key, Sought::Key)
}

/// Where a key of the table `place` stands.
pub(crate) fn entry_in(text: &[u8], key: &str) -> Option<usize> {
    let place = key_in(text, "place")?;
    found_from(text, end_of(text, place), key, Sought::Key)
}

/// Where a text in quotes stands behind a byte; that byte where it doesn't.
pub(crate) fn text_behind(text: &[u8], byte: usize, name: &str) -> usize {
    match found_from(text, end_of(text, byte), name, Sought::Text) {
        Some(found) => found,
        None => byte,
    }
}
