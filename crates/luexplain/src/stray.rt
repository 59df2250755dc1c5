//! Bytes that stand in no table, or not where they do.

use crate::bytes::{is_blank, length_before};
use crate::said::{Found, say_at};
use crate::sentences::Wording;
use crate::table_sentences::{EMPTY_END, EMPTY_LINE, SEPARATORS, Sign};
use std::alloc::{AllocError, Global};

/// A byte of a line that no table has, and what is said of it.
#[derive(Clone, Copy)]
pub(crate) struct Stray {
    pub(crate) offset: usize,
    pub(crate) wording: Wording,
}

/// The first of some signs that a line has.
fn first_among(line: &[u8], signs: &[Sign]) -> Option<Stray> {
    for sign in signs {
        let offset = length_before(line, sign.0);
        if offset < line.len() {
            return Some(Stray {
                offset,
                wording: sign.1,
            });
        }
    }
    None
}

/// A byte of a line of so many columns that stands in place of a comma, or is one of these.
pub(crate) fn stray_in(line: &[u8], columns: usize, signs: &[Sign]) -> Option<Stray> {
    if 1 < columns && length_before(line, b',') == line.len() {
        first_among(line, SEPARATORS)
    } else {
        first_among(line, signs)
    }
}

/// What is said of an empty line, by what stands behind it.
pub(crate) fn said_of_empty(alloc: Global, byte: usize, rest: &[u8]) -> Result<Found, AllocError> {
    if is_blank(rest) {
        say_at(alloc, byte, EMPTY_END, &[])
    } else {
        say_at(alloc, byte, EMPTY_LINE, &[])
    }
}
