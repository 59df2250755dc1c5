//! The fields of a table that are no values of their types: `T03`.

use crate::around::is_alike;
use crate::bytes::{from_byte, front_of, is_blank};
use crate::find::type_at_place;
use crate::near::{FAR, are_apart};
use crate::said::{Found, say_at};
use crate::sentences::Wording;
use crate::stray::{said_of_empty, stray_in};
use crate::table_sentences;
use crate::words::Part;
use lutree::{Declaration, DeclaredName, Kind, Program};
use std::alloc::{AllocError, Global};
use std::str;

/// Whether a field has the form of an `int`: digits with no zero before them, and perhaps a `-`.
fn is_whole(field: &[u8]) -> bool {
    let digits = match field {
        [b'-', b'0'] => return false,
        [b'-', rest @ ..] => rest,
        _ => field,
    };
    match digits {
        [b'0'] => return true,
        [b'1'..=b'9', ..] => {}
        _ => return false,
    }
    for byte in digits {
        if !byte.is_ascii_digit() {
            return false;
        }
    }
    true
}

/// Whether a field is an `int`.
pub(crate) fn is_int(field: &[u8]) -> bool {
    if !is_whole(field) {
        return false;
    }
    match str::from_utf8(field) {
        Ok(text) => text.parse::<i64>().is_ok(),
        Err(_) => false,
    }
}

/// Whether a field is a `bool`.
pub(crate) fn is_truth(field: &[u8]) -> bool {
    match field {
        b"true" | b"false" => true,
        _ => false,
    }
}

/// Whether a field is a number with a point or an exponent.
fn is_fraction(field: &[u8]) -> bool {
    let mut has_digit = false;
    let mut has_mark = false;
    for byte in field {
        match *byte {
            b'0'..=b'9' => has_digit = true,
            b'.' | b'e' | b'E' => has_mark = true,
            b'-' | b'+' => {}
            _ => return false,
        }
    }
    has_digit && has_mark
}

/// The names of the enumeration at a place; none where there is none.
fn labels_at(program: &Program, place: u8, count: u8) -> &[DeclaredName] {
    match type_at_place(program, place, count) {
        Some(declared) => declared.names.as_slice(),
        None => &[],
    }
}

/// Whether a field is a value of a type.
fn is_value(program: &Program, kind: Kind, field: &[u8]) -> bool {
    match kind {
        Kind::Int => is_int(field),
        Kind::Bool => is_truth(field),
        Kind::Enum(place, count) => {
            for label in labels_at(program, place, count) {
                if label.name.as_str().as_bytes() == field {
                    return true;
                }
            }
            false
        }
    }
}

/// A field that is no value: where it stands in its line, and the input of its column.
#[derive(Clone, Copy)]
struct Wrong<'a> {
    offset: usize,
    field: &'a [u8],
    input: &'a Declaration,
}

/// The first field of a line that is no value of its type.
fn wrong_field<'a>(
    program: &Program,
    inputs: &'a [Declaration],
    row: &'a [u8],
) -> Option<Wrong<'a>> {
    let mut rest = row;
    for input in inputs {
        let field = front_of(rest, b',');
        if !is_value(program, input.kind, field) {
            return Some(Wrong {
                offset: row.len().saturating_sub(rest.len()),
                field,
                input,
            });
        }
        rest = from_byte(rest, field.len().saturating_add(1));
    }
    None
}

/// How a field that is no `int` is mended.
fn of_int(field: &[u8]) -> Wording {
    if is_whole(field) {
        table_sentences::LARGE_INT
    } else if is_fraction(field) {
        table_sentences::FRACTION
    } else {
        table_sentences::NO_INT
    }
}

/// How a field that is no `bool` is mended.
fn of_truth(field: &[u8]) -> Wording {
    match field {
        b"0" | b"1" => table_sentences::ONE_FOR_TRUE,
        _ if field.eq_ignore_ascii_case(b"true") || field.eq_ignore_ascii_case(b"false") => {
            table_sentences::CAPITALS
        }
        _ => table_sentences::NO_BOOL,
    }
}

/// The name of an enumeration that is spelled nearly as a field.
fn near_label<'a>(labels: &'a [DeclaredName], field: &[u8]) -> Option<&'a str> {
    let field = str::from_utf8(field).unwrap_or("");
    for label in labels {
        if is_alike(label.name.as_str(), field) {
            return Some(label.name.as_str());
        }
    }
    for letters in 1..FAR {
        for label in labels {
            if are_apart(label.name.as_str(), field, letters) {
                return Some(label.name.as_str());
            }
        }
    }
    None
}

/// How a field that is no value of its type is reported, at its byte.
fn said_of_value<'a>(
    alloc: Global,
    program: &'a Program,
    byte: usize,
    wrong: &Wrong<'a>,
) -> Result<Found, AllocError> {
    let kind = wrong.input.kind;
    let field = Part::Bytes(wrong.field);
    let name = Part::Name(wrong.input.name.as_str());
    let wanted = Part::Type(program, kind);
    match kind {
        Kind::Int => say_at(alloc, byte, of_int(wrong.field), &[field, name, wanted]),
        Kind::Bool => say_at(alloc, byte, of_truth(wrong.field), &[field, name, wanted]),
        Kind::Enum(place, count) => {
            let labels = labels_at(program, place, count);
            let near = Part::Near(near_label(labels, wrong.field));
            let parts = [field, name, wanted, near, Part::Labels(labels)];
            say_at(alloc, byte, table_sentences::NO_LABEL_OF_TYPE, &parts)
        }
    }
}

/// How a field that is no value is reported, by what it has.
fn said_of_field<'a>(
    alloc: Global,
    program: &'a Program,
    byte: usize,
    wrong: &Wrong<'a>,
) -> Result<Found, AllocError> {
    if wrong.field.is_empty() {
        let name = Part::Name(wrong.input.name.as_str());
        return say_at(alloc, byte, table_sentences::NO_VALUE, &[name]);
    }
    match stray_in(wrong.field, 1, table_sentences::STRAYS) {
        Some(stray) => {
            let byte = byte.saturating_add(stray.offset);
            say_at(alloc, byte, stray.wording, &[])
        }
        None => said_of_value(alloc, program, byte, wrong),
    }
}

/// `T03`, of the line that begins at a byte.
pub(crate) fn bad_value(
    alloc: Global,
    text: &[u8],
    program: &Program,
    inputs: &[Declaration],
    byte: usize,
) -> Result<Found, AllocError> {
    let rest = from_byte(text, byte);
    let row = front_of(rest, b'\n');
    if is_blank(row) {
        return said_of_empty(alloc, byte, from_byte(rest, row.len()));
    }
    match wrong_field(program, inputs, row) {
        Some(wrong) => {
            let byte = byte.saturating_add(wrong.offset);
            said_of_field(alloc, program, byte, &wrong)
        }
        None => say_at(alloc, byte, table_sentences::BAD_VALUE, &[]),
    }
}
