//! The header of a table: `T01`.

use crate::around::is_alike;
use crate::bytes::{from_byte, front_of, is_blank};
use crate::field::{is_int, is_truth};
use crate::near::{FAR, are_apart, shared_front};
use crate::said::{Found, say_at};
use crate::stray::stray_in;
use crate::table_sentences;
use crate::words::Part;
use lubase::Places;
use lutree::Declaration;
use std::alloc::{AllocError, Global};
use std::str;

/// The header that a table of these inputs has.
fn header_of(alloc: Global, inputs: &[Declaration]) -> Result<String, AllocError> {
    let mut header = String::new(alloc);
    for (i, input) in inputs.iter().enumerate() {
        if i > 0 {
            header.push(',')?;
        }
        header.push_str(input.name.as_str())?;
    }
    Ok(header)
}

/// The names of inputs, by place.
fn names_of<'a>(alloc: Global, inputs: &'a [Declaration]) -> Result<Places<'a>, AllocError> {
    let mut names = Vec::new(alloc);
    for input in inputs {
        names.push(input.name.as_str())?;
    }
    Places::new(alloc, names)
}

/// The field of a line that begins at a byte.
fn field_at(line: &[u8], byte: usize) -> &str {
    str::from_utf8(front_of(from_byte(line, byte), b',')).unwrap_or("")
}

/// So many fields of a line at most, by place.
fn fields_of(alloc: Global, line: &[u8], most: usize) -> Result<Places<'_>, AllocError> {
    let mut fields = Vec::new(alloc);
    let mut byte = 0_usize;
    for _ in 0..most {
        if line.len() < byte {
            break;
        }
        let field = field_at(line, byte);
        fields.push(field)?;
        byte = byte.saturating_add(field.len()).saturating_add(1);
    }
    Places::new(alloc, fields)
}

/// Where the first field of a line stands that is no input, or that stands before too.
fn wrong_name(line: &[u8], fields: &Places, inputs: &Places) -> Option<usize> {
    let mut byte = 0_usize;
    for i in 0..=line.len() {
        let name = field_at(line, byte);
        if !inputs.has(name) || fields.find(name) != Some(i) {
            return Some(byte);
        }
        byte = byte.saturating_add(name.len()).saturating_add(1);
        if line.len() < byte {
            return None;
        }
    }
    None
}

/// The first input that has no column.
fn missing_input<'a>(inputs: &'a [Declaration], fields: &Places) -> Option<&'a str> {
    for input in inputs {
        if !fields.has(input.name.as_str()) {
            return Some(input.name.as_str());
        }
    }
    None
}

/// The input that is spelled nearly as a name.
fn near_input<'a>(inputs: &'a [Declaration], name: &str) -> Option<&'a str> {
    for input in inputs {
        if is_alike(input.name.as_str(), name) {
            return Some(input.name.as_str());
        }
    }
    for letters in 1..FAR {
        for input in inputs {
            if are_apart(input.name.as_str(), name, letters) {
                return Some(input.name.as_str());
            }
        }
    }
    None
}

/// What is said of a name at a byte of a header that is no input.
fn said_of_unknown(
    alloc: Global,
    inputs: &[Declaration],
    header: &str,
    byte: usize,
    name: &str,
) -> Result<Found, AllocError> {
    let header = Part::Name(header);
    if name.is_empty() {
        return say_at(alloc, byte, table_sentences::NO_NAME, &[header]);
    }
    let named = Part::Name(name);
    if is_int(name.as_bytes()) || is_truth(name.as_bytes()) {
        return say_at(alloc, byte, table_sentences::NO_HEADER, &[named, header]);
    }
    let near = Part::Near(near_input(inputs, name));
    say_at(
        alloc,
        byte,
        table_sentences::NO_INPUT,
        &[named, near, header],
    )
}

/// What is said of a header that has each name once, and no others.
fn said_of_order(alloc: Global, header: &str, line: &[u8]) -> Result<Found, AllocError> {
    let byte = shared_front(line, header.as_bytes());
    if byte == line.len() {
        return say_at(alloc, byte, table_sentences::UNENDED_HEADER, &[]);
    }
    let parts = [Part::Name(header)];
    say_at(alloc, byte, table_sentences::OTHER_ORDER, &parts)
}

/// What is said of the names of a header.
fn said_of_names(
    alloc: Global,
    inputs: &[Declaration],
    header: &str,
    line: &[u8],
) -> Result<Found, AllocError> {
    let known = names_of(alloc, inputs)?;
    let fields = fields_of(alloc, line, inputs.len().saturating_add(1))?;
    if let Some(byte) = wrong_name(line, &fields, &known) {
        let name = field_at(line, byte);
        if !known.has(name) {
            return said_of_unknown(alloc, inputs, header, byte, name);
        }
        let parts = [Part::Name(name), Part::Name(header)];
        return say_at(alloc, byte, table_sentences::NAMED_TWICE, &parts);
    }
    match missing_input(inputs, &fields) {
        Some(name) => {
            let parts = [Part::Name(name), Part::Name(header)];
            say_at(alloc, line.len(), table_sentences::NO_COLUMN, &parts)
        }
        None => said_of_order(alloc, header, line),
    }
}

/// What is said of a first line that has no bytes but blanks.
fn said_of_blank(alloc: Global, header: &str, text: &[u8]) -> Result<Found, AllocError> {
    let wording = if text.is_empty() {
        table_sentences::EMPTY_TABLE
    } else {
        table_sentences::EMPTY_HEADER
    };
    say_at(alloc, 0, wording, &[Part::Name(header)])
}

/// What is said of a first line in UTF-8 that isn't the header.
fn said_of_line(
    alloc: Global,
    text: &[u8],
    inputs: &[Declaration],
    header: &str,
) -> Result<Found, AllocError> {
    let line = front_of(text, b'\n');
    if is_blank(line) && !inputs.is_empty() {
        return said_of_blank(alloc, header, text);
    }
    if let Some(stray) = stray_in(line, inputs.len(), table_sentences::STRAYS) {
        return say_at(alloc, stray.offset, stray.wording, &[]);
    }
    match (inputs.is_empty(), line.is_empty()) {
        (true, true) => say_at(alloc, 0, table_sentences::UNENDED_HEADER, &[]),
        (true, false) => say_at(alloc, 0, table_sentences::NO_INPUTS, &[]),
        (false, _) => said_of_names(alloc, inputs, header, line),
    }
}

/// `T01`
pub(crate) fn bad_header(
    alloc: Global,
    text: &[u8],
    inputs: &[Declaration],
) -> Result<Found, AllocError> {
    match text {
        [0xEF, 0xBB, 0xBF, ..] => return say_at(alloc, 0, table_sentences::MARKED, &[]),
        [0xFF, 0xFE, ..] | [0xFE, 0xFF, ..] => {
            return say_at(alloc, 0, table_sentences::UTF16, &[]);
        }
        _ => {}
    }
    if let Err(e) = str::from_utf8(text) {
        return say_at(alloc, e.valid_up_to(), table_sentences::NOT_UTF8, &[]);
    }
    let header = header_of(alloc, inputs)?;
    said_of_line(alloc, text, inputs, header.as_str())
}
