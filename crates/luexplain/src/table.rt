//! Tables of inputs: `T01` to `T04`.

ghost use Rattle.std.specs.Prelude.{IfOk};
ghost use Rattle.luexplain.specs.Texts.{IsExplainedSomewhere};

use crate::bytes::{count_of, from_byte, front_of, is_blank};
use crate::field::bad_value;
use crate::find::node_named;
use crate::header::bad_header;
use crate::said::{Explanation, Found, Said, reported_of, say, say_at};
use crate::stray::{said_of_empty, stray_in};
use crate::unread::said_of_order;
use crate::words::Part;
use crate::{sentences, table_sentences};
use lubase::limits::LONGEST_TABLE;
use lutab::TabError;
use lutree::{Declaration, Program};
use std::alloc::{AllocError, Global};

/// Where the byte stands behind so many separators; the length where there are fewer.
fn behind(bytes: &[u8], separator: u8, count: usize) -> usize {
    let mut left = count;
    for (i, byte) in bytes.iter().enumerate() {
        if left == 0 {
            return i;
        }
        if *byte == separator {
            left -= 1;
        }
    }
    bytes.len()
}

/// Where a line begins, counted from 1.
fn start_of(text: &[u8], line: usize) -> usize {
    behind(text, b'\n', line.saturating_sub(1))
}

/// What is said of a line at a byte that has another number of fields than there are inputs.
fn said_of_count(
    alloc: Global,
    inputs: &[Declaration],
    start: usize,
    row: &[u8],
) -> Result<Found, AllocError> {
    if let Some(stray) = stray_in(row, inputs.len(), table_sentences::JOINED) {
        let byte = start.saturating_add(stray.offset);
        return say_at(alloc, byte, stray.wording, &[]);
    }
    let byte = start.saturating_add(behind(row, b',', inputs.len()));
    let fields = count_of(row, b',').saturating_add(1);
    say_at(
        alloc,
        byte,
        table_sentences::FIELD_COUNT,
        &[
            Part::Count(fields, table_sentences::FIELD),
            Part::Count(inputs.len(), table_sentences::COLUMN),
            Part::Variables(inputs),
        ],
    )
}

/// What is said of a line at a byte that isn't empty, where there are no inputs.
fn said_of_full(alloc: Global, start: usize, row: &[u8]) -> Result<Found, AllocError> {
    match stray_in(row, 0, table_sentences::STRAYS) {
        Some(stray) => {
            let byte = start.saturating_add(stray.offset);
            say_at(alloc, byte, stray.wording, &[])
        }
        None => say_at(alloc, start, table_sentences::NO_INPUTS, &[]),
    }
}

/// A line without the carriage return at its end.
fn without_return(row: &[u8]) -> &[u8] {
    match row {
        [front @ .., b'\r'] => front,
        _ => row,
    }
}

/// `T02`, of the line that begins at a byte.
fn bad_row(
    alloc: Global,
    text: &[u8],
    inputs: &[Declaration],
    start: usize,
) -> Result<Found, AllocError> {
    let rest = from_byte(text, start);
    let row = front_of(rest, b'\n');
    if is_blank(row) && !inputs.is_empty() {
        return said_of_empty(alloc, start, from_byte(rest, row.len()));
    }
    if row.len() == rest.len() {
        return say_at(alloc, text.len(), table_sentences::UNENDED_LINE, &[]);
    }
    if inputs.is_empty() {
        return said_of_full(alloc, start, row);
    }
    said_of_count(alloc, inputs, start, without_return(row))
}

/// `T04`
fn too_long(alloc: Global, text: &[u8]) -> Result<Said, AllocError> {
    say(
        alloc,
        table_sentences::LONG_TABLE,
        &[
            Part::Number(text.len()),
            Part::Count(count_of(text, b'\n'), table_sentences::LINE),
            Part::Number(LONGEST_TABLE),
        ],
    )
}

/// What is said of a table that is refused.
fn found_in(
    alloc: Global,
    text: &[u8],
    program: &Program,
    inputs: &[Declaration],
    error: &TabError,
) -> Result<Found, AllocError> {
    let said = match error {
        TabError::BadHeader => return bad_header(alloc, text, inputs),
        TabError::BadRow { line } => {
            return bad_row(alloc, text, inputs, start_of(text, *line));
        }
        TabError::BadValue { line } => {
            return bad_value(alloc, text, program, inputs, start_of(text, *line));
        }
        TabError::TooLong => too_long(alloc, text)?,
        TabError::OutOfMemory => say(alloc, sentences::OUT_OF_MEMORY, &[])?,
    };
    Ok(Found { byte: None, said })
}

/// What a user reads about a table that is refused: its place, what is wrong, and how to mend it. `text` is
/// the text of the file of this path, `program` is the program whose inputs it has, and `main` the name of
/// the main node.
///
/// # Errors
///
/// An error means that memory ran out.
pub fn of_table(
    alloc: Global,
    path: &str,
    text: &[u8],
    program: &Program,
    main: &str,
    error: &TabError,
) -> Result<Explanation, AllocError>
    ensures { IfOk result (IsExplainedSomewhere path.now text.now) }
{
    let inputs = match node_named(program, main) {
        Some(node) => node.inputs.as_slice(),
        None => &[],
    };
    let found = match said_of_order(alloc, path, "TABLE")? {
        Some(said) => Found { byte: None, said },
        None => found_in(alloc, text, program, inputs, error)?,
    };
    reported_of(alloc, path, text, found)
}
