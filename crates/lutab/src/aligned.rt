//! The text of a table whose fields stand at the right of their columns.

ghost use Rattle.std.specs.Prelude.{◌≡◌, ◌++◌, fold, IfOk, OnOk, length, replicate, slice_index, slice_index_or, string_bytes, flat_map};
ghost use Rattle.std.specs.List.{range_with_len};
ghost use Rattle.luflow.specs.declared.data.Status.TheVariants.{Absent};
ghost use Rattle.luflow.specs.Tables.{outputs_view};
ghost use Rattle.lutab.specs.Text.{status_text};
ghost use Rattle.lutab.specs.Outputs.{names_in, instants_of};
ghost use Rattle.lutab.specs.Aligned.{name_at, statuses_of, field_at, wider, width_of, widths_of, gap_before, placed, fields_text, names_line, instant_line, aligned_lines, aligned_text};

use crate::writing::{names_at, put_status};
use lubase::{Name, number_at};
use luflow::{Enum, Outputs, Status};
use lutree::Kind;
use std::alloc::{AllocError, Global};

/// The name of column i.
fn name_at(columns: &[(String, Vec<Status>)], i: usize) -> &str
    ensures { result.now ≡ name_at (outputs_view columns.now) i }
{
    match columns.get(i) {
        Some(column) => column.0.as_str(),
        None => "",
    }
}

/// What column i has at all instants.
fn statuses_of(columns: &[(String, Vec<Status>)], i: usize) -> &[Status]
    ensures { result.now ≡ statuses_of (outputs_view columns.now) i }
{
    match columns.get(i) {
        Some(column) => column.1.as_slice(),
        None => &[],
    }
}

fn status_at(statuses: &[Status], t: usize) -> Status
    ensures { result ≡ slice_index_or statuses.now t Absent }
{
    match statuses.get(t) {
        Some(status) => *status,
        None => Status::Absent,
    }
}

/// Puts what a status is spelled as in place of a text.
fn spell(word: &mut String, names: &[Name], status: Status) -> Result<(), AllocError>
    ensures { OnOk result (string_bytes word.new ≡ status_text names.now status) }
{
    word.clear();
    put_status(word, names, status)
}

/// The width of a column that has been so wide, with a status more.
fn wider(
    word: &mut String,
    names: &[Name],
    most: usize,
    status: Status,
) -> Result<usize, AllocError>
    ensures { IfOk result (λ width. width ≡ wider names.now most status) }
{
    spell(word, names, status)?;
    Ok(most.max(word.len()))
}

/// The width of a column.
fn width(
    word: &mut String,
    names: &[Name],
    name: &str,
    statuses: &[Status],
) -> Result<usize, AllocError>
    ensures { IfOk result (λ width. width ≡ fold (wider names.now) (length name.now)
        statuses.now) }
{
    let mut most = name.len();
    for status in statuses {
        most = wider(word, names, most, *status)?;
    }
    Ok(most)
}

/// The widths of columns of these types.
fn widths_of(
    alloc: Global,
    types: &[Enum],
    kinds: &[Kind],
    columns: &[(String, Vec<Status>)],
    word: &mut String,
) -> Result<Vec<usize>, AllocError>
    ensures { IfOk result (λ widths. widths.items ≡ widths_of types.now kinds.now
        (outputs_view columns.now)) }
{
    let mut widths = Vec::with_capacity(alloc, columns.len())?;
    for i in 0..columns.len() {
        let names = names_at(types, kinds, i);
        let name = name_at(columns, i);
        widths.push(width(word, names, name, statuses_of(columns, i))?)?;
    }
    Ok(widths)
}

/// Adds the blanks between a column and the one before it.
fn put_gap(out: &mut String, i: usize) -> Result<(), AllocError>
    ensures { OnOk result (string_bytes out.new ≡ string_bytes out.old ++ gap_before i) }
{
    if i > 0 {
        out.push_str("  ")?;
    }
    Ok(())
}

/// Adds so many blanks.
fn put_blanks(out: &mut String, count: usize) -> Result<(), AllocError>
    ensures { OnOk result (string_bytes out.new ≡ string_bytes out.old ++ replicate count 32) }
{
    for _ in 0..count {
        out.push_str(" ")?;
    }
    Ok(())
}

/// Adds the field of column i.
fn put_placed(out: &mut String, widths: &[usize], i: usize, field: &str) -> Result<(), AllocError>
    ensures { OnOk result (string_bytes out.new ≡ string_bytes out.old
        ++ placed widths.now i field.now) }
{
    put_gap(out, i)?;
    put_blanks(out, number_at(widths, i).saturating_sub(field.len()))?;
    out.push_str(field)
}

fn put_name(
    out: &mut String,
    columns: &[(String, Vec<Status>)],
    widths: &[usize],
    i: usize,
) -> Result<(), AllocError>
    ensures { OnOk result (string_bytes out.new ≡ string_bytes out.old
        ++ placed widths.now i (name_at (outputs_view columns.now) i)) }
{
    put_placed(out, widths, i, name_at(columns, i))
}

/// Adds the names.
fn put_all_names(
    out: &mut String,
    columns: &[(String, Vec<Status>)],
    widths: &[usize],
) -> Result<(), AllocError>
    ensures { OnOk result (string_bytes out.new ≡ string_bytes out.old
        ++ fields_text widths.now (name_at (outputs_view columns.now)) (length columns.now)) }
{
    for i in 0..columns.len() {
        put_name(out, columns, widths, i)?;
    }
    Ok(())
}

/// Adds the line of the names.
fn put_names(
    out: &mut String,
    columns: &[(String, Vec<Status>)],
    widths: &[usize],
) -> Result<(), AllocError>
    ensures { OnOk result (string_bytes out.new ≡ string_bytes out.old
        ++ names_line widths.now (outputs_view columns.now)) }
{
    put_all_names(out, columns, widths)?;
    out.push_str("\n")
}

/// Adds the field of what column i has at an instant, spelled by these names.
fn put_field(
    out: &mut String,
    word: &mut String,
    names: &[Name],
    widths: &[usize],
    i: usize,
    status: Status,
) -> Result<(), AllocError>
    ensures { OnOk result (string_bytes out.new ≡ string_bytes out.old
        ++ placed widths.now i (status_text names.now status)) }
{
    spell(word, names, status)?;
    put_placed(out, widths, i, word.as_str())
}

/// Adds the fields of an instant.
fn put_fields(
    out: &mut String,
    word: &mut String,
    types: &[Enum],
    kinds: &[Kind],
    columns: &[(String, Vec<Status>)],
    widths: &[usize],
    t: usize,
) -> Result<(), AllocError>
    ensures { OnOk result (string_bytes out.new ≡ string_bytes out.old
        ++ fields_text widths.now (field_at types.now kinds.now (outputs_view columns.now) t)
        (length columns.now)) }
{
    for i in 0..columns.len() {
        let names = names_at(types, kinds, i);
        let status = status_at(statuses_of(columns, i), t);
        put_field(out, word, names, widths, i, status)?;
    }
    Ok(())
}

/// Adds the line of an instant.
fn put_instant(
    out: &mut String,
    word: &mut String,
    types: &[Enum],
    kinds: &[Kind],
    columns: &[(String, Vec<Status>)],
    widths: &[usize],
    t: usize,
) -> Result<(), AllocError>
    ensures { OnOk result (string_bytes out.new ≡ string_bytes out.old
        ++ instant_line types.now kinds.now (outputs_view columns.now) widths.now t) }
{
    put_fields(out, word, types, kinds, columns, widths, t)?;
    out.push_str("\n")
}

/// Adds the lines of so many instants.
fn put_instants(
    out: &mut String,
    word: &mut String,
    types: &[Enum],
    kinds: &[Kind],
    columns: &[(String, Vec<Status>)],
    widths: &[usize],
    instants: usize,
) -> Result<(), AllocError>
    ensures { OnOk result (string_bytes out.new ≡ string_bytes out.old
        ++ flat_map (instant_line types.now kinds.now (outputs_view columns.now) widths.now)
        (range_with_len 0 instants)) }
{
    for t in 0..instants {
        put_instant(out, word, types, kinds, columns, widths, t)?;
    }
    Ok(())
}

/// How many instants columns have: as many as the first.
fn instants_of(columns: &[(String, Vec<Status>)]) -> usize
    ensures { result ≡ instants_of (outputs_view columns.now) }
{
    match columns {
        [] => 0,
        [first, ..] => first.1.len(),
    }
}

/// Adds a line of the names, and a line for each instant.
fn put_lines(
    out: &mut String,
    word: &mut String,
    types: &[Enum],
    kinds: &[Kind],
    columns: &[(String, Vec<Status>)],
    widths: &[usize],
) -> Result<(), AllocError>
    ensures { OnOk result (string_bytes out.new ≡ string_bytes out.old
        ++ aligned_lines types.now kinds.now (outputs_view columns.now) widths.now) }
{
    put_names(out, columns, widths)?;
    put_instants(
        out,
        word,
        types,
        kinds,
        columns,
        widths,
        instants_of(columns),
    )
}

/// Writes the text of a table of columns of these types, in a program with these enumerations: a line of the
/// names, and a line for each instant. Each field stands at the right of its column, which is as wide as its
/// longest field; two blanks are between two columns. A name is spelled as the type of its column has it. The
/// time grows with the text.
///
/// # Errors
///
/// Out of memory.
pub fn write_aligned(
    alloc: Global,
    types: &[Enum],
    kinds: &[Kind],
    columns: &Outputs,
) -> Result<String, AllocError>
    ensures exact { IfOk result (λ s. string_bytes s
        ≡ aligned_text types.now kinds.now columns.now) }
{
    let columns = columns.columns();
    let mut word = String::new(alloc);
    let widths = widths_of(alloc, types, kinds, columns, &mut word)?;
    let mut out = String::new(alloc);
    put_lines(
        &mut out,
        &mut word,
        types,
        kinds,
        columns,
        widths.as_slice(),
    )?;
    Ok(out)
}
