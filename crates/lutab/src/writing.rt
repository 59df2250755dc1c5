//! The text of a table of outputs, or of all main variables.

ghost use Rattle.std.specs.Prelude.{◌≡◌, ◌<◌, ◌≤◌, ◌-◌, ◌++◌, All, IfOk, OnOk, length, map, string_bytes, vec_len};
ghost use Rattle.luflow.specs.Tables.{outputs_view};
ghost use Rattle.luflow.specs.Types.{names_of};
ghost use Rattle.luflow.specs.Variables.{is_output};
ghost use Rattle.lutab.specs.Text.{comma_before, datum_text, status_text, line_text};
ghost use Rattle.lutab.specs.Outputs.{names_in, output_kinds, kinds_of, shown_of, statuses_at, names_text, lines_text, column_text, output_text};
ghost use Rattle.lutab.specs.Buffers.{cells_view, stretch_of};

use itoa::Buffer;
use lubase::Name;
use luflow::{Datum, Enum, Flat, Outputs, Status, Variable, name_of, names_of};
use lutree::Kind;
use std::alloc::{AllocError, Global};

/// The least bytes that a field and what ends it take.
const LEAST_FIELD: usize = 2;

/// How many instants of all columns are brought together before they are written.
const AT_ONCE: usize = 64;

/// What stands before field i of a line.
pub fn put_comma(out: &mut String, i: usize) -> Result<(), AllocError>
    ensures { OnOk result (string_bytes out.new ≡ string_bytes out.old ++ comma_before i) }
{
    if i > 0 {
        out.push(',')?;
    }
    Ok(())
}

/// Adds a value, as a table has it: a name is spelled by the names of its type, and nil is `nil`.
pub fn put_datum(out: &mut String, names: &[Name], datum: Datum) -> Result<(), AllocError>
    ensures { OnOk result (string_bytes out.new
        ≡ string_bytes out.old ++ datum_text names.now datum) }
{
    match datum {
        Datum::Int(z) => out.push_str(Buffer::new().format(z)),
        Datum::Bool(true) => out.push_str("true"),
        Datum::Bool(false) => out.push_str("false"),
        Datum::Name(number) => out.push_str(name_of(names, number)),
        Datum::Nil => out.push_str("nil"),
    }
}

pub(crate) fn put_status(out: &mut String, names: &[Name], status: Status) -> Result<(), AllocError>
    ensures { OnOk result (string_bytes out.new
        ≡ string_bytes out.old ++ status_text names.now status) }
{
    match status {
        Status::Absent => out.push_str("-"),
        Status::Present(datum) => put_datum(out, names, datum),
    }
}

/// The names of the type of this number among these.
pub(crate) fn names_at<'a>(types: &'a [Enum], kinds: &[Kind], i: usize) -> &'a [Name]
    ensures { result.now ≡ names_in types.now kinds.now i }
{
    match kinds.get(i) {
        Some(kind) => names_of(types, *kind),
        None => &[],
    }
}

/// The line of instant `k` of a buffer, of outputs of these types.
fn put_row(
    out: &mut String,
    types: &[Enum],
    kinds: &[Kind],
    cells: &[Vec<Status>],
    k: usize,
) -> Result<(), AllocError>
    requires { All (λ x. k < vec_len x) cells.now }
    ensures { OnOk result (string_bytes out.new ≡ string_bytes out.old
        ++ line_text (statuses_at types.now kinds.now (cells_view cells.now) k)) }
{
    for i in 0..cells.len() {
        put_comma(out, i)?;
        put_status(out, names_at(types, kinds, i), cells[i][k])?;
    }
    out.push('\n')
}

fn put_header(out: &mut String, outputs: &[(String, Vec<Status>)]) -> Result<(), AllocError>
    ensures { OnOk result (string_bytes out.new ≡ string_bytes out.old
        ++ names_text (outputs_view outputs.now)) }
{
    for i in 0..outputs.len() {
        put_comma(out, i)?;
        out.push_str(&outputs[i].0)?;
    }
    out.push('\n')
}

/// A buffer for so many outputs, with room for the instants that are written at once.
fn new_cells(alloc: Global, outputs: usize) -> Result<Vec<Vec<Status>>, AllocError>
    ensures { IfOk result (λ v. length v.items ≡ outputs) }
{
    let mut cells = Vec::with_capacity(alloc, outputs)?;
    for _ in 0..outputs {
        cells.push(Vec::with_capacity(alloc, AT_ONCE)?)?;
    }
    Ok(cells)
}

/// Puts these statuses in place of what a part of the buffer has.
fn refill(part: &mut Vec<Status>, statuses: &[Status]) -> Result<(), AllocError>
    ensures { OnOk result (part.new.items ≡ statuses.now) }
{
    part.clear();
    part.extend_from_slice(statuses)
}

/// Fills the buffer with what the outputs have at these instants.
fn fill(
    cells: &mut [Vec<Status>],
    outputs: &[(String, Vec<Status>)],
    from: usize,
    to: usize,
) -> Result<(), AllocError>
    requires as_many { length cells.old ≡ length outputs.now }
    requires order { from ≤ to }
    requires long { All (λ x. to ≤ vec_len x.1) outputs.now }
    ensures len { length cells.new ≡ length cells.old }
    ensures filled { OnOk result (cells_view cells.new
        ≡ map (stretch_of from (to - from)) (outputs_view outputs.now)) }
{
    for i in 0..outputs.len() {
        refill(&mut cells[i], &outputs[i].1[from..to])?;
    }
    Ok(())
}

/// Adds the lines of some instants to a text that has those before them.
fn put_rows(
    out: &mut String,
    types: &[Enum],
    kinds: &[Kind],
    outputs: &[(String, Vec<Status>)],
    cells: &mut [Vec<Status>],
    from: usize,
    to: usize,
) -> Result<(), AllocError>
    requires as_many { length cells.old ≡ length outputs.now }
    requires order { from ≤ to }
    requires long { All (λ x. to ≤ vec_len x.1) outputs.now }
    requires before { string_bytes out.old
        ≡ lines_text types.now kinds.now (outputs_view outputs.now) from }
    ensures len { length cells.new ≡ length cells.old }
    ensures more { OnOk result (string_bytes out.new
        ≡ lines_text types.now kinds.now (outputs_view outputs.now) to) }
{
    fill(cells, outputs, from, to)?;
    for k in 0..to - from {
        put_row(out, types, kinds, cells, k)?;
    }
    Ok(())
}

/// The text of outputs of these types that have something at each of these instants. Columns lie far apart in
/// memory, and only some can be read side by side at full speed; so what they have at the next instants is
/// brought together first.
fn write_lines(
    alloc: Global,
    types: &[Enum],
    kinds: &[Kind],
    outputs: &[(String, Vec<Status>)],
    instants: usize,
) -> Result<String, AllocError>
    requires { All (λ x. vec_len x.1 ≡ instants) outputs.now }
    ensures { IfOk result (λ s. string_bytes s
        ≡ lines_text types.now kinds.now (outputs_view outputs.now) instants) }
{
    let fields = instants.saturating_mul(outputs.len());
    let mut out = String::with_capacity(alloc, fields.saturating_mul(LEAST_FIELD))?;
    put_header(&mut out, outputs)?;
    let mut cells = new_cells(alloc, outputs.len())?;
    let mut from: usize = 0;
    while from < instants {
        let to = from.saturating_add(AT_ONCE).min(instants);
        put_rows(&mut out, types, kinds, outputs, &mut cells, from, to)?;
        from = to;
    }
    Ok(out)
}

/// The types of the outputs among these variables, in order.
fn output_kinds(alloc: Global, variables: &[Variable]) -> Result<Vec<Kind>, AllocError>
    ensures { IfOk result (λ v. v.items ≡ output_kinds variables.now) }
{
    variables
        .iter()
        .filter(|x| x.role.is_output())
        .map(|x| x.kind)
        .collect(alloc)
}

/// The types of the main variables that are shown, in order of declaration: of all of them, or of the outputs
/// alone. Memory is the only thing that it can lack.
pub fn shown_kinds(
    alloc: Global,
    variables: &[Variable],
    all: bool,
) -> Result<Vec<Kind>, AllocError>
    ensures { IfOk result (λ v. v.items ≡ kinds_of (shown_of all variables.now)) }
{
    if all {
        variables.iter().map(|x| x.kind).collect(alloc)
    } else {
        output_kinds(alloc, variables)
    }
}

/// Writes the text of a table of columns of these types, in a program with these enumerations: a line of the
/// names, and a line for each instant. A name is spelled as the type of its column has it. Memory is the only
/// thing that it can lack; the time grows with the text.
pub fn write_columns(
    alloc: Global,
    types: &[Enum],
    kinds: &[Kind],
    columns: &Outputs,
) -> Result<String, AllocError>
    ensures exact { IfOk result (λ s. string_bytes s
        ≡ column_text types.now kinds.now columns.now) }
{
    let columns = columns.columns();
    match columns {
        [] => unreachable!(),
        [first, ..] => write_lines(alloc, types, kinds, columns, first.1.len()),
    }
}

/// Writes the text of a table of a program's outputs: a line of the names, and a line for each instant. A
/// name is spelled as the type of the program's output in its column has it. Memory is the only thing that it
/// can lack; the time grows with the text.
pub fn write_outputs(alloc: Global, flat: &Flat, outputs: &Outputs) -> Result<String, AllocError>
    ensures exact { IfOk result (λ s. string_bytes s ≡ output_text flat.now outputs.now) }
{
    let kinds = output_kinds(alloc, flat.variables())?;
    write_columns(alloc, flat.types(), &kinds, outputs)
}
