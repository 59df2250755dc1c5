//! The text of a table of inputs.

ghost use Rattle.std.specs.Prelude.{◌≡◌, ◌≢◌, ◌≤◌, ◌++◌, List, ℕ, length, false, Ok, Err, IfOk, IfErr, IfSome, IfNone, count_by, string_bytes};
ghost use Rattle.lubase.specs.Limits.{longest_table, most_instants};
ghost use Rattle.luflow.specs.Program.{InputsView};
ghost use Rattle.luflow.specs.Tables.{IsTable, FitsProgram, columns_view};
ghost use Rattle.luflow.specs.Variables.{inputs_of};
ghost use Rattle.lutab.specs.declared.error.TabError.{TabError as Refusal};
ghost use Rattle.lutab.specs.declared.error.TabError.TheVariants.{OutOfMemory};
ghost use Rattle.lutab.specs.Table.{header_text, kinds_of, is_feed, is_too_long, IsTextOf, IsRefused, Answers};
ghost use Rattle.luflow.specs.declared.variable.Enum.{Enum as AnyEnum};
ghost use Rattle.lutab.specs.Filling.{AreEmptyOf, ReadsColumns, ReadsText};

use crate::error::TabError;
use crate::put_comma;
use crate::rows::read_rows;
use lubase::limits::{LONGEST_TABLE, MOST_INSTANTS};
use luflow::{Enum, Flat, Inputs, Values, Variable};
use lutree::Kind;
use std::alloc::{AllocError, Global};

fn feeds_in(bytes: &[u8]) -> usize
    ensures { result ≡ count_by is_feed bytes.now }
{
    bytes.iter().filter(|b| **b == b'\n').count()
}

fn is_too_long(bytes: &[u8]) -> bool
    ensures { result ≡ is_too_long bytes.now }
{
    bytes.len() > LONGEST_TABLE || feeds_in(bytes) > MOST_INSTANTS as usize + 1
}

fn header_of(alloc: Global, inputs: &[Variable]) -> Result<String, AllocError>
    ensures { IfOk result (λ s. string_bytes s ≡ header_text inputs.now) }
{
    let mut header = String::new(alloc);
    for i in 0..inputs.len() {
        put_comma(&mut header, i)?;
        header.push_str(inputs[i].name.as_str())?;
    }
    header.push('\n')?;
    Ok(header)
}

fn kinds(alloc: Global, inputs: &[Variable]) -> Result<Vec<Kind>, AllocError>
    ensures { IfOk result (λ v. v.items ≡ kinds_of inputs.now) }
{
    inputs.iter().map(|x| x.kind).collect(alloc)
}

/// How many instants the lines may hold: a field has a byte at least, and one that ends it.
fn room(bytes: &[u8], fields: usize) -> usize
    ensures { result ≤ most_instants }
{
    if fields == 0 {
        0
    } else {
        (bytes.len() / 2 / fields).min(MOST_INSTANTS as usize)
    }
}

/// A column for each input, with room for so many values.
fn empty_columns(
    alloc: Global,
    inputs: &[Variable],
    room: usize,
) -> Result<Vec<(String, Values)>, AllocError>
    ensures { (types : List AnyEnum) → IfOk result
        (λ v. AreEmptyOf types inputs.now (columns_view v.items)) }
{
    let mut columns = Vec::new(alloc);
    for input in inputs {
        let name = String::from_str(alloc, input.name.as_str())?;
        let values = Values::new(alloc, input.kind, room)?;
        columns.push((name, values))?;
    }
    Ok(columns)
}

/// Reads the lines behind the header into columns of these inputs.
fn read_columns(
    alloc: Global,
    types: &[Enum],
    inputs: &[Variable],
    body: &[u8],
) -> Result<(usize, Vec<(String, Values)>), TabError>
    requires { length body.now ≤ longest_table }
    ensures { ReadsColumns types.now inputs.now body.now result }
{
    let kinds = kinds(alloc, inputs)?;
    let mut columns = empty_columns(alloc, inputs, room(body, inputs.len()))?;
    let instants = read_rows(types, &kinds, &mut columns, body)?;
    Ok((instants, columns))
}

/// What follows the header.
fn after_header<'a>(header: &[u8], bytes: &'a [u8]) -> Option<&'a [u8]>
    ensures found { IfSome result (λ body. bytes.now ≡ header.now ++ body.now) }
    ensures none { IfNone result ((body : List ℕ) → bytes.now ≡ header.now ++ body → ⊥) }
{
    bytes.strip_prefix(header)
}

/// The table of these columns.
fn table_of(instants: usize, columns: Vec<(String, Values)>) -> Inputs
    requires { IsTable (record { instants = instants; columns = columns_view columns.items }) }
    ensures { result ≡ record { instants = instants; columns = columns_view columns.items } }
{
    match Inputs::new(instants as u32, columns) {
        Some(table) => table,
        None => unreachable!(),
    }
}

/// Reads the text of a table of these inputs, in a program with these types.
fn read_text(
    alloc: Global,
    types: &[Enum],
    inputs: &[Variable],
    text: &str,
) -> Result<Inputs, TabError>
    ensures { ReadsText types.now inputs.now text.now result }
{
    let bytes = text.as_bytes();
    if is_too_long(bytes) {
        return Err(TabError::TooLong);
    }
    let header = header_of(alloc, inputs)?;
    let Some(body) = after_header(header.as_bytes(), bytes) else {
        return Err(TabError::BadHeader);
    };
    let (instants, columns) = read_columns(alloc, types, inputs, body)?;
    Ok(table_of(instants, columns))
}

/// Reads the text of a table of a program's inputs. The columns are reserved once, for the instants that so
/// many bytes can hold, and no line takes memory of its own; the time grows with the bytes, and at a name
/// with the names of its type.
pub fn read_inputs(alloc: Global, flat: &Flat, text: &str) -> Result<Inputs, TabError>
    // What is read is the table that the text spells.
    ensures spelled { IfOk result (λ table. IsTextOf flat.now.types (inputs_of flat.now.variables)
        table text.now) }
    // A text that is read isn't too long.
    ensures short { IfOk result (λ _. is_too_long text.now ≡ false) }
    // Each text that spells a table and isn't too long is read, and spells no other.
    ensures only { (table : InputsView) → IsTextOf flat.now.types (inputs_of flat.now.variables) table
        text.now → is_too_long text.now ≡ false → Answers result (Ok table) }
    // What is reported is true of the text, and nothing before it in order is.
    ensures refused { IfErr result (λ e. e ≢ OutOfMemory → IsRefused flat.now.types
        (inputs_of flat.now.variables) text.now e) }
    // What is true of the text, and nothing before it in order, is reported.
    ensures refuses { (e : Refusal) → IsRefused flat.now.types (inputs_of flat.now.variables)
        text.now e → Answers result (Err e) }
    ensures fits { IfOk result (λ table. FitsProgram flat.now table) }
{
    read_text(alloc, flat.types(), flat.inputs(), text)
}
