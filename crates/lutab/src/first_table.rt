//! The table of inputs that a user begins with.

ghost use Rattle.std.specs.Prelude.{◌≡◌, ◌++◌, IfOk, OnOk, string_bytes};
ghost use Rattle.std.specs.List.{repeat};
ghost use Rattle.lutab.specs.Table.{header_text};
ghost use Rattle.lutab.specs.FirstTable.{first_datum, first_field, first_line, first_table};

use crate::{put_comma, put_datum};
use luflow::{Datum, Enum, Flat, Variable, names_of};
use lutree::Kind;
use std::alloc::{AllocError, Global};

/// What an input of a type has.
fn first_datum(kind: Kind) -> Datum
    ensures { result ≡ first_datum kind }
{
    match kind {
        Kind::Int => Datum::Int(0),
        Kind::Bool => Datum::Bool(false),
        Kind::Enum(_, _) => Datum::Name(0),
    }
}

/// The header of these inputs.
fn header(alloc: Global, inputs: &[Variable]) -> Result<String, AllocError>
    ensures { IfOk result (λ text. string_bytes text ≡ header_text inputs.now) }
{
    let mut text = String::new(alloc);
    for i in 0..inputs.len() {
        put_comma(&mut text, i)?;
        text.push_str(inputs[i].name.as_str())?;
    }
    text.push('\n')?;
    Ok(text)
}

/// Adds the field of an input.
fn put_field(line: &mut String, types: &[Enum], input: &Variable) -> Result<(), AllocError>
    ensures { OnOk result (string_bytes line.new ≡ string_bytes line.old
        ++ first_field types.now input.now) }
{
    put_datum(line, names_of(types, input.kind), first_datum(input.kind))
}

/// The line of an instant.
fn line(alloc: Global, types: &[Enum], inputs: &[Variable]) -> Result<String, AllocError>
    ensures { IfOk result (λ line. string_bytes line ≡ first_line types.now inputs.now) }
{
    let mut line = String::new(alloc);
    for i in 0..inputs.len() {
        put_comma(&mut line, i)?;
        put_field(&mut line, types, &inputs[i])?;
    }
    line.push('\n')?;
    Ok(line)
}

/// Adds a line so many times.
fn put_lines(text: &mut String, line: &str, count: u32) -> Result<(), AllocError>
    ensures { OnOk result (string_bytes text.new ≡ string_bytes text.old ++ repeat count line.now) }
{
    for _ in 0..count {
        text.push_str(line)?;
    }
    Ok(())
}

/// Writes the table of inputs that a user begins with: the header, and a line for each of so many instants,
/// in which each input is 0, `false`, or the first name of its enumeration.
///
/// # Errors
///
/// An error means that memory ran out.
pub fn write_table(alloc: Global, flat: &Flat, instants: u32) -> Result<String, AllocError>
    ensures { IfOk result (λ text. string_bytes text ≡ first_table flat.now instants) }
{
    let mut text = header(alloc, flat.inputs())?;
    let line = line(alloc, flat.types(), flat.inputs())?;
    put_lines(&mut text, &line, instants)?;
    Ok(text)
}
