//! The placement that a user begins with.

ghost use Rattle.std.specs.Prelude.{◌≡◌, ◌++◌, IfOk, OnOk, flat_map, string_bytes};
ghost use Rattle.lutab.specs.FirstPlacement.{placed_line, first_placement};

use luflow::{Flat, Variable};
use std::alloc::{AllocError, Global};

/// Adds the line that puts a variable at the site.
fn put_line(text: &mut String, x: &Variable) -> Result<(), AllocError>
    ensures { OnOk result (string_bytes text.new ≡ string_bytes text.old ++ placed_line x.now) }
{
    text.push_str(x.name.as_str())?;
    text.push_str(" = \"A\"\n")
}

/// Adds the lines of variables.
fn put_lines(text: &mut String, variables: &[Variable]) -> Result<(), AllocError>
    ensures { OnOk result (string_bytes text.new ≡ string_bytes text.old
        ++ flat_map placed_line variables.now) }
{
    for x in variables {
        put_line(text, x)?;
    }
    Ok(())
}

/// Writes the placement that a user begins with: one site, at which each main variable stands, a line each,
/// in order of declaration.
///
/// # Errors
///
/// An error means that memory ran out.
pub fn write_placement(alloc: Global, flat: &Flat) -> Result<String, AllocError>
    ensures { IfOk result (λ text. string_bytes text ≡ first_placement flat.now) }
{
    let mut text = String::from_str(alloc, "sites = [\"A\"]\ncapacity = 1\n\n[place]\n")?;
    put_lines(&mut text, flat.variables())?;
    Ok(text)
}
