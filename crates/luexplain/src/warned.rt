//! What is told of the warnings of a program.

ghost use Rattle.std.specs.Prelude.{◌≡◌, ◌<◌, ◌++◌, List, ℕ, length, IfOk, Some, slice_get, string_bytes};
ghost use Rattle.luexplain.specs.Warned.{title, AreWarned, IsWarned};

use crate::place::put_spot_of;
use crate::said::{Said, say};
use crate::sentences;
use crate::words::Part;
use lustat_warn::{Warning, WarningKind};
use lutree::{Declaration, Program};
use std::alloc::{AllocError, Global};

/// The code and the name of a warning.
fn title(kind: WarningKind) -> &'static str
    ensures { result.now ≡ title kind }
{
    match kind {
        WarningKind::UnusedNode => "W01 UnusedNode",
        WarningKind::UnusedInput => "W02 UnusedInput",
        WarningKind::UnusedLocal => "W03 UnusedLocal",
        WarningKind::DividingBranch => "W04 DividingBranch",
    }
}

/// The name of a declared variable; none where there is no such number.
fn name_at(declared: &[Declaration], number: usize) -> &str {
    match declared.get(number) {
        Some(declaration) => declaration.name.as_str(),
        None => "",
    }
}

/// What a warning says.
fn said_of_warning(alloc: Global, program: &Program, w: &Warning) -> Result<Said, AllocError> {
    let Some(node) = program.nodes.as_slice().get(w.node) else {
        return say(alloc, sentences::DIVIDING_BRANCH, &[]);
    };
    let name = node.name.as_str();
    match w.kind {
        WarningKind::UnusedNode => say(alloc, sentences::UNUSED_NODE, &[Part::Name(name)]),
        WarningKind::UnusedInput => {
            let input = name_at(node.inputs.as_slice(), w.number);
            say(
                alloc,
                sentences::UNUSED_INPUT,
                &[Part::Name(name), Part::Name(input)],
            )
        }
        WarningKind::UnusedLocal => {
            let local = name_at(node.locals.as_slice(), w.number);
            say(
                alloc,
                sentences::UNUSED_LOCAL,
                &[Part::Name(name), Part::Name(local)],
            )
        }
        WarningKind::DividingBranch => say(alloc, sentences::DIVIDING_BRANCH, &[]),
    }
}

/// Adds the line of a warning.
fn put_warning(
    lines: &mut String,
    alloc: Global,
    path: &str,
    text: &[u8],
    program: &Program,
    w: &Warning,
) -> Result<(), AllocError>
    ensures { IfOk result (λ _. (line : List ℕ) × IsWarned path.now text.now w.now line
        × (string_bytes lines.new ≡ string_bytes lines.old ++ line)) }
{
    let said = said_of_warning(alloc, program, w)?;
    put_spot_of(lines, path, text, w.byte)?;
    lines.push_str(": ")?;
    lines.push_str(title(w.kind))?;
    lines.push_str(": ")?;
    lines.push_str(said.what.as_str())?;
    lines.push('\n')
}

/// The warning of this number.
fn warning_at(warnings: &[Warning], j: usize) -> &Warning
    requires { j < length warnings.now }
    ensures { slice_get warnings.now j ≡ Some result.now }
{
    &warnings[j]
}

/// What a user reads of warnings, a line each: where it stands, and what it says. `text` is the text of the
/// program's file, of this path, and `program` is what it spells.
///
/// # Errors
///
/// An error means that memory ran out.
pub fn of_warnings(
    alloc: Global,
    path: &str,
    text: &[u8],
    program: &Program,
    warnings: &[Warning],
) -> Result<String, AllocError>
    ensures { IfOk result
        (λ lines. AreWarned path.now text.now warnings.now (string_bytes lines)) }
{
    let mut lines = String::new(alloc);
    for j in 0..warnings.len() {
        let w = warning_at(warnings, j);
        put_warning(&mut lines, alloc, path, text, program, w)?;
    }
    Ok(lines)
}
