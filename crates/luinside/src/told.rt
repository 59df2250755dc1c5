//! What is told of a fault.

ghost use Rattle.std.specs.Prelude.{◌≡◌, IfOk, IfSome, IsTrue, ◌↔◌, string_bytes};
ghost use Rattle.lutree.specs.Places.{places_view};
ghost use Rattle.lutree.specs.Tree.{program_view};
ghost use Rattle.luflow.specs.Sound.{IsFit};
ghost use Rattle.lucore.specs.Result.{IsFlatOf};
ghost use Rattle.luinside.specs.Told as spec;

use crate::place::placed_operator;
use crate::words::told_lines;
use crate::{FirstFault, FoundFault, first_fault};
use luflow::{FaultKind, Flat, Inputs};
use lustat::Checked;
use lutree::{Equation, Program};
use std::alloc::{AllocError, Global};

/// What is told of the operator of a fault.
#[derive(Drop)]
pub struct ToldFault {
    /// Where its sign stands in the text, in bytes from 0.
    pub byte: usize,
    /// A line of where it stands and what it reads, and, where there are inputs, a line of what they have
    /// then.
    pub lines: String,
}

/// What is told of a fault that is reported by a main variable, an instant and a kind.
#[derive(Drop)]
pub enum Telling {
    /// It is the first, and this is told of its operator.
    Whole(ToldFault),
    /// Another fault is the first, or there is none.
    Other,
    /// The text isn't that of the program.
    Unclear,
}

/// The name of the main variable in whose equation a flow stands.
fn owner_name<'a>(flat: &'a Flat, place: usize) -> &'a str
    ensures { result.now ≡ spec.owner_name flat.now place }
{
    match flat.owners().get(place) {
        Some(owner) => flat.variable_name(*owner),
        None => "",
    }
}

/// Whether a fault is reported so.
fn is_line_of(
    flat: &Flat,
    found: &FoundFault,
    variable: &str,
    instant: u32,
    kind: FaultKind,
) -> bool
    ensures { IsTrue result ↔ spec.IsLineOf flat.now found.now variable.now instant kind }
{
    owner_name(flat, found.place) == variable && found.instant == instant && found.kind == kind
}

/// The equation at a place of a program.
fn equation_at(program: &Program, node: usize, equation: usize) -> Option<&Equation>
    ensures { IfSome result (λ x. spec.IsEquationAt program.now node equation x.now) }
{
    match program.nodes.as_slice().get(node) {
        Some(node) => node.equations.as_slice().get(equation),
        None => None,
    }
}

/// What is told of the operator of the first fault; none where the text isn't that of the program.
fn told(
    alloc: Global,
    text: &str,
    program: &Checked,
    flat: &Flat,
    inputs: &Inputs,
    first: &FirstFault,
) -> Result<Option<ToldFault>, AllocError>
    ensures { IfOk result (λ o. IfSome o (λ told. spec.IsToldAs text.now (program_view program.now.program)
        (places_view program.now.program) program.now.main flat.now inputs.now first.now told.byte
        (string_bytes told.lines))) }
{
    let catalog = program.catalog();
    let site = &first.site;
    let Some(equation) = equation_at(catalog.program(), site.node, site.equation) else {
        return Ok(None);
    };
    let Some(placed) = placed_operator(alloc, text, equation, site.part.as_slice())? else {
        return Ok(None);
    };
    let lines = told_lines(
        alloc,
        catalog,
        program.main(),
        flat,
        inputs,
        site.path.as_slice(),
        equation,
        placed.operator,
        &first.found,
    )?;
    match lines {
        Some(lines) => Ok(Some(ToldFault {
            byte: placed.byte,
            lines,
        })),
        None => Ok(None),
    }
}

/// What is told of a fault that is reported by a main variable, an instant and a kind, of a program that a
/// text spells, with its flat program and a table: where it is the first fault, where its operator stands,
/// what it reads, and what the inputs have then.
///
/// The program runs up to the fault. All memory for that is taken before the first instant: a fixed amount
/// for each flow.
///
/// # Errors
///
/// An error means that memory ran out.
pub fn told_fault(
    alloc: Global,
    text: &str,
    program: &Checked,
    flat: &Flat,
    inputs: &Inputs,
    variable: &str,
    instant: u32,
    kind: FaultKind,
) -> Result<Telling, AllocError>
    requires flat { IsFlatOf (program_view program.now.program) program.now.main flat.now }
    requires fit { IsFit flat.now inputs.now }
    ensures { IfOk result (spec.Tells text.now (program_view program.now.program)
        (places_view program.now.program) program.now.main flat.now inputs.now variable.now instant
        kind) }
{
    let Some(first) = first_fault(alloc, program, flat, inputs)? else {
        return Ok(Telling::Other);
    };
    if !is_line_of(flat, &first.found, variable, instant, kind) {
        return Ok(Telling::Other);
    }
    match told(alloc, text, program, flat, inputs, &first)? {
        Some(told) => Ok(Telling::Whole(told)),
        None => Ok(Telling::Unclear),
    }
}
