//! What flows read at the same instant.

ghost use Rattle.std.specs.Prelude.{◌≡◌, ◌∷◌, IfOk, map};
ghost use Rattle.luflow.specs.Program.{reads};

use lubase::Row;
use luflow::{Clock, Flow, Form};
use std::alloc::{AllocError, Global};

/// What a merge reads: its clock variable and its branches.
fn merge_reads(alloc: Global, variable: usize, branches: &[usize]) -> Result<Vec<usize>, AllocError>
    ensures { IfOk result (λ row. row.items ≡ variable ∷ branches.now) }
{
    let mut row = vec![in alloc; variable]?;
    row.extend_from_slice(branches)?;
    Ok(row)
}

/// What a flow reads at the same instant.
fn reads_in(alloc: Global, flow: &Flow) -> Result<Row<usize>, AllocError>
    ensures { IfOk result (λ row. row ≡ reads flow.now) }
{
    let mut row = match &flow.form {
        Form::Input(_) | Form::Constant(_) | Form::Pre(_) => Vec::new(alloc),
        Form::Copied(a) | Form::Unary(_, a) | Form::When(a) | Form::Current(a) => {
            vec![in alloc; *a]?
        }
        Form::Binary(_, a, b) | Form::Arrow(a, b) => vec![in alloc; *a, *b]?,
        Form::If(c, a, b) => vec![in alloc; *c, *a, *b]?,
        Form::Merge(c, branches) => merge_reads(alloc, *c, branches.as_slice())?,
    };
    match flow.clock {
        Clock::Base => {}
        Clock::On(c, _) => row.push(c)?,
    }
    Ok(Row::new(row))
}

/// What each flow reads at the same instant.
pub fn rows_in(alloc: Global, flows: &[Flow]) -> Result<Vec<Row<usize>>, AllocError>
    ensures { IfOk result (λ rows. rows.items ≡ map reads flows.now) }
{
    let mut rows = Vec::with_capacity(alloc, flows.len())?;
    for flow in flows {
        rows.push(reads_in(alloc, flow)?)?;
    }
    Ok(rows)
}
