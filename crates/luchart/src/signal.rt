//! The flows that are drawn or dumped.

ghost use Rattle.std.specs.Prelude.{◌≡◌, IfOk, slice_get, unwrap_or};
ghost use Rattle.lutree.specs.declared.program.Kind.TheVariants.{Int};
ghost use Rattle.luflow.specs.Tables.{outputs_view};
ghost use Rattle.lutab.specs.Outputs.{instants_of};
ghost use Rattle.luchart.specs.Signals.{longest, signal_at, signal_view, signals_of, signals_view, status_at};

use crate::pieces::larger;
use lubase::Name;
use luflow::{Datum, Enum, Status, names_of};
use lutree::Kind;
use std::alloc::{AllocError, Global};

/// A flow: its name, its type, the names of its type where that is an enumeration, and what it has at each
/// instant.
#[derive(Clone, Copy)]
pub struct Signal<'a> {
    pub name: &'a str,
    pub kind: Kind,
    pub names: &'a [Name],
    pub statuses: &'a [Status],
}

/// The type of this number among these.
fn kind_at(kinds: &[Kind], i: usize) -> Kind
    ensures { result ≡ unwrap_or (slice_get kinds.now i) Int }
{
    match kinds.get(i) {
        Some(kind) => *kind,
        None => Kind::Int,
    }
}

/// The flow of this number: the column and the type of that number.
pub fn signal_at<'a>(
    types: &'a [Enum],
    kinds: &[Kind],
    columns: &'a [(String, Vec<Status>)],
    i: usize,
) -> Signal<'a>
    ensures { signal_view result ≡ signal_at types.now kinds.now (outputs_view columns.now) i }
{
    let kind = kind_at(kinds, i);
    let names = names_of(types, kind);
    match columns.get(i) {
        Some(column) => Signal {
            name: column.0.as_str(),
            kind,
            names,
            statuses: column.1.as_slice(),
        },
        None => Signal {
            name: "",
            kind,
            names,
            statuses: &[],
        },
    }
}

/// What a flow has at an instant; nil where that isn't known.
pub fn status_at(signal: &Signal<'_>, instant: usize) -> Status
    ensures { result ≡ status_at (signal_view signal.now) instant }
{
    match signal.statuses.get(instant) {
        Some(status) => *status,
        None => Status::Present(Datum::Nil),
    }
}

/// The flows of columns of these types, in order.
///
/// # Errors
///
/// `AllocError` where memory ran out.
pub fn signals_of<'a>(
    alloc: Global,
    types: &'a [Enum],
    kinds: &[Kind],
    columns: &'a [(String, Vec<Status>)],
) -> Result<Vec<Signal<'a>>, AllocError>
    ensures { IfOk result (λ v. signals_view v.items
        ≡ signals_of types.now kinds.now (outputs_view columns.now)) }
{
    let mut signals = Vec::with_capacity(alloc, columns.len())?;
    for i in 0..columns.len() {
        signals.push(signal_at(types, kinds, columns, i))?;
    }
    Ok(signals)
}

/// How many instants columns have.
pub fn instants_of(columns: &[(String, Vec<Status>)]) -> usize
    ensures { result ≡ instants_of (outputs_view columns.now) }
{
    match columns {
        [first, ..] => first.1.len(),
        [] => 0,
    }
}

/// How many instants are known of the flow of which most are.
pub fn longest(signals: &[Signal<'_>]) -> usize
    ensures { result ≡ longest (signals_view signals.now) }
{
    let mut most = 0;
    for signal in signals {
        most = larger(most, signal.statuses.len());
    }
    most
}
