//! A value change dump, which viewers of waves open.

ghost use Rattle.std.specs.Prelude.{◌≡◌, IfOk, flat_map, string_bytes};
ghost use Rattle.std.specs.List.{range_with_len};
ghost use Rattle.luchart.specs.Pieces.{Adds};
ghost use Rattle.luchart.specs.Signals.{signal_view, signals_view};
ghost use Rattle.luchart.specs.Dump.{all_changes, binary, change, changes, closing, code, declaration, declarations, dump, dump_text, header, moment, number, opening, same_datum, same_status, time, timed, times, truth, value, variable_type, word};

use crate::scopes::{own_name, put_ends, put_moved};
use crate::signal::{Signal, instants_of, signals_of, status_at};
use lubase::Name;
use luflow::{Datum, Enum, Outputs, Status};
use lutab::put_datum;
use lutree::Kind;
use std::alloc::{AllocError, Global};
use std::io::Write;

/// Adds the code of a flow.
fn put_code(text: &mut String, k: usize) -> Result<(), AllocError>
    ensures { Adds result text.old text.new (code k) }
{
    write!(text, "v{k}")
}

/// Adds a number in two digits, below 0 as the complement of 64 of them.
fn put_binary(text: &mut String, value: i64) -> Result<(), AllocError>
    ensures { Adds result text.old text.new (binary value) }
{
    write!(text, "{:b}", value.cast_unsigned())
}

/// Adds what a flow of numbers has.
fn put_number(text: &mut String, status: Status) -> Result<(), AllocError>
    ensures { Adds result text.old text.new (number status) }
{
    match status {
        Status::Absent => text.push_str("bz "),
        Status::Present(Datum::Int(value)) => {
            text.push_str("b")?;
            put_binary(text, value)?;
            text.push_str(" ")
        }
        Status::Present(_) => text.push_str("bx "),
    }
}

/// Adds a name of an enumeration.
fn put_word(text: &mut String, names: &[Name], status: Status) -> Result<(), AllocError>
    ensures { Adds result text.old text.new (word names.now status) }
{
    match status {
        Status::Absent => text.push_str("s- "),
        Status::Present(datum) => {
            text.push_str("s")?;
            put_datum(text, names, datum)?;
            text.push_str(" ")
        }
    }
}

/// The value of a flow of truth values.
fn truth(status: Status) -> &'static str
    ensures { result.now ≡ truth status }
{
    match status {
        Status::Absent => "z",
        Status::Present(Datum::Bool(true)) => "1",
        Status::Present(Datum::Bool(false)) => "0",
        Status::Present(_) => "x",
    }
}

/// Adds a value, by the type of its flow: `z` is absent and `x` is nil.
fn put_value(
    text: &mut String,
    kind: Kind,
    names: &[Name],
    status: Status,
) -> Result<(), AllocError>
    ensures { Adds result text.old text.new (value kind names.now status) }
{
    match kind {
        Kind::Bool => text.push_str(truth(status)),
        Kind::Int => put_number(text, status),
        Kind::Enum(_, _) => put_word(text, names, status),
    }
}

/// Whether two data are the same.
fn same_datum(one: Datum, other: Datum) -> bool
    ensures { result ≡ same_datum one other }
{
    match (one, other) {
        (Datum::Int(y), Datum::Int(z)) => y <= z && z <= y,
        (Datum::Bool(true), Datum::Bool(b)) => b,
        (Datum::Bool(false), Datum::Bool(b)) => !b,
        (Datum::Name(k), Datum::Name(l)) => k == l,
        (Datum::Nil, Datum::Nil) => true,
        _ => false,
    }
}

/// Whether two statuses are the same.
fn same_status(one: Status, other: Status) -> bool
    ensures { result ≡ same_status one other }
{
    match (one, other) {
        (Status::Absent, Status::Absent) => true,
        (Status::Present(c), Status::Present(d)) => same_datum(c, d),
        _ => false,
    }
}

/// Whether a flow has another value at an instant than at the one before; at the first each flow has.
fn changes(signal: &Signal<'_>, instant: usize) -> bool
    ensures { result ≡ changes (signal_view signal.now) instant }
{
    if instant == 0 {
        return true;
    }
    !same_status(status_at(signal, instant - 1), status_at(signal, instant))
}

/// What a flow is in a dump.
fn variable_type(kind: Kind) -> &'static str
    ensures { result.now ≡ variable_type kind }
{
    match kind {
        Kind::Bool => "wire 1",
        Kind::Int => "integer 64",
        Kind::Enum(_, _) => "string 1",
    }
}

/// Adds the declaration of flow k.
pub fn put_declaration(text: &mut String, k: usize, signal: &Signal<'_>) -> Result<(), AllocError>
    ensures { Adds result text.old text.new (declaration k (signal_view signal.now)) }
{
    let kind = variable_type(signal.kind);
    let name = own_name(signal.name);
    writeln!(text, "$var {kind} v{k} {name} $end")
}

/// The name of a flow.
fn name_of<'a>(signal: &Signal<'a>) -> &'a str
    ensures { result.now ≡ signal.now.name.now }
{
    signal.name
}

/// Adds the declarations of all flows, each in its scopes.
fn put_declarations(text: &mut String, signals: &[Signal<'_>]) -> Result<(), AllocError>
    ensures { Adds result text.old text.new (declarations (signals_view signals.now)) }
{
    let mut before = "";
    for k in 0..signals.len() {
        let signal = &signals[k];
        let name = name_of(signal);
        put_moved(text, before, name)?;
        put_declaration(text, k, signal)?;
        before = name;
    }
    put_ends(text, before)
}

/// Adds a scope of the main node's name.
pub fn put_opening(text: &mut String, main: &str) -> Result<(), AllocError>
    ensures { Adds result text.old text.new (opening main.now) }
{
    writeln!(text, "$timescale 1 us $end\n$scope module {main} $end")
}

/// Adds the end of that scope, and of all declarations.
pub fn put_closing(text: &mut String) -> Result<(), AllocError>
    ensures { Adds result text.old text.new closing }
{
    text.push_str("$upscope $end\n$enddefinitions $end\n")
}

/// Adds what stands before the first time.
fn put_header(text: &mut String, main: &str, signals: &[Signal<'_>]) -> Result<(), AllocError>
    ensures { Adds result text.old text.new (header main.now (signals_view signals.now)) }
{
    put_opening(text, main)?;
    put_declarations(text, signals)?;
    put_closing(text)
}

/// Adds the new value of flow k, where it changes.
fn put_change(
    text: &mut String,
    instant: usize,
    k: usize,
    signal: &Signal<'_>,
) -> Result<(), AllocError>
    ensures { Adds result text.old text.new (change instant k (signal_view signal.now)) }
{
    if changes(signal, instant) {
        put_value(text, signal.kind, signal.names, status_at(signal, instant))?;
        put_code(text, k)?;
        return text.push_str("\n");
    }
    Ok(())
}

/// Adds the new values of the flows that change.
fn put_changes(text: &mut String, signals: &[Signal<'_>], instant: usize) -> Result<(), AllocError>
    ensures { Adds result text.old text.new (all_changes (signals_view signals.now) instant) }
{
    for k in 0..signals.len() {
        put_change(text, instant, k, &signals[k])?;
    }
    Ok(())
}

/// Adds a time.
fn put_time(text: &mut String, instant: usize) -> Result<(), AllocError>
    ensures { Adds result text.old text.new (time instant) }
{
    writeln!(text, "#{instant}")
}

/// Adds changes behind their time; nothing where there are none.
fn put_timed(text: &mut String, instant: usize, lines: &str) -> Result<(), AllocError>
    ensures { Adds result text.old text.new (timed instant lines.now) }
{
    if lines.is_empty() {
        return Ok(());
    }
    put_time(text, instant)?;
    text.push_str(lines)
}

/// Adds what changes at an instant. The scratch text is used up.
fn put_instant(
    text: &mut String,
    scratch: &mut String,
    signals: &[Signal<'_>],
    instant: usize,
) -> Result<(), AllocError>
    ensures { Adds result text.old text.new (moment (signals_view signals.now) instant) }
{
    scratch.clear();
    put_changes(scratch, signals, instant)?;
    put_timed(text, instant, scratch)
}

/// Adds what changes at each of so many instants.
fn put_instants(
    text: &mut String,
    scratch: &mut String,
    signals: &[Signal<'_>],
    count: usize,
) -> Result<(), AllocError>
    ensures { Adds result text.old text.new (flat_map (moment (signals_view signals.now))
        (range_with_len 0 count)) }
{
    for instant in 0..count {
        put_instant(text, scratch, signals, instant)?;
    }
    Ok(())
}

/// Adds so many instants of flows, and the time behind the last.
pub fn put_times(
    alloc: Global,
    text: &mut String,
    signals: &[Signal<'_>],
    count: usize,
) -> Result<(), AllocError>
    ensures { Adds result text.old text.new (times (signals_view signals.now) count) }
{
    let mut scratch = String::new(alloc);
    put_instants(text, &mut scratch, signals, count)?;
    put_time(text, count)
}

/// So many instants of flows of a main node of this name.
fn dumped(
    alloc: Global,
    main: &str,
    signals: &[Signal<'_>],
    count: usize,
) -> Result<String, AllocError>
    ensures { IfOk result (λ s. string_bytes s
        ≡ dump main.now (signals_view signals.now) count) }
{
    let mut text = String::new(alloc);
    put_header(&mut text, main, signals)?;
    put_times(alloc, &mut text, signals, count)?;
    Ok(text)
}

/// The value change dump of columns of these types, of a main node of this name, in a program with these
/// enumerations. An instant is a microsecond of the viewer's time. A flow of truth values is a wire, one of
/// numbers an integer of 64 bits, and one of an enumeration a string (which the standard hasn't, and viewers
/// have). Absent is `z`, nil is `x`; of a string they are `-` and `nil`. The time grows with the number of
/// flows times the number of instants.
///
/// # Errors
///
/// `AllocError` where memory ran out.
pub fn dump(
    alloc: Global,
    main: &str,
    types: &[Enum],
    kinds: &[Kind],
    columns: &Outputs,
) -> Result<String, AllocError>
    ensures exact { IfOk result (λ s. string_bytes s
        ≡ dump_text main.now types.now kinds.now columns.now) }
{
    let columns = columns.columns();
    let signals = signals_of(alloc, types, kinds, columns)?;
    dumped(alloc, main, &signals, instants_of(columns))
}
