//! The variables of a program at a table, as a text.

ghost use Rattle.std.specs.Prelude.{◌≡◌, ◌<◌, ◌≤◌, List, Some, true, false, IfOk, IfErr, OnOk, length, slice_get, string_bytes, option_map};
ghost use Rattle.luflow.specs.declared.variable.Variable.{Variable};
ghost use Rattle.luflow.specs.Tables.{OutputColumn};
ghost use Rattle.luflow.specs.Sound.{IsFit};
ghost use Rattle.luflow.specs.Variables.{outputs_of};
ghost use Rattle.lueval.specs.Whole.{HasNoFault, IsAnswer};
ghost use Rattle.lusdist_call.specs.Files.{dump_for, wave_path};
ghost use Rattle.lusdist_call.specs.Shown.{listed_from, listed_kinds, IsListFor};
ghost use Rattle.lusdist_call.specs.Violations.{has_lines};
ghost use Rattle.lusdist_call.specs.Evaluated.{eval_notes, AreEvaluated, HasNoFaultBefore, IsShown, IsShownBefore, IsShownTo, IsStopped, IsStopFor, tabled_text, shown_text, wave_text};
ghost use Rattle.lueval_lines.specs.declared.error.EvalError.TheVariants.{Fault};

use crate::shown::kinds_in;
use lubase::Name;
use lublock::block_outputs;
use luchart::{chronogram, cut, dump};
use lueval::{EvalError, whole_columns};
use luflow::{Enum, FaultKind, Flat, Inputs, Outputs};
use luinside::{DeepVariable, deep_columns};
use lusdist_call::{CallError, Refusal, Reply, column_violations};
use lusdist_shell::EvalRequest;
use lutab::{write_aligned, write_columns};
use lutree::Kind;
use std::alloc::{AllocError, Global};

/// The name of the main variable in whose equation a fault stands.
fn fault_name(alloc: Global, flat: &Flat, variable: usize) -> Result<Name, AllocError>
    requires { variable < length flat.now.variables }
    ensures { IfOk result (λ name. (x : Variable)
        × (slice_get flat.now.variables variable ≡ Some x) × (name ≡ x.name)) }
{
    flat.variables()[variable].name.copied(alloc)
}

/// The stop for a fault in the equation of this main variable.
pub(crate) fn fault_stop(
    alloc: Global,
    flat: &Flat,
    variable: usize,
    instant: u32,
    kind: FaultKind,
) -> CallError
    requires { variable < length flat.now.variables }
    ensures { IsStopFor flat.now variable instant kind result }
{
    match fault_name(alloc, flat, variable) {
        Ok(name) => CallError::Fault {
            variable: name,
            instant,
            kind,
        },
        Err(_) => CallError::OutOfMemory,
    }
}

/// All main variables of a flat program at a table that fits it, or its first fault.
fn all_columns(alloc: Global, flat: &Flat, inputs: &Inputs) -> Result<Outputs, EvalError>
    requires fit { IsFit flat.now inputs.now }
    requires some { 0 < length (outputs_of flat.now.variables) }
    ensures columns { IfOk result (AreEvaluated flat.now inputs.now
        (listed_from true 0 flat.now.variables) inputs.now.instants) }
    ensures no_fault { OnOk result (HasNoFault flat.now inputs.now) }
    ensures fault { IfErr result (IsAnswer flat.now inputs.now) }
{
    whole_columns(alloc, flat, inputs)
}

/// The outputs of a flat program at a table that fits it, or its first fault.
fn output_columns(alloc: Global, flat: &Flat, inputs: &Inputs) -> Result<Outputs, EvalError>
    requires fit { IsFit flat.now inputs.now }
    requires some { 0 < length (outputs_of flat.now.variables) }
    ensures columns { IfOk result (AreEvaluated flat.now inputs.now
        (listed_from false 0 flat.now.variables) inputs.now.instants) }
    ensures no_fault { OnOk result (HasNoFault flat.now inputs.now) }
    ensures fault { IfErr result (IsAnswer flat.now inputs.now) }
{
    block_outputs(alloc, flat, inputs)
}

/// Listed variables of a flat program at a table that fits it, or its first fault.
fn listed_columns(
    alloc: Global,
    flat: &Flat,
    inputs: &Inputs,
    list: &[DeepVariable],
) -> Result<Outputs, EvalError>
    requires fit { IsFit flat.now inputs.now }
    requires some { 0 < length (outputs_of flat.now.variables) }
    requires list { IsListFor true true flat.now list.now }
    ensures columns { IfOk result (AreEvaluated flat.now inputs.now list.now inputs.now.instants) }
    ensures no_fault { OnOk result (HasNoFault flat.now inputs.now) }
    ensures fault { IfErr result (IsAnswer flat.now inputs.now) }
{
    deep_columns(alloc, flat, inputs, list)
}

/// The variables that a request asks for of a flat program at a table that fits it, as they are listed, or
/// its first fault.
fn columns_of(
    alloc: Global,
    request: EvalRequest<'_>,
    flat: &Flat,
    inputs: &Inputs,
    list: &[DeepVariable],
) -> Result<Outputs, EvalError>
    requires fit { IsFit flat.now inputs.now }
    requires some { 0 < length (outputs_of flat.now.variables) }
    requires list { IsListFor request.deep request.all flat.now list.now }
    ensures columns { IfOk result (AreEvaluated flat.now inputs.now list.now inputs.now.instants) }
    ensures no_fault { OnOk result (HasNoFault flat.now inputs.now) }
    ensures fault { IfErr result (IsAnswer flat.now inputs.now) }
{
    if request.deep {
        listed_columns(alloc, flat, inputs, list)
    } else if request.all {
        all_columns(alloc, flat, inputs)
    } else {
        output_columns(alloc, flat, inputs)
    }
}

/// The same at the instants before one, where no operator is a fault before it.
fn columns_before(
    alloc: Global,
    request: EvalRequest<'_>,
    flat: &Flat,
    inputs: &Inputs,
    list: &[DeepVariable],
    instant: u32,
) -> Result<Outputs, AllocError>
    requires some { 0 < length (outputs_of flat.now.variables) }
    requires fit { IsFit flat.now inputs.now }
    requires list { IsListFor request.deep request.all flat.now list.now }
    requires early { instant ≤ inputs.now.instants }
    requires no_fault { HasNoFaultBefore flat.now inputs.now instant }
    ensures { IfOk result (AreEvaluated flat.now inputs.now list.now instant) }
{
    flat.recall_invariant();
    let before = cut(alloc, inputs, instant)?;
    match columns_of(alloc, request, flat, &before, list) {
        Ok(columns) => Ok(columns),
        Err(EvalError::OutOfMemory) => Err(AllocError),
        Err(
            EvalError::Fault {
                variable: _variable,
                instant: _instant,
                kind: _kind,
            },
        ) => unreachable!(),
    }
}

/// Columns of these types as a table, fields joined by commas or with its columns aligned.
fn tabled_text(
    alloc: Global,
    aligned: bool,
    types: &[Enum],
    kinds: &[Kind],
    columns: &Outputs,
) -> Result<String, AllocError>
    ensures { IfOk result (λ text. string_bytes text
        ≡ tabled_text aligned types.now kinds.now columns.now) }
{
    if aligned {
        return write_aligned(alloc, types, kinds, columns);
    }
    write_columns(alloc, types, kinds, columns)
}

/// Columns of these types, in the form that a request asks for.
fn shown_text(
    alloc: Global,
    request: EvalRequest<'_>,
    types: &[Enum],
    kinds: &[Kind],
    columns: &Outputs,
) -> Result<String, AllocError>
    ensures { IfOk result (λ text. string_bytes text
        ≡ shown_text request.entry types.now kinds.now columns.now) }
{
    if request.chronogram {
        return chronogram(alloc, types, kinds, columns, request.from, request.to);
    }
    tabled_text(alloc, request.aligned, types, kinds, columns)
}

/// The dump of columns of these types, where a request asks for one.
fn wave(
    alloc: Global,
    request: EvalRequest<'_>,
    types: &[Enum],
    kinds: &[Kind],
    columns: &Outputs,
) -> Result<Option<String>, AllocError>
    ensures { IfOk result (λ dump. option_map string_bytes dump ≡ dump_for (wave_path request.entry)
        (wave_text request.entry types.now kinds.now columns.now)) }
{
    match request.vcd {
        Some(_) => {
            let text = dump(alloc, request.main, types, kinds, columns)?;
            Ok(Some(text))
        }
        None => Ok(None),
    }
}

/// The dump of listed variables at the instants before a fault.
fn wave_part(
    alloc: Global,
    request: EvalRequest<'_>,
    flat: &Flat,
    inputs: &Inputs,
    list: &[DeepVariable],
    instant: u32,
) -> Result<String, AllocError>
    requires some { 0 < length (outputs_of flat.now.variables) }
    requires fit { IsFit flat.now inputs.now }
    requires list { IsListFor request.deep request.all flat.now list.now }
    requires early { instant ≤ inputs.now.instants }
    requires no_fault { HasNoFaultBefore flat.now inputs.now instant }
    ensures { IfOk result (λ text. (columns : List OutputColumn)
        × AreEvaluated flat.now inputs.now list.now instant columns × (string_bytes text
        ≡ wave_text request.entry flat.now.types (listed_kinds list.now) columns)) }
{
    let columns = columns_before(alloc, request, flat, inputs, list, instant)?;
    let kinds = kinds_in(alloc, list)?;
    dump(alloc, request.main, flat.types(), &kinds, &columns)
}

/// The dump of the instants before a fault, where one is asked for; else nothing is evaluated.
fn wave_before(
    alloc: Global,
    request: EvalRequest<'_>,
    flat: &Flat,
    inputs: &Inputs,
    list: &[DeepVariable],
    instant: u32,
) -> Result<Option<String>, AllocError>
    requires some { 0 < length (outputs_of flat.now.variables) }
    requires fit { IsFit flat.now inputs.now }
    requires list { IsListFor request.deep request.all flat.now list.now }
    requires early { instant ≤ inputs.now.instants }
    requires no_fault { HasNoFaultBefore flat.now inputs.now instant }
    ensures { IfOk result (λ dump. IsShownBefore request.entry flat.now inputs.now list.now instant
        (wave_path request.entry) (option_map string_bytes dump)) }
{
    match request.vcd {
        Some(_) => {
            let text = wave_part(alloc, request, flat, inputs, list, instant)?;
            Ok(Some(text))
        }
        None => Ok(None),
    }
}

/// What a request asks for of columns of these types: a text, their dump, and what is told of outputs that
/// are observed.
fn shown(
    alloc: Global,
    request: EvalRequest<'_>,
    types: &[Enum],
    kinds: &[Kind],
    columns: &Outputs,
) -> Result<Reply, AllocError>
    ensures text { IfOk result (λ reply. string_bytes reply.text
        ≡ shown_text request.entry types.now kinds.now columns.now) }
    ensures dump { IfOk result (λ reply. option_map string_bytes reply.dump ≡ dump_for
        (wave_path request.entry) (wave_text request.entry types.now kinds.now columns.now)) }
    ensures notes { IfOk result (λ reply. string_bytes reply.notes
        ≡ eval_notes request.entry types.now kinds.now columns.now) }
    ensures violated { IfOk result (λ reply. reply.violated
        ≡ has_lines (string_bytes reply.notes)) }
{
    let text = shown_text(alloc, request, types, kinds, columns)?;
    let dump = wave(alloc, request, types, kinds, columns)?;
    let told = column_violations(alloc, request.always, types, kinds, columns)?;
    Ok(Reply::new(text, told, dump))
}

/// The same of columns of listed variables.
fn shown_list(
    alloc: Global,
    request: EvalRequest<'_>,
    flat: &Flat,
    list: &[DeepVariable],
    columns: &Outputs,
) -> Result<Reply, AllocError>
    ensures text { IfOk result (λ reply. string_bytes reply.text
        ≡ shown_text request.entry flat.now.types (listed_kinds list.now) columns.now) }
    ensures dump { IfOk result (λ reply. option_map string_bytes reply.dump
        ≡ dump_for (wave_path request.entry) (wave_text request.entry flat.now.types
        (listed_kinds list.now) columns.now)) }
    ensures notes { IfOk result (λ reply. string_bytes reply.notes
        ≡ eval_notes request.entry flat.now.types (listed_kinds list.now) columns.now) }
    ensures violated { IfOk result (λ reply. reply.violated
        ≡ has_lines (string_bytes reply.notes)) }
{
    let kinds = kinds_in(alloc, list)?;
    shown(alloc, request, flat.types(), &kinds, columns)
}

/// The stop for the first fault, of this main variable at this instant, with the dump of the instants before
/// it.
fn faulted(
    alloc: Global,
    request: EvalRequest<'_>,
    flat: &Flat,
    inputs: &Inputs,
    list: &[DeepVariable],
    fault: (usize, u32, FaultKind),
) -> Result<Refusal, AllocError>
    requires some { 0 < length (outputs_of flat.now.variables) }
    requires fit { IsFit flat.now inputs.now }
    requires list { IsListFor request.deep request.all flat.now list.now }
    requires reported { IsAnswer flat.now inputs.now (Fault fault.0 fault.1 fault.2) }
    ensures stopped { IfOk result (λ refusal. IsStopped flat.now inputs.now refusal.error) }
    ensures before { IfOk result (λ refusal. IsShownTo request.entry flat.now inputs.now list.now
        refusal.error (option_map string_bytes refusal.dump)) }
{
    flat.recall_invariant();
    let (variable, instant, kind) = fault;
    let dump = wave_before(alloc, request, flat, inputs, list, instant)?;
    let name = fault_name(alloc, flat, variable)?;
    Ok(Refusal {
        error: CallError::Fault {
            variable: name,
            instant,
            kind,
        },
        dump,
    })
}

/// What a request asks for of a flat program and a table that fits it, as a text and a dump of listed
/// variables, with what is told of outputs that are observed; or the first fault, with the dump of the
/// instants before it.
pub fn evaluation(
    alloc: Global,
    request: EvalRequest<'_>,
    flat: &Flat,
    inputs: &Inputs,
    list: &[DeepVariable],
) -> Result<Reply, Refusal>
    requires fit { IsFit flat.now inputs.now }
    requires some { 0 < length (outputs_of flat.now.variables) }
    requires list { IsListFor request.deep request.all flat.now list.now }
    ensures shown { IfOk result (λ reply. IsShown request.entry flat.now inputs.now list.now
        (string_bytes reply.text) (string_bytes reply.notes)
        (option_map string_bytes reply.dump)) }
    ensures violated { IfOk result (λ reply. reply.violated
        ≡ has_lines (string_bytes reply.notes)) }
    ensures stopped { IfErr result (λ refusal. IsStopped flat.now inputs.now refusal.error) }
    ensures before { IfErr result (λ refusal. IsShownTo request.entry flat.now inputs.now list.now
        refusal.error (option_map string_bytes refusal.dump)) }
{
    match columns_of(alloc, request, flat, inputs, list) {
        Ok(columns) => {
            let reply = shown_list(alloc, request, flat, list, &columns)?;
            Ok(reply)
        }
        Err(EvalError::OutOfMemory) => Err(Refusal {
            error: CallError::OutOfMemory,
            dump: None,
        }),
        Err(
            EvalError::Fault {
                variable,
                instant,
                kind,
            },
        ) => {
            let fault = (variable, instant, kind);
            let refusal = faulted(alloc, request, flat, inputs, list, fault)?;
            Err(refusal)
        }
    }
}
