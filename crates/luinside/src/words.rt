//! What is told of an operator, in words.

ghost use Rattle.std.specs.Prelude.{◌≡◌, ◌++◌, [], Some, IfOk, IfSome, OnOk, string_bytes, slice_get, unwrap_or};
ghost use Rattle.lutree.specs.Tree.{view, node_view, equation_view, program_view};
ghost use Rattle.luflow.specs.Program.{data_of};
ghost use Rattle.luflow.specs.Tables.{columns_view};
ghost use Rattle.luflow.specs.Variables.{inputs_of};
ghost use Rattle.lusource.specs.Names.{name_at};
ghost use Rattle.lusource.specs.Instances.{called_in};
ghost use Rattle.luflow.specs.declared.data.Datum.TheVariants.{Nil};
ghost use Rattle.luinside.specs.Words as spec;

use crate::{FoundFault, call_at};
use lubase::Name;
use luflow::{Datum, Enum, Flat, Inputs, Values, Variable, names_of};
use lustat_rules::Catalog;
use lusyn_printer::put_expr;
use lutab::put_datum;
use lutree::{Equation, Expr, Node};
use std::alloc::{AllocError, Global};

/// The first name; the empty text where there is none.
fn first_name(names: &[Name]) -> &str
    ensures { result.now ≡ name_at names.now 0 }
{
    match names {
        [first, ..] => first.as_str(),
        [] => "",
    }
}

/// A call in words.
fn call_text(
    alloc: Global,
    variable: &str,
    number: usize,
    called: &str,
) -> Result<String, AllocError>
    ensures { IfOk result (λ text. string_bytes text
        ≡ spec.call_text variable.now number called.now) }
{
    format!(in alloc; " of {called}#{number}, called in {variable}'s equation")
}

/// A call of a node: the name of the node that it calls, and the call in words with a text behind it.
#[derive(Drop)]
struct Called<'a> {
    called: &'a str,
    text: String,
}

/// The call of a number of a node, with this text behind it; none where there are fewer calls.
fn step<'a>(
    alloc: Global,
    node: &'a Node,
    number: usize,
    rest: &str,
) -> Result<Option<Called<'a>>, AllocError>
    ensures called { IfOk result (λ o. IfSome o (λ step. step.called.now
        ≡ name_at (called_in (Some (node_view node.now))) number)) }
    ensures text { IfOk result (λ o. IfSome o (λ step. string_bytes step.text
        ≡ name_at (spec.texts_in (Some (node_view node.now))) number ++ rest.now)) }
{
    let Some(call) = call_at(node, number) else {
        return Ok(None);
    };
    if call.number == usize::MAX {
        return Ok(None);
    }
    match node.equations.as_slice().get(call.equation) {
        Some(equation) => {
            let variable = first_name(equation.left.as_slice());
            let mut text = call_text(alloc, variable, call.number + 1, call.name)?;
            text.push_str(rest)?;
            let called = call.name;
            Ok(Some(Called { called, text }))
        }
        None => Ok(None),
    }
}

/// The calls of a path in words, the innermost first; none where there is no such path.
fn path_text<'a>(
    alloc: Global,
    catalog: &Catalog<'a>,
    main: &'a str,
    path: &[usize],
) -> Result<Option<String>, AllocError>
    ensures { IfOk result (λ o. IfSome o (λ text. string_bytes text ≡ spec.path_text (program_view
        catalog.now) main.now path.now [])) }
{
    let mut name = main;
    let mut text = String::new(alloc);
    for number in path {
        let Some(scope) = catalog.find(name) else {
            return Ok(None);
        };
        match step(alloc, scope.node(), *number, text.as_str())? {
            Some(step) => {
                name = step.called;
                text = step.text;
            }
            None => return Ok(None),
        }
    }
    Ok(Some(text))
}

/// Whether an expression is its own value.
fn is_constant(e: &Expr) -> bool
    ensures { result ≡ spec.is_constant (view e.now) }
{
    match e {
        Expr::Number(_) | Expr::Truth(_) | Expr::Label(_) => true,
        _ => false,
    }
}

/// An operand and its value; nothing of a constant.
fn value_text(alloc: Global, e: &Expr, datum: Datum) -> Result<String, AllocError>
    ensures { IfOk result (λ text. string_bytes text ≡ spec.value_text (view e.now) datum) }
{
    let mut text = String::new(alloc);
    if is_constant(e) {
        return Ok(text);
    }
    put_expr(&mut text, e)?;
    text.push_str(" = ")?;
    put_datum(&mut text, &[], datum)?;
    Ok(text)
}

/// The same of a value that there may be.
fn value_text_of(alloc: Global, e: &Expr, datum: Option<Datum>) -> Result<String, AllocError>
    ensures { IfOk result (λ text. string_bytes text ≡ spec.value_text_of (view e.now) datum) }
{
    match datum {
        Some(datum) => value_text(alloc, e, datum),
        None => Ok(String::new(alloc)),
    }
}

/// The first operand of an operator, and its value.
fn first_value(alloc: Global, e: &Expr, found: &FoundFault) -> Result<String, AllocError>
    ensures { IfOk result (λ text. string_bytes text ≡ spec.first_value (view e.now) found.now) }
{
    match e {
        Expr::Unary(_, a) | Expr::Binary(_, a, _) => value_text(alloc, a, found.left),
        _ => Ok(String::new(alloc)),
    }
}

/// The second operand, and its value.
fn second_value(alloc: Global, e: &Expr, found: &FoundFault) -> Result<String, AllocError>
    ensures { IfOk result (λ text. string_bytes text ≡ spec.second_value (view e.now) found.now) }
{
    match e {
        Expr::Binary(_, _, b) => value_text_of(alloc, b, found.right),
        _ => Ok(String::new(alloc)),
    }
}

/// Adds a value, which may be nothing.
fn put_value(text: &mut String, a: &str) -> Result<(), AllocError>
    ensures { OnOk result (string_bytes text.new ≡ string_bytes text.old ++ spec.one_value a.now) }
{
    if a.is_empty() {
        return Ok(());
    }
    text.push_str(", with ")?;
    text.push_str(a)
}

/// Adds two values, of which one or both may be nothing.
fn put_values(text: &mut String, a: &str, b: &str) -> Result<(), AllocError>
    ensures { OnOk result (string_bytes text.new ≡ string_bytes text.old
        ++ spec.both_values a.now b.now) }
{
    if b.is_empty() || a == b {
        put_value(text, a)
    } else if a.is_empty() {
        put_value(text, b)
    } else {
        text.push_str(", with ")?;
        text.push_str(a)?;
        text.push_str(", ")?;
        text.push_str(b)
    }
}

/// An operator with its operands, and their values.
fn operator_text(alloc: Global, e: &Expr, found: &FoundFault) -> Result<String, AllocError>
    ensures { IfOk result (λ text. string_bytes text
        ≡ spec.operator_text (view e.now) found.now) }
{
    let a = first_value(alloc, e, found)?;
    let b = second_value(alloc, e, found)?;
    let mut text = String::new(alloc);
    put_expr(&mut text, e)?;
    put_values(&mut text, &a, &b)?;
    Ok(text)
}

/// What column c has at an instant; nil where there is none.
fn datum_in(columns: &[(String, Values)], t: u32, c: usize) -> Datum
    ensures { result ≡ unwrap_or (slice_get (data_of (slice_get (columns_view columns.now) c)) t)
        Nil }
{
    let datum = match columns.get(c) {
        Some(column) => column.1.get(t as usize),
        None => None,
    };
    datum.unwrap_or(Datum::Nil)
}

/// What the table has of input c at an instant; nil where there is none.
fn given(inputs: &Inputs, t: u32, c: usize) -> Datum
    ensures { result ≡ spec.given inputs.now t c }
{
    datum_in(inputs.columns(), t, c)
}

/// Adds input c at an instant.
fn put_input(
    text: &mut String,
    types: &[Enum],
    inputs: &Inputs,
    t: u32,
    c: usize,
    x: &Variable,
) -> Result<(), AllocError>
    ensures { OnOk result (string_bytes text.new ≡ string_bytes text.old
        ++ spec.input_text types.now inputs.now t c x.now) }
{
    if c > 0 {
        text.push_str(", ")?;
    }
    text.push_str(x.name.as_str())?;
    text.push_str(" = ")?;
    put_datum(text, names_of(types, x.kind), given(inputs, t, c))
}

/// Adds all inputs at an instant.
fn put_inputs(
    text: &mut String,
    types: &[Enum],
    variables: &[Variable],
    inputs: &Inputs,
    t: u32,
) -> Result<(), AllocError>
    ensures { OnOk result (string_bytes text.new ≡ string_bytes text.old
        ++ spec.inputs_from types.now inputs.now t 0 variables.now) }
{
    for c in 0..variables.len() {
        put_input(text, types, inputs, t, c, &variables[c])?;
    }
    Ok(())
}

/// Adds a line of the inputs at an instant; none where there are no inputs.
fn put_inputs_line(
    text: &mut String,
    types: &[Enum],
    variables: &[Variable],
    inputs: &Inputs,
    t: u32,
) -> Result<(), AllocError>
    ensures { OnOk result (string_bytes text.new ≡ string_bytes text.old
        ++ spec.inputs_line types.now variables.now inputs.now t) }
{
    if variables.is_empty() {
        return Ok(());
    }
    write!(text, "inputs at instant {t}: ")?;
    put_inputs(text, types, variables, inputs, t)?;
    text.push('\n')
}

/// Where an operator stands, and what it reads.
fn first_line(
    alloc: Global,
    equation: &Equation,
    path: &str,
    operator: &str,
) -> Result<String, AllocError>
    ensures { IfOk result (λ text. string_bytes text ≡ spec.first_line (equation_view equation.now)
        path.now operator.now) }
{
    let variable = first_name(equation.left.as_slice());
    format!(in alloc; "in {variable}'s equation{path}: {operator}\n")
}

/// Where an operator stands, what it reads, and the inputs at the instant of its fault; none where there is
/// no such path.
pub(crate) fn told_lines<'a>(
    alloc: Global,
    catalog: &Catalog<'a>,
    main: &'a str,
    flat: &Flat,
    inputs: &Inputs,
    path: &[usize],
    equation: &Equation,
    operator: &Expr,
    found: &FoundFault,
) -> Result<Option<String>, AllocError>
    ensures { IfOk result (λ o. IfSome o (λ text. string_bytes text ≡ spec.told_lines (program_view
        catalog.now) main.now flat.now inputs.now path.now (equation_view equation.now)
        (view operator.now) found.now)) }
{
    let Some(path) = path_text(alloc, catalog, main, path)? else {
        return Ok(None);
    };
    let operator = operator_text(alloc, operator, found)?;
    let mut text = first_line(alloc, equation, &path, &operator)?;
    put_inputs_line(
        &mut text,
        flat.types(),
        flat.inputs(),
        inputs,
        found.instant,
    )?;
    Ok(Some(text))
}
