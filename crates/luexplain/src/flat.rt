//! Programs without a flat program, `E40` and `E50`, and faults of values, `R1`.

ghost use Rattle.std.specs.Prelude.{IfOk};
ghost use Rattle.luexplain.specs.Texts.{IsExplainedSomewhere};
ghost use Rattle.luexplain.specs.Explanations.{IsExplanation, whole};

use crate::circle::circle;
use crate::find::node_named;
use crate::place::where_in;
use crate::said::{Explanation, Said, reported, say, whole};
use crate::sentences;
use crate::words::Part;
use luflow::FaultKind;
use lustat_rules::Scope;
use lutree::{Equation, Expr, Infix, Kind, Prefix, Program};
use std::alloc::{AllocError, Global};

/// The place of a variable, behind those before.
fn push_place(scope: &Scope, name: &str, row: &mut Vec<usize>) -> Result<(), AllocError> {
    if let Some(place) = scope.place(name) {
        row.push(place)?;
    }
    Ok(())
}

/// The places of the variables that an expression reads at the same instant, behind those before. What a call
/// is given is among them where `through` says so.
#[cycle(reads)]
fn push_reads(
    scope: &Scope,
    through: bool,
    e: &Expr,
    row: &mut Vec<usize>,
) -> Result<(), AllocError> {
    if let Expr::If(c, _, _) = e {
        push_reads(scope, through, c, row)?;
    }
    match e {
        Expr::Number(_) | Expr::Truth(_) | Expr::Label(_) | Expr::Unary(Prefix::Pre, _) => Ok(()),
        Expr::Variable(x) | Expr::Current(x) => push_place(scope, x.as_str(), row),
        Expr::Unary(_, a) | Expr::Binary(Infix::FollowedBy, a, _) => {
            push_reads(scope, through, a, row)
        }
        Expr::Binary(_, a, b) | Expr::If(_, a, b) => {
            push_reads(scope, through, a, row)?;
            push_reads(scope, through, b, row)
        }
        Expr::When(a, clock) => {
            push_reads(scope, through, a, row)?;
            push_place(scope, clock.variable.as_str(), row)
        }
        Expr::Merge(x, _, branches) => {
            push_place(scope, x.as_str(), row)?;
            push_all_reads(scope, through, branches, row)
        }
        Expr::Call(_, arguments) if through => push_all_reads(scope, through, arguments, row),
        Expr::Call(_, _) => Ok(()),
    }
}

/// Puts the variables that several expressions read behind others.
#[cycle(reads)]
fn push_all_reads(
    scope: &Scope,
    through: bool,
    all: &[Expr],
    row: &mut Vec<usize>,
) -> Result<(), AllocError> {
    for e in all {
        push_reads(scope, through, e, row)?;
    }
    Ok(())
}

/// Each variable on the left of an equation leads to its vertex.
fn lead_to(
    scope: &Scope,
    equation: &Equation,
    vertex: usize,
    graph: &mut Vec<Vec<usize>>,
) -> Result<(), AllocError> {
    for x in equation.left.as_slice() {
        if let Some(place) = scope.place(x.as_str()) {
            if place < graph.len() {
                graph[place].push(vertex)?;
            }
        }
    }
    Ok(())
}

/// What the variables of a node read at one instant: a vertex for each variable, which leads to the vertex of
/// its equation and to the variable of its clock, and behind them one for each equation, which leads to the
/// variables that it reads.
fn graph_of(alloc: Global, scope: &Scope, through: bool) -> Result<Vec<Vec<usize>>, AllocError> {
    let mut graph = Vec::new(alloc);
    let declarations = scope.declarations();
    for declared in declarations {
        let mut row = Vec::new(alloc);
        if let Some(clock) = &declared.clock {
            push_place(scope, clock.variable.as_str(), &mut row)?;
        }
        graph.push(row)?;
    }
    let equations = scope.node().equations.as_slice();
    let variables = declarations.len();
    for (i, equation) in equations.iter().enumerate() {
        lead_to(scope, equation, variables + i, &mut graph)?;
    }
    for equation in equations {
        let mut row = Vec::new(alloc);
        push_reads(scope, through, &equation.right, &mut row)?;
        graph.push(row)?;
    }
    Ok(graph)
}

/// The variables of a node in a circle from one back to it, each reading the next at one instant; none where
/// no equation shows it. A way that goes through no call is preferred.
fn circle_of<'a>(
    alloc: Global,
    scope: &Scope<'a>,
    variable: &str,
) -> Result<Vec<&'a str>, AllocError> {
    let mut names = Vec::new(alloc);
    let Some(place) = scope.place(variable) else {
        return Ok(names);
    };
    let mut way = circle(alloc, &graph_of(alloc, scope, false)?, place)?;
    if way.is_empty() {
        way = circle(alloc, &graph_of(alloc, scope, true)?, place)?;
    }
    for place in &way {
        if let Some(declared) = scope.declarations().get(*place) {
            names.push(declared.name.as_str())?;
        }
    }
    Ok(names)
}

/// How a circle of these variables is reported, with the type of one of them; none where no equation shows
/// it.
fn said_of_names<'a>(
    alloc: Global,
    program: &'a Program,
    kind: Kind,
    names: &'a [&'a str],
) -> Result<Said, AllocError> {
    if names.is_empty() {
        return say(alloc, sentences::CIRCLE_BY_CALLS, &[]);
    }
    let circle = Part::Circle(names, sentences::READS);
    let start = Part::Start(program, kind);
    say(alloc, sentences::CIRCLE_OF_READS, &[circle, start])
}

/// What is said of a circle in a node with this scope.
fn said_in(
    alloc: Global,
    program: &Program,
    scope: &Scope,
    variable: &str,
) -> Result<Said, AllocError> {
    let names = circle_of(alloc, scope, variable)?;
    let kind = scope.kind(variable).unwrap_or(Kind::Int);
    said_of_names(alloc, program, kind, names.as_slice())
}

/// What is said of a circle in the main node.
fn said_of_cycle(
    alloc: Global,
    program: &Program,
    main: &str,
    variable: &str,
) -> Result<Said, AllocError> {
    let Some(node) = node_named(program, main) else {
        return say(alloc, sentences::CIRCLE_BY_CALLS, &[]);
    };
    let scope = Scope::new(alloc, node)?;
    said_in(alloc, program, &scope, variable)
}

/// Where the equation of a variable of the main node begins; 0 where there is none.
fn byte_of(program: &Program, main: &str, variable: &str) -> usize {
    let Some(node) = node_named(program, main) else {
        return 0;
    };
    for equation in node.equations.as_slice() {
        for x in equation.left.as_slice() {
            if x.is(variable) {
                return equation.byte;
            }
        }
    }
    0
}

/// What a user reads where a main variable depends on itself: its place, what is wrong, and how to mend it.
/// `text` is the text of the file of this path, `program` is what it spells, and `main` the name of the main
/// node.
///
/// # Errors
///
/// An error means that memory ran out.
pub fn of_cycle(
    alloc: Global,
    path: &str,
    text: &[u8],
    program: &Program,
    main: &str,
    variable: &str,
) -> Result<Explanation, AllocError>
    ensures { IfOk result (IsExplainedSomewhere path.now text.now) }
{
    let byte = byte_of(program, main, variable);
    let said = said_of_cycle(alloc, program, main, variable)?;
    Ok(reported(where_in(alloc, path, text, byte)?, said))
}

/// What a user reads about a program with too many flows: the path of its file, what is wrong, and how to
/// mend it.
///
/// # Errors
///
/// An error means that memory ran out.
pub fn of_size(alloc: Global, path: &str) -> Result<Explanation, AllocError>
    ensures { IfOk result (IsExplanation (whole path.now)) }
{
    let said = say(alloc, sentences::MANY_FLOWS, &[])?;
    Ok(reported(whole(alloc, path)?, said))
}

/// What is said of a fault of a value.
fn said_of_fault(
    alloc: Global,
    variable: &str,
    instant: u32,
    kind: FaultKind,
) -> Result<Said, AllocError> {
    let instant = instant as usize;
    let wording = match kind {
        FaultKind::Overflow => sentences::OVERFLOW,
        FaultKind::DivZero => sentences::DIV_ZERO,
    };
    say(
        alloc,
        wording,
        &[
            Part::Name(variable),
            Part::Number(instant),
            Part::Number(instant + 2),
        ],
    )
}

/// What a user reads about a fault in the equation of a main variable at an instant: its place, what is
/// wrong, and how to mend it. `text` is the text of the program's file, of this path, `program` is what it
/// spells, and `main` the name of the main node.
///
/// # Errors
///
/// An error means that memory ran out.
pub fn of_fault(
    alloc: Global,
    path: &str,
    text: &[u8],
    program: &Program,
    main: &str,
    variable: &str,
    instant: u32,
    kind: FaultKind,
) -> Result<Explanation, AllocError>
    ensures { IfOk result (IsExplainedSomewhere path.now text.now) }
{
    let byte = byte_of(program, main, variable);
    let said = said_of_fault(alloc, variable, instant, kind)?;
    Ok(reported(where_in(alloc, path, text, byte)?, said))
}
