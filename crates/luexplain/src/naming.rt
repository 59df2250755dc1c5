//! The rules of names: `E10` to `E12`, `E15` to `E18`.

use crate::around::{habit_of_call, habit_of_type, habit_of_value};
use crate::circle::circle;
use crate::find::{Spot, label_named, node_named, role_at, start_of_part, type_of_label};
use crate::near::{FAR, are_apart};
use crate::place::line_of;
use crate::said::{Said, say};
use crate::sentences;
use crate::sentences::Wording;
use crate::tokens::operand_start;
use crate::words::Part;
use lubase::{Name, Places};
use lustat_rules::{Catalog, Scope, StatError};
use lutree::{Declaration, Expr, Node, Pattern, Program};
use lutype::graph_of;
use std::alloc::{AllocError, Global};
use std::slice;

/// How a name is reported that is declared twice, by what bears it, and where it stands first.
fn said_of_twice(
    alloc: Global,
    text: &[u8],
    of: &'static str,
    name: &Name,
    first: usize,
) -> Result<Said, AllocError> {
    say(
        alloc,
        sentences::NAME_TAKEN,
        &[
            Part::Phrase(of, name.as_str(), ""),
            Part::Number(line_of(text, first)),
        ],
    )
}

/// `E10` of a type, of a name of an enumeration or of a node, by the first of its kind that is named so.
pub(crate) fn duplicate(
    alloc: Global,
    error: &StatError,
    text: &[u8],
    program: &Program,
) -> Result<Said, AllocError> {
    let nodes = program.nodes.as_slice();
    let types = program.types.as_slice();
    for node in nodes {
        if node.byte == error.byte() {
            if let Some(other) = node_named(program, node.name.as_str()) {
                return said_of_twice(alloc, text, sentences::NAME_OF_NODE, &node.name, other.byte);
            }
        }
    }
    for declared in types {
        for label in declared.names.as_slice() {
            if label.byte == error.byte() {
                if let Some(other) = label_named(types, label.name.as_str()) {
                    let of = sentences::NAME_OF_LABEL;
                    return said_of_twice(alloc, text, of, &label.name, other.byte);
                }
            }
        }
        if declared.byte == error.byte() {
            for other in types {
                if other.name.is(declared.name.as_str()) {
                    let of = sentences::NAME_OF_TYPE;
                    return said_of_twice(alloc, text, of, &declared.name, other.byte);
                }
            }
        }
    }
    say(alloc, sentences::of_rule_alone(error), &[])
}

/// `E10` of a variable: its name stands before at another one of its node, or else as a name of an
/// enumeration.
pub(crate) fn duplicate_variable(
    alloc: Global,
    text: &[u8],
    program: &Program,
    scope: &Scope,
    declared: &Declaration,
) -> Result<Said, AllocError> {
    let name = declared.name.as_str();
    let first = match scope.find(name) {
        Some(first) if first.byte != declared.byte => first.byte,
        _ => match label_named(program.types.as_slice(), name) {
            Some(label) => label.byte,
            None => 0,
        },
    };
    let of = sentences::NAME_OF_VARIABLE;
    said_of_twice(alloc, text, of, &declared.name, first)
}

/// The first name of an enumeration among some patterns that isn't known.
fn unknown_label<'a>(catalog: &Catalog, patterns: &'a [Pattern]) -> Option<&'a str> {
    for pattern in patterns {
        if let Pattern::Label(label) = pattern {
            if !catalog.has_label(label.name.as_str()) {
                return Some(label.name.as_str());
            }
        }
    }
    None
}

/// The variable that an expression names outside of its parts.
fn variable_of(e: &Expr) -> Option<&str> {
    match e {
        Expr::Variable(x) | Expr::Current(x) => Some(x.as_str()),
        Expr::When(_, clock) => Some(clock.variable.as_str()),
        Expr::Merge(x, _, _) => Some(x.as_str()),
        _ => None,
    }
}

/// The patterns that an expression has outside of its parts.
fn patterns_of(e: &Expr) -> &[Pattern] {
    match e {
        Expr::When(_, clock) => slice::from_ref(&clock.pattern),
        Expr::Merge(_, patterns, _) => patterns.as_slice(),
        _ => &[],
    }
}

/// The first name of an enumeration outside of an expression's parts that isn't known.
fn unknown_label_at<'a>(catalog: &Catalog, e: &'a Expr) -> Option<&'a str> {
    match e {
        Expr::Label(label) if !catalog.has_label(label.name.as_str()) => Some(label.name.as_str()),
        _ => unknown_label(catalog, patterns_of(e)),
    }
}

/// The variable of a node that is spelled nearly so.
pub(crate) fn near_variable<'a>(scope: &Scope<'a>, name: &str) -> Option<&'a str> {
    for letters in 1..FAR {
        for declared in scope.declarations() {
            if are_apart(declared.name.as_str(), name, letters) {
                return Some(declared.name.as_str());
            }
        }
    }
    None
}

/// The name of an enumeration that is spelled nearly so.
fn near_label<'a>(program: &'a Program, name: &str) -> Option<&'a str> {
    for letters in 1..FAR {
        for declared in program.types.as_slice() {
            for label in declared.names.as_slice() {
                if are_apart(label.name.as_str(), name, letters) {
                    return Some(label.name.as_str());
                }
            }
        }
    }
    None
}

/// The type that is spelled nearly so.
fn near_type<'a>(program: &'a Program, name: &str) -> Option<&'a str> {
    for letters in 1..FAR {
        for built_in in ["int", "bool"] {
            if are_apart(built_in, name, letters) {
                return Some(built_in);
            }
        }
        for declared in program.types.as_slice() {
            if are_apart(declared.name.as_str(), name, letters) {
                return Some(declared.name.as_str());
            }
        }
    }
    None
}

/// The node that is spelled nearly so.
fn near_node<'a>(program: &'a Program, name: &str) -> Option<&'a str> {
    for letters in 1..FAR {
        for node in program.nodes.as_slice() {
            if are_apart(node.name.as_str(), name, letters) {
                return Some(node.name.as_str());
            }
        }
    }
    None
}

/// How a name is reported that is none of a variable, of an enumeration, of a node or of a type.
fn said_of_unknown<'a>(
    alloc: Global,
    program: &'a Program,
    scope: &Scope<'a>,
    name: &'a str,
) -> Result<Said, AllocError> {
    let named = Part::Name(name);
    let inside = Part::Name(scope.node().name.as_str());
    if let Some(habit) = habit_of_value(name) {
        let what = sentences::NO_VARIABLE.what;
        return say(alloc, Wording { what, mend: habit }, &[named, inside]);
    }
    let near = match near_variable(scope, name) {
        None => near_label(program, name),
        found => found,
    };
    let near = Part::Near(near);
    say(alloc, sentences::NO_VARIABLE, &[named, inside, near])
}

/// How a name is reported that is no variable of its node, where a variable stands.
fn said_of_variable<'a>(
    alloc: Global,
    program: &'a Program,
    scope: &Scope<'a>,
    name: &'a str,
) -> Result<Said, AllocError> {
    let named = Part::Name(name);
    let inside = Part::Name(scope.node().name.as_str());
    let types = program.types.as_slice();
    if let Some(declared) = type_of_label(types, name) {
        let of = Part::Name(declared.name.as_str());
        return say(alloc, sentences::LABEL_NO_VARIABLE, &[named, of, inside]);
    }
    if let Some(node) = node_named(program, name) {
        let count = Part::Count(node.inputs.as_slice().len(), sentences::ARGUMENT);
        return say(alloc, sentences::NODE_NO_VARIABLE, &[named, inside, count]);
    }
    for declared in types {
        if declared.name.is(name) {
            return say(alloc, sentences::TYPE_NO_VARIABLE, &[named, inside]);
        }
    }
    said_of_unknown(alloc, program, scope, name)
}

/// How a name is reported that is no name of an enumeration.
fn said_of_label<'a>(
    alloc: Global,
    program: &'a Program,
    name: &'a str,
) -> Result<Said, AllocError> {
    let near = Part::Near(near_label(program, name));
    say(alloc, sentences::NO_LABEL, &[Part::Name(name), near])
}

/// `E11` of an equation: its first name that isn't known.
pub(crate) fn unknown_name(alloc: Global, spot: &Spot) -> Result<Said, AllocError> {
    let program = spot.catalog.program();
    for x in spot.equation.left.as_slice() {
        if spot.scope.place(x.as_str()).is_none() {
            return said_of_variable(alloc, program, spot.scope, x.as_str());
        }
    }
    for e in spot.parts {
        if let Some(name) = variable_of(*e) {
            if spot.scope.place(name).is_none() {
                return said_of_variable(alloc, program, spot.scope, name);
            }
        }
        if let Some(name) = unknown_label_at(spot.catalog, *e) {
            return said_of_label(alloc, program, name);
        }
    }
    say(alloc, sentences::UNKNOWN_NAME, &[])
}

/// The token at which a part names a variable outside of its parts, if it does.
fn variable_token(e: &Expr, start: usize) -> usize {
    match e {
        Expr::When(_, _) => operand_start(e, start, 1),
        Expr::Current(_) | Expr::Merge(_, _, _) => start.saturating_add(1),
        _ => start,
    }
}

/// The token of the first name of an enumeration outside of an expression's parts that isn't known.
fn label_token(catalog: &Catalog, e: &Expr, start: usize) -> usize {
    match e {
        Expr::When(_, _) => operand_start(e, start, 1).saturating_sub(1),
        Expr::Merge(_, patterns, _) => {
            for (i, pattern) in patterns.as_slice().iter().enumerate() {
                if unknown_label(catalog, slice::from_ref(pattern)).is_some() {
                    return operand_start(e, start, i).saturating_sub(2);
                }
            }
            start
        }
        _ => start,
    }
}

/// The token of the first name of an equation that isn't known.
pub(crate) fn name_token(spot: &Spot) -> usize {
    for (i, x) in spot.equation.left.as_slice().iter().enumerate() {
        if spot.scope.place(x.as_str()).is_none() {
            return i.saturating_mul(2);
        }
    }
    for (i, e) in spot.parts.iter().enumerate() {
        let start = start_of_part(spot, i);
        if let Some(name) = variable_of(*e) {
            if spot.scope.place(name).is_none() {
                return variable_token(*e, start);
            }
        }
        if unknown_label_at(spot.catalog, *e).is_some() {
            return label_token(spot.catalog, *e, start);
        }
    }
    0
}

/// The token of the first call in an equation of this node, or, where none is given, of one that isn't known.
pub(crate) fn call_token(spot: &Spot, node: Option<&str>) -> usize {
    for (i, e) in spot.parts.iter().enumerate() {
        if let Expr::Call(f, _) = *e {
            let is_it = match node {
                Some(name) => f.is(name),
                None => spot.catalog.find(f.as_str()).is_none(),
            };
            if is_it {
                return start_of_part(spot, i);
            }
        }
    }
    0
}

/// The token of the first variable on the left of an equation that it may not define, by itself, or because
/// an equation before it does.
pub(crate) fn defined_token(alloc: Global, spot: &Spot) -> Result<usize, AllocError> {
    let left = spot.equation.left.as_slice();
    let places = places_of(alloc, left)?;
    for (i, x) in left.iter().enumerate() {
        if spot.scope.is_input(x.as_str()) || places.find(x.as_str()) != Some(i) {
            return Ok(i.saturating_mul(2));
        }
    }
    for other in spot.scope.node().equations.as_slice() {
        if other.byte == spot.equation.byte {
            break;
        }
        for x in other.left.as_slice() {
            if let Some(i) = places.find(x.as_str()) {
                return Ok(i.saturating_mul(2));
            }
        }
    }
    Ok(0)
}

/// How a name is reported that is no type.
fn said_of_type<'a>(
    alloc: Global,
    program: &'a Program,
    name: &'a str,
) -> Result<Said, AllocError> {
    if let Some(habit) = habit_of_type(name) {
        let what = sentences::NO_TYPE.what;
        return say(alloc, Wording { what, mend: habit }, &[Part::Name(name)]);
    }
    let near = Part::Near(near_type(program, name));
    say(alloc, sentences::NO_TYPE, &[Part::Name(name), near])
}

/// `E11` of a declaration: its first name that isn't known.
pub(crate) fn unknown_declared<'a>(
    alloc: Global,
    catalog: &Catalog<'a>,
    scope: &Scope<'a>,
    declared: &'a Declaration,
) -> Result<Said, AllocError> {
    let program = catalog.program();
    if let Some(name) = &declared.type_name {
        if catalog.type_place(name.as_str()).is_none() {
            return said_of_type(alloc, program, name.as_str());
        }
    }
    if let Some(clock) = &declared.clock {
        if scope.place(clock.variable.as_str()).is_none() {
            return said_of_variable(alloc, program, scope, clock.variable.as_str());
        }
        if let Some(name) = unknown_label(catalog, slice::from_ref(&clock.pattern)) {
            return said_of_label(alloc, program, name);
        }
    }
    say(alloc, sentences::UNKNOWN_NAME, &[])
}

/// How a name is reported that is called and is no node.
fn said_of_call<'a>(alloc: Global, spot: &Spot<'_, 'a>, f: &'a str) -> Result<Said, AllocError> {
    let program = spot.catalog.program();
    let name = Part::Name(f);
    if let Some(declared) = type_of_label(program.types.as_slice(), f) {
        let of = Part::Name(declared.name.as_str());
        return say(alloc, sentences::LABEL_NO_NODE, &[name, of]);
    }
    if spot.scope.place(f).is_some() {
        let node = Part::Name(spot.scope.node().name.as_str());
        return say(alloc, sentences::VARIABLE_NO_NODE, &[name, node]);
    }
    if let Some(habit) = habit_of_call(f) {
        let what = sentences::NO_NODE.what;
        return say(alloc, Wording { what, mend: habit }, &[name]);
    }
    let near = Part::Near(near_node(program, f));
    say(alloc, sentences::NO_NODE, &[name, near])
}

/// `E12`
pub(crate) fn unknown_node(alloc: Global, spot: &Spot) -> Result<Said, AllocError> {
    for e in spot.parts {
        if let Expr::Call(f, _) = *e {
            if spot.catalog.find(f.as_str()).is_none() {
                return said_of_call(alloc, spot, f.as_str());
            }
        }
    }
    say(alloc, sentences::UNKNOWN_NODE, &[])
}

/// `E15`
pub(crate) fn undefined<'a>(
    alloc: Global,
    node: &'a Node,
    declared: &'a Declaration,
) -> Result<Said, AllocError> {
    say(
        alloc,
        sentences::NO_EQUATION,
        &[
            Part::Words(role_at(node, declared.byte)),
            Part::Name(declared.name.as_str()),
            Part::Name(node.name.as_str()),
        ],
    )
}

/// The names on the left of an equation, by their places.
fn places_of<'a>(alloc: Global, left: &'a [Name]) -> Result<Places<'a>, AllocError> {
    let mut names = Vec::new(alloc);
    for x in left {
        names.push(x.as_str())?;
    }
    Places::new(alloc, names)
}

/// `E16`, by the places of the names that the equation defines: the first variable that it may not define, by
/// itself, or because an equation before it does.
fn said_of_defined(
    alloc: Global,
    text: &[u8],
    spot: &Spot,
    places: &Places,
) -> Result<Said, AllocError> {
    let node = spot.scope.node();
    for (i, x) in spot.equation.left.as_slice().iter().enumerate() {
        let name = Part::Name(x.as_str());
        if spot.scope.is_input(x.as_str()) {
            let node = Part::Name(node.name.as_str());
            return say(alloc, sentences::INPUT_DEFINED, &[name, node]);
        }
        if places.find(x.as_str()) != Some(i) {
            return say(alloc, sentences::TWICE_ON_LEFT, &[name]);
        }
    }
    for other in node.equations.as_slice() {
        if other.byte == spot.equation.byte {
            break;
        }
        for x in other.left.as_slice() {
            if places.has(x.as_str()) {
                let line = Part::Number(line_of(text, other.byte));
                let name = Part::Name(x.as_str());
                return say(alloc, sentences::DEFINED_BEFORE, &[name, line]);
            }
        }
    }
    say(alloc, sentences::DEFINED_TWICE, &[])
}

/// `E16`
pub(crate) fn defined_twice(alloc: Global, text: &[u8], spot: &Spot) -> Result<Said, AllocError> {
    let places = places_of(alloc, spot.equation.left.as_slice())?;
    said_of_defined(alloc, text, spot, &places)
}

/// The nodes on a way from one back to itself, each calling the next.
fn way_of<'a>(
    alloc: Global,
    catalog: &Catalog<'a>,
    place: usize,
) -> Result<Vec<&'a str>, AllocError> {
    let way = circle(alloc, &graph_of(alloc, catalog)?, place)?;
    let mut names = Vec::new(alloc);
    for place in &way {
        if let Some(node) = catalog.program().nodes.as_slice().get(*place) {
            names.push(node.name.as_str())?;
        }
    }
    Ok(names)
}

/// How a circle of calls is reported.
fn said_of_calls<'a>(alloc: Global, names: &'a [&'a str]) -> Result<Said, AllocError> {
    let circle = Part::Circle(names, sentences::CALLS);
    say(alloc, sentences::CIRCLE_OF_CALLS, &[circle])
}

/// `E17`
pub(crate) fn recursive(
    alloc: Global,
    error: &StatError,
    catalog: &Catalog,
) -> Result<Said, AllocError> {
    for (place, node) in catalog.program().nodes.as_slice().iter().enumerate() {
        if node.byte == error.byte() {
            let names = way_of(alloc, catalog, place)?;
            return said_of_calls(alloc, names.as_slice());
        }
    }
    say(alloc, sentences::RECURSIVE_NODE, &[])
}

/// `E18`
pub(crate) fn no_main<'a>(
    alloc: Global,
    program: &'a Program,
    main: &'a str,
) -> Result<Said, AllocError> {
    let nodes = program.nodes.as_slice();
    let name = Part::Name(main);
    if nodes.is_empty() {
        return say(alloc, sentences::NO_NODES, &[name]);
    }
    let near = Part::Near(near_node(program, main));
    let wording = match nodes {
        [_] => sentences::NO_OTHER_MAIN,
        _ => sentences::NO_MAIN,
    };
    say(alloc, wording, &[name, Part::Nodes(nodes), near])
}
