//! The rules of numbers: `E14`, and `E19`.

use crate::find::{Spot, called, start_of_part, type_at_place};
use crate::said::{Said, say};
use crate::sentences;
use crate::words::Part;
use lubase::Name;
use lutree::{DeclaredName, Expr, Kind, Pattern};
use std::alloc::{AllocError, Global};

/// What is wrong with how many there are.
#[derive(Clone, Copy)]
enum Number<'a> {
    /// A call of this node has so many arguments, and the node has so many inputs.
    Arguments(&'a str, usize, usize),
    /// A call of this node inside an expression gives so many values.
    Inside(&'a str, usize),
    /// So many variables stand on the left, and the right side has so many values.
    Sides(usize, usize),
}

/// What is wrong in an equation with how many there are: first in its calls, then in those inside an
/// expression, then between its sides.
fn wrong_in<'a>(spot: &Spot<'_, 'a>) -> Option<Number<'a>> {
    for e in spot.parts {
        if let Expr::Call(f, arguments) = *e {
            if let Some(node) = called(spot, f) {
                let wanted = node.inputs.as_slice().len();
                if arguments.len() != wanted {
                    return Some(Number::Arguments(f.as_str(), arguments.len(), wanted));
                }
            }
        }
    }
    if let [_, inner @ ..] = spot.parts {
        for e in inner {
            if let Expr::Call(f, _) = *e {
                if let Some(node) = called(spot, f) {
                    let values = node.outputs.as_slice().len();
                    if values != 1 {
                        return Some(Number::Inside(f.as_str(), values));
                    }
                }
            }
        }
    }
    let left = spot.equation.left.as_slice().len();
    let right = match &spot.equation.right {
        Expr::Call(f, _) => called(spot, f)?.outputs.as_slice().len(),
        _ => 1,
    };
    if left == right {
        return None;
    }
    Some(Number::Sides(left, right))
}

/// The token of the first call with a wrong number of arguments, or else of that inside an expression with a
/// wrong number of values.
pub(crate) fn arity_token(spot: &Spot) -> usize {
    let mut inside = 0_usize;
    for (i, e) in spot.parts.iter().enumerate() {
        if let Expr::Call(f, arguments) = *e {
            if let Some(node) = called(spot, f) {
                if arguments.len() != node.inputs.as_slice().len() {
                    return start_of_part(spot, i);
                }
                if i != 0 && inside == 0 && node.outputs.as_slice().len() != 1 {
                    inside = start_of_part(spot, i);
                }
            }
        }
    }
    inside
}

/// The token of the first merge whose branches aren't the names of the enumeration that its variable is of.
pub(crate) fn merge_token(spot: &Spot) -> usize {
    for (i, e) in spot.parts.iter().enumerate() {
        if let Expr::Merge(x, patterns, _) = *e {
            if let Some(Kind::Enum(place, count)) = spot.scope.kind(x.as_str()) {
                if let Some(declared) = type_at_place(spot.catalog.program(), place, count) {
                    if !are_names(patterns.as_slice(), declared.names.as_slice()) {
                        return start_of_part(spot, i);
                    }
                }
            }
        }
    }
    0
}

/// `E14`
pub(crate) fn wrong_arity(alloc: Global, spot: &Spot) -> Result<Said, AllocError> {
    match wrong_in(spot) {
        Some(Number::Arguments(f, given, wanted)) => say(
            alloc,
            sentences::ARGUMENTS,
            &[
                Part::Name(f),
                Part::Count(given, sentences::ARGUMENT),
                Part::Count(wanted, sentences::INPUT),
            ],
        ),
        Some(Number::Inside(f, values)) => say(
            alloc,
            sentences::INNER_VALUES,
            &[Part::Name(f), Part::Count(values, sentences::VALUE)],
        ),
        Some(Number::Sides(left, right)) => say(
            alloc,
            sentences::SIDES,
            &[
                Part::Count(left, sentences::VARIABLE),
                Part::Count(right, sentences::VALUE),
            ],
        ),
        None => say(alloc, sentences::WRONG_ARITY, &[]),
    }
}

/// Whether a pattern is a name of an enumeration that is spelled so.
fn is_named(pattern: &Pattern, name: &Name) -> bool {
    match pattern {
        Pattern::Label(label) => name.is(label.name.as_str()),
        Pattern::Truth(_) => false,
    }
}

/// Whether the patterns are the names of an enumeration, in order.
fn are_names(patterns: &[Pattern], names: &[DeclaredName]) -> bool {
    if patterns.len() != names.len() {
        return false;
    }
    for (pattern, declared) in patterns.iter().zip(names) {
        if !is_named(pattern, &declared.name) {
            return false;
        }
    }
    true
}

/// The first name of an enumeration that is none of the patterns.
fn missing<'a>(patterns: &[Pattern], names: &'a [DeclaredName]) -> Option<&'a str> {
    for declared in names {
        let mut is_among = false;
        for pattern in patterns {
            if is_named(pattern, &declared.name) {
                is_among = true;
            }
        }
        if !is_among {
            return Some(declared.name.as_str());
        }
    }
    None
}

/// How a merge on an enumeration is reported whose branches aren't the names of its type.
fn said_of_merge<'a>(
    alloc: Global,
    variable: &'a str,
    patterns: &[Pattern],
    names: &'a [DeclaredName],
) -> Result<Said, AllocError> {
    let variable = Part::Name(variable);
    let labels = Part::Labels(names);
    match missing(patterns, names) {
        Some(name) => say(
            alloc,
            sentences::MISSING_BRANCH,
            &[variable, Part::Name(name), labels],
        ),
        None => say(alloc, sentences::OTHER_BRANCHES, &[variable, labels]),
    }
}

/// `E19`: the first merge of an equation whose branches aren't the names of the enumeration that its variable
/// is of.
pub(crate) fn bad_merge(alloc: Global, spot: &Spot) -> Result<Said, AllocError> {
    for e in spot.parts {
        if let Expr::Merge(x, patterns, _) = *e {
            if let Some(Kind::Enum(place, count)) = spot.scope.kind(x.as_str()) {
                if let Some(declared) = type_at_place(spot.catalog.program(), place, count) {
                    let names = declared.names.as_slice();
                    if !are_names(patterns.as_slice(), names) {
                        return said_of_merge(alloc, x.as_str(), patterns.as_slice(), names);
                    }
                }
            }
        }
    }
    say(alloc, sentences::BAD_MERGE, &[])
}
