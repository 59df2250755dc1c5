//! The rule of types, `E13`.

use crate::find::{Spot, called, start_of_part};
use crate::said::{Said, say};
use crate::sentences;
use crate::tokens::{operand_start, right_start};
use crate::words::Part;
use lubase::Name;
use lusyn_grammar::{infix_token, prefix_token};
use lutree::{Declaration, Expr, Infix, Kind, Prefix};
use lutype::{asked_kind, kind_of_result, kind_of_unary};
use std::alloc::{AllocError, Global};

/// Two things that have to be of one type and aren't, with their types.
#[derive(Clone, Copy)]
struct Clash<'a> {
    first: Side<'a>,
    wanted: Kind,
    second: Side<'a>,
    found: Kind,
    /// The number of the second among the operands, and then the token that it begins with.
    at: usize,
}

/// What is of a type.
#[derive(Clone, Copy)]
enum Side<'a> {
    Value(&'a Expr),
    /// What the operator takes that is spelled so.
    Operand(&'a str),
    /// The condition of an `if`.
    Condition,
    /// An input of the node of this name.
    Input(&'a Declaration, &'a Name),
    /// An output of the node of this name.
    Output(&'a Declaration, &'a Name),
    Variable(&'a Name),
    /// The right side of an equation.
    Right,
}

/// How what is of a type is reported in a sentence.
fn side_part(side: Side<'_>) -> Part<'_> {
    match side {
        Side::Value(e) => Part::Value(e),
        Side::Operand(sign) => Part::Phrase(sentences::OPERAND, sign, ""),
        Side::Condition => Part::Words(sentences::CONDITION),
        Side::Input(input, f) => {
            Part::Phrase(sentences::INPUT_OF, input.name.as_str(), f.as_str())
        }
        Side::Output(output, f) => {
            Part::Phrase(sentences::OUTPUT_OF, output.name.as_str(), f.as_str())
        }
        Side::Variable(x) => Part::Name(x.as_str()),
        Side::Right => Part::Words(sentences::RIGHT_SIDE),
    }
}

/// The type that an expression has if it has one, by its form.
pub(crate) fn kind_of(spot: &Spot, e: &Expr) -> Option<Kind> {
    match e {
        Expr::Number(_) => Some(Kind::Int),
        Expr::Truth(_) => Some(Kind::Bool),
        Expr::Label(label) => Some(label.kind),
        Expr::Variable(x) | Expr::Current(x) => spot.scope.kind(x.as_str()),
        Expr::Unary(Prefix::Data(op), _) => Some(kind_of_unary(*op)),
        Expr::Binary(Infix::Data(op), _, _) => Some(kind_of_result(*op)),
        Expr::Unary(_, a) | Expr::Binary(_, a, _) | Expr::If(_, a, _) | Expr::When(a, _) => {
            kind_of(spot, a)
        }
        Expr::Merge(_, _, branches) => match branches.as_slice() {
            [first, ..] => kind_of(spot, first),
            [] => None,
        },
        Expr::Call(f, _) => match called(spot, f)?.outputs.as_slice() {
            [output, ..] => Some(output.kind),
            [] => None,
        },
    }
}

/// An expression that isn't of the type that something else has.
fn clash_with<'a>(
    spot: &Spot<'_, 'a>,
    first: Side<'a>,
    wanted: Kind,
    e: &'a Expr,
    at: usize,
) -> Option<Clash<'a>> {
    let found = kind_of(spot, e)?;
    if found == wanted {
        return None;
    }
    let second = Side::Value(e);
    Some(Clash {
        first,
        wanted,
        second,
        found,
        at,
    })
}

/// Two expressions of two types.
fn clash_of_two<'a>(spot: &Spot<'_, 'a>, a: &'a Expr, b: &'a Expr, at: usize) -> Option<Clash<'a>> {
    let kind = kind_of(spot, a)?;
    clash_with(spot, Side::Value(a), kind, b, at)
}

/// An argument that isn't of the type of its input.
fn clash_of_arguments<'a>(
    spot: &Spot<'_, 'a>,
    f: &'a Name,
    arguments: &'a [Expr],
) -> Option<Clash<'a>> {
    let inputs = called(spot, f)?.inputs.as_slice();
    for (i, (input, e)) in inputs.iter().zip(arguments).enumerate() {
        let found = clash_with(spot, Side::Input(input, f), input.kind, e, i);
        if found.is_some() {
            return found;
        }
    }
    None
}

/// What doesn't agree in a part of an expression, but for the parts inside it.
fn clash_at<'a>(spot: &Spot<'_, 'a>, e: &'a Expr) -> Option<Clash<'a>> {
    match e {
        Expr::Unary(Prefix::Data(op), a) => {
            let side = Side::Operand(prefix_token(Prefix::Data(*op)).text());
            clash_with(spot, side, kind_of_unary(*op), a, 0)
        }
        Expr::Binary(Infix::Data(op), a, b) => match asked_kind(*op) {
            Some(asked) => {
                let side = Side::Operand(infix_token(Infix::Data(*op)).text());
                match clash_with(spot, side, asked, a, 0) {
                    None => clash_with(spot, side, asked, b, 1),
                    found => found,
                }
            }
            None => clash_of_two(spot, a, b, 1),
        },
        Expr::Binary(_, a, b) => clash_of_two(spot, a, b, 1),
        Expr::If(c, a, b) => {
            match clash_with(spot, Side::Condition, Kind::Bool, c, 0) {
                None => clash_of_two(spot, a, b, 2),
                found => found,
            }
        }
        Expr::Merge(_, _, branches) => {
            let (first, others) = branches.as_slice().split_first()?;
            for (i, other) in others.iter().enumerate() {
                let found = clash_of_two(spot, first, other, i.saturating_add(1));
                if found.is_some() {
                    return found;
                }
            }
            None
        }
        Expr::Call(f, arguments) => clash_of_arguments(spot, f, arguments),
        _ => None,
    }
}

/// A variable on the left that isn't of the type of something on the right.
fn clash_of_variable<'a>(
    spot: &Spot<'_, 'a>,
    x: &'a Name,
    second: Side<'a>,
    found: Kind,
    at: usize,
) -> Option<Clash<'a>> {
    let wanted = spot.scope.kind(x.as_str())?;
    if wanted == found {
        return None;
    }
    let first = Side::Variable(x);
    Some(Clash {
        first,
        wanted,
        second,
        found,
        at,
    })
}

/// What doesn't agree between the sides of an equation.
fn clash_of_sides<'a>(spot: &Spot<'_, 'a>) -> Option<Clash<'a>> {
    let left = spot.equation.left.as_slice();
    let at = right_start(left);
    if let Expr::Call(f, _) = &spot.equation.right {
        for (x, output) in left.iter().zip(called(spot, f)?.outputs.as_slice()) {
            let side = Side::Output(output, f);
            let found = clash_of_variable(spot, x, side, output.kind, at);
            if found.is_some() {
                return found;
            }
        }
        return None;
    }
    let kind = kind_of(spot, &spot.equation.right)?;
    clash_of_variable(spot, left.first()?, Side::Right, kind, at)
}

/// What doesn't agree in an equation: first in its right side, then between its sides.
fn clash_in<'a>(spot: &Spot<'_, 'a>) -> Option<Clash<'a>> {
    for (i, e) in spot.parts.iter().enumerate() {
        if let Some(found) = clash_at(spot, *e) {
            let at = operand_start(*e, start_of_part(spot, i), found.at);
            return Some(Clash { at, ..found });
        }
    }
    clash_of_sides(spot)
}

/// The token that is at fault where types don't agree.
pub(crate) fn clash_token(spot: &Spot) -> usize {
    match clash_in(spot) {
        Some(clash) => clash.at,
        None => 0,
    }
}

/// `E13`
pub(crate) fn mismatch(alloc: Global, spot: &Spot) -> Result<Said, AllocError> {
    let Some(clash) = clash_in(spot) else {
        return say(alloc, sentences::TYPE_MISMATCH, &[]);
    };
    let wording = match (clash.wanted, clash.found) {
        (Kind::Int, Kind::Bool) => sentences::BOOL_FOR_INT,
        (Kind::Bool, Kind::Int) => sentences::INT_FOR_BOOL,
        _ => sentences::TWO_TYPES,
    };
    let program = spot.catalog.program();
    say(
        alloc,
        wording,
        &[
            side_part(clash.first),
            Part::Type(program, clash.wanted),
            side_part(clash.second),
            Part::Type(program, clash.found),
        ],
    )
}
