//! The rules of clocks: `E20` to `E23`.

use crate::find::{Spot, role_at, start_of_part};
use crate::said::{Said, say};
use crate::sentences::{self, Wording};
use crate::tokens::{operand_start, right_start};
use crate::words::{ClockWording, Part};
use lustat_rules::{ClockRef, PatternRef, Scope};
use lutree::{Declaration, Expr, Kind, Node, Pattern, Program};
use std::alloc::{AllocError, Global};
use std::slice;

/// Two things of one equation that stand on two clocks.
#[derive(Clone, Copy)]
struct Apart<'a> {
    first: Side<'a>,
    on: ClockRef<'a>,
    second: Side<'a>,
    other: ClockRef<'a>,
    /// The number of what is at fault among the operands, and then the token that it begins with.
    at: usize,
}

/// What stands on a clock.
#[derive(Clone, Copy)]
enum Side<'a> {
    Value(&'a Expr),
    Variable(&'a str),
    /// The branch of a merge whose pattern is that of the clock.
    Branch,
    /// The right side of an equation.
    Right,
}

/// How what stands on a clock is reported in a sentence.
fn side_part<'a>(side: Side<'a>, clock: ClockRef<'a>) -> Part<'a> {
    match side {
        Side::Value(e) => Part::Value(e),
        Side::Variable(x) => Part::Name(x),
        Side::Branch => Part::Clock(clock, ClockWording::Branch),
        Side::Right => Part::Words(sentences::RIGHT_SIDE),
    }
}

/// The clock that an expression stands on, if it fits one; none where it may stand on any, or names no
/// variable.
fn clock_of<'a>(scope: &Scope<'a>, e: &'a Expr) -> Option<ClockRef<'a>> {
    match e {
        Expr::Number(_) | Expr::Truth(_) | Expr::Label(_) => None,
        Expr::Variable(x) => scope.clock(x.as_str()),
        Expr::Merge(x, _, _) => scope.clock(x.as_str()),
        Expr::Unary(_, a) => clock_of(scope, a),
        Expr::Binary(_, a, b) => match clock_of(scope, a) {
            None => clock_of(scope, b),
            found => found,
        },
        Expr::If(c, a, b) => match clock_of(scope, c) {
            None => match clock_of(scope, a) {
                None => clock_of(scope, b),
                found => found,
            },
            found => found,
        },
        Expr::When(_, clock) => Some(ClockRef::of(clock)),
        Expr::Current(x) => match scope.clock(x.as_str())? {
            ClockRef::On(c, _) => scope.clock(c),
            ClockRef::Base => None,
        },
        Expr::Call(_, arguments) => {
            for argument in arguments {
                let found = clock_of(scope, argument);
                if found.is_some() {
                    return found;
                }
            }
            None
        }
    }
}

/// An expression that stands on another clock than something before it.
fn apart_with<'a>(
    scope: &Scope<'a>,
    first: &'a Expr,
    second: Side<'a>,
    other: ClockRef<'a>,
    at: usize,
) -> Option<Apart<'a>> {
    let on = clock_of(scope, first)?;
    if on.is(&other) {
        return None;
    }
    let first = Side::Value(first);
    Some(Apart {
        first,
        on,
        second,
        other,
        at,
    })
}

/// Two expressions on two clocks.
fn apart_of_two<'a>(scope: &Scope<'a>, a: &'a Expr, b: &'a Expr, at: usize) -> Option<Apart<'a>> {
    let other = clock_of(scope, b)?;
    apart_with(scope, a, Side::Value(b), other, at)
}

/// The first of some expressions with a clock and another on another clock.
fn apart_among<'a>(scope: &Scope<'a>, all: &'a [Expr]) -> Option<Apart<'a>> {
    for first in all {
        if clock_of(scope, first).is_some() {
            for (i, other) in all.iter().enumerate() {
                let found = apart_of_two(scope, first, other, i);
                if found.is_some() {
                    return found;
                }
            }
            return None;
        }
    }
    None
}

/// What stands on two clocks in a part of an expression, but for the parts inside it.
fn apart_at<'a>(scope: &Scope<'a>, e: &'a Expr) -> Option<Apart<'a>> {
    match e {
        Expr::Binary(_, a, b) => apart_of_two(scope, a, b, 1),
        Expr::If(c, a, b) => match apart_of_two(scope, c, a, 1) {
            None => match apart_of_two(scope, c, b, 2) {
                None => apart_of_two(scope, a, b, 2),
                found => found,
            },
            found => found,
        },
        Expr::When(a, clock) => {
            let name = clock.variable.as_str();
            apart_with(scope, a, Side::Variable(name), scope.clock(name)?, 1)
        }
        Expr::Merge(c, patterns, branches) => {
            let name = c.as_str();
            for (i, (pattern, branch)) in patterns.as_slice().iter().zip(branches).enumerate() {
                let other = ClockRef::On(name, PatternRef::of(pattern));
                let found = apart_with(scope, branch, Side::Branch, other, i);
                if found.is_some() {
                    return found;
                }
            }
            None
        }
        Expr::Call(_, arguments) => apart_among(scope, arguments),
        _ => None,
    }
}

/// A variable on the left and the right side, or two variables on the left, on two clocks.
fn apart_of_sides<'a>(spot: &Spot<'_, 'a>) -> Option<Apart<'a>> {
    let scope = spot.scope;
    let (x, others) = spot.equation.left.as_slice().split_first()?;
    let first = Side::Variable(x.as_str());
    let on = scope.clock(x.as_str())?;
    for (i, y) in others.iter().enumerate() {
        if let Some(other) = scope.clock(y.as_str()) {
            if !on.is(&other) {
                let second = Side::Variable(y.as_str());
                let at = i.saturating_add(1).saturating_mul(2);
                return Some(Apart {
                    first,
                    on,
                    second,
                    other,
                    at,
                });
            }
        }
    }
    let other = clock_of(scope, &spot.equation.right)?;
    if on.is(&other) {
        return None;
    }
    let second = Side::Right;
    let at = right_start(spot.equation.left.as_slice());
    Some(Apart {
        first,
        on,
        second,
        other,
        at,
    })
}

/// What stands on two clocks in an equation: first in its right side, then between its sides.
fn apart_in<'a>(spot: &Spot<'_, 'a>) -> Option<Apart<'a>> {
    for (i, e) in spot.parts.iter().enumerate() {
        if let Some(found) = apart_at(spot.scope, *e) {
            let at = operand_start(*e, start_of_part(spot, i), found.at);
            return Some(Apart { at, ..found });
        }
    }
    apart_of_sides(spot)
}

/// The first variable of a `current` in an equation that is on the base clock.
fn held_in<'a>(spot: &Spot<'_, 'a>) -> Option<&'a str> {
    for e in spot.parts {
        if let Expr::Current(x) = *e {
            if let Some(ClockRef::Base) = spot.scope.clock(x.as_str()) {
                return Some(x.as_str());
            }
        }
    }
    None
}

/// The token that is at fault where clocks don't agree.
pub(crate) fn apart_token(spot: &Spot) -> usize {
    for (i, e) in spot.parts.iter().enumerate() {
        if let Expr::Current(x) = *e {
            if let Some(ClockRef::Base) = spot.scope.clock(x.as_str()) {
                return start_of_part(spot, i);
            }
        }
    }
    match apart_in(spot) {
        Some(found) => found.at,
        None => 0,
    }
}

/// How two clocks are reported: of a variable and a right side that is on a clock, that the variable may be
/// declared on it.
fn wording_of(found: &Apart) -> Wording {
    match (found.second, found.other) {
        (Side::Right, ClockRef::On(_, _)) => sentences::SIDES_ON_TWO_CLOCKS,
        _ => sentences::TWO_CLOCKS,
    }
}

/// `E20`
pub(crate) fn mismatch(alloc: Global, spot: &Spot) -> Result<Said, AllocError> {
    if let Some(x) = held_in(spot) {
        return say(alloc, sentences::NOTHING_HELD, &[Part::Name(x)]);
    }
    match apart_in(spot) {
        Some(found) => say(
            alloc,
            wording_of(&found),
            &[
                side_part(found.first, found.on),
                Part::Clock(found.on, ClockWording::Clock),
                side_part(found.second, found.other),
                Part::Clock(found.other, ClockWording::Clock),
            ],
        ),
        None => say(alloc, sentences::CLOCK_MISMATCH, &[]),
    }
}

/// A variable that stands as a clock, of what type it is, and of what type it would have to be; none is a
/// type that no clock has.
#[derive(Clone, Copy)]
struct NoClock<'a> {
    variable: &'a str,
    found: Kind,
    wanted: Kind,
}

/// A variable that isn't of the type that one of some patterns asks for.
fn no_clock<'a>(scope: &Scope, variable: &'a str, patterns: &[Pattern]) -> Option<NoClock<'a>> {
    let found = scope.kind(variable)?;
    for pattern in patterns {
        let wanted = match pattern {
            Pattern::Truth(_) => Kind::Bool,
            Pattern::Label(label) => label.kind,
        };
        if found != wanted {
            return Some(NoClock {
                variable,
                found,
                wanted,
            });
        }
    }
    None
}

/// The token of the first variable that an equation names as a clock and that isn't one.
pub(crate) fn no_clock_token(spot: &Spot) -> usize {
    for (i, e) in spot.parts.iter().enumerate() {
        let start = start_of_part(spot, i);
        let (found, token) = match *e {
            Expr::When(_, clock) => {
                let asked = slice::from_ref(&clock.pattern);
                let found = no_clock(spot.scope, clock.variable.as_str(), asked);
                (found, operand_start(*e, start, 1))
            }
            Expr::Merge(x, patterns, _) => {
                let found = no_clock(spot.scope, x.as_str(), patterns.as_slice());
                (found, start.saturating_add(1))
            }
            _ => (None, start),
        };
        if found.is_some() {
            return token;
        }
    }
    0
}

/// The first variable that an equation names as a clock and that isn't one.
fn no_clock_in<'a>(spot: &Spot<'_, 'a>) -> Option<NoClock<'a>> {
    for e in spot.parts {
        let found = match *e {
            Expr::When(_, clock) => {
                let asked = slice::from_ref(&clock.pattern);
                no_clock(spot.scope, clock.variable.as_str(), asked)
            }
            Expr::Merge(x, patterns, _) => no_clock(spot.scope, x.as_str(), patterns.as_slice()),
            _ => None,
        };
        if found.is_some() {
            return found;
        }
    }
    None
}

fn said_of_no_clock<'a>(
    alloc: Global,
    program: &'a Program,
    found: &NoClock<'a>,
) -> Result<Said, AllocError> {
    say(
        alloc,
        sentences::OTHER_TYPE,
        &[
            Part::Name(found.variable),
            Part::Type(program, found.wanted),
            Part::Type(program, found.found),
        ],
    )
}

/// The variables from one to its clock, and on to the clock of that; at most eight, and the first once more
/// where it comes again.
fn chain_of<'a>(
    alloc: Global,
    scope: &Scope<'a>,
    declared: &'a Declaration,
) -> Result<Vec<&'a str>, AllocError> {
    let mut names = Vec::new(alloc);
    let mut at = declared;
    for _ in 0..8 {
        names.push(at.name.as_str())?;
        let Some(clock) = &at.clock else {
            break;
        };
        match scope.find(clock.variable.as_str()) {
            Some(next) => at = next,
            None => break,
        }
        if at.byte == declared.byte {
            names.push(at.name.as_str())?;
            break;
        }
    }
    Ok(names)
}

/// How a chain of clocks without an end is reported.
fn said_of_chain<'a>(alloc: Global, names: &'a [&'a str]) -> Result<Said, AllocError> {
    say(alloc, sentences::ENDLESS_CLOCKS, &[Part::Names(names)])
}

/// `E21` of a declared clock that isn't one.
pub(crate) fn not_a_clock<'a>(
    alloc: Global,
    program: &'a Program,
    scope: &Scope<'a>,
    declared: &'a Declaration,
) -> Result<Said, AllocError> {
    if let Some(clock) = &declared.clock {
        let asked = slice::from_ref(&clock.pattern);
        if let Some(found) = no_clock(scope, clock.variable.as_str(), asked) {
            return said_of_no_clock(alloc, program, &found);
        }
    }
    let names = chain_of(alloc, scope, declared)?;
    said_of_chain(alloc, names.as_slice())
}

/// `E21` of an equation.
pub(crate) fn no_clock_inside(alloc: Global, spot: &Spot) -> Result<Said, AllocError> {
    match no_clock_in(spot) {
        Some(found) => said_of_no_clock(alloc, spot.catalog.program(), &found),
        None => say(alloc, sentences::NOT_A_CLOCK, &[]),
    }
}

/// The clock of a declaration.
fn declared_clock(declared: &Declaration) -> ClockRef<'_> {
    match &declared.clock {
        None => ClockRef::Base,
        Some(clock) => ClockRef::of(clock),
    }
}

/// How a call of a main node with this clocked output is reported.
fn said_of_call<'a>(
    alloc: Global,
    main: &'a str,
    output: &'a Declaration,
) -> Result<Said, AllocError> {
    say(
        alloc,
        sentences::CLOCKED_MAIN,
        &[
            Part::Name(main),
            Part::Name(output.name.as_str()),
            Part::Clock(declared_clock(output), ClockWording::Clock),
        ],
    )
}

/// `E22` of an equation that calls the main node, of which an output is on a clock.
pub(crate) fn clocked_call(alloc: Global, spot: &Spot, main: &str) -> Result<Said, AllocError> {
    if let Some(scope) = spot.catalog.find(main) {
        for output in scope.node().outputs.as_slice() {
            if output.clock.is_some() {
                return said_of_call(alloc, main, output);
            }
        }
    }
    say(alloc, sentences::CLOCKED_PARAMETER, &[])
}

/// `E22` of a declaration.
pub(crate) fn clocked_parameter<'a>(
    alloc: Global,
    node: &'a Node,
    declared: &'a Declaration,
) -> Result<Said, AllocError> {
    say(
        alloc,
        sentences::CLOCKED_DECLARATION,
        &[
            Part::Words(role_at(node, declared.byte)),
            Part::Name(declared.name.as_str()),
            Part::Name(node.name.as_str()),
            Part::Clock(declared_clock(declared), ClockWording::Clock),
        ],
    )
}

/// `E23`
pub(crate) fn hidden(alloc: Global, declared: &Declaration) -> Result<Said, AllocError> {
    let Some(clock) = &declared.clock else {
        return say(alloc, sentences::HIDDEN_CLOCK, &[]);
    };
    let variable = Part::Name(clock.variable.as_str());
    say(
        alloc,
        sentences::LOCAL_CLOCK,
        &[
            Part::Name(declared.name.as_str()),
            Part::Clock(ClockRef::of(clock), ClockWording::Short),
            variable,
            variable,
        ],
    )
}
