//! The rules of initialisation: `E30` and `E31`.

use crate::find::{Spot, start_of_part};
use crate::hold::{Hold, put_hold};
use crate::said::{Said, say};
use crate::sentences;
use crate::tokens::{operand_start, right_start};
use crate::typing::kind_of;
use crate::words::{ClockWording, Part};
use lubase::Name;
use lustat_init::{is_one, least_classes, lefts_are_known, needs_met};
use lustat_rules::{ClockRef, PatternRef, Scope};
use lutree::{Expr, Infix, Kind, Prefix};
use std::alloc::{AllocError, Global};
use std::slice;

/// How many variables are followed from one to what it is computed from.
const FOLLOWED: usize = 8;

/// What needs a value at the first instant.
#[derive(Clone, Copy)]
enum Need<'a> {
    Output(&'a str),
    /// A variable that clocks name.
    Clock(&'a str),
    /// What stands behind `pre`.
    Before,
    /// What stands on the right of `fby`.
    FollowedBy,
    /// An argument of a call of this node.
    Argument(&'a str),
    /// A branch of a merge on this variable.
    Branch(&'a str),
    /// The variable of a `current`.
    Held(&'a str),
}

/// What needs a value, and the expression that may have none; of a `current` it is the whole.
#[derive(Clone, Copy)]
struct Gap<'a> {
    need: Need<'a>,
    part: &'a Expr,
    /// The number of the part among the operands, and then the token that it begins with.
    at: usize,
}

/// What may have no value at first in a part of an expression, but for the parts inside it, and needs one.
fn gap_at<'a>(scope: &Scope, marks: &[bool], e: &'a Expr) -> Option<Gap<'a>> {
    let (need, all) = match e {
        Expr::Unary(Prefix::Pre, part) => (Need::Before, slice::from_ref(&**part)),
        Expr::Binary(Infix::FollowedBy, _, part) => (Need::FollowedBy, slice::from_ref(&**part)),
        Expr::Merge(c, _, branches) => (Need::Branch(c.as_str()), branches.as_slice()),
        Expr::Call(f, arguments) => (Need::Argument(f.as_str()), arguments.as_slice()),
        Expr::Current(x) if !needs_met(scope, marks, e) => {
            let need = Need::Held(x.as_str());
            return Some(Gap {
                need,
                part: e,
                at: 0,
            });
        }
        _ => return None,
    };
    for (i, part) in all.iter().enumerate() {
        if is_one(scope, marks, part) {
            let at = match e {
                Expr::Binary(_, _, _) => 1,
                _ => i,
            };
            return Some(Gap { need, part, at });
        }
    }
    None
}

/// What needs the right side of an equation that defines these variables: an output, or else a clock.
fn need_of<'a>(scope: &Scope, left: &'a [Name]) -> Option<Need<'a>> {
    for x in left {
        if scope.is_output(x.as_str()) {
            return Some(Need::Output(x.as_str()));
        }
    }
    Some(Need::Clock(left.first()?.as_str()))
}

/// What may have no value at first in an equation, and needs one: first in its right side, then what it
/// defines.
fn gap_in<'a>(spot: &Spot<'_, 'a>, marks: &[bool]) -> Option<Gap<'a>> {
    for (i, e) in spot.parts.iter().enumerate() {
        if let Some(found) = gap_at(spot.scope, marks, *e) {
            let at = operand_start(*e, start_of_part(spot, i), found.at);
            return Some(Gap { at, ..found });
        }
    }
    let left = spot.equation.left.as_slice();
    let need = need_of(spot.scope, left)?;
    let part = &spot.equation.right;
    if is_one(spot.scope, marks, part) {
        let at = right_start(left);
        return Some(Gap { need, part, at });
    }
    None
}

/// The `pre` or the variable because of which an expression may have no value at first.
fn cause_of<'a>(scope: &Scope, marks: &[bool], e: &'a Expr) -> Option<&'a Expr> {
    match e {
        Expr::Unary(Prefix::Pre, _) => Some(e),
        Expr::Variable(_) if is_one(scope, marks, e) => Some(e),
        Expr::Unary(_, a) | Expr::When(a, _) => cause_of(scope, marks, a),
        Expr::Binary(Infix::Data(_), a, b) => match cause_of(scope, marks, a) {
            None => cause_of(scope, marks, b),
            found => found,
        },
        Expr::Binary(_, a, _) => cause_of(scope, marks, a),
        Expr::If(c, a, b) => match cause_of(scope, marks, c) {
            None => match cause_of(scope, marks, a) {
                None => cause_of(scope, marks, b),
                found => found,
            },
            found => found,
        },
        _ => None,
    }
}

/// The right side of the equation that defines a variable alone.
fn right_of<'a>(scope: &Scope<'a>, name: &str) -> Option<&'a Expr> {
    for equation in scope.node().equations.as_slice() {
        match equation.left.as_slice() {
            [x] if x.is(name) => return Some(&equation.right),
            _ => {}
        }
    }
    None
}

/// The `pre` that is at the bottom of it, through the variables in between; of many the first alone are
/// followed.
fn root_of<'a>(scope: &Scope<'a>, marks: &[bool], e: &'a Expr) -> &'a Expr {
    let mut at = e;
    for _ in 0..FOLLOWED {
        let Expr::Variable(x) = at else {
            return at;
        };
        let Some(right) = right_of(scope, x.as_str()) else {
            return at;
        };
        match cause_of(scope, marks, right) {
            Some(next) => at = next,
            None => return at,
        }
    }
    at
}

/// How what needs a value is reported in a sentence.
fn need_part(need: Need<'_>) -> Part<'_> {
    match need {
        Need::Output(y) => Part::Phrase(sentences::NEEDED_OUTPUT, y, ""),
        Need::Clock(c) => Part::Phrase(sentences::NAMED_AS_CLOCK, c, ""),
        Need::Before => Part::Words(sentences::BEHIND_PRE),
        Need::FollowedBy => Part::Words(sentences::BEHIND_FBY),
        Need::Argument(f) => Part::Phrase(sentences::ARGUMENT_OF, f, ""),
        Need::Branch(c) => Part::Phrase(sentences::BRANCH_OF, c, ""),
        Need::Held(v) => Part::Phrase(sentences::HELD_BY_CURRENT, v, ""),
    }
}

/// How a gap is reported, with its cause; with what has it, where no cause is seen.
fn said_of_gap<'a>(
    alloc: Global,
    spot: &Spot<'_, 'a>,
    marks: &[bool],
    gap: &Gap<'a>,
) -> Result<Said, AllocError> {
    let scope = spot.scope;
    let part = match gap.need {
        Need::Held(v) => right_of(scope, v).unwrap_or(gap.part),
        _ => gap.part,
    };
    let cause = cause_of(scope, marks, part).unwrap_or(gap.part);
    let root = root_of(scope, marks, cause);
    let kind = kind_of(spot, root).unwrap_or(Kind::Int);
    let start = Part::Start(spot.catalog.program(), kind);
    say(
        alloc,
        sentences::NEEDED_VALUE,
        &[Part::Value(root), need_part(gap.need), start, start],
    )
}

/// The token of what may have no value at first and needs one.
pub(crate) fn gap_token(alloc: Global, spot: &Spot) -> Result<usize, AllocError> {
    if !lefts_are_known(spot.scope) {
        return Ok(0);
    }
    let marks = least_classes(alloc, spot.scope)?;
    match gap_in(spot, &marks) {
        Some(gap) => Ok(gap.at),
        None => Ok(0),
    }
}

/// `E30`
pub(crate) fn maybe_nil(alloc: Global, spot: &Spot) -> Result<Said, AllocError> {
    if !lefts_are_known(spot.scope) {
        return say(alloc, sentences::MAYBE_NIL, &[]);
    }
    let marks = least_classes(alloc, spot.scope)?;
    match gap_in(spot, &marks) {
        Some(gap) => said_of_gap(alloc, spot, &marks, &gap),
        None => say(alloc, sentences::MAYBE_NIL, &[]),
    }
}

/// Whether an expression is the constant that a pattern asks for.
fn is_constant(e: &Expr, pattern: PatternRef) -> bool {
    match (e, pattern) {
        (Expr::Truth(truth), PatternRef::Truth(asked)) => *truth == asked,
        (Expr::Label(label), PatternRef::Label(asked)) => {
            label.name.as_str() == asked.name.as_str()
        }
        _ => false,
    }
}

/// Whether the equation of a clock's variable begins with the constant that a pattern asks for.
fn is_begun(scope: &Scope, clock: &str, pattern: PatternRef) -> bool {
    match right_of(scope, clock) {
        Some(Expr::Binary(Infix::Arrow | Infix::FollowedBy, first, _)) => {
            is_constant(first, pattern)
        }
        _ => false,
    }
}

/// What holds the variable of a `current`: the variable on the left, where the `current` is all of the right
/// side, or else a new one.
fn target_of<'a>(spot: &Spot<'_, 'a>) -> &'a str {
    if let (Expr::Current(_), [x]) = (&spot.equation.right, spot.equation.left.as_slice()) {
        return x.as_str();
    }
    for name in sentences::HELD {
        if spot.scope.place(name).is_none() {
            return name;
        }
    }
    sentences::HELD[0]
}

/// How a `current` is reported whose clock may be false at first, with what holds its variable.
fn said_of_hold<'a>(
    alloc: Global,
    is_input: bool,
    is_new: bool,
    hold: &Hold<'a>,
    written: &'a str,
) -> Result<Said, AllocError> {
    let held = Part::Name(hold.variable);
    let name = Part::Name(hold.clock);
    let clock = ClockRef::On(hold.clock, hold.pattern);
    let on = Part::Clock(clock, ClockWording::Clock);
    let sign = Part::Clock(clock, ClockWording::Sign);
    let written = Part::Words(written);
    let place = match is_new {
        true => Part::Phrase(sentences::BY_HELD, hold.target, ""),
        false => Part::Words(""),
    };
    let variable = Part::Cut(hold.clock);
    if is_input {
        let parts = [held, on, name, written, place, sign, variable];
        return say(alloc, sentences::CLOCK_OF_INPUT, &parts);
    }
    let parts = [held, on, name, sign, written, place, variable, sign];
    say(alloc, sentences::CLOCK_WITHOUT_START, &parts)
}

/// How a `current` of a variable is reported whose clock may be false at first.
fn said_of_held(
    alloc: Global,
    spot: &Spot,
    variable: &str,
    clock: &str,
    pattern: PatternRef,
) -> Result<Said, AllocError> {
    let (Some(kind), Some(clock_kind)) = (spot.scope.kind(variable), spot.scope.kind(clock)) else {
        return say(alloc, sentences::CURRENT_MAY_BE_NIL, &[]);
    };
    let hold = Hold {
        program: spot.catalog.program(),
        variable,
        kind,
        clock,
        clock_kind,
        pattern,
        target: target_of(spot),
    };
    let mut written = String::new(alloc);
    put_hold(&mut written, &hold)?;
    let is_new = match spot.equation.right {
        Expr::Current(_) => false,
        _ => true,
    };
    let is_input = spot.scope.is_input(clock);
    said_of_hold(alloc, is_input, is_new, &hold, written.as_str())
}

/// The token of the first `current` in an equation of a variable whose clock may be false at first.
pub(crate) fn current_token(spot: &Spot) -> usize {
    for (i, e) in spot.parts.iter().enumerate() {
        if let Expr::Current(x) = *e {
            if let Some(ClockRef::On(clock, pattern)) = spot.scope.clock(x.as_str()) {
                if !is_begun(spot.scope, clock, pattern) {
                    return start_of_part(spot, i);
                }
            }
        }
    }
    0
}

/// `E31`: the first variable of a `current` in an equation whose clock may be false at first.
pub(crate) fn current_nil(alloc: Global, spot: &Spot) -> Result<Said, AllocError> {
    for e in spot.parts {
        if let Expr::Current(x) = *e {
            if let Some(ClockRef::On(clock, pattern)) = spot.scope.clock(x.as_str()) {
                if !is_begun(spot.scope, clock, pattern) {
                    return said_of_held(alloc, spot, x.as_str(), clock, pattern);
                }
            }
        }
    }
    say(alloc, sentences::CURRENT_MAY_BE_NIL, &[])
}
