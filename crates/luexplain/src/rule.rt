//! The static rules.

ghost use Rattle.std.specs.Prelude.{◌≡◌, IfOk, string_bytes};
ghost use Rattle.luexplain.specs.Explanations.{IsRulePlace, whole};

use crate::arity::{arity_token, bad_merge, merge_token, wrong_arity};
use crate::classes::{current_nil, current_token, gap_token, maybe_nil};
use crate::clocks::{
    apart_token, clocked_call, clocked_parameter, hidden, no_clock_inside, no_clock_token,
    not_a_clock,
};
use crate::find::{Spot, declaration_at, equation_at, push_parts};
use crate::naming::{
    call_token, defined_token, defined_twice, duplicate, duplicate_variable, name_token, no_main,
    recursive, undefined, unknown_declared, unknown_name, unknown_node,
};
use crate::place::where_in;
use crate::said::{Explanation, Said, reported, say, whole};
use crate::tokens::{byte_of_token, push_starts, right_start};
use crate::typing::clash_token;
use crate::{clocks, sentences, typing};
use lustat_rules::{Catalog, Scope, StatError};
use lutree::{Declaration, Equation, Program};
use std::alloc::{AllocError, Global};

/// What is said of a rule that an equation breaks, by its parts too.
fn said_of_spot(
    alloc: Global,
    text: &[u8],
    main: &str,
    error: &StatError,
    spot: &Spot,
) -> Result<Said, AllocError> {
    match error {
        StatError::UnknownName { .. } => unknown_name(alloc, spot),
        StatError::UnknownNode { .. } => unknown_node(alloc, spot),
        StatError::TypeMismatch { .. } => typing::mismatch(alloc, spot),
        StatError::WrongArity { .. } => wrong_arity(alloc, spot),
        StatError::DefinedTwice { .. } => defined_twice(alloc, text, spot),
        StatError::BadMerge { .. } => bad_merge(alloc, spot),
        StatError::ClockMismatch { .. } => clocks::mismatch(alloc, spot),
        StatError::NotAClock { .. } => no_clock_inside(alloc, spot),
        StatError::ClockedParameter { .. } => clocked_call(alloc, spot, main),
        StatError::MaybeNil { .. } => maybe_nil(alloc, spot),
        StatError::CurrentMayBeNil { .. } => current_nil(alloc, spot),
        _ => say(alloc, sentences::of_rule_alone(error), &[]),
    }
}

/// The token of an equation that is at fault (see `tokens`).
fn token_of_spot(
    alloc: Global,
    main: &str,
    error: &StatError,
    spot: &Spot,
) -> Result<usize, AllocError> {
    match error {
        StatError::UnknownName { .. } => Ok(name_token(spot)),
        StatError::UnknownNode { .. } => Ok(call_token(spot, None)),
        StatError::TypeMismatch { .. } => Ok(clash_token(spot)),
        StatError::WrongArity { .. } => Ok(arity_token(spot)),
        StatError::DefinedTwice { .. } => defined_token(alloc, spot),
        StatError::BadMerge { .. } => Ok(merge_token(spot)),
        StatError::ClockMismatch { .. } => Ok(apart_token(spot)),
        StatError::NotAClock { .. } => Ok(no_clock_token(spot)),
        StatError::ClockedParameter { .. } => Ok(call_token(spot, Some(main))),
        StatError::MaybeNil { .. } => gap_token(alloc, spot),
        StatError::CurrentMayBeNil { .. } => Ok(current_token(spot)),
        _ => Ok(0),
    }
}

/// What is said of a rule that an equation breaks, and the token that is at fault.
fn said_of_equation<'a>(
    alloc: Global,
    text: &[u8],
    main: &str,
    error: &StatError,
    catalog: &Catalog<'a>,
    scope: &Scope<'a>,
    equation: &'a Equation,
) -> Result<(Said, usize), AllocError> {
    let right = &equation.right;
    let mut parts = Vec::new(alloc);
    push_parts(right, &mut parts)?;
    let mut starts = Vec::new(alloc);
    push_starts(right, right_start(equation.left.as_slice()), &mut starts)?;
    let spot = Spot {
        catalog,
        scope,
        equation,
        parts: parts.as_slice(),
        starts: starts.as_slice(),
    };
    let token = token_of_spot(alloc, main, error, &spot)?;
    Ok((said_of_spot(alloc, text, main, error, &spot)?, token))
}

/// What is said of a rule that a declaration breaks.
fn said_of_declaration<'a>(
    alloc: Global,
    text: &[u8],
    error: &StatError,
    catalog: &Catalog<'a>,
    scope: &Scope<'a>,
    declared: &'a Declaration,
) -> Result<Said, AllocError> {
    let program = catalog.program();
    match error {
        StatError::DuplicateName { .. } => {
            duplicate_variable(alloc, text, program, scope, declared)
        }
        StatError::UnknownName { .. } => unknown_declared(alloc, catalog, scope, declared),
        StatError::Undefined { .. } => undefined(alloc, scope.node(), declared),
        StatError::NotAClock { .. } => not_a_clock(alloc, program, scope, declared),
        StatError::ClockedParameter { .. } => clocked_parameter(alloc, scope.node(), declared),
        StatError::HiddenClock { .. } => hidden(alloc, declared),
        _ => say(alloc, sentences::of_rule_alone(error), &[]),
    }
}

/// What is said of a rule that no equation breaks.
fn said_outside(
    alloc: Global,
    text: &[u8],
    catalog: &Catalog,
    main: &str,
    error: &StatError,
) -> Result<Said, AllocError> {
    match error {
        StatError::NoMain => return no_main(alloc, catalog.program(), main),
        StatError::OutOfMemory => return say(alloc, sentences::OUT_OF_MEMORY, &[]),
        StatError::RecursiveNode { .. } => return recursive(alloc, error, catalog),
        _ => {}
    }
    if let Some((scope, declared)) = declaration_at(catalog, error.byte()) {
        return said_of_declaration(alloc, text, error, catalog, scope, declared);
    }
    duplicate(alloc, error, text, catalog.program())
}

/// What is said of a rule that is broken, and the token of an equation that is at fault.
fn said_of_rule(
    alloc: Global,
    text: &[u8],
    catalog: &Catalog,
    main: &str,
    error: &StatError,
) -> Result<(Said, usize), AllocError> {
    let byte = error.byte();
    if let Some((scope, equation)) = equation_at(catalog, byte) {
        return said_of_equation(alloc, text, main, error, catalog, scope, equation);
    }
    Ok((said_outside(alloc, text, catalog, main, error)?, 0))
}

/// Where a rule is broken: at its byte, or, of an equation, at its token that is at fault; of the rule that
/// there is a main node, and where memory ran out, in the whole.
fn place_of_rule(
    alloc: Global,
    path: &str,
    text: &[u8],
    error: &StatError,
    token: usize,
) -> Result<String, AllocError>
    ensures { IfOk result (λ reported. IsRulePlace path.now text.now error.now
        (string_bytes reported)) }
{
    match error {
        StatError::NoMain | StatError::OutOfMemory => whole(alloc, path),
        StatError::DuplicateName { byte }
        | StatError::Undefined { byte }
        | StatError::RecursiveNode { byte }
        | StatError::HiddenClock { byte } => where_in(alloc, path, text, *byte),
        _ => {
            let byte = byte_of_token(alloc, text, error.byte(), token);
            where_in(alloc, path, text, byte)
        }
    }
}

/// What is said of a rule that a program breaks, and the token of an equation that is at fault.
fn said_in(
    alloc: Global,
    text: &[u8],
    program: &Program,
    main: &str,
    error: &StatError,
) -> Result<(Said, usize), AllocError> {
    let catalog = Catalog::new(alloc, program)?;
    said_of_rule(alloc, text, &catalog, main, error)
}

/// What a user reads where the static checks refuse a program: its place, what is wrong, and how to mend it.
/// The place is that of the error's byte, or, of a rule that an equation breaks, of the operand, the call or
/// the use in it that is at fault. `text` is the text of the file of this path, `program` is what it spells,
/// and `main` the name of the main node.
///
/// # Errors
///
/// An error means that memory ran out.
pub fn of_rule(
    alloc: Global,
    path: &str,
    text: &[u8],
    program: &Program,
    main: &str,
    error: &StatError,
) -> Result<Explanation, AllocError>
    ensures { IfOk result (λ reason. IsRulePlace path.now text.now error.now
        (string_bytes reason.place)) }
{
    let (said, token) = said_in(alloc, text, program, main, error)?;
    Ok(reported(place_of_rule(alloc, path, text, error, token)?, said))
}
