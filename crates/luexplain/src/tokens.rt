//! Where the parts of an equation stand among its tokens. Parentheses, which the tree doesn't keep, aren't
//! counted.

ghost use Rattle.std.specs.Prelude.{◌≡◌, ◌≤◌, length, drop};
ghost use Rattle.std.specs.List.{prefix_len};
ghost use Rattle.luexplain.specs.Explanations.{is_before_end, IsInEquation};

use lubase::Name;
use lusyn_grammar::{Fixed, Token, lex};
use lutree::{Condition, Expr, Pattern};
use std::alloc::{AllocError, Global};
use std::str;

/// How many tokens a clock has.
fn tokens_of_clock(clock: &Condition) -> usize {
    match clock.pattern {
        Pattern::Truth(true) => 1,
        _ => 2,
    }
}

/// How many tokens an expression has.
pub(crate) fn tokens_of(e: &Expr) -> usize {
    match e {
        Expr::Number(_) | Expr::Truth(_) | Expr::Label(_) | Expr::Variable(_) => 1,
        Expr::Current(_) => 2,
        Expr::Unary(_, a) => tokens_of(a).saturating_add(1),
        Expr::Binary(_, a, b) => tokens_of(a).saturating_add(tokens_of(b)).saturating_add(1),
        Expr::If(c, a, b) => tokens_of(c)
            .saturating_add(tokens_of(a))
            .saturating_add(tokens_of(b))
            .saturating_add(3),
        Expr::When(a, clock) => tokens_of(a)
            .saturating_add(tokens_of_clock(clock))
            .saturating_add(1),
        Expr::Merge(_, _, branches) => {
            let mut count = 2_usize;
            for branch in branches {
                count = count.saturating_add(tokens_of(branch)).saturating_add(2);
            }
            count
        }
        Expr::Call(_, arguments) => {
            let mut count = 1_usize;
            for (i, argument) in arguments.iter().enumerate() {
                let comma = if i == 0 { 0 } else { 1 };
                count = count
                    .saturating_add(tokens_of(argument))
                    .saturating_add(comma);
            }
            count
        }
    }
}

/// The first token of the expression of this number among several, each behind so many tokens, and with so
/// many between two.
fn start_among(all: &[Expr], number: usize, first: usize, between: usize) -> usize {
    let mut at = first;
    for (i, e) in all.iter().enumerate() {
        if i == number {
            break;
        }
        at = at.saturating_add(tokens_of(e)).saturating_add(between);
    }
    at
}

/// The first token of an operand, a branch or an argument, counted from 0 on; of the variable of a clock,
/// which is the second, behind what is sampled.
pub(crate) fn operand_start(e: &Expr, start: usize, number: usize) -> usize {
    match (e, number) {
        (Expr::Unary(_, _), _) => start.saturating_add(1),
        (Expr::Binary(_, a, _), 1) => start.saturating_add(tokens_of(a)).saturating_add(1),
        (Expr::If(_, _, _), 0) => start.saturating_add(1),
        (Expr::If(c, _, _), 1) => start.saturating_add(tokens_of(c)).saturating_add(2),
        (Expr::If(c, a, _), _) => start
            .saturating_add(tokens_of(c))
            .saturating_add(tokens_of(a))
            .saturating_add(3),
        (Expr::When(a, clock), 1) => start
            .saturating_add(tokens_of(a))
            .saturating_add(tokens_of_clock(clock)),
        (Expr::Merge(_, _, branches), _) => {
            start_among(branches, number, start.saturating_add(4), 2)
        }
        (Expr::Call(_, arguments), _) => {
            start_among(arguments, number, start.saturating_add(1), 1)
        }
        _ => start,
    }
}

/// The first token of the right side of an equation that defines these variables.
pub(crate) fn right_start(left: &[Name]) -> usize {
    left.len().saturating_mul(2)
}

/// The first tokens of the parts of an expression that begins at a token, in the order of `push_parts`,
/// behind those before.
pub(crate) fn push_starts(
    e: &Expr,
    start: usize,
    starts: &mut Vec<usize>,
) -> Result<(), AllocError> {
    if let Expr::When(a, _) = e {
        push_starts(a, start, starts)?;
    }
    starts.push(start)?;
    if let Expr::If(c, _, _) = e {
        push_starts(c, operand_start(e, start, 0), starts)?;
    }
    if let Expr::Binary(_, a, _) = e {
        push_starts(a, start, starts)?;
    }
    if let Expr::If(_, a, _) = e {
        push_starts(a, operand_start(e, start, 1), starts)?;
    }
    match e {
        Expr::Unary(_, last) | Expr::Binary(_, _, last) => {
            push_starts(last, operand_start(e, start, 1), starts)
        }
        Expr::If(_, _, last) => push_starts(last, operand_start(e, start, 2), starts),
        Expr::Merge(_, _, all) | Expr::Call(_, all) => {
            for (i, a) in all.iter().enumerate() {
                push_starts(a, operand_start(e, start, i), starts)?;
            }
            Ok(())
        }
        _ => Ok(()),
    }
}

/// The byte of the token of this number in a text, where it has it.
fn byte_in(alloc: Global, text: &[u8], number: usize) -> Option<usize> {
    let text = str::from_utf8(text).ok()?;
    let tokens = lex(alloc, text).ok()?;
    let mut count = 0_usize;
    for lexeme in &tokens {
        match lexeme.token {
            Token::Fixed(Fixed::Open | Fixed::Close) => {}
            _ if count == number => return Some(lexeme.place),
            _ => count = count.saturating_add(1),
        }
    }
    None
}

fn is_before_end(byte: u8) -> bool
    ensures { result ≡ is_before_end byte }
{
    byte != b';'
}

/// How many bytes stand at the front before a `;`.
fn length_of_equation(text: &[u8]) -> usize
    ensures length { result ≡ prefix_len is_before_end text.now }
    ensures within { result ≤ length text.now }
{
    text.iter().take_while(|byte| is_before_end(**byte)).count()
}

/// What stands from a byte on, up to the next `;`.
fn equation_from(text: &[u8], byte: usize) -> &[u8]
    ensures { length result.now ≤ prefix_len is_before_end (drop byte text.now) }
{
    if text.len() <= byte {
        return &[];
    }
    let behind = &text[byte..];
    &behind[..length_of_equation(behind)]
}

/// The byte of the token of this number of the equation that begins at a byte; the equation's own where that
/// isn't found before the next `;`.
pub(crate) fn byte_of_token(alloc: Global, text: &[u8], byte: usize, number: usize) -> usize
    ensures { IsInEquation text.now byte result }
{
    let equation = equation_from(text, byte);
    match byte_in(alloc, equation, number) {
        Some(offset) if offset <= equation.len() => byte.saturating_add(offset),
        _ => byte,
    }
}
