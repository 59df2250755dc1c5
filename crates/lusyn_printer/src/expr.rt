//! Expressions.

ghost use Rattle.std.specs.Prelude.{◌≡◌, ◌++◌, ◌≤◌, IfOk, codes, map, string_bytes};
ghost use Rattle.lutree.specs.Tree.{view, views, trees_of};
ghost use Rattle.lusyn_grammar.specs.Printing.{written, writtens, placed, bare_pattern};
ghost use Rattle.lusyn_printer.specs.Canonical.{expression, operands, further, branches, branch_text, pattern_text, when_text};

use crate::levels::{level_of, put_infix, put_prefix};
use lubase::{Name, SharedName};
use lusyn_grammar::binding_of;
use lutree::{Condition, Expr, Pattern};
use std::alloc::AllocError;

/// `c`, `not c` or `A(c)`.
fn put_condition(text: &mut String, condition: &Condition) -> Result<(), AllocError>
    ensures { IfOk result (λ _. string_bytes text.new ≡ string_bytes text.old
        ++ pattern_text condition.now.pattern condition.now.variable) }
{
    match &condition.pattern {
        Pattern::Truth(true) => text.push_str(condition.variable.as_str()),
        Pattern::Truth(false) => {
            text.push_str("not ")?;
            text.push_str(condition.variable.as_str())
        }
        Pattern::Label(label) => {
            text.push_str(label.name.as_str())?;
            text.push('(')?;
            text.push_str(condition.variable.as_str())?;
            text.push(')')
        }
    }
}

/// ` when c`, ` when not c` or ` when A(c)`.
pub(crate) fn put_when(text: &mut String, condition: &Condition) -> Result<(), AllocError>
    ensures { IfOk result (λ _. string_bytes text.new ≡ string_bytes text.old
        ++ when_text condition.now) }
{
    text.push_str(" when ")?;
    put_condition(text, condition)
}

/// What a branch begins with: `true`, `false` or `A`.
fn put_pattern(text: &mut String, pattern: &Pattern) -> Result<(), AllocError>
    ensures { IfOk result (λ _. string_bytes text.new ≡ string_bytes text.old
        ++ branch_text pattern.now) }
{
    match pattern {
        Pattern::Truth(truth) => write!(text, "{truth}"),
        Pattern::Label(label) => text.push_str(label.name.as_str()),
    }
}

/// `current x`
fn put_current(text: &mut String, x: &Name) -> Result<(), AllocError>
    ensures { IfOk result (λ _. string_bytes text.new ≡ string_bytes text.old
        ++ (codes "current " ++ x.now)) }
{
    text.push_str("current ")?;
    text.push_str(x.as_str())
}

/// What a merge on this variable begins with: `merge x`
fn put_merge(text: &mut String, x: &SharedName) -> Result<(), AllocError>
    ensures { IfOk result (λ _. string_bytes text.new ≡ string_bytes text.old
        ++ (codes "merge " ++ x.now)) }
{
    text.push_str("merge ")?;
    text.push_str(x.as_str())
}

/// What a call of this node begins with: `f(`
fn put_called(text: &mut String, f: &Name) -> Result<(), AllocError>
    ensures { IfOk result (λ _. string_bytes text.new ≡ string_bytes text.old
        ++ (f.now ++ codes "(")) }
{
    text.push_str(f.as_str())?;
    text.push('(')
}

/// An expression in a place that asks for this level, in parentheses where it binds less tightly.
#[cycle(printing)]
fn put_operand(text: &mut String, e: &Expr, least: u8) -> Result<(), AllocError>
    ensures { IfOk result (λ _. string_bytes text.new ≡ string_bytes text.old
        ++ expression (placed least (written (view e.now)))) }
{
    if least <= level_of(e) {
        return put_expr(text, e);
    }
    text.push('(')?;
    put_expr(text, e)?;
    text.push(')')
}

/// Appends an expression in its canonical form: parentheses exactly where they are needed, one space between
/// the parts.
///
/// # Errors
///
/// An error means that memory ran out; then the text ends anywhere in what is appended.
#[cycle(printing)]
pub fn put_expr(text: &mut String, e: &Expr) -> Result<(), AllocError>
    ensures { IfOk result (λ _. string_bytes text.new ≡ string_bytes text.old
        ++ expression (written (view e.now))) }
{
    match e {
        Expr::Number(n) => write!(text, "{}", n.value()),
        Expr::Truth(truth) => write!(text, "{truth}"),
        Expr::Label(label) => text.push_str(label.name.as_str()),
        Expr::Variable(x) => text.push_str(x.as_str()),
        Expr::Current(x) => put_current(text, x),
        Expr::Unary(op, a) => {
            put_prefix(text, *op)?;
            put_operand(text, a, 8)
        }
        Expr::Binary(op, a, b) => {
            let binding = binding_of(*op);
            put_operand(text, a, binding.left)?;
            put_infix(text, *op)?;
            put_operand(text, b, binding.right)
        }
        Expr::If(a, b, c) => {
            text.push_str("if ")?;
            put_expr(text, a)?;
            text.push_str(" then ")?;
            put_expr(text, b)?;
            text.push_str(" else ")?;
            put_expr(text, c)
        }
        Expr::When(a, condition) => {
            put_operand(text, a, 9)?;
            put_when(text, condition)
        }
        Expr::Merge(x, patterns, branches) => {
            put_merge(text, x)?;
            put_branches(text, patterns.as_slice(), branches)
        }
        Expr::Call(f, arguments) => {
            put_called(text, f)?;
            put_operands(text, arguments)?;
            text.push_str(")")
        }
    }
}

/// `a, b`
#[cycle(printing)]
fn put_operands(text: &mut String, arguments: &[Expr]) -> Result<(), AllocError>
    ensures { IfOk result (λ _. string_bytes text.new ≡ string_bytes text.old
        ++ operands (writtens (trees_of (views arguments.now)))) }
{
    match arguments {
        [] => Ok(()),
        [first, others @ ..] => {
            put_expr(text, first)?;
            for other in others {
                text.push_str(", ")?;
                put_expr(text, other)?;
            }
            Ok(())
        }
    }
}

/// ` (A -> a) (B -> b)`
#[cycle(printing)]
fn put_branches(text: &mut String, patterns: &[Pattern], values: &[Expr]) -> Result<(), AllocError>
    ensures { IfOk result (λ _. string_bytes text.new ≡ string_bytes text.old
        ++ branches (writtens (trees_of (views values.now))) (map bare_pattern patterns.now)) }
{
    for (i, value) in values.iter().enumerate() {
        let Some(pattern) = patterns.get(i) else {
            return Ok(());
        };
        text.push_str(" (")?;
        put_pattern(text, pattern)?;
        text.push_str(" -> ")?;
        put_expr(text, value)?;
        text.push(')')?;
    }
    Ok(())
}
