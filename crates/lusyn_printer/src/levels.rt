//! How tightly an expression binds, and how its operators are spelled.

ghost use Rattle.std.specs.Prelude.{◌≡◌, ◌++◌, codes, IfOk, string_bytes};
ghost use Rattle.lutree.specs.Tree.{view};
ghost use Rattle.lusyn_grammar.specs.Tokens.{text_of, prefix_token, infix_token};
ghost use Rattle.lusyn_grammar.specs.Grammar.{level_of};
ghost use Rattle.lusyn_grammar.specs.Printing.{written};

use lusyn_grammar::{binding_of, infix_token, prefix_token};
use lutree::{Expr, Infix, Prefix};
use std::alloc::AllocError;

/// How tightly an expression binds.
pub(crate) fn level_of(e: &Expr) -> u8
    ensures { result ≡ level_of (written (view e.now)) }
{
    match e {
        Expr::If(_, _, _) => 0,
        Expr::Binary(op, _, _) => binding_of(*op).level,
        Expr::Unary(_, _) | Expr::Current(_) => 8,
        Expr::When(_, _) => 9,
        _ => 10,
    }
}

/// An operator before its operand, with a space after it.
pub(crate) fn put_prefix(text: &mut String, op: Prefix) -> Result<(), AllocError>
    ensures { IfOk result (λ _. string_bytes text.new ≡ string_bytes text.old
        ++ (text_of (prefix_token op) ++ codes " ")) }
{
    text.push_str(prefix_token(op).text())?;
    text.push(' ')
}

/// An operator between its operands, with a space before it and after it.
pub(crate) fn put_infix(text: &mut String, op: Infix) -> Result<(), AllocError>
    ensures { IfOk result (λ _. string_bytes text.new ≡ string_bytes text.old
        ++ (codes " " ++ text_of (infix_token op) ++ codes " ")) }
{
    text.push(' ')?;
    text.push_str(infix_token(op).text())?;
    text.push(' ')
}
