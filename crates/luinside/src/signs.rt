//! The signs of expressions: their tokens but parentheses and commas.

ghost use Rattle.std.specs.Prelude.{◌≡◌, ◌++◌, ◌∷◌, [], Some, IfOk, IfSome, map, option_map, slice_get, take};
ghost use Rattle.lutree.specs.Tree.{Tree, choice, view, views, trees_of};
ghost use Rattle.lusyn_grammar.specs.Tokens.{identifier, fixed, tok};
ghost use Rattle.lusyn_grammar.specs.Grammar.{truth_token};
ghost use Rattle.luinside.specs.Parts.{operands};
ghost use Rattle.luinside.specs.Signs as spec;

use lubase::Name;
use lusyn_grammar::{Fixed, Token, infix_token, prefix_token};
use lutree::{Condition, Expr, Pattern};
use std::alloc::AllocError;

/// Adds a keyword or a sign.
fn push_fixed(signs: &mut Vec<Token<'_>>, sign: Fixed) -> Result<(), AllocError>
    ensures { spec.Pushes result signs.old.items signs.new.items (fixed sign ∷ []) }
{
    signs.push(Token::Fixed(sign))?;
    Ok(())
}

/// Adds a name.
fn push_name<'t>(signs: &mut Vec<Token<'t>>, name: &'t str) -> Result<(), AllocError>
    ensures { spec.Pushes result signs.old.items signs.new.items (identifier name.now ∷ []) }
{
    signs.push(Token::Name(name))?;
    Ok(())
}

/// Adds `true` or `false`.
fn push_truth(signs: &mut Vec<Token<'_>>, truth: bool) -> Result<(), AllocError>
    ensures { spec.Pushes result signs.old.items signs.new.items (fixed (truth_token truth) ∷ []) }
{
    push_fixed(signs, if truth { Fixed::True } else { Fixed::False })
}

/// Adds `when` and a clock.
fn push_clock<'t>(signs: &mut Vec<Token<'t>>, clock: &'t Condition) -> Result<(), AllocError>
    ensures { spec.Pushes result signs.old.items signs.new.items (fixed Fixed.When
        ∷ spec.pattern_signs clock.now.pattern clock.now.variable) }
{
    push_fixed(signs, Fixed::When)?;
    match &clock.pattern {
        Pattern::Truth(true) => push_name(signs, clock.variable.as_str()),
        Pattern::Truth(false) => {
            push_fixed(signs, Fixed::Not)?;
            push_name(signs, clock.variable.as_str())
        }
        Pattern::Label(label) => {
            push_name(signs, label.name.as_str())?;
            push_name(signs, clock.variable.as_str())
        }
    }
}

/// Adds what a branch begins with.
fn push_pattern<'t>(signs: &mut Vec<Token<'t>>, pattern: &'t Pattern) -> Result<(), AllocError>
    ensures { spec.Pushes result signs.old.items signs.new.items (spec.branch_signs pattern.now) }
{
    match pattern {
        Pattern::Truth(truth) => push_truth(signs, *truth)?,
        Pattern::Label(label) => push_name(signs, label.name.as_str())?,
    }
    push_fixed(signs, Fixed::Arrow)
}

/// Adds a keyword and a name.
fn push_named<'t>(signs: &mut Vec<Token<'t>>, sign: Fixed, name: &'t str) -> Result<(), AllocError>
    ensures { spec.Pushes result signs.old.items signs.new.items (fixed sign
        ∷ identifier name.now ∷ []) }
{
    push_fixed(signs, sign)?;
    push_name(signs, name)
}

/// Adds the signs of an expression.
#[cycle(signs)]
fn push_signs<'t>(signs: &mut Vec<Token<'t>>, e: &'t Expr) -> Result<(), AllocError>
    ensures { spec.Pushes result signs.old.items signs.new.items (spec.signs (view e.now)) }
{
    match e {
        Expr::Number(n) => {
            signs.push(Token::Number(n.value()))?;
            Ok(())
        }
        Expr::Truth(truth) => push_truth(signs, *truth),
        Expr::Label(label) => push_name(signs, label.name.as_str()),
        Expr::Variable(x) => push_name(signs, x.as_str()),
        Expr::Current(x) => push_named(signs, Fixed::Current, x.as_str()),
        Expr::Unary(op, a) => {
            push_fixed(signs, prefix_token(*op))?;
            push_signs(signs, a)
        }
        Expr::Binary(op, a, b) => {
            push_signs(signs, a)?;
            push_fixed(signs, infix_token(*op))?;
            push_signs(signs, b)
        }
        Expr::If(c, a, b) => {
            push_fixed(signs, Fixed::If)?;
            push_signs(signs, c)?;
            push_fixed(signs, Fixed::Then)?;
            push_signs(signs, a)?;
            push_fixed(signs, Fixed::Else)?;
            push_signs(signs, b)
        }
        Expr::When(a, clock) => {
            push_signs(signs, a)?;
            push_clock(signs, clock)
        }
        Expr::Merge(x, patterns, branches) => {
            push_named(signs, Fixed::Merge, x.as_str())?;
            push_branches(signs, patterns.as_slice(), branches)
        }
        Expr::Call(f, arguments) => {
            push_name(signs, f.as_str())?;
            push_all_signs(signs, arguments)
        }
    }
}

/// Adds those of several expressions.
#[cycle(signs)]
fn push_all_signs<'t>(signs: &mut Vec<Token<'t>>, all: &'t [Expr]) -> Result<(), AllocError>
    ensures { spec.Pushes result signs.old.items signs.new.items (spec.all_signs (trees_of
        (views all.now))) }
{
    for e in all {
        push_signs(signs, e)?;
    }
    Ok(())
}

/// Adds those of the branches of a merge.
#[cycle(signs)]
fn push_branches<'t>(
    signs: &mut Vec<Token<'t>>,
    patterns: &'t [Pattern],
    branches: &'t [Expr],
) -> Result<(), AllocError>
    ensures { spec.Pushes result signs.old.items signs.new.items (spec.all_branch_signs patterns.now
        (trees_of (views branches.now))) }
{
    for (i, branch) in branches.iter().enumerate() {
        let Some(pattern) = patterns.get(i) else {
            return Ok(());
        };
        push_pattern(signs, pattern)?;
        push_signs(signs, branch)?;
    }
    Ok(())
}

/// Adds the signs of a merge before its branch of a number, which there is.
fn push_to_branch<'t>(
    signs: &mut Vec<Token<'t>>,
    x: &'t str,
    patterns: &'t [Pattern],
    branches: &'t [Expr],
    number: usize,
) -> Result<(), AllocError>
    ensures { spec.Pushes result signs.old.items signs.new.items (fixed Fixed.Merge
        ∷ identifier x.now ∷ (spec.all_branch_signs patterns.now (trees_of (views (take number
        branches.now))) ++ spec.begun (slice_get patterns.now number))) }
{
    push_named(signs, Fixed::Merge, x)?;
    push_branches(signs, patterns, front_of(branches, number))?;
    match patterns.get(number) {
        Some(pattern) => push_pattern(signs, pattern),
        None => Ok(()),
    }
}

/// So many expressions at the front, or all where there are fewer.
fn front_of(all: &[Expr], count: usize) -> &[Expr]
    ensures { result.now ≡ take count all.now }
{
    match all.get(..count) {
        Some(front) => front,
        None => all,
    }
}

/// Adds the signs of an `if` before its operand of a number.
fn push_to_choice<'t>(
    signs: &mut Vec<Token<'t>>,
    c: &'t Expr,
    a: &'t Expr,
    number: usize,
) -> Result<(), AllocError>
    ensures { (b : Tree) → spec.Pushes result signs.old.items signs.new.items (spec.signs_to
        (choice (view c.now) (view a.now) b) number) }
{
    push_fixed(signs, Fixed::If)?;
    if number == 0 {
        return Ok(());
    }
    push_signs(signs, c)?;
    push_fixed(signs, Fixed::Then)?;
    if number == 1 {
        return Ok(());
    }
    push_signs(signs, a)?;
    push_fixed(signs, Fixed::Else)
}

/// Adds the signs of an expression before its operand of a number.
fn push_to<'t>(signs: &mut Vec<Token<'t>>, e: &'t Expr, number: usize) -> Result<(), AllocError>
    ensures { spec.Pushes result signs.old.items signs.new.items (spec.signs_to (view e.now)
        number) }
{
    match e {
        Expr::Number(_)
        | Expr::Truth(_)
        | Expr::Label(_)
        | Expr::Variable(_)
        | Expr::Current(_)
        | Expr::When(_, _) => Ok(()),
        Expr::Unary(op, _) => push_fixed(signs, prefix_token(*op)),
        Expr::Binary(op, a, _) => {
            if number == 0 {
                return Ok(());
            }
            push_signs(signs, a)?;
            push_fixed(signs, infix_token(*op))
        }
        Expr::If(c, a, _) => push_to_choice(signs, c, a, number),
        Expr::Merge(x, patterns, branches) => {
            push_to_branch(signs, x.as_str(), patterns.as_slice(), branches, number)
        }
        Expr::Call(f, arguments) => {
            push_name(signs, f.as_str())?;
            push_all_signs(signs, front_of(arguments, number))
        }
    }
}

/// The only operand.
fn one_of(a: &Expr, number: usize) -> Option<&Expr>
    ensures { option_map (λ e. view e.now) result ≡ slice_get (view a.now ∷ []) number }
{
    if number == 0 { Some(a) } else { None }
}

/// One of two operands.
fn two_of<'t>(a: &'t Expr, b: &'t Expr, number: usize) -> Option<&'t Expr>
    ensures { option_map (λ e. view e.now) result
        ≡ slice_get (view a.now ∷ view b.now ∷ []) number }
{
    match number {
        0 => Some(a),
        1 => Some(b),
        _ => None,
    }
}

/// One of several.
fn one_among(all: &[Expr], number: usize) -> Option<&Expr>
    ensures { option_map (λ e. view e.now) result ≡ slice_get (views all.now) number }
{
    all.get(number)
}

/// The operand of a number.
fn operand(e: &Expr, number: usize) -> Option<&Expr>
    ensures { option_map (λ a. view a.now) result ≡ slice_get (operands (view e.now)) number }
{
    match e {
        Expr::Unary(_, a) => one_of(a, number),
        Expr::When(a, _) => one_of(a, number),
        Expr::Binary(_, a, b) => two_of(a, b, number),
        Expr::If(c, a, b) => {
            if number == 0 {
                Some(c)
            } else {
                two_of(a, b, number - 1)
            }
        }
        Expr::Merge(_, _, branches) => one_among(branches, number),
        Expr::Call(_, arguments) => one_among(arguments, number),
        _ => None,
    }
}

/// Adds the signs of an expression before its part at these numbers, which is answered; none where there is
/// no such part.
fn push_before<'t>(
    signs: &mut Vec<Token<'t>>,
    e: &'t Expr,
    part: &[usize],
) -> Result<Option<&'t Expr>, AllocError>
    ensures there { IfOk result (λ o. IfSome o (λ found. spec.expression_at (view e.now) part.now
        ≡ Some (view found.now))) }
    ensures before { spec.PushesTo result signs.old.items signs.new.items (spec.signs_before
        (Some (view e.now)) part.now) }
{
    let mut now = e;
    for number in part {
        push_to(signs, now, *number)?;
        match operand(now, *number) {
            Some(inside) => now = inside,
            None => return Ok(None),
        }
    }
    Ok(Some(now))
}

/// The sign of an operator, and those of its first operand where that stands before it; no operator is none.
fn push_front<'t>(signs: &mut Vec<Token<'t>>, e: &'t Expr) -> Result<Option<Fixed>, AllocError>
    ensures sign { IfOk result (λ sign. option_map fixed sign ≡ spec.operator_sign (view e.now)) }
    ensures front { spec.Pushes result signs.old.items signs.new.items (spec.front (view e.now)) }
{
    match e {
        Expr::Unary(op, _) => Ok(Some(prefix_token(*op))),
        Expr::Binary(op, a, _) => {
            push_signs(signs, a)?;
            Ok(Some(infix_token(*op)))
        }
        _ => Ok(None),
    }
}

/// Adds the names of a left side, and the `=`.
fn push_left<'t>(signs: &mut Vec<Token<'t>>, left: &'t [Name]) -> Result<(), AllocError>
    ensures { spec.Pushes result signs.old.items signs.new.items (spec.left_signs left.now) }
{
    for x in left {
        push_name(signs, x.as_str())?;
    }
    push_fixed(signs, Fixed::Equal)
}

/// Adds the signs of an equation before the operator at a part of its right side, and answers the operator
/// and its sign; none where no operator stands there.
pub(crate) fn push_equation<'t>(
    signs: &mut Vec<Token<'t>>,
    left: &'t [Name],
    right: &'t Expr,
    part: &[usize],
) -> Result<Option<(&'t Expr, Fixed)>, AllocError>
    ensures there { IfOk result (λ o. IfSome o (λ x. spec.expression_at (view right.now) part.now
        ≡ Some (view x.0.now))) }
    ensures sign { IfOk result (λ o. IfSome o (λ x. spec.operator_sign (view x.0.now)
        ≡ Some (fixed x.1))) }
    ensures before { IfOk result (λ o. IfSome o (λ x. map tok signs.new.items ≡ map tok signs.old.items
        ++ (spec.left_signs left.now ++ (spec.signs_before (Some (view right.now)) part.now
        ++ spec.front (view x.0.now))))) }
{
    push_left(signs, left)?;
    let Some(operator) = push_before(signs, right, part)? else {
        return Ok(None);
    };
    match push_front(signs, operator)? {
        Some(sign) => Ok(Some((operator, sign))),
        None => Ok(None),
    }
}
