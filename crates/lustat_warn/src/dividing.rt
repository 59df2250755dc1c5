//! Whether a division stands in a branch of an `if`.

ghost use Rattle.std.specs.Prelude.{◌≡◌};
ghost use Rattle.lutree.specs.Tree.{view, views, trees_of};
ghost use Rattle.lustat_warn.specs.Dividing.{is_dividing, has_dividing_branch};
ghost use Rattle.lustat_warn.specs.Scans.{divides_within, some_divides_within};

use lutree::{BinaryOperator, Expr, Infix};

/// Whether what stands between two operands is `div` or `mod`.
fn is_division(op: Infix) -> bool
    ensures { result ≡ is_dividing op }
{
    match op {
        Infix::Data(BinaryOperator::Divide) | Infix::Data(BinaryOperator::Modulo) => true,
        _ => false,
    }
}

/// Whether an expression has a division: any one where `everywhere` is set, else one in a branch of an `if`.
#[cycle(dividing)]
fn divides(everywhere: bool, e: &Expr) -> bool
    ensures { result ≡ divides_within everywhere (view e.now) }
{
    match e {
        Expr::Number(_) | Expr::Truth(_) | Expr::Label(_) | Expr::Variable(_) | Expr::Current(_) =>
            false,
        Expr::Unary(_, a) | Expr::When(a, _) => divides(everywhere, a),
        Expr::Binary(op, a, b) => {
            (everywhere && is_division(*op)) || divides(everywhere, a) || divides(everywhere, b)
        }
        Expr::If(c, a, b) => divides(everywhere, c) || divides(true, a) || divides(true, b),
        Expr::Merge(_, _, branches) => some_divides(everywhere, branches),
        Expr::Call(_, arguments) => some_divides(everywhere, arguments),
    }
}

/// Whether one of several expressions has such a division.
#[cycle(dividing)]
fn some_divides(everywhere: bool, all: &[Expr]) -> bool
    ensures { result ≡ some_divides_within everywhere (trees_of (views all.now)) }
{
    for e in all {
        if divides(everywhere, e) {
            return true;
        }
    }
    false
}

/// Whether an expression has an `if` with a `div` or a `mod` in one of its two branches, at any depth.
pub fn has_dividing_branch(e: &Expr) -> bool
    ensures { result ≡ has_dividing_branch (view e.now) }
{
    divides(false, e)
}
