//! The classes of expressions.

ghost use Rattle.std.specs.Prelude.{◌≡◌, ◌↔◌, IsTrue};
ghost use Rattle.lutree.specs.Tree.{view, views, trees_of, node_view};
ghost use Rattle.lustat_rules.specs.Classes.{is_one, NeedsMet, AllReady};
ghost use Rattle.lustat_init.specs.Assigned.{assigned};

use lustat_rules::Scope;
use lutree::{Expr, Infix, Prefix};

/// The class of a variable: the mark at the place of its declaration; false, which is class 0, where it isn't
/// declared or has no mark.
pub fn class_of(scope: &Scope, marks: &[bool], name: &str) -> bool
    ensures { result ≡ assigned (node_view scope.now) marks.now name.now }
{
    match scope.place(name) {
        None => false,
        Some(i) => i < marks.len() && marks[i],
    }
}

/// Whether an expression is of class 1, where the variables have the classes that `marks` gives by place of
/// declaration. Takes no memory.
pub fn is_one(scope: &Scope, marks: &[bool], e: &Expr) -> bool
    ensures { result ≡ is_one (assigned (node_view scope.now) marks.now) (view e.now) }
{
    match e {
        Expr::Variable(x) => class_of(scope, marks, x.as_str()),
        Expr::Unary(Prefix::Data(_), a) => is_one(scope, marks, a),
        Expr::Unary(Prefix::Pre, _) => true,
        Expr::Binary(Infix::Data(_), a, b) => is_one(scope, marks, a) || is_one(scope, marks, b),
        Expr::Binary(_, a, _) => is_one(scope, marks, a),
        Expr::If(c, a, b) => {
            is_one(scope, marks, c) || is_one(scope, marks, a) || is_one(scope, marks, b)
        }
        Expr::When(a, _) => is_one(scope, marks, a),
        _ => false,
    }
}

/// Whether what an expression needs in class 0 is there: what stands after `pre`, on the right of `fby` and
/// in a branch of `merge`, the variable after `current`, and the arguments of calls. Takes no memory.
///
/// The time grows with the length of the expression: a class never comes from behind what needs one, so no
/// part is looked at for more than one need.
#[cycle(needs)]
pub fn needs_met(scope: &Scope, marks: &[bool], e: &Expr) -> bool
    ensures { IsTrue result ↔ NeedsMet (assigned (node_view scope.now) marks.now) (view e.now) }
{
    match e {
        Expr::Number(_) | Expr::Truth(_) | Expr::Label(_) | Expr::Variable(_) => true,
        Expr::Unary(Prefix::Data(_), a) => needs_met(scope, marks, a),
        Expr::Unary(Prefix::Pre, a) => !is_one(scope, marks, a) && needs_met(scope, marks, a),
        Expr::Binary(Infix::FollowedBy, a, b) => {
            needs_met(scope, marks, a) && !is_one(scope, marks, b) && needs_met(scope, marks, b)
        }
        Expr::Binary(_, a, b) => needs_met(scope, marks, a) && needs_met(scope, marks, b),
        Expr::If(c, a, b) => {
            needs_met(scope, marks, c) && needs_met(scope, marks, a) && needs_met(scope, marks, b)
        }
        Expr::When(a, _) => needs_met(scope, marks, a),
        Expr::Current(x) => !class_of(scope, marks, x.as_str()),
        Expr::Merge(_, _, branches) => all_ready(scope, marks, branches),
        Expr::Call(_, arguments) => all_ready(scope, marks, arguments),
    }
}

/// Whether all arguments of a call or branches of a merge are of class 0 and have what they need.
#[cycle(needs)]
fn all_ready(scope: &Scope, marks: &[bool], arguments: &[Expr]) -> bool
    ensures { IsTrue result
        ↔ AllReady (assigned (node_view scope.now) marks.now) (trees_of (views arguments.now)) }
{
    for a in arguments {
        if !is_one(scope, marks, a) && needs_met(scope, marks, a) {
            continue;
        }
        return false;
    }
    true
}
