//! Whether the parts of an expression that speak of enumerations are in order.

ghost use Rattle.std.specs.Prelude.{◌≡◌, ◌↔◌, IsTrue, All, length, map};
ghost use Rattle.lutree.specs.Tree.{list_of, view, views, trees_of, node_view, program_view, equation_view};
ghost use Rattle.lustat_rules.specs.Naming.{PatternKnown, PartKnown};
ghost use Rattle.lustat_rules.specs.Parts.{EachPart, EachPartOf};
ghost use Rattle.lustat_rules.specs.Parts as part;
ghost use Rattle.lustat_rules.specs.Typing.{MergesWhole};
ghost use Rattle.lutype.specs.PartRules.{PartKeeps};

use crate::enumerations::{label_is_known, pattern_is_known};
use crate::merges::merge_is_whole;
use lustat_rules::{Catalog, Scope};
use lutree::{Condition, Equation, Expr, Label, Pattern};

/// What is asked of the parts of an expression that speak of enumerations.
#[derive(Clone, Copy)]
pub enum PartRule {
    /// Names of enumerations are known.
    Known,
    /// Merges are whole.
    Whole,
}

/// Whether the names of patterns are known.
fn patterns_are_known(catalog: &Catalog, all: &[Pattern]) -> bool
    ensures { IsTrue result ↔ All (PatternKnown (program_view catalog.now)) all.now }
{
    all.iter().all(|x| pattern_is_known(catalog, x))
}

/// Whether a constant keeps a rule.
fn label_keeps(catalog: &Catalog, scope: &Scope, rule: PartRule, label: &Label) -> bool
    ensures { IsTrue result ↔ PartKeeps (program_view catalog.now) (node_view scope.now) rule
        (part.label label.now) }
{
    match rule {
        PartRule::Known => label_is_known(catalog, label),
        PartRule::Whole => true,
    }
}

/// Whether a clock after `when` keeps a rule.
fn clock_keeps(catalog: &Catalog, scope: &Scope, rule: PartRule, clock: &Condition) -> bool
    ensures { IsTrue result ↔ PartKeeps (program_view catalog.now) (node_view scope.now) rule
        (part.clock clock.now) }
{
    match rule {
        PartRule::Known => pattern_is_known(catalog, &clock.pattern),
        PartRule::Whole => true,
    }
}

/// Whether a merge keeps a rule.
fn merge_keeps(
    catalog: &Catalog,
    scope: &Scope,
    rule: PartRule,
    name: &str,
    all: &[Pattern],
    count: usize,
) -> bool
    ensures { IsTrue result ↔ PartKeeps (program_view catalog.now) (node_view scope.now) rule
        (part.merge name.now all.now count) }
{
    match rule {
        PartRule::Known => patterns_are_known(catalog, all),
        PartRule::Whole => merge_is_whole(scope, name, all, count),
    }
}

/// Whether each part of an expression keeps a rule.
#[cycle(parts)]
fn parts_keep(catalog: &Catalog, scope: &Scope, rule: PartRule, e: &Expr) -> bool
    ensures { IsTrue result ↔ EachPart (PartKeeps (program_view catalog.now) (node_view scope.now)
        rule) (view e.now) }
{
    match e {
        Expr::Number(_) | Expr::Truth(_) | Expr::Variable(_) | Expr::Current(_) => true,
        Expr::Label(l) => label_keeps(catalog, scope, rule, l),
        Expr::Unary(_, a) => parts_keep(catalog, scope, rule, a),
        Expr::Binary(_, a, b) => {
            parts_keep(catalog, scope, rule, a) && parts_keep(catalog, scope, rule, b)
        }
        Expr::If(c, a, b) => {
            parts_keep(catalog, scope, rule, c)
                && parts_keep(catalog, scope, rule, a)
                && parts_keep(catalog, scope, rule, b)
        }
        Expr::When(a, c) => {
            parts_keep(catalog, scope, rule, a) && clock_keeps(catalog, scope, rule, c)
        }
        Expr::Merge(c, all, branches) => {
            whole_merge_keeps(catalog, scope, rule, c.as_str(), all.as_slice(), branches)
        }
        Expr::Call(_, arguments) => all_parts_keep(catalog, scope, rule, arguments),
    }
}

/// Whether a merge and each part of its branches keep a rule.
#[cycle(parts)]
fn whole_merge_keeps(
    catalog: &Catalog,
    scope: &Scope,
    rule: PartRule,
    name: &str,
    all: &[Pattern],
    branches: &[Expr],
) -> bool
    ensures { IsTrue result ↔ (PartKeeps (program_view catalog.now) (node_view scope.now) rule
        (part.merge name.now all.now (length (list_of (trees_of (views branches.now)))))
        × EachPartOf (PartKeeps (program_view catalog.now) (node_view scope.now) rule)
        (trees_of (views branches.now))) }
{
    merge_keeps(catalog, scope, rule, name, all, branches.len())
        && all_parts_keep(catalog, scope, rule, branches)
}

/// Whether each part of the arguments of a call or the branches of a merge keeps a rule.
#[cycle(parts)]
fn all_parts_keep(catalog: &Catalog, scope: &Scope, rule: PartRule, arguments: &[Expr]) -> bool
    ensures { IsTrue result ↔ EachPartOf (PartKeeps (program_view catalog.now)
        (node_view scope.now) rule) (trees_of (views arguments.now)) }
{
    for a in arguments {
        if parts_keep(catalog, scope, rule, a) {
            continue;
        }
        return false;
    }
    true
}

/// Whether the names of enumerations in an expression are known.
pub fn labels_are_known(catalog: &Catalog, scope: &Scope, e: &Expr) -> bool
    ensures { IsTrue result ↔ EachPart (PartKnown (program_view catalog.now)) (view e.now) }
{
    parts_keep(catalog, scope, PartRule::Known, e)
}

/// Whether the merges of an equation are whole.
pub fn merges_are_whole(catalog: &Catalog, scope: &Scope, equation: &Equation) -> bool
    ensures { IsTrue result ↔ MergesWhole (node_view scope.now) (equation_view equation.now) }
{
    parts_keep(catalog, scope, PartRule::Whole, &equation.right)
}
