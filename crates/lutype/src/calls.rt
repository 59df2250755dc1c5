//! Whether calls are of nodes, and have their arities.

ghost use Rattle.std.specs.Prelude.{◌≡◌, ◌↔◌, ◌<◌, ℕ, List, IsTrue, All, IfSome, IfNone, Option, length, map, option_map, slice_get};
ghost use Rattle.lutree.specs.Tree.{Trees, list_of, view, views, trees_of, node_view, program_view, equation_view};
ghost use Rattle.lutree.specs.Tree as tree;
ghost use Rattle.lustat_rules.specs.Naming.{Call, CallsKnown, AritiesRight, calls_in, inner_calls, value_count};
ghost use Rattle.lutype.specs.Forms.{EachCall, EachCallOf};
ghost use Rattle.lutype.specs.CallRules.{CallKeeps};

use lubase::Name;
use lustat_rules::Catalog;
use lutree::{Equation, Expr};

/// What is asked of a call.
#[derive(Clone, Copy)]
pub enum CallRule {
    /// It is of a node.
    Known,
    /// It has as many arguments as its node has inputs, if there is one.
    Arguments,
    /// Its node has one output, if there is one.
    OneOutput,
}

/// Whether a call keeps a rule.
fn call_keeps(catalog: &Catalog, rule: CallRule, name: &str, count: usize) -> bool
    ensures { IsTrue result ↔ CallKeeps (program_view catalog.now) rule
        (record { node = name.now; arguments = count }) }
{
    match catalog.find(name) {
        None => match rule {
            CallRule::Known => false,
            CallRule::Arguments | CallRule::OneOutput => true,
        },
        Some(scope) => match rule {
            CallRule::Known => true,
            CallRule::Arguments => count == scope.node().inputs.as_slice().len(),
            CallRule::OneOutput => scope.node().outputs.as_slice().len() == 1,
        },
    }
}

/// Whether each call in an expression keeps a rule.
#[cycle(calls)]
fn calls_keep(catalog: &Catalog, rule: CallRule, e: &Expr) -> bool
    ensures { IsTrue result ↔ EachCall (CallKeeps (program_view catalog.now) rule) (view e.now) }
{
    match e {
        Expr::Number(_) | Expr::Truth(_) | Expr::Label(_) | Expr::Variable(_) | Expr::Current(_) =>
            true,
        Expr::Unary(_, a) | Expr::When(a, _) => calls_keep(catalog, rule, a),
        Expr::Binary(_, a, b) => calls_keep(catalog, rule, a) && calls_keep(catalog, rule, b),
        Expr::Merge(_, _, branches) => all_calls_keep(catalog, rule, branches),
        Expr::If(c, a, b) => {
            calls_keep(catalog, rule, c)
                && calls_keep(catalog, rule, a)
                && calls_keep(catalog, rule, b)
        }
        Expr::Call(f, arguments) => whole_call_keeps(catalog, rule, f.as_str(), arguments),
    }
}

/// Whether a call and each call in its arguments keep a rule.
#[cycle(calls)]
fn whole_call_keeps(catalog: &Catalog, rule: CallRule, name: &str, arguments: &[Expr]) -> bool
    ensures { IsTrue result ↔ (EachCallOf (CallKeeps (program_view catalog.now) rule)
        (trees_of (views arguments.now)) × CallKeeps (program_view catalog.now) rule (record {
          node = name.now;
          arguments = length (list_of (trees_of (views arguments.now)));
        })) }
{
    all_calls_keep(catalog, rule, arguments) && call_keeps(catalog, rule, name, arguments.len())
}

/// Whether each call in the arguments of a call or the branches of a merge keeps a rule.
#[cycle(calls)]
fn all_calls_keep(catalog: &Catalog, rule: CallRule, arguments: &[Expr]) -> bool
    ensures { IsTrue result ↔ EachCallOf (CallKeeps (program_view catalog.now) rule)
        (trees_of (views arguments.now)) }
{
    for a in arguments {
        if calls_keep(catalog, rule, a) {
            continue;
        }
        return false;
    }
    true
}

/// The called node's name and the arguments, where an expression is a call.
pub fn call_in(e: &Expr) -> Option<(&Name, &[Expr])>
    ensures some { IfSome result (λ c. view e.now ≡ tree.call c.0.now (trees_of (views c.1.now))) }
    ensures none { IfNone result ((f : List ℕ) → (all : Trees) → view e.now ≡ tree.call f all → ⊥) }
{
    match e {
        Expr::Call(f, arguments) => Some((f, arguments.as_slice())),
        _ => None,
    }
}

/// Whether each call inside an expression is of a node with one output, if it is of a node.
fn inner_calls_are_single(catalog: &Catalog, e: &Expr) -> bool
    ensures { IsTrue result ↔ All (CallKeeps (program_view catalog.now) CallRule.OneOutput)
        (inner_calls (view e.now)) }
{
    match call_in(e) {
        None => calls_keep(catalog, CallRule::OneOutput, e),
        Some((_, arguments)) => all_calls_keep(catalog, CallRule::OneOutput, arguments),
    }
}

/// How many values a right side has.
fn count_of_values(catalog: &Catalog, e: &Expr) -> Option<usize>
    ensures { result ≡ value_count (program_view catalog.now) (view e.now) }
{
    match call_in(e) {
        None => Some(1),
        Some((f, _)) => {
            let scope = catalog.find(f.as_str())?;
            Some(scope.node().outputs.as_slice().len())
        }
    }
}

/// Whether an equation defines as many variables as its right side has values, if these are known.
fn values_are_right(catalog: &Catalog, equation: &Equation) -> bool
    ensures { IsTrue result ↔ IfSome (value_count (program_view catalog.now)
        (view equation.now.right)) (λ count. length equation.now.left ≡ count) }
{
    match count_of_values(catalog, &equation.right) {
        None => true,
        Some(count) => equation.left.as_slice().len() == count,
    }
}

/// Whether an equation defines a variable, and as many as its right side has values, if these are known.
fn left_is_right(catalog: &Catalog, equation: &Equation) -> bool
    ensures { IsTrue result ↔ (IfSome (value_count (program_view catalog.now)
        (view equation.now.right)) (λ count. length equation.now.left ≡ count)
        × (0 < length equation.now.left)) }
{
    values_are_right(catalog, equation) && !equation.left.as_slice().is_empty()
}

/// Whether the calls of an equation are of nodes.
pub fn calls_are_known(catalog: &Catalog, equation: &Equation) -> bool
    ensures { IsTrue result ↔ CallsKnown (program_view catalog.now) (equation_view equation.now) }
{
    calls_keep(catalog, CallRule::Known, &equation.right)
}

/// Whether each call of an expression has as many arguments as its node has inputs, if it is of a node.
fn arguments_are_right(catalog: &Catalog, e: &Expr) -> bool
    ensures { IsTrue result ↔ All (CallKeeps (program_view catalog.now) CallRule.Arguments)
        (calls_in (view e.now)) }
{
    calls_keep(catalog, CallRule::Arguments, e)
}

/// Whether the arities of an equation are right.
pub fn arities_are_right(catalog: &Catalog, equation: &Equation) -> bool
    ensures { IsTrue result ↔ AritiesRight (program_view catalog.now) (equation_view equation.now) }
{
    if arguments_are_right(catalog, &equation.right) {
        if inner_calls_are_single(catalog, &equation.right) {
            left_is_right(catalog, equation)
        } else {
            false
        }
    } else {
        false
    }
}
