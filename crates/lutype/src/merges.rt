//! Whether the branches of a merge are those of its variable's type.

ghost use Rattle.std.specs.Prelude.{◌≡◌, ◌↔◌, ◌∷◌, [], true, false, IsTrue, All};
ghost use Rattle.lutree.specs.declared.expr.Pattern.TheVariants as patterns;
ghost use Rattle.lutree.specs.Tree.{node_view};
ghost use Rattle.lustat_rules.specs.Parts as part;
ghost use Rattle.lustat_rules.specs.Typing.{IsNumbered, AreNames, IsSign, PatternsAre, IsWholeMerge};

use lustat_rules::Scope;
use lutree::{Kind, Pattern};

/// Whether a pattern is the name of a number of a type.
fn is_numbered(kind: Kind, number: usize, pattern: &Pattern) -> bool
    ensures { IsTrue result ↔ IsNumbered kind number pattern.now }
{
    match pattern {
        Pattern::Truth(_) => false,
        Pattern::Label(l) => l.kind == kind && usize::from(l.number) == number,
    }
}

/// Whether patterns are the names of an enumeration of so many, in order.
fn are_names(kind: Kind, size: usize, all: &[Pattern]) -> bool
    ensures { IsTrue result ↔ AreNames kind size all.now }
{
    if all.len() != size {
        return false;
    }
    for (k, x) in all.iter().enumerate() {
        if is_numbered(kind, k, x) {
            continue;
        }
        return false;
    }
    true
}

/// Whether a pattern is `true` or `false`.
fn is_sign(pattern: &Pattern) -> bool
    ensures { IsTrue result ↔ IsSign pattern.now }
{
    match pattern {
        Pattern::Truth(_) => true,
        Pattern::Label(_) => false,
    }
}

/// Whether no pattern is a name.
fn are_signs(all: &[Pattern]) -> bool
    ensures { IsTrue result ↔ All IsSign all.now }
{
    all.iter().all(|x| is_sign(x))
}

/// Whether a pattern is a truth value.
fn is_truth(pattern: &Pattern, sign: bool) -> bool
    ensures { IsTrue result ↔ (pattern.now ≡ patterns.Truth sign) }
{
    match pattern {
        Pattern::Truth(b) => *b == sign,
        Pattern::Label(_) => false,
    }
}

/// Whether patterns are `true` and then `false`.
fn are_both(all: &[Pattern]) -> bool
    ensures { IsTrue result
        ↔ (all.now ≡ patterns.Truth true ∷ patterns.Truth false ∷ []) }
{
    all.len() == 2 && is_truth(&all[0], true) && is_truth(&all[1], false)
}

/// Whether patterns, if none of them is a name, are `true` and then `false`.
fn are_truths(all: &[Pattern]) -> bool
    ensures { IsTrue result
        ↔ (All IsSign all.now → all.now ≡ patterns.Truth true ∷ patterns.Truth false ∷ []) }
{
    if are_signs(all) { are_both(all) } else { true }
}

/// Whether patterns are those of a type.
fn are_patterns_of(kind: Option<Kind>, all: &[Pattern]) -> bool
    ensures { IsTrue result ↔ PatternsAre kind all.now }
{
    match kind {
        Some(Kind::Enum(place, size)) => {
            are_names(Kind::Enum(place, size), usize::from(size), all)
        }
        Some(Kind::Bool) => are_truths(all),
        Some(Kind::Int) | None => true,
    }
}

/// Whether a merge has as many branches as patterns, and these are those of its variable's type.
pub fn merge_is_whole(scope: &Scope, name: &str, all: &[Pattern], count: usize) -> bool
    ensures { IsTrue result
        ↔ IsWholeMerge (node_view scope.now) (part.merge name.now all.now count) }
{
    all.len() == count && are_patterns_of(scope.kind(name), all)
}
