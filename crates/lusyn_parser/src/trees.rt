//! Expressions, declarations and equations, changed where they lie.

ghost use Rattle.std.specs.Prelude.{◌≡◌, None, map, IfOk};
ghost use Rattle.lutree.specs.Tree.{view, views, trees_of, declaration_view, declarations_view, equation_view};
ghost use Rattle.lutree.specs.Places.{declaration_places, equation_places};
ghost use Rattle.lusyn_parser.specs.Resolved.{label_of, resolved_kind, resolved_pattern, resolved_condition, resolved_clock, resolved_tree, resolved_trees, resolved_declaration, resolved_equation};
ghost use Rattle.lusyn_parser.specs.Known.{types_of};

use crate::labels::Labels;
use lubase::{Name, Row, SharedName};
use lutree::{Condition, Declaration, Equation, Expr, Label, Pattern};
use std::alloc::{AllocError, Global};
use std::mem;

fn resolve_pattern(labels: &Labels<'_>, pattern: &mut Pattern)
    ensures { pattern.new ≡ resolved_pattern (types_of labels.now) pattern.old }
{
    if let Pattern::Label(label) = pattern {
        if let Some((kind, number)) = labels.find(label.name.as_str()) {
            label.kind = kind;
            label.number = number;
        }
    }
}

fn resolve_patterns(labels: &Labels<'_>, patterns: Row<Pattern>) -> Row<Pattern>
    ensures { result ≡ map (resolved_pattern (types_of labels.now)) patterns }
{
    let mut items = patterns.into_items();
    for pattern in items.iter_mut() {
        resolve_pattern(labels, pattern);
    }
    Row::new(items)
}

fn resolve_branches(alloc: Global, labels: &Labels<'_>, patterns: &mut Row<Pattern>)
    ensures { patterns.new ≡ map (resolved_pattern (types_of labels.now)) patterns.old }
{
    let found = mem::replace(patterns, Row::new(Vec::new(alloc)));
    *patterns = resolve_patterns(labels, found);
}

fn resolve_condition(labels: &Labels<'_>, condition: &mut Condition)
    ensures { condition.new ≡ resolved_condition (types_of labels.now) condition.old }
{
    resolve_pattern(labels, &mut condition.pattern);
}

fn resolve_clock(labels: &Labels<'_>, clock: &mut Option<Condition>)
    ensures { clock.new ≡ resolved_clock (types_of labels.now) clock.old }
{
    if let Some(condition) = clock {
        resolve_condition(labels, condition);
    }
}

/// A name, and the empty one in its place.
fn taken(alloc: Global, name: &mut Name) -> Name
    ensures { result ≡ name.old }
{
    mem::replace(name, Name::new(String::new(alloc)))
}

/// What this name stands for, where one of the types has it. The name is then taken from its place.
fn found_label(
    alloc: Global,
    labels: &Labels<'_>,
    name: &mut Name,
) -> Result<Option<Label>, AllocError>
    ensures found { IfOk result (λ found. found ≡ label_of (types_of labels.now) name.old) }
    ensures stays { IfOk result (λ found. found ≡ None → name.new ≡ name.old) }
{
    let Some((kind, number)) = labels.find(name.as_str()) else {
        return Ok(None);
    };
    let name = SharedName::new(alloc, taken(alloc, name))?;
    Ok(Some(Label { name, kind, number }))
}

/// Puts an expression in the place of another, which is dropped here, once for the proof.
fn put(e: &mut Expr, new: Expr)
    ensures { e.new ≡ new }
{
    *e = new;
}

/// An expression, where it lies. It is gone into by recursion, so the stack has to hold as many calls as it
/// is nested.
#[cycle(resolving)]
pub(crate) fn resolve_expr(
    alloc: Global,
    labels: &Labels<'_>,
    e: &mut Expr,
) -> Result<(), AllocError>
    ensures { IfOk result (λ _. view e.new ≡ resolved_tree (types_of labels.now) (view e.old)) }
{
    match e {
        Expr::Number(_) | Expr::Truth(_) | Expr::Label(_) | Expr::Current(_) => Ok(()),
        Expr::Variable(name) => {
            if let Some(label) = found_label(alloc, labels, name)? {
                put(e, Expr::Label(label));
            }
            Ok(())
        }
        Expr::Unary(_, a) => resolve_operand(alloc, labels, a),
        Expr::Binary(_, a, b) => {
            resolve_operand(alloc, labels, a)?;
            resolve_operand(alloc, labels, b)
        }
        Expr::If(a, b, c) => {
            resolve_operand(alloc, labels, a)?;
            resolve_operand(alloc, labels, b)?;
            resolve_operand(alloc, labels, c)
        }
        Expr::When(a, condition) => {
            resolve_condition(labels, condition);
            resolve_operand(alloc, labels, a)
        }
        Expr::Merge(_, patterns, branches) => {
            resolve_branches(alloc, labels, patterns);
            resolve_all(alloc, labels, branches)
        }
        Expr::Call(_, arguments) => resolve_all(alloc, labels, arguments),
    }
}

#[cycle(resolving)]
fn resolve_operand(alloc: Global, labels: &Labels<'_>, e: &mut Box<Expr>) -> Result<(), AllocError>
    ensures { IfOk result (λ _. view e.new.value
        ≡ resolved_tree (types_of labels.now) (view e.old.value)) }
{
    resolve_expr(alloc, labels, e)
}

#[cycle(resolving)]
fn resolve_all(alloc: Global, labels: &Labels<'_>, es: &mut Vec<Expr>) -> Result<(), AllocError>
    ensures { IfOk result (λ _. trees_of (views es.new.items)
        ≡ resolved_trees (types_of labels.now) (trees_of (views es.old.items))) }
{
    for i in 0..es.len() {
        resolve_expr(alloc, labels, &mut es[i])?;
    }
    Ok(())
}

fn resolve_declaration(labels: &Labels<'_>, declared: &mut Declaration)
    ensures tree { declaration_view declared.new
        ≡ resolved_declaration (types_of labels.now) (declaration_view declared.old) }
    ensures place { declared.new.byte ≡ declared.old.byte }
{
    if let Some(name) = &declared.type_name {
        if let Some(kind) = labels.kind_of(name.as_str()) {
            declared.kind = kind;
        }
    }
    resolve_clock(labels, &mut declared.clock);
}

pub(crate) fn resolve_declarations(
    labels: &Labels<'_>,
    declared: Row<Declaration>,
) -> Row<Declaration>
    ensures trees { declarations_view result
        ≡ map (resolved_declaration (types_of labels.now)) (declarations_view declared) }
    ensures places { declaration_places result ≡ declaration_places declared }
{
    let mut items = declared.into_items();
    for one in items.iter_mut() {
        resolve_declaration(labels, one);
    }
    Row::new(items)
}

fn resolve_equation(
    alloc: Global,
    labels: &Labels<'_>,
    defined: &mut Equation,
) -> Result<(), AllocError>
    ensures tree { IfOk result (λ _. equation_view defined.new
        ≡ resolved_equation (types_of labels.now) (equation_view defined.old)) }
    ensures place { IfOk result (λ _. defined.new.byte ≡ defined.old.byte) }
{
    resolve_expr(alloc, labels, &mut defined.right)
}

pub(crate) fn resolve_equations(
    alloc: Global,
    labels: &Labels<'_>,
    equations: Row<Equation>,
) -> Result<Row<Equation>, AllocError>
    ensures trees { IfOk result (λ found. map equation_view found
        ≡ map (resolved_equation (types_of labels.now)) (map equation_view equations)) }
    ensures places { IfOk result (λ found. equation_places found ≡ equation_places equations) }
{
    let mut items = equations.into_items();
    for one in items.iter_mut() {
        resolve_equation(alloc, labels, one)?;
    }
    Ok(Row::new(items))
}
