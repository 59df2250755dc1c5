//! What is handed on while tokens are read.

ghost use Rattle.std.specs.Prelude.{◌≡◌, ◌∷◌, ◌++◌, [], IfOk, drop, map};
ghost use Rattle.std.specs.Result.{IfErr};
ghost use Rattle.lusyn_grammar.specs.Grammar.{bare_label, truths};
ghost use Rattle.lusyn_grammar.specs.Grammar as grammar;
ghost use Rattle.lutree.specs.Tree.{view};
ghost use Rattle.lutree.specs.Tree as t;
ghost use Rattle.lusyn_parser.specs.Gives.{names_view, type_view};
ghost use Rattle.lusyn_grammar.specs.Tokens.{located};
ghost use Rattle.lusyn_parser.specs.Refused.{place};

use crate::error::Stop;
use lubase::{Name, Row, SharedName};
use lusyn_grammar::Lexeme;
use lutree::{Condition, Declaration, DeclaredName, Expr, Infix, Kind, Label, Pattern};
use std::alloc::Global;

/// How an expression goes on after an operand.
#[derive(Clone, Copy)]
pub(crate) enum Next {
    Operator(Infix),
    Clock,
    Parenthesis,
    Nothing,
}

/// An operand before any operator follows it, its level, and the place after it.
#[derive(Drop)]
pub(crate) struct Operand {
    pub(crate) level: u8,
    pub(crate) found: Expr,
    pub(crate) next: usize,
}

/// A type, as it is written.
#[derive(Drop)]
pub(crate) enum WrittenType {
    Int,
    Bool,
    Named(SharedName),
}

/// A branch of a merge, and the name that it begins with.
#[derive(Drop)]
pub(crate) struct Branch {
    pub(crate) label: SharedName,
    pub(crate) value: Expr,
}

/// What stands before a node's locals.
#[derive(Drop)]
pub(crate) struct Heading {
    pub(crate) name: Name,
    pub(crate) byte: usize,
    pub(crate) inputs: Vec<Declaration>,
    pub(crate) outputs: Vec<Declaration>,
}

/// The place in the text of this token, or the text's end.
pub(crate) fn byte_of(tokens: &[Lexeme<'_>], end: usize, at: usize) -> usize
    ensures { result ≡ place end (located (drop at tokens.now)) }
{
    match tokens.get(at) {
        Some(lexeme) => lexeme.place,
        None => end,
    }
}

/// The operand that was read, of this level.
pub(crate) fn operand_of(level: u8, read: (Expr, usize)) -> Operand
    ensures level { result.level ≡ level }
    ensures found { result.found ≡ read.0 }
    ensures next { result.next ≡ read.1 }
{
    let (found, next) = read;
    Operand { level, found, next }
}

/// The expression, in memory of its own.
pub(crate) fn boxed(alloc: Global, a: Expr) -> Result<Box<Expr>, Stop>
    ensures ok { IfOk result (λ found. found.value ≡ a) }
    ensures err { IfErr result (λ e. e ≡ Stop.OutOfMemory) }
{
    Ok(Box::new(alloc, a)?)
}

/// `if test then a else b`
pub(crate) fn choice_of(test: Box<Expr>, a: Box<Expr>, b: Box<Expr>) -> Expr
    ensures { view result ≡ t.choice (view test.value) (view a.value) (view b.value) }
{
    Expr::If(test, a, b)
}

/// `a when clock`
pub(crate) fn when(a: Box<Expr>, clock: Condition) -> Expr
    ensures { view result ≡ t.when (view a.value) clock }
{
    Expr::When(a, clock)
}

/// The patterns of a merge with a branch for each truth.
pub(crate) fn truths(alloc: Global) -> Result<Box<Row<Pattern>>, Stop>
    ensures ok { IfOk result (λ found. found.value ≡ truths) }
    ensures err { IfErr result (λ e. e ≡ Stop.OutOfMemory) }
{
    let patterns = vec![in alloc; Pattern::Truth(true), Pattern::Truth(false)]?;
    Ok(Box::new(alloc, Row::new(patterns))?)
}

/// Puts a pattern with this name behind others.
fn push_label(patterns: &mut Vec<Pattern>, label: SharedName) -> Result<(), Stop>
    ensures ok { IfOk result (λ _. patterns.new.items
        ≡ patterns.old.items ++ Pattern.Label (bare_label label) ∷ []) }
    ensures err { IfErr result (λ e. e ≡ Stop.OutOfMemory) }
{
    Ok(patterns.push(Pattern::Label(bare_label(label)))?)
}

/// Puts an expression behind others.
fn push_value(values: &mut Vec<Expr>, value: Expr) -> Result<(), Stop>
    ensures ok { IfOk result (λ _. values.new.items ≡ values.old.items ++ value ∷ []) }
    ensures err { IfErr result (λ e. e ≡ Stop.OutOfMemory) }
{
    Ok(values.push(value)?)
}

/// This expression, with room for one more behind it.
pub(crate) fn first_of_two(alloc: Global, a: Expr) -> Result<Vec<Expr>, Stop>
    ensures ok { IfOk result (λ found. found.items ≡ a ∷ []) }
    ensures err { IfErr result (λ e. e ≡ Stop.OutOfMemory) }
{
    let mut found = Vec::with_capacity(alloc, 2)?;
    push_value(&mut found, a)?;
    Ok(found)
}

/// The expression that was put first, and another behind it.
pub(crate) fn both_of(first: Vec<Expr>, b: Expr) -> Result<Vec<Expr>, Stop>
    ensures ok { (a : Expr) → first.items ≡ a ∷ []
        → IfOk result (λ found. found.items ≡ a ∷ b ∷ []) }
    ensures err { IfErr result (λ e. e ≡ Stop.OutOfMemory) }
{
    let mut found = first;
    push_value(&mut found, b)?;
    Ok(found)
}

/// Puts the name of a branch and its value behind those of others.
fn push_branch(
    patterns: &mut Vec<Pattern>,
    values: &mut Vec<Expr>,
    branch: Branch,
) -> Result<(), Stop>
    ensures patterns { IfOk result (λ _. patterns.new.items
        ≡ patterns.old.items ++ Pattern.Label (bare_label branch.label) ∷ []) }
    ensures values { IfOk result (λ _. values.new.items
        ≡ values.old.items ++ branch.value ∷ []) }
    ensures err { IfErr result (λ e. e ≡ Stop.OutOfMemory) }
{
    let Branch { label, value } = branch;
    push_label(patterns, label)?;
    push_value(values, value)
}

/// The names of the branches as patterns, and their values.
pub(crate) fn parted(
    alloc: Global,
    found: Vec<Branch>,
) -> Result<(Box<Row<Pattern>>, Vec<Expr>), Stop>
    ensures patterns { IfOk result (λ x. x.0.value
        ≡ map (λ b. Pattern.Label (bare_label b.label)) found.items) }
    ensures values { IfOk result (λ x. x.1.items ≡ map (λ b. b.value) found.items) }
    ensures err { IfErr result (λ e. e ≡ Stop.OutOfMemory) }
{
    let mut patterns = Vec::new(alloc);
    let mut values = Vec::new(alloc);
    for branch in found {
        push_branch(&mut patterns, &mut values, branch)?;
    }
    let patterns = Box::new(alloc, Row::new(patterns))?;
    Ok((patterns, values))
}

/// The names without their places.
pub(crate) fn plain(alloc: Global, names: &[DeclaredName]) -> Result<Row<Name>, Stop>
    ensures ok { IfOk result (λ row. row ≡ names_view names.now) }
    ensures err { IfErr result (λ e. e ≡ Stop.OutOfMemory) }
{
    let mut found = Vec::new(alloc);
    for placed in names {
        found.push(placed.name.copied(alloc)?)?;
    }
    Ok(Row::new(found))
}

/// A name of an enumeration, of which nothing is known but the name.
pub(crate) fn bare_label(name: SharedName) -> Label
    ensures { result ≡ bare_label name }
{
    Label {
        name,
        kind: Kind::Enum(0, 0),
        number: 0,
    }
}

fn label_shared(label: &Label) -> Result<Label, Stop>
    ensures ok { IfOk result (λ copy. copy ≡ label.now) }
    ensures err { IfErr result (λ e. e ≡ Stop.OutOfMemory) }
{
    Ok(Label {
        name: label.name.shared()?,
        kind: label.kind,
        number: label.number,
    })
}

fn pattern_shared(pattern: &Pattern) -> Result<Pattern, Stop>
    ensures ok { IfOk result (λ copy. copy ≡ pattern.now) }
    ensures err { IfErr result (λ e. e ≡ Stop.OutOfMemory) }
{
    match pattern {
        Pattern::Truth(b) => Ok(Pattern::Truth(*b)),
        Pattern::Label(label) => Ok(Pattern::Label(label_shared(label)?)),
    }
}

/// A copy of the clock, with the same names in memory.
pub(crate) fn shared(clock: &Option<Condition>) -> Result<Option<Condition>, Stop>
    ensures ok { IfOk result (λ copy. copy ≡ clock.now) }
    ensures err { IfErr result (λ e. e ≡ Stop.OutOfMemory) }
{
    match clock {
        Some(condition) => Ok(Some(Condition {
            variable: condition.variable.shared()?,
            pattern: pattern_shared(&condition.pattern)?,
        })),
        None => Ok(None),
    }
}

/// The type that is written so; one with a name is an enumeration of which nothing is known but the name.
pub(crate) fn kind_of(written: &WrittenType) -> Kind
    ensures { result ≡ grammar.kind_of (type_view written.now) }
{
    match written {
        WrittenType::Int => Kind::Int,
        WrittenType::Bool => Kind::Bool,
        WrittenType::Named(_) => Kind::Enum(0, 0),
    }
}

/// The name that is written, where it is a name; it lies in memory once.
pub(crate) fn type_name_of(written: &WrittenType) -> Result<Option<SharedName>, Stop>
    ensures ok { IfOk result (λ name. name ≡ grammar.type_name_of (type_view written.now)) }
    ensures err { IfErr result (λ e. e ≡ Stop.OutOfMemory) }
{
    match written {
        WrittenType::Named(name) => Ok(Some(name.shared()?)),
        WrittenType::Int | WrittenType::Bool => Ok(None),
    }
}
