//! Which equations define a variable.

ghost use Rattle.std.specs.Prelude.{◌≡◌, ◌↔◌, ◌++◌, ◌+◌, ◌<◌, ℕ, List, [], Some, IsTrue, IfOk, OnOk, Contains, length, map, take, slice_get};
ghost use Rattle.lutree.specs.Tree.{node_view, equation_view, declaration_view};
ghost use Rattle.lustat_rules.specs.Scope.{lefts_of, IsInput};
ghost use Rattle.lustat_rules.specs.Naming.{IsDefined, DefinesAnew};
ghost use Rattle.lubase.specs.Places.{first_place};
ghost use Rattle.lutype.specs.Starts.{AreStarts, IsAnew};

use lubase::Name;
use lustat_rules::{Places, Scope};
use lutree::{Declaration, Equation, Node};
use std::alloc::{AllocError, Global};
use std::marker::Model;

/// The variables that the equations of a node define, lent, with a table of where each stands first. A
/// contract sees the node.
pub struct Definitions<'a> {
    node: &'a Node,
    lefts: Places<'a>,
    /// Where the left side of each equation begins in the row of all.
    starts: Vec<usize>,
}

// By hand, so that it is proved here alone, and not in each crate that owns one.
impl Drop for Definitions<'_> {
    fn drop(self) {
        let Self {
            node: _,
            lefts: _,
            starts: _,
        } = self;
    }
}

impl<'a> Model for Definitions<'a> {
    ghost use Rattle.lutree.specs.declared.program.Node.{Node};
    ghost use Rattle.std.specs.Coded.{codes};
    ghost use Rattle.lutree.specs.contracts.expr.Expr as tree_row;

    ghost Value = { Node };

    ghost coded = { Prim.hlevel (codes, tree_row.the_row.coded) };

    ghost use Rattle.lutype.specs.Tables.{AreDefinitions};

    ghost view = { λ d. d.node.now };

    ghost invariant = { AreDefinitions };
}

/// The variables of a left side, behind those before.
fn push_left<'a>(names: &mut Vec<&'a str>, left: &'a [Name]) -> Result<(), AllocError>
    ensures { OnOk result (map (λ n. n.now) names.new.items ≡ map (λ n. n.now) names.old.items
        ++ left.now) }
{
    for x in left {
        names.push(x.as_str())?;
    }
    Ok(())
}

/// The variables of all left sides in a row, and where each equation's begin.
fn fill<'a>(
    names: &mut Vec<&'a str>,
    starts: &mut Vec<usize>,
    equations: &'a [Equation],
) -> Result<(), AllocError>
    requires no_names { names.old.items ≡ [] }
    requires no_starts { starts.old.items ≡ [] }
    ensures names { OnOk result (map (λ n. n.now) names.new.items
        ≡ lefts_of (map equation_view equations.now)) }
    ensures starts { OnOk result (AreStarts (length equations.now)
        (map equation_view equations.now) starts.new.items) }
{
    for equation in equations {
        starts.push(names.len())?;
        push_left(names, equation.left.as_slice())?;
    }
    Ok(())
}

impl<'a> Definitions<'a> {
    /// The tables of a node. Their expected time grows with the length of its names.
    pub fn new(alloc: Global, node: &'a Node) -> Result<Definitions<'a>, AllocError>
        ensures { IfOk result (λ definitions. definitions ≡ node.now) }
    {
        let mut names = Vec::new(alloc);
        let mut starts = Vec::new(alloc);
        fill(&mut names, &mut starts, node.equations.as_slice())?;
        let lefts = Places::new(alloc, names)?;
        Ok(Definitions {
            node,
            lefts,
            starts,
        })
    }

    /// Whether some equation defines a variable.
    fn has(&self, name: &str) -> bool
        ensures { IsTrue result ↔ Contains (lefts_of (map equation_view self.now.equations))
            name.now }
    {
        self.lefts.has(name)
    }

    /// Where the left side of an equation begins in the row of all.
    fn start(&self, equation: usize) -> usize
        requires { equation < length self.now.equations }
        ensures { result ≡ length (lefts_of (take equation
            (map equation_view self.now.equations))) }
    {
        self.starts[equation]
    }

    /// Whether a variable of a left side, at a place of it, stands first in the row of all. The left side
    /// begins at a place of the row.
    fn stands_first(&self, start: usize, place: usize, name: &str) -> bool
        ensures { IsTrue result ↔ (first_place (lefts_of (map equation_view self.now.equations))
            name.now ≡ Some (start + place)) }
    {
        match self.lefts.find(name) {
            None => false,
            Some(found) => found >= start && found - start == place,
        }
    }

    /// Whether a variable of a left side stands first in the row of all, and is no input.
    fn stands_anew(&self, scope: &Scope, start: usize, place: usize, name: &str) -> bool
        ensures { IsTrue result ↔ IsAnew (node_view scope.now)
            (lefts_of (map equation_view self.now.equations)) (start + place) name.now }
    {
        if self.stands_first(start, place, name) {
            if scope.is_input(name) { false } else { true }
        } else {
            false
        }
    }
}

/// Whether the variables of a left side, which begins at a place of the row of all, stand there first, and
/// none is an input.
fn is_anew(scope: &Scope, definitions: &Definitions, start: usize, left: &[Name]) -> bool
    ensures { IsTrue result ↔ ((j : ℕ) → (x : List ℕ) → slice_get left.now j ≡ Some x
        → IsAnew (node_view scope.now) (lefts_of (map equation_view definitions.now.equations))
        (start + j) x) }
{
    for (j, x) in left.iter().enumerate() {
        if definitions.stands_anew(scope, start, j, x.as_str()) {
            continue;
        }
        return false;
    }
    true
}

/// Whether an equation, at a place of the node, defines what none before it does, nothing twice and no input.
pub fn defines_anew(
    scope: &Scope,
    definitions: &Definitions,
    place: usize,
    equation: &Equation,
) -> bool
    requires same { definitions.now ≡ scope.now }
    requires at { slice_get scope.now.equations place ≡ Some equation.now }
    ensures { IsTrue result ↔ DefinesAnew (node_view scope.now) place (equation_view equation.now) }
{
    let start = definitions.start(place);
    is_anew(scope, definitions, start, equation.left.as_slice())
}

/// Whether a variable is an input or has an equation.
pub fn is_defined(scope: &Scope, definitions: &Definitions, declaration: &Declaration) -> bool
    requires { definitions.now ≡ scope.now }
    ensures { IsTrue result ↔ IsDefined (node_view scope.now) (declaration_view declaration.now) }
{
    let name = declaration.name.as_str();
    scope.is_input(name) || definitions.has(name)
}
