//! The condition of `current`.

ghost use Rattle.std.specs.Prelude.{◌≡◌, ◌↔◌, IsTrue, map, IfOk};
ghost use Rattle.lutree.specs.Tree.{equation_view, node_view, view, views, trees_of};
ghost use Rattle.lustat_rules.specs.Classes.{CurrentsStart};
ghost use Rattle.lustat_init.specs.Beginnings.{begun_view, IsBegun, AreMarked};
ghost use Rattle.lustat_init.specs.Currents.{IsStarted, EachCurrent, EachCurrentOfAll};
ghost use Rattle.lustat_rules.specs.Scopes.{clock_list};

use crate::begun::BeginningTable;
use lustat_rules::Scope;
use lutree::{Declaration, Equation, Expr, Node};
use std::alloc::{AllocError, Global};
use std::marker::Model;

/// Whether the clock of a declaration, if it has one, is true at first.
fn starts_by(table: &BeginningTable, declaration: &Declaration) -> bool
    ensures { IsTrue result
        ↔ IsBegun (map begun_view table.now.all.items) declaration.now.clock }
{
    match &declaration.clock {
        None => true,
        Some(c) => table.has(c.variable.as_str(), &c.pattern),
    }
}

/// For each of some declarations whether its clock is true at first.
fn starts_of(
    alloc: Global,
    table: &BeginningTable,
    declarations: &[&Declaration],
) -> Result<Vec<bool>, AllocError>
    ensures { IfOk result (λ marks. AreMarked (IsBegun (map begun_view table.now.all.items))
        marks.items (clock_list (map (λ d. d.now) declarations.now))) }
{
    let mut marks = Vec::with_capacity(alloc, declarations.len())?;
    for d in declarations {
        marks.push(starts_by(table, d))?;
    }
    Ok(marks)
}

/// For each declaration of a node whether its clock is true at first, by the form of the equations. A
/// contract sees the node.
pub struct Firsts<'a> {
    node: &'a Node,
    started: Vec<bool>,
}

// By hand, so that it is proved here alone, and not in each crate that owns one.
impl Drop for Firsts<'_> {
    fn drop(self) {
        let Self {
            node: _,
            started: _,
        } = self;
    }
}

impl<'a> Model for Firsts<'a> {
    ghost use Rattle.lutree.specs.declared.program.Node.{Node};
    ghost use Rattle.std.specs.Coded.{codes};
    ghost use Rattle.lutree.specs.contracts.expr.Expr as tree_row;

    ghost Value = { Node };

    ghost coded = { Prim.hlevel (codes, tree_row.the_row.coded) };

    ghost use Rattle.lustat_init.specs.Tables.{AreFirsts};

    ghost view = { λ s. s.node.now };

    ghost invariant = { AreFirsts };
}

impl<'a> Firsts<'a> {
    /// The marks of a node. Their time grows with the length of the node.
    ///
    /// # Errors
    ///
    /// An error means that memory ran out.
    pub fn new(alloc: Global, scope: &Scope<'a>) -> Result<Firsts<'a>, AllocError>
        ensures { IfOk result (λ firsts. firsts ≡ scope.now) }
    {
        let node = scope.node();
        let table = BeginningTable::new(alloc, node.equations.as_slice())?;
        let started = starts_of(alloc, &table, scope.declarations())?;
        Ok(Firsts { node, started })
    }

    /// Whether the clock of a variable is true at first, if it has one. The clock's name isn't looked at.
    fn starts(&self, scope: &Scope, name: &str) -> bool
        requires { scope.now ≡ self.now }
        ensures { IsTrue result ↔ IsStarted (node_view self.now) name.now }
    {
        match scope.place(name) {
            None => true,
            Some(place) => self.started.get(place).copied().unwrap_or(true),
        }
    }

    /// Whether all uses of `current` in an expression are of variables whose clocks are true at first.
    #[cycle(currents)]
    fn all_start(&self, scope: &Scope, e: &Expr) -> bool
        requires { scope.now ≡ self.now }
        ensures { IsTrue result ↔ EachCurrent (IsStarted (node_view self.now)) (view e.now) }
    {
        match e {
            Expr::Number(_) | Expr::Truth(_) | Expr::Label(_) | Expr::Variable(_) => true,
            Expr::Unary(_, a) => self.all_start(scope, a),
            Expr::Binary(_, a, b) => self.all_start(scope, a) && self.all_start(scope, b),
            Expr::If(c, a, b) => {
                self.all_start(scope, c) && self.all_start(scope, a) && self.all_start(scope, b)
            }
            Expr::When(a, _) => self.all_start(scope, a),
            Expr::Current(x) => self.starts(scope, x.as_str()),
            Expr::Merge(_, _, branches) => self.arguments_start(scope, branches),
            Expr::Call(_, arguments) => self.arguments_start(scope, arguments),
        }
    }

    /// Whether each `current` in the arguments of a call or the branches of a merge starts.
    #[cycle(currents)]
    fn arguments_start(&self, scope: &Scope, arguments: &[Expr]) -> bool
        requires { scope.now ≡ self.now }
        ensures { IsTrue result ↔ EachCurrentOfAll (IsStarted (node_view self.now))
            (trees_of (views arguments.now)) }
    {
        for a in arguments {
            if self.all_start(scope, a) {
                continue;
            }
            return false;
        }
        true
    }

    /// `E31`: whether `current` stands in an equation only before variables whose clock is true at first.
    /// `scope` is the same node's. The time grows with the length of the equation, whatever the length of the
    /// clocks' names. Takes no memory.
    pub fn currents_start(&self, scope: &Scope, equation: &Equation) -> bool
        requires { scope.now ≡ self.now }
        ensures { IsTrue result ↔ CurrentsStart (node_view self.now) (equation_view equation.now) }
    {
        self.all_start(scope, &equation.right)
    }
}
