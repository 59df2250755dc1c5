//! The search for the least fault of initialisation.

ghost use Rattle.std.specs.Prelude.{◌≡◌, ◌<◌, ℕ, List, All, IfOk, length};
ghost use Rattle.lutree.specs.declared.program.Node.{Node};
ghost use Rattle.lutree.specs.Tree.{node_view, program_view};
ghost use Rattle.lustat_rules.specs.Accepted.{Passes};
ghost use Rattle.lustat_rules.specs.Faults.{IsJudged};
ghost use Rattle.lustat_rules.specs.Told.{Tells};
ghost use Rattle.lustat_init.specs.Assigned.{LeftsKnown};
ghost use Rattle.lustat_init.specs.Faults.{EquationKept, EquationFault, AreKept, IsFault, ReportsBroken};
ghost use Rattle.lustat_init.specs.Served.{Serves, AreLeast};
ghost use Rattle.lustat_init.specs.Rows.{plain, GiveLeastBelow, AreClasses, IfKept, IfBroken, fault_of};

use crate::Firsts;
use crate::judge::{clocks_named, keeps_classes};
use crate::least::least_classes;
use lustat_rules::{Catalog, Places, Scope, Stage, StatError, least_fault, least_of, reported};
use lutree::{Declaration, DeclaredName, Equation, TypeDeclaration};
use std::alloc::{AllocError, Global};

/// What [`initialise`] finds.
#[derive(Drop)]
pub enum Initialised {
    /// The classes of each node, in order of text: for each a mark by place of declaration, true for class 1.
    /// Behind the marks of a node's variables stand others.
    Kept(Vec<Vec<bool>>),
    /// The fault that is reported.
    Broken(StatError),
}

/// What the tests of the equations of a node share: the variables that clocks name, those that are true or
/// false at first, and the marks of the node's least classes.
#[derive(Drop)]
pub(crate) struct Prepared<'r, 'a> {
    pub(crate) named: Places<'a>,
    pub(crate) firsts: Firsts<'a>,
    pub(crate) marks: &'r [bool],
}

/// The faults of an equation, rule by rule.
pub(crate) fn equation_faults(
    prepared: &Prepared,
    scope: &Scope,
    equation: &Equation,
) -> [Option<StatError>; 2]
    requires { Serves scope.now prepared.now.named prepared.now.firsts prepared.now.marks.now }
    ensures { Tells (EquationFault scope.now equation.now) (EquationKept scope.now equation.now)
        result }
{
    let byte = equation.byte;
    let keeps = keeps_classes(scope, prepared.marks, &prepared.named, equation);
    let starts = prepared.firsts.currents_start(scope, equation);
    let nil = reported(keeps, StatError::MaybeNil { byte });
    let current = reported(starts, StatError::CurrentMayBeNil { byte });
    [nil, current]
}

/// The rules of initialisation at the equations of nodes, with marks of the least classes for each node.
#[derive(Drop)]
pub(crate) struct ClassStage<'r, 'a> {
    pub(crate) catalog: &'r Catalog<'a>,
    pub(crate) rows: &'r [Vec<bool>],
    ghost least: { AreLeast catalog.now.nodes (plain rows.now) },
}

impl<'r, 'a> Stage<'a> for ClassStage<'r, 'a> {
    type Prepared = Prepared<'r, 'a>;

    ghost program = { λ s. s.catalog.now };

    ghost serves = { λ s n prepared. Serves n prepared.named prepared.firsts prepared.marks.now };

    // No rule of initialisation is reported at a type, at a node or at a declaration.
    ghost breaks_type = { λ _ _ _ _. ⊥ };

    ghost keeps_type = { λ _ _ _. Unit {0} };

    ghost breaks_name = { λ _ _ _ _ _ _. ⊥ };

    ghost keeps_name = { λ _ _ _ _ _. Unit {0} };

    ghost breaks_node = { λ _ _ _ _. ⊥ };

    ghost keeps_node = { λ _ _ _. Unit {0} };

    ghost breaks_declaration = { λ _ _ _ _ _. ⊥ };

    ghost keeps_declaration = { λ _ _ _ _. Unit {0} };

    ghost breaks_equation = { λ _ n _ q. EquationFault n q };

    ghost keeps_equation = { λ _ n _ q. EquationKept n q };

    fn type_fault(&self, _place: usize, _declaration: &TypeDeclaration) -> Option<StatError> {
        None
    }

    fn name_fault(
        &self,
        _place: usize,
        _declaration: &TypeDeclaration,
        _number: usize,
        _name: &DeclaredName,
    ) -> Option<StatError> {
        None
    }

    fn prepare(
        &self,
        alloc: Global,
        place: usize,
        scope: &Scope<'a>,
    ) -> Result<Prepared<'r, 'a>, AllocError> {
        let named = clocks_named(alloc, scope)?;
        let firsts = Firsts::new(alloc, scope)?;
        let marks = self.rows[place].as_slice();
        Ok(Prepared {
            named,
            firsts,
            marks,
        })
    }

    fn node_fault(&self, _place: usize, _scope: &Scope<'a>) -> Option<StatError> {
        None
    }

    fn declaration_fault(
        &self,
        _prepared: &Prepared<'r, 'a>,
        _scope: &Scope<'a>,
        _place: usize,
        _declaration: &Declaration,
    ) -> Option<StatError> {
        None
    }

    fn equation_fault(
        &self,
        prepared: &Prepared<'r, 'a>,
        scope: &Scope<'a>,
        _place: usize,
        equation: &Equation,
    ) -> Option<StatError> {
        let row = equation_faults(prepared, scope, equation);
        least_of(&row)
    }
}

/// The least classes of nodes, in order.
pub(crate) fn rows_of(alloc: Global, scopes: &[Scope]) -> Result<Vec<Vec<bool>>, AllocError>
    requires { All (λ (n : Node). LeftsKnown (node_view n)) scopes.now }
    ensures { IfOk result
        (λ rows. GiveLeastBelow (length scopes.now) scopes.now (plain rows.items)) }
{
    let mut rows = Vec::with_capacity(alloc, scopes.len())?;
    for scope in scopes {
        let row = least_classes(alloc, scope)?;
        rows.push(row)?;
    }
    Ok(rows)
}

/// The least fault of nodes.
fn nodes_fault(
    alloc: Global,
    catalog: &Catalog,
    rows: &[Vec<bool>],
) -> Result<Option<StatError>, AllocError>
    requires { GiveLeastBelow (length catalog.now.nodes) catalog.now.nodes (plain rows.now) }
    ensures { IfOk result (IsJudged (IsFault catalog.now.nodes) (AreKept catalog.now.nodes)) }
{
    least_fault(alloc, &ClassStage { catalog, rows }, catalog)
}

/// Whether a program keeps the rules of initialisation: the least classes of each node, or the least fault,
/// that of the least byte, at equal bytes that of the least number. Classes are checked at each equation with
/// the least classes of its node.
///
/// What the equations define has to be declared, as the rules of names ask ([`crate::laws::lefts_law`]). The
/// time grows with the size of the program.
///
/// # Errors
///
/// An error means that memory ran out.
pub fn initialise(alloc: Global, catalog: &Catalog) -> Result<Initialised, AllocError>
    requires { All LeftsKnown (program_view catalog.now).nodes }
    ensures classes { IfOk result (λ found. IfKept found (AreClasses (program_view catalog.now))) }
    ensures passes { IfOk result (λ found. IfKept found
        (λ _. (main : List ℕ) → Passes (program_view catalog.now) main 3)) }
    ensures broken { IfOk result (λ found. IfBroken found
        (λ e. (main : List ℕ) → ReportsBroken (program_view catalog.now) main e)) }
    ensures first { IfOk result (λ found. IsJudged (IsFault catalog.now.nodes)
        (AreKept catalog.now.nodes) (fault_of found)) }
{
    let rows = rows_of(alloc, catalog.scopes())?;
    match nodes_fault(alloc, catalog, &rows)? {
        None => Ok(Initialised::Kept(rows)),
        Some(fault) => Ok(Initialised::Broken(fault)),
    }
}
