//! A stage of the static checks, and the search for its least fault.

ghost use Rattle.std.specs.Prelude.{◌≡◌, ℕ, Some, IfOk, slice_get};
ghost use Rattle.lutree.specs.declared.program.DeclaredName.{DeclaredName};
ghost use Rattle.lutree.specs.declared.program.TypeDeclaration.{TypeDeclaration};
ghost use Rattle.lutree.specs.declared.program.Declaration.{Declaration};
ghost use Rattle.lutree.specs.declared.program.Equation.{Equation};
ghost use Rattle.lutree.specs.declared.program.Node.{Node};
ghost use Rattle.lutree.specs.declared.program.Program.{Program};
ghost use Rattle.lustat_rules.specs.declared.error.StatError.{StatError};
ghost use Rattle.lustat_rules.specs.Faults.{declared_in, IsJudged, FaultAmong, KeptAmong};
ghost use Rattle.lustat_rules.specs.Stages.{BrokenInType, KeptInType, BrokenInside, KeptInside, BrokenIn, KeptIn};

use crate::catalog::Catalog;
use crate::scope::Scope;
use crate::{StatError, lesser};
use lutree::{Declaration, DeclaredName, Equation, TypeDeclaration};
use std::alloc::{AllocError, Global};

/// A stage of the static checks: a test for each kind of place, and what the tests of one node share.
pub trait Stage<'a> {
    /// What the tests of a node's places share.
    type Prepared: Drop;

    /// The program that is checked.
    ghost program: { Self → Program };

    /// What was prepared serves a node.
    ghost serves: { Self → Node → Self.Prepared → Type 0 };

    /// A fault of the type at a place, and what it keeps.
    ghost breaks_type: { Self → ℕ → TypeDeclaration → StatError → Type 0 };

    ghost keeps_type: { Self → ℕ → TypeDeclaration → Type 0 };

    /// A fault of the name at a place of the type at a place, and what it keeps.
    ghost breaks_name: { Self → ℕ → TypeDeclaration → ℕ → DeclaredName → StatError → Type 0 };

    ghost keeps_name: { Self → ℕ → TypeDeclaration → ℕ → DeclaredName → Type 0 };

    /// A fault of the node at a place, and what it keeps.
    ghost breaks_node: { Self → ℕ → Node → StatError → Type 0 };

    ghost keeps_node: { Self → ℕ → Node → Type 0 };

    /// A fault of the declaration at a place of a node, and what it keeps.
    ghost breaks_declaration: { Self → Node → ℕ → Declaration → StatError → Type 0 };

    ghost keeps_declaration: { Self → Node → ℕ → Declaration → Type 0 };

    /// A fault of the equation at a place of a node, and what it keeps.
    ghost breaks_equation: { Self → Node → ℕ → Equation → StatError → Type 0 };

    ghost keeps_equation: { Self → Node → ℕ → Equation → Type 0 };

    /// The least fault of the type at a place, but for those of its names.
    fn type_fault(&self, place: usize, declaration: &TypeDeclaration) -> Option<StatError>
        requires { slice_get (program self.now).types place ≡ Some declaration.now }
        ensures { IsJudged (breaks_type self.now place declaration.now)
            (keeps_type self.now place declaration.now) result };

    /// The least fault of the name at a place of the type at a place.
    fn name_fault(
        &self,
        place: usize,
        declaration: &TypeDeclaration,
        number: usize,
        name: &DeclaredName,
    ) -> Option<StatError>
        requires of_type { slice_get (program self.now).types place ≡ Some declaration.now }
        requires at { slice_get declaration.now.names number ≡ Some name.now }
        ensures { IsJudged (breaks_name self.now place declaration.now number name.now)
            (keeps_name self.now place declaration.now number name.now) result };

    /// What the tests of the places of a node share.
    ///
    /// # Errors
    ///
    /// An error means that memory ran out.
    fn prepare(
        &self,
        alloc: Global,
        place: usize,
        scope: &Scope<'a>,
    ) -> Result<Self::Prepared, AllocError>
        requires { slice_get (program self.now).nodes place ≡ Some scope.now }
        ensures { IfOk result (serves self.now scope.now) };

    /// The least fault of the node at a place, but for those of its declarations and equations.
    fn node_fault(&self, place: usize, scope: &Scope<'a>) -> Option<StatError>
        requires { slice_get (program self.now).nodes place ≡ Some scope.now }
        ensures { IsJudged (breaks_node self.now place scope.now)
            (keeps_node self.now place scope.now) result };

    /// The least fault of the declaration at a place of a node.
    fn declaration_fault(
        &self,
        prepared: &Self::Prepared,
        scope: &Scope<'a>,
        place: usize,
        declaration: &Declaration,
    ) -> Option<StatError>
        requires serves { serves self.now scope.now prepared.now }
        requires at { slice_get (declared_in scope.now) place ≡ Some declaration.now }
        ensures { IsJudged (breaks_declaration self.now scope.now place declaration.now)
            (keeps_declaration self.now scope.now place declaration.now) result };

    /// The least fault of the equation at a place of a node.
    fn equation_fault(
        &self,
        prepared: &Self::Prepared,
        scope: &Scope<'a>,
        place: usize,
        equation: &Equation,
    ) -> Option<StatError>
        requires serves { serves self.now scope.now prepared.now }
        requires at { slice_get scope.now.equations place ≡ Some equation.now }
        ensures { IsJudged (breaks_equation self.now scope.now place equation.now)
            (keeps_equation self.now scope.now place equation.now) result };
}

/// The least fault of the names of a type.
fn names_fault<'a, S: Stage<'a>>(
    stage: &S,
    place: usize,
    declaration: &TypeDeclaration,
) -> Option<StatError>
    requires { slice_get (S.program stage.now).types place ≡ Some declaration.now }
    ensures { IsJudged
        (FaultAmong declaration.now.names (S.breaks_name stage.now place declaration.now))
        (KeptAmong declaration.now.names (S.keeps_name stage.now place declaration.now)) result }
{
    let mut best = None;
    let names = declaration.names.as_slice();
    for (j, name) in names.iter().enumerate() {
        let found = stage.name_fault(place, declaration, j, name);
        best = lesser(best, found);
    }
    best
}

/// The least fault of the type at a place.
fn whole_type_fault<'a, S: Stage<'a>>(
    stage: &S,
    place: usize,
    declaration: &TypeDeclaration,
) -> Option<StatError>
    requires { slice_get (S.program stage.now).types place ≡ Some declaration.now }
    ensures { IsJudged
        (BrokenInType (S.breaks_type stage.now) (S.breaks_name stage.now) place declaration.now)
        (KeptInType (S.keeps_type stage.now) (S.keeps_name stage.now) place declaration.now)
        result }
{
    let of_type = stage.type_fault(place, declaration);
    let of_names = names_fault(stage, place, declaration);
    lesser(of_type, of_names)
}

/// The least fault of the types.
fn types_fault<'a, S: Stage<'a>>(stage: &S, types: &[TypeDeclaration]) -> Option<StatError>
    requires { (S.program stage.now).types ≡ types.now }
    ensures { IsJudged
        (FaultAmong types.now (BrokenInType (S.breaks_type stage.now) (S.breaks_name stage.now)))
        (KeptAmong types.now (KeptInType (S.keeps_type stage.now) (S.keeps_name stage.now)))
        result }
{
    let mut best = None;
    for (i, declaration) in types.iter().enumerate() {
        let found = whole_type_fault(stage, i, declaration);
        best = lesser(best, found);
    }
    best
}

/// The least fault of the declarations of a node.
fn declarations_fault<'a, S: Stage<'a>>(
    stage: &S,
    prepared: &S::Prepared,
    scope: &Scope<'a>,
) -> Option<StatError>
    requires { S.serves stage.now scope.now prepared.now }
    ensures { IsJudged
        (FaultAmong (declared_in scope.now) (S.breaks_declaration stage.now scope.now))
        (KeptAmong (declared_in scope.now) (S.keeps_declaration stage.now scope.now)) result }
{
    let mut best = None;
    let declarations = scope.declarations();
    for (j, declaration) in declarations.iter().enumerate() {
        let found = stage.declaration_fault(prepared, scope, j, *declaration);
        best = lesser(best, found);
    }
    best
}

/// The least fault of the equations of a node.
fn equations_fault<'a, S: Stage<'a>>(
    stage: &S,
    prepared: &S::Prepared,
    scope: &Scope<'a>,
) -> Option<StatError>
    requires { S.serves stage.now scope.now prepared.now }
    ensures { IsJudged (FaultAmong scope.now.equations (S.breaks_equation stage.now scope.now))
        (KeptAmong scope.now.equations (S.keeps_equation stage.now scope.now)) result }
{
    let mut best = None;
    let equations = scope.node().equations.as_slice();
    for (j, equation) in equations.iter().enumerate() {
        let found = stage.equation_fault(prepared, scope, j, equation);
        best = lesser(best, found);
    }
    best
}

/// The least fault of the node at a place.
fn node_fault<'a, S: Stage<'a>>(
    alloc: Global,
    stage: &S,
    place: usize,
    scope: &Scope<'a>,
) -> Result<Option<StatError>, AllocError>
    requires { slice_get (S.program stage.now).nodes place ≡ Some scope.now }
    ensures { IfOk result (IsJudged
        (BrokenInside (S.breaks_node stage.now) (S.breaks_declaration stage.now)
        (S.breaks_equation stage.now) place scope.now)
        (KeptInside (S.keeps_node stage.now) (S.keeps_declaration stage.now)
        (S.keeps_equation stage.now) place scope.now)) }
{
    let prepared = stage.prepare(alloc, place, scope)?;
    let of_node = stage.node_fault(place, scope);
    let of_declarations = declarations_fault(stage, &prepared, scope);
    let of_equations = equations_fault(stage, &prepared, scope);
    Ok(lesser(of_node, lesser(of_declarations, of_equations)))
}

/// The least fault of the nodes.
fn nodes_fault<'a, S: Stage<'a>>(
    alloc: Global,
    stage: &S,
    scopes: &[Scope<'a>],
) -> Result<Option<StatError>, AllocError>
    requires { (S.program stage.now).nodes ≡ scopes.now }
    ensures { IfOk result (IsJudged
        (FaultAmong scopes.now (BrokenInside (S.breaks_node stage.now)
        (S.breaks_declaration stage.now) (S.breaks_equation stage.now)))
        (KeptAmong scopes.now (KeptInside (S.keeps_node stage.now) (S.keeps_declaration stage.now)
        (S.keeps_equation stage.now)))) }
{
    let mut best = None;
    for (i, scope) in scopes.iter().enumerate() {
        let found = node_fault(alloc, stage, i, scope)?;
        best = lesser(best, found);
    }
    Ok(best)
}

/// The least fault that a stage finds at the types and their names, and at the nodes, their declarations and
/// their equations: that of the least byte, at equal bytes that of the least number. None where the stage
/// finds none.
///
/// # Errors
///
/// An error means that memory ran out.
pub fn least_fault<'a, S: Stage<'a>>(
    alloc: Global,
    stage: &S,
    catalog: &Catalog<'a>,
) -> Result<Option<StatError>, AllocError>
    requires { S.program stage.now ≡ catalog.now }
    ensures { IfOk result (IsJudged
        (BrokenIn catalog.now
        (BrokenInType (S.breaks_type stage.now) (S.breaks_name stage.now))
        (BrokenInside (S.breaks_node stage.now) (S.breaks_declaration stage.now)
        (S.breaks_equation stage.now)))
        (KeptIn catalog.now
        (KeptInType (S.keeps_type stage.now) (S.keeps_name stage.now))
        (KeptInside (S.keeps_node stage.now) (S.keeps_declaration stage.now)
        (S.keeps_equation stage.now)))) }
{
    let of_types = types_fault(stage, catalog.program().types.as_slice());
    let of_nodes = nodes_fault(alloc, stage, catalog.scopes())?;
    Ok(lesser(of_types, of_nodes))
}
