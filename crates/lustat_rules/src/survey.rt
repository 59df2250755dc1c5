//! A stage of the static checks that gives all faults, and the search for them.

ghost use Rattle.std.specs.Prelude.{◌≡◌, ℕ, Some, IfOk, OnOk, slice_get};
ghost use Rattle.lustat_rules.specs.Faults.{declared_in, FaultAmong};
ghost use Rattle.lustat_rules.specs.Stages.{BrokenInType, BrokenInside, BrokenIn};
ghost use Rattle.lustat_rules.specs.AllFaults.{AreAllFaults, Gains};

use crate::order::in_order;
use crate::{Catalog, Scope, Stage, StatError};
use lutree::{Declaration, DeclaredName, Equation, TypeDeclaration};
use std::alloc::{AllocError, Global};

/// A stage of the static checks that gives all faults of each place, and not the least alone. Each test adds
/// them behind those that were found before, in any order.
pub trait Survey<'a>: Stage<'a> {
    /// Adds the faults of the type at a place, but for those of its names.
    ///
    /// # Errors
    ///
    /// An error means that memory ran out.
    fn push_type_faults(
        &self,
        found: &mut Vec<StatError>,
        place: usize,
        declaration: &TypeDeclaration,
    ) -> Result<(), AllocError>
        requires { slice_get (Self.program self.now).types place ≡ Some declaration.now }
        ensures { OnOk result (Gains (Self.breaks_type self.now place declaration.now)
            found.old.items found.new.items) };

    /// Adds the faults of the name at a place of the type at a place.
    ///
    /// # Errors
    ///
    /// An error means that memory ran out.
    fn push_name_faults(
        &self,
        found: &mut Vec<StatError>,
        place: usize,
        declaration: &TypeDeclaration,
        number: usize,
        name: &DeclaredName,
    ) -> Result<(), AllocError>
        requires of_type { slice_get (Self.program self.now).types place ≡ Some declaration.now }
        requires at { slice_get declaration.now.names number ≡ Some name.now }
        ensures { OnOk result
            (Gains (Self.breaks_name self.now place declaration.now number name.now)
            found.old.items found.new.items) };

    /// Adds the faults of the node at a place, but for those of its declarations and equations.
    ///
    /// # Errors
    ///
    /// An error means that memory ran out.
    fn push_node_faults(
        &self,
        found: &mut Vec<StatError>,
        place: usize,
        scope: &Scope<'a>,
    ) -> Result<(), AllocError>
        requires { slice_get (Self.program self.now).nodes place ≡ Some scope.now }
        ensures { OnOk result (Gains (Self.breaks_node self.now place scope.now)
            found.old.items found.new.items) };

    /// Adds the faults of the declaration at a place of a node.
    ///
    /// # Errors
    ///
    /// An error means that memory ran out.
    fn push_declaration_faults(
        &self,
        found: &mut Vec<StatError>,
        prepared: &Self::Prepared,
        scope: &Scope<'a>,
        place: usize,
        declaration: &Declaration,
    ) -> Result<(), AllocError>
        requires serves { Self.serves self.now scope.now prepared.now }
        requires at { slice_get (declared_in scope.now) place ≡ Some declaration.now }
        ensures { OnOk result
            (Gains (Self.breaks_declaration self.now scope.now place declaration.now)
            found.old.items found.new.items) };

    /// Adds the faults of the equation at a place of a node.
    ///
    /// # Errors
    ///
    /// An error means that memory ran out.
    fn push_equation_faults(
        &self,
        found: &mut Vec<StatError>,
        prepared: &Self::Prepared,
        scope: &Scope<'a>,
        place: usize,
        equation: &Equation,
    ) -> Result<(), AllocError>
        requires serves { Self.serves self.now scope.now prepared.now }
        requires at { slice_get scope.now.equations place ≡ Some equation.now }
        ensures { OnOk result
            (Gains (Self.breaks_equation self.now scope.now place equation.now)
            found.old.items found.new.items) };
}

/// Adds the faults of the type at a place and of its names.
fn push_in_type<'a, S: Survey<'a>>(
    survey: &S,
    found: &mut Vec<StatError>,
    place: usize,
    declaration: &TypeDeclaration,
) -> Result<(), AllocError>
    requires { slice_get (S.program survey.now).types place ≡ Some declaration.now }
    ensures { OnOk result (Gains (BrokenInType (S.breaks_type survey.now)
        (S.breaks_name survey.now) place declaration.now) found.old.items found.new.items) }
{
    survey.push_type_faults(found, place, declaration)?;
    push_of_names(survey, found, place, declaration)
}

/// Adds the faults of the names of a type.
fn push_of_names<'a, S: Survey<'a>>(
    survey: &S,
    found: &mut Vec<StatError>,
    place: usize,
    declaration: &TypeDeclaration,
) -> Result<(), AllocError>
    requires { slice_get (S.program survey.now).types place ≡ Some declaration.now }
    ensures { OnOk result (Gains (FaultAmong declaration.now.names
        (S.breaks_name survey.now place declaration.now)) found.old.items found.new.items) }
{
    let names = declaration.names.as_slice();
    for (j, name) in names.iter().enumerate() {
        survey.push_name_faults(found, place, declaration, j, name)?;
    }
    Ok(())
}

/// Adds the faults of the types.
fn push_of_types<'a, S: Survey<'a>>(
    survey: &S,
    found: &mut Vec<StatError>,
    types: &[TypeDeclaration],
) -> Result<(), AllocError>
    requires { (S.program survey.now).types ≡ types.now }
    ensures { OnOk result (Gains (FaultAmong types.now
        (BrokenInType (S.breaks_type survey.now) (S.breaks_name survey.now)))
        found.old.items found.new.items) }
{
    for (i, declaration) in types.iter().enumerate() {
        push_in_type(survey, found, i, declaration)?;
    }
    Ok(())
}

/// Adds the faults of the declarations of a node.
fn push_of_declarations<'a, S: Survey<'a>>(
    survey: &S,
    found: &mut Vec<StatError>,
    prepared: &S::Prepared,
    scope: &Scope<'a>,
) -> Result<(), AllocError>
    requires { S.serves survey.now scope.now prepared.now }
    ensures { OnOk result (Gains (FaultAmong (declared_in scope.now)
        (S.breaks_declaration survey.now scope.now)) found.old.items found.new.items) }
{
    let declarations = scope.declarations();
    for (j, declaration) in declarations.iter().enumerate() {
        survey.push_declaration_faults(found, prepared, scope, j, *declaration)?;
    }
    Ok(())
}

/// Adds the faults of the equations of a node.
fn push_of_equations<'a, S: Survey<'a>>(
    survey: &S,
    found: &mut Vec<StatError>,
    prepared: &S::Prepared,
    scope: &Scope<'a>,
) -> Result<(), AllocError>
    requires { S.serves survey.now scope.now prepared.now }
    ensures { OnOk result (Gains (FaultAmong scope.now.equations
        (S.breaks_equation survey.now scope.now)) found.old.items found.new.items) }
{
    let equations = scope.node().equations.as_slice();
    for (j, equation) in equations.iter().enumerate() {
        survey.push_equation_faults(found, prepared, scope, j, equation)?;
    }
    Ok(())
}

/// Adds the faults of the node at a place, of its declarations and of its equations.
fn push_in_node<'a, S: Survey<'a>>(
    alloc: Global,
    survey: &S,
    found: &mut Vec<StatError>,
    place: usize,
    scope: &Scope<'a>,
) -> Result<(), AllocError>
    requires { slice_get (S.program survey.now).nodes place ≡ Some scope.now }
    ensures { OnOk result (Gains (BrokenInside (S.breaks_node survey.now)
        (S.breaks_declaration survey.now) (S.breaks_equation survey.now) place scope.now)
        found.old.items found.new.items) }
{
    let prepared = survey.prepare(alloc, place, scope)?;
    survey.push_node_faults(found, place, scope)?;
    push_of_declarations(survey, found, &prepared, scope)?;
    push_of_equations(survey, found, &prepared, scope)
}

/// Adds the faults of the nodes.
fn push_of_nodes<'a, S: Survey<'a>>(
    alloc: Global,
    survey: &S,
    found: &mut Vec<StatError>,
    scopes: &[Scope<'a>],
) -> Result<(), AllocError>
    requires { (S.program survey.now).nodes ≡ scopes.now }
    ensures { OnOk result (Gains (FaultAmong scopes.now (BrokenInside (S.breaks_node survey.now)
        (S.breaks_declaration survey.now) (S.breaks_equation survey.now)))
        found.old.items found.new.items) }
{
    for (i, scope) in scopes.iter().enumerate() {
        push_in_node(alloc, survey, found, i, scope)?;
    }
    Ok(())
}

/// Adds all faults that a survey finds at the types and their names, and at the nodes, their declarations and
/// their equations, in any order.
///
/// # Errors
///
/// An error means that memory ran out.
pub fn push_faults<'a, S: Survey<'a>>(
    alloc: Global,
    survey: &S,
    catalog: &Catalog<'a>,
    found: &mut Vec<StatError>,
) -> Result<(), AllocError>
    requires { S.program survey.now ≡ catalog.now }
    ensures { OnOk result (Gains (BrokenIn catalog.now
        (BrokenInType (S.breaks_type survey.now) (S.breaks_name survey.now))
        (BrokenInside (S.breaks_node survey.now) (S.breaks_declaration survey.now)
        (S.breaks_equation survey.now))) found.old.items found.new.items) }
{
    push_of_types(survey, found, catalog.program().types.as_slice())?;
    push_of_nodes(alloc, survey, found, catalog.scopes())
}

/// All faults that a survey finds at the types and their names, and at the nodes, their declarations and
/// their equations: each once, by byte, at equal bytes by number. The first is that of
/// [`lustat_rules::least_fault`].
///
/// # Errors
///
/// An error means that memory ran out.
pub fn all_faults<'a, S: Survey<'a>>(
    alloc: Global,
    survey: &S,
    catalog: &Catalog<'a>,
) -> Result<Vec<StatError>, AllocError>
    requires { S.program survey.now ≡ catalog.now }
    ensures { IfOk result (λ faults. AreAllFaults (BrokenIn catalog.now
        (BrokenInType (S.breaks_type survey.now) (S.breaks_name survey.now))
        (BrokenInside (S.breaks_node survey.now) (S.breaks_declaration survey.now)
        (S.breaks_equation survey.now))) faults.items) }
{
    let mut found = Vec::new(alloc);
    push_faults(alloc, survey, catalog, &mut found)?;
    in_order(found)
}
