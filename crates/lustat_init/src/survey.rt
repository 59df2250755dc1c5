//! The search for all faults of initialisation.

ghost use Rattle.std.specs.Prelude.{All, IfOk, length};
ghost use Rattle.lutree.specs.Tree.{program_view};
ghost use Rattle.lustat_rules.specs.AllFaults.{AreAllFaults};
ghost use Rattle.lustat_init.specs.Assigned.{LeftsKnown};
ghost use Rattle.lustat_init.specs.Faults.{IsFault};
ghost use Rattle.lustat_init.specs.Rows.{plain, GiveLeastBelow};

use crate::search::{ClassStage, Prepared, equation_faults, rows_of};
use lustat_rules::{Catalog, Scope, StatError, Survey, all_faults, push_each};
use lutree::{Declaration, DeclaredName, Equation, TypeDeclaration};
use std::alloc::{AllocError, Global};

impl<'r, 'a> Survey<'a> for ClassStage<'r, 'a> {
    /// No rule of initialisation is reported at a type, at a node or at a declaration.
    fn push_type_faults(
        &self,
        _found: &mut Vec<StatError>,
        _place: usize,
        _declaration: &TypeDeclaration,
    ) -> Result<(), AllocError> {
        Ok(())
    }

    fn push_name_faults(
        &self,
        _found: &mut Vec<StatError>,
        _place: usize,
        _declaration: &TypeDeclaration,
        _number: usize,
        _name: &DeclaredName,
    ) -> Result<(), AllocError> {
        Ok(())
    }

    fn push_node_faults(
        &self,
        _found: &mut Vec<StatError>,
        _place: usize,
        _scope: &Scope<'a>,
    ) -> Result<(), AllocError> {
        Ok(())
    }

    fn push_declaration_faults(
        &self,
        _found: &mut Vec<StatError>,
        _prepared: &Prepared<'r, 'a>,
        _scope: &Scope<'a>,
        _place: usize,
        _declaration: &Declaration,
    ) -> Result<(), AllocError> {
        Ok(())
    }

    fn push_equation_faults(
        &self,
        found: &mut Vec<StatError>,
        prepared: &Prepared<'r, 'a>,
        scope: &Scope<'a>,
        _place: usize,
        equation: &Equation,
    ) -> Result<(), AllocError> {
        let row = equation_faults(prepared, scope, equation);
        push_each(found, &row)
    }
}

/// All faults of nodes.
fn all_of_nodes(
    alloc: Global,
    catalog: &Catalog,
    rows: &[Vec<bool>],
) -> Result<Vec<StatError>, AllocError>
    requires { GiveLeastBelow (length catalog.now.nodes) catalog.now.nodes (plain rows.now) }
    ensures { IfOk result (λ faults. AreAllFaults (IsFault catalog.now.nodes) faults.items) }
{
    all_faults(alloc, &ClassStage { catalog, rows }, catalog)
}

/// All faults of a program by the rules of initialisation, each once, by byte, at equal bytes by number.
/// Classes are checked at each equation with the least classes of its node.
///
/// What the equations define has to be declared, as the rules of names ask ([`crate::laws::lefts_law`]). The
/// time grows with the size of the program, and with the count of faults times its logarithm.
///
/// # Errors
///
/// An error means that memory ran out.
pub fn all_class_faults(alloc: Global, catalog: &Catalog) -> Result<Vec<StatError>, AllocError>
    requires { All LeftsKnown (program_view catalog.now).nodes }
    ensures { IfOk result (λ faults. AreAllFaults (IsFault catalog.now.nodes) faults.items) }
{
    let rows = rows_of(alloc, catalog.scopes())?;
    all_of_nodes(alloc, catalog, &rows)
}
