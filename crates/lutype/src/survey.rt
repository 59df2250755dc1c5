//! The search for all faults.

ghost use Rattle.std.specs.Prelude.{◌≡◌, ◌↔◌, Some, IfOk};
ghost use Rattle.lustat_rules.specs.declared.error.StatError.{StatError};
ghost use Rattle.lustat_rules.specs.AllFaults.{AreAllFaults};
ghost use Rattle.lutype.specs.First.{IsRecursionFault, IsNameFault};

use crate::checked::byte_of_node;
use crate::faults::{declaration_faults, equation_faults};
use crate::search::NameStage;
use crate::{
    CallOrder, Definitions, call_order, label_fault, name_fault, program_fault, type_fault,
};
use lustat_rules::{
    Catalog, Scope, StatError, Survey, in_order, push_each, push_fault, push_faults,
};
use lutree::{Declaration, DeclaredName, Equation, TypeDeclaration};
use std::alloc::{AllocError, Global};

impl<'r, 'a> Survey<'a> for NameStage<'r, 'a> {
    fn push_type_faults(
        &self,
        found: &mut Vec<StatError>,
        place: usize,
        declaration: &TypeDeclaration,
    ) -> Result<(), AllocError> {
        let told = type_fault(self.catalog, place, declaration);
        push_fault(found, told)
    }

    fn push_name_faults(
        &self,
        found: &mut Vec<StatError>,
        place: usize,
        declaration: &TypeDeclaration,
        number: usize,
        name: &DeclaredName,
    ) -> Result<(), AllocError> {
        let told = label_fault(self.catalog, place, declaration, number, name);
        push_fault(found, told)
    }

    fn push_node_faults(
        &self,
        found: &mut Vec<StatError>,
        place: usize,
        scope: &Scope<'a>,
    ) -> Result<(), AllocError> {
        let told = name_fault(self.catalog, place, scope.node());
        push_fault(found, told)
    }

    fn push_declaration_faults(
        &self,
        found: &mut Vec<StatError>,
        prepared: &Definitions<'a>,
        scope: &Scope<'a>,
        place: usize,
        declaration: &Declaration,
    ) -> Result<(), AllocError> {
        let row = declaration_faults(self.catalog, scope, prepared, place, declaration);
        push_each(found, &row)
    }

    fn push_equation_faults(
        &self,
        found: &mut Vec<StatError>,
        prepared: &Definitions<'a>,
        scope: &Scope<'a>,
        place: usize,
        equation: &Equation,
    ) -> Result<(), AllocError> {
        let row = equation_faults(self.catalog, scope, prepared, place, equation);
        push_each(found, &row)
    }
}

/// The fault of recursion: the first node in order of text that reaches itself by calls, at its name.
fn recursion_fault(alloc: Global, catalog: &Catalog) -> Result<Option<StatError>, AllocError>
    ensures { IfOk result
        (λ told. (e : StatError) → (told ≡ Some e) ↔ IsRecursionFault catalog.now e) }
{
    match call_order(alloc, catalog)? {
        CallOrder::Sorted(_order) => Ok(None),
        CallOrder::Recursive(place) => {
            let byte = byte_of_node(catalog, place);
            Ok(Some(StatError::RecursiveNode { byte }))
        }
    }
}

/// All faults of a program by the rules of names and types, each once, by byte, at equal bytes by number:
/// those of its places, that no node has the name of the main node, and of the nodes that reach themselves by
/// calls the first in order of text. The expected time grows with the size of the program, and with the count
/// of faults times its logarithm.
///
/// # Errors
///
/// An error means that memory ran out.
pub fn all_name_faults(
    alloc: Global,
    catalog: &Catalog,
    main: &str,
) -> Result<Vec<StatError>, AllocError>
    ensures { IfOk result
        (λ faults. AreAllFaults (IsNameFault catalog.now main.now) faults.items) }
{
    let whole = program_fault(catalog, main);
    let recursion = recursion_fault(alloc, catalog)?;
    let mut found = Vec::new(alloc);
    push_fault(&mut found, whole)?;
    push_faults(alloc, &NameStage { catalog, main }, catalog, &mut found)?;
    push_fault(&mut found, recursion)?;
    in_order(found)
}
