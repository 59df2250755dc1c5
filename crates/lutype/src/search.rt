//! The search for the least fault.

ghost use Rattle.std.specs.Prelude.{◌≡◌, IfOk};
ghost use Rattle.lustat_rules.specs.Faults.{IsJudged, TypeFault, TypeKept, NameFault, NameKept, NodeFault, NodeKept, DeclarationFault, DeclarationKept, EquationFault, EquationKept, IsFault, AreKept};
ghost use Rattle.lutype.specs.Asked.{is_asked};

use crate::{
    Definitions, declaration_fault, equation_fault, label_fault, name_fault, program_fault,
    type_fault,
};
use lustat_rules::{Catalog, Scope, Stage, StatError, lesser};
use lutree::{Declaration, DeclaredName, Equation, TypeDeclaration};
use std::alloc::{AllocError, Global};

/// The rules of names and types at the places of a program, with the name of its main node. The tests of a
/// node share its definitions.
#[derive(Drop)]
pub(crate) struct NameStage<'r, 'a> {
    pub(crate) catalog: &'r Catalog<'a>,
    pub(crate) main: &'r str,
}

impl<'r, 'a> Stage<'a> for NameStage<'r, 'a> {
    type Prepared = Definitions<'a>;

    ghost program = { λ s. s.catalog.now };

    ghost serves = { λ s n definitions. definitions ≡ n };

    ghost breaks_type = { λ s. TypeFault is_asked s.catalog.now s.main.now };

    ghost keeps_type = { λ s. TypeKept is_asked s.catalog.now s.main.now };

    ghost breaks_name = { λ s. NameFault is_asked s.catalog.now s.main.now };

    ghost keeps_name = { λ s. NameKept is_asked s.catalog.now s.main.now };

    ghost breaks_node = { λ s. NodeFault is_asked s.catalog.now s.main.now };

    ghost keeps_node = { λ s. NodeKept is_asked s.catalog.now s.main.now };

    ghost breaks_declaration = { λ s. DeclarationFault is_asked s.catalog.now s.main.now };

    ghost keeps_declaration = { λ s. DeclarationKept is_asked s.catalog.now s.main.now };

    ghost breaks_equation = { λ s. EquationFault is_asked s.catalog.now s.main.now };

    ghost keeps_equation = { λ s. EquationKept is_asked s.catalog.now s.main.now };

    fn type_fault(&self, place: usize, declaration: &TypeDeclaration) -> Option<StatError> {
        type_fault(self.catalog, place, declaration)
    }

    fn name_fault(
        &self,
        place: usize,
        declaration: &TypeDeclaration,
        number: usize,
        name: &DeclaredName,
    ) -> Option<StatError> {
        label_fault(self.catalog, place, declaration, number, name)
    }

    fn prepare(
        &self,
        alloc: Global,
        _place: usize,
        scope: &Scope<'a>,
    ) -> Result<Definitions<'a>, AllocError> {
        Definitions::new(alloc, scope.node())
    }

    fn node_fault(&self, place: usize, scope: &Scope<'a>) -> Option<StatError> {
        name_fault(self.catalog, place, scope.node())
    }

    fn declaration_fault(
        &self,
        prepared: &Definitions<'a>,
        scope: &Scope<'a>,
        place: usize,
        declaration: &Declaration,
    ) -> Option<StatError> {
        declaration_fault(self.catalog, scope, prepared, place, declaration)
    }

    fn equation_fault(
        &self,
        prepared: &Definitions<'a>,
        scope: &Scope<'a>,
        place: usize,
        equation: &Equation,
    ) -> Option<StatError> {
        equation_fault(self.catalog, scope, prepared, place, equation)
    }
}

/// The least fault of a program by the rules of names and types, but for that of recursion: that of the least
/// byte, at equal bytes that of the least number. None where all these rules are kept. Its expected time
/// grows with the size of the program.
pub fn least_fault(
    alloc: Global,
    catalog: &Catalog,
    main: &str,
) -> Result<Option<StatError>, AllocError>
    ensures { IfOk result (IsJudged (IsFault is_asked catalog.now main.now)
        (AreKept is_asked catalog.now main.now)) }
{
    let stage = NameStage { catalog, main };
    let of_places = lustat_rules::least_fault(alloc, &stage, catalog)?;
    Ok(lesser(program_fault(catalog, main), of_places))
}
