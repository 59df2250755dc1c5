//! The search for the least fault of clocks.

ghost use Rattle.std.specs.Prelude.{◌≡◌, ◌↔◌, IsTrue, IfOk, IfSome};
ghost use Rattle.std.proofs.Props.{props};
ghost use Rattle.lutree.specs.Tree.{node_view, program_view};
ghost use Rattle.lustat_rules.specs.Scope.{node_called};
ghost use Rattle.lustat_rules.specs.Clocks.{HasUnclockedOutputs};
ghost use Rattle.lustat_rules.specs.Faults.{IsJudged, TypeFault, TypeKept, NameFault, NameKept, NodeFault, NodeKept, DeclarationFault, DeclarationKept, EquationFault, EquationKept, IsFault, AreKept};
ghost use Rattle.lustat_clocks.specs.Chains.{MarksEnds};
ghost use Rattle.lustat_clocks.specs.Asked.{is_asked};

use crate::chain::chain_ends;
use crate::fault::{declaration_fault, equation_fault};
use crate::parameter::main_is_unclocked;
use lustat_rules::{Catalog, Scope, Stage, StatError, least_fault};
use lutree::{Declaration, DeclaredName, Equation, TypeDeclaration};
use std::alloc::{AllocError, Global};

/// The rules of clocks at the places of a program, with the name of its main node, and whether that one has
/// all its outputs on the base clock. The tests of a node share the marks of the declarations whose chains of
/// clocks end.
#[derive(Drop)]
pub(crate) struct ClockStage<'r, 'a> {
    pub(crate) catalog: &'r Catalog<'a>,
    pub(crate) main: &'r str,
    pub(crate) unclocked: bool,
    ghost tells: { IsTrue unclocked
        ↔ IfSome (node_called (program_view catalog.now) main.now) HasUnclockedOutputs } by { Prim.hlevel props },
}

impl<'r, 'a> Stage<'a> for ClockStage<'r, 'a> {
    type Prepared = Vec<bool>;

    ghost program = { λ s. s.catalog.now };

    ghost serves = { λ s n ends. MarksEnds (node_view n) ends.items };

    ghost breaks_type = { λ s. TypeFault is_asked s.catalog.now s.main.now };

    ghost keeps_type = { λ s. TypeKept is_asked s.catalog.now s.main.now };

    ghost breaks_name = { λ s. NameFault is_asked s.catalog.now s.main.now };

    ghost keeps_name = { λ s. NameKept is_asked s.catalog.now s.main.now };

    ghost breaks_node = { λ s. NodeFault is_asked s.catalog.now s.main.now };

    ghost keeps_node = { λ s. NodeKept is_asked s.catalog.now s.main.now };

    ghost breaks_declaration = { λ s. DeclarationFault is_asked s.catalog.now s.main.now };

    ghost keeps_declaration = { λ s. DeclarationKept is_asked s.catalog.now s.main.now };

    ghost breaks_equation = { λ s. EquationFault is_asked s.catalog.now s.main.now };

    ghost keeps_equation = { λ s. EquationKept is_asked s.catalog.now s.main.now };

    /// No rule of clocks speaks of types.
    fn type_fault(&self, _place: usize, _declaration: &TypeDeclaration) -> Option<StatError> {
        None
    }

    fn name_fault(
        &self,
        _place: usize,
        _declaration: &TypeDeclaration,
        _number: usize,
        _name: &DeclaredName,
    ) -> Option<StatError> {
        None
    }

    fn prepare(
        &self,
        alloc: Global,
        _place: usize,
        scope: &Scope<'a>,
    ) -> Result<Vec<bool>, AllocError> {
        chain_ends(alloc, scope)
    }

    /// No rule of clocks speaks of a node alone.
    fn node_fault(&self, _place: usize, _scope: &Scope<'a>) -> Option<StatError> {
        None
    }

    fn declaration_fault(
        &self,
        prepared: &Vec<bool>,
        scope: &Scope<'a>,
        place: usize,
        declaration: &Declaration,
    ) -> Option<StatError> {
        declaration_fault(scope, prepared, self.main, place, declaration)
    }

    fn equation_fault(
        &self,
        _prepared: &Vec<bool>,
        scope: &Scope<'a>,
        place: usize,
        equation: &Equation,
    ) -> Option<StatError> {
        equation_fault(
            self.catalog,
            scope,
            self.main,
            self.unclocked,
            place,
            equation,
        )
    }
}

/// The least fault of a program by the rules of clocks: that of the least byte, at equal bytes that of the
/// least number. None where all these rules are kept. Its time grows with the size of the program.
///
/// # Errors
///
/// An error means that memory ran out.
pub fn clock_fault(
    alloc: Global,
    catalog: &Catalog,
    main: &str,
) -> Result<Option<StatError>, AllocError>
    ensures { IfOk result (IsJudged (IsFault is_asked catalog.now main.now)
        (AreKept is_asked catalog.now main.now)) }
{
    let stage = ClockStage {
        catalog,
        main,
        unclocked: main_is_unclocked(catalog, main),
    };
    least_fault(alloc, &stage, catalog)
}
