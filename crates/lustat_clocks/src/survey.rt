//! The search for all faults of clocks.

ghost use Rattle.std.specs.Prelude.{IfOk};
ghost use Rattle.lustat_rules.specs.Faults.{IsFault};
ghost use Rattle.lustat_rules.specs.AllFaults.{AreAllFaults};
ghost use Rattle.lustat_clocks.specs.Asked.{is_asked};

use crate::fault::{declaration_faults, equation_faults};
use crate::parameter::main_is_unclocked;
use crate::search::ClockStage;
use lustat_rules::{Catalog, Scope, StatError, Survey, all_faults, push_each};
use lutree::{Declaration, DeclaredName, Equation, TypeDeclaration};
use std::alloc::{AllocError, Global};

impl<'r, 'a> Survey<'a> for ClockStage<'r, 'a> {
    /// No rule of clocks speaks of types.
    fn push_type_faults(
        &self,
        _found: &mut Vec<StatError>,
        _place: usize,
        _declaration: &TypeDeclaration,
    ) -> Result<(), AllocError> {
        Ok(())
    }

    fn push_name_faults(
        &self,
        _found: &mut Vec<StatError>,
        _place: usize,
        _declaration: &TypeDeclaration,
        _number: usize,
        _name: &DeclaredName,
    ) -> Result<(), AllocError> {
        Ok(())
    }

    /// No rule of clocks speaks of a node alone.
    fn push_node_faults(
        &self,
        _found: &mut Vec<StatError>,
        _place: usize,
        _scope: &Scope<'a>,
    ) -> Result<(), AllocError> {
        Ok(())
    }

    fn push_declaration_faults(
        &self,
        found: &mut Vec<StatError>,
        prepared: &Vec<bool>,
        scope: &Scope<'a>,
        place: usize,
        declaration: &Declaration,
    ) -> Result<(), AllocError> {
        let row = declaration_faults(scope, prepared, self.main, place, declaration);
        push_each(found, &row)
    }

    fn push_equation_faults(
        &self,
        found: &mut Vec<StatError>,
        _prepared: &Vec<bool>,
        scope: &Scope<'a>,
        place: usize,
        equation: &Equation,
    ) -> Result<(), AllocError> {
        let row = equation_faults(
            self.catalog,
            scope,
            self.main,
            self.unclocked,
            place,
            equation,
        );
        push_each(found, &row)
    }
}

/// All faults of a program by the rules of clocks, each once, by byte, at equal bytes by number. The time
/// grows with the size of the program, and with the count of faults times its logarithm.
///
/// # Errors
///
/// An error means that memory ran out.
pub fn all_clock_faults(
    alloc: Global,
    catalog: &Catalog,
    main: &str,
) -> Result<Vec<StatError>, AllocError>
    ensures { IfOk result
        (λ faults. AreAllFaults (IsFault is_asked catalog.now main.now) faults.items) }
{
    let survey = ClockStage {
        catalog,
        main,
        unclocked: main_is_unclocked(catalog, main),
    };
    all_faults(alloc, &survey, catalog)
}
