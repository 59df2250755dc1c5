//! The stages of the static checks.

ghost use Rattle.std.specs.Prelude.{◌≡◌, IfOk, IfErr};
ghost use Rattle.lutree.specs.Tree.{program_view};
ghost use Rattle.lustat_rules.specs.Accepted.{IsAccepted};
ghost use Rattle.lustat_rules.specs.Reported.{ReportsRule};
ghost use Rattle.lustat_rules.specs.Faults.{AreKept};
ghost use Rattle.lustat_clocks.specs.Asked.{is_asked};
ghost use Rattle.lustat_init.specs.Rows.{AreClasses, plain};
ghost use Rattle.lustat.specs.First.{IsReportedFirst};

use crate::checked::Checked;
use lustat_clocks::clock_fault;
use lustat_init::{Initialised, initialise};
use lustat_rules::StatError;
use lutree::Program;
use lutype::{Typed, names};
use std::alloc::Global;

/// The last stage: the classes of a program that keeps the rules of names and of clocks.
fn classes_of(alloc: Global, typed: &Typed) -> Result<Vec<Vec<bool>>, StatError>
    requires { AreKept is_asked typed.now.program typed.now.main }
    ensures accepted { IfOk result (λ _. IsAccepted (program_view typed.now.program)
        typed.now.main) }
    ensures classes { IfOk result (λ classes. AreClasses (program_view typed.now.program)
        (plain classes.items)) }
    ensures reported { IfErr result (ReportsRule 3 (program_view typed.now.program) typed.now.main) }
    ensures first { IfErr result (IsReportedFirst typed.now.program typed.now.main) }
{
    match initialise(alloc, typed.catalog())? {
        Initialised::Kept(classes) => Ok(classes),
        Initialised::Broken(fault) => Err(fault),
    }
}

/// The stages behind that of names: the classes of a program that keeps the rules of names.
fn later_stages(alloc: Global, typed: &Typed) -> Result<Vec<Vec<bool>>, StatError>
    ensures accepted { IfOk result (λ _. IsAccepted (program_view typed.now.program)
        typed.now.main) }
    ensures classes { IfOk result (λ classes. AreClasses (program_view typed.now.program)
        (plain classes.items)) }
    ensures reported { IfErr result (ReportsRule 3 (program_view typed.now.program) typed.now.main) }
    ensures first { IfErr result (IsReportedFirst typed.now.program typed.now.main) }
{
    let main = typed.main();
    match clock_fault(alloc, typed.catalog(), main)? {
        Some(fault) => Err(fault),
        None => classes_of(alloc, typed),
    }
}

/// Whether a program keeps all rules: those of names and types, then those of clocks, then those of
/// initialisation. Every node is checked.
///
/// The expected time grows with the size of the program.
///
/// # Errors
///
/// An error other than out of memory reports a rule that is broken, where all rules of the stages before are
/// kept: of its stage the fault of the least byte, at equal bytes that of the least number, each at its place
/// in the text. Of several nodes that reach themselves by calls only the first in order of text is thought
/// of.
pub fn check<'a>(
    alloc: Global,
    program: &'a Program,
    main: &'a str,
) -> Result<Checked<'a>, StatError>
    ensures program { IfOk result (λ checked. checked.program ≡ program.now) }
    ensures main { IfOk result (λ checked. checked.main ≡ main.now) }
    ensures accepted { IfOk result (λ _. IsAccepted (program_view program.now) main.now) }
    ensures reported { IfErr result (ReportsRule 3 (program_view program.now) main.now) }
    ensures first { IfErr result (IsReportedFirst program.now main.now) }
{
    let typed = names(alloc, program, main)?;
    let classes = later_stages(alloc, &typed)?;
    let _calls = typed.order();
    Ok(Checked::new(typed, classes))
}
