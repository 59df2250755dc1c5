//! All faults of the first stage that has any.

ghost use Rattle.std.specs.Prelude.{◌≡◌, ◌≢◌, [], IfOk, OnOk, IfSome, slice_get};
ghost use Rattle.lutree.specs.Tree.{program_view};
ghost use Rattle.lustat_rules.specs.Accepted.{IsAccepted};
ghost use Rattle.lustat_rules.specs.Faults.{AreKept};
ghost use Rattle.lustat_rules.specs.declared.error.StatError.TheVariants.{OutOfMemory};
ghost use Rattle.lustat_clocks.specs.Asked.{is_asked};
ghost use Rattle.lustat.specs.First.{IsReportedFirst};
ghost use Rattle.lustat.specs.AllFaults.{AreOfFirstStage, AreTold};

use lustat_clocks::{all_clock_faults, clock_fault};
use lustat_init::{Initialised, all_class_faults, initialise};
use lustat_rules::{Catalog, StatError};
use lutree::Program;
use lutype::{Typed, all_name_faults, names};
use std::alloc::{AllocError, Global};

/// The faults of the last stage, of a program that keeps the rules of names and of clocks.
fn class_faults(alloc: Global, typed: &Typed) -> Result<Vec<StatError>, AllocError>
    requires { AreKept is_asked typed.now.program typed.now.main }
    ensures { IfOk result
        (λ faults. AreTold typed.now.program typed.now.main faults.items) }
{
    let catalog = typed.catalog();
    match initialise(alloc, catalog)? {
        Initialised::Kept(_classes) => Ok(Vec::new(alloc)),
        Initialised::Broken(_fault) => all_class_faults(alloc, catalog),
    }
}

/// The faults of the first stage behind that of names that has any.
fn later_faults(alloc: Global, typed: &Typed) -> Result<Vec<StatError>, AllocError>
    ensures { IfOk result
        (λ faults. AreTold typed.now.program typed.now.main faults.items) }
{
    let main = typed.main();
    let catalog = typed.catalog();
    let found = clock_fault(alloc, catalog, main)?;
    match found {
        None => class_faults(alloc, typed),
        Some(_) => all_clock_faults(alloc, catalog, main),
    }
}

/// That a refusal isn't that memory ran out.
fn is_of_program(refusal: &StatError) -> Result<(), AllocError>
    ensures { OnOk result (refusal.now ≢ OutOfMemory) }
{
    match refusal {
        StatError::OutOfMemory => Err(AllocError),
        _ => Ok(()),
    }
}

/// The faults of the first stage that has any.
fn first_faults(alloc: Global, program: &Program, main: &str) -> Result<Vec<StatError>, AllocError>
    ensures { IfOk result (λ faults. AreTold program.now main.now faults.items) }
{
    match names(alloc, program, main) {
        Ok(typed) => later_faults(alloc, &typed),
        Err(refusal) => {
            is_of_program(&refusal)?;
            let catalog = Catalog::new(alloc, program)?;
            all_name_faults(alloc, &catalog, main)
        }
    }
}

/// All faults of the first stage that has any: of names and types, else of clocks, else of initialisation.
/// There are none exactly where the program keeps all rules. Each stands in the list once, in order of place:
/// by byte, at equal bytes by number, so the first is what [`crate::check`] reports. Of several nodes that
/// reach themselves by calls only the first in order of text is thought of.
///
/// The expected time grows with the size of the program, and with the count of faults times its logarithm.
///
/// # Errors
///
/// An error means that memory ran out, and says nothing of the program. All that was taken is given back.
pub fn all_faults(
    alloc: Global,
    program: &Program,
    main: &str,
) -> Result<Vec<StatError>, AllocError>
    ensures accepted { IfOk result
        (λ faults. faults.items ≡ [] → IsAccepted (program_view program.now) main.now) }
    ensures refused { IfOk result
        (λ faults. faults.items ≢ [] → AreOfFirstStage program.now main.now faults.items) }
    ensures first { IfOk result
        (λ faults. IfSome (slice_get faults.items 0) (IsReportedFirst program.now main.now)) }
{
    first_faults(alloc, program, main)
}
