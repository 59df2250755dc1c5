//! The faults of one place, rule by rule.

ghost use Rattle.std.specs.Prelude.{◌≡◌, Some, OnOk, Contains};
ghost use Rattle.lustat_rules.specs.AllFaults.{Gains};
ghost use Rattle.lustat_rules.specs.Told.{least_in};

use crate::{StatError, lesser};
use std::alloc::AllocError;

/// Of the faults in a row, if there are any, the one of the least byte, at equal bytes the one of the least
/// number.
pub fn least_of(row: &[Option<StatError>]) -> Option<StatError>
    ensures { result ≡ least_in row.now }
{
    row.iter().fold(None, |best, told| lesser(best, *told))
}

/// Adds a fault, if there is one.
///
/// # Errors
///
/// An error means that memory ran out.
pub fn push_fault(found: &mut Vec<StatError>, told: Option<StatError>) -> Result<(), AllocError>
    ensures { OnOk result (Gains (λ e. told ≡ Some e) found.old.items found.new.items) }
{
    if let Some(fault) = told {
        found.push(fault)?;
    }
    Ok(())
}

/// Adds the faults in a row.
///
/// # Errors
///
/// An error means that memory ran out.
pub fn push_each(found: &mut Vec<StatError>, row: &[Option<StatError>]) -> Result<(), AllocError>
    ensures { OnOk result (Gains (λ e. Contains row.now (Some e)) found.old.items found.new.items) }
{
    for told in row {
        push_fault(found, *told)?;
    }
    Ok(())
}
