//! Faults in order.

ghost use Rattle.std.specs.Prelude.{◌≡◌, ◌==◌, ◌&&◌, IfOk, Contains};
ghost use Rattle.lustat_rules.specs.Reported.{byte_of, number_of};
ghost use Rattle.lustat_rules.specs.AllFaults.{AreAllFaults};

use crate::StatError;
use std::alloc::AllocError;

/// Whether two faults have one byte and one number.
fn is_same_place(x: &StatError, y: &StatError) -> bool
    ensures { result ≡ ((byte_of x.now == byte_of y.now) && (number_of x.now == number_of y.now)) }
{
    x.byte() == y.byte() && x.number() == y.number()
}

/// The faults of a list, each once, in order of place: by byte, at equal bytes by number. The time grows with
/// their count times its logarithm.
///
/// # Errors
///
/// An error means that memory ran out.
pub fn in_order(found: Vec<StatError>) -> Result<Vec<StatError>, AllocError>
    ensures { IfOk result (λ faults. AreAllFaults (Contains found.items) faults.items) }
{
    let mut faults = found;
    faults.sort_by_key(|fault| (fault.byte(), fault.number()))?;
    faults.dedup_by(|x, y| is_same_place(x, y));
    Ok(faults)
}
