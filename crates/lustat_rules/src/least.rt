//! Of several faults the one that is reported.

ghost use Rattle.std.specs.Prelude.{◌≡◌, Some, None, if◌then◌else◌};
ghost use Rattle.lustat_rules.specs.Faults.{is_before, lesser_of};

use crate::error::StatError;

/// A fault where a rule isn't kept.
pub fn reported(kept: bool, fault: StatError) -> Option<StatError>
    ensures { result ≡ (if kept then None else Some fault) }
{
    if kept { None } else { Some(fault) }
}

/// Whether one fault has the lesser byte, or at equal bytes the lesser number.
pub fn is_reported_before(x: &StatError, y: &StatError) -> bool
    ensures { result ≡ is_before x.now y.now }
{
    x.byte() < y.byte() || x.byte() == y.byte() && x.number() < y.number()
}

/// Of two faults, where there are any, the one of the lesser byte, at equal bytes the one of the lesser
/// number.
pub fn lesser(a: Option<StatError>, b: Option<StatError>) -> Option<StatError>
    ensures { result ≡ lesser_of a b }
{
    let Some(x) = a else {
        return b;
    };
    let Some(y) = b else {
        return Some(x);
    };
    if is_reported_before(&y, &x) {
        Some(y)
    } else {
        Some(x)
    }
}
