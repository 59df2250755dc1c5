//! What changes where a place gets its rank.

ghost use Rattle.std.specs.Prelude.{◌≡◌, ◌≤◌, ◌<◌, ◌∷◌, ℕ, [], OnOk, slice_index};
ghost use Rattle.lucore_laws.specs.Search.{times, IsReleased};

use crate::ready::Ready;
use std::alloc::AllocError;

/// One read of a place got its rank. The place is ready where that was the last one.
fn release_one(missing: &mut Vec<usize>, ready: &mut Ready, place: usize) -> Result<(), AllocError>
    requires { 0 < slice_index missing.old.items place }
    ensures { OnOk result (IsReleased (place ∷ []) missing.old.items missing.new.items ready.old
        ready.new) }
{
    let left = missing[place] - 1;
    missing[place] = left;
    if left == 0 {
        ready.push(place)?;
    }
    Ok(())
}

/// A place got its rank: its readers have one missing read less, and those are ready that have none any
/// longer. After an error nothing is known.
pub fn release(
    readers: &[usize],
    missing: &mut Vec<usize>,
    ready: &mut Ready,
) -> Result<(), AllocError>
    requires { (v : ℕ) → times v readers.now ≤ slice_index missing.old.items v }
    ensures { OnOk result (IsReleased readers.now missing.old.items missing.new.items ready.old
        ready.new) }
{
    for reader in readers {
        release_one(missing, ready, *reader)?;
    }
    Ok(())
}
