//! Operands, and where they stand.

ghost use Rattle.std.specs.Prelude.{◌≡◌, ◌+◌, IfOk};

use lutree::Kind;
use std::alloc::AllocError;

/// The place of an operand and its type.
#[derive(Clone, Copy, Drop)]
pub struct Operand {
    pub place: usize,
    pub kind: Option<Kind>,
}

/// The sum of two places.
///
/// # Errors
///
/// An error means that no memory has such a place.
pub fn sum_of(a: usize, b: usize) -> Result<usize, AllocError>
    ensures { IfOk result (λ sum. sum ≡ a + b) }
{
    a.checked_add(b).ok_or(AllocError)
}
