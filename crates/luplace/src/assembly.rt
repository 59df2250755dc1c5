//! The rows of a plan.

ghost use Rattle.std.specs.Prelude.{◌≡◌, IfOk};

use lubase::Name;
use std::alloc::{AllocError, Global};

/// Copies of the names.
pub fn names_of(alloc: Global, names: &[Name]) -> Result<Vec<Name>, AllocError>
    ensures { IfOk result (λ copies. copies.items ≡ names.now) }
{
    let mut copies = Vec::new(alloc);
    for name in names {
        copies.push(name.copied(alloc)?)?;
    }
    Ok(copies)
}
