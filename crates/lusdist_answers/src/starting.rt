//! What a design begins with.

ghost use Rattle.std.specs.Prelude.{◌≡◌, IfOk, string_bytes};
ghost use Rattle.lusdist_call.specs.Begun.{start_text};

use luflow::Flat;
use lutab::{write_placement, write_table};
use std::alloc::{AllocError, Global};

/// A table of inputs of so many instants, where one is asked for, else a placement of all main variables at
/// one site.
pub fn start_text(alloc: Global, flat: &Flat, table: Option<u32>) -> Result<String, AllocError>
    ensures { IfOk result (λ text. string_bytes text ≡ start_text table flat.now) }
{
    match table {
        Some(instants) => write_table(alloc, flat, instants),
        None => write_placement(alloc, flat),
    }
}
