//! From a text to a placement.

ghost use Rattle.std.specs.Prelude.{◌≡◌, ◌⊎◌, IfOk, IfErr};
ghost use Rattle.toml.specs.Parse.{parse_document};
ghost use Rattle.toml.specs.View.{table_view};
ghost use Rattle.luplace_file.specs.Answers.{Gives};
ghost use Rattle.luplace_file.specs.Placement.{placement_of};

use crate::draft::draft_of;
use crate::error::PlaceError;
use crate::place::Place;
use crate::rules::ruled;
use lubase::limits::LONGEST_PLACEMENT;
use std::alloc::Global;
use toml::Table;

/// The table that the text is, if it is TOML.
fn table_in(alloc: Global, text: &str) -> Result<Table, PlaceError>
    ensures toml { IfOk result (λ table. parse_document text.now ≡ Some (table_view table)) }
    ensures refused { IfErr result (λ e. (e ≡ PlaceError.OutOfMemory)
        ⊎ ((e ≡ PlaceError.NotToml) × (parse_document text.now ≡ None))) }
{
    match toml::table_from_str(alloc, text) {
        Ok(table) => Ok(table),
        Err(e) => {
            if e.is_memory() {
                Err(PlaceError::OutOfMemory)
            } else {
                Err(PlaceError::NotToml)
            }
        }
    }
}

/// Reads the text of a placement file, or refuses it by the first rule that it breaks.
pub fn read_place(alloc: Global, text: &str) -> Result<Place, PlaceError>
    ensures exact { Gives (placement_of text.now) result }
{
    if text.len() > LONGEST_PLACEMENT {
        return Err(PlaceError::OutOfRange);
    }
    let table = table_in(alloc, text)?;
    let draft = draft_of(alloc, &table)?;
    ruled(alloc, draft)
}
