//! What is asked of the manual.

ghost use Rattle.std.specs.Prelude.{◌≡◌, IfOk, map, option_map};
ghost use Rattle.std.specs.Char.{to_ascii_uppercase};
ghost use Rattle.lusdist_shell.specs.Pages.{page_of, listing};

use crate::listing::LISTING;
use crate::page::page;
use std::alloc::{AllocError, Global};

/// The page of a code, where there is one. The letter of the code may be small.
pub fn page_of(alloc: Global, word: &str) -> Result<Option<&'static str>, AllocError>
    ensures { IfOk result (λ found. option_map (λ s. s.now) found
        ≡ page_of (map to_ascii_uppercase word.now)) }
{
    let code = word.to_ascii_uppercase(alloc)?;
    Ok(page(code.as_str()))
}

/// A line for each code, with its name.
#[tactic(auto, unfolding(crate::specs::Pages::words, crate::specs::Pages::texts, crate::specs::Pages::names, crate::specs::Pages::clocks, crate::specs::Pages::starts, crate::specs::Pages::placements, crate::specs::Pages::tables, crate::specs::Pages::schedules, crate::specs::Pages::runs))]
pub fn all_codes() -> &'static str
    ensures { result.now ≡ listing }
{
    LISTING
}
