//! Which page a code has, which `tools/faults` makes from docs/FAULTS.md.

ghost use Rattle.std.specs.Prelude.{◌≡◌, option_map};
ghost use Rattle.lusdist_shell.specs.Pages.{page_of};

use crate::{clocks, names, placements, runs, schedules, starts, tables, texts, words};

/// The page of a code that is written in capital letters, where it is one.
pub fn page(code: &str) -> Option<&'static str>
    ensures { option_map (λ s. s.now) result ≡ page_of code.now }
{
    if let Some(text) = words::page(code) {
        return Some(text);
    }
    if let Some(text) = texts::page(code) {
        return Some(text);
    }
    if let Some(text) = names::page(code) {
        return Some(text);
    }
    if let Some(text) = clocks::page(code) {
        return Some(text);
    }
    if let Some(text) = starts::page(code) {
        return Some(text);
    }
    if let Some(text) = placements::page(code) {
        return Some(text);
    }
    if let Some(text) = tables::page(code) {
        return Some(text);
    }
    if let Some(text) = schedules::page(code) {
        return Some(text);
    }
    if let Some(text) = runs::page(code) {
        return Some(text);
    }
    None
}
