//! What holds of the pages, as contracts of functions that do nothing.

ghost use Rattle.std.specs.Prelude.{◌≡◌, true};
ghost use Rattle.std.specs.List.{list_all};
ghost use Rattle.lusdist_shell.specs.Pages.{pages};
ghost use Rattle.lusdist_shell.specs.Titles.{begins_with_title};

/// Each page begins with its code and its name.
#[tactic(auto, unfolding(crate::specs::Pages::words, crate::specs::Pages::texts, crate::specs::Pages::names, crate::specs::Pages::clocks, crate::specs::Pages::starts, crate::specs::Pages::placements, crate::specs::Pages::tables, crate::specs::Pages::schedules, crate::specs::Pages::runs))]
pub fn titles_law()
    ensures { list_all begins_with_title pages ≡ true }
{}
