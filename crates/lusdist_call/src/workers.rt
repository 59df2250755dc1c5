//! How many workers a run is asked for.

ghost use Rattle.std.specs.Prelude.{◌≡◌, IfSome, option_map};
ghost use Rattle.lurun.specs.Runs.{AreSome};
ghost use Rattle.lusdist_call.specs.Workers.{workers_in, workers_named};

use lurun::Workers;

/// The workers that a word names: `auto`, or a number from 1 to 16 as it is printed; none where it names
/// none.
#[tactic(auto, unfolding(crate::specs::Workers::worker_words))]
fn workers_named(word: &str) -> Option<Workers>
    ensures named { result ≡ workers_named word.now }
    ensures some { IfSome result AreSome }
{
    match word {
        "auto" => Some(Workers::Auto),
        "1" => Some(Workers::Crew(1)),
        "2" => Some(Workers::Crew(2)),
        "3" => Some(Workers::Crew(3)),
        "4" => Some(Workers::Crew(4)),
        "5" => Some(Workers::Crew(5)),
        "6" => Some(Workers::Crew(6)),
        "7" => Some(Workers::Crew(7)),
        "8" => Some(Workers::Crew(8)),
        "9" => Some(Workers::Crew(9)),
        "10" => Some(Workers::Crew(10)),
        "11" => Some(Workers::Crew(11)),
        "12" => Some(Workers::Crew(12)),
        "13" => Some(Workers::Crew(13)),
        "14" => Some(Workers::Crew(14)),
        "15" => Some(Workers::Crew(15)),
        "16" => Some(Workers::Crew(16)),
        _ => None,
    }
}

/// The workers of a run: those that the word for them names, and one for each site where there is no word.
pub fn workers_in(word: Option<&str>) -> Option<Workers>
    ensures asked { result ≡ workers_in (option_map (λ s. s.now) word.entry) }
    ensures some { IfSome result AreSome }
{
    match word {
        Some(word) => workers_named(word),
        None => Some(Workers::EachSite),
    }
}
