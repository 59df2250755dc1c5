//! Placements of many entries, and of an array of many members.

use luplace_file::{PlaceError, read_place};
use std::alloc::{AllocError, Global};
use std::test::Fail;

/// A text, then ten thousand lines or members, which have the numbers from 0 on between a front and a back,
/// and an end.
fn numbered(
    alloc: Global,
    begin: &str,
    front: &str,
    back: &str,
    end: &str,
) -> Result<String, AllocError> {
    let mut text = String::from_str(alloc, begin)?;
    for number in 0..10_000 {
        write!(text, "{front}{number}{back}")?;
    }
    text.push_str(end)?;
    Ok(text)
}

const ENTRIES: &str = "version = 2\nsites = [\"A\", \"B\"]\n[place]\n";

const ARRAY: &str = "version = 2\nsites = [\"A\", \"B\"]\ndefault = [\"A\"";

const MANY: &[(&str, &str, &str, &str, Option<PlaceError>)] = &[
    // Many entries.
    (ENTRIES, "x", "=\"A\"\n", "", None),
    (
        ENTRIES,
        "x",
        "=\"A\"\n",
        "y=[\"B\",\"B\"]\n",
        Some(PlaceError::DuplicateSite),
    ),
    (
        ENTRIES,
        "x",
        "=\"A\"\n",
        "y=\"C\"\n",
        Some(PlaceError::UnknownSite),
    ),
    // Many members of one array.
    (ARRAY, ",\"x", "\"", "]\n", Some(PlaceError::UnknownSite)),
    (
        ARRAY,
        ",\"x",
        "\"",
        ",\"x9999\"]\n",
        Some(PlaceError::DuplicateSite),
    ),
    (ARRAY, ",\"x", "\"", ",1]\n", Some(PlaceError::BadKey)),
];

#[test]
fn many_entries_and_members(rt: HostRuntime) -> Result<(), Fail> {
    for (begin, front, back, end, want) in MANY {
        let text = numbered(rt.alloc(), begin, front, back, end)?;
        assert!(rt;
            read_place(rt.alloc(), text.as_str()).err() == *want,
            "{begin} {end}"
        );
    }
    Ok(())
}
