//! Texts that are read, and as what.

use luplace_file::{Place, PlaceError, Placed, read_place};
use std::alloc::Global;
use std::test::Fail;

/// What a text is read as: its sites, the numbers of the default ones, its capacity, its variables and the
/// numbers of their sites.
type Read = (
    &'static [&'static str],
    &'static [u8],
    u16,
    &'static [(&'static str, &'static [u8])],
);

fn is_placed(placed: &Placed, want: &(&str, &[u8])) -> bool {
    placed.variable.is(want.0) && placed.sites.as_slice() == want.1
}

fn is_read_so(place: &Place, want: Read) -> bool {
    place.sites().len() == want.0.len()
        && place
            .sites()
            .iter()
            .zip(want.0)
            .all(|(name, text)| name.is(*text))
        && place.default_sites() == want.1
        && place.capacity() == want.2
        && place.entries().len() == want.3.len()
        && place
            .entries()
            .iter()
            .zip(want.3)
            .all(|(placed, want)| is_placed(placed, want))
}

fn is_read(alloc: Global, text: &str, want: Read) -> Result<bool, PlaceError> {
    let place = read_place(alloc, text)?;
    Ok(is_read_so(&place, want))
}

const TEXTS: &[(&str, Read)] = &[
    // Two sites with a variable each.
    (
        "sites = [\"A\", \"B\"]\ncapacity = 1\n[place]\na = \"A\"\nb = \"B\"\n",
        (&["A", "B"], &[], 1, &[("a", &[0]), ("b", &[1])]),
    ),
    // All keys but `sites` may be missing. A keyword may be a site's name.
    ("sites = [\"when\"]", (&["when"], &[], 16, &[])),
    // The longest name of a site.
    (
        "sites = [\"_2345678901234567890123456789012\"]",
        (&["_2345678901234567890123456789012"], &[], 16, &[]),
    ),
    // A default, and a version that is said.
    (
        "version = 1\nsites = [\"A\", \"B\"]\ndefault = \"B\"\n",
        (&["A", "B"], &[1], 16, &[]),
    ),
    // The keys of `place` are in order of their bytes, whatever their order in the text. They need not be
    // spelled as variables.
    (
        "place = { z = \"A\", \"9\" = \"B\", sites = \"B\" }\nsites = [\"A\", \"B\"]\ncapacity = 1024\n",
        (
            &["A", "B"],
            &[],
            1024,
            &[("9", &[1]), ("sites", &[1]), ("z", &[0])],
        ),
    ),
    // Version 2, with texts alone.
    (
        "version = 2\nsites = [\"A\", \"B\"]\ndefault = \"B\"\n[place]\na = \"A\"\n",
        (&["A", "B"], &[1], 16, &[("a", &[0])]),
    ),
    // Version 2, with arrays and texts.
    (
        "version = 2\nsites = [\"A\", \"B\"]\ndefault = \"A\"\n[place]\nc = [\"A\", \"B\"]\nz = \"B\"\n",
        (&["A", "B"], &[0], 16, &[("c", &[0, 1]), ("z", &[1])]),
    ),
    // The numbers of an array's sites are in order, whatever its own order.
    (
        "version = 2\nsites = [\"C\", \"B\", \"A\"]\ndefault = [\"A\", \"C\"]\n[place]\nx = [\"A\", \"B\", \"C\"]\ny = [\"B\"]\n",
        (
            &["C", "B", "A"],
            &[0, 2],
            16,
            &[("x", &[0, 1, 2]), ("y", &[1])],
        ),
    ),
    // Sixteen sites, and a variable at all of them.
    (
        "version = 2\nsites = [\"s0\", \"s1\", \"s2\", \"s3\", \"s4\", \"s5\", \"s6\", \"s7\", \"s8\", \"s9\", \"s10\", \"s11\", \"s12\", \"s13\", \"s14\", \"s15\"]\ndefault = [\"s15\", \"s14\", \"s13\", \"s12\", \"s11\", \"s10\", \"s9\", \"s8\", \"s7\", \"s6\", \"s5\", \"s4\", \"s3\", \"s2\", \"s1\", \"s0\"]\n",
        (
            &[
                "s0", "s1", "s2", "s3", "s4", "s5", "s6", "s7", "s8", "s9", "s10", "s11", "s12",
                "s13", "s14", "s15",
            ],
            &[0, 1, 2, 3, 4, 5, 6, 7, 8, 9, 10, 11, 12, 13, 14, 15],
            16,
            &[],
        ),
    ),
];

#[test]
fn each_text_is_read_so(rt: HostRuntime) -> Result<(), Fail> {
    for (text, want) in TEXTS {
        assert!(rt; is_read(rt.alloc(), text, *want)?, "at {text}");
    }
    Ok(())
}
