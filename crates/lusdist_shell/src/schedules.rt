//! The pages on schedules, which `tools/faults` makes from docs/FAULTS.md.

ghost use Rattle.std.specs.Prelude.{◌≡◌, option_map};
ghost use Rattle.lusdist_shell.specs.Pages.{text_among, schedules};

/// The page of `S01 BadSchedule`.
pub const S01: &str = "S01 BadSchedule

A schedule has a letter for each turn, `0` to `9` and `a` to `f` for the sites
0 to 15, and between them spaces and line feeds alone. BYTE is the first other
one, counted from 0.

A file `p.lus`:

    node main(x: int) returns (y: int); let y = x + 1; tel

A file `p.toml`:

    sites = [\"tank\", \"panel\"]
    [place]
    x = \"tank\"
    y = \"panel\"

A file `t.csv`:

    x
    5

A file `s.txt`:

    0, 0, 1, 1, 1

    $ lusdist replay p.lus p.toml t.csv s.txt
    S01 BadSchedule at 1

Leave out the commas. The mended file `s.txt` is

    0 0 1 1 1

    $ lusdist replay p.lus p.toml t.csv s.txt
    link x tank panel taken 5 queued 0
    site tank open
    site panel open
    output y 6
";

/// The page of `S02 LongSchedule`.
pub const S02: &str = "S02 LongSchedule

A file `p.lus`:

    node main(x: int) returns (y: int); let y = x + 1; tel

A file `p.toml`:

    sites = [\"tank\", \"panel\"]
    [place]
    x = \"tank\"
    y = \"panel\"

A file `t.csv`:

    x
    5

A schedule has at most 67,108,864 bytes. `head -c 67108865 /dev/zero | tr '\\0'
0 > long.txt` makes one of a byte more:

    $ lusdist replay p.lus p.toml t.csv long.txt
    S02 LongSchedule

Write the turns that matter, and let `--finish` take the others: it goes on
until no site can do anything more. With a file `s.txt`:

    0 0 1 1 1

    $ lusdist replay p.lus p.toml t.csv s.txt --finish
    link x tank panel taken 5 close queued 0
    site tank ended
    site panel ended
    output y 6
";

/// The page of a code, where it is one of these.
#[tactic(auto, unfolding(crate::specs::Pages::schedules))]
pub fn page(code: &str) -> Option<&'static str>
    ensures { option_map (λ s. s.now) result ≡ text_among schedules code.now }
{
    match code {
        "S01" => Some(S01),
        "S02" => Some(S02),
        _ => None,
    }
}
