//! The pages on placements, which `tools/faults` makes from docs/FAULTS.md.

ghost use Rattle.std.specs.Prelude.{◌≡◌, option_map};
ghost use Rattle.lusdist_shell.specs.Pages.{text_among, placements};

/// The page of `P01 NotToml`.
pub const P01: &str = "P01 NotToml

The placement isn't a TOML text. A key that stands twice in one table makes it
none, and so do a whole number outside 64 bits and bytes that aren't UTF-8.

A file `p.lus`:

    node main(x: int) returns (y: int); let y = x + 1; tel

A file `p.toml`:

    sites = [\"tank\", \"panel\"
    default = \"panel\"

    $ lusdist plan p.lus p.toml
    P01 NotToml

Close the bracket (names of sites are in quotes, too):

    sites = [\"tank\", \"panel\"]

    $ lusdist plan p.lus p.toml
    {\"capacity\":16,\"flows\":[{\"clock\":\"\",\"name\":\"x\",\"site\":\"panel\",\"type\":\"int\"},{\"clock\":\"\",\"name\":\"y\",\"site\":\"panel\",\"type\":\"int\"}],\"links\":[],\"sites\":[\"tank\",\"panel\"]}
";

/// The page of `P02 BadKey`.
pub const P02: &str = "P02 BadKey

The keys are `version`, `sites`, `capacity`, `default` and the table `place`,
and no others; `sites` has to be there. `version` and `capacity` are whole
numbers, `sites` is an array of names in quotes, and `default` and each entry
of `place` is a name, or in version 2 also an array of one name or more. The
name of a site has letters, digits and `_`, no digit first, and at most 32
bytes. What stands below the line `[place]` belongs to that table: the other
keys stand above it.

A file `p.lus`:

    node main(x: int) returns (y: int); let y = x + 1; tel

A file `p.toml`:

    sites = [\"tank-1\", \"panel\"]
    default = \"panel\"

    $ lusdist plan p.lus p.toml
    P02 BadKey

A name has no `-`:

    sites = [\"tank_1\", \"panel\"]

    $ lusdist plan p.lus p.toml
    {\"capacity\":16,\"flows\":[{\"clock\":\"\",\"name\":\"x\",\"site\":\"panel\",\"type\":\"int\"},{\"clock\":\"\",\"name\":\"y\",\"site\":\"panel\",\"type\":\"int\"}],\"links\":[],\"sites\":[\"tank_1\",\"panel\"]}
";

/// The page of `P03 UnknownSite`.
pub const P03: &str = "P03 UnknownSite

A name in `default` or in `place` isn't one of `sites`. Small and capital
letters differ.

A file `p.lus`:

    node main(x: int) returns (y: int); let y = x + 1; tel

A file `p.toml`:

    sites = [\"tank\", \"panel\"]
    default = \"panel\"
    [place]
    x = \"Tank\"

    $ lusdist plan p.lus p.toml
    P03 UnknownSite

Spell it as in `sites`, or add it there:

    x = \"tank\"

    $ lusdist plan p.lus p.toml
    {\"capacity\":16,\"flows\":[{\"clock\":\"\",\"name\":\"x\",\"site\":\"tank\",\"type\":\"int\"},{\"clock\":\"\",\"name\":\"y\",\"site\":\"panel\",\"type\":\"int\"}],\"links\":[{\"clock\":\"\",\"flow\":\"x\",\"from\":\"tank\",\"to\":\"panel\"}],\"sites\":[\"tank\",\"panel\"]}
";

/// The page of `P04 UnknownVariable`.
pub const P04: &str = "P04 UnknownVariable

Each key in `place` is an input, an output or a local of the main node. What a
called node declares has no place of its own: it stands where the variable
stands in whose equation the call is.

A file `p.lus`:

    node main(x: int) returns (y: int); let y = x + 1; tel

A file `p.toml`:

    sites = [\"tank\", \"panel\"]
    default = \"panel\"
    [place]
    level = \"tank\"

    $ lusdist plan p.lus p.toml
    P04 UnknownVariable

Name a variable of the main node. The mended file `p.toml` is

    sites = [\"tank\", \"panel\"]
    default = \"panel\"
    [place]
    x = \"tank\"

    $ lusdist plan p.lus p.toml
    {\"capacity\":16,\"flows\":[{\"clock\":\"\",\"name\":\"x\",\"site\":\"tank\",\"type\":\"int\"},{\"clock\":\"\",\"name\":\"y\",\"site\":\"panel\",\"type\":\"int\"}],\"links\":[{\"clock\":\"\",\"flow\":\"x\",\"from\":\"tank\",\"to\":\"panel\"}],\"sites\":[\"tank\",\"panel\"]}
";

/// The page of `P05 Unplaced`.
pub const P05: &str = "P05 Unplaced

Each input, output and local of the main node has an entry in `place`, or else
there is a `default`. The line doesn't tell which variable has none.

A file `p.lus`:

    node main(x: int) returns (y: int); let y = x + 1; tel

A file `p.toml`:

    sites = [\"tank\", \"panel\"]
    [place]
    x = \"tank\"

    $ lusdist plan p.lus p.toml
    P05 Unplaced

`y` has no site. Add `y = \"panel\"` to `place`, or a `default` before it, as in
this file `p.toml`:

    sites = [\"tank\", \"panel\"]
    default = \"panel\"
    [place]
    x = \"tank\"

    $ lusdist plan p.lus p.toml
    {\"capacity\":16,\"flows\":[{\"clock\":\"\",\"name\":\"x\",\"site\":\"tank\",\"type\":\"int\"},{\"clock\":\"\",\"name\":\"y\",\"site\":\"panel\",\"type\":\"int\"}],\"links\":[{\"clock\":\"\",\"flow\":\"x\",\"from\":\"tank\",\"to\":\"panel\"}],\"sites\":[\"tank\",\"panel\"]}
";

/// The page of `P06 DuplicateSite`.
pub const P06: &str = "P06 DuplicateSite

No name stands twice in `sites`, nor in one array of `default` or `place`.

A file `p.lus`:

    node main(x: int) returns (y: int); let y = x + 1; tel

A file `p.toml`:

    sites = [\"tank\", \"tank\"]
    default = \"tank\"

    $ lusdist plan p.lus p.toml
    P06 DuplicateSite

Give each site its own name:

    sites = [\"tank\", \"panel\"]

    $ lusdist plan p.lus p.toml
    {\"capacity\":16,\"flows\":[{\"clock\":\"\",\"name\":\"x\",\"site\":\"tank\",\"type\":\"int\"},{\"clock\":\"\",\"name\":\"y\",\"site\":\"tank\",\"type\":\"int\"}],\"links\":[],\"sites\":[\"tank\",\"panel\"]}
";

/// The page of `P07 OutOfRange`.
pub const P07: &str = "P07 OutOfRange

`capacity` is from 1 to 1,024, `version` is 1 or 2, there are from 1 to 16
sites, and the text has at most 1,048,576 bytes.

A file `p.lus`:

    node main(x: int) returns (y: int); let y = x + 1; tel

A file `p.toml`:

    sites = [\"tank\", \"panel\"]
    default = \"tank\"
    capacity = 0

    $ lusdist plan p.lus p.toml
    P07 OutOfRange

A link has to hold one message at least:

    capacity = 1

    $ lusdist plan p.lus p.toml
    {\"capacity\":1,\"flows\":[{\"clock\":\"\",\"name\":\"x\",\"site\":\"tank\",\"type\":\"int\"},{\"clock\":\"\",\"name\":\"y\",\"site\":\"tank\",\"type\":\"int\"}],\"links\":[],\"sites\":[\"tank\",\"panel\"]}
";

/// The page of `P08 SplitCall`.
pub const P08: &str = "P08 SplitCall

The variables of one equation are computed by one call, so they stand at the
same site, or at the same set of sites.

A file `p.lus`:

    node both(x: int) returns (up, down: int); let up = x + 1; down = x - 1; tel
    node main(x: int) returns (a, b: int); let (a, b) = both(x); tel

A file `p.toml`:

    sites = [\"tank\", \"panel\"]
    default = \"tank\"
    [place]
    b = \"panel\"

    $ lusdist plan p.lus p.toml
    P08 SplitCall

Place them together (a further variable with the equation `c = b` can stand
elsewhere):

    b = \"tank\"

    $ lusdist plan p.lus p.toml
    {\"capacity\":16,\"flows\":[{\"clock\":\"\",\"name\":\"x\",\"site\":\"tank\",\"type\":\"int\"},{\"clock\":\"\",\"name\":\"a\",\"site\":\"tank\",\"type\":\"int\"},{\"clock\":\"\",\"name\":\"b\",\"site\":\"tank\",\"type\":\"int\"}],\"links\":[],\"sites\":[\"tank\",\"panel\"]}
";

/// The page of a code, where it is one of these.
#[tactic(auto, unfolding(crate::specs::Pages::placements))]
pub fn page(code: &str) -> Option<&'static str>
    ensures { option_map (λ s. s.now) result ≡ text_among placements code.now }
{
    match code {
        "P01" => Some(P01),
        "P02" => Some(P02),
        "P03" => Some(P03),
        "P04" => Some(P04),
        "P05" => Some(P05),
        "P06" => Some(P06),
        "P07" => Some(P07),
        "P08" => Some(P08),
        _ => None,
    }
}
