//! The pages on tables, which `tools/faults` makes from docs/FAULTS.md.

ghost use Rattle.std.specs.Prelude.{◌≡◌, option_map};
ghost use Rattle.lusdist_shell.specs.Pages.{text_among, tables};

/// The page of `T01 BadHeader`.
pub const T01: &str = "T01 BadHeader

The first line is the header: the names of the main node's inputs, in order of
declaration, with `,` between them and no blanks, and a line feed at its end.
Of a main node without inputs the header is an empty line. A table that isn't
UTF-8 is refused so too, before all else.

A file `p.lus`:

    node main(x: int; c: bool) returns (y: int); let y = if c then x else 0; tel

Spreadsheets often write what no table has. These commands leave it out:

    what                                      command
    a carriage return before each line feed   `tr -d '\\r' < old.csv > new.csv`
    a byte order mark at the beginning        `tail -c +4 old.csv > new.csv`
    a `;` as the separator                    `tr ';' ',' < old.csv > new.csv`
    quotes                                    `tr -d '\"' < old.csv > new.csv`

A file `t.csv`:

    c,x
    true,5

    $ lusdist eval p.lus t.csv
    T01 BadHeader

Write the columns in the order in which the main node declares its inputs. The
mended file `t.csv` is

    x,c
    5,true

    $ lusdist eval p.lus t.csv
    y
    5
";

/// The page of `T02 BadRow`.
pub const T02: &str = "T02 BadRow

A line has as many fields as there are inputs, and the last line ends in a line
feed too. An empty line is a line, at the end too. N is the number of the line;
the header is line 1.

A file `p.lus`:

    node main(x: int; c: bool) returns (y: int); let y = if c then x else 0; tel

A file `t.csv`:

    x,c
    5,true
    7

    $ lusdist eval p.lus t.csv
    T02 BadRow line 3

Every instant has a value for each input; none is left out. The mended file
`t.csv` is

    x,c
    5,true
    7,false

    $ lusdist eval p.lus t.csv
    y
    5
    0
";

/// The page of `T03 BadValue`.
pub const T03: &str = "T03 BadValue

An `int` is `0`, or digits that don't begin with 0, with or without `-` before
them, from -9223372036854775808 to 9223372036854775807; a `bool` is `true` or
`false`; a field of an enumeration is one of its names. No blanks, no `+`, no
quotes, no point and no exponent; `1` is no `bool`. N is the number of the
line; the header is line 1.

A file `p.lus`:

    node main(x: int; c: bool) returns (y: int); let y = if c then x else 0; tel

A file `t.csv`:

    x,c
    5,true
    7.5,true

    $ lusdist eval p.lus t.csv
    T03 BadValue line 3

There are no fractions. Choose a finer unit, here tenths. The mended file
`t.csv` is

    x,c
    50,true
    75,true

    $ lusdist eval p.lus t.csv
    y
    50
    75
";

/// The page of `T04 TooLong`.
pub const T04: &str = "T04 TooLong

A table has at most 67,108,864 bytes, and at most 1,000,001 line feeds: those
of the header and of 1,000,000 instants.

A file `p.lus`:

    node main(x: int; c: bool) returns (y: int); let y = if c then x else 0; tel

`(echo x,c; yes 5,true | head -n 1000001) > long.csv` makes a table of one
instant too many:

    $ lusdist eval p.lus long.csv
    T04 TooLong

Try the program on a part of the table, such as the file `t.csv` that `head -n
4 long.csv > t.csv` makes:

    x,c
    5,true
    5,true
    5,true

    $ lusdist eval p.lus t.csv
    y
    5
    5
    5
";

/// The page of a code, where it is one of these.
#[tactic(auto, unfolding(crate::specs::Pages::tables))]
pub fn page(code: &str) -> Option<&'static str>
    ensures { option_map (λ s. s.now) result ≡ text_among tables code.now }
{
    match code {
        "T01" => Some(T01),
        "T02" => Some(T02),
        "T03" => Some(T03),
        "T04" => Some(T04),
        _ => None,
    }
}
