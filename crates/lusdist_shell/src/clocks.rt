//! The pages on clocks, which `tools/faults` makes from docs/FAULTS.md.

ghost use Rattle.std.specs.Prelude.{◌≡◌, option_map};
ghost use Rattle.lusdist_shell.specs.Pages.{text_among, clocks};

/// The page of `E20 ClockMismatch`.
pub const E20: &str = "E20 ClockMismatch

A clock says at which instants a value is there. The variables on the left of
an equation have one clock, and the right side has to fit it: what an operator
joins is there at the same instants. BYTE is where the equation begins; the
variables on its left may be the reason as well as its right side.

A file `p.lus`:

    node main(x: int; c: bool) returns (y: int);
    let
      y = x + (x when c);
    tel

    $ lusdist check p.lus
    E20 ClockMismatch at 51

`x` is there at every instant, `x when c` only where `c` is true. Say by
`merge` what is added at the other instants (`current` is another way back to
them):

      y = x + merge c (true -> x when c) (false -> 0);

    $ lusdist check p.lus
    node main(x: int; c: bool) returns (y: int);
    let
      y = x + merge c (true -> x when c) (false -> 0);
    tel
";

/// The page of `E21 NotAClock`.
pub const E21: &str = "E21 NotAClock

What a declaration's `when`, a `when` in an expression or a `merge` names is a
`bool`, or, where names of an enumeration stand with it, of that enumeration;
and the way from a variable to its clock, and on to the clock of that, ends at
the base clock. BYTE is the declared name, or where the equation begins.

A file `p.lus`:

    node main(x, n: int) returns (y: int when n);
    let
      y = x when n;
    tel

    $ lusdist check p.lus
    E21 NotAClock at 30

Name a `bool`:

    node main(x: int; n: bool) returns (y: int when n);

    $ lusdist check p.lus
    node main(x: int; n: bool) returns (y: int when n);
    let
      y = x when n;
    tel
";

/// The page of `E22 ClockedParameter`.
pub const E22: &str = "E22 ClockedParameter

Inputs are there at every instant of their node, and so are outputs of all
nodes but the main one; and a main node that has a clocked output isn't called.
BYTE is the declared name, or where the equation with that call begins.

A file `p.lus`:

    node main(c: bool; x: int when c) returns (y: int);
    let
      y = merge c (true -> x) (false -> 0);
    tel

    $ lusdist check p.lus
    E22 ClockedParameter at 19

Take the input at every instant, and sample it inside. (A called node can be
given samples: it then runs on their clock as a whole.)

    node main(c: bool; x: int) returns (y: int);
      y = merge c (true -> x when c) (false -> 0);

    $ lusdist check p.lus
    node main(c: bool; x: int) returns (y: int);
    let
      y = merge c (true -> x when c) (false -> 0);
    tel
";

/// The page of `E23 HiddenClock`.
pub const E23: &str = "E23 HiddenClock

An output of the main node may be on a clock, but whoever reads it has to see
the clock too: it is an input or an output, and no local. BYTE is the name of
the output.

A file `p.lus`:

    node main(x: int) returns (y: int when big); var big: bool; let big = x > 9; y = x when big; tel

    $ lusdist check p.lus
    E23 HiddenClock at 27

Make the clock an output:

    node main(x: int) returns (y: int when big; big: bool); let big = x > 9; y = x when big; tel

    $ lusdist check p.lus
    node main(x: int) returns (y: int when big; big: bool);
    let
      big = x > 9;
      y = x when big;
    tel
";

/// The page of a code, where it is one of these.
#[tactic(auto, unfolding(crate::specs::Pages::clocks))]
pub fn page(code: &str) -> Option<&'static str>
    ensures { option_map (λ s. s.now) result ≡ text_among clocks code.now }
{
    match code {
        "E20" => Some(E20),
        "E21" => Some(E21),
        "E22" => Some(E22),
        "E23" => Some(E23),
        _ => None,
    }
}
