//! The pages on initialisation and the program as a whole, which `tools/faults` makes from docs/FAULTS.md.

ghost use Rattle.std.specs.Prelude.{◌≡◌, option_map};
ghost use Rattle.lusdist_shell.specs.Pages.{text_among, starts};

/// The page of `E30 MaybeNil`.
pub const E30: &str = "E30 MaybeNil

`pre` has no value at the first instant of its clock. Operators and locals may
pass such a gap on, but it may not come to an output, to a variable that a
clock names, an argument of a call, a branch of `merge`, the operand of `pre`,
the right one of `fby`, or what `current` names. BYTE is where the equation
begins in which such an operand stands, or which defines the output or the
clock.

A file `p.lus`:

    node main(x: int) returns (rise: int);
    let
      rise = x - pre x;
    tel

    $ lusdist check p.lus
    E30 MaybeNil at 45

Say by `->` what holds at the first instant:

      rise = 0 -> x - pre x;

    $ lusdist check p.lus
    node main(x: int) returns (rise: int);
    let
      rise = 0 -> x - pre x;
    tel
";

/// The page of `E31 CurrentMayBeNil`.
pub const E31: &str = "E31 CurrentMayBeNil

`current v` is the last value that `v` had, so it needs one from the beginning:
where `v` is on `c`, the equation of `c` is `c = true -> ..` or `c = true fby
..`, where `v` is on `not c`, it is `c = false -> ..` or `c = false fby ..`,
and where `v` is on `A(c)`, `c = A -> ..` or `c = A fby ..`. BYTE is where the
equation with `current` begins.

A file `p.lus`:

    node main(x: int; c: bool) returns (y: int); var s: int when c; let s = x when c; y = current s; tel

    $ lusdist check p.lus
    E31 CurrentMayBeNil at 82

`c` is an input, which may be false at first. Hold `s` by a merge, with a value
to start with:

    node main(x: int; c: bool) returns (y: int); var s: int when c; let s = x when c; y = merge c (true -> s) (false -> (0 fby y) when not c); tel

    $ lusdist check p.lus
    node main(x: int; c: bool) returns (y: int);
    var s: int when c;
    let
      s = x when c;
      y = merge c (true -> s) (false -> (0 fby y) when not c);
    tel

So `y` is 0 until `c` is true, and from then on the last value of `s`. The
parentheses matter: `0 -> pre y when not c` is read as `0 -> pre (y when not
c)`, which looks back at `y` only where `c` was false. It is accepted too, and
`y` falls back to 0 there.

Where a sample is meant at the first instant, whatever `c` is, take it by a
local that begins with true:

    node main(x: int; c: bool) returns (y: int); var k: bool; s: int when k; let k = true -> c; s = x when k; y = current s; tel

    $ lusdist check p.lus
    node main(x: int; c: bool) returns (y: int);
    var k: bool; s: int when k;
    let
      k = true -> c;
      s = x when k;
      y = current s;
    tel
";

/// The page of `E40 Cycle`.
pub const E40: &str = "E40 Cycle

A variable's value at an instant mustn't depend on itself at that instant, nor
by way of others, of nodes that are called, or of clocks. VARIABLE is the
variable of the main node in whose equation such a value stands; of several it
is that of the least flow of the list (LANGUAGE
(docs/LANGUAGE.md#flat-programs)), and of an equation of several variables the
first. The others of the circle aren't told: follow what its equation reads, in
both branches of an `if`.

A file `p.lus`:

    node main(x: int) returns (sum: int);
    let
      sum = sum + x;
    tel

    $ lusdist check p.lus
    E40 Cycle sum

Put a `pre` into the circle, with a value for the first instant:

      sum = (0 -> pre sum) + x;

    $ lusdist check p.lus
    node main(x: int) returns (sum: int);
    let
      sum = (0 -> pre sum) + x;
    tel
";

/// The page of `E50 TooLarge`.
pub const E50: &str = "E50 TooLarge

Each call has a copy of its own of all that stands in the called node, and in
those that are called there. Counted are flows: a variable with the outermost
operator of its right side is one, and each operator or constant further inside
is one more (`fby` is two operators, `->` and `pre`). There are at most 4,096.
Nodes that the main node doesn't reach by calls don't count.

A file `t.csv`:

    x
    0

A file `p.lus`:

    node a(x: int) returns (y: int); let y = x + 1; tel
    node b(x: int) returns (y: int); let y = a(a(a(a(a(a(a(a(x)))))))); tel
    node c(x: int) returns (y: int); let y = b(b(b(b(b(b(b(b(x)))))))); tel
    node d(x: int) returns (y: int); let y = c(c(c(c(c(c(c(c(x)))))))); tel
    node main(x: int) returns (y: int); let y = d(d(d(x))); tel

    $ lusdist eval p.lus t.csv
    E50 TooLarge

Node `a` has three flows, `b` 26, `c` 210, `d` 1,682, and `main` has two and
three times those of `d`, which is 5,048. Call less often, or give a result to
a local in place of a second call:

    node main(x: int) returns (y: int); let y = d(d(x)); tel

    $ lusdist eval p.lus t.csv
    y
    1024
";

/// The page of a code, where it is one of these.
#[tactic(auto, unfolding(crate::specs::Pages::starts))]
pub fn page(code: &str) -> Option<&'static str>
    ensures { option_map (λ s. s.now) result ≡ text_among starts code.now }
{
    match code {
        "E30" => Some(E30),
        "E31" => Some(E31),
        "E40" => Some(E40),
        "E50" => Some(E50),
        _ => None,
    }
}
