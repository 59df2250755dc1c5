//! The pages on a program's text, which `tools/faults` makes from docs/FAULTS.md.

ghost use Rattle.std.specs.Prelude.{◌≡◌, option_map};
ghost use Rattle.lusdist_shell.specs.Pages.{text_among, texts};

/// The page of `E01 Syntax`.
pub const E01: &str = "E01 Syntax

The text isn't a program by the grammar. BYTE is the earliest byte that begins
no token. Where there is none, it is the first token that can't stand where it
stands, or the length of the text where it ends too early. What is missing
often belongs before that place. Keywords are no names, and `type` and `enum`
are keywords too.

A file `p.lus`:

    node main(level: int) returns (pump: bool);
    let
      pump = level < 20
    tel

    $ lusdist check p.lus
    E01 Syntax at 68

The byte is that of `tel`: an equation goes on until its `;`, and `tel` can't
stand in it. Put the `;` at the end of the equation:

      pump = level < 20;

    $ lusdist check p.lus
    node main(level: int) returns (pump: bool);
    let
      pump = level < 20;
    tel

Coming from Lustre V4, V6 or SCADE

A program of another dialect, or of C, is mostly refused at the first sign or
word that is written in another way here, and `--explain` says how where it
stands. `check --all --explain` tells all such places at once. What is written
there, and what is written here:

    there                             here
    `(* .. *)`, `/* .. */`, `//`      `--` to the end of the line
    `x / y`, `x % y`                  `x div y`, `x mod y`
    `a && b`, `a || b`, `!a`          `a and b`, `a or b`, `not a`
    `x == y`, `x != y`, `x =< y`      `x = y`, `x <> y`, `x <= y`
    `c ? x : y`                       `if c then x else y`
    `x := y;`                         `x = y;`
    `#(a, b)`, `nor(a, b)`            `not (a and b)`, `not (a or b)`
    `xor(a, b)`                       `a xor b`
    `a < b < c`                       `a < b and b < c`
    `True`, `IF`                      `true`, `if`
    `y, z = f(x);`                    `(y, z) = f(x);`
    `(y, z) = (a, b);`                an equation for each
    `.. elsif c then ..`              `.. else if c then ..`
    `case x of | A : y ..`            `merge x (A -> y) ..`
    `current(q)`                      `current q`
    `x when (x > 3)`                  `x when c`, with `c = x > 3;`
    `x when true(c)`                  `x when c`
    `merge(c; x; y)`                  `merge c (true -> x) (false -> y)`
    `last x`, `fby(x; 1; 0)`          `0 -> pre x`, `0 fby x`
    `f(x: int, y: int)`               `f(x: int; y: int)`
    `f(int x)`                        `f(x: int)`
    `tel.`                            `tel`
    `boolean`, `integer`, `int32`     `bool`, `int`, which has 64 bits
    `0.5`, `real`, `float`            an `int` in a finer unit, as thousandths
    `x[0]`, `x^3`, `int^3`            a variable for each element
    `s.a`, `struct`                   a variable for each field
    `type t = int;`, `type t;`        `int` itself; a type is an enumeration
    `const n = 3;`                    the number, or a node without inputs
    `function f`                      `node f`
    `f<<3>>(x)`                       a node for each value
    `assert`, `assume`, `guarantee`   an output that is true where it holds
    `automaton`                       an enumeration of the states
    `extern`, `imported`, `unsafe`    an input of the main node
    `package`, `open`, `include`      all nodes in one file

Each equation and each declaration ends with `;`, and each `if` has an `else`,
since there is a value at every instant. No node is built in. A type of another
dialect (`real`) is told by `E11`, and so is `True`, which is read as a
variable; a call of what is built in there (`nor`) by `E12`.
";

/// The page of `E02 NumberTooLarge`.
pub const E02: &str = "E02 NumberTooLarge

A number in the program is above 9223372036854775807, the greatest `int`. BYTE
is its first digit. Leading zeros are without meaning.

A file `p.lus`:

    node main(nanoseconds: int) returns (late: bool);
    let
      late = nanoseconds > 31536000000000000000;
    tel

    $ lusdist check p.lus
    E02 NumberTooLarge at 77

No input can be above that limit either. Choose a coarser unit, here and in the
table:

    node main(milliseconds: int) returns (late: bool);
      late = milliseconds > 31536000000000;

    $ lusdist check p.lus
    node main(milliseconds: int) returns (late: bool);
    let
      late = milliseconds > 31536000000000;
    tel
";

/// The page of `E03 NotAscii`.
pub const E03: &str = "E03 NotAscii

A program has bytes from 0 to 127 alone, in comments too. The line tells no
byte; `LC_ALL=C grep -nP '[\\x80-\\xff]' p.lus` prints the lines that have
others. A program that isn't UTF-8 is refused so too. A byte order mark at its
beginning is three such bytes; `tail -c +4 p.lus > new.lus` cuts it off.

A file `p.lus`:

    node main(water: int) returns (hot: bool);
    let
      hot = water > 90; -- above 90 °C
    tel

    $ lusdist check p.lus
    E03 NotAscii

Write it in ASCII letters:

      hot = water > 90; -- above 90 degrees

    $ lusdist check p.lus
    node main(water: int) returns (hot: bool);
    let
      hot = water > 90;
    tel
";

/// The page of `E04 TooLong`.
pub const E04: &str = "E04 TooLong

A program's text has at most 1,048,576 bytes, at most 256 nodes and 64 types,
and a type at most 64 names.

A file `p.lus`:

    node main(x: int) returns (y: int);
    let
      y = x + 1;
    tel

`(cat p.lus; head -c 1048576 /dev/zero | tr '\\0' ' ') > long.lus` puts that
many blanks behind it:

    $ lusdist check long.lus
    E04 TooLong

Leave out what says nothing, and nodes that nothing calls. Without the blanks:

    $ lusdist check p.lus
    node main(x: int) returns (y: int);
    let
      y = x + 1;
    tel
";

/// The page of `E05 LongRun`.
pub const E05: &str = "E05 LongRun

From one `;` to the next stand at most 1,000 tokens: names, numbers, keywords
and signs; blanks and comments are none. BYTE is where the 1,001st stands. An
equation so long is mostly one that a program has written.

A file `t.csv`:

    x
    5

`(printf 'node main(x: int) returns (y: int);\\nlet\\n y = x'; printf ' + x%.0s'
$(seq 599); printf ';\\ntel\\n') > sum.lus` makes a program with a sum of 600
times `x`, which has 1,199 tokens:

    $ lusdist eval sum.lus t.csv
    E05 LongRun at 2040

Cut the expression, and give its parts to locals. With 300 times `x` in `a = x
+ .. + x;`, the other 300 in `b = x + .. + x;`, and `y = a + b;`, in a file
`sums.lus`:

    $ lusdist eval sums.lus t.csv
    y
    3000
";

/// The page of a code, where it is one of these.
#[tactic(auto, unfolding(crate::specs::Pages::texts))]
pub fn page(code: &str) -> Option<&'static str>
    ensures { option_map (λ s. s.now) result ≡ text_among texts code.now }
{
    match code {
        "E01" => Some(E01),
        "E02" => Some(E02),
        "E03" => Some(E03),
        "E04" => Some(E04),
        "E05" => Some(E05),
        _ => None,
    }
}
