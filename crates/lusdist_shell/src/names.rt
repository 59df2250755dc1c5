//! The pages on names and types, which `tools/faults` makes from docs/FAULTS.md.

ghost use Rattle.std.specs.Prelude.{◌≡◌, option_map};
ghost use Rattle.lusdist_shell.specs.Pages.{text_among, names};

/// The page of `E10 DuplicateName`.
pub const E10: &str = "E10 DuplicateName

No two nodes have one name, and no two variables of a node, be they inputs,
outputs or locals. No two types have one name. No two names of enumerations are
equal, not in two types either, and no variable has the name of one. BYTE is
the later one of the two names; of a variable and a name of an enumeration it
is the variable.

A file `p.lus`:

    node main(level, level: int) returns (mean: int);
    let
      mean = (level + level) div 2;
    tel

    $ lusdist check p.lus
    E10 DuplicateName at 17

Give each its own name:

    node main(level1, level2: int) returns (mean: int);
      mean = (level1 + level2) div 2;

    $ lusdist check p.lus
    node main(level1: int; level2: int) returns (mean: int);
    let
      mean = (level1 + level2) div 2;
    tel
";

/// The page of `E11 UnknownName`.
pub const E11: &str = "E11 UnknownName

Each name in an equation, and each clock behind a declaration's `when`, is an
input, an output or a local of the same node; where a value stands, or a
pattern of a clock or a merge, it may be a name of an enumeration. A declared
type is `int`, `bool` or a type of the file. BYTE is where the equation begins,
or the declared name whose type or clock it is.

A file `p.lus`:

    node main(level: int) returns (alarm: bool);
    let
      alarm = levle > 80;
    tel

    $ lusdist check p.lus
    E11 UnknownName at 51

Spell the name as it is declared, or declare it. A variable of another node has
to come as an argument:

      alarm = level > 80;

    $ lusdist check p.lus
    node main(level: int) returns (alarm: bool);
    let
      alarm = level > 80;
    tel
";

/// The page of `E12 UnknownNode`.
pub const E12: &str = "E12 UnknownNode

A call names a node of the same file, before it or behind it; no node is built
in. BYTE is where the equation with the call begins.

A file `p.lus`:

    node abs(v: int) returns (a: int); let a = if v < 0 then - v else v; tel
    node main(x: int) returns (y: int); let y = absolute(x); tel

    $ lusdist check p.lus
    E12 UnknownNode at 113

Call the node by its name, or write the node:

    node main(x: int) returns (y: int); let y = abs(x); tel

    $ lusdist check p.lus
    node abs(v: int) returns (a: int);
    let
      a = if v < 0 then - v else v;
    tel
    node main(x: int) returns (y: int);
    let
      y = abs(x);
    tel
";

/// The page of `E13 TypeMismatch`.
pub const E13: &str = "E13 TypeMismatch

Arithmetic takes `int`, logic and the condition of `if` take `bool`, the two
sides of `=`, `<>`, `->`, `fby` and the branches of `if` and `merge` have one
type, arguments have those of the inputs, and the right side of an equation has
that of its left side. BYTE is where the equation begins.

A file `p.lus`:

    node main(level: int) returns (pump: int);
    let
      pump = level < 20;
    tel

    $ lusdist check p.lus
    E13 TypeMismatch at 49

A comparison gives a `bool`, so `pump` has to be one (to count it, write `if
level < 20 then 1 else 0`):

    node main(level: int) returns (pump: bool);

    $ lusdist check p.lus
    node main(level: int) returns (pump: bool);
    let
      pump = level < 20;
    tel
";

/// The page of `E14 WrongArity`.
pub const E14: &str = "E14 WrongArity

A call has as many arguments as its node has inputs, and an equation as many
variables on its left as its right side has values. A call inside an
expression, or as an argument, is of a node with one output. BYTE is where the
equation begins.

A file `p.lus`:

    node max(a, b: int) returns (m: int); let m = if a > b then a else b; tel
    node main(x, y, z: int) returns (top: int); let top = max(x, y, z); tel

    $ lusdist check p.lus
    E14 WrongArity at 122

Give each call its own number of arguments:

    node main(x, y, z: int) returns (top: int); let top = max(x, max(y, z)); tel

    $ lusdist check p.lus
    node max(a: int; b: int) returns (m: int);
    let
      m = if a > b then a else b;
    tel
    node main(x: int; y: int; z: int) returns (top: int);
    let
      top = max(x, max(y, z));
    tel
";

/// The page of `E15 Undefined`.
pub const E15: &str = "E15 Undefined

Each output and each local has an equation. BYTE is the name in its
declaration.

A file `p.lus`:

    node main(x: int) returns (rise: int); var last: int; let rise = x - (x -> last); tel

    $ lusdist check p.lus
    E15 Undefined at 43

Write the equation, or remove the declaration. What comes from outside is an
input:

    node main(x: int) returns (rise: int); var last: int; let rise = x - (x -> last); last = pre x; tel

    $ lusdist check p.lus
    node main(x: int) returns (rise: int);
    var last: int;
    let
      rise = x - (x -> last);
      last = pre x;
    tel
";

/// The page of `E16 DefinedTwice`.
pub const E16: &str = "E16 DefinedTwice

A variable has one equation, which names it once on its left, and an input has
none. BYTE is where the later equation begins. An equation is no assignment: it
says what its variable is at every instant.

A file `p.lus`:

    node main(reset: bool) returns (n: int); let n = 0 -> pre n + 1; n = if reset then 0 else n; tel

    $ lusdist check p.lus
    E16 DefinedTwice at 65

Write one equation:

    node main(reset: bool) returns (n: int); let n = if reset then 0 else 0 -> pre n + 1; tel

    $ lusdist check p.lus
    node main(reset: bool) returns (n: int);
    let
      n = if reset then 0 else 0 -> pre n + 1;
    tel
";

/// The page of `E17 RecursiveNode`.
pub const E17: &str = "E17 RecursiveNode

No node calls itself, directly or through others. BYTE is the name of a node
that does, where it is declared; of several the first in the text.

A file `p.lus`:

    node sum(n: int) returns (s: int); let s = if n = 0 then 0 else n + sum(n - 1); tel
    node main(n: int) returns (total: int); let total = sum(n); tel

    $ lusdist check p.lus
    E17 RecursiveNode at 5

A program repeats what it does from instant to instant: keep the sum so far
with `pre`.

    node sum(n: int) returns (s: int); let s = n + (0 -> pre s); tel

    $ lusdist check p.lus
    node sum(n: int) returns (s: int);
    let
      s = n + (0 -> pre s);
    tel
    node main(n: int) returns (total: int);
    let
      total = sum(n);
    tel
";

/// The page of `E18 NoMain`.
pub const E18: &str = "E18 NoMain

The main node is the one whose inputs the table gives and whose outputs are
printed. It is the node of the name `main`, or of the name behind `--main`, and
here there is none. The byte is always 0.

A file `p.lus`:

    node pump(level: int) returns (on: bool);
    let
      on = level < 20;
    tel

    $ lusdist check p.lus
    E18 NoMain at 0

Call the node `main`, or say its name:

    $ lusdist check p.lus --main pump
    node pump(level: int) returns (on: bool);
    let
      on = level < 20;
    tel
";

/// The page of `E19 BadMerge`.
pub const E19: &str = "E19 BadMerge

A merge on a variable of an enumeration has a branch for each name of that
type, in the order in which they are declared, and no other. So no value of the
variable is forgotten, and none has two branches. BYTE is where the equation
with the merge begins.

A file `p.lus`:

    type mode = enum { Idle, Heating, Error };
    node main(mode: mode; level: int) returns (power: int);
    let
      power = merge mode (Idle -> 0) (Heating -> level when Heating(mode));
    tel

    $ lusdist check p.lus
    E19 BadMerge at 105

Say what comes in the mode that has no branch:

      power = merge mode (Idle -> 0) (Heating -> level when Heating(mode)) (Error -> 0);

    $ lusdist check p.lus
    type mode = enum { Idle, Heating, Error };
    node main(mode: mode; level: int) returns (power: int);
    let
      power = merge mode (Idle -> 0) (Heating -> level when Heating(mode)) (Error -> 0);
    tel
";

/// The page of a code, where it is one of these.
#[tactic(auto, unfolding(crate::specs::Pages::names))]
pub fn page(code: &str) -> Option<&'static str>
    ensures { option_map (λ s. s.now) result ≡ text_among names code.now }
{
    match code {
        "E10" => Some(E10),
        "E11" => Some(E11),
        "E12" => Some(E12),
        "E13" => Some(E13),
        "E14" => Some(E14),
        "E15" => Some(E15),
        "E16" => Some(E16),
        "E17" => Some(E17),
        "E18" => Some(E18),
        "E19" => Some(E19),
        _ => None,
    }
}
