//! The pages on values and the machine, which `tools/faults` makes from docs/FAULTS.md.

ghost use Rattle.std.specs.Prelude.{◌≡◌, option_map};
ghost use Rattle.lusdist_shell.specs.Pages.{text_among, runs};

/// The page of `R1 Fault`.
pub const R1: &str = "R1 Fault overflow

A result lies outside -9223372036854775808 to 9223372036854775807. VARIABLE is
the variable of the main node in whose equation the operator stands, also where
it stands in a node that is called there; INSTANT is counted from 0. Of several
faults `eval` tells the earliest, and it prints no table.

A file `t.csv`:

    x
    3
    4000000000

A file `p.lus`:

    node main(x: int) returns (y: int); let y = x * x; tel

    $ lusdist eval p.lus t.csv
    R1 Fault y 1 overflow

Instant 1 is line 3 of the table. Bound the operands before the operator:

    node main(x: int) returns (y: int); var z: int; let z = if x > 3000000000 then 3000000000 else x; y = z * z; tel

    $ lusdist eval p.lus t.csv
    y
    9
    9000000000000000000

R1 Fault div-zero

The right operand of `div` or `mod` is 0. VARIABLE and INSTANT are as on the
page above. Both branches of `if` are computed, and both sides of `->`; what no
output depends on is computed too.

A file `t.csv`:

    x
    3
    0

A file `p.lus`:

    node main(x: int) returns (y: int); let y = if x = 0 then 0 else 12 div x; tel

    $ lusdist eval p.lus t.csv
    R1 Fault y 1 div-zero

Keep the division away by a clock, on which it isn't computed where `x` is 0
(or divide by `if x = 0 then 1 else x`):

    node main(x: int) returns (y: int); var c: bool; let c = x <> 0; y = merge c (true -> 12 div (x when c)) (false -> 0); tel

    $ lusdist eval p.lus t.csv
    y
    4
    0

A site that faulted

A replay tells a fault in its answer, with status 0: `site NAME faulted
VARIABLE INSTANT KIND`. The site does nothing more, and one that waits for it
stays `open`. `run` prints no table but an `R1` line; where several sites would
fault it tells one of them, which may be another than that of `eval`.

With the table of the page above, a file `p.toml`:

    sites = [\"tank\", \"panel\"]
    default = \"tank\"
    [place]
    z = \"panel\"

a file `s.txt`:

    01

and a file `p.lus`:

    node main(x: int) returns (y, z: int); let y = 12 div x; z = y + 1; tel

    $ lusdist replay p.lus p.toml t.csv s.txt --finish
    link y tank panel taken 4 queued 0
    site tank faulted y 1 div-zero
    site panel open
    output y 4
    output z 5

The panel has `y` of instant 0, and waits for that of instant 1. Mend the
program as on the pages above:

    node main(x: int) returns (y, z: int); let y = 12 div (if x = 0 then 1 else x); z = y + 1; tel

    $ lusdist replay p.lus p.toml t.csv s.txt --finish
    link y tank panel taken 4 12 close queued 0
    site tank ended
    site panel ended
    output y 4 12
    output z 5 13
";

/// The page of `A1 Violated`.
pub const A1: &str = "A1 Violated

The bool output that `--always NAME` observes is false at INSTANT, and at none
before it. `eval`, `run` and `replay` tell it beside their answer, which is
printed as ever, and end with status 3. It is a check at this table, and no
proof for another one.

A file `t.csv`:

    level
    12
    22

A file `p.lus`:

    node main(level: int) returns (pump, safe: bool);
    let
      pump = level < 20;
      safe = pump or level >= 25;
    tel

    $ lusdist eval p.lus t.csv --always safe
    pump,safe
    true,true
    false,false
    A1 Violated safe 1

Instant 1 is line 3 of the table. Mend the program, or the observer where that
asks for too much:

      pump = level < 25;

    $ lusdist eval p.lus t.csv --always safe
    pump,safe
    true,true
    true,true
";

/// The page of `R2 OutOfMemory`.
pub const R2: &str = "R2 OutOfMemory

The machine had no more memory. It says nothing of the texts, and any command
may tell it. Nothing is printed. Take a shorter table or schedule, or a machine
with more memory; `run` needs less than `replay`, which keeps all messages.
LIMITS (docs/LIMITS.md) says what a text can cost.
";

/// The page of `R3 LinkLost`.
pub const R3: &str = "R3 LinkLost

A site of a run was left before its end, though no site faulted. It says
nothing of the texts, and none is to be mended: call again, or take `replay
--finish`, which starts no threads and tells the same outputs.
";

/// The page of `R4 NoThread`.
pub const R4: &str = "R4 NoThread

The system refused to start a thread of a run. It says nothing of the texts.
`run` starts up to a thread for each site, and with `--workers W` at most W:
call it with a small number, close other programs, or take `replay --finish`,
which starts none and tells the same outputs.
";

/// The page of a code, where it is one of these.
#[tactic(auto, unfolding(crate::specs::Pages::runs))]
pub fn page(code: &str) -> Option<&'static str>
    ensures { option_map (λ s. s.now) result ≡ text_among runs code.now }
{
    match code {
        "R1" => Some(R1),
        "A1" => Some(A1),
        "R2" => Some(R2),
        "R3" => Some(R3),
        "R4" => Some(R4),
        _ => None,
    }
}
