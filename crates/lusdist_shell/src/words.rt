//! The pages on words and files, which `tools/faults` makes from docs/FAULTS.md.

ghost use Rattle.std.specs.Prelude.{◌≡◌, option_map};
ghost use Rattle.lusdist_shell.specs.Pages.{text_among, words};

/// The page of `F01 CannotRead`.
pub const F01: &str = "F01 CannotRead

There is no file of that name, or it can't be read. PATH is the word of the
command line, as it was written. Files before it were read and are in order.

A file `pump.lus`:

    node main(level: int) returns (pump: bool);
    let
      pump = level < 20;
    tel

    $ lusdist check pmup.lus
    F01 CannotRead pmup.lus

Write the name of the file as it is, seen from the folder in which the command
is called:

    $ lusdist check pump.lus
    node main(level: int) returns (pump: bool);
    let
      pump = level < 20;
    tel
";

/// The page of `F02 CannotWrite`.
pub const F02: &str = "F02 CannotWrite

What was to be printed can't be written, since the disk is full, for instance.
The answer was worked out, but nothing of it was written, or a beginning. No
text is at fault, and none is to be mended: make room, or write to another
place. On Linux `lusdist check pump.lus > /dev/full` shows the line.

With a PATH behind it, it is the file of a dump (`--vcd`) that can't be
written, since its folder isn't there, for instance: a file is as it was, and a
device or a pipe has a beginning of the dump. Nothing went to the output, and a
fault of the evaluation isn't told. What can be seen of this beforehand is told
before a file is read.
";

/// The page of a code, where it is one of these.
#[tactic(auto, unfolding(crate::specs::Pages::words))]
pub fn page(code: &str) -> Option<&'static str>
    ensures { option_map (λ s. s.now) result ≡ text_among words code.now }
{
    match code {
        "F01" => Some(F01),
        "F02" => Some(F02),
        _ => None,
    }
}
