//! Canonical texts of programs.

ghost use Rattle.std.specs.Prelude.{◌≡◌, IfOk, string_bytes};
ghost use Rattle.lutree.specs.Tree.{program_view};
ghost use Rattle.lusyn_printer.specs.Canonical.{canonical};
ghost use Rattle.lusyn.specs.Texts.{IsReadBack};

use lutree::Program;
use std::alloc::{AllocError, Global};

/// The canonical text of a program. It fails only where memory runs out.
pub fn print_program(alloc: Global, program: &Program) -> Result<String, AllocError>
    // The text is the canonical one.
    ensures canonical { IfOk result (λ text. string_bytes text
        ≡ canonical (program_view program.now)) }
    // Where the program is that of a text, it is read back as the same program, places aside, if it isn't too
    // long for a text.
    ensures again { IfOk result (λ text. IsReadBack (string_bytes text)
        (program_view program.now)) }
{
    lusyn_printer::print_program(alloc, program)
}
