//! What the reader and the printer alone make of a text, which need keep no static rule.

use crate::put_output;
use crate::tries::text_in;
use lusdist_shell::Files;
use lusyn::{print_program, read_program};
use std::alloc::{AllocError, Global};
use std::io;

/// The canonical text of a program's text, or the line of its refusal.
fn printed(alloc: Global, text: &str) -> Result<String, AllocError> {
    match read_program(alloc, text) {
        Ok(program) => print_program(alloc, &program),
        Err(error) => format!(in alloc; "! {error}\n"),
    }
}

/// Writes what is printed, and whether that is printed again; a refusal as it is.
fn put_both(rt: &HostRuntime, first: &str, again: &str) -> io::Result<()> {
    put_output(rt, first.as_bytes())?;
    if first.starts_with("!") {
        return Ok(());
    }
    println!(rt; "= kept {}", first == again)
}

/// Writes what is printed of a file, and whether that is printed again from what is read of it; or the line
/// of its refusal.
pub fn put_printed<F: Files>(rt: &HostRuntime, files: &F, path: &str) -> io::Result<()> {
    let text = text_in(rt.alloc(), files, path)?;
    let first = printed(rt.alloc(), text.as_str())?;
    let again = printed(rt.alloc(), first.as_str())?;
    put_both(rt, first.as_str(), again.as_str())
}
