//! Pieces of which a text is put together.

ghost use Rattle.std.specs.Prelude.{◌≡◌, ◌++◌, codes, max};
ghost use Rattle.luchart.specs.Pieces.{Adds, repeated, blanks, at_right, at_left};

use std::alloc::AllocError;

/// The larger of two numbers.
pub fn larger(a: usize, b: usize) -> usize
    ensures { result ≡ max a b }
{
    if a < b { b } else { a }
}

/// Adds a piece so many times.
pub fn put_copies(text: &mut String, piece: &str, count: usize) -> Result<(), AllocError>
    ensures { Adds result text.old text.new (repeated piece.now count) }
{
    for _k in 0..count {
        text.push_str(piece)?;
    }
    Ok(())
}

/// Adds blanks.
fn put_blanks(text: &mut String, count: usize) -> Result<(), AllocError>
    ensures { Adds result text.old text.new (blanks count) }
{
    put_copies(text, " ", count)
}

/// Adds a word at the right of a cell of this width.
pub fn put_right(text: &mut String, width: usize, word: &str) -> Result<(), AllocError>
    ensures { Adds result text.old text.new (at_right width word.now) }
{
    put_blanks(text, width.saturating_sub(word.len()))?;
    text.push_str(word)
}

/// Adds a word at the left of a cell of this width.
pub fn put_left(text: &mut String, width: usize, word: &str) -> Result<(), AllocError>
    ensures { Adds result text.old text.new (at_left width word.now) }
{
    text.push_str(word)?;
    put_blanks(text, width.saturating_sub(word.len()))
}

/// Adds a line.
pub fn put_line(text: &mut String, line: &str) -> Result<(), AllocError>
    ensures { Adds result text.old text.new (line.now ++ codes "\n") }
{
    text.push_str(line)?;
    text.push_str("\n")
}
