//! Where a byte stands in a text, and how its line is shown.

ghost use Rattle.std.specs.Prelude.{◌≡◌, ◌≤◌, if◌then◌else◌, [], count_by, length, map, take, drop, IfOk, string_bytes};
ghost use Rattle.std.specs.List.{prefix_len, suffix_len};
ghost use Rattle.luexplain.specs.Place as spec;
ghost use Rattle.luexplain.specs.Text.{Adds};

use std::alloc::{AllocError, Global};

/// How many bytes of a line are shown.
const SHOWN: usize = 100;

/// How many of them stand before the place, where there are so many on both sides.
const BEFORE: usize = 50;

fn is_feed(byte: u8) -> bool
    ensures { result ≡ spec.is_feed byte }
{
    byte == b'\n'
}

fn is_inside(byte: u8) -> bool
    ensures { result ≡ spec.is_inside byte }
{
    !is_feed(byte)
}

fn is_plain(byte: u8) -> bool
    ensures { result ≡ spec.is_plain byte }
{
    byte == b'\t' || (31 < byte && byte < 127)
}

/// How a byte is shown: itself where it can be, else a question mark.
pub(crate) fn shown(byte: u8) -> char
    ensures { result ≡ spec.shown byte }
{
    if is_plain(byte) { byte as char } else { '?' }
}

/// What stands under a byte before the caret.
fn under(byte: u8) -> char
    ensures { result ≡ spec.under byte }
{
    if byte == b'\t' { '\t' } else { ' ' }
}

/// The bytes as they are shown.
pub(crate) fn put_shown(text: &mut String, bytes: &[u8]) -> Result<(), AllocError>
    ensures { Adds result text.old text.new (map spec.shown bytes.now) }
{
    for byte in bytes {
        text.push(shown(*byte))?;
    }
    Ok(())
}

/// What stands under the bytes before the caret.
fn put_under(text: &mut String, bytes: &[u8]) -> Result<(), AllocError>
    ensures { Adds result text.old text.new (map spec.under bytes.now) }
{
    for byte in bytes {
        text.push(under(*byte))?;
    }
    Ok(())
}

/// How many line feeds there are.
fn feeds_in(bytes: &[u8]) -> usize
    ensures { result ≡ count_by spec.is_feed bytes.now }
{
    bytes.iter().filter(|byte| is_feed(**byte)).count()
}

/// How many bytes stand at the front before a line feed.
fn inside_at_front(bytes: &[u8]) -> usize
    ensures length { result ≡ prefix_len spec.is_inside bytes.now }
    ensures within { result ≤ length bytes.now }
{
    bytes.iter().take_while(|byte| is_inside(**byte)).count()
}

/// How many bytes stand at the end behind a line feed.
fn inside_at_end(bytes: &[u8]) -> usize
    ensures length { result ≡ suffix_len spec.is_inside bytes.now }
    ensures within { result ≤ length bytes.now }
{
    bytes
        .iter()
        .rev()
        .take_while(|byte| is_inside(**byte))
        .count()
}

/// The part of its line before a place, by the text before it.
fn line_before(before: &[u8]) -> &[u8]
    ensures { result.now ≡ spec.line_before before.now }
{
    let inside = inside_at_end(before);
    &before[before.len() - inside..]
}

/// The part of its line from a place on, by the text from there on.
pub(crate) fn line_behind(behind: &[u8]) -> &[u8]
    ensures { result.now ≡ spec.line_behind behind.now }
{
    let inside = inside_at_front(behind);
    &behind[..inside]
}

/// How many bytes at the front of a line aren't shown, by its parts before and behind the place.
fn left_out(head: &[u8], tail: &[u8]) -> usize
    ensures cut { result ≡ spec.left_out (length head.now) (length tail.now) }
    ensures within { result ≤ length head.now }
{
    let whole = head.len() + tail.len();
    head.len()
        .saturating_sub(BEFORE)
        .min(whole.saturating_sub(SHOWN))
}

/// What is shown of a line before the place.
fn left_of<'a>(head: &'a [u8], tail: &[u8]) -> &'a [u8]
    ensures { result.now ≡ spec.left_of head.entry.now tail.now }
{
    &head[left_out(head, tail)..]
}

/// What is shown of a line from the place on, with room for so many bytes.
fn right_of(tail: &[u8], room: usize) -> &[u8]
    ensures { result.now ≡ take room tail.now }
{
    if room < tail.len() {
        &tail[..room]
    } else {
        tail
    }
}

/// A mark, where something is cut off.
fn put_mark(text: &mut String, is_cut: bool, mark: &str) -> Result<(), AllocError>
    ensures { Adds result text.old text.new (if is_cut then mark.now else []) }
{
    if is_cut {
        return text.push_str(mark);
    }
    Ok(())
}

/// A line, by its parts before and behind the place.
#[tactic(auto, unfolding(crate::specs::Place::source_line))]
fn put_source(text: &mut String, head: &[u8], tail: &[u8]) -> Result<(), AllocError>
    ensures { Adds result text.old text.new (spec.source_line head.now tail.now) }
{
    let left = left_of(head, tail);
    let room = SHOWN.saturating_sub(left.len());
    text.push_str("  | ")?;
    put_mark(text, left_out(head, tail) > 0, "..")?;
    put_shown(text, left)?;
    put_shown(text, right_of(tail, room))?;
    put_mark(text, room < tail.len(), "..")?;
    text.push('\n')
}

/// The line under it, with a caret under the place.
#[tactic(auto, unfolding(crate::specs::Place::caret_line))]
fn put_caret(text: &mut String, head: &[u8], tail: &[u8]) -> Result<(), AllocError>
    ensures { Adds result text.old text.new (spec.caret_line head.now tail.now) }
{
    text.push_str("  | ")?;
    put_mark(text, left_out(head, tail) > 0, "  ")?;
    put_under(text, left_of(head, tail))?;
    text.push_str("^\n")
}

/// `PATH:LINE:COLUMN`, by the text before the place.
fn put_spot(text: &mut String, path: &str, before: &[u8]) -> Result<(), AllocError>
    ensures { Adds result text.old text.new (spec.spot path.now before.now) }
{
    let line = feeds_in(before) + 1;
    let column = line_before(before).len() + 1;
    write!(text, "{path}:{line}:{column}")
}

/// The same as a line.
#[tactic(auto, unfolding(crate::specs::Place::numbers))]
fn put_numbers(text: &mut String, path: &str, before: &[u8]) -> Result<(), AllocError>
    ensures { Adds result text.old text.new (spec.numbers path.now before.now) }
{
    put_spot(text, path, before)?;
    text.push('\n')
}

/// The numbers of a place, its line, and a caret under it, by the text before it and behind it.
fn put_place(text: &mut String, path: &str, before: &[u8], behind: &[u8]) -> Result<(), AllocError>
    ensures { Adds result text.old text.new (spec.place_between path.now before.now behind.now) }
{
    let head = line_before(before);
    let tail = line_behind(behind);
    put_numbers(text, path, before)?;
    put_source(text, head, tail)?;
    put_caret(text, head, tail)?;
    Ok(())
}

/// The text before a byte, and the text from there on.
fn parted(text: &[u8], byte: usize) -> (&[u8], &[u8])
    ensures before { result.0.now ≡ take byte text.now }
    ensures behind { result.1.now ≡ drop byte text.now }
{
    if byte < text.len() {
        text.split_at(byte)
    } else {
        text.split_at(text.len())
    }
}

/// Where a byte stands in the file of this path and this text: `PATH:LINE:COLUMN`, both counted from 1, the
/// line, and a caret under the byte, each ended by a line feed. Of a byte behind the end it is the end. Of a
/// line of more than 100 bytes 100 are shown; a byte that isn't a tab, a blank or a visible letter is shown
/// as `?`, and a tab is one column.
///
/// # Errors
///
/// An error means that memory ran out.
pub fn where_in(alloc: Global, path: &str, text: &[u8], byte: usize) -> Result<String, AllocError>
    ensures { IfOk result (λ reported. string_bytes reported ≡ spec.place path.now text.now byte) }
{
    let (before, behind) = parted(text, byte);
    let mut reported = String::new(alloc);
    put_place(&mut reported, path, before, behind)?;
    Ok(reported)
}

/// `PATH:LINE:COLUMN` of a byte.
pub(crate) fn put_spot_of(
    text: &mut String,
    path: &str,
    source: &[u8],
    byte: usize,
) -> Result<(), AllocError>
    ensures { Adds result text.old text.new (spec.spot path.now (take byte source.now)) }
{
    put_spot(text, path, parted(source, byte).0)
}

/// The line of a byte, counted from 1.
pub(crate) fn line_of(text: &[u8], byte: usize) -> usize
    ensures { result ≡ spec.line_number (take byte text.now) }
{
    feeds_in(parted(text, byte).0) + 1
}
