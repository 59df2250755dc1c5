//! Parts of a text, and what stands in them.

/// What stands from a byte on.
pub(crate) fn from_byte(text: &[u8], byte: usize) -> &[u8] {
    text.get(byte..).unwrap_or(&[])
}

/// How many bytes stand before the first separator.
pub(crate) fn length_before(text: &[u8], separator: u8) -> usize {
    for (i, byte) in text.iter().enumerate() {
        if *byte == separator {
            return i;
        }
    }
    text.len()
}

/// What stands before the first separator.
pub(crate) fn front_of(text: &[u8], separator: u8) -> &[u8] {
    text.get(..length_before(text, separator)).unwrap_or(text)
}

/// How often a byte stands among some.
pub(crate) fn count_of(bytes: &[u8], wanted: u8) -> usize {
    let mut count = 0_usize;
    for byte in bytes {
        if *byte == wanted {
            count = count.saturating_add(1);
        }
    }
    count
}

/// Whether a line has blanks alone.
pub(crate) fn is_blank(line: &[u8]) -> bool {
    for byte in line {
        if !byte.is_ascii_whitespace() {
            return false;
        }
    }
    true
}
