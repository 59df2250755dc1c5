//! Names that are one letter or two apart.

ghost use Rattle.std.specs.Prelude.{◌≡◌, drop, nat_eq};
ghost use Rattle.luexplain.specs.Near as spec;

/// More letters than near names are apart.
pub(crate) const FAR: usize = 3;

/// How many bytes two texts share at the front.
pub(crate) fn shared_front(a: &[u8], b: &[u8]) -> usize
    ensures { result ≡ spec.shared a.now b.now }
{
    a.iter()
        .zip(b)
        .take_while(|pair| *pair.0 == *pair.1)
        .count()
}

/// What stands behind so many bytes.
fn behind(text: &[u8], count: usize) -> &[u8]
    ensures { result.now ≡ drop count text.now }
{
    if count < text.len() {
        &text[count..]
    } else {
        &text[text.len()..]
    }
}

fn is_same(a: &[u8], b: &[u8]) -> bool
    ensures { result ≡ spec.is_within 0 a.now b.now }
{
    a == b
}

/// Whether one edit at the front makes of a text another.
fn is_edited(a: &[u8], b: &[u8]) -> bool
    ensures { result ≡ spec.by_edit (spec.is_within 0) a.now b.now }
{
    is_same(behind(a, 1), behind(b, 1)) || is_same(behind(a, 1), b) || is_same(a, behind(b, 1))
}

/// Whether at most one edit makes of a text another.
fn is_within_one(a: &[u8], b: &[u8]) -> bool
    ensures { result ≡ spec.is_within 1 a.now b.now }
{
    let front = shared_front(a, b);
    is_edited(behind(a, front), behind(b, front))
}

/// Whether two edits, of which the first is at the front, make of a text another.
fn is_edited_twice(a: &[u8], b: &[u8]) -> bool
    ensures { result ≡ spec.by_edit (spec.is_within 1) a.now b.now }
{
    is_within_one(behind(a, 1), behind(b, 1))
        || is_within_one(behind(a, 1), b)
        || is_within_one(a, behind(b, 1))
}

/// Whether at most two edits make of a text another.
fn is_within_two(a: &[u8], b: &[u8]) -> bool
    ensures { result ≡ spec.is_within 2 a.now b.now }
{
    let front = shared_front(a, b);
    is_edited_twice(behind(a, front), behind(b, front))
}

fn is_one_apart(a: &[u8], b: &[u8]) -> bool
    ensures { result ≡ spec.is_near 1 a.now b.now }
{
    1 < a.len() && 1 < b.len() && is_within_one(a, b)
}

fn is_two_apart(a: &[u8], b: &[u8]) -> bool
    ensures { result ≡ spec.is_near 2 a.now b.now }
{
    2 < a.len() && 2 < b.len() && is_within_two(a, b)
}

/// How many letters two names are apart: 1, 2, or `FAR` where they are too many, or where a name has no more
/// letters than that. The time grows with their length.
fn letters_apart(a: &[u8], b: &[u8]) -> usize
    ensures { result ≡ spec.apart a.now b.now }
{
    if is_one_apart(a, b) {
        1
    } else if is_two_apart(a, b) {
        2
    } else {
        FAR
    }
}

/// Whether two names are so many letters apart.
pub(crate) fn are_apart(name: &str, other: &str, letters: usize) -> bool
    ensures { result ≡ nat_eq (spec.apart name.now other.now) letters }
{
    letters_apart(name.as_bytes(), other.as_bytes()) == letters
}
