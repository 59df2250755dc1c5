//! Whether what a flow reads comes before it.

ghost use Rattle.std.specs.Prelude.{◌≡◌, ℕ, [], ◌∷◌, ◌<◌, true, All, slice_get, slice_index};
ghost use Rattle.luflow.specs.Program.{form_reads, clock_reads};
ghost use Rattle.lueval_lines.specs.Cells.{looks_back};
ghost use Rattle.lulist.specs.Rows.{IsBefore, IsKept, IsNumbered};

use luflow::{Clock, Form};

/// The number of the flow of a place; 0 where there is none.
#[inline(always)]
pub fn number_of(numbers: &[u16], r: usize) -> usize
    ensures { result ≡ slice_index numbers.now r }
{
    match numbers.get(r) {
        Some(number) => *number as usize,
        None => 0,
    }
}

/// Whether the flow of place r has a number.
pub fn is_numbered(places: &[usize], numbers: &[u16], r: usize) -> bool
    ensures { result ≡ true → IsNumbered places.now numbers.now r }
{
    match places.get(number_of(numbers, r)) {
        Some(place) => *place == r,
        None => false,
    }
}

/// Whether it has one below k.
fn is_before(places: &[usize], numbers: &[u16], k: usize, r: usize) -> bool
    ensures { result ≡ true → IsBefore places.now numbers.now k r }
{
    number_of(numbers, r) < k && is_numbered(places, numbers, r)
}

/// Whether all these have one below k.
fn are_before(places: &[usize], numbers: &[u16], k: usize, reads: &[usize]) -> bool
    ensures { result ≡ true → All (IsBefore places.now numbers.now k) reads.now }
{
    for j in 0..reads.len() {
        if !is_before(places, numbers, k, reads[j]) {
            return false;
        }
    }
    true
}

/// Whether the variable of a clock has a number below k.
pub fn clock_before(places: &[usize], numbers: &[u16], k: usize, clock: Clock) -> bool
    ensures { result ≡ true → All (IsBefore places.now numbers.now k) (clock_reads clock) }
{
    match clock {
        Clock::Base => true,
        Clock::On(c, _) => is_before(places, numbers, k, c),
    }
}

/// Whether all that a form reads at its own instant has a number below k.
pub fn form_before(places: &[usize], numbers: &[u16], k: usize, form: &Form) -> bool
    ensures { result ≡ true → All (IsBefore places.now numbers.now k) (form_reads form.now) }
{
    match form {
        Form::Input(_) => true,
        Form::Constant(_) => true,
        Form::Copied(a) => is_before(places, numbers, k, *a),
        Form::Unary(_, a) => is_before(places, numbers, k, *a),
        Form::Binary(_, a, b) => {
            is_before(places, numbers, k, *a) && is_before(places, numbers, k, *b)
        }
        Form::If(c, a, b) => {
            is_before(places, numbers, k, *c)
                && is_before(places, numbers, k, *a)
                && is_before(places, numbers, k, *b)
        }
        Form::Pre(_) => true,
        Form::Arrow(a, b) => {
            is_before(places, numbers, k, *a) && is_before(places, numbers, k, *b)
        }
        Form::When(a) => is_before(places, numbers, k, *a),
        Form::Current(a) => is_before(places, numbers, k, *a),
        Form::Merge(c, branches) => {
            is_before(places, numbers, k, *c) && are_before(places, numbers, k, branches.as_slice())
        }
    }
}

/// The flow at which flow i looks back.
pub fn looked_at(i: usize, form: &Form) -> Option<usize>
    ensures { (r : ℕ) → looks_back i form.now ≡ r ∷ [] → result ≡ Some r }
{
    match form {
        Form::Pre(a) => Some(*a),
        Form::Arrow(_, _) => Some(i),
        Form::Current(a) => Some(*a),
        _ => None,
    }
}

/// Whether the last value of the flow of this number is kept, where it would stand.
fn is_kept(kept: &[usize], kept_at: &[usize], k: usize) -> bool
    ensures { result ≡ true → IsKept kept.now k }
{
    let j = match kept_at.get(k) {
        Some(j) => *j,
        None => 0,
    };
    match kept.get(j) {
        Some(found) => *found == k,
        None => false,
    }
}

/// Whether the flow at which flow i looks back has a number, and its last value is kept.
pub fn back_kept(
    places: &[usize],
    numbers: &[u16],
    kept: &[usize],
    kept_at: &[usize],
    i: usize,
    form: &Form,
) -> bool
    ensures { result ≡ true → (r : ℕ) → looks_back i form.now ≡ r ∷ []
        → IsNumbered places.now numbers.now r × IsKept kept.now (slice_index numbers.now r) }
{
    match looked_at(i, form) {
        Some(r) => {
            is_numbered(places, numbers, r) && is_kept(kept, kept_at, number_of(numbers, r))
        }
        None => true,
    }
}
