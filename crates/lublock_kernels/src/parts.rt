//! Division by a number that stays: the quotient is found by a multiplication, looked at, and found by a
//! division where it isn't right.

ghost use Rattle.std.specs.Prelude.{◌≡◌, ◌≢◌, ◌≤◌, ◌<◌, ◌+◌, ◌*◌, ℕ, pos, negsuc, neg_ℤ, int_le, unsigned_abs, suc, length, true, false, IfSome};
ghost use Rattle.luflow.specs.Operators.{int_of, quotient_of, rest_of};
ghost use Rattle.lublock_kernels.specs.Rows.{IsSteady, IsWhole, Keeps, word_in};
ghost use Rattle.lublock_kernels.specs.Words.{datum_at};
ghost use Rattle.lutree.specs.declared.program.Kind.{Kind};
ghost use Rattle.luflow.specs.declared.form.Outcome.{Outcome};

use crate::rows::{at, fill};
use crate::word::{difference, sum};

/// A number of which 2^32 is about a multiple, to multiply by in place of a division.
fn near_of(m: u64) -> u64
    requires { 0 < m }
{
    4_294_967_296u64 / m
}

/// How often m is in x, and that many m.
#[inline(always)]
fn parted(x: u64, m: u64, near: u64) -> (u64, u64)
    requires { 0 < m }
    ensures product { result.1 ≡ result.0 * m }
    ensures part { result.0 ≤ x }
    ensures below { result.1 ≤ x }
    ensures above { x < result.1 + m }
{
    if x < 4_294_967_296 {
        let q = x.wrapping_mul(near) >> 32;
        if q <= x {
            if let Some(p) = q.checked_mul(m) {
                if p <= x {
                    let r = x - p;
                    if r < m {
                        return (q, p);
                    }
                    if r - m < m {
                        return (q + 1, p + m);
                    }
                }
            }
        }
    }
    let q = x / m;
    (q, q * m)
}

/// A number with the sign of another, whose amount isn't less.
#[inline(always)]
fn with_sign(x: i64, n: u64) -> i64
    requires less { n ≤ unsigned_abs x }
    requires some { x ≢ negsuc 9223372036854775807 }
    ensures up { int_le (pos 0) x ≡ true → result ≡ pos n }
    ensures down { int_le (pos 0) x ≡ false → result ≡ neg_ℤ (pos n) }
{
    if 0 <= x { n as i64 } else { -(n as i64) }
}

/// `x div m`; none for the least `int`
#[inline(always)]
fn quotient_by(x: i64, m: u64, near: u64) -> (i64, bool)
    requires some { 0 < m }
    ensures { IsWhole result (quotient_of x (pos m)) }
{
    if x == i64::MIN {
        return (0, true);
    }
    let (q, _p) = parted(x.unsigned_abs(), m, near);
    sum(0, with_sign(x, q))
}

/// `x mod m`; none for the least `int`
#[inline(always)]
fn rest_by(x: i64, m: u64, near: u64) -> (i64, bool)
    requires some { 0 < m }
    ensures { IsWhole result (rest_of x (pos m)) }
{
    if x == i64::MIN {
        return (0, true);
    }
    let (_q, p) = parted(x.unsigned_abs(), m, near);
    difference(x, with_sign(x, p))
}

/// The lower half of a word.
#[inline(always)]
fn low_half(x: u64) -> u64
    ensures small { result ≤ 4294967295 }
    ensures same { x ≤ 4294967295 → result ≡ x }
{
    x & 4_294_967_295
}

/// What is left of a where p is taken away; where p is more, 2^64 more.
#[inline(always)]
fn left(a: u64, p: u64) -> u64
    ensures inside { p ≤ a → result + p ≡ a }
    ensures around { a < p → result + p ≡ a + 18446744073709551616 }
{
    a.wrapping_sub(p)
}

/// A product of two numbers below 2^32.
#[inline(always)]
fn times(q: u64, m: u32) -> u64
    requires { q ≤ 4294967295 }
    ensures product { result ≡ q * m }
    ensures most { result ≤ 18446744065119617025 }
{
    q * m as u64
}

/// How often m is in x, and what is left, found without a jump; and whether that isn't so.
#[inline(always)]
fn nearly(x: u64, m: u32, near: u32) -> (u64, u64, bool)
    ensures few { result.0 ≤ 4294967296 }
    ensures whole { result.2 ≡ false → x ≡ result.0 * m + result.1 }
    ensures less { result.2 ≡ false → result.1 < m }
{
    let by = m as u64;
    let q = low_half(low_half(x).wrapping_mul(near as u64) >> 32);
    let over = left(x, times(q, m));
    let more = by <= over;
    let found = if more { q + 1 } else { q };
    let rest = if more { over - by } else { over };
    (found, rest, by <= rest)
}

/// A number that isn't large, with the sign of x.
#[inline(always)]
fn signed_word(x: i64, n: u64) -> i64
    requires { n ≤ 4294967296 }
    ensures up { int_le (pos 0) x ≡ true
        → int_of (pos n) ≡ Outcome.Gives (datum_at Kind.Int result) }
    ensures down { int_le (pos 0) x ≡ false
        → int_of (neg_ℤ (pos n)) ≡ Outcome.Gives (datum_at Kind.Int result) }
{
    let word = n as i64;
    if 0 <= x { word } else { -word }
}

/// `x mod m`, and whether it isn't known
#[inline(always)]
fn small_rest(x: i64, m: u32, near: u32) -> (i64, bool)
    requires some { 0 < m }
    ensures { IsWhole result (rest_of x (pos m)) }
{
    let a = x.unsigned_abs();
    let (_q, rest, none) = nearly(a, m, near);
    (signed_word(x, low_half(rest)), none)
}

/// `x div m`, and whether it isn't known
#[inline(always)]
fn small_quotient(x: i64, m: u32, near: u32) -> (i64, bool)
    requires some { 0 < m }
    ensures { IsWhole result (quotient_of x (pos m)) }
{
    let a = x.unsigned_abs();
    let (q, _rest, none) = nearly(a, m, near);
    (signed_word(x, q), none)
}

/// The number above 0 that a row has at all these ticks.
pub fn steady(y: &[i64], from: usize, to: usize) -> Option<u64>
    requires { to < length y.now }
    ensures { IfSome result (IsSteady y.now from to) }
{
    if to <= from {
        return None;
    }
    let m = at(y, from);
    if m <= 0 {
        return None;
    }
    let mut others = 0;
    for n in from..to {
        others += (at(y, n) != m) as usize;
    }
    if others == 0 { Some(m as u64) } else { None }
}

/// Writes the quotients of a row's words by m, where these are found without a jump.
fn write_small_quotients(row: &mut [i64], x: &[i64], m: u32, from: usize, to: usize) -> bool
    requires row { to < length row.old }
    requires x { to < length x.now }
    requires some { 0 < m }
    ensures len { length row.new ≡ length row.old }
    ensures kept { Keeps from row.old row.new }
    ensures words { result ≡ false → (n : ℕ) → from ≤ n → n < to
        → quotient_of (word_in x.now (suc n)) (pos m)
        ≡ Outcome.Gives (datum_at Kind.Int (word_in row.new (suc n))) }
{
    let near = u32::MAX / m;
    fill(
        row,
        from,
        to,
        |n: usize| -> (i64, bool)
            requires x { n + 1 < length x.now }
            requires some { 0 < m }
            ensures { result.1 ≡ false → quotient_of (word_in x.entry.now (suc n)) (pos m)
                ≡ Outcome.Gives (datum_at Kind.Int result.0) }
        { small_quotient(at(x, n), m, near) },
    )
}

/// Writes the rests of a row's words by m, where these are found without a jump.
fn write_small_rests(row: &mut [i64], x: &[i64], m: u32, from: usize, to: usize) -> bool
    requires row { to < length row.old }
    requires x { to < length x.now }
    requires some { 0 < m }
    ensures len { length row.new ≡ length row.old }
    ensures kept { Keeps from row.old row.new }
    ensures words { result ≡ false → (n : ℕ) → from ≤ n → n < to
        → rest_of (word_in x.now (suc n)) (pos m)
        ≡ Outcome.Gives (datum_at Kind.Int (word_in row.new (suc n))) }
{
    let near = u32::MAX / m;
    fill(
        row,
        from,
        to,
        |n: usize| -> (i64, bool)
            requires x { n + 1 < length x.now }
            requires some { 0 < m }
            ensures { result.1 ≡ false → rest_of (word_in x.entry.now (suc n)) (pos m)
                ≡ Outcome.Gives (datum_at Kind.Int result.0) }
        { small_rest(at(x, n), m, near) },
    )
}

/// Writes the quotients of a row's words by m, one by one.
fn write_large_quotients(row: &mut [i64], x: &[i64], m: u64, from: usize, to: usize) -> bool
    requires row { to < length row.old }
    requires x { to < length x.now }
    requires some { 0 < m }
    ensures len { length row.new ≡ length row.old }
    ensures kept { Keeps from row.old row.new }
    ensures words { result ≡ false → (n : ℕ) → from ≤ n → n < to
        → quotient_of (word_in x.now (suc n)) (pos m)
        ≡ Outcome.Gives (datum_at Kind.Int (word_in row.new (suc n))) }
{
    let near = near_of(m);
    fill(
        row,
        from,
        to,
        |n: usize| -> (i64, bool)
            requires x { n + 1 < length x.now }
            requires some { 0 < m }
            ensures { result.1 ≡ false → quotient_of (word_in x.entry.now (suc n)) (pos m)
                ≡ Outcome.Gives (datum_at Kind.Int result.0) }
        { quotient_by(at(x, n), m, near) },
    )
}

/// Writes the rests of a row's words by m, one by one.
fn write_large_rests(row: &mut [i64], x: &[i64], m: u64, from: usize, to: usize) -> bool
    requires row { to < length row.old }
    requires x { to < length x.now }
    requires some { 0 < m }
    ensures len { length row.new ≡ length row.old }
    ensures kept { Keeps from row.old row.new }
    ensures words { result ≡ false → (n : ℕ) → from ≤ n → n < to
        → rest_of (word_in x.now (suc n)) (pos m)
        ≡ Outcome.Gives (datum_at Kind.Int (word_in row.new (suc n))) }
{
    let near = near_of(m);
    fill(
        row,
        from,
        to,
        |n: usize| -> (i64, bool)
            requires x { n + 1 < length x.now }
            requires some { 0 < m }
            ensures { result.1 ≡ false → rest_of (word_in x.entry.now (suc n)) (pos m)
                ≡ Outcome.Gives (datum_at Kind.Int result.0) }
        { rest_by(at(x, n), m, near) },
    )
}

/// Writes the quotients of a row's words by m.
pub fn write_quotients(row: &mut [i64], x: &[i64], m: u64, from: usize, to: usize) -> bool
    requires row { to < length row.old }
    requires x { to < length x.now }
    requires some { 0 < m }
    ensures len { length row.new ≡ length row.old }
    ensures kept { Keeps from row.old row.new }
    ensures words { result ≡ false → (n : ℕ) → from ≤ n → n < to
        → quotient_of (word_in x.now (suc n)) (pos m)
        ≡ Outcome.Gives (datum_at Kind.Int (word_in row.new (suc n))) }
{
    if let Ok(small) = u32::try_from(m) {
        if !write_small_quotients(row, x, small, from, to) {
            return false;
        }
    }
    write_large_quotients(row, x, m, from, to)
}

/// Writes the rests of a row's words by m.
pub fn write_rests(row: &mut [i64], x: &[i64], m: u64, from: usize, to: usize) -> bool
    requires row { to < length row.old }
    requires x { to < length x.now }
    requires some { 0 < m }
    ensures len { length row.new ≡ length row.old }
    ensures kept { Keeps from row.old row.new }
    ensures words { result ≡ false → (n : ℕ) → from ≤ n → n < to
        → rest_of (word_in x.now (suc n)) (pos m)
        ≡ Outcome.Gives (datum_at Kind.Int (word_in row.new (suc n))) }
{
    if let Ok(small) = u32::try_from(m) {
        if !write_small_rests(row, x, small, from, to) {
            return false;
        }
    }
    write_large_rests(row, x, m, from, to)
}
