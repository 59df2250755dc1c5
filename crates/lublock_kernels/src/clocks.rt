//! The loops of the forms that look at a clock: they count in the row of its variable.

ghost use Rattle.std.specs.Prelude.{◌≡◌, ◌≤◌, ◌<◌, ◌+◌, suc, length, true, false, IfSome, Some};
ghost use Rattle.luflow.specs.Streams.{is_value};
ghost use Rattle.lublock_kernels.specs.Words.{datum_at, once};
ghost use Rattle.lublock_kernels.specs.Rows.{Keeps, IsGathered, IsHeld, IsPut, IsSpread, StaysElsewhere, hits_in, word_in, branch_datum};

use crate::rows::{at, carry, put};
use luflow::Datum;
use lutree::Kind;

/// Whether a word of this type is this value.
#[inline(always)]
pub fn is_hit(kind: Kind, datum: Datum, word: i64) -> bool
    ensures { result ≡ is_value datum (datum_at kind word) }
{
    match (kind, datum) {
        (Kind::Int, Datum::Int(z)) => z == word,
        (Kind::Bool, Datum::Bool(b)) => b == (word != 0),
        (Kind::Enum(_, _), Datum::Name(k)) => { if word < 0 { k == 0 } else { k as i64 == word } }
        _ => false,
    }
}

/// Whether a row has this value at a tick, counted from 0.
#[inline(always)]
fn has_hit(c: &[i64], tick: usize, kind: Kind, datum: Datum) -> bool
    requires { tick + 1 < length c.now }
    ensures { result ≡ is_value datum (datum_at kind (word_in c.now (suc tick))) }
{
    is_hit(kind, datum, at(c, tick))
}

/// 1 for true.
#[inline(always)]
fn once(b: bool) -> usize
    ensures { result ≡ once b }
{
    b as usize
}

/// Puts the word that x has at a place, where there is a hit, and else the one that stands there. Both are
/// read, so that no jump depends on a clock.
#[inline(always)]
fn carry_if(row: &mut [i64], tick: usize, hit: bool, x: &[i64], place: usize)
    requires row { tick + 1 < length row.old }
    requires x { place < length x.now }
    ensures len { length row.new ≡ length row.old }
    ensures hit { hit ≡ true → IsPut row.old tick (word_in x.now place) row.new }
    ensures beside { hit ≡ false → IsPut row.old tick (word_in row.old (suc tick)) row.new }
{
    let word = x[place];
    let old = row[tick + 1];
    let new = if hit { word } else { old };
    put(row, tick, new);
}

/// How often a row has a value at its first ticks.
pub fn count(c: &[i64], kind: Kind, datum: Datum, ticks: usize) -> usize
    requires { ticks < length c.now }
    ensures count { result ≡ hits_in c.now kind datum ticks }
    ensures few { result ≤ ticks }
{
    let mut hits = 0;
    for m in 0..ticks {
        hits += once(has_hit(c, m, kind, datum));
    }
    hits
}

/// Writes the words that `a` has at the ticks at which `c` has a value, in order; how many there are.
pub fn gather(
    row: &mut [i64],
    a: &[i64],
    c: &[i64],
    kind: Kind,
    datum: Datum,
    ticks: usize,
) -> usize
    requires row { ticks < length row.old }
    requires a { ticks < length a.now }
    requires c { ticks < length c.now }
    ensures len { length row.new ≡ length row.old }
    ensures kept { Keeps 0 row.old row.new }
    ensures count { result ≡ hits_in c.now kind datum ticks }
    ensures words { IsGathered kind datum ticks c.now a.now row.new }
{
    let mut hits = 0;
    for m in 0..ticks {
        carry(row, hits, a, m + 1);
        hits += once(has_hit(c, m, kind, datum));
    }
    hits
}

/// Writes at each tick the word that `a` had at the last tick at which `c` had a value; whether `a` has too
/// few.
pub fn hold(
    row: &mut [i64],
    a: &[i64],
    c: &[i64],
    kind: Kind,
    datum: Datum,
    to: usize,
    limit: usize,
) -> bool
    requires row { to < length row.old }
    requires a { limit < length a.now }
    requires c { to < length c.now }
    ensures len { length row.new ≡ length row.old }
    ensures kept { Keeps 0 row.old row.new }
    ensures words { result ≡ false → IsHeld kind datum to limit c.now a.now row.new }
{
    let mut hits = 0;
    for m in 0..to {
        hits += once(has_hit(c, m, kind, datum));
        if limit < hits {
            return true;
        }
        carry(row, m, a, hits);
    }
    false
}

/// Writes at each tick at which `c` has a value the next word of `x`; whether `x` has too few.
pub fn spread(
    row: &mut [i64],
    x: &[i64],
    c: &[i64],
    kind: Kind,
    datum: Datum,
    to: usize,
    limit: usize,
) -> bool
    requires row { to < length row.old }
    requires x { limit < length x.now }
    requires c { to < length c.now }
    ensures len { length row.new ≡ length row.old }
    ensures kept { Keeps 0 row.old row.new }
    ensures words { result ≡ false → IsSpread kind datum to limit c.now x.now row.new }
    ensures stays { StaysElsewhere kind datum to c.now row.old row.new }
{
    let mut hits = 0;
    for m in 0..to {
        let hit = has_hit(c, m, kind, datum);
        let more = hits + once(hit);
        if limit < more {
            return true;
        }
        carry_if(row, m, hit, x, more);
        hits = more;
    }
    false
}

/// The value of a type at which a merge takes the branch of this number.
pub fn branch_datum(kind: Kind, branch: usize) -> Option<Datum>
    ensures { IfSome result (λ d. branch_datum kind branch ≡ Some d) }
{
    match (kind, branch) {
        (Kind::Bool, 0) => Some(Datum::Bool(true)),
        (Kind::Bool, 1) => Some(Datum::Bool(false)),
        (Kind::Enum(_, _), _) if branch < 256 => Some(Datum::Name(branch as u8)),
        _ => None,
    }
}
