//! Rows of words, filled tick by tick.

ghost use Rattle.std.specs.Prelude.{◌≡◌, ◌≤◌, ◌<◌, ◌+◌, ℕ, suc, length, false};
ghost use Rattle.lublock_kernels.specs.Rows.{IsFilled, IsPut, Keeps, word_in};

/// The word of a row's tick, counted from 0.
#[inline(always)]
pub fn at(row: &[i64], tick: usize) -> i64
    requires { tick + 1 < length row.now }
    ensures { result ≡ word_in row.now (suc tick) }
{
    row[tick + 1]
}

/// Puts the word of a row's tick, counted from 0.
#[inline(always)]
pub fn put(row: &mut [i64], tick: usize, word: i64)
    requires { tick + 1 < length row.old }
    ensures len { length row.new ≡ length row.old }
    ensures put { IsPut row.old tick word row.new }
{
    row[tick + 1] = word;
}

/// Puts the word that another row has at a place.
#[inline(always)]
pub fn carry(row: &mut [i64], tick: usize, x: &[i64], place: usize)
    requires row { tick + 1 < length row.old }
    requires x { place < length x.now }
    ensures len { length row.new ≡ length row.old }
    ensures put { IsPut row.old tick (word_in x.now place) row.new }
{
    put(row, tick, x[place]);
}

/// Fills a row behind its first word at the ticks from `from` to `to`; whether some tick had none.
#[inline(always)]
pub fn fill<F: Fn(usize) -> (i64, bool)>(row: &mut [i64], from: usize, to: usize, word: F) -> bool
    requires room { to < length row.old }
    requires calls { (m : ℕ) → from ≤ m → m < to → F.pre word m }
    ensures len { length row.new ≡ length row.old }
    ensures kept { Keeps from row.old row.new }
    ensures words { result ≡ false → IsFilled (F.post word) from to row.new }
{
    let mut fault = false;
    for m in from..to {
        let (found, over) = word(m);
        row[m + 1] = found;
        fault = fault || over;
    }
    fault
}
