//! The loops of one flow's form that look at no clock.

ghost use Rattle.std.specs.Prelude.{◌≡◌, ◌≤◌, ◌<◌, ◌+◌, ◌||◌, ℕ, suc, length, false, cond, nat_lt, slice_get, Some};
ghost use Rattle.luflow.specs.declared.data.Datum.{Datum};
ghost use Rattle.lutree.specs.declared.program.Kind.{Kind};
ghost use Rattle.lutree.specs.declared.expr.UnaryOperator.{UnaryOperator};
ghost use Rattle.luflow.specs.Packed.{data_in};
ghost use Rattle.luflow.specs.Operators.{is_zero, single_of};
ghost use Rattle.luflow.specs.declared.form.Outcome.{Outcome};
ghost use Rattle.lublock_kernels.specs.Words.{datum_at};
ghost use Rattle.lublock_kernels.specs.Rows.{Keeps, word_in};

use crate::rows::{at, carry, fill};
use crate::word::{negative, truth_of, word_of};
use luflow::{Datum, Values};
use lutree::{Kind, UnaryOperator};

/// The word of a datum of this type; none for another, and for nil.
pub fn word_for(kind: Kind, datum: Datum) -> (i64, bool)
    ensures { result.1 ≡ false → datum_at kind result.0 ≡ datum }
{
    match (kind, datum) {
        (Kind::Int, Datum::Int(z)) => (z, false),
        (Kind::Bool, Datum::Bool(b)) => (word_of(b), false),
        (Kind::Enum(_, _), Datum::Name(k)) => (k as i64, false),
        _ => (0, true),
    }
}

/// Writes one word at all ticks.
pub fn write_constant(row: &mut [i64], word: i64, from: usize, to: usize) -> bool
    requires row { to < length row.old }
    ensures len { length row.new ≡ length row.old }
    ensures kept { Keeps from row.old row.new }
    ensures words { result ≡ false
        → (n : ℕ) → from ≤ n → n < to → word_in row.new (suc n) ≡ word }
{
    fill(
        row,
        from,
        to,
        |m: usize| -> (i64, bool)
            ensures { result.0 ≡ word }
        { (word, false) },
    )
}

fn word_of_value(kind: Kind, value: Option<Datum>) -> (i64, bool)
    ensures { result.1 ≡ false → value ≡ Some (datum_at kind result.0) }
{
    match value {
        Some(datum) => word_for(kind, datum),
        None => (0, true),
    }
}

/// The word of value `t + m` of a table's column; none where it has another type, or there is none.
fn word_at(kind: Kind, column: &Values, t: usize, m: usize) -> (i64, bool)
    ensures { result.1 ≡ false
        → slice_get (data_in column.now) (t + m) ≡ Some (datum_at kind result.0) }
{
    match t.checked_add(m) {
        Some(i) => word_of_value(kind, column.get(i)),
        None => (0, true),
    }
}

/// Writes numbers from number `t` on.
fn write_numbers(row: &mut [i64], numbers: &[i64], t: usize, from: usize, to: usize) -> bool
    requires row { to < length row.old }
    requires inside { t + to ≤ length numbers.now }
    ensures len { length row.new ≡ length row.old }
    ensures kept { Keeps from row.old row.new }
    ensures words { result ≡ false → (n : ℕ) → from ≤ n → n < to
        → slice_get numbers.now (t + n) ≡ Some (word_in row.new (suc n)) }
{
    fill(
        row,
        from,
        to,
        |m: usize| -> (i64, bool)
            requires { t + m < length numbers.now }
            ensures { slice_get numbers.entry.now (t + m) ≡ Some result.0 }
        { (numbers[t + m], false) },
    )
}

/// Writes the words of values from number `t` on.
fn write_values(
    row: &mut [i64],
    kind: Kind,
    column: &Values,
    t: usize,
    from: usize,
    to: usize,
) -> bool
    requires row { to < length row.old }
    ensures len { length row.new ≡ length row.old }
    ensures kept { Keeps from row.old row.new }
    ensures words { result ≡ false → (n : ℕ) → from ≤ n → n < to
        → slice_get (data_in column.now) (t + n) ≡ Some (datum_at kind (word_in row.new (suc n))) }
{
    fill(
        row,
        from,
        to,
        |m: usize| -> (i64, bool)
            ensures { result.1 ≡ false
                → slice_get (data_in column.entry.now) (t + m) ≡ Some (datum_at kind result.0) }
        { word_at(kind, column, t, m) },
    )
}

/// Writes the words of a table's column from instant `t` on.
pub fn write_input(
    row: &mut [i64],
    kind: Kind,
    column: &Values,
    t: usize,
    from: usize,
    to: usize,
) -> bool
    requires row { to < length row.old }
    requires inside { t + to ≤ length (data_in column.now) }
    ensures len { length row.new ≡ length row.old }
    ensures kept { Keeps from row.old row.new }
    ensures words { result ≡ false → (n : ℕ) → from ≤ n → n < to
        → slice_get (data_in column.now) (t + n) ≡ Some (datum_at kind (word_in row.new (suc n))) }
{
    match (kind, column) {
        (Kind::Int, Values::Numbers(numbers)) => write_numbers(row, numbers, t, from, to),
        _ => write_values(row, kind, column, t, from, to),
    }
}

/// Writes the words of another row.
pub fn write_copied(row: &mut [i64], x: &[i64], from: usize, to: usize) -> bool
    requires row { to < length row.old }
    requires x { to < length x.now }
    ensures len { length row.new ≡ length row.old }
    ensures kept { Keeps from row.old row.new }
    ensures words { result ≡ false
        → (n : ℕ) → from ≤ n → n < to → word_in row.new (suc n) ≡ word_in x.now (suc n) }
{
    fill(
        row,
        from,
        to,
        |m: usize| -> (i64, bool)
            requires { m + 1 < length x.now }
            ensures { result.0 ≡ word_in x.entry.now (suc m) }
        { (at(x, m), false) },
    )
}

/// Writes the words that another row has one tick before.
pub fn write_pre(row: &mut [i64], x: &[i64], from: usize, to: usize) -> bool
    requires row { to < length row.old }
    requires x { to ≤ length x.now }
    ensures len { length row.new ≡ length row.old }
    ensures kept { Keeps from row.old row.new }
    ensures words { result ≡ false
        → (n : ℕ) → from ≤ n → n < to → word_in row.new (suc n) ≡ word_in x.now n }
{
    fill(
        row,
        from,
        to,
        |m: usize| -> (i64, bool)
            requires { m < length x.now }
            ensures { result.0 ≡ word_in x.entry.now m }
        { (x[m], false) },
    )
}

/// Writes the words of x where those of c are true, and else those of y.
pub fn write_if(row: &mut [i64], c: &[i64], x: &[i64], y: &[i64], from: usize, to: usize) -> bool
    requires row { to < length row.old }
    requires c { to < length c.now }
    requires x { to < length x.now }
    requires y { to < length y.now }
    ensures len { length row.new ≡ length row.old }
    ensures kept { Keeps from row.old row.new }
    ensures words { result ≡ false → (n : ℕ) → from ≤ n → n < to → word_in row.new (suc n)
        ≡ cond (is_zero (word_in c.now (suc n))) (word_in y.now (suc n)) (word_in x.now (suc n)) }
{
    fill(
        row,
        from,
        to,
        |m: usize| -> (i64, bool)
            requires c { m + 1 < length c.now }
            requires x { m + 1 < length x.now }
            requires y { m + 1 < length y.now }
            ensures { result.0 ≡ cond (is_zero (word_in c.entry.now (suc m)))
                (word_in y.entry.now (suc m)) (word_in x.entry.now (suc m)) }
        { (choice(at(c, m), at(x, m), at(y, m)), false) },
    )
}

/// One of two words.
#[inline(always)]
fn choice(c: i64, x: i64, y: i64) -> i64
    ensures { result ≡ cond (is_zero c) y x }
{
    if c == 0 { y } else { x }
}

/// Writes the words of y, but at the first tick of all that of x.
pub fn write_arrow(row: &mut [i64], was: bool, x: &[i64], y: &[i64], from: usize, to: usize) -> bool
    requires row { to < length row.old }
    requires x { to < length x.now }
    requires y { to < length y.now }
    ensures len { length row.new ≡ length row.old }
    ensures kept { Keeps from row.old row.new }
    ensures words { result ≡ false → (n : ℕ) → from ≤ n → n < to → word_in row.new (suc n)
        ≡ cond (was || nat_lt 0 n) (word_in y.now (suc n)) (word_in x.now (suc n)) }
{
    let none = write_copied(row, y, from, to);
    if was || from != 0 || to == 0 {
        return none;
    }
    carry(row, 0, x, 1);
    none
}

/// Writes the negatives of a row's words.
fn write_minus(row: &mut [i64], x: &[i64], from: usize, to: usize) -> bool
    requires row { to < length row.old }
    requires x { to < length x.now }
    ensures len { length row.new ≡ length row.old }
    ensures kept { Keeps from row.old row.new }
    ensures words { result ≡ false → (n : ℕ) → from ≤ n → n < to
        → single_of UnaryOperator.Minus (datum_at Kind.Int (word_in x.now (suc n)))
        ≡ Outcome.Gives (datum_at Kind.Int (word_in row.new (suc n))) }
{
    fill(
        row,
        from,
        to,
        |m: usize| -> (i64, bool)
            requires { m + 1 < length x.now }
            ensures { result.1 ≡ false
                → single_of UnaryOperator.Minus (datum_at Kind.Int (word_in x.entry.now (suc m)))
                ≡ Outcome.Gives (datum_at Kind.Int result.0) }
        { negative(at(x, m)) },
    )
}

/// Writes what is not true in a row.
fn write_not(row: &mut [i64], x: &[i64], from: usize, to: usize) -> bool
    requires row { to < length row.old }
    requires x { to < length x.now }
    ensures len { length row.new ≡ length row.old }
    ensures kept { Keeps from row.old row.new }
    ensures words { result ≡ false → (n : ℕ) → from ≤ n → n < to
        → single_of UnaryOperator.Not (datum_at Kind.Bool (word_in x.now (suc n)))
        ≡ Outcome.Gives (datum_at Kind.Bool (word_in row.new (suc n))) }
{
    fill(
        row,
        from,
        to,
        |m: usize| -> (i64, bool)
            requires { m + 1 < length x.now }
            ensures { single_of UnaryOperator.Not (datum_at Kind.Bool (word_in x.entry.now (suc m)))
                ≡ Outcome.Gives (datum_at Kind.Bool result.0) }
        { (word_of(!truth_of(at(x, m))), false) },
    )
}

/// An operator with one operand of this type; none where it takes none.
pub fn write_singles(
    op: UnaryOperator,
    kind: Kind,
    row: &mut [i64],
    x: &[i64],
    from: usize,
    to: usize,
) -> bool
    requires row { to < length row.old }
    requires x { to < length x.now }
    ensures len { length row.new ≡ length row.old }
    ensures kept { Keeps from row.old row.new }
    ensures words { result ≡ false → (n : ℕ) → from ≤ n → n < to
        → single_of op (datum_at kind (word_in x.now (suc n)))
        ≡ Outcome.Gives (datum_at kind (word_in row.new (suc n))) }
{
    match (op, kind) {
        (UnaryOperator::Minus, Kind::Int) => write_minus(row, x, from, to),
        (UnaryOperator::Not, Kind::Bool) => write_not(row, x, from, to),
        _ => true,
    }
}
