//! The operators with two operands, each as a loop over the words of its operands.

ghost use Rattle.std.specs.Prelude.{◌≡◌, ◌<◌, ◌+◌, suc, length, true, false, Bool};
ghost use Rattle.lutree.specs.declared.program.Kind.{Kind};
ghost use Rattle.lutree.specs.declared.expr.BinaryOperator.{BinaryOperator};
ghost use Rattle.lublock_kernels.specs.Rows.{AreDoubles, IsDouble, Keeps, is_ints, is_names, is_truths, word_in};

use crate::parts::{steady, write_quotients, write_rests};
use crate::rows::{at, fill};
use crate::word::{difference, product, quotient, rest, sum, truth_of, word_of};
use lutree::{BinaryOperator, Kind};

/// An operator with two operands of a type, at words.
pub trait Double {
    ghost op: { BinaryOperator };

    ghost fits: { Kind → Bool };

    /// What it gives, and whether there is none.
    fn word(x: i64, y: i64) -> (i64, bool)
        ensures { result.1 ≡ false → (u : Kind) → fits u ≡ true → IsDouble op u x y result.0 };
}

/// `x + y`
pub struct Sum;

impl Double for Sum {
    ghost op = { BinaryOperator.Add };

    ghost fits = { is_ints };

    #[inline(always)]
    fn word(x: i64, y: i64) -> (i64, bool) {
        sum(x, y)
    }
}

/// `x - y`
pub struct Difference;

impl Double for Difference {
    ghost op = { BinaryOperator.Subtract };

    ghost fits = { is_ints };

    #[inline(always)]
    fn word(x: i64, y: i64) -> (i64, bool) {
        difference(x, y)
    }
}

/// `x * y`
pub struct Product;

impl Double for Product {
    ghost op = { BinaryOperator.Multiply };

    ghost fits = { is_ints };

    #[inline(always)]
    fn word(x: i64, y: i64) -> (i64, bool) {
        product(x, y)
    }
}

/// `x div y`
pub struct Quotient;

impl Double for Quotient {
    ghost op = { BinaryOperator.Divide };

    ghost fits = { is_ints };

    #[inline(always)]
    fn word(x: i64, y: i64) -> (i64, bool) {
        quotient(x, y)
    }
}

/// `x mod y`
pub struct Rest;

impl Double for Rest {
    ghost op = { BinaryOperator.Modulo };

    ghost fits = { is_ints };

    #[inline(always)]
    fn word(x: i64, y: i64) -> (i64, bool) {
        rest(x, y)
    }
}

/// `x < y`
pub struct Less;

impl Double for Less {
    ghost op = { BinaryOperator.Less };

    ghost fits = { is_ints };

    #[inline(always)]
    fn word(x: i64, y: i64) -> (i64, bool) {
        (word_of(x < y), false)
    }
}

/// `x <= y`
pub struct LessEqual;

impl Double for LessEqual {
    ghost op = { BinaryOperator.LessEqual };

    ghost fits = { is_ints };

    #[inline(always)]
    fn word(x: i64, y: i64) -> (i64, bool) {
        (word_of(x <= y), false)
    }
}

/// `x > y`
pub struct Greater;

impl Double for Greater {
    ghost op = { BinaryOperator.Greater };

    ghost fits = { is_ints };

    #[inline(always)]
    fn word(x: i64, y: i64) -> (i64, bool) {
        (word_of(y < x), false)
    }
}

/// `x >= y`
pub struct GreaterEqual;

impl Double for GreaterEqual {
    ghost op = { BinaryOperator.GreaterEqual };

    ghost fits = { is_ints };

    #[inline(always)]
    fn word(x: i64, y: i64) -> (i64, bool) {
        (word_of(y <= x), false)
    }
}

/// `x = y`
pub struct Equal;

impl Double for Equal {
    ghost op = { BinaryOperator.Equal };

    ghost fits = { is_ints };

    #[inline(always)]
    fn word(x: i64, y: i64) -> (i64, bool) {
        (word_of(x == y), false)
    }
}

/// `x <> y`
pub struct Unequal;

impl Double for Unequal {
    ghost op = { BinaryOperator.Unequal };

    ghost fits = { is_ints };

    #[inline(always)]
    fn word(x: i64, y: i64) -> (i64, bool) {
        (word_of(x != y), false)
    }
}

/// `x and y`
pub struct And;

impl Double for And {
    ghost op = { BinaryOperator.And };

    ghost fits = { is_truths };

    #[inline(always)]
    fn word(x: i64, y: i64) -> (i64, bool) {
        (word_of(truth_of(x) & truth_of(y)), false)
    }
}

/// `x or y`
pub struct Or;

impl Double for Or {
    ghost op = { BinaryOperator.Or };

    ghost fits = { is_truths };

    #[inline(always)]
    fn word(x: i64, y: i64) -> (i64, bool) {
        (word_of(truth_of(x) | truth_of(y)), false)
    }
}

/// `x xor y`
pub struct Xor;

impl Double for Xor {
    ghost op = { BinaryOperator.Xor };

    ghost fits = { is_truths };

    #[inline(always)]
    fn word(x: i64, y: i64) -> (i64, bool) {
        (word_of(truth_of(x) != truth_of(y)), false)
    }
}

/// `x => y`
pub struct Implies;

impl Double for Implies {
    ghost op = { BinaryOperator.Implies };

    ghost fits = { is_truths };

    #[inline(always)]
    fn word(x: i64, y: i64) -> (i64, bool) {
        (word_of(!truth_of(x) | truth_of(y)), false)
    }
}

/// `x = y` of truth values
pub struct Same;

impl Double for Same {
    ghost op = { BinaryOperator.Equal };

    ghost fits = { is_truths };

    #[inline(always)]
    fn word(x: i64, y: i64) -> (i64, bool) {
        (word_of(truth_of(x) == truth_of(y)), false)
    }
}

/// `x <> y` of truth values
pub struct Differs;

impl Double for Differs {
    ghost op = { BinaryOperator.Unequal };

    ghost fits = { is_truths };

    #[inline(always)]
    fn word(x: i64, y: i64) -> (i64, bool) {
        (word_of(truth_of(x) != truth_of(y)), false)
    }
}

/// `x = y` of names, of which none has a number below 0
pub struct Alike;

impl Double for Alike {
    ghost op = { BinaryOperator.Equal };

    ghost fits = { is_names };

    #[inline(always)]
    fn word(x: i64, y: i64) -> (i64, bool) {
        (word_of(x == y), x < 0 || y < 0)
    }
}

/// `x <> y` of names, of which none has a number below 0
pub struct Unlike;

impl Double for Unlike {
    ghost op = { BinaryOperator.Unequal };

    ghost fits = { is_names };

    #[inline(always)]
    fn word(x: i64, y: i64) -> (i64, bool) {
        (word_of(x != y), x < 0 || y < 0)
    }
}

/// Writes what an operator gives of two rows at the ticks from `from` to `to`; whether some tick had none.
fn write<O: Double>(
    kind: Kind,
    row: &mut [i64],
    x: &[i64],
    y: &[i64],
    from: usize,
    to: usize,
) -> bool
    requires row { to < length row.old }
    requires x { to < length x.now }
    requires y { to < length y.now }
    requires fits { O.fits kind ≡ true }
    ensures len { length row.new ≡ length row.old }
    ensures kept { Keeps from row.old row.new }
    ensures words { result ≡ false → AreDoubles O.op kind from to x.now y.now row.new }
{
    fill(
        row,
        from,
        to,
        |m: usize| -> (i64, bool)
            requires x { m + 1 < length x.now }
            requires y { m + 1 < length y.now }
            ensures { result.1 ≡ false → (u : Kind) → O.fits u ≡ true
                → IsDouble O.op u (word_in x.entry.now (suc m)) (word_in y.entry.now (suc m))
                result.0 }
        { O::word(at(x, m), at(y, m)) },
    )
}

/// `div`, at whole numbers.
fn divide(row: &mut [i64], x: &[i64], y: &[i64], from: usize, to: usize) -> bool
    requires row { to < length row.old }
    requires x { to < length x.now }
    requires y { to < length y.now }
    ensures len { length row.new ≡ length row.old }
    ensures kept { Keeps from row.old row.new }
    ensures words { result ≡ false
        → AreDoubles BinaryOperator.Divide Kind.Int from to x.now y.now row.new }
{
    match steady(y, from, to) {
        Some(m) => write_quotients(row, x, m, from, to),
        None => write::<Quotient>(Kind::Int, row, x, y, from, to),
    }
}

/// `mod`, at whole numbers.
fn reduce(row: &mut [i64], x: &[i64], y: &[i64], from: usize, to: usize) -> bool
    requires row { to < length row.old }
    requires x { to < length x.now }
    requires y { to < length y.now }
    ensures len { length row.new ≡ length row.old }
    ensures kept { Keeps from row.old row.new }
    ensures words { result ≡ false
        → AreDoubles BinaryOperator.Modulo Kind.Int from to x.now y.now row.new }
{
    match steady(y, from, to) {
        Some(m) => write_rests(row, x, m, from, to),
        None => write::<Rest>(Kind::Int, row, x, y, from, to),
    }
}

/// An operator at whole numbers; none where it takes none.
fn write_ints(
    op: BinaryOperator,
    row: &mut [i64],
    x: &[i64],
    y: &[i64],
    from: usize,
    to: usize,
) -> bool
    requires row { to < length row.old }
    requires x { to < length x.now }
    requires y { to < length y.now }
    ensures len { length row.new ≡ length row.old }
    ensures kept { Keeps from row.old row.new }
    ensures words { result ≡ false → AreDoubles op Kind.Int from to x.now y.now row.new }
{
    match op {
        BinaryOperator::Add => write::<Sum>(Kind::Int, row, x, y, from, to),
        BinaryOperator::Subtract => write::<Difference>(Kind::Int, row, x, y, from, to),
        BinaryOperator::Multiply => write::<Product>(Kind::Int, row, x, y, from, to),
        BinaryOperator::Divide => divide(row, x, y, from, to),
        BinaryOperator::Modulo => reduce(row, x, y, from, to),
        BinaryOperator::Less => write::<Less>(Kind::Int, row, x, y, from, to),
        BinaryOperator::LessEqual => write::<LessEqual>(Kind::Int, row, x, y, from, to),
        BinaryOperator::Greater => write::<Greater>(Kind::Int, row, x, y, from, to),
        BinaryOperator::GreaterEqual => write::<GreaterEqual>(Kind::Int, row, x, y, from, to),
        BinaryOperator::Equal => write::<Equal>(Kind::Int, row, x, y, from, to),
        BinaryOperator::Unequal => write::<Unequal>(Kind::Int, row, x, y, from, to),
        _ => true,
    }
}

/// An operator at truth values; none where it takes none.
fn write_truths(
    op: BinaryOperator,
    row: &mut [i64],
    x: &[i64],
    y: &[i64],
    from: usize,
    to: usize,
) -> bool
    requires row { to < length row.old }
    requires x { to < length x.now }
    requires y { to < length y.now }
    ensures len { length row.new ≡ length row.old }
    ensures kept { Keeps from row.old row.new }
    ensures words { result ≡ false → AreDoubles op Kind.Bool from to x.now y.now row.new }
{
    match op {
        BinaryOperator::And => write::<And>(Kind::Bool, row, x, y, from, to),
        BinaryOperator::Or => write::<Or>(Kind::Bool, row, x, y, from, to),
        BinaryOperator::Xor => write::<Xor>(Kind::Bool, row, x, y, from, to),
        BinaryOperator::Implies => write::<Implies>(Kind::Bool, row, x, y, from, to),
        BinaryOperator::Equal => write::<Same>(Kind::Bool, row, x, y, from, to),
        BinaryOperator::Unequal => write::<Differs>(Kind::Bool, row, x, y, from, to),
        _ => true,
    }
}

/// An operator at names; none where it takes none.
fn write_names(
    place: u8,
    size: u8,
    op: BinaryOperator,
    row: &mut [i64],
    x: &[i64],
    y: &[i64],
    from: usize,
    to: usize,
) -> bool
    requires row { to < length row.old }
    requires x { to < length x.now }
    requires y { to < length y.now }
    ensures len { length row.new ≡ length row.old }
    ensures kept { Keeps from row.old row.new }
    ensures words { result ≡ false
        → AreDoubles op (Kind.Enum place size) from to x.now y.now row.new }
{
    match op {
        BinaryOperator::Equal => write::<Alike>(Kind::Enum(place, size), row, x, y, from, to),
        BinaryOperator::Unequal => write::<Unlike>(Kind::Enum(place, size), row, x, y, from, to),
        _ => true,
    }
}

/// An operator at words of this type; none where it takes none.
pub fn write_doubles(
    op: BinaryOperator,
    kind: Kind,
    row: &mut [i64],
    x: &[i64],
    y: &[i64],
    from: usize,
    to: usize,
) -> bool
    requires row { to < length row.old }
    requires x { to < length x.now }
    requires y { to < length y.now }
    ensures len { length row.new ≡ length row.old }
    ensures kept { Keeps from row.old row.new }
    ensures words { result ≡ false → AreDoubles op kind from to x.now y.now row.new }
{
    match kind {
        Kind::Int => write_ints(op, row, x, y, from, to),
        Kind::Bool => write_truths(op, row, x, y, from, to),
        Kind::Enum(place, size) => write_names(place, size, op, row, x, y, from, to),
    }
}
