//! Operators at single words: what each gives, and whether there is none.

ghost use Rattle.std.specs.Prelude.{◌≡◌, ◌+ℤ◌, ◌-ℤ◌, ◌*ℤ◌, neg_ℤ, ℤ, false};
ghost use Rattle.luflow.specs.Operators.{int_of, quotient_of, rest_of};
ghost use Rattle.lublock_kernels.specs.Rows.{IsWhole, truth_in_word};

/// `- x`
#[inline(always)]
pub fn negative(x: i64) -> (i64, bool)
    ensures { IsWhole result (int_of (neg_ℤ x)) }
{
    x.overflowing_neg()
}

/// `x + y`
#[inline(always)]
pub fn sum(x: i64, y: i64) -> (i64, bool)
    ensures { IsWhole result (int_of (x +ℤ y)) }
{
    x.overflowing_add(y)
}

/// `x - y`
#[inline(always)]
pub fn difference(x: i64, y: i64) -> (i64, bool)
    ensures { IsWhole result (int_of (x -ℤ y)) }
{
    x.overflowing_sub(y)
}

/// `x * y`
#[inline(always)]
pub fn product(x: i64, y: i64) -> (i64, bool)
    ensures { IsWhole result (int_of (x *ℤ y)) }
{
    x.overflowing_mul(y)
}

/// `x div y`, toward zero
#[inline(always)]
pub fn quotient(x: i64, y: i64) -> (i64, bool)
    ensures { IsWhole result (quotient_of x y) }
{
    match x.checked_div(y) {
        Some(z) => (z, false),
        None => (0, true),
    }
}

/// `x mod y`, with the sign of `x`; none for the least `int` and -1, though it is 0
#[inline(always)]
pub fn rest(x: i64, y: i64) -> (i64, bool)
    ensures { IsWhole result (rest_of x y) }
{
    match x.checked_rem(y) {
        Some(z) => (z, false),
        None => (0, true),
    }
}

/// The truth that a word holds.
#[inline(always)]
pub fn truth_of(x: i64) -> bool
    ensures { result ≡ truth_in_word x }
{
    x != 0
}

/// A word that holds a truth.
#[inline(always)]
pub fn word_of(b: bool) -> i64
    ensures { truth_in_word result ≡ b }
{
    b as i64
}
