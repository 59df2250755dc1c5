//! The numbers of a program's text.

ghost use Rattle.std.specs.Prelude.{◌≡◌, ◌≤◌, ◌<◌, min, IfSome, IfNone};

use std::marker::Model;

/// A number as a program's text may have it, from 0 to 9223372036854775807. A contract sees the number
/// itself.
#[derive(Clone, Copy)]
pub struct Number {
    value: u64,
}

impl Model for Number {
    ghost use Rattle.std.specs.Prelude.{ℕ, ◌≤◌};

    ghost Value = { ℕ };

    ghost view = { λ n. n.value };

    ghost inverse = { λ n. record { value = n } };

    ghost invariant = { λ n. n.value ≤ 9223372036854775807 };
}

impl Number {
    /// The greatest number: the greatest whole number of 64 bits with a sign.
    const MOST: u64 = 9_223_372_036_854_775_807;

    /// The number of this value, or none where it is greater than 9223372036854775807.
    pub fn new(value: u64) -> Option<Number>
        ensures some { IfSome result (λ n. n ≡ value) }
        ensures fits { IfSome result (λ n. value ≤ 9223372036854775807) }
        ensures none { IfNone result (9223372036854775807 < value) }
    {
        if value <= Number::MOST {
            Some(Number { value })
        } else {
            None
        }
    }

    /// The number of this value, or the greatest number where the value is greater than that.
    pub fn at_most(value: u64) -> Number
        ensures { result ≡ min value 9223372036854775807 }
    {
        Number {
            value: value.min(Number::MOST),
        }
    }

    /// The value.
    pub fn value(&self) -> u64
        ensures value { result ≡ self.now }
        ensures range { result ≤ 9223372036854775807 }
    {
        self.value
    }
}

impl From<u32> for Number {
    ghost use Rattle.std.specs.Prelude.{◌≡◌};

    ghost from_gives = { λ v n. n ≡ v };

    fn from(value: u32) -> Self {
        Number {
            value: u64::from(value),
        }
    }
}
