//! Operators where no program that keeps all rules asks them: of the wrong types, and of nil; and the lines
//! of faults.

use lueval::{Datum, EvalError, choice, double, single};
use luflow::{FaultKind, Outcome};
use lutree::{BinaryOperator, UnaryOperator};
use std::test::Fail;

const NIL: Outcome = Outcome::Gives(Datum::Nil);

const YES: Datum = Datum::Bool(true);

const ONE: Datum = Datum::Int(1);

#[test]
fn names_are_equal_or_not_and_nothing_else(rt: HostRuntime) {
    let (up, down) = (Datum::Name(0), Datum::Name(1));
    assert!(rt; double(BinaryOperator::Equal, down, down) == Outcome::Gives(YES));
    assert!(rt; double(BinaryOperator::Unequal, up, down) == Outcome::Gives(YES));
    assert!(rt; double(BinaryOperator::Less, up, down) == Outcome::Stuck);
    assert!(rt; double(BinaryOperator::Equal, up, Datum::Nil) == NIL);
    assert!(rt; single(UnaryOperator::Not, up) == Outcome::Stuck);
    assert!(rt; choice(YES, up, down) == Outcome::Gives(up));
}

#[test]
fn data_of_other_types_are_stuck_and_nil_is_nil(rt: HostRuntime) {
    assert!(rt; double(BinaryOperator::And, ONE, ONE) == Outcome::Stuck);
    assert!(rt; double(BinaryOperator::Add, Datum::Nil, ONE) == NIL);
    assert!(rt; single(UnaryOperator::Not, Datum::Nil) == NIL);
    assert!(rt; choice(YES, ONE, Datum::Nil) == NIL);
    assert!(rt; choice(ONE, ONE, ONE) == Outcome::Stuck);
}

const ERRORS: &[(EvalError, &str)] = &[
    (
        EvalError::Fault {
            variable: 2,
            instant: 1,
            kind: FaultKind::DivZero,
        },
        "R1 Fault 2 1 div-zero",
    ),
    (
        EvalError::Fault {
            variable: 0,
            instant: 999_999,
            kind: FaultKind::Overflow,
        },
        "R1 Fault 0 999999 overflow",
    ),
    (EvalError::OutOfMemory, "R2 OutOfMemory"),
];

#[test]
fn errors_have_their_lines(rt: HostRuntime) -> Result<(), Fail> {
    for (error, want) in ERRORS {
        assert!(rt; error.to_string(rt.alloc())?.as_str() == *want);
    }
    Ok(())
}
