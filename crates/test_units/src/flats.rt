//! What a program that keeps all rules lends, and flat lists, with their order of ranks and their owners.

use lucore::flatten;
use luflow::{Clock, Datum, Flat, Flow, Form};
use lustat::{Checked, check};
use lusyn::read_program;
use lutree::{BinaryOperator, Kind, Program, UnaryOperator};
use std::alloc::Global;

/// A form as it is listed here.
enum Shape {
    Input(usize),
    Constant(Datum),
    Copied(usize),
    Unary(UnaryOperator, usize),
    Binary(BinaryOperator, usize, usize),
    If(usize, usize, usize),
    Pre(usize),
    Arrow(usize, usize),
    When(usize),
    Current(usize),
    Merge(usize, &'static [usize]),
}

/// A flow's form, its clock and its type.
type Row = (Shape, Clock, Kind);

/// A program's text, with its flows, their places in order of rank, and for each flow the number of the main
/// variable in whose equation it stands.
struct Listing {
    text: &'static str,
    flows: &'static [Row],
    rank: &'static [usize],
    owners: &'static [usize],
}

const LISTINGS: &[Listing] = &[
    Listing {
        text: "node main(x: int; c: bool) returns (y: int; z: int when c); var s: int when c; let s = x when c; z = 2 * s; y = x -> pre y + x; tel",
        flows: &[
            (Shape::Input(0), Clock::Base, Kind::Int),
            (Shape::Input(1), Clock::Base, Kind::Bool),
            (Shape::Arrow(0, 7), Clock::Base, Kind::Int),
            (
                Shape::Binary(BinaryOperator::Multiply, 5, 4),
                Clock::On(1, Datum::Bool(true)),
                Kind::Int,
            ),
            (Shape::When(0), Clock::On(1, Datum::Bool(true)), Kind::Int),
            (
                Shape::Constant(Datum::Int(2)),
                Clock::On(1, Datum::Bool(true)),
                Kind::Int,
            ),
            (Shape::Pre(2), Clock::Base, Kind::Int),
            (
                Shape::Binary(BinaryOperator::Add, 6, 0),
                Clock::Base,
                Kind::Int,
            ),
        ],
        rank: &[0, 1, 4, 5, 3, 6, 7, 2],
        owners: &[0, 1, 2, 3, 4, 3, 2, 2],
    },
    Listing {
        text: "node main(x: int) returns (z: int); var y: int; p: int; let y = 1 div x; p = pre y; z = 0 -> p; tel",
        flows: &[
            (Shape::Input(0), Clock::Base, Kind::Int),
            (Shape::Arrow(5, 3), Clock::Base, Kind::Int),
            (
                Shape::Binary(BinaryOperator::Divide, 4, 0),
                Clock::Base,
                Kind::Int,
            ),
            (Shape::Pre(2), Clock::Base, Kind::Int),
            (Shape::Constant(Datum::Int(1)), Clock::Base, Kind::Int),
            (Shape::Constant(Datum::Int(0)), Clock::Base, Kind::Int),
        ],
        rank: &[0, 3, 4, 2, 5, 1],
        owners: &[0, 1, 2, 3, 2, 1],
    },
    Listing {
        text: "node main(x: int) returns (y: int; z: int); var c: bool; s: int when c; let c = true -> not pre c; s = x when c; y = current s; z = merge c (true -> s) (false -> 0 when not c); tel",
        flows: &[
            (Shape::Input(0), Clock::Base, Kind::Int),
            (Shape::Current(4), Clock::Base, Kind::Int),
            (Shape::Merge(3, &[4, 9]), Clock::Base, Kind::Int),
            (Shape::Arrow(5, 7), Clock::Base, Kind::Bool),
            (Shape::When(0), Clock::On(3, Datum::Bool(true)), Kind::Int),
            (Shape::Constant(Datum::Bool(true)), Clock::Base, Kind::Bool),
            (Shape::Pre(3), Clock::Base, Kind::Bool),
            (Shape::Unary(UnaryOperator::Not, 6), Clock::Base, Kind::Bool),
            (Shape::Constant(Datum::Int(0)), Clock::Base, Kind::Int),
            (Shape::When(8), Clock::On(3, Datum::Bool(false)), Kind::Int),
        ],
        rank: &[0, 5, 6, 7, 3, 4, 1, 8, 9, 2],
        owners: &[0, 1, 2, 3, 4, 3, 3, 3, 2, 2],
    },
    Listing {
        text: "node main(x: int; d: bool) returns (y: int); let y = if d and x > 0 then -x else 1 fby 2 fby y; tel",
        flows: &[
            (Shape::Input(0), Clock::Base, Kind::Int),
            (Shape::Input(1), Clock::Base, Kind::Bool),
            (Shape::If(5, 6, 12), Clock::Base, Kind::Int),
            (Shape::Constant(Datum::Int(0)), Clock::Base, Kind::Int),
            (
                Shape::Binary(BinaryOperator::Greater, 0, 3),
                Clock::Base,
                Kind::Bool,
            ),
            (
                Shape::Binary(BinaryOperator::And, 1, 4),
                Clock::Base,
                Kind::Bool,
            ),
            (
                Shape::Unary(UnaryOperator::Minus, 0),
                Clock::Base,
                Kind::Int,
            ),
            (Shape::Constant(Datum::Int(1)), Clock::Base, Kind::Int),
            (Shape::Constant(Datum::Int(2)), Clock::Base, Kind::Int),
            (Shape::Pre(2), Clock::Base, Kind::Int),
            (Shape::Arrow(8, 9), Clock::Base, Kind::Int),
            (Shape::Pre(10), Clock::Base, Kind::Int),
            (Shape::Arrow(7, 11), Clock::Base, Kind::Int),
        ],
        rank: &[0, 1, 3, 4, 5, 6, 7, 8, 9, 10, 11, 12, 2],
        owners: &[0, 1, 2, 2, 2, 2, 2, 2, 2, 2, 2, 2, 2],
    },
    // Nodes in any order, a call in a call, a tuple on a slow clock, one node called three times.
    Listing {
        text: "node main(x: int; c: bool) returns (u: int when c; v: int when c; w: int); let (u, v) = g(x when c, 3); w = f(f(x)); tel node f(x: int) returns (y: int); let y = 0 fby x; tel node g(x: int; y: int) returns (p: int; q: int); let p = y; q = f(x) - y; tel",
        flows: &[
            (Shape::Input(0), Clock::Base, Kind::Int),
            (Shape::Input(1), Clock::Base, Kind::Bool),
            (Shape::Copied(9), Clock::On(1, Datum::Bool(true)), Kind::Int),
            (
                Shape::Copied(10),
                Clock::On(1, Datum::Bool(true)),
                Kind::Int,
            ),
            (Shape::Copied(20), Clock::Base, Kind::Int),
            (Shape::When(0), Clock::On(1, Datum::Bool(true)), Kind::Int),
            (
                Shape::Constant(Datum::Int(3)),
                Clock::On(1, Datum::Bool(true)),
                Kind::Int,
            ),
            (Shape::Copied(5), Clock::On(1, Datum::Bool(true)), Kind::Int),
            (Shape::Copied(6), Clock::On(1, Datum::Bool(true)), Kind::Int),
            (Shape::Copied(8), Clock::On(1, Datum::Bool(true)), Kind::Int),
            (
                Shape::Binary(BinaryOperator::Subtract, 12, 8),
                Clock::On(1, Datum::Bool(true)),
                Kind::Int,
            ),
            (Shape::Copied(7), Clock::On(1, Datum::Bool(true)), Kind::Int),
            (
                Shape::Arrow(13, 14),
                Clock::On(1, Datum::Bool(true)),
                Kind::Int,
            ),
            (
                Shape::Constant(Datum::Int(0)),
                Clock::On(1, Datum::Bool(true)),
                Kind::Int,
            ),
            (Shape::Pre(11), Clock::On(1, Datum::Bool(true)), Kind::Int),
            (Shape::Copied(0), Clock::Base, Kind::Int),
            (Shape::Arrow(17, 18), Clock::Base, Kind::Int),
            (Shape::Constant(Datum::Int(0)), Clock::Base, Kind::Int),
            (Shape::Pre(15), Clock::Base, Kind::Int),
            (Shape::Copied(16), Clock::Base, Kind::Int),
            (Shape::Arrow(21, 22), Clock::Base, Kind::Int),
            (Shape::Constant(Datum::Int(0)), Clock::Base, Kind::Int),
            (Shape::Pre(19), Clock::Base, Kind::Int),
        ],
        rank: &[
            0, 1, 5, 6, 7, 8, 9, 2, 11, 13, 14, 12, 10, 3, 15, 17, 18, 16, 19, 21, 22, 20, 4,
        ],
        owners: &[
            0, 1, 2, 2, 4, 2, 2, 2, 2, 2, 2, 2, 2, 2, 2, 4, 4, 4, 4, 4, 4, 4, 4,
        ],
    },
    // A clock of the called node, and its inputs in another order than the caller's.
    Listing {
        text: "node hold(c: bool; x: int) returns (y: int); var s: int when c; let s = x when c; y = merge c (true -> s) (false -> 0 when not c); tel node main(x: int; b: bool) returns (y: int); let y = hold(not b, x) + 1; tel",
        flows: &[
            (Shape::Input(0), Clock::Base, Kind::Int),
            (Shape::Input(1), Clock::Base, Kind::Bool),
            (
                Shape::Binary(BinaryOperator::Add, 6, 10),
                Clock::Base,
                Kind::Int,
            ),
            (Shape::Unary(UnaryOperator::Not, 1), Clock::Base, Kind::Bool),
            (Shape::Copied(3), Clock::Base, Kind::Bool),
            (Shape::Copied(0), Clock::Base, Kind::Int),
            (Shape::Merge(4, &[7, 9]), Clock::Base, Kind::Int),
            (Shape::When(5), Clock::On(4, Datum::Bool(true)), Kind::Int),
            (Shape::Constant(Datum::Int(0)), Clock::Base, Kind::Int),
            (Shape::When(8), Clock::On(4, Datum::Bool(false)), Kind::Int),
            (Shape::Constant(Datum::Int(1)), Clock::Base, Kind::Int),
        ],
        rank: &[0, 1, 3, 4, 5, 7, 8, 9, 6, 10, 2],
        owners: &[0, 1, 2, 2, 2, 2, 2, 2, 2, 2, 2],
    },
    // Memory of two instances of one node is apart; a node that isn't called stands nowhere.
    Listing {
        text: "node n(x: int) returns (y: int); let y = x -> pre y + x; tel node unused(x: int) returns (y: int); let y = n(n(x)); tel node main(a: int) returns (p, q: int); let p = n(a); q = n(p); tel",
        flows: &[
            (Shape::Input(0), Clock::Base, Kind::Int),
            (Shape::Copied(4), Clock::Base, Kind::Int),
            (Shape::Copied(8), Clock::Base, Kind::Int),
            (Shape::Copied(0), Clock::Base, Kind::Int),
            (Shape::Arrow(3, 6), Clock::Base, Kind::Int),
            (Shape::Pre(4), Clock::Base, Kind::Int),
            (
                Shape::Binary(BinaryOperator::Add, 5, 3),
                Clock::Base,
                Kind::Int,
            ),
            (Shape::Copied(1), Clock::Base, Kind::Int),
            (Shape::Arrow(7, 10), Clock::Base, Kind::Int),
            (Shape::Pre(8), Clock::Base, Kind::Int),
            (
                Shape::Binary(BinaryOperator::Add, 9, 7),
                Clock::Base,
                Kind::Int,
            ),
        ],
        rank: &[0, 3, 5, 6, 4, 1, 7, 9, 10, 8, 2],
        owners: &[0, 1, 2, 1, 1, 1, 1, 2, 2, 2, 2],
    },
    Listing {
        text: "node f(x: int) returns (y: int); let y = 0 fby x; tel node main() returns (a: int); let a = f(a) + 1; tel",
        flows: &[
            (
                Shape::Binary(BinaryOperator::Add, 2, 5),
                Clock::Base,
                Kind::Int,
            ),
            (Shape::Copied(0), Clock::Base, Kind::Int),
            (Shape::Arrow(3, 4), Clock::Base, Kind::Int),
            (Shape::Constant(Datum::Int(0)), Clock::Base, Kind::Int),
            (Shape::Pre(1), Clock::Base, Kind::Int),
            (Shape::Constant(Datum::Int(1)), Clock::Base, Kind::Int),
        ],
        rank: &[3, 4, 2, 5, 0, 1],
        owners: &[0, 0, 0, 0, 0, 0],
    },
    // One output leads back through the call, the other doesn't.
    Listing {
        text: "node f(x: int) returns (p, q: int); let p = 1; q = x; tel node main() returns (a, b: int); let (a, b) = f(a); tel",
        flows: &[
            (Shape::Copied(3), Clock::Base, Kind::Int),
            (Shape::Copied(4), Clock::Base, Kind::Int),
            (Shape::Copied(0), Clock::Base, Kind::Int),
            (Shape::Constant(Datum::Int(1)), Clock::Base, Kind::Int),
            (Shape::Copied(2), Clock::Base, Kind::Int),
        ],
        rank: &[3, 0, 2, 4, 1],
        owners: &[0, 0, 0, 0, 0],
    },
];

/// The flat program of a program; `None` where it is refused.
fn flattened(alloc: Global, program: &Program) -> Option<Flat> {
    let checked = check(alloc, program, "main").ok()?;
    flatten(alloc, &checked).ok()
}

/// The flat program of a text; `None` where it is refused.
pub(crate) fn flat_of(alloc: Global, text: &str) -> Option<Flat> {
    let program = read_program(alloc, text).ok()?;
    flattened(alloc, &program)
}

fn is_form(form: &Form, shape: &Shape) -> bool {
    match (form, shape) {
        (Form::Input(a), Shape::Input(x)) => a == x,
        (Form::Constant(a), Shape::Constant(x)) => a == x,
        (Form::Copied(a), Shape::Copied(x)) => a == x,
        (Form::Unary(op, a), Shape::Unary(other, x)) => op == other && a == x,
        (Form::Binary(op, a, b), Shape::Binary(other, x, y)) => op == other && a == x && b == y,
        (Form::If(c, a, b), Shape::If(z, x, y)) => c == z && a == x && b == y,
        (Form::Pre(a), Shape::Pre(x)) => a == x,
        (Form::Arrow(a, b), Shape::Arrow(x, y)) => a == x && b == y,
        (Form::When(a), Shape::When(x)) => a == x,
        (Form::Current(a), Shape::Current(x)) => a == x,
        (Form::Merge(c, branches), Shape::Merge(z, xs)) => c == z && branches.as_slice() == *xs,
        _ => false,
    }
}

fn is_row(flow: &Flow, row: &Row) -> bool {
    let (shape, clock, kind) = row;
    is_form(&flow.form, shape) && flow.clock == *clock && flow.kind == *kind
}

/// Whether a flat program is what is listed.
fn is_listed(flat: &Flat, listing: &Listing) -> bool {
    flat.flows().len() == listing.flows.len()
        && flat
            .flows()
            .iter()
            .zip(listing.flows)
            .all(|(flow, row)| is_row(flow, row))
        && flat.rank() == listing.rank
        && flat.owners() == listing.owners
}

/// Whether the flat program of a text is what is listed.
fn has_listed(alloc: Global, listing: &Listing) -> bool {
    match flat_of(alloc, listing.text) {
        Some(flat) => is_listed(&flat, listing),
        None => false,
    }
}

#[test]
fn flows_stand_in_their_places(rt: HostRuntime) {
    for listing in LISTINGS {
        assert!(rt; has_listed(rt.alloc(), listing), "{}", listing.text);
    }
}

/// A main node that calls a second one.
const CALLER: &str =
    "node main(x: int) returns (y: int); var a: int; let a = pre x; y = 0 -> f(x) + a; tel node f(x: int) returns (y: int); let y = x; tel";

/// The called node stands first.
const ORDER: &[usize] = &[1, 0];

/// Of `x`, `y`, `a` and the two equations of the main node, and of `x`, `y` and the equation of the called
/// one.
const CLASSES: [&[bool]; 2] = [&[false, false, true, true, false], &[false, false, false]];

/// Whether the program, its main node, their order and their classes are lent.
fn lends(checked: &Checked) -> bool {
    if checked.program().nodes.as_slice().len() == 2 {
        checked.order() == ORDER
            && checked.main() == "main"
            && checked.catalog().place("f") == Some(1)
            && checked.classes(0) == CLASSES[0]
            && checked.classes(1) == CLASSES[1]
    } else {
        false
    }
}

/// Whether a program that is checked lends what it has.
fn lends_all(alloc: Global, program: &Program) -> bool {
    match check(alloc, program, "main") {
        Ok(checked) => lends(&checked),
        Err(_) => false,
    }
}

/// Whether the program of a text lends what it has, once it is checked.
fn lends_of_text(alloc: Global, text: &str) -> bool {
    match read_program(alloc, text) {
        Ok(program) => lends_all(alloc, &program),
        Err(_) => false,
    }
}

#[test]
fn a_program_that_keeps_all_rules_lends_what_was_found(rt: HostRuntime) {
    assert!(rt; lends_of_text(rt.alloc(), CALLER));
}
