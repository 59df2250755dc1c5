//! Where the first fault of a program is, which operator of its text that is, and what it reads there.

use lucore::flatten;
use luflow::{Datum, FaultKind, Flat, Inputs, Values};
use luinside::{FaultSite, FoundFault, fault_place, operator_at};
use lustat::{Checked, check};
use lusyn::read_program;
use lutree::Program;
use std::alloc::{AllocError, Global};

/// A fault as it is listed here: the instant, the kind and the operands; the calls that lead to the
/// operator's instance, the place of its node in the text, the place of its equation, and the numbers of the
/// operands that have it inside.
#[derive(Clone, Copy)]
struct Line {
    instant: u32,
    kind: FaultKind,
    left: Datum,
    right: Option<Datum>,
    path: &'static [usize],
    node: usize,
    equation: usize,
    part: &'static [usize],
}

/// A program's text, the column of its input `x`, and its first fault.
struct Case {
    text: &'static str,
    xs: &'static [Datum],
    line: Option<Line>,
}

const RATIOS: &str =
    "node ratio(a, b: int) returns (r: int); let r = a div b; tel node main(x: int) returns (y: int); let y = ratio(100, x) + ratio(x, x - 3); tel";

const CASES: &[Case] = &[
    // The second call divides by 0 at instant 2.
    Case {
        text: RATIOS,
        xs: &[Datum::Int(1), Datum::Int(2), Datum::Int(3), Datum::Int(0)],
        line: Some(Line {
            instant: 2,
            kind: FaultKind::DivZero,
            left: Datum::Int(3),
            right: Some(Datum::Int(0)),
            path: &[1],
            node: 0,
            equation: 0,
            part: &[],
        }),
    },
    // Inside the second branch of an `if`, whose result isn't needed.
    Case {
        text: "node main(x: int) returns (y: int); var z: int; let z = x; y = if x > 0 then x else 1 + (10 div (x - 2)); tel",
        xs: &[Datum::Int(5), Datum::Int(2)],
        line: Some(Line {
            instant: 1,
            kind: FaultKind::DivZero,
            left: Datum::Int(10),
            right: Some(Datum::Int(0)),
            path: &[],
            node: 0,
            equation: 1,
            part: &[2, 1],
        }),
    },
    // An operator of one operand, in the argument of a call in a branch of a `merge`.
    Case {
        text: "node same(a: int) returns (b: int); let b = a; tel node main(x: int) returns (y: int); var c: bool; let c = x < 0; y = merge c (true -> same(- (x when c))) (false -> x when not c); tel",
        xs: &[Datum::Int(7), Datum::Int(-9223372036854775808)],
        line: Some(Line {
            instant: 1,
            kind: FaultKind::Overflow,
            left: Datum::Int(-9223372036854775808),
            right: None,
            path: &[],
            node: 1,
            equation: 1,
            part: &[0, 0],
        }),
    },
    Case {
        text: RATIOS,
        xs: &[Datum::Int(1), Datum::Int(2)],
        line: None,
    },
];

fn is_found(found: &FoundFault, line: &Line) -> bool {
    found.instant == line.instant
        && found.kind == line.kind
        && found.left == line.left
        && found.right == line.right
}

fn is_site(site: &FaultSite, line: &Line) -> bool {
    site.path.as_slice() == line.path
        && site.node == line.node
        && site.equation == line.equation
        && site.part.as_slice() == line.part
        && site.reads.right.is_some() == line.right.is_some()
}

/// Whether the operator of a flow is the one that is listed.
fn has_site(alloc: Global, checked: &Checked, place: usize, line: &Line) -> bool {
    match operator_at(alloc, checked, place) {
        Ok(Some(site)) => is_site(&site, line),
        _ => false,
    }
}

/// Whether the first fault at a table is the one that is listed.
fn has_fault(
    alloc: Global,
    checked: &Checked,
    flat: &Flat,
    inputs: &Inputs,
    wanted: &Option<Line>,
) -> bool {
    if !inputs.fits(flat) {
        return false;
    }
    match (fault_place(alloc, flat, inputs), wanted) {
        (Ok(Some(found)), Some(line)) => {
            is_found(&found, line) && has_site(alloc, checked, found.place, line)
        }
        (Ok(None), None) => true,
        _ => false,
    }
}

/// The table of the column `x`, where it is one.
fn inputs_of(alloc: Global, xs: &[Datum]) -> Result<Option<Inputs>, AllocError> {
    let mut columns = Vec::new(alloc);
    columns.push((
        String::from_str(alloc, "x")?,
        Values::Mixed(Vec::from_slice(alloc, xs)?),
    ))?;
    match u32::try_from(xs.len()) {
        Ok(instants) => Ok(Inputs::new(instants, columns)),
        Err(_) => Ok(None),
    }
}

fn is_told(alloc: Global, checked: &Checked, flat: &Flat, case: &Case) -> bool {
    match inputs_of(alloc, case.xs) {
        Ok(Some(inputs)) => has_fault(alloc, checked, flat, &inputs, &case.line),
        _ => false,
    }
}

fn is_kept(alloc: Global, program: &Program, case: &Case) -> bool {
    match check(alloc, program, "main") {
        Ok(checked) => match flatten(alloc, &checked) {
            Ok(flat) => is_told(alloc, &checked, &flat, case),
            Err(_) => false,
        },
        Err(_) => false,
    }
}

fn is_case(alloc: Global, case: &Case) -> bool {
    match read_program(alloc, case.text) {
        Ok(program) => is_kept(alloc, &program, case),
        Err(_) => false,
    }
}

#[test]
fn the_first_fault_is_of_its_operator(rt: HostRuntime) {
    for case in CASES {
        assert!(rt; is_case(rt.alloc(), case), "{}", case.text);
    }
}

/// A flow that is of no data operator, as an input, has none; nor has a place behind all flows.
#[test]
fn what_is_no_operator_has_none(rt: HostRuntime) {
    let program = read_program(rt.alloc(), RATIOS);
    let Ok(program) = program else {
        assert!(rt; false, "the text is a program");
        return;
    };
    let Ok(checked) = check(rt.alloc(), &program, "main") else {
        assert!(rt; false, "it keeps all rules");
        return;
    };
    for place in [0, 4096] {
        assert!(rt;
            matches!(operator_at(rt.alloc(), &checked, place), Ok(None)),
            "{place}"
        );
    }
}
