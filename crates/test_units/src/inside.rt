//! The instances of called nodes, where they begin in the flat program, and where their calls stand in the
//! text.

use lucore::flatten;
use luflow::Form;
use luinside::{Instance, TextCall, call_at, instances};
use lustat::{Checked, check};
use lusyn::read_program;
use lutree::Program;
use std::alloc::Global;

/// An instance as it is listed here: the calls that lead to it, the place of its node in the text, the place
/// of its first variable, and the place that this variable, an input, is a copy of; the main node's inputs
/// are none.
type Line = (&'static [usize], usize, usize, Option<usize>);

/// A program's text with its instances.
struct Listing {
    text: &'static str,
    lines: &'static [Line],
}

const LISTINGS: &[Listing] = &[
    // Two calls of one node in an equation, one inside the other's argument, and an instance inside an
    // instance.
    Listing {
        text: "node twice(a: int) returns (b: int); let b = a + a; tel node both(c: int) returns (d: int); var e: int; let e = 1 + c; d = twice(e + 1) + 3; tel node main(x: int) returns (y, z: int); let y = twice(2 * twice(x)); z = both(y - 1) + twice(x); tel",
        lines: &[
            (&[], 2, 0, None),
            (&[0], 0, 4, Some(0)),
            (&[1], 0, 7, Some(6)),
            (&[2], 1, 11, Some(10)),
            (&[2, 0], 0, 17, Some(16)),
            (&[3], 0, 20, Some(0)),
        ],
    },
    // Calls on clocks, behind `fby` and in branches.
    Listing {
        text: "node inc(a: int) returns (b: int); let b = a + 1; tel node main(c: bool; x: int) returns (y, z: int); var t: int when c; let t = inc(x when c); y = merge c (true -> t) (false -> inc(x when not c)); z = (if c then 1 else 0 fby inc(x)) + inc(y); tel",
        lines: &[
            (&[], 1, 0, None),
            (&[0], 0, 6, Some(5)),
            (&[1], 0, 10, Some(9)),
            (&[2], 0, 15, Some(1)),
            (&[3], 0, 21, Some(2)),
        ],
    },
    // No call at all.
    Listing {
        text: "node main(x: int) returns (y: int); let y = x; tel",
        lines: &[(&[], 0, 0, None)],
    },
];

fn is_line(instance: &Instance, line: &Line) -> bool {
    let (path, node, start, _) = line;
    instance.path.as_slice() == *path && instance.node == *node && instance.start == *start
}

/// Whether the instances of a program are what is listed.
fn has_lines(alloc: Global, checked: &Checked, listing: &Listing) -> bool {
    match instances(alloc, checked) {
        Ok(found) => {
            found.len() == listing.lines.len()
                && found
                    .iter()
                    .zip(listing.lines)
                    .all(|(instance, line)| is_line(instance, line))
        }
        Err(_) => false,
    }
}

/// Whether the first variable of each listed instance is the copy of its argument in the flat program.
fn has_copies(alloc: Global, checked: &Checked, listing: &Listing) -> bool {
    match flatten(alloc, checked) {
        Ok(flat) => listing.lines.iter().all(|(_, _, start, from)| {
            match (flat.flows().get(*start), from) {
                (Some(flow), Some(from)) =>
                    matches!(flow.form, Form::Copied(place) if place == *from),
                (Some(flow), None) => matches!(flow.form, Form::Input(0)),
                (None, _) => false,
            }
        }),
        Err(_) => false,
    }
}

fn is_kept(alloc: Global, program: &Program, listing: &Listing) -> bool {
    match check(alloc, program, "main") {
        Ok(checked) => has_lines(alloc, &checked, listing) && has_copies(alloc, &checked, listing),
        Err(_) => false,
    }
}

fn is_listed(alloc: Global, listing: &Listing) -> bool {
    match read_program(alloc, listing.text) {
        Ok(program) => is_kept(alloc, &program, listing),
        Err(_) => false,
    }
}

#[test]
fn instances_begin_in_their_places(rt: HostRuntime) {
    for listing in LISTINGS {
        assert!(rt; is_listed(rt.alloc(), listing), "{}", listing.text);
    }
}

/// A program whose flat list would have more than 5,000 flows.
const LARGE: &str =
    "node a(x: int) returns (y: int); let y = x + 1; tel node b(x: int) returns (y: int); let y = a(a(x)); tel node c(x: int) returns (y: int); let y = b(b(x)); tel node d(x: int) returns (y: int); let y = c(c(x)); tel node e(x: int) returns (y: int); let y = d(d(x)); tel node f(x: int) returns (y: int); let y = e(e(x)); tel node g(x: int) returns (y: int); let y = f(f(x)); tel node h(x: int) returns (y: int); let y = g(g(x)); tel node i(x: int) returns (y: int); let y = h(h(x)); tel node j(x: int) returns (y: int); let y = i(i(x)); tel node main(x: int) returns (y: int); let y = j(j(x)); tel";

/// How many instances of a text are listed; `None` where it is refused.
fn count(alloc: Global, text: &str) -> Option<usize> {
    let program = read_program(alloc, text).ok()?;
    let checked = check(alloc, &program, "main").ok()?;
    let found = instances(alloc, &checked).ok()?;
    Some(found.len())
}

#[test]
fn what_is_too_large_has_no_list(rt: HostRuntime) {
    assert!(rt; count(rt.alloc(), LARGE) == Some(0));
}

/// A call as it is listed here: the place of its equation, its number there, and the node's name.
type Call = (usize, usize, &'static str);

/// The calls of a node, in order of their numbers.
const CALLS: &[Call] = &[
    (0, 0, "twice"),
    (0, 1, "twice"),
    (1, 0, "both"),
    (1, 1, "twice"),
];

fn is_call(found: Option<TextCall>, expected: Option<&Call>) -> bool {
    match (found, expected) {
        (Some(call), Some((equation, number, name))) => {
            call.equation == *equation && call.number == *number && call.name == *name
        }
        (None, None) => true,
        _ => false,
    }
}

/// Whether the calls of the last node of a text are these, and no more.
fn has_calls(alloc: Global, text: &str, calls: &[Call]) -> bool {
    let program = match read_program(alloc, text) {
        Ok(program) => program,
        Err(_) => return false,
    };
    match program.nodes.as_slice().last() {
        Some(node) => (0..calls.len() + 1).all(|k| is_call(call_at(node, k), calls.get(k))),
        None => false,
    }
}

#[test]
fn calls_stand_in_their_equations(rt: HostRuntime) {
    assert!(rt; has_calls(rt.alloc(), LISTINGS[0].text, CALLS));
}
