//! The plain programs of `test_reference` at two counters that feed each other, each at a site of its own,
//! with a step of 1 and with one so large that the second sum has no value; and what a site is handed.

use crate::jobs::job_of_texts;
use luflow::{Body, Datum, Msg, Status};
use luplace::{Job, SiteInputs};
use std::alloc::{AllocError, Global};
use test_reference::{Item, Mark, Marks, list_of_link, marks_of, script_of, world_after};

/// A flow, and its first marks.
type FlowMarks = (usize, &'static [Mark]);

/// A site, the length of its script, and an item of it, with its place.
type ScriptItem = (u8, usize, usize, Item);

/// Turns, how often they are taken, and how much each site has done then.
type Reached = (&'static [u8], usize, &'static [usize]);

/// What the plain programs say of a program of two variables at two sites, `a` at the first and `b` at the
/// second, over three instants: the first marks of flows, the lists of the links and of what is no link,
/// items, and how much the sites have done after some turns, so many times.
struct Counted {
    program: &'static str,
    marks: &'static [FlowMarks],
    lists: &'static [&'static [Body]],
    items: &'static [ScriptItem],
    worlds: &'static [Reached],
}

const ZERO: Mark = Mark::Known(Status::Present(Datum::Int(0)));

const ONE: Mark = Mark::Known(Status::Present(Datum::Int(1)));

const TWO: Mark = Mark::Known(Status::Present(Datum::Int(2)));

const GREATEST: Mark = Mark::Known(Status::Present(Datum::Int(9_223_372_036_854_775_807)));

const NIL: Mark = Mark::Known(Status::Present(Datum::Nil));

const ABSENT: Mark = Mark::Known(Status::Absent);

const COUNTS: &[Body] = &[
    Body::Value(Datum::Int(0)),
    Body::Value(Datum::Int(1)),
    Body::Value(Datum::Int(2)),
    Body::Close,
];

/// No close follows a fault.
const CUT: &[Body] = &[
    Body::Value(Datum::Int(0)),
    Body::Value(Datum::Int(9_223_372_036_854_775_807)),
];

const COUNTED: &[Counted] = &[
    Counted {
        program: "node main() returns (a: int; b: int); let a = 0 -> pre b + 1; b = 0 -> pre a + 1; tel",
        marks: &[
            (0, &[ZERO, ONE, TWO, ABSENT]),
            (1, &[ZERO, ONE, TWO, ABSENT]),
            (3, &[NIL, ZERO, ONE, ABSENT]),
        ],
        lists: &[COUNTS, COUNTS, &[]],
        // In the first script a put stands behind its sum, and at the head of the second a take.
        items: &[
            (
                0,
                23,
                4,
                Item::Compute {
                    flow: 0,
                    instant: 0,
                },
            ),
            (0, 23, 5, Item::Put { link: 0 }),
            (1, 23, 0, Item::Take { link: 0 }),
        ],
        // One site alone, or what is no site, waits at its first wait.
        worlds: &[
            (&[], 0, &[0, 0]),
            (&[0], 9, &[6, 0]),
            (&[1], 9, &[0, 0]),
            (&[2], 9, &[0, 0]),
            (&[0, 1], 60, &[23, 23]),
        ],
    },
    Counted {
        program: "node main() returns (a: int; b: int); let a = 0 -> pre b + 9223372036854775807; b = 0 -> pre a + 9223372036854775807; tel",
        marks: &[
            (0, &[ZERO, GREATEST, Mark::Broken, ABSENT]),
            (1, &[ZERO, GREATEST, Mark::Broken, ABSENT]),
        ],
        lists: &[CUT],
        // The scripts end at the fault, and at the take of what never comes.
        items: &[
            (
                0,
                18,
                17,
                Item::Compute {
                    flow: 5,
                    instant: 2,
                },
            ),
            (1, 15, 14, Item::Take { link: 0 }),
        ],
        worlds: &[(&[0, 1], 60, &[18, 14])],
    },
];

fn have_marks(rows: &[Marks], wanted: &[FlowMarks]) -> bool {
    wanted.iter().all(|(flow, marks)| {
        rows.get(*flow).is_some_and(|row| row.as_slice() == *marks)
    })
}

fn has_item(alloc: Global, job: &Job, wanted: &ScriptItem) -> Result<bool, AllocError> {
    let (site, length, place, item) = *wanted;
    let script = script_of(alloc, job, site)?;
    Ok(script.len() == length && script.get(place).copied() == Some(item))
}

/// Whether a list has these bodies, numbered from 0.
fn is_list(list: &[Msg], bodies: &[Body]) -> bool {
    list.len() == bodies.len()
        && list
            .iter()
            .zip(bodies)
            .zip(0..)
            .all(|((msg, body), no)| msg.no == no && msg.body == *body)
}

/// Whether the sites have done so much after these turns, so many times.
fn is_reached(
    alloc: Global,
    job: &Job,
    turns: &[u8],
    times: usize,
    dones: &[usize],
) -> Result<bool, AllocError> {
    let mut all = Vec::new(alloc);
    for _ in 0..times {
        all.extend_from_slice(turns)?;
    }
    Ok(world_after(alloc, job, &all)?.as_slice() == dones)
}

/// Whether the flows have these first marks.
fn has_marks(alloc: Global, job: &Job, wanted: &[FlowMarks]) -> Result<bool, AllocError> {
    let rows = marks_of(alloc, job.plan().flat(), job.inputs(), 4)?;
    Ok(have_marks(&rows, wanted))
}

/// Whether the links, and what is no link, have these lists, in order.
fn has_lists(alloc: Global, job: &Job, wanted: &[&[Body]]) -> Result<bool, AllocError> {
    for (link, list) in wanted.iter().enumerate() {
        if !is_list(&list_of_link(alloc, job, link)?, *list) {
            return Ok(false);
        }
    }
    Ok(true)
}

/// Whether the scripts of the sites have these items, and what is no site has none.
fn has_items(alloc: Global, job: &Job, wanted: &[ScriptItem]) -> Result<bool, AllocError> {
    for item in wanted {
        if !has_item(alloc, job, item)? {
            return Ok(false);
        }
    }
    Ok(script_of(alloc, job, 2)?.is_empty())
}

/// Whether the sites have done so much after each of these turns.
fn reaches_all(alloc: Global, job: &Job, wanted: &[Reached]) -> Result<bool, AllocError> {
    for (turns, times, dones) in wanted {
        if !is_reached(alloc, job, turns, *times, dones)? {
            return Ok(false);
        }
    }
    Ok(true)
}

/// Whether the plain programs say so.
fn is_counted(alloc: Global, job: &Job, counted: &Counted) -> Result<bool, AllocError> {
    Ok(
        has_marks(alloc, job, counted.marks)?
            && has_lists(alloc, job, counted.lists)?
            && has_items(alloc, job, counted.items)?
            && reaches_all(alloc, job, counted.worlds)?,
    )
}

const TWO_SITES: &str = "sites = [\"A\", \"B\"]\ncapacity = 1\n[place]\na = \"A\"\nb = \"B\"\n";

/// Whether they say so of a program at two sites.
fn is_counted_at_two(alloc: Global, counted: &Counted) -> bool {
    match job_of_texts(alloc, counted.program, TWO_SITES, "\n\n\n\n") {
        Some(job) => is_counted(alloc, &job, counted).unwrap_or(false),
        None => false,
    }
}

/// Whether they say so of both programs.
pub fn are_all_counted(alloc: Global) -> bool {
    for counted in COUNTED {
        if !is_counted_at_two(alloc, counted) {
            return false;
        }
    }
    true
}

/// Whether the first of two sites has the column of the input over both instants, and the second has none.
fn are_given(own: &SiteInputs, other: &SiteInputs) -> bool {
    let data = [
        own.given(0, 0),
        own.given(0, 1),
        own.given(0, 2),
        other.given(0, 0),
    ];
    data == [Some(Datum::Int(5)), Some(Datum::Int(7)), None, None]
        && (own.site(), other.site()) == (0, 1)
        && (own.instants(), other.instants()) == (2, 2)
}

/// Whether two sites are handed that, and the second needs the input.
fn is_handed(alloc: Global, job: &Job) -> Result<bool, AllocError> {
    if job.plan().sites().len() != 2 {
        return Ok(false);
    }
    let needs = job.plan().needs(0).is_empty() && job.plan().needs(1) == [0].as_slice();
    let own = job.inputs_at(alloc, 0)?;
    let other = job.inputs_at(alloc, 1)?;
    Ok(needs && are_given(&own, &other))
}

/// Whether two sites are handed their inputs, of which the second computes a copy.
pub fn is_copy_handed(alloc: Global) -> bool {
    let program = "node main(x: int) returns (y: int); let y = x; tel";
    let place = "sites = [\"A\", \"B\"]\n[place]\nx = \"A\"\ny = \"B\"\n";
    match job_of_texts(alloc, program, place, "x\n5\n7\n") {
        Some(job) => is_handed(alloc, &job).unwrap_or(false),
        None => false,
    }
}
