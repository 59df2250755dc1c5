//! The parts of a sentence, and how each of them is written.

use crate::find::type_at_place;
use crate::place::put_shown;
use crate::sentences;
use crate::spelling::{put_on, put_sign};
use lustat_rules::{ClockRef, PatternRef};
use lusyn_printer::put_expr;
use lutree::{Declaration, DeclaredName, Expr, Kind, Node, Program};
use std::alloc::{AllocError, Global};

/// How many bytes of a text are quoted.
const QUOTED: usize = 60;

/// How many of several names are reported.
const LISTED: usize = 8;

/// What is reported of a clock.
#[derive(Clone, Copy)]
pub(crate) enum ClockWording {
    /// The base clock, or the clock `c`.
    Clock,
    /// The clock in short: `c`, `not c` or `A(c)`.
    Short,
    /// Its pattern.
    Sign,
    /// The branch of a merge on its variable that has its pattern.
    Branch,
}

/// A part of a sentence. What is quoted stands between backticks, and is cut where it is long.
#[derive(Clone, Copy)]
pub(crate) enum Part<'a> {
    /// Words, as they stand.
    Words(&'a str),
    /// A quoted name.
    Name(&'a str),
    /// A name, not quoted.
    Cut(&'a str),
    /// Words with holes for two quoted names.
    Phrase(&'a str, &'a str, &'a str),
    /// That a name that is spelled nearly so may be meant; nothing where there is none.
    Near(Option<&'a str>),
    /// Quoted bytes.
    Bytes(&'a [u8]),
    /// A quoted expression in its canonical form.
    Value(&'a Expr),
    /// A number.
    Number(usize),
    /// A number of things, each called so.
    Count(usize, &'a str),
    /// The name of a type of a program.
    Type(&'a Program, Kind),
    /// A value that a variable of a type may start with.
    Start(&'a Program, Kind),
    /// A clock, and what is reported of it.
    Clock(ClockRef<'a>, ClockWording),
    /// Names with commas between them; of many the first alone, and how many more there are.
    Names(&'a [&'a str]),
    /// The same of the names of an enumeration.
    Labels(&'a [DeclaredName]),
    /// The same of the names of nodes.
    Nodes(&'a [Node]),
    /// The same of the names of variables.
    Variables(&'a [Declaration]),
    /// Names in a circle, and what each does to the next: `a` calls `b`, which calls `c`, which calls `a`. Of
    /// many the first alone.
    Circle(&'a [&'a str], &'a str),
}

/// At most 60 of some bytes, as they are shown.
fn put_bytes(text: &mut String, bytes: &[u8]) -> Result<(), AllocError> {
    match bytes.get(..QUOTED) {
        Some(front) if QUOTED < bytes.len() => {
            put_shown(text, front)?;
            text.push_str("..")
        }
        _ => put_shown(text, bytes),
    }
}

/// At most 60 bytes of a name, as they are shown.
pub(crate) fn put_cut(text: &mut String, name: &str) -> Result<(), AllocError> {
    put_bytes(text, name.as_bytes())
}

/// Bytes between backticks, cut where they are many.
fn put_quoted(text: &mut String, bytes: &[u8]) -> Result<(), AllocError> {
    text.push('`')?;
    put_bytes(text, bytes)?;
    text.push('`')
}

/// Words with quoted names in their holes: the first, and in all others the second.
fn put_phrase<'n>(
    text: &mut String,
    words: &str,
    first: &'n str,
    second: &'n str,
) -> Result<(), AllocError> {
    let mut is_first = true;
    for byte in words.as_bytes() {
        if *byte == b'@' {
            let name = if is_first { first } else { second };
            put_quoted(text, name.as_bytes())?;
            is_first = false;
        } else {
            text.push(*byte as char)?;
        }
    }
    Ok(())
}

/// The name at this place among others; nothing where enough are reported.
fn put_listed(text: &mut String, place: usize, name: &str) -> Result<(), AllocError> {
    if place >= LISTED {
        return Ok(());
    }
    if place > 0 {
        text.push_str(", ")?;
    }
    put_quoted(text, name.as_bytes())
}

/// How many of so many names aren't reported.
fn put_more(text: &mut String, count: usize) -> Result<(), AllocError> {
    if count <= LISTED {
        return Ok(());
    }
    write!(text, " and {} more", count - LISTED)
}

fn put_names(text: &mut String, names: &[&str]) -> Result<(), AllocError> {
    for (place, name) in names.iter().enumerate() {
        put_listed(text, place, *name)?;
    }
    put_more(text, names.len())
}

fn put_labels(text: &mut String, labels: &[DeclaredName]) -> Result<(), AllocError> {
    for (place, label) in labels.iter().enumerate() {
        put_listed(text, place, label.name.as_str())?;
    }
    put_more(text, labels.len())
}

fn put_nodes(text: &mut String, nodes: &[Node]) -> Result<(), AllocError> {
    for (place, node) in nodes.iter().enumerate() {
        put_listed(text, place, node.name.as_str())?;
    }
    put_more(text, nodes.len())
}

fn put_variables(text: &mut String, declared: &[Declaration]) -> Result<(), AllocError> {
    for (place, variable) in declared.iter().enumerate() {
        put_listed(text, place, variable.name.as_str())?;
    }
    put_more(text, declared.len())
}

/// What the name at this place does to the next; nothing where enough are reported.
fn put_step(text: &mut String, place: usize, does: &str, next: &str) -> Result<(), AllocError> {
    if place >= LISTED {
        return Ok(());
    }
    if place > 0 {
        text.push_str(", which")?;
    }
    text.push(' ')?;
    text.push_str(does)?;
    text.push(' ')?;
    put_quoted(text, next.as_bytes())
}

/// What stands before the last step of a circle, by how many steps there are before it.
fn before_last(steps: usize) -> &'static str {
    if steps > LISTED {
        ", and so on to one that"
    } else if steps > 0 {
        ", which"
    } else {
        ""
    }
}

fn put_circle(text: &mut String, names: &[&str], does: &str) -> Result<(), AllocError> {
    let Some((first, others)) = names.split_first() else {
        return Ok(());
    };
    put_quoted(text, first.as_bytes())?;
    for (place, other) in others.iter().enumerate() {
        put_step(text, place, does, *other)?;
    }
    text.push_str(before_last(others.len()))?;
    put_step(text, 0, does, *first)
}

fn put_count(text: &mut String, count: usize, thing: &str) -> Result<(), AllocError> {
    write!(text, "{count} {thing}")?;
    if count == 1 {
        return Ok(());
    }
    text.push('s')
}

/// What a variable is of: a type by its name, or one that isn't declared.
fn put_type(text: &mut String, program: &Program, kind: Kind) -> Result<(), AllocError> {
    match kind {
        Kind::Int => text.push_str("type `int`"),
        Kind::Bool => text.push_str("type `bool`"),
        Kind::Enum(place, count) => match type_at_place(program, place, count) {
            Some(declared) => {
                text.push_str("type ")?;
                put_quoted(text, declared.name.as_str().as_bytes())
            }
            None => text.push_str("a type that isn't declared"),
        },
    }
}

/// A value that a variable of a type may start with: 0, `false`, or the first name of its enumeration.
pub(crate) fn put_start(
    text: &mut String,
    program: &Program,
    kind: Kind,
) -> Result<(), AllocError> {
    match kind {
        Kind::Int => text.push('0'),
        Kind::Bool => text.push_str("false"),
        Kind::Enum(place, count) => match type_at_place(program, place, count) {
            Some(declared) => match declared.names.as_slice() {
                [first, ..] => put_cut(text, first.name.as_str()),
                [] => text.push('0'),
            },
            None => text.push('0'),
        },
    }
}

/// What is reported of the clock with this variable and this pattern.
fn put_on_clock(
    text: &mut String,
    name: &str,
    sign: PatternRef,
    reported: ClockWording,
) -> Result<(), AllocError> {
    match reported {
        ClockWording::Clock => {
            text.push_str("the clock `")?;
            put_on(text, name, sign)?;
            text.push('`')
        }
        ClockWording::Short => put_on(text, name, sign),
        ClockWording::Sign => put_sign(text, sign),
        ClockWording::Branch => put_branch(text, name, sign),
    }
}

fn put_branch(text: &mut String, variable: &str, sign: PatternRef) -> Result<(), AllocError> {
    text.push_str("the branch `")?;
    put_sign(text, sign)?;
    text.push_str("` of the merge on ")?;
    put_quoted(text, variable.as_bytes())
}

/// An expression in its canonical form.
fn put_value(text: &mut String, alloc: Global, e: &Expr) -> Result<(), AllocError> {
    let mut value = String::new(alloc);
    put_expr(&mut value, e)?;
    put_quoted(text, value.as_bytes())
}

/// A part of a sentence that is about one thing or two.
fn put_one(text: &mut String, alloc: Global, part: Part) -> Result<(), AllocError> {
    match part {
        Part::Words(words) => text.push_str(words),
        Part::Name(name) => put_quoted(text, name.as_bytes()),
        Part::Cut(name) => put_cut(text, name),
        Part::Phrase(words, first, second) => put_phrase(text, words, first, second),
        Part::Near(None) => Ok(()),
        Part::Near(Some(name)) => put_phrase(text, sentences::NEAR, name, ""),
        Part::Bytes(bytes) => put_quoted(text, bytes),
        Part::Value(e) => put_value(text, alloc, e),
        Part::Type(program, kind) => put_type(text, program, kind),
        Part::Start(program, kind) => put_start(text, program, kind),
        Part::Clock(ClockRef::Base, _) => text.push_str("the base clock"),
        Part::Clock(ClockRef::On(name, sign), reported) => put_on_clock(text, name, sign, reported),
        _ => Ok(()),
    }
}

/// Adds a part of a sentence.
pub(crate) fn put_part(text: &mut String, alloc: Global, part: Part) -> Result<(), AllocError> {
    match part {
        Part::Number(number) => write!(text, "{number}"),
        Part::Count(count, thing) => put_count(text, count, thing),
        Part::Names(names) => put_names(text, names),
        Part::Labels(labels) => put_labels(text, labels),
        Part::Nodes(nodes) => put_nodes(text, nodes),
        Part::Variables(declared) => put_variables(text, declared),
        Part::Circle(names, does) => put_circle(text, names, does),
        part => put_one(text, alloc, part),
    }
}
