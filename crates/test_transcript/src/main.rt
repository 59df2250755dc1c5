//! What the program answers to whole commands, what is printed of texts, what links pass, and what jobs on
//! threads and by crews come to. The input is a transcript of cases with no answers in it, and the output is
//! the same transcript with what each of them answers; README.md and LINES.md have the forms of its lines.
#![tactic(auto)]

mod barrier;
mod blocks;
mod counters;
mod driven;
mod folder;
mod gates;
mod jobs;
mod lines;
mod links;
mod meeting;
mod paper;
mod parties;
mod printing;
mod runs;
mod schedules;
mod tries;
mod whole;
mod worlds;

use crate::folder::Folder;
use crate::lines::put_line;
use crate::meeting::{Meeting, put_meeting};
use crate::paper::Paper;
use crate::printing::put_printed;
use crate::tries::{put_tried, words_of};
use lusdist_answers::serve;
use lusdist_shell::{Dump, Files, Progress, ReadError, RealFiles, Silent, Sink};
use std::alloc::{AllocError, Global};
use std::io;
use std::io::Write;
use std::rt::Clock;
use std::sync::Wait;
use std::thread::Threads;

/// The longest output that is written whole, in bytes.
const LONGEST: usize = 65_536;

/// The name of a file that finds no memory.
const NO_MEMORY: &str = "no_memory";

/// The files of a case: the newest text of a name, or else a real file.
#[derive(Drop)]
struct Case<'a> {
    texts: Vec<(String, Vec<u8>)>,
    real: RealFiles<'a, HostRuntime>,
}

impl Files for Case<'_> {
    ghost gives = { λ _ _ _. Unit {0} };

    fn read(&self, alloc: Global, path: &str) -> Result<Vec<u8>, ReadError> {
        match self.texts.iter().rev().find(|file| file.0.as_str() == path) {
            Some(file) => Vec::from_slice(alloc, &file.1).map_err(|_| ReadError::OutOfMemory),
            None if path == NO_MEMORY => Err(ReadError::OutOfMemory),
            None => self.real.read(alloc, path),
        }
    }
}

/// Adds what stands behind a backslash: a line feed for `n`, or the byte of two hexadecimal digits, and then
/// the rest.
fn push_escaped(bytes: &mut Vec<u8>, part: &str) -> Result<(), AllocError> {
    if let Some(rest) = part.strip_prefix('n') {
        bytes.push(b'\n')?;
        return bytes.extend_from_slice(rest.as_bytes());
    }
    if let Some((digits, rest)) = part.split_at_checked(2) {
        bytes.push(u8::from_str_radix(digits, 16).unwrap_or(b'?'))?;
        bytes.extend_from_slice(rest.as_bytes())?;
    }
    Ok(())
}

/// The bytes of a text.
fn bytes_of(alloc: Global, text: &str) -> Result<Vec<u8>, AllocError> {
    let mut bytes = Vec::new(alloc);
    for (number, part) in text.split('\\').enumerate() {
        if number == 0 {
            bytes.extend_from_slice(part.as_bytes())?;
        } else {
            push_escaped(&mut bytes, part)?;
        }
    }
    Ok(bytes)
}

/// A new file of this name and text.
fn add_file(alloc: Global, case: &mut Case<'_>, name: &str, text: &str) -> Result<(), AllocError> {
    let bytes = bytes_of(alloc, text)?;
    Ok(case.texts.push((String::from_str(alloc, name)?, bytes))?)
}

/// The text so many times more, at the end of the newest file.
fn add_more(
    alloc: Global,
    case: &mut Case<'_>,
    times: usize,
    text: &str,
) -> Result<(), AllocError> {
    let bytes = bytes_of(alloc, text)?;
    if let Some(file) = case.texts.last_mut() {
        for _ in 0..times {
            file.1.extend_from_slice(&bytes)?;
        }
    }
    Ok(())
}

/// Writes an output: whole, or how long it is and how it ends.
fn put_output(rt: &HostRuntime, out: &[u8]) -> io::Result<()> {
    if out.len() <= LONGEST {
        return rt.stdout().write_all(out);
    }
    println!(rt; "{} bytes, the last ten of which are", out.len())?;
    rt.stdout().write_all(&out[out.len() - 10..])
}

/// Writes a file, a line behind each `> `, the path first.
fn put_file(rt: &HostRuntime, path: &str, text: &str) -> io::Result<()> {
    println!(rt; "> {path}")?;
    for line in text.lines() {
        println!(rt; "> {line}")?;
    }
    Ok(())
}

/// Writes the files that were written in memory, one after the other.
fn put_written(rt: &HostRuntime, dumps: &[Dump]) -> io::Result<()> {
    for dump in dumps {
        if dump.whole && !dump.path.as_str().contains('/') {
            put_file(rt, dump.path.as_str(), dump.text.as_str())?;
        }
    }
    Ok(())
}

/// Writes an output, what was written into files, behind `! ` what went to the error stream, and behind `= `
/// a status.
fn put_reported(
    rt: &HostRuntime,
    dumps: &[Dump],
    out: &[u8],
    err: &[u8],
    status: u8,
) -> io::Result<()> {
    put_output(rt, out)?;
    put_written(rt, dumps)?;
    if !err.is_empty() {
        print!(rt; "! ")?;
        rt.stdout().write_all(err)?;
    }
    println!(rt; "= {status}")
}

/// Writes what a command answers: its output, behind `! ` what went to the error stream, and behind `= ` its
/// status. Where `is_full` says so, its output takes nothing.
fn put_answer<R: Threads + Wait + Clock + Sync, P: Progress>(
    threads: &R,
    rt: &HostRuntime,
    case: &Case<'_>,
    line: &str,
    is_full: bool,
    progress: &P,
) -> io::Result<()> {
    let words = words_of(rt.alloc(), line)?;
    let mut out = Sink::new(Paper::new(rt.alloc(), is_full));
    let mut err = Sink::new(Vec::new(rt.alloc()));
    let mut folder = Folder {
        runtime: rt,
        written: Vec::new(rt.alloc()),
    };
    let status = serve(
        threads,
        rt.alloc(),
        &words,
        case,
        &mut folder,
        progress,
        &mut out,
        &mut err,
    );
    put_reported(
        rt,
        &folder.written,
        out.writer().bytes(),
        err.writer(),
        status,
    )
}

/// Writes what a command answers, and whether the threads of two of its sites met in its progress.
fn put_met<R: Threads + Wait + Clock + Sync>(
    threads: &R,
    rt: &HostRuntime,
    case: &Case<'_>,
    line: &str,
) -> io::Result<()> {
    let meeting = Meeting::new();
    put_answer(threads, rt, case, line, false, &meeting)?;
    put_meeting(rt, &meeting)
}

/// Does what a line says.
fn take_line<R: Threads + Wait + Sync + Clock + Print>(
    threads: &R,
    rt: &HostRuntime,
    case: &mut Case<'_>,
    line: &str,
) -> io::Result<()> {
    let (mark, rest) = line.split_once(' ').unwrap_or((line, ""));
    let (name, text) = rest.split_once(' ').unwrap_or((rest, ""));
    match mark {
        "#" => {
            case.texts.clear();
            Ok(())
        }
        "file" => Ok(add_file(rt.alloc(), case, name, text)?),
        "more" => Ok(add_more(rt.alloc(), case, name.parse().unwrap_or(0), text)?),
        "$" | "%" => put_answer(threads, rt, case, rest, mark == "%", &Silent),
        "^" => put_met(threads, rt, case, rest),
        "@" => put_tried(threads, rt, case, text, name.parse().unwrap_or(0)),
        "~" => put_printed(rt, case, rest),
        "&" => put_line(threads, rt, case, rest),
        _ => Ok(()),
    }
}

/// Writes a line, and does what it says.
fn answer_line<R: Threads + Wait + Sync + Clock + Print>(
    threads: &R,
    rt: &HostRuntime,
    case: &mut Case<'_>,
    line: &str,
) -> io::Result<()> {
    println!(rt; "{line}")?;
    take_line(threads, rt, case, line)
}

fn main(rt: HostRuntime) -> io::Result<()> {
    let mut case = Case {
        texts: Vec::new(rt.alloc()),
        real: RealFiles::new(&rt),
    };
    for line in rt.lines(rt.alloc()) {
        answer_line(&rt, &rt, &mut case, line?.as_str())?;
    }
    Ok(())
}
