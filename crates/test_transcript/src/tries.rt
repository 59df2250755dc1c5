//! An example by many schedules at several capacities, and by several crews: each has to end as its
//! evaluation does.

use crate::folder::NoFile;
use lusdist_answers::serve;
use lusdist_shell::{Files, ReadError, Silent, Sink, text_of};
use std::alloc::{AllocError, Global};
use std::io;
use std::io::Write;
use std::rt::Clock;
use std::sync::Wait;
use std::thread::Threads;

/// How many messages a link may hold.
const CAPACITIES: &[u16] = &[1, 2, 16];

/// Who serves the sites of a run.
const CREWS: &[&str] = &[
    "",
    " --workers auto",
    " --workers 1",
    " --workers 2",
    " --workers 3",
    " --workers 16",
];

/// How many turns a schedule has before the sites that can move are taken in order.
const TURNS: u32 = 600;

/// The files of an example, with another capacity and another schedule.
#[derive(Drop)]
struct Tried<'a, F> {
    files: &'a F,
    place: String,
    schedule: String,
}

impl<F: Files> Files for Tried<'_, F> {
    ghost gives = { λ _ _ _. Unit {0} };

    fn read(&self, alloc: Global, path: &str) -> Result<Vec<u8>, ReadError> {
        let text = match path {
            "place" => &self.place,
            "schedule" => &self.schedule,
            _ => return self.files.read(alloc, path),
        };
        Vec::from_slice(alloc, text.as_bytes()).map_err(|_| ReadError::OutOfMemory)
    }
}

/// The words of a command.
pub fn words_of(alloc: Global, line: &str) -> Result<Vec<String>, AllocError> {
    let mut words = Vec::new(alloc);
    for word in line.split_whitespace() {
        words.push(String::from_str(alloc, word)?)?;
    }
    Ok(words)
}

/// What a command prints; nothing where it isn't done.
fn printed<R: Threads + Wait + Clock + Sync, F: Files>(
    threads: &R,
    alloc: Global,
    files: &F,
    line: &str,
) -> Result<String, AllocError> {
    let words = words_of(alloc, line)?;
    let mut out = Sink::new(Vec::new(alloc));
    let mut err = Sink::new(Vec::new(alloc));
    let status = serve(
        threads,
        alloc,
        &words,
        files,
        &mut NoFile,
        &Silent,
        &mut out,
        &mut err,
    );
    if status != 0 {
        return Ok(String::new(alloc));
    }
    String::from_str(alloc, text_of(out.writer()).unwrap_or(""))
}

/// The text of a file.
pub fn text_in<F: Files>(alloc: Global, files: &F, path: &str) -> Result<String, AllocError> {
    let Ok(bytes) = files.read(alloc, path) else {
        return Ok(String::new(alloc));
    };
    String::from_str(alloc, text_of(&bytes).unwrap_or(""))
}

/// Adds the line of a replay that reports the output of a column.
fn push_output(text: &mut String, table: &str, column: usize) -> Result<(), AllocError> {
    text.push_str("output")?;
    for line in table.lines() {
        text.push(' ')?;
        text.push_str(line.split(',').nth(column).unwrap_or(""))?;
    }
    text.push('\n')
}

/// The lines of a replay that report the outputs of this table, all of them whole.
fn output_lines(alloc: Global, table: &str) -> Result<String, AllocError> {
    let mut text = String::new(alloc);
    let columns = table.lines().next().unwrap_or("").split(',').count();
    for column in 0..columns {
        push_output(&mut text, table, column)?;
    }
    Ok(text)
}

/// A placement with another capacity.
fn with_capacity(alloc: Global, place: &str, capacity: u16) -> Result<String, AllocError> {
    let mut text = String::new(alloc);
    write!(text, "capacity = {capacity}\n")?;
    for line in place.lines().filter(|line| !line.starts_with("capacity")) {
        text.push_str(line)?;
        text.push('\n')?;
    }
    Ok(text)
}

/// A random schedule: s becomes (s * 1103515245 + 12345) mod 2^31, and the next site is s div 65536, mod 4.
fn schedule_of(alloc: Global, seed: u32) -> Result<String, AllocError> {
    let mut text = String::new(alloc);
    let mut state = seed;
    for _ in 0..TURNS {
        state = state.wrapping_mul(1_103_515_245).wrapping_add(12_345) & 0x7fff_ffff;
        write!(text, "{:x}", state / 65_536 % 4)?;
    }
    Ok(text)
}

/// Whether all sites of a replay have ended, and its outputs are these.
fn is_whole(replay: &str, outputs: &str) -> bool {
    !replay.is_empty()
        && replay.ends_with(outputs)
        && replay
            .lines()
            .filter(|line| line.starts_with("site "))
            .all(|line| line.ends_with(" ended"))
}

/// Whether a replay by the schedule of a seed ends whole, with these outputs.
fn is_kept<R: Threads + Wait + Clock + Sync, F: Files>(
    threads: &R,
    alloc: Global,
    tried: &mut Tried<'_, F>,
    line: &str,
    outputs: &str,
    seed: u32,
) -> Result<bool, AllocError> {
    tried.schedule = schedule_of(alloc, seed)?;
    let replay = printed(threads, alloc, tried, line)?;
    Ok(is_whole(replay.as_str(), outputs))
}

/// How many of so many schedules end so, by the line of a replay.
fn replays_kept<R: Threads + Wait + Clock + Sync, F: Files>(
    threads: &R,
    alloc: Global,
    tried: &mut Tried<'_, F>,
    line: &str,
    outputs: &str,
    count: u32,
) -> Result<u32, AllocError> {
    let mut kept = 0_u32;
    for seed in 0..count {
        let is_kept = is_kept(threads, alloc, tried, line, outputs, seed)?;
        kept = kept.saturating_add(u32::from(is_kept));
    }
    Ok(kept)
}

/// How many random schedules keep the outputs of an example with this table, at the capacity that the files
/// have.
fn schedules_kept<R: Threads + Wait + Clock + Sync, F: Files>(
    threads: &R,
    alloc: Global,
    tried: &mut Tried<'_, F>,
    name: &str,
    table: &str,
    count: u32,
) -> Result<u32, AllocError> {
    let outputs = output_lines(alloc, table)?;
    let line = format!(in alloc;
        "lusdist replay {name}/program.lus place {name}/table.csv schedule --finish"
    )?;
    replays_kept(
        threads,
        alloc,
        tried,
        line.as_str(),
        outputs.as_str(),
        count,
    )
}

/// Whether a crew prints this table, at the capacity that the files have.
fn is_kept_by<R: Threads + Wait + Clock + Sync, F: Files>(
    threads: &R,
    alloc: Global,
    tried: &Tried<'_, F>,
    name: &str,
    table: &str,
    crew: &str,
) -> Result<bool, AllocError> {
    let line = format!(in alloc; "lusdist run {name}/program.lus place {name}/table.csv{crew}")?;
    let found = printed(threads, alloc, tried, line.as_str())?;
    Ok(!table.is_empty() && found.as_str() == table)
}

/// How many of the crews print it.
fn crews_kept<R: Threads + Wait + Clock + Sync, F: Files>(
    threads: &R,
    alloc: Global,
    tried: &Tried<'_, F>,
    name: &str,
    table: &str,
) -> Result<u32, AllocError> {
    let mut kept = 0_u32;
    for crew in CREWS {
        let is_kept = is_kept_by(threads, alloc, tried, name, table, crew)?;
        kept = kept.saturating_add(u32::from(is_kept));
    }
    Ok(kept)
}

/// The table of an example's outputs, by its evaluation.
fn table_of<R: Threads + Wait + Clock + Sync, F: Files>(
    threads: &R,
    alloc: Global,
    files: &F,
    name: &str,
) -> Result<String, AllocError> {
    let line = format!(in alloc; "lusdist eval {name}/program.lus {name}/table.csv")?;
    printed(threads, alloc, files, line.as_str())
}

/// The placement of an example.
fn place_of<F: Files>(alloc: Global, files: &F, name: &str) -> Result<String, AllocError> {
    let path = format!(in alloc; "{name}/placement.toml")?;
    text_in(alloc, files, path.as_str())
}

/// Writes how many of so many schedules of an example, and of its crews, give this table, at a capacity.
fn put_kept<R: Threads + Wait + Clock + Sync, F: Files>(
    threads: &R,
    rt: &HostRuntime,
    tried: &mut Tried<'_, F>,
    name: &str,
    table: &str,
    capacity: u16,
    count: u32,
) -> io::Result<()> {
    let schedules = schedules_kept(threads, rt.alloc(), tried, name, table, count)?;
    let crews = crews_kept(threads, rt.alloc(), tried, name, table)?;
    println!(rt; "= capacity {capacity}: {schedules} schedules, {crews} crews")
}

/// Writes that at each capacity, by the table and the placement.
fn put_each<R: Threads + Wait + Clock + Sync, F: Files>(
    threads: &R,
    rt: &HostRuntime,
    files: &F,
    name: &str,
    table: &str,
    place: &str,
    count: u32,
) -> io::Result<()> {
    for capacity in CAPACITIES {
        let mut tried = Tried {
            files,
            place: with_capacity(rt.alloc(), place, *capacity)?,
            schedule: String::new(rt.alloc()),
        };
        put_kept(threads, rt, &mut tried, name, table, *capacity, count)?;
    }
    Ok(())
}

/// Writes how many of so many schedules of an example, and of its crews, end as its evaluation does, at each
/// capacity.
pub fn put_tried<R: Threads + Wait + Clock + Sync, F: Files>(
    threads: &R,
    rt: &HostRuntime,
    files: &F,
    name: &str,
    count: u32,
) -> io::Result<()> {
    let table = table_of(threads, rt.alloc(), files, name)?;
    let place = place_of(rt.alloc(), files, name)?;
    put_each(
        threads,
        rt,
        files,
        name,
        table.as_str(),
        place.as_str(),
        count,
    )
}
