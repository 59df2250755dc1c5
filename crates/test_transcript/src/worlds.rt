//! What worlds have left.

use crate::lines::word;
use luplace::Job;
use lusdist_answers::{CallError, replayed};
use luweave::World;
use std::alloc::{AllocError, Global};
use std::io;

/// The turns of a word: a digit is the number of a site.
fn turns_of(alloc: Global, digits: &str) -> Result<Vec<u8>, AllocError> {
    let mut turns = Vec::new(alloc);
    for digit in digits.as_bytes() {
        turns.push(digit.wrapping_sub(b'0'))?;
    }
    Ok(turns)
}

/// A job's world after these turns.
fn world_after(alloc: Global, job: &Job, digits: &str) -> Result<World, CallError> {
    let turns = turns_of(alloc, digits)?;
    replayed(alloc, job, &turns, false)
}

/// Gives the turn of the site that `enabled` tells, until it tells none, a thousand times at most; how often.
fn move_all(world: &mut World) -> u32 {
    for moves in 0..1_000 {
        match world.enabled() {
            Some(site) => {
                world.turn(site);
            }
            None => return moves,
        }
    }
    1_000
}

/// Writes what is left of a world, and which site can move.
fn put_state(rt: &HostRuntime, world: &World) -> io::Result<()> {
    let left = world.left();
    match world.enabled() {
        Some(site) => println!(rt; "= {left} left, site {site} can move"),
        None if world.ended() => println!(rt; "= {left} left, ended"),
        None => println!(rt; "= {left} left, no site can move"),
    }
}

/// Writes how many turns move a new world to its end, and what is left of it then.
fn put_moved(rt: &HostRuntime, world: &mut World) -> io::Result<()> {
    let moves = move_all(world);
    println!(rt; "= {moves} turns")?;
    put_state(rt, world)
}

/// Writes what a world has left: after the turns of the line's last word, or, where that is `finish`, when no
/// turn moves.
pub fn put_left(rt: &HostRuntime, job: &Job, line: &str) -> io::Result<()> {
    let last = word(line, 4);
    let turns = if last == "finish" { "" } else { last };
    match world_after(rt.alloc(), job, turns) {
        Ok(mut world) => {
            if last == "finish" {
                put_moved(rt, &mut world)
            } else {
                put_state(rt, &world)
            }
        }
        Err(_) => println!(rt; "! no memory"),
    }
}
