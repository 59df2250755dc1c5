//! The schedule: whose turn it is, turn by turn.

ghost use Rattle.std.specs.Prelude.{◌≡◌, ◌⊎◌, ◌<◌, MatchResult, IfOk, All, ℕ};
ghost use Rattle.lubase.specs.Limits.{most_sites};
ghost use Rattle.lusdist_shell.specs.Schedule.{turn_of, is_turn, is_blank};
ghost use Rattle.lusdist_shell.specs.ScheduleText.{schedule_of};

use lubase::limits::LONGEST_SCHEDULE;
use std::alloc::Global;
use std::fmt;
use thiserror::Error;

/// Why a schedule is refused. What it displays is the line that the program prints, with no line feed.
#[derive(Clone, Copy, Debug, PartialEq, Eq, Error)]
pub enum ScheduleError {
    /// The byte at this place, counted from 0, is no turn, no space and no line feed.
    BadSchedule { byte: usize },
    /// The text has more than 67,108,864 bytes.
    LongSchedule,
    /// Memory ran out, which says nothing of the schedule.
    OutOfMemory,
}

impl fmt::Display for ScheduleError {
    ghost use Rattle.std.specs.Prelude.{Some};
    ghost use Rattle.lusdist_shell.specs.Lines.{line_of};

    ghost output = { λ e. Some (line_of e) };

    fn fmt<W: fmt::Write>(&self, f: &mut fmt::Formatter<W>) -> fmt::Result {
        match self {
            ScheduleError::BadSchedule { byte } => write!(f, "S01 BadSchedule at {byte}"),
            ScheduleError::LongSchedule => f.write_str("S02 LongSchedule"),
            ScheduleError::OutOfMemory => f.write_str("R2 OutOfMemory"),
        }
    }
}

/// The site whose turn a letter is: `0` to `9` and `a` to `f` stand for the sites 0 to 15.
fn turn_of(letter: u8) -> Option<u8>
    ensures { result ≡ turn_of letter }
{
    match letter {
        b'0'..=b'9' => Some(letter - b'0'),
        b'a'..=b'f' => Some(letter - b'a' + 10),
        _ => None,
    }
}

fn is_blank(letter: u8) -> bool
    ensures { result ≡ is_blank letter }
{
    letter == b' ' || letter == b'\n'
}

/// Reads the text of a schedule into the sites whose turns they are, in order. It makes one growth, of at
/// most as many bytes as the text has.
pub fn read_schedule(alloc: Global, text: &[u8]) -> Result<Vec<u8>, ScheduleError>
    ensures exact { MatchResult result
        (λ turns. schedule_of text.now ≡ Ok turns.items)
        (λ e. (e ≡ ScheduleError.OutOfMemory) ⊎ (schedule_of text.now ≡ Err e)) }
    ensures sites { IfOk result (λ turns. All (λ site. site < most_sites) turns.items) }
{
    if text.len() > LONGEST_SCHEDULE {
        return Err(ScheduleError::LongSchedule);
    }
    let Ok(mut turns) = Vec::with_capacity(alloc, text.len()) else {
        return Err(ScheduleError::OutOfMemory);
    };
    for (byte, letter) in text.iter().enumerate() {
        match turn_of(*letter) {
            Some(site) => turns.push_reserved(site),
            None if is_blank(*letter) => {}
            None => return Err(ScheduleError::BadSchedule { byte }),
        }
    }
    Ok(turns)
}
