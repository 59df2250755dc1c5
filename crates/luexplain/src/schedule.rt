//! Schedules: `S01` and `S02`.

ghost use Rattle.std.specs.Prelude.{◌≡◌, IfOk, string_bytes};
ghost use Rattle.luexplain.specs.Explanations.{IsExplanation};
ghost use Rattle.luexplain.specs.Texts as spec;

use crate::bytes::from_byte;
use crate::place::where_in;
use crate::said::{Explanation, Said, reported, say, whole};
use crate::sentences;
use crate::unread::said_of_order;
use crate::words::Part;
use lubase::limits::LONGEST_SCHEDULE;
use lusdist_shell::ScheduleError;
use std::alloc::{AllocError, Global};
use std::slice;

/// What is said of a schedule that is refused.
fn said_of_schedule(alloc: Global, text: &[u8], error: &ScheduleError) -> Result<Said, AllocError> {
    match error {
        ScheduleError::BadSchedule { byte } => {
            let found = match from_byte(text, *byte) {
                [first, ..] => slice::from_ref(first),
                [] => b"?",
            };
            say(alloc, sentences::NO_TURN, &[Part::Bytes(found)])
        }
        ScheduleError::LongSchedule => say(
            alloc,
            sentences::LONG_SCHEDULE,
            &[Part::Number(text.len()), Part::Number(LONGEST_SCHEDULE)],
        ),
        ScheduleError::OutOfMemory => say(alloc, sentences::OUT_OF_MEMORY, &[]),
    }
}

/// Where a schedule is refused.
fn place_of_schedule(
    alloc: Global,
    path: &str,
    text: &[u8],
    error: &ScheduleError,
) -> Result<String, AllocError>
    ensures { IfOk result (λ reported. string_bytes reported
        ≡ spec.place_of_schedule path.now text.now error.now) }
{
    match error {
        ScheduleError::BadSchedule { byte } => where_in(alloc, path, text, *byte),
        ScheduleError::LongSchedule | ScheduleError::OutOfMemory => whole(alloc, path),
    }
}

/// What a user reads about a schedule that is refused: its place, what is wrong, and how to mend it. `text`
/// is the text of the file of this path.
///
/// # Errors
///
/// An error means that memory ran out.
pub fn of_schedule(
    alloc: Global,
    path: &str,
    text: &[u8],
    error: &ScheduleError,
) -> Result<Explanation, AllocError>
    ensures { IfOk result (IsExplanation (spec.place_of_schedule path.now text.now error.now)) }
{
    let said = match said_of_order(alloc, path, "SCHEDULE")? {
        Some(said) => said,
        None => said_of_schedule(alloc, text, error)?,
    };
    Ok(reported(place_of_schedule(alloc, path, text, error)?, said))
}
