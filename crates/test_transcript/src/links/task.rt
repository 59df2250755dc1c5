//! What a line asks for.

ghost use Rattle.std.specs.Prelude.{◌<◌, IfSome};

/// A form of link, its capacity, a case, over how many instants its job goes, and how often it is done.
#[derive(Clone, Copy, Drop)]
pub struct Task<'l> {
    pub form: &'l str,
    pub capacity: u16,
    pub case: &'l str,
    pub instants: u32,
    pub runs: u32,
}

/// The number that a word spells; 0 for any other word.
fn number(word: Option<&str>) -> u32 {
    match word {
        Some(word) => word.parse().unwrap_or(0),
        None => 0,
    }
}

/// What the line asks for; `None` where its capacity is no number from 1 to 65,535.
pub fn task_of(line: &str) -> Option<Task<'_>>
    ensures { IfSome result (λ task. 0 < task.capacity) }
{
    let mut words = line.split_whitespace();
    let form = words.next()?;
    let capacity = u16::try_from(number(words.next())).ok()?;
    let case = words.next()?;
    let instants = number(words.next());
    let runs = number(words.next());
    if capacity == 0 {
        return None;
    }
    Some(Task {
        form,
        capacity,
        case,
        instants,
        runs,
    })
}
