//! The receiving ends of a site in rows: messages come into the rows of taken flows. Nothing here waits.

ghost use Rattle.std.specs.Prelude.{◌≡◌, true};
ghost use Rattle.luworld.specs.Turns.{IfGoes};
ghost use Rattle.lublock_site.specs.Steps.{HasTakenMessages};
ghost use Rattle.lublock_site.specs.Stations.{HasBrought, IsLater};

use crate::steps::write_messages;
use crate::turns::moved_if;
use lublock::Board;
use lublock_kernels::forms::kind_at;
use lublock_kernels::span::Span;
use luflow::{Body, Flat, Msg};
use lulink::Rx;
use luworld::Turn;

/// The receiving end of a link, the flow that it brings, and how many of its ticks in the block it has
/// brought.
#[derive(Drop)]
pub struct Source {
    pub rx: Rx,
    pub flow: usize,
    pub got: usize,
    /// Whether it has taken the close.
    pub closed: bool,
}

/// Puts the data of messages behind the words of flow i, in order. False where there is no room, where one
/// isn't of the flow's type, or is the close.
pub fn take_messages(flat: &Flat, board: &mut Board, i: usize, msgs: &[Msg]) -> bool
    ensures { result ≡ true → HasTakenMessages flat.now i msgs.now board.old board.new }
{
    let Some(kind) = kind_at(flat, i) else {
        return false;
    };
    if board.spans.len() <= i || board.rows.len() <= i {
        return false;
    }
    let span = board.spans[i];
    let room = board.rows[i].len();
    if room <= span.upto || room - 1 - span.upto < msgs.len() {
        return false;
    }
    if !write_messages(kind, &mut board.rows[i], span.upto, msgs) {
        return false;
    }
    board.spans[i] = Span {
        ticks: span.ticks,
        upto: span.upto + msgs.len(),
        was: span.was,
        known: span.known,
        supposed: span.supposed,
        taken: span.taken,
    };
    true
}

/// Takes the next messages of a link into the row of its flow, as many as are there, at most so many, and no
/// more than one run.
fn poll_some(
    flat: &Flat,
    board: &mut Board,
    source: &mut Source,
    run: &mut Vec<Msg>,
    most: usize,
) -> Turn
    ensures { IfGoes result
        (HasBrought flat.now source.old.flow board.old source.old board.new source.new) }
{
    run.clear();
    let came = source.rx.poll_run(most.min(run.capacity()), run);
    let Some(got) = source.got.checked_add(came) else {
        return Turn::Over;
    };
    if !take_messages(flat, board, source.flow, run.as_slice()) {
        return Turn::Over;
    }
    source.got = got;
    moved_if(came != 0)
}

/// Takes the next messages of a link into the row of its flow, at most so many. It is over where the sender
/// has left and nothing is left to take.
fn take_some(
    flat: &Flat,
    board: &mut Board,
    source: &mut Source,
    run: &mut Vec<Msg>,
    most: usize,
) -> Turn
    ensures { IfGoes result
        (HasBrought flat.now source.old.flow board.old source.old board.new source.new) }
{
    match poll_some(flat, board, source, run, most) {
        Turn::Moved => Turn::Moved,
        Turn::Over => Turn::Over,
        Turn::Blocked => {
            if !source.rx.gone() {
                return Turn::Blocked;
            }
            match poll_some(flat, board, source, run, most) {
                Turn::Moved => Turn::Moved,
                Turn::Blocked | Turn::Over => Turn::Over,
            }
        }
    }
}

/// Takes messages into the row of a link's flow until it has brought so many ticks, or the link is empty.
pub fn take_all(
    flat: &Flat,
    board: &mut Board,
    source: &mut Source,
    run: &mut Vec<Msg>,
    ticks: usize,
) -> Turn
    ensures { IfGoes result
        (HasBrought flat.now source.old.flow board.old source.old board.new source.new) }
{
    for _n in source.got..ticks {
        if source.got >= ticks {
            return Turn::Moved;
        }
        match take_some(flat, board, source, run, ticks - source.got) {
            Turn::Moved => {}
            Turn::Blocked => return Turn::Blocked,
            Turn::Over => return Turn::Over,
        }
    }
    Turn::Moved
}

/// Takes the close of a link, if it is there.
fn poll_close(source: &mut Source) -> Turn
    ensures { IfGoes result (IsLater source.old source.new) }
{
    match source.rx.poll() {
        None => Turn::Blocked,
        Some(msg) => match msg.body {
            Body::Close => {
                source.closed = true;
                Turn::Moved
            }
            Body::Value(_) => Turn::Over,
        },
    }
}

/// Takes the close of a link, if it is there. It is over where another message is there, or the sender has
/// left and nothing is left to take.
pub fn take_close(source: &mut Source) -> Turn
    ensures { IfGoes result (IsLater source.old source.new) }
{
    match poll_close(source) {
        Turn::Moved => Turn::Moved,
        Turn::Over => Turn::Over,
        Turn::Blocked => {
            if !source.rx.gone() {
                return Turn::Blocked;
            }
            match poll_close(source) {
                Turn::Moved => Turn::Moved,
                Turn::Blocked | Turn::Over => Turn::Over,
            }
        }
    }
}
