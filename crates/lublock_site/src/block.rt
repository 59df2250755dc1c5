//! The end of a site's block.

ghost use Rattle.std.specs.Prelude.{◌≡◌, ◌≤◌, ◌+◌, ℕ, true, false};
ghost use Rattle.lublock_site.specs.Marks.{marked};
ghost use Rattle.lublock_site.specs.Blocks.{AreAllSure, AreOutletsBegun, AreSourcesBegun, HaveBrought, HaveSent};
ghost use Rattle.lublock_site.specs.Going.{IsGoing, IsSameRun, IsWholeSite};
ghost use Rattle.luworld.specs.Turns.{IfGoes};

use crate::outlets::Outlet;
use crate::parts::is_marked;
use crate::site::{RowSite, ticks_at};
use crate::sources::Source;
use lublock::{clear_others, show_part};
use lublock_kernels::span::Span;
use luworld::Turn;

/// Whether of so many flows all that are computed or taken here are sure.
fn are_all_sure(own: &[bool], taken: &[bool], sure: &[bool], count: usize) -> bool
    ensures { result ≡ true → AreAllSure count own.now taken.now sure.now }
{
    for i in 0..count {
        if (is_marked(own, i) || is_marked(taken, i)) && !is_marked(sure, i) {
            return false;
        }
    }
    true
}

/// Whether each receiving end has brought all ticks of its flow.
fn have_brought(sources: &[Source], spans: &[Span]) -> bool
    ensures { result ≡ true → HaveBrought spans.now sources.now }
{
    for k in 0..sources.len() {
        if sources[k].got != ticks_at(spans, sources[k].flow) {
            return false;
        }
    }
    true
}

/// Whether each sending end has sent all ticks of its flow.
fn have_sent(outlets: &[Outlet], spans: &[Span]) -> bool
    ensures { result ≡ true → HaveSent spans.now outlets.now }
{
    for k in 0..outlets.len() {
        if outlets[k].sent != ticks_at(spans, outlets[k].flow) {
            return false;
        }
    }
    true
}

fn begin_source(source: &mut Source)
    ensures { source.new ≡ record source.old { got = 0 } }
{
    source.got = 0;
}

fn begin_outlet(outlet: &mut Outlet)
    ensures { outlet.new ≡ record outlet.old { sent = 0 } }
{
    outlet.sent = 0;
}

/// The receiving ends begin a block.
fn begin_sources(sources: &mut Vec<Source>)
    ensures { AreSourcesBegun sources.old.items sources.new.items }
{
    for k in 0..sources.len() {
        begin_source(&mut sources[k]);
    }
}

/// The sending ends begin a block.
fn begin_outlets(outlets: &mut Vec<Outlet>)
    ensures { AreOutletsBegun outlets.old.items outlets.new.items }
{
    for k in 0..outlets.len() {
        begin_outlet(&mut outlets[k]);
    }
}

/// Takes all marks away.
fn clear(marks: &mut Vec<bool>)
    ensures { (i : ℕ) → marked marks.new.items i ≡ false }
{
    for k in 0..marks.len() {
        marks[k] = false;
    }
}

/// How many instants a block has that begins with instant `t`, of so many in all; at most `most`.
pub fn next_len(instants: usize, t: usize, most: usize) -> usize
    requires { t ≤ instants }
    ensures { t + result ≤ instants }
{
    (instants - t).min(most)
}

impl RowSite {
    /// Whether the block is whole: all is found, and all ticks of the links were passed.
    fn is_whole(&self) -> bool
        ensures { result ≡ true → IsWholeSite self.now }
    {
        let frame = &self.frame;
        let spans = self.board.spans.as_slice();
        let count = frame.code.flat.flows().len();
        are_all_sure(
            frame.code.marks.own.as_slice(),
            frame.code.marks.taken.as_slice(),
            self.sure.as_slice(),
            count,
        ) && have_brought(self.sources.as_slice(), spans)
            && have_sent(self.outlets.as_slice(), spans)
    }

    /// Ends the block: keeps what it has of the outputs, and begins the next one.
    pub fn end_block(&mut self) -> Turn
        requires { IsGoing self.old }
        ensures going { IfGoes result (IsGoing self.new) }
        ensures same { IsSameRun self.old self.new }
    {
        if !self.is_whole() {
            return Turn::Over;
        }
        let frame = &self.frame;
        let flat = &*frame.code.flat;
        let needs = frame.code.needs.as_slice();
        let board = &self.board;
        let columns = &mut self.columns;
        match show_part(frame.alloc, flat, board, columns, needs, self.t, self.len) {
            Ok(false) => {}
            _ => return Turn::Over,
        }
        clear_others(flat, &mut self.columns);
        self.board.renew(flat);
        begin_sources(&mut self.sources);
        begin_outlets(&mut self.outlets);
        clear(&mut self.sure);
        self.t += self.len;
        self.len = next_len(frame.instants, self.t, frame.code.block);
        self.at = 0;
        Turn::Moved
    }
}
