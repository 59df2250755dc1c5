//! What the turns of a replay did, reported line by line.

ghost use Rattle.std.specs.Prelude.{◌≡◌, ◌++◌, ◌≤◌, ◌<◌, ◌+◌, ◌^◌, ℕ, Some, true, IfOk, is_some, length, slice_get, string_bytes};
ghost use Rattle.std.specs.Option.{ForSome};
ghost use Rattle.luflow.specs.Types.{variable_names};
ghost use Rattle.luflow.specs.Variables.{variable_name};
ghost use Rattle.luworld.specs.Systems.{Item, done, next_item, run, step, NoTurnMoves};
ghost use Rattle.luworld.specs.Jobs.{JobView, carried, script, streams_of, system_of};
ghost use Rattle.lusite.specs.Machine.{IsNext};
ghost use Rattle.luweave.specs.Worlds.{IsNewWorld};
ghost use Rattle.luweave.specs.Headline.{IsFaithful};
ghost use Rattle.luweave_text.specs.WorldText.{Adds};
ghost use Rattle.luweave_text.specs.Items.{message_text, item_text};
ghost use Rattle.luweave_text.specs.Traced.{blocked_report, counts_of, counts_then, is_between, line, move_report, no_counts, one_more, opening, passes, report, trace_text, turn_text, uncut, wait_report, wait_words, HasMore, IsTraced};

use crate::charting::{put_chart_line, put_heading, target_of};
use crate::counts::Counts;
use crate::form::{TraceForm, Tracing};
use crate::text::{put_message, site_name};
use crate::waits::{put_wait, put_wait_cell};
use lubase::Name;
use luflow::Msg;
use luplace::Plan;
use luweave::{LinkNo, Next, Site, Turn, World, goes_on};
use std::alloc::{AllocError, Global};

/// The number of a message, and what it says of a type with these names.
fn put_numbered(text: &mut String, names: &[Name], message: Option<Msg>) -> Result<(), AllocError>
    ensures { Adds result text.old text.new (message_text names.now message) }
{
    match message {
        Some(message) => {
            write!(text, " {}", message.no)?;
            put_message(text, names, message)
        }
        None => Ok(()),
    }
}

/// The flow that a link carries.
fn flow_of(plan: &Plan, link: LinkNo) -> usize
    ensures { result ≡ carried plan.now link }
{
    match plan.links().get(link) {
        Some(found) => found.flow,
        None => 0,
    }
}

/// The name of the flow that a link carries.
pub(crate) fn flow_name(plan: &Plan, link: LinkNo) -> &str
    ensures { result.now ≡ variable_name plan.now.flat (carried plan.now link) }
{
    plan.flat().variable_name(flow_of(plan, link))
}

/// The names of the type of the flow that a link carries.
fn flow_names(plan: &Plan, link: LinkNo) -> &[Name]
    ensures { result.now ≡ variable_names plan.now.flat (carried plan.now link) }
{
    plan.flat().variable_names(flow_of(plan, link))
}

/// What a site does next, where it does anything.
fn put_item(
    text: &mut String,
    plan: &Plan,
    world: &World,
    site: u8,
    next: Next,
) -> Result<(), AllocError>
    requires plan_is { world.now.job.plan ≡ plan.now }
    requires next { IsNext world.now.job site (done world.now.dones site) next }
    ensures { (item : Item) → next_item (system_of world.now.job) world.now.dones site ≡ Some item
        → Adds result text.old text.new (item_text world.now site item) }
{
    match next {
        Next::Local => text.push_str("compute"),
        Next::Put(link, message) => {
            write!(text, "put {}", flow_name(plan, link))?;
            put_numbered(text, flow_names(plan, link), Some(message))
        }
        Next::Take(link) => {
            write!(text, "take {}", flow_name(plan, link))?;
            let first = world.queued(link).first().copied();
            put_numbered(text, flow_names(plan, link), first)
        }
        Next::Ended => Ok(()),
        Next::Faulted => Ok(()),
    }
}

/// Whether what a site does next passes a message.
fn passes(next: Next) -> bool
    ensures { (job : JobView) (s n : ℕ) (item : Item) → IsNext job s n next
        → slice_get (script job (streams_of job) s) n ≡ Some item → result ≡ passes item }
{
    match next {
        Next::Local => false,
        Next::Put(_, _) => true,
        Next::Take(_) => true,
        Next::Ended => false,
        Next::Faulted => false,
    }
}

/// A line: how many turns have moved before, the site, and what it does or waits for.
fn put_line(
    text: &mut String,
    plan: &Plan,
    moved: u64,
    site: u8,
    words: &str,
) -> Result<(), AllocError>
    ensures { Adds result text.old text.new (line plan.now moved site words.now) }
{
    write!(text, "{moved} {} ", site_name(plan.sites(), site))?;
    text.push_str(words)?;
    text.push('\n')
}

/// Adds what a site does, whose message goes to a target, or what it waits for, in a form.
fn put_report(
    alloc: Global,
    text: &mut String,
    plan: &Plan,
    form: TraceForm,
    counts: Counts,
    site: u8,
    target: u8,
    words: &str,
) -> Result<(), AllocError>
    ensures { Adds result text.old text.new (report form plan.now counts site target words.now) }
{
    match form {
        TraceForm::Lines => put_line(text, plan, counts.moved, site, words),
        TraceForm::Chart => {
            let sites = plan.sites().len();
            put_chart_line(alloc, text, sites, counts, site, target, words)
        }
    }
}

/// Adds what is reported of a turn that moves.
fn put_move(
    alloc: Global,
    text: &mut String,
    plan: &Plan,
    world: &World,
    how: Tracing,
    counts: Counts,
    site: u8,
    next: Next,
) -> Result<(), AllocError>
    requires plan_is { world.now.job.plan ≡ plan.now }
    requires next { IsNext world.now.job site (done world.now.dones site) next }
    ensures { (item : Item) → next_item (system_of world.now.job) world.now.dones site ≡ Some item
        → Adds result text.old text.new (move_report how world.now counts site (Some item)) }
{
    if how.messages && !passes(next) {
        return Ok(());
    }
    let mut words = String::new(alloc);
    put_item(&mut words, plan, world, site, next)?;
    let target = target_of(plan, world, site, next);
    put_report(
        alloc,
        text,
        plan,
        how.form,
        counts,
        site,
        target,
        words.as_str(),
    )
}

/// Adds what a site waits for that can't do this next, as a form has it.
fn put_wait_words(
    text: &mut String,
    plan: &Plan,
    form: TraceForm,
    next: Next,
) -> Result<(), AllocError>
    ensures { (job : JobView) (s n : ℕ) (item : Item) → IsNext job s n next
        → slice_get (script job (streams_of job) s) n ≡ Some item
        → Adds result text.old text.new (wait_words form plan.now item) }
{
    match form {
        TraceForm::Lines => put_wait(text, plan, next),
        TraceForm::Chart => put_wait_cell(text, plan, next),
    }
}

/// Adds what is reported of a turn that finds no room or no message.
fn put_blocked(
    alloc: Global,
    text: &mut String,
    plan: &Plan,
    how: Tracing,
    counts: Counts,
    site: u8,
    next: Next,
) -> Result<(), AllocError>
    ensures { (job : JobView) (s n : ℕ) (item : Item) → IsNext job s n next
        → slice_get (script job (streams_of job) s) n ≡ Some item
        → Adds result text.old text.new (blocked_report how plan.now counts site item) }
{
    if !how.blocked {
        return Ok(());
    }
    let mut words = String::new(alloc);
    put_wait_words(&mut words, plan, how.form, next)?;
    put_report(
        alloc,
        text,
        plan,
        how.form,
        counts,
        site,
        site,
        words.as_str(),
    )
}

/// What is reported of a turn of the site, if it moves; nothing where the site does nothing more.
fn move_report(
    alloc: Global,
    plan: &Plan,
    world: &World,
    how: Tracing,
    counts: Counts,
    site: u8,
) -> Result<String, AllocError>
    requires { world.now.job.plan ≡ plan.now }
    ensures { IfOk result (λ line. string_bytes line ≡ move_report how world.now counts site
        (next_item (system_of world.now.job) world.now.dones site)) }
{
    let mut line = String::new(alloc);
    let next = world.next(site);
    if goes_on(next) {
        put_move(alloc, &mut line, plan, world, how, counts, site, next)?;
    }
    Ok(line)
}

/// The same, if it finds no room or no message.
fn wait_report(
    alloc: Global,
    plan: &Plan,
    world: &World,
    how: Tracing,
    counts: Counts,
    site: u8,
) -> Result<String, AllocError>
    requires { world.now.job.plan ≡ plan.now }
    ensures { IfOk result (λ line. string_bytes line ≡ wait_report how world.now counts site
        (next_item (system_of world.now.job) world.now.dones site)) }
{
    let mut line = String::new(alloc);
    let next = world.next(site);
    if goes_on(next) {
        put_blocked(alloc, &mut line, plan, how, counts, site, next)?;
    }
    Ok(line)
}

/// Whether an instant is among those from one to another, both of them; where one isn't given, nothing is cut
/// there.
fn is_between(from: Option<u32>, to: Option<u32>, instant: u32) -> bool
    ensures { result ≡ is_between from to instant }
{
    let is_late = match from {
        Some(first) => first <= instant,
        None => true,
    };
    let is_early = match to {
        Some(last) => instant <= last,
        None => true,
    };
    is_late && is_early
}

/// What is reported, unless it is cut away by the instant of the slowest site.
fn uncut(alloc: Global, world: &World, how: Tracing, text: String) -> String
    ensures { string_bytes result ≡ uncut how world.now (string_bytes text) }
{
    if is_between(how.from, how.to, world.slowest()) {
        text
    } else {
        String::new(alloc)
    }
}

/// Adds what is reported of a turn. Answers how many are reported then.
fn put_told(text: &mut String, shown: usize, told: &str) -> Result<usize, AllocError>
    requires few { shown ≤ length (string_bytes text.old) }
    ensures text { Adds result text.old text.new told.now }
    ensures shown { IfOk result (λ n. n ≡ one_more shown told.now) }
    ensures few { IfOk result (λ n. n ≤ length (string_bytes text.new)) }
{
    text.push_str(told)?;
    if told.is_empty() {
        return Ok(shown);
    }
    Ok(shown + 1)
}

/// A turn, reported. Answers how many have moved and are reported then.
fn traced_turn(
    alloc: Global,
    text: &mut String,
    plan: &Plan,
    world: &mut World,
    how: Tracing,
    counts: Counts,
    site: u8,
) -> Result<Counts, AllocError>
    requires plan_is { world.old.job.plan ≡ plan.now }
    requires few { counts.shown ≤ length (string_bytes text.old) }
    requires room { counts.moved + 1 < 2 ^ 64 }
    ensures job { world.new.job ≡ world.old.job }
    ensures dones { IfOk result
        (λ _. world.new.dones ≡ step (system_of world.old.job) world.old.dones site) }
    ensures text { Adds result text.old text.new (turn_text how world.old counts site) }
    ensures counts { IfOk result (λ n. n ≡ counts_then how world.old counts site) }
    ensures few { IfOk result (λ n. n.shown ≤ length (string_bytes text.new)) }
{
    let Counts { moved, shown } = counts;
    let moves = move_report(alloc, plan, world, how, counts, site)?;
    let moves = uncut(alloc, world, how, moves);
    let waits = wait_report(alloc, plan, world, how, counts, site)?;
    let waits = uncut(alloc, world, how, waits);
    match world.turn(site) {
        Turn::Moved => {
            let shown = put_told(text, shown, moves.as_str())?;
            Ok(Counts {
                moved: moved + 1,
                shown,
            })
        }
        Turn::Blocked => {
            let shown = put_told(text, shown, waits.as_str())?;
            Ok(Counts { moved, shown })
        }
        Turn::Over => Ok(counts),
    }
}

/// Turns in order, each reported. Answers how many have moved and are reported.
fn traced_turns(
    alloc: Global,
    text: &mut String,
    plan: &Plan,
    world: &mut World,
    how: Tracing,
    turns: &[u8],
) -> Result<Counts, AllocError>
    requires { world.old.job.plan ≡ plan.now }
    ensures job { world.new.job ≡ world.old.job }
    ensures dones { IfOk result
        (λ _. world.new.dones ≡ run (system_of world.old.job) world.old.dones turns.now) }
    ensures text { Adds result text.old text.new (trace_text how world.old no_counts turns.now) }
    ensures counts { IfOk result (λ n. n ≡ counts_of how world.old no_counts turns.now) }
    ensures few { IfOk result (λ n. n.shown ≤ length (string_bytes text.new)) }
    ensures moved { IfOk result (λ n. n.moved ≤ length turns.now) }
{
    let mut counts = Counts { moved: 0, shown: 0 };
    for site in turns {
        counts = traced_turn(alloc, text, plan, world, how, counts, *site)?;
    }
    Ok(counts)
}

/// Gives the turn of the least site that can move until none can, each reported.
fn traced_finish(
    alloc: Global,
    text: &mut String,
    plan: &Plan,
    world: &mut World,
    how: Tracing,
    before: Counts,
) -> Result<(), AllocError>
    requires plan_is { world.old.job.plan ≡ plan.now }
    requires few { before.shown ≤ length (string_bytes text.old) }
    requires room { before.moved ≤ 2 ^ 63 }
    ensures job { world.new.job ≡ world.old.job }
    ensures more { IfOk result
        (λ _. HasMore how world.old before (string_bytes text.old) world.new.dones
        (string_bytes text.new)) }
    ensures quiet { IfOk result (λ _. NoTurnMoves (system_of world.new.job) world.new.dones) }
{
    let mut counts = before;
    let _ = world.left();
    while let Some(site) = world.enabled() {
        let _ = world.left();
        counts = traced_turn(alloc, text, plan, world, how, counts, site)?;
    }
    Ok(())
}

/// What stands before the first turn.
fn opening(alloc: Global, plan: &Plan, form: TraceForm) -> Result<String, AllocError>
    ensures { IfOk result (λ text. string_bytes text ≡ opening form plan.now) }
{
    let mut text = String::new(alloc);
    match form {
        TraceForm::Lines => {}
        TraceForm::Chart => put_heading(&mut text, plan.sites())?,
    }
    Ok(text)
}

/// The world of new sites after the turns of a schedule, in order; and, where it is to be finished, after
/// more, each of the least site that can move, until none can. With it, for each turn that moved, how many
/// had moved before, the site, and what it did: a line each, or a row each of a chart of at most 1,000 rows,
/// which has a column for each site. Of these turns `how` may leave those out that pass no message, and add
/// those that found no room or no message, with what the site waits for. The sites are gone where memory ran
/// out.
pub fn trace(
    alloc: Global,
    plan: &Plan,
    sites: Vec<Site>,
    turns: &[u8],
    finish: bool,
    how: Tracing,
) -> Result<(World, String), AllocError>
    requires { IsNewWorld plan.now sites.items }
    ensures job { IfOk result (λ x. ForSome (slice_get sites.items 0) (λ v. x.0.job ≡ v.job)) }
    ensures traced { IfOk result (λ x. IsTraced x.0.job turns.now finish how x.0.dones
        (string_bytes x.1)) }
    ensures faithful { IfOk result (λ x. IsFaithful x.0.job x.0.dones) }
{
    let mut world = World::new(alloc, plan, sites)?;
    let mut text = opening(alloc, plan, how.form)?;
    let counts = traced_turns(alloc, &mut text, plan, &mut world, how, turns)?;
    if !finish {
        world.faithful();
        return Ok((world, text));
    }
    traced_finish(alloc, &mut text, plan, &mut world, how, counts)?;
    world.faithful();
    Ok((world, text))
}
