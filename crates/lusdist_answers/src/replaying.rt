//! What a replay prints, of the files that it asks for.

ghost use Rattle.std.specs.Prelude.{◌≡◌, ◌++◌, ◌<◌, ℕ, List, IfOk, IfErr, None, length, string_bytes, option_map};
ghost use Rattle.luworld.specs.Needs.{sites_of};
ghost use Rattle.luweave.specs.Headline.{IsFaithful};
ghost use Rattle.luweave_text.specs.Traced.{IsTraced};
ghost use Rattle.lusdist_shell.specs.declared.request.Request.{Request};
ghost use Rattle.lusdist_call.specs.Asked.{IsAskedFor, IsWorldOf};
ghost use Rattle.lusdist_call.specs.Noted.{tracing_of, AreNotesOf, AreStandsOf, AreReplayNotes, stray_of, warnings_of};
ghost use Rattle.lusdist_call.specs.Answers.{IsPrinted, IsReplyTo};
ghost use Rattle.lusdist_call.specs.Stopped.{IsReplayRefused, IsReplayStopped};
ghost use Rattle.lusdist_call.specs.Mistakes.{replay_mistake, turns_mistake};
ghost use Rattle.lusdist_call.specs.Violations.{has_lines, unobserved};
ghost use Rattle.clap.specs.Walk.{texts};
ghost use Rattle.lusdist_call.specs.declared.call_error.CallError.{CallError};
ghost use Rattle.lusdist_call.specs.declared.call_error.CallError.TheVariants.{OutOfMemory};

use crate::filing::dump_of_world;
use crate::jobs::{job_for, observe_job};
use crate::sources::turns_from;
use luplace::{Job, Plan};
use lusdist_call::{CallError, Reply, replay_mistake, world_violations};
use lusdist_shell::{Files, ReplayRequest, TurnsForm, TurnsSource};
use luweave::{World, new_sites, replay};
use luweave_text::{TraceForm, Tracing, text_of_stands, text_of_stray, text_of_world, trace};
use std::alloc::{AllocError, Global};

/// The job of the files that a replay asks for, and its turns. The files are read and refused in the order of
/// the words; the names that are observed come last.
fn job_and_turns<F: Files>(
    alloc: Global,
    request: ReplayRequest<'_>,
    files: &F,
) -> Result<(Job, Vec<u8>), CallError>
    requires { turns_mistake request.source ≡ None }
    ensures asked { IfOk result (λ found. IsAskedFor (F.gives files.now) request.entry found.0
        found.1.items) }
    ensures observed { IfOk result (λ found. unobserved found.0.plan.flat.variables
        (texts request.entry.always.now) ≡ None) }
    ensures stopped { IfErr result (IsReplayStopped (F.gives files.now) request.entry) }
{
    let job = job_for(
        alloc,
        files,
        request.program,
        request.place,
        request.table,
        request.main,
    )?;
    let turns = turns_from(alloc, files, request.source, job.plan())?;
    observe_job(alloc, &job, request.always)?;
    Ok((job, turns))
}

/// The world that the turns make of a job's new sites; where it is to be finished, after more turns, until
/// none moves.
pub fn replayed(alloc: Global, job: &Job, turns: &[u8], finish: bool) -> Result<World, CallError>
    ensures world { IfOk result (IsWorldOf job.now turns.now finish) }
    ensures faithful { IfOk result (λ world. IsFaithful world.job world.dones) }
    ensures memory { IfErr result (λ stop. stop ≡ OutOfMemory) }
{
    let sites = new_sites(alloc, job)?;
    let mut world = replay(alloc, job.plan(), sites, turns)?;
    if !finish {
        return Ok(world);
    }
    world.finish();
    Ok(world)
}

/// The world that the turns make of a job's new sites, and what of them is reported.
fn traced(
    alloc: Global,
    job: &Job,
    turns: &[u8],
    finish: bool,
    how: Tracing,
) -> Result<(World, String), CallError>
    ensures world { IfOk result (λ x. IsWorldOf job.now turns.now finish x.0) }
    ensures faithful { IfOk result (λ x. IsFaithful x.0.job x.0.dones) }
    ensures notes { IfOk result (λ x. IsTraced job.now turns.now finish how x.0.dones
        (string_bytes x.1)) }
    ensures memory { IfErr result (λ stop. stop ≡ OutOfMemory) }
{
    let sites = new_sites(alloc, job)?;
    let (world, notes) = trace(alloc, job.plan(), sites, turns, finish, how)?;
    Ok((world, notes))
}

/// How a request asks turns to be reported, in a form.
fn tracing_of(request: ReplayRequest<'_>, form: TraceForm) -> Tracing
    ensures { result ≡ tracing_of request.entry form }
{
    Tracing {
        form,
        messages: request.messages,
        blocked: request.blocked,
        from: request.from,
        to: request.to,
    }
}

/// The world that the turns make of a job's new sites, and the notes of these turns.
fn noted(
    alloc: Global,
    request: ReplayRequest<'_>,
    job: &Job,
    turns: &[u8],
) -> Result<(World, String), CallError>
    ensures world { IfOk result (λ x. IsWorldOf job.now turns.now request.entry.finish x.0) }
    ensures faithful { IfOk result (λ x. IsFaithful x.0.job x.0.dones) }
    ensures notes { IfOk result (λ x. AreNotesOf job.now turns.now request.entry request.entry.turns
        x.0.dones (string_bytes x.1)) }
    ensures memory { IfErr result (λ stop. stop ≡ OutOfMemory) }
{
    let finish = request.finish;
    match request.turns {
        TurnsForm::Lines => {
            let how = tracing_of(request, TraceForm::Lines);
            traced(alloc, job, turns, finish, how)
        }
        TurnsForm::Chart => {
            let how = tracing_of(request, TraceForm::Chart);
            traced(alloc, job, turns, finish, how)
        }
        TurnsForm::Nothing => {
            let world = replayed(alloc, job, turns, finish)?;
            Ok((world, String::new(alloc)))
        }
    }
}

/// What is warned of turns from a source.
fn stray_of(
    alloc: Global,
    source: TurnsSource<'_>,
    plan: &Plan,
    turns: &[u8],
) -> Result<String, AllocError>
    ensures { IfOk result (λ text. string_bytes text
        ≡ stray_of source.entry (sites_of plan.now) turns.now) }
{
    match source {
        TurnsSource::File(path) => text_of_stray(alloc, path, plan, turns),
        _ => Ok(String::new(alloc)),
    }
}

/// Adds what is warned of, where the request asks for words.
fn put_warnings(
    alloc: Global,
    request: ReplayRequest<'_>,
    job: &Job,
    turns: &[u8],
    notes: &mut String,
) -> Result<(), CallError>
    ensures warnings { IfOk result (λ _. string_bytes notes.new
        ≡ string_bytes notes.old ++ warnings_of request.entry job.now turns.now) }
    ensures memory { IfErr result (λ stop. stop ≡ OutOfMemory) }
{
    if request.explain {
        let lines = stray_of(alloc, request.source, job.plan(), turns)?;
        notes.push_str(lines.as_str())?;
    }
    Ok(())
}

/// Adds why the sites of a world stand still, where the request asks for words.
fn put_stands(
    alloc: Global,
    request: ReplayRequest<'_>,
    plan: &Plan,
    world: &World,
    notes: &mut String,
) -> Result<(), CallError>
    requires plan_is { world.now.job.plan ≡ plan.now }
    requires all_sites { length world.now.dones ≡ sites_of plan.now }
    ensures stands { IfOk result (λ _. (lines : List ℕ)
        × AreStandsOf request.entry.explain world.now lines
        × (string_bytes notes.new ≡ string_bytes notes.old ++ lines)) }
    ensures memory { IfErr result (λ stop. stop ≡ OutOfMemory) }
{
    if request.explain {
        let lines = text_of_stands(alloc, plan, world)?;
        notes.push_str(lines.as_str())?;
    }
    Ok(())
}

/// A text, notes, a dump or none, and behind the notes what is told of outputs that are observed.
fn replied(
    text: String,
    mut notes: String,
    dump: Option<String>,
    told: String,
) -> Result<Reply, AllocError>
    ensures text { IfOk result (λ reply. reply.text ≡ text) }
    ensures notes { IfOk result (λ reply. string_bytes reply.notes
        ≡ string_bytes notes ++ string_bytes told) }
    ensures dump { IfOk result (λ reply. reply.dump ≡ dump) }
    ensures violated { IfOk result (λ reply. reply.violated ≡ has_lines (string_bytes told)) }
{
    notes.push_str(told.as_str())?;
    Ok(Reply {
        text,
        notes,
        dump,
        violated: !told.is_empty(),
    })
}

/// What a replay of a job gives: the text of its world, its notes with what is told of outputs that are
/// observed, and a dump, where the request asks for one.
fn printed(
    alloc: Global,
    request: ReplayRequest<'_>,
    job: &Job,
    turns: &[u8],
) -> Result<Reply, CallError>
    ensures printed { IfOk result (λ reply. IsPrinted request.entry job.now turns.now
        (string_bytes reply.text) (string_bytes reply.notes) reply.violated
        (option_map string_bytes reply.dump)) }
    ensures memory { IfErr result (λ stop. stop ≡ OutOfMemory) }
{
    let (world, mut notes) = noted(alloc, request, job, turns)?;
    put_warnings(alloc, request, job, turns, &mut notes)?;
    put_stands(alloc, request, job.plan(), &world, &mut notes)?;
    let text = text_of_world(alloc, job.plan(), &world)?;
    let dump = dump_of_world(alloc, request, job.plan(), &world)?;
    let told = world_violations(alloc, request.always, job.plan(), &world)?;
    let reply = replied(text, notes, dump, told)?;
    Ok(reply)
}

/// What a replay gives that is asked for without a mistake.
fn replayed_answer<F: Files>(
    alloc: Global,
    request: ReplayRequest<'_>,
    files: &F,
) -> Result<Reply, CallError>
    requires { replay_mistake request ≡ None }
    ensures reply { IfOk result (IsReplyTo (F.gives files.now) (Request.Replay request.entry)) }
    ensures stopped { IfErr result (IsReplayStopped (F.gives files.now) request.entry) }
{
    let (job, turns) = job_and_turns(alloc, request, files)?;
    printed(alloc, request, &job, &turns)
}

/// What a replay gives, or what is wrong with what it is asked for.
pub fn replay_answer<F: Files>(
    alloc: Global,
    request: ReplayRequest<'_>,
    files: &F,
) -> Result<Reply, CallError>
    ensures reply { IfOk result (IsReplyTo (F.gives files.now) (Request.Replay request.entry)) }
    ensures refused { IfErr result (IsReplayRefused (F.gives files.now) request.entry) }
{
    match replay_mistake(request) {
        Some(mistake) => Err(CallError::Mistaken(mistake)),
        None => replayed_answer(alloc, request, files),
    }
}
