//! A call of the program, over files of any kind.

ghost use Rattle.std.specs.Prelude.{◌≡◌, ◌⊎◌, ◌++◌, ℕ, true, [], List, map, Option, option_map, IfOk, IfErr, string_bytes};
ghost use Rattle.std.specs.Io.KnownBytes.{Appends};
ghost use Rattle.clap.specs.Words.{takes, fault_of, subcommand_of, subcommand_rows_of};
ghost use Rattle.lusdist_shell.specs.CommandLine.{lusdist};
ghost use Rattle.lusdist_shell.specs.Request.{IsCommand};
ghost use Rattle.lusdist_shell.specs.Dumps.{Written};
ghost use Rattle.lusdist_shell.specs.Sinks.{HasLine};
ghost use Rattle.lusdist_call.specs.Answers.{IsReplyTo, AskForNoNotes, IsDone};
ghost use Rattle.lusdist_call.specs.Lines.{line_of};
ghost use Rattle.lusdist_call.specs.Statuses.{status_of, status_beside};
ghost use Rattle.lusdist_call.specs.Stopped.{IsRefusal, IsRefusalOf};
ghost use Rattle.lusdist_call.specs.Targets.{AskOver};
ghost use Rattle.lusdist_call.specs.Left.{IsEnded, IsCallEnded};

use crate::answering::{check_answer, eval_answer, new_answer, plan_answer, run_answer};
use crate::explaining::explained;
use crate::refusals::put_refusal;
use crate::replaying::replay_answer;
use crate::targets::{dump_path, dump_refused};
use clap::ArgMatches;
use lusdist_call::{CallError, Refusal, Reply, file_dump, put_reply, status_beside};
use lusdist_shell::{Dumps, Files, Progress, Request, Sink, parse, put_mistake, request_in};
use std::alloc::Global;
use std::io::Write;
use std::rt::Clock;
use std::sync::Wait;
use std::thread::Threads;

/// What the command that is asked for gives.
fn answer<R: Threads + Wait + Clock + Sync, F: Files, P: Progress>(
    rt: &R,
    alloc: Global,
    request: Request<'_>,
    files: &F,
    progress: &P,
) -> Result<Reply, Refusal>
    ensures reply { IfOk result (IsReplyTo (F.gives files.now) request.entry) }
    ensures refusal { IfErr result (IsRefusalOf (F.gives files.now) request.entry) }
{
    match request {
        Request::Check(request) => Ok(check_answer(alloc, request, files)?),
        Request::Eval(request) => eval_answer(alloc, request, files),
        Request::New(request) => Ok(new_answer(alloc, request, files)?),
        Request::Plan(request) => Ok(plan_answer(alloc, request, files)?),
        Request::Replay(request) => Ok(replay_answer(alloc, request, files)?),
        Request::Run(request) => Ok(run_answer(rt, alloc, request, files, progress)?),
        Request::Explain(request) => Ok(Reply::plain(alloc, explained(alloc, request)?)),
    }
}

/// The exit status of a call whose answer ended so when it was written, and of which an output that is
/// observed is violated or not.
fn printed_status(written: u8, violated: bool) -> u8
    ensures whole { written ≡ 0 → result ≡ status_beside violated }
    ensures part { written ≡ 3 → result ≡ 3 }
{
    if written == 0 {
        status_beside(violated)
    } else {
        written
    }
}

/// Writes an answer: its dump into the file that is asked for, its text, and its notes. Where the dump can't
/// be written, that is reported in their place. Gives the exit status.
fn put_answer<F: Files, D: Dumps, W: Write, V: Write>(
    alloc: Global,
    request: Request<'_>,
    files: &F,
    reply: Reply,
    dumps: &mut D,
    out: &mut Sink<W>,
    err: &mut Sink<V>,
) -> u8
    requires { IsReplyTo (F.gives files.now) request reply }
    ensures { (wrote : List Written) × (D.written dumps.new ≡ D.written dumps.old ++ wrote)
        × IsEnded (F.gives files.now) request.entry result wrote (record {
          out = out.old;
          out_after = out.new;
          err = err.old;
          err_after = err.new;
          held_out = W.contents;
          held_err = V.contents;
        }) }
{
    let Reply {
        text,
        notes,
        dump,
        violated,
    } = reply;
    match file_dump(alloc, dumps, dump_path(request), dump) {
        Ok(()) => printed_status(put_reply(out, err, &text, &notes), violated),
        Err(stop) => put_refusal(alloc, files, request, stop, err),
    }
}

/// Writes a refusal: the dump that it leaves into the file that is asked for, and its line. Where the dump
/// can't be written, that is reported in place of the refusal. Gives the exit status.
fn put_stop<F: Files, D: Dumps, W, V: Write>(
    alloc: Global,
    request: Request<'_>,
    files: &F,
    refusal: Refusal,
    dumps: &mut D,
    out: &Sink<W>,
    err: &mut Sink<V>,
) -> u8
    requires { IsRefusalOf (F.gives files.now) request refusal }
    ensures { (wrote : List Written) × (D.written dumps.new ≡ D.written dumps.old ++ wrote)
        × ((held : W → Option (List ℕ)) → IsEnded (F.gives files.now) request.entry result wrote
        (record {
          out = out.now;
          out_after = out.now;
          err = err.old;
          err_after = err.new;
          held_out = held;
          held_err = V.contents;
        })) }
{
    let Refusal { error, dump } = refusal;
    match file_dump(alloc, dumps, dump_path(request), dump) {
        Ok(()) => put_refusal(alloc, files, request, error, err),
        Err(stop) => put_refusal(alloc, files, request, stop, err),
    }
}

/// Does what is asked for, writes what it gives or why it stops, and gives the exit status.
fn perform<R: Threads + Wait + Clock + Sync, F: Files, D: Dumps, P: Progress, W: Write, V: Write>(
    rt: &R,
    alloc: Global,
    request: Request<'_>,
    files: &F,
    dumps: &mut D,
    progress: &P,
    out: &mut Sink<W>,
    err: &mut Sink<V>,
) -> u8
    ensures { (wrote : List Written) × (D.written dumps.new ≡ D.written dumps.old ++ wrote)
        × IsEnded (F.gives files.now) request.entry result wrote (record {
          out = out.old;
          out_after = out.new;
          err = err.old;
          err_after = err.new;
          held_out = W.contents;
          held_err = V.contents;
        }) }
{
    match answer(rt, alloc, request, files, progress) {
        Ok(reply) => put_answer(alloc, request, files, reply, dumps, out, err),
        Err(refusal) => put_stop(alloc, request, files, refusal, dumps, out, err),
    }
}

/// Writes the line of a stop to the error stream, and gives the exit status.
fn put_line<V: Write>(stop: CallError, err: &mut Sink<V>) -> u8
    ensures line { HasLine V.contents err.old err.new (line_of stop) }
    ensures status { result ≡ status_of stop }
{
    let status = stop.status();
    err.put_line(stop);
    status
}

/// Does what the matches of the words ask for, unless its dump is refused, and gives the exit status. The
/// words themselves aren't read again: they are what the contract speaks of.
fn attend<R: Threads + Wait + Clock + Sync, F: Files, D: Dumps, P: Progress, W: Write, V: Write>(
    rt: &R,
    alloc: Global,
    words: &[String],
    matches: &ArgMatches<'_>,
    files: &F,
    dumps: &mut D,
    progress: &P,
    out: &mut Sink<W>,
    err: &mut Sink<V>,
) -> u8
    requires command { IsCommand (subcommand_rows_of matches.now) }
    requires faultless { fault_of lusdist (map string_bytes words.now) ≡ [] }
    requires matched { subcommand_rows_of matches.now
        ≡ subcommand_of lusdist (map string_bytes words.now) }
    ensures ended { (wrote : List Written) × (D.written dumps.new ≡ D.written dumps.old ++ wrote)
        × IsCallEnded (F.gives files.now)
        (record { same = D.same dumps.old; shut = D.shut dumps.old })
        (map string_bytes words.now) result wrote (record {
          out = out.old;
          out_after = out.new;
          err = err.old;
          err_after = err.new;
          held_out = W.contents;
          held_err = V.contents;
        }) }
    ensures done { takes lusdist (map string_bytes words.now) ≡ true → result ≡ 0
        → (text : List ℕ) × IsDone (F.gives files.now) (map string_bytes words.now) text
        × Appends (W.contents out.old.writer) (W.contents out.new.writer) text }
    ensures refused { (result ≡ 1) ⊎ (result ≡ 2) → out.new ≡ out.old }
    ensures text { result ≡ 1 → IsRefusal (F.gives files.now) (map string_bytes words.now) 1 }
    ensures file { takes lusdist (map string_bytes words.now) ≡ true → result ≡ 2
        → IsRefusal (F.gives files.now) (map string_bytes words.now) 2
        ⊎ AskOver (record { same = D.same dumps.old; shut = D.shut dumps.old })
        (map string_bytes words.now) }
    ensures silent { result ≡ 0 → AskForNoNotes (map string_bytes words.now)
        → err.new ≡ err.old }
{
    let _ = words;
    let request = request_in(matches);
    match dump_refused(alloc, dumps, request) {
        Some(stop) => put_line(stop, err),
        None => perform(rt, alloc, request, files, dumps, progress, out, err),
    }
}

/// One call of the program, of which the first word is the program's name. Gives the exit status: 0 where it
/// is done, also where a site of a replay faulted, and for help; 1 where a text is refused; 2 for a mistake
/// in the words or a file that can't be read; 3 for a fault of an evaluation or a run, a run that was cut
/// short, a lack of memory, output or a dump that can't be written, or an answer of which an output that is
/// observed is false at some instant. A refusal is one line on the error stream, with its reason behind it
/// where that is asked for, or of a check all faults; the turns of a replay and warnings go there too, where
/// they are asked for, and behind them a line for each output that is observed and false: the answer is then
/// printed as it is without. A run waits for its threads; the other commands wait for nobody.
///
/// Where a dump is asked for, its file is written before the answer, by one write: of an evaluation that of
/// the whole table, or, where it stops at a fault, of all instants before it; of a run that of the whole
/// outputs, and none where it stops; of a replay that of the outputs as far as they were passed. Where it
/// can't be written, that is reported in place of the answer or the fault. Nothing else is written. Before
/// anything is read a dump that would take the place of a file of the call is refused, as a mistake in the
/// words; and one that can't be written, as far as that is seen by then.
///
/// Where the progress of a run is asked for, the threads that serve the sites report it. It is handed the
/// number of a site and an instant and nothing of the values; what it does with them isn't in the contract.
pub fn serve<R: Threads + Wait + Clock + Sync, F: Files, D: Dumps, P: Progress, W: Write, V: Write>(
    rt: &R,
    alloc: Global,
    words: &[String],
    files: &F,
    dumps: &mut D,
    progress: &P,
    out: &mut Sink<W>,
    err: &mut Sink<V>,
) -> u8
    // With which status a call ends, what it wrote into files, and what it leaves in the two streams.
    ensures ended { (wrote : List Written) × (D.written dumps.new ≡ D.written dumps.old ++ wrote)
        × IsCallEnded (F.gives files.now)
        (record { same = D.same dumps.old; shut = D.shut dumps.old })
        (map string_bytes words.entry.now) result wrote (record {
          out = out.old;
          out_after = out.new;
          err = err.old;
          err_after = err.new;
          held_out = W.contents;
          held_err = V.contents;
        }) }

    // Where the command line takes the words and the call is done, the text that they ask for went to the
    // output, and no output that is observed is violated.
    ensures done { takes lusdist (map string_bytes words.entry.now) ≡ true → result ≡ 0
        → (text : List ℕ) × IsDone (F.gives files.now) (map string_bytes words.entry.now) text
        × Appends (W.contents out.old.writer) (W.contents out.new.writer) text }

    // Where a text or a file is refused, or the words are, nothing goes to the output.
    ensures refused { (result ≡ 1) ⊎ (result ≡ 2) → out.new ≡ out.old }

    // Where a text is refused, it is for what the text says; and where words that the command line takes end
    // with status 2, a file can't be read, no page has the code that is to be explained, or a dump would take
    // the place of a file of the call.
    ensures text { result ≡ 1 → IsRefusal (F.gives files.now) (map string_bytes words.entry.now) 1 }
    ensures file { takes lusdist (map string_bytes words.entry.now) ≡ true → result ≡ 2
        → IsRefusal (F.gives files.now) (map string_bytes words.entry.now) 2
        ⊎ AskOver (record { same = D.same dumps.old; shut = D.shut dumps.old })
        (map string_bytes words.entry.now) }

    // Where the call is done and neither warnings nor turns are asked for, nothing goes to the error stream.
    ensures silent { result ≡ 0 → AskForNoNotes (map string_bytes words.entry.now)
        → err.new ≡ err.old }
{
    match parse(alloc, words) {
        Ok(matches) => attend(rt, alloc, words, &matches, files, dumps, progress, out, err),
        Err(mistake) => put_mistake(out, err, &mistake),
    }
}
