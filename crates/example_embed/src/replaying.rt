//! The design's replay at two sites, by a whole call of the distributor.

ghost use Rattle.std.specs.Prelude.{◌≡◌, codes, map, IfOk, IfSome, string_bytes};
ghost use Rattle.lusdist_shell.specs.Request.{IsAskedBy};
ghost use Rattle.lusdist_shell.specs.declared.request.Request.{Request};
ghost use Rattle.example_embed.specs.Words.{words};
ghost use Rattle.example_embed.specs.Replayed.{IsTrueOfDesign};

use crate::texts::{NoFile, Texts};
use lusdist_answers::laws::headline_law;
use lusdist_answers::serve;
use lusdist_shell::{ReplayRequest, Silent, Sink, TurnsForm, TurnsSource};
use std::alloc::{AllocError, Global};
use std::rt::Clock;
use std::sync::Wait;
use std::thread::Threads;

/// The words of the call, the program's name first.
fn words(alloc: Global) -> Result<Vec<String>, AllocError>
    ensures { IfOk result (λ found. map string_bytes found.items ≡ words) }
{
    let mut found = Vec::new(alloc);
    found.push(String::from_str(alloc, "lusdist")?)?;
    found.push(String::from_str(alloc, "replay")?)?;
    found.push(String::from_str(alloc, "design")?)?;
    found.push(String::from_str(alloc, "placement")?)?;
    found.push(String::from_str(alloc, "table")?)?;
    found.push(String::from_str(alloc, "schedule")?)?;
    found.push(String::from_str(alloc, "--finish")?)?;
    Ok(found)
}

/// What the words ask for.
fn asked() -> ReplayRequest<'static>
    ensures asked { IsAskedBy words (Request.Replay result) }
    ensures program { result.program.now ≡ codes "design" }
    ensures table { result.table.now ≡ codes "table" }
    ensures main { result.main.now ≡ codes "main" }
{
    ReplayRequest {
        main: "main",
        explain: false,
        short: false,
        program: "design",
        place: "placement",
        table: "table",
        source: TurnsSource::File("schedule"),
        finish: true,
        turns: TurnsForm::Nothing,
        vcd: None,
        messages: false,
        blocked: false,
        from: None,
        to: None,
        always: &[],
    }
}

/// What a call with these words prints; none where it isn't done.
fn printed<R: Threads + Wait + Clock + Sync>(
    rt: &R,
    alloc: Global,
    line: &[String],
) -> Option<Vec<u8>>
    requires { map string_bytes line.now ≡ words }
    ensures { IfSome result (λ text. IsTrueOfDesign text.items) }
{
    let _request = asked();
    headline_law(&Texts);
    let mut out = Sink::new(Vec::new(alloc));
    let mut err = Sink::new(Vec::new(alloc));
    let status = serve(
        rt,
        alloc,
        line,
        &Texts,
        &mut NoFile,
        &Silent,
        &mut out,
        &mut err,
    );
    if status != 0 {
        return None;
    }
    match Vec::from_slice(alloc, out.writer()) {
        Ok(text) => Some(text),
        Err(_) => None,
    }
}

/// What the sites report, once none of them can go on: it is true of the design at its table, in each of its
/// solutions. None where memory ran out.
pub(crate) fn replay_of_design<R: Threads + Wait + Clock + Sync>(
    rt: &R,
    alloc: Global,
) -> Option<Vec<u8>>
    ensures { IfSome result (λ text. IsTrueOfDesign text.items) }
{
    match words(alloc) {
        Ok(words) => printed(rt, alloc, &words),
        Err(_) => None,
    }
}
