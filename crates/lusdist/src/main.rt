//! The program `lusdist`: it checks one Lustre program, evaluates it, spreads it over several sites, runs
//! them on threads, and replays a run turn by turn. What it does stands in the library `lusdist_answers`.
#![tactic(auto)]

use lusdist_answers::serve;
use lusdist_shell::{Meter, RealDumps, RealFiles, Sink, put_unread};
use std::process::ExitCode;
use std::{env, io};

/// The words of the command line, the program's own name first.
fn words_of(rt: &HostRuntime) -> io::Result<Vec<String>> {
    Ok(env::args(rt)?.collect(rt.alloc())?)
}

fn main(rt: HostRuntime) -> ExitCode {
    let mut out = Sink::new(rt.stdout());
    let mut err = Sink::new(rt.stderr());
    let status = match words_of(&rt) {
        Ok(words) => {
            let files = RealFiles::new(&rt);
            let mut dumps = RealDumps::new(&rt);
            let meter = Meter::new(&rt);
            serve(
                &rt,
                rt.alloc(),
                &words,
                &files,
                &mut dumps,
                &meter,
                &mut out,
                &mut err,
            )
        }
        Err(e) => put_unread(&mut err, e.kind()),
    };
    ExitCode::from(status)
}
