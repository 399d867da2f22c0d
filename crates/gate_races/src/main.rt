//! Everything that may happen in a race of a gate.
//!
//! The program reads a race from standard input: a gate, and the calls of each of its actors. It goes through all orders of their
//! atomic steps, and writes the answers that the calls may get, and a shortest schedule for each outcome. `races_run`
//! does all of this over any reader and writers; this crate passes it the arguments and the standard streams. If standard
//! error is a terminal, a line there shows how far the search is.
#![tactic(auto)]

use counted_io::Counted;
use races_run::{Progress, command, refuse_words};
use std::io::IsTerminal;
use std::process::ExitCode;
use std::rt::Env;
use std::{env, io};

/// The program's arguments.
fn words(rt: &(impl Env + AllocGlobal)) -> io::Result<Vec<String>> {
    Ok(env::args(rt)?.skip(1).collect(rt.alloc())?)
}

fn main(rt: HostRuntime) -> ExitCode {
    let (mut reader, mut writer) = (Counted::new(rt.stdin()), Counted::new(rt.stdout()));
    let mut errors = rt.stderr();
    let is_shown = errors.is_terminal();
    let mut progress = Progress::new(rt.alloc(), &rt, rt.stderr(), is_shown);
    ExitCode::from(match words(&rt) {
        Ok(args) => command(
            rt.alloc(),
            &args,
            &mut reader,
            &mut writer,
            &mut errors,
            &mut progress,
        ),
        Err(why) => refuse_words(&mut errors, &why),
    })
}
