//! A block request queue in front of a disk in memory.
//!
//! The program reads a script of requests from standard input, and writes the queue's reply to each of its lines and then the disk
//! that they leave. Or it reads a schedule, which is a gate's atomic steps one after another, and writes the reply to each.
//! `blkq_run` does all of this over any reader and writers; this file gives it the words after the program's name and the standard
//! streams.
#![tactic(auto)]

use blkq_run::{command, refuse_words};
use counted_io::Counted;
use std::process::ExitCode;
use std::rt::Env;
use std::{env, io};

/// Returns the words after the program's name.
fn words(rt: &(impl Env + AllocGlobal)) -> io::Result<Vec<String>> {
    Ok(env::args(rt)?.skip(1).collect(rt.alloc())?)
}

fn main(rt: HostRuntime) -> ExitCode {
    let (mut reader, mut writer) = (Counted::new(rt.stdin()), Counted::new(rt.stdout()));
    let mut errors = rt.stderr();
    ExitCode::from(match words(&rt) {
        Ok(args) => command(
            &rt,
            rt.alloc(),
            &args,
            &mut reader,
            &mut writer,
            &mut errors,
        ),
        Err(why) => refuse_words(&mut errors, &why),
    })
}
