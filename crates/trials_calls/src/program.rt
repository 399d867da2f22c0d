//! The calls of the program's library, `blkq_run`.
ghost use Rattle.std.specs.Prelude.{◌≡◌};
ghost use Rattle.blkq_run.specs.Faults.{number_of};

use blkq_run::{Config, Counted, Fault, Replayed, Schedule, Stall};
use gate_replay::{Events, GuardedWords};
use line_text::{Overlap, ParseFault, ScriptFault};
use percpu_core::{Event, Start};
use std::alloc::Global;
use std::io::{Read, Write};
use std::sync::Wait;
use std::thread::Threads;

pub fn new<T>(inner: T) -> Counted<T> {
    Counted::new(inner)
}

pub fn failures<T>(counted: &Counted<T>) -> u64 {
    counted.failures()
}

pub fn run_bytes<R: Read, W: Write>(
    rt: &(impl Threads + Wait + Sync),
    alloc: Global,
    reader: &mut Counted<R>,
    writer: &mut Counted<W>,
    config: Config,
    stall: &impl Stall,
) -> Result<(), Fault> {
    blkq_run::run_bytes(rt, alloc, reader, writer, config, stall)
}

pub fn replay_bytes<R: Read, W: Write>(
    alloc: Global,
    reader: &mut Counted<R>,
    writer: &mut Counted<W>,
) -> Result<Replayed, Fault> {
    blkq_run::replay_bytes(alloc, reader, writer)
}

pub fn parse_schedule(alloc: Global, text: &[u8]) -> Result<Schedule, ScriptFault> {
    blkq_run::parse_schedule(alloc, text)
}

pub fn command<R: Read, W: Write, E: Write>(
    rt: &(impl Threads + Wait + Sync),
    alloc: Global,
    args: &[String],
    reader: &mut Counted<R>,
    writer: &mut Counted<W>,
    errors: &mut E,
) -> u8 {
    blkq_run::command(rt, alloc, args, reader, writer, errors)
}

/// Returns whether a replay took all its steps.
pub fn replayed(replayed: Replayed) -> bool {
    match replayed {
        Replayed::Whole => true,
        Replayed::Stuck => false,
    }
}

/// Returns the numbers of a schedule's world, its start, and its lists as vectors.
pub fn schedule(schedule: Schedule) -> (u32, u32, Start, u64, Vec<u64>, Vec<(u32, Event)>) {
    let Schedule {
        slots,
        passes,
        start,
        kills,
        words,
        events,
    } = schedule;
    let (words, events): (GuardedWords, Events) = (words, events);
    (
        slots,
        passes,
        start,
        kills,
        words.into_vec(),
        events.into_vec(),
    )
}

/// Returns the number of a fault.
pub fn fault(fault: Fault) -> u8
    ensures { result ≡ number_of fault }
{
    match fault {
        Fault::Memory => 1,
        Fault::Thread => 2,
        Fault::Read => 3,
        Fault::Write { written } => {
            let _: u64 = written;
            4
        }
        Fault::Parse(why) => {
            let _: ParseFault = why;
            5
        }
        Fault::Overlap(pair) => {
            let _: Overlap = pair;
            6
        }
    }
}
