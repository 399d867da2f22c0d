//! The calls of `blk_workers`.
ghost use Rattle.std.specs.Prelude.{◌≡◌};
ghost use Rattle.blk_workers.specs.Faults.{number_of};
ghost use Rattle.script_overlap.specs.Overlap.{HasNoOverlap};

use blk_script::{Script, ScriptFault, check};
use blk_workers::{Config, NoStall, Point, Ran, RunFault, Stall};
use ram_disk::Disk;
use std::alloc::Global;
use std::sync::Wait;
use std::thread::Threads;

pub fn new(workers: u32, slots: u32, tags: u32) -> Option<Config> {
    Config::new(workers, slots, tags)
}

pub fn run(
    rt: &(impl Threads + Wait + Sync),
    alloc: Global,
    script: &Script,
    config: Config,
    stall: &impl Stall,
) -> Result<Ran, RunFault>
    requires { HasNoOverlap script.now }
{
    blk_workers::run(rt, alloc, script, config, stall)
}

/// Runs a script if `check` returns Ok.
pub fn check_and_run(
    rt: &(impl Threads + Wait + Sync),
    alloc: Global,
    script: &Script,
    config: Config,
) -> Result<Result<Ran, RunFault>, ScriptFault> {
    match check(alloc, script) {
        Ok(()) => Ok(run(rt, alloc, script, config, &NoStall)),
        Err(fault) => Err(fault),
    }
}

/// Returns the replies of a run, its disk and its lists.
pub fn ran(ran: Ran) -> (Vec<u8>, Disk, Vec<Vec<u32>>) {
    let Ran {
        replies,
        disk,
        drawn,
    } = ran;
    (replies, disk, drawn)
}

/// Returns the number of a fault.
pub fn run_fault(fault: RunFault) -> u8
    ensures { result ≡ number_of fault }
{
    match fault {
        RunFault::Memory => 1,
        RunFault::Thread => 2,
    }
}

/// A stall that a caller defines.
pub struct Held;

impl Stall for Held {
    fn at(&self, number: u32, point: Point) {
        let _: u32 = match point {
            Point::Entered | Point::Drawn | Point::Answered | Point::Drained => number,
        };
    }
}
