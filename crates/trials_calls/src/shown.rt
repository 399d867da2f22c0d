//! The calls of `uses`, which drivers copy.
ghost use Rattle.std.specs.Prelude.{◌≡◌, ◌<◌, false, true, None};
ghost use Rattle.percpu_core.specs.Starts.{starts_dead};
ghost use Rattle.percpu_gate.specs.Calls.{holding};
ghost use Rattle.percpu_gate.specs.ControlCalls.{kill_refusal};
ghost use Rattle.freeze_queue.specs.BiasedTags.{queue_of, in_now};

use freeze_queue::{BiasedTag, BlockQueue, FreezeFault, Freezer, Limits, Tag};
use percpu_gate::{Control, ControlFault, Gate, Pass, Put};
use std::alloc::{AllocError, Global};
use std::sync::Wait;
use std::thread::Threads;
use uses::{Command, Driven, Raced, Request, Served};

pub fn commands(
    alloc: Global,
    limits: &Limits,
    start: u64,
    count: u32,
) -> Result<Vec<Command>, AllocError>
    requires { start < 4294967296 }
{
    uses::commands(alloc, limits, start, count)
}

pub fn serve(gate: &Gate<1>, pass: &mut Pass<1>, slot: u32) -> Served
    requires own { pass.old.gate ≡ gate.now }
    requires slot { slot < gate.now.slots }
    requires idle { pass.old.view.standing ≡ holding 0 }
{
    uses::serve(gate, pass, slot)
}

pub fn remove(gate: &Gate<1>, control: &mut Control<1>) -> Result<Put, ControlFault>
    requires { control.old.gate ≡ gate.now }
{
    uses::remove(gate, control)
}

pub fn race<R: Threads>(rt: &R, gate: Gate<1>, pass: Pass<1>, control: Control<1>) -> Raced
    requires own { (pass.gate ≡ gate) × (control.gate ≡ gate) }
    requires slots { 0 < gate.slots }
    requires idle { (pass.view.standing ≡ holding 0) × (pass.view.releases ≡ 0) }
    requires live { kill_refusal control.view.standing.phase control.view.standing.kills ≡ None }
    requires passes { control.view.passes ≡ 1 }
    requires new { (starts_dead gate.start ≡ false) × (control.view.releases ≡ 0) × (control.view.zeros_cleared ≡ 0) }
{
    uses::race(rt, gate, pass, control)
}

pub fn submit(
    alloc: Global,
    queue: &BlockQueue,
    tag: &mut Tag,
    slot: u32,
    start: u64,
    count: u32,
) -> Result<Option<Vec<Command>>, AllocError>
    requires own { tag.old.queue ≡ queue.now }
    requires slot { slot < queue.now.gate.slots }
    requires out { tag.old.entered ≡ false }
    requires place { start < 4294967296 }
{
    uses::submit(alloc, queue, tag, slot, start, count)
}

pub fn submit_next<R: Wait>(
    rt: &R,
    alloc: Global,
    queue: &BlockQueue,
    tag: &mut BiasedTag,
    slot: u32,
    request: Request,
) -> Result<Vec<Command>, AllocError>
    requires own { queue_of tag.old ≡ queue.now }
    requires slot { slot < queue.now.gate.slots }
    requires out { in_now tag.old ≡ false }
{
    uses::submit_next(rt, alloc, queue, tag, slot, request)
}

pub fn run_requests<R: Wait>(
    rt: &R,
    alloc: Global,
    queue: &BlockQueue,
    tag: &mut BiasedTag,
    slot: u32,
    requests: &[Request],
) -> Result<Vec<Vec<Command>>, AllocError>
    requires own { queue_of tag.old ≡ queue.now }
    requires slot { slot < queue.now.gate.slots }
    requires out { in_now tag.old ≡ false }
{
    uses::run_requests(rt, alloc, queue, tag, slot, requests)
}

pub fn drive<R: Threads + Wait + Sync>(
    rt: &R,
    alloc: Global,
    queue: &BlockQueue,
    tag: BiasedTag,
    freezer: Freezer,
    requests: &[Request],
    changes: &[Limits],
) -> Driven
    requires own { (queue_of tag ≡ queue.now) × (freezer.queue ≡ queue.now) }
    requires slot { 0 < queue.now.gate.slots }
    requires out { in_now tag ≡ false }
{
    uses::drive(rt, alloc, queue, tag, freezer, requests, changes)
}

pub fn enter_under<R: Wait>(rt: &R, queue: &BlockQueue, tag: &mut Tag, slot: u32, limits: &Limits)
    requires own { tag.old.queue ≡ queue.now }
    requires slot { slot < queue.now.gate.slots }
    requires out { tag.old.entered ≡ false }
{
    uses::enter_under(rt, queue, tag, slot, limits);
}

pub fn change_limits<R: Wait>(
    rt: &R,
    queue: &BlockQueue,
    freezer: &mut Freezer,
    limits: Limits,
) -> Result<(), FreezeFault>
    requires own { freezer.old.queue ≡ queue.now }
    requires hardware { limits.hardware ≡ freezer.old.queue.hardware }
{
    uses::change_limits(rt, queue, freezer, limits)
}
