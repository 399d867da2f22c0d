//! A thread with a tag of its own, which keeps its reference to the gate between requests.
ghost use Rattle.std.specs.Prelude.{◌≡◌, ◌<◌, ◌^◌, true, false, is_ok, map, IfOk, OnOk};
ghost use Rattle.queue_limits.specs.Pieces.{IsSplit};
ghost use Rattle.freeze_queue.specs.BiasedTags.{queue_of, in_now};
ghost use Rattle.freeze_queue.specs.Lanes.{EntersAtLast};
ghost use Rattle.uses.specs.Commands.{lengths, AreInARow};
ghost use Rattle.uses.specs.Lanes.{AreCut};

use crate::cutting::{Command, commands};
use crate::settings::change_limits;
use freeze_queue::{BiasedTag, BlockQueue, FreezeFault, Freezer};
use queue_limits::Limits;
use std::alloc::{AllocError, Global};
use std::sync::Wait;
use std::thread;
use std::thread::Threads;

/// A request to a device: its first sector, and how many sectors it moves.
#[derive(Clone, Copy, Debug, PartialEq, Eq)]
pub struct Request {
    pub first: u32,
    pub sectors: u32,
}

/// Returns the commands for the next request of a thread, and leaves its tag entered. The tag keeps its reference between requests:
/// so a request of a busy thread costs a store and a load. Waits while the queue is frozen. If memory is refused, the tag leaves.
///
/// Linux: `blk_mq_submit_bio` (block/blk-mq.c), with the request that a plug keeps.
pub fn submit_next<R: Wait>(
    rt: &R,
    alloc: Global,
    queue: &BlockQueue,
    tag: &mut BiasedTag,
    slot: u32,
    request: Request,
) -> Result<Vec<Command>, AllocError>
    requires own { queue_of tag.old ≡ queue.now }
    requires slot { slot < queue.now.gate.slots }
    requires out { in_now tag.old ≡ false }
    ensures own { queue_of tag.new ≡ queue.now }
    ensures entered { in_now tag.new ≡ is_ok result }
    // It entered once, by its lane or by the gate on this slot, and its limits are those of that entry.
    ensures entry { OnOk result (EntersAtLast slot queue.now tag.old tag.new) }
    ensures row { IfOk result (λ made. AreInARow request.first made.items) }
    ensures split { IfOk result (λ made. IsSplit tag.new.limits request.first request.sectors (lengths made.items)) }
{
    queue.enter_by_lane(rt, tag, slot);
    match commands(
        alloc,
        &tag.limits(),
        u64::from(request.first),
        request.sectors,
    ) {
        Ok(made) => Ok(made),
        Err(why) => {
            let _put = queue.leave_by_lane(tag, slot, true);
            Err(why)
        }
    }
}

/// Runs requests one after another, and returns the commands for each. Other threads may change the limits between two of them.
pub fn run_requests<R: Wait>(
    rt: &R,
    alloc: Global,
    queue: &BlockQueue,
    tag: &mut BiasedTag,
    slot: u32,
    requests: &[Request],
) -> Result<Vec<Vec<Command>>, AllocError>
    requires own { queue_of tag.old ≡ queue.now }
    requires slot { slot < queue.now.gate.slots }
    requires out { in_now tag.old ≡ false }
    ensures own { queue_of tag.new ≡ queue.now }
    ensures out { in_now tag.new ≡ false }
    ensures cut { IfOk result (λ made. AreCut requests.now (map (λ c. c.items) made.items)) }
{
    let mut made = Vec::new(alloc);
    for request in requests {
        let cut = submit_next(rt, alloc, queue, tag, slot, *request)?;
        // Here the device moves the sectors. No thread changes the limits meanwhile.
        let _put = queue.leave_by_lane(tag, slot, true);
        made.push(cut)?;
    }
    Ok(made)
}

/// The commands for the requests of a thread, and how another thread's changes of limits went.
#[derive(Debug, Drop)]
pub struct Driven {
    pub commands: Result<Vec<Vec<Command>>, AllocError>,
    pub changed: Result<(), FreezeFault>,
}

/// Makes these changes one after another until one is refused. Limits for another maximum of the hardware are left out.
fn change_all<R: Wait>(
    rt: &R,
    queue: &BlockQueue,
    freezer: &mut Freezer,
    changes: &[Limits],
) -> Result<(), FreezeFault>
    requires own { freezer.old.queue ≡ queue.now }
    ensures own { freezer.new.queue ≡ queue.now }
{
    for limits in changes {
        if limits.hw() == freezer.limits().hw() {
            change_limits(rt, queue, freezer, *limits)?;
        }
    }
    Ok(())
}

/// Runs requests on this thread, while another one changes the limits: each request is cut by the limits under which it entered.
pub fn drive<R: Threads + Wait + Sync>(
    rt: &R,
    alloc: Global,
    queue: &BlockQueue,
    tag: BiasedTag,
    freezer: Freezer,
    requests: &[Request],
    changes: &[Limits],
) -> Driven
    requires own { (queue_of tag ≡ queue.now) × (freezer.queue ≡ queue.now) }
    requires slot { 0 < queue.now.gate.slots }
    requires out { in_now tag ≡ false }
    ensures cut { IfOk result.commands (λ made. AreCut requests.now (map (λ c. c.items) made.items)) }
{
    let (mut tag, mut freezer) = (tag, freezer);
    let (commands, changed) = thread::join(
        rt,
        move || -> Result<Vec<Vec<Command>>, AllocError>
            requires { (queue_of tag ≡ queue.now) × (0 < queue.now.gate.slots) × (in_now tag ≡ false) }
            ensures { IfOk result (λ made. AreCut requests.entry.now (map (λ c. c.items) made.items)) }
        { run_requests(rt, alloc, queue, &mut tag, 0, requests) },
        move || -> Result<(), FreezeFault>
            requires { freezer.queue ≡ queue.now }
        { change_all(rt, queue, &mut freezer, changes) },
    );
    Driven { commands, changed }
}
