//! The limits of a queue, changed while other threads submit to it.
ghost use Rattle.std.specs.Prelude.{◌≡◌, ◌+◌, ◌<◌, ◌^◌, true, false, Some, IfOk, IfSome, OnOk, OnErr};
ghost use Rattle.percpu_core.specs.Views.{count as one_if};
ghost use Rattle.percpu_gate.specs.Calls.{is_refused, taken, LiveTryFinds};
ghost use Rattle.freeze_queue.specs.Queue.{fault_of, freeze_refusal};
ghost use Rattle.freeze_queue.specs.Readings.{IsTag};
ghost use Rattle.uses.specs.Commands.{lengths, found, AreInARow};
ghost use Rattle.uses.specs.Settings.{IsCutByLimits, IsChanged, WereReadInside, EndsWithOneTry, SubmitSteps, UnderSteps, is_made};

use crate::cutting::{Command, commands};
use freeze_queue::{BlockQueue, Enter, FreezeFault, Freezer, Tag};
use queue_limits::Limits;
use std::alloc::{AllocError, Global};
use std::sync::Wait;
use std::thread;

/// Returns the commands for a request that enters a queue, all of them by the limits that its tag reads. These don't change until
/// it leaves, whatever a freezer does meanwhile. The thread that ends the request leaves with the tag. Returns None if the queue is
/// frozen.
///
/// Linux: `blk_mq_submit_bio` (block/blk-mq.c).
pub fn submit(
    alloc: Global,
    queue: &BlockQueue,
    tag: &mut Tag,
    slot: u32,
    start: u64,
    count: u32,
) -> Result<Option<Vec<Command>>, AllocError>
    requires own { tag.old.queue ≡ queue.now }
    requires slot { slot < queue.now.gate.slots }
    requires out { tag.old.entered ≡ false }
    requires place { start < 2 ^ 32 }
    ensures own { tag.new.queue ≡ queue.now }
    ensures entered { tag.new.entered ≡ is_made result }
    // None means that the attempt to enter found the queue frozen; commands, or a refusal of memory, that it found it live.
    ensures finds { LiveTryFinds queue.now.gate slot tag.old.seat (found result) }
    // It makes one attempt, and a step of this call found what the attempt found.
    ensures counted { tag.new.seat.live_given ≡ tag.old.seat.live_given + taken (found result) }
    ensures times { tag.new.seat.found_dead_times ≡ tag.old.seat.found_dead_times + one_if (is_refused (found result)) }
    // It counts on this slot, and on the shared word only if the slot is closed or full, or if the exchange fails.
    ensures steps { SubmitSteps slot result tag.old.steps tag.new.steps }
    ensures row { IfOk result (λ made. IfSome made (λ made. AreInARow start made.items)) }
    ensures split { IfOk result (λ made. IfSome made (λ made. IsCutByLimits tag.new start count (lengths made.items))) }
{
    match queue.try_enter(tag, slot) {
        Enter::Again => return Ok(None),
        Enter::Entered => {}
    }
    let limits = queue.limits(tag);
    match commands(alloc, &limits, start, count) {
        Ok(made) => Ok(Some(made)),
        Err(why) => {
            queue.leave(tag, slot);
            Err(why)
        }
    }
}

/// Enters, and waits until the limits in force are these. By the time a tag enters after a change of limits, the freezer may have
/// made another change. So the tag compares what it reads, and leaves and enters again if that differs.
pub fn enter_under<R: Wait>(rt: &R, queue: &BlockQueue, tag: &mut Tag, slot: u32, limits: &Limits)
    requires own { tag.old.queue ≡ queue.now }
    requires slot { slot < queue.now.gate.slots }
    requires out { tag.old.entered ≡ false }
    ensures own { tag.new.queue ≡ queue.now }
    ensures entered { tag.new.entered ≡ true }
    ensures told { tag.new.limits ≡ Some limits.now }
    ensures kept { IsTag tag.new }
    // They were read under its latest reference, which it got from a try that found the queue live.
    ensures in_force { WereReadInside queue.now tag.new limits.now }
    ensures finds { EndsWithOneTry queue.now slot tag.old tag.new }
    ensures steps { UnderSteps slot tag.old.steps tag.new.steps }
{
    for _ in rt.forever() {
        queue.enter(rt, tag, slot);
        if queue.limits(tag) == *limits {
            return;
        }
        queue.leave(tag, slot);
        thread::yield_now();
    }
    unreachable!()
}

/// Changes the limits of a queue to which other threads submit: it is frozen, drained, set and thawed.
pub fn change_limits<R: Wait>(
    rt: &R,
    queue: &BlockQueue,
    freezer: &mut Freezer,
    limits: Limits,
) -> Result<(), FreezeFault>
    requires own { freezer.old.queue ≡ queue.now }
    requires hardware { limits.hardware ≡ freezer.old.queue.hardware }
    ensures own { freezer.new.queue ≡ queue.now }
    ensures refused { fault_of result ≡ freeze_refusal freezer.old }
    ensures limits { OnOk result (freezer.new.limits ≡ limits) }
    ensures depth { freezer.new.depth ≡ freezer.old.depth }
    ensures changed { OnOk result (IsChanged limits freezer.old freezer.new) }
    ensures unchanged { OnErr result (freezer.new ≡ freezer.old) }
{
    freezer.freeze(rt, queue)?;
    // Drained: no request is in flight, and none can enter.
    match freezer.set(queue, limits) {
        Ok(()) => {}
        Err(_) => unreachable!(),
    }
    match freezer.thaw(queue) {
        Ok(_) => Ok(()),
        Err(_) => unreachable!(),
    }
}
