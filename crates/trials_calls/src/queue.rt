//! The calls of `freeze_queue`.
ghost use Rattle.std.specs.Prelude.{◌≡◌, ◌<◌, ◌≤◌, All, true, false};
ghost use Rattle.freeze_queue.specs.Queue.{fault_number};
ghost use Rattle.freeze_queue.specs.BiasedTags.{queue_of, stage, not_in_lane, in_now};

use freeze_queue::{
    BiasedEntry, BiasedTag, BlockQueue, Enter, Final, FreezeFault, Freezer, Limits, Memory, Mode,
    Pair, Put, RemoveFault, SharedFreezer, Tag,
};
use std::alloc::Global;
use std::sync::{MutexGuard, Wait};

pub fn new(
    alloc: Global,
    limits: Limits,
    slots: u32,
    tags: u32,
) -> Result<(BlockQueue, Freezer, Vec<Tag>), Memory>
    requires slots { (1 ≤ slots) × (slots ≤ 512) }
    requires tags { (1 ≤ tags) × (tags ≤ 1023) }
{
    BlockQueue::new(alloc, limits, slots, tags)
}

pub fn slots(queue: &BlockQueue) -> u32 {
    queue.slots()
}

pub fn try_enter(queue: &BlockQueue, tag: &mut Tag, slot: u32) -> Enter
    requires own { tag.old.queue ≡ queue.now }
    requires slot { slot < queue.now.gate.slots }
    requires out { tag.old.entered ≡ false }
{
    queue.try_enter(tag, slot)
}

pub fn try_enter_frozen(queue: &BlockQueue, tag: &mut Tag, slot: u32) -> Enter
    requires own { tag.old.queue ≡ queue.now }
    requires slot { slot < queue.now.gate.slots }
    requires out { tag.old.entered ≡ false }
{
    queue.try_enter_frozen(tag, slot)
}

pub fn enter<R: Wait>(rt: &R, queue: &BlockQueue, tag: &mut Tag, slot: u32)
    requires own { tag.old.queue ≡ queue.now }
    requires slot { slot < queue.now.gate.slots }
    requires out { tag.old.entered ≡ false }
{
    queue.enter(rt, tag, slot);
}

pub fn leave(queue: &BlockQueue, tag: &mut Tag, slot: u32) -> Put
    requires own { tag.old.queue ≡ queue.now }
    requires slot { slot < queue.now.gate.slots }
    requires entered { tag.old.entered ≡ true }
{
    queue.leave(tag, slot)
}

pub fn try_enter_by_lane(queue: &BlockQueue, tag: &mut BiasedTag, slot: u32) -> BiasedEntry
    requires own { queue_of tag.old ≡ queue.now }
    requires slot { slot < queue.now.gate.slots }
    requires out { in_now tag.old ≡ false }
{
    queue.try_enter_by_lane(tag, slot)
}

pub fn look_in(queue: &BlockQueue, tag: &mut BiasedTag, slot: u32) -> BiasedEntry
    requires own { queue_of tag.old ≡ queue.now }
    requires slot { slot < queue.now.gate.slots }
    requires out { in_now tag.old ≡ false }
{
    queue.look_in(tag, slot)
}

pub fn enter_by_lane<R: Wait>(rt: &R, queue: &BlockQueue, tag: &mut BiasedTag, slot: u32)
    requires own { queue_of tag.old ≡ queue.now }
    requires slot { slot < queue.now.gate.slots }
    requires out { in_now tag.old ≡ false }
{
    queue.enter_by_lane(rt, tag, slot);
}

pub fn leave_by_lane(queue: &BlockQueue, tag: &mut BiasedTag, slot: u32, keep: bool) -> Put
    requires own { queue_of tag.old ≡ queue.now }
    requires slot { slot < queue.now.gate.slots }
    requires entered { in_now tag.old ≡ true }
{
    queue.leave_by_lane(tag, slot, keep)
}

pub fn end_bias(queue: &BlockQueue, tag: &mut BiasedTag, slot: u32) -> Option<Put>
    requires own { queue_of tag.old ≡ queue.now }
    requires slot { slot < queue.now.gate.slots }
    requires out { not_in_lane (stage tag.old) ≡ true }
{
    queue.end_bias(tag, slot)
}

pub fn limits_under(queue: &BlockQueue, tag: &mut Tag) -> Limits
    requires own { tag.old.queue ≡ queue.now }
    requires entered { tag.old.entered ≡ true }
{
    queue.limits(tag)
}

pub fn entered(tag: &Tag) -> bool {
    tag.entered()
}

pub fn start_freeze(freezer: &mut Freezer, queue: &BlockQueue) -> Result<u32, FreezeFault>
    requires { freezer.old.queue ≡ queue.now }
{
    freezer.start_freeze(queue)
}

pub fn freeze<R: Wait>(
    rt: &R,
    freezer: &mut Freezer,
    queue: &BlockQueue,
) -> Result<u32, FreezeFault>
    requires { freezer.old.queue ≡ queue.now }
{
    freezer.freeze(rt, queue)
}

pub fn wait_drained<R: Wait>(
    rt: &R,
    freezer: &mut Freezer,
    queue: &BlockQueue,
) -> Result<(), FreezeFault>
    requires { freezer.old.queue ≡ queue.now }
{
    freezer.wait_drained(rt, queue)
}

pub fn poll_drained(freezer: &mut Freezer, queue: &BlockQueue) -> bool
    requires { freezer.old.queue ≡ queue.now }
{
    freezer.poll_drained(queue)
}

pub fn thaw(freezer: &mut Freezer, queue: &BlockQueue) -> Result<u32, FreezeFault>
    requires { freezer.old.queue ≡ queue.now }
{
    freezer.thaw(queue)
}

pub fn set(freezer: &mut Freezer, queue: &BlockQueue, limits: Limits) -> Result<(), FreezeFault>
    requires own { freezer.old.queue ≡ queue.now }
    requires hardware { limits.hardware ≡ queue.now.hardware }
{
    freezer.set(queue, limits)
}

pub fn mode(freezer: &mut Freezer, queue: &BlockQueue, mode: Mode)
    requires { freezer.old.queue ≡ queue.now }
{
    freezer.mode(queue, mode);
}

pub fn depth(freezer: &Freezer) -> u32 {
    freezer.depth()
}

pub fn limits(freezer: &Freezer) -> Limits {
    freezer.limits()
}

pub fn remove(freezer: Freezer, queue: BlockQueue, tags: Vec<Tag>) -> Result<Final<3>, RemoveFault>
    requires own { freezer.queue ≡ queue }
    requires tags { All (λ t. t.queue ≡ queue) tags.items }
    requires out { All (λ t. t.entered ≡ false) tags.items }
{
    freezer.remove(queue, tags)
}

pub fn shared(freezer: Freezer, queue: &BlockQueue) -> SharedFreezer<'_>
    requires { freezer.queue ≡ queue.now }
{
    SharedFreezer::new(freezer, queue)
}

pub fn lock<'g, 'q, R: Wait>(rt: &R, shared: &'g SharedFreezer<'q>) -> MutexGuard<'g, Pair<'q>> {
    shared.lock(rt)
}

pub fn shared_freeze<'g, 'q, R: Wait>(
    rt: &R,
    shared: &'g SharedFreezer<'q>,
) -> Result<MutexGuard<'g, Pair<'q>>, FreezeFault> {
    shared.freeze(rt)
}

pub fn shared_wait<'g, 'q, R: Wait>(
    rt: &R,
    shared: &'g SharedFreezer<'q>,
) -> Result<MutexGuard<'g, Pair<'q>>, FreezeFault> {
    shared.wait_drained(rt)
}

pub fn into_inner(shared: SharedFreezer<'_>) -> Pair<'_> {
    shared.into_inner()
}

/// Returns the pair that a lock keeps.
pub fn parted(pair: Pair<'_>) -> (Freezer, &BlockQueue) {
    let Pair { freezer, queue } = pair;
    (freezer, queue)
}

/// Returns whether a tag has entered.
pub fn is_entered(enter: Enter) -> bool {
    match enter {
        Enter::Entered => true,
        Enter::Again => false,
    }
}

/// Returns the number of a refusal.
pub fn freeze_fault(fault: FreezeFault) -> u8
    ensures { result ≡ fault_number fault }
{
    match fault {
        FreezeFault::DepthFull => 1,
        FreezeFault::NotFrozen => 2,
        FreezeFault::NotDrained => 3,
        FreezeFault::TagsOut(tags) => {
            let _: u32 = tags;
            4
        }
        FreezeFault::WornOut => 5,
    }
}

/// Returns why a queue may not end, its freezer, the queue and its tags.
pub fn handed_back(fault: RemoveFault) -> (FreezeFault, Freezer, BlockQueue, Vec<Tag>) {
    let RemoveFault {
        why,
        freezer,
        queue,
        tags,
    } = fault;
    (why, freezer, queue, tags)
}
