//! The freezer: it freezes a queue, waits until it is drained, sets its limits and thaws it.
ghost use Rattle.std.specs.Prelude.{◌≡◌, ◌+◌, ◌<◌, true, IfOk, OnOk, OnErr};
ghost use Rattle.percpu_gate.specs.declared.tried.Put.{Put};
ghost use Rattle.percpu_gate.specs.Seats.{FindsZero};
ghost use Rattle.queue_core.specs.Queue.{IsFreezer, after_freeze, after_look, after_mode, after_thaw, after_set, HasThawed, freeze_refusal, thaw_refusal, fault_of};
ghost use Rattle.queue_core.specs.Sets.{LooksForDrained};
ghost use Rattle.freeze_queue.specs.Waiting.{wait_refusal};

use crate::queue::BlockQueue;
use crossbeam_utils::Backoff;
use crossbeam_utils::sync::Parker;
use queue_core::{FreezeFault, Limits, Mode};
use std::marker::Model;
use std::sync::Wait;

/// Number of looks, with ever longer pauses, before the freezer parks: a drain is often short. `Backoff` would yield from the next
/// pause on, which gives the processor away for a whole time slice if other programs want it.
const LOOKS: u32 = 7;

/// The one freezer of a queue: it counts freezes, and sets the limits while the queue is drained.
///
/// It moves between threads by ownership; [`SharedFreezer`](crate::SharedFreezer) shares it.
#[derive(Drop)]
pub struct Freezer {
    pub(crate) core: queue_core::Freezer,
    /// Where the freezer sleeps until the queue is drained. A parker serves one sleeper, and one thread at a time has
    /// the freezer.
    pub(crate) parker: Parker,
}

impl Model for Freezer {
    ghost use Rattle.queue_core.specs.Queue.{FreezerFacts};

    ghost Value = { FreezerFacts };

    ghost view = { λ f. f.core };
}

impl Freezer {
    /// Returns the number of freezes that aren't thawed yet, 0 to 1,000. The queue is live if it is 0.
    ///
    /// Linux: `mq_freeze_depth` (include/linux/blkdev.h).
    #[inline]
    pub fn depth(&self) -> u32
        ensures value { result ≡ self.now.depth }
        ensures kept { IsFreezer self.now }
    {
        self.core.depth()
    }

    /// Returns the limits in force.
    #[inline]
    pub fn limits(&self) -> Limits
        ensures value { result ≡ self.now.limits }
        ensures kept { IsFreezer self.now }
    {
        self.core.limits()
    }

    /// Begins a freeze, and returns the depth. The first freeze kills the gate: from then on no tag enters, except by
    /// `try_enter_frozen`. Fails with DepthFull or WornOut.
    ///
    /// Linux: `blk_freeze_queue_start` (block/blk-mq.c).
    pub fn start_freeze(&mut self, queue: &BlockQueue) -> Result<u32, FreezeFault>
        requires own { self.old.queue ≡ queue.now }
        ensures refused { fault_of result ≡ freeze_refusal self.old }
        ensures unchanged { OnErr result (self.new ≡ self.old) }
        ensures frozen { IfOk result (λ depth. (depth ≡ self.old.depth + 1) × (r : Put) × (self.new ≡ after_freeze r self.old)) }
    {
        // If the kill drained the queue, no thread sleeps for it: the last thaw woke all threads that waited for a drain. The put of
        // a biased tag comes later.
        let frozen = self.core.start_freeze(&queue.core)?;
        let _put = queue.tell(frozen.reclaimed);
        Ok(frozen.depth)
    }

    /// Returns whether one look finds the queue frozen and drained. Once it has returned true, it does so until the last thaw.
    ///
    /// Linux: `percpu_ref_is_zero` in `blk_mq_freeze_queue_wait` (block/blk-mq.c).
    pub fn poll_drained(&mut self, queue: &BlockQueue) -> bool
        requires own { self.old.queue ≡ queue.now }
        ensures look { self.new ≡ after_look result self.old }
        ensures found { FindsZero queue.now.gate self.old.seat result }
        ensures known { self.old.drained ≡ true → result ≡ true }
        ensures frozen { result ≡ true → 0 < self.old.depth }
    {
        self.core.poll_drained(&queue.core)
    }

    /// Freezes the queue, waits until it is drained, and returns the depth. Fails with DepthFull or WornOut.
    ///
    /// Linux: `blk_mq_freeze_queue` (block/blk-mq.c).
    pub fn freeze<R: Wait>(&mut self, rt: &R, queue: &BlockQueue) -> Result<u32, FreezeFault>
        requires own { self.old.queue ≡ queue.now }
        ensures refused { fault_of result ≡ freeze_refusal self.old }
        ensures unchanged { OnErr result (self.new ≡ self.old) }
        ensures frozen { IfOk result (λ depth. (depth ≡ self.old.depth + 1) × (r : Put) × (self.new ≡ after_look true (after_freeze r self.old))) }
    {
        let depth = self.start_freeze(queue)?;
        self.sleep_until_drained(rt, queue);
        Ok(depth)
    }

    /// Waits until a frozen queue is drained. Fails with NotFrozen. To freeze several queues, begin all freezes first, and then
    /// wait for one after another.
    ///
    /// Linux: `blk_mq_freeze_queue_wait` (block/blk-mq.c).
    pub fn wait_drained<R: Wait>(&mut self, rt: &R, queue: &BlockQueue) -> Result<(), FreezeFault>
        requires own { self.old.queue ≡ queue.now }
        ensures refused { fault_of result ≡ wait_refusal self.old }
        ensures unchanged { OnErr result (self.new ≡ self.old) }
        ensures drained { OnOk result (self.new ≡ after_look true self.old) }
    {
        if self.depth() == 0 {
            return Err(FreezeFault::NotFrozen);
        }
        self.sleep_until_drained(rt, queue);
        Ok(())
    }

    /// Looks until the queue is drained, and parks between two looks once it has paused often enough. The last put wakes it; a wake
    /// left over from an earlier drain costs one look.
    fn sleep_until_drained<R: Wait>(&mut self, rt: &R, queue: &BlockQueue)
        requires own { self.old.queue ≡ queue.now }
        ensures { self.new ≡ after_look true self.old }
    {
        let pauses = Backoff::new();
        let mut looks = LOOKS;
        for _ in rt.forever() {
            if self.poll_drained(queue) {
                return;
            }
            if looks > 0 {
                looks -= 1;
                pauses.snooze();
            } else {
                self.parker.park(rt);
            }
        }
        unreachable!()
    }

    /// Sets the limits of a drained queue. Fails with NotFrozen or NotDrained.
    ///
    /// Linux: from 6.9 on `queue_limits_commit_update` (block/blk-settings.c), under a freeze.
    pub fn set(&mut self, queue: &BlockQueue, limits: Limits) -> Result<(), FreezeFault>
        requires own { self.old.queue ≡ queue.now }
        requires hardware { limits.hardware ≡ self.old.queue.hardware }
        ensures looks { LooksForDrained self.old (fault_of result) }
        ensures unchanged { OnErr result (self.new ≡ self.old) }
        ensures set { OnOk result (self.new ≡ after_set limits self.old) }
    {
        self.core.set(&queue.core, limits)
    }

    /// Counts in this mode from now on, or once the queue is thawed if it is frozen. Depth and limits don't change.
    ///
    /// Linux: `percpu_ref_switch_to_atomic_sync`, `percpu_ref_switch_to_percpu` (lib/percpu-refcount.c).
    pub fn mode(&mut self, queue: &BlockQueue, mode: Mode)
        requires own { self.old.queue ≡ queue.now }
        ensures { self.new ≡ after_mode mode self.old }
    {
        self.core.mode(&queue.core, mode);
    }

    /// Ends a freeze, and returns the depth that is left. The last thaw revives the gate, whether or not the queue is drained.
    /// Fails with NotFrozen.
    ///
    /// Linux: `blk_mq_unfreeze_queue` (block/blk-mq.c).
    pub fn thaw(&mut self, queue: &BlockQueue) -> Result<u32, FreezeFault>
        requires own { self.old.queue ≡ queue.now }
        ensures refused { fault_of result ≡ thaw_refusal self.old }
        ensures unchanged { OnErr result (self.new ≡ self.old) }
        ensures thawed { IfOk result (λ depth. HasThawed queue.now.gate self.old self.new depth) }
        // If the freezer knew that the queue was drained, the revival found it so, and counts that drain.
        ensures drained { IfOk result (λ depth. self.old.drained ≡ true → self.new ≡ after_thaw true self.old) }
    {
        let thawed = self.core.thaw(&queue.core)?;
        if thawed.live {
            queue.wake_all(&self.core);
        }
        Ok(thawed.depth)
    }
}
