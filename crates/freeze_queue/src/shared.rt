//! A freezer that threads share.
ghost use Rattle.std.specs.Prelude.{◌≡◌, true, IfOk, IfSome, IfErr};
ghost use Rattle.std.specs.Sync.Mutex.{mutex_guard_value};
ghost use Rattle.queue_core.specs.declared.fault.FreezeFault.TheVariants.{NotFrozen};
ghost use Rattle.freeze_queue.specs.Waiting.{CanRefuse, IsFreezeRefusal};

mod held;

use crate::freezer::Freezer;
use crate::queue::BlockQueue;
use held::Held;
use queue_core::FreezeFault;
use std::sync::{Mutex, MutexGuard, Wait};

/// A freezer with its queue.
///
/// A thread that got it from a [`SharedFreezer`] holds the lock: other threads that want the freezer, even only to read its depth,
/// wait until the guard is dropped. So `freezer.freeze` and `freezer.wait_drained` through the guard block them for the whole
/// drain. This deadlocks if the drain waits for one of them: for example, for a thread that reads the depth while its tag is
/// entered. `SharedFreezer::freeze` and `wait_drained` sleep with no lock held.
#[derive(Drop)]
pub struct Pair<'q> {
    pub freezer: Freezer,
    pub queue: &'q BlockQueue,
    ghost together: { freezer.queue ≡ queue.now },
}

/// A freezer that threads share behind a lock. Linux: `mq_freeze_lock` (include/linux/blkdev.h).
#[derive(Drop)]
pub struct SharedFreezer<'q> {
    pair: Mutex<Pair<'q>>,
}

impl<'q> SharedFreezer<'q> {
    /// Puts a freezer and its queue behind a lock.
    pub fn new(freezer: Freezer, queue: &'q BlockQueue) -> SharedFreezer<'q>
        requires own { freezer.queue ≡ queue.now }
    {
        SharedFreezer {
            pair: Mutex::new(Pair { freezer, queue }),
        }
    }

    /// Takes the lock. Until the guard is dropped, no other thread gets the freezer or the queue from here.
    pub fn lock<R: Wait>(&self, rt: &R) -> MutexGuard<'_, Pair<'q>> {
        self.pair.lock(rt)
    }

    /// Freezes the queue, waits until it is drained, and returns its lock. The lock is taken only for each look, so that other
    /// threads can read, freeze and thaw meanwhile.
    ///
    /// Fails with DepthFull or WornOut, and with NotFrozen if others have thawed the queue meanwhile.
    ///
    /// Linux: `blk_mq_freeze_queue`, which releases `mq_freeze_lock` before it waits (block/blk-mq.c).
    pub fn freeze<R: Wait>(&self, rt: &R) -> Result<MutexGuard<'_, Pair<'q>>, FreezeFault>
        ensures refused { IfErr result CanRefuse }
        ensures drained { IfOk result (λ guard. (mutex_guard_value guard).freezer.drained ≡ true) }
    {
        self.start_freeze(rt)?;
        self.wait_drained(rt)
    }

    /// Takes the lock, for the shared freezer's own calls.
    fn hold<R: Wait>(&self, rt: &R) -> Held<'_, 'q> {
        Held::of(self.lock(rt))
    }

    /// Begins a freeze, with the lock taken briefly.
    fn start_freeze<R: Wait>(&self, rt: &R) -> Result<u32, FreezeFault>
        ensures { IfErr result IsFreezeRefusal }
    {
        let mut held = self.hold(rt);
        held.start_freeze()
    }

    /// Waits until the queue is drained, in the same way, and returns its lock. Fails with NotFrozen, also if others have thawed
    /// the queue meanwhile.
    ///
    /// Linux: `blk_mq_freeze_queue_wait` (block/blk-mq.c).
    pub fn wait_drained<R: Wait>(&self, rt: &R) -> Result<MutexGuard<'_, Pair<'q>>, FreezeFault>
        ensures refused { IfErr result (λ why. why ≡ NotFrozen) }
        ensures drained { IfOk result (λ guard. (mutex_guard_value guard).freezer.drained ≡ true) }
    {
        let queue = self.hold(rt).queue();
        for _ in queue.drained.tries(rt) {
            if let Some(held) = self.look(rt)? {
                return Ok(held.into_guard());
            }
        }
        unreachable!()
    }

    /// Looks under the lock, and keeps it if the queue is drained.
    fn look<R: Wait>(&self, rt: &R) -> Result<Option<Held<'_, 'q>>, FreezeFault>
        ensures refused { IfErr result (λ why. why ≡ NotFrozen) }
        ensures drained { IfOk result (λ found. IfSome found (λ held. held.drained ≡ true)) }
    {
        let mut held = self.hold(rt);
        if held.look()? {
            return Ok(Some(held));
        }
        Ok(None)
    }

    /// Returns the freezer and its queue.
    pub fn into_inner(self) -> Pair<'q> {
        self.pair.into_inner()
    }
}
