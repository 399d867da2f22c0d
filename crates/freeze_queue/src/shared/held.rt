//! What a shared freezer does while it holds its lock.
ghost use Rattle.std.specs.Prelude.{◌≡◌, ◌+◌, IfOk, OnErr};
ghost use Rattle.std.specs.Sync.Mutex.{mutex_guard_value};
ghost use Rattle.percpu_gate.specs.declared.tried.Put.{Put};
ghost use Rattle.queue_core.specs.Queue.{after_freeze, after_look, freeze_refusal, fault_of};
ghost use Rattle.freeze_queue.specs.Waiting.{wait_refusal};

use super::Pair;
use crate::queue::BlockQueue;
use queue_core::FreezeFault;
use std::marker::Model;
use std::sync::MutexGuard;

/// The lock of a shared freezer, as its own calls use it. No clause relates the state under a lock after a call to the state before
/// it. So each thing that they do under the lock is a call here, whose contract says exactly what it leaves there.
#[derive(Drop)]
pub(super) struct Held<'g, 'q> {
    guard: MutexGuard<'g, Pair<'q>>,
}

impl<'g, 'q> Model for Held<'g, 'q> {
    ghost use Rattle.std.specs.Sync.Mutex.{mutex_guard_value};
    ghost use Rattle.queue_core.specs.Queue.{FreezerFacts};

    ghost Value = { FreezerFacts };

    ghost view = { λ h. (mutex_guard_value h.guard).freezer };
}

impl<'g, 'q> Held<'g, 'q> {
    /// Keeps a lock that was taken.
    pub(super) fn of(guard: MutexGuard<'g, Pair<'q>>) -> Held<'g, 'q>
        ensures { result ≡ (mutex_guard_value guard.entry).freezer }
    {
        Held { guard }
    }

    /// Returns the lock, for the caller.
    pub(super) fn into_guard(self) -> MutexGuard<'g, Pair<'q>>
        ensures { (mutex_guard_value result).freezer ≡ self.entry }
    {
        self.guard
    }

    /// Returns the queue.
    pub(super) fn queue(&self) -> &'q BlockQueue {
        self.guard.queue
    }

    /// Begins a freeze, and returns the depth. Fails with DepthFull or WornOut.
    pub(super) fn start_freeze(&mut self) -> Result<u32, FreezeFault>
        ensures refused { fault_of result ≡ freeze_refusal self.old }
        ensures unchanged { OnErr result (self.new ≡ self.old) }
        ensures frozen { IfOk result (λ depth. (depth ≡ self.old.depth + 1) × (r : Put) × (self.new ≡ after_freeze r self.old)) }
    {
        let pair = &mut *self.guard;
        pair.freezer.start_freeze(pair.queue)
    }

    /// Returns whether one look finds the queue drained. Fails with NotFrozen.
    pub(super) fn look(&mut self) -> Result<bool, FreezeFault>
        ensures refused { fault_of result ≡ wait_refusal self.old }
        ensures unchanged { OnErr result (self.new ≡ self.old) }
        ensures looked { IfOk result (λ drained. self.new ≡ after_look drained self.old) }
    {
        let pair = &mut *self.guard;
        if pair.freezer.depth() == 0 {
            return Err(FreezeFault::NotFrozen);
        }
        Ok(pair.freezer.poll_drained(pair.queue))
    }
}
