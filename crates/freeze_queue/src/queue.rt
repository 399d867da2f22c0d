//! The queue that tags enter and leave, and where threads wait for it.
ghost use Rattle.std.specs.Prelude.{◌≡◌, ◌+◌, ◌<◌, ◌≤◌, true, false, replicate, IfSome, IfOk};
ghost use Rattle.percpu_core.specs.declared.limits.TheConstants.{SLOT_LIMIT};
ghost use Rattle.percpu_core.specs.declared.view.PassView.{PassView};
ghost use Rattle.percpu_core.specs.Views.{count};
ghost use Rattle.percpu_core.specs.declared.pass_event.PassEvent.TheVariants as events;
ghost use Rattle.percpu_gate.specs.Steps.{PutSteps};
ghost use Rattle.percpu_gate.specs.Calls.{is_refused, taken, has_dead, has_zero, LiveTryFinds, TryFinds, TryMeets};
ghost use Rattle.percpu_gate.specs.declared.tried.Put.TheVariants.{Last};
ghost use Rattle.percpu_gate.specs.declared.tried.Tried.TheVariants.{Given};
ghost use Rattle.queue_core.specs.declared.queue.TheConstants.{MOST_TAGS};
ghost use Rattle.queue_core.specs.Queue.{IsQueue, first_tag, first_freezer, come_to, after_entering, after_refusal, after_asking, after_leaving};
ghost use Rattle.queue_core.specs.AtTheGate.{AreInForce, HoldsOff};
ghost use Rattle.queue_core.specs.Readings.{IsTag, AskSteps};
ghost use Rattle.freeze_queue.specs.declared.enter.Enter.TheVariants.{Entered, Again};
ghost use Rattle.freeze_queue.specs.Entering.{answered, EndsWithEntering, EnterSteps, WaitSteps};

use crate::enter::Enter;
use crate::freezer::Freezer;
use crossbeam_utils::sync::{Parker, Unparker};
use queue_core::{Entry, Limits, Memory, Put, Tag};
use std::alloc::Global;
use std::marker::Model;
use std::sync::Wait;
use wait_queue::WaitQueue;

/// A queue, its freezer and its tags.
pub type NewQueue = (BlockQueue, Freezer, Vec<Tag>);

/// A queue that requests enter and leave and that can be frozen. Threads share it by reference. Linux: `struct
/// request_queue` (include/linux/blkdev.h).
#[derive(Drop)]
pub struct BlockQueue {
    pub(crate) core: queue_core::BlockQueue,
    /// Wakes the freezer, which parks until the queue is drained.
    pub(crate) freezer: Unparker,
    /// The threads that wait for the drain by a shared freezer. Linux: `mq_freeze_wq`, on which all threads wait.
    pub(crate) drained: WaitQueue,
    /// The threads that wait to enter.
    pub(crate) thawed: WaitQueue,
}

impl Model for BlockQueue {
    ghost use Rattle.queue_core.specs.Queue.{QueueFacts, IsQueue};

    ghost Value = { QueueFacts };

    ghost view = { λ q. q.core };

    ghost invariant = { λ q. IsQueue q.core };
}

impl BlockQueue {
    /// Returns a live queue with these limits that counts on its slots (1 to 512), its freezer, and this many tags (1 to 1,023),
    /// none of which is entered. Returns Memory if memory is refused.
    ///
    /// Linux: `blk_mq_init_queue`, from 6.9 on `blk_mq_alloc_queue` (block/blk-mq.c).
    pub fn new(alloc: Global, limits: Limits, slots: u32, tags: u32) -> Result<NewQueue, Memory>
        requires slots { (1 ≤ slots) × (slots ≤ SLOT_LIMIT) }
        requires tags { (1 ≤ tags) × (tags ≤ MOST_TAGS) }
        ensures queue { IfOk result (λ q. (q.0.gate.slots ≡ slots) × (q.0.hardware ≡ limits.hardware)) }
        ensures freezer { IfOk result (λ q. q.1 ≡ first_freezer q.0 limits tags) }
        ensures tags { IfOk result (λ q. q.2.items ≡ replicate tags (first_tag q.0)) }
    {
        let parker = Parker::new(alloc)?;
        let unparker = parker.unparker().clone()?;
        let (core, freezer, made) = queue_core::BlockQueue::new(alloc, limits, slots, tags)?;
        let queue = BlockQueue {
            core,
            freezer: unparker,
            drained: WaitQueue::new(),
            thawed: WaitQueue::new(),
        };
        let freezer = Freezer {
            core: freezer,
            parker,
        };
        Ok((queue, freezer, made))
    }

    /// Returns the number of slots, 1 to 512.
    #[inline]
    pub fn slots(&self) -> u32
        ensures value { result ≡ self.now.gate.slots }
        ensures kept { IsQueue self.now }
    {
        self.core.slots()
    }

    /// Wakes the threads that wait for the drain, if this put was the last: they then find the queue drained.
    #[inline]
    pub(crate) fn tell(&self, put: Put) -> Put
        ensures { result ≡ put }
    {
        if put == Put::Last {
            self.wake_drained(put);
        }
        put
    }

    /// Wakes the threads that wait for the drain, after the last put. Any other put wakes nobody.
    #[inline]
    fn wake_drained(&self, put: Put)
        requires last { put ≡ Last }
    {
        let _ = put;
        self.freezer.unpark();
        self.drained.wake_all();
    }

    /// Wakes all waiters, after the freezer has revived the gate: a thread woken earlier would be refused, and might be asleep
    /// again by the time the gate is live. A thread that waits for the drain of a freeze that has ended sees no freeze in progress.
    pub(crate) fn wake_all(&self, freezer: &queue_core::Freezer)
        requires own { freezer.now.queue ≡ self.now }
        requires live { freezer.now.live ≡ true }
    {
        let _ = freezer;
        self.thawed.wake_all();
        self.drained.wake_all();
    }

    /// Enters unless the queue is frozen. Linux: `blk_queue_enter` with BLK_MQ_REQ_NOWAIT (block/blk-core.c).
    ///
    /// A refused try holds a reference briefly, and so delays the drain; for that reason `enter` backs off. In Linux
    /// `percpu_ref_tryget_live` looks at its mark first, and counts nothing if it is set.
    #[inline]
    pub fn try_enter(&self, tag: &mut Tag, slot: u32) -> Enter
        requires own { tag.old.queue ≡ self.now }
        requires slot { slot < self.now.gate.slots }
        requires out { tag.old.entered ≡ false }
        ensures entered { result ≡ Entered → tag.new ≡ come_to tag.new.steps (after_entering tag.new.seat tag.old) }
        ensures again { result ≡ Again → (r : Put) × (tag.new ≡ come_to tag.new.steps (after_refusal r tag.new.seat tag.old)) × (tag.new.seat.found_dead ≡ true) }
        // It looks at its slot once, and counts on the shared word only if the slot is closed or full, or if the exchange fails.
        ensures steps { EnterSteps events.AddLive slot result tag.old.steps tag.new.steps }
        ensures finds { LiveTryFinds self.now.gate slot tag.old.seat (answered result) }
        // Again found DEAD at the one addition of this very call, even if the tag was refused before.
        ensures meets { TryMeets self.now.gate has_dead tag.old.seat tag.new.seat (is_refused (answered result)) }
        ensures looks { tag.new.seat.looks ≡ tag.old.seat.looks }
        // What Entered found comes from the very step that took the reference: DEAD was clear, or the slot was still
        // open.
        ensures counted { tag.new.seat.live_given ≡ tag.old.seat.live_given + taken (answered result) }
        ensures times { tag.new.seat.found_dead_times ≡ tag.old.seat.found_dead_times + count (is_refused (answered result)) }
    {
        match self.core.try_enter(tag, slot) {
            Entry::Entered => Enter::Entered,
            Entry::Refused(put) => {
                let _put = self.tell(put);
                Enter::Again
            }
        }
    }

    /// Enters a queue that may be frozen, to look at the requests in flight, unless it is drained. Until the tag leaves, it holds
    /// off the drain and may read the limits.
    ///
    /// Linux: `percpu_ref_tryget` of `q_usage_counter`, as for timeouts and iterating over tags (block/blk-mq.c,
    /// block/blk-mq-tag.c).
    #[inline]
    pub fn try_enter_frozen(&self, tag: &mut Tag, slot: u32) -> Enter
        requires own { tag.old.queue ≡ self.now }
        requires slot { slot < self.now.gate.slots }
        requires out { tag.old.entered ≡ false }
        ensures entered { result ≡ Entered → tag.new ≡ come_to tag.new.steps (after_entering tag.new.seat tag.old) }
        ensures again { result ≡ Again → (r : Put) × (tag.new ≡ come_to tag.new.steps (after_refusal r tag.new.seat tag.old)) × (tag.new.seat.found_zero ≡ true) }
        ensures steps { EnterSteps events.AddTry slot result tag.old.steps tag.new.steps }
        ensures finds { TryFinds self.now.gate tag.old.seat (answered result) }
        // Again found ZERO at the one addition of this very call, even if the tag was refused before.
        ensures meets { TryMeets self.now.gate has_zero tag.old.seat tag.new.seat (is_refused (answered result)) }
        ensures times { tag.new.seat.found_zero_times ≡ tag.old.seat.found_zero_times + count (is_refused (answered result)) }
        ensures holds_off { HoldsOff tag.new }
    {
        match self.core.try_enter_frozen(tag, slot) {
            Entry::Entered => Enter::Entered,
            Entry::Refused(put) => {
                let _put = self.tell(put);
                Enter::Again
            }
        }
    }

    /// Enters, and waits while the queue is frozen. Linux: `blk_queue_enter` (block/blk-core.c), which sleeps on
    /// `mq_freeze_wq`.
    #[inline]
    pub fn enter<R: Wait>(&self, rt: &R, tag: &mut Tag, slot: u32)
        requires own { tag.old.queue ≡ self.now }
        requires slot { slot < self.now.gate.slots }
        requires out { tag.old.entered ≡ false }
        ensures entered { tag.new ≡ record (after_entering tag.new.seat tag.old) { releases = tag.new.releases; steps = tag.new.steps } }
        ensures steps { WaitSteps slot tag.old.steps tag.new.steps }
        ensures releases { tag.old.releases ≤ tag.new.releases }
        ensures counted { tag.new.seat.live_given ≡ tag.old.seat.live_given + 1 }
        ensures finds { EndsWithEntering self.now.gate slot tag.old.seat }
        // It makes no plain load of the shared word: a try learns the marks from its addition.
        ensures looks { tag.new.seat.looks ≡ tag.old.seat.looks }
        ensures times { tag.old.seat.found_dead_times ≤ tag.new.seat.found_dead_times }
    {
        if self.try_enter(tag, slot) == Enter::Again {
            self.enter_once_thawed(rt, tag, slot);
        }
    }

    // Waits between its tries. Separate from `enter`, so that `enter` on a live queue is one try and nothing else.
    fn enter_once_thawed<R: Wait>(&self, rt: &R, tag: &mut Tag, slot: u32)
        requires own { tag.old.queue ≡ self.now }
        requires slot { slot < self.now.gate.slots }
        requires out { tag.old.entered ≡ false }
        ensures entered { tag.new ≡ record (after_entering tag.new.seat tag.old) { releases = tag.new.releases; steps = tag.new.steps } }
        ensures steps { WaitSteps slot tag.old.steps tag.new.steps }
        ensures releases { tag.old.releases ≤ tag.new.releases }
        ensures counted { tag.new.seat.live_given ≡ tag.old.seat.live_given + 1 }
        ensures finds { EndsWithEntering self.now.gate slot tag.old.seat }
        ensures looks { tag.new.seat.looks ≡ tag.old.seat.looks }
        ensures times { tag.old.seat.found_dead_times ≤ tag.new.seat.found_dead_times }
    {
        for _ in self.thawed.tries(rt) {
            if self.try_enter(tag, slot) == Enter::Entered {
                return;
            }
        }
        unreachable!()
    }

    /// Leaves. Returns `Last` if this was the last put of a freeze: then the queue is drained. Linux: `blk_queue_exit`
    /// (block/blk-core.c).
    #[inline]
    pub fn leave(&self, tag: &mut Tag, slot: u32) -> Put
        requires own { tag.old.queue ≡ self.now }
        requires slot { slot < self.now.gate.slots }
        requires entered { tag.old.entered ≡ true }
        ensures leaves { tag.new ≡ come_to tag.new.steps (after_leaving result tag.old) }
        ensures steps { PutSteps slot 1 result tag.old.steps tag.new.steps }
    {
        self.tell(self.core.leave(tag, slot))
    }

    /// Returns the limits in force, for an entered tag. They are the same at each call until it leaves, whichever threads make the
    /// calls.
    #[inline]
    pub fn limits(&self, tag: &mut Tag) -> Limits
        requires own { tag.old.queue ≡ self.now }
        requires entered { tag.old.entered ≡ true }
        ensures told { tag.new ≡ come_to tag.new.steps (after_asking result tag.new.seat tag.old) }
        ensures steps { AskSteps tag.old.steps tag.new.steps }
        ensures kept { IsTag tag.new }
        ensures in_force { AreInForce self.now.gate self.now.hardware tag.old.seat result }
        ensures same { IfSome tag.old.limits (λ l. result ≡ l) }
        ensures hardware { result.hardware ≡ self.now.hardware }
    {
        self.core.limits(tag)
    }
}
