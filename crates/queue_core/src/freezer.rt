//! The freezer: it freezes a queue, sets its limits and thaws it.
ghost use Rattle.std.specs.Prelude.{◌≡◌, ◌+◌, ◌<◌, ◌≤◌, true, false, [], IfOk, OnOk, OnErr};
ghost use Rattle.bias_lanes.specs.Rule.{new_freezer};
ghost use Rattle.percpu_gate.specs.declared.tried.Put.TheVariants.{Last};
ghost use Rattle.queue_core.specs.Biased.{DropsLast, epoch_after};
ghost use Rattle.percpu_gate.specs.Seats.{fresh_control};
ghost use Rattle.percpu_gate.specs.ControlCalls.{after_switch};
ghost use Rattle.percpu_words.specs.declared.mode.Mode.TheVariants.{Slots};
ghost use Rattle.percpu_core.specs.declared.phase.Phase.TheVariants as phases;
ghost use Rattle.percpu_core.specs.declared.start.Start.TheVariants.{Atomic};
ghost use Rattle.queue_limits.specs.Words.{to_words};
ghost use Rattle.percpu_gate.specs.declared.tried.Put.{Put};
ghost use Rattle.percpu_gate.specs.declared.tried.Put.TheVariants.{NotLast};
ghost use Rattle.percpu_gate.specs.Seats.{FindsZero};
ghost use Rattle.queue_core.specs.Queue.{IsFreezer, first_freezer, after_freeze, after_look, after_mode, after_thaw, after_set, after_return, HasThawed, freeze_refusal, thaw_refusal, fault_of};
ghost use Rattle.queue_core.specs.Sets.{LooksForDrained};

use crate::at_gate::put_once;
use crate::fault::FreezeFault;
use crate::limit_words::{LIMIT_WORDS, store_words};
use crate::parked::ParkedPass;
use crate::queue::BlockQueue;
use crate::tag::Tag;
use bias_lanes::{Fenced, Freezer as LaneFreezer};
use percpu_gate::{Control, Gate, Mode, Put};
use queue_limits::Limits;
use std::marker::Model;

/// Maximum number of freezes under way at once.
pub const MOST_DEPTH: u32 = 1_000;

/// The result of starting a freeze.
#[derive(Clone, Copy, Debug, PartialEq, Eq)]
pub struct Frozen {
    /// The number of freezes that aren't thawed yet, including this freeze.
    pub depth: u32,
    /// `Last` if this freeze found nobody in the queue: it is drained, and no other call returns that. Otherwise call
    /// `poll_drained`; if it returns false, a later put or refused try returns `Last`, unless the queue is thawed first.
    pub put: Put,
    /// `Last` if the put of a tag that this freeze found biased and idle was the last.
    pub reclaimed: Put,
}

/// The result of a thaw.
#[derive(Clone, Copy, Debug, PartialEq, Eq)]
pub struct Thawed {
    /// The number of freezes that are left.
    pub depth: u32,
    /// Whether the queue is live again: then the threads that wait to enter have to be woken.
    pub live: bool,
}

/// The one freezer of a queue: it counts freezes, and sets the limits while the queue is drained.
///
/// It moves between threads by ownership.
#[derive(Drop)]
pub struct Freezer {
    control: Control<LIMIT_WORDS>,
    depth: u32,
    limits: Limits,
    lanes: LaneFreezer<ParkedPass, Gate<LIMIT_WORDS>>,
}

impl Model for Freezer {
    ghost use Rattle.queue_core.specs.Queue.{FreezerFacts};

    ghost Value = { FreezerFacts };

    ghost use Rattle.queue_core.specs.Readings.{freezer_facts, Keeps};

    ghost view = { λ f. freezer_facts f.control f.depth f.limits f.lanes.lanes };

    ghost use Rattle.queue_core.specs.Biased.{KeepsLanes};

    ghost invariant = { λ f. Keeps f.control.view f.control.wants f.depth f.limits × KeepsLanes f.lanes f.control.gate f.depth f.control.view.standing.kills };
}

impl Freezer {
    /// The freezer of a new queue that counts on its slots.
    pub(crate) fn new(
        control: Control<LIMIT_WORDS>,
        limits: Limits,
        lanes: LaneFreezer<ParkedPass, Gate<LIMIT_WORDS>>,
    ) -> Freezer
        requires new { control ≡ after_switch Slots (fresh_control control.gate control.view.passes (to_words limits)) }
        requires live { control.gate.start ≡ Atomic }
        requires lanes { (lanes.lanes.key ≡ control.gate) × (lanes.view ≡ new_freezer) × (lanes.out ≡ []) }
        ensures { result ≡ first_freezer (record { gate = control.gate; hardware = limits.hardware; lanes = lanes.lanes }) limits control.view.passes }
    {
        Freezer {
            control,
            depth: 0,
            limits,
            lanes,
        }
    }

    /// The number of freezes that aren't thawed yet: 0 to 1,000. The queue is live if it is 0. Linux: `mq_freeze_depth`
    /// (include/linux/blkdev.h).
    #[inline]
    pub fn depth(&self) -> u32
        ensures value { result ≡ self.now.depth }
        ensures kept { IsFreezer self.now }
    {
        // The type's facts speak of the control too, so the clause needs it read.
        let _ = &self.control;
        let _ = &self.lanes;
        self.depth
    }

    /// The number of tags that the freezer hasn't taken back: all of the queue's, until the queue ends.
    #[inline]
    pub fn tags(&self) -> u32
        ensures { result ≡ self.now.tags }
    {
        self.control.passes()
    }

    /// The limits in force.
    #[inline]
    pub fn limits(&self) -> Limits
        ensures value { result ≡ self.now.limits }
        ensures kept { IsFreezer self.now }
    {
        let _ = &self.control;
        let _ = &self.lanes;
        self.limits
    }

    /// Begins a freeze. Returns the depth, and `Last` if this call drained the queue. The first freeze kills the gate,
    /// so that no tag enters from then on, except to look; then it takes the bias of each idle tag away. Refuses with
    /// DepthFull or WornOut. Linux: `blk_freeze_queue_start` (block/blk-mq.c).
    pub fn start_freeze(&mut self, queue: &BlockQueue) -> Result<Frozen, FreezeFault>
        requires own { self.old.queue ≡ queue.now }
        ensures refused { fault_of result ≡ freeze_refusal self.old }
        ensures unchanged { OnErr result (self.new ≡ self.old) }
        ensures frozen { IfOk result (λ f. (f.depth ≡ self.old.depth + 1) × (self.new ≡ after_freeze f.put self.old)) }
        // Only the kill drops a reference, so a nested freeze never returns `Last`.
        ensures nested { IfOk result (λ f. 0 < self.old.depth → f.put ≡ NotLast) }
        // Behind the kill, the first freeze drops the references of parked passes.
        ensures reclaimed { IfOk result (λ f. f.reclaimed ≡ Last → (self.old.depth ≡ 0) × DropsLast queue.now) }
    {
        if self.depth >= MOST_DEPTH {
            return Err(FreezeFault::DepthFull);
        }
        let put = if self.depth == 0 {
            let put = self
                .control
                .kill(&queue.gate)
                .map_err(|_| FreezeFault::WornOut)?;
            self.lanes.freeze(&queue.lanes);
            put
        } else {
            Put::NotLast
        };
        self.depth += 1;
        let reclaimed = if self.depth == 1 {
            self.reclaim_all(queue)
        } else {
            Put::NotLast
        };
        Ok(Frozen {
            depth: self.depth,
            put,
            reclaimed,
        })
    }

    /// Takes the bias of each idle tag away. Returns `Last` if one of their puts was the last.
    fn reclaim_all(&mut self, queue: &BlockQueue) -> Put
        requires own { self.old.queue ≡ queue.now }
        requires frozen { 0 < self.old.depth }
        ensures same { self.new ≡ self.old }
        ensures last { result ≡ Last → DropsLast queue.now }
    {
        if !queue.has_parked() {
            return Put::NotLast;
        }
        let fenced = self.lanes.fence();
        let mut last = Put::NotLast;
        for lane in 0..queue.lanes.count() {
            if self.reclaim(queue, lane, &fenced) == Put::Last {
                last = Put::Last;
            }
        }
        last
    }

    /// Looks at a lane behind the fence of this freeze, and drops the reference of the pass that is parked in it, if its owner is out.
    fn reclaim(&mut self, queue: &BlockQueue, lane: usize, fenced: &Fenced) -> Put
        requires own { self.old.queue ≡ queue.now }
        requires there { lane < queue.now.lanes.id.slots }
        requires frozen { 0 < self.old.depth }
        requires fenced { fenced.now ≡ epoch_after self.old.depth self.old.kills }
        ensures same { self.new ≡ self.old }
        ensures last { result ≡ Last → DropsLast queue.now }
    {
        if self.lanes.look(&queue.lanes, lane, fenced) {
            return Put::NotLast;
        }
        let Some(mut parked) = self.lanes.reclaim(&queue.lanes, lane) else {
            return Put::NotLast;
        };
        if parked.pass.held() == 1 {
            queue.count_back();
        }
        let put = put_once(&mut parked.pass, &queue.gate, parked.slot);
        self.lanes.restore(&queue.lanes, lane, parked);
        put
    }

    /// Whether one look finds the queue frozen and drained. Once it has returned true it does so until the last thaw.
    /// Linux: `percpu_ref_is_zero` in `blk_mq_freeze_queue_wait` (block/blk-mq.c).
    pub fn poll_drained(&mut self, queue: &BlockQueue) -> bool
        requires own { self.old.queue ≡ queue.now }
        ensures look { self.new ≡ after_look result self.old }
        ensures found { FindsZero queue.now.gate self.old.seat result }
        ensures known { self.old.drained ≡ true → result ≡ true }
        ensures frozen { result ≡ true → 0 < self.old.depth }
    {
        self.control.is_zero(&queue.gate)
    }

    /// Sets the limits of a drained queue. Refuses with NotFrozen or NotDrained. Linux: from 6.9 on
    /// `queue_limits_commit_update` (block/blk-settings.c), under a freeze.
    pub fn set(&mut self, queue: &BlockQueue, limits: Limits) -> Result<(), FreezeFault>
        requires own { self.old.queue ≡ queue.now }
        requires hardware { limits.hardware ≡ self.old.queue.hardware }
        ensures looks { LooksForDrained self.old (fault_of result) }
        ensures unchanged { OnErr result (self.new ≡ self.old) }
        ensures set { OnOk result (self.new ≡ after_set limits self.old) }
    {
        if self.depth == 0 {
            return Err(FreezeFault::NotFrozen);
        }
        if !self.poll_drained(queue) {
            return Err(FreezeFault::NotDrained);
        }
        store_words(&mut self.control, &queue.gate, limits.to_words());
        self.limits = limits;
        Ok(())
    }

    /// Counts in this mode from now on; if the queue is frozen, once it is thawed. Depth and limits stay. Linux:
    /// `percpu_ref_switch_to_atomic_sync`, `percpu_ref_switch_to_percpu` (lib/percpu-refcount.c).
    pub fn mode(&mut self, queue: &BlockQueue, mode: Mode)
        requires own { self.old.queue ≡ queue.now }
        ensures { self.new ≡ after_mode mode self.old }
    {
        let switched = match mode {
            Mode::Atomic => self.control.switch_to_atomic(&queue.gate),
            Mode::Slots => self.control.switch_to_slots(&queue.gate),
        };
        prove!(switched.is_ok());
    }

    /// Ends a freeze. Returns the depth that is left, and whether the queue is live again: then the threads that wait
    /// to enter have to be woken. The last thaw revives the gate, drained or not. Refuses with NotFrozen. Linux:
    /// `blk_mq_unfreeze_queue` (block/blk-mq.c).
    pub fn thaw(&mut self, queue: &BlockQueue) -> Result<Thawed, FreezeFault>
        requires own { self.old.queue ≡ queue.now }
        ensures refused { fault_of result ≡ thaw_refusal self.old }
        ensures unchanged { OnErr result (self.new ≡ self.old) }
        ensures thawed { IfOk result (λ t. HasThawed queue.now.gate self.old self.new t.depth) }
        ensures live { IfOk result (λ t. (t.depth ≡ self.new.depth) × (t.live ≡ self.new.live)) }
        // If the freezer knew that the queue was drained, the revival found it so, and counts that drain.
        ensures drained { IfOk result (λ t. self.old.drained ≡ true → self.new ≡ after_thaw true self.old) }
    {
        if self.depth == 0 {
            return Err(FreezeFault::NotFrozen);
        }
        self.depth -= 1;
        if self.depth == 0 {
            let revived = self.control.resurrect(&queue.gate);
            prove!(revived.is_ok());
            self.lanes.thaw(&queue.lanes);
        }
        Ok(Thawed {
            depth: self.depth,
            live: self.depth == 0,
        })
    }

    /// Takes a tag back.
    pub(crate) fn take_back(&mut self, queue: &BlockQueue, tag: Tag)
        requires own { (self.old.queue ≡ queue.now) × (tag.queue ≡ queue.now) }
        requires out { tag.entered ≡ false }
        ensures { self.new ≡ after_return tag self.old }
    {
        self.control.retire(&queue.gate, tag.into_pass());
    }

    /// The control of a freezer that ends.
    pub(crate) fn into_control(self) -> Control<LIMIT_WORDS>
        ensures own { result.gate ≡ self.queue.gate }
        ensures seat { result.view ≡ self.seat }
        ensures dead { self.live ≡ false → result.view.standing.phase ≡ phases.Dead }
        ensures counts { (result.view.standing.kills ≡ self.kills) × (result.view.releases ≡ self.releases) × (result.view.passes ≡ self.tags) }
        ensures words { result.view.words ≡ to_words self.limits }
    {
        self.control
    }
}
