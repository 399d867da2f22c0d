//! The queue that tags enter and leave.
ghost use Rattle.std.specs.Prelude.{◌≡◌, ◌+◌, ◌<◌, ◌≤◌, true, false, All, map, replicate, IfSome, IfOk};
ghost use Rattle.percpu_core.specs.declared.limits.TheConstants.{SLOT_LIMIT};
ghost use Rattle.percpu_gate.specs.Seats.{GateFacts, fresh_pass};
ghost use Rattle.queue_core.specs.Queue.{IsQueue, first_tag, first_freezer, come_to, after_asking, after_leaving};
ghost use Rattle.percpu_core.specs.Views.{count};
ghost use Rattle.percpu_core.specs.declared.pass_event.PassEvent.TheVariants as events;
ghost use Rattle.percpu_gate.specs.Steps.{TrySteps, PutSteps};
ghost use Rattle.percpu_gate.specs.Calls.{is_refused, taken, has_dead, has_zero, LiveTryFinds, TryFinds, TryMeets};
ghost use Rattle.queue_core.specs.AtTheGate.{AreInForce, HoldsOff};
ghost use Rattle.queue_core.specs.Readings.{IsTag, AskSteps};
ghost use Rattle.queue_core.specs.Entering.{tried, after_try};
ghost use Rattle.queue_core.specs.Staying.{has_left, after_stay, FindsDead, StaySteps};

use crate::freezer::Freezer;
use crate::limit_words::{LIMIT_WORDS, load_words};
use crate::parked::ParkedPass;
use crate::tag::{Entry, Stay, Tag};
use bias_lanes::Lanes;
use percpu_gate::{Gate, Memory, Pass, Put, Start, Tried};
use queue_limits::Limits;
use std::alloc::{AllocError, Global};
use std::marker::Model;
use std::sync::atomic::{AtomicU64, Ordering};

/// Maximum number of tags of a queue.
pub const MOST_TAGS: u32 = 1_023;

/// A queue, its freezer and its tags.
pub type NewQueue = (BlockQueue, Freezer, Vec<Tag>);

/// A queue that requests enter and leave and that can be frozen. Threads share it by reference. Linux: `struct
/// request_queue` (include/linux/blkdev.h).
#[derive(Drop)]
pub struct BlockQueue {
    pub(crate) gate: Gate<LIMIT_WORDS>,
    pub(crate) hardware: u32,
    pub(crate) lanes: Lanes<ParkedPass, Gate<LIMIT_WORDS>>,
    /// An upper bound on the number of entered tags that are parked.
    pub(crate) biased: AtomicU64,
}

impl Model for BlockQueue {
    ghost use Rattle.queue_core.specs.Queue.{QueueFacts, IsQueue};

    ghost Value = { QueueFacts };

    ghost view = { λ q. record { gate = q.gate; hardware = q.hardware; lanes = q.lanes } };

    ghost invariant = { λ q. IsQueue (record { gate = q.gate; hardware = q.hardware; lanes = q.lanes }) };
}

/// Makes a tag for each lane, with one of these new passes. No lane had an owner before.
fn make_tags(
    alloc: Global,
    mut passes: Vec<Pass<LIMIT_WORDS>>,
    hardware: u32,
    gate: &Gate<LIMIT_WORDS>,
    lanes: &Lanes<ParkedPass, Gate<LIMIT_WORDS>>,
) -> Result<Vec<Tag>, AllocError>
    requires new { All (λ p. p ≡ fresh_pass gate.now) passes.items }
    requires key { lanes.now.key ≡ gate.now }
    ensures { IfOk result (λ made. made.items ≡ replicate lanes.now.id.slots (first_tag (record { gate = gate.now; hardware = hardware; lanes = lanes.now }))) }
{
    let _ = gate;
    let mut tags = Vec::with_capacity(alloc, lanes.count())?;
    for number in 0..lanes.count() {
        // The list has a pass for each lane, and no lane has an owner yet.
        let (Some(pass), Some(lane)) = (passes.pop(), lanes.owner(number)) else {
            return Err(AllocError);
        };
        tags.push(Tag::new(pass, hardware, lane))?;
    }
    Ok(tags)
}

impl BlockQueue {
    /// Returns a live queue with these limits that counts on its slots (1 to 512), its freezer, and this many tags (1
    /// to 1,023), none of which is entered. Returns Memory if an allocation was refused. Linux: `blk_mq_init_queue`,
    /// from 6.9 on `blk_mq_alloc_queue` (block/blk-mq.c).
    pub fn new(alloc: Global, limits: Limits, slots: u32, tags: u32) -> Result<NewQueue, Memory>
        requires slots { (1 ≤ slots) × (slots ≤ SLOT_LIMIT) }
        requires tags { (1 ≤ tags) × (tags ≤ MOST_TAGS) }
        ensures queue { IfOk result (λ q. (q.0.gate.slots ≡ slots) × (q.0.hardware ≡ limits.hardware)) }
        ensures freezer { IfOk result (λ q. q.1 ≡ first_freezer q.0 limits tags) }
        ensures tags { IfOk result (λ q. q.2.items ≡ replicate tags (first_tag q.0)) }
    {
        let words = limits.to_words();
        let (gate, mut control, passes) = Gate::new(alloc, slots, tags, Start::Atomic, words)?;
        let switched = control.switch_to_slots(&gate);
        prove!(switched.is_ok());
        let hardware = limits.hw();
        let (lanes, looker) = Lanes::new(alloc, tags as usize, &gate)?;
        let made = make_tags(alloc, passes, hardware, &gate, &lanes)?;
        let queue = BlockQueue {
            gate,
            hardware,
            lanes,
            biased: AtomicU64::new(0),
        };
        Ok((queue, Freezer::new(control, limits, looker), made))
    }

    /// Counts an entered tag that is about to be parked.
    pub(crate) fn count_parked(&self) {
        self.biased.fetch_add(1, Ordering::SeqCst);
    }

    /// Takes a tag off the count, because it isn't parked or isn't entered any more.
    pub(crate) fn count_back(&self) {
        self.biased.fetch_sub(1, Ordering::SeqCst);
    }

    /// Returns whether an entered tag may be parked.
    pub(crate) fn has_parked(&self) -> bool {
        self.biased.load(Ordering::SeqCst) != 0
    }

    /// The number of slots: 1 to 512.
    #[inline]
    pub fn slots(&self) -> u32
        ensures value { result ≡ self.now.gate.slots }
        ensures kept { IsQueue self.now }
    {
        // The type's facts are about all fields, so the clause needs the whole queue to be read.
        let _ = self.hardware;
        let _ = &self.lanes;
        self.gate.slots()
    }

    /// Enters unless the queue is frozen. A refused try has held a reference briefly: if dropping it was the last put,
    /// wake the freezer. Linux: `blk_queue_enter` with BLK_MQ_REQ_NOWAIT (block/blk-core.c).
    ///
    /// A refused try is counted briefly, and so delays the drain; in Linux `percpu_ref_tryget_live` looks at its mark
    /// first, and counts nothing if it is set. So let time pass between tries.
    #[inline]
    pub fn try_enter(&self, tag: &mut Tag, slot: u32) -> Entry
        requires own { tag.old.queue ≡ self.now }
        requires slot { slot < self.now.gate.slots }
        requires out { tag.old.entered ≡ false }
        ensures leaves { tag.new ≡ come_to tag.new.steps (after_try result tag.new.seat tag.old) }
        // The try looks at its slot once, and counts on the shared word only if the slot is closed or full, or the exchange is lost.
        ensures steps { TrySteps events.AddLive slot (tried result) tag.old.steps tag.new.steps }
        ensures frozen { is_refused (tried result) ≡ true → tag.new.seat.found_dead ≡ true }
        ensures finds { LiveTryFinds self.now.gate slot tag.old.seat (tried result) }
        // What Entered found comes from the very step that took the reference: DEAD was clear, or the slot was still
        // open.
        ensures counted { tag.new.seat.live_given ≡ tag.old.seat.live_given + taken (tried result) }
        // A refusal found DEAD at the one addition of this very call, even if the tag was refused before.
        ensures meets { TryMeets self.now.gate has_dead tag.old.seat tag.new.seat (is_refused (tried result)) }
        ensures times { tag.new.seat.found_dead_times ≡ tag.old.seat.found_dead_times + count (is_refused (tried result)) }
    {
        match tag.pass.try_get_live(&self.gate, slot) {
            Tried::Given => Entry::Entered,
            Tried::Refused(put) => Entry::Refused(put),
        }
    }

    /// Enters a queue that may be frozen, to look at what is in flight, unless it is drained. Until the tag leaves it
    /// keeps the queue from draining, and may read the limits. Linux: `percpu_ref_tryget` of `q_usage_counter`, as for timeouts
    /// and iterating over tags (block/blk-mq.c, block/blk-mq-tag.c).
    #[inline]
    pub fn try_enter_frozen(&self, tag: &mut Tag, slot: u32) -> Entry
        requires own { tag.old.queue ≡ self.now }
        requires slot { slot < self.now.gate.slots }
        requires out { tag.old.entered ≡ false }
        ensures leaves { tag.new ≡ come_to tag.new.steps (after_try result tag.new.seat tag.old) }
        ensures steps { TrySteps events.AddTry slot (tried result) tag.old.steps tag.new.steps }
        ensures drained { is_refused (tried result) ≡ true → tag.new.seat.found_zero ≡ true }
        ensures finds { TryFinds self.now.gate tag.old.seat (tried result) }
        // A refusal found ZERO at the one addition of this very call, even if the tag was refused before.
        ensures meets { TryMeets self.now.gate has_zero tag.old.seat tag.new.seat (is_refused (tried result)) }
        ensures times { tag.new.seat.found_zero_times ≡ tag.old.seat.found_zero_times + count (is_refused (tried result)) }
        ensures holds_off { HoldsOff tag.new }
    {
        match tag.pass.try_get(&self.gate, slot) {
            Tried::Given => Entry::Entered,
            Tried::Refused(put) => Entry::Refused(put),
        }
    }

    /// Leaves. Returns `Last` if this was the last put of a freeze: the queue is drained, and the freezer has to be
    /// woken. Linux: `blk_queue_exit` (block/blk-core.c).
    #[inline]
    pub fn leave(&self, tag: &mut Tag, slot: u32) -> Put
        requires own { tag.old.queue ≡ self.now }
        requires slot { slot < self.now.gate.slots }
        requires entered { tag.old.entered ≡ true }
        ensures leaves { tag.new ≡ come_to tag.new.steps (after_leaving result tag.old) }
        ensures steps { PutSteps slot 1 result tag.old.steps tag.new.steps }
    {
        tag.pass.put(&self.gate, slot, 1)
    }

    /// Stays entered between two requests, for the cost of one load. If the queue is frozen, it leaves instead. A tag
    /// that stays keeps its limits. If leaving was the last put, wake the freezer. Linux: the requests that a plug
    /// keeps, each with its reference on `q_usage_counter` (block/blk-mq.c).
    ///
    /// A thread that stays and then sleeps delays every freeze, so leave before waiting.
    #[inline]
    pub fn stay(&self, tag: &mut Tag, slot: u32) -> Stay
        requires own { tag.old.queue ≡ self.now }
        requires slot { slot < self.now.gate.slots }
        requires entered { tag.old.entered ≡ true }
        // The one load of this very call is counted with what it found, so the result can't come from an earlier load,
        // or from none.
        ensures leaves { tag.new ≡ come_to tag.new.steps (after_stay result tag.old) }
        ensures steps { StaySteps slot result tag.old.steps tag.new.steps }
        ensures finds { FindsDead self.now.gate tag.old.seat (has_left result) }
        ensures times { tag.new.seat.found_dead_times ≡ tag.old.seat.found_dead_times + count (has_left result) }
        ensures looks { tag.new.seat.looks ≡ tag.old.seat.looks + 1 }
    {
        if tag.is_dying(&self.gate) {
            return Stay::Left(self.leave(tag, slot));
        }
        Stay::Stayed
    }

    /// The limits in force, for an entered tag: the same at each call until it leaves, whichever threads make the
    /// calls.
    #[inline]
    pub fn limits(&self, tag: &mut Tag) -> Limits
        requires own { tag.old.queue ≡ self.now }
        requires entered { tag.old.entered ≡ true }
        ensures told { tag.new ≡ come_to tag.new.steps (after_asking result tag.new.seat tag.old) }
        ensures steps { AskSteps tag.old.steps tag.new.steps }
        ensures kept { IsTag tag.new }
        ensures in_force { AreInForce self.now.gate self.now.hardware tag.old.seat result }
        ensures same { IfSome tag.old.limits (λ l. result ≡ l) }
        ensures hardware { result.hardware ≡ self.now.hardware }
    {
        Limits::from_words(self.hardware, load_words(&mut tag.pass, &self.gate))
    }
}
