//! Entering and leaving with a biased tag, which keeps its reference between requests.
ghost use Rattle.std.specs.Prelude.{◌≡◌, ◌<◌, true, false, None, not, IfSome};
ghost use Rattle.percpu_gate.specs.declared.tried.Put.TheVariants.{NotLast};
ghost use Rattle.bias_lanes.specs.declared.views.Stage.TheVariants as stages;
ghost use Rattle.queue_core.specs.BiasedSteps.{LooksInByGate, LeavesByGate, LeavesAtGate, ParksAt};
ghost use Rattle.queue_core.specs.BiasedTags.{queue_of, stage, is_plain, not_in_lane, in_now, at_stage, says_in, says_in_hand};
ghost use Rattle.freeze_queue.specs.Lanes.{TriesToEnter, EntersAtLast};

use crate::queue::BlockQueue;
use queue_core::{BiasedEntry, BiasedTag, Put};
use std::sync::Wait;

impl BlockQueue {
    /// Wakes the threads that wait for the drain, if an attempt that was refused put the last reference.
    #[inline]
    fn told(&self, entry: BiasedEntry) -> BiasedEntry
        ensures { result ≡ entry }
    {
        if let BiasedEntry::Refused(put) = entry {
            let _put = self.tell(put);
        }
        entry
    }

    /// Enters unless the queue is frozen: by the tag's lane if it is biased, otherwise by the gate on this slot.
    ///
    /// Linux: `blk_queue_enter` with BLK_MQ_REQ_NOWAIT (block/blk-core.c).
    #[inline]
    pub fn try_enter_by_lane(&self, tag: &mut BiasedTag, slot: u32) -> BiasedEntry
        requires own { queue_of tag.old ≡ self.now }
        requires slot { slot < self.now.gate.slots }
        requires out { in_now tag.old ≡ false }
        ensures { TriesToEnter slot self.now result tag.old tag.new }
    {
        self.told(tag.try_enter(&self.core, slot))
    }

    /// Enters, and waits while the queue is frozen. Linux: `blk_queue_enter` (block/blk-core.c).
    #[inline]
    pub fn enter_by_lane<R: Wait>(&self, rt: &R, tag: &mut BiasedTag, slot: u32)
        requires own { queue_of tag.old ≡ self.now }
        requires slot { slot < self.now.gate.slots }
        requires out { in_now tag.old ≡ false }
        ensures own { queue_of tag.new ≡ self.now }
        ensures entered { in_now tag.new ≡ true }
        ensures tries { EntersAtLast slot self.now tag.old tag.new }
    {
        if self.try_enter_by_lane(tag, slot) != BiasedEntry::Entered {
            self.enter_by_lane_once_thawed(rt, tag, slot);
        }
    }

    // Waits between its tries, as `enter_once_thawed` does.
    fn enter_by_lane_once_thawed<R: Wait>(&self, rt: &R, tag: &mut BiasedTag, slot: u32)
        requires own { queue_of tag.old ≡ self.now }
        requires slot { slot < self.now.gate.slots }
        requires out { in_now tag.old ≡ false }
        ensures own { queue_of tag.new ≡ self.now }
        ensures entered { in_now tag.new ≡ true }
        ensures tries { EntersAtLast slot self.now tag.old tag.new }
    {
        for _ in self.thawed.tries(rt) {
            if self.try_enter_by_lane(tag, slot) == BiasedEntry::Entered {
                return;
            }
        }
        unreachable!()
    }

    /// Enters a queue that may be frozen, to look at the requests in flight, unless it is drained. The tag isn't biased afterwards.
    ///
    /// Linux: `percpu_ref_tryget` of `q_usage_counter`, as for timeouts and iterating over tags (block/blk-mq.c,
    /// block/blk-mq-tag.c).
    #[inline]
    pub fn look_in(&self, tag: &mut BiasedTag, slot: u32) -> BiasedEntry
        requires own { queue_of tag.old ≡ self.now }
        requires slot { slot < self.now.gate.slots }
        requires out { in_now tag.old ≡ false }
        ensures own { queue_of tag.new ≡ queue_of tag.old }
        ensures entered { in_now tag.new ≡ says_in result }
        ensures by_gate { is_plain tag.new ≡ not (says_in_hand result) }
        ensures in_hand { says_in_hand result ≡ true → tag.new ≡ at_stage stages.Parked tag.old }
        ensures steps { is_plain tag.new ≡ true → LooksInByGate slot self.now result tag.old tag.new }
    {
        self.told(tag.try_enter_frozen(&self.core, slot))
    }

    /// Leaves, by the tag's lane if it is in by it. If `keep` is true and the queue isn't frozen, a tag with no bias is biased from then
    /// on. Returns `Last` if this was the last put of a freeze: then the queue is drained.
    ///
    /// Linux: `blk_queue_exit` (block/blk-core.c).
    #[inline]
    pub fn leave_by_lane(&self, tag: &mut BiasedTag, slot: u32, keep: bool) -> Put
        requires own { queue_of tag.old ≡ self.now }
        requires slot { slot < self.now.gate.slots }
        requires entered { in_now tag.old ≡ true }
        ensures own { queue_of tag.new ≡ queue_of tag.old }
        ensures out { in_now tag.new ≡ false }
        ensures limits { tag.new.limits ≡ tag.old.limits }
        ensures parked { is_plain tag.new ≡ false → result ≡ NotLast }
        ensures biased { stage tag.old ≡ stages.Entered → stage tag.new ≡ stages.Idle → tag.new ≡ at_stage stages.Idle tag.old }
        ensures keeps { stage tag.new ≡ stages.Idle → is_plain tag.old ≡ true → keep ≡ true }
        ensures steps { is_plain tag.new ≡ true → LeavesAtGate slot keep result tag.old tag.new }
        ensures parks { is_plain tag.old ≡ true → stage tag.new ≡ stages.Idle → ParksAt stages.Idle slot tag.old tag.new }
    {
        self.tell(tag.leave(&self.core, slot, keep))
    }

    /// Ends the bias of a tag that has no request in by its lane; if it is entered at the gate, it leaves. Returns None while a freezer
    /// has its reference in hand, which takes a few steps, and never under the lock of a shared freezer: then call again.
    pub fn end_bias(&self, tag: &mut BiasedTag, slot: u32) -> Option<Put>
        requires own { queue_of tag.old ≡ self.now }
        requires slot { slot < self.now.gate.slots }
        requires out { not_in_lane (stage tag.old) ≡ true }
        ensures own { queue_of tag.new ≡ queue_of tag.old }
        ensures out { in_now tag.new ≡ false }
        ensures in_hand { result ≡ None → (is_plain tag.old ≡ false) × (tag.new ≡ at_stage stages.Parked tag.old) }
        ensures steps { IfSome result (λ put. LeavesByGate slot put tag.old tag.new) }
    {
        let put = tag.end_bias(&self.core, slot)?;
        Some(self.tell(put))
    }
}
