//! The box of an open tag handle.
ghost use Rattle.std.specs.Prelude.{◌≡◌, None, false, IfSome};
ghost use Rattle.bias_lanes.specs.declared.views.Stage.TheVariants.{Unbiased};
ghost use Rattle.queue_core.specs.BiasedTags.{in_now, queue_of, stage};
ghost use Rattle.c_answers.specs.Ran.{Ran, misuse_of};
ghost use Rattle.freeze_queue_c.specs.Life.{EndedBias};
ghost use Rattle.freeze_queue_c.specs.TagCalls.{slot_misuse, enter_misuse, leave_misuse, limits_misuse, TriedToEnter, TriedToLookIn, Leaves, ToldLimits};

use crate::plain_limits::PlainLimits;
use c_answers::{DrawnNumber, Misuse};
use queue_core::{BiasedEntry, BiasedTag, BlockQueue, Put};
use std::marker::Model;
use std::sync::Arc;

/// A tag with its queue, and the queue's unique number.
///
/// 128 unused bytes before and after what calls write keep the boxes of different threads from sharing 128 bytes.
#[derive(Drop)]
#[repr(C)]
pub struct OpenTag {
    before: [u64; 16],
    pub(crate) queue: Arc<BlockQueue>,
    number: DrawnNumber,
    pub(crate) tag: BiasedTag,
    after: [u64; 16],
}

impl Model for OpenTag {
    ghost use Rattle.std.specs.Prelude.{◌≡◌};
    ghost use Rattle.std.specs.Arc.{arc_value};
    ghost use Rattle.queue_core.specs.BiasedTags.{queue_of};
    ghost use Rattle.freeze_queue_c.specs.Opened.{TagOpened};

    ghost Value = { TagOpened };

    ghost view = { λ t. record { number = t.number; queue = arc_value t.queue; tag = t.tag } };

    ghost invariant = { λ t. queue_of t.tag ≡ arc_value t.queue };
}

impl OpenTag {
    /// Makes the box's contents for a tag of this queue.
    pub fn new(queue: Arc<BlockQueue>, number: DrawnNumber, tag: BiasedTag) -> OpenTag
        requires own { queue_of tag ≡ queue.value }
        ensures { result ≡ record { number = number; queue = queue.value; tag = tag } }
    {
        OpenTag {
            before: [0; 16],
            queue,
            number,
            tag,
            after: [0; 16],
        }
    }

    /// The misuse of a slot that the queue doesn't have.
    fn refuse_slot(&self, slot: u32) -> Result<(), Misuse>
        ensures { misuse_of result ≡ slot_misuse slot self.now None }
    {
        if slot < self.queue.slots() {
            Ok(())
        } else {
            Err(Misuse::Slot)
        }
    }

    /// The misuse of entering by a tag that is in.
    fn refuse_enter(&self, slot: u32) -> Result<(), Misuse>
        ensures { misuse_of result ≡ enter_misuse slot self.now }
    {
        self.refuse_slot(slot)?;
        if self.tag.entered() {
            Err(Misuse::Entered)
        } else {
            Ok(())
        }
    }

    /// The misuse of a tag that isn't in.
    fn refuse_outside(&self) -> Result<(), Misuse>
        ensures { misuse_of result ≡ limits_misuse self.now }
    {
        if self.tag.entered() {
            Ok(())
        } else {
            Err(Misuse::NotEntered)
        }
    }

    /// Enters unless the queue is frozen. Refuses with Slot or Entered.
    pub fn try_enter(&mut self, slot: u32) -> Result<BiasedEntry, Misuse>
        ensures { Ran (enter_misuse slot self.old) (TriedToEnter slot) self.old self.new result }
    {
        self.refuse_enter(slot)?;
        Ok(self.tag.try_enter(&self.queue, slot))
    }

    /// Enters to look at the requests in flight, unless the queue is drained. Refuses with Slot or Entered.
    pub fn try_enter_frozen(&mut self, slot: u32) -> Result<BiasedEntry, Misuse>
        ensures { Ran (enter_misuse slot self.old) (TriedToLookIn slot) self.old self.new result }
    {
        self.refuse_enter(slot)?;
        Ok(self.tag.try_enter_frozen(&self.queue, slot))
    }

    /// Leaves. If `keep` is true and the queue isn't frozen, a tag with no bias parks its reference. Refuses with Slot or NotEntered.
    pub fn leave(&mut self, slot: u32, keep: bool) -> Result<Put, Misuse>
        ensures { Ran (leave_misuse slot self.old) (Leaves slot keep) self.old self.new result }
    {
        self.refuse_slot(slot)?;
        self.refuse_outside()?;
        Ok(self.tag.leave(&self.queue, slot, keep))
    }

    /// The limits in force. Refuses with NotEntered.
    pub fn limits(&mut self) -> Result<PlainLimits, Misuse>
        ensures { Ran (limits_misuse self.old) ToldLimits self.old self.new result }
    {
        self.refuse_outside()?;
        Ok(PlainLimits::of(self.tag.limits()))
    }

    /// Ends the bias of a tag that isn't in, if it has one. Returns the put, or None if the freezer has the tag in hand.
    pub fn end_bias(&mut self) -> Option<Put>
        requires out { in_now self.old.tag ≡ false }
        ensures ended { EndedBias self.old self.new result }
        ensures unbiased { IfSome result (λ _. (stage self.new.tag ≡ Unbiased) × (in_now self.new.tag ≡ false)) }
    {
        let slot = self.queue.slots() - 1;
        self.tag.end_bias(&self.queue, slot)
    }

    /// The number of the tag's queue.
    pub fn number(&self) -> DrawnNumber
        ensures { result ≡ self.now.number }
    {
        self.number
    }

    /// Whether the tag has entered and not left.
    pub fn entered(&self) -> bool
        ensures { result ≡ in_now self.now.tag }
    {
        self.tag.entered()
    }

    /// The tag alone.
    pub fn into_tag(self) -> BiasedTag
        ensures tag { result ≡ self.tag }
        ensures own { queue_of result ≡ self.queue }
    {
        let Self {
            before: _,
            queue: _,
            number: _,
            tag,
            after: _,
        } = self;
        tag
    }
}
