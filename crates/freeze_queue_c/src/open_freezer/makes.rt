//! A new queue.
ghost use Rattle.std.specs.Prelude.{◌≡◌, ◌≤◌, All, vec_len};
ghost use Rattle.std.specs.Arc.{arc_value};
ghost use Rattle.std.specs.Vec.{vec_capacity};
ghost use Rattle.c_answers.specs.Ran.{misuse_of};
ghost use Rattle.freeze_queue_c.specs.FreezerCalls.{Sought};
ghost use Rattle.freeze_queue_c.specs.Life.{Makes, NewFreezer, new_refusal, size_misuse};
ghost use Rattle.freeze_queue_c.specs.Opened.{freezer_with, Waits};
ghost use Rattle.freeze_queue_c.specs.PlainLimits.{bounds_of};

use super::OpenFreezer;
use super::ends::Parts;
use crate::plain_limits::PlainLimits;
use crate::refusal::Refusal;
use c_answers::{DrawnNumber, Misuse};
use percpu_core::SLOT_LIMIT;
use queue_core::{BlockQueue, Limits, MOST_TAGS};
use std::alloc::Global;
use std::sync::Arc;

/// The misuse of a queue size that no queue has.
fn refuse_size(slots: u32, tags: u32) -> Result<(), Misuse>
    ensures { misuse_of result ≡ size_misuse slots tags }
{
    if slots == 0 || slots > SLOT_LIMIT || tags == 0 || tags > MOST_TAGS {
        Err(Misuse::Size)
    } else {
        Ok(())
    }
}

/// Returns these limits if a queue may have them and the sizes. Refuses with the limits' faults, then with Size.
fn checked(limits: &PlainLimits, slots: u32, tags: u32) -> Result<Limits, Refusal>
    ensures { Sought (new_refusal limits.now slots tags) (bounds_of limits.now) result }
{
    match limits.checked() {
        Err(why) => Err(Refusal::OfLimits(why)),
        Ok(limits) => match refuse_size(slots, tags) {
            Ok(()) => Ok(limits),
            Err(why) => Err(Refusal::OfMisuse(why)),
        },
    }
}

impl OpenFreezer {
    /// Makes a freezer from its parts.
    pub(super) fn of(queue: Arc<BlockQueue>, parts: Parts) -> OpenFreezer
        requires own { parts.freezer.queue ≡ arc_value queue }
        requires tags { parts.tags ≡ parts.freezer.tags }
        requires places { parts.tags ≤ vec_capacity parts.waiting }
        requires wait { All (Waits (arc_value queue)) parts.waiting.items }
        requires many { vec_len parts.waiting ≤ parts.tags }
        ensures { result ≡ freezer_with parts.number (arc_value queue) parts.waiting.items parts.freezer }
    {
        let Parts {
            number,
            tags,
            waiting,
            freezer,
        } = parts;
        OpenFreezer {
            before: [0; 16],
            queue,
            number,
            tags,
            waiting,
            freezer,
            after: [0; 16],
        }
    }

    /// Makes the freezer of a new queue. Refuses with the limits' faults, Size or Memory.
    pub fn new(
        alloc: Global,
        number: DrawnNumber,
        limits: &PlainLimits,
        slots: u32,
        tags: u32,
    ) -> Result<OpenFreezer, Refusal>
        ensures { Makes (new_refusal limits.now slots tags) (NewFreezer number limits.now slots tags) result }
    {
        let limits = checked(limits, slots, tags)?;
        let Ok((queue, freezer, waiting)) = BlockQueue::new(alloc, limits, slots, tags) else {
            return Err(Refusal::OfMisuse(Misuse::Memory));
        };
        let Ok(queue) = Arc::new(alloc, queue) else {
            return Err(Refusal::OfMisuse(Misuse::Memory));
        };
        let parts = Parts {
            number,
            tags,
            waiting,
            freezer,
        };
        Ok(OpenFreezer::of(queue, parts))
    }
}
