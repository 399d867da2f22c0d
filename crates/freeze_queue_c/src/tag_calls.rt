//! The calls of a tag. A closed handle returns Closed.
ghost use Rattle.std.specs.Prelude.{true, false};
ghost use Rattle.c_answers.specs.Numbers.{put_number};
ghost use Rattle.c_answers.specs.Ran.{Answers, Writes};
ghost use Rattle.freeze_queue_c.specs.Numbers.{look_number, tried_number};
ghost use Rattle.freeze_queue_c.specs.TagCalls.{enter_misuse, leave_misuse, limits_misuse, TriedToEnter, TriedToLookIn, Leaves, ToldLimits};

use crate::number::{of_look, of_try};
use crate::plain_limits::PlainLimits;
use crate::tag_handle::TagHandle;
use c_answers::{Misuse, of_put, write};

/// Enters and returns 0, unless the queue is frozen. Otherwise returns 2, or 3 if the put of this try drained the queue: the caller then
/// wakes the freezer. A biased tag enters by its lane. Linux: `blk_queue_enter` with BLK_MQ_REQ_NOWAIT (block/blk-core.c).
#[tactic(auto, using(c_answers::proofs::Closed::closed_answers))]
#[unsafe(no_mangle)]
pub extern "C" fn freeze_queue_try_enter(tag: &mut TagHandle, slot: u32) -> u32
    ensures { Answers tried_number (enter_misuse slot) (TriedToEnter slot) tag.old.held.tag tag.new.held.tag result }
{
    let Some(mut open) = tag.take() else {
        return of_try(Err(Misuse::Closed));
    };
    let answer = open.try_enter(slot);
    tag.put_back(open);
    of_try(answer)
}

/// Enters a queue that may be frozen, to look at what is in flight, and returns 0, unless the queue is drained. Otherwise returns 2, or 3
/// if the put of this look drained the queue, or 6 while the freezer has the tag in hand. Linux: `percpu_ref_tryget` of
/// `q_usage_counter`, as for timeouts (block/blk-mq.c).
#[tactic(auto, using(c_answers::proofs::Closed::closed_answers))]
#[unsafe(no_mangle)]
pub extern "C" fn freeze_queue_look_in(tag: &mut TagHandle, slot: u32) -> u32
    ensures { Answers look_number (enter_misuse slot) (TriedToLookIn slot) tag.old.held.tag tag.new.held.tag result }
{
    let Some(mut open) = tag.take() else {
        return of_look(Err(Misuse::Closed));
    };
    let answer = open.try_enter_frozen(slot);
    tag.put_back(open);
    of_look(answer)
}

/// Leaves. Returns 1 if the queue is drained by this: the caller then wakes the freezer. Otherwise returns 0. Doesn't park the tag.
/// Linux: `blk_queue_exit` (block/blk-core.c).
#[tactic(auto, using(c_answers::proofs::Closed::closed_answers))]
#[unsafe(no_mangle)]
pub extern "C" fn freeze_queue_leave(tag: &mut TagHandle, slot: u32) -> u32
    ensures { Answers put_number (leave_misuse slot) (Leaves slot false) tag.old.held.tag tag.new.held.tag result }
{
    let Some(mut open) = tag.take() else {
        return of_put(Err(Misuse::Closed));
    };
    let answer = open.leave(slot, false);
    tag.put_back(open);
    of_put(answer)
}

/// Leaves like `freeze_queue_leave`, but parks a tag with no bias unless the queue is frozen: its next request then enters by its lane.
#[tactic(auto, using(c_answers::proofs::Closed::closed_answers))]
#[unsafe(no_mangle)]
pub extern "C" fn freeze_queue_leave_biased(tag: &mut TagHandle, slot: u32) -> u32
    ensures { Answers put_number (leave_misuse slot) (Leaves slot true) tag.old.held.tag tag.new.held.tag result }
{
    let Some(mut open) = tag.take() else {
        return of_put(Err(Misuse::Closed));
    };
    let answer = open.leave(slot, true);
    tag.put_back(open);
    of_put(answer)
}

/// Writes the limits in force, for a tag that is in. They stay the same until it leaves.
#[tactic(auto, using(c_answers::proofs::Closed::closed_writes))]
#[unsafe(no_mangle)]
pub extern "C" fn freeze_queue_limits_of(tag: &mut TagHandle, limits: &mut PlainLimits) -> u32
    ensures { Writes limits_misuse ToldLimits tag.old.held.tag tag.new.held.tag limits.old limits.new result }
{
    let Some(mut open) = tag.take() else {
        return write(Err(Misuse::Closed), limits);
    };
    let answer = open.limits();
    tag.put_back(open);
    write(answer, limits)
}
