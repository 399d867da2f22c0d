//! The numbers that only the library of the queue returns to C, and the values that it writes with them.
ghost use Rattle.std.specs.Prelude.{◌≡◌, ◌+◌};
ghost use Rattle.queue_core.specs.Queue.{fault_number};
ghost use Rattle.c_answers.specs.Numbers.{number_of, put_number};
ghost use Rattle.freeze_queue_c.specs.Numbers.{queue_number, done_number, look_number, tried_number};
ghost use Rattle.freeze_queue_c.specs.FreezerCalls.{begun_number, thawed_number, begun_depth, thawed_depth, depth_written};

use crate::begun::Begun;
use crate::refusal::Refusal;
use c_answers::{Misuse, put_number};
use queue_core::{BiasedEntry, FreezeFault, Thawed};

/// The number of a look: 0 if the tag entered; otherwise 2, or 3 if the look's put was the last, or 6 if the freezer has the tag in
/// hand.
pub fn of_look(answer: Result<BiasedEntry, Misuse>) -> u32
    ensures { result ≡ number_of look_number answer }
{
    match answer {
        Ok(BiasedEntry::Entered) => 0,
        Ok(BiasedEntry::Refused(put)) => 2 + put_number(put),
        Ok(BiasedEntry::InHand) => 6,
        Err(why) => why.number(),
    }
}

/// The number of a try: 0 if the tag entered; otherwise 2, or 3 if the try's put was the last.
pub fn of_try(answer: Result<BiasedEntry, Misuse>) -> u32
    ensures { result ≡ number_of tried_number answer }
{
    match answer {
        Ok(BiasedEntry::Entered) => 0,
        Ok(BiasedEntry::Refused(put)) => 2 + put_number(put),
        Ok(BiasedEntry::InHand) => 2,
        Err(why) => why.number(),
    }
}

/// 0 if the call succeeded.
pub fn of_done(answer: Result<(), Refusal>) -> u32
    ensures { result ≡ done_number answer }
{
    match answer {
        Ok(()) => 0,
        Err(why) => why.number(),
    }
}

/// 0 if the limits are set.
pub fn of_set(answer: Result<Result<(), Refusal>, Misuse>) -> u32
    ensures { result ≡ number_of done_number answer }
{
    match answer {
        Ok(done) => of_done(done),
        Err(why) => why.number(),
    }
}

/// The number of a refusal by the queue, plus 16.
fn of_fault(why: FreezeFault) -> u32
    ensures { result ≡ 16 + fault_number why }
{
    16 + u32::from(why.number())
}

/// Writes the depth of a freeze. Returns 0 if the freeze has started, or 4 if the queue is already drained as well.
pub fn write_begun(answer: Result<Result<Begun, FreezeFault>, Misuse>, depth: &mut u32) -> u32
    ensures number { result ≡ number_of (queue_number begun_number) answer }
    ensures written { depth.new ≡ depth_written begun_depth answer depth.old }
{
    match answer {
        Ok(Ok(begun)) => {
            *depth = begun.depth;
            if begun.drained { 4 } else { 0 }
        }
        Ok(Err(why)) => of_fault(why),
        Err(why) => why.number(),
    }
}

/// Writes the depth that a thaw leaves. Returns 0 if the queue is still frozen, or 5 if it is live again.
pub fn write_thawed(answer: Result<Result<Thawed, FreezeFault>, Misuse>, depth: &mut u32) -> u32
    ensures number { result ≡ number_of (queue_number thawed_number) answer }
    ensures written { depth.new ≡ depth_written thawed_depth answer depth.old }
{
    match answer {
        Ok(Ok(thawed)) => {
            *depth = thawed.depth;
            if thawed.live { 5 } else { 0 }
        }
        Ok(Err(why)) => of_fault(why),
        Err(why) => why.number(),
    }
}
