//! The beginning and the end of queues and their handles.
ghost use Rattle.std.specs.Prelude.{◌≡◌, None};
ghost use Rattle.c_answers.specs.Ran.{Tells};
ghost use Rattle.freeze_queue_c.specs.Life.{HasMade, TellsDone, TellsPut, Gives, Given, NumbersTell, NumbersTellOn, GivesBack, GivenBack, freezer_number, tag_number};
ghost use Rattle.freeze_queue_c.specs.Ends.{Removes, Restores};

use crate::freezer_handle::FreezerHandle;
use crate::number::of_done;
use crate::open_freezer::{KeptFreezer, OpenFreezer};
use crate::plain_limits::PlainLimits;
use crate::refusal::Refusal;
use crate::tag_handle::TagHandle;
use c_answers::{DrawnNumber, Misuse, of_put, of_unit};
use percpu_gate::Put;

/// The last facts of a queue that has ended.
#[derive(Debug, Drop)]
#[repr(C)]
pub struct Final {
    pub dead: bool,
    pub kills: u64,
    pub releases: u64,
    pub limits: PlainLimits,
}

/// Makes the freezer of a new queue, for a closed handle. Refuses with Open, the limits' faults, Size or Memory.
fn make(
    freezer: &mut FreezerHandle,
    number: &DrawnNumber,
    limits: &PlainLimits,
    slots: u32,
    tags: u32,
) -> Result<(), Refusal>
    ensures { HasMade number.now limits.now slots tags freezer.old.held.freezer freezer.new.held.freezer result }
{
    let alloc = match freezer.closed() {
        Ok(alloc) => alloc,
        Err(why) => return Err(Refusal::OfMisuse(why)),
    };
    let open = OpenFreezer::new(alloc, *number, limits, slots, tags)?;
    match freezer.open(open) {
        Ok(()) => Ok(()),
        Err(why) => Err(Refusal::OfMisuse(why)),
    }
}

/// Makes a live queue with these limits, this many slots (1 to 512) and tags (1 to 1,023), for a closed freezer handle. The queue counts
/// on its slots. Refuses with Open, the limits' faults (25 to 28), Size or Memory. Linux: `blk_mq_init_queue`, since 6.9
/// `blk_mq_alloc_queue` (block/blk-mq.c).
#[unsafe(no_mangle)]
pub extern "C" fn freeze_queue_new_numbered(
    freezer: &mut FreezerHandle,
    number: &DrawnNumber,
    limits: &PlainLimits,
    slots: u32,
    tags: u32,
) -> u32
    ensures { TellsDone (HasMade number.now limits.now slots tags freezer.old.held.freezer freezer.new.held.freezer) result }
{
    of_done(make(freezer, number, limits, slots, tags))
}

/// Gives the next tag of this freezer to a closed handle.
fn give(chosen: &mut OpenFreezer, tag: &mut TagHandle) -> Result<(), Misuse>
    ensures { Gives chosen.old chosen.new tag.old.held.tag tag.new.held.tag result }
{
    let alloc = tag.closed()?;
    let given = chosen.next_tag(alloc)?;
    tag.put_back(given);
    Ok(())
}

/// Gives the next tag of the queue, which is the tag that was given back last, to a closed tag handle. Refuses with Closed, Open,
/// NoneWaits or Memory.
#[tactic(auto, using(crate::proofs::Closed::closed_given))]
#[unsafe(no_mangle)]
pub extern "C" fn freeze_queue_next_tag(freezer: &mut FreezerHandle, tag: &mut TagHandle) -> u32
    ensures { Tells (Given freezer.old.held.freezer freezer.new.held.freezer tag.old.held.tag tag.new.held.tag) result }
{
    let Some(mut open) = freezer.take() else {
        return of_unit(Err(Misuse::Closed));
    };
    let answer = give(&mut open, tag);
    freezer.put_back(open);
    of_unit(answer)
}

/// Has the freezer take back the tag of a handle, unless that is refused.
fn give_back(chosen: &mut OpenFreezer, tag: &mut TagHandle) -> Result<Put, Misuse>
    requires numbers { NumbersTell chosen.old tag.old.held.tag }
    ensures { GivesBack chosen.old chosen.new tag.old.held.tag tag.new.held.tag result }
{
    let Some(mut given) = tag.take() else {
        return Err(Misuse::Closed);
    };
    if let Err(why) = chosen.refuse_back(&given) {
        tag.put_back(given);
        return Err(why);
    }
    let Some(put) = given.end_bias() else {
        tag.put_back(given);
        return Err(Misuse::InUse);
    };
    chosen.take_back(Box::into_inner(given));
    Ok(put)
}

/// Gives back a tag that isn't in, and ends its bias. Returns 1 if the queue is drained by that, otherwise 0. Allocates nothing: the
/// freezer has room for all tags from the start. Refuses with Closed, Foreign or Entered, or with InUse while a freeze has the tag in
/// hand, which no use of handles leads to.
#[tactic(auto, using(crate::proofs::Closed::closed_given_back))]
#[unsafe(no_mangle)]
pub extern "C" fn freeze_queue_give_tag_back(
    freezer: &mut FreezerHandle,
    tag: &mut TagHandle,
) -> u32
    requires numbers { NumbersTellOn freezer.old.held.freezer tag.old.held.tag }
    ensures { TellsPut (GivenBack freezer.old.held.freezer freezer.new.held.freezer tag.old.held.tag tag.new.held.tag) result }
{
    let Some(mut open) = freezer.take() else {
        return of_put(Err(Misuse::Closed));
    };
    let answer = give_back(&mut open, tag);
    freezer.put_back(open);
    of_put(answer)
}

/// The number of a tag's queue, or 0 for a closed handle.
#[unsafe(no_mangle)]
pub extern "C" fn freeze_queue_tag_number(tag: &mut TagHandle) -> u64
    ensures number { result ≡ tag_number tag.old.held.tag }
    ensures same { tag.new.held.tag ≡ tag.old.held.tag }
{
    let Some(open) = tag.take() else {
        return 0;
    };
    let number = open.number().drawn;
    tag.put_back(open);
    number
}

/// The number of a freezer's queue, or 0 for a closed handle.
#[unsafe(no_mangle)]
pub extern "C" fn freeze_queue_number(freezer: &mut FreezerHandle) -> u64
    ensures number { result ≡ freezer_number freezer.old.held.freezer }
    ensures same { freezer.new.held.freezer ≡ freezer.old.held.freezer }
{
    let Some(open) = freezer.take() else {
        return 0;
    };
    let number = open.number().drawn;
    freezer.put_back(open);
    number
}

/// Frees the box of a tag handle, and closes it. If the tag wasn't given back, its queue counts it as out forever.
#[unsafe(no_mangle)]
pub extern "C" fn freeze_queue_free_tag(tag: &mut TagHandle)
    ensures { tag.new.held.tag ≡ None }
{
    drop(tag.take());
}

/// Frees the box of a freezer handle, and closes it.
#[unsafe(no_mangle)]
pub extern "C" fn freeze_queue_free_freezer(freezer: &mut FreezerHandle)
    ensures { freezer.new.held.freezer ≡ None }
{
    drop(freezer.take());
}

/// Puts back a freezer whose queue hasn't ended. Returns the number of the reason, or of Memory.
fn restore(freezer: &mut FreezerHandle, kept: KeptFreezer) -> u32
    requires closed { freezer.old.held.freezer ≡ None }
    ensures { Restores kept.freezer kept.why freezer.new.held.freezer result }
{
    let KeptFreezer { why, freezer: back } = kept;
    let Some(back) = back else {
        return why.number();
    };
    match freezer.open(back) {
        Ok(()) => why.number(),
        Err(memory) => memory.number(),
    }
}

/// Ends a queue, and closes the handle: freezes the queue for the last time if it is live, and takes in the tags that no handle has.
/// Refuses with Closed; with 20 if tags that were given out aren't back; with 21 if the queue is live and was killed 2^40 times. If
/// somebody else has a share of the queue, which no use of handles leads to, it returns InUse with everything unchanged. It returns
/// Memory if such a late refusal finds no memory to put the queue back: then the freezer is gone. Linux: `blk_mq_destroy_queue`
/// (block/blk-mq.c).
#[unsafe(no_mangle)]
pub extern "C" fn freeze_queue_remove(freezer: &mut FreezerHandle, last: &mut Final) -> u32
    ensures { Removes freezer.old.held.freezer freezer.new.held.freezer last.old last.new result }
{
    let Some(open) = freezer.take() else {
        return Misuse::Closed.number();
    };
    if open.tags_out() > 0 {
        freezer.put_back(open);
        return 20;
    }
    match Box::into_inner(open).end(freezer.allocator()) {
        Ok(ended) => {
            *last = ended;
            0
        }
        Err(kept) => restore(freezer, kept),
    }
}
