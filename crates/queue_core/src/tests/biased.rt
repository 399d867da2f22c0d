//! Sequences of calls that no clause follows from one call to the next: what becomes of a bias over two lives of a queue.
ghost use Rattle.std.specs.Prelude.{◌≡◌, ◌≤◌, true, false, All};
ghost use Rattle.queue_core.specs.declared.queue.TheConstants.{MOST_TAGS};
ghost use Rattle.queue_core.specs.BiasedTags.{in_now, queue_of};

use crate::biased::{BiasedEntry, BiasedTag};
use crate::fault::FreezeFault;
use crate::freezer::Freezer;
use crate::queue::{BlockQueue, NewQueue};
use crate::tag::Tag;
use percpu_gate::Put;
use queue_limits::Limits;
use std::alloc::Global;
use std::process::Abort;

/// A new queue with one slot.
fn opened<R: Abort>(rt: &R, alloc: Global, tags: u32) -> NewQueue
    requires tags { (1 ≤ tags) × (tags ≤ MOST_TAGS) }
    ensures slots { result.0.gate.slots ≡ 1 }
    ensures hardware { result.0.hardware ≡ 64 }
    ensures own { result.1.queue ≡ result.0 }
    ensures tags { All (λ t. (t.queue ≡ result.0) × (t.entered ≡ false)) result.2.items }
{
    let limits = Limits::start(64).expect(rt, "limits");
    BlockQueue::new(alloc, limits, 1, tags).expect(rt, "memory")
}

/// The next tag of a queue, as a biased one.
fn next<R: Abort>(rt: &R, freezer: &Freezer, tags: &mut Vec<Tag>) -> BiasedTag
    requires tags { All (λ t. (t.queue ≡ freezer.now.queue) × (t.entered ≡ false)) tags.old.items }
    ensures own { (queue_of result ≡ freezer.now.queue) × (in_now result ≡ false) }
    ensures tags { All (λ t. (t.queue ≡ freezer.now.queue) × (t.entered ≡ false)) tags.new.items }
{
    let tag = tags.pop().expect(rt, "a tag");
    tag.into_biased(freezer.limits())
}

/// A freeze starts, whose drain this call reports or not.
fn freeze<R: Abort>(rt: &R, queue: &BlockQueue, freezer: &mut Freezer, put: Put)
    requires own { freezer.old.queue ≡ queue.now }
    ensures { freezer.new.queue ≡ queue.now }
{
    let frozen = freezer.start_freeze(queue).expect(rt, "a freeze");
    assert_eq!(rt; frozen.put, Put::NotLast);
    assert_eq!(rt; frozen.reclaimed, put);
    assert_eq!(rt; freezer.poll_drained(queue), put == Put::Last);
}

/// The last freeze ends.
fn thaw<R: Abort>(rt: &R, queue: &BlockQueue, freezer: &mut Freezer)
    requires own { freezer.old.queue ≡ queue.now }
    ensures { freezer.new.queue ≡ queue.now }
{
    assert_eq!(rt; freezer.thaw(queue).expect(rt, "a thaw").depth, 0);
}

/// Sets a maximum of 8 sectors.
fn set<R: Abort>(rt: &R, queue: &BlockQueue, freezer: &mut Freezer, wanted: Result<(), FreezeFault>)
    requires own { freezer.old.queue ≡ queue.now }
    requires hardware { queue.now.hardware ≡ 64 }
    ensures { freezer.new.queue ≡ queue.now }
{
    let limits = Limits::new(64, 8, 0).expect(rt, "limits");
    assert_eq!(rt; freezer.set(queue, limits), wanted);
}

/// A request enters on slot 0, under limits with this maximum, and leaves. If `keep` is true, its tag is parked.
fn go<R: Abort>(rt: &R, queue: &BlockQueue, tag: &mut BiasedTag, keep: bool, most: u32)
    requires own { queue_of tag.old ≡ queue.now }
    requires slots { queue.now.gate.slots ≡ 1 }
    requires out { in_now tag.old ≡ false }
    ensures { (queue_of tag.new ≡ queue.now) × (in_now tag.new ≡ false) }
{
    assert_eq!(rt; tag.try_enter(queue, 0), BiasedEntry::Entered);
    assert_eq!(rt; tag.limits().max(), most);
    let _put = tag.leave(queue, 0, keep);
    assert_eq!(rt; tag.is_biased(), keep);
}

/// A request is refused, and the bias of its tag is over.
fn is_refused<R: Abort>(rt: &R, queue: &BlockQueue, tag: &mut BiasedTag)
    requires own { queue_of tag.old ≡ queue.now }
    requires slots { queue.now.gate.slots ≡ 1 }
    requires out { in_now tag.old ≡ false }
    ensures { (queue_of tag.new ≡ queue.now) × (in_now tag.new ≡ false) }
{
    assert_eq!(rt; tag.try_enter(queue, 0), BiasedEntry::Refused(Put::NotLast));
    assert!(rt; !tag.is_biased());
}

/// A request enters, and stays in.
fn enter<R: Abort>(rt: &R, queue: &BlockQueue, tag: &mut BiasedTag)
    requires own { queue_of tag.old ≡ queue.now }
    requires slots { queue.now.gate.slots ≡ 1 }
    requires out { in_now tag.old ≡ false }
    ensures { (queue_of tag.new ≡ queue.now) × (in_now tag.new ≡ true) }
{
    assert_eq!(rt; tag.try_enter(queue, 0), BiasedEntry::Entered);
}

/// The last request of a freeze leaves, and its tag isn't parked.
fn leave_last<R: Abort>(rt: &R, queue: &BlockQueue, tag: &mut BiasedTag)
    requires own { queue_of tag.old ≡ queue.now }
    requires slots { queue.now.gate.slots ≡ 1 }
    requires entered { in_now tag.old ≡ true }
    ensures { (queue_of tag.new ≡ queue.now) × (in_now tag.new ≡ false) }
{
    assert_eq!(rt; tag.leave(queue, 0, true), Put::Last);
    assert!(rt; !tag.is_biased());
}

/// A tag is parked in each life of a queue, and reclaimed by each freeze. The next request has the limits of its own life.
#[test]
fn two_lives(rt: HostRuntime) {
    let (queue, mut freezer, mut tags) = opened(&rt, rt.alloc(), 1);
    let mut tag = next(&rt, &freezer, &mut tags);
    go(&rt, &queue, &mut tag, true, 64);
    go(&rt, &queue, &mut tag, true, 64);
    freeze(&rt, &queue, &mut freezer, Put::Last);
    is_refused(&rt, &queue, &mut tag);
    thaw(&rt, &queue, &mut freezer);
    go(&rt, &queue, &mut tag, true, 64);
    freeze(&rt, &queue, &mut freezer, Put::Last);
    thaw(&rt, &queue, &mut freezer);
    go(&rt, &queue, &mut tag, false, 64);
}

/// A freeze takes the bias of an idle tag away, and waits for the request that is in by its lane.
#[test]
fn one_reclaimed_and_one_watched(rt: HostRuntime) {
    let (queue, mut freezer, mut tags) = opened(&rt, rt.alloc(), 2);
    let mut idle = next(&rt, &freezer, &mut tags);
    let mut busy = next(&rt, &freezer, &mut tags);
    go(&rt, &queue, &mut idle, true, 64);
    go(&rt, &queue, &mut busy, true, 64);
    enter(&rt, &queue, &mut busy);
    freeze(&rt, &queue, &mut freezer, Put::NotLast);
    set(&rt, &queue, &mut freezer, Err(FreezeFault::NotDrained));
    is_refused(&rt, &queue, &mut idle);
    leave_last(&rt, &queue, &mut busy);
    set(&rt, &queue, &mut freezer, Ok(()));
    thaw(&rt, &queue, &mut freezer);
    go(&rt, &queue, &mut idle, true, 8);
    go(&rt, &queue, &mut busy, false, 8);
}

/// A bias that ends drops its reference to the gate, once.
#[test]
fn a_bias_ends(rt: HostRuntime) {
    let (queue, mut freezer, mut tags) = opened(&rt, rt.alloc(), 1);
    let mut tag = next(&rt, &freezer, &mut tags);
    go(&rt, &queue, &mut tag, true, 64);
    assert_eq!(rt; tag.end_bias(&queue, 0), Some(Put::NotLast));
    assert_eq!(rt; tag.end_bias(&queue, 0), Some(Put::NotLast));
    assert!(rt; !tag.is_biased());
    assert_eq!(rt;
        freezer.start_freeze(&queue).expect(&rt, "a freeze").put,
        Put::Last
    );
    assert!(rt; tag.into_tag().is_ok());
}
