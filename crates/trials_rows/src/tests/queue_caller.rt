//! How a caller of a queue reasons: from the contracts of the public calls alone.
ghost use Rattle.std.specs.Prelude.{◌≡◌, ◌<◌, true, false, OnOk, IfOk, Some};
ghost use Rattle.std.specs.Thread.{IsSync};
ghost use Rattle.trials_rows.specs.Changes.{AreWhatWasSet};

use crate::tests::fixture::with_one_tag;
use freeze_queue::{BlockQueue, FreezeFault, Freezer, Tag, in_force_are_set};
use queue_limits::Limits;
use std::process::Abort;
use std::sync::Wait;
use std::test::Fail;
use std::thread;
use std::thread::Threads;
use uses::change_limits;

/// Reads the limits on another thread, by a tag that entered here.
fn read_elsewhere(queue: &BlockQueue, mut tag: Tag) -> (Tag, Limits)
    requires own { tag.queue ≡ queue.now }
    requires entered { tag.entered ≡ true }
    ensures { (result.0.queue ≡ queue.now) × (result.0.entered ≡ true) × (result.0.limits ≡ Some result.1) }
{
    let limits = queue.limits(&mut tag);
    (tag, limits)
}

/// Reads the limits on two threads under one tag. They are equal, whatever a freezer does meanwhile.
fn two_reads_agree<R: Threads>(rt: &R, queue: &BlockQueue, tag: Tag) -> (Tag, bool)
    requires own { tag.queue ≡ queue.now }
    requires entered { tag.entered ≡ true }
    ensures { (result.0.queue ≡ queue.now) × (result.0.entered ≡ true) × (result.1 ≡ true) }
{
    let ((mut tag, there), _) = thread::join(
        rt,
        move || -> (Tag, Limits)
            requires { (tag.queue ≡ queue.now) × (tag.entered ≡ true) }
            ensures { (result.0.queue ≡ queue.entry.now) × (result.0.entered ≡ true) × (result.0.limits ≡ Some result.1) }
        { read_elsewhere(queue, tag) },
        || (),
    );
    let here = queue.limits(&mut tag);
    (tag, here == there)
}

/// Reads the limits by a tag that enters after a freeze, a set and a thaw. They are the new ones, unless the freezer has gone on by
/// the moment at which the tag reads them.
fn reads_what_was_set<R: Wait>(
    rt: &R,
    queue: &BlockQueue,
    freezer: &mut Freezer,
    tag: &mut Tag,
    limits: Limits,
) -> Result<Limits, FreezeFault>
    requires own { (freezer.old.queue ≡ queue.now) × (tag.old.queue ≡ queue.now) }
    requires slot { 0 < queue.now.gate.slots }
    requires hardware { limits.hardware ≡ freezer.old.queue.hardware }
    requires out { tag.old.entered ≡ false }
    ensures own { (freezer.new.queue ≡ queue.now) × (tag.new.queue ≡ queue.now) }
    ensures entered { OnOk result (tag.new.entered ≡ true) }
    ensures told { IfOk result (λ told. tag.new.limits ≡ Some told) }
    ensures new { IfOk result (λ told. AreWhatWasSet queue.now freezer.new limits told) }
{
    change_limits(rt, queue, freezer, limits)?;
    queue.enter(rt, tag, 0);
    in_force_are_set();
    freezer.depth();
    Ok(queue.limits(tag))
}

/// Returns the limits that a tag reads after a change, and whether two threads read the same.
fn read_by_callers<R: Threads + Wait>(
    rt: &R,
    queue: &BlockQueue,
    mut freezer: Freezer,
    mut tag: Tag,
    limits: Limits,
) -> (Result<Limits, FreezeFault>, bool)
    requires own { (freezer.queue ≡ queue.now) × (tag.queue ≡ queue.now) }
    requires slot { 0 < queue.now.gate.slots }
    requires hardware { limits.hardware ≡ queue.now.hardware }
    requires out { tag.entered ≡ false }
{
    let told = reads_what_was_set(rt, queue, &mut freezer, &mut tag, limits);
    let agree = tag.entered() && two_reads_agree(rt, queue, tag).1;
    (told, agree)
}

#[test]
fn callers_by_hand(rt: HostRuntime) -> Result<(), Fail> {
    let narrow = Limits::new(8, 3, 2)?;
    let (queue, freezer, tag) = with_one_tag(rt.alloc())?;
    let told = read_by_callers(&rt, &queue, freezer, tag, narrow);
    assert_eq!(rt; told, (Ok(narrow), true));
    Ok(())
}
