//! Handles that are freed: the queue stays as it was, for each handle that is left.
use super::{LIMITS, NUMBER};
use crate::freezer_calls::{
    freeze_queue_depth, freeze_queue_poll_drained, freeze_queue_start_freeze, freeze_queue_thaw,
};
use crate::freezer_handle::FreezerHandle;
use crate::life::{
    freeze_queue_free_freezer, freeze_queue_free_tag, freeze_queue_new_numbered,
    freeze_queue_next_tag,
};
use crate::plain_limits::PlainLimits;
use crate::tag_calls::{freeze_queue_leave, freeze_queue_look_in, freeze_queue_try_enter};
use crate::tag_handle::TagHandle;
use std::alloc::Global;
use std::process::Abort;

/// Returns a freezer and two tags of a new queue with two slots and these limits.
fn of_two_tags(alloc: Global, limits: &PlainLimits) -> (FreezerHandle, TagHandle, TagHandle) {
    let mut freezer = FreezerHandle::new(alloc);
    let mut first = TagHandle::new(alloc);
    let mut second = TagHandle::new(alloc);
    freeze_queue_new_numbered(&mut freezer, &NUMBER, limits, 2, 2);
    freeze_queue_next_tag(&mut freezer, &mut first);
    freeze_queue_next_tag(&mut freezer, &mut second);
    (freezer, first, second)
}

/// Freeing a tag that is out doesn't enter: a freeze finds the queue empty.
#[test]
fn a_freed_tag_enters_nothing(rt: HostRuntime) {
    let (mut freezer, mut freed, mut left) = of_two_tags(rt.alloc(), &LIMITS);
    let mut depth = 9;
    freeze_queue_free_tag(&mut freed);
    assert!(rt; freeze_queue_start_freeze(&mut freezer, &mut depth) == 4);
    freeze_queue_free_tag(&mut left);
    freeze_queue_free_freezer(&mut freezer);
}

/// Freeing a tag while the queue is frozen doesn't look in: the other tag is the last to leave.
#[test]
fn a_freed_tag_looks_into_nothing(rt: HostRuntime) {
    let (mut freezer, mut freed, mut left) = of_two_tags(rt.alloc(), &LIMITS);
    let mut depth = 9;
    assert!(rt; freeze_queue_try_enter(&mut left, 1) == 0);
    assert!(rt; freeze_queue_start_freeze(&mut freezer, &mut depth) == 0);
    freeze_queue_free_tag(&mut freed);
    assert!(rt; freeze_queue_leave(&mut left, 0) == 1);
    assert!(rt; freeze_queue_poll_drained(&mut freezer));
    freeze_queue_free_tag(&mut left);
    freeze_queue_free_freezer(&mut freezer);
}

/// Freeing a tag that is in doesn't leave, on either slot: the other tag isn't the last to leave.
#[test]
fn a_freed_tag_leaves_nothing(rt: HostRuntime) {
    for slot in 0..2u32 {
        let (mut freezer, mut freed, mut left) = of_two_tags(rt.alloc(), &LIMITS);
        let mut depth = 9;
        assert!(rt; freeze_queue_try_enter(&mut freed, slot) == 0);
        assert!(rt; freeze_queue_try_enter(&mut left, 0) == 0);
        assert!(rt; freeze_queue_start_freeze(&mut freezer, &mut depth) == 0);
        freeze_queue_free_tag(&mut freed);
        assert!(rt; freeze_queue_leave(&mut left, 1) == 0);
        assert!(rt; !freeze_queue_poll_drained(&mut freezer));
        freeze_queue_free_tag(&mut left);
        freeze_queue_free_freezer(&mut freezer);
    }
}

/// Freeing a freezer while its queue is live doesn't freeze the queue, whatever its limits are.
#[test]
fn a_freed_freezer_freezes_nothing(rt: HostRuntime) {
    for max in 1..17u32 {
        let limits = PlainLimits {
            hardware: 16,
            max,
            chunk: 0,
            physical: 1,
        };
        let (mut freezer, mut first, mut second) = of_two_tags(rt.alloc(), &limits);
        freeze_queue_free_freezer(&mut freezer);
        let entered = freeze_queue_try_enter(&mut first, 0);
        assert!(rt; entered == 0, "{max}");
        let left = freeze_queue_leave(&mut first, 1);
        assert!(rt; left == 0, "{max}");
        freeze_queue_free_tag(&mut first);
        freeze_queue_free_tag(&mut second);
    }
}

/// Freeing a freezer after a freeze and a thaw doesn't freeze the queue either.
#[test]
fn a_freed_freezer_stays_thawed(rt: HostRuntime) {
    let (mut freezer, mut first, mut second) = of_two_tags(rt.alloc(), &LIMITS);
    let mut depth = 9;
    assert!(rt; freeze_queue_start_freeze(&mut freezer, &mut depth) == 4);
    assert!(rt; freeze_queue_thaw(&mut freezer, &mut depth) == 5);
    freeze_queue_free_freezer(&mut freezer);
    assert!(rt; freeze_queue_try_enter(&mut first, 0) == 0);
    assert!(rt; freeze_queue_leave(&mut first, 1) == 0);
    freeze_queue_free_tag(&mut first);
    freeze_queue_free_tag(&mut second);
}

/// Freeing a freezer while its queue is frozen doesn't thaw the queue, at any depth.
#[test]
fn a_freed_freezer_thaws_nothing(rt: HostRuntime) {
    for freezes in [1u32, 2, 7, 1_000] {
        let (mut freezer, mut first, mut second) = of_two_tags(rt.alloc(), &LIMITS);
        let mut depth = 9;
        for _ in 0..freezes {
            freeze_queue_start_freeze(&mut freezer, &mut depth);
        }
        freeze_queue_depth(&mut freezer, &mut depth);
        assert!(rt; depth == freezes);
        freeze_queue_free_freezer(&mut freezer);
        let entered = freeze_queue_try_enter(&mut first, 0);
        assert!(rt; entered == 2, "{freezes}");
        let looked_in = freeze_queue_look_in(&mut first, 0);
        assert!(rt; looked_in == 2, "{freezes}");
        freeze_queue_free_tag(&mut first);
        freeze_queue_free_tag(&mut second);
    }
}
