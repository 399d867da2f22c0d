//! A life through the exports, and each misuse. c/tests tests what the library does with C's threads, sanitizers and a
//! failing `malloc`.
mod biased;
mod ends;
mod freed;
mod limits;

use crate::freezer_calls::{
    freeze_queue_depth, freeze_queue_mode, freeze_queue_poll_drained, freeze_queue_set,
    freeze_queue_start_freeze, freeze_queue_thaw,
};
use crate::freezer_handle::FreezerHandle;
use crate::life::{
    freeze_queue_free_freezer, freeze_queue_free_tag, freeze_queue_new_numbered,
    freeze_queue_next_tag,
};
use crate::open_freezer::OpenFreezer;
use crate::open_tag::OpenTag;
use crate::plain_limits::PlainLimits;
use crate::tag_calls::{
    freeze_queue_leave, freeze_queue_limits_of, freeze_queue_look_in, freeze_queue_try_enter,
};
use crate::tag_handle::TagHandle;
use c_answers::DrawnNumber;
use std::process::Abort;

/// The number of the tests' queue.
const NUMBER: DrawnNumber = DrawnNumber {
    counter: 1,
    drawn: 1,
};

/// Hardware that takes 16 sectors, a maximum of 12, chunks of 10 and physical blocks of 4.
const LIMITS: PlainLimits = PlainLimits {
    hardware: 16,
    max: 12,
    chunk: 10,
    physical: 4,
};

/// The box of a handle may cross threads.
fn crosses<T: Send>() {}

/// Returns a freezer and a tag of a new queue with two slots and two tags.
fn opened(rt: HostRuntime) -> (FreezerHandle, TagHandle) {
    crosses::<OpenTag>();
    crosses::<OpenFreezer>();
    let mut freezer = FreezerHandle::new(rt.alloc());
    let mut tag = TagHandle::new(rt.alloc());
    freeze_queue_new_numbered(&mut freezer, &NUMBER, &LIMITS, 2, 2);
    freeze_queue_next_tag(&mut freezer, &mut tag);
    (freezer, tag)
}

/// Frees both handles.
fn close(freezer: &mut FreezerHandle, tag: &mut TagHandle) {
    freeze_queue_free_tag(tag);
    freeze_queue_free_freezer(freezer);
}

/// A tag enters; during a freeze a second tag is refused, looks in, leaves as the last, and enters again after the thaw.
#[test]
fn a_life(rt: HostRuntime) {
    let (mut freezer, mut tag) = opened(rt);
    let mut other = TagHandle::new(rt.alloc());
    let mut depth = 9;
    assert!(rt; freeze_queue_next_tag(&mut freezer, &mut other) == 0);
    assert!(rt; freeze_queue_try_enter(&mut tag, 1) == 0);
    assert!(rt; !freeze_queue_poll_drained(&mut freezer));
    assert!(rt; freeze_queue_start_freeze(&mut freezer, &mut depth) == 0);
    assert!(rt; depth == 1);
    assert!(rt; freeze_queue_try_enter(&mut other, 0) == 2);
    assert!(rt; freeze_queue_look_in(&mut other, 0) == 0);
    assert!(rt; freeze_queue_leave(&mut tag, 0) == 0);
    assert!(rt; !freeze_queue_poll_drained(&mut freezer));
    assert!(rt; freeze_queue_leave(&mut other, 0) == 1);
    assert!(rt; freeze_queue_poll_drained(&mut freezer));
    assert!(rt; freeze_queue_look_in(&mut other, 1) == 2);
    assert!(rt; freeze_queue_thaw(&mut freezer, &mut depth) == 5);
    assert!(rt; depth == 0);
    assert!(rt; freeze_queue_try_enter(&mut other, 1) == 0);
    assert!(rt; freeze_queue_leave(&mut other, 1) == 0);
    assert!(rt; freeze_queue_leave(&mut other, 1) == 49);
    freeze_queue_free_tag(&mut other);
    close(&mut freezer, &mut tag);
}

/// A freeze of an empty queue returns that it is drained, and so does a nested freeze. The last thaw returns that it is live.
#[test]
fn nested_freezes(rt: HostRuntime) {
    let (mut freezer, mut tag) = opened(rt);
    let mut depth = 9;
    assert!(rt; freeze_queue_depth(&mut freezer, &mut depth) == 0);
    assert!(rt; depth == 0);
    assert!(rt; freeze_queue_thaw(&mut freezer, &mut depth) == 18);
    assert!(rt; freeze_queue_start_freeze(&mut freezer, &mut depth) == 4);
    assert!(rt; depth == 1);
    assert!(rt; freeze_queue_start_freeze(&mut freezer, &mut depth) == 4);
    assert!(rt; depth == 2);
    assert!(rt; freeze_queue_depth(&mut freezer, &mut depth) == 0);
    assert!(rt; depth == 2);
    assert!(rt; freeze_queue_thaw(&mut freezer, &mut depth) == 0);
    assert!(rt; depth == 1);
    assert!(rt; freeze_queue_poll_drained(&mut freezer));
    assert!(rt; freeze_queue_thaw(&mut freezer, &mut depth) == 5);
    assert!(rt; !freeze_queue_poll_drained(&mut freezer));
    close(&mut freezer, &mut tag);
}

/// If the last tag to leave has drained the queue, the next freeze returns this without a look in between.
#[test]
fn a_nested_freeze_looks(rt: HostRuntime) {
    let (mut freezer, mut tag) = opened(rt);
    let mut depth = 9;
    assert!(rt; freeze_queue_try_enter(&mut tag, 0) == 0);
    assert!(rt; freeze_queue_start_freeze(&mut freezer, &mut depth) == 0);
    assert!(rt; freeze_queue_start_freeze(&mut freezer, &mut depth) == 0);
    assert!(rt; freeze_queue_leave(&mut tag, 1) == 1);
    assert!(rt; freeze_queue_start_freeze(&mut freezer, &mut depth) == 4);
    assert!(rt; depth == 3);
    close(&mut freezer, &mut tag);
}

/// Freeze number 1,001 is refused, and writes nothing.
#[test]
fn the_greatest_depth(rt: HostRuntime) {
    let (mut freezer, mut tag) = opened(rt);
    let mut depth = 9;
    for k in 1..1_001u32 {
        assert!(rt; freeze_queue_start_freeze(&mut freezer, &mut depth) == 4);
        assert!(rt; depth == k);
    }
    depth = 7;
    assert!(rt; freeze_queue_start_freeze(&mut freezer, &mut depth) == 17);
    assert!(rt; depth == 7);
    close(&mut freezer, &mut tag);
}

#[test]
fn misuse_of_a_tag(rt: HostRuntime) {
    let (mut freezer, mut tag) = opened(rt);
    let mut told = LIMITS;
    assert!(rt; freeze_queue_try_enter(&mut tag, 2) == 34);
    assert!(rt; freeze_queue_look_in(&mut tag, 2) == 34);
    assert!(rt; freeze_queue_leave(&mut tag, 2) == 34);
    assert!(rt; freeze_queue_leave(&mut tag, 1) == 49);
    assert!(rt; freeze_queue_limits_of(&mut tag, &mut told) == 49);
    assert!(rt; freeze_queue_try_enter(&mut tag, 1) == 0);
    assert!(rt; freeze_queue_try_enter(&mut tag, 2) == 34);
    assert!(rt; freeze_queue_try_enter(&mut tag, 0) == 48);
    assert!(rt; freeze_queue_look_in(&mut tag, 0) == 48);
    assert!(rt; freeze_queue_leave(&mut tag, 0) == 0);
    freeze_queue_free_tag(&mut tag);
    assert!(rt; freeze_queue_try_enter(&mut tag, 0) == 32);
    assert!(rt; freeze_queue_look_in(&mut tag, 0) == 32);
    assert!(rt; freeze_queue_leave(&mut tag, 0) == 32);
    assert!(rt; freeze_queue_limits_of(&mut tag, &mut told) == 32);
    close(&mut freezer, &mut tag);
}

#[test]
fn misuse_of_a_freezer(rt: HostRuntime) {
    let (mut freezer, mut tag) = opened(rt);
    let mut depth = 9;
    assert!(rt; freeze_queue_mode(&mut freezer, 2) == 50);
    freeze_queue_free_freezer(&mut freezer);
    assert!(rt; freeze_queue_start_freeze(&mut freezer, &mut depth) == 32);
    assert!(rt; freeze_queue_thaw(&mut freezer, &mut depth) == 32);
    assert!(rt; freeze_queue_depth(&mut freezer, &mut depth) == 32);
    assert!(rt; depth == 9);
    assert!(rt; !freeze_queue_poll_drained(&mut freezer));
    assert!(rt; freeze_queue_set(&mut freezer, &LIMITS) == 32);
    assert!(rt; freeze_queue_mode(&mut freezer, 0) == 32);
    close(&mut freezer, &mut tag);
}

/// Both modes count, also if the mode is changed while a tag is in or the queue is frozen.
#[test]
fn both_modes(rt: HostRuntime) {
    let (mut freezer, mut tag) = opened(rt);
    let mut depth = 9;
    assert!(rt; freeze_queue_mode(&mut freezer, 1) == 0);
    assert!(rt; freeze_queue_try_enter(&mut tag, 1) == 0);
    assert!(rt; freeze_queue_mode(&mut freezer, 0) == 0);
    assert!(rt; freeze_queue_start_freeze(&mut freezer, &mut depth) == 0);
    assert!(rt; freeze_queue_mode(&mut freezer, 1) == 0);
    assert!(rt; freeze_queue_leave(&mut tag, 0) == 1);
    assert!(rt; freeze_queue_thaw(&mut freezer, &mut depth) == 5);
    assert!(rt; freeze_queue_try_enter(&mut tag, 0) == 0);
    assert!(rt; freeze_queue_leave(&mut tag, 1) == 0);
    close(&mut freezer, &mut tag);
}

/// A tag that is freed while it is in never leaves: the queue never drains.
#[test]
fn a_freed_tag_stays_in(rt: HostRuntime) {
    let (mut freezer, mut tag) = opened(rt);
    let mut depth = 9;
    assert!(rt; freeze_queue_try_enter(&mut tag, 0) == 0);
    freeze_queue_free_tag(&mut tag);
    assert!(rt; freeze_queue_start_freeze(&mut freezer, &mut depth) == 0);
    assert!(rt; !freeze_queue_poll_drained(&mut freezer));
    freeze_queue_free_freezer(&mut freezer);
}

/// The tags of a freed freezer go on entering: nobody has frozen their queue.
#[test]
fn a_freed_freezer_leaves_its_queue_live(rt: HostRuntime) {
    let (mut freezer, mut tag) = opened(rt);
    freeze_queue_free_freezer(&mut freezer);
    assert!(rt; freeze_queue_try_enter(&mut tag, 0) == 0);
    assert!(rt; freeze_queue_leave(&mut tag, 1) == 0);
    freeze_queue_free_tag(&mut tag);
}
