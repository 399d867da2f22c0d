//! Tags that go back, and queues that end. `freeze_queue_give_tag_back` requires that queues of one number are one queue, so
//! the helpers say that this still holds of the two handles.
ghost use Rattle.std.specs.Prelude.{◌≡◌, IfSome};
ghost use Rattle.freeze_queue_c.specs.Life.{NumbersTellOn};

use super::LIMITS;
use crate::freezer_calls::{freeze_queue_start_freeze, freeze_queue_thaw};
use crate::freezer_handle::FreezerHandle;
use crate::life::{
    Final, freeze_queue_free_freezer, freeze_queue_free_tag, freeze_queue_give_tag_back,
    freeze_queue_new_numbered, freeze_queue_next_tag, freeze_queue_number, freeze_queue_remove,
    freeze_queue_tag_number,
};
use crate::tag_calls::{freeze_queue_leave, freeze_queue_leave_biased, freeze_queue_try_enter};
use crate::tag_handle::TagHandle;
use c_answers::DrawnNumber;
use std::alloc::Global;
use std::process::Abort;
use std::test::Fail;

/// The value before a queue has ended.
const NOT_YET: Final = Final {
    dead: false,
    kills: 9,
    releases: 9,
    limits: LIMITS,
};

/// Returns the handles of a new queue with two slots and one tag.
fn of_one_queue<R: Abort>(rt: &R, alloc: Global, drawn: u64) -> (FreezerHandle, TagHandle)
    ensures one { NumbersTellOn result.0.held.freezer result.1.held.tag }
    ensures freezer { IfSome result.0.held.freezer (λ f. f.number.drawn ≡ drawn) }
    ensures tag { IfSome result.1.held.tag (λ t. t.number.drawn ≡ drawn) }
{
    let mut freezer = FreezerHandle::new(alloc);
    let mut tag = TagHandle::new(alloc);
    let number = DrawnNumber { counter: 5, drawn };
    let made = freeze_queue_new_numbered(&mut freezer, &number, &LIMITS, 2, 1);
    assert!(*rt; made == 0);
    let given = freeze_queue_next_tag(&mut freezer, &mut tag);
    assert!(*rt; given == 0);
    (freezer, tag)
}

fn enter(freezer: &FreezerHandle, tag: &mut TagHandle) -> u32
    requires { NumbersTellOn freezer.now.held.freezer tag.old.held.tag }
    ensures { NumbersTellOn freezer.now.held.freezer tag.new.held.tag }
{
    freeze_queue_try_enter(tag, 1)
}

fn leave(freezer: &FreezerHandle, tag: &mut TagHandle) -> u32
    requires { NumbersTellOn freezer.now.held.freezer tag.old.held.tag }
    ensures { NumbersTellOn freezer.now.held.freezer tag.new.held.tag }
{
    freeze_queue_leave(tag, 0)
}

fn leave_biased(freezer: &FreezerHandle, tag: &mut TagHandle) -> u32
    requires { NumbersTellOn freezer.now.held.freezer tag.old.held.tag }
    ensures { NumbersTellOn freezer.now.held.freezer tag.new.held.tag }
{
    freeze_queue_leave_biased(tag, 0)
}

fn give_back(freezer: &mut FreezerHandle, tag: &mut TagHandle) -> u32
    requires { NumbersTellOn freezer.old.held.freezer tag.old.held.tag }
    ensures { NumbersTellOn freezer.new.held.freezer tag.new.held.tag }
{
    freeze_queue_give_tag_back(freezer, tag)
}

fn freeze(freezer: &mut FreezerHandle, tag: &TagHandle) -> u32
    requires { NumbersTellOn freezer.old.held.freezer tag.now.held.tag }
    ensures { NumbersTellOn freezer.new.held.freezer tag.now.held.tag }
{
    let mut depth = 0;
    freeze_queue_start_freeze(freezer, &mut depth)
}

fn thaw(freezer: &mut FreezerHandle, tag: &TagHandle) -> u32
    requires { NumbersTellOn freezer.old.held.freezer tag.now.held.tag }
    ensures { NumbersTellOn freezer.new.held.freezer tag.now.held.tag }
{
    let mut depth = 0;
    freeze_queue_thaw(freezer, &mut depth)
}

fn remove(freezer: &mut FreezerHandle, tag: &TagHandle, last: &mut Final) -> u32
    requires { NumbersTellOn freezer.old.held.freezer tag.now.held.tag }
    ensures { NumbersTellOn freezer.new.held.freezer tag.now.held.tag }
{
    freeze_queue_remove(freezer, last)
}

/// Three kills: the first is thawed while the tag is in, after the second the tag is the last to leave, and the third ends the queue.
/// Each field of the final facts has its own value.
#[test]
fn a_whole_life(rt: HostRuntime) -> Result<(), Fail> {
    let (mut freezer, mut tag) = of_one_queue(&rt, rt.alloc(), 1);
    let mut last = NOT_YET;
    assert!(rt; enter(&freezer, &mut tag) == 0);
    assert!(rt; freeze(&mut freezer, &tag) == 0);
    assert!(rt; thaw(&mut freezer, &tag) == 5);
    assert!(rt; freeze(&mut freezer, &tag) == 0);
    assert!(rt; remove(&mut freezer, &tag, &mut last) == 20);
    assert!(rt; last.kills == 9);
    assert!(rt; leave(&freezer, &mut tag) == 1);
    assert!(rt; thaw(&mut freezer, &tag) == 5);
    assert!(rt; freeze_queue_give_tag_back(&mut freezer, &mut tag) == 0);
    assert!(rt; freeze_queue_leave(&mut tag, 0) == 32);
    assert!(rt; freeze_queue_remove(&mut freezer, &mut last) == 0);
    let told = format!(in rt.alloc(); "{last:?}")?;
    let wanted =
        "Final { dead: true, kills: 3, releases: 2, limits: PlainLimits { hardware: 16, max: 12, chunk: 10, physical: 4 } }";
    assert!(rt; told.as_str() == wanted);
    assert!(rt; freeze_queue_remove(&mut freezer, &mut last) == 32);
    Ok(())
}

/// Tags that nobody asked for end with the queue. A tag that was given out keeps the queue from ending.
#[test]
fn tags_that_nobody_asked_for(rt: HostRuntime) {
    let mut freezer = FreezerHandle::new(rt.alloc());
    let mut tag = TagHandle::new(rt.alloc());
    let mut last = NOT_YET;
    let number = DrawnNumber {
        counter: 5,
        drawn: 6,
    };
    assert!(rt; freeze_queue_new_numbered(&mut freezer, &number, &LIMITS, 2, 3) == 0);
    assert!(rt; freeze_queue_remove(&mut freezer, &mut last) == 0);
    assert!(rt; (last.dead, last.kills, last.releases) == (true, 1, 1));
    assert!(rt; freeze_queue_new_numbered(&mut freezer, &number, &LIMITS, 2, 3) == 0);
    assert!(rt; freeze_queue_next_tag(&mut freezer, &mut tag) == 0);
    assert!(rt; freeze_queue_remove(&mut freezer, &mut last) == 20);
    assert!(rt; freeze_queue_tag_number(&mut tag) == 6);
    assert!(rt; freeze_queue_number(&mut freezer) == 6);
    freeze_queue_free_tag(&mut tag);
    assert!(rt; freeze_queue_remove(&mut freezer, &mut last) == 20);
    freeze_queue_free_freezer(&mut freezer);
    assert!(rt; freeze_queue_tag_number(&mut tag) == 0);
    assert!(rt; freeze_queue_number(&mut freezer) == 0);
}

/// A tag that is in isn't taken back: its handle keeps it, and it leaves.
#[test]
fn a_tag_that_is_in_is_not_taken_back(rt: HostRuntime) {
    let (mut freezer, mut tag) = of_one_queue(&rt, rt.alloc(), 1);
    assert!(rt; enter(&freezer, &mut tag) == 0);
    assert!(rt; freeze_queue_give_tag_back(&mut freezer, &mut tag) == 48);
    assert!(rt; freeze_queue_leave(&mut tag, 1) == 0);
    freeze_queue_free_tag(&mut tag);
    freeze_queue_free_freezer(&mut freezer);
}

/// A biased tag goes back without its bias, and the queue can end. A tag that is in by its lane isn't taken back.
#[test]
fn a_biased_tag_goes_back(rt: HostRuntime) {
    let (mut freezer, mut tag) = of_one_queue(&rt, rt.alloc(), 1);
    let mut last = NOT_YET;
    assert!(rt; enter(&freezer, &mut tag) == 0);
    assert!(rt; leave_biased(&freezer, &mut tag) == 0);
    assert!(rt; enter(&freezer, &mut tag) == 0);
    assert!(rt; give_back(&mut freezer, &mut tag) == 48);
    assert!(rt; leave_biased(&freezer, &mut tag) == 0);
    assert!(rt; remove(&mut freezer, &tag, &mut last) == 20);
    assert!(rt; give_back(&mut freezer, &mut tag) == 0);
    assert!(rt; freeze_queue_remove(&mut freezer, &mut last) == 0);
    assert!(rt; last.kills == 1);
    assert!(rt; last.releases == 1);
}

/// A tag that was biased and goes back is given again without a bias, and can be biased again.
#[test]
fn a_biased_tag_is_given_again(rt: HostRuntime) {
    for drawn in 1..4u64 {
        let (mut freezer, mut tag) = of_one_queue(&rt, rt.alloc(), drawn);
        let mut depth = 0;
        let biased = enter(&freezer, &mut tag) == 0 && leave_biased(&freezer, &mut tag) == 0;
        assert!(rt; biased);
        let back = give_back(&mut freezer, &mut tag);
        assert!(rt; back == 0, "{drawn}");
        let given = freeze_queue_next_tag(&mut freezer, &mut tag);
        assert!(rt; given == 0, "{drawn}");
        let again = freeze_queue_try_enter(&mut tag, 1) == 0
            && freeze_queue_leave_biased(&mut tag, 1) == 0;
        assert!(rt; again, "{drawn}");
        let drained = freeze_queue_start_freeze(&mut freezer, &mut depth);
        assert!(rt; drained == 4, "{drawn}");
        freeze_queue_free_tag(&mut tag);
        freeze_queue_free_freezer(&mut freezer);
    }
}

#[test]
fn a_tag_of_another_queue(rt: HostRuntime) {
    let (mut first, mut tag) = of_one_queue(&rt, rt.alloc(), 1);
    let (mut second, mut other) = of_one_queue(&rt, rt.alloc(), 2);
    assert!(rt; freeze_queue_give_tag_back(&mut second, &mut tag) == 38);
    assert!(rt; freeze_queue_try_enter(&mut tag, 0) == 0);
    assert!(rt; freeze_queue_leave(&mut tag, 0) == 0);
    freeze_queue_free_tag(&mut tag);
    freeze_queue_free_tag(&mut other);
    freeze_queue_free_freezer(&mut first);
    freeze_queue_free_freezer(&mut second);
}

/// A tag that went back is given again, and a queue never has more tags than it was made with.
#[test]
fn tags_come_and_go(rt: HostRuntime) {
    let (mut freezer, mut tag) = of_one_queue(&rt, rt.alloc(), 1);
    let mut other = TagHandle::new(rt.alloc());
    assert!(rt; freeze_queue_next_tag(&mut freezer, &mut other) == 39);
    assert!(rt; freeze_queue_give_tag_back(&mut freezer, &mut tag) == 0);
    assert!(rt; freeze_queue_next_tag(&mut freezer, &mut other) == 0);
    assert!(rt; freeze_queue_next_tag(&mut freezer, &mut other) == 33);
    assert!(rt; freeze_queue_next_tag(&mut freezer, &mut tag) == 39);
    freeze_queue_free_tag(&mut other);
    freeze_queue_free_freezer(&mut freezer);
    assert!(rt; freeze_queue_next_tag(&mut freezer, &mut tag) == 32);
}

/// Sizes at both ends of their ranges, and an open handle.
#[test]
fn sizes(rt: HostRuntime) {
    let mut freezer = FreezerHandle::new(rt.alloc());
    let mut tag = TagHandle::new(rt.alloc());
    let number = DrawnNumber {
        counter: 5,
        drawn: 6,
    };
    assert!(rt; freeze_queue_new_numbered(&mut freezer, &number, &LIMITS, 0, 2) == 35);
    assert!(rt; freeze_queue_new_numbered(&mut freezer, &number, &LIMITS, 513, 2) == 35);
    assert!(rt; freeze_queue_new_numbered(&mut freezer, &number, &LIMITS, 2, 0) == 35);
    assert!(rt; freeze_queue_new_numbered(&mut freezer, &number, &LIMITS, 2, 1_024) == 35);
    assert!(rt; freeze_queue_new_numbered(&mut freezer, &number, &LIMITS, 512, 1_023) == 0);
    assert!(rt; freeze_queue_new_numbered(&mut freezer, &number, &LIMITS, 512, 1_023) == 33);
    for _ in 0..1_023u32 {
        assert!(rt; freeze_queue_next_tag(&mut freezer, &mut tag) == 0);
        assert!(rt; freeze_queue_try_enter(&mut tag, 511) == 0);
        freeze_queue_free_tag(&mut tag);
    }
    assert!(rt; freeze_queue_next_tag(&mut freezer, &mut tag) == 39);
    freeze_queue_free_freezer(&mut freezer);
}

/// Two hundred queues in turn, each with another number, are made, give a tag, take it back and end: there is memory for
/// all.
#[test]
fn queues_in_turn(rt: HostRuntime) {
    for drawn in 1..201u64 {
        let (mut freezer, mut tag) = of_one_queue(&rt, rt.alloc(), drawn);
        let mut last = NOT_YET;
        let back = freeze_queue_give_tag_back(&mut freezer, &mut tag);
        assert!(rt; back == 0, "{drawn}");
        let ended = freeze_queue_remove(&mut freezer, &mut last);
        assert!(rt; ended == 0, "{drawn}");
    }
}

/// A frozen queue ends at any depth. Its gate was killed once.
#[test]
fn a_frozen_queue_ends(rt: HostRuntime) {
    let number = DrawnNumber {
        counter: 5,
        drawn: u64::MAX,
    };
    for freezes in [1u32, 2, 3, 4, 5, 6, 7, 8, 1_000] {
        let mut freezer = FreezerHandle::new(rt.alloc());
        let mut last = NOT_YET;
        let mut depth = 0;
        let made = freeze_queue_new_numbered(&mut freezer, &number, &LIMITS, 1, 1);
        assert!(rt; made == 0);
        for _ in 0..freezes {
            freeze_queue_start_freeze(&mut freezer, &mut depth);
        }
        assert!(rt; depth == freezes);
        let ended = freeze_queue_remove(&mut freezer, &mut last);
        assert!(rt; ended == 0, "{freezes}");
        assert!(rt; (last.dead, last.kills, last.releases) == (true, 1, 1));
    }
}
