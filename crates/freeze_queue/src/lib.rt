//! A request queue that can be frozen: requests enter it, and it is drained before its limits are changed.
//!
//! A [`BlockQueue`] is to its users what a `request_queue` is to a driver in Linux (block/blk-core.c). The crate
//! `queue_core` counts and freezes, and never waits. This crate adds places to sleep: for threads that want to enter,
//! for the freezer that waits for the drain, and for threads that wait for it by a shared freezer. The life of a queue:
//!
//! - **Live.** A submitter takes a [`Tag`] and enters with it, reads the limits under it, and hands the tag on with its request.
//!   The thread that ends the request leaves with the tag. `try_enter` and `leave` are one counting call of the gate each, without
//!   a lock. If each submitter uses a slot of its own, no word is written by all of them (in the other [`Mode`] they share one
//!   count). `enter` announces its wait only after it has been refused a few times. A thread with a tag of its own makes it a
//!   [`BiasedTag`], which keeps its reference between requests: `enter_by_lane` and `leave_by_lane` are a store and a load each.
//! - **Frozen.** The [`Freezer`] counts freezes. The first kills the gate: no tag enters from then on, except by
//!   `try_enter_frozen`, to look at the requests in flight. The last tag to leave wakes the threads that wait for the drain.
//!   `freeze` starts and waits; to freeze several queues, call `start_freeze` on each, and then `wait_drained` on each.
//! - **Set.** While the queue is drained, its limits can be set. They are in the gate's guarded words, so they don't change while a
//!   tag is entered.
//! - **Thawed.** The last thaw revives the gate, drained or not, and wakes the threads that wait to enter.
//!
//! One thread at a time has a [`Freezer`], so that thread can wait by parking. A [`SharedFreezer`] shares the one freezer between
//! several threads, behind a lock, and they wait without holding the lock. The last put of a drain wakes both.
//!
//! What a tag and a freezer know, what each call leaves, and the laws are those of `queue_core` (specs/Queue.antt there takes five
//! minutes to read), and are exported here too. The tests are in `trials_rows`, where `tests/queue_caller.rt` shows how a caller
//! reasons. No contract promises that a waiter wakes; tests show it.
#![tactic(auto)]

mod enter;
mod freezer;
mod lanes;
mod queue;
mod remove;
mod shared;

pub use enter::Enter;
pub use freezer::Freezer;
pub use queue::{BlockQueue, NewQueue};
pub use queue_core::{
    BiasedEntry, BiasedTag, Final, FreezeFault, LIMIT_WORDS, LimitFault, Limits, MOST_DEPTH,
    MOST_TAGS, Memory, Mode, Put, Tag, biased_holds_off, drained_is_empty, drained_refuses,
    entered_holds_off, in_force_are_set, limits_hold_still, sizes_in_numbers,
    tags_read_what_is_set,
};
pub use remove::RemoveFault;
pub use shared::{Pair, SharedFreezer};
