//! A gate as a pure machine of atomic steps, and the laws that hold between any two of them.
//!
//! A *gate* counts references to something that can be shut, as Linux's `percpu_ref` does (lib/percpu-refcount.c). This
//! is the life of its counter:
//!
//! - **Live.** Passes take and drop references on the shared word. One more reference, the initial one, belongs to the
//!   gate itself, so the count can't reach zero.
//! - **Live on slots.** A count on one word is slow if many threads make it. So passes count on slots, each by an
//!   exchange of the delta that it saw; a count that doesn't fit there goes to the shared word. A bias in the shared
//!   value keeps it from zero meanwhile. A switch, or a kill, closes the slots one after another and collects their
//!   sum; a switch back adds the bias and opens them.
//! - **Killed.** The control sets DEAD. A try for a live gate that adds to the shared word after that is refused. The
//!   slots are closed and their counts collected. The control stores the odd front, which shows everyone that the kill
//!   is complete, and drops the initial reference.
//! - **Zero.** A subtraction that leaves DEAD alone is followed by an exchange that marks ZERO. The seat that wins this
//!   exchange has the release: everything was put. There is at most one release for each kill. Now guarded words may be
//!   stored.
//! - **Revived.** The control takes the initial reference back, stores the even front, and clears both marks.
//!
//! A [`World`] is a gate as a value: `step` takes one atomic step of one seat, or returns why it isn't enabled;
//! `replay` takes a list of steps. The laws of docs/GATE.md hold of every world, whatever its seats do and in whatever
//! order. That page has the life of a gate step by step, and the reason for each order.
#![tactic(auto)]

mod control_event;
mod control_standing;
mod event;
mod interleavings;
mod limits;
mod memory;
mod not_enabled;
mod pass_event;
mod pass_standing;
mod phase;
mod replay_fault;
mod reply;
mod schedule;
mod shared_word;
mod sizes;
mod slot;
mod slots;
mod start;
mod view;
mod world;

pub use control_event::ControlEvent;
pub use control_standing::ControlStanding;
pub use event::Event;
pub use interleavings::{
    a_release_is_the_last, each_step_fits, each_step_keeps_the_laws, events_are_moves,
    every_interleaving, nothing_is_lost, numbers_stay_small,
};
pub use limits::{
    HELD_LIMIT, KILL_LIMIT, PASS_LIMIT, SLOT_LIMIT, WORD_LIMIT, limits_are_these_numbers,
};
pub use memory::Memory;
pub use not_enabled::NotEnabled;
pub use pass_event::PassEvent;
pub use pass_standing::{PassStanding, Pending};
pub use phase::Phase;
pub use replay_fault::ReplayFault;
pub use reply::Reply;
pub use schedule::replay;
pub use sizes::Sizes;
pub use slot::Slot;
pub use start::Start;
pub use view::{ControlView, PassView, View, WordRead};
pub use world::World;
