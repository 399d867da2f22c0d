//! A running gate: references counted by many threads, a kill, and a revival.
//! A driver's device can be removed while requests run on it. So each request takes a reference before it touches the
//! device, and drops it afterwards: `try_get_live` takes one, or is refused because the device is going, and `put`
//! drops it. To remove the device, a thread kills the gate. Once a request's pass has seen the odd front of the kill,
//! `try_get_live` gives it no more references of that life. Requests in flight go on, and at most one call returns
//! `Last`: the last put, or a refused try, or the kill itself if nothing was held. By the time a dead gate has ended,
//! exactly one call has returned it. Its caller frees the device. No call waits. On a slot of its own a request pays a
//! load and an exchange to enter, and the same to leave. A device that comes back, or whose settings change while
//! nothing runs, is the same gate revived: its settings are the guarded words, which are stored at zero and don't
//! change while a pass holds a reference.
//!
//! A [`Gate`] is what Linux's `percpu_ref` is (lib/percpu-refcount.c). Threads share it by reference. Each counts with
//! a [`Pass`] of its own: `try_get` and `try_get_live` take a reference if the gate still gives one, `get` takes more
//! references for a pass that holds one, `put` drops. The one [`Control`] kills the gate, stores its guarded words once
//! every reference has been put, and revives it. `retire` and [`Gate::exit`] end it: [`Final`] has the number of its
//! releases.
//!
//! Every call after [`Gate::new`] is a few atomic steps in a fixed order, with no lock, no wait and no allocation; no
//! step is tried again. Only kills, switches and revivals contain a loop, which goes over the slots once. Each step is
//! one event of the machine in `percpu_core`, and the rule of the words is that machine's laws, so these hold between
//! any two steps, whichever threads make the calls. docs/GATE.md has the gate's life and its laws.
//!
//! A gate may count on slots. Give such a gate a slot for each processor or each thread. A count on an open slot costs
//! a load and an exchange, on a cache line that no other thread touches if each keeps to a slot of its own. A kill
//! closes the slots and collects their sum, and a revival opens them again. `switch_to_atomic` and `switch_to_slots` do
//! the same on a live gate.
#![tactic(auto)]

mod control;
mod control_fault;
mod control_plays;
mod control_seat;
mod exit;
mod gate;
mod pass;
mod pass_seat;
mod plays;
mod revived;
mod rule;
mod table;
mod tried;

pub use control::Control;
pub use control_fault::ControlFault;
pub use exit::{ExitFault, ExitWhy, Final};
pub use gate::{Gate, NewGate};
pub use pass::Pass;
pub use percpu_core::{
    HELD_LIMIT, KILL_LIMIT, Memory, PASS_LIMIT, Phase, SLOT_LIMIT, Start, WORD_LIMIT,
};
pub use percpu_words::Mode;
pub use revived::Revived;
pub use tried::{Put, Tried};
