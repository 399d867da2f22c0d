//! What a script asks of a request queue, and what it means on one thread.
//!
//! A [`Script`] has a disk, a limit of the hardware, and lines. Each [`Line`] asks for one thing: to read or write a range of
//! sectors, to freeze or thaw, to set a limit, to report the counts. [`QueueState`] is the queue without the bytes of its disk. It
//! takes the lines one after another and returns the [`Outcome`] of each: an accepted request, or a reply and whether the queue
//! drains. Whatever runs a script, on one thread or on several, uses it. specs/Meaning.antt says what accepted requests do to the
//! disk.
#![tactic(auto)]

mod laws;
mod queue_state;
mod reply;
mod script;

pub use laws::{accepted_replies, depth_in_numbers, numbers_of_requests, states_of_queues};
pub use queue_state::{DEPTH_LIMIT, QueueState};
pub use reply::{ByteRuns, Outcome, PieceLengths, Reply, Request, Stat};
pub use script::{Line, Mode, Pattern, Script, Version, What};
