//! Queues under a rule, through which the threads of a run hand requests to one another.
//!
//! A [`RequestQueue`] comes with its [`Source`], the right to push. The source gives each thread that is to draw a [`Consumer`],
//! with memory for the numbers that it will draw. Requests are pushed as 0, 1, 2 and so on, followed by an end mark for each
//! consumer. A thread draws until it takes an end mark, and gives its consumer back. Once all consumers are back, `finish` returns
//! the lists of what they drew: each increases, and together they have each request once.
//!
//! A [`CompletionQueue`] goes the other way. Its [`Collector`] gives a [`CompletionToken`] for each request, which goes with the
//! request and is used up when its completion is reported. What is left of it is an [`Acknowledgement`], by which a thread shows
//! that it reported. So each completion is collected at most once.
//!
//! A [`SpareQueue`] holds items that aren't in use. Contracts know of an item what its type's invariant says; they also know how
//! many items the one [`Taker`] took, and how many each thread put back ([`PutCount`]).
//!
//! `specs/Requests.antt` and `specs/Completions.antt` have the rules, which hold at each moment and which each step keeps.
//! `specs/Parts.antt` has what each participant knows, and `specs/Numbers.antt` what draws are. The tests in `trials_rows` show how
//! a caller reasons. No contract promises that a waiting thread gets on; the tests show it.
#![tactic(auto)]

mod completions;
mod numbered;
mod requests;
mod ruled_queue;
mod sleepers;
mod spares;

pub use completions::{Acknowledgement, Collector, CompletionQueue, CompletionToken};
pub use numbered::Numbered;
pub use requests::{Consumer, RequestQueue, Source};
pub use spares::{PutCount, SpareQueue, Taker};
