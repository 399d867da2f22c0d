//! Which requests of a script overlap.
//!
//! A queue may have several accepted requests in flight at once, until a line drains it. Two of them overlap if they share a sector
//! and at least one of them writes: then their result would depend on which is done first. [`check`] finds the first such pair of a
//! script of version 1. A script without such a pair can be [`Checked`]. So can any script of version 2: the queue has to drain
//! before some of its requests, the ordered ones, so that none overlap, and [`drains`] returns their lines. To find both, a
//! [`Span`] keeps the sectors that the requests since the last drain touch.
//!
//! The check decides about each request once: a run of a [`Checked`] script asks it how many requests are accepted, and whether one
//! is ordered.
#![tactic(auto)]

mod checked;
mod overlap_laws;
mod span;

pub use checked::{Checked, check, drains};
pub use overlap_laws::{one_first_overlap, one_list_of_ordered_requests};
