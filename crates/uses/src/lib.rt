//! How a driver uses these crates: short functions, each proved from the public contracts of what it calls. Copy the
//! closest one.
//!
//! [`commands`] cuts a request into the commands that a device takes. [`serve`] runs a request on a device that may be removed at
//! any moment, [`remove`] removes it, and [`race`] runs the two against each other, on two threads. [`submit`] cuts a request in a
//! queue whose limits another thread may change meanwhile, as [`change_limits`] does. [`submit_next`] cuts the next request of a
//! thread whose tag keeps its reference between its requests, and [`drive`] runs such requests beside changes. [`enter_under`] is for a request that needs certain limits: it compares the
//! limits that it reads with these, and leaves and enters again if they differ.
#![tactic(auto)]

mod cutting;
mod lanes;
mod racing;
mod removal;
mod settings;

pub use cutting::{Command, commands};
pub use lanes::{Driven, Request, drive, run_requests, submit_next};
pub use racing::{Raced, race};
pub use removal::{Served, remove, serve};
pub use settings::{change_limits, enter_under, submit};
