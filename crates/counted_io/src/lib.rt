//! Readers and writers with counted failures; reading a whole input, and writing a whole answer.
//!
//! A caller that passes a reader or a writer on, and gets back a fault of reading or writing, wants to know that a failure
//! occurred. [`Counted`] keeps the count. [`read_whole`] returns all that a reader has, up to a limit, and [`write_whole`] writes
//! all of a text. Both retry after a signal interrupts them, and report exactly how far they came.
#![tactic(auto)]

mod counted;
mod input;
mod output;

pub use counted::Counted;
pub use input::{InputFault, read_whole};
pub use output::{WriteFault, write_whole};

/// Maximum number of tries of a read or write that is interrupted each time.
pub const TRIES: u32 = 1_000;
