//! A script of a request queue: what it says, what it means on one thread, and the texts of its replies.
//!
//! A script is text. Its first line names the format, its second the disk, and each further line asks the queue for something: to
//! read or write a range of sectors, to freeze or thaw, to set a limit, to report its counts. [`parse`] returns the [`Script`] that
//! a text means, or the first fault of the text. [`check`] refuses a script in which two requests that may be in flight together
//! overlap. [`drains`] returns the lines before which the queue drains in version 2, and [`Checked`] keeps the decisions of both,
//! for a run of the script. [`run_alone`] returns what the script writes on one thread. What a caller needs of `line_text`,
//! `script_meaning` and `script_overlap` is exported here too.
#![tactic(auto)]

mod laws;
mod machine;
mod parser;
mod rendering;
mod run;

pub use laws::one_text;
pub use line_text::{Overlap, ParseFault, ScriptFault, Why, Words, number, words};
pub use parser::parse;
pub use rendering::{push_disk, push_read, push_written, render, render_disk};
pub use run::run_alone;
pub use script_meaning::{
    ByteRuns, Line, Mode, Pattern, PieceLengths, Reply, Script, Stat, Version, What,
};
pub use script_overlap::{Checked, check, drains, one_first_overlap, one_list_of_ordered_requests};
