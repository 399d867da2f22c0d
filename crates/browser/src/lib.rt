//! The answers to scripts, schedules and races, for a page in a browser.
//!
//! The page passes the bytes of an input, room for the answer, and two places for numbers. Each export (`calls`) returns a status,
//! which is an exit status of the program for such inputs. A script runs on one thread (`script`). `handing` copies a text to the
//! page's room, and `fault_lines` has the line of a fault.
#![tactic(auto)]

mod calls;
mod fault_lines;
mod handing;
mod script;
