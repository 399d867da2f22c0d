//! Texts of lines and words, as scripts and schedules are written: their statements, words, numbers and bytes, and what
//! is wrong with a line.
//!
//! A text has lines, and a line has words. A line without words and a comment are skipped; every other line is a
//! statement. [`Statements`] returns the statements one after another, each with its line number and its [`Words`];
//! [`number`] and [`hex_bytes`] read a word. The first fault of a text is a [`ParseFault`]: a line number, and [`Why`]
//! that line is refused. [`push_number`] and the like append to a text.
#![tactic(auto)]

mod appending;
mod fault;
mod numbers;
mod splitting;
mod statements;
mod word_list;

pub use appending::{push_hex, push_named, push_number, push_text};
pub use fault::{LineFault, Overlap, ParseFault, ScriptFault, Why, at_line};
pub use numbers::{hex_bytes, long_number, number, short_number};
pub use splitting::words;
pub use statements::{LONGEST_TEXT, Statements};
pub use word_list::{Words, is_word, no_words, one_word, three_words, two_words};
