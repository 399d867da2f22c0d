//! The words of a gate (how a count of references and its two marks share one `u64`), and the mode in which it counts.
//!
//! A gate counts references in a *shared word*. Bits 0 to 61 are the count. Bit 62, `DEAD`, says that
//! the gate was killed, and bit 63, `ZERO`, that the count has reached zero since. All three change
//! together in one atomic step, and adding to the count leaves the marks alone.
//!
//! While a gate counts on slots, each slot is a word of its own: bit 63 alone if it is closed, otherwise `2^32 + d`.
//! The delta `d` is the number of references taken on the slot less those given back on it. A bias in the shared value
//! keeps it from reaching zero by what the slots hold.
#![tactic(auto)]

mod mode;
mod shared_word;
mod slot;

pub use mode::Mode;
pub use shared_word::{
    BIAS, DEAD, ZERO, counting_keeps_the_marks, is_dead, is_zero, marking_keeps_the_value,
    shared_word_is_its_parts, value,
};
pub use slot::{CLOSED, DELTA_MAX, each_delta_has_its_word, is_closed, slot_delta, slot_word};
