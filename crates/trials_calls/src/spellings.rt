//! The calls of `percpu_words`.
ghost use Rattle.std.specs.Prelude.{◌≡◌, ◌≤◌, ◌^◌, pos, unsigned_abs};

use percpu_words::{BIAS, CLOSED, DEAD, DELTA_MAX, Mode, ZERO};

/// Returns the marks ZERO and DEAD, and the value.
pub fn shared_word(word: u64) -> (bool, bool, u64) {
    (
        percpu_words::is_zero(word),
        percpu_words::is_dead(word),
        percpu_words::value(word),
    )
}

/// Returns whether a slot is closed, and its delta, which isn't in the word of a closed slot.
pub fn slot_of(word: u64) -> (bool, Option<i64>) {
    (
        percpu_words::is_closed(word),
        percpu_words::slot_delta(word),
    )
}

pub fn slot_word(delta: i64) -> u64
    requires { unsigned_abs delta ≤ 1048576 }
{
    percpu_words::slot_word(delta)
}

pub fn marks() -> [u64; 3]
    ensures { (ZERO ≡ 2 ^ 63) × (DEAD ≡ 2 ^ 62) × (CLOSED ≡ 2 ^ 63) }
{
    [ZERO, DEAD, CLOSED]
}

pub fn numbers() -> (u64, i64)
    ensures { (BIAS ≡ 281474976710656) × (DELTA_MAX ≡ pos 1048576) }
{
    (BIAS, DELTA_MAX)
}

/// Returns whether this is the mode of slots.
pub fn mode(mode: Mode) -> bool {
    match mode {
        Mode::Atomic => false,
        Mode::Slots => true,
    }
}
