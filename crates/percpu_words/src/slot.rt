//! The word of a slot: closed, or open with a delta.
ghost use Rattle.std.specs.Prelude.{◌≡◌, ◌↔◌, ℤ, pos, Some, true};
ghost use Rattle.percpu_words.specs.SlotWord.{closed_mark, most_delta, IsDelta, delta_spelling, Spells};
ghost use Rattle.percpu_words.specs.SlotWords.{SpellingIsTheSum, SpelledApart};

/// The word of a closed slot.
pub const CLOSED: u64 = 1 << 63;

/// Maximum delta; `-DELTA_MAX` is the minimum.
pub const DELTA_MAX: i64 = 1 << 20;

/// The word of the delta 0.
const MIDDLE: i64 = 1 << 32;

/// The words of the least delta and of the greatest.
const LEAST: u64 = (MIDDLE - DELTA_MAX) as u64;

const GREATEST: u64 = (MIDDLE + DELTA_MAX) as u64;

/// Whether the slot is closed.
#[inline]
pub fn is_closed(word: u64) -> bool
    ensures { (result ≡ true) ↔ (word ≡ closed_mark) }
{
    word == CLOSED
}

/// The word of an open slot with this delta. The caller ensures that the delta is within its limit.
#[inline]
pub fn slot_word(delta: i64) -> u64
    requires { IsDelta delta }
    ensures { result ≡ delta_spelling delta }
{
    (MIDDLE + delta) as u64
}

/// The delta that the word encodes; `None` for a closed slot and for any other word that encodes no delta.
#[inline]
pub fn slot_delta(word: u64) -> Option<i64>
    ensures { (d : ℤ) → (result ≡ Some d) ↔ Spells word d }
{
    if word < LEAST || word > GREATEST {
        return None;
    }
    Some(word as i64 - MIDDLE)
}

/// Each delta within the limit has one word, which no other delta and no closed slot has. The constants are the number
/// of a closed slot and the limit.
pub fn each_delta_has_its_word()
    ensures closed { CLOSED ≡ closed_mark }
    ensures limit { DELTA_MAX ≡ pos most_delta }
    ensures sum { SpellingIsTheSum }
    ensures apart { SpelledApart }
{}
