//! The shared word of a gate: the marks `ZERO` and `DEAD`, and the value.
ghost use Rattle.std.specs.Prelude.{◌≡◌};
ghost use Rattle.percpu_words.specs.SharedWord.{parts, zero_mark, dead_mark, bias};
ghost use Rattle.percpu_words.specs.Words.{PartsOfSpelling, SpellingOfParts, AddingKeepsMarks, SubtractingKeepsMarks, SettingDead, ClearingMarks};

/// The mark of a gate whose count has reached zero.
pub const ZERO: u64 = 1 << 63;

/// The mark of a gate that was killed. Linux: `__PERCPU_REF_DEAD` (include/linux/percpu-refcount.h).
pub const DEAD: u64 = 1 << 62;

/// Added to the value while slots are open or being closed, so that what the slots hold can't bring it to zero. Linux:
/// `PERCPU_COUNT_BIAS` (lib/percpu-refcount.c), which is half the range of a word there.
pub const BIAS: u64 = 1 << 48;

/// Whether the word has the mark `ZERO`.
#[inline]
pub fn is_zero(word: u64) -> bool
    ensures { result ≡ (parts word).zero }
{
    word & ZERO != 0
}

/// Whether the word has the mark `DEAD`.
#[inline]
pub fn is_dead(word: u64) -> bool
    ensures { result ≡ (parts word).dead }
{
    word & DEAD != 0
}

/// The count in the word, with the bias if it has one.
#[inline]
pub fn value(word: u64) -> u64
    ensures { result ≡ (parts word).value }
{
    word & (DEAD - 1)
}

/// The marks and the value determine the word, and the word determines them. The constants are the numbers of the marks
/// and of the bias.
pub fn shared_word_is_its_parts()
    ensures zero { ZERO ≡ zero_mark }
    ensures dead { DEAD ≡ dead_mark }
    ensures bias { BIAS ≡ bias }
    ensures parts_of_spelling { PartsOfSpelling }
    ensures spelling_of_parts { SpellingOfParts }
{}

/// A step that adds to the value, or subtracts from it, changes neither mark.
#[tactic(auto, using(crate::proofs::SharedWordSteps::adding, crate::proofs::SharedWordSteps::subtracting))]
pub fn counting_keeps_the_marks()
    ensures adding { AddingKeepsMarks }
    ensures subtracting { SubtractingKeepsMarks }
{}

/// A step that sets or clears marks leaves the value unchanged.
#[tactic(auto, using(crate::proofs::SharedWordSteps::setting_dead, crate::proofs::SharedWordSteps::clearing_marks))]
pub fn marking_keeps_the_value()
    ensures setting { SettingDead }
    ensures clearing { ClearingMarks }
{}
