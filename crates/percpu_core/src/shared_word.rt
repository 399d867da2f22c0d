//! The replies to steps on the shared word, and the word after them.
ghost use Rattle.std.specs.Prelude.{◌≡◌, ◌<◌, ◌≤◌};
ghost use Rattle.percpu_words.specs.SharedWord.{parts, bias, dead_mark};
ghost use Rattle.percpu_core.specs.Cells.{is_dead_alone};
ghost use Rattle.percpu_core.specs.PassSteps as steps;
ghost use Rattle.percpu_core.specs.ControlSteps as control;

use crate::reply::Reply;
use percpu_words::{BIAS, DEAD, ZERO};

/// The reply to a subtraction that left this word.
pub(crate) fn left_reply(word: u64) -> Reply
    ensures { result ≡ steps.left_reply (parts word) }
{
    if word == DEAD {
        Reply::ToMark
    } else {
        Reply::NotLast
    }
}

/// The reply to an exchange that found this word.
pub(crate) fn mark_reply(word: u64) -> Reply
    ensures { result ≡ steps.mark_reply (parts word) }
{
    if word == DEAD {
        Reply::Last
    } else {
        Reply::Lost
    }
}

/// The word after the exchange: DEAD alone has become DEAD and ZERO.
pub(crate) fn marked(word: u64) -> u64
    ensures { parts result ≡ steps.marked (parts word) }
{
    if word == DEAD { DEAD | ZERO } else { word }
}

/// The word after the sum of the closed deltas is added and the bias removed.
pub(crate) fn collected(sum: i64, word: u64) -> u64
    requires there { bias ≤ control.moved_by sum (parts word).value }
    requires room { control.moved_by sum (parts word).value < dead_mark }
    ensures { parts result ≡ control.collected sum (parts word) }
{
    let moved = if sum >= 0 {
        word + sum.unsigned_abs()
    } else {
        word - sum.unsigned_abs()
    };
    moved - BIAS
}
