//! One slot of a gate.
ghost use Rattle.std.specs.Prelude.{◌≡◌};
ghost use Rattle.percpu_words.specs.SlotWord.{IsDelta};
ghost use Rattle.percpu_core.specs.Cells as cells;
ghost use Rattle.percpu_core.specs.PassSteps as steps;

use crate::reply::Reply;
use percpu_words::{CLOSED, slot_word};

/// What a slot holds: nothing while it is closed, otherwise its delta.
///
/// Linux: one processor's count (`percpu_count_ptr`, include/linux/percpu-refcount.h). A gate that goes atomic there
/// waits until no processor counts on its own any more, and then reads each count. Here each slot is closed by an
/// exchange, which returns its last delta.
#[derive(Clone, Copy, Debug, PartialEq, Eq)]
pub enum Slot {
    Closed,
    Open(i64),
}

impl Slot {
    /// The slot's word.
    pub(crate) fn word(self) -> u64
        requires { IsDelta (cells.delta self) }
        ensures { result ≡ cells.slot_spelling self }
    {
        match self {
            Slot::Closed => CLOSED,
            Slot::Open(delta) => slot_word(delta),
        }
    }

    /// The delta; 0 for a closed slot.
    pub(crate) fn delta(self) -> i64
        ensures { result ≡ cells.delta self }
    {
        match self {
            Slot::Closed => 0,
            Slot::Open(delta) => delta,
        }
    }

    /// Whether the slot is open with this delta.
    pub(crate) fn is_open_with(self, seen: i64) -> bool
        ensures { result ≡ cells.is_open_with seen self }
    {
        match self {
            Slot::Closed => false,
            Slot::Open(delta) => delta == seen,
        }
    }

    /// The reply to a look at the slot.
    pub(crate) fn look_reply(self) -> Reply
        ensures { result ≡ steps.look_reply self }
    {
        match self {
            Slot::Closed => Reply::Closed,
            Slot::Open(delta) => Reply::Opened(delta),
        }
    }

    /// The reply to an exchange that expects the delta `seen`.
    pub(crate) fn exchange_reply(self, seen: i64) -> Reply
        ensures { result ≡ steps.exchange_reply seen self }
    {
        if self.is_open_with(seen) {
            Reply::Won
        } else {
            Reply::Lost
        }
    }
}
