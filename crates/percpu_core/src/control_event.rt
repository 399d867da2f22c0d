//! The steps of the control.
ghost use Rattle.std.specs.Prelude.{◌≡◌, ◌^◌, ◌<◌, ◌≤◌};
ghost use Rattle.percpu_words.specs.SharedWord.{parts};
ghost use Rattle.percpu_core.specs.ControlSteps as steps;
ghost use Rattle.percpu_core.specs.Phases.{next_slot};

use crate::control_standing::ControlStanding;
use crate::limits::SLOT_LIMIT;
use crate::phase::Phase;
use crate::shared_word::{collected, marked};
use percpu_words::{BIAS, DEAD};

/// A step of the control.
#[derive(Clone, Copy, Debug, PartialEq, Eq)]
pub enum ControlEvent {
    /// Sets DEAD, which begins a kill. Linux: `percpu_ref_kill_and_confirm`.
    MarkDead,
    /// Closes the next slot by an exchange that returns its delta. Linux: the reading of every processor's count in
    /// `percpu_ref_switch_to_atomic_rcu`.
    Close,
    /// Adds the sum of the closed deltas less the bias to the shared word. Linux: `percpu_ref_switch_to_atomic_rcu`.
    Collect,
    /// Stores the odd front. Linux: the `confirm_kill` callback.
    Confirm,
    /// Drops the initial reference.
    DropBase,
    /// Exchanges DEAD alone for DEAD and ZERO.
    Mark,
    /// Takes the initial reference back. Linux: `percpu_ref_resurrect`.
    TakeBase,
    /// Stores the even front of the life that begins.
    NextFront,
    /// Clears DEAD and ZERO.
    ClearDead,
    /// Adds the bias to the shared word. Linux: `__percpu_ref_switch_to_percpu`.
    AddBias,
    /// Opens the next slot with the delta 0. Linux: `__percpu_ref_switch_to_percpu`, which clears every processor's
    /// count.
    OpenNext,
    /// Stores `v` in the guarded word `k`.
    StoreWord { k: u32, v: u64 },
    /// Takes in the pass of this number, which no longer exists afterwards.
    Join(u32),
    /// Loads the shared word.
    LookShared,
}

impl ControlEvent {
    /// Whether the step stores a guarded word that the gate, with this many words, doesn't have.
    pub(crate) fn stores_no_word(self, words: usize) -> bool
        ensures { result ≡ steps.stores_no_word words self }
    {
        matches!(self, ControlEvent::StoreWord { k, .. } if k as usize >= words)
    }

    /// The shared word after the step of a control in this state.
    pub(crate) fn shared_after(self, standing: ControlStanding, word: u64) -> u64
        requires { steps.ValueFits self standing.uncollected (parts word).value }
        ensures { parts result ≡ steps.shared_after_control self standing.uncollected (parts word) }
    {
        match self {
            ControlEvent::MarkDead => word | DEAD,
            ControlEvent::Collect => collected(standing.uncollected, word),
            ControlEvent::DropBase => word - 1,
            ControlEvent::Mark => marked(word),
            ControlEvent::TakeBase => word + 1,
            ControlEvent::ClearDead => word & (DEAD - 1),
            ControlEvent::AddBias => word + BIAS,
            _ => word,
        }
    }

    /// The front after the step: each kill and each revival moves it on by one.
    pub(crate) fn front_after(self, front: u64) -> u64
        requires { front < 2 ^ 63 }
        ensures { result ≡ steps.front_after self front }
    {
        match self {
            ControlEvent::Confirm | ControlEvent::NextFront => front + 1,
            _ => front,
        }
    }

    /// The phase after the step, at a gate with this many slots and DEAD set or clear.
    pub(crate) fn phase_after(self, slots: usize, dead: bool, phase: Phase) -> Phase
        requires { next_slot phase ≤ SLOT_LIMIT }
        ensures { result ≡ steps.phase_after self slots dead phase }
    {
        match self {
            ControlEvent::MarkDead if phase == Phase::LiveSlots => Phase::Closing(0),
            ControlEvent::MarkDead => Phase::Collected,
            ControlEvent::Close => Phase::Closing(phase.next_slot() + 1),
            ControlEvent::Collect if dead => Phase::Collected,
            ControlEvent::Confirm => Phase::Confirmed,
            ControlEvent::DropBase => Phase::Dead,
            ControlEvent::TakeBase => Phase::Reviving,
            ControlEvent::NextFront => Phase::Fronted,
            ControlEvent::Collect | ControlEvent::ClearDead => Phase::LiveAtomic,
            ControlEvent::AddBias => Phase::Opening(0),
            ControlEvent::OpenNext if phase.next_slot() as usize + 1 == slots => Phase::LiveSlots,
            ControlEvent::OpenNext => Phase::Opening(phase.next_slot() + 1),
            ControlEvent::Mark
            | ControlEvent::StoreWord { .. }
            | ControlEvent::Join(_)
            | ControlEvent::LookShared => phase,
        }
    }
}
