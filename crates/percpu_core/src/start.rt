//! How a gate can start.
ghost use Rattle.std.specs.Prelude.{◌≡◌, ◌≤◌};
ghost use Rattle.percpu_words.specs.SharedWord.{parts};
ghost use Rattle.percpu_core.specs.Starts.{first_shared, first_phase, first_front, first_mode, first_slot};

use crate::limits::KILL_LIMIT;
use crate::phase::Phase;
use crate::slot::Slot;
use percpu_words::{BIAS, DEAD, Mode, ZERO};

/// How a gate starts. Linux: `PERCPU_REF_INIT_ATOMIC` and `PERCPU_REF_INIT_DEAD`
/// (include/linux/percpu-refcount.h).
#[derive(Clone, Copy, Debug, PartialEq, Eq)]
pub enum Start {
    /// Live, with every slot open and the initial reference held.
    Slots,
    /// Live, with every slot closed and the initial reference held.
    Atomic,
    /// Killed and at zero, with every slot closed and the initial reference out.
    Dead,
}

impl Start {
    /// The shared word at the start.
    pub fn shared(self) -> u64
        ensures { parts result ≡ first_shared self }
    {
        match self {
            Start::Slots => BIAS + 1,
            Start::Atomic => 1,
            Start::Dead => DEAD | ZERO,
        }
    }

    /// The phase at the start.
    pub fn phase(self) -> Phase
        ensures { result ≡ first_phase self }
    {
        match self {
            Start::Slots => Phase::LiveSlots,
            Start::Atomic => Phase::LiveAtomic,
            Start::Dead => Phase::Dead,
        }
    }

    /// The mode that a gate with this start has, or has once it is revived.
    pub fn mode(self) -> Mode
        ensures { result ≡ first_mode self }
    {
        match self {
            Start::Atomic => Mode::Atomic,
            Start::Slots | Start::Dead => Mode::Slots,
        }
    }

    /// The front at the start: 2 for each kill, and 1 more if the gate starts dead.
    pub fn front(self, kills: u64) -> u64
        requires { kills ≤ KILL_LIMIT }
        ensures { result ≡ first_front self kills }
    {
        match self {
            Start::Slots | Start::Atomic => 2 * kills,
            Start::Dead => 2 * kills + 1,
        }
    }

    /// The state of each slot at the start.
    pub fn slot(self) -> Slot
        ensures { result ≡ first_slot self }
    {
        match self {
            Start::Slots => Slot::Open(0),
            Start::Atomic | Start::Dead => Slot::Closed,
        }
    }
}
