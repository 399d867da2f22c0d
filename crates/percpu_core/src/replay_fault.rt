//! Why a replay ends early.
ghost use Rattle.std.specs.Prelude.{◌≡◌};
ghost use Rattle.percpu_core.specs.Replays.{fault_number};

use crate::not_enabled::NotEnabled;
use thiserror::Error;

/// Why a replay ended before its last event.
#[derive(Clone, Copy, Debug, PartialEq, Eq, Error)]
pub enum ReplayFault {
    /// There was no room for all replies.
    #[error("memory")]
    Memory,
    /// The event at this index, from 0, wasn't enabled.
    #[error("event {at}: {why}")]
    Stuck { at: usize, why: NotEnabled },
}

impl ReplayFault {
    /// The fault's number, 1 or 2.
    pub fn number(&self) -> u8
        ensures { result ≡ fault_number self.now }
    {
        match self {
            ReplayFault::Memory => 1,
            ReplayFault::Stuck { .. } => 2,
        }
    }
}
