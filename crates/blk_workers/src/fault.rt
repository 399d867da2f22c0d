//! Why a run fails.
ghost use Rattle.std.specs.Prelude.{◌≡◌};
ghost use Rattle.blk_workers.specs.Faults.{number_of};

use freeze_queue::Memory;
use std::alloc::AllocError;
use thiserror::Error;

/// Why a run fails. The threads that it started have ended, and nothing else is returned.
#[derive(Clone, Copy, Debug, PartialEq, Eq, Error)]
pub enum RunFault {
    /// Memory was refused, or the script has 2^32 lines or more.
    #[error("memory")]
    Memory,
    /// A thread couldn't be started.
    #[error("thread")]
    Thread,
}

impl RunFault {
    /// Returns the fault's number, counted from 1 in order of declaration. No crate here calls this; it is for callers that
    /// identify faults by number.
    pub fn number(&self) -> u8
        ensures { result ≡ number_of self.now }
    {
        match self {
            RunFault::Memory => 1,
            RunFault::Thread => 2,
        }
    }
}

impl From<AllocError> for RunFault {
    ghost use Rattle.std.specs.Prelude.{◌≡◌};
    ghost use Rattle.blk_workers.specs.declared.fault.RunFault.TheVariants.{Memory};

    ghost from_gives = { λ e fault. fault ≡ Memory };

    fn from(_e: AllocError) -> Self {
        RunFault::Memory
    }
}

impl From<Memory> for RunFault {
    ghost use Rattle.blk_workers.specs.declared.fault.RunFault.TheVariants as fault;

    ghost from_gives = { λ _ it. it ≡ fault.Memory };

    fn from(_refused: Memory) -> Self {
        RunFault::Memory
    }
}
