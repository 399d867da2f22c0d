//! Why a call of the disk fails.
ghost use Rattle.std.specs.Prelude.{◌≡◌};
ghost use Rattle.ram_disk.specs.declared.fault.DiskFault.TheVariants.{Memory};
ghost use Rattle.ram_disk.specs.DiskFault.{fault_number};

use std::alloc::{AllocError, AllocFailed};
use thiserror::Error;

/// Why a call of the disk fails. The disk is unchanged.
#[derive(Clone, Copy, PartialEq, Eq, Debug, Error)]
pub enum DiskFault {
    /// The range of sectors reaches past the last one.
    #[error("past the end of the disk")]
    PastEnd,
    /// Memory was refused for what the call makes.
    #[error("out of memory")]
    Memory,
}

impl DiskFault {
    /// Returns the fault's number: 1 for `PastEnd`, 2 for `Memory`.
    pub fn number(&self) -> u8
        ensures { result ≡ fault_number self.now }
    {
        match self {
            DiskFault::PastEnd => 1,
            DiskFault::Memory => 2,
        }
    }
}

impl From<AllocError> for DiskFault {
    ghost from_gives = { λ _ fault. fault ≡ Memory };

    fn from(_error: AllocError) -> DiskFault {
        DiskFault::Memory
    }
}

impl<T: Drop> From<AllocFailed<T>> for DiskFault {
    ghost from_gives = { λ _ fault. fault ≡ Memory };

    fn from(_error: AllocFailed<T>) -> DiskFault {
        DiskFault::Memory
    }
}
