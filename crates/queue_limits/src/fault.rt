//! Why limits are refused.
ghost use Rattle.std.specs.Prelude.{◌≡◌};
ghost use Rattle.queue_limits.specs.FaultNumber.{number_of};

use thiserror::Error;

/// Why limits are refused. If several reasons apply, [`Limits::new`](crate::Limits::new) returns `HardwareRange` first,
/// then `AboveHardware`, then `ChunkTooLarge`.
#[derive(Clone, Copy, Debug, PartialEq, Eq, Error)]
pub enum LimitFault {
    /// The maximum of a request is more than the hardware takes.
    #[error("more sectors than the hardware takes")]
    AboveHardware,
    /// The chunk has more than 65,535 sectors.
    #[error("a chunk of more than 65535 sectors")]
    ChunkTooLarge,
    /// The hardware limit isn't from 1 to 65,535 sectors.
    #[error("a hardware limit outside 1 to 65535 sectors")]
    HardwareRange,
    /// The physical block isn't a power of two of sectors, or has more than 32,768.
    #[error("a physical block that isn't a power of two from 1 to 32768 sectors")]
    BadPhysical,
}

impl LimitFault {
    /// Returns the fault's number, counted from 1 in order of declaration.
    pub fn number(&self) -> u8
        ensures { result ≡ number_of self.now }
    {
        match self {
            LimitFault::AboveHardware => 1,
            LimitFault::ChunkTooLarge => 2,
            LimitFault::HardwareRange => 3,
            LimitFault::BadPhysical => 4,
        }
    }
}
