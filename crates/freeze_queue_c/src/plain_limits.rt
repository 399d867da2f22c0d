//! Limits for C.
ghost use Rattle.std.specs.Prelude.{◌≡◌, None, Some, MatchResult};
ghost use Rattle.freeze_queue_c.specs.PlainLimits.{as_bounds, bounds_of, limit_refusal};

use queue_core::{LimitFault, Limits};

/// Four numbers of sectors, unchecked: the maximum that the hardware takes in one request, the maximum of one request (0: that of the
/// hardware), the chunk (0: none), and the physical block (0: one sector). Linux: `struct queue_limits` (include/linux/blkdev.h).
#[derive(Clone, Copy, Debug, PartialEq, Eq, Drop)]
#[repr(C)]
pub struct PlainLimits {
    pub hardware: u32,
    pub max: u32,
    pub chunk: u32,
    pub physical: u32,
}

impl PlainLimits {
    /// The numbers of these limits.
    pub fn of(limits: Limits) -> PlainLimits
        ensures { as_bounds result ≡ limits }
    {
        PlainLimits {
            hardware: limits.hw(),
            max: limits.max(),
            chunk: limits.chunk(),
            physical: limits.physical(),
        }
    }

    /// Returns the limits with these numbers. Refuses with HardwareRange, AboveHardware, ChunkTooLarge or BadPhysical, in this order.
    pub fn checked(&self) -> Result<Limits, LimitFault>
        ensures { MatchResult result (λ l. (limit_refusal self.now ≡ None) × (l ≡ bounds_of self.now)) (λ why. limit_refusal self.now ≡ Some why) }
    {
        let mut limits = Limits::new(self.hardware, self.max, self.chunk)?;
        limits.set_physical(if self.physical == 0 { 1 } else { self.physical })?;
        Ok(limits)
    }
}
