//! Refusals of the calls that take limits, make a queue or end it.
ghost use Rattle.std.specs.Prelude.{◌≡◌};
ghost use Rattle.freeze_queue_c.specs.Numbers.{refusal_number};

use c_answers::Misuse;
use queue_core::{FreezeFault, LimitFault};
use thiserror::Error;

/// Why a call is refused. The call has changed nothing, unless the end of a queue returned Memory.
#[derive(Clone, Copy, Debug, PartialEq, Eq, Error)]
pub enum Refusal {
    /// No queue may have these limits.
    #[error("{0}")]
    OfLimits(LimitFault),
    /// The limits are for another hardware limit than the queue's.
    #[error("another hardware limit")]
    OtherHardware,
    /// The queue refuses.
    #[error("{0}")]
    OfQueue(FreezeFault),
    /// The call is misused.
    #[error("{0}")]
    OfMisuse(Misuse),
}

impl Refusal {
    /// The refusal's number: a fault of limits plus 24, 29 for other hardware, a refusal of the queue plus 16, or the misuse's number.
    pub fn number(&self) -> u32
        ensures { result ≡ refusal_number self.now }
    {
        match self {
            Refusal::OfLimits(why) => 24 + u32::from(why.number()),
            Refusal::OtherHardware => 29,
            Refusal::OfQueue(why) => 16 + u32::from(why.number()),
            Refusal::OfMisuse(why) => why.number(),
        }
    }
}
