//! The calls of `queue_limits`.
ghost use Rattle.std.specs.Prelude.{◌≡◌, ◌<◌, ◌≤◌, ◌^◌};
ghost use Rattle.queue_limits.specs.FaultNumber.{number_of};

use queue_limits::{LimitFault, Limits, Pieces};

pub fn new(hw: u32, max: u32, chunk: u32) -> Result<Limits, LimitFault> {
    Limits::new(hw, max, chunk)
}

pub fn start(hw: u32) -> Result<Limits, LimitFault> {
    Limits::start(hw)
}

/// Returns the limit of the hardware, and the three limits that can be set.
pub fn numbers(limits: &Limits) -> [u32; 4] {
    [limits.hw(), limits.max(), limits.chunk(), limits.physical()]
}

pub fn set_max(limits: &mut Limits, max: u32) -> Result<(), LimitFault> {
    limits.set_max(max)
}

pub fn set_chunk(limits: &mut Limits, chunk: u32) -> Result<(), LimitFault> {
    limits.set_chunk(chunk)
}

pub fn set_physical(limits: &mut Limits, physical: u32) -> Result<(), LimitFault> {
    limits.set_physical(physical)
}

pub fn to_words(limits: &Limits) -> [u64; 3] {
    limits.to_words()
}

pub fn from_words(hw: u32, words: [u64; 3]) -> Limits
    requires { (1 ≤ hw) × (hw ≤ 65535) }
{
    Limits::from_words(hw, words)
}

pub fn next_piece(limits: &Limits, start: u64, left: u32) -> u32
    requires some { 1 ≤ left }
    requires place { start < 2 ^ 33 }
{
    limits.next_piece(start, left)
}

pub fn pieces(limits: &Limits, start: u64, count: u32) -> Pieces
    requires { start < 2 ^ 32 }
{
    limits.pieces(start, count)
}

/// Returns the next piece, a `u32` of sectors.
pub fn next(pieces: &mut Pieces) -> Option<u32> {
    pieces.next()
}

/// Returns the number of a refusal.
pub fn limit_fault(fault: LimitFault) -> u8
    ensures { result ≡ number_of fault }
{
    match fault {
        LimitFault::AboveHardware => 1,
        LimitFault::ChunkTooLarge => 2,
        LimitFault::HardwareRange => 3,
        LimitFault::BadPhysical => 4,
    }
}
