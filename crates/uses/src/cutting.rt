//! Cutting a range into the commands that a device takes.
ghost use Rattle.std.specs.Prelude.{◌≡◌, ◌<◌, ◌^◌, IfOk, sum};
ghost use Rattle.queue_limits.specs.Pieces.{IsSplit};
ghost use Rattle.uses.specs.Commands.{lengths, AreInARow};

use queue_limits::Limits;
use std::alloc::{AllocError, Global};

/// A command to a device: its first sector, and how many sectors it moves.
#[derive(Clone, Copy, Debug, PartialEq, Eq)]
pub struct Command {
    pub first: u64,
    pub sectors: u32,
}

/// Returns the commands for the `count` sectors that start at `start`. Each begins where the one before it ended, and their lengths
/// are the pieces of the range. So each sector is moved once, and no command exceeds a limit.
///
/// Linux: a driver's `queue_rq` (include/linux/blk-mq.h), which gets one piece at a call.
pub fn commands(
    alloc: Global,
    limits: &Limits,
    start: u64,
    count: u32,
) -> Result<Vec<Command>, AllocError>
    requires place { start < 2 ^ 32 }
    ensures row { IfOk result (λ made. AreInARow start made.items) }
    ensures every { IfOk result (λ made. sum (lengths made.items) ≡ count) }
    ensures split { IfOk result (λ made. IsSplit limits.now start count (lengths made.items)) }
{
    let mut made = Vec::new(alloc);
    let mut first = start;
    for sectors in limits.pieces(start, count) {
        made.push(Command { first, sectors })?;
        first += u64::from(sectors);
    }
    Ok(made)
}
