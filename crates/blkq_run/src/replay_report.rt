//! The exit status of a replay.
ghost use Rattle.counted_io.specs.Failures.{IsFourIfBroken};
ghost use Rattle.counted_io.specs.Reading.{TakesUpTo};
ghost use Rattle.blkq_run.specs.Statuses.{TellsReplay};

use crate::replay_run::replay_bytes;
use crate::run::MOST_READ;
use counted_io::Counted;
use gate_replay::Replayed;
use std::alloc::Global;
use std::io::{Read, Write};

/// Exit status if a step of the schedule wasn't enabled.
const STUCK: u8 = 3;

/// Replays the schedule that `reader` has and returns the exit status; writes a line to `errors` if there was a fault. If a replay
/// ends at a step that isn't enabled, its last line says so; that isn't a fault.
pub(crate) fn replay_reported<R: Read, W: Write, E: Write>(
    alloc: Global,
    reader: &mut Counted<R>,
    writer: &mut Counted<W>,
    errors: &mut E,
) -> u8
    ensures told { TellsReplay R.remaining W.contents reader.old writer.old writer.new result }
    ensures broken { IsFourIfBroken reader.old reader.new writer.old writer.new result }
    ensures taken { TakesUpTo R.remaining reader.old reader.new MOST_READ }
{
    match replay_bytes(alloc, reader, writer) {
        Ok(Replayed::Whole) => 0,
        Ok(Replayed::Stuck) => STUCK,
        Err(fault) => {
            let _ = errors.writeln(fault);
            fault.status()
        }
    }
}
