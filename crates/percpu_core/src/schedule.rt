//! A whole schedule on a world.
ghost use Rattle.std.specs.Prelude.{IfOk, IfErr};
ghost use Rattle.percpu_core.specs.Replays.{Stops};
ghost use Rattle.percpu_core.specs.Machine.{Run, SameSizes};

use crate::event::Event;
use crate::replay_fault::ReplayFault;
use crate::reply::Reply;
use crate::world::World;
use std::alloc::{AllocError, Global};

/// Takes the events one after another, and returns their replies.
///
/// Memory for all replies is allocated first, so `Memory` changes nothing. After `Stuck` the world is as it was before
/// the event that wasn't enabled.
pub fn replay(alloc: Global, world: &mut World, events: &[Event]) -> Result<Vec<Reply>, ReplayFault>
    ensures ok { IfOk result (λ replies. Run world.old events.now replies.items world.new) }
    ensures sizes { SameSizes world.old world.new }
    ensures stuck { IfErr result (λ fault. Stops world.old events.now fault world.new) }
{
    let mut replies = Vec::with_capacity(alloc, events.len()).map_err(
        |_refused: AllocError| ReplayFault::Memory,
    )?;
    for (at, event) in events.iter().enumerate() {
        match world.step(*event) {
            Ok(reply) => replies.push(reply).unwrap(),
            Err(why) => return Err(ReplayFault::Stuck { at, why }),
        }
    }
    Ok(replies)
}
