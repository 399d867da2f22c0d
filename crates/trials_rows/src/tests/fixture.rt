//! A queue that tests share.
ghost use Rattle.std.specs.Prelude.{◌≡◌, IfOk, false};

use freeze_queue::{BlockQueue, Freezer, Tag};
use queue_limits::Limits;
use std::alloc::Global;
use std::test::Fail;

/// Returns a new queue of one slot for a device of 8 sectors, its freezer and its tag.
pub(super) fn with_one_tag(alloc: Global) -> Result<(BlockQueue, Freezer, Tag), Fail>
    ensures queue { IfOk result (λ q. (q.0.gate.slots ≡ 1) × (q.0.hardware ≡ 8)) }
    ensures own { IfOk result (λ q. (q.1.queue ≡ q.0) × (q.2.queue ≡ q.0)) }
    ensures out { IfOk result (λ q. q.2.entered ≡ false) }
{
    let limits = Limits::start(8)?;
    let (queue, freezer, mut tags) = BlockQueue::new(alloc, limits, 1, 1)?;
    let tag = tags.pop().ok_or("a tag")?;
    Ok((queue, freezer, tag))
}
