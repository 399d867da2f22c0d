//! What the threads of a run share.
ghost use Rattle.std.specs.Prelude.{◌≡◌, IfOk, OnOk, length};
ghost use Rattle.run_queues.specs.Parts.{new_source, none_counted};
ghost use Rattle.blk_workers.specs.Contexts.{HasQueues, IsContext};
ghost use Rattle.blk_workers.specs.Progress.{AreFreeTags};

use crate::fault::RunFault;
use crate::job::{Completion, FreeTag, Job};
use crate::naming::{QueueName, QueueNames, Run};
use crate::points::RunPoints;
use freeze_queue::{BlockQueue, Tag};
use run_queues::{CompletionQueue, PutCount, RequestQueue, Source, SpareQueue, Taker};
use script_overlap::Checked;
use std::alloc::{AllocError, Global};
use std::marker::{Model, PhantomData};
use std::sync::Wait;

/// The queues of a run: the block queue that requests enter, and the queues through which its threads pass requests, completions
/// and free tags.
#[derive(Drop)]
pub(crate) struct Queues<J: Run, C: QueueName> {
    queue: BlockQueue,
    requests: RequestQueue<Job<J, C>>,
    completions: CompletionQueue<Completion<J>>,
    free_tags: SpareQueue<FreeTag<J>>,
}

// Puts all of these tags into the queue of free tags, and returns their count.
fn put_all<J: Run, R: Wait>(
    rt: &R,
    alloc: Global,
    free: &SpareQueue<FreeTag<J>>,
    tags: Vec<Tag>,
) -> Result<PutCount<FreeTag<J>>, AllocError>
    requires free { AreFreeTags J.queue tags.items }
    ensures all { IfOk result (λ count. count ≡ record { queue = free.now.id; count = length tags.items }) }
{
    let mut count = free.put_count();
    for tag in tags {
        free.put(rt, &mut count, FreeTag::new(Box::new(alloc, tag)?));
    }
    Ok(count)
}

// A run's queues, the right to push requests, and the right to take free tags.
type NewQueues<J, C> = (Queues<J, C>, Source<Job<J, C>>, Taker<FreeTag<J>>);

impl<J: Run, C: QueueName> Queues<J, C> {
    /// Returns a run's queues with all tags free, the right to push requests, and the right to take free tags.
    ///
    /// Allocates the room for requests and free tags, and a place for each worker's list when it comes back. `team::consumers`
    /// allocates the lists themselves.
    pub(crate) fn new<R: Wait>(
        rt: &R,
        alloc: Global,
        queue: BlockQueue,
        tags: Vec<Tag>,
        completions: CompletionQueue<Completion<J>>,
        workers: u32,
    ) -> Result<NewQueues<J, C>, RunFault>
        requires own { (queue ≡ J.queue) × AreFreeTags J.queue tags.items }
        ensures queue { IfOk result (λ made. made.0.queue ≡ queue) }
        ensures rooms { IfOk result (λ made. (made.0.requests.room ≡ length tags.items) × (made.0.free_tags.room ≡ length tags.items)) }
        ensures completions { IfOk result (λ made. made.0.completions ≡ completions) }
        ensures source { IfOk result (λ made. made.1 ≡ new_source made.0.requests.id workers) }
        ensures taker { IfOk result (λ made. made.2 ≡ none_counted made.0.free_tags.id) }
    {
        let (requests, source) = RequestQueue::new(alloc, tags.len(), workers as usize)?;
        let (free_tags, taker) = SpareQueue::new(alloc, tags.len())?;
        put_all(rt, alloc, &free_tags, tags)?;
        let queues = Queues {
            queue,
            requests,
            completions,
            free_tags,
        };
        Ok((queues, source, taker))
    }
}

/// What a run's threads share: the runtime, the allocator, the checked script, the run's points, and its queues. The type names the
/// run, `J`, its queue of completions, `C`, and its queues of requests and free tags, `L`.
///
/// Invariant: the script and the queues are those that the type names. There is room for one completion more than there are tags,
/// the queue has a slot and the script's hardware, and the script has few enough lines to number them.
#[derive(Drop)]
pub(crate) struct RunContext<'a, J: Run, C: QueueName, L: QueueNames, R, S> {
    pub(crate) rt: &'a R,
    pub(crate) alloc: Global,
    pub(crate) checked: &'a Checked<'a>,
    pub(crate) points: &'a RunPoints<'a, J, S>,
    pub(crate) queue: &'a BlockQueue,
    pub(crate) requests: &'a RequestQueue<Job<J, C>>,
    pub(crate) completions: &'a CompletionQueue<Completion<J>>,
    /// The submitter takes free tags from here and workers put them back. There is room for all tags of the run.
    pub(crate) free_tags: &'a SpareQueue<FreeTag<J>>,
    of: PhantomData<L>,
}

// Clauses see the room for free tags, which is the number of the run's tags. The invariant says the rest by the run's names.
impl<'a, J: Run, C: QueueName, L: QueueNames, R, S> Model for RunContext<'a, J, C, L, R, S> {
    ghost use Rattle.std.specs.Prelude.{ℕ};
    ghost use Rattle.blk_workers.specs.Contexts.{HasQueues, IsContext};

    ghost Value = { ℕ };

    ghost view = { λ h. h.free_tags.now.room };

    ghost invariant = { λ h. IsContext J.script J.queue h.checked.now h.queue.now × HasQueues L.requests C.id L.free_tags h.requests.now h.completions.now h.free_tags.now };
}

impl<'a, J: Run, C: QueueName, L: QueueNames, R, S> RunContext<'a, J, C, L, R, S> {
    /// Returns the context of a run with these queues.
    pub(crate) fn new(
        rt: &'a R,
        alloc: Global,
        checked: &'a Checked<'a>,
        points: &'a RunPoints<'a, J, S>,
        queues: &'a Queues<J, C>,
    ) -> RunContext<'a, J, C, L, R, S>
        requires context { IsContext J.script J.queue checked.now queues.now.queue }
        requires queues { HasQueues L.requests C.id L.free_tags queues.now.requests queues.now.completions queues.now.free_tags }
    {
        RunContext {
            rt,
            alloc,
            checked,
            points,
            queue: &queues.queue,
            requests: &queues.requests,
            completions: &queues.completions,
            free_tags: &queues.free_tags,
            of: PhantomData,
        }
    }
}
