//! A script's run on several threads, and its result.
ghost use Rattle.std.specs.Prelude.{◌≡◌, ◌≤◌, IfOk, length, map};
ghost use Rattle.script_overlap.specs.Overlap.{HasNoOverlap};
ghost use Rattle.run_queues.specs.Parts.{none_counted};
ghost use Rattle.blk_workers.specs.Contexts.{HasQueues, IsContext};
ghost use Rattle.blk_workers.specs.Points.{none_passed};
ghost use Rattle.blk_workers.specs.Progress.{AreDrawn, AreFreeTags, AreNewCompletions, AreNewEnds, IsAt, IsNewQueue, IsRanBy, IsRun, Suits};

use crate::config::Config;
use crate::context::{Queues, RunContext};
use crate::fault::RunFault;
use crate::handing::Ends;
use crate::job::Completion;
use crate::naming::{QueueName, QueueNames, Run};
use crate::points::{DrainPoints, RunPoints, Stall};
use crate::submitter::Submitter;
use crate::team::{consumers, with_workers};
use freeze_queue::{BlockQueue, NewQueue, Tag};
use queue_limits::Limits;
use ram_disk::Disk;
use run_queues::{Collector, CompletionQueue};
use script_meaning::Script;
use script_overlap::Checked;
use std::alloc::Global;
use std::marker::Brand;
use std::sync::Wait;
use std::thread::Threads;

/// The result of a run, and which requests each worker drew.
#[derive(Drop)]
pub struct Ran {
    /// The lines of the replies, in the script's order.
    pub replies: Vec<u8>,
    /// The disk that the script leaves.
    pub disk: Disk,
    /// One list for each worker, in unspecified order: the numbers of the requests that it drew, counted from 0 among the accepted
    /// ones in the script's order.
    pub drawn: Vec<Vec<u32>>,
}

/// The caller's inputs: the runtime, the allocator, the script, the shape of the run, and its points, which have the stall.
#[derive(Drop)]
struct Inputs<'a, J: Run, R, S> {
    rt: &'a R,
    alloc: Global,
    checked: &'a Checked<'a>,
    config: Config,
    points: RunPoints<'a, J, S>,
}

// Starts the workers and leads them to the end. The types have three names by now, each taken once the thing was made: the run's in
// `run_checked`, those of its queues in `run_as` and `run_on`.
fn run_in<
    J: Run + Send + Sync,
    C: QueueName + Send + Sync,
    L: QueueNames + Send + Sync,
    R: Threads + Wait + Sync,
    S: Stall,
>(
    inputs: &Inputs<'_, J, R, S>,
    queues: &Queues<J, C>,
    submitter: Submitter<J>,
    mut ends: Ends<J, C>,
) -> Result<Ran, RunFault>
    requires context { IsContext J.script J.queue inputs.now.checked.now queues.now.queue }
    requires queues { HasQueues L.requests C.id L.free_tags queues.now.requests queues.now.completions queues.now.free_tags }
    requires start { IsAt J.script J.queue 0 submitter }
    requires points { submitter.points ≡ none_passed }
    requires ends { AreNewEnds L.requests C.id 0 ends.source ends.collector }
    requires tags { ends.taker ≡ none_counted L.free_tags }
    requires room { inputs.now.config.workers ≤ ends.source.room }
    ensures ran { IfOk result (IsRanBy J.script inputs.now.config.workers) }
{
    let workers = inputs.config.workers();
    let context = RunContext::<J, C, L, _, _>::new(
        inputs.rt,
        inputs.alloc,
        inputs.checked,
        &inputs.points,
        queues,
    );
    // One place more than there are numbers to draw: a draw reserves a place before it takes an end mark too.
    let numbers_each = inputs.checked.accepted() + 1;
    let consumers = consumers(&context, &mut ends.source, workers, numbers_each)?;
    let (led, source) = with_workers(&context, submitter, ends, consumers, workers as usize);
    led?.into_ran(context.requests.finish(source))
}

// Makes the queues of requests and of free tags, and goes on. The types name the run's queue of completions by now.
fn run_on<J: Run + Send + Sync, C: QueueName + Send + Sync, R: Threads + Wait + Sync, S: Stall>(
    inputs: &Inputs<'_, J, R, S>,
    queue: BlockQueue,
    tags: Vec<Tag>,
    completions: CompletionQueue<Completion<J>>,
    collector: Collector<Completion<J>>,
    submitter: Submitter<J>,
) -> Result<Ran, RunFault>
    requires own { (inputs.now.checked.now ≡ J.script) × (queue ≡ J.queue) × Suits J.script inputs.now.config.slots J.queue }
    requires completions { AreNewCompletions (length tags.items) C.id completions.room completions.id collector }
    requires start { IsAt J.script J.queue 0 submitter }
    requires points { submitter.points ≡ none_passed }
    requires tags { AreFreeTags J.queue tags.items }
    ensures ran { IfOk result (IsRanBy J.script inputs.now.config.workers) }
{
    let workers = inputs.config.workers();
    let (queues, source, taker) = Queues::<J, C>::new(
        inputs.rt,
        inputs.alloc,
        queue,
        tags,
        completions,
        workers,
    )?;
    let ends = Ends {
        source,
        collector,
        taker,
    };
    run_in::<J, C, Brand, _, _>(inputs, &queues, submitter, ends)
}

// Makes the queue of completions and the submitter, and goes on: `parts` are the new queue, its freezer and its tags, and no drain
// has been passed. The types name the run's script and its queue by now.
fn run_as<J: Run + Send + Sync, R: Threads + Wait + Sync, S: Stall>(
    inputs: &Inputs<'_, J, R, S>,
    parts: NewQueue,
    points: DrainPoints<J>,
) -> Result<Ran, RunFault>
    requires script { inputs.now.checked.now ≡ J.script }
    requires queue { parts.0 ≡ J.queue }
    requires new { IsNewQueue J.script inputs.now.config J.queue parts.1 parts.2.items }
    requires points { points ≡ none_passed }
    ensures ran { IfOk result (IsRanBy J.script inputs.now.config.workers) }
{
    let (queue, freezer, tags) = parts;
    // No more completions than this are to come at a time (`hand_over`), so no thread waits to report one.
    let room = tags.len() + 1;
    let (completions, collector) = CompletionQueue::new(inputs.alloc, room)?;
    let submitter = Submitter::new(inputs.alloc, inputs.checked.script(), freezer, points)?;
    run_on::<J, Brand, _, _>(inputs, queue, tags, completions, collector, submitter)
}

/// Runs a checked script on the config's number of workers, with the replies and the disk of a single thread.
///
/// The calling thread submits the requests and collects their answers, and the workers do them. When this returns, the workers that
/// were started have ended.
///
/// Returns `Memory` if memory was refused. If a worker is refused memory, requests are submitted until its completion is collected.
/// A script of 2^32 lines or more is refused as `Memory` too, because its requests couldn't be numbered. Returns `Thread` if a
/// thread couldn't be started, before any request is submitted.
pub fn run_checked<R: Threads + Wait + Sync, S: Stall>(
    rt: &R,
    alloc: Global,
    checked: &Checked<'_>,
    config: Config,
    stall: &S,
) -> Result<Ran, RunFault>
    ensures run { IfOk result (λ ran. IsRun checked.now ran.replies.items ran.disk) }
    ensures drawn { IfOk result (λ ran. AreDrawn checked.now config.workers (map (λ list. list.items) ran.drawn.items)) }
{
    let script = checked.script();
    if script.lines().len() >= 1 << 32 {
        return Err(RunFault::Memory);
    }
    // A script's hardware is in range. These are the limits that the script's queue starts with.
    let Ok(limits) = Limits::start(script.hw()) else {
        unreachable!()
    };
    let parts = BlockQueue::new(alloc, limits, config.slots(), config.tags())?;
    let inputs = Inputs {
        rt,
        alloc,
        checked,
        config,
        points: RunPoints::new(stall),
    };
    run_as::<Brand, _, _>(&inputs, parts, DrainPoints::new())
}

/// Runs a script in which no two requests overlap, as [`check`](script_overlap::check) reports. Checks the script, and returns what
/// [`run_checked`] returns.
pub fn run<R: Threads + Wait + Sync, S: Stall>(
    rt: &R,
    alloc: Global,
    script: &Script,
    config: Config,
    stall: &S,
) -> Result<Ran, RunFault>
    requires { HasNoOverlap script.now }
    ensures run { IfOk result (λ ran. IsRun script.now ran.replies.items ran.disk) }
    ensures drawn { IfOk result (λ ran. AreDrawn script.now config.workers (map (λ list. list.items) ran.drawn.items)) }
{
    match Checked::of(alloc, script) {
        Ok(checked) => run_checked(rt, alloc, &checked, config, stall),
        // No two requests overlap, so the check fails only if memory is refused.
        Err(_) => Err(RunFault::Memory),
    }
}
