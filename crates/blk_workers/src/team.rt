//! The workers of a run: what each does, and how they are started, led, ended and joined.
ghost use Rattle.std.specs.Prelude.{◌≡◌, ◌+◌, ◌<◌, ◌^◌, true, length, ◌-◌, ◌≤◌, ◌↔◌, All, IfErr, IfOk, IsErrOf, OnOk};
ghost use Rattle.script_meaning.specs.Requests.{accepted_in_all};
ghost use Rattle.in_flight.specs.Requests.{IsAcceptedAt};
ghost use Rattle.run_queues.specs.Parts.{one_more, none_counted};
ghost use Rattle.blk_workers.specs.Points.{PassesAll};
ghost use Rattle.blk_workers.specs.Progress.{HasCounted, IsNewConsumer, AreBack, AreNewEnds, IsAt, IsEnd};
ghost use Rattle.run_queues.specs.Requests.{all_parts};

use crate::context::RunContext;
use crate::fault::RunFault;
use crate::handing::Ends;
use crate::job::{Completion, FreeTag, Job};
use crate::naming::{QueueName, QueueNames, Run};
use crate::points::Stall;
use crate::submitter::Submitter;
use in_flight::Workbench;
use run_queues::{Acknowledgement, Consumer, Numbered, PutCount, Source};
use std::alloc::AllocError;
use std::marker::{Model, PhantomData};
use std::sync::Wait;
use std::thread;
use std::thread::{JoinHandle, Threads};

/// The number of acknowledgements that a worker has, all of completions of this run. Only the number is kept, and contracts see it.
/// An acknowledgement is taken by value and can't be copied, so none counts twice. `FinishedWorker::new` requires as many as the
/// worker drew, so `work` leaves no completion unreported. Nothing else reads the number.
#[derive(Drop)]
struct AcknowledgementCount<J: Run, C: QueueName> {
    count: usize,
    of: PhantomData<(J, C)>,
}

impl<J: Run, C: QueueName> Model for AcknowledgementCount<J, C> {
    ghost use Rattle.std.specs.Prelude.{ℕ};

    ghost Value = { ℕ };

    ghost view = { λ r. r.count };
}

impl<J: Run, C: QueueName> AcknowledgementCount<J, C> {
    /// No acknowledgements yet.
    fn new() -> AcknowledgementCount<J, C>
        ensures { result ≡ 0 }
    {
        AcknowledgementCount {
            count: 0,
            of: PhantomData,
        }
    }

    /// Takes one more acknowledgement.
    fn add(&mut self, acknowledgement: Acknowledgement<Completion<J>>)
        requires own { acknowledgement.queue ≡ C.id }
        requires room { self.old + 1 < 2 ^ 64 }
        ensures { self.new ≡ self.old + 1 }
    {
        drop(acknowledgement);
        self.count += 1;
    }
}

/// What a worker hands back: the right to draw, once it has taken an end mark, reported as many completions as it drew requests,
/// and put back as many tags.
#[derive(Drop)]
struct FinishedWorker<J: Run, C: QueueName, L: QueueNames> {
    consumer: Consumer<Job<J, C>>,
    acknowledgements: AcknowledgementCount<J, C>,
    tags: PutCount<FreeTag<J>>,
    of: PhantomData<L>,
}

impl<J: Run, C: QueueName, L: QueueNames> Model for FinishedWorker<J, C, L> {
    ghost use Rattle.std.specs.Prelude.{◌≡◌, true, length};
    ghost use Rattle.run_queues.specs.Parts.{ConsumerFacts};
    ghost use Rattle.blk_workers.specs.Progress.{HasCounted};

    ghost Value = { ConsumerFacts };

    ghost view = { λ w. w.consumer };

    ghost invariant = { λ w. (w.consumer.queue ≡ L.requests) × (w.consumer.drained ≡ true) × (w.acknowledgements ≡ length w.consumer.drawn) × HasCounted L.free_tags (length w.consumer.drawn) w.tags };
}

impl<J: Run, C: QueueName, L: QueueNames> FinishedWorker<J, C, L> {
    fn new(
        consumer: Consumer<Job<J, C>>,
        acknowledgements: AcknowledgementCount<J, C>,
        tags: PutCount<FreeTag<J>>,
    ) -> FinishedWorker<J, C, L>
        requires own { consumer.queue ≡ L.requests }
        requires drained { consumer.drained ≡ true }
        requires told { acknowledgements ≡ length consumer.drawn }
        requires put_back { HasCounted L.free_tags (length consumer.drawn) tags }
    {
        FinishedWorker {
            consumer,
            acknowledgements,
            tags,
            of: PhantomData,
        }
    }

    /// Returns the right to draw, with the list of what was drawn.
    fn into_consumer(self) -> Consumer<Job<J, C>>
        ensures own { result.queue ≡ L.requests }
        ensures drained { result.drained ≡ true }
    {
        self.consumer
    }
}

// Does a request. Once its completion is reported, the tag leaves on this worker's slot and goes back to the submitter, which is
// counted. The contract repeats that the request is an accepted one, so `work` knows that the list has room for its number.
fn serve<J: Run, C: QueueName, L: QueueNames, R: Wait, S: Stall>(
    context: &RunContext<'_, J, C, L, R, S>,
    slot: u32,
    tags: &mut PutCount<FreeTag<J>>,
    bench: &mut Workbench,
    job: Job<J, C>,
) -> Acknowledgement<Completion<J>>
    requires slot { slot < J.queue.gate.slots }
    requires tags { tags.old.queue ≡ L.free_tags }
    requires room { tags.old.count + 1 < 2 ^ 64 }
    ensures tag { tags.new ≡ one_more tags.old }
    ensures request { IsAcceptedAt J.script job.token.number job.position }
    ensures told { (result.queue ≡ C.id) × (result.number ≡ job.token.number) }
{
    let number = job.number();
    let drawn = context.points.pass_drawn(number, &job);
    let done = job.done(
        drawn,
        context.alloc,
        bench,
        context.queue,
        context.checked.script(),
    );
    let completed = done.tell(context.rt, context.completions);
    let answered = context.points.pass_answered(number, &completed);
    let (tag, acknowledgement) = completed.leave(answered, context.queue, slot);
    context.free_tags.put(context.rt, tags, tag);
    acknowledgement
}

/// Does requests until it takes an end mark. The list has room for the number of each accepted request and one place more, since
/// the draw of the end mark reserves one too. So no draw asks for memory.
fn work<J: Run, C: QueueName, L: QueueNames, R: Wait, S: Stall>(
    context: &RunContext<'_, J, C, L, R, S>,
    slot: u32,
    mut consumer: Consumer<Job<J, C>>,
) -> FinishedWorker<J, C, L>
    requires slot { slot < J.queue.gate.slots }
    requires consumer { IsNewConsumer L.requests (accepted_in_all J.script + 1) consumer }
{
    let mut acknowledgements = AcknowledgementCount::new();
    let mut tags = context.free_tags.put_count();
    let mut bench = Workbench::new(context.alloc);
    for _ in context.rt.forever() {
        // No tag comes soon if all requests are drawn.
        if context.requests.is_empty(&mut consumer) {
            context.free_tags.wake_taker();
        }
        let Ok(drawn) = context.requests.draw(context.rt, &mut consumer) else {
            unreachable!()
        };
        let Some(job) = drawn else {
            return FinishedWorker::new(consumer, acknowledgements, tags);
        };
        acknowledgements.add(serve(context, slot, &mut tags, &mut bench, job));
    }
    unreachable!()
}

/// Returns the right to draw for each worker, with room for `numbers_each` numbers in the list of what it draws. Each takes one
/// part of the source's.
pub(crate) fn consumers<J: Run, C: QueueName, L: QueueNames, R, S>(
    context: &RunContext<'_, J, C, L, R, S>,
    source: &mut Source<Job<J, C>>,
    workers: u32,
    numbers_each: usize,
) -> Result<Vec<Consumer<Job<J, C>>>, AllocError>
    requires own { source.old.queue ≡ L.requests }
    requires parts { source.old.parts ≡ all_parts }
    ensures consumers { IfOk result (λ ds. (length ds.items ≡ workers) × All (IsNewConsumer L.requests numbers_each) ds.items) }
    ensures source { OnOk result (source.new ≡ record source.old { parts = all_parts - workers }) }
{
    let mut consumers = Vec::with_capacity(context.alloc, workers as usize)?;
    for _worker in 0..workers {
        consumers.push(
            context
                .requests
                .consumer(context.alloc, source, numbers_each)?,
        )?;
    }
    Ok(consumers)
}

// Pushes an end mark for each worker that was started, and wakes them all.
fn push_end_marks<J: Run, C: QueueName, L: QueueNames, R: Wait, S>(
    context: &RunContext<'_, J, C, L, R, S>,
    source: &mut Source<Job<J, C>>,
    started: usize,
)
    requires own { source.old.queue ≡ L.requests }
    ensures source { source.new ≡ record source.old { marks = source.old.marks + started } }
{
    for _worker in 0..started {
        context.requests.end(context.rt, source);
    }
    context.requests.wake_all();
}

// Submits and collects while `workers` workers run, and pushes an end mark for each, even if submitting fails.
fn lead<J: Run, C: QueueName, L: QueueNames, R: Wait, S: Stall>(
    context: &RunContext<'_, J, C, L, R, S>,
    mut submitter: Submitter<J>,
    ends: &mut Ends<J, C>,
    workers: usize,
) -> Result<Submitter<J>, RunFault>
    requires ends { AreNewEnds L.requests C.id workers ends.old.source ends.old.collector }
    requires start { IsAt J.script J.queue 0 submitter }
    requires tags { ends.old.taker ≡ none_counted L.free_tags }
    ensures end { IfOk result (IsEnd J.script) }
    ensures points { IfOk result (λ s. PassesAll J.script s.accepted submitter.points s.points) }
    ensures source { ends.new.source ≡ record ends.old.source { pushed = ends.new.source.pushed; marks = workers } }
    ensures pushed { OnOk result (ends.new.source.pushed ≡ accepted_in_all J.script) }
    ensures tags { OnOk result (HasCounted L.free_tags (accepted_in_all J.script) ends.new.taker) }
    ensures memory { IfErr result (λ fault. fault ≡ RunFault.Memory) }
{
    let submitted = submitter.submit_all(context, ends);
    push_end_marks(context, &mut ends.source, workers);
    submitted?;
    Ok(submitter)
}

// Joins a worker, for which there is an end mark, and takes back its right to draw with what it drew. There is a place for its
// list.
fn join<J: Run, C: QueueName, L: QueueNames, R: Threads, S>(
    context: &RunContext<'_, J, C, L, R, S>,
    source: &mut Source<Job<J, C>>,
    worker: JoinHandle<FinishedWorker<J, C, L>>,
)
    requires own { source.old.queue ≡ L.requests }
    requires parts { 0 < source.old.parts }
    requires room { length source.old.lists < source.old.room }
    ensures back { source.new ≡ record source.old { parts = source.old.parts + 1; drained = true; lists = source.new.lists; room = source.new.room } }
    ensures lists { length source.new.lists ≡ length source.old.lists + 1 }
    ensures room { source.old.room ≤ source.new.room }
{
    let finished = worker.join(context.rt);
    let taken_back = context.requests.gather(source, finished.into_consumer());
    prove!(taken_back.is_ok());
}

// How a run ended, and the right to push, with the lists of the workers that are back.
type Led<J, C> = (Result<Submitter<J>, RunFault>, Source<Job<J, C>>);

/// Starts a worker for each of these rights to draw, one per level of recursion. The levels above have started the rest of the
/// `workers`. The innermost level submits and collects, and ends the workers. Each level joins its worker and takes back what it
/// drew, even if the run fails. Returns `Thread` if a worker couldn't be started; then those that were started are ended at once.
///
/// 32 is `MOST_WORKERS`. Any number below `all_parts`, which is 2^32, would do: the source has to keep a part.
pub(crate) fn with_workers<
    J: Run + Send + Sync,
    C: QueueName + Send + Sync,
    L: QueueNames + Send + Sync,
    R: Threads + Wait + Sync,
    S: Stall,
>(
    context: &RunContext<'_, J, C, L, R, S>,
    submitter: Submitter<J>,
    mut ends: Ends<J, C>,
    mut consumers: Vec<Consumer<Job<J, C>>>,
    workers: usize,
) -> Led<J, C>
    requires start { IsAt J.script J.queue 0 submitter }
    requires ends { AreNewEnds L.requests C.id workers ends.source ends.collector }
    requires tags { ends.taker ≡ none_counted L.free_tags }
    requires consumers { All (IsNewConsumer L.requests (accepted_in_all J.script + 1)) consumers.items }
    requires left { length consumers.items ≤ workers }
    requires few { workers ≤ 32 }
    ensures end { IfOk result.0 (IsEnd J.script) }
    ensures points { IfOk result.0 (λ s. PassesAll J.script s.accepted submitter.points s.points) }
    ensures pushed { OnOk result.0 (result.1.pushed ≡ accepted_in_all J.script) }
    ensures back { AreBack workers (length consumers.items) ends.source result.1 }
    ensures thread { IsErrOf result.0 RunFault.Thread ↔ result.1.marks < workers }
{
    thread::scope(
        thread::scope_env(),
        context.rt,
        move |scope| -> Led<J, C>
            requires start { IsAt J.script J.queue 0 submitter }
            requires ends { AreNewEnds L.requests C.id workers ends.source ends.collector }
            requires tags { ends.taker ≡ none_counted L.free_tags }
            requires consumers { All (IsNewConsumer L.requests (accepted_in_all J.script + 1)) consumers.items }
            requires left { length consumers.items ≤ workers }
            requires few { workers ≤ 32 }
            ensures end { IfOk result.0 (IsEnd J.script) }
            ensures points { IfOk result.0 (λ s. PassesAll J.script s.accepted submitter.points s.points) }
            ensures pushed { OnOk result.0 (result.1.pushed ≡ accepted_in_all J.script) }
            ensures back { AreBack workers (length consumers.items) ends.source result.1 }
            ensures thread { IsErrOf result.0 RunFault.Thread ↔ result.1.marks < workers }
        {
            let started = workers - consumers.len();
            let Some(consumer) = consumers.pop() else {
                let led = lead(context, submitter, &mut ends, workers);
                return (led, ends.source);
            };
            // The submitter's slot is 0. No worker has it if there are more slots than workers.
            let slot = (started as u32 + 1) % context.queue.slots();
            let Ok(worker) = scope.spawn(
                move || -> FinishedWorker<J, C, L>
                    requires slot { slot < J.queue.gate.slots }
                    requires consumer { IsNewConsumer L.requests (accepted_in_all J.script + 1) consumer }
                { work(context, slot, consumer) },
            ) else {
                push_end_marks(context, &mut ends.source, started);
                return (Err(RunFault::Thread), ends.source);
            };
            let (led, mut source) = with_workers(context, submitter, ends, consumers, workers);
            join(context, &mut source, worker);
            (led, source)
        },
    )
}
