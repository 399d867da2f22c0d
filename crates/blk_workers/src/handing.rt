//! How accepted requests are handed to the workers, and how their completions are collected.
ghost use Rattle.std.specs.Prelude.{◌≡◌, ◌+◌, ◌<◌, ◌≤◌, ◌^◌, true, Some, IfErr, OnOk, length};
ghost use Rattle.run_queues.specs.Parts.{one_more};
ghost use Rattle.in_flight.specs.Table.{Stands, owed_count, is_owed};
ghost use Rattle.blk_workers.specs.Progress.{AreHandedOver, HasHandedOver, HasRoomForEach, IsReady, HasTakenCompletion, IsCollecting};

use crate::context::RunContext;
use crate::fault::RunFault;
use crate::job::{Completion, FreeTag, Job};
use crate::naming::{QueueName, QueueNames, Run};
use crate::points::Stall;
use freeze_queue::Tag;
use in_flight::InFlightTable;
use queue_limits::Limits;
use run_queues::{Collector, Source, Taker};
use script_meaning::Request;
use std::sync::Wait;

// The slot on which the submitter enters. Workers leave on other slots (`with_workers`), unless there are too few.
const SUBMITTER_SLOT: u32 = 0;

/// The submitter's ends of the run's queues: the right to push requests, the right to collect completions, and the right to take
/// free tags.
#[derive(Drop)]
pub(crate) struct Ends<J: Run, C: QueueName> {
    pub(crate) source: Source<Job<J, C>>,
    pub(crate) collector: Collector<Completion<J>>,
    pub(crate) taker: Taker<FreeTag<J>>,
}

/// The accepted request of the next line, its number among the accepted ones, and the limits in force.
#[derive(Clone, Copy)]
pub(crate) struct Accepted {
    pub(crate) request: Request,
    pub(crate) number: u32,
    pub(crate) limits: Limits,
}

// Waits for a free tag. If all workers sleep, one is woken first, and one more after each look for a tag that is in vain.
fn free_tag<J: Run, C: QueueName, L: QueueNames, R: Wait, S>(
    context: &RunContext<'_, J, C, L, R, S>,
    source: &mut Source<Job<J, C>>,
    taker: &mut Taker<FreeTag<J>>,
) -> FreeTag<J>
    requires its_queues { (source.old.queue ≡ L.requests) × (taker.old.queue ≡ L.free_tags) }
    requires room { taker.old.count + 1 < 2 ^ 64 }
    ensures one { taker.new ≡ one_more taker.old }
    ensures source { source.new ≡ source.old }
{
    if let Some(tag) = context.free_tags.try_take(context.rt, taker) {
        return tag;
    }
    context.requests.wake_if_all_sleep();
    for _look in 0..context.free_tags.looks() {
        if let Some(tag) = context.free_tags.look(context.rt, taker) {
            return tag;
        }
        context.requests.wake_one_more(context.rt, source);
    }
    context.free_tags.take(context.rt, taker)
}

// Waits for a free tag, and enters the queue with it under these limits. A tag always reads these limits, since only this thread
// sets them, but no proof says so. So this compares them, and if they differ, the tag leaves and enters again.
fn entered<J: Run, C: QueueName, L: QueueNames, R: Wait, S>(
    context: &RunContext<'_, J, C, L, R, S>,
    source: &mut Source<Job<J, C>>,
    taker: &mut Taker<FreeTag<J>>,
    limits: Limits,
) -> Box<Tag>
    requires its_queues { (source.old.queue ≡ L.requests) × (taker.old.queue ≡ L.free_tags) }
    requires room { taker.old.count + 1 < 2 ^ 64 }
    ensures one { taker.new ≡ one_more taker.old }
    ensures source { source.new ≡ source.old }
    ensures own { result.value.queue ≡ J.queue }
    ensures entered { result.value.entered ≡ true }
    ensures told { result.value.limits ≡ Some limits }
{
    let mut tag = free_tag(context, source, taker).into_tag();
    for _ in context.rt.forever() {
        context.queue.enter(context.rt, &mut tag, SUBMITTER_SLOT);
        if context.queue.limits(&mut tag) == limits {
            return tag;
        }
        let _last = context.queue.leave(&mut tag, SUBMITTER_SLOT);
    }
    unreachable!()
}

/// Hands an accepted request to the workers. The request enters the queue with one free tag, under the limits in force, and its
/// reply is owed. No other call gives a token.
///
/// Afterwards the queue of completions has room for each completion that is to come (`room` of the `ensures`).
pub(crate) fn hand_over<J: Run, C: QueueName, L: QueueNames, R: Wait, S: Stall>(
    context: &RunContext<'_, J, C, L, R, S>,
    table: &mut InFlightTable,
    ends: &mut Ends<J, C>,
    accepted: Accepted,
) -> Result<(), RunFault>
    requires handed_over { AreHandedOver J.script L.requests C.id (length table.old.replies) table.old.replies ends.old.source ends.old.collector }
    requires stands { Stands J.script table.old.replies table.old.disk }
    requires ready { IsReady J.script table.old.replies accepted }
    requires few { owed_count table.old.replies ≤ context.now }
    requires tags { ends.old.taker.queue ≡ L.free_tags }
    requires room { ends.old.taker.count + 1 < 2 ^ 64 }
    ensures handed_over { OnOk result (HasHandedOver J.script L.requests C.id table.old table.new ends.new.source ends.new.collector) }
    ensures tag { OnOk result (ends.new.taker ≡ one_more ends.old.taker) }
    ensures room { HasRoomForEach (context.now + 1) ends.new.collector }
    ensures memory { IfErr result (λ fault. fault ≡ RunFault.Memory) }
    ensures source { ends.new.source ≡ record ends.old.source { pushed = ends.new.source.pushed } }
{
    let Accepted {
        request,
        number,
        limits,
    } = accepted;
    let position = table.replies.len() as u32;
    let found = table.submit(context.alloc, context.checked.script(), request)?;
    let tag = entered(context, &mut ends.source, &mut ends.taker, limits);
    let passed = context.points.pass_entered(number, &tag);
    let token = context.completions.token(&mut ends.collector, number);
    let job = Job::new(passed, token, position, tag, found);
    context.requests.push(context.rt, &mut ends.source, job);
    Ok(())
}

// Takes a completion. If it brought an answer, the reply to its request was owed until now, and one fewer is owed afterwards.
//
// Returns `Memory` if the worker was refused memory. Then the reply stays owed with no completion to come, and every caller ends
// the run. `taken` holds in this case too, so that callers have one clause for both; nothing reads it once the run fails.
fn take_completion<J: Run, C: QueueName, L: QueueNames, R, S>(
    context: &RunContext<'_, J, C, L, R, S>,
    table: &mut InFlightTable,
    completion: Completion<J>,
) -> Result<(), RunFault>
    requires stands { Stands J.script table.old.replies table.old.disk }
    requires owed { is_owed table.old.replies completion.position ≡ true }
    ensures taken { HasTakenCompletion J.script completion.number table.old table.new }
    ensures filled { OnOk result (owed_count table.new.replies + 1 ≡ owed_count table.old.replies) }
    ensures memory { IfErr result (λ fault. fault ≡ RunFault.Memory) }
{
    let (position, answer) = completion.into_parts();
    let answer = answer?;
    table.complete(context.checked.script(), position, answer);
    Ok(())
}

/// Collects the completions that have arrived, if at least as many replies are owed as there are tags. A look after each request
/// would take the queue's cache lines from the workers each time.
///
/// Afterwards no more replies are owed than there are tags. By `collector`, the number of tokens given doesn't change; the next
/// token is numbered by it.
pub(crate) fn collect_some<J: Run, C: QueueName, L: QueueNames, R: Wait, S>(
    context: &RunContext<'_, J, C, L, R, S>,
    collector: &mut Collector<Completion<J>>,
    table: &mut InFlightTable,
) -> Result<(), RunFault>
    requires collecting { IsCollecting J.script C.id table.old collector.old }
    ensures collecting { IsCollecting J.script C.id table.new collector.new }
    ensures lines { length table.new.replies ≡ length table.old.replies }
    ensures collector { collector.new ≡ record collector.old { collected = collector.new.collected } }
    ensures few { OnOk result (owed_count table.new.replies ≤ context.now) }
    ensures memory { IfErr result (λ fault. fault ≡ RunFault.Memory) }
{
    if table.replies.owed() < context.free_tags.room() {
        return Ok(());
    }
    for _ in 0..table.replies.owed() {
        let Some(completion) = context.completions.try_collect(context.rt, collector) else {
            break;
        };
        take_completion(context, table, completion)?;
    }
    // Each request whose completion hadn't arrived holds its tag, so this waits for none.
    collect_until(context, collector, table, context.free_tags.room())
}

/// Collects completions, and waits for them, until at most `most` replies are owed. `collector` is as at `collect_some`.
pub(crate) fn collect_until<J: Run, C: QueueName, L: QueueNames, R: Wait, S>(
    context: &RunContext<'_, J, C, L, R, S>,
    collector: &mut Collector<Completion<J>>,
    table: &mut InFlightTable,
    most: usize,
) -> Result<(), RunFault>
    requires collecting { IsCollecting J.script C.id table.old collector.old }
    ensures collecting { IsCollecting J.script C.id table.new collector.new }
    ensures lines { length table.new.replies ≡ length table.old.replies }
    ensures collector { collector.new ≡ record collector.old { collected = collector.new.collected } }
    ensures few { OnOk result (owed_count table.new.replies ≤ most) }
    ensures memory { IfErr result (λ fault. fault ≡ RunFault.Memory) }
{
    for _ in context.rt.forever() {
        if table.replies.owed() <= most {
            return Ok(());
        }
        // Each owed reply has a completion to come: if one had brought no answer, `take_completion` would have ended the run.
        let completion = context.completions.collect(context.rt, collector);
        take_completion(context, table, completion)?;
    }
    unreachable!()
}
