//! The thread that submits and collects.
ghost use Rattle.std.specs.Prelude.{◌≡◌, ◌+◌, ◌<◌, ◌≤◌, ◌⊎◌, true, IfErr, IfOk, None, OnErr, OnOk, length};
ghost use Rattle.script_meaning.specs.Queue.{start_queue};
ghost use Rattle.script_meaning.specs.Requests.{accepted_at, accepted_in_all, drains_at};
ghost use Rattle.script_overlap.specs.Ordered.{IsOrdered};
ghost use Rattle.blk_script.specs.Texts.{reply_line};
ghost use Rattle.blk_workers.specs.Progress.{HasCollected, HasCounted, HasDrained, HasPassed, HasReplied, HasTaken, IsAt, IsCollecting, IsEnd, IsFollowing, IsReplyNext, IsRequestNext, IsRun, IsBeforeLine, KillsToDrain};
ghost use Rattle.blk_workers.specs.Following.{IsInStep};
ghost use Rattle.blk_workers.specs.Points.{AddsOne, MayPassAt, PassesAll, PassesAt, PassesIfOrdered, PassesToFault, none_passed};
ghost use Rattle.in_flight.specs.Table.{MayJoin, MayPass, MayTakeReply, Stands, owed_count};

use crate::context::RunContext;
use crate::fault::RunFault;
use crate::following::{follow, freeze};
use crate::handing::{Accepted, Ends, collect_some, collect_until, hand_over};
use crate::job::Completion;
use crate::naming::{QueueName, QueueNames, Run};
use crate::points::{DrainPoints, Stall};
use crate::running::Ran;
use blk_script::render;
use freeze_queue::Freezer;
use in_flight::{InFlightTable, Replies};
use ram_disk::Disk;
use run_queues::Collector;
use script_meaning::{Outcome, QueueState, Reply, Request, Script};
use std::alloc::Global;
use std::sync::Wait;

/// What only the thread that submits and collects has, beside its ends: the disk and the replies, the script's queue without its
/// disk, and the freezer of the queue that requests enter.
#[derive(Drop)]
pub(crate) struct Submitter<J: Run> {
    pub(crate) table: InFlightTable,
    pub(crate) state: QueueState,
    pub(crate) freezer: Freezer,
    /// The number of requests accepted so far.
    pub(crate) accepted: u32,
    /// The drains whose points were passed so far.
    pub(crate) points: DrainPoints<J>,
}

// Makes the line of a reply, and takes the script's next line with it.
fn reply_now(
    alloc: Global,
    script: &Script,
    table: &mut InFlightTable,
    line_number: u32,
    reply: &Reply,
) -> Result<(), RunFault>
    requires stands { Stands script.now table.old.replies table.old.disk }
    requires may_take { MayTakeReply script.now table.old.replies (reply_line (line_number, reply.now)) }
    ensures replied { OnOk result (HasReplied script.now table.old table.new) }
    ensures memory { IfErr result (λ fault. fault ≡ RunFault.Memory) }
{
    // `render` fails only if memory is refused.
    let text = render(alloc, line_number, reply).map_err(|_| RunFault::Memory)?;
    table.reply(alloc, script, text)?;
    Ok(())
}

impl<J: Run> Submitter<J> {
    /// Makes a run's submitter, before the first line.
    pub(crate) fn new(
        alloc: Global,
        script: &Script,
        freezer: Freezer,
        points: DrainPoints<J>,
    ) -> Result<Submitter<J>, RunFault>
        requires script { script.now ≡ J.script }
        requires follows { IsFollowing J.queue 0 freezer }
        requires in_step { IsInStep (start_queue J.script) freezer }
        ensures at { IfOk result (IsAt J.script J.queue 0) }
        ensures points { IfOk result (λ s. s.points ≡ points) }
    {
        // `Disk::new` fails only if memory is refused (`only_memory`).
        let disk = Disk::new(alloc, script.disk()).map_err(|_| RunFault::Memory)?;
        let replies = Replies::new(alloc, script.lines().len())?;
        Ok(Submitter {
            table: InFlightTable { disk, replies },
            state: QueueState::new(script),
            freezer,
            accepted: 0,
            points,
        })
    }

    /// Returns the result of the run, once every line is taken, nothing is owed, and the point of each drain is passed. `drawn` is
    /// what the workers drew.
    pub(crate) fn into_ran(self, drawn: Vec<Vec<u32>>) -> Result<Ran, RunFault>
        requires end { IsEnd J.script self }
        requires points { PassesAll J.script self.accepted none_passed self.points }
        ensures run { IfOk result (λ ran. IsRun J.script ran.replies.items ran.disk) }
        ensures drawn { IfOk result (λ ran. ran.drawn ≡ drawn) }
    {
        let InFlightTable { disk, replies } = self.table;
        let replies = replies.into_text()?;
        Ok(Ran {
            replies,
            disk,
            drawn,
        })
    }

    // Collects the completions that have arrived, if at least as many replies are owed as there are tags. Before an ordered request
    // it drains the queue, and thaws it again.
    fn make_way<C: QueueName, L: QueueNames, R: Wait, S: Stall>(
        &mut self,
        context: &RunContext<'_, J, C, L, R, S>,
        collector: &mut Collector<Completion<J>>,
    ) -> Result<(), RunFault>
        requires at { IsAt J.script J.queue (length self.old.table.replies) self.old }
        requires collecting { IsCollecting J.script C.id self.old.table collector.old }
        ensures collected { HasCollected J.script J.queue C.id self.old self.new collector.old collector.new }
        ensures may_join { OnOk result (MayJoin J.script self.new.table.replies) }
        ensures few { OnOk result (owed_count self.new.table.replies ≤ context.now) }
        ensures kept { (self.new.freezer ≡ self.old.freezer) ⊎ IsOrdered J.script (length self.old.table.replies) }
        ensures points { OnOk result (PassesIfOrdered J.script (length self.old.table.replies) self.old.points self.new.points) }
        ensures points_err { OnErr result (MayPassAt J.script (length self.old.table.replies) self.old.points self.new.points) }
        ensures in_step { OnOk result (IsInStep self.new.state self.new.freezer) }
        ensures memory { IfErr result (λ fault. fault ≡ RunFault.Memory) }
    {
        collect_some(context, collector, &mut self.table)?;
        if !context.checked.is_ordered(self.table.replies.len()) {
            return Ok(());
        }
        self.drain(context, collector)?;
        follow(&mut self.freezer, context.queue, &self.state);
        Ok(())
    }

    // Hands over the accepted request of the next line, and takes one tag for it (`tags`). Even if this fails, the right to push
    // changes only in how many requests were pushed (`source`), so `lead` can still push end marks.
    fn submit<C: QueueName, L: QueueNames, R: Wait, S: Stall>(
        &mut self,
        context: &RunContext<'_, J, C, L, R, S>,
        ends: &mut Ends<J, C>,
        request: Request,
    ) -> Result<(), RunFault>
        requires taken { HasTaken J.script J.queue L.requests C.id (length self.old.table.replies) self.old ends.old.source ends.old.collector }
        requires next { IsRequestNext J.script (length self.old.table.replies) request }
        requires tags { HasCounted L.free_tags self.old.accepted ends.old.taker }
        ensures taken { OnOk result (HasTaken J.script J.queue L.requests C.id (length self.old.table.replies + 1) self.new ends.new.source ends.new.collector) }
        ensures follows { IsFollowing J.queue (length self.old.table.replies + 1) self.new.freezer }
        ensures kept { (self.new.freezer ≡ self.old.freezer) ⊎ IsOrdered J.script (length self.old.table.replies) }
        ensures points { OnOk result (PassesAt J.script (length self.old.table.replies) self.old.points self.new.points) }
        ensures points_err { OnErr result (MayPassAt J.script (length self.old.table.replies) self.old.points self.new.points) }
        ensures tags { OnOk result (HasCounted L.free_tags self.new.accepted ends.new.taker) }
        ensures memory { IfErr result (λ fault. fault ≡ RunFault.Memory) }
        ensures source { ends.new.source ≡ record ends.old.source { pushed = ends.new.source.pushed } }
    {
        let accepted = Accepted {
            request,
            number: self.accepted,
            limits: self.state.limits(),
        };
        self.make_way(context, &mut ends.collector)?;
        hand_over(context, &mut self.table, ends, accepted)?;
        self.accepted += 1;
        self.state.count(&request);
        Ok(())
    }

    // Drains the queue, which it freezes if it isn't frozen, and collects all completions. The queue is frozen even if memory is
    // refused.
    fn drain<C: QueueName, L: QueueNames, R: Wait, S: Stall>(
        &mut self,
        context: &RunContext<'_, J, C, L, R, S>,
        collector: &mut Collector<Completion<J>>,
    ) -> Result<(), RunFault>
        requires at { IsAt J.script J.queue (length self.old.table.replies) self.old }
        requires collecting { IsCollecting J.script C.id self.old.table collector.old }
        ensures drained { HasDrained J.script J.queue C.id self.old self.new collector.old collector.new }
        ensures none_owed { OnOk result (owed_count self.new.table.replies ≡ 0) }
        ensures point { AddsOne self.old.accepted self.old.points self.new.points }
        ensures memory { IfErr result (λ fault. fault ≡ RunFault.Memory) }
    {
        let accepted = self.accepted;
        context.requests.wake_if_all_sleep();
        freeze(context.rt, &mut self.freezer, context.queue);
        self.points.pass(context.points, &self.freezer, accepted);
        collect_until(context, collector, &mut self.table, 0)
    }

    // Takes the next line, which has this reply and leaves the script's queue as `next`.
    fn reply_and_follow<C: QueueName, L: QueueNames, R, S>(
        &mut self,
        context: &RunContext<'_, J, C, L, R, S>,
        next: QueueState,
        line_number: u32,
        reply: &Reply,
    ) -> Result<(), RunFault>
        requires before { IsBeforeLine J.script J.queue self.old next }
        requires passes { MayPass J.script self.old.table.replies }
        requires next { IsReplyNext J.script self.old.table.replies line_number reply.now next }
        ensures passed { OnOk result (HasPassed J.script J.queue self.old self.new) }
        ensures follows { IsFollowing J.queue (length self.old.table.replies + 1) self.new.freezer }
        ensures kills { self.new.freezer.kills ≡ self.old.freezer.kills }
        ensures points { self.new.points ≡ self.old.points }
        ensures memory { IfErr result (λ fault. fault ≡ RunFault.Memory) }
    {
        reply_now(
            context.alloc,
            context.checked.script(),
            &mut self.table,
            line_number,
            reply,
        )?;
        follow(&mut self.freezer, context.queue, &next);
        self.state = next;
        Ok(())
    }

    // Takes the next line, which isn't a request that the queue accepts.
    fn reply_to<C: QueueName, L: QueueNames, R: Wait, S: Stall>(
        &mut self,
        context: &RunContext<'_, J, C, L, R, S>,
        ends: &mut Ends<J, C>,
    ) -> Result<(), RunFault>
        requires taken { HasTaken J.script J.queue L.requests C.id (length self.old.table.replies) self.old ends.old.source ends.old.collector }
        requires more { length self.old.table.replies < length J.script.lines }
        requires next { accepted_at J.script (length self.old.table.replies) ≡ None }
        requires tags { HasCounted L.free_tags self.old.accepted ends.old.taker }
        ensures taken { OnOk result (HasTaken J.script J.queue L.requests C.id (length self.old.table.replies + 1) self.new ends.new.source ends.new.collector) }
        ensures follows { IsFollowing J.queue (length self.old.table.replies + 1) self.new.freezer }
        ensures kills { (self.new.freezer.kills ≡ self.old.freezer.kills) ⊎ (drains_at J.script (length self.old.table.replies) ≡ true) }
        ensures points { OnOk result (PassesAt J.script (length self.old.table.replies) self.old.points self.new.points) }
        ensures points_err { OnErr result (MayPassAt J.script (length self.old.table.replies) self.old.points self.new.points) }
        ensures tags { OnOk result (HasCounted L.free_tags self.new.accepted ends.new.taker) }
        ensures memory { IfErr result (λ fault. fault ≡ RunFault.Memory) }
        ensures source { ends.new.source ≡ record ends.old.source { pushed = ends.new.source.pushed } }
    {
        let line = &context.checked.script().lines()[self.table.replies.len()];
        let mut next = self.state;
        match next.take(&line.what) {
            Outcome::Drained(reply) => {
                self.drain(context, &mut ends.collector)?;
                self.reply_and_follow(context, next, line.number, &reply)
            }
            Outcome::Replied(reply) => { self.reply_and_follow(context, next, line.number, &reply) }
            // The check found that the queue accepts no request here.
            Outcome::Accepted(_) => unreachable!(),
        }
    }

    // Takes the next line. By `source`, the right to push changes only in how many requests were pushed. So `lead` can push end
    // marks even if this fails, and if it doesn't, `gather` finds the parts, the lists and their room unchanged.
    fn take_next<C: QueueName, L: QueueNames, R: Wait, S: Stall>(
        &mut self,
        context: &RunContext<'_, J, C, L, R, S>,
        ends: &mut Ends<J, C>,
    ) -> Result<(), RunFault>
        requires taken { HasTaken J.script J.queue L.requests C.id (length self.old.table.replies) self.old ends.old.source ends.old.collector }
        requires more { length self.old.table.replies < length J.script.lines }
        requires tags { HasCounted L.free_tags self.old.accepted ends.old.taker }
        ensures taken { OnOk result (HasTaken J.script J.queue L.requests C.id (length self.old.table.replies + 1) self.new ends.new.source ends.new.collector) }
        ensures follows { IsFollowing J.queue (length self.old.table.replies + 1) self.new.freezer }
        ensures kills { KillsToDrain J.script (length self.old.table.replies) self.old.freezer.kills self.new.freezer.kills }
        ensures points { OnOk result (PassesAt J.script (length self.old.table.replies) self.old.points self.new.points) }
        ensures points_err { OnErr result (MayPassAt J.script (length self.old.table.replies) self.old.points self.new.points) }
        ensures tags { OnOk result (HasCounted L.free_tags self.new.accepted ends.new.taker) }
        ensures memory { IfErr result (λ fault. fault ≡ RunFault.Memory) }
        ensures source { ends.new.source ≡ record ends.old.source { pushed = ends.new.source.pushed } }
    {
        match context.checked.request(self.table.replies.len()) {
            Some(request) => self.submit(context, ends, request),
            None => self.reply_to(context, ends),
        }
    }

    /// Takes all lines, and drains the queue at the end. If a line fails, it takes no more lines and drains the queue too. `source`
    /// is as at `submit`.
    pub(crate) fn submit_all<C: QueueName, L: QueueNames, R: Wait, S: Stall>(
        &mut self,
        context: &RunContext<'_, J, C, L, R, S>,
        ends: &mut Ends<J, C>,
    ) -> Result<(), RunFault>
        requires start { HasTaken J.script J.queue L.requests C.id 0 self.old ends.old.source ends.old.collector }
        requires tags { HasCounted L.free_tags self.old.accepted ends.old.taker }
        ensures end { OnOk result (IsEnd J.script self.new) }
        ensures frozen { (0 < self.new.freezer.depth) × (self.new.freezer.drained ≡ true) }
        ensures points { OnOk result (PassesAll J.script self.new.accepted self.old.points self.new.points) }
        ensures points_err { OnErr result (PassesToFault J.script self.new.accepted self.old.points self.new.points) }
        ensures pushed { OnOk result (ends.new.source ≡ record ends.old.source { pushed = accepted_in_all J.script }) }
        ensures tags { OnOk result (HasCounted L.free_tags (accepted_in_all J.script) ends.new.taker) }
        ensures memory { IfErr result (λ fault. fault ≡ RunFault.Memory) }
        ensures source { ends.new.source ≡ record ends.old.source { pushed = ends.new.source.pushed } }
    {
        for _position in 0..context.checked.script().lines().len() {
            if let Err(why) = self.take_next(context, ends) {
                // Requests in flight end: every tag leaves. Completions aren't awaited, since a reply stays owed if its completion
                // brings no answer.
                context.requests.wake_if_all_sleep();
                freeze(context.rt, &mut self.freezer, context.queue);
                self.points
                    .pass(context.points, &self.freezer, self.accepted);
                return Err(why);
            }
        }
        self.drain(context, &mut ends.collector)
    }
}
