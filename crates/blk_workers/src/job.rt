//! What a worker receives for a request, and what it hands back.
ghost use Rattle.std.specs.Prelude.{◌≡◌, ◌<◌, true, false, IfOk};
ghost use Rattle.in_flight.specs.Requests.{IsAcceptedAt, IsAnswerTo};
ghost use Rattle.ram_disk.specs.Sectors.{sectors_of};
ghost use Rattle.blk_workers.specs.Jobs.{HasOnlyAsked, HasOnlyLeft, IsJob, IsReadUnderItsTag};
ghost use Rattle.blk_workers.specs.Points.{at_point};
ghost use Rattle.blk_workers.specs.declared.points.Point.TheVariants.{Entered, Drawn, Answered};

use crate::naming::{QueueName, Run};
use crate::points::Passed;
use freeze_queue::{BlockQueue, Tag};
use in_flight::{Answer, Workbench, answer_to};
use ram_disk::Sectors;
use run_queues::{Acknowledgement, CompletionQueue, CompletionToken, Numbered};
use script_meaning::Script;
use std::alloc::{AllocError, Global};
use std::marker::{Model, PhantomData};
use std::sync::Wait;

/// A request on its way to a worker: the token to report its completion, the position of its line, the tag that entered the queue
/// for it, and the sectors that a read finds.
///
/// Invariant: the token is one of the run's completions, the line is the accepted request of the token's number, the tag is entered
/// in the run's queue and has read the limits in force at the line, and the sectors are those that a single thread finds there. The
/// job carries no limits: the worker reads them under the tag.
#[derive(Drop)]
pub(crate) struct Job<J: Run, C: QueueName> {
    token: CompletionToken<Completion<J>>,
    position: u32,
    tag: Box<Tag>,
    found: Sectors,
    of: PhantomData<C>,
}

impl<J: Run, C: QueueName> Model for Job<J, C> {
    ghost use Rattle.ram_disk.specs.Sectors.{sectors_of};
    ghost use Rattle.blk_workers.specs.Jobs.{JobFacts, IsJob};

    ghost Value = { JobFacts };

    ghost view = { λ j. record { token = j.token; position = j.position; tag = j.tag.value; found = sectors_of j.found } };

    ghost invariant = { λ j. IsJob J.script J.queue C.id (record { token = j.token; position = j.position; tag = j.tag.value; found = sectors_of j.found }) };
}

impl<J: Run, C: QueueName> Job<J, C> {
    /// Makes the job of a request that has passed [`Point::Entered`](crate::Point).
    pub(crate) fn new(
        entered: Passed<J>,
        token: CompletionToken<Completion<J>>,
        position: u32,
        tag: Box<Tag>,
        found: Sectors,
    ) -> Job<J, C>
        requires job { IsJob J.script J.queue C.id (record { token = token; position = position; tag = tag.value; found = sectors_of found }) }
        requires point { entered ≡ at_point token.number Entered }
        ensures { result.token ≡ token }
    {
        Job {
            token,
            position,
            tag,
            found,
            of: PhantomData,
        }
    }

    /// Does the request: reads the limits under its tag, cuts the pieces, and makes the line of its reply and the sectors that a
    /// write leaves.
    ///
    /// The contract repeats that the request is an accepted one of the script, so a worker's list has room for its number.
    pub(crate) fn done(
        self,
        drawn: Passed<J>,
        alloc: Global,
        bench: &mut Workbench,
        queue: &BlockQueue,
        script: &Script,
    ) -> DoneJob<J, C>
        requires queue { queue.now ≡ J.queue }
        requires script { script.now ≡ J.script }
        requires point { drawn ≡ at_point self.token.number Drawn }
        ensures request { IsAcceptedAt J.script self.token.number self.position }
        ensures number { result.number ≡ self.token.number }
        ensures stays { HasOnlyAsked self.tag result.tag }
        ensures read { IsReadUnderItsTag J.script self }
    {
        let Job {
            token,
            position,
            mut tag,
            found,
            of: _,
        } = self;
        let limits = queue.limits(&mut tag);
        let answer = answer_to(alloc, bench, script, position as usize, limits, &found);
        let completion = Completion::new(token.number(), position, answer);
        DoneJob {
            tag,
            token,
            completion,
            of: PhantomData,
        }
    }
}

impl<J: Run, C: QueueName> Numbered for Job<J, C> {
    ghost number = { λ j. j.token.number };

    /// Returns the request's number among the accepted ones.
    fn number(&self) -> u32 {
        self.token.number()
    }
}

/// What comes back for a request: its number, the position of its line, and its answer.
///
/// Invariant: the line at the position is the accepted request of this number, and the answer is a single thread's answer to it,
/// unless the worker was refused memory.
#[derive(Drop)]
pub(crate) struct Completion<J: Run> {
    number: u32,
    position: u32,
    answer: Result<Answer, AllocError>,
    of: PhantomData<J>,
}

impl<J: Run> Model for Completion<J> {
    ghost use Rattle.std.specs.Prelude.{IfOk};
    ghost use Rattle.blk_workers.specs.Jobs.{CompletionFacts};
    ghost use Rattle.in_flight.specs.Requests.{IsAcceptedAt, IsAnswerTo};

    ghost Value = { CompletionFacts };

    ghost view = { λ c. record { number = c.number; position = c.position } };

    ghost invariant = { λ c. IsAcceptedAt J.script c.number c.position × IfOk c.answer (IsAnswerTo J.script c.position) };
}

impl<J: Run> Numbered for Completion<J> {
    ghost number = { λ c. c.number };

    /// Returns the request's number among the accepted ones.
    fn number(&self) -> u32 {
        self.number
    }
}

impl<J: Run> Completion<J> {
    fn new(number: u32, position: u32, answer: Result<Answer, AllocError>) -> Completion<J>
        requires request { IsAcceptedAt J.script number position }
        requires answer { IfOk answer (IsAnswerTo J.script position) }
        ensures { result ≡ record { number = number; position = position } }
    {
        Completion {
            number,
            position,
            answer,
            of: PhantomData,
        }
    }

    /// Returns the position of the request's line, and its answer unless the worker was refused memory.
    pub(crate) fn into_parts(self) -> (usize, Result<Answer, AllocError>)
        ensures position { result.0 ≡ self.position }
        ensures request { IsAcceptedAt J.script self.number self.position }
        ensures answer { IfOk result.1 (IsAnswerTo J.script result.0) }
    {
        (self.position as usize, self.answer)
    }
}

/// A tag that isn't entered, free for the next request. Invariant: it isn't entered, and it is a tag of the run's queue. Contracts
/// see the tag.
#[derive(Drop)]
pub(crate) struct FreeTag<J: Run> {
    // Boxed: a tag has 128 unused bytes around its gate's pass, which would be copied through two queues if it were passed by
    // value.
    tag: Box<Tag>,
    of: PhantomData<J>,
}

impl<J: Run> Model for FreeTag<J> {
    ghost use Rattle.std.specs.Prelude.{◌≡◌, false};
    ghost use Rattle.freeze_queue.specs.Queue.{TagFacts};

    ghost Value = { TagFacts };

    ghost view = { λ t. t.tag.value };

    ghost invariant = { λ t. (t.tag.value.queue ≡ J.queue) × (t.tag.value.entered ≡ false) };
}

impl<J: Run> FreeTag<J> {
    /// Makes a free tag from a tag of the run's queue that isn't entered.
    pub(crate) fn new(tag: Box<Tag>) -> FreeTag<J>
        requires own { tag.value.queue ≡ J.queue }
        requires out { tag.value.entered ≡ false }
        ensures { result ≡ tag.value }
    {
        FreeTag {
            tag,
            of: PhantomData,
        }
    }

    pub(crate) fn into_tag(self) -> Box<Tag>
        ensures own { result.value.queue ≡ J.queue }
        ensures out { result.value.entered ≡ false }
    {
        self.tag
    }
}

/// A request that is done: its tag is still entered, and its completion is still to be reported. Contracts see its number and its
/// tag.
///
/// The completion is reported first, since only the `CompletedJob` that this returns gives the tag. So once the queue is drained,
/// each completion is in its queue, and the thread that collects them all waits for no worker.
#[derive(Drop)]
pub(crate) struct DoneJob<J: Run, C: QueueName> {
    tag: Box<Tag>,
    token: CompletionToken<Completion<J>>,
    completion: Completion<J>,
    of: PhantomData<C>,
}

impl<J: Run, C: QueueName> Model for DoneJob<J, C> {
    ghost use Rattle.std.specs.Prelude.{◌≡◌, true};
    ghost use Rattle.blk_workers.specs.Jobs.{DoneFacts};

    ghost Value = { DoneFacts };

    ghost view = { λ j. record { number = j.token.number; tag = j.tag.value } };

    ghost invariant = { λ j. (j.tag.value.queue ≡ J.queue) × (j.tag.value.entered ≡ true) × (j.token.queue ≡ C.id) × (j.completion.number ≡ j.token.number) };
}

impl<J: Run, C: QueueName> DoneJob<J, C> {
    /// Reports the completion.
    pub(crate) fn tell<R: Wait>(
        self,
        rt: &R,
        completions: &CompletionQueue<Completion<J>>,
    ) -> CompletedJob<J, C>
        requires own { completions.now.id ≡ C.id }
        ensures number { result.acknowledgement.number ≡ self.number }
        ensures stays { result.tag ≡ self.tag }
    {
        let DoneJob {
            tag,
            token,
            completion,
            of: _,
        } = self;
        let acknowledgement = completions.tell(rt, token, completion);
        CompletedJob {
            tag,
            acknowledgement,
            of: PhantomData,
        }
    }
}

/// A request whose completion is reported, and whose tag is still entered. Contracts see its acknowledgement and its tag.
#[derive(Drop)]
pub(crate) struct CompletedJob<J: Run, C: QueueName> {
    tag: Box<Tag>,
    acknowledgement: Acknowledgement<Completion<J>>,
    of: PhantomData<C>,
}

impl<J: Run, C: QueueName> Model for CompletedJob<J, C> {
    ghost use Rattle.std.specs.Prelude.{◌≡◌, true};
    ghost use Rattle.blk_workers.specs.Jobs.{CompletedFacts};

    ghost Value = { CompletedFacts };

    ghost view = { λ j. record { acknowledgement = j.acknowledgement; tag = j.tag.value } };

    ghost invariant = { λ j. (j.tag.value.queue ≡ J.queue) × (j.tag.value.entered ≡ true) × (j.acknowledgement.queue ≡ C.id) };
}

impl<J: Run, C: QueueName> CompletedJob<J, C> {
    /// Leaves the queue once, on this slot. Returns the tag, and the acknowledgement, which shows that the completion was reported.
    pub(crate) fn leave(
        self,
        answered: Passed<J>,
        queue: &BlockQueue,
        slot: u32,
    ) -> (FreeTag<J>, Acknowledgement<Completion<J>>)
        requires queue { queue.now ≡ J.queue }
        requires slot { slot < J.queue.gate.slots }
        requires point { answered ≡ at_point self.acknowledgement.number Answered }
        ensures own { result.1.queue ≡ C.id }
        ensures number { result.1.number ≡ self.acknowledgement.number }
        ensures left { HasOnlyLeft slot self.tag result.0 }
    {
        let CompletedJob {
            mut tag,
            acknowledgement,
            of: _,
        } = self;
        let _last = queue.leave(&mut tag, slot);
        (FreeTag::new(tag), acknowledgement)
    }
}
