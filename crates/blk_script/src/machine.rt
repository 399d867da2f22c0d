//! The queue and its disk on one thread.
ghost use Rattle.std.specs.Prelude.{◌≡◌, ◌+◌, ◌<◌, ◌≤◌, ◌^◌, IfOk, IfErr, OnOk, OnErr, length};
ghost use Rattle.queue_limits.specs.Pieces.{IsSplit};
ghost use Rattle.ram_disk.specs.Disk.{sectors_written};
ghost use Rattle.ram_disk.specs.Pattern.{pattern_sectors};
ghost use Rattle.script_meaning.specs.Meaning.{IsAnswered, IsReply, after, start_of};
ghost use Rattle.script_meaning.specs.Queue.{counted};

use line_text::ScriptFault;
use queue_limits::Limits;
use ram_disk::Disk;
use script_meaning::{
    ByteRuns, Outcome, Pattern, PieceLengths, QueueState, Reply, Request, Script, What,
};
use std::alloc::Global;

/// The queue and its disk, as one thread keeps them while it takes a script line by line.
#[derive(Drop)]
pub(crate) struct Machine {
    pub(crate) queue: QueueState,
    pub(crate) disk: Disk,
    ghost whole: { length disk ≡ queue.sectors },
}

// Returns the pieces of a request under the limits in force.
fn pieces(alloc: Global, limits: &Limits, request: Request) -> Result<PieceLengths, ScriptFault>
    ensures pieces { IfOk result (λ pieces. IsSplit limits.now request.start request.count pieces) }
    ensures fault { IfErr result (λ fault. fault ≡ ScriptFault.Memory) }
{
    let lengths = limits
        .pieces(u64::from(request.start), request.count)
        .collect(alloc)?;
    Ok(PieceLengths::new(lengths))
}

impl Machine {
    ghost use Rattle.blk_script.specs.Machine.{state_of};

    pub(crate) fn new(alloc: Global, script: &Script) -> Result<Self, ScriptFault>
        ensures start { IfOk result (λ m. state_of m ≡ start_of script.now) }
        ensures fault { IfErr result (λ fault. fault ≡ ScriptFault.Memory) }
    {
        let disk = Disk::new(alloc, script.disk()).map_err(|_| ScriptFault::Memory)?;
        Ok(Machine {
            queue: QueueState::new(script),
            disk,
        })
    }

    fn read(&self, alloc: Global, request: Request) -> Result<Reply, ScriptFault>
        requires { request.start + request.count ≤ self.now.queue.sectors }
        ensures reply { IfOk result (IsAnswered (state_of self.now) (What.Read request.start request.count)) }
        ensures fault { IfErr result (λ fault. fault ≡ ScriptFault.Memory) }
    {
        let pieces = pieces(alloc, &self.queue.limits(), request)?;
        let sectors = self
            .disk
            .share(alloc, u64::from(request.start), request.count)
            .map_err(|_| ScriptFault::Memory)?;
        let runs = ram_disk::runs(alloc, &sectors).map_err(|_| ScriptFault::Memory)?;
        Ok(Reply::Data {
            pieces,
            runs: ByteRuns::new(runs),
        })
    }

    // Makes the sectors first and installs them last, so that the disk is unchanged if memory is refused.
    fn write(
        &mut self,
        alloc: Global,
        request: Request,
        pattern: &Pattern,
    ) -> Result<Reply, ScriptFault>
        requires { request.start + request.count ≤ self.old.queue.sectors }
        ensures reply { IfOk result (IsAnswered (state_of self.old) (What.Write request.start request.count pattern.now)) }
        ensures queue { self.new.queue ≡ self.old.queue }
        ensures disk { OnOk result (self.new.disk ≡ sectors_written request.start (pattern_sectors pattern.now request.count) self.old.disk) }
        ensures same { OnErr result (self.new ≡ self.old) }
        ensures fault { IfErr result (λ fault. fault ≡ ScriptFault.Memory) }
    {
        let pieces = pieces(alloc, &self.queue.limits(), request)?;
        let sectors = ram_disk::patterned(alloc, pattern.bytes(), request.count).map_err(
            |_| ScriptFault::Memory,
        )?;
        self.disk.install(u64::from(request.start), sectors);
        Ok(Reply::Written { pieces })
    }

    /// Replies to a line. `Memory` is the only fault; then the queue and its disk are unchanged.
    pub(crate) fn reply(&mut self, alloc: Global, what: &What) -> Result<Reply, ScriptFault>
        requires room { counted self.old.queue + 1 < 2 ^ 64 }
        ensures reply { IfOk result (IsReply (state_of self.old) what.now) }
        ensures after { OnOk result (state_of self.new ≡ after (state_of self.old) what.now) }
        ensures same { OnErr result (self.new ≡ self.old) }
        ensures fault { IfErr result (λ fault. fault ≡ ScriptFault.Memory) }
        ensures counts { counted self.new.queue ≤ counted self.old.queue + 1 }
    {
        let mut queue = self.queue;
        let reply = match queue.take(what) {
            Outcome::Accepted(request) => match what {
                What::Write { pattern, .. } => self.write(alloc, request, pattern)?,
                _ => self.read(alloc, request)?,
            },
            Outcome::Drained(reply) | Outcome::Replied(reply) => reply,
        };
        self.queue = queue;
        Ok(reply)
    }
}
