//! The disk and the replies of the thread that submits and collects.
ghost use Rattle.std.specs.Prelude.{◌≡◌, ◌++◌, ◌∷◌, [], true, if◌then◌else◌, length, ◌<◌, set, IfOk, OnOk, OnErr, Some, None};
ghost use Rattle.ram_disk.specs.Disk.{sectors_read};
ghost use Rattle.ram_disk.specs.Sectors.{sectors_of};
ghost use Rattle.in_flight.specs.Table.{is_owed, MayTakeReply, MayTakeRequest, Stands};
ghost use Rattle.in_flight.specs.Requests.{first_at, found_at, IsAnswerTo};

use crate::answer::Answer;
use crate::replies::Replies;
use ram_disk::{Disk, Sectors};
use script_meaning::{Request, Script, What};
use std::alloc::{AllocError, Global};

/// The disk and the replies of a run. The thread that submits is their only owner.
#[derive(Drop)]
pub struct InFlightTable {
    pub disk: Disk,
    pub replies: Replies,
}

// Returns the sectors of a disk that an accepted request finds; none if it writes. The request is within the disk, so this fails
// only if memory is refused.
fn found(alloc: Global, disk: &Disk, request: Request) -> Result<Sectors, AllocError>
    ensures { IfOk result (λ found. sectors_of found ≡ (if request.writes then [] else sectors_read request.start request.count disk.now)) }
{
    if request.writes {
        return Ok(Sectors::none());
    }
    disk.find(alloc, u64::from(request.start), request.count)
        .map_err(|_| AllocError)
}

// Returns the first sector of the request at a position.
fn first_sector(script: &Script, position: usize) -> u32
    requires { position < length script.now.lines }
    ensures { result ≡ first_at script.now position }
{
    match &script.lines()[position].what {
        What::Read { start, .. } | What::Write { start, .. } => *start,
        _ => 0,
    }
}

impl InFlightTable {
    /// Takes the answer to a request whose reply is owed: installs the sectors that it leaves, and keeps the reply.
    pub fn complete(&mut self, script: &Script, position: usize, answer: Answer)
        requires stands { Stands script.now self.old.replies self.old.disk }
        requires owed { is_owed self.old.replies position ≡ true }
        requires answer { IsAnswerTo script.now position answer }
        ensures stands { Stands script.now self.new.replies self.new.disk }
        ensures taken { self.new.replies ≡ set self.old.replies position (Some answer.text) }
    {
        let Answer { text, sectors } = answer;
        let start = first_sector(script, position);
        self.disk.leave(u64::from(start), sectors);
        self.replies.fill(position, text);
    }

    /// Takes the next line, whose reply is there. If the line drains, nothing may be owed. `_script` is used only by the contract.
    pub fn reply(
        &mut self,
        alloc: Global,
        _script: &Script,
        text: Vec<u8>,
    ) -> Result<(), AllocError>
        requires stands { Stands _script.now self.old.replies self.old.disk }
        requires may_take { MayTakeReply _script.now self.old.replies text.items }
        ensures stands { OnOk result (Stands _script.now self.new.replies self.new.disk) }
        ensures told { OnOk result (self.new.replies ≡ self.old.replies ++ Some text.items ∷ []) }
        ensures err { OnErr result ((self.new.replies ≡ self.old.replies) × (self.new.disk ≡ self.old.disk)) }
    {
        self.replies.push(alloc, text)
    }

    /// Takes the next line, an accepted request, which is in flight from now on; it may join those that are. Returns the sectors
    /// that it finds, which are those that a single thread finds there; none if it writes.
    ///
    /// Fails only if memory is refused, and then no line is taken. `_script` is used only by the contract.
    pub fn submit(
        &mut self,
        alloc: Global,
        _script: &Script,
        request: Request,
    ) -> Result<Sectors, AllocError>
        requires stands { Stands _script.now self.old.replies self.old.disk }
        requires may_take { MayTakeRequest _script.now self.old.replies request }
        ensures stands { OnOk result (Stands _script.now self.new.replies self.new.disk) }
        ensures owed { OnOk result (self.new.replies ≡ self.old.replies ++ None ∷ []) }
        ensures found { IfOk result (λ found. sectors_of found ≡ found_at _script.now (length self.old.replies) request) }
        ensures err { OnErr result ((self.new.replies ≡ self.old.replies) × (self.new.disk ≡ self.old.disk)) }
    {
        let found = found(alloc, &self.disk, request)?;
        self.replies.push_owed()?;
        Ok(found)
    }
}
