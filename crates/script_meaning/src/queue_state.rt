//! The queue without its disk.
ghost use Rattle.std.specs.Prelude.{◌≡◌, ◌+◌, ◌<◌, ◌≤◌, ◌^◌, false};
ghost use Rattle.script_meaning.specs.Queue.{counted, start_queue};
ghost use Rattle.script_meaning.specs.Taken.{IsWithin, counts_of, limits_taken, outcome, queue_after, request_counted, request_taken, told_physical};

use crate::reply::{Outcome, Reply, Request, Stat};
use crate::script::{Mode, Script, Version, What};
use queue_limits::Limits;
use std::marker::Model;

/// Maximum depth: how many times a queue can be frozen at once.
pub const DEPTH_LIMIT: u32 = 1_000;

/// A queue without the bytes of its disk: its limits, how many times it is frozen, whether it is removed, how it counts, and its
/// counts. This decides which requests are accepted, which lines drain, and every reply except that to an accepted request.
/// Contracts see a record of these.
#[derive(Clone, Copy, Debug)]
pub struct QueueState {
    version: Version,
    sectors: u32,
    limits: Limits,
    depth: u32,
    removed: bool,
    mode: Mode,
    reads: u64,
    writes: u64,
    again: u64,
    eio: u64,
}

impl Model for QueueState {
    ghost use Rattle.std.specs.Prelude.{◌≤◌};
    ghost use Rattle.script_meaning.specs.Queue.{Queue};
    ghost use Rattle.script_meaning.specs.declared.queue_state.TheConstants.{DEPTH_LIMIT};

    ghost Value = { Queue };

    ghost view = { λ q. record { version = q.version; sectors = q.sectors; limits = q.limits; depth = q.depth; removed = q.removed; mode = q.mode; reads = q.reads; writes = q.writes; again = q.again; eio = q.eio } };

    ghost invariant = { λ q. q.depth ≤ DEPTH_LIMIT };

    ghost inverse = { λ q. record { version = q.version; sectors = q.sectors; limits = q.limits; depth = q.depth; removed = q.removed; mode = q.mode; reads = q.reads; writes = q.writes; again = q.again; eio = q.eio } };
}

impl QueueState {
    /// Returns the queue of a script at its start: the limits are those of the hardware, and nothing was asked.
    pub fn new(script: &Script) -> Self
        ensures { result ≡ start_queue script.now }
    {
        QueueState {
            version: script.form(),
            sectors: script.disk(),
            limits: Limits::start(script.hw()).unwrap(),
            depth: 0,
            removed: false,
            mode: Mode::Slots,
            reads: 0,
            writes: 0,
            again: 0,
            eio: 0,
        }
    }

    /// Returns the number of sectors of the disk.
    pub fn sectors(&self) -> u32
        ensures { result ≡ self.now.sectors }
    {
        self.sectors
    }

    /// Returns the limits in force.
    pub fn limits(&self) -> Limits
        ensures { result ≡ self.now.limits }
    {
        self.limits
    }

    /// Returns how many times the queue is frozen, 0 to 1,000.
    pub fn depth(&self) -> u32
        ensures value { result ≡ self.now.depth }
        ensures shallow { result ≤ DEPTH_LIMIT }
    {
        self.depth
    }

    /// Returns whether the queue was removed.
    pub fn is_removed(&self) -> bool
        ensures { result ≡ self.now.removed }
    {
        self.removed
    }

    /// Returns how the queue counts the requests in flight.
    pub fn mode(&self) -> Mode
        ensures { result ≡ self.now.mode }
    {
        self.mode
    }

    // Returns the sectors of a physical block, if the script's version has physical blocks.
    fn told_physical(&self) -> Option<u32>
        ensures { result ≡ told_physical self.now.version self.now.limits }
    {
        match self.version {
            Version::One => None,
            Version::Two => Some(self.limits.physical()),
        }
    }

    // Returns what the queue reports about itself.
    fn stat(&self) -> Stat
        ensures { result ≡ counts_of self.now }
    {
        Stat {
            reads: self.reads,
            writes: self.writes,
            again: self.again,
            eio: self.eio,
            depth: self.depth,
            max: self.limits.max(),
            chunk: self.limits.chunk(),
            physical: self.told_physical(),
            mode: self.mode,
        }
    }

    /// Counts an accepted request. A caller that already knows that a line is accepted takes the line by this alone, since it is
    /// what [`take`](QueueState::take) does with such a line.
    pub fn count(&mut self, request: &Request)
        requires { counted self.old + 1 < 2 ^ 64 }
        ensures { self.new ≡ request_counted self.old request.now }
    {
        if request.writes {
            self.writes += 1;
        } else {
            self.reads += 1;
        }
    }

    // Accepts a request if the queue isn't frozen and the request ends within the disk.
    fn request(&mut self, request: Request) -> Outcome
        requires { counted self.old + 1 < 2 ^ 64 }
        ensures outcome { result ≡ (request_taken self.old request).0 }
        ensures after { self.new ≡ (request_taken self.old request).1 }
    {
        let end = u64::from(request.start) + u64::from(request.count);
        if self.depth > 0 {
            self.again += 1;
            return Outcome::Replied(Reply::Again);
        }
        if end > u64::from(self.sectors) {
            self.eio += 1;
            return Outcome::Replied(Reply::PastEnd);
        }
        self.count(&request);
        Outcome::Accepted(request)
    }

    fn freeze(&mut self) -> Outcome
        requires { self.old.removed ≡ false }
        ensures outcome { result ≡ outcome self.old What.Freeze }
        ensures after { self.new ≡ queue_after self.old What.Freeze }
    {
        if self.depth == DEPTH_LIMIT {
            return Outcome::Replied(Reply::DepthFull);
        }
        self.depth += 1;
        Outcome::Drained(Reply::Depth(self.depth))
    }

    fn thaw(&mut self) -> Outcome
        requires { self.old.removed ≡ false }
        ensures outcome { result ≡ outcome self.old What.Thaw }
        ensures after { self.new ≡ queue_after self.old What.Thaw }
    {
        if self.depth == 0 {
            return Outcome::Replied(Reply::NotFrozen);
        }
        self.depth -= 1;
        Outcome::Replied(Reply::Depth(self.depth))
    }

    // Sets the limits. This drains unless the queue is frozen, when nothing is in flight.
    fn set(&mut self, limits: Limits) -> Outcome
        ensures outcome { result ≡ (limits_taken self.old limits).0 }
        ensures after { self.new ≡ (limits_taken self.old limits).1 }
    {
        self.limits = limits;
        if self.depth == 0 {
            Outcome::Drained(Reply::Done)
        } else {
            Outcome::Replied(Reply::Done)
        }
    }

    fn set_max(&mut self, max: u32) -> Outcome
        requires { self.old.removed ≡ false }
        ensures outcome { result ≡ outcome self.old (What.SetMax max) }
        ensures after { self.new ≡ queue_after self.old (What.SetMax max) }
    {
        let mut limits = self.limits;
        match limits.set_max(max) {
            Ok(()) => self.set(limits),
            Err(_) => Outcome::Replied(Reply::Invalid),
        }
    }

    fn set_chunk(&mut self, chunk: u32) -> Outcome
        requires { self.old.removed ≡ false }
        ensures outcome { result ≡ outcome self.old (What.SetChunk chunk) }
        ensures after { self.new ≡ queue_after self.old (What.SetChunk chunk) }
    {
        let mut limits = self.limits;
        match limits.set_chunk(chunk) {
            Ok(()) => self.set(limits),
            Err(_) => Outcome::Replied(Reply::Invalid),
        }
    }

    fn set_physical(&mut self, size: u32) -> Outcome
        requires { self.old.removed ≡ false }
        ensures outcome { result ≡ outcome self.old (What.SetPhysical size) }
        ensures after { self.new ≡ queue_after self.old (What.SetPhysical size) }
    {
        let mut limits = self.limits;
        match limits.set_physical(size) {
            Ok(()) => self.set(limits),
            Err(_) => Outcome::Replied(Reply::Invalid),
        }
    }

    /// Takes a line, and returns its outcome. An accepted request is within the disk. No memory is taken.
    pub fn take(&mut self, what: &What) -> Outcome
        requires { counted self.old + 1 < 2 ^ 64 }
        ensures outcome { result ≡ outcome self.old what.now }
        ensures after { self.new ≡ queue_after self.old what.now }
        ensures within { IsWithin self.old.sectors result }

        // The disk keeps its length, and a line counts one request at most.
        ensures sectors { self.new.sectors ≡ self.old.sectors }
        ensures counts { counted self.new ≤ counted self.old + 1 }
    {
        if self.removed {
            return Outcome::Replied(Reply::Gone);
        }
        self.take_there(what)
    }

    // Takes a line of a queue that isn't removed.
    fn take_there(&mut self, what: &What) -> Outcome
        requires room { counted self.old + 1 < 2 ^ 64 }
        requires there { self.old.removed ≡ false }
        ensures outcome { result ≡ outcome self.old what.now }
        ensures after { self.new ≡ queue_after self.old what.now }
    {
        match what {
            What::Read { start, count } => self.request(Request {
                start: *start,
                count: *count,
                writes: false,
            }),
            What::Write { start, count, .. } => self.request(Request {
                start: *start,
                count: *count,
                writes: true,
            }),
            What::Freeze => self.freeze(),
            What::Thaw => self.thaw(),
            What::SetMax(max) => self.set_max(*max),
            What::SetChunk(chunk) => self.set_chunk(*chunk),
            What::SetPhysical(size) => self.set_physical(*size),
            What::SetMode(mode) => {
                self.mode = *mode;
                Outcome::Replied(Reply::Done)
            }
            What::Stat => Outcome::Drained(Reply::Stat(self.stat())),
            What::Remove => {
                self.removed = true;
                Outcome::Drained(Reply::Removed)
            }
        }
    }
}
