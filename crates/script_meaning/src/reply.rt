//! The outcome of a line: an accepted request, or the queue's reply.
ghost use Rattle.std.specs.Prelude.{◌≡◌};
ghost use Rattle.script_meaning.specs.Taken.{accepted_in};

use crate::script::Mode;
use std::marker::Model;

/// A read or a write: its first sector, how many sectors it has, and whether it writes them.
#[derive(Clone, Copy, Debug, PartialEq, Eq)]
pub struct Request {
    pub start: u32,
    pub count: u32,
    pub writes: bool,
}

/// The outcome of a line of a script.
#[derive(Debug, Drop)]
pub enum Outcome {
    /// The queue accepts the request. Its reply has the pieces under the limits in force, and what a read
    /// finds.
    Accepted(Request),
    /// The queue drains, and this is its reply.
    Drained(Reply),
    /// This is the queue's reply, and nothing drains.
    Replied(Reply),
}

impl Outcome {
    /// Returns the request that the queue accepts, if it accepts one.
    pub fn accepted(&self) -> Option<Request>
        ensures { result ≡ accepted_in self.now }
    {
        match self {
            Outcome::Accepted(request) => Some(*request),
            Outcome::Drained(_) | Outcome::Replied(_) => None,
        }
    }
}

/// The lengths of a request's pieces, in sectors, in order. Contracts see the list of them.
#[derive(Debug, Drop)]
pub struct PieceLengths {
    lengths: Vec<u32>,
}

impl Model for PieceLengths {
    ghost use Rattle.std.specs.Prelude.{List, ℕ};

    ghost Value = { List ℕ };

    ghost view = { λ p. p.lengths.items };
}

impl PieceLengths {
    /// Makes a list of these lengths; no memory is taken.
    pub fn new(lengths: Vec<u32>) -> Self
        ensures { result ≡ lengths.items }
    {
        PieceLengths { lengths }
    }

    /// Returns the lengths.
    pub fn as_slice(&self) -> &[u32]
        ensures { result.now ≡ self.now }
    {
        self.lengths.as_slice()
    }

    /// Returns the lengths as a vector; no memory is taken.
    pub fn into_vec(self) -> Vec<u32>
        ensures { result.items ≡ self }
    {
        self.lengths
    }
}

/// Runs of equal bytes, in order: each byte, and how often it is repeated. Contracts see the list of them.
#[derive(Debug, Drop)]
pub struct ByteRuns {
    runs: Vec<(u8, u64)>,
}

impl Model for ByteRuns {
    ghost use Rattle.std.specs.Prelude.{List, ℕ};

    ghost Value = { List (ℕ × ℕ) };

    ghost view = { λ r. r.runs.items };
}

impl ByteRuns {
    /// Makes a list of these runs; no memory is taken.
    pub fn new(runs: Vec<(u8, u64)>) -> Self
        ensures { result ≡ runs.items }
    {
        ByteRuns { runs }
    }

    /// Returns the runs.
    pub fn as_slice(&self) -> &[(u8, u64)]
        ensures { result.now ≡ self.now }
    {
        self.runs.as_slice()
    }

    /// Returns the runs as a vector; no memory is taken.
    pub fn into_vec(self) -> Vec<(u8, u64)>
        ensures { result.items ≡ self }
    {
        self.runs
    }
}

/// What a queue reports about itself: its counts since the start, its depth, limits and mode.
#[derive(Clone, Copy, Debug, PartialEq, Eq)]
pub struct Stat {
    /// Number of reads that were done.
    pub reads: u64,
    /// Number of writes that were done.
    pub writes: u64,
    /// Number of requests that were refused because the queue was frozen.
    pub again: u64,
    /// Number of requests past the end of the disk.
    pub eio: u64,
    /// How many times the queue is frozen.
    pub depth: u32,
    /// Maximum number of sectors of one request.
    pub max: u32,
    /// Number of sectors of a chunk, or 0 for none.
    pub chunk: u32,
    /// Number of sectors of a physical block. Version 1 of the script reports none.
    pub physical: Option<u32>,
    pub mode: Mode,
}

/// The queue's reply to a line.
#[derive(Debug, Drop)]
pub enum Reply {
    /// Reply to a read: the pieces that it was cut into, and the maximal runs of equal bytes that it found.
    Data {
        pieces: PieceLengths,
        runs: ByteRuns,
    },
    /// Reply to a write: the pieces that it was cut into.
    Written {
        pieces: PieceLengths,
    },
    /// Reply to a setting or a mode that was accepted.
    Done,
    /// Reply to a freeze or a thaw: how many times the queue is frozen now.
    Depth(u32),
    /// Reply to a thaw of a queue that isn't frozen.
    NotFrozen,
    /// Reply to a freeze of a queue that is frozen 1,000 times.
    DepthFull,
    /// Reply to a request while the queue is frozen.
    Again,
    /// Reply to a request that goes past the end of the disk.
    PastEnd,
    /// Reply to a setting that isn't allowed.
    Invalid,
    /// Reply to `stat`: the counts and limits.
    Stat(Stat),
    /// Reply to the removal of the queue.
    Removed,
    /// Reply to every line after the removal.
    Gone,
}
