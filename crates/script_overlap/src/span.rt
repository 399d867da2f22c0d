//! The sectors that the accepted requests of a span read and write.
ghost use Rattle.std.specs.Prelude.{◌≡◌, ◌+◌, ◌≤◌, ℕ, length, IfOk, MatchBool, ◌-◌, ◌^◌, min, ◌≢◌, ◌<◌, slice_index};
ghost use Rattle.script_meaning.specs.Taken.{IsWithin};
ghost use Rattle.script_overlap.specs.SpanOfRequests.{OfSectors, IsEmpty, Conflicts, ConflictsNot, IsNext, Takes};
ghost use Rattle.script_overlap.specs.Span.{Adds, IsClear, TouchesNone, TouchesOne};

use script_meaning::{Outcome, Request};
use std::alloc::{AllocError, Global};
use std::marker::Model;

/// The sectors that the requests of a span read, and those that they write. A span is the requests that were accepted since the
/// last drain. Contracts see for each sector whether it is touched.
///
/// It takes the outcomes of a script's lines one after another, and returns each request that clashes with a request of the span:
/// that request has to wait for a drain, and begins a new span.
#[derive(Drop)]
pub(crate) struct Span {
    reads: Touched,
    writes: Touched,
}

impl Model for Span {
    ghost use Rattle.script_overlap.specs.SpanOfRequests.{Marks};

    ghost Value = { Marks };

    ghost view = { λ s. record { reads = s.reads; writes = s.writes } };
}

impl Span {
    /// Returns a span without requests, on a disk of `sectors` sectors. Fails only if memory is refused.
    pub(crate) fn new(alloc: Global, sectors: u32) -> Result<Self, AllocError>
        ensures sectors { IfOk result (λ span. OfSectors span sectors) }
        ensures none { IfOk result (λ span. IsEmpty span) }
    {
        Ok(Span {
            reads: Touched::new(alloc, sectors)?,
            writes: Touched::new(alloc, sectors)?,
        })
    }

    /// Returns whether a request within the disk shares a sector with a request of the span and one of the two writes.
    pub(crate) fn meets(&self, request: &Request) -> bool
        requires reads { request.now.start + request.now.count ≤ length self.now.reads }
        requires writes { request.now.start + request.now.count ≤ length self.now.writes }
        ensures { MatchBool result (Conflicts self.now request.now) (ConflictsNot self.now request.now) }
    {
        self.writes.meets(request.start, request.count)
            || request.writes && self.reads.meets(request.start, request.count)
    }

    /// Adds a request within the disk to the span.
    pub(crate) fn add(&mut self, request: &Request)
        requires reads { request.now.start + request.now.count ≤ length self.old.reads }
        requires writes { request.now.start + request.now.count ≤ length self.old.writes }
        ensures takes { Takes self.old self.new request.now }
        ensures sectors { (sectors : ℕ) → OfSectors self.old sectors → OfSectors self.new sectors }
    {
        if request.writes {
            self.writes.add(request.start, request.count);
        } else {
            self.reads.add(request.start, request.count);
        }
    }

    /// Ends the span at a drain: the next one has no requests yet.
    pub(crate) fn clear(&mut self)
        ensures reads { length self.new.reads ≡ length self.old.reads }
        ensures writes { length self.new.writes ≡ length self.old.writes }
        ensures none { IsEmpty self.new }
    {
        self.reads.clear();
        self.writes.clear();
    }

    /// Takes the outcome of the next line: an accepted request joins the span, and a line that drains ends it.
    ///
    /// Returns the request if it shares a sector with a request of the span and one of the two writes. Then it has to wait for a
    /// drain, and begins a new span. No memory is taken.
    pub(crate) fn take(&mut self, came: &Outcome) -> Option<Request>
        requires reads { IsWithin (length self.old.reads) came.now }
        requires writes { IsWithin (length self.old.writes) came.now }
        ensures next { IsNext self.old came.now result self.new }
        ensures sectors { (sectors : ℕ) → OfSectors self.old sectors → OfSectors self.new sectors }
    {
        match came {
            Outcome::Accepted(request) => {
                let waits = self.meets(request);
                if waits {
                    self.clear();
                }
                self.add(request);
                if waits { Some(*request) } else { None }
            }
            Outcome::Drained(_) => {
                self.clear();
                None
            }
            Outcome::Replied(_) => None,
        }
    }
}

/// Number of sectors for which one word has bits.
const WORD_SECTORS: usize = 64;

/// The sectors of a disk that were touched since the last drain. Contracts see for each sector whether it was touched.
#[derive(Drop)]
struct Touched {
    // a bit for each sector, 64 to a word, the least significant first
    words: Bits,
    sectors: u32,
}

impl Model for Touched {
    ghost use Rattle.std.specs.Prelude.{◌≤◌, ◌*◌, ◌/◌, ◌%◌, ◌==◌, ℕ, Bool, List, length, map, slice_index};
    ghost use Rattle.std.specs.Int.{bit_at};
    ghost use Rattle.std.specs.List.{range_with_len};

    ghost Value = { List Bool };

    ghost view = { λ t. map (λ sector. bit_at (slice_index t.words (sector / 64)) (sector % 64) == 1) (range_with_len 0 t.sectors) };

    ghost invariant = { λ t. t.sectors ≤ 64 * length t.words };
}

// Returns a word of which the lowest `count` bits are set.
fn low_ones(count: usize) -> u64
    requires { count ≤ 64 }
    ensures { result ≡ 2 ^ count - 1 }
{
    if count == WORD_SECTORS {
        u64::MAX
    } else {
        (1 << count) - 1
    }
}

// Returns the bits of the sectors from `start` up to `end`, in the word whose first sector is `first`.
fn mask(start: usize, end: usize, first: usize) -> u64
    requires ordered { start ≤ end }
    requires reaches { start ≤ first + 64 }
    requires begins { first ≤ end }
    ensures { result ≡ 2 ^ min (end - first) 64 - 2 ^ (start - first) }
{
    low_ones((end - first).min(WORD_SECTORS)) - low_ones(start.saturating_sub(first))
}

impl Touched {
    /// Returns a disk of this many sectors, none of them touched.
    fn new(alloc: Global, sectors: u32) -> Result<Self, AllocError>
        ensures sectors { IfOk result (λ marks. length marks ≡ sectors) }
        ensures none { IfOk result (λ marks. IsClear marks) }
    {
        let words = Bits::new(alloc, (sectors as usize).div_ceil(WORD_SECTORS))?;
        Ok(Touched { words, sectors })
    }

    /// Returns whether one of `count` sectors, starting with `start`, is touched.
    fn meets(&self, start: u32, count: u32) -> bool
        requires { start + count ≤ length self.now }
        ensures { MatchBool result (TouchesOne self.now start count) (TouchesNone self.now start count) }
    {
        let from = start as usize;
        let end = from + count as usize;
        for word in from / WORD_SECTORS..end.div_ceil(WORD_SECTORS) {
            let bits = self.words.get(word) & mask(from, end, word * WORD_SECTORS);
            if bits != 0 {
                return true;
            }
        }
        false
    }

    /// Marks `count` sectors, starting with `start`, as touched.
    fn add(&mut self, start: u32, count: u32)
        requires { start + count ≤ length self.old }
        ensures { Adds self.old self.new start count }
    {
        let from = start as usize;
        let end = from + count as usize;
        for word in from / WORD_SECTORS..end.div_ceil(WORD_SECTORS) {
            let bits = self.words.get(word) | mask(from, end, word * WORD_SECTORS);
            self.words.set(word, bits);
        }
    }

    /// Marks no sector as touched any more, after a drain.
    fn clear(&mut self)
        ensures sectors { length self.new ≡ length self.old }
        ensures none { IsClear self.new }
    {
        self.words.clear();
    }
}

/// Words of 64 bits. Contracts see the list of them.
#[derive(Drop)]
struct Bits {
    words: Vec<u64>,
}

impl Model for Bits {
    ghost use Rattle.std.specs.Prelude.{ℕ, List};

    ghost Value = { List ℕ };

    ghost view = { λ b. b.words.items };
}

impl Bits {
    /// Returns this many words, each of them zero.
    fn new(alloc: Global, count: usize) -> Result<Self, AllocError>
        ensures count { IfOk result (λ words. length words ≡ count) }
        ensures zero { IfOk result (λ words. (k : ℕ) → slice_index words k ≡ 0) }
    {
        Ok(Bits {
            words: vec![in alloc; 0; count]?,
        })
    }

    /// Returns the word at an index.
    fn get(&self, index: usize) -> u64
        requires { index < length self.now }
        ensures { result ≡ slice_index self.now index }
    {
        self.words[index]
    }

    /// Sets the word at an index.
    fn set(&mut self, index: usize, bits: u64)
        requires { index < length self.old }
        ensures count { length self.new ≡ length self.old }
        ensures here { slice_index self.new index ≡ bits }
        ensures others { (k : ℕ) → k ≢ index → slice_index self.new k ≡ slice_index self.old k }
    {
        self.words[index] = bits;
    }

    /// Makes every word zero.
    fn clear(&mut self)
        ensures count { length self.new ≡ length self.old }
        ensures zero { (k : ℕ) → slice_index self.new k ≡ 0 }
    {
        self.words.fill(0);
    }
}
