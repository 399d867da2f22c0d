//! The shape of a run: its threads, slots and tags.
ghost use Rattle.std.specs.Prelude.{◌≡◌, ◌↔◌, IfSome, IsSome};
ghost use Rattle.blk_workers.specs.Sizes.{AreWithin};

use std::marker::Model;

/// Maximum number of workers of a run. The number is a choice, and is repeated in `with_workers`, `sizes_in_numbers`
/// (blkq_run/src/laws.rt), docs/FORMATS.md and docs/blkq.1.
pub const MOST_WORKERS: u32 = 32;

/// Maximum number of slots of a run's gate. A choice of the program `blkq`; a gate takes more (`percpu_core::SLOT_LIMIT`).
pub const MOST_SLOTS: u32 = 64;

/// Maximum number of tags of a run. Also a choice; a queue takes more (`freeze_queue::MOST_TAGS`).
pub const MOST_TAGS: u32 = 63;

/// The shape of a run: how many threads work on requests, over how many slots the gate spreads its count, and how many requests can
/// be in the queue at a time. None of these affects the replies or the disk.
#[derive(Clone, Copy, Debug, PartialEq, Eq)]
pub struct Config {
    workers: u32,
    slots: u32,
    tags: u32,
}

impl Model for Config {
    ghost use Rattle.blk_workers.specs.Sizes.{Sizes, AreWithin};

    ghost Value = { Sizes };

    ghost view = { λ c. record { workers = c.workers; slots = c.slots; tags = c.tags } };

    ghost invariant = { λ c. AreWithin (record { workers = c.workers; slots = c.slots; tags = c.tags }) };

    ghost inverse = { λ s. record { workers = s.workers; slots = s.slots; tags = s.tags } };
}

impl Config {
    /// Returns a config of 1 to 32 workers, 1 to 64 slots and 1 to 63 tags, or `None` if a number is out of range.
    pub fn new(workers: u32, slots: u32, tags: u32) -> Option<Self>
        ensures within { IsSome result ↔ AreWithin (record { workers = workers; slots = slots; tags = tags }) }
        ensures made { IfSome result (λ c. c ≡ record { workers = workers; slots = slots; tags = tags }) }
    {
        let is_within = (1..=MOST_WORKERS).contains(&workers)
            && (1..=MOST_SLOTS).contains(&slots)
            && (1..=MOST_TAGS).contains(&tags);
        if is_within {
            Some(Config {
                workers,
                slots,
                tags,
            })
        } else {
            None
        }
    }

    /// Returns the number of threads that work on requests, 1 to 32.
    pub fn workers(&self) -> u32
        ensures value { result ≡ self.now.workers }
        ensures within { AreWithin self.now }
    {
        self.workers
    }

    /// Returns the number of slots over which the gate's count is spread, 1 to 64.
    pub fn slots(&self) -> u32
        ensures value { result ≡ self.now.slots }
        ensures within { AreWithin self.now }
    {
        self.slots
    }

    /// Returns how many requests can be in the queue at a time, 1 to 63.
    pub fn tags(&self) -> u32
        ensures value { result ≡ self.now.tags }
        ensures within { AreWithin self.now }
    {
        self.tags
    }
}

impl Default for Config {
    ghost is_default = { λ c. c ≡ record { workers = 4; slots = 8; tags = 16 } };

    /// Returns 4 workers, 8 slots and 16 tags, the defaults of `blkq run`. `usual` (blkq_run/specs/Requests.antt), docs/FORMATS.md
    /// and docs/blkq.1 repeat them.
    fn default() -> Self {
        Config {
            workers: 4,
            slots: 8,
            tags: 16,
        }
    }
}
