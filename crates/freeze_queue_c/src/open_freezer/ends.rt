//! The end of a queue.
ghost use Rattle.std.specs.Prelude.{◌≡◌, ◌≤◌, ◌<◌, vec_len, All, OnErr, OnOk};
ghost use Rattle.std.specs.Vec.{vec_capacity};
ghost use Rattle.queue_core.specs.Queue.{fault_of};
ghost use Rattle.queue_core.specs.Removal.{IsFrozenToEnd};
ghost use Rattle.freeze_queue_c.specs.Ends.{EndsOrIsKept, IsPutBack, missing_tags, worn_out};
ghost use Rattle.freeze_queue_c.specs.Opened.{freezer_with, Waits};

use super::OpenFreezer;
use crate::life::Final;
use crate::plain_limits::PlainLimits;
use crate::refusal::Refusal;
use c_answers::{DrawnNumber, Misuse};
use queue_core::{BlockQueue, FreezeFault, Freezer, Tag};
use std::alloc::Global;
use std::sync::Arc;

/// Why a queue may not end, and its freezer. The freezer is gone if there was no memory for it.
#[derive(Drop)]
pub struct KeptFreezer {
    pub why: Refusal,
    pub freezer: Option<OpenFreezer>,
}

/// The parts of an open freezer, without its queue.
#[derive(Drop)]
pub(super) struct Parts {
    pub number: DrawnNumber,
    pub tags: u32,
    pub waiting: Vec<Tag>,
    pub freezer: Freezer,
}

/// Freezes a queue that is to end, unless it is already frozen. Refuses with WornOut.
fn freeze_to_end(freezer: &mut Freezer, queue: &BlockQueue) -> Result<(), FreezeFault>
    requires own { freezer.old.queue ≡ queue.now }
    ensures refused { fault_of result ≡ worn_out freezer.old }
    ensures unchanged { OnErr result (freezer.new ≡ freezer.old) }
    ensures frozen { OnOk result (IsFrozenToEnd freezer.old freezer.new) }
    ensures depth { OnOk result (0 < freezer.new.depth) }
{
    if freezer.depth() == 0 {
        freezer.start_freeze(queue)?;
    }
    Ok(())
}

/// Makes the freezer again of a queue that doesn't end. The freezer is lost if there is no memory.
fn put_back(alloc: Global, queue: BlockQueue, parts: Parts, why: FreezeFault) -> KeptFreezer
    requires own { parts.freezer.queue ≡ queue }
    requires tags { parts.tags ≡ parts.freezer.tags }
    requires places { parts.tags ≤ vec_capacity parts.waiting }
    requires wait { All (Waits queue) parts.waiting.items }
    requires many { vec_len parts.waiting ≤ parts.tags }
    ensures { IsPutBack (freezer_with parts.number queue parts.waiting.items parts.freezer) why result.freezer result.why }
{
    match Arc::new(alloc, queue) {
        Ok(queue) => KeptFreezer {
            why: Refusal::OfQueue(why),
            freezer: Some(OpenFreezer::of(queue, parts)),
        },
        Err(_) => KeptFreezer {
            why: Refusal::OfMisuse(Misuse::Memory),
            freezer: None,
        },
    }
}

/// Ends a queue that nobody else has a share of, and whose tags no handle has. Refuses with WornOut.
fn remove(alloc: Global, queue: BlockQueue, mut parts: Parts) -> Result<Final, KeptFreezer>
    requires own { parts.freezer.queue ≡ queue }
    requires tags { parts.tags ≡ parts.freezer.tags }
    requires places { parts.tags ≤ vec_capacity parts.waiting }
    requires wait { All (Waits queue) parts.waiting.items }
    requires all { parts.tags ≡ vec_len parts.waiting }
    ensures { EndsOrIsKept (freezer_with parts.number queue parts.waiting.items parts.freezer) result }
{
    let limits = PlainLimits::of(parts.freezer.limits());
    if let Err(why) = freeze_to_end(&mut parts.freezer, &queue) {
        return Err(put_back(alloc, queue, parts, why));
    }
    match parts.freezer.remove(queue, parts.waiting) {
        Ok(left) => Ok(Final {
            dead: left.dead,
            kills: left.kills,
            releases: left.releases,
            limits,
        }),
        Err(_) => unreachable!(),
    }
}

impl OpenFreezer {
    /// The number of tags that were given out and aren't back.
    pub fn tags_out(&self) -> u32
        ensures { result ≡ missing_tags self.now }
    {
        (self.tags as usize).saturating_sub(self.waiting.len()) as u32
    }

    /// Ends the queue, whose tags no handle has. Refuses with WornOut, or with InUse if somebody has a share of the queue; returns
    /// Memory if there is no memory to put back a queue that is refused.
    pub fn end(self, alloc: Global) -> Result<Final, KeptFreezer>
        requires all { missing_tags self ≡ 0 }
        ensures { EndsOrIsKept self result }
    {
        let Self {
            before: _,
            queue,
            number,
            tags,
            waiting,
            freezer,
            after: _,
        } = self;
        let parts = Parts {
            number,
            tags,
            waiting,
            freezer,
        };
        match Arc::try_unwrap(queue) {
            Ok(queue) => remove(alloc, queue, parts),
            Err(queue) => Err(KeptFreezer {
                why: Refusal::OfMisuse(Misuse::InUse),
                freezer: Some(OpenFreezer::of(queue, parts)),
            }),
        }
    }
}
