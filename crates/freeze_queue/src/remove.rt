//! The removal of a queue.
ghost use Rattle.std.specs.Prelude.{◌≡◌, All, vec_len, false, IfOk, IfErr};
ghost use Rattle.queue_core.specs.Queue.{fault_number, remove_refusal};
ghost use Rattle.queue_core.specs.Removal.{HasEnded};
ghost use Rattle.freeze_queue.specs.Removal.{why_of};

use crate::freezer::Freezer;
use crate::queue::BlockQueue;
use queue_core::{Final, FreezeFault, LIMIT_WORDS, Tag};

/// A queue that can't be ended, with its freezer and tags, all unchanged.
#[derive(Drop)]
pub struct RemoveFault {
    pub why: FreezeFault,
    pub freezer: Freezer,
    pub queue: BlockQueue,
    pub tags: Vec<Tag>,
}

impl RemoveFault {
    /// Returns the fault's number: 4 or 5.
    pub fn number(&self) -> u8
        ensures { result ≡ fault_number self.now.why }
    {
        self.why.number()
    }
}

impl Freezer {
    /// Ends a queue in which no tag is entered, with all its tags: kills a live gate, takes the tags back and ends the gate. Fails
    /// with TagsOut if tags are missing, or with WornOut.
    ///
    /// Linux: `blk_mq_destroy_queue` (block/blk-mq.c).
    pub fn remove(
        self,
        queue: BlockQueue,
        tags: Vec<Tag>,
    ) -> Result<Final<LIMIT_WORDS>, RemoveFault>
        requires own { self.queue ≡ queue }
        requires tags { All (λ t. t.queue ≡ queue) tags.items }
        requires out { All (λ t. t.entered ≡ false) tags.items }
        ensures refused { why_of result ≡ remove_refusal self (vec_len tags) }
        ensures unchanged { IfErr result (λ f. (f.freezer ≡ self) × (f.queue ≡ queue) × (f.tags ≡ tags)) }
        ensures ended { IfOk result (HasEnded queue.gate self tags.items) }
    {
        match self.core.remove(queue.core, tags) {
            Ok(left) => Ok(left),
            Err(fault) => Err(RemoveFault {
                why: fault.why,
                freezer: Freezer {
                    core: fault.freezer,
                    parker: self.parker,
                },
                queue: BlockQueue {
                    core: fault.queue,
                    freezer: queue.freezer,
                    drained: queue.drained,
                    thawed: queue.thawed,
                },
                tags: fault.tags,
            }),
        }
    }
}
