//! The tags that no handle has: how they are given to handles and taken back.
ghost use Rattle.std.specs.Prelude.{◌≡◌, ◌<◌, [], ◌∷◌, ◌++◌, length, false};
ghost use Rattle.bias_lanes.specs.declared.views.Stage.TheVariants.{Unbiased};
ghost use Rattle.queue_core.specs.BiasedTags.{IsPlainTag, in_now, stage};
ghost use Rattle.queue_core.specs.Queue.{TagFacts};
ghost use Rattle.c_answers.specs.Ran.{misuse_of};
ghost use Rattle.freeze_queue_c.specs.Life.{back_misuse, Next, value_of};

use super::OpenFreezer;
use crate::open_tag::OpenTag;
use c_answers::Misuse;
use std::alloc::Global;
use std::sync::Arc;

impl OpenFreezer {
    /// Takes out the next tag that no handle has: the tag that was given back last. Refuses with NoneWaits or Memory.
    pub fn next_tag(&mut self, alloc: Global) -> Result<Box<OpenTag>, Misuse>
        ensures { Next self.old self.new (value_of result) }
    {
        let Some(tag) = self.waiting.pop() else {
            return Err(Misuse::NoneWaits);
        };
        let Ok(queue) = Arc::try_clone(&self.queue) else {
            self.waiting.push_reserved(tag);
            return Err(Misuse::Memory);
        };
        let biased = tag.into_biased(self.freezer.limits());
        match Box::new(alloc, OpenTag::new(queue, self.number, biased)) {
            Ok(open) => Ok(open),
            Err(back) => {
                self.take_back(back.value);
                Err(Misuse::Memory)
            }
        }
    }

    /// Why this tag may not go back. Refuses with Foreign, also if no tag of the queue is out; then with Entered.
    pub fn refuse_back(&self, tag: &OpenTag) -> Result<(), Misuse>
        ensures { misuse_of result ≡ back_misuse self.now tag.now }
    {
        let own = self.number;
        let number = tag.number();
        if self.waiting.len() >= self.tags as usize
            || own.counter != number.counter
            || own.drawn != number.drawn
        {
            Err(Misuse::Foreign)
        } else if tag.entered() {
            Err(Misuse::Entered)
        } else {
            Ok(())
        }
    }

    /// Takes back a tag that has no bias and isn't in. There is room for it.
    pub fn take_back(&mut self, tag: OpenTag)
        requires own { tag.queue ≡ self.old.queue }
        requires unbiased { stage tag.tag ≡ Unbiased }
        requires out { in_now tag.tag ≡ false }
        requires place { length self.old.waiting < self.old.freezer.tags }
        ensures { (plain : TagFacts) × IsPlainTag tag.tag plain × (self.new ≡ record self.old { waiting = self.old.waiting ++ plain ∷ [] }) }
    {
        match tag.into_tag().into_tag() {
            Ok(plain) => self.waiting.push_reserved(plain),
            Err(_) => unreachable!(),
        }
    }
}
