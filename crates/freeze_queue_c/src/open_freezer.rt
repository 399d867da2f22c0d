//! The box of an open freezer handle.
ghost use Rattle.std.specs.Prelude.{◌≡◌, None};
ghost use Rattle.c_answers.specs.Ran.{Ran};
ghost use Rattle.freeze_queue_c.specs.FreezerCalls.{StartedFreeze, Thaws, LookedForDrained, Sets, Sought, input_refusal, HasSet, HasMode, mode_misuse, mode_named, ToldDepth, ToldInForce};
ghost use Rattle.freeze_queue_c.specs.PlainLimits.{bounds_of};

mod ends;
mod makes;
mod tags;

use crate::begun::Begun;
use crate::plain_limits::PlainLimits;
use crate::refusal::Refusal;
use c_answers::{DrawnNumber, Misuse};
pub use ends::KeptFreezer;
use queue_core::{BlockQueue, FreezeFault, Freezer, Limits, Mode, Tag, Thawed};
use std::marker::Model;
use std::sync::Arc;

/// The freezer with its queue, the queue's number, and the tags that no handle has.
#[derive(Drop)]
#[repr(C)]
pub struct OpenFreezer {
    before: [u64; 16],
    queue: Arc<BlockQueue>,
    number: DrawnNumber,
    /// The number of tags of the queue.
    tags: u32,
    waiting: Vec<Tag>,
    freezer: Freezer,
    after: [u64; 16],
}

impl Model for OpenFreezer {
    ghost use Rattle.std.specs.Prelude.{◌≡◌, ◌≤◌, All, vec_len};
    ghost use Rattle.std.specs.Vec.{vec_capacity};
    ghost use Rattle.std.specs.Arc.{arc_value};
    ghost use Rattle.freeze_queue_c.specs.Opened.{FreezerOpened, Waits};

    ghost Value = { FreezerOpened };

    ghost view = { λ f. record { number = f.number; queue = arc_value f.queue; waiting = f.waiting.items; freezer = f.freezer } };

    ghost invariant = { λ f. (f.freezer.queue ≡ arc_value f.queue) × (f.tags ≡ f.freezer.tags) × (f.tags ≤ vec_capacity f.waiting)
        × All (Waits (arc_value f.queue)) f.waiting.items × (vec_len f.waiting ≤ f.tags) };
}

/// The mode with this number.
fn mode_of(mode: u32) -> Mode
    ensures { result ≡ mode_named mode }
{
    if mode == 0 { Mode::Slots } else { Mode::Atomic }
}

impl OpenFreezer {
    /// Starts a freeze, and looks whether the queue is drained.
    #[tactic(auto, using(crate::proofs::Kept::freeze_keeps))]
    pub fn start_freeze(&mut self) -> Result<Result<Begun, FreezeFault>, Misuse>
        ensures { Ran None StartedFreeze self.old self.new result }
    {
        let depth = match self.freezer.start_freeze(&self.queue) {
            Ok(frozen) => frozen.depth,
            Err(why) => return Ok(Err(why)),
        };
        let drained = self.freezer.poll_drained(&self.queue);
        Ok(Ok(Begun { depth, drained }))
    }

    /// Whether one look finds the queue frozen and drained.
    pub fn poll_drained(&mut self) -> bool
        ensures { LookedForDrained self.old self.new result }
    {
        self.freezer.poll_drained(&self.queue)
    }

    /// Returns the limits to be set. Refuses with the limits' faults or OtherHardware.
    fn checked(&self, limits: &PlainLimits) -> Result<Limits, Refusal>
        ensures { Sought (input_refusal limits.now self.now) (bounds_of limits.now) result }
    {
        match limits.checked() {
            Err(why) => Err(Refusal::OfLimits(why)),
            Ok(limits) if limits.hw() != self.freezer.limits().hw() => Err(Refusal::OtherHardware),
            Ok(limits) => Ok(limits),
        }
    }

    /// Sets the limits of a drained queue.
    fn commit(&mut self, limits: &PlainLimits) -> Result<(), Refusal>
        ensures { Sets (input_refusal limits.now self.old) (bounds_of limits.now) self.old self.new result }
    {
        let limits = self.checked(limits)?;
        match self.freezer.set(&self.queue, limits) {
            Ok(()) => Ok(()),
            Err(why) => Err(Refusal::OfQueue(why)),
        }
    }

    /// Sets the limits of a drained queue.
    pub fn set(&mut self, limits: &PlainLimits) -> Result<Result<(), Refusal>, Misuse>
        ensures { Ran None (HasSet limits.now) self.old self.new result }
    {
        Ok(self.commit(limits))
    }

    /// Ends a freeze.
    #[tactic(auto, using(crate::proofs::Kept::thaw_keeps))]
    pub fn thaw(&mut self) -> Result<Result<Thawed, FreezeFault>, Misuse>
        ensures { Ran None Thaws self.old self.new result }
    {
        Ok(self.freezer.thaw(&self.queue))
    }

    /// Counts in this mode from now on. Refuses with Mode.
    pub fn mode(&mut self, mode: u32) -> Result<(), Misuse>
        ensures { Ran (mode_misuse mode self.old) (HasMode mode) self.old self.new result }
    {
        if mode > 1 {
            return Err(Misuse::Mode);
        }
        self.freezer.mode(&self.queue, mode_of(mode));
        Ok(())
    }

    /// The number of freezes that aren't thawed yet.
    pub fn depth(&mut self) -> Result<u32, Misuse>
        ensures { Ran None ToldDepth self.old self.new result }
    {
        Ok(self.freezer.depth())
    }

    /// The limits in force.
    pub fn limits(&mut self) -> Result<PlainLimits, Misuse>
        ensures { Ran None ToldInForce self.old self.new result }
    {
        Ok(PlainLimits::of(self.freezer.limits()))
    }

    /// The number of its queue.
    pub fn number(&self) -> DrawnNumber
        ensures { result ≡ self.now.number }
    {
        self.number
    }
}
