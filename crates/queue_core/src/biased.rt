//! A tag that keeps its reference between requests.
ghost use Rattle.std.specs.Prelude.{◌≡◌, ◌<◌, ◌⊎◌, true, false, Some, None, not, is_ok, IfOk, IfErr, IfSome, if◌then◌else◌};
ghost use Rattle.percpu_gate.specs.declared.tried.Put.TheVariants.{NotLast};
ghost use Rattle.bias_lanes.specs.declared.views.Stage.TheVariants as stages;
ghost use Rattle.bias_lanes.specs.Seats.{at, FindsParked};
ghost use Rattle.queue_core.specs.Biased.{Fits};
ghost use Rattle.queue_core.specs.BiasedSteps.{EntersByGate, LooksInByGate, LeavesByGate, LeavesAtGate, ParksAt, loading};
ghost use Rattle.queue_core.specs.BiasedTags.{queue_of, stage, is_plain, is_unbiased, is_idle, not_in_lane, in_now, has_entered, IsBiased, IsPlainTag, at_stage, says_in, says_in_hand};

use crate::at_gate::{ask, come_in, look_in, put_once, take_out};
use crate::limit_words::LIMIT_WORDS;
use crate::parked::ParkedPass;
use crate::queue::BlockQueue;
use crate::tag::Tag;
use bias_lanes::{Lane, Stage};
use percpu_gate::{Gate, Pass, Put};
use queue_limits::Limits;
use std::marker::Model;

/// The result of an attempt to enter.
#[derive(Clone, Copy, Debug, PartialEq, Eq)]
pub enum BiasedEntry {
    /// The tag is entered, until it leaves.
    Entered,
    /// The tag isn't entered, and isn't biased. Contains the result of dropping the reference that the attempt or the bias held. If it is
    /// `Last`, wake the freezer.
    Refused(Put),
    /// The tag isn't entered: the freezer has its reference in hand. Try again. If the freezer is under a lock, a try under that lock
    /// never returns this.
    InHand,
}

/// A tag that can be biased: it keeps its reference to the gate between requests, and enters and leaves by a store and a load.
///
/// Leaking a tag whose request is in keeps the queue from draining forever; leaking an idle tag doesn't.
#[derive(Drop)]
pub struct BiasedTag {
    lane: Lane<ParkedPass, Gate<LIMIT_WORDS>>,
    /// The pass, while it is in the owner's hand; `None` while it is parked or the freezer has it in hand.
    pass: Option<Pass<LIMIT_WORDS>>,
    /// The limits that the tag read when it last entered the gate.
    limits: Limits,
    hardware: u32,
}

impl Model for BiasedTag {
    ghost use Rattle.queue_core.specs.BiasedTags.{BiasedFacts, IsBiased};

    ghost Value = { BiasedFacts };

    ghost view = { λ t. record { bias = t.lane; pass = t.pass; limits = t.limits; hardware = t.hardware } };

    ghost invariant = { λ t. IsBiased (record { bias = t.lane; pass = t.pass; limits = t.limits; hardware = t.hardware }) };
}

impl Tag {
    /// Returns a tag that can be biased, for one that isn't entered. Until it enters, its limits are these.
    pub fn into_biased(self, limits: Limits) -> BiasedTag
        requires out { self.entered ≡ false }
        ensures tag { IsPlainTag result self }
        ensures out { in_now result ≡ false }
        ensures limits { result.limits ≡ limits }
    {
        let (pass, hardware, lane) = self.into_parts();
        BiasedTag {
            lane,
            pass: Some(pass),
            limits,
            hardware,
        }
    }
}

impl BiasedTag {
    /// Returns whether a request of this tag is in.
    #[inline]
    pub fn entered(&self) -> bool
        ensures value { result ≡ in_now self.now }
        ensures kept { IsBiased self.now }
    {
        match self.lane.stage() {
            Stage::Entered => true,
            Stage::Unbiased => self.is_in_at_gate(),
            _ => false,
        }
    }

    /// Returns whether its pass isn't in hand. A tag whose bias is over counts as biased until its pass is taken back.
    #[inline]
    pub fn is_biased(&self) -> bool
        ensures { result ≡ not (is_plain self.now) }
    {
        self.lane.stage() != Stage::Unbiased
    }

    /// Returns the number of the tag's lane, which no other tag of the queue has.
    #[inline]
    pub fn lane(&self) -> usize
        ensures { result ≡ self.now.bias.view.lane }
    {
        self.lane.number()
    }

    /// Returns the limits in force, for an entered tag. They stay the same until it leaves.
    #[inline]
    pub fn limits(&self) -> Limits
        ensures value { result ≡ self.now.limits }
        ensures kept { IsBiased self.now }
    {
        self.limits
    }

    #[inline]
    fn is_in_at_gate(&self) -> bool
        ensures { result ≡ has_entered self.now.pass }
    {
        match &self.pass {
            Some(pass) => pass.held() == 1,
            None => false,
        }
    }

    /// Enters by the lane. Returns false if the tag isn't biased and idle, or its bias is over. If no request of it is in, call
    /// [`BiasedTag::enter_gate`].
    #[inline]
    pub fn try_enter_biased(&mut self, queue: &BlockQueue) -> bool
        requires own { queue_of self.old ≡ queue.now }
        ensures own { queue_of self.new ≡ queue_of self.old }
        // The tag's reference was parked at the load that let it in, and nothing else changes.
        ensures by_lane { result ≡ true → (stage self.old ≡ stages.Idle) × (self.new ≡ at_stage stages.Entered self.old) }
        ensures held { result ≡ true → FindsParked Fits (at stages.Trying self.old.bias) }
        ensures over { result ≡ false → self.new ≡ (if is_idle (stage self.old) then at_stage stages.Over self.old else self.old) }
    {
        self.lane.stage() == Stage::Idle && self.lane.enter(&queue.lanes)
    }

    /// Leaves by the lane. Returns false if no request is in by the lane, or the bias is over. If a request was in by the lane, its bias is
    /// over: call [`BiasedTag::end_bias`].
    #[inline]
    pub fn leave_biased(&mut self, queue: &BlockQueue) -> bool
        requires own { queue_of self.old ≡ queue.now }
        ensures own { queue_of self.new ≡ queue_of self.old }
        ensures by_lane { result ≡ true → (stage self.old ≡ stages.Entered) × (self.new ≡ at_stage stages.Idle self.old) }
        ensures over { result ≡ false → self.new ≡ (if not_in_lane (stage self.old) then self.old else at_stage stages.Over self.old) }
    {
        self.lane.stage() == Stage::Entered && self.lane.leave(&queue.lanes)
    }

    /// Enters unless the queue is frozen. A biased tag enters by its lane; any other tag enters the gate on this slot.
    #[inline]
    pub fn try_enter(&mut self, queue: &BlockQueue, slot: u32) -> BiasedEntry
        requires own { queue_of self.old ≡ queue.now }
        requires slot { slot < queue.now.gate.slots }
        requires out { in_now self.old ≡ false }
        ensures own { queue_of self.new ≡ queue_of self.old }
        ensures entered { in_now self.new ≡ says_in result }
        // By its lane: the tag's reference was parked at the load that let it in, and nothing else changes.
        ensures by_lane { stage self.new ≡ stages.Entered → self.new ≡ at_stage stages.Entered self.old }
        ensures held { stage self.new ≡ stages.Entered → FindsParked Fits (at stages.Trying self.old.bias) }
        ensures by_gate { says_in result ≡ false → is_plain self.new ≡ not (says_in_hand result) }
        ensures in_hand { says_in_hand result ≡ true → self.new ≡ at_stage stages.Parked self.old }
        // By the gate the tag looks once, or tries once on this slot; by its lane it takes no step there.
        ensures steps { is_plain self.new ≡ true → EntersByGate slot queue.now result self.old self.new }
    {
        if self.try_enter_biased(queue) {
            return BiasedEntry::Entered;
        }
        self.enter_gate(queue, slot)
    }

    /// Enters the gate on this slot unless the queue is frozen. A parked pass is taken back first, and stays if it still has its reference.
    pub fn enter_gate(&mut self, queue: &BlockQueue, slot: u32) -> BiasedEntry
        requires own { queue_of self.old ≡ queue.now }
        requires slot { slot < queue.now.gate.slots }
        requires out { in_now self.old ≡ false }
        ensures own { queue_of self.new ≡ queue_of self.old }
        ensures entered { in_now self.new ≡ says_in result }
        ensures by_gate { is_plain self.new ≡ not (says_in_hand result) }
        ensures in_hand { says_in_hand result ≡ true → self.new ≡ at_stage stages.Parked self.old }
        ensures steps { is_plain self.new ≡ true → EntersByGate slot queue.now result self.old self.new }
    {
        if !take_out(&mut self.lane, &mut self.pass, queue) {
            return BiasedEntry::InHand;
        }
        let Some(pass) = &mut self.pass else {
            return BiasedEntry::InHand;
        };
        if let Some(put) = come_in(pass, &queue.gate, slot) {
            return BiasedEntry::Refused(put);
        }
        self.limits = ask(pass, queue);
        BiasedEntry::Entered
    }

    /// Enters a queue that may be frozen, to look at the requests in flight, unless it is drained. The tag isn't biased afterwards.
    pub fn try_enter_frozen(&mut self, queue: &BlockQueue, slot: u32) -> BiasedEntry
        requires own { queue_of self.old ≡ queue.now }
        requires slot { slot < queue.now.gate.slots }
        requires out { in_now self.old ≡ false }
        ensures own { queue_of self.new ≡ queue_of self.old }
        ensures entered { in_now self.new ≡ says_in result }
        ensures by_gate { is_plain self.new ≡ not (says_in_hand result) }
        ensures in_hand { says_in_hand result ≡ true → self.new ≡ at_stage stages.Parked self.old }
        ensures steps { is_plain self.new ≡ true → LooksInByGate slot queue.now result self.old self.new }
    {
        if !take_out(&mut self.lane, &mut self.pass, queue) {
            return BiasedEntry::InHand;
        }
        let Some(pass) = &mut self.pass else {
            return BiasedEntry::InHand;
        };
        if let Some(put) = look_in(pass, &queue.gate, slot) {
            return BiasedEntry::Refused(put);
        }
        self.limits = ask(pass, queue);
        BiasedEntry::Entered
    }

    /// Leaves. If `keep` is true and the queue isn't frozen, a tag with no bias is parked with its reference to the gate. After the last
    /// put, wake the freezer.
    #[inline]
    pub fn leave(&mut self, queue: &BlockQueue, slot: u32, keep: bool) -> Put
        requires own { queue_of self.old ≡ queue.now }
        requires slot { slot < queue.now.gate.slots }
        requires entered { in_now self.old ≡ true }
        ensures own { queue_of self.new ≡ queue_of self.old }
        ensures out { in_now self.new ≡ false }
        ensures limits { self.new.limits ≡ self.old.limits }
        ensures parked { is_plain self.new ≡ false → result ≡ NotLast }
        ensures biased { stage self.old ≡ stages.Entered → stage self.new ≡ stages.Idle → self.new ≡ at_stage stages.Idle self.old }
        ensures keeps { stage self.new ≡ stages.Idle → is_plain self.old ≡ true → keep ≡ true }
        // By the gate the tag puts once on this slot; by its lane it takes no step there.
        ensures steps { is_plain self.new ≡ true → LeavesAtGate slot keep result self.old self.new }
        ensures parks { is_plain self.old ≡ true → stage self.new ≡ stages.Idle → ParksAt stages.Idle slot self.old self.new }
    {
        if self.leave_biased(queue) {
            return Put::NotLast;
        }
        self.leave_gate(queue, slot, keep)
    }

    /// If `keep` is true and the queue isn't frozen, parks the pass of a plain tag. Otherwise takes the pass back if it is parked, and
    /// leaves the gate.
    fn leave_gate(&mut self, queue: &BlockQueue, slot: u32, keep: bool) -> Put
        requires own { queue_of self.old ≡ queue.now }
        requires slot { slot < queue.now.gate.slots }
        requires over { not_in_lane (stage self.old) ≡ true }
        requires entered { is_plain self.old ≡ true → in_now self.old ≡ true }
        ensures own { queue_of self.new ≡ queue_of self.old }
        ensures out { in_now self.new ≡ false }
        ensures limits { self.new.limits ≡ self.old.limits }
        ensures parked { is_plain self.new ≡ false → result ≡ NotLast }
        ensures keeps { stage self.new ≡ stages.Idle → (keep ≡ true) × (is_plain self.old ≡ true) }
        ensures steps { is_plain self.new ≡ true → LeavesAtGate slot keep result self.old self.new }
        ensures parks { stage self.new ≡ stages.Idle → ParksAt stages.Idle slot self.old self.new }
    {
        if keep && self.lane.stage() == Stage::Unbiased {
            if self.park(queue, slot) {
                return Put::NotLast;
            }
            return self.leave_unparked(queue, slot);
        }
        self.leave_unparked(queue, slot)
    }

    /// Leaves the gate. If the freezer has the pass in hand, the freezer leaves with it instead.
    fn leave_unparked(&mut self, queue: &BlockQueue, slot: u32) -> Put
        requires own { queue_of self.old ≡ queue.now }
        requires slot { slot < queue.now.gate.slots }
        requires out { not_in_lane (stage self.old) ≡ true }
        ensures own { queue_of self.new ≡ queue_of self.old }
        ensures out { in_now self.new ≡ false }
        ensures limits { self.new.limits ≡ self.old.limits }
        ensures parked { is_plain self.new ≡ false → (result ≡ NotLast) × (self.new ≡ at_stage stages.Parked self.old) }
        ensures steps { is_plain self.new ≡ true → LeavesByGate slot result self.old self.new }
    {
        match self.end_bias(queue, slot) {
            Some(put) => put,
            None => Put::NotLast,
        }
    }

    /// Leaves and keeps the reference: parks the pass of a plain tag that is in, unless the queue is frozen. Returns whether it is biased.
    /// If it isn't, call [`BiasedTag::end_bias`].
    pub fn park(&mut self, queue: &BlockQueue, slot: u32) -> bool
        requires own { queue_of self.old ≡ queue.now }
        requires slot { slot < queue.now.gate.slots }
        requires unbiased { is_plain self.old ≡ true }
        requires entered { in_now self.old ≡ true }
        ensures own { queue_of self.new ≡ queue_of self.old }
        ensures limits { self.new.limits ≡ self.old.limits }
        ensures biased { result ≡ true → stage self.new ≡ stages.Idle }
        ensures over { result ≡ false → stage self.new ≡ stages.Unbiased ⊎ stage self.new ≡ stages.Over }
        ensures back { is_plain self.new ≡ true → self.new ≡ loading self.new.bias.view.bias self.old }
        ensures parks { is_plain self.new ≡ false → ParksAt (if result then stages.Idle else stages.Over) slot self.old self.new }
    {
        let Some(pass) = self.pass.take() else {
            return false;
        };
        queue.count_parked();
        match self.lane.park(&queue.lanes, ParkedPass { pass, slot }) {
            Ok(biased) => biased,
            Err(parked) => {
                queue.count_back();
                self.pass = Some(parked.pass);
                false
            }
        }
    }

    /// Ends the bias of a tag that has no request in by its lane. If it is entered at the gate, it leaves. Returns the put, or `None`
    /// if the freezer has the reference in hand: then the tag counts as left, and the caller has to call again.
    pub fn end_bias(&mut self, queue: &BlockQueue, slot: u32) -> Option<Put>
        requires own { queue_of self.old ≡ queue.now }
        requires slot { slot < queue.now.gate.slots }
        requires out { not_in_lane (stage self.old) ≡ true }
        ensures own { queue_of self.new ≡ queue_of self.old }
        ensures out { in_now self.new ≡ false }
        ensures in_hand { result ≡ None → (is_plain self.old ≡ false) × (self.new ≡ at_stage stages.Parked self.old) }
        ensures steps { IfSome result (λ put. LeavesByGate slot put self.old self.new) }
    {
        if !take_out(&mut self.lane, &mut self.pass, queue) {
            return None;
        }
        let pass = self.pass.as_mut()?;
        Some(put_once(pass, &queue.gate, slot))
    }

    /// Returns the tag without a bias, or this one if its bias hasn't ended.
    pub fn into_tag(self) -> Result<Tag, BiasedTag>
        ensures ended { is_ok result ≡ is_plain self }
        ensures tag { IfOk result (IsPlainTag self) }
        ensures same { IfErr result (λ t. t ≡ self) }
    {
        let BiasedTag {
            lane,
            pass,
            limits,
            hardware,
        } = self;
        match pass {
            Some(pass) => Ok(Tag::of_parts(pass, hardware, lane)),
            None => Err(BiasedTag {
                lane,
                pass: None,
                limits,
                hardware,
            }),
        }
    }
}
