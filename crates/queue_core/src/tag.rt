//! A tag: the right to have one request in flight.
ghost use Rattle.std.specs.Prelude.{◌≡◌, ◌≤◌, true, false, None};
ghost use Rattle.percpu_gate.specs.Seats.{fresh_pass};
ghost use Rattle.bias_lanes.specs.declared.views.Stage.TheVariants.{Unbiased};
ghost use Rattle.percpu_gate.specs.Steps.{LookSteps};
ghost use Rattle.queue_core.specs.Queue.{first_tag, come_to};
ghost use Rattle.queue_core.specs.Readings.{IsTag, tag_facts};
ghost use Rattle.queue_core.specs.Staying.{after_asking_to_stay, FindsDead};

use crate::limit_words::LIMIT_WORDS;
use crate::parked::ParkedPass;
use bias_lanes::Lane;
use percpu_gate::{Gate, Pass, Put};
use std::marker::Model;

/// The result of an attempt to enter.
#[derive(Clone, Copy, Debug, PartialEq, Eq)]
pub enum Entry {
    /// The tag is entered, until it leaves.
    Entered,
    /// The tag isn't entered. The failed try held a reference briefly; this is the result of dropping it. If it is
    /// `Last`, the queue is drained, and the freezer has to be woken.
    Refused(Put),
}

/// The result of `stay`.
#[derive(Clone, Copy, Debug, PartialEq, Eq)]
pub enum Stay {
    /// The queue is live. The tag is still entered, with the same limits.
    Stayed,
    /// The queue is frozen, so the tag has left; this is the result of dropping its reference. If it is `Last`, the
    /// queue is drained, and the freezer has to be woken.
    Left(Put),
}

/// The right to have one request in flight in one queue. Linux: a request's tag (block/blk-mq-tag.c).
///
/// It moves between threads with its request. Leaking an entered tag keeps the queue from draining forever.
#[derive(Drop)]
pub struct Tag {
    pub(crate) pass: Pass<LIMIT_WORDS>,
    hardware: u32,
    /// By which it enters while it is biased.
    lane: Lane<ParkedPass, Gate<LIMIT_WORDS>>,
}

impl Model for Tag {
    ghost use Rattle.std.specs.Prelude.{◌≡◌, ◌≤◌};
    ghost use Rattle.bias_lanes.specs.declared.views.Stage.TheVariants.{Unbiased};
    ghost use Rattle.queue_core.specs.Queue.{TagFacts};

    ghost Value = { TagFacts };

    ghost use Rattle.queue_core.specs.Readings.{tag_facts};

    ghost view = { λ t. tag_facts t.pass t.hardware t.lane.lanes };

    ghost invariant = { λ t. (t.pass.view.standing.held ≤ 1) × (t.lane.view.stage ≡ Unbiased) × (t.lane.lanes.key ≡ t.pass.gate) };
}

impl Tag {
    /// A tag that hasn't entered.
    pub(crate) fn new(
        pass: Pass<LIMIT_WORDS>,
        hardware: u32,
        lane: Lane<ParkedPass, Gate<LIMIT_WORDS>>,
    ) -> Tag
        requires fresh { pass ≡ fresh_pass pass.gate }
        requires unbiased { lane.view.stage ≡ Unbiased }
        requires key { lane.lanes.key ≡ pass.gate }
        ensures { result ≡ first_tag (record { gate = pass.gate; hardware = hardware; lanes = lane.lanes }) }
    {
        Tag {
            pass,
            hardware,
            lane,
        }
    }

    /// Whether the tag has entered its queue and not left.
    #[inline]
    pub fn entered(&self) -> bool
        ensures value { result ≡ self.now.entered }
        ensures kept { IsTag self.now }
        ensures told { result ≡ false → self.now.limits ≡ None }
    {
        self.pass.held() == 1
    }

    /// Whether one load finds the gate killed and not revived yet.
    #[inline]
    pub(crate) fn is_dying(&mut self, gate: &Gate<LIMIT_WORDS>) -> bool
        requires own { self.old.queue.gate ≡ gate.now }
        requires entered { self.old.entered ≡ true }
        ensures looked { self.new ≡ come_to self.new.steps (after_asking_to_stay result self.old) }
        ensures steps { LookSteps (λ s. s.dead) result self.old.steps self.new.steps }
        ensures finds { FindsDead gate.now self.old.seat result }
    {
        self.pass.is_dying(gate)
    }

    /// The parts of a tag.
    pub(crate) fn into_parts(self) -> (Pass<LIMIT_WORDS>, u32, Lane<ParkedPass, Gate<LIMIT_WORDS>>)
        ensures facts { self ≡ tag_facts result.0 result.1 result.2.lanes }
        ensures pass { result.0.view.standing.held ≤ 1 }
        ensures lane { result.2.view.stage ≡ Unbiased }
        ensures key { result.2.lanes.key ≡ result.0.gate }
    {
        (self.pass, self.hardware, self.lane)
    }

    /// A tag of these parts.
    pub(crate) fn of_parts(
        pass: Pass<LIMIT_WORDS>,
        hardware: u32,
        lane: Lane<ParkedPass, Gate<LIMIT_WORDS>>,
    ) -> Tag
        requires one { pass.view.standing.held ≤ 1 }
        requires unbiased { lane.view.stage ≡ Unbiased }
        requires key { lane.lanes.key ≡ pass.gate }
        ensures { result ≡ tag_facts pass hardware lane.lanes }
    {
        Tag {
            pass,
            hardware,
            lane,
        }
    }

    /// The pass of a tag that ends.
    pub(crate) fn into_pass(self) -> Pass<LIMIT_WORDS>
        ensures own { result.gate ≡ self.queue.gate }
        ensures seat { result.view ≡ self.seat }
        ensures releases { result.view.releases ≡ self.releases }
        ensures out { self.entered ≡ false → result.view.standing.held ≡ 0 }
    {
        self.pass
    }
}
