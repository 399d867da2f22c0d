//! The state of the control between two of its steps.
ghost use Rattle.std.specs.Prelude.{◌≡◌, ◌<◌, ◌≤◌, ◌^◌, find, unsigned_abs};
ghost use Rattle.percpu_core.specs.ControlSteps as steps;
ghost use Rattle.percpu_core.specs.Machine.{order};
ghost use Rattle.percpu_core.specs.Phases.{next_slot};

use crate::control_event::ControlEvent;
use crate::limits::{KILL_LIMIT, SLOT_LIMIT};
use crate::not_enabled::NotEnabled;
use crate::pass_standing::{PassStanding, Pending};
use crate::phase::Phase;
use crate::reply::Reply;
use crate::sizes::Sizes;

/// The phase, the number of kills so far (including those that the gate started with), whether the control has a zero
/// to mark, and the sum of the deltas that it has closed and not yet collected.
#[derive(Clone, Copy, Debug, PartialEq, Eq)]
pub struct ControlStanding {
    pub phase: Phase,
    pub kills: u64,
    pub to_mark: bool,
    pub uncollected: i64,
}

impl ControlStanding {
    /// Why the step isn't enabled, at a gate of these sizes with ZERO set or clear; `joining` is the pass that is to
    /// join. The order of the tests is part of the result.
    pub(crate) fn refusal(
        self,
        sizes: Sizes,
        zero: bool,
        joining: Option<PassStanding>,
        event: ControlEvent,
    ) -> Option<NotEnabled>
        ensures { result ≡ find (steps.hinders_control sizes zero joining self event) order }
    {
        if names_no_pass(joining, event) {
            Some(NotEnabled::NoSuchActor)
        } else if event.stores_no_word(sizes.words) {
            Some(NotEnabled::NoSuchWord)
        } else if self.must_mark(event) || joins_mid_call(joining, event) {
            Some(NotEnabled::MidCall)
        } else if !self.is_in_turn(sizes.slots, zero, event) {
            Some(NotEnabled::WrongPhase)
        } else if joins_holding(joining, event) {
            Some(NotEnabled::StillHeld)
        } else if self.wears_out(event) {
            Some(NotEnabled::WornOut)
        } else {
            None
        }
    }

    /// Whether a zero has to be marked first.
    fn must_mark(self, event: ControlEvent) -> bool
        ensures { result ≡ steps.must_mark self.to_mark event }
    {
        self.to_mark && !matches!(event, ControlEvent::Mark)
    }

    /// Whether the step belongs to this phase. A guarded word is stored in the phase Dead, with ZERO set.
    fn is_in_turn(self, slots: usize, zero: bool, event: ControlEvent) -> bool
        ensures { result ≡ steps.is_in_turn slots zero self event }
    {
        match event {
            ControlEvent::MarkDead => self.phase.is_live(),
            ControlEvent::Close => self.phase.has_slot_to_close(slots),
            ControlEvent::Collect => self.phase.has_closed_all(slots),
            ControlEvent::Confirm => self.phase == Phase::Collected,
            ControlEvent::DropBase => self.phase == Phase::Confirmed,
            ControlEvent::Mark => self.to_mark,
            ControlEvent::TakeBase => self.phase == Phase::Dead,
            ControlEvent::NextFront => self.phase == Phase::Reviving,
            ControlEvent::ClearDead => self.phase == Phase::Fronted,
            ControlEvent::AddBias => self.phase == Phase::LiveAtomic,
            ControlEvent::OpenNext => matches!(self.phase, Phase::Opening(_)),
            ControlEvent::StoreWord { .. } => self.phase == Phase::Dead && zero,
            ControlEvent::Join(_) | ControlEvent::LookShared => true,
        }
    }

    /// Whether there is no kill left for the step.
    fn wears_out(self, event: ControlEvent) -> bool
        ensures { result ≡ steps.wears_out self.kills event }
    {
        self.kills >= KILL_LIMIT && matches!(event, ControlEvent::MarkDead)
    }

    /// The state of the control after the reply to a step, at a gate with this many slots and DEAD set or clear.
    pub(crate) fn after(
        self,
        event: ControlEvent,
        reply: Reply,
        slots: usize,
        dead: bool,
    ) -> ControlStanding
        requires kills { self.kills < 2 ^ 63 }
        requires place { next_slot self.phase ≤ SLOT_LIMIT }
        requires sum { unsigned_abs self.uncollected ≤ 2 ^ 32 }
        requires delta { unsigned_abs (steps.closed_delta reply) ≤ 2 ^ 32 }
        ensures { result ≡ steps.control_standing_after event reply slots dead self }
    {
        ControlStanding {
            phase: event.phase_after(slots, dead, self.phase),
            kills: match event {
                ControlEvent::MarkDead => self.kills + 1,
                _ => self.kills,
            },
            to_mark: reply == Reply::ToMark,
            uncollected: match event {
                ControlEvent::Close => self.uncollected + reply.closed_delta(),
                ControlEvent::Collect => 0,
                _ => self.uncollected,
            },
        }
    }
}

/// Whether the pass that is to join doesn't exist.
fn names_no_pass(joining: Option<PassStanding>, event: ControlEvent) -> bool
    ensures { result ≡ steps.names_no_pass joining event }
{
    joining.is_none() && matches!(event, ControlEvent::Join(_))
}

/// Whether the pass that is to join still has a pending step.
fn joins_mid_call(joining: Option<PassStanding>, event: ControlEvent) -> bool
    ensures { result ≡ steps.joins_mid_call joining event }
{
    match (joining, event) {
        (Some(pass), ControlEvent::Join(_)) => pass.pending != Pending::Nothing,
        _ => false,
    }
}

/// Whether the pass that is to join still holds a reference.
fn joins_holding(joining: Option<PassStanding>, event: ControlEvent) -> bool
    ensures { result ≡ steps.joins_holding joining event }
{
    match (joining, event) {
        (Some(pass), ControlEvent::Join(_)) => pass.held > 0,
        _ => false,
    }
}
