//! The event of the core's machine that each atomic step of the control was.
ghost use Rattle.std.specs.Prelude.{◌-◌};
ghost use Rattle.percpu_core.specs.declared.control_event.ControlEvent.TheVariants as events;
ghost use Rattle.percpu_gate.specs.Layout.{slot_of};
ghost use Rattle.percpu_gate.specs.Rule.{Took, slot_number, control_after, with_a_pass, fresh_seat, with_taken_in, spent_seat, shared_number, next_front_number};

use crate::rule::SeatView;
use atomic_table::{Join, Play, Split};

pub(crate) struct MakesPass;

impl Split<SeatView> for MakesPass {
    ghost left = { with_a_pass };

    ghost right = { fresh_seat };
}

pub(crate) struct TakesIn;

impl Join<SeatView> for TakesIn {
    ghost both = { with_taken_in };

    ghost spent = { spent_seat };
}

pub(crate) struct SetsDead;

impl Play<(), SeatView> for SetsDead {
    ghost then = { λ s. Took (control_after events.MarkDead) shared_number };
}

pub(crate) struct Confirms;

impl Play<(), SeatView> for Confirms {
    ghost then = { λ s. Took (control_after events.Confirm) next_front_number };
}

pub(crate) struct DropsBase;

impl Play<(), SeatView> for DropsBase {
    ghost then = { λ s. Took (control_after events.DropBase) shared_number };
}

pub(crate) struct MarksZero;

impl Play<(), SeatView> for MarksZero {
    ghost then = { λ s. Took (control_after events.Mark) shared_number };
}

pub(crate) struct TakesBase;

impl Play<(), SeatView> for TakesBase {
    ghost then = { λ s. Took (control_after events.TakeBase) shared_number };
}

pub(crate) struct StoresNextFront;

impl Play<(), SeatView> for StoresNextFront {
    ghost then = { λ s. Took (control_after events.NextFront) next_front_number };
}

pub(crate) struct ClearsDead;

impl Play<(), SeatView> for ClearsDead {
    ghost then = { λ s. Took (control_after events.ClearDead) shared_number };
}

pub(crate) struct StoresWord;

impl Play<(), SeatView> for StoresWord {
    ghost then = { λ s. Took (control_after (events.StoreWord (s.word - 33) s.first)) (λ _. s.first) };
}

pub(crate) struct LooksAtMarks;

impl Play<(), SeatView> for LooksAtMarks {
    ghost then = { λ s. Took (control_after events.LookShared) shared_number };
}

pub(crate) struct ClosesSlot;

impl Play<(), SeatView> for ClosesSlot {
    ghost then = { λ s. Took (control_after events.Close) (slot_number (slot_of s.word)) };
}

pub(crate) struct Collects;

impl Play<(), SeatView> for Collects {
    ghost then = { λ s. Took (control_after events.Collect) shared_number };
}

pub(crate) struct AddsBias;

impl Play<(), SeatView> for AddsBias {
    ghost then = { λ s. Took (control_after events.AddBias) shared_number };
}

pub(crate) struct OpensSlot;

impl Play<(), SeatView> for OpensSlot {
    ghost then = { λ s. Took (control_after events.OpenNext) (λ _. s.first) };
}
