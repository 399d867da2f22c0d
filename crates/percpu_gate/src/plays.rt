//! The event of the core's machine that each atomic step of a pass was.
ghost use Rattle.std.specs.Prelude.{◌-◌};
ghost use Rattle.percpu_core.specs.declared.pass_event.PassEvent.TheVariants as events;
ghost use Rattle.percpu_gate.specs.Layout.{slot_of};
ghost use Rattle.percpu_gate.specs.Rule.{Took, pass_after, shared_number, front_number, guarded_number, slot_number, delta_told};

use crate::rule::SeatView;
use atomic_table::Play;

pub(crate) struct AddsTry;

impl Play<(), SeatView> for AddsTry {
    ghost then = { λ s. Took (pass_after events.AddTry) shared_number };
}

pub(crate) struct AddsLive;

impl Play<(), SeatView> for AddsLive {
    ghost then = { λ s. Took (pass_after events.AddLive) shared_number };
}

pub(crate) struct AddsGet;

impl Play<(), SeatView> for AddsGet {
    ghost then = { λ s. Took (pass_after (events.AddGet s.first)) shared_number };
}

pub(crate) struct Subtracts;

impl Play<(), SeatView> for Subtracts {
    ghost then = { λ s. Took (pass_after (events.Sub s.first)) shared_number };
}

pub(crate) struct Undoes;

impl Play<(), SeatView> for Undoes {
    ghost then = { λ s. Took (pass_after events.Undo) shared_number };
}

pub(crate) struct Marks;

impl Play<(), SeatView> for Marks {
    ghost then = { λ s. Took (pass_after events.Mark) shared_number };
}

pub(crate) struct Looks;

impl Play<(), SeatView> for Looks {
    ghost then = { λ s. Took (pass_after events.LookShared) shared_number };
}

pub(crate) struct LoadsFront;

impl Play<(), SeatView> for LoadsFront {
    ghost then = { λ s. Took (pass_after events.LoadFront) front_number };
}

pub(crate) struct LoadsWord;

impl Play<(), SeatView> for LoadsWord {
    ghost then = { λ s. Took (pass_after (events.LoadWord (s.word - 33))) (guarded_number (s.word - 33)) };
}

pub(crate) struct LooksAtSlot;

impl Play<(), SeatView> for LooksAtSlot {
    ghost then = { λ s. Took (pass_after (events.Look (slot_of s.word))) (slot_number (slot_of s.word)) };
}

pub(crate) struct TakesOnSlot;

impl Play<(), SeatView> for TakesOnSlot {
    ghost then = { λ s. Took (pass_after (events.Take (slot_of s.word) (delta_told s.first) (s.second - s.first))) (slot_number (slot_of s.word)) };
}

pub(crate) struct GivesOnSlot;

impl Play<(), SeatView> for GivesOnSlot {
    ghost then = { λ s. Took (pass_after (events.Give (slot_of s.word) (delta_told s.first) (s.first - s.second))) (slot_number (slot_of s.word)) };
}
