//! Switching a gate between its two modes, and the steps of a kill that close and collect the slots.
ghost use Rattle.std.specs.Prelude.{◌≡◌, IfOk, IfErr};
ghost use Rattle.percpu_core.specs.Phases.{next_slot};
ghost use Rattle.percpu_words.specs.SlotWord.{IsDelta};
ghost use Rattle.percpu_core.specs.declared.phase.Phase.TheVariants as phases;
ghost use Rattle.percpu_words.specs.declared.mode.Mode.TheVariants as modes;
ghost use Rattle.percpu_gate.specs.Seats.{FindsDelta};
ghost use Rattle.percpu_gate.specs.ControlCalls.{fault_of, switch_refusal, HasSlotToClose, HasClosedAll, after_moving, after_close, after_collect, after_switch};

use super::Control;
use crate::control_fault::ControlFault;
use crate::gate::Gate;
use percpu_core::Phase;
use percpu_words::Mode;

impl<const W: usize> Control<W> {
    /// Closes the next slot of a kill. Returns its delta: the references taken on it less those given back on it.
    pub fn close_next(&mut self, gate: &Gate<W>) -> i64
        requires own { self.old.gate ≡ gate.now }
        requires closing { HasSlotToClose self.old.view.standing.phase gate.now.slots }
        ensures view { self.new ≡ after_moving 1 (after_close result self.old.view) self.old }
        ensures found { FindsDelta gate.now (next_slot self.old.view.standing.phase) self.old.view result }
        ensures small { IsDelta result }
    {
        let Phase::Closing(slot) = self.phase else {
            unreachable!();
        };
        let delta = self.seat.close_next(&gate.table, slot);
        self.uncollected += delta;
        self.phase = Phase::Closing(slot + 1);
        delta
    }

    /// Collects a kill: adds the sum of the closed deltas to the shared word and removes the bias, in one step.
    pub fn collect(&mut self, gate: &Gate<W>)
        requires own { self.old.gate ≡ gate.now }
        requires closed { HasClosedAll self.old.view.standing.phase gate.now.slots }
        ensures view { self.new ≡ record self.old { view = after_collect self.old.view } }
        ensures phase { self.new.view.standing.phase ≡ phases.Collected }
    {
        self.seat.collect_sum(&gate.table, self.uncollected);
        self.uncollected = 0;
        self.phase = Phase::Collected;
    }

    /// Why a switch would be refused now.
    fn refuse_mid_switch(&self) -> Result<(), ControlFault>
        ensures refused { fault_of result ≡ switch_refusal self.now.view.standing.phase }
    {
        if self.phase.is_mid_switch() {
            Err(ControlFault::MidSwitch)
        } else {
            Ok(())
        }
    }

    /// Counts on the shared word alone from now on; if the gate is dead, once it is revived. Refuses with MidSwitch.
    /// Linux: `percpu_ref_switch_to_atomic_sync` (lib/percpu-refcount.c).
    pub fn switch_to_atomic(&mut self, gate: &Gate<W>) -> Result<(), ControlFault>
        requires own { self.old.gate ≡ gate.now }
        ensures refused { fault_of result ≡ switch_refusal self.old.view.standing.phase }
        ensures unchanged { IfErr result (λ why. self.new ≡ self.old) }
        ensures switched { IfOk result (λ _. self.new ≡ after_switch modes.Atomic self.old) }
    {
        self.refuse_mid_switch()?;
        if self.phase == Phase::LiveSlots {
            self.seat.gather(&gate.table);
            self.phase = Phase::LiveAtomic;
        }
        self.wants = Mode::Atomic;
        Ok(())
    }

    /// Counts on slots from now on; if the gate is dead, once it is revived. Refuses with MidSwitch. Linux:
    /// `percpu_ref_switch_to_percpu` (lib/percpu-refcount.c).
    pub fn switch_to_slots(&mut self, gate: &Gate<W>) -> Result<(), ControlFault>
        requires own { self.old.gate ≡ gate.now }
        ensures refused { fault_of result ≡ switch_refusal self.old.view.standing.phase }
        ensures unchanged { IfErr result (λ why. self.new ≡ self.old) }
        ensures switched { IfOk result (λ _. self.new ≡ after_switch modes.Slots self.old) }
    {
        self.refuse_mid_switch()?;
        if self.phase == Phase::LiveAtomic {
            self.seat.open_all(&gate.table);
            self.phase = Phase::LiveSlots;
        }
        self.wants = Mode::Slots;
        Ok(())
    }
}
