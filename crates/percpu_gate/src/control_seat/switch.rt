//! The control's steps of a switch: closing slots and collecting, and adding the bias and opening them.
ghost use Rattle.std.specs.Prelude.{◌≡◌, ◌+◌, ◌*◌, ◌<◌, ◌≤◌, pos, ◌-ℤ◌, None, true, false, unwrap_or, unsigned_abs};
ghost use Rattle.percpu_words.specs.SharedWord.{bias};
ghost use Rattle.percpu_words.specs.SlotWord.{IsDelta, most_delta};
ghost use Rattle.percpu_core.specs.declared.limits.TheConstants.{SLOT_LIMIT};
ghost use Rattle.percpu_core.specs.declared.phase.Phase.TheVariants.{LiveSlots, LiveAtomic};
ghost use Rattle.percpu_core.specs.declared.control_event.ControlEvent.TheVariants as events;
ghost use Rattle.percpu_core.specs.declared.reply.Reply.TheVariants.{Collected, Done};
ghost use Rattle.percpu_core.specs.Machine.{IsEnabled};
ghost use Rattle.percpu_core.specs.Phases.{next_slot};
ghost use Rattle.percpu_core.specs.ControlSteps.{hinders_control, has_slot_to_close, has_closed_all};
ghost use Rattle.percpu_gate.specs.Seats.{ControlStep, FindsDelta, facts_of};
ghost use Rattle.percpu_gate.specs.ControlCalls.{standing, after_close, after_closing, after_collect, after_gathering, in_phase};
ghost use Rattle.percpu_gate.specs.Rule.{sizes_at};

use super::ControlSeat;
use crate::control_plays::{AddsBias, ClosesSlot, Collects, OpensSlot};
use crate::table::{GateTable, SHARED, place_of};
use percpu_words::{BIAS, CLOSED, slot_delta, slot_word};

impl ControlSeat {
    /// The step `Close`: closes the next slot. Returns its delta, or `None` if it was closed, which the laws exclude.
    pub(crate) fn close_slot(&mut self, gate: &GateTable, slot: u32) -> Option<i64>
        requires own { self.old.gate ≡ facts_of gate.now }
        requires next { slot ≡ next_slot self.old.view.standing.phase }
        requires there { slot < gate.now.key.slots }
        requires enabled { IsEnabled (hinders_control (sizes_at gate.now.key) true None self.old.view.standing events.Close) }
        ensures own { self.new.gate ≡ self.old.gate }
        ensures step { ControlStep (facts_of gate.now) events.Close self.old.view self.new.view (Collected (unwrap_or result (pos 0))) }
        ensures moves { self.new.moves ≡ self.old.moves + 1 }
    {
        let place = place_of(slot);
        let found = gate
            .table
            .shared
            .swap::<ClosesSlot>(&mut self.seat, place, CLOSED);
        slot_delta(found)
    }

    /// Adds the sum of the closed deltas to the shared word, and removes the bias, in one step: `less` is the bias
    /// less the sum.
    pub(crate) fn collect(&mut self, gate: &GateTable, less: u64)
        requires own { self.old.gate ≡ facts_of gate.now }
        requires less { pos less ≡ pos bias -ℤ self.old.view.standing.uncollected }
        requires enabled { IsEnabled (hinders_control (sizes_at gate.now.key) true None self.old.view.standing events.Collect) }
        ensures own { self.new.gate ≡ self.old.gate }
        ensures step { ControlStep (facts_of gate.now) events.Collect self.old.view self.new.view Done }
        ensures moves { self.new.moves ≡ self.old.moves }
    {
        let shared = &gate.table.shared;
        shared.fetch_sub::<Collects>(&mut self.seat, SHARED, less);
    }

    /// Adds the bias to the shared word.
    pub(crate) fn add_bias(&mut self, gate: &GateTable)
        requires own { self.old.gate ≡ facts_of gate.now }
        requires enabled { IsEnabled (hinders_control (sizes_at gate.now.key) true None self.old.view.standing events.AddBias) }
        ensures own { self.new.gate ≡ self.old.gate }
        ensures step { ControlStep (facts_of gate.now) events.AddBias self.old.view self.new.view Done }
        ensures moves { self.new.moves ≡ self.old.moves }
    {
        let shared = &gate.table.shared;
        shared.fetch_add::<AddsBias>(&mut self.seat, SHARED, BIAS);
    }

    /// Opens the next slot, at 0.
    pub(crate) fn open_slot(&mut self, gate: &GateTable, slot: u32)
        requires own { self.old.gate ≡ facts_of gate.now }
        requires next { slot ≡ next_slot self.old.view.standing.phase }
        requires there { slot < gate.now.key.slots }
        requires enabled { IsEnabled (hinders_control (sizes_at gate.now.key) true None self.old.view.standing events.OpenNext) }
        ensures own { self.new.gate ≡ self.old.gate }
        ensures step { ControlStep (facts_of gate.now) events.OpenNext self.old.view self.new.view Done }
        ensures moves { self.new.moves ≡ self.old.moves + 1 }
    {
        let place = place_of(slot);
        let word = slot_word(0);
        gate.table
            .shared
            .store::<OpensSlot>(&mut self.seat, place, word);
    }

    /// Closes the next slot, which the laws say is open. Returns its delta.
    pub(crate) fn close_next(&mut self, gate: &GateTable, slot: u32) -> i64
        requires own { self.old.gate ≡ facts_of gate.now }
        requires next { slot ≡ next_slot self.old.view.standing.phase }
        requires there { slot < gate.now.key.slots }
        requires turn { has_slot_to_close gate.now.key.slots self.old.view.standing.phase ≡ true }
        requires unmarked { self.old.view.standing.to_mark ≡ false }
        ensures view { self.new ≡ record self.old { view = after_close result self.old.view; moves = self.old.moves + 1 } }
        ensures found { FindsDelta (facts_of gate.now) slot self.old.view result }
        ensures small { IsDelta result }
    {
        self.close_slot(gate, slot).unwrap_or(0)
    }

    /// Closes every slot, from the first on. Returns the sum of their deltas.
    pub(crate) fn close_all(&mut self, gate: &GateTable) -> i64
        requires own { self.old.gate ≡ facts_of gate.now }
        requires first { next_slot self.old.view.standing.phase ≡ 0 }
        requires turn { 1 ≤ gate.now.key.slots → has_slot_to_close gate.now.key.slots self.old.view.standing.phase ≡ true }
        requires none { self.old.view.standing.uncollected ≡ pos 0 }
        requires unmarked { self.old.view.standing.to_mark ≡ false }
        ensures view { self.new ≡ record self.old { view = after_closing gate.now.key.slots result self.old.view; moves = self.old.moves + gate.now.key.slots } }
        ensures small { unsigned_abs result ≤ most_delta * gate.now.key.slots }
        ensures slots { (1 ≤ gate.now.key.slots) × (gate.now.key.slots ≤ SLOT_LIMIT) }
    {
        let mut sum = 0;
        for slot in 0..gate.slots() {
            sum += self.close_next(gate, slot);
        }
        sum
    }

    /// Collects the slots, all of which are closed, given the sum of their deltas.
    pub(crate) fn collect_sum(&mut self, gate: &GateTable, sum: i64)
        requires own { self.old.gate ≡ facts_of gate.now }
        requires closed { has_closed_all gate.now.key.slots self.old.view.standing.phase ≡ true }
        requires sum { self.old.view.standing.uncollected ≡ sum }
        requires small { unsigned_abs sum ≤ most_delta * SLOT_LIMIT }
        requires unmarked { self.old.view.standing.to_mark ≡ false }
        ensures view { self.new ≡ record self.old { view = after_collect self.old.view } }
    {
        let less = (BIAS as i64 - sum) as u64;
        self.collect(gate, less);
    }

    /// Closes every slot and collects them: the middle of a kill, or a whole switch to the shared word.
    pub(crate) fn gather(&mut self, gate: &GateTable)
        requires own { self.old.gate ≡ facts_of gate.now }
        requires first { next_slot self.old.view.standing.phase ≡ 0 }
        requires turn { 1 ≤ gate.now.key.slots → has_slot_to_close gate.now.key.slots self.old.view.standing.phase ≡ true }
        requires stands { self.old.view.standing ≡ standing self.old.view.standing.phase self.old.view.standing.kills }
        ensures view { self.new ≡ record self.old { view = after_gathering self.old.view; moves = self.old.moves + gate.now.key.slots } }
    {
        let sum = self.close_all(gate);
        self.collect_sum(gate, sum);
    }

    /// Adds the bias and opens every slot, from the first on.
    pub(crate) fn open_all(&mut self, gate: &GateTable)
        requires own { self.old.gate ≡ facts_of gate.now }
        requires live { self.old.view.standing.phase ≡ LiveAtomic }
        requires unmarked { self.old.view.standing.to_mark ≡ false }
        ensures view { self.new ≡ record self.old { view = in_phase LiveSlots self.old.view; moves = self.old.moves + gate.now.key.slots } }
    {
        self.add_bias(gate);
        for slot in 0..gate.slots() {
            self.open_slot(gate, slot);
        }
    }
}
