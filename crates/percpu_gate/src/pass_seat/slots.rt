//! Counting on a slot: a look, and an exchange if the slot is open and has room.
ghost use Rattle.std.specs.Prelude.{◌≡◌, ◌∷◌, ◌*◌, ◌+◌, ◌-◌, ◌<◌, ◌≤◌, pos, ◌+ℤ◌, ◌-ℤ◌, IfSome, if◌then◌else◌};
ghost use Rattle.percpu_words.specs.SlotWord.{IsDelta, delta_spelling};
ghost use Rattle.percpu_core.specs.declared.limits.TheConstants.{HELD_LIMIT, KILL_LIMIT};
ghost use Rattle.percpu_core.specs.declared.pass_event.PassEvent.TheVariants as events;
ghost use Rattle.percpu_core.specs.declared.pass_standing.Pending.TheVariants.{Nothing};
ghost use Rattle.percpu_core.specs.Machine.{IsEnabled};
ghost use Rattle.percpu_core.specs.PassSteps.{hinders_pass};
ghost use Rattle.percpu_gate.specs.Rule.{sizes_at};
ghost use Rattle.percpu_gate.specs.Seats.{facts_of, PassStep, looked, exchanged, tried};
ghost use Rattle.percpu_gate.specs.Calls.{holding, after_put, GetLeaves};
ghost use Rattle.percpu_gate.specs.Counts.{SlotTake, TryCounts, LiveCounts};
ghost use Rattle.percpu_gate.specs.Steps.{TakeOnSlot, GiveOnSlot, TryAddsOnce, GetSteps, PutSteps};

use super::PassSeat;
use crate::plays::{GivesOnSlot, LooksAtSlot, TakesOnSlot};
use crate::table::{GateTable, place_of};
use crate::tried::Put;
use percpu_words::{DELTA_MAX, slot_delta, slot_word};

/// The word of a slot that counts `n` more than `seen`.
#[inline]
fn word_of_more(seen: i64, n: u32) -> u64
    requires deltas { IsDelta seen × IsDelta (seen +ℤ pos n) }
    ensures { result ≡ delta_spelling (seen +ℤ pos n) }
{
    slot_word(seen + i64::from(n))
}

/// The word of a slot that counts `n` fewer than `seen`.
#[inline]
fn word_of_fewer(seen: i64, n: u32) -> u64
    requires deltas { IsDelta seen × IsDelta (seen -ℤ pos n) }
    ensures { result ≡ delta_spelling (seen -ℤ pos n) }
{
    slot_word(seen - i64::from(n))
}

impl PassSeat {
    /// Looks at a slot. Returns its delta, or `None` if it is closed.
    #[inline]
    pub(crate) fn look_at_slot(&mut self, gate: &GateTable, slot: u32) -> Option<i64>
        requires own { self.old.gate ≡ facts_of gate.now }
        requires enabled { IsEnabled (hinders_pass (sizes_at gate.now.key) self.old.view.standing (events.Look slot)) }
        ensures own { self.new.gate ≡ self.old.gate }
        ensures step { PassStep (facts_of gate.now) (events.Look slot) self.old.view self.new.view (looked result) }
        ensures steps { self.new.steps ≡ (events.Look slot, looked result) ∷ self.old.steps }
        ensures small { IfSome result IsDelta }
    {
        let place = place_of(slot);
        slot_delta(gate.table.shared.load::<LooksAtSlot>(&mut self.seat, place))
    }

    /// Exchanges the delta that was seen for that delta plus `n`. Returns whether the exchange was won.
    #[inline]
    pub(crate) fn take_on_slot(&mut self, gate: &GateTable, slot: u32, seen: i64, n: u32) -> bool
        requires own { self.old.gate ≡ facts_of gate.now }
        requires enabled { IsEnabled (hinders_pass (sizes_at gate.now.key) self.old.view.standing (events.Take slot seen n)) }
        ensures own { self.new.gate ≡ self.old.gate }
        ensures step { PassStep (facts_of gate.now) (events.Take slot seen n) self.old.view self.new.view (exchanged result) }
        ensures steps { self.new.steps ≡ (events.Take slot seen n, exchanged result) ∷ self.old.steps }
    {
        let place = place_of(slot);
        let expected = slot_word(seen);
        let wanted = word_of_more(seen, n);
        let shared = &gate.table.shared;
        let found = shared.compare_exchange::<TakesOnSlot>(&mut self.seat, place, expected, wanted);
        found == expected
    }

    /// Exchanges the delta that was seen for that delta minus `n`. Returns whether the exchange was won.
    #[inline]
    pub(crate) fn give_on_slot(&mut self, gate: &GateTable, slot: u32, seen: i64, n: u32) -> bool
        requires own { self.old.gate ≡ facts_of gate.now }
        requires enabled { IsEnabled (hinders_pass (sizes_at gate.now.key) self.old.view.standing (events.Give slot seen n)) }
        ensures own { self.new.gate ≡ self.old.gate }
        ensures step { PassStep (facts_of gate.now) (events.Give slot seen n) self.old.view self.new.view (exchanged result) }
        ensures steps { self.new.steps ≡ (events.Give slot seen n, exchanged result) ∷ self.old.steps }
    {
        let place = place_of(slot);
        let expected = slot_word(seen);
        let wanted = word_of_fewer(seen, n);
        let shared = &gate.table.shared;
        let found = shared.compare_exchange::<GivesOnSlot>(&mut self.seat, place, expected, wanted);
        found == expected
    }

    /// Takes `n` references on a slot: a look, and one exchange if the slot is open and the delta stays within its
    /// limit. Returns whether it won.
    #[inline]
    pub(crate) fn take_if_open(&mut self, gate: &GateTable, slot: u32, n: u32) -> bool
        requires own { self.old.gate ≡ facts_of gate.now }
        requires slot { slot < gate.now.key.slots }
        requires idle { self.old.view.standing.pending ≡ Nothing }
        requires amount { 1 ≤ n }
        requires held { 2 ≤ n → 1 ≤ self.old.view.standing.held }
        requires room { self.old.view.standing.held + n ≤ HELD_LIMIT }
        ensures own { self.new.gate ≡ self.old.gate }
        ensures takes { SlotTake (facts_of gate.now) slot n self.old.view self.new.view result }
        ensures steps { TakeOnSlot slot n self.old.steps self.new.steps result }
    {
        let Some(seen) = self.look_at_slot(gate, slot) else {
            return false;
        };
        if seen + i64::from(n) > DELTA_MAX {
            return false;
        }
        self.take_on_slot(gate, slot, seen, n)
    }

    /// Drops `n` references on a slot: a look, and one exchange if the slot is open and the delta stays within its
    /// limit. Returns whether it won; otherwise nothing was dropped.
    #[inline]
    pub(crate) fn give_if_open(&mut self, gate: &GateTable, slot: u32, n: u32) -> bool
        requires own { self.old.gate ≡ facts_of gate.now }
        requires slot { slot < gate.now.key.slots }
        requires idle { self.old.view.standing.pending ≡ Nothing }
        requires amount { 1 ≤ n }
        requires held { n ≤ self.old.view.standing.held }
        ensures own { self.new.gate ≡ self.old.gate }
        ensures view { self.new.view ≡ (if result then record self.old.view { standing = holding (self.old.view.standing.held - n) } else self.old.view) }
        ensures steps { GiveOnSlot slot n self.old.steps self.new.steps result }
    {
        let Some(seen) = self.look_at_slot(gate, slot) else {
            return false;
        };
        if seen - i64::from(n) < -DELTA_MAX {
            return false;
        }
        self.give_on_slot(gate, slot, seen, n)
    }

    /// Counts for `try_get`: on the slot, or else on the shared word. Returns whether the reference was taken.
    #[inline]
    pub(crate) fn count_try(&mut self, gate: &GateTable, slot: u32) -> bool
        requires own { self.old.gate ≡ facts_of gate.now }
        requires slot { slot < gate.now.key.slots }
        requires idle { self.old.view.standing.pending ≡ Nothing }
        requires room { self.old.view.standing.held < HELD_LIMIT }
        ensures own { self.new.gate ≡ self.old.gate }
        ensures counts { TryCounts (facts_of gate.now) self.old.view self.new.view result }
        ensures steps { TryAddsOnce events.AddTry slot result self.old.steps self.new.steps }
    {
        if self.take_if_open(gate, slot, 1) {
            return true;
        }
        self.add_try(gate)
    }

    /// Counts for `try_get_live`: on the slot, or else on the shared word. Returns whether the reference was taken.
    #[inline]
    pub(crate) fn count_live(&mut self, gate: &GateTable, slot: u32) -> bool
        requires own { self.old.gate ≡ facts_of gate.now }
        requires slot { slot < gate.now.key.slots }
        requires idle { self.old.view.standing.pending ≡ Nothing }
        requires room { self.old.view.standing.held < HELD_LIMIT }
        ensures own { self.new.gate ≡ self.old.gate }
        ensures counts { LiveCounts (facts_of gate.now) slot self.old.view self.new.view result }
        ensures steps { TryAddsOnce events.AddLive slot result self.old.steps self.new.steps }
    {
        if self.take_if_open(gate, slot, 1) {
            return true;
        }
        self.add_live(gate)
    }

    /// Takes `n` more references of a pass that holds one: on the slot, or else on the shared word.
    #[inline]
    pub(crate) fn count_get(&mut self, gate: &GateTable, slot: u32, n: u32)
        requires own { self.old.gate ≡ facts_of gate.now }
        requires slot { slot < gate.now.key.slots }
        requires idle { self.old.view.standing.pending ≡ Nothing }
        requires amount { 1 ≤ n }
        requires held { 1 ≤ self.old.view.standing.held }
        requires room { self.old.view.standing.held + n ≤ HELD_LIMIT }
        ensures own { self.new.gate ≡ self.old.gate }
        ensures leaves { GetLeaves self.old.view self.new.view n }
        ensures steps { GetSteps slot n self.old.steps self.new.steps }
    {
        if !self.take_if_open(gate, slot, n) {
            self.add_get(gate, n);
        }
    }

    /// Drops `n` references that the pass holds: on the slot, or else on the shared word.
    #[inline]
    pub(crate) fn count_put(&mut self, gate: &GateTable, slot: u32, n: u32) -> Put
        requires own { self.old.gate ≡ facts_of gate.now }
        requires slot { slot < gate.now.key.slots }
        requires idle { self.old.view.standing.pending ≡ Nothing }
        requires amount { 1 ≤ n }
        requires held { n ≤ self.old.view.standing.held }
        requires few { self.old.view.releases ≤ 2 * KILL_LIMIT }
        ensures view { self.new ≡ record self.old { view = after_put result (self.old.view.standing.held - n) self.old.view; steps = self.new.steps } }
        ensures steps { PutSteps slot n result self.old.steps self.new.steps }
        ensures few { self.new.view.releases ≤ 2 * KILL_LIMIT }
    {
        if self.give_if_open(gate, slot, n) {
            return Put::NotLast;
        }
        self.drop_held(gate, n)
    }
}
