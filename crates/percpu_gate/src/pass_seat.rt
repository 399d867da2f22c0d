//! The atomic steps of a pass, each of which is one event of the core's machine.
ghost use Rattle.std.specs.Prelude.{◌≡◌, ◌*◌, ◌-◌, ◌≤◌, [], ◌∷◌, not};
ghost use Rattle.percpu_core.specs.declared.limits.TheConstants.{KILL_LIMIT};
ghost use Rattle.percpu_core.specs.declared.pass_event.PassEvent.TheVariants as events;
ghost use Rattle.percpu_core.specs.declared.pass_standing.Pending.TheVariants.{Nothing, OneToUndo};
ghost use Rattle.percpu_core.specs.declared.reply.Reply.TheVariants.{Given, Shared, Number};
ghost use Rattle.percpu_core.specs.declared.view.View.TheVariants.{OfPass};
ghost use Rattle.percpu_core.specs.Machine.{IsEnabled};
ghost use Rattle.percpu_core.specs.PassSteps.{hinders_pass};
ghost use Rattle.percpu_gate.specs.Rule.{sizes_at};
ghost use Rattle.percpu_gate.specs.Seats.{SitsAsPass, facts_of, gate_of, pass_of, PassStep, tried, left, marked};
ghost use Rattle.percpu_gate.specs.Steps.{EndsPut, SubtractsOnce, TakesBack};
ghost use Rattle.percpu_gate.specs.Calls.{after_put, after_try, is_refused, owed, to_take_back};

mod slots;

use crate::plays::{
    AddsGet, AddsLive, AddsTry, LoadsFront, LoadsWord, Looks, Marks, Subtracts, Undoes,
};
use crate::rule::SeatView;
use crate::table::{FIRST_WORD, FRONT, GateTable, SHARED};
use crate::tried::{Put, Tried};
use atomic_table::Seat;
use percpu_words::{DEAD, ZERO, is_dead, is_zero};
use std::marker::Model;

/// A pass's seat at the table of its gate.
#[derive(Drop)]
pub(crate) struct PassSeat {
    seat: Seat<(), SeatView>,
}

impl Model for PassSeat {
    ghost use Rattle.percpu_gate.specs.Seats.{PassFacts, gate_of, pass_of, SitsAsPass};

    ghost Value = { PassFacts };

    ghost view = { λ p. record { gate = gate_of p.seat.table_id p.seat.me.0; view = pass_of p.seat.me.0.view; steps = p.seat.me.0.steps } };

    ghost invariant = { λ p. SitsAsPass p.seat.me };
}

impl PassSeat {
    /// A pass's seat at a table.
    pub(crate) fn of(seat: Seat<(), SeatView>) -> PassSeat
        requires { SitsAsPass seat.me }
        ensures { result ≡ record { gate = gate_of seat.table_id seat.me.0; view = pass_of seat.me.0.view; steps = seat.me.0.steps } }
    {
        PassSeat { seat }
    }

    /// The seat of a pass that ends.
    pub(crate) fn into_seat(self) -> Seat<(), SeatView>
        ensures { (gate_of result.table_id result.me.0 ≡ self.gate) × (result.me ≡ (record result.me.0 { view = OfPass self.view }, [])) }
    {
        self.seat
    }

    /// Adds 1 to the shared word. Returns whether ZERO was clear.
    #[inline]
    pub(crate) fn add_try(&mut self, gate: &GateTable) -> bool
        requires own { self.old.gate ≡ facts_of gate.now }
        requires enabled { IsEnabled (hinders_pass (sizes_at gate.now.key) self.old.view.standing events.AddTry) }
        ensures own { self.new.gate ≡ self.old.gate }
        ensures step { PassStep (facts_of gate.now) events.AddTry self.old.view self.new.view (tried result) }
        ensures steps { self.new.steps ≡ (events.AddTry, tried result) ∷ self.old.steps }
        ensures none_won { self.new.view.releases ≡ self.old.view.releases }
    {
        let shared = &gate.table.shared;
        let found = shared.fetch_add::<AddsTry>(&mut self.seat, SHARED, 1);
        !is_zero(found)
    }

    /// Adds 1 to the shared word. Returns whether DEAD was clear.
    #[inline]
    pub(crate) fn add_live(&mut self, gate: &GateTable) -> bool
        requires own { self.old.gate ≡ facts_of gate.now }
        requires enabled { IsEnabled (hinders_pass (sizes_at gate.now.key) self.old.view.standing events.AddLive) }
        ensures own { self.new.gate ≡ self.old.gate }
        ensures step { PassStep (facts_of gate.now) events.AddLive self.old.view self.new.view (tried result) }
        ensures steps { self.new.steps ≡ (events.AddLive, tried result) ∷ self.old.steps }
        ensures none_won { self.new.view.releases ≡ self.old.view.releases }
    {
        let shared = &gate.table.shared;
        let found = shared.fetch_add::<AddsLive>(&mut self.seat, SHARED, 1);
        !is_dead(found)
    }

    /// Adds to the shared word for a pass that holds a reference.
    #[inline]
    pub(crate) fn add_get(&mut self, gate: &GateTable, n: u32)
        requires own { self.old.gate ≡ facts_of gate.now }
        requires enabled { IsEnabled (hinders_pass (sizes_at gate.now.key) self.old.view.standing (events.AddGet n)) }
        ensures own { self.new.gate ≡ self.old.gate }
        ensures step { PassStep (facts_of gate.now) (events.AddGet n) self.old.view self.new.view Given }
        ensures steps { self.new.steps ≡ (events.AddGet n, Given) ∷ self.old.steps }
    {
        let shared = &gate.table.shared;
        shared.fetch_add::<AddsGet>(&mut self.seat, SHARED, u64::from(n));
    }

    /// Subtracts from the shared word. Returns whether that left DEAD alone.
    #[inline]
    pub(crate) fn subtract(&mut self, gate: &GateTable, n: u32) -> bool
        requires own { self.old.gate ≡ facts_of gate.now }
        requires enabled { IsEnabled (hinders_pass (sizes_at gate.now.key) self.old.view.standing (events.Sub n)) }
        ensures own { self.new.gate ≡ self.old.gate }
        ensures step { PassStep (facts_of gate.now) (events.Sub n) self.old.view self.new.view (left result) }
        ensures steps { self.new.steps ≡ (events.Sub n, left result) ∷ self.old.steps }
    {
        let n = u64::from(n);
        let shared = &gate.table.shared;
        let found = shared.fetch_sub::<Subtracts>(&mut self.seat, SHARED, n);
        found.wrapping_sub(n) == DEAD
    }

    /// Takes back what a refused try added. Returns whether that left DEAD alone.
    #[inline]
    pub(crate) fn undo(&mut self, gate: &GateTable) -> bool
        requires own { self.old.gate ≡ facts_of gate.now }
        requires enabled { IsEnabled (hinders_pass (sizes_at gate.now.key) self.old.view.standing events.Undo) }
        ensures own { self.new.gate ≡ self.old.gate }
        ensures step { PassStep (facts_of gate.now) events.Undo self.old.view self.new.view (left result) }
        ensures steps { self.new.steps ≡ (events.Undo, left result) ∷ self.old.steps }
    {
        let shared = &gate.table.shared;
        let found = shared.fetch_sub::<Undoes>(&mut self.seat, SHARED, 1);
        found.wrapping_sub(1) == DEAD
    }

    /// Exchanges DEAD alone for DEAD and ZERO, once. A win is the release.
    #[inline]
    pub(crate) fn mark(&mut self, gate: &GateTable) -> Put
        requires own { self.old.gate ≡ facts_of gate.now }
        requires enabled { IsEnabled (hinders_pass (sizes_at gate.now.key) self.old.view.standing events.Mark) }
        ensures own { self.new.gate ≡ self.old.gate }
        ensures step { PassStep (facts_of gate.now) events.Mark self.old.view self.new.view (marked result) }
        ensures steps { self.new.steps ≡ (events.Mark, marked result) ∷ self.old.steps }
    {
        let shared = &gate.table.shared;
        let found = shared.compare_exchange::<Marks>(&mut self.seat, SHARED, DEAD, DEAD | ZERO);
        Put::of(found == DEAD)
    }

    /// Loads the shared word.
    #[inline]
    pub(crate) fn look(&mut self, gate: &GateTable) -> u64
        requires own { self.old.gate ≡ facts_of gate.now }
        requires enabled { IsEnabled (hinders_pass (sizes_at gate.now.key) self.old.view.standing events.LookShared) }
        ensures own { self.new.gate ≡ self.old.gate }
        ensures step { PassStep (facts_of gate.now) events.LookShared self.old.view self.new.view (Shared result) }
        ensures steps { self.new.steps ≡ (events.LookShared, Shared result) ∷ self.old.steps }
    {
        gate.table.shared.load::<Looks>(&mut self.seat, SHARED)
    }

    /// Loads the front.
    #[inline]
    pub(crate) fn load_front(&mut self, gate: &GateTable) -> u64
        requires own { self.old.gate ≡ facts_of gate.now }
        requires enabled { IsEnabled (hinders_pass (sizes_at gate.now.key) self.old.view.standing events.LoadFront) }
        ensures own { self.new.gate ≡ self.old.gate }
        ensures step { PassStep (facts_of gate.now) events.LoadFront self.old.view self.new.view (Number result) }
        ensures steps { self.new.steps ≡ (events.LoadFront, Number result) ∷ self.old.steps }
    {
        gate.table.shared.load::<LoadsFront>(&mut self.seat, FRONT)
    }

    /// Loads the guarded word `k`.
    #[inline]
    pub(crate) fn load_word(&mut self, gate: &GateTable, k: u32) -> u64
        requires own { self.old.gate ≡ facts_of gate.now }
        requires enabled { IsEnabled (hinders_pass (sizes_at gate.now.key) self.old.view.standing (events.LoadWord k)) }
        ensures own { self.new.gate ≡ self.old.gate }
        ensures step { PassStep (facts_of gate.now) (events.LoadWord k) self.old.view self.new.view (Number result) }
        ensures steps { self.new.steps ≡ (events.LoadWord k, Number result) ∷ self.old.steps }
    {
        let place = FIRST_WORD + k as usize;
        gate.table.shared.load::<LoadsWord>(&mut self.seat, place)
    }

    /// Ends a subtraction: marks the zero if it left DEAD alone.
    #[inline]
    fn end_put(&mut self, gate: &GateTable, to_mark: bool) -> Put
        requires own { self.old.gate ≡ facts_of gate.now }
        requires owed { self.old.view.standing.pending ≡ owed to_mark }
        ensures view { self.new ≡ record self.old { view = after_put result self.old.view.standing.held self.old.view; steps = self.new.steps } }
        ensures steps { EndsPut to_mark result self.old.steps self.new.steps }
    {
        if to_mark {
            self.mark(gate)
        } else {
            Put::NotLast
        }
    }

    /// Puts back the 1 that a refused try added.
    #[inline]
    pub(crate) fn put_back(&mut self, gate: &GateTable) -> Put
        requires own { self.old.gate ≡ facts_of gate.now }
        requires owed { self.old.view.standing.pending ≡ OneToUndo }
        ensures view { self.new ≡ record self.old { view = after_put result self.old.view.standing.held self.old.view; steps = self.new.steps } }
        ensures steps { SubtractsOnce events.Undo result self.old.steps self.new.steps }
        ensures few { self.new.view.releases ≤ 2 * KILL_LIMIT }
    {
        let to_mark = self.undo(gate);
        self.end_put(gate, to_mark)
    }

    /// Ends a try that took its reference, or was refused.
    #[inline]
    pub(crate) fn end_try(&mut self, gate: &GateTable, is_given: bool) -> Tried
        requires own { self.old.gate ≡ facts_of gate.now }
        requires owed { self.old.view.standing.pending ≡ to_take_back is_given }
        requires few { self.old.view.releases ≤ 2 * KILL_LIMIT }
        ensures answer { is_refused result ≡ not is_given }
        ensures view { self.new ≡ record self.old { view = after_try result self.old.view; steps = self.new.steps } }
        ensures steps { TakesBack result self.old.steps self.new.steps }
        ensures few { self.new.view.releases ≤ 2 * KILL_LIMIT }
    {
        if is_given {
            Tried::Given
        } else {
            Tried::Refused(self.put_back(gate))
        }
    }

    /// Drops references that the pass holds.
    #[inline]
    pub(crate) fn drop_held(&mut self, gate: &GateTable, n: u32) -> Put
        requires own { self.old.gate ≡ facts_of gate.now }
        requires owed { self.old.view.standing.pending ≡ Nothing }
        requires held { (1 ≤ n) × (n ≤ self.old.view.standing.held) }
        ensures view { self.new ≡ record self.old { view = after_put result (self.old.view.standing.held - n) self.old.view; steps = self.new.steps } }
        ensures steps { SubtractsOnce (events.Sub n) result self.old.steps self.new.steps }
        ensures few { self.new.view.releases ≤ 2 * KILL_LIMIT }
    {
        let to_mark = self.subtract(gate, n);
        self.end_put(gate, to_mark)
    }
}
