//! The atomic steps of the control, each of which is one event of the core's machine.
ghost use Rattle.std.specs.Prelude.{◌≡◌, ◌*◌, ◌+◌, ◌<◌, ◌≤◌, [], None, true};
ghost use Rattle.percpu_core.specs.declared.control_event.ControlEvent.TheVariants as events;
ghost use Rattle.percpu_core.specs.declared.phase.Phase.TheVariants.{LiveAtomic, Confirmed, Dead};
ghost use Rattle.percpu_core.specs.declared.reply.Reply.TheVariants.{Done, Shared};
ghost use Rattle.percpu_core.specs.declared.view.View.TheVariants.{OfControl};
ghost use Rattle.percpu_core.specs.declared.limits.TheConstants.{KILL_LIMIT, PASS_LIMIT};
ghost use Rattle.percpu_core.specs.Machine.{IsEnabled};
ghost use Rattle.percpu_core.specs.ControlSteps.{hinders_control};
ghost use Rattle.percpu_core.specs.Phases.{is_live};
ghost use Rattle.percpu_gate.specs.Seats.{FindsZero, fresh_pass, SitsAsControl, facts_of, gate_of, control_of, ControlFinds, ControlStep, left, marked};
ghost use Rattle.percpu_core.specs.SeatLaws.{with_one_more};
ghost use Rattle.percpu_gate.specs.Rule.{sizes_at, after_retire};
ghost use Rattle.percpu_gate.specs.Calls.{holding};
ghost use Rattle.percpu_gate.specs.ControlCalls.{standing, after_mark_dead, after_drop_base, after_revival};

mod switch;

use crate::control_plays::{
    ClearsDead, Confirms, DropsBase, LooksAtMarks, MakesPass, MarksZero, SetsDead, StoresNextFront,
    StoresWord, TakesBase, TakesIn,
};
use crate::pass_seat::PassSeat;
use crate::rule::SeatView;
use crate::table::{FIRST_WORD, FRONT, GateTable, SHARED};
use crate::tried::Put;
use atomic_table::Seat;
use percpu_words::{DEAD, ZERO, is_zero};
use std::marker::Model;

/// The control's seat at the table of its gate.
#[derive(Drop)]
pub(crate) struct ControlSeat {
    seat: Seat<(), SeatView>,
}

impl Model for ControlSeat {
    ghost use Rattle.percpu_gate.specs.Seats.{ControlSeatFacts, gate_of, control_of, SitsAsControl};

    ghost Value = { ControlSeatFacts };

    ghost view = { λ c. record { gate = gate_of c.seat.table_id c.seat.me.0; view = control_of c.seat.me.0.view; moves = c.seat.me.0.moves } };

    ghost invariant = { λ c. SitsAsControl c.seat.me };
}

impl ControlSeat {
    /// The control's seat at a table.
    pub(crate) fn of(seat: Seat<(), SeatView>) -> ControlSeat
        requires { SitsAsControl seat.me }
        ensures { result ≡ record { gate = gate_of seat.table_id seat.me.0; view = control_of seat.me.0.view; moves = seat.me.0.moves } }
    {
        ControlSeat { seat }
    }

    /// The seat of a control that ends.
    pub(crate) fn into_seat(self) -> Seat<(), SeatView>
        ensures { (gate_of result.table_id result.me.0 ≡ self.gate) × (result.me ≡ (record result.me.0 { view = OfControl self.view }, [])) }
    {
        self.seat
    }

    /// Returns a seat for a new pass. A control makes at most 1,024.
    pub(crate) fn make_pass(&mut self, gate: &GateTable) -> PassSeat
        requires own { self.old.gate ≡ facts_of gate.now }
        requires few { self.old.view.passes < PASS_LIMIT }
        ensures view { self.new ≡ record self.old { view = with_one_more self.old.view } }
        ensures pass { result ≡ fresh_pass self.old.gate }
    {
        PassSeat::of(gate.table.shared.split_seat::<MakesPass>(&mut self.seat))
    }

    /// Takes in a pass that holds nothing.
    pub(crate) fn take_in(&mut self, gate: &GateTable, pass: PassSeat)
        requires own { (self.old.gate ≡ facts_of gate.now) × (pass.gate ≡ facts_of gate.now) }
        requires idle { pass.view.standing ≡ holding 0 }
        ensures view { self.new ≡ record self.old { view = after_retire pass.view self.old.view } }
    {
        let shared = &gate.table.shared;
        shared.join_seat::<TakesIn>(&mut self.seat, pass.into_seat());
    }

    /// Sets DEAD.
    #[inline]
    pub(crate) fn set_dead(&mut self, gate: &GateTable)
        requires own { self.old.gate ≡ facts_of gate.now }
        requires enabled { IsEnabled (hinders_control (sizes_at gate.now.key) true None self.old.view.standing events.MarkDead) }
        requires live { is_live self.old.view.standing.phase ≡ true }
        requires stands { self.old.view.standing ≡ standing self.old.view.standing.phase self.old.view.standing.kills }
        ensures view { self.new ≡ record self.old { view = after_mark_dead self.old.view } }
    {
        let shared = &gate.table.shared;
        shared.fetch_or::<SetsDead>(&mut self.seat, SHARED, DEAD);
    }

    /// Stores the odd front of a kill.
    #[inline]
    pub(crate) fn confirm(&mut self, gate: &GateTable, front: u64)
        requires own { self.old.gate ≡ facts_of gate.now }
        requires next { front ≡ self.old.view.front + 1 }
        requires enabled { IsEnabled (hinders_control (sizes_at gate.now.key) true None self.old.view.standing events.Confirm) }
        ensures own { self.new.gate ≡ self.old.gate }
        ensures step { ControlStep (facts_of gate.now) events.Confirm self.old.view self.new.view Done }
        ensures moves { self.new.moves ≡ self.old.moves }
    {
        gate.table
            .shared
            .store::<Confirms>(&mut self.seat, FRONT, front);
    }

    /// Drops the initial reference. Returns whether that left DEAD alone.
    #[inline]
    pub(crate) fn drop_base(&mut self, gate: &GateTable) -> bool
        requires own { self.old.gate ≡ facts_of gate.now }
        requires enabled { IsEnabled (hinders_control (sizes_at gate.now.key) true None self.old.view.standing events.DropBase) }
        ensures own { self.new.gate ≡ self.old.gate }
        ensures step { ControlStep (facts_of gate.now) events.DropBase self.old.view self.new.view (left result) }
        ensures moves { self.new.moves ≡ self.old.moves }
    {
        let shared = &gate.table.shared;
        let found = shared.fetch_sub::<DropsBase>(&mut self.seat, SHARED, 1);
        found.wrapping_sub(1) == DEAD
    }

    /// Exchanges DEAD alone for DEAD and ZERO, once. A win is the release.
    #[inline]
    pub(crate) fn mark(&mut self, gate: &GateTable) -> Put
        requires own { self.old.gate ≡ facts_of gate.now }
        requires enabled { IsEnabled (hinders_control (sizes_at gate.now.key) true None self.old.view.standing events.Mark) }
        ensures own { self.new.gate ≡ self.old.gate }
        ensures step { ControlStep (facts_of gate.now) events.Mark self.old.view self.new.view (marked result) }
        ensures moves { self.new.moves ≡ self.old.moves }
    {
        let shared = &gate.table.shared;
        let found = shared.compare_exchange::<MarksZero>(&mut self.seat, SHARED, DEAD, DEAD | ZERO);
        Put::of(found == DEAD)
    }

    /// Takes the initial reference back. Returns the shared word as it was.
    #[inline]
    pub(crate) fn take_base(&mut self, gate: &GateTable) -> u64
        requires own { self.old.gate ≡ facts_of gate.now }
        requires enabled { IsEnabled (hinders_control (sizes_at gate.now.key) true None self.old.view.standing events.TakeBase) }
        ensures own { self.new.gate ≡ self.old.gate }
        ensures step { ControlFinds (facts_of gate.now) events.TakeBase self.old.view self.new.view result }
        ensures moves { self.new.moves ≡ self.old.moves }
    {
        let shared = &gate.table.shared;
        shared.fetch_add::<TakesBase>(&mut self.seat, SHARED, 1)
    }

    /// Stores the even front of the life that begins.
    #[inline]
    pub(crate) fn next_front(&mut self, gate: &GateTable, front: u64)
        requires own { self.old.gate ≡ facts_of gate.now }
        requires next { front ≡ self.old.view.front + 1 }
        requires enabled { IsEnabled (hinders_control (sizes_at gate.now.key) true None self.old.view.standing events.NextFront) }
        ensures own { self.new.gate ≡ self.old.gate }
        ensures step { ControlStep (facts_of gate.now) events.NextFront self.old.view self.new.view Done }
        ensures moves { self.new.moves ≡ self.old.moves }
    {
        gate.table
            .shared
            .store::<StoresNextFront>(&mut self.seat, FRONT, front);
    }

    /// Clears DEAD and ZERO.
    #[inline]
    pub(crate) fn clear_dead(&mut self, gate: &GateTable)
        requires own { self.old.gate ≡ facts_of gate.now }
        requires enabled { IsEnabled (hinders_control (sizes_at gate.now.key) true None self.old.view.standing events.ClearDead) }
        ensures own { self.new.gate ≡ self.old.gate }
        ensures step { ControlStep (facts_of gate.now) events.ClearDead self.old.view self.new.view Done }
        ensures moves { self.new.moves ≡ self.old.moves }
    {
        let shared = &gate.table.shared;
        shared.fetch_and::<ClearsDead>(&mut self.seat, SHARED, DEAD - 1);
    }

    /// Stores a guarded word, for a control that knows ZERO.
    #[inline]
    pub(crate) fn store_word(&mut self, gate: &GateTable, k: u32, v: u64)
        requires own { self.old.gate ≡ facts_of gate.now }
        requires zero { self.old.view.knows_zero ≡ true }
        requires enabled { IsEnabled (hinders_control (sizes_at gate.now.key) true None self.old.view.standing (events.StoreWord k v)) }
        ensures own { self.new.gate ≡ self.old.gate }
        ensures step { ControlStep (facts_of gate.now) (events.StoreWord k v) self.old.view self.new.view Done }
        ensures moves { self.new.moves ≡ self.old.moves }
    {
        let place = FIRST_WORD + k as usize;
        gate.table
            .shared
            .store::<StoresWord>(&mut self.seat, place, v);
    }

    /// Loads the shared word.
    #[inline]
    pub(crate) fn look(&mut self, gate: &GateTable) -> u64
        requires own { self.old.gate ≡ facts_of gate.now }
        requires enabled { IsEnabled (hinders_control (sizes_at gate.now.key) true None self.old.view.standing events.LookShared) }
        ensures own { self.new.gate ≡ self.old.gate }
        ensures step { ControlStep (facts_of gate.now) events.LookShared self.old.view self.new.view (Shared result) }
        ensures moves { self.new.moves ≡ self.old.moves }
    {
        gate.table
            .shared
            .load::<LooksAtMarks>(&mut self.seat, SHARED)
    }

    /// Drops the initial reference, and marks the zero if that left DEAD alone.
    pub(crate) fn drop_initial(&mut self, gate: &GateTable) -> Put
        requires own { self.old.gate ≡ facts_of gate.now }
        requires confirmed { self.old.view.standing ≡ standing Confirmed self.old.view.standing.kills }
        ensures view { self.new ≡ record self.old { view = after_drop_base result self.old.view } }
        ensures few { self.new.view.releases ≤ 2 * KILL_LIMIT }
    {
        if self.drop_base(gate) {
            self.mark(gate)
        } else {
            Put::NotLast
        }
    }

    /// Takes the initial reference back, stores the next front and clears both marks. Returns whether ZERO was set when
    /// the reference was taken.
    pub(crate) fn revive(&mut self, gate: &GateTable, front: u64) -> bool
        requires own { self.old.gate ≡ facts_of gate.now }
        requires dead { self.old.view.standing ≡ standing Dead self.old.view.standing.kills }
        requires next { front ≡ self.old.view.front + 1 }
        ensures view { self.new ≡ record self.old { view = after_revival LiveAtomic result self.old.view } }
        ensures base { FindsZero (facts_of gate.now) self.old.view result }
    {
        let found = self.take_base(gate);
        self.next_front(gate, front);
        self.clear_dead(gate);
        is_zero(found)
    }
}
